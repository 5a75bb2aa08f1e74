//! Builds the record of a job and sets of NFA states, and writes the results of the readers of a
//! state.

ghost use Rattle.std.specs.Prelude.{◌≡◌, ◌<◌, All, length, IsTrue, IfOk, OnOk};

use crate::values;
use determinize_below::{NFA, PatternID, SparseSet, StateID};
use determinize_core::state::{State, StateBuilderEmpty, StateBuilderMatches, StateBuilderNFA};
use example_walks::error::{Part, TextError};
use example_walks::fields::Fields;
use example_walks::values::{Item, is_none};
use std::alloc::{AllocError, Allocator};

/// Returns a builder with the whole record of the job, by way of a clone of each builder.
pub fn builder<A: Allocator + Copy>(
    alloc: A,
    fields: &Fields<'_>,
) -> Result<StateBuilderNFA<A>, TextError> {
    let mut builder = entered(alloc, fields)?.clone()?.into_nfa();
    let need = values::look_set(fields.value_or_none("need"))?;
    builder.set_look_need(|_| need);
    add_states(&mut builder, fields.value_or_none("ids"))?;
    Ok(builder.clone()?)
}

/// Returns a builder with the patterns, flags and look-have of the job's record.
pub fn entered<A: Allocator + Copy>(
    alloc: A,
    fields: &Fields<'_>,
) -> Result<StateBuilderMatches<A>, TextError> {
    let mut builder = with_patterns(alloc, fields.value_or_none("pids"))?;
    if values::flag(fields.value_or_none("fw"))? {
        builder.set_is_from_word();
    }
    if values::flag(fields.value_or_none("half"))? {
        builder.set_is_half_crlf();
    }
    let have = values::look_set(fields.value_or_none("have"))?;
    builder.set_look_have(|_| have);
    Ok(builder)
}

/// Returns a builder with the patterns of a list, or an error if one of them is repeated.
fn with_patterns<A: Allocator + Copy>(
    alloc: A,
    text: &str,
) -> Result<StateBuilderMatches<A>, TextError> {
    let mut builder = StateBuilderEmpty::new(alloc).clone()?.into_matches()?;
    let mut patterns = Vec::new(alloc);
    add_patterns(&mut builder, &mut patterns, text)?;
    Ok(builder)
}

/// Adds the patterns of a list to a builder whose patterns are `patterns`, and to these. Returns an
/// error if one is repeated.
fn add_patterns<A: Allocator>(
    builder: &mut StateBuilderMatches<A>,
    patterns: &mut Vec<PatternID, A>,
    text: &str,
) -> Result<(), TextError>
    requires { builder.old.patterns ≡ patterns.old.items }
{
    if is_none(text) {
        return Ok(());
    }
    for word in text.split(',') {
        let id = PatternID::read(word)?;
        if patterns.contains(&id) {
            return Err(TextError::RepeatedPattern);
        }
        builder.add_match_pattern_id(id)?;
        patterns.push(id)?;
    }
    Ok(())
}

/// Adds the NFA states of a list to a builder.
fn add_states<A: Allocator>(builder: &mut StateBuilderNFA<A>, text: &str) -> Result<(), TextError> {
    if !is_none(text) {
        for word in text.split(',') {
            builder.add_nfa_state_id(StateID::read(word)?)?;
        }
    }
    Ok(())
}

/// Returns a set of the ids of a list, or an error if one is not that of a state of the NFA.
pub fn set<A: Allocator + Copy>(
    alloc: A,
    nfa: &NFA<A>,
    text: &str,
) -> Result<SparseSet<A>, TextError>
    ensures { IfOk result (λ set. set.capacity ≡ length nfa.now.states) }
{
    let mut set = SparseSet::new(alloc, nfa.len())?;
    insert_all(&mut set, text)?;
    Ok(set)
}

/// Adds the ids of a list to a set. Returns an error if one is not below its capacity.
fn insert_all<A: Allocator>(set: &mut SparseSet<A>, text: &str) -> Result<(), TextError>
    ensures { OnOk result (set.new.capacity ≡ set.old.capacity) }
{
    if is_none(text) {
        return Ok(());
    }
    for word in text.split(',') {
        let id = StateID::read(word)?;
        if id.as_usize() >= set.capacity() {
            return Err(TextError::Malformed(Part::Unresolved));
        }
        set.insert(id);
    }
    Ok(())
}

/// Returns whether all NFA states of a state are below a number.
pub fn resolves<A: Allocator>(state: &State<A>, count: usize) -> bool
    ensures { IsTrue result → All (λ id. id < count) state.now.states }
{
    state.iter_nfa_state_ids().all(|id| id.as_usize() < count)
}

/// Runs `build`: writes the bytes of the job's record, and the results of the readers of a clone of
/// its state.
pub fn build<A: Allocator + Copy>(
    alloc: A,
    fields: &Fields<'_>,
    text: &mut String,
) -> Result<(), TextError> {
    let builder = builder(alloc, fields)?;
    values::write_bytes(text, builder.as_bytes())?;
    let state = builder.to_state()?;
    write_readers(alloc, text, &state.clone()?)?;
    Ok(())
}

/// Writes the results of the readers of a state, in three lines.
pub fn write_readers<A: Allocator + Copy>(
    alloc: A,
    text: &mut String,
    state: &State<A>,
) -> Result<(), AllocError> {
    write_match_readers(text, state)?;
    let from_word = u8::from(state.is_from_word());
    let half_crlf = u8::from(state.is_half_crlf());
    write!(text, "\nfw={from_word} half={half_crlf} have=")?;
    values::write_looks(text, state.look_have())?;
    text.push_str(" need=")?;
    values::write_looks(text, state.look_need())?;
    text.push_str("\nids=")?;
    let ids: Vec<StateID, A> = state.iter_nfa_state_ids().collect(alloc)?;
    values::write_ids(text, ids.as_slice())?;
    text.push('\n')
}

/// Writes the matches and the size of a state.
fn write_match_readers<A: Allocator + Copy>(
    text: &mut String,
    state: &State<A>,
) -> Result<(), AllocError> {
    let is_match = u8::from(state.is_match());
    let (count, usage) = (state.match_len(), state.memory_usage());
    write!(text, "match={is_match} len={count} pids=")?;
    match state.match_pattern_ids()? {
        None => text.push_str("none")?,
        Some(ids) => values::write_ids(text, ids.as_slice())?,
    }
    write!(text, " usage={usage}")
}
