//! The verbs over an NFA.

ghost use Rattle.std.specs.Prelude.{◌≡◌, ◌<◌, length, IfOk};
ghost use Rattle.determinize_below.specs.Nfa.{AllResolve};

use crate::{records, values};
use determinize_below::{HalfMatch, NFA, SparseSets, StateID, Unit};
use determinize_core::determinize;
use determinize_core::start::Start;
use determinize_core::state::{State, StateBuilderEmpty};
use example_walks::error::{Part, TextError};
use example_walks::fields::Fields;
use example_walks::values::{Item, LastMatch, byte, number};
use example_walks::walk;
use std::alloc::{AllocError, Allocator};

/// Runs `walk`: writes the bytes of each state, and the last match.
pub fn walk<A: Allocator + Copy>(
    alloc: A,
    fields: &Fields<'_>,
    text: &mut String,
) -> Result<(), TextError> {
    let states = walk::walk(alloc, fields)?;
    write_states(text, states.as_slice())?;
    Ok(())
}

/// Writes the bytes of each state of a walk, and its last match.
pub fn write_states<A: Allocator>(
    text: &mut String,
    states: &[State<A>],
) -> Result<(), AllocError> {
    for state in states {
        values::write_bytes(text, state.as_bytes())?;
    }
    write_match(text, determinize::last_match(states))
}

/// Writes a match or `none` in a line.
pub fn write_match(text: &mut String, found: Option<HalfMatch>) -> Result<(), AllocError> {
    writeln!(text, "{}", LastMatch(found))
}

/// Runs `readers`: writes the results of the readers of one of the states of a walk.
pub fn readers<A: Allocator + Copy>(
    alloc: A,
    fields: &Fields<'_>,
    text: &mut String,
) -> Result<(), TextError> {
    let index = number(fields.value_or_none("at"))?;
    let states = walk::walk(alloc, fields)?;
    match states.get(index) {
        Some(state) => records::write_readers(alloc, text, state)?,
        None => return Err(TextError::Malformed(Part::Position)),
    }
    Ok(())
}

/// Writes the output of the job of another verb over an NFA.
pub fn write_output<A: Allocator + Copy>(
    alloc: A,
    verb: &str,
    fields: &Fields<'_>,
    nfa: &NFA<A>,
    text: &mut String,
) -> Result<(), TextError> {
    match verb {
        "closure" => closure(alloc, fields, nfa, text),
        "lookbehind" => lookbehind(alloc, fields, nfa, text),
        "next" => next(alloc, fields, nfa, text),
        _ => addstates(alloc, fields, nfa, text),
    }
}

/// Runs `closure`: writes the set after the call.
fn closure<A: Allocator + Copy>(
    alloc: A,
    fields: &Fields<'_>,
    nfa: &NFA<A>,
    text: &mut String,
) -> Result<(), TextError> {
    let start = StateID::read(fields.value_or_none("from"))?;
    if start.as_usize() >= nfa.len() {
        return Err(TextError::Malformed(Part::Unresolved));
    }
    let have = values::look_set(fields.value_or_none("look"))?;
    let mut set = records::set(alloc, nfa, fields.value_or_none("held"))?;
    let mut stack = Vec::new(alloc);
    determinize::epsilon_closure(nfa, start, have, &mut stack, &mut set)?;
    text.push_str("set ")?;
    values::write_ids(text, set.as_slice())?;
    text.push('\n')?;
    Ok(())
}

/// Returns the start kind of this name.
fn start_kind(text: &str) -> Result<Start, TextError> {
    match text {
        "NonWordByte" => Ok(Start::NonWordByte),
        "WordByte" => Ok(Start::WordByte),
        "Text" => Ok(Start::Text),
        "LineLF" => Ok(Start::LineLF),
        "LineCR" => Ok(Start::LineCR),
        "CustomLineTerminator" => Ok(Start::CustomLineTerminator),
        _ => Err(TextError::Malformed(Part::StartKind)),
    }
}

/// Runs `lookbehind`: writes the bytes of an empty record with the look-behind of its start.
fn lookbehind<A: Allocator + Copy>(
    alloc: A,
    fields: &Fields<'_>,
    nfa: &NFA<A>,
    text: &mut String,
) -> Result<(), TextError> {
    let kind = start_kind(fields.value_or_none("kind"))?;
    let mut builder = StateBuilderEmpty::new(alloc).into_matches()?;
    determinize::set_lookbehind_from_start(nfa, &kind, &mut builder);
    values::write_bytes(text, builder.into_nfa().as_bytes())?;
    Ok(())
}

/// Returns the unit of a byte or of `eoi`.
fn unit(text: &str) -> Result<Unit, TextError> {
    if text == "eoi" {
        return Ok(Unit::eoi(256));
    }
    Ok(Unit::u8(byte(text)?))
}

/// Returns the state of the job's record, or an error if one of its ids is not a state of the NFA.
fn resolved_state<A: Allocator + Copy>(
    alloc: A,
    fields: &Fields<'_>,
    nfa: &NFA<A>,
) -> Result<State<A>, TextError>
    ensures { IfOk result (λ state. AllResolve nfa.now state.states) }
{
    let state = records::builder(alloc, fields)?.to_state()?;
    if records::resolves(&state, nfa.len()) {
        Ok(state)
    } else {
        Err(TextError::Malformed(Part::Unresolved))
    }
}

/// Returns the two sets of the job, with the capacity of the NFA.
fn sparse_sets<A: Allocator + Copy>(
    alloc: A,
    fields: &Fields<'_>,
    nfa: &NFA<A>,
) -> Result<SparseSets<A>, TextError>
    ensures set1 { IfOk result (λ sparses. sparses.set1.capacity ≡ length nfa.now.states) }
    ensures set2 { IfOk result (λ sparses. sparses.set2.capacity ≡ length nfa.now.states) }
{
    Ok(SparseSets {
        set1: records::set(alloc, nfa, fields.value_or_none("set1"))?,
        set2: records::set(alloc, nfa, fields.value_or_none("set2"))?,
    })
}

/// Runs `next`: writes the bytes of the next state after the job's record.
fn next<A: Allocator + Copy>(
    alloc: A,
    fields: &Fields<'_>,
    nfa: &NFA<A>,
    text: &mut String,
) -> Result<(), TextError> {
    let kind = fields.match_kind()?;
    let unit = unit(fields.value_or_none("unit"))?;
    let state = resolved_state(alloc, fields, nfa)?;
    let mut sparses = sparse_sets(alloc, fields, nfa)?;
    let (mut stack, empty) = (Vec::new(alloc), StateBuilderEmpty::new(alloc));
    let next = determinize::next(nfa, kind, &mut sparses, &mut stack, &state, unit, empty)?;
    values::write_bytes(text, next.as_bytes())?;
    Ok(())
}

/// Runs `addstates`: writes the bytes of the job's record with the states of a set added.
fn addstates<A: Allocator + Copy>(
    alloc: A,
    fields: &Fields<'_>,
    nfa: &NFA<A>,
    text: &mut String,
) -> Result<(), TextError> {
    let mut builder = records::builder(alloc, fields)?;
    let set = records::set(alloc, nfa, fields.value_or_none("set"))?;
    determinize::add_nfa_states(nfa, &set, &mut builder)?;
    values::write_bytes(text, builder.as_bytes())?;
    Ok(())
}
