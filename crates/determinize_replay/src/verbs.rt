//! The verbs of jobs, run through public calls, and those that have no NFA.

use crate::job::Job;
use crate::{automata, records, values};
use determinize_below::{Input, LookMatcher, NFA, PatternID, StateID, nfa};
use determinize_core::start::{Config, Start, StartByteMap};
use determinize_core::state::State;
use example_walks::error::{Part, TextError};
use example_walks::fields::Fields;
use example_walks::values::{bytes, number, optional_byte};
use std::alloc::{AllocError, Allocator};

/// Writes the output of a job, whose calls allocate from `alloc`.
pub fn write_output<A: Allocator + Copy>(
    alloc: A,
    job: &Job<'_>,
    text: &mut String,
) -> Result<(), TextError> {
    let fields = job.fields();
    match job.verb() {
        "start" => start(alloc, fields, text),
        "bytemap" => bytemap(fields, text),
        "fromusize" => fromusize(fields, text),
        "dead" => dead(alloc, text),
        "build" => records::build(alloc, fields, text),
        "size" => size(alloc, fields, text),
        "walk" => automata::walk(alloc, fields, text),
        "readers" => automata::readers(alloc, fields, text),
        verb => automata::write_output(alloc, verb, fields, &fields.nfa(alloc)?, text),
    }
}

/// Runs `start`: writes the start kind and the look-behind byte of a range of a haystack.
fn start<A: Allocator + Copy>(
    alloc: A,
    fields: &Fields<'_>,
    text: &mut String,
) -> Result<(), TextError> {
    let matcher = fields.matcher()?;
    let haystack = bytes(alloc, fields.value_or_none("hay"))?;
    match look_behind(fields, haystack.as_slice())? {
        Some(byte) => {
            let kind = StartByteMap::new(&matcher).get(byte);
            writeln!(text, "kind {kind:?} {byte:02x}")?;
        }
        None => text.push_str("kind Text -\n")?,
    }
    Ok(())
}

/// Returns the look-behind byte of the job's range of a haystack, in the job's direction.
fn look_behind(fields: &Fields<'_>, haystack: &[u8]) -> Result<Option<u8>, TextError> {
    let Some((start, end)) = fields.value_or_none("range").split_once("..") else {
        return Err(TextError::Malformed(Part::Range));
    };
    let (start, end) = (number(start)?, number(end)?);
    if end > haystack.len() || start > end + 1 {
        return Err(TextError::Malformed(Part::Range));
    }
    let input = Input::new(haystack).range(start..end);
    let config = if fields.is_reverse()? {
        Config::from_input_reverse(&input)
    } else {
        Config::from_input_forward(&input)
    };
    Ok(config.get_look_behind())
}

/// Runs `bytemap`: writes the start kind of a byte, or of each.
fn bytemap(fields: &Fields<'_>, text: &mut String) -> Result<(), TextError> {
    let map = StartByteMap::new(&fields.matcher()?);
    let asked = optional_byte(fields.value_or_none("byte"))?;
    for byte in 0..=255 {
        if asked.unwrap_or(byte) == byte {
            let kind = map.get(byte);
            writeln!(text, "{byte:02x} {kind:?}")?;
        }
    }
    Ok(())
}

/// Runs `fromusize`: writes the start kind with a number.
fn fromusize(fields: &Fields<'_>, text: &mut String) -> Result<(), TextError> {
    match Start::from_usize(number(fields.value_or_none("n"))?) {
        Some(kind) => writeln!(text, "some {kind:?}")?,
        None => text.push_str("none\n")?,
    }
    Ok(())
}

/// Runs `dead`: writes the bytes of the dead state.
fn dead<A: Allocator>(alloc: A, text: &mut String) -> Result<(), TextError> {
    let state = State::dead(alloc)?;
    values::write_bytes(text, state.as_bytes())?;
    Ok(())
}

/// Runs `size`: writes the number of states of an NFA of `states` states, of which the first
/// `matches` are `Match` states.
fn size<A: Allocator + Copy>(
    alloc: A,
    fields: &Fields<'_>,
    text: &mut String,
) -> Result<(), TextError> {
    let count = number(fields.value_or_none("states"))?;
    let matches = number(fields.value_or_none("matches"))?;
    let (states, zero) = (states(alloc, count, matches)?, StateID::ZERO);
    let nfa = NFA::from_parts(alloc, states, zero, zero, false, LookMatcher::new())?;
    writeln!(text, "states {}", nfa.len())?;
    Ok(())
}

/// Returns `count` states, of which the first `matches` are `Match` states.
fn states<A: Allocator + Copy>(
    alloc: A,
    count: usize,
    matches: usize,
) -> Result<Vec<nfa::State<A>, A>, AllocError> {
    let mut states = Vec::new(alloc);
    for index in 0..count {
        let state = match PatternID::new(index) {
            Ok(pattern_id) if index < matches => nfa::State::Match { pattern_id },
            _ => nfa::State::Fail,
        };
        states.push(state)?;
    }
    Ok(states)
}
