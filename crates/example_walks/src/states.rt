//! Reads the states of an NFA.

use crate::error::{Part, TextError};
use crate::values::{self, Item};
use determinize_below::nfa::State;
use determinize_below::{DenseTransitions, PatternID, SparseTransitions, StateID, Transition};
use std::alloc::Allocator;

/// Returns the states of a text, one word each.
pub fn states<A: Allocator + Copy>(alloc: A, text: &str) -> Result<Vec<State<A>, A>, TextError> {
    let mut states = Vec::new(alloc);
    add_states(alloc, &mut states, text)?;
    Ok(states)
}

/// Adds the states of a text.
fn add_states<A: Allocator + Copy>(
    alloc: A,
    states: &mut Vec<State<A>, A>,
    text: &str,
) -> Result<(), TextError> {
    for word in text.split(' ') {
        if !word.is_empty() {
            let state = state(alloc, word)?;
            states.push(state)?;
        }
    }
    Ok(())
}

/// Returns the state of a word such as `BU:4,1`.
fn state<A: Allocator + Copy>(alloc: A, word: &str) -> Result<State<A>, TextError> {
    let (kind, parts) = word.split_once(':').unwrap_or((word, ""));
    let state = match kind {
        "B" => State::ByteRange {
            trans: Transition::read(parts)?,
        },
        "S" => State::Sparse(SparseTransitions {
            transitions: values::items(alloc, parts)?,
        }),
        "D" => dense(alloc, parts)?,
        "L" => look(parts)?,
        "U" => State::Union {
            alternates: values::items(alloc, parts)?,
        },
        "BU" => binary_union(parts)?,
        "C" => State::Capture {
            next: StateID::read(parts)?,
        },
        "F" => State::Fail,
        "M" => State::Match {
            pattern_id: PatternID::read(parts)?,
        },
        _ => return Err(TextError::Malformed(Part::State)),
    };
    Ok(state)
}

impl Item for Transition {
    /// Returns the transition of a text such as `61-7a>1` or `61>1`.
    fn read(text: &str) -> Result<Transition, TextError> {
        let Some((range, next)) = text.split_once('>') else {
            return Err(TextError::Malformed(Part::Transition));
        };
        let (start, end) = range.split_once('-').unwrap_or((range, range));
        Ok(Transition {
            start: values::byte(start)?,
            end: values::byte(end)?,
            next: StateID::read(next)?,
        })
    }
}

/// Writes the transitions of a text into a table. Returns an error for a range whose first byte is
/// above its last, since it would write nothing.
fn write_ranges(table: &mut [StateID; 256], parts: &str) -> Result<(), TextError> {
    if parts.is_empty() {
        return Ok(());
    }
    for part in parts.split(',') {
        let Transition { start, end, next } = Transition::read(part)?;
        if start > end {
            return Err(TextError::Malformed(Part::ByteRange));
        }
        for byte in start..=end {
            table[usize::from(byte)] = next;
        }
    }
    Ok(())
}

/// Returns a dense state.
fn dense<A: Allocator>(alloc: A, parts: &str) -> Result<State<A>, TextError> {
    let mut table = [StateID::ZERO; 256];
    write_ranges(&mut table, parts)?;
    let transitions = Vec::from_slice(alloc, &table)?;
    Ok(State::Dense(DenseTransitions { transitions }))
}

/// Returns a `Look` state.
fn look<A: Allocator>(parts: &str) -> Result<State<A>, TextError> {
    let Some((name, next)) = parts.split_once('>') else {
        return Err(TextError::Malformed(Part::Look));
    };
    Ok(State::Look {
        look: values::look(name)?,
        next: StateID::read(next)?,
    })
}

/// Returns a union of two states.
fn binary_union<A: Allocator>(parts: &str) -> Result<State<A>, TextError> {
    let Some((first, second)) = parts.split_once(',') else {
        return Err(TextError::Malformed(Part::Union));
    };
    Ok(State::BinaryUnion {
        alt1: StateID::read(first)?,
        alt2: StateID::read(second)?,
    })
}
