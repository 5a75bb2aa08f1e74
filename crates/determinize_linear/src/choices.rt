//! The steps of a run from a pair of a position and a state.

ghost use Rattle.std.specs.Prelude.{◌≡◌, ◌<◌, ◌++◌, ◌∷◌, [], Some, false, length, map, reverse, slice_get, suc, true, OnOk};
ghost use Rattle.std.specs.Option.{option_to_list};
ghost use Rattle.determinize_below.specs.Nfa.{is_dense_sound, is_sparse_sound};
ghost use Rattle.determinize_below.specs.Node.{node_of};
ghost use Rattle.determinize_below.specs.Truth.{IsUnit};
ghost use Rattle.determinize_below.specs.Semantics.{after_at, before_at, choices, holds, target_of};
ghost use Rattle.ordered_reach.specs.Runs.{placed};

use crate::assertions::holds;
use determinize_below::nfa::State;
use determinize_below::{Look, NFA, StateID};
use determinize_engine::text::Text;
use std::alloc::{AllocError, Allocator};

/// Returns the byte of a text at a position, or `None` at its end.
#[inline(always)]
fn byte_at(text: &Text<'_>, at: usize) -> Option<u8>
    ensures { result ≡ slice_get text.now.bytes at }
{
    if at < text.len() {
        Some(text.byte(at))
    } else {
        None
    }
}

/// Returns the byte before a position.
#[inline(always)]
pub(crate) fn byte_before(text: &Text<'_>, at: usize) -> Option<u8>
    ensures value { result ≡ before_at text.now at }
    ensures unit { IsUnit result }
{
    match at {
        0 => text.behind(),
        _ => byte_at(text, at - 1),
    }
}

/// Returns the unit after a position.
fn unit_after(text: &Text<'_>, at: usize) -> Option<u8>
    ensures { result ≡ after_at text.now at }
{
    match byte_at(text, at) {
        Some(byte) => Some(byte),
        None => text.ahead(),
    }
}

/// Returns whether an assertion holds at a position, for an NFA that reads forward.
fn holds_at<N: Allocator>(nfa: &NFA<N>, text: &Text<'_>, at: usize, look: Look) -> bool
    requires { nfa.now.reverse ≡ false }
    ensures { result ≡ holds nfa.now.reverse nfa.now.terminator
        (before_at text.now at) (after_at text.now at) look }
{
    let terminator = nfa.look_matcher().get_line_terminator();
    holds(
        look,
        terminator,
        byte_before(text, at),
        unit_after(text, at),
    )
}

/// Pushes a pair.
fn push<A: Allocator>(
    at: usize,
    id: StateID,
    stack: &mut Vec<(usize, StateID), A>,
) -> Result<(), AllocError>
    ensures { OnOk result (stack.new.items ≡ stack.old.items ++ (at, id) ∷ []) }
{
    stack.push((at, id))?;
    Ok(())
}

/// Pushes the pair that a state has a transition to over the byte at a position, if any.
fn push_target<N: Allocator, A: Allocator>(
    text: &Text<'_>,
    at: usize,
    state: &State<N>,
    stack: &mut Vec<(usize, StateID), A>,
) -> Result<(), AllocError>
    requires ascends { is_sparse_sound (node_of state.now) ≡ true }
    requires whole { is_dense_sound (node_of state.now) ≡ true }
    ensures { OnOk result (stack.new.items ≡ stack.old.items ++ map (placed (suc at))
        (option_to_list (target_of (slice_get text.now.bytes at) (node_of state.now)))) }
{
    if at >= text.len() {
        return Ok(());
    }
    match state.target(text.byte(at)) {
        Some(next) => push(at + 1, next, stack),
        None => Ok(()),
    }
}

/// Pushes the pairs of a position and these states, the last of them first.
fn push_each<A: Allocator>(
    at: usize,
    ids: &[StateID],
    stack: &mut Vec<(usize, StateID), A>,
) -> Result<(), AllocError>
    ensures { OnOk result
        (stack.new.items ≡ stack.old.items ++ reverse (map (placed at) ids.now)) }
{
    for id in ids.iter().rev().copied() {
        push(at, id, stack)?;
    }
    Ok(())
}

/// Pushes the pairs that follow a pair in runs, the most preferred last.
pub(crate) fn push_choices<N: Allocator, A: Allocator>(
    nfa: &NFA<N>,
    text: &Text<'_>,
    at: usize,
    id: StateID,
    stack: &mut Vec<(usize, StateID), A>,
) -> Result<(), AllocError>
    requires forward { nfa.now.reverse ≡ false }
    requires id { id < length nfa.now.states }
    ensures { OnOk result
        (stack.new.items ≡ stack.old.items ++ reverse (choices nfa.now text.now (at, id))) }
{
    let state = nfa.state(id);
    match state {
        State::Look { look, next } => {
            if !holds_at(nfa, text, at, *look) {
                return Ok(());
            }
            push(at, *next, stack)
        }
        State::Union { alternates } => push_each(at, alternates.as_slice(), stack),
        State::BinaryUnion { alt1, alt2 } => {
            push(at, *alt2, stack)?;
            push(at, *alt1, stack)
        }
        State::Capture { next } => push(at, *next, stack),
        _ => push_target(text, at, state, stack),
    }
}
