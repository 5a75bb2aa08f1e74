//! Epsilon closure: the NFA states reachable without input, in order of preference.
//!
//! One loop, [`explore`], searches depth first. The current list has the remaining edges of the
//! state that was expanded last, the stack those of the states before it. No state of the set is
//! expanded again, so cycles end. A [`Recorder`] receives each new state, a [`Counter`] each try.

ghost use Rattle.std.specs.Prelude.{◌≡◌, ◌+◌, ◌<◌, ◌≤◌, ℕ, List, [], ◌∷◌, ◌++◌, ◌⊎◌, None, IsTrue, drop, false, fold, length, reverse, IfNone, IfSome, IfOk, OnOk, OnErr, IsOk};
ghost use Rattle.determinize_below.specs.Edges.{edges, reach_past};
ghost use Rattle.determinize_below.specs.Semantics.{state_at};
ghost use Rattle.determinize_below.specs.Look.{has};
ghost use Rattle.determinize_below.specs.Nfa.{AllResolve, IsAccepted};
ghost use Rattle.determinize_below.specs.Node.{is_epsilon};
ghost use Rattle.determinize_core.specs.Closure.{closure_of, AddsBeginning};
ghost use Rattle.determinize_core.specs.Private.Search.{entered, pending_after, tries_left};

use crate::determinize::recorder::Recorder;
use crate::determinize::steps::Counter;
use determinize_below::nfa::State;
use determinize_below::{LookSet, NFA, SparseSet, StateID};
use std::alloc::{AllocError, Allocator};
use std::slice;

/// Returns the state to visit next: the first of the current list, or else the top of the stack.
#[inline(always)]
fn take_next<A: Allocator>(current: &[StateID], stack: &mut Vec<StateID, A>) -> Option<StateID>
    ensures none { IfNone result (current.now ++ reverse stack.old.items ≡ []) }
    ensures empty { IfNone result (stack.new.items ≡ []) }
    ensures some { IfSome result (λ id. current.now ++ reverse stack.old.items
        ≡ id ∷ (drop 1 current.now ++ reverse stack.new.items)) }
{
    match current.split_first() {
        Some((first, _)) => Some(*first),
        None => stack.pop(),
    }
}

/// Returns all but the first of a list.
#[inline(always)]
fn rest_of(list: &[StateID]) -> &[StateID]
    ensures { result.now ≡ drop 1 list.now }
{
    match list.split_first() {
        Some((_, rest)) => rest,
        None => list,
    }
}

/// Pushes states, the last of them first.
#[inline(always)]
fn push_reversed<A: Allocator>(
    ids: &[StateID],
    stack: &mut Vec<StateID, A>,
) -> Result<(), AllocError>
    ensures { OnOk result (reverse stack.new.items ≡ ids.now ++ reverse stack.old.items) }
{
    for id in ids.iter().rev().copied() {
        stack.push(id)?;
    }
    Ok(())
}

/// Records a state that is not followed, and returns the current list as it is.
#[inline(always)]
fn record_only<'a, N: Allocator, W: Recorder>(
    nfa: &NFA<N>,
    id: StateID,
    others: &'a [StateID],
    recorder: &mut W,
) -> Result<&'a [StateID], AllocError>
    requires { id < length nfa.now.states }
    ensures current { IfOk result (λ current. current.now ≡ others.now) }
    ensures recorded { OnOk result (recorder.new ≡ W.with_one nfa.now recorder.old id) }
{
    recorder.record(nfa, id)?;
    Ok(others)
}

/// Records a state, pushes the current list, and returns the targets of the state as the next one.
#[inline(always)]
fn record_and_enter<'a, N: Allocator, A: Allocator, W: Recorder>(
    nfa: &NFA<N>,
    id: StateID,
    targets: &'a [StateID],
    others: &[StateID],
    stack: &mut Vec<StateID, A>,
    recorder: &mut W,
) -> Result<&'a [StateID], AllocError>
    requires { id < length nfa.now.states }
    ensures current { IfOk result (λ current. (current.now ≡ targets.now)
        × (reverse stack.new.items ≡ others.now ++ reverse stack.old.items)) }
    ensures recorded { OnOk result (recorder.new ≡ W.with_one nfa.now recorder.old id) }
{
    recorder.record(nfa, id)?;
    push_reversed(others, stack)?;
    Ok(targets)
}

/// Records a binary union, pushes the current list and the second target, and returns the first
/// target as the next list.
#[inline(always)]
fn record_and_fork<'a, N: Allocator, A: Allocator, W: Recorder>(
    nfa: &NFA<N>,
    id: StateID,
    first: &'a StateID,
    second: StateID,
    others: &[StateID],
    stack: &mut Vec<StateID, A>,
    recorder: &mut W,
) -> Result<&'a [StateID], AllocError>
    requires { id < length nfa.now.states }
    ensures current { IfOk result (λ current. (current.now ≡ first.now ∷ [])
        × (reverse stack.new.items ≡ second ∷ (others.now ++ reverse stack.old.items))) }
    ensures recorded { OnOk result (recorder.new ≡ W.with_one nfa.now recorder.old id) }
{
    let current = record_and_enter(nfa, id, slice::from_ref(first), others, stack, recorder)?;
    stack.push(second)?;
    Ok(current)
}

/// Records a state and returns the next current list: its epsilon targets, or the first of them.
/// Other targets and `others` are pushed. Returns `others` if it has none, as most states.
#[inline(always)]
fn record_and_follow<'a, N: Allocator, A: Allocator, W: Recorder>(
    nfa: &'a NFA<N>,
    id: StateID,
    others: &'a [StateID],
    look_have: LookSet,
    stack: &mut Vec<StateID, A>,
    recorder: &mut W,
) -> Result<&'a [StateID], AllocError>
    requires { id < length nfa.now.states }
    ensures pending { IfOk result (λ current. current.now ++ reverse stack.new.items
        ≡ edges nfa.now (has look_have) id ++ (others.now ++ reverse stack.old.items)) }
    ensures recorded { OnOk result (recorder.new ≡ W.with_one nfa.now recorder.old id) }
{
    if !nfa.state(id).is_epsilon() {
        return record_only(nfa, id, others, recorder);
    }
    // `record` matches on the kind too: inlined into an arm, that match is decided already.
    match nfa.state(id) {
        State::Look { look, next } => {
            if !look_have.contains(*look) {
                return record_only(nfa, id, others, recorder);
            }
            record_and_enter(nfa, id, slice::from_ref(next), others, stack, recorder)
        }
        State::Union { alternates } => {
            record_and_enter(nfa, id, alternates.as_slice(), others, stack, recorder)
        }
        State::BinaryUnion { alt1, alt2 } => {
            record_and_fork(nfa, id, alt1, *alt2, others, stack, recorder)
        }
        State::Capture { next } => {
            record_and_enter(nfa, id, slice::from_ref(next), others, stack, recorder)
        }
        _ => record_only(nfa, id, others, recorder),
    }
}

/// Adds a state to the set and, if it is new, records it and follows its epsilon edges. Counts one
/// try, also if the state is not new. Returns the current list.
#[inline(always)]
fn take_turn<'a, N: Allocator, A: Allocator, W: Recorder, C: Counter>(
    nfa: &'a NFA<N>,
    id: StateID,
    others: &'a [StateID],
    look_have: LookSet,
    stack: &mut Vec<StateID, A>,
    set: &mut SparseSet<A>,
    recorder: &mut W,
    counter: &mut C,
) -> Result<&'a [StateID], AllocError>
    requires resolve { id < length nfa.now.states }
    requires capacity { set.old.capacity ≡ length nfa.now.states }
    ensures ids { set.new.ids ≡ set.old.ids ++ entered set.old.ids id }
    ensures pending { IfOk result (λ current. current.now ++ reverse stack.new.items
        ≡ pending_after nfa.now (has look_have) set.old.ids id
        (others.now ++ reverse stack.old.items)) }
    ensures recorded { OnOk result
        (recorder.new ≡ fold (W.with_one nfa.now) recorder.old (entered set.old.ids id)) }
    ensures capacity { set.new.capacity ≡ set.old.capacity }
    ensures resolve { AllResolve nfa.now set.new.ids }
    ensures counted { IsTrue C.counts → C.total counter.new ≡ C.total counter.old + 1 }
{
    counter.count();
    if set.insert(id) {
        record_and_follow(nfa, id, others, look_have, stack, recorder)
    } else {
        Ok(others)
    }
}

/// Searches from these states, and then from those on the stack, the first of them first. On error
/// the stack is not cleared.
#[inline(always)]
pub(crate) fn explore<N: Allocator, A: Allocator, W: Recorder, C: Counter>(
    nfa: &NFA<N>,
    first: &[StateID],
    look_have: LookSet,
    stack: &mut Vec<StateID, A>,
    set: &mut SparseSet<A>,
    recorder: &mut W,
    counter: &mut C,
) -> Result<(), AllocError>
    requires accepted { IsAccepted nfa.now }
    requires resolve { AllResolve nfa.now (first.now ++ stack.old.items) }
    requires capacity { set.old.capacity ≡ length nfa.now.states }
    ensures ids { OnOk result (set.new.ids ≡ set.old.ids
        ++ reach_past nfa.now (has look_have) set.old.ids (first.now ++ stack.old.items)) }
    ensures part { AddsBeginning set.old set.new
        (reach_past nfa.now (has look_have) set.old.ids (first.now ++ stack.old.items)) }
    ensures resolve { (first.now ++ stack.old.items ≡ []) ⊎ AllResolve nfa.now set.new.ids }
    ensures recorded { OnOk result (recorder.new ≡ fold (W.with_one nfa.now) recorder.old
        (reach_past nfa.now (has look_have) set.old.ids (first.now ++ stack.old.items))) }
    ensures counted { IsTrue C.counts → OnOk result (C.total counter.new ≡ C.total counter.old
        + tries_left nfa.now (has look_have) set.old.ids (first.now ++ stack.old.items)) }
    ensures bounded { IsTrue C.counts → C.total counter.new ≤ C.total counter.old
        + tries_left nfa.now (has look_have) set.old.ids (first.now ++ stack.old.items) }
    ensures stack { OnOk result (stack.new.items ≡ []) }
{
    stack.reverse();
    let mut current = first;
    while let Some(id) = take_next(current, stack) {
        let others = rest_of(current);
        current = take_turn(nfa, id, others, look_have, stack, set, recorder, counter)?;
    }
    Ok(())
}

/// Adds the epsilon closure of `start` to the set: `start` and what it reaches without input.
///
/// The states are added after those of the set, in order of preference: depth first, the earlier
/// alternates of a union first. A state of the set is not followed, and a `Look` state only if its
/// assertion is in `look_have`. Only the stack allocates, and not if `start` is no epsilon state.
/// It is empty afterwards, also on error; then the set has a prefix of what was to be added.
pub fn epsilon_closure<N: Allocator, A: Allocator>(
    nfa: &NFA<N>,
    start: StateID,
    look_have: LookSet,
    stack: &mut Vec<StateID, A>,
    set: &mut SparseSet<A>,
) -> Result<(), AllocError>
    requires stack { stack.old.items ≡ [] }
    requires resolve { start < length nfa.now.states }
    requires capacity { set.old.capacity ≡ length nfa.now.states }
    ensures ok { OnOk result (set.new
        ≡ record set.old { ids = set.old.ids ++ closure_of nfa.now look_have set.old.ids start }) }
    ensures err { OnErr result
        (AddsBeginning set.old set.new (closure_of nfa.now look_have set.old.ids start)) }
    ensures resolve { AllResolve nfa.now set.new.ids }
    ensures stack { stack.new.items ≡ [] }
    ensures succeeds { is_epsilon (state_at nfa.now start) ≡ false → IsOk result }
{
    if !nfa.state(start).is_epsilon() {
        set.insert(start);
        return Ok(());
    }
    let first = slice::from_ref(&start);
    let result = explore(nfa, first, look_have, stack, set, &mut (), &mut ());
    stack.clear();
    result
}
