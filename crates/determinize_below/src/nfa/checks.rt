//! The validation of the parts of an NFA, and the set of its assertions.

ghost use Rattle.std.specs.Prelude.{◌≡◌, ℕ, Bool, Some, None, [], length, map, nat_lt, nat_eq, OnOk, IfErr, ◌⊎◌, ◌||◌};
ghost use Rattle.std.specs.List.{list_all, list_any};
ghost use Rattle.std.specs.HashSet.{contains};
ghost use Rattle.determinize_below.specs.Node.{node_of};
ghost use Rattle.determinize_below.specs.Transition.{is_ascending};
ghost use Rattle.determinize_below.specs.Nfa.{resolves, looks_of, failure_of, repeats, states_failure, is_match_of};

use crate::look::LookSet;
use crate::nfa::BuildError;
use crate::nfa::state::State;
use crate::nfa::transitions::Transition;
use crate::primitives::{PatternID, StateID};
use std::alloc::Allocator;
use std::collections::HashSet;
use std::hash::{BuildHasherDefault, FoldHasher};

/// Returns whether each id in the state is below the number of states.
fn is_resolved<A: Allocator>(state: &State<A>, count: usize) -> bool
    ensures { result ≡ resolves count (node_of state.now) }
{
    match state {
        State::ByteRange { trans } => trans.next.as_usize() < count,
        State::Sparse(sparse) => have_targets_below(sparse.transitions.as_slice(), count),
        State::Dense(dense) => are_below(dense.transitions.as_slice(), count),
        State::Look { next, .. } | State::Capture { next } => next.as_usize() < count,
        State::Union { alternates } => are_below(alternates.as_slice(), count),
        State::BinaryUnion { alt1, alt2 } => alt1.as_usize() < count && alt2.as_usize() < count,
        State::Fail | State::Match { .. } => true,
    }
}

fn are_below(ids: &[StateID], count: usize) -> bool
    ensures { result ≡ list_all (λ i. nat_lt i count) ids.now }
{
    for id in ids {
        if id.as_usize() >= count {
            return false;
        }
    }
    true
}

fn have_targets_below(transitions: &[Transition], count: usize) -> bool
    ensures { result ≡ list_all (λ t. nat_lt t.next count) transitions.now }
{
    for t in transitions {
        if t.next.as_usize() >= count {
            return false;
        }
    }
    true
}

/// Returns whether the ranges are sorted, not empty and do not overlap.
fn are_in_order(transitions: &[Transition]) -> bool
    ensures { result ≡ is_ascending transitions.now }
{
    // The least start of the next range: 256 after a range that ends at 255.
    let mut low = 0u16;
    for t in transitions {
        if u16::from(t.start) < low || t.end < t.start {
            return false;
        }
        low = u16::from(t.end) + 1;
    }
    true
}

/// Returns the set of the assertions of all states.
pub(crate) fn looks_in<A: Allocator>(states: &[State<A>]) -> LookSet
    ensures { result ≡ looks_of (map node_of states.now) }
{
    let mut looks = LookSet::empty();
    for state in states {
        if let State::Look { look, .. } = state {
            looks = looks.insert(*look);
        }
    }
    looks
}

/// The patterns of the `Match` states so far.
type Patterns<A> = HashSet<PatternID, BuildHasherDefault<FoldHasher>, A>;

/// Validates one state and adds its pattern to `seen`, the patterns of the earlier states.
fn check_state<A: Allocator, B: Allocator + Clone>(
    state: &State<A>,
    index: usize,
    count: usize,
    seen: &mut Patterns<B>,
) -> Result<(), BuildError>
    ensures ok { let node = node_of state.now in OnOk result
        (failure_of count (repeats (contains nat_eq seen.old) node) index node ≡ None) }
    ensures after { OnOk result ((q : ℕ) → contains nat_eq seen.new q
        ≡ (is_match_of q (node_of state.now) || contains nat_eq seen.old q)) }
    ensures err { let node = node_of state.now in IfErr result (λ e.
        (failure_of count (repeats (contains nat_eq seen.old) node) index node ≡ Some e)
        ⊎ (e ≡ BuildError.OutOfMemory)) }
{
    if !is_resolved(state, count) {
        return Err(BuildError::UnresolvedId(index));
    }
    match state {
        State::Sparse(sparse) => {
            if !are_in_order(sparse.transitions.as_slice()) {
                return Err(BuildError::BadSparse(index));
            }
        }
        State::Dense(dense) => {
            if dense.transitions.len() != 256 {
                return Err(BuildError::BadDense(index));
            }
        }
        State::Match { pattern_id } => {
            if !seen.insert(*pattern_id)? {
                return Err(BuildError::RepeatedPattern(index));
            }
        }
        _ => {}
    }
    Ok(())
}

/// Validates all states in order. Returns the first error, or `OutOfMemory` if an allocation fails.
pub(crate) fn check_states<A: Allocator, B: Allocator + Clone>(
    alloc: B,
    states: &[State<A>],
) -> Result<(), BuildError>
    ensures ok { OnOk result
        (states_failure (length states.now) [] 0 (map node_of states.now) ≡ None) }
    ensures err { IfErr result (λ e.
        (states_failure (length states.now) [] 0 (map node_of states.now) ≡ Some e)
        ⊎ (e ≡ BuildError.OutOfMemory)) }
{
    let mut seen = HashSet::new(alloc);
    for (index, state) in states.iter().enumerate() {
        check_state(state, index, states.len(), &mut seen)?;
    }
    Ok(())
}
