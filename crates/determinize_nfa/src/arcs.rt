//! The transitions of a state of any kind, in one list.

ghost use Rattle.std.specs.Prelude.{◌≡◌, drop, length, map, true};
ghost use Rattle.determinize_below.specs.Nfa.{is_dense_sound};
ghost use Rattle.determinize_below.specs.Node.{node_of};
ghost use Rattle.determinize_nfa.specs.Private.Arcs.{IsFirstOf, arcs_from, next_of, runs};
ghost use Rattle.determinize_nfa.specs.Reversal as reversals;
ghost use Rattle.determinize_nfa.specs.declared.arcs.Arc.TheVariants as variants;

use determinize_below::nfa::{State, Transition};
use determinize_below::{Look, StateID};
use std::alloc::Allocator;

/// A transition of a state.
#[derive(Clone, Copy)]
pub(crate) enum Arc {
    /// Over a range of bytes.
    Range(Transition),
    /// Without input, where the assertion holds.
    Test(Look, StateID),
    /// Without input.
    Free(StateID),
}

impl Arc {
    /// Returns the target.
    pub(crate) fn next(self) -> StateID
        ensures { result ≡ next_of self }
    {
        match self {
            Arc::Range(range) => range.next,
            Arc::Test(_, next) | Arc::Free(next) => next,
        }
    }
}

/// Returns the first transition of a state from an index on, and the index after it. In a dense
/// state an index is a byte, and there is one transition for each run of bytes with one target.
pub(crate) fn arc_from<A: Allocator>(state: &State<A>, from: usize) -> Option<(Arc, usize)>
    requires { is_dense_sound (node_of state.now) ≡ true }
    ensures { IsFirstOf (λ k. arcs_from k (node_of state.now)) from result }
{
    match state {
        State::ByteRange { trans } => range_from(&[*trans], from),
        State::Sparse(sparse) => range_from(sparse.transitions.as_slice(), from),
        State::Dense(dense) => run_from(dense.transitions.as_slice(), from),
        State::Look { look, next } if from == 0 => Some((Arc::Test(*look, *next), 1)),
        State::Union { alternates } => free_from(alternates.as_slice(), from),
        State::BinaryUnion { alt1, alt2 } => free_from(&[*alt1, *alt2], from),
        State::Capture { next } => free_from(&[*next], from),
        State::Look { .. } | State::Fail | State::Match { .. } => None,
    }
}

/// Returns the transition over the range with this index, and the next index.
#[tactic(auto, using(crate::proofs::kinds::ArcsLeft::left_at))]
fn range_from(ranges: &[Transition], from: usize) -> Option<(Arc, usize)>
    ensures { IsFirstOf (λ k. drop k (map variants.Range ranges.now)) from result }
{
    if from >= ranges.len() {
        return None;
    }
    Some((Arc::Range(ranges[from]), from + 1))
}

/// Returns the transition without input to the target with this index, and the next index.
#[tactic(auto, using(crate::proofs::kinds::ArcsLeft::left_at))]
fn free_from(targets: &[StateID], from: usize) -> Option<(Arc, usize)>
    ensures { IsFirstOf (λ k. drop k (map variants.Free targets.now)) from result }
{
    if from >= targets.len() {
        return None;
    }
    Some((Arc::Free(targets[from]), from + 1))
}

/// Returns the transition over the first run of bytes with one target from a byte of a table on,
/// and the byte after the run.
fn run_from(targets: &[StateID], from: usize) -> Option<(Arc, usize)>
    requires { length targets.now ≡ 256 }
    ensures { IsFirstOf (λ k. map variants.Range (runs k k (drop k targets.now))) from result }
{
    let mut start = from;
    for byte in from..targets.len() {
        let next = targets[byte];
        if is_first(next, &targets[byte + 1..]) {
            continue;
        }
        if next != StateID::ZERO {
            let (start, end) = (start as u8, byte as u8);
            return Some((Arc::Range(Transition { start, end, next }), byte + 1));
        }
        start = byte + 1;
    }
    None
}

/// Returns whether the list begins with the id.
fn is_first(id: StateID, ids: &[StateID]) -> bool
    ensures { result ≡ reversals.is_first id ids.now }
{
    match ids.first() {
        Some(first) => id == *first,
        None => false,
    }
}
