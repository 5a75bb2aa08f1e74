//! The states of a Thompson NFA.
//!
//! A state has transitions on bytes (`ByteRange`, `Sparse`, `Dense`) or epsilon transitions, which
//! consume no input (`Look`, `Union`, `BinaryUnion`, `Capture`). `Fail` and `Match` have neither.
//! The order of the epsilon transitions of a union is the order of preference: under
//! `MatchKind::LeftmostFirst` a match through an earlier alternate wins. No state has a transition
//! on EOI.
//!
//! A `Capture` state keeps its target only. Determinization follows it like any epsilon transition
//! and has no use for slots.

ghost use Rattle.std.specs.Prelude.{◌≡◌, ◌≤◌, Some, count_by, length, true};
ghost use Rattle.determinize_below.specs.Edges.{is_match_node};
ghost use Rattle.determinize_below.specs.Nfa.{is_dense_sound, is_sparse_sound};
ghost use Rattle.determinize_below.specs.Node as nodes;
ghost use Rattle.determinize_below.specs.Semantics.{target_of};

use crate::look::Look;
use crate::nfa::transitions::{DenseTransitions, SparseTransitions, Transition};
use crate::primitives::{PatternID, StateID};
use std::alloc::{Allocator, Global};

/// A state of a Thompson NFA.
#[derive(Drop)]
pub enum State<A: Allocator = Global> {
    /// Has a transition on one range of bytes.
    ByteRange { trans: Transition },
    /// Has transitions on several ranges of bytes.
    Sparse(SparseTransitions<A>),
    /// Has a table of 256 transitions, one per byte.
    Dense(DenseTransitions<A>),
    /// Has an epsilon transition that may be taken where the assertion holds.
    Look { look: Look, next: StateID },
    /// Has epsilon transitions to the alternates, in order of preference.
    Union { alternates: Vec<StateID, A> },
    /// Has epsilon transitions to two states, of which `alt1` is preferred.
    BinaryUnion { alt1: StateID, alt2: StateID },
    /// Has an unconditional epsilon transition.
    Capture { next: StateID },
    /// Has no transition.
    Fail,
    /// Accepts the pattern and has no transition.
    Match { pattern_id: PatternID },
}

impl<A: Allocator> State<A> {
    /// Returns whether the state has epsilon transitions: a `Look`, a union or a `Capture`. A union
    /// without alternates counts, too.
    pub fn is_epsilon(&self) -> bool
        ensures { result ≡ nodes.is_epsilon (nodes.node_of self.now) }
    {
        match self {
            State::Look { .. }
            | State::Union { .. }
            | State::BinaryUnion { .. }
            | State::Capture { .. } => true,
            _ => false,
        }
    }

    /// Returns the state to which a byte leads, if any: the target of the transition over it. The
    /// ranges of a sparse state must ascend, and a dense state must have 256 targets, as those of a
    /// valid NFA do (`NFA::state`).
    pub fn target(&self, byte: u8) -> Option<StateID>
        requires ascends { is_sparse_sound (nodes.node_of self.now) ≡ true }
        requires whole { is_dense_sound (nodes.node_of self.now) ≡ true }
        ensures { result ≡ target_of (Some byte) (nodes.node_of self.now) }
    {
        match self {
            State::ByteRange { trans } => trans.matches_byte(byte).then_some(trans.next),
            State::Sparse(sparse) => sparse.matches_byte(byte),
            State::Dense(dense) => dense.matches_byte(byte),
            _ => None,
        }
    }
}

/// Returns the number of `Match` states.
pub(crate) fn match_count<A: Allocator>(states: &[State<A>]) -> usize
    ensures count { result ≡ count_by (λ s. is_match_node (nodes.node_of s)) states.now }
    ensures limit { result ≤ length states.now }
{
    let mut count = 0;
    for state in states {
        if let State::Match { .. } = state {
            count += 1;
        }
    }
    count
}
