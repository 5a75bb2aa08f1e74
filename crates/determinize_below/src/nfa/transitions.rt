//! Transitions of NFA states on bytes: one range, sorted ranges, or a table of all bytes.
//!
//! No transition is on EOI, so each `matches_unit` returns false or `None` for it.

ghost use Rattle.std.specs.Prelude.{◌≡◌, ℕ, IsTrue, length, None, Option, Some, if◌then◌else◌};
ghost use Rattle.std.specs.Option.{option_and_then};
ghost use Rattle.determinize_below.specs.Transition.{is_ascending, sparse_target};
ghost use Rattle.determinize_below.specs.Transition as transitions;
ghost use Rattle.determinize_below.specs.Unit.{byte_of};

use crate::alphabet::Unit;
use crate::primitives::StateID;
use std::alloc::{Allocator, Global};
use std::marker::Model;

/// A transition to `next` on each byte from `start` to `end`, both included. If `start` is above
/// `end`, it is on no byte.
#[derive(Clone, Copy, PartialEq, Eq)]
pub struct Transition {
    /// The first byte of the range.
    pub start: u8,
    /// The last byte of the range.
    pub end: u8,
    /// The target.
    pub next: StateID,
}

impl Transition {
    /// Returns whether the byte is in the range.
    pub fn matches_byte(&self, byte: u8) -> bool
        ensures { result ≡ transitions.matches self.now byte }
    {
        self.start <= byte && byte <= self.end
    }

    /// Returns whether the unit is a byte in the range.
    pub fn matches_unit(&self, unit: Unit) -> bool
        ensures { result ≡ transitions.matches_unit self.now (byte_of unit) }
    {
        match unit.as_u8() {
            Some(byte) => self.matches_byte(byte),
            None => false,
        }
    }
}

/// Transitions on ranges of bytes. In an NFA the ranges are sorted and do not overlap.
#[derive(Drop)]
#[derive_where(Debug)]
pub struct SparseTransitions<A: Allocator = Global> {
    /// The transitions, sorted by range.
    pub transitions: Vec<Transition, A>,
}

impl<A: Allocator> Model for SparseTransitions<A> {
    ghost use Rattle.std.specs.Prelude.{List};
    ghost use Rattle.determinize_below.specs.declared.nfa.transitions.Transition.{Transition};

    ghost Value = { List Transition };

    ghost view = { λ s. s.transitions.items };
}

impl<A: Allocator> SparseTransitions<A> {
    /// Returns the target on this byte, or `None` if no range contains it. The ranges must be
    /// sorted and not overlap, so at most one contains it.
    pub fn matches_byte(&self, byte: u8) -> Option<StateID>
        requires { IsTrue (transitions.is_ascending self.now) }
        ensures { result ≡ sparse_target self.now byte }
    {
        target_in(self.transitions.as_slice(), byte)
    }

    /// Returns the target on this unit, or `None` if it is EOI or in no range. The ranges must be
    /// sorted and not overlap.
    pub fn matches_unit(&self, unit: Unit) -> Option<StateID>
        requires { IsTrue (transitions.is_ascending self.now) }
        ensures { result
            ≡ option_and_then (sparse_target self.now) (byte_of unit) }
    {
        match unit.as_u8() {
            Some(byte) => self.matches_byte(byte),
            None => None,
        }
    }
}

/// Returns the target on this byte in sorted ranges, or `None` if no range contains it.
fn target_in(transitions: &[Transition], byte: u8) -> Option<StateID>
    requires { IsTrue (is_ascending transitions.now) }
    ensures { result ≡ sparse_target transitions.now byte }
{
    for t in transitions {
        // Only the first range that does not end before the byte can contain it: the later ones
        // begin above its end.
        if byte <= t.end {
            return (t.start <= byte).then_some(t.next);
        }
    }
    None
}

/// A table of targets, one per byte. The target 0 means that there is no transition, so no dense
/// state can have a transition to state 0. In an NFA the table has 256 entries.
#[derive(Drop)]
#[derive_where(Debug)]
pub struct DenseTransitions<A: Allocator = Global> {
    /// The targets, indexed by byte.
    pub transitions: Vec<StateID, A>,
}

impl<A: Allocator> Model for DenseTransitions<A> {
    ghost use Rattle.std.specs.Prelude.{List, ℕ};

    ghost Value = { List ℕ };

    ghost view = { λ s. s.transitions.items };
}

impl<A: Allocator> DenseTransitions<A> {
    /// Returns the target on this byte, or `None` if it is 0. The table must have 256 entries.
    pub fn matches_byte(&self, byte: u8) -> Option<StateID>
        requires { length self.now ≡ 256 }
        ensures { result ≡ transitions.dense_target self.now byte }
    {
        let next = self.transitions[usize::from(byte)];
        if next == StateID::ZERO {
            None
        } else {
            Some(next)
        }
    }

    /// Returns the target on this unit, or `None` if it is EOI or the target is 0. The table must
    /// have 256 entries.
    pub fn matches_unit(&self, unit: Unit) -> Option<StateID>
        requires { length self.now ≡ 256 }
        ensures { result
            ≡ option_and_then (transitions.dense_target self.now) (byte_of unit) }
    {
        match unit.as_u8() {
            Some(byte) => self.matches_byte(byte),
            None => None,
        }
    }
}
