//! A walk by a whole DFA under way, one unit after another, as fast as a search reads.

ghost use Rattle.std.specs.Prelude.{◌≡◌, ◌+◌, ◌*◌, nat_eq, true};
ghost use Rattle.determinize_below.specs.Nfa.{IsAccepted};
ghost use Rattle.determinize_below.specs.Search.{is_anchored};
ghost use Rattle.determinize_below.specs.Semantics as semantics;
ghost use Rattle.determinize_engine.specs.Searches.{has_start};
ghost use Rattle.determinize_state.specs.Value.{is_nonempty};
ghost use Rattle.determinize_dense.specs.Automaton.{IsStoredOf, Place, first_row};
ghost use Rattle.determinize_dense.specs.Dfa.{IsDfaOf};
ghost use Rattle.determinize_dense.specs.Reading.{IsDead};
ghost use Rattle.determinize_dense.specs.Table.{patterns_at, row_over, start_row};

use crate::automaton::Automaton;
use crate::dfa::Dfa;
use crate::reading::{Offset, RowId};
use determinize_below::AsNfa;
use determinize_core::start::Config;
use std::alloc::Allocator;
use std::marker::Model;

/// A walk by a DFA under way: it begins in the row of a start state, and each step moves to the
/// next row.
///
/// By a `Dfa` it has the offset of its row and not the number. So a step takes no product, and no
/// test of whether the row is one of the DFA, as [`Automaton::next_state`] does.
///
/// Matches are delayed by one unit, as for [`Automaton::match_len`]: after the last byte of a text
/// take one more step, over the byte ahead or EOI.
#[derive(Drop)]
pub struct Walker<'d, D: Automaton> {
    automaton: &'d D,
    row: D::Row,
}

impl<'d, D: Automaton> Model for Walker<'d, D> {
    ghost Value = { Place D };

    ghost view = { λ w. record {
      automaton = w.automaton.now;
      row = D.number w.automaton.now w.row;
    } };

    ghost invariant = { λ w. D.is_row w.automaton.now w.row };
}

impl<R: AsNfa, A: Allocator + Copy> Dfa<R, A> {
    /// Returns a walker in the row of the start state of a configuration: its anchored mode, and
    /// the byte before the start. `Anchored::Pattern` has no start state and is not accepted.
    #[inline(always)]
    pub fn walker(&self, config: &Config) -> Walker<'_, Dfa<R, A>>
        requires { has_start config.now.anchored ≡ true }
        ensures value { result ≡ record {
          automaton = self.now;
          row = start_row self.now.nfa self.now.table (is_anchored config.now.anchored)
              config.now.look_behind;
        } }
        ensures means { IsDfaOf self.now.nfa self.now.kind self.now.table }
        ensures dead { IsDead self.now.table 0 }
        ensures accepted { IsAccepted self.now.nfa }
    {
        let is_anchored = config.get_anchored().is_anchored();
        Walker {
            automaton: self,
            row: Offset(self.start_row(is_anchored, config.get_look_behind())),
        }
    }
}

impl<'d, D: Automaton> Walker<'d, D> {
    /// Returns a walker in the row of a start after a byte, or after nothing.
    #[inline(always)]
    pub fn new(automaton: &'d D, is_anchored: bool, look_behind: Option<u8>) -> Walker<'d, D>
        ensures value { result ≡ record {
          automaton = automaton.now;
          row = first_row (D.stored automaton.now) is_anchored look_behind;
        } }
        ensures means { (nfa : semantics.Nfa) → D.is_of automaton.now nfa
            → IsAccepted nfa × IsStoredOf nfa (D.stored automaton.now) }
    {
        Walker {
            automaton,
            row: automaton.first(is_anchored, look_behind),
        }
    }

    /// Returns the DFA.
    #[inline(always)]
    pub fn automaton(&self) -> &'d D
        ensures { result.now ≡ self.now.automaton }
    {
        self.automaton
    }

    /// Moves to the row after its row over a byte or, for `None`, over the end of input (EOI).
    #[inline(always)]
    pub fn step(&mut self, unit: Option<u8>)
        ensures { self.new ≡ record {
          automaton = self.old.automaton;
          row = row_over (D.stored self.old.automaton).table self.old.row unit;
        } }
    {
        self.row = self.automaton.next(self.row, unit);
    }

    /// Returns the row.
    #[inline(always)]
    pub fn row(&self) -> RowId
        ensures { result ≡ self.now.row }
    {
        self.automaton.row_id(self.row)
    }

    /// Returns the offset of the row: the number of entries of the table before the row. A row has
    /// an entry for each class of bytes, and one for EOI.
    #[inline(always)]
    pub fn offset(&self) -> usize
        ensures { result
            ≡ self.now.row * ((D.stored self.now.automaton).table.class_count + 1) }
    {
        self.automaton.offset(self.row)
    }

    /// Returns whether the row lists a pattern.
    #[inline(always)]
    pub fn is_match(&self) -> bool
        ensures { result
            ≡ is_nonempty (patterns_at (D.stored self.now.automaton).table self.now.row) }
    {
        self.automaton.lists(self.row)
    }
}

impl<'d, R: AsNfa, A: Allocator + Copy> Walker<'d, Dfa<R, A>> {
    /// Returns whether the row is that of the dead state, which no match follows.
    #[inline(always)]
    pub fn is_dead(&self) -> bool
        ensures { result ≡ nat_eq self.now.row 0 }
    {
        self.automaton.offset(self.row) == 0
    }
}
