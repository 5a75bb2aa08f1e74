//! What reads a whole DFA row by row, however it is kept: in memory, or in the bytes of a file.
//!
//! A [`RowId`] is the number of a row. Every call takes any id: one that is no row of the DFA, as
//! one of a larger DFA may be, lists no patterns, and row 0 follows it.

ghost use Rattle.std.specs.Prelude.{◌≡◌, ◌+◌, ◌*◌, ℕ, List, Option, Some, None, drop, length, nat_eq, slice_get, true};
ghost use Rattle.std.specs.Iterator.{YieldsFirst, item_count};
ghost use Rattle.std.specs.List.{range_with_len};
ghost use Rattle.determinize_below.specs.Nfa.{IsAccepted};
ghost use Rattle.determinize_below.specs.Search.{is_anchored};
ghost use Rattle.determinize_below.specs.Semantics as semantics;
ghost use Rattle.determinize_below.specs.Truth.{IsUnit};
ghost use Rattle.determinize_dense.specs.Automaton.{HasRowsIn, IsStoredOf, first_row};
ghost use Rattle.determinize_dense.specs.Bytes.{Stored};
ghost use Rattle.determinize_dense.specs.Reading.{IsDead};
ghost use Rattle.determinize_dense.specs.Table.{patterns_at, row_over};
ghost use Rattle.determinize_engine.specs.Searches.{has_start};
ghost use Rattle.determinize_start.specs.StartKinds.{byte_before};
ghost use Rattle.determinize_state.specs.Value.{is_nonempty};

use crate::reading::{RowId, RowIds};
use determinize_below::{Input, PatternID};
use determinize_core::start::Config;
use std::marker::Model;

/// A whole DFA, however it is kept: a `Dfa`, or the `StoredDfa` of `determinize_stored`.
///
/// It searches nothing itself. [`Walker`](crate::Walker), [`Overlapping`](crate::Overlapping), the
/// searches of `determinize_linear` and the graphs of `determinize_draw` are written over it.
pub trait Automaton {
    /// How a walk knows the row where it is: in the form by which the next row is found fastest.
    type Row: Copy;

    /// What is kept of it: its match kind, whether its NFA is a reverse one, the line terminator,
    /// and its table.
    ghost stored: { Self → Stored };

    /// Whether it is a DFA of an NFA.
    ghost is_of: { Self → semantics.Nfa → Type 0 };

    /// Whether it finds all matches of an NFA: it is a DFA of that, and it is known whether the two
    /// starts of that are one state.
    ghost finds: { Self → semantics.Nfa → Type 0 };

    /// The number of the row where a walk is.
    ghost number: { Self → Self.Row → ℕ };

    /// Whether a walk by this DFA may be there.
    ghost is_row: { Self → Self.Row → Type 0 };

    /// Returns the number of rows.
    fn len(&self) -> usize
        ensures value { result ≡ length (stored self.now).table.patterns }
        ensures rows { HasRowsIn (stored self.now) };

    /// Returns the number of entries of a row: one for each class of bytes, and one for EOI.
    fn columns(&self) -> usize
        ensures { result ≡ (stored self.now).table.class_count + 1 };

    /// Returns the line terminator of the assertions of the NFA.
    fn line_terminator(&self) -> u8
        ensures { result ≡ (stored self.now).terminator };

    /// Returns the row of a start after a byte, or after nothing.
    fn first_row(&self, is_anchored: bool, look_behind: Option<u8>) -> RowId
        ensures value { result ≡ first_row (stored self.now) is_anchored look_behind }
        ensures unit { IsUnit look_behind }
        ensures means { (nfa : semantics.Nfa) → is_of self.now nfa
            → IsAccepted nfa × IsStoredOf nfa (stored self.now) };

    /// Returns the row after a row over a byte or, for `None`, over the end of input (EOI).
    fn next_row(&self, row: RowId, unit: Option<u8>) -> RowId
        ensures { result ≡ row_over (stored self.now).table row unit };

    /// Returns the number of patterns that a row lists.
    ///
    /// Matches are delayed by one unit: these are the patterns with a match that ends before the
    /// unit that led to the row.
    fn match_len(&self, row: RowId) -> usize
        ensures { result ≡ length (patterns_at (stored self.now).table row) };

    /// Returns the pattern at an index of the list of a row, or `None` if the list ends before. The
    /// most preferred one comes first.
    fn match_pattern(&self, row: RowId, index: usize) -> Option<PatternID>
        ensures { result ≡ slice_get (patterns_at (stored self.now).table row) index };

    /// Returns `true` only if no match follows a row.
    fn is_dead_state(&self, row: RowId) -> bool
        ensures { result ≡ true → IsDead (stored self.now).table row };

    /// Returns whether a match may begin only where a search starts, as the two starts of the NFA
    /// are one state. Of a DFA from a file this is not known, and the result is `false`.
    fn is_always_start_anchored(&self) -> bool
        ensures of { (nfa : semantics.Nfa) → finds self.now nfa → is_of self.now nfa }
        ensures value { (nfa : semantics.Nfa) → finds self.now nfa
            → result ≡ nat_eq nfa.start_unanchored nfa.start_anchored };

    /// Returns where a walk begins: in the row of a start after a byte, or after nothing.
    fn first(&self, is_anchored: bool, look_behind: Option<u8>) -> Self::Row
        ensures value { number self.now result
            ≡ first_row (stored self.now) is_anchored look_behind }
        ensures row { is_row self.now result }
        ensures means { (nfa : semantics.Nfa) → is_of self.now nfa
            → IsAccepted nfa × IsStoredOf nfa (stored self.now) };

    /// Returns where a walk is after a byte or, for `None`, after the end of input (EOI).
    fn next(&self, row: Self::Row, unit: Option<u8>) -> Self::Row
        requires { is_row self.now row }
        ensures value { number self.now result
            ≡ row_over (stored self.now).table (number self.now row) unit }
        ensures row { is_row self.now result };

    /// Returns whether the row where a walk is lists a pattern.
    fn lists(&self, row: Self::Row) -> bool
        requires { is_row self.now row }
        ensures { result
            ≡ is_nonempty (patterns_at (stored self.now).table (number self.now row)) };

    /// Returns the row where a walk is.
    fn row_id(&self, row: Self::Row) -> RowId
        requires { is_row self.now row }
        ensures { result ≡ number self.now row };

    /// Returns the number of entries of the table before the row where a walk is.
    fn offset(&self, row: Self::Row) -> usize
        requires { is_row self.now row }
        ensures { result ≡ number self.now row * ((stored self.now).table.class_count + 1) };

    /// Returns the row of the start state of a configuration: its anchored mode, and the byte
    /// before the start. `Anchored::Pattern` has no start state and is not accepted.
    fn start_state(&self, config: &Config) -> RowId
        requires { has_start config.now.anchored ≡ true }
        ensures value { result ≡ first_row (stored self.now) (is_anchored config.now.anchored)
            config.now.look_behind }
        ensures means { (nfa : semantics.Nfa) → is_of self.now nfa
            → IsAccepted nfa × IsStoredOf nfa (stored self.now) }
    {
        self.first_row(
            config.get_anchored().is_anchored(),
            config.get_look_behind(),
        )
    }

    /// Returns the row of the start state of a search of an input that reads forward.
    /// `Anchored::Pattern` has no start state and is not accepted.
    fn start_state_forward(&self, input: &Input<'_>) -> RowId
        requires { has_start input.now.anchored ≡ true }
        ensures value { result ≡ first_row (stored self.now) (is_anchored input.now.anchored)
            (byte_before input.now.haystack input.now.start) }
        ensures means { (nfa : semantics.Nfa) → is_of self.now nfa
            → IsAccepted nfa × IsStoredOf nfa (stored self.now) }
    {
        self.start_state(&Config::from_input_forward(input))
    }

    /// Returns the row after a row over a byte.
    #[inline(always)]
    fn next_state(&self, row: RowId, byte: u8) -> RowId
        ensures { result ≡ row_over (stored self.now).table row (Some byte) }
    {
        self.next_row(row, Some(byte))
    }

    /// Returns the row after a row over the end of input (EOI).
    #[inline(always)]
    fn next_eoi_state(&self, row: RowId) -> RowId
        ensures { result ≡ row_over (stored self.now).table row None }
    {
        self.next_row(row, None)
    }

    /// Returns whether a row lists a pattern.
    #[inline(always)]
    fn is_match_state(&self, row: RowId) -> bool
        ensures { result ≡ is_nonempty (patterns_at (stored self.now).table row) }
    {
        self.match_len(row) > 0
    }

    /// Returns an iterator over all rows, from row 0 on.
    fn rows(&self) -> RowIds
        ensures { result ≡ range_with_len 0 (length (stored self.now).table.patterns) }
    {
        RowIds::new(self.len())
    }
}

/// An iterator over the patterns that a row lists, most preferred first.
#[derive(Drop)]
pub struct RowPatterns<'d, D: Automaton> {
    automaton: &'d D,
    row: RowId,
    /// The index of the next pattern.
    next: usize,
}

impl<'d, D: Automaton> Model for RowPatterns<'d, D> {
    ghost Value = { List ℕ };

    ghost view = { λ p. drop p.next (patterns_at (D.stored p.automaton.now).table p.row) };
}

impl<'d, D: Automaton> RowPatterns<'d, D> {
    /// Returns an iterator over the patterns that a row lists.
    pub fn new(automaton: &'d D, row: RowId) -> RowPatterns<'d, D>
        ensures { result ≡ patterns_at (D.stored automaton.now).table row }
    {
        RowPatterns {
            automaton,
            row,
            next: 0,
        }
    }
}

impl<'d, D: Automaton> Iterator for RowPatterns<'d, D> {
    type Item = PatternID;

    ghost next_gives = { YieldsFirst (λ s. s) };

    ghost remaining = { item_count (λ s. s) };

    fn next(&mut self) -> Option<PatternID> {
        if self.next >= self.automaton.match_len(self.row) {
            return None;
        }
        let pattern = self.automaton.match_pattern(self.row, self.next);
        self.next += 1;
        pattern
    }
}
