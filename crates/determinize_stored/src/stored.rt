//! The type of a stored DFA, and how its rows are read.
//!
//! A stored DFA is an [`Automaton`]: it is stepped, drawn and asked for its lists as a `Dfa` is.

ghost use Rattle.std.specs.Prelude.{All, Decides, ◌≡◌, ◌<◌, ◌≤◌, ◌^◌, IfOk, IsOkAnd, false, length, nat_eq, true};
ghost use Rattle.determinize_below.specs.Nfa.{IsAccepted};
ghost use Rattle.determinize_below.specs.Truth.{IsUnit};
ghost use Rattle.determinize_dense.specs.Automaton.{IsStoredOf, first_row};
ghost use Rattle.determinize_dense.specs.Bytes.{IsWhole, Stored, file_of};
ghost use Rattle.determinize_dense.specs.Reading.{IsDead};
ghost use Rattle.determinize_dense.specs.Table.{column_of, patterns_at, row_over};
ghost use Rattle.determinize_below.specs.declared.primitives.TheConstants.{MAX_ID};
ghost use Rattle.determinize_stored.specs.Reading.{HasDeadRow};

use crate::error::{FormatError, FormatErrorKind};
use crate::format::{Head, Parts};
use crate::words::Words;
use determinize_below::{MatchKind, PatternID};
use determinize_core::start::{StartSlot, start_kind_of};
use determinize_dense::{Automaton, RowId};
use std::fmt;
use std::marker::Model;

/// A whole DFA in bytes, which it borrows.
#[derive(Drop)]
pub struct StoredDfa<'b> {
    pub(crate) head: Head,
    parts: Parts<'b>,
    /// Whether row 0 lists nothing and follows itself over all units.
    has_dead_row: bool,
}

impl<'b> Model for StoredDfa<'b> {
    ghost use Rattle.determinize_dense.specs.Bytes.{Stored};
    ghost use Rattle.determinize_stored.specs.Private.Parts.{AreParts, stored_in};

    ghost Value = { Stored };

    ghost view = { λ d. stored_in d.head d.parts };

    ghost invariant = { λ d. AreParts d.head d.parts d.has_dead_row };
}

impl<'b> StoredDfa<'b> {
    /// Returns the DFA that bytes are. Reads all of them once, and allocates nothing.
    ///
    /// Any bytes may be passed. An error says what is wrong with them, and where. The head is
    /// checked first, then whether the bytes reach to the lists of patterns, then classes, starts,
    /// entries and the ends of lists in turn, then whether the last end is the number of patterns
    /// that follow, then the patterns, and last whether one to three bytes are left.
    pub fn from_bytes(bytes: &'b [u8]) -> Result<StoredDfa<'b>, FormatError>
        ensures file { IfOk result (λ dfa. bytes.now ≡ file_of dfa) }
        ensures whole { IfOk result (λ dfa. IsWhole dfa) }
        ensures read { (s : Stored) → IsWhole s → bytes.now ≡ file_of s
            → IsOkAnd result (λ dfa. dfa ≡ s) }
    {
        let words = Words::new(bytes);
        let head = Head::read(&words)?;
        let parts = Parts::split(&head, &words)?;
        parts.check(&head)?;
        if bytes.len() % 4 != 0 {
            return Err(FormatError::at(FormatErrorKind::Length, words.len()));
        }
        Ok(StoredDfa {
            has_dead_row: parts.has_dead_row(&head),
            head,
            parts,
        })
    }

    /// Returns the match kind.
    pub fn match_kind(&self) -> MatchKind
        ensures { result ≡ self.now.kind }
    {
        self.head.match_kind
    }

    /// Returns whether the DFA was made of an NFA that reads backward, so that a search of an input
    /// reads it from its end.
    pub fn is_reverse(&self) -> bool
        ensures { result ≡ self.now.reverse }
    {
        self.head.is_reverse
    }

    /// Returns the number of states.
    pub fn len(&self) -> usize
        ensures value { result ≡ length self.now.table.patterns }
        ensures whole { IsWhole self.now }
    {
        self.head.rows
    }

    /// Returns the column of a unit.
    #[inline(always)]
    fn column(&self, unit: Option<u8>) -> usize
        ensures value { result ≡ column_of self.now.table unit }
        ensures limit { result ≤ self.now.table.class_count }
    {
        match unit {
            Some(byte) => self.parts.classes.get(usize::from(byte)) as usize,
            None => self.head.class_count,
        }
    }

    /// Returns the number of the row of a start after a byte, or after nothing.
    fn start(&self, is_anchored: bool, look_behind: Option<u8>) -> u32
        ensures value { result ≡ first_row self.now is_anchored look_behind }
        ensures unit { IsUnit look_behind }
    {
        let kind = start_kind_of(self.head.line_terminator, look_behind);
        let slot = StartSlot { is_anchored, kind };
        self.parts.starts.get(slot.as_usize())
    }

    /// Returns the number of the row after a row over a unit.
    #[inline(always)]
    fn target(&self, row: RowId, unit: Option<u8>) -> u32
        ensures { result ≡ row_over self.now.table row unit }
    {
        let row = row.as_usize();
        if row >= self.head.rows {
            return 0;
        }
        let entry = row * (self.head.class_count + 1) + self.column(unit);
        self.parts.next.get(entry)
    }

    /// Returns the patterns that a row lists.
    #[inline(always)]
    fn list(&self, row: RowId) -> Words<'b>
        ensures value { result ≡ patterns_at self.now.table row }
        ensures ids { All (λ id. id ≤ MAX_ID) result }
    {
        let row = row.as_usize();
        if row < self.head.rows {
            self.parts.list(row)
        } else {
            self.parts.patterns.range(0, 0)
        }
    }
}

impl<'b> Automaton for StoredDfa<'b> {
    type Row = RowId;

    ghost stored = { λ s. s };

    ghost is_of = { λ s nfa. IsAccepted nfa × IsStoredOf nfa s };

    ghost finds = { λ s nfa. IsAccepted nfa × IsStoredOf nfa s
        × (nat_eq nfa.start_unanchored nfa.start_anchored ≡ false) };

    ghost number = { λ s row. row };

    ghost is_row = { λ s row. row < 2 ^ 32 };

    fn len(&self) -> usize {
        self.len()
    }

    #[inline(always)]
    fn columns(&self) -> usize {
        self.head.class_count + 1
    }

    fn line_terminator(&self) -> u8 {
        self.head.line_terminator
    }

    fn first_row(&self, is_anchored: bool, look_behind: Option<u8>) -> RowId {
        RowId::new(self.start(is_anchored, look_behind) as usize)
    }

    #[inline(always)]
    fn next_row(&self, row: RowId, unit: Option<u8>) -> RowId {
        RowId::new(self.target(row, unit) as usize)
    }

    #[inline(always)]
    fn match_len(&self, row: RowId) -> usize {
        self.list(row).len()
    }

    #[inline(always)]
    fn match_pattern(&self, row: RowId, index: usize) -> Option<PatternID> {
        let list = self.list(row);
        if index >= list.len() {
            return None;
        }
        Some(PatternID::must(list.get(index) as usize))
    }

    fn is_always_start_anchored(&self) -> bool {
        false
    }

    #[inline(always)]
    fn first(&self, is_anchored: bool, look_behind: Option<u8>) -> RowId {
        RowId::new(self.start(is_anchored, look_behind) as usize)
    }

    #[inline(always)]
    fn next(&self, row: RowId, unit: Option<u8>) -> RowId {
        RowId::new(self.target(row, unit) as usize)
    }

    #[inline(always)]
    fn lists(&self, row: RowId) -> bool {
        self.match_len(row) > 0
    }

    #[inline(always)]
    fn row_id(&self, row: RowId) -> RowId {
        row
    }

    #[inline(always)]
    fn offset(&self, row: RowId) -> usize {
        row.as_usize() * (self.head.class_count + 1)
    }

    /// Returns whether a row is row 0 and no match follows it: it lists no pattern, and row 0
    /// follows it over each unit. It is in the tests of what a `Dfa` wrote.
    #[inline(always)]
    fn is_dead_state(&self, row: RowId) -> bool
        ensures value { Decides result ((row ≡ 0) × HasDeadRow self.now.table) }
        ensures dead { result ≡ true → IsDead self.now.table row }
    {
        self.has_dead_row && row == RowId::DEAD
    }
}

impl<'b> fmt::Debug for StoredDfa<'b> {
    fn fmt<W: fmt::Write>(&self, f: &mut fmt::Formatter<W>) -> fmt::Result {
        f.debug_struct("StoredDfa")
            .field("match_kind", &self.match_kind())
            .field("len", &self.len())
            .finish_non_exhaustive()
    }
}
