//! Reading a whole DFA in memory, as an [`Automaton`]: the numbers of its rows, which row follows
//! over a unit, and what each row lists.

ghost use Rattle.std.specs.Prelude.{◌≡◌, ◌+◌, ◌-◌, ◌/◌, ℕ, List, Some, decimal, nat_eq, true};
ghost use Rattle.std.specs.List.{range_with_len};
ghost use Rattle.std.specs.Iterator.{YieldsFirst, item_count};
ghost use Rattle.determinize_dense.specs.Bytes.{stored_of};
ghost use Rattle.determinize_dense.specs.Private.Rows.{IsOffset};
ghost use Rattle.determinize_dense.specs.Reading.{IsDead};
ghost use Rattle.determinize_dense.specs.Table.{patterns_at};

use crate::automaton::Automaton;
use crate::dfa::Dfa;
use determinize_below::{AsNfa, PatternID};
use std::alloc::{AllocError, Allocator};
use std::fmt;
use std::marker::Model;

/// The number of a row of a DFA.
#[derive(Copy, PartialEq, Eq, PartialOrd, Ord, Hash)]
pub struct RowId(usize);

impl Model for RowId {
    ghost Value = { ℕ };

    ghost view = { λ r. r.0 };

    ghost inverse = { λ n. record { 0 = n } };
}

impl RowId {
    /// The row of the dead state, 0: no match follows it.
    pub const DEAD: RowId = RowId(0);

    /// Returns the id of the row with this number.
    pub fn new(number: usize) -> RowId
        ensures { result ≡ number }
    {
        RowId(number)
    }

    /// Returns the number of the row, for indexing.
    pub fn as_usize(self) -> usize
        ensures { result ≡ self }
    {
        self.0
    }
}

impl Clone for RowId {
    ghost is_clone = { λ a b. b ≡ a };

    fn clone(&self) -> Result<RowId, AllocError> {
        Ok(RowId(self.0))
    }
}

impl fmt::Debug for RowId {
    fn fmt<W: fmt::Write>(&self, f: &mut fmt::Formatter<W>) -> fmt::Result {
        f.debug_tuple("RowId").field(&self.0).finish()
    }
}

/// Writes the number of the row in decimal.
impl fmt::Display for RowId {
    ghost output = { λ n. Some (decimal n) };

    fn fmt<W: fmt::Write>(&self, f: &mut fmt::Formatter<W>) -> fmt::Result {
        let number = self.0;
        write!(f, "{number}")
    }
}

/// An iterator over rows, by number.
#[derive(Clone, Debug, Drop)]
pub struct RowIds {
    next: usize,
    end: usize,
}

impl RowIds {
    /// Returns an iterator over this number of rows, from that of the dead state on.
    pub fn new(count: usize) -> RowIds
        ensures { result ≡ range_with_len 0 count }
    {
        RowIds {
            next: 0,
            end: count,
        }
    }
}

impl Model for RowIds {
    ghost Value = { List ℕ };

    ghost view = { λ r. range_with_len r.next (r.end - r.next) };
}

impl Iterator for RowIds {
    type Item = RowId;

    ghost next_gives = { YieldsFirst (λ s. s) };

    ghost remaining = { item_count (λ s. s) };

    #[tactic(auto, using(crate::proofs::Along::range_first))]
    fn next(&mut self) -> Option<RowId> {
        if self.next >= self.end {
            return None;
        }
        let row = RowId(self.next);
        self.next += 1;
        Some(row)
    }
}

impl<R: AsNfa, A: Allocator + Copy> Dfa<R, A> {
    /// Returns the patterns that a row lists, most preferred first.
    ///
    /// Matches are delayed by one unit: these are the patterns with a match that ends before the
    /// unit that led to the row.
    #[inline(always)]
    pub fn match_patterns(&self, row: RowId) -> &[PatternID]
        ensures { result.now ≡ patterns_at self.now.table row }
    {
        if row.as_usize() < self.len() {
            self.patterns(row.as_usize())
        } else {
            &[]
        }
    }
}

/// The offset of a row of a `Dfa`: the number of entries of its table before the row.
///
/// From one offset to the next there is no product, and no test of whether it is that of a row.
#[derive(Copy)]
pub struct Offset(pub(crate) usize);

impl Model for Offset {
    ghost Value = { ℕ };

    ghost view = { λ o. o.0 };

    ghost inverse = { λ n. record { 0 = n } };
}

impl Clone for Offset {
    ghost is_clone = { λ a b. b ≡ a };

    fn clone(&self) -> Result<Offset, AllocError> {
        Ok(Offset(self.0))
    }
}

impl<R: AsNfa, A: Allocator + Copy> Automaton for Dfa<R, A> {
    type Row = Offset;

    ghost stored = { λ d. stored_of d };

    ghost is_of = { λ d nfa. d.nfa ≡ nfa };

    ghost finds = { λ d nfa. d.nfa ≡ nfa };

    ghost number = { λ d offset. offset / (d.table.class_count + 1) };

    ghost is_row = { λ d offset. IsOffset d.table offset };

    fn len(&self) -> usize {
        self.len()
    }

    #[inline(always)]
    fn columns(&self) -> usize {
        self.classes.alphabet_len()
    }

    fn line_terminator(&self) -> u8 {
        self.nfa.nfa().look_matcher().get_line_terminator()
    }

    #[inline(always)]
    fn first_row(&self, is_anchored: bool, look_behind: Option<u8>) -> RowId {
        RowId(self.row_number(self.start_row(is_anchored, look_behind)))
    }

    #[inline(always)]
    fn next_row(&self, row: RowId, unit: Option<u8>) -> RowId {
        let columns = self.classes.alphabet_len();
        let number = row.as_usize();
        if number >= self.len() {
            return RowId::DEAD;
        }
        RowId(self.row_number(self.row_over(number * columns, unit)))
    }

    #[inline(always)]
    fn match_len(&self, row: RowId) -> usize {
        self.match_patterns(row).len()
    }

    #[inline(always)]
    fn match_pattern(&self, row: RowId, index: usize) -> Option<PatternID> {
        self.match_patterns(row).get(index).copied()
    }

    fn is_always_start_anchored(&self) -> bool {
        self.nfa().start_unanchored() == self.nfa().start_anchored()
    }

    #[inline(always)]
    fn first(&self, is_anchored: bool, look_behind: Option<u8>) -> Offset {
        Offset(self.start_row(is_anchored, look_behind))
    }

    #[inline(always)]
    fn next(&self, row: Offset, unit: Option<u8>) -> Offset {
        Offset(self.row_over(row.0, unit))
    }

    #[inline(always)]
    fn lists(&self, row: Offset) -> bool {
        self.is_listing(row.0)
    }

    #[inline(always)]
    fn row_id(&self, row: Offset) -> RowId {
        RowId(self.row_number(row.0))
    }

    #[inline(always)]
    fn offset(&self, row: Offset) -> usize {
        row.0
    }

    #[inline(always)]
    fn is_dead_state(&self, row: RowId) -> bool
        ensures value { result ≡ nat_eq row 0 }
        ensures dead { result ≡ true → IsDead self.now.table row }
    {
        row.as_usize() < self.patterns.len() && row == RowId::DEAD
    }
}
