//! A whole DFA: its table, how its entries are read, and what can be asked of it besides searches.

ghost use Rattle.std.specs.Prelude.{◌≡◌, ◌+◌, ◌*◌, ◌<◌, ◌≤◌, Err, IfOk, IsErr, length, map, min};
ghost use Rattle.determinize_below.specs.ByteClasses.{AreClassesOf};
ghost use Rattle.determinize_below.specs.Nfa.{IsAccepted};
ghost use Rattle.determinize_below.specs.Truth.{IsUnit};
ghost use Rattle.determinize_dense.specs.Dfa.{HasMoreStates, HasStates, IsDfaOf};
ghost use Rattle.determinize_dense.specs.Least.{HasRows, IsLeast};
ghost use Rattle.determinize_dense.specs.Private.Order.{IsArranged};
ghost use Rattle.determinize_dense.specs.Private.Rows.{IsDfa, IsNext, IsOffset, dfa_value, offset_of, rows_at};
ghost use Rattle.determinize_dense.specs.Table.{DfaValue, bytes_of, column_of, patterns_at, start_row};
ghost use Rattle.determinize_dense.specs.declared.error.DfaError.TheVariants.{TooManyStates};

use crate::build::Builder;
use crate::error::DfaError;
use crate::rows::Rows;
use crate::scans::SETS;
use byte_set::ByteSet;
use determinize_below::alphabet::ByteClasses;
use determinize_below::{AsNfa, MatchKind, NFA, PatternID};
use determinize_core::start::{StartSlot, start_kind_of};
use determinize_engine::state_table::MAX_STATES;
use std::alloc::{AllocError, Allocator, Global};
use std::fmt;
use std::marker::Model;
use std::mem::{size_of, size_of_val};

/// 2^32. The offset of each row is less.
pub(crate) const SCALE: usize = 1 << 32;

/// The bytes of a list of patterns itself, with an allocator of no size.
const LIST: usize = size_of::<Vec<PatternID>>();

/// A whole DFA of an NFA, which it owns or borrows. As built, it has a row for each state that a
/// search can reach, from every start and over any units; as minimized, one row for all states that
/// match alike.
///
/// First is the row of the dead state, then come the rows that list patterns, then those that a
/// search scans out of, and then the others. So after the first 64 bytes a search mostly compares
/// once for each byte. The first eight rows that are scanned out of have a set of the bytes that
/// leave them, by which a scan reads up to 64 bytes at once: 34 bytes each, in the `Dfa` itself.
pub struct Dfa<R: AsNfa, A: Allocator = Global> {
    pub(crate) nfa: R,
    pub(crate) match_kind: MatchKind,
    pub(crate) classes: ByteClasses,
    /// The entries of the rows: the offset of the next row, which is its number times the length of
    /// a row. So a search needs no product to find an entry.
    pub(crate) next: Vec<u32, A>,
    /// The numbers of the rows of the start states.
    pub(crate) starts: [u32; StartSlot::COUNT],
    pub(crate) patterns: Vec<Vec<PatternID, A>, A>,
    /// The offset of the last row that lists patterns, or 0.
    pub(crate) last_match: usize,
    /// The offset of the last row that is scanned out of, or `last_match`.
    pub(crate) last_special: usize,
    /// The number of the first row that is scanned out of, if there is one.
    pub(crate) first_scanned: usize,
    /// The sets of the bytes that leave the first rows that are scanned out of.
    pub(crate) leaving: [ByteSet; SETS],
    /// `SCALE` divided by the length of a row, rounded down, plus 1. Its product with the offset of
    /// row `r` is at least `r` times `SCALE`, and less than `r + 1` times. So a search needs no
    /// division to look up the patterns of a row.
    pub(crate) inverse: usize,
}

// Derived code is proved again in each crate that drops a DFA.
impl<R: AsNfa, A: Allocator> Drop for Dfa<R, A> {
    fn drop(self) {
        let Dfa {
            nfa: _,
            match_kind: _,
            classes: _,
            next: _,
            starts: _,
            patterns: _,
            last_match: _,
            last_special: _,
            first_scanned: _,
            leaving: _,
            inverse: _,
        } = self;
    }
}

impl<R: AsNfa, A: Allocator> Model for Dfa<R, A> {
    ghost Value = { DfaValue };

    ghost view = { λ d. dfa_value (R.nfa d.nfa) d.match_kind d.classes
        (rows_at (length d.classes.firsts + 1) d.next.items) d.starts
        (map (λ list. list.items) d.patterns.items) };

    ghost invariant = { λ d. IsArranged (dfa_value (R.nfa d.nfa) d.match_kind d.classes
        (rows_at (length d.classes.firsts + 1) d.next.items) d.starts
        (map (λ list. list.items) d.patterns.items))
        d.next.items d.last_match d.last_special d.first_scanned d.leaving d.inverse };
}

impl<R: AsNfa, A: Allocator + Copy> Dfa<R, A> {
    /// Builds the DFA of an NFA, with all its start states: anchored and unanchored, after each
    /// kind of byte.
    ///
    /// - `limit` is the greatest number of states, and there are never more than 16647160.
    ///
    /// Returns a DFA only if at most that many states are reached, and `TooManyStates` only if more
    /// are. Returns `OutOfMemory` if an allocation fails, also where more states are reached; at
    /// limit 0 nothing is allocated. The number of states may be exponential in the size of the
    /// NFA, above all under `MatchKind::All`.
    pub fn build(
        alloc: A,
        nfa: R,
        match_kind: MatchKind,
        limit: usize,
    ) -> Result<Dfa<R, A>, DfaError>
        ensures nfa { IfOk result (λ dfa. dfa.nfa ≡ R.nfa nfa) }
        ensures kind { IfOk result (λ dfa. dfa.kind ≡ match_kind) }
        ensures means { IfOk result (λ dfa. IsDfaOf dfa.nfa dfa.kind dfa.table) }
        ensures states { IfOk result
            (λ dfa. HasStates (R.nfa nfa) match_kind (length dfa.table.patterns)) }
        ensures few { IfOk result (λ dfa. length dfa.table.patterns ≤ min limit MAX_STATES) }
        ensures many { result ≡ Err TooManyStates
            → HasMoreStates (R.nfa nfa) match_kind (min limit MAX_STATES) }
        ensures more { HasMoreStates (R.nfa nfa) match_kind (min limit MAX_STATES)
            → IsErr result }
        ensures zero { limit ≡ 0 → result ≡ Err TooManyStates }
    {
        let builder = Builder::new(alloc, nfa, match_kind, limit)?;
        // This drops the states found: they are not kept while the rows are copied in order.
        let rows = builder.rows(alloc)?;
        Ok(rows.arranged(alloc)?)
    }

    /// Returns the DFA with the fewest states among those that list the same patterns along all
    /// units, also along units after the end of input (EOI).
    ///
    /// States are merged if they list the same patterns along all units. A text has no unit after
    /// EOI, so a table that agrees with this DFA after each text may have fewer states. A few
    /// passes over the table suffice mostly. For a long chain of states that all list patterns, as
    /// that of `a{0,10000}`, or of states with a loop over most bytes and others in turn, as in
    /// `(?:a[^b]*b){5000}`, the time is quadratic in their number, and it is never more. The lists
    /// of patterns are allocated by the allocator of this DFA, all else by `alloc`. If an
    /// allocation fails, this DFA is lost.
    pub fn into_minimized(self, alloc: A) -> Result<Dfa<R, A>, AllocError>
        ensures nfa { IfOk result (λ dfa. dfa.nfa ≡ self.nfa) }
        ensures kind { IfOk result (λ dfa. dfa.kind ≡ self.kind) }
        ensures means { IfOk result (λ dfa. IsDfaOf dfa.nfa dfa.kind dfa.table) }
        ensures least { IfOk result (λ dfa. IsLeast dfa.nfa dfa.table) }
        ensures fewer { IfOk result
            (λ dfa. length dfa.table.patterns ≤ length self.table.patterns) }
    {
        self.into_rows(alloc)?.minimized(alloc)
    }

    /// Returns the entries of the rows, as numbers of rows.
    fn entries(&self, alloc: A) -> Result<Vec<u32, A>, AllocError>
        ensures { IfOk result (λ entries. entries.items ≡ self.now.table.next) }
    {
        let columns = self.classes.alphabet_len();
        let mut entries = Vec::with_capacity(alloc, self.next.len())?;
        for offset in &self.next {
            entries.push((*offset as usize / columns) as u32)?;
        }
        Ok(entries)
    }

    /// Returns the rows, with numbers of rows in place of offsets.
    fn into_rows(self, alloc: A) -> Result<Rows<R, A>, AllocError>
        ensures { IfOk result (λ rows. rows ≡ self) }
    {
        let entries = self.entries(alloc)?;
        let Dfa {
            nfa,
            match_kind,
            classes,
            next: _,
            starts,
            patterns,
            last_match: _,
            last_special: _,
            first_scanned: _,
            leaving: _,
            inverse: _,
        } = self;
        Ok(Rows {
            nfa,
            match_kind,
            classes,
            next: entries,
            starts,
            patterns,
        })
    }

    /// Returns the NFA.
    pub fn nfa(&self) -> &NFA<R::N>
        ensures value { result.now ≡ self.now.nfa }
        ensures accepted { IsAccepted self.now.nfa }
    {
        self.nfa.nfa()
    }

    /// Returns the match kind.
    pub fn match_kind(&self) -> MatchKind
        ensures { result ≡ self.now.kind }
    {
        self.match_kind
    }

    /// Returns the number of states.
    pub fn len(&self) -> usize
        ensures value { result ≡ length self.now.table.patterns }
        ensures means { IsDfaOf self.now.nfa self.now.kind self.now.table }
        ensures rows { HasRows self.now.nfa self.now.table }
    {
        self.patterns.len()
    }

    /// Returns the classes of bytes. A row has a column for each, and one for EOI.
    pub fn byte_classes(&self) -> &ByteClasses
        ensures value { result.now.of_bytes ≡ self.now.table.classes }
        ensures count { length result.now.firsts ≡ self.now.table.class_count }
        ensures classes { AreClassesOf self.now.nfa result.now }
    {
        &self.classes
    }

    /// Returns the heap memory of the DFA in bytes, without spare capacity: four bytes for each
    /// entry, and for each row 24 bytes and four for each pattern that it lists. An allocator that
    /// has a size is not counted, although each row has a copy of it. The sets for scans are in the
    /// `Dfa` itself.
    pub fn memory_usage(&self) -> usize
        ensures { result ≡ min (bytes_of self.now.table) usize.MAX }
    {
        let mut bytes = size_of_val(self.next.as_slice());
        for list in &self.patterns {
            let patterns = list.len().saturating_mul(size_of::<PatternID>());
            bytes = bytes.saturating_add(LIST).saturating_add(patterns);
        }
        bytes
    }

    /// Returns the offset of the row of a start after a byte, or after nothing.
    pub(crate) fn start_row(&self, is_anchored: bool, look_behind: Option<u8>) -> usize
        ensures value { result ≡ offset_of self.now.table
            (start_row self.now.nfa self.now.table is_anchored look_behind) }
        ensures limit { start_row self.now.nfa self.now.table is_anchored look_behind
            < length self.now.table.patterns }
        ensures unit { IsUnit look_behind }
        ensures sound { IsDfa self.now }
    {
        let terminator = self.nfa.nfa().look_matcher().get_line_terminator();
        let kind = start_kind_of(terminator, look_behind);
        let slot = StartSlot { is_anchored, kind };
        self.starts[slot.as_usize()] as usize * self.classes.alphabet_len()
    }

    /// Returns the offset of the row after the row at an offset, over a unit.
    ///
    /// The slice at the column does not depend on the row, so from one row to the next there is one
    /// load.
    #[inline(always)]
    pub(crate) fn row_over(&self, row: usize, unit: Option<u8>) -> usize
        requires { IsOffset self.now.table row }
        ensures value { IsNext self.now.table row unit result }
        ensures unit { IsUnit unit }
    {
        let column = &self.next[self.column(unit)..];
        column[row] as usize
    }

    /// Returns the column of a unit.
    #[inline(always)]
    fn column(&self, unit: Option<u8>) -> usize
        ensures value { result ≡ column_of self.now.table unit }
        ensures limit { result < self.now.table.class_count + 1 }
        ensures unit { IsUnit unit }
    {
        match unit {
            Some(byte) => usize::from(self.classes.get(byte)),
            None => self.classes.alphabet_len() - 1,
        }
    }

    /// Returns the patterns that the row with a number lists.
    #[inline(always)]
    pub(crate) fn patterns(&self, row: usize) -> &[PatternID]
        requires { row < length self.now.table.patterns }
        ensures { result.now ≡ patterns_at self.now.table row }
    {
        self.patterns[row].as_slice()
    }
}

impl<'n, N: Allocator, A: Allocator + Copy> Dfa<&'n NFA<N>, A> {
    /// Returns the NFA, for as long as it is lent.
    pub fn lent_nfa(&self) -> &'n NFA<N>
        ensures value { result.now ≡ self.now.nfa }
        ensures accepted { IsAccepted self.now.nfa }
    {
        self.nfa
    }

    /// Returns the DFA with the fewest states, as `into_minimized` does, and keeps this one.
    pub fn minimize(&self, alloc: A) -> Result<Dfa<&'n NFA<N>, A>, AllocError>
        ensures nfa { IfOk result (λ dfa. dfa.nfa ≡ self.now.nfa) }
        ensures kind { IfOk result (λ dfa. dfa.kind ≡ self.now.kind) }
        ensures means { IfOk result (λ dfa. IsDfaOf dfa.nfa dfa.kind dfa.table) }
        ensures least { IfOk result (λ dfa. IsLeast dfa.nfa dfa.table) }
        ensures fewer { IfOk result
            (λ dfa. length dfa.table.patterns ≤ length self.now.table.patterns) }
    {
        self.to_rows(alloc)?.minimized(alloc)
    }

    /// Returns a copy of the rows, with numbers of rows in place of offsets.
    fn to_rows(&self, alloc: A) -> Result<Rows<&'n NFA<N>, A>, AllocError>
        ensures { IfOk result (λ rows. rows ≡ self.now) }
    {
        Ok(Rows {
            nfa: self.nfa,
            match_kind: self.match_kind,
            classes: self.classes.clone()?,
            next: self.entries(alloc)?,
            starts: self.starts,
            patterns: self.patterns.clone()?,
        })
    }
}

impl<R: AsNfa, A: Allocator + Copy> fmt::Debug for Dfa<R, A> {
    fn fmt<W: fmt::Write>(&self, f: &mut fmt::Formatter<W>) -> fmt::Result {
        f.debug_struct("Dfa")
            .field("match_kind", &self.match_kind())
            .field("len", &self.len())
            .field("alphabet_len", &self.byte_classes().alphabet_len())
            .finish_non_exhaustive()
    }
}
