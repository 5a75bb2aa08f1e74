//! The rows of a DFA while it is built, minimized and put in order: a table of numbers of rows.
//!
//! The order is row 0, then the rows that list patterns, then those that a search scans out of, and
//! then the others.

ghost use Rattle.std.specs.Prelude.{◌≡◌, ◌+◌, ◌*◌, ◌<◌, ◌≤◌, All, IfOk, length, map};
ghost use Rattle.determinize_dense.specs.Private.Minimizing.{entry};
ghost use Rattle.determinize_dense.specs.Private.Order.{AreRanks, IsInOrder, IsRank};
ghost use Rattle.determinize_dense.specs.Private.Rows.{IsDfa, dfa_value};
ghost use Rattle.determinize_dense.specs.Table.{DfaValue, patterns_at};

use crate::dfa::{Dfa, SCALE};
use crate::partition::Partition;
use determinize_below::alphabet::ByteClasses;
use determinize_below::{AsNfa, MatchKind, PatternID};
use determinize_core::start::StartSlot;
use determinize_engine::state_table::MAX_STATES;
use std::alloc::{AllocError, Allocator, Global};
use std::marker::Model;

/// The least number of the 256 bytes that must lead a row to itself, so that a search scans there.
const STAYING: usize = 64;

/// The rows of a DFA, in any order, except that row 0 is that of the dead state.
///
/// A row has an entry for each class of bytes and, last, one for the end of input (EOI): the number
/// of the next row.
#[derive(Drop)]
pub(crate) struct Rows<R: AsNfa, A: Allocator = Global> {
    pub(crate) nfa: R,
    pub(crate) match_kind: MatchKind,
    pub(crate) classes: ByteClasses,
    pub(crate) next: Vec<u32, A>,
    pub(crate) starts: [u32; StartSlot::COUNT],
    pub(crate) patterns: Vec<Vec<PatternID, A>, A>,
}

impl<R: AsNfa, A: Allocator> Model for Rows<R, A> {
    ghost Value = { DfaValue };

    ghost view = { λ d. dfa_value (R.nfa d.nfa) d.match_kind d.classes d.next.items d.starts
        (map (λ list. list.items) d.patterns.items) };

    ghost invariant = { λ d. IsDfa (dfa_value (R.nfa d.nfa) d.match_kind d.classes d.next.items
        d.starts (map (λ list. list.items) d.patterns.items)) };
}

/// Returns the offsets of the rows with these numbers.
///
/// - `columns` is the length of a row.
fn offsets_of<A: Allocator + Copy>(
    alloc: A,
    rows: &[u32],
    columns: usize,
) -> Result<Vec<u32, A>, AllocError>
    requires rows { All (λ row. row < MAX_STATES) rows.now }
    requires columns { columns ≤ 257 }
    ensures { IfOk result (λ offsets. offsets.items ≡ map (λ row. row * columns) rows.now) }
{
    let mut offsets = Vec::with_capacity(alloc, rows.len())?;
    for row in rows {
        offsets.push((*row as usize * columns) as u32)?;
    }
    Ok(offsets)
}

impl<R: AsNfa, A: Allocator + Copy> Rows<R, A> {
    /// Returns the number of rows.
    pub(crate) fn len(&self) -> usize
        ensures value { result ≡ length self.now.table.patterns }
        ensures sound { IsDfa self.now }
    {
        self.patterns.len()
    }

    /// Returns the row after a row, in a column.
    pub(crate) fn entry(&self, row: usize, column: usize) -> usize
        requires row { row < length self.now.table.patterns }
        requires column { column < self.now.table.class_count + 1 }
        ensures value { result ≡ entry self.now.table row column }
        ensures limit { result < length self.now.table.patterns }
    {
        self.next[row * self.classes.alphabet_len() + column] as usize
    }

    /// Returns the patterns that a row lists.
    pub(crate) fn patterns(&self, row: usize) -> &[PatternID]
        requires { row < length self.now.table.patterns }
        ensures { result.now ≡ patterns_at self.now.table row }
    {
        self.patterns[row].as_slice()
    }

    /// Returns the rank of a row in the order: 2 for one that a search scans out of.
    ///
    /// These are the rows that at least `STAYING` bytes do not leave. This is a guess at what is
    /// fast, and no match depends on it.
    fn rank(&self, row: usize, class_sizes: &[u16; 256]) -> usize
        requires { row < length self.now.table.patterns }
        ensures { IsRank self.now.table row result }
    {
        if row == 0 {
            return 0;
        }
        if !self.patterns[row].is_empty() {
            return 1;
        }
        let mut staying = 0;
        for class in 0..self.classes.representatives().len() {
            if self.entry(row, class) == row {
                staying += usize::from(class_sizes[class]);
            }
        }
        if staying >= STAYING { 2 } else { 3 }
    }

    /// Returns the rank of each row.
    fn ranks(&self, alloc: A) -> Result<Vec<usize, A>, AllocError>
        ensures { IfOk result (λ ranks. AreRanks self.now.table ranks.items) }
    {
        let mut class_sizes = [0; 256];
        for byte in 0..=u8::MAX {
            class_sizes[usize::from(self.classes.get(byte))] += 1;
        }
        let mut ranks = Vec::with_capacity(alloc, self.len())?;
        for row in 0..self.len() {
            ranks.push(self.rank(row, &class_sizes))?;
        }
        Ok(ranks)
    }

    /// Returns the DFA with these rows, in order.
    pub(crate) fn arranged(self, alloc: A) -> Result<Dfa<R, A>, AllocError>
        ensures { IfOk result (λ dfa. IsInOrder self dfa) }
    {
        let ranks = self.ranks(alloc)?;
        let ranks = ranks.as_slice();
        let order = Partition::by_rank(alloc, ranks)?;
        let rows = self.merged(alloc, &order)?;
        let (last_listing, last_scanned) = (order.last_upto(ranks, 1), order.last_upto(ranks, 2));
        let columns = rows.classes.alphabet_len();
        let next = offsets_of(alloc, rows.next.as_slice(), columns)?;
        let first_scanned = last_listing + 1;
        let leaving = rows.all_leaving(first_scanned, last_scanned);
        Ok(Dfa {
            nfa: rows.nfa,
            match_kind: rows.match_kind,
            classes: rows.classes,
            next,
            starts: rows.starts,
            patterns: rows.patterns,
            last_match: last_listing * columns,
            last_special: last_scanned * columns,
            first_scanned,
            leaving,
            inverse: SCALE / columns + 1,
        })
    }
}
