//! Scans: a search stays in a row while the bytes that it reads do not leave it.
//!
//! The first few rows that are scanned out of have a set of the bytes that leave them. By it a scan
//! reads many bytes of a text at once.

ghost use Rattle.std.specs.Prelude.{◌<◌, ◌≤◌, ℕ, length};
ghost use Rattle.std.specs.Option.{IfSome};
ghost use Rattle.determinize_dense.specs.Private.Rows.{IsOffset, IsRowAt};
ghost use Rattle.determinize_dense.specs.Private.Scans.{AreAllStaying, IsStaying};
ghost use Rattle.determinize_dense.specs.Private.Searching.{IsScan};

use crate::dfa::Dfa;
use crate::rows::Rows;
use byte_set::ByteSet;
use determinize_below::AsNfa;
use determinize_engine::scans;
use determinize_engine::state_table::MAX_STATES;
use determinize_engine::text::Text;
use std::alloc::Allocator;

/// The number of rows that have a set.
pub(crate) const SETS: usize = 8;

/// The number of bytes that a search reads before it scans.
pub(crate) const FIRST: usize = 64;

/// The number of bytes of a block.
pub(crate) const BLOCK: usize = 64;

/// The number of blocks without a match after which a search scans again.
pub(crate) const BLOCKS: usize = 8;

/// The number of bytes of the shortest pause between scans.
pub(crate) const SHORTEST: usize = 32;

/// The number of bytes from which on a scan saves time: a shorter one costs more than it saves.
pub(crate) const WORTHWHILE: usize = 8;

impl<R: AsNfa, A: Allocator + Copy> Rows<R, A> {
    /// Returns the set of the bytes that leave a row, or of all bytes if the row is after the last
    /// one that is scanned out of.
    fn leaving(&self, row: usize, last: usize) -> ByteSet
        requires { last < length self.now.table.patterns }
        ensures { IsStaying self.now.table row result }
    {
        if row > last {
            return ByteSet::all();
        }
        let mut leaving = [true; 256];
        for byte in 0..=u8::MAX {
            if self.entry(row, usize::from(self.classes.get(byte))) == row {
                leaving[usize::from(byte)] = false;
            }
        }
        ByteSet::new(&leaving)
    }

    /// Returns the sets of row `first` and the rows after it. `last` is the last row that is
    /// scanned out of.
    pub(crate) fn all_leaving(&self, first: usize, last: usize) -> [ByteSet; SETS]
        requires first { first ≤ MAX_STATES }
        requires last { last < length self.now.table.patterns }
        ensures { AreAllStaying self.now.table first result }
    {
        [
            self.leaving(first, last),
            self.leaving(first + 1, last),
            self.leaving(first + 2, last),
            self.leaving(first + 3, last),
            self.leaving(first + 4, last),
            self.leaving(first + 5, last),
            self.leaving(first + 6, last),
            self.leaving(first + 7, last),
        ]
    }
}

impl<R: AsNfa, A: Allocator + Copy> Dfa<R, A> {
    /// Returns the set of a row, if it has one: each byte that leaves the row is in it.
    ///
    /// - `row` is the offset of the row.
    #[inline(always)]
    fn leaving(&self, row: usize) -> Option<&ByteSet>
        requires { IsOffset self.now.table row }
        ensures { IfSome result (λ set. (r : ℕ) → IsRowAt self.now.table row r
            → IsStaying self.now.table r set.now) }
    {
        let number = self.row_number(row);
        if number < self.first_scanned || number - self.first_scanned >= SETS {
            return None;
        }
        Some(&self.leaving[number - self.first_scanned])
    }

    /// Returns the index of the first byte from `read` on that leaves a row, but at most `until`.
    ///
    /// - `row` is the offset of the row, and `read` the number of bytes read before.
    #[inline(always)]
    fn scan_upto(&self, row: usize, text: &Text<'_>, read: usize, until: usize) -> usize
        requires row { IsOffset self.now.table row }
        requires read { read ≤ until }
        requires until { until ≤ length text.now.bytes }
        ensures { IsScan self.now.table row text.now read until result }
    {
        let mut read = read;
        while read < until && self.over_byte(row, text, read) == row {
            read += 1;
        }
        read
    }

    /// Returns the index of the first byte from `read` on that leaves a row, or the length of the
    /// text, but `read` where a scan by the set of the row would be over soon: fewer than sixteen
    /// bytes are left, or one of the next sixteen leaves the row.
    ///
    /// - `row` is the offset of the row, and `read` the number of bytes read before.
    #[inline(always)]
    pub(crate) fn scan(&self, row: usize, text: &Text<'_>, read: usize) -> usize
        requires row { IsOffset self.now.table row }
        requires read { read ≤ length text.now.bytes }
        ensures { IsScan self.now.table row text.now read (length text.now.bytes) result }
    {
        let Some(set) = self.leaving(row) else {
            return self.scan_upto(row, text, read, text.len());
        };
        scans::scan(set, text, read)
    }
}
