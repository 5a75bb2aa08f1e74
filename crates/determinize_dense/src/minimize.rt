//! The fewest rows, by partition refinement.
//!
//! The blocks are first the rows that list the same patterns and have the same distance: the least
//! number of units to a row that lists any. So a chain of rows whose last one lists patterns needs
//! one cycle of passes, and not one for each row. A pass over a column splits each block by the
//! blocks of its entries in the column. When a cycle of passes over all columns splits no block,
//! each block becomes one row.

ghost use Rattle.std.specs.Prelude.{◌≡◌, ◌↔◌, ℕ, ◌<◌, ◌≤◌, ◌+◌, IfOk, IsTrue, false, length, slice_index, sum_by};
ghost use Rattle.determinize_dense.specs.Private.Minimizing.{AreDistances, AreFirstAlike, AreMergedRows, AreDistancesSoFar, entry, IsGrouping, IsMerged, IsMinimized, IsPartition, IsDistanceSoFar, IsSettled, IsShort, IsSplitBy, IsStable};

use crate::dfa::Dfa;
use crate::partition::Partition;
use crate::rows::Rows;
use determinize_below::{AsNfa, PatternID};
use determinize_core::start::StartSlot;
use std::alloc::{AllocError, Allocator};
use std::collections::HashMap;
use std::hash::{BuildHasherDefault, FoldHasher};

/// The first row that has each list of patterns.
type Firsts<'l, A> = HashMap<&'l [PatternID], usize, BuildHasherDefault<FoldHasher>, A>;

impl<R: AsNfa, A: Allocator + Copy> Rows<R, A> {
    /// Returns for each row the first row that lists the same patterns.
    fn first_rows(&self, alloc: A) -> Result<Vec<usize, A>, AllocError>
        ensures { IfOk result (λ values. AreFirstAlike self.now.table values.items) }
    {
        let mut values = Vec::with_capacity(alloc, self.len())?;
        let mut firsts: Firsts<'_, A> = HashMap::new(alloc);
        for row in 0..self.len() {
            let list = self.patterns(row);
            if let Some(first) = firsts.get(list) {
                values.push(*first)?;
            } else {
                firsts.insert(list, row)?;
                values.push(row)?;
            }
        }
        Ok(values)
    }

    /// Returns 0 for a row that lists patterns, and the number of rows for any other.
    fn first_distance(&self, row: usize) -> usize
        requires { row < length self.now.table.patterns }
        ensures { IsDistanceSoFar self.now.table row result }
    {
        if self.patterns(row).is_empty() {
            self.len()
        } else {
            0
        }
    }

    /// Returns the least distance of the entries of a row.
    fn nearest(&self, distances: &[usize], row: usize) -> usize
        requires count { length distances.now ≡ length self.now.table.patterns }
        requires row { row < length self.now.table.patterns }
        ensures least { (c : ℕ) → c < self.now.table.class_count + 1
            → result ≤ slice_index distances.now (entry self.now.table row c) }
        ensures there { (c : ℕ) × (c < self.now.table.class_count + 1)
            × (result ≡ slice_index distances.now (entry self.now.table row c)) }
    {
        let mut least = distances[self.entry(row, 0)];
        for column in 1..self.classes.alphabet_len() {
            least = least.min(distances[self.entry(row, column)]);
        }
        least
    }

    /// Shortens the distance of each row to one more than the least distance of its entries, the
    /// last row first. Returns whether any distance became shorter.
    fn shorten(&self, distances: &mut [usize]) -> bool
        requires { AreDistancesSoFar self.now.table distances.old }
        ensures so_far { AreDistancesSoFar self.now.table distances.new }
        ensures short { result ≡ false → (r : ℕ) → r < length self.now.table.patterns
            → IsShort self.now.table distances.new r }
        ensures less { IsTrue result
            → sum_by (λ n. n) distances.new < sum_by (λ n. n) distances.old }
    {
        let mut is_shorter = false;
        let mut row = self.len();
        while row > 0 {
            row -= 1;
            let distance = self.nearest(distances, row) + 1;
            if distance < distances[row] {
                distances[row] = distance;
                is_shorter = true;
            }
        }
        is_shorter
    }

    /// Returns for each row the least number of units to a row that lists patterns, or the number
    /// of rows if no such row follows.
    fn distances(&self, alloc: A) -> Result<Vec<usize, A>, AllocError>
        ensures { IfOk result (λ values. AreDistances self.now.table values.items) }
    {
        let mut distances = Vec::with_capacity(alloc, self.len())?;
        for row in 0..self.len() {
            distances.push(self.first_distance(row))?;
        }
        while self.shorten(distances.as_mut_slice()) {}
        Ok(distances)
    }

    /// Returns whether, in a column, the entries of the rows of each block are in one block.
    fn is_settled(&self, parts: &Partition<A>, column: usize) -> bool
        requires parts { IsPartition self.now.table parts.now }
        requires column { column < self.now.table.class_count + 1 }
        ensures { IsTrue result ↔ IsSettled self.now.table parts.now column }
    {
        for row in 0..self.len() {
            let member = parts.members()[parts.block(row)];
            let target = parts.block(self.entry(row, column));
            if target != parts.block(self.entry(member, column)) {
                return false;
            }
        }
        true
    }

    /// Splits the blocks by their entries in a column. Does not allocate if none is split.
    fn split_by(
        &self,
        alloc: A,
        parts: Partition<A>,
        column: usize,
    ) -> Result<Partition<A>, AllocError>
        requires parts { IsPartition self.now.table parts }
        requires column { column < self.now.table.class_count + 1 }
        ensures { IfOk result (λ p. IsSplitBy self.now.table column parts p) }
    {
        if self.is_settled(&parts, column) {
            return Ok(parts);
        }
        let mut targets = Vec::with_capacity(alloc, self.len())?;
        for row in 0..self.len() {
            targets.push(parts.block(self.entry(row, column)))?;
        }
        parts.split(alloc, targets.as_slice())
    }

    /// Returns the first blocks: rows that list the same patterns and have the same distance.
    fn first_blocks(&self, alloc: A) -> Result<Partition<A>, AllocError>
        ensures { IfOk result (λ p. IsPartition self.now.table p) }
    {
        let whole = Partition::whole(alloc, self.len())?;
        let first_rows = self.first_rows(alloc)?;
        let listing = whole.split(alloc, first_rows.as_slice())?;
        let distances = self.distances(alloc)?;
        listing.split(alloc, distances.as_slice())
    }

    /// Returns the blocks of rows that list the same patterns along all units.
    pub(crate) fn partition(&self, alloc: A) -> Result<Partition<A>, AllocError>
        ensures partition { IfOk result (λ p. IsPartition self.now.table p) }
        ensures stable { IfOk result (λ p. IsStable self.now.table p) }
    {
        let mut parts = self.first_blocks(alloc)?;
        loop {
            let count = parts.len();
            for column in 0..self.classes.alphabet_len() {
                parts = self.split_by(alloc, parts, column)?;
            }
            if parts.len() == count {
                return Ok(parts);
            }
        }
    }

    /// Returns the DFA with the fewest rows that list the same patterns along all units.
    pub(crate) fn minimized(self, alloc: A) -> Result<Dfa<R, A>, AllocError>
        ensures { IfOk result (λ dfa. IsMinimized self dfa) }
    {
        let parts = self.partition(alloc)?;
        let fewest = self.merged(alloc, &parts)?;
        // The blocks are not kept while the fewest rows are copied in order.
        drop(parts);
        fewest.arranged(alloc)
    }

    /// Returns a row for each block: its entries and starts are blocks.
    pub(crate) fn merged(self, alloc: A, parts: &Partition<A>) -> Result<Rows<R, A>, AllocError>
        requires { IsGrouping self.table parts.now }
        ensures { IfOk result (λ rows. IsMerged self parts.now rows) }
    {
        let mut starts = self.starts;
        for number in 0..StartSlot::COUNT {
            starts[number] = parts.block(self.starts[number] as usize) as u32;
        }
        let mut patterns = Vec::with_capacity(alloc, parts.len())?;
        for row in parts.members() {
            patterns.push(self.patterns[*row].clone()?)?;
        }
        let next = self.merged_rows(alloc, parts)?;
        Ok(Rows {
            nfa: self.nfa,
            match_kind: self.match_kind,
            classes: self.classes,
            next,
            starts,
            patterns,
        })
    }

    /// Returns the entries of the rows of the blocks.
    fn merged_rows(&self, alloc: A, parts: &Partition<A>) -> Result<Vec<u32, A>, AllocError>
        requires { IsGrouping self.now.table parts.now }
        ensures { IfOk result (λ next. AreMergedRows self.now.table parts.now next.items) }
    {
        let room = parts.len() * self.classes.alphabet_len();
        let mut next = Vec::with_capacity(alloc, room)?;
        for row in parts.members() {
            for column in 0..self.classes.alphabet_len() {
                next.push(parts.block(self.entry(*row, column)) as u32)?;
            }
        }
        Ok(next)
    }
}
