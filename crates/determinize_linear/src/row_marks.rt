//! Marks of the pairs of a position and a row from which the next step of a walk listed no match,
//! and of those with row 0, if that is known to be the row of the dead state.
//!
//! A walk knows its row by the offset in the table of the DFA, which is the number of the row times
//! the number of columns. So the words of a row begin at its offset times the number of words for
//! each entry of the table.

ghost use Rattle.std.specs.Prelude.{◌≡◌, ℕ, ◌*◌, ◌+◌, ◌/◌, ◌<◌, ◌≤◌, ◌||◌, ◌&&◌, IfOk, length, nat_eq, nat_lt};
ghost use Rattle.determinize_below.specs.Private.Sparse.{has_bit};
ghost use Rattle.determinize_linear.specs.Private.RowMarks.{HasMark, bit_of};

use std::alloc::{AllocError, Allocator};
use std::marker::Model;

/// A mark for each pair of a position and a row.
#[derive(Drop)]
pub(crate) struct RowMarks<A: Allocator> {
    /// The number of words for each entry of the table.
    span: usize,
    /// A bit for each position at each row, one row after the other.
    words: Vec<u64, A>,
}

impl<A: Allocator> Model for RowMarks<A> {
    ghost use Rattle.determinize_linear.specs.Private.RowMarks as marks;

    ghost Value = { marks.RowMarks };

    ghost view = { λ m. record { span = m.span; words = m.words.items } };
}

/// Returns whether a bit is set.
///
/// - `index` is its index among those from word `first` on.
#[inline(always)]
#[tactic(auto, using(crate::proofs::walks::Unset::one_bit))]
fn is_bit_set(words: &[u64], first: usize, index: usize) -> bool
    requires { first + index / 64 < length words.now }
    ensures { result ≡ has_bit words.now (64 * first + index) }
{
    (words[first + index / 64] >> (index % 64)) & 1 == 1
}

/// Sets a bit.
///
/// - `index` is its index among those from word `first` on.
#[inline(always)]
#[tactic(auto, using(crate::proofs::walks::Unset::one_bit))]
fn set_bit(words: &mut [u64], first: usize, index: usize)
    requires { first + index / 64 < length words.old }
    ensures { (other : ℕ)
        → has_bit words.new other ≡ (nat_eq other (64 * first + index) || has_bit words.old other) }
{
    words[first + index / 64] |= 1 << (index % 64);
}

/// Sets all bits of the first words.
fn set_first(words: &mut [u64], count: usize)
    requires { count ≤ length words.old }
    ensures length { length words.new ≡ length words.old }
    ensures bits { (i : ℕ)
        → has_bit words.new i ≡ (nat_lt i (64 * count) || has_bit words.old i) }
{
    words[..count].fill(u64::MAX);
}

impl<A: Allocator> RowMarks<A> {
    /// Returns a table for this number of positions, and for the rows of a table with this number
    /// of columns. If row 0 is dead its pairs are marked, and no others are.
    #[tactic(auto, using(crate::proofs::walks::Unset::one_bit))]
    pub(crate) fn new(
        alloc: A,
        positions: usize,
        rows: usize,
        columns: usize,
        is_dead: bool,
    ) -> Result<RowMarks<A>, AllocError>
        requires rows { 0 < rows }
        requires columns { 0 < columns }
        ensures room { IfOk result (λ m. positions ≤ 64 * (columns * m.span)) }
        ensures few { IfOk result (λ m. 64 * (columns * m.span) < positions + 64 * columns) }
        ensures words { IfOk result (λ m. length m.words ≡ rows * (columns * m.span)) }
        ensures first { IfOk result
            (λ m. (i : ℕ) → has_bit m.words i
            ≡ (is_dead && nat_lt i (64 * (columns * m.span)))) }
    {
        let span = positions.div_ceil(64).div_ceil(columns);
        let width = span.checked_mul(columns).ok_or(AllocError)?;
        let count = width.checked_mul(rows).ok_or(AllocError)?;
        let mut words = vec![in alloc; 0u64; count]?;
        if is_dead {
            set_first(&mut words, width);
        }
        Ok(RowMarks { span, words })
    }

    /// Returns whether the pair of a position and the row with this offset is marked.
    #[inline(always)]
    pub(crate) fn is_set(&self, at: usize, offset: usize) -> bool
        requires { bit_of self.now at offset < 64 * length self.now.words }
        ensures { result ≡ has_bit self.now.words (bit_of self.now at offset) }
    {
        is_bit_set(&self.words, offset * self.span, at)
    }

    /// Marks the pair of a position and the row with this offset.
    #[inline(always)]
    pub(crate) fn set(&mut self, at: usize, offset: usize)
        requires { bit_of self.old at offset < 64 * length self.old.words }
        ensures { HasMark self.old (bit_of self.old at offset) self.new }
    {
        set_bit(&mut self.words, offset * self.span, at);
    }
}
