//! Numbers of four bytes.

ghost use Rattle.std.specs.Prelude.{All, ◌≡◌, ◌≤◌, ◌<◌, ◌^◌, IfNone, IfSome, length, slice_index};
ghost use Rattle.std.specs.List.{slice_range};
ghost use Rattle.determinize_stored.specs.Private.Words.{words_in};

use std::marker::Model;

/// Numbers, each of four bytes with the lowest first.
#[derive(Drop)]
pub(crate) struct Words<'b> {
    bytes: &'b [u8],
}

impl<'b> Model for Words<'b> {
    ghost use Rattle.std.specs.Prelude.{ℕ, List};
    ghost use Rattle.determinize_stored.specs.Private.Words.{words_in};

    ghost Value = { List ℕ };

    ghost view = { λ w. words_in w.bytes.now };
}

impl<'b> Words<'b> {
    /// Returns the numbers that bytes are. One to three bytes at the end are left out.
    pub(crate) fn new(bytes: &'b [u8]) -> Words<'b>
        ensures { result ≡ words_in bytes.now }
    {
        Words { bytes }
    }

    /// Returns how many numbers these are.
    #[inline(always)]
    #[tactic(auto, using(crate::proofs::Numbers::words_whole))]
    pub(crate) fn len(&self) -> usize
        ensures count { result ≡ length self.now }
        ensures limit { result < 2 ^ 61 }
    {
        self.bytes.len() / 4
    }

    /// Returns the number at an index.
    #[inline(always)]
    #[tactic(auto, using(crate::proofs::Numbers::word_room))]
    pub(crate) fn get(&self, index: usize) -> u32
        requires { index < length self.now }
        ensures { result ≡ slice_index self.now index }
    {
        let bytes = &self.bytes[4 * index..4 * index + 4];
        u32::from_le_bytes([bytes[0], bytes[1], bytes[2], bytes[3]])
    }

    /// Returns the numbers from one index up to another.
    #[inline(always)]
    #[tactic(auto, using(crate::proofs::Numbers::words_room))]
    pub(crate) fn range(&self, start: usize, end: usize) -> Words<'b>
        requires order { start ≤ end }
        requires within { end ≤ length self.now }
        ensures { result ≡ slice_range self.now start end }
    {
        Words {
            bytes: &self.bytes[4 * start..4 * end],
        }
    }

    /// Returns the index of the first number that is not below a limit, or `None` if all are.
    pub(crate) fn first_from(&self, limit: usize) -> Option<usize>
        ensures some { IfSome result
            (λ i. (i < length self.now) × (limit ≤ slice_index self.now i)) }
        ensures none { IfNone result (All (λ w. w < limit) self.now) }
    {
        for index in 0..self.len() {
            if self.get(index) as usize >= limit {
                return Some(index);
            }
        }
        None
    }
}
