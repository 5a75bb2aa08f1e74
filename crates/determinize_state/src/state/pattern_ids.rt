//! The iterator over the patterns of a state.

ghost use Rattle.std.specs.Prelude.{◌≡◌, ℕ, ◌≤◌, All};
ghost use Rattle.std.specs.Iterator.{YieldsFirst, item_count};
ghost use Rattle.determinize_state.specs.Spelling.{numbers_in};

use determinize_below::{MAX_ID, PatternID};
use std::fmt;
use std::marker::Model;

/// An iterator over patterns of four bytes each.
#[derive(Drop)]
pub(crate) struct PatternIds<'a> {
    words: &'a [u8],
}

impl<'a> Model for PatternIds<'a> {
    ghost use Rattle.determinize_below.specs.declared.primitives.TheConstants.{MAX_ID};
    ghost use Rattle.std.specs.Prelude.{List, ℕ, All, ◌≤◌};
    ghost use Rattle.determinize_state.specs.Spelling.{numbers_in};

    ghost Value = { List ℕ };

    ghost view = { λ s. numbers_in s.words.now };

    ghost invariant = { λ s. All (λ id. id ≤ MAX_ID) (numbers_in s.words.now) };
}

impl<'a> PatternIds<'a> {
    /// Returns an iterator over the patterns in these bytes.
    pub(crate) fn new(words: &'a [u8]) -> PatternIds<'a>
        requires { All (λ id. id ≤ MAX_ID) (numbers_in words.now) }
        ensures { result ≡ numbers_in words.now }
    {
        PatternIds { words }
    }
}

impl<'a> Iterator for PatternIds<'a> {
    type Item = PatternID;

    ghost next_gives = { YieldsFirst (λ s. s) };

    ghost remaining = { item_count (λ s. s) };

    #[tactic(auto, using(crate::proofs::encoding::ReadBytes::first_number))]
    fn next(&mut self) -> Option<PatternID> {
        let (word, after) = self.words.split_first_chunk::<4>()?;
        let id = PatternID::must(u32::from_le_bytes(*word) as usize);
        self.words = after;
        Some(id)
    }
}

impl<'a> fmt::Debug for PatternIds<'a> {
    fn fmt<W: fmt::Write>(&self, f: &mut fmt::Formatter<W>) -> fmt::Result {
        f.debug_list().entries(PatternIds::new(self.words)).finish()
    }
}
