//! All patterns that match at each position of a text, in one pass.

ghost use Rattle.std.specs.Prelude.{◌≡◌, ℕ, List, drop, true};
ghost use Rattle.std.specs.Iterator.{YieldsFirst, item_count};
ghost use Rattle.determinize_below.specs.Search.{is_anchored};
ghost use Rattle.determinize_below.specs.Semantics as semantics;
ghost use Rattle.determinize_below.specs.Semantics.{between};
ghost use Rattle.determinize_core.specs.Chain.{units};
ghost use Rattle.determinize_dense.specs.Automaton.{first_row};
ghost use Rattle.determinize_dense.specs.Reading.{ListsAlong, lists_along};
ghost use Rattle.determinize_engine.specs.Searches.{has_start, start_for};

use crate::automaton::{Automaton, RowPatterns};
use crate::reading::RowId;
use determinize_below::Anchored;
use determinize_engine::text::Text;
use std::marker::Model;

/// An iterator over the lists of the patterns that match at each position of a text.
#[derive(Drop)]
pub struct Overlapping<'d, 'h, D: Automaton> {
    automaton: &'d D,
    text: Text<'h>,
    row: RowId,
    /// The number of units that are read.
    read: usize,
}

impl<'d, 'h, D: Automaton> Model for Overlapping<'d, 'h, D> {
    ghost Value = { List (List ℕ) };

    ghost view = { λ o.
        lists_along (D.stored o.automaton.now).table o.row (drop o.read (units o.text)) };
}

impl<'d, 'h, D: Automaton> Overlapping<'d, 'h, D> {
    /// Returns an iterator over the patterns that match at each position of a text: first those
    /// with a match that ends at its start, and last those with a match that ends at its end. Each
    /// list is most preferred first.
    ///
    /// The parameters are those of `Dfa::search`. The lists are those of the walk that
    /// `walk_between` of `determinize_core` makes over the same text, after that of its start.
    /// Under `MatchKind::All` a list has all patterns with a match that ends at its position. Under
    /// `MatchKind::LeftmostFirst` the last list that is not empty has the pattern of the most
    /// preferred match. Does not allocate, and reads each byte once.
    pub fn new(
        automaton: &'d D,
        anchored: Anchored,
        look_behind: Option<u8>,
        text: &'h [u8],
        look_ahead: Option<u8>,
    ) -> Overlapping<'d, 'h, D>
        requires { has_start anchored ≡ true }
        ensures lists { result ≡ lists_along (D.stored automaton.now).table
            (first_row (D.stored automaton.now) (is_anchored anchored) look_behind)
            (units (between look_behind text.now look_ahead)) }
        ensures means { (nfa : semantics.Nfa) → D.is_of automaton.now nfa
            → ListsAlong nfa (D.stored automaton.now).kind (start_for nfa anchored)
            (between look_behind text.now look_ahead) result }
    {
        Overlapping {
            automaton,
            text: Text::new(look_behind, text, look_ahead),
            row: automaton.first_row(anchored.is_anchored(), look_behind),
            read: 0,
        }
    }
}

impl<'d, 'h, D: Automaton> Iterator for Overlapping<'d, 'h, D> {
    type Item = RowPatterns<'d, D>;

    ghost next_gives = { YieldsFirst (λ s. s) };

    ghost remaining = { item_count (λ s. s) };

    #[tactic(auto, using(crate::proofs::Along::along))]
    fn next(&mut self) -> Option<RowPatterns<'d, D>> {
        if self.read > self.text.len() {
            return None;
        }
        self.row = self.automaton.next_row(self.row, self.text.unit(self.read));
        self.read += 1;
        Some(RowPatterns::new(self.automaton, self.row))
    }

    #[tactic(auto, using(crate::proofs::Along::lists_left))]
    fn size_hint(&self) -> (usize, Option<usize>) {
        let left = (self.text.len() + 1).saturating_sub(self.read);
        (left, Some(left))
    }
}
