//! Searches by a stored DFA. They allocate nothing.

ghost use Rattle.std.specs.Prelude.{◌≡◌, ◌≤◌, length, true, None};
ghost use Rattle.std.specs.Option.{IfSome};
ghost use Rattle.determinize_below.specs.Search.{is_done};
ghost use Rattle.determinize_engine.specs.Searches.{has_start};
ghost use Rattle.determinize_stored.specs.Reading.{last_along, last_found};

use crate::stored::StoredDfa;
use determinize_below::{HalfMatch, Input};
use determinize_dense::Automaton;
use determinize_engine::text::{Text, in_haystack};

impl<'b> StoredDfa<'b> {
    /// Returns the last match of a text, with the number of bytes before its end.
    fn search_text(&self, is_anchored: bool, text: &Text<'_>) -> Option<HalfMatch>
        ensures last { result ≡ last_along self.now is_anchored text.now }
        ensures within { IfSome result (λ m. m.offset ≤ length text.now.bytes) }
    {
        let mut row = self.first_row(is_anchored, text.behind());
        let mut found = None;
        for index in 0..text.len() + 1 {
            row = self.next_row(row, text.unit(index));
            match self.match_pattern(row, 0) {
                Some(pattern) => found = Some(HalfMatch {
                    pattern,
                    offset: index,
                }),
                None => {
                    if self.is_dead_state(row) {
                        return found;
                    }
                }
            }
        }
        found
    }

    /// Returns the last match of a search of an input, or `None` if it has none.
    ///
    /// This is the first pattern of the last row that lists one, and the offset where its match
    /// ends or, if the NFA was a reverse one, where it begins. If the bytes are those of a `Dfa`,
    /// it is what `search_input` of that returns. `Anchored::Pattern` is not accepted. Does not
    /// allocate, and stops at a dead row.
    pub fn search_input(&self, input: &Input<'_>) -> Option<HalfMatch>
        requires { has_start input.now.anchored ≡ true }
        ensures last { result ≡ last_found self.now input.now }
        ensures done { is_done input.now ≡ true → result ≡ None }
        ensures within { IfSome result
            (λ m. (input.now.start ≤ m.offset) × (m.offset ≤ input.now.end)) }
    {
        if input.is_done() {
            return None;
        }
        let is_anchored = input.get_anchored().is_anchored();
        let text = Text::of_input(input, self.head.is_reverse);
        in_haystack(
            input,
            self.head.is_reverse,
            self.search_text(is_anchored, &text),
        )
    }
}
