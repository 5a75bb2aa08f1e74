//! Which patterns match: where a range of a haystack ends, and anywhere in it.

ghost use Rattle.std.specs.Prelude.{◌≡◌, ◌<◌, [], Contains, false, true, length, IfOk, OnOk};
ghost use Rattle.determinize_lazy.specs.Clauses.{AreMarked, AreSomeMarked, cache, has_start, HasMatchOf, HasSearchedIn, is_done, ListsAtEnd, start_for, start_value, text_of, units};
ghost use Rattle.determinize_below.specs.declared.search.MatchKind.TheVariants as kinds;
ghost use Rattle.determinize_lazy.specs.Private.{first_place, IsLeftBy, IsPosition, listed_over, place};

use crate::lazy::LazyDfa;
use crate::search::{Position, start_for};
use determinize_below::{AsNfa, Input, PatternID, StateID};
use determinize_engine::text::Text;
use std::alloc::{AllocError, Allocator};

impl<R: AsNfa, A: Allocator + Copy> LazyDfa<R, A> {
    /// Returns the patterns that match where the range of an input ends, most preferred first: the
    /// list of the last state of the walk over what `search_input` reads.
    ///
    /// Each pattern of the list has a match that ends there. Under `MatchKind::All` the list has
    /// all of these. Under `MatchKind::LeftmostFirst` it is the pattern of the most preferred
    /// accepting run if this run ends there, and else empty. A reverse NFA reads the range from its
    /// end, so its matches end at the start of the range.
    ///
    /// Takes the inputs of `search_input`, and reads and caches what it does.
    pub fn patterns_after(&mut self, input: &Input<'_>) -> Result<Vec<PatternID, A>, AllocError>
        requires { has_start input.now.anchored ≡ true }
        ensures lists { is_done input.now ≡ false → IfOk result (λ ids. ListsAtEnd self.old.nfa
            self.old.kind (start_for self.old.nfa input.now.anchored)
            (text_of self.old.nfa.reverse input.now) ids.items) }
        ensures done { is_done input.now ≡ true → IfOk result (λ ids. ids.items ≡ []) }
        ensures cache { HasSearchedIn false self.old input.now result self.new }
    {
        if input.is_done() {
            return Ok(Vec::new(self.alloc));
        }
        let nfa = self.nfa.nfa();
        let start = start_for(nfa, input.get_anchored());
        let text = Text::of_input(input, nfa.is_reverse());
        let cursor = self.start(start, text.behind())?;
        let at = self.search_to_end(Position::start(cursor), &text, false)?;
        if at.read <= text.len() {
            // At a dead state, which no match follows.
            return Ok(Vec::new(self.alloc));
        }
        self.patterns_at(&at)
    }

    /// Returns the patterns that the state at a position lists.
    fn patterns_at(&self, at: &Position<A>) -> Result<Vec<PatternID, A>, AllocError>
        requires { IsPosition self.now at.now }
        ensures { IfOk result (λ ids. ids.items ≡ (place self.now at.now).value.patterns) }
    {
        match self.table.state(&at.cursor).match_pattern_ids()? {
            Some(ids) => Ok(ids),
            None => Ok(Vec::new(self.alloc)),
        }
    }

    /// Marks the patterns with a match that ends anywhere in the range of an input: sets the flag
    /// at the id of each. No flag is cleared, and a pattern past the last flag is left out.
    ///
    /// Under `MatchKind::All` these are all patterns that match in what `search_input` reads: from
    /// its start, or from anywhere for an unanchored search. Under `MatchKind::LeftmostFirst` only
    /// patterns that match are marked, but perhaps not all.
    ///
    /// Takes the inputs of `search_input`, and reads and caches what it does. After an error some
    /// of the patterns that match may be marked.
    pub fn which_patterns(
        &mut self,
        input: &Input<'_>,
        found: &mut [bool],
    ) -> Result<(), AllocError>
        requires { has_start input.now.anchored ≡ true }
        ensures marked { self.old.kind ≡ kinds.All → is_done input.now ≡ false → OnOk result
            (AreMarked found.old (HasMatchOf self.old.nfa input.now) found.new) }
        ensures some { is_done input.now ≡ false
            → AreSomeMarked found.old (HasMatchOf self.old.nfa input.now) found.new }
        ensures done { is_done input.now ≡ true → found.new ≡ found.old }
        ensures cache { HasSearchedIn false self.old input.now result self.new }
    {
        if input.is_done() {
            return Ok(());
        }
        let nfa = self.nfa.nfa();
        let start = start_for(nfa, input.get_anchored());
        let text = Text::of_input(input, nfa.is_reverse());
        self.mark_text(start, &text, found)
    }

    /// Marks the patterns that the states of a walk over a text list.
    fn mark_text(
        &mut self,
        start: StateID,
        text: &Text<'_>,
        found: &mut [bool],
    ) -> Result<(), AllocError>
        requires { start < length self.old.nfa.states }
        ensures marked { OnOk result (AreMarked found.old
            (Contains (listed_over self.old.nfa self.old.kind start text.now)) found.new) }
        ensures some { AreSomeMarked found.old
            (Contains (listed_over self.old.nfa self.old.kind start text.now)) found.new }
        ensures left { IsLeftBy false (units text.now) (first_place (cache self.old)
            (start_value self.old.nfa start text.now.behind)) result (cache self.new) }
    {
        let mut at = Position::start(self.start(start, text.behind())?);
        while at.read <= text.len() {
            at = self.search_bytes(at, text, true)?;
            self.mark(&at, found);
            if self.tag_at(&at.cursor).is_last(false) {
                return Ok(());
            }
            let unit = text.unit(at.read);
            at = self.advance(at, unit)?;
        }
        self.mark(&at, found);
        Ok(())
    }

    /// Marks the patterns that the state at a position lists.
    fn mark(&self, at: &Position<A>, found: &mut [bool])
        requires { IsPosition self.now at.now }
        ensures { AreMarked found.old (Contains (place self.now at.now).value.patterns) found.new }
    {
        let state = self.table.state(&at.cursor);
        for index in 0..state.match_len() {
            let id = state.match_pattern(index).as_usize();
            if id < found.len() {
                found[id] = true;
            }
        }
    }
}
