//! Searches by a whole DFA. They allocate nothing.
//!
//! Matches are delayed by one unit: a row lists the patterns that match before the unit that led to
//! it. So a search also reads the unit ahead of its text, and a start state is no match state. Rows
//! are known by their offsets in the table.

ghost use Rattle.std.specs.Prelude.{[], Bool, Decides, IsTrue, ◌≡◌, ◌+◌, ◌<◌, ◌≤◌, ◌⊎◌, ℕ, false, length, true, None};
ghost use Rattle.std.specs.Option.{IfSome};
ghost use Rattle.determinize_below.specs.Semantics as semantics;
ghost use Rattle.determinize_below.specs.Semantics.{between};
ghost use Rattle.determinize_below.specs.Search as search_specs;
ghost use Rattle.determinize_below.specs.Search.{is_done};
ghost use Rattle.determinize_engine.specs.Searches.{HasMatch, IsSearch, IsSearchResult, has_start, start_for, text_of};
ghost use Rattle.determinize_state.specs.Value.{is_nonempty};
ghost use Rattle.determinize_engine.specs.Lists.{ListsAtEnd};
ghost use Rattle.determinize_dense.specs.Private.Order.{ListsNoneAbove};
ghost use Rattle.determinize_dense.specs.Private.Rows.{IsOffset, IsRowAt};
ghost use Rattle.determinize_dense.specs.Table.{patterns_at};
ghost use Rattle.determinize_dense.specs.Private.Searching.{FindsFrom, HasCome, HasReadUpTo, IsFound, IsMatch, IsRead};

use crate::dfa::{Dfa, SCALE};
use crate::scans::{BLOCK, BLOCKS, FIRST, SHORTEST, WORTHWHILE};
use determinize_below::{Anchored, AsNfa, HalfMatch, Input, PatternID};
use determinize_engine::engine::Engine;
use determinize_engine::scans::Pauses;
use determinize_engine::text::{Text, in_haystack};
use std::alloc::Allocator;
use std::convert::Infallible;

/// The number of bytes that are read with one comparison of the index.
const GROUP: usize = 4;

/// How far a search of a text has come.
#[derive(Clone, Copy)]
pub(crate) struct Reached {
    /// The offset of the row.
    pub(crate) row: usize,
    /// The number of bytes that are read.
    pub(crate) read: usize,
    /// The offset of the last row that listed patterns, or 0.
    pub(crate) matched: usize,
    /// The offset of the match of that row.
    pub(crate) offset: usize,
}

impl Reached {
    /// Returns whether the search ends here: in row 0 or, if `is_earliest`, with a match.
    #[inline(always)]
    fn is_over(self, is_earliest: bool) -> bool
        ensures { IsTrue result
            → (self.row ≡ 0) ⊎ ((is_earliest ≡ true) × (self.matched ≡ 0 → ⊥)) }
    {
        self.row == 0 || (is_earliest && self.matched != 0)
    }
}

impl<R: AsNfa, A: Allocator + Copy> Dfa<R, A> {
    /// Returns the patterns that match where a text ends, most preferred first: the list of the
    /// last state of the walk that `walk_between` of `determinize_core` makes over the same text.
    ///
    /// The parameters are those of `search`. For the patterns at an offset of a longer text, take
    /// its bytes up to there, and ahead of them its next byte. Each pattern of the list has a match
    /// that ends there. Under `MatchKind::All` the list has all of these. Under
    /// `MatchKind::LeftmostFirst` it is the pattern of the most preferred accepting run if this run
    /// ends there, and else empty. Does not allocate.
    pub fn patterns_after(
        &self,
        anchored: Anchored,
        look_behind: Option<u8>,
        text: &[u8],
        look_ahead: Option<u8>,
    ) -> &[PatternID]
        requires { has_start anchored ≡ true }
        ensures { ListsAtEnd self.now.nfa self.now.kind (start_for self.now.nfa anchored)
            (between look_behind text.now look_ahead) result.now }
    {
        let mut row = self.start_row(anchored.is_anchored(), look_behind);
        for byte in text {
            row = self.row_over(row, Some(*byte));
        }
        let last = self.row_over(row, look_ahead);
        self.patterns(self.row_number(last))
    }

    /// Returns the number of the row at an offset.
    #[inline(always)]
    pub(crate) fn row_number(&self, offset: usize) -> usize
        requires { IsOffset self.now.table offset }
        ensures row { IsRowAt self.now.table offset result }
        ensures dead { patterns_at self.now.table 0 ≡ [] }
    {
        offset * self.inverse / SCALE
    }

    /// Returns whether the row at an offset lists a pattern.
    #[inline(always)]
    pub(crate) fn is_listing(&self, offset: usize) -> bool
        requires { IsOffset self.now.table offset }
        ensures { (r : ℕ) → IsRowAt self.now.table offset r
            → result ≡ is_nonempty (patterns_at self.now.table r) }
    {
        // For offset 0 the difference wraps to the greatest number, so one test serves for both.
        offset.wrapping_sub(1) < self.last_match
    }

    /// Returns the match that a row lists, with this end, or `None` if the row lists no patterns.
    #[inline(always)]
    fn match_of(&self, row: usize, offset: usize) -> Option<HalfMatch>
        requires { IsOffset self.now.table row }
        ensures { IsMatch self.now.table row offset result }
    {
        let number = self.row_number(row);
        if row == 0 {
            return None;
        }
        let pattern = *self.patterns(number).first()?;
        Some(HalfMatch { pattern, offset })
    }

    /// Returns the row after a row over the byte at an index of a text.
    #[inline(always)]
    pub(crate) fn over_byte(&self, row: usize, text: &Text<'_>, index: usize) -> usize
        requires row { IsOffset self.now.table row }
        requires index { index < length text.now.bytes }
        ensures read { IsRead self.now.table text.now index row result }
        ensures offset { IsOffset self.now.table result }
    {
        self.row_over(row, Some(text.byte(index)))
    }

    /// Returns how far a search has come that reads one byte more and enters this row. Which rows
    /// list patterns is hard to predict, so the last one is kept in a form that needs no jump.
    #[inline(always)]
    fn enter(&self, from: Reached, row: usize) -> Reached
        requires from { IsOffset self.now.table from.row }
        requires matched { IsOffset self.now.table from.matched }
        requires row { IsOffset self.now.table row }
        requires limit { from.read < usize.MAX }
        ensures come { (text : semantics.Text) → IsRead self.now.table text from.read from.row row
            → HasCome self.now text from result }
        ensures more { result.read ≡ from.read + 1 }
    {
        let mut at = from;
        at.row = row;
        if self.is_listing(row) {
            at.matched = row;
            at.offset = at.read;
        }
        at.read += 1;
        at
    }

    /// Reads a text up to an index, without scans. Stops within `GROUP` bytes once the search is
    /// over, which is tested once for `GROUP` bytes, and after each of the fewer that are left.
    ///
    /// With a test for each byte it takes up to a fifth longer, depending on how the program is
    /// linked.
    #[inline(always)]
    fn read_block(&self, text: &Text<'_>, from: Reached, until: usize, is_earliest: bool) -> Reached
        requires row { IsOffset self.now.table from.row }
        requires matched { IsOffset self.now.table from.matched }
        requires read { from.read ≤ until }
        requires until { until ≤ length text.now.bytes }
        ensures reads { HasReadUpTo self.now text.now from until result }
        ensures more { from.read < until → from.read < result.read }
    {
        let mut at = from;
        while until - at.read >= GROUP {
            for _ in 0..GROUP {
                at = self.enter(at, self.over_byte(at.row, text, at.read));
            }
            if at.is_over(is_earliest) {
                return at;
            }
        }
        while at.read < until {
            at = self.enter(at, self.over_byte(at.row, text, at.read));
            if at.is_over(is_earliest) {
                break;
            }
        }
        at
    }

    /// Returns the last match of the rows that a search of a text enters: if `is_earliest`, it only
    /// says whether there is one. The match is looked up at the end. The first bytes are read here,
    /// without scans.
    #[inline(always)]
    fn search_text(
        &self,
        is_anchored: bool,
        text: &Text<'_>,
        is_earliest: bool,
    ) -> Option<HalfMatch>
        ensures { IsFound self.now is_earliest is_anchored text.now result }
    {
        let start = Reached {
            row: self.start_row(is_anchored, text.behind()),
            read: 0,
            matched: 0,
            offset: 0,
        };
        let first = self.read_block(text, start, text.len().min(FIRST), is_earliest);
        if first.is_over(is_earliest) {
            return self.match_of(first.matched, first.offset);
        }
        if first.read < text.len() {
            return self.search_on(text, first, is_earliest);
        }
        self.last_of(text, first)
    }

    /// Returns what `search_rest` returns. Lends it a copy of the text, so that a search that does
    /// not come here keeps its text in registers.
    #[inline(always)]
    fn search_on(&self, text: &Text<'_>, from: Reached, is_earliest: bool) -> Option<HalfMatch>
        requires row { IsOffset self.now.table from.row }
        requires matched { IsOffset self.now.table from.matched }
        requires read { from.read ≤ length text.now.bytes }
        ensures { FindsFrom self.now is_earliest text.now from result }
    {
        let text = text.copied();
        self.search_rest(&text, from, is_earliest)
    }

    /// Reads a text in blocks, without scans, as long as matches are near. Stops within
    /// `GROUP` bytes of row 0, at the end of the text, and after some blocks without a match.
    fn read_blocks(&self, text: &Text<'_>, from: Reached) -> Reached
        requires row { IsOffset self.now.table from.row }
        requires matched { IsOffset self.now.table from.matched }
        requires read { from.read ≤ length text.now.bytes }
        ensures { HasReadUpTo self.now text.now from (length text.now.bytes) result }
    {
        let mut at = from;
        let mut left = BLOCKS;
        while left > 0 && at.row != 0 && at.read < text.len() {
            let until = text.len().min(at.read.saturating_add(BLOCK));
            let next = self.read_block(text, at, until, false);
            left = if next.offset > at.offset {
                BLOCKS
            } else {
                left - 1
            };
            at = next;
        }
        at
    }

    /// Reads a text up to an index, as long as the rows that follow have offsets above `stop`.
    /// Returns how far the search has come, and the next row, unless the index is reached. Without
    /// a call in the loop the text and the table are loaded once.
    ///
    /// The index is compared once for `GROUP` bytes, and for each of the fewer that are left. With
    /// a comparison for each byte it takes up to a fifth longer, depending on how it is linked.
    #[inline(always)]
    fn read_above(
        &self,
        text: &Text<'_>,
        from: Reached,
        until: usize,
        stop: usize,
    ) -> (Reached, Option<usize>)
        requires row { IsOffset self.now.table from.row }
        requires matched { IsOffset self.now.table from.matched }
        requires read { from.read ≤ until }
        requires until { until ≤ length text.now.bytes }
        requires stop { ListsNoneAbove self.now.table stop }
        ensures reads { HasReadUpTo self.now text.now from until result.0 }
        ensures next { IfSome result.1 (λ row. IsRead self.now.table text.now
            result.0.read result.0.row row) }
        ensures low { IfSome result.1 (λ row. row ≤ stop) }
        ensures some { IfSome result.1 (λ row. result.0.read < until) }
        ensures none { result.1 ≡ None → result.0.read ≡ until }
    {
        let mut at = from;
        while until - at.read >= GROUP {
            for _ in 0..GROUP {
                let row = self.over_byte(at.row, text, at.read);
                if row <= stop {
                    return (at, Some(row));
                }
                at.row = row;
                at.read += 1;
            }
        }
        while at.read < until {
            let row = self.over_byte(at.row, text, at.read);
            if row <= stop {
                return (at, Some(row));
            }
            at.row = row;
            at.read += 1;
        }
        (at, None)
    }

    /// Returns what a search finds that has come this far: the rest of the text is read with scans.
    /// In a pause between them `stop` is `last_match`, so that no row is scanned out of, and else
    /// `last_special`. After a match the text is read in blocks, since more may be near.
    fn search_rest(&self, text: &Text<'_>, from: Reached, is_earliest: bool) -> Option<HalfMatch>
        requires row { IsOffset self.now.table from.row }
        requires matched { IsOffset self.now.table from.matched }
        requires read { from.read ≤ length text.now.bytes }
        ensures { FindsFrom self.now is_earliest text.now from result }
    {
        let mut at = from;
        let mut pauses = Pauses::new(FIRST, SHORTEST, WORTHWHILE);
        while at.read < text.len() {
            let (stop, until) = if at.read < pauses.end {
                (self.last_match, text.len().min(pauses.end))
            } else {
                (self.last_special, text.len())
            };
            let (before, next) = self.read_above(text, at, until, stop);
            at = before;
            let Some(row) = next else {
                continue;
            };
            at = self.enter(at, row);
            if at.row > self.last_match {
                let start = at.read;
                at.read = self.scan(at.row, text, start);
                pauses.record(start, at.read);
            } else if at.is_over(is_earliest) {
                return self.match_of(at.matched, at.offset);
            } else {
                at = self.read_blocks(text, at);
            }
        }
        self.last_of(text, at)
    }

    /// Returns the last match of a search that has read all bytes: that of the row over the unit
    /// ahead, if it lists patterns, and else the match so far.
    #[inline(always)]
    fn last_of(&self, text: &Text<'_>, at: Reached) -> Option<HalfMatch>
        requires row { IsOffset self.now.table at.row }
        requires matched { IsOffset self.now.table at.matched }
        requires read { at.read ≡ length text.now.bytes }
        ensures { (earliest : Bool) → FindsFrom self.now earliest text.now at result }
    {
        let end = self.row_over(at.row, text.ahead());
        if self.is_listing(end) {
            return self.match_of(end, text.len());
        }
        self.match_of(at.matched, at.offset)
    }

    /// Returns what `search_text` returns, for the range of an input.
    #[inline(always)]
    fn search_range(&self, input: &Input<'_>, is_earliest: bool) -> Option<HalfMatch>
        requires start { has_start input.now.anchored ≡ true }
        requires more { is_done input.now ≡ false }
        ensures { IsFound self.now is_earliest (search_specs.is_anchored input.now.anchored)
            (text_of self.now.nfa.reverse input.now) result }
    {
        let text = Text::of_input(input, self.nfa.nfa().is_reverse());
        self.search_text(input.get_anchored().is_anchored(), &text, is_earliest)
    }

    /// Returns the last match of the walk that `walk_between` of `determinize_core` makes over the
    /// same text, or `None` if no run accepts. The offset of a match is the number of bytes before
    /// its end.
    ///
    /// - `anchored` is `Anchored::Yes` for the anchored start of the NFA, or `Anchored::No` for the
    ///   unanchored one. `Anchored::Pattern` is not accepted.
    /// - `look_behind` is the byte just before the text, if any.
    /// - `look_ahead` is the byte just after the text, or `None` if the input ends there.
    ///
    /// Under `MatchKind::LeftmostFirst` the match is that of the most preferred accepting run,
    /// under `MatchKind::All` that of the best run at the last position where any run accepts.
    ///
    /// The text is in reading order: for a reverse NFA from the last byte on. The search stops
    /// within four bytes of the dead state, since no match can follow it. Does not allocate.
    pub fn search(
        &self,
        anchored: Anchored,
        look_behind: Option<u8>,
        text: &[u8],
        look_ahead: Option<u8>,
    ) -> Option<HalfMatch>
        requires { has_start anchored ≡ true }
        ensures search { IsSearch self.now.nfa self.now.kind (start_for self.now.nfa anchored)
            (between look_behind text.now look_ahead) result }
    {
        let text = Text::new(look_behind, text, look_ahead);
        self.search_text(anchored.is_anchored(), &text, false)
    }

    /// Returns the last match of a search of an input, or `None` if no run accepts. Which match it
    /// is depends on the match kind as for `search`. Does not allocate.
    ///
    /// The search starts from the anchored or the unanchored start state of the NFA, by the
    /// anchored mode of the input. `Anchored::Pattern` has no start state and is not accepted.
    ///
    /// The range is read in the direction of the NFA: a reverse NFA reads it from its end to its
    /// start. The match is within the range, and its offset is that in the haystack where it ends
    /// or, for a reverse NFA, begins. The bytes just before and after the range are only peeked at,
    /// by assertions. If the range starts past its end, nothing is read and the result is `None`.
    pub fn search_input(&self, input: &Input<'_>) -> Option<HalfMatch>
        requires { has_start input.now.anchored ≡ true }
        ensures search { IsSearchResult self.now.nfa self.now.kind input.now result }
        ensures done { is_done input.now ≡ true → result ≡ None }
    {
        if input.is_done() {
            return None;
        }
        let found = self.search_range(input, false);
        in_haystack(input, self.nfa.nfa().is_reverse(), found)
    }

    /// Returns whether an input has a match, under both match kinds: whether some run over what
    /// `search_input` reads accepts. `Anchored::Pattern` is not accepted. Does not allocate.
    ///
    /// Stops within four bytes of the first match state or the dead state. If the range starts past
    /// its end, nothing is read and the result is `false`.
    pub fn is_match(&self, input: &Input<'_>) -> bool
        requires { has_start input.now.anchored ≡ true }
        ensures accepts { is_done input.now ≡ false
            → Decides result (HasMatch self.now.nfa input.now) }
        ensures done { is_done input.now ≡ true → result ≡ false }
    {
        if input.is_done() {
            return false;
        }
        self.search_range(input, true).is_some()
    }
}

impl<'d, R: AsNfa, A: Allocator + Copy> Engine for &'d Dfa<R, A> {
    type Error = Infallible;

    ghost engine = { λ d. record {
      nfa = d.now.nfa;
      kind = d.now.kind;
      limit = length d.now.table.patterns;
    } };

    fn search_input(&mut self, input: &Input<'_>) -> Result<Option<HalfMatch>, Infallible> {
        Ok((**self).search_input(input))
    }

    fn is_match(&mut self, input: &Input<'_>) -> Result<bool, Infallible> {
        Ok((**self).is_match(input))
    }
}

impl<R: AsNfa, A: Allocator + Copy> Engine for Dfa<R, A> {
    type Error = Infallible;

    ghost engine = { λ d. record {
      nfa = d.nfa;
      kind = d.kind;
      limit = length d.table.patterns;
    } };

    fn search_input(&mut self, input: &Input<'_>) -> Result<Option<HalfMatch>, Infallible> {
        Ok((*self).search_input(input))
    }

    fn is_match(&mut self, input: &Input<'_>) -> Result<bool, Infallible> {
        Ok((*self).is_match(input))
    }
}
