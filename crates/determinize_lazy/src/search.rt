//! Searches over the cache: the last match of a walk, without a list of its states.
//!
//! If the id of its start state is kept (`step`), a search begins at that id and follows cached
//! transitions from row to row (`cached`). For each byte `follow` reads two numbers in the row
//! of the current state: the entry of the byte, which is the offset of the next row, and the tag.
//! It neither allocates nor hashes, and computes no state. From the first transition that is not
//! cached, or behind the first bytes of a long text, `search_rest` continues (its loop is
//! `search_bytes`): it takes that step, and follows cached transitions again, with scans over the
//! loop of the table. If the id of the start state is not kept, it computes that state and looks it
//! up first.
//!
//! A search ends after the unit ahead of its text, at a dead state (one that records no NFA states)
//! and, in `is_match`, at the first match state.
//!
//! Matches are delayed by one unit: a state lists the patterns that match before the unit that led
//! to it. So a search also reads the unit ahead of its text, and a start state is no match state.

ghost use Rattle.std.specs.Prelude.{Decides, ◌≡◌, ◌<◌, ◌≤◌, false, true, Option, drop, length, IfOk, OnErr, Ok, None, Some};
ghost use Rattle.determinize_lazy.specs.Clauses.{between, cache, cursor_value, Grows, has_start, HasMatch, HasSearched, HasSearchedIn, is_done, IsSearch, IsSearchResult, start_for, start_value, text_of, units};
ghost use Rattle.determinize_lazy.specs.Private.{cached_place, EndsAt, Fails, first_position, GoesTo, GoesToCached, HasStopped, IsCachedPosition, IsFailedStep, IsNext, IsOverText, IsPosition, IsShort, IsSound, place, with_cursor};

use crate::cached::{CachedPosition, PATIENCE, Reached, SHORTEST, WORTHWHILE};
use crate::lazy::LazyDfa;
use determinize_below::{Anchored, AsNfa, HalfMatch, Input, NFA, StateID};
use determinize_engine::scans::Pauses;
use determinize_engine::text::{Text, in_haystack};
use determinize_table::{Cursor, LastMatch, LazyStateId};
use std::alloc::{AllocError, Allocator};

/// The greatest credit of scans.
const MOST_CREDIT: u16 = 512;

/// Returns the start state of an NFA for an anchored mode.
pub(crate) fn start_for<N: Allocator>(nfa: &NFA<N>, anchored: Anchored) -> StateID
    ensures value { result ≡ start_for nfa.now anchored }
    ensures resolve { result < length nfa.now.states }
{
    if anchored.is_anchored() {
        nfa.start_anchored()
    } else {
        nfa.start_unanchored()
    }
}

/// Where a search is: at which state, how many units it has read, and the last match of the states
/// before that one.
#[derive(Drop)]
pub(crate) struct Position<A: Allocator> {
    pub(crate) cursor: Cursor<A>,
    pub(crate) read: usize,
    pub(crate) last: LastMatch,
}

impl<A: Allocator> Position<A> {
    /// Returns the position before the first unit.
    pub(crate) fn start(cursor: Cursor<A>) -> Position<A>
        ensures { result ≡ first_position cursor }
    {
        Position {
            cursor,
            read: 0,
            last: LastMatch::NONE,
        }
    }
}

impl CachedPosition {
    /// Returns the position with a cursor in place of the id.
    #[inline(always)]
    fn with_cursor<A: Allocator>(self) -> Position<A>
        ensures { result ≡ with_cursor self }
    {
        Position {
            cursor: Cursor::Cached(self.id),
            read: self.read,
            last: self.last,
        }
    }
}

impl<R: AsNfa, A: Allocator + Copy> LazyDfa<R, A> {
    /// Returns the last match up to and including the state at a position.
    pub(crate) fn found(&self, at: &Position<A>) -> Option<HalfMatch>
        requires { IsPosition self.now at.now }
        ensures { result ≡ (place self.now at.now).last }
    {
        at.last.or_match(self.tag_at(&at.cursor), at.read).get()
    }

    /// Takes a step over a unit, from a position at which the search does not end.
    #[inline(always)]
    pub(crate) fn advance(
        &mut self,
        at: Position<A>,
        unit: Option<u8>,
    ) -> Result<Position<A>, AllocError>
        requires position { IsPosition self.old at }
        requires read { at.read < usize.MAX }
        ensures next { IfOk result (λ next. IsNext (place self.old at) unit self.new next) }
        ensures failed { OnErr result (IsFailedStep (cache self.old)
            (cursor_value self.old.states at.cursor) unit (cache self.new)) }
        ensures grows { Grows (cache self.old) (cache self.new) }
    {
        let last = at.last.or_match(self.tag_at(&at.cursor), at.read);
        let cursor = self.step(at.cursor, unit)?;
        Ok(Position {
            cursor,
            read: at.read + 1,
            last,
        })
    }

    /// Follows cached transitions from a position. Where it has read many bytes, which are twice as
    /// many each time, the state there may become the loop of the table.
    fn follow_and_learn(
        &mut self,
        from: CachedPosition,
        text: &Text<'_>,
        earliest: bool,
    ) -> CachedPosition
        requires position { IsCachedPosition self.old from }
        requires read { from.read ≤ length text.now.bytes }
        ensures goes { GoesToCached earliest text.now (cached_place self.old from) self.new result }
        ensures same { self.new ≡ self.old }
    {
        let mut at = from;
        let mut patience = PATIENCE;
        while at.read < text.len() {
            let until = text.len().min(at.read.saturating_add(patience));
            at = self.follow_and_record(at, text, until, earliest);
            if at.read < until {
                return at;
            }
            self.learn(at.id, text, at.read);
            patience = patience.saturating_mul(2);
        }
        at
    }

    /// Follows cached transitions up to an index, as `follow_on` does. Records whether all scans
    /// saved time, if it begins at the loop of the table.
    fn follow_and_record(
        &mut self,
        from: CachedPosition,
        text: &Text<'_>,
        until: usize,
        earliest: bool,
    ) -> CachedPosition
        requires position { IsCachedPosition self.old from }
        requires read { from.read ≤ length text.now.bytes }
        requires until { until ≤ length text.now.bytes }
        ensures goes { GoesToCached earliest text.now (cached_place self.old from) self.new result }
        ensures same { self.new ≡ self.old }
    {
        let CachedPosition { id, read, .. } = from;
        let mut pauses = Pauses::new(read, SHORTEST, WORTHWHILE);
        let at = self.follow_on(from, text, until, &mut pauses, earliest);
        if id.row() == self.table.loop_row() {
            self.record(pauses.end == read);
        }
        at
    }

    /// Records whether scans saved time. Searches scan early as long as those that did are at least
    /// half as many as those that did not.
    fn record(&mut self, saved_time: bool)
        ensures { self.new ≡ self.old }
    {
        self.credit = if saved_time {
            self.credit.saturating_add(2).min(MOST_CREDIT)
        } else {
            self.credit.saturating_sub(1)
        };
    }

    /// Makes a cached state the loop of the table, if it has a transition to itself over
    /// the next byte of a text.
    ///
    /// - `read` is the number of bytes read before.
    fn learn(&mut self, id: LazyStateId, text: &Text<'_>, read: usize)
        requires { id < length self.old.states }
        ensures { self.new ≡ self.old }
    {
        if read < text.len() {
            self.table.learn(id, text.byte(read));
        }
    }

    /// Follows cached transitions from a position, if its state is cached.
    #[inline(always)]
    fn run(&mut self, from: Position<A>, text: &Text<'_>, earliest: bool) -> Position<A>
        requires position { IsPosition self.old from }
        requires read { from.read ≤ length text.now.bytes }
        ensures goes { GoesTo earliest text.now (place self.old from) self.new result }
        ensures same { self.new ≡ self.old }
    {
        let Position { cursor, read, last } = from;
        match cursor {
            Cursor::Cached(id) => {
                let from = CachedPosition { id, read, last };
                self.follow_and_learn(from, text, earliest).with_cursor()
            }
            Cursor::Uncached(state) => Position {
                cursor: Cursor::Uncached(state),
                read,
                last,
            },
        }
    }

    /// Searches the bytes of a text from a position, without the unit ahead of them. Returns the
    /// position after the last byte, or at the state at which the search ends: a dead state or, if
    /// `earliest`, a match state. Not inlined, so that it is compiled once for all callers.
    #[inline(never)]
    pub(crate) fn search_bytes(
        &mut self,
        from: Position<A>,
        text: &Text<'_>,
        earliest: bool,
    ) -> Result<Position<A>, AllocError>
        requires position { IsPosition self.old from }
        requires read { from.read ≤ length text.now.bytes }
        ensures at { IfOk result
            (λ at. GoesTo earliest text.now (place self.old from) self.new at) }
        ensures stopped { IfOk result
            (λ at. HasStopped earliest (length text.now.bytes) (place self.new at)) }
        ensures limit { IfOk result (λ at. at.read < usize.MAX) }
        ensures failed { OnErr result
            (Fails earliest text.now (place self.old from) (cache self.new)) }
        ensures grows { Grows (cache self.old) (cache self.new) }
    {
        let mut at = from;
        while at.read < text.len() {
            if self.tag_at(&at.cursor).is_last(earliest) {
                return Ok(at);
            }
            let byte = text.byte(at.read);
            let next = self.advance(at, Some(byte))?;
            at = self.run(next, text, earliest);
        }
        Ok(at)
    }

    /// Searches a text from a position to its end, with the unit ahead. Returns the position at
    /// which the search ends.
    #[inline(always)]
    pub(crate) fn search_to_end(
        &mut self,
        from: Position<A>,
        text: &Text<'_>,
        earliest: bool,
    ) -> Result<Position<A>, AllocError>
        requires position { IsPosition self.old from }
        requires read { from.read ≤ length text.now.bytes }
        ensures { EndsAt earliest (drop from.read (units text.now)) (place self.old from) result
            self.new }
    {
        let at = self.search_bytes(from, text, earliest)?;
        if self.tag_at(&at.cursor).is_last(earliest) {
            return Ok(at);
        }
        self.advance(at, text.ahead())
    }

    /// Returns the last match of the walk that `walk_between` makes over the same text, or `None`
    /// if it has no match. The offset of a match is the number of bytes before its end.
    ///
    /// Under `MatchKind::LeftmostFirst` the match is that of the most preferred accepting run,
    /// under `MatchKind::All` that of the best run at the last position where any run accepts.
    /// `None` means that no run accepts.
    pub fn search(
        &mut self,
        start: StateID,
        look_behind: Option<u8>,
        text: &[u8],
        look_ahead: Option<u8>,
    ) -> Result<Option<HalfMatch>, AllocError>
        requires { start < length self.old.nfa.states }
        ensures search { IfOk result (λ found. IsSearch self.old.nfa self.old.kind start
            (between look_behind text.now look_ahead) found) }
        ensures cache { HasSearched false self.old (start_value self.old.nfa start look_behind)
            (units (between look_behind text.now look_ahead)) result self.new }
    {
        let text = Text::new(look_behind, text, look_ahead);
        self.search_text(start, &text, false)
    }

    /// Returns the last match of a search of an input, or `None` if no run accepts.
    ///
    /// The range is read in the direction of the NFA: a reverse NFA reads it from its end to its
    /// start. The offset of a match is an index into the haystack: where the match ends or, for a
    /// reverse NFA, where it begins. It is in the range or at its end. Which match it is depends on
    /// the match kind as for `search`.
    ///
    /// The search starts from the anchored or the unanchored start state of the NFA, by the
    /// anchored mode of the input. `Anchored::Pattern` has no start state and is not accepted. To
    /// search for one pattern only, give the pattern a start state in the NFA, and call `search`
    /// with the id of that state.
    ///
    /// No match includes the bytes next to the range. The byte behind decides the start state only;
    /// the byte ahead is read as the last unit, and its transition may be computed and cached. If
    /// the range starts past its end, nothing is read, and there is no match.
    pub fn search_input(&mut self, input: &Input<'_>) -> Result<Option<HalfMatch>, AllocError>
        requires { has_start input.now.anchored ≡ true }
        ensures search { IfOk result
            (λ found. IsSearchResult self.old.nfa self.old.kind input.now found) }
        ensures done { is_done input.now ≡ true → result ≡ Ok None }
        ensures cache { HasSearchedIn false self.old input.now result self.new }
    {
        if input.is_done() {
            return Ok(None);
        }
        let found = self.search_range(input, false)?;
        Ok(in_haystack(input, self.nfa.nfa().is_reverse(), found))
    }

    /// Returns whether an input has a match, under both match kinds: whether some run over what
    /// `search_input` reads accepts.
    ///
    /// Takes the inputs of `search_input`, and also stops at the first match state.
    pub fn is_match(&mut self, input: &Input<'_>) -> Result<bool, AllocError>
        requires { has_start input.now.anchored ≡ true }
        ensures accepts { is_done input.now ≡ false → IfOk result
            (λ found. Decides found (HasMatch self.old.nfa input.now)) }
        ensures done { is_done input.now ≡ true → result ≡ Ok false }
        ensures cache { HasSearchedIn true self.old input.now result self.new }
    {
        if input.is_done() {
            return Ok(false);
        }
        Ok(self.search_range(input, true)?.is_some())
    }

    /// Searches the text of an input. The offset of the match counts from the start of the text in
    /// reading order.
    #[inline(always)]
    fn search_range(
        &mut self,
        input: &Input<'_>,
        earliest: bool,
    ) -> Result<Option<HalfMatch>, AllocError>
        requires { is_done input.now ≡ false }
        ensures over { IsOverText earliest (cache self.old)
            (start_for self.old.nfa input.now.anchored) (text_of self.old.nfa.reverse input.now)
            result (cache self.new) }
        ensures sound { IsSound (cache self.old) }
    {
        let nfa = self.nfa.nfa();
        let start = start_for(nfa, input.get_anchored());
        let is_reverse = nfa.is_reverse();
        // Each has the direction of the text as a constant. With one call for both a search of four
        // bytes takes 7 % more instructions.
        if is_reverse {
            self.search_text(start, &Text::of_input(input, true), earliest)
        } else {
            self.search_text(start, &Text::of_input(input, false), earliest)
        }
    }

    /// Searches a text from the start state of a walk over it. If the id of that state is kept and
    /// all transitions are cached, the cache is only read.
    #[inline(always)]
    fn search_text(
        &mut self,
        start: StateID,
        text: &Text<'_>,
        earliest: bool,
    ) -> Result<Option<HalfMatch>, AllocError>
        requires { start < length self.old.nfa.states }
        ensures over { IsOverText earliest (cache self.old) start text.now result
            (cache self.new) }
        ensures sound { IsSound (cache self.old) }
    {
        match self.read_text(start, text, earliest) {
            Reached::End(found) => Ok(found),
            // A copy, so that a search that only reads the cache keeps its text in registers.
            Reached::Short(reached) => self.search_rest(reached, start, &text.copied(), earliest),
        }
    }

    /// Continues a search behind what it read without scans and without a computed step: from a
    /// position, or, if the id of its start state is not kept, from the start.
    #[cold]
    #[inline(never)]
    pub(crate) fn search_rest(
        &mut self,
        reached: Option<CachedPosition>,
        start: StateID,
        text: &Text<'_>,
        earliest: bool,
    ) -> Result<Option<HalfMatch>, AllocError>
        requires start { start < length self.old.nfa.states }
        requires reached { IsShort earliest self.old start text.now reached }
        ensures { IsOverText earliest (cache self.old) start text.now result (cache self.new) }
    {
        let from = match reached {
            Some(at) => at.with_cursor(),
            None => Position::start(self.find_start(start, text.behind())?),
        };
        let at = self.search_to_end(from, text, earliest)?;
        Ok(self.found(&at))
    }
}
