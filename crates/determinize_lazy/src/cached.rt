//! The part of a search that only reads the cache: from a start state whose id is kept, over cached
//! transitions. `search` continues at the first transition that is not cached, and behind the first
//! bytes of a text that is longer than 1024 bytes.

ghost use Rattle.std.specs.Prelude.{◌≡◌, ◌+◌, ◌<◌, ◌≤◌, Bool, length, option_map, slice_get, slice_index_or, Some};
ghost use Rattle.std.specs.Option.{IfSome};
ghost use Rattle.determinize_lazy.specs.Clauses.{cache, dead, slot_number, start_value, units};
ghost use Rattle.determinize_start.specs.declared.start.TheConstants.StartSlot.{COUNT};
ghost use Rattle.determinize_lazy.specs.Private.{cached_place, first_place, GoesToCached, HasCome, IsCachedPosition, IsReached, IsSound, start_slot};

use crate::lazy::LazyDfa;
use determinize_below::{AsNfa, HalfMatch, NFA, StateID};
use determinize_core::start::{Start, start_kind_of};
use determinize_engine::scans::Pauses;
use determinize_engine::text::Text;
use determinize_table::{LastMatch, LazyStateId};
use std::alloc::Allocator;

/// The number of bytes that a search reads without scans, unless scans were found to save time.
/// With fewer, searches of short texts would take longer.
const UNSCANNED: usize = 1024;

/// The number of bytes that a search of a longer text then reads without scans. With fewer,
/// searches that end soon would take longer.
const UNSCANNED_BEFORE_LOOP: usize = 64;

/// The number of bytes that a search then reads before it may learn a loop.
pub(crate) const PATIENCE: usize = 256;

/// The number of bytes of the shortest pause between scans.
pub(crate) const SHORTEST: usize = 128;

/// The number of bytes from which on a scan saves time.
pub(crate) const WORTHWHILE: usize = 32;

/// No row.
pub(crate) const NO_ROW: usize = usize::MAX;

/// A position at a cached state.
#[derive(Clone, Copy)]
pub(crate) struct CachedPosition {
    pub(crate) id: LazyStateId,
    pub(crate) read: usize,
    pub(crate) last: LastMatch,
}

/// How far a search comes that only reads the cache.
#[derive(Clone, Copy)]
pub(crate) enum Reached {
    /// To its end, with this match.
    End(Option<HalfMatch>),
    /// To a position from which the next transition is not cached, or to none: the id of the start
    /// state is not kept.
    Short(Option<CachedPosition>),
}

/// Returns the number of the slot in which the id of a start state is kept. `None` for any other
/// NFA state than the two start states: its start is not kept.
#[inline(always)]
pub(crate) fn start_number<N: Allocator>(
    nfa: &NFA<N>,
    start: StateID,
    look_behind: Option<u8>,
) -> Option<usize>
    ensures value { result ≡ option_map slot_number (start_slot nfa.now start look_behind) }
    ensures limit { IfSome result (λ number. number < COUNT) }
{
    // Not by a `StartSlot`: from its `is_anchored` the compiler selects the number without a jump,
    // or finds the kind of the start twice, and a short search takes longer.
    let first = if start == nfa.start_anchored() {
        0
    } else if start == nfa.start_unanchored() {
        Start::COUNT
    } else {
        return None;
    };
    let terminator = nfa.look_matcher().get_line_terminator();
    Some(first + start_kind_of(terminator, look_behind).as_usize())
}

impl<R: AsNfa, A: Allocator + Copy> LazyDfa<R, A> {
    /// Returns the id of a start state, if it is kept.
    #[inline(always)]
    pub(crate) fn kept_start(&self, start: StateID, look_behind: Option<u8>) -> Option<LazyStateId>
        requires { start < length self.now.nfa.states }
        ensures at { IfSome result (λ id. slice_get self.now.states id
            ≡ Some (start_value self.now.nfa start look_behind)) }
        ensures sound { IsSound (cache self.now) }
    {
        let number = start_number(self.nfa.nfa(), start, look_behind)?;
        self.table.start(number)
    }

    /// Follows cached transitions over bytes of the text: up to an index, to a state at which the
    /// search ends, or into the state whose row has the offset `stop`.
    ///
    /// The loop does not share its body with the last step of `follow_to_end`: with a call it takes
    /// six cycles a byte in place of five.
    #[inline(always)]
    fn follow(
        &self,
        from: CachedPosition,
        text: &Text<'_>,
        until: usize,
        stop: usize,
        earliest: bool,
    ) -> CachedPosition
        requires position { IsCachedPosition self.now from }
        requires read { from.read ≤ length text.now.bytes }
        requires until { until ≤ length text.now.bytes }
        ensures { GoesToCached earliest text.now (cached_place self.now from) self.now result }
    {
        let mut at = from;
        while at.read < until {
            let byte = text.byte(at.read);
            // The entry comes before the tag, since the next entry waits for it.
            let target = self.table.lookup(at.id, Some(byte));
            let tag = self.table.tag(at.id);
            let Some(id) = target else {
                return at;
            };
            if tag.is_last(earliest) {
                return at;
            }
            at.last = at.last.or_match(tag, at.read);
            at.id = id;
            at.read += 1;
            if id.row() == stop {
                return at;
            }
        }
        at
    }

    /// Returns the position after the bytes over which its state has a transition to itself, if the
    /// row of the state has the offset `row`, which is that of the table's loop. Records the scan.
    #[inline(always)]
    fn pass(
        &self,
        from: CachedPosition,
        text: &Text<'_>,
        row: usize,
        pauses: &mut Pauses,
    ) -> CachedPosition
        requires position { IsCachedPosition self.now from }
        requires read { from.read ≤ length text.now.bytes }
        ensures { (earliest : Bool) → GoesToCached earliest text.now
            (cached_place self.now from) self.now result }
    {
        if from.id.row() != row {
            return from;
        }
        let mut at = from;
        at.read = self.table.scan(at.id, text, at.read);
        pauses.record(from.read, at.read);
        at
    }

    /// Follows cached transitions: in a pause between scans up to its end, and else, after a scan
    /// if the row has the offset `row`, up to that row.
    #[inline(always)]
    fn follow_once(
        &self,
        from: CachedPosition,
        text: &Text<'_>,
        until: usize,
        row: usize,
        pauses: &mut Pauses,
        earliest: bool,
    ) -> CachedPosition
        requires position { IsCachedPosition self.now from }
        requires read { from.read ≤ length text.now.bytes }
        requires until { until ≤ length text.now.bytes }
        ensures { GoesToCached earliest text.now (cached_place self.now from) self.now result }
    {
        if from.read < pauses.end {
            return self.follow(from, text, until.min(pauses.end), NO_ROW, earliest);
        }
        let passed = self.pass(from, text, row, pauses);
        self.follow(passed, text, until, row, earliest)
    }

    /// Follows cached transitions up to an index, with scans over bytes in the loop of the table,
    /// which may go past it.
    #[inline(always)]
    fn follow_with_scans(
        &self,
        from: CachedPosition,
        text: &Text<'_>,
        until: usize,
        pauses: &mut Pauses,
        earliest: bool,
    ) -> CachedPosition
        requires position { IsCachedPosition self.now from }
        requires read { from.read ≤ length text.now.bytes }
        requires until { until ≤ length text.now.bytes }
        ensures { GoesToCached earliest text.now (cached_place self.now from) self.now result }
    {
        let row = self.table.loop_row();
        let mut at = from;
        while at.read < until {
            let read = at.read;
            at = self.follow_once(at, text, until, row, pauses, earliest);
            if at.read == read {
                return at;
            }
        }
        at
    }

    /// Returns what `follow_with_scans` returns. Not inlined, so that it is compiled once.
    #[inline(never)]
    pub(crate) fn follow_on(
        &self,
        from: CachedPosition,
        text: &Text<'_>,
        until: usize,
        pauses: &mut Pauses,
        earliest: bool,
    ) -> CachedPosition
        requires position { IsCachedPosition self.now from }
        requires read { from.read ≤ length text.now.bytes }
        requires until { until ≤ length text.now.bytes }
        ensures { GoesToCached earliest text.now (cached_place self.now from) self.now result }
    {
        // With the direction of the text and `earliest` as constants.
        match (text.is_backward(), earliest) {
            (false, false) => self.follow_with_scans(
                from,
                &text.known(false),
                until,
                pauses,
                false,
            ),
            (false, true) => self.follow_with_scans(from, &text.known(false), until, pauses, true),
            (true, false) => self.follow_with_scans(from, &text.known(true), until, pauses, false),
            (true, true) => self.follow_with_scans(from, &text.known(true), until, pauses, true),
        }
    }

    /// Returns how many bytes of a text are read without scans.
    #[inline(always)]
    fn unscanned(&self, len: usize) -> usize
        ensures { result ≤ len }
    {
        if len <= UNSCANNED {
            len
        } else if self.credit == 0 || self.table.loop_row() == NO_ROW {
            UNSCANNED
        } else {
            UNSCANNED_BEFORE_LOOP
        }
    }

    /// Follows cached transitions from a start state over the first bytes of a text.
    #[inline(always)]
    fn follow_first(&self, start: LazyStateId, text: &Text<'_>, earliest: bool) -> CachedPosition
        requires { start < length self.now.states }
        ensures { GoesToCached earliest text.now (first_place (cache self.now)
            (slice_index_or self.now.states start dead)) self.now result }
    {
        let first = CachedPosition {
            id: start,
            read: 0,
            last: LastMatch::NONE,
        };
        self.follow(first, text, self.unscanned(text.len()), NO_ROW, earliest)
    }

    /// Follows cached transitions over a text and the unit ahead of it, up to a state at which the
    /// search ends.
    #[inline(always)]
    fn follow_to_end(&self, start: LazyStateId, text: &Text<'_>, earliest: bool) -> CachedPosition
        requires { start < length self.now.states }
        ensures position { IsCachedPosition self.now result }
        ensures come { HasCome earliest (units text.now) (first_place (cache self.now)
            (slice_index_or self.now.states start dead)) (cached_place self.now result) }
        ensures within { result.read ≤ length text.now.bytes + 1 }
    {
        let at = self.follow_first(start, text, earliest);
        if at.read < text.len() {
            return at;
        }
        let target = self.table.lookup(at.id, text.ahead());
        let tag = self.table.tag(at.id);
        match target {
            Some(id) if !tag.is_last(earliest) => CachedPosition {
                id,
                read: at.read + 1,
                last: at.last.or_match(tag, at.read),
            },
            _ => at,
        }
    }

    /// Searches a text from the start state of a walk over it, as far as the id of that state is
    /// kept and the transitions are cached.
    ///
    /// Inlined, so that each caller has a loop in which `earliest` is a constant, and in `search`
    /// also the direction of the text. With tests of these it takes six cycles a byte, not five.
    #[inline(always)]
    pub(crate) fn read_text(&self, start: StateID, text: &Text<'_>, earliest: bool) -> Reached
        requires { start < length self.now.nfa.states }
        ensures reached { IsReached earliest self.now start text.now result }
        ensures sound { IsSound (cache self.now) }
    {
        let Some(id) = self.kept_start(start, text.behind()) else {
            return Reached::Short(None);
        };
        let at = self.follow_to_end(id, text, earliest);
        let tag = self.table.tag(at.id);
        // An equation, not `>`: after the step over the unit ahead `at.read` is this sum, and the
        // compiler then leaves out the test. It does not know that the sum is above the length.
        if at.read == text.len() + 1 || tag.is_last(earliest) {
            return Reached::End(at.last.or_match(tag, at.read).get());
        }
        Reached::Short(Some(at))
    }
}
