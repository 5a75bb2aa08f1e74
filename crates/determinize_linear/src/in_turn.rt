//! All matches by searches from one position after another, which a [`Matcher`] makes.

ghost use Rattle.std.specs.Prelude.{[], ◌≡◌, ◌∷◌, ◌++◌, ◌<◌, ◌≤◌, ◌-◌, ◌+◌, ◌*◌, ◌^◌, ℕ, All, IfOk, IsTrue, None, OnOk, false, length, true};
ghost use Rattle.std.specs.Option.{IfNone, IfSome};
ghost use Rattle.determinize_below.specs.Semantics.{Nfa};
ghost use Rattle.determinize_engine.specs.Searches.{has_start, text_of};
ghost use Rattle.determinize_find.specs.LeftmostIn as inputs;
ghost use Rattle.determinize_find.specs.Matches.{AreMatches};
ghost use Rattle.determinize_linear.specs.Private.Paid.{in_haystack};
ghost use Rattle.determinize_linear.specs.Private.Turns.{HasMoved, IsCursor, IsInside, ends_at, index_of, most_left, passed, taken};

use crate::matcher::Matcher;
use crate::tries::Counter;
use determinize_below::{HalfMatch, Input, Match, NFA};
use determinize_engine::text::Text;
use std::alloc::{AllocError, Allocator};
use std::marker::Model;

/// Returns whether a match may begin only where the search starts.
pub(crate) fn is_anchored<N: Allocator>(nfa: &NFA<N>, input: &Input<'_>) -> bool
    ensures { result ≡ inputs.is_anchored nfa.now input.now.anchored }
{
    input.get_anchored().is_anchored() || nfa.start_unanchored() == nfa.start_anchored()
}

/// Returns the text of a range, or an empty one if the range starts past its end.
fn text_of_range<'h>(input: &Input<'h>) -> Text<'h>
    ensures text { input.now.start ≤ input.now.end → result ≡ text_of false input.now }
    ensures count { length result.bytes ≡ input.now.end - input.now.start }
{
    if input.start() > input.end() {
        return Text::new(None, &[], None);
    }
    Text::of_input(input, false)
}

/// Returns whether a match ended at this index.
#[inline(always)]
fn is_end(last_match_end: Option<usize>, index: usize) -> bool
    ensures { result ≡ ends_at last_match_end index }
{
    match last_match_end {
        Some(end) => end == index,
        None => false,
    }
}

/// Adds a match of a text to a list of matches in the haystack.
///
/// - `base` is the index where the text starts, and `at` the position where the match begins.
#[inline(always)]
pub(crate) fn push_moved<A: Allocator>(
    found: &mut Vec<Match, A>,
    base: usize,
    at: usize,
    next: &HalfMatch,
) -> Result<(), AllocError>
    requires start { base + at < 2 ^ 64 }
    requires end { base + next.now.offset < 2 ^ 64 }
    ensures { OnOk result (found.new.items ≡ found.old.items ++ in_haystack base at next.now ∷ []) }
{
    found.push(Match {
        pattern: next.pattern,
        start: base + at,
        end: base + next.offset,
    })?;
    Ok(())
}

/// A cursor over the matches of an input, in their order.
#[derive(Drop)]
pub(crate) struct Cursor<'h> {
    input: Input<'h>,
    /// The text of the range, or an empty one if the range starts past its end.
    text: Text<'h>,
    /// Whether a match may begin only where the search starts.
    is_anchored: bool,
    last_match_end: Option<usize>,
    /// The position of the next search. Where it is behind the end of the text, no match is left.
    at: usize,
}

impl<'h> Model for Cursor<'h> {
    ghost use Rattle.determinize_linear.specs.Private.Turns.{CursorValue};

    ghost Value = { CursorValue };

    ghost view = { λ c. record {
      asked = c.input;
      text = c.text;
      is_anchored = c.is_anchored;
      before = c.last_match_end;
      at = c.at;
    } };
}

impl<'h> Cursor<'h> {
    /// Returns a cursor before the first match of an input.
    pub(crate) fn new(input: &Input<'h>, is_anchored: bool) -> Cursor<'h>
        requires { has_start input.now.anchored ≡ true }
        ensures inside { IsInside result }
        ensures cursor { (nfa : Nfa) → is_anchored ≡ inputs.is_anchored nfa input.now.anchored
            → IsCursor nfa result }
        ensures anchored { result.is_anchored ≡ is_anchored }
        ensures asked { result.asked ≡ input.now }
        ensures before { result.before ≡ None }
        ensures at { input.now.start ≤ input.now.end → result.at ≡ 0 }
    {
        Cursor {
            input: input.from_index(input.start()),
            text: text_of_range(input),
            is_anchored,
            last_match_end: None,
            // Behind the end of the text, which is empty, if the range starts past its end.
            at: input.start().saturating_sub(input.end()),
        }
    }

    /// Returns the text of the range.
    #[inline(always)]
    pub(crate) fn text(&self) -> Text<'h>
        ensures { result ≡ self.now.text }
    {
        self.text.copied()
    }

    /// Returns the position of the next search.
    #[inline(always)]
    fn position(&self) -> usize
        ensures { result ≡ self.now.at }
    {
        self.at
    }

    /// Moves behind what the search from its position found, and returns it as a match in the
    /// haystack. The result is `None` if nothing was found, and also for an empty match where the
    /// one before ended, which is skipped.
    ///
    /// An empty match would be found again where it ends. So the search continues one byte further.
    #[inline(always)]
    fn pass(&mut self, found: Option<HalfMatch>) -> Option<Match>
        requires at { self.old.at < 2 ^ 63 }
        requires text { length self.old.text.bytes < 2 ^ 63 }
        requires start { self.old.asked.start + self.old.at < 2 ^ 64 }
        requires end { IfSome found (λ m. self.old.asked.start + m.offset < 2 ^ 64) }
        ensures passed { self.new ≡ passed self.old found }
        ensures taken { result ≡ taken self.old found }
    {
        let at = self.at;
        let Some(HalfMatch { pattern, offset }) = found else {
            self.at = if self.is_anchored {
                self.text.len() + 1
            } else {
                at + 1
            };
            return None;
        };
        let (start, end) = (self.input.start() + at, self.input.start() + offset);
        if offset > at {
            self.at = offset;
        } else {
            self.at = at + 1;
            if is_end(self.last_match_end, start) {
                return None;
            }
        }
        self.last_match_end = Some(end);
        Some(Match {
            pattern,
            start,
            end,
        })
    }

    /// Returns the next match, if any, and moves behind it.
    #[inline(always)]
    pub(crate) fn advance<S: Matcher, C: Counter>(
        &mut self,
        search: &mut S,
        counter: &mut C,
    ) -> Result<Option<Match>, S::Error>
        requires inside { IsInside self.old }
        requires cursor { (nfa : Nfa) → S.finds (S.by search.old) nfa → IsCursor nfa self.old }
        requires ready { (k : ℕ) → self.old.at ≤ k → S.is_ready search.old self.old.text k }
        ensures by { S.by search.new ≡ S.by search.old }
        ensures moved { IfOk result
            (λ found. HasMoved (S.finds (S.by search.old)) self.old found self.new) }
        ensures on { IfOk result (λ found. IfSome found (λ m. (self.old.at < self.new.at)
            × (self.old.at ≤ length self.old.text.bytes))) }
        ensures ready { IfOk result (λ found. (k : ℕ) → self.new.at ≤ k
            → S.is_ready search.new self.old.text k) }
        ensures paid { IfOk result (λ found. C.total counter.new + most_left
            (S.left search.new self.old.text) (S.most (S.by search.old) + S.extra) self.new
            ≤ C.total counter.old + most_left
            (S.left search.old self.old.text) (S.most (S.by search.old) + S.extra) self.old) }
        ensures bounded { C.total counter.new ≤ C.total counter.old + most_left
            (S.left search.old self.old.text) (S.most (S.by search.old) + S.extra) self.old }
        ensures further { IfOk result (λ found. IfSome found (λ m.
            (m.start < m.end → index_of self.new ≡ m.end)
            × (m.start ≡ m.end → index_of self.new ≡ m.end + 1))) }
        ensures done { IfOk result
            (λ found. IfNone found (self.old.asked.end < index_of self.new)) }
        ensures more { IsTrue C.counts
            → IfOk result (λ _. C.total counter.old ≤ C.total counter.new) }
        ensures counted { IsTrue C.counts → IfOk result (λ found. IfSome found (λ m.
            (C.total counter.old + (m.end + 1 - index_of self.old) ≤ C.total counter.new)
            × (index_of self.new ≤ m.end + 1))) }
        ensures past { IsTrue C.counts → self.old.is_anchored ≡ false
            → IfOk result (λ found. IfNone found (C.total counter.old
            + (length self.old.text.bytes + 1 - self.old.at) ≤ C.total counter.new)) }
    {
        let text = self.text();
        while self.position() <= text.len() {
            let found = search.search_from(&text, self.position(), counter)?;
            if let Some(next) = self.pass(found) {
                return Ok(Some(next));
            }
        }
        Ok(None)
    }
}

/// Returns all matches of an input, by searches of the text of its range.
///
/// - `is_anchored` says whether a match may begin only where the search starts.
#[inline(always)]
pub(crate) fn find_all_by<S: Matcher, A: Allocator, C: Counter>(
    alloc: A,
    search: &mut S,
    input: &Input<'_>,
    is_anchored: bool,
    counter: &mut C,
) -> Result<Vec<Match, A>, AllocError>
    requires anchored { (nfa : Nfa) → S.finds (S.by search.old) nfa
        → is_anchored ≡ inputs.is_anchored nfa input.now.anchored }
    requires mode { has_start input.now.anchored ≡ true }
    requires order { input.now.start ≤ input.now.end }
    requires ready { (k : ℕ) → S.is_ready search.old (text_of false input.now) k }
    ensures all { (nfa : Nfa) → S.finds (S.by search.old) nfa
        → IfOk result (λ found. AreMatches nfa input.now None found.items) }
    ensures linear { IsTrue C.counts → C.total counter.new ≤ C.total counter.old
        + S.left search.old (text_of false input.now) 0
        + (S.most (S.by search.old) + S.extra) * (input.now.end - input.now.start + 1) }
    ensures counted { IsTrue C.counts → is_anchored ≡ false
        → IfOk result (λ _. C.total counter.old + (input.now.end - input.now.start) + 1
        ≤ C.total counter.new) }
    ensures ends { IsTrue C.counts → IfOk result (λ found. All (λ m. C.total counter.old
        + (m.end + 1 - input.now.start) ≤ C.total counter.new) found.items) }
{
    let mut found = Vec::new(alloc);
    let mut cursor = Cursor::new(input, is_anchored);
    loop {
        match cursor.advance(search, counter) {
            Ok(Some(next)) => found.push(next)?,
            Ok(None) => return Ok(found),
            Err(_) => return Err(AllocError),
        }
    }
}
