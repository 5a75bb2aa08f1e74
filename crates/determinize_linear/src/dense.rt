//! All matches by a whole DFA, in a list or one at a time, in a number of steps linear in the
//! length of the input, for a given DFA.
//!
//! The last match that the rows of an anchored walk list is the most preferred one that begins
//! where the walk does. The walk may have read far past its end. So each pair of a position and a
//! row that it was at is marked, if the next row listed no match. A later walk begins where that
//! match ends or further on. So a marked pair that it comes to was marked after the match, from
//! where no further match was listed, and the walk ends there: all walks go on alike from a pair.
//! It ends in row 0, too, if that is known to be dead: its pairs are then marked from the start.
//!
//! No later walk is at the position where a walk begins, except to begin there. So its first step
//! marks nothing, and neither does the last one of a walk that reads the whole text.

ghost use Rattle.std.specs.Prelude.{◌≡◌, ℕ, ◌*◌, ◌<◌, ◌≤◌, ◌-◌, ◌+◌, ◌^◌, All, IfOk, IsTrue, None, Some, false, length, true};
ghost use Rattle.std.specs.Option.{IfNone, IfSome};
ghost use Rattle.determinize_below.specs.Nfa.{IsAccepted};
ghost use Rattle.determinize_below.specs.Semantics.{Nfa, before_at};
ghost use Rattle.determinize_below.specs.Truth.{IsUnit};
ghost use Rattle.determinize_below.specs.declared.search.MatchKind.TheVariants as kinds;
ghost use Rattle.determinize_dense.specs.Automaton.{IsStoredOf, first_row};
ghost use Rattle.determinize_engine.specs.Searches.{has_start};
ghost use Rattle.determinize_find.specs.Cursors.{after_match};
ghost use Rattle.determinize_find.specs.LeftmostIn as inputs;
ghost use Rattle.determinize_find.specs.Matches.{AreMatches, IsNext};
ghost use Rattle.determinize_linear.specs.Private.Found.{IsFoundAt};
ghost use Rattle.determinize_linear.specs.Private.Following.{IsWalkable, following, steps_left, unmarked};
ghost use Rattle.determinize_linear.specs.Private.Paid.{end_of};
ghost use Rattle.determinize_linear.specs.Private.RowMarks.{bit_of, is_set};
ghost use Rattle.determinize_linear.specs.Private.Starts.{BeginAlike};
ghost use Rattle.determinize_linear.specs.Private.Walks.{HasStepped, HasWalked, IsWalked};
ghost use Rattle.determinize_linear.specs.Tries.{most_steps};

use crate::in_turn::{Cursor, find_all_by};
use crate::matcher::Matcher;
use crate::row_marks::RowMarks;
use crate::starts::{begin_alike, behind_start};
use crate::tries::{Counter, Tries};
use determinize_below::{HalfMatch, Input, Match};
use determinize_dense::{Automaton, RowId, Walker};
use determinize_engine::text::Text;
use std::alloc::{AllocError, Allocator, Global};
use std::convert::Infallible;
use std::marker::Model;
use std::sync::ledger::Ledger;

/// A walk over a text under way, with the last match that its rows have listed.
#[derive(Drop)]
struct Walk<'d, D: Automaton> {
    walker: Walker<'d, D>,
    /// The position of the next unit.
    at: usize,
    /// The last row that listed a match, or an id that is no row's.
    listing: RowId,
    /// The end of its match.
    end: usize,
}

impl<'d, D: Automaton> Model for Walk<'d, D> {
    ghost use Rattle.determinize_core.specs.LastMatch.{ended_at};
    ghost use Rattle.determinize_dense.specs.Table.{patterns_at};
    ghost use Rattle.determinize_linear.specs.Private.Walks.{WalkValue};

    ghost Value = { WalkValue };

    ghost view = { λ w. record {
      dfa = D.stored w.walker.automaton;
      row = w.walker.row;
      at = w.at;
      found = ended_at w.end (patterns_at (D.stored w.walker.automaton).table w.listing);
    } };
}

impl<'d, D: Automaton> Walk<'d, D> {
    /// Returns an anchored walk that begins at a position of a text.
    #[inline(always)]
    fn new(dfa: &'d D, text: &Text<'_>, from: usize, begin_alike: bool) -> Walk<'d, D>
        requires { begin_alike ≡ true → BeginAlike (D.stored dfa.now) text.now }
        ensures value { result ≡ record {
          dfa = D.stored dfa.now;
          row = first_row (D.stored dfa.now) true (before_at text.now from);
          at = from;
          found = None;
        } }
        ensures means { (nfa : Nfa) → D.is_of dfa.now nfa
            → IsAccepted nfa × IsStoredOf nfa (D.stored dfa.now) }
        ensures behind { IsUnit (before_at text.now from) }
    {
        Walk {
            walker: Walker::new(dfa, true, behind_start(text, from, begin_alike)),
            at: from,
            listing: RowId::new(dfa.len()),
            end: from,
        }
    }

    /// Takes a step over a unit, and returns whether the next row lists a match.
    #[inline(always)]
    fn step(&mut self, unit: Option<u8>) -> bool
        requires { self.old.at < 2 ^ 63 }
        ensures { HasStepped self.old unit self.new result }
    {
        self.walker.step(unit);
        let lists = self.walker.is_match();
        if lists {
            self.listing = self.walker.row();
            self.end = self.at;
        }
        self.at += 1;
        lists
    }

    /// Returns whether a byte follows, and after it a match may be listed.
    #[inline(always)]
    fn may_follow<A: Allocator>(&self, text: &Text<'_>, marks: &RowMarks<A>) -> bool
        requires { self.now.at < length text.now.bytes
            → bit_of marks.now self.now.at (self.now.row * (self.now.dfa.table.class_count + 1))
            < 64 * length marks.now.words }
        ensures more { result ≡ true → (self.now.at < length text.now.bytes)
            × (is_set self.now.dfa.table marks.now self.now.at self.now.row ≡ false) }
        ensures less { result ≡ false → self.now.at < length text.now.bytes
            → is_set self.now.dfa.table marks.now self.now.at self.now.row ≡ true }
    {
        self.at < text.len() && !marks.is_set(self.at, self.walker.offset())
    }

    /// Returns the last match that the rows have listed.
    #[inline(always)]
    fn found(&self) -> Option<HalfMatch>
        ensures { result ≡ self.now.found }
    {
        let pattern = self.walker.automaton().match_pattern(self.listing, 0)?;
        Some(HalfMatch {
            pattern,
            offset: self.end,
        })
    }
}

/// Walks over the bytes of a text, up to its end or to where no further match is listed.
#[inline(always)]
fn walk_bytes<D: Automaton, A: Allocator, C: Counter>(
    walk: &mut Walk<'_, D>,
    text: &Text<'_>,
    marks: &mut RowMarks<A>,
    counter: &mut C,
)
    requires walkable { IsWalkable walk.old.dfa marks.old text.now walk.old.at }
    requires within { walk.old.at ≤ length text.now.bytes }
    requires below { walk.old.row < length walk.old.dfa.table.patterns }
    requires start { walk.old.found ≡ None }
    ensures walked { IsWalked text.now walk.old marks.old marks.new walk.new 1
        (C.total counter.old) (C.total counter.new) }
    ensures within { walk.new.at ≤ length text.now.bytes }
    ensures ends { walk.new.at < length text.now.bytes
        → following walk.old.dfa.table text.now walk.new.at walk.new.row ≡ None }
    ensures more { walk.old.at < length text.now.bytes → walk.old.at < walk.new.at }
    ensures counted { IsTrue C.counts
        → C.total counter.old + walk.new.at ≤ C.total counter.new + walk.old.at }
{
    if walk.at == text.len() {
        return;
    }
    counter.count();
    walk.step(Some(text.byte(walk.at)));
    while walk.may_follow(text, marks) {
        counter.count();
        let (at, offset) = (walk.at, walk.walker.offset());
        if !walk.step(Some(text.byte(at))) {
            marks.set(at, offset);
        }
    }
}

/// Returns the pattern and the end of the match that begins at a position of a text, if any: under
/// `LeftmostFirst` of the most preferred one, and under `All` of the longest one.
///
/// - `begin_alike` says whether walks from all positions of the text begin in one row.
#[inline(always)]
pub(crate) fn walk_from<D: Automaton, A: Allocator, C: Counter>(
    dfa: &D,
    text: &Text<'_>,
    from: usize,
    begin_alike: bool,
    marks: &mut RowMarks<A>,
    counter: &mut C,
) -> Option<HalfMatch>
    requires alike { begin_alike ≡ true → BeginAlike (D.stored dfa.now) text.now }
    requires within { from ≤ length text.now.bytes }
    requires walkable { IsWalkable (D.stored dfa.now) marks.old text.now from }
    ensures found { (nfa : Nfa) → D.is_of dfa.now nfa
        → IsFoundAt nfa (D.stored dfa.now).kind text.now from result }
    ensures walked { HasWalked (D.stored dfa.now) text.now from marks.old marks.new result
        (C.total counter.old) (C.total counter.new) }
    ensures counted { IsTrue C.counts
        → C.total counter.old + end_of from result + 1 ≤ C.total counter.new + from }
{
    let mut walk = Walk::new(dfa, text, from, begin_alike);
    walk_bytes(&mut walk, text, marks, counter);
    if walk.at < text.len() {
        return walk.found();
    }
    counter.count();
    walk.step(text.ahead());
    walk.found()
}

/// Returns marks for walks over a text: those of row 0 are set, if it is known to be dead.
pub(crate) fn new_marks<D: Automaton, A: Allocator>(
    alloc: A,
    dfa: &D,
    text: &Text<'_>,
) -> Result<RowMarks<A>, AllocError>
    ensures walkable { IfOk result
        (λ marks. (k : ℕ) → IsWalkable (D.stored dfa.now) marks text.now k) }
    ensures few { IfOk result (λ marks. unmarked (D.stored dfa.now).table text.now marks
        ≤ (length text.now.bytes + 1) * length (D.stored dfa.now).table.patterns) }
{
    let is_dead = dfa.is_dead_state(RowId::DEAD);
    RowMarks::new(alloc, text.len() + 1, dfa.len(), dfa.columns(), is_dead)
}

/// Walks by one DFA over one text.
#[derive(Drop)]
struct Walks<'d, D: Automaton, A: Allocator> {
    dfa: &'d D,
    marks: RowMarks<A>,
    /// Whether all of them begin in one row.
    begin_alike: bool,
}

impl<'d, D: Automaton, A: Allocator> Matcher for Walks<'d, D, A> {
    type Error = Infallible;

    ghost By = { D };

    ghost by = { λ w. w.dfa.now };

    ghost finds = { D.finds };

    ghost is_ready = { λ w text k. ((nfa : Nfa) → D.finds w.dfa.now nfa → D.is_of w.dfa.now nfa)
        × ((D.stored w.dfa.now).kind ≡ kinds.LeftmostFirst)
        × (w.begin_alike ≡ true → BeginAlike (D.stored w.dfa.now) text)
        × IsWalkable (D.stored w.dfa.now) w.marks text k };

    ghost left = { λ w text k. steps_left (D.stored w.dfa.now).table text w.marks k };

    ghost most = { λ dfa. 0 };

    ghost extra = { 3 };

    #[inline(always)]
    fn search_from<C: Counter>(
        &mut self,
        text: &Text<'_>,
        from: usize,
        counter: &mut C,
    ) -> Result<Option<HalfMatch>, Infallible> {
        let (dfa, begin_alike) = (self.dfa, self.begin_alike);
        Ok(walk_from(dfa, text, from, begin_alike, &mut self.marks, counter))
    }
}

/// Returns whether a match may begin only where the search starts.
fn is_anchored<D: Automaton>(dfa: &D, input: &Input<'_>) -> bool
    ensures value { (nfa : Nfa) → D.finds dfa.now nfa
        → result ≡ inputs.is_anchored nfa input.now.anchored }
    ensures known { (nfa : Nfa) → D.finds dfa.now nfa → D.is_of dfa.now nfa }
{
    let is_always = dfa.is_always_start_anchored();
    input.get_anchored().is_anchored() || is_always
}

/// A cursor over the matches of an input, in their order, which are those of [`find_all`]. It
/// borrows the DFA, and owns the marks of its searches.
#[derive(Drop)]
pub struct Searcher<'d, 'h, D: Automaton, A: Allocator = Global> {
    walks: Walks<'d, D, A>,
    cursor: Cursor<'h>,
}

impl<'d, 'h, D: Automaton, A: Allocator> Model for Searcher<'d, 'h, D, A> {
    ghost use Rattle.determinize_linear.specs.Cursors.{SearcherValue};
    ghost use Rattle.determinize_linear.specs.Private.Following.{steps_left};
    ghost use Rattle.determinize_linear.specs.Private.Searchers.{IsSearcher};
    ghost use Rattle.determinize_linear.specs.Private.Turns.{index_of, most_left, place_of};

    ghost Value = { SearcherValue D };

    ghost view = { λ s. record {
      dfa = s.walks.dfa.now;
      cursor = place_of s.cursor;
      next = index_of s.cursor;
      left = most_left
          (steps_left (D.stored s.walks.dfa.now).table s.cursor.text s.walks.marks) 3 s.cursor;
    } };

    ghost invariant = { λ s. IsSearcher (D.stored s.walks.dfa.now) (D.is_of s.walks.dfa.now)
        (D.finds s.walks.dfa.now) s.walks.marks s.walks.begin_alike s.cursor };
}

impl<'d, 'h, D: Automaton, A: Allocator> Searcher<'d, 'h, D, A> {
    /// Returns a cursor before the first match of an input, with the marks that its searches need:
    /// no later call allocates.
    ///
    /// The DFA must be for `MatchKind::LeftmostFirst`, and its NFA must read forward, as for
    /// [`find_all`]. Returns `AllocError` if the marks cannot be allocated. All of them are written
    /// here: a caller that stops early saves steps, and no memory.
    pub fn new(
        alloc: A,
        dfa: &'d D,
        input: &Input<'h>,
    ) -> Result<Searcher<'d, 'h, D, A>, AllocError>
        requires forward { (D.stored dfa.now).reverse ≡ false }
        requires kind { (D.stored dfa.now).kind ≡ kinds.LeftmostFirst }
        requires start { has_start input.now.anchored ≡ true }
        ensures dfa { IfOk result (λ s. s.dfa ≡ dfa.now) }
        ensures first { IfOk result
            (λ s. s.cursor ≡ record { asked = input.now; before = None }) }
        ensures next { input.now.start ≤ input.now.end
            → IfOk result (λ s. s.next ≡ input.now.start) }
        ensures linear { IfOk result
            (λ s. s.left
            ≤ most_steps (D.stored dfa.now).table (input.now.end - input.now.start)) }
    {
        let cursor = Cursor::new(input, is_anchored(dfa, input));
        let text = cursor.text();
        let begin_alike = begin_alike(dfa, &text);
        let marks = new_marks(alloc, dfa, &text)?;
        let walks = Walks {
            dfa,
            marks,
            begin_alike,
        };
        Ok(Searcher { walks, cursor })
    }

    /// Returns the next match, and moves the cursor behind it, counted or not.
    #[inline(always)]
    fn advance_with<C: Counter>(&mut self, counter: &mut C) -> Option<Match>
        ensures next { (nfa : Nfa) → D.finds self.old.dfa nfa
            → IsNext nfa self.old.cursor.asked self.old.cursor.before result }
        ensures after { self.new.cursor ≡ after_match self.old.cursor result }
        ensures dfa { self.new.dfa ≡ self.old.dfa }
        ensures further { IfSome result (λ m.
            (m.start < m.end → self.new.next ≡ m.end)
            × (m.start ≡ m.end → self.new.next ≡ m.end + 1)) }
        ensures done { IfNone result (self.old.cursor.asked.end < self.new.next) }
        ensures linear { C.total counter.new + self.new.left ≤ C.total counter.old + self.old.left }
        ensures more { IsTrue C.counts → C.total counter.old ≤ C.total counter.new }
        ensures counted { IsTrue C.counts → IfSome result (λ m.
            (C.total counter.old + (m.end + 1 - self.old.next) ≤ C.total counter.new)
            × (self.new.next ≤ m.end + 1)) }
        ensures past { (nfa : Nfa) → D.finds self.old.dfa nfa → IsTrue C.counts
            → inputs.is_anchored nfa self.old.cursor.asked.anchored ≡ false
            → IfNone result (C.total counter.old + (self.old.cursor.asked.end + 1 - self.old.next)
            ≤ C.total counter.new) }
    {
        let Ok(found) = self.cursor.advance(&mut self.walks, counter);
        found
    }

    /// Returns the next match, and moves the cursor behind it. After the last match the result is
    /// `None`, and the cursor does not move. The matches are those of [`find_all`], in their order.
    ///
    /// The next match is the leftmost one from the end of the match before. But if it is empty and
    /// begins where the one before ended, it is skipped: the next match is then the leftmost one
    /// from one byte further on.
    ///
    /// All calls together take a number of steps that is linear in the length of the range, as
    /// `advance_counted` says, which has the same body. One of them may take most of these.
    pub fn advance(&mut self) -> Option<Match>
        ensures next { (nfa : Nfa) → D.finds self.old.dfa nfa
            → IsNext nfa self.old.cursor.asked self.old.cursor.before result }
        ensures after { self.new.cursor ≡ after_match self.old.cursor result }
        ensures dfa { self.new.dfa ≡ self.old.dfa }
        ensures further { IfSome result (λ m.
            (m.start < m.end → self.new.next ≡ m.end)
            × (m.start ≡ m.end → self.new.next ≡ m.end + 1)) }
        ensures done { IfNone result (self.old.cursor.asked.end < self.new.next) }
        ensures linear { self.new.left ≤ self.old.left }
    {
        self.advance_with(&mut ())
    }

    /// Returns the same as `advance`, and counts the steps from one row to the next.
    ///
    /// In contracts a cursor has two numbers. `left` is at most `(rows + 4) * (bytes + 2)` before
    /// the first match, for the rows of the DFA and the bytes of the range. It falls by at least
    /// the number of the steps, and `advance` does not raise it. `next` is the index from which the
    /// next call searches: where the match ends or, if it is empty, one byte further on. At least
    /// one step is counted for each index from `next` to the end of the match or, if there is none
    /// and the input is not anchored, to the end of the range.
    pub fn advance_counted<L: Ledger>(&mut self, steps: &mut Tries<L>) -> Option<Match>
        ensures next { (nfa : Nfa) → D.finds self.old.dfa nfa
            → IsNext nfa self.old.cursor.asked self.old.cursor.before result }
        ensures after { self.new.cursor ≡ after_match self.old.cursor result }
        ensures dfa { self.new.dfa ≡ self.old.dfa }
        ensures further { IfSome result (λ m.
            (m.start < m.end → self.new.next ≡ m.end)
            × (m.start ≡ m.end → self.new.next ≡ m.end + 1)) }
        ensures done { IfNone result (self.old.cursor.asked.end < self.new.next) }
        ensures linear { steps.new + self.new.left ≤ steps.old + self.old.left }
        ensures more { steps.old ≤ steps.new }
        ensures counted { IfSome result (λ m.
            (steps.old + (m.end + 1 - self.old.next) ≤ steps.new)
            × (self.new.next ≤ m.end + 1)) }
        ensures past { (nfa : Nfa) → D.finds self.old.dfa nfa
            → inputs.is_anchored nfa self.old.cursor.asked.anchored ≡ false
            → IfNone result (steps.old + (self.old.cursor.asked.end + 1 - self.old.next)
            ≤ steps.new) }
    {
        self.advance_with(steps)
    }
}

/// Returns all matches of an input, counted or not.
fn find_all_with<D: Automaton, A: Allocator + Copy, C: Counter>(
    alloc: A,
    dfa: &D,
    input: &Input<'_>,
    counter: &mut C,
) -> Result<Vec<Match, A>, AllocError>
    requires forward { (D.stored dfa.now).reverse ≡ false }
    requires kind { (D.stored dfa.now).kind ≡ kinds.LeftmostFirst }
    requires start { has_start input.now.anchored ≡ true }
    ensures all { (nfa : Nfa) → D.finds dfa.now nfa
        → IfOk result (λ found. AreMatches nfa input.now None found.items) }
    ensures linear { IsTrue C.counts → C.total counter.new ≤ C.total counter.old
        + most_steps (D.stored dfa.now).table (input.now.end - input.now.start) }
    ensures counted { (nfa : Nfa) → D.finds dfa.now nfa → IsTrue C.counts
        → inputs.is_anchored nfa input.now.anchored ≡ false → IfOk result (λ _. C.total counter.old
        + (input.now.end + 1 - input.now.start) ≤ C.total counter.new) }
    ensures ends { IsTrue C.counts → IfOk result (λ found. All (λ m. C.total counter.old
        + (m.end + 1 - input.now.start) ≤ C.total counter.new) found.items) }
{
    if input.start() > input.end() {
        return Ok(Vec::new(alloc));
    }
    let text = Text::of_input(input, false);
    let begin_alike = begin_alike(dfa, &text);
    let marks = new_marks(alloc, dfa, &text)?;
    let mut walks = Walks {
        dfa,
        marks,
        begin_alike,
    };
    find_all_by(alloc, &mut walks, input, is_anchored(dfa, input), counter)
}

/// Returns all matches of an input, in their order: the same as [`crate::find_all`] of an NFA that
/// the DFA `finds`.
///
/// The DFA must be for `MatchKind::LeftmostFirst`, and its NFA must read forward; it needs no
/// prefix. If the two starts of the NFA of a `Dfa` are one state, the input is anchored. A DFA from
/// a file does not know this, and searches from each index: then pass `Anchored::Yes`. The bytes
/// next to the range are seen by assertions. The number of steps is linear in the length of the
/// range, as [`find_all_counted`] says. The memory is, too: a bit for each row of the DFA at each
/// index of the range, and at most eight bytes for each entry of its table.
pub fn find_all<D: Automaton, A: Allocator + Copy>(
    alloc: A,
    dfa: &D,
    input: &Input<'_>,
) -> Result<Vec<Match, A>, AllocError>
    requires forward { (D.stored dfa.now).reverse ≡ false }
    requires kind { (D.stored dfa.now).kind ≡ kinds.LeftmostFirst }
    requires start { has_start input.now.anchored ≡ true }
    ensures { (nfa : Nfa) → D.finds dfa.now nfa
        → IfOk result (λ found. AreMatches nfa input.now None found.items) }
{
    find_all_with(alloc, dfa, input, &mut ())
}

/// Returns the same as [`find_all`], and counts the steps from one row to the next. On error too,
/// they are at most `(rows + 4) * (bytes + 2)`, for the rows of the DFA and the bytes of the range.
/// On success they are at least one for each index from the start of the range to the end of each
/// match and, if the input is not anchored, to the end of the range.
pub fn find_all_counted<D: Automaton, A: Allocator + Copy, L: Ledger>(
    alloc: A,
    dfa: &D,
    input: &Input<'_>,
    steps: &mut Tries<L>,
) -> Result<Vec<Match, A>, AllocError>
    requires forward { (D.stored dfa.now).reverse ≡ false }
    requires kind { (D.stored dfa.now).kind ≡ kinds.LeftmostFirst }
    requires start { has_start input.now.anchored ≡ true }
    ensures all { (nfa : Nfa) → D.finds dfa.now nfa
        → IfOk result (λ found. AreMatches nfa input.now None found.items) }
    ensures linear { steps.new ≤ steps.old
        + most_steps (D.stored dfa.now).table (input.now.end - input.now.start) }
    ensures counted { (nfa : Nfa) → D.finds dfa.now nfa
        → inputs.is_anchored nfa input.now.anchored ≡ false → IfOk result
        (λ _. steps.old + (input.now.end + 1 - input.now.start) ≤ steps.new) }
    ensures ends { IfOk result (λ found. All (λ m. steps.old
        + (m.end + 1 - input.now.start) ≤ steps.new) found.items) }
{
    find_all_with(alloc, dfa, input, steps)
}
