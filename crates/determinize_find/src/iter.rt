//! A cursor over all matches of an input, and the list of them, by any finder.

ghost use Rattle.std.specs.Prelude.{◌≡◌, ◌+◌, ◌≤◌, None, false, true, IfOk, OnErr};
ghost use Rattle.std.specs.Option.{IfSome};
ghost use Rattle.determinize_engine.specs.Searches.{has_start};
ghost use Rattle.determinize_find.specs.Cursors.{after_match};
ghost use Rattle.determinize_find.specs.Matches as matches;
ghost use Rattle.determinize_find.specs.Matches.{AreMatches, IsNext};

use crate::finder::Finder;
use crate::laws::input_law;
use determinize_below::{Input, Match};
use std::alloc::{AllocError, Allocator};
use std::marker::Model;

/// A cursor over the matches of an input, in their order.
#[derive(Drop)]
pub struct Searcher<'h> {
    input: Input<'h>,
    last_match_end: Option<usize>,
}

impl<'h> Model for Searcher<'h> {
    ghost use Rattle.determinize_find.specs.Cursors.{SearcherValue};
    ghost use Rattle.determinize_find.specs.Private.Places.{IsPlace};

    ghost Value = { SearcherValue };

    ghost view = { λ s. record { asked = s.input; before = s.last_match_end } };

    ghost invariant = { λ s. IsPlace s.input s.last_match_end };
}

impl<'h> Searcher<'h> {
    /// Returns a cursor before the first match of an input.
    pub fn new(input: Input<'h>) -> Searcher<'h>
        requires { has_start input.anchored ≡ true }
        ensures { result ≡ record { asked = input.entry; before = None } }
    {
        Searcher::after(input, None)
    }

    /// Returns a cursor behind a match that ended where the input starts, if there was one.
    pub(crate) fn after(input: Input<'h>, last_match_end: Option<usize>) -> Searcher<'h>
        requires start { has_start input.anchored ≡ true }
        requires last { IfSome last_match_end (λ end. end ≡ input.start) }
        ensures { result ≡ record { asked = input.entry; before = last_match_end } }
    {
        Searcher {
            input,
            last_match_end,
        }
    }

    /// Returns the next match, and moves the cursor behind it. After the last match the result is
    /// `Ok(None)`. If the result is `Ok(None)` or an error, the cursor does not move.
    ///
    /// The next match is the leftmost one from the end of the match before. But if it is empty and
    /// begins where the one before ended, it is skipped: the next match is then the leftmost one
    /// from one byte further on.
    pub fn advance<F: Finder>(&mut self, finder: &mut F) -> Result<Option<Match>, F::Error>
        ensures next { IfOk result
            (λ found. IsNext (F.nfa finder.old) self.old.asked self.old.before found) }
        ensures after { IfOk result (λ found. self.new ≡ after_match self.old found) }
        ensures failed { OnErr result (self.new ≡ self.old) }
        ensures same { finder.new ≡ finder.old }
    {
        let found = next_match(finder, &self.input, self.last_match_end)?;
        if let Some(found) = &found {
            self.input.set_start(found.end);
            self.last_match_end = Some(found.end);
        }
        Ok(found)
    }
}

/// Returns all matches of an input, in their order. Only the list is allocated from `alloc`.
/// Returns `AllocError` if that fails, or if a search does.
pub fn find_all<F: Finder, C: Allocator>(
    alloc: C,
    finder: &mut F,
    input: &Input<'_>,
) -> Result<Vec<Match, C>, AllocError>
    requires start { has_start input.now.anchored ≡ true }
    ensures all { IfOk result
        (λ found. AreMatches (F.nfa finder.old) input.now None found.items) }
    ensures same { finder.new ≡ finder.old }
{
    input_law(input);
    let mut searcher = Searcher::new(input.from_index(input.start()));
    let mut all = Vec::new(alloc);
    loop {
        match searcher.advance(finder) {
            Ok(Some(found)) => all.push(found)?,
            Ok(None) => return Ok(all),
            Err(_) => return Err(AllocError),
        }
    }
}

/// Returns the match of an input that follows a match which ended at `before`.
fn next_match<F: Finder>(
    finder: &mut F,
    input: &Input<'_>,
    before: Option<usize>,
) -> Result<Option<Match>, F::Error>
    requires start { has_start input.now.anchored ≡ true }
    ensures next { IfOk result
        (λ found. IsNext (F.nfa finder.old) input.now before found) }
    ensures within { IfOk result (λ found. IfSome found (λ m. m.end ≤ input.now.end)) }
    ensures same { finder.new ≡ finder.old }
{
    let first = finder.find(input)?;
    if is_touching(before, &first) {
        input_law(input);
        return finder.find(&input.from_index(input.start() + 1));
    }
    Ok(first)
}

/// Returns whether there is a match, it is empty, and it begins where the one before it ended.
#[doc(hidden)]
pub fn is_touching(before: Option<usize>, found: &Option<Match>) -> bool
    ensures { result ≡ matches.is_touching before found.now }
{
    match (before, found) {
        (Some(end), Some(found)) => found.start == found.end && found.end == end,
        (_, _) => false,
    }
}
