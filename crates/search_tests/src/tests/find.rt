//! The leftmost match and all matches, with both ends: by a `Plain`, by a `Regex` over two caches
//! or over two whole DFAs, and of a text in pieces.

ghost use Rattle.std.specs.Prelude.{◌≡◌, false, true};
ghost use Rattle.determinize_engine.specs.Searches.{has_start};
ghost use Rattle.determinize_find.specs.Prefix.{HasPrefix};

use crate::tests::kept::{self, Calls};
use crate::tests::trial::{Trial, fail_each_in_turn};
use crate::tests::{Ends, dense, expect_end, expect_matches, holds, same};
use determinize_below::{AsNfa, BuildError, Input, Match, MatchKind, NFA};
use determinize_dense::Dfa;
use determinize_find::{Finder, Plain, Regex, Searcher, find_all, has_prefix, reversed};
use determinize_lazy::{Engine, Lazy, LazyDfa};
use determinize_uses::steady;
use std::alloc::{AllocError, Allocator};
use std::process::Abort;

/// The states of an NFA with the usual prefix, a haystack, and its matches.
pub struct Row<'r> {
    pub states: &'r str,
    pub haystack: &'r [u8],
    pub matches: &'r [Ends],
}

/// `\b\w+\b`.
pub const WORDS: &str =
    "BU:2,1 B:00-ff>0 L:WordAscii>3 S:30-39>4,41-5a>4,5f-5f>4,61-7a>4 BU:3,5 L:WordAscii>6 M:0";

/// `a*`, `|b`, `b|`, `(?mR)^a*$` and, as patterns 0 and 1, `b` and `ab`; `a+b|a`, where after an
/// `a` a match is only certain when the run of `a` ends; and words.
static ROWS: [Row<'static>; 9] = [
    Row {
        states: "BU:2,1 B:00-ff>0 BU:3,4 B:61>2 M:0",
        haystack: b"baac",
        matches: &[(0, 0, 0), (0, 1, 3), (0, 4, 4)],
    },
    Row {
        states: "BU:2,1 B:00-ff>0 BU:4,3 B:62>4 M:0",
        haystack: b"abc",
        matches: &[(0, 0, 0), (0, 1, 1), (0, 2, 2), (0, 3, 3)],
    },
    Row {
        states: "BU:2,1 B:00-ff>0 BU:3,4 B:62>4 M:0",
        haystack: b"abc",
        matches: &[(0, 0, 0), (0, 1, 2), (0, 3, 3)],
    },
    Row {
        states: "BU:2,1 B:00-ff>0 L:StartCRLF>3 BU:4,5 B:61>3 L:EndCRLF>6 M:0",
        haystack: b"\r\n",
        matches: &[(0, 0, 0), (0, 2, 2)],
    },
    Row {
        states: "BU:2,1 B:00-ff>0 L:StartCRLF>3 BU:4,5 B:61>3 L:EndCRLF>6 M:0",
        haystack: b"a\r\naa\n",
        matches: &[(0, 0, 1), (0, 3, 5), (0, 6, 6)],
    },
    Row {
        states: "BU:2,1 B:00-ff>0 BU:3,4 B:62>7 B:61>5 B:62>6 M:1 M:0",
        haystack: b"bab",
        matches: &[(0, 0, 1), (1, 1, 3)],
    },
    Row {
        states: "BU:2,1 B:00-ff>0 BU:3,7 B:61>4 BU:3,5 B:62>6 M:0 B:61>6",
        haystack: b"baa-aaba",
        matches: &[(0, 1, 2), (0, 2, 3), (0, 4, 7), (0, 7, 8)],
    },
    Row {
        states: WORDS,
        haystack: b"abcd e",
        matches: &[(0, 0, 4), (0, 5, 6)],
    },
    Row {
        states: WORDS,
        haystack: b"-x1- _",
        matches: &[(0, 1, 3), (0, 5, 6)],
    },
];

/// Returns an NFA that reads forward, with the usual prefix in its first two states.
pub fn nfa<R: Abort + AllocGlobal>(rt: &R, states: &str) -> NFA
    ensures forward { result.reverse ≡ false }
    ensures prefix { HasPrefix result }
{
    let nfa = dense::nfa(rt, states, 2);
    holds(rt, has_prefix(&nfa));
    nfa
}

/// A search by an NFA and its reverse, which it owns.
pub type Owned = Regex<LazyDfa<NFA>, LazyDfa<NFA>>;

/// Returns a search by the NFA of these states, and caches of at most 100 states.
pub fn regex<R: Abort + AllocGlobal>(rt: &R, states: &str) -> Owned {
    Regex::from_nfa(rt.alloc(), nfa(rt, states), 100).expect(rt, "a regex")
}

/// A search of the haystack of a row.
#[derive(Clone, Copy)]
pub enum Search {
    /// For the first match.
    Find,
    /// For all matches.
    FindAll,
    /// For all matches in turn, by a cursor.
    Advance,
    /// For any match, by a `Regex`.
    IsMatch,
    /// For all matches, by a `Regex`, in pieces of this size.
    Pieces(Calls, usize),
}

/// Each search by a `Plain`.
static PLAIN_SEARCHES: [Search; 3] = [Search::Find, Search::FindAll, Search::Advance];

/// Each search by a `Regex`, with pieces of two bytes.
static SEARCHES: [Search; 5] = [
    Search::Find,
    Search::FindAll,
    Search::Advance,
    Search::IsMatch,
    Search::Pieces(Calls::Feed, 2),
];

/// Compares the match of a search that may fail. Returns its error if it failed.
fn first_if_ok<R: Abort>(
    rt: &R,
    found: Result<Option<Match>, AllocError>,
    wanted: Option<Ends>,
) -> Result<(), AllocError> {
    match found {
        Ok(found) => {
            expect_matches(rt, found.as_slice(), wanted.as_slice());
            Ok(())
        }
        Err(error) => Err(error),
    }
}

/// Compares the matches of a search that may fail. Returns its error if it failed.
fn all_if_ok<R: Abort, A: Allocator>(
    rt: &R,
    found: Result<Vec<Match, A>, AllocError>,
    wanted: &[Ends],
) -> Result<(), AllocError> {
    match found {
        Ok(found) => {
            expect_matches(rt, found.as_slice(), wanted);
            Ok(())
        }
        Err(error) => Err(error),
    }
}

/// Moves a cursor, and compares the match. Returns whether the call did not fail.
fn has_advanced<R: Abort, F: Finder<Error = AllocError>>(
    rt: &R,
    searcher: &mut Searcher<'_>,
    finder: &mut F,
    wanted: Option<Ends>,
) -> bool {
    first_if_ok(rt, searcher.advance(finder), wanted).is_ok()
}

/// Moves a cursor over the matches of a row and past the last one, and again where that fails.
fn advance_over<R: Abort, F: Finder<Error = AllocError>>(
    rt: &R,
    finder: &mut F,
    row: &Row<'_>,
) -> Result<(), AllocError> {
    let mut searcher = Searcher::new(Input::new(row.haystack));
    let mut is_sound = true;
    for index in 0..row.matches.len() + 1 {
        let next = row.matches.get(index).copied();
        if !has_advanced(rt, &mut searcher, finder, next) {
            is_sound = false;
            if !has_advanced(rt, &mut searcher, finder, next) {
                return Err(AllocError);
            }
        }
    }
    if is_sound { Ok(()) } else { Err(AllocError) }
}

/// Searches by a finder.
fn search_by<R: Abort, F: Finder<Error = AllocError>, A: Allocator>(
    rt: &R,
    alloc: A,
    finder: &mut F,
    row: &Row<'_>,
    search: Search,
) -> Result<(), AllocError> {
    let (input, first) = (Input::new(row.haystack), row.matches.first().copied());
    match search {
        Search::Find => first_if_ok(rt, finder.find(&input), first),
        Search::FindAll => all_if_ok(rt, find_all(alloc, finder, &input), row.matches),
        _ => advance_over(rt, finder, row),
    }
}

/// Finds the matches of a row by a `Plain`, through a new cache of this limit.
pub fn search_plain<R: Abort + AllocGlobal, A: Allocator + Copy>(
    rt: &R,
    alloc: A,
    row: &Row<'_>,
    limit: usize,
    search: Search,
) -> Result<(), AllocError> {
    let nfa = nfa(rt, row.states);
    let lazy = Lazy::new(alloc, &nfa, MatchKind::LeftmostFirst, limit);
    search_by(rt, alloc, &mut Plain::new(&nfa, lazy), row, search)
}

/// Searches by a `Regex`.
fn search_by_two<R: Abort, N: AsNfa, B: Engine<Error = AllocError>, A: Allocator + Copy>(
    rt: &R,
    alloc: A,
    regex: &mut Regex<LazyDfa<N, A>, B>,
    row: &Row<'_>,
    search: Search,
) -> Result<(), AllocError> {
    match search {
        Search::IsMatch => {
            let found = regex.is_match(&Input::new(row.haystack))?;
            same(rt, found, !row.matches.is_empty());
            Ok(())
        }
        Search::Pieces(calls, size) => kept::read(rt, alloc, regex, row, calls, size),
        _ => search_by(rt, alloc, regex, row, search),
    }
}

/// Finds the matches of a row by its NFA and the reverse, through new caches of this limit.
pub fn search_regex<R: Abort + AllocGlobal, A: Allocator + Copy>(
    rt: &R,
    alloc: A,
    row: &Row<'_>,
    limit: usize,
    search: Search,
) -> Result<(), AllocError> {
    let nfa = nfa(rt, row.states);
    match reversed(alloc, &nfa) {
        Ok(backward) => {
            let mut regex = Regex::new(alloc, &nfa, &backward, limit);
            search_by_two(rt, alloc, &mut regex, row, search)
        }
        Err(error) => {
            same(rt, error, BuildError::OutOfMemory);
            Err(AllocError)
        }
    }
}

/// Finds the matches of a row by whole DFAs, at once and one at a time.
fn expect_whole<R: Abort + AllocGlobal>(rt: &R, row: &Row<'_>) {
    let nfa = nfa(rt, row.states);
    let backward = reversed(rt.alloc(), &nfa).expect(rt, "a reverse");
    let ends = dense::dfa(rt, &nfa, MatchKind::LeftmostFirst, 100);
    let starts = dense::dfa(rt, &backward, MatchKind::All, 100);
    expect_steady(rt, &mut Regex::from_engines(&ends, &starts), row);
}

/// Compares the matches of a row by a search that does not allocate.
fn expect_steady<R: Abort + AllocGlobal>(
    rt: &R,
    scanner: &mut Regex<&Dfa<&NFA>, &Dfa<&NFA>>,
    row: &Row<'_>,
) {
    let found = steady::matches(rt.alloc(), scanner, row.haystack);
    expect_matches(rt, &found.expect(rt, "memory"), row.matches);
    let mut searcher = Searcher::new(Input::new(row.haystack));
    for index in 0..row.matches.len() + 1 {
        let (found, next) = (steady::next(scanner, &mut searcher), row.matches.get(index));
        expect_matches(rt, found.as_slice(), next.copied().as_slice());
    }
}

/// Whole DFAs find the matches, and so do lazy ones, through caches of each limit and while
/// allocations fail.
#[test]
fn all_matches(rt: HostRuntime) {
    for row in &ROWS {
        expect_whole(&rt, row);
        for &limit in &[0, 64] {
            for &search in &PLAIN_SEARCHES {
                fail_each_in_turn(&rt, &Trial::SearchPlain(row, limit, search));
            }
            for &search in &SEARCHES {
                fail_each_in_turn(&rt, &Trial::Search(row, limit, search));
            }
        }
    }
}

/// Returns the leftmost match of an input.
pub fn first<R: Abort, F: Finder<Error = AllocError>>(
    rt: &R,
    finder: &mut F,
    input: &Input<'_>,
) -> Option<Match>
    requires { has_start input.now.anchored ≡ true }
{
    finder.find(input).expect(rt, "memory")
}

const TEXT: &[u8] = b"abcd e";

/// Ranges of the text, the leftmost word of each, and where a word begins that ends with the range.
static RANGES: [(usize, usize, &[Ends], Option<usize>); 3] = [
    (0, 4, &[(0, 0, 4)], Some(0)),
    (1, 4, &[], None),
    (1, 6, &[(0, 5, 6)], Some(5)),
];

/// Finds the words of ranges of the text, and where each begins, by a search backward of a range up
/// to its end.
#[test]
fn words_of_ranges(rt: HostRuntime) {
    let regex = regex(&rt, WORDS);
    let lazy = Lazy::new(rt.alloc(), regex.nfa(), MatchKind::LeftmostFirst, 100);
    let mut plain = Plain::new(regex.nfa(), lazy);
    let mut backward = Lazy::new(rt.alloc(), regex.reverse(), MatchKind::All, 100);
    for &(start, end, wanted, begin) in &RANGES {
        assert!(rt; start <= end && end <= TEXT.len());
        let input = Input::new(TEXT).range(start..end);
        expect_matches(&rt, first(&rt, &mut plain, &input).as_slice(), wanted);
        let found = backward.search_input(&input);
        expect_end(&rt, found.expect(&rt, "memory"), begin);
    }
    holds(&rt, plain.into_engine().states_kept() > 0);
}
