//! Matches by engines of each kind, whole matches, and the memory of caches.

use crate::tests::find::{self, WORDS, nfa};
use crate::tests::{Ends, dense, expect_found, holds, same};
use determinize_below::{Input, MatchKind};
use determinize_engine::WithAllocError;
use determinize_find::{Finder, Plain, Regex, find_all, reversed};
use determinize_lazy::Lazy;
use std::process::Abort;

/// Compares all matches of a text by a finder.
fn expect_all<R: Abort + AllocGlobal, F: Finder>(
    rt: &R,
    finder: &mut F,
    text: &[u8],
    wanted: &[Ends],
) {
    expect_found(rt, find_all(rt.alloc(), finder, &Input::new(text)), wanted);
}

/// The words of a text, by a whole DFA, by a borrowed lazy one, and by one of each.
#[test]
fn engines(rt: HostRuntime) {
    let (nfa, text, wanted) = (nfa(&rt, WORDS), b"abcd e", [(0, 0, 4), (0, 5, 6)]);
    let backward = reversed(rt.alloc(), &nfa).expect(&rt, "a reverse");
    let whole = dense::dfa(&rt, &nfa, MatchKind::LeftmostFirst, 100);
    expect_all(&rt, &mut Plain::new(&nfa, &whole), text, &wanted);
    let mut lazy = Lazy::new(rt.alloc(), &nfa, MatchKind::LeftmostFirst, 50);
    expect_all(&rt, &mut Plain::new(&nfa, &mut lazy), text, &wanted);
    let mut lazy = Lazy::new(rt.alloc(), &backward, MatchKind::All, 50);
    let mut regex = Regex::from_engines(WithAllocError(&whole), &mut lazy);
    expect_all(&rt, &mut regex, text, &wanted);
}

/// Texts, and their matches of `a|b` if its NFA has one start state.
static ROWS: [(&[u8], &[Ends]); 2] = [(b"abcab", &[(0, 0, 1), (0, 1, 2)]), (b"cab", &[])];

/// Each match begins where the one before ended.
#[test]
fn one_start(rt: HostRuntime) {
    let nfa = dense::nfa(&rt, "S:61>1,62>1 M:0", 0);
    for &(text, wanted) in &ROWS {
        let lazy = Lazy::new(rt.alloc(), &nfa, MatchKind::LeftmostFirst, 50);
        expect_all(&rt, &mut Plain::new(&nfa, lazy), text, wanted);
    }
}

/// Compares the memory of both caches of a `Regex` after a search with that of each, and once they
/// are cleared, or given back.
#[test]
fn memory_of_both_caches(rt: HostRuntime) {
    let mut regex = find::regex(&rt, WORDS);
    let found = regex.find(&Input::new(b"abcd e"));
    holds(&rt, found.expect(&rt, "memory").is_some());
    let forward = regex.forward().cached_memory_usage();
    let backward = regex.backward().cached_memory_usage();
    holds(&rt, forward > 0 && backward > 0);
    same(&rt, regex.memory_usage(), forward.saturating_add(backward));
    same(&rt, regex.borrowed(rt.alloc(), 100).memory_usage(), 0);
    regex.clear();
    same(&rt, regex.memory_usage(), 0);
    regex.reset();
    same(&rt, regex.forward().memory_usage(), 0);
}

/// Parts of a text, and whether each is a whole word.
static PARTS: [(usize, usize, bool); 5] = [
    (0, 4, true),
    (0, 3, false),
    (1, 4, false),
    (0, 6, false),
    (5, 6, true),
];

/// `a|ab`.
const A_OR_AB: &str = "BU:2,1 B:00-ff>0 BU:3,4 B:61-61>6 B:61-61>5 B:62-62>6 M:0";

/// A full match is one of the whole range, preferred or not: of `a|ab` over `ab` `a` is preferred.
#[test]
fn full_matches(rt: HostRuntime) {
    let owned = find::regex(&rt, WORDS);
    let mut words = owned.borrowed(rt.alloc(), 100);
    let text = Input::new(b"abcd e");
    for &(start, end, wanted) in &PARTS {
        assert!(rt; start <= end && end <= 6);
        let input = text.from_index(start).range(start..end);
        same(&rt, words.is_full_match(&input), Ok(wanted));
    }
    same(&rt, words.is_full_match(&text.range(5..4)), Ok(false));
    let found = find::regex(&rt, A_OR_AB).is_full_match(&Input::new(b"ab"));
    same(&rt, found, Ok(true));
}
