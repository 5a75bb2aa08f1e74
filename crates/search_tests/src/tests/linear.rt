//! All matches in a linear number of steps: over an NFA and by a whole DFA.

ghost use Rattle.std.specs.Prelude.{◌≡◌, false, true};
ghost use Rattle.determinize_below.specs.declared.search.MatchKind.TheVariants as kinds;
ghost use Rattle.determinize_engine.specs.Searches.{has_start};

use crate::tests::patterns::regex_of;
use crate::tests::{Ends, dense, expect_matches, same};
use determinize_below::{Anchored, Match, MatchKind, NFA};
use determinize_dense::Dfa;
use determinize_linear::{dense as by_dfa, find_all};
use determinize_regex::Input;
use std::process::Abort;

/// Patterns, a haystack, the start and the end of a range of it, and all matches or tokens in the
/// range.
pub type Case = (
    &'static [&'static str],
    &'static [u8],
    usize,
    usize,
    &'static [Ends],
);

/// Matches that were worked out by hand. Of bytes `a` each is a match of the first two patterns,
/// and the end of none of the third. Assertions see the bytes next to a range.
static ANYWHERE: [Case; 17] = [
    (&["[^z]*z|a"], b"", 0, 0, &[]),
    (
        &["[^z]*z|a"],
        b"aazaab",
        0,
        6,
        &[(0, 0, 3), (0, 3, 4), (0, 4, 5)],
    ),
    (
        &["[^z]*z|a"],
        b"aazaab",
        1,
        5,
        &[(0, 1, 3), (0, 3, 4), (0, 4, 5)],
    ),
    (
        &["(a*)*b|a"],
        b"aabaa",
        0,
        5,
        &[(0, 0, 3), (0, 3, 4), (0, 4, 5)],
    ),
    (&["a+b|"], b"aaba", 0, 4, &[(0, 0, 3), (0, 4, 4)]),
    (&["a+b|"], b"aaba", 0, 2, &[(0, 0, 0), (0, 1, 1), (0, 2, 2)]),
    (
        &[r"\ba|b\b|\b"],
        b"ab b",
        0,
        4,
        &[(0, 0, 1), (0, 1, 2), (0, 3, 4)],
    ),
    (&[r"\ba|b\b|\b"], b"ab b", 1, 4, &[(0, 1, 2), (0, 3, 4)]),
    (&[r"a\b"], b"ab", 0, 1, &[]),
    (&[r"a\b"], b"a-", 0, 1, &[(0, 0, 1)]),
    (&[r"\Bb"], b"ab", 1, 2, &[(0, 1, 2)]),
    (&[r"\Bb"], b"-b", 1, 2, &[]),
    (&["(?m)^a|a$"], b"a\naaa\n", 2, 5, &[(0, 2, 3), (0, 4, 5)]),
    (&["(?m)^a|a$"], b"a\naaa\n", 3, 4, &[]),
    (
        &["[^z]*z", "a", "aa"],
        b"aazaa",
        0,
        5,
        &[(0, 0, 3), (1, 3, 4), (1, 4, 5)],
    ),
    (&["ab", "a", "z*"], b"aab", 0, 3, &[(1, 0, 1), (0, 1, 3)]),
    (&["ab", "a", "z*"], b"ba", 0, 2, &[(2, 0, 0), (1, 1, 2)]),
];

/// The same where each match begins where the one before it ended or, if it would be empty, one
/// byte further on.
static ANCHORED: [Case; 4] = [
    (&["a|b"], b"aab-a", 0, 5, &[(0, 0, 1), (0, 1, 2), (0, 2, 3)]),
    (&["a*"], b"aaba", 0, 4, &[(0, 0, 2), (0, 3, 4)]),
    (&["a*"], b"baa-a", 0, 3, &[(0, 0, 0), (0, 1, 3)]),
    (&[r"\B[ab]", r"\b"], b"-ab-", 2, 4, &[(0, 2, 3)]),
];

/// Asserts that a whole DFA finds these matches of an input in a linear number of steps, in a list
/// and one at a time, and then none, and so does its NFA.
fn expect_linear<R: Abort + AllocGlobal>(
    rt: &R,
    dfa: &Dfa<&NFA>,
    input: &Input<'_>,
    wanted: &[Match],
)
    requires forward { dfa.now.nfa.reverse ≡ false }
    requires kind { dfa.now.kind ≡ kinds.LeftmostFirst }
    requires start { has_start input.now.anchored ≡ true }
{
    let found = by_dfa::find_all(rt.alloc(), dfa, input).expect(rt, "memory");
    same(rt, found.as_slice(), wanted);
    let mut searcher = by_dfa::Searcher::new(rt.alloc(), dfa, input).expect(rt, "memory");
    for index in 0..wanted.len() + 2 {
        same(rt, searcher.advance(), wanted.get(index).copied());
    }
    let found = find_all(rt.alloc(), dfa.nfa(), input).expect(rt, "memory");
    same(rt, found.as_slice(), wanted);
}

/// Compares all matches of a case, by a regex, with those expected, and with those in a linear
/// number of steps.
fn expect_case<R: Abort + AllocGlobal>(rt: &R, case: &Case, anchored: Anchored)
    requires { has_start anchored ≡ true }
{
    let (patterns, haystack, start, end, wanted) = *case;
    assert!(rt; start <= end && end <= haystack.len());
    let input = Input::new(haystack).range(start..end).anchored(anchored);
    let mut regex = regex_of(rt, patterns);
    let found = regex.find_all(rt.alloc(), &input).expect(rt, "memory");
    expect_matches(rt, found.as_slice(), wanted);
    let dfa = dense::dfa(rt, regex.nfa(), MatchKind::LeftmostFirst, 100);
    expect_linear(rt, &dfa, &input, found.as_slice());
}

#[test]
fn found_by_hand(rt: HostRuntime) {
    for case in &ANYWHERE {
        expect_case(&rt, case, Anchored::No);
    }
    for case in &ANCHORED {
        expect_case(&rt, case, Anchored::Yes);
    }
}

/// Of 20,000 bytes `a` each is a match, behind which the others are read.
#[test]
fn quadratic_by_other_searches(rt: HostRuntime) {
    let regex = regex_of(&rt, &["[^z]*z|a"]);
    let text = Vec::from_elem(rt.alloc(), b'a', 20_000).expect(&rt, "memory");
    let input = Input::new(&text);
    let dfa = dense::dfa(&rt, regex.nfa(), MatchKind::LeftmostFirst, 100);
    let found = by_dfa::find_all(rt.alloc(), &dfa, &input).expect(&rt, "memory");
    same(&rt, found.len(), 20_000);
    expect_linear(&rt, &dfa, &input, found.as_slice());
}
