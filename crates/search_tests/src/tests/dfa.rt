//! A whole DFA with the fewest states, built by `determinize_uses::dfa`.

use crate::tests::dense::{FOO_OR_BAR, nfa};
use crate::tests::{ended, expect_end, same};
use determinize_below::{Anchored, MatchKind};
use determinize_uses::dfa::{patterns_at, smallest};
use determinize_uses::nfa::digits;

/// A text, and the ends of its matches: of an anchored search, and of another one for the first and
/// for all matches.
type Row = (&'static [u8], Option<usize>, Option<usize>, Option<usize>);

static ROWS: [Row; 6] = [
    (b"foo12", Some(5), Some(5), Some(5)),
    (b"xfoo9y", None, Some(5), Some(5)),
    (b"bar", Some(3), Some(3), Some(3)),
    (b"ba", None, None, None),
    (b"", None, None, None),
    (b"barfoo1", Some(3), Some(3), Some(7)),
];

/// How many patterns match at each position of `barfoo1`: one after `bar`, and one at the end.
static COUNTS: [usize; 8] = [0, 0, 0, 1, 0, 0, 0, 1];

#[test]
fn smallest_dfas(rt: HostRuntime) {
    let nfa = nfa(&rt, FOO_OR_BAR, 2);
    let first = smallest(rt.alloc(), &nfa, MatchKind::LeftmostFirst, 100);
    let first = first.expect(&rt, "few states");
    let all = smallest(rt.alloc(), &nfa, MatchKind::All, 100);
    let all = all.expect(&rt, "few states");
    for &(text, anchored, end, last) in &ROWS {
        expect_end(&rt, first.search(Anchored::Yes, None, text, None), anchored);
        expect_end(&rt, first.search(Anchored::No, None, text, None), end);
        expect_end(&rt, all.search(Anchored::Yes, None, text, None), anchored);
        expect_end(&rt, all.search(Anchored::No, None, text, None), last);
    }
    for (offset, count) in COUNTS.iter().enumerate() {
        same(&rt, patterns_at(&all, b"barfoo1", offset).len(), *count);
    }
}

/// A search for numbers by a DFA that owns its NFA.
#[test]
fn owned(rt: HostRuntime) {
    let nfa = digits(rt.alloc()).expect(&rt, "memory");
    let dfa = smallest(rt.alloc(), nfa, MatchKind::LeftmostFirst, 100);
    let dfa = dfa.expect(&rt, "few states");
    same(&rt, dfa.search(Anchored::Yes, None, b"12x", None), ended(2));
}
