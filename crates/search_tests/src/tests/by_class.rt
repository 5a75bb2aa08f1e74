//! Caches in which the bytes of a class share computed steps.

use crate::tests::{dense, ended, same};
use determinize_below::MatchKind;
use determinize_lazy::Lazy;
use std::process::Abort;

/// `[a-z]+`. Under `LeftmostFirst` its DFA has a state before the first letter, one after it, one
/// after each further letter, and one after the end.
const LETTERS: &str = "B:61-7a>1 BU:0,2 M:0";

/// Finds six letters, and compares the numbers of computed steps and of cached states.
fn expect_letters<R: Abort>(rt: &R, lazy: &mut Lazy<'_>, computed: u64, kept: usize) {
    let start = lazy.nfa().start_anchored();
    same(rt, lazy.search(start, None, b"abcxyz", None), Ok(ended(6)));
    same(rt, (lazy.computed(), lazy.states_kept()), (computed, kept));
}

/// With room for all states, six letters take a step over the first, one over the second, one over
/// all further ones, and one at the end; by byte there are four over the further ones. With room
/// for two states the second and the last of these steps clear the cache, so the same search
/// computes all four again.
#[test]
fn steps_by_class(rt: HostRuntime) {
    let nfa = dense::nfa(&rt, LETTERS, 0);
    let kind = MatchKind::LeftmostFirst;
    for &(limit, second, kept) in &[(10, 4, 4), (2, 8, 2)] {
        let mut lazy = Lazy::new_by_class(rt.alloc(), &nfa, kind, limit);
        expect_letters(&rt, &mut lazy, 4, kept);
        expect_letters(&rt, &mut lazy, second, kept);
    }
    expect_letters(&rt, &mut Lazy::new(rt.alloc(), &nfa, kind, 10), 7, 4);
}
