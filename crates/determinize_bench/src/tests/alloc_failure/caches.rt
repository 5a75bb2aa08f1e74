//! Walks, searches and scans through a cache.

ghost use Rattle.std.specs.Prelude.{◌≡◌, true};
ghost use Rattle.determinize_engine.specs.Searches.{has_start};

use crate::tests::alloc_failure::{Row, Trial, fail_each_in_turn, rows};
use crate::tests::caches::nfa;
use crate::tests::large::repeated;
use crate::tests::{holds, same};
use determinize_below::{Anchored, Input, MatchKind, NFA};
use determinize_lazy::Lazy;
use failing_alloc::FailingAllocator;
use std::alloc::{Allocator, Global};
use std::process::Abort;

/// A walk, a search or a scan through a cache.
#[derive(Clone, Copy)]
pub enum Call {
    /// Walks.
    Walk,
    /// Searches the text of the walk.
    Search,
    /// Searches the text as a haystack.
    SearchInput,
    /// Tests whether the text as a haystack has a match.
    IsMatch,
    /// Scans the text in pieces.
    Scan,
    /// Walks by steps.
    Steps,
}

/// Makes a call through a new cache of at most `limit` states, and again through the same cache,
/// also if the first one fails. Returns whether no allocation failed.
pub fn make<R: Abort + AllocGlobal, A: Allocator + Copy>(
    rt: &R,
    alloc: A,
    row: &Row,
    call: Call,
    limit: usize,
) -> bool {
    let mut lazy = Lazy::new(alloc, &row.nfa, row.kind, limit);
    let is_sound = make_once(rt, &mut lazy, row, call);
    make_once(rt, &mut lazy, row, call) && is_sound
}

/// Makes a call through a cache, and returns whether no allocation failed.
fn make_once<R: Abort + AllocGlobal, A: Allocator + Copy>(
    rt: &R,
    lazy: &mut Lazy<'_, Global, A>,
    row: &Row,
    call: Call,
) -> bool {
    let (start, place) = (lazy.nfa().start_anchored(), &row.place);
    let (behind, text, ahead) = (place.behind, place.text.as_slice(), place.ahead);
    match call {
        Call::Walk if ahead.is_none() => row.is_walk(rt, lazy.walk(start, behind, text)),
        Call::Walk => row.is_walk(rt, lazy.walk_between(start, behind, text, ahead)),
        Call::Search => row.is_last(rt, lazy.search(start, behind, text, ahead)),
        Call::SearchInput => row.is_last(rt, lazy.search_input(&input(text))),
        Call::IsMatch => match lazy.is_match(&input(text)) {
            Ok(found) => {
                same(rt, found, !row.output.ends_with("none\n"));
                true
            }
            Err(_) => false,
        },
        Call::Scan => scan(rt, lazy, row),
        Call::Steps => walk_by_steps(rt, lazy, row),
    }
}

/// Returns the input of an anchored search of a text.
fn input(text: &[u8]) -> Input<'_>
    ensures { has_start result.anchored ≡ true }
{
    Input::new(text).anchored(Anchored::Yes)
}

/// Scans the text of a walk in pieces of two bytes, and a piece again if that fails. The match must
/// be the last one of the walk. Returns whether no call failed.
fn scan<R: Abort + AllocGlobal, A: Allocator + Copy>(
    rt: &R,
    lazy: &mut Lazy<'_, Global, A>,
    row: &Row,
) -> bool {
    let start = lazy.nfa().start_anchored();
    let Ok(mut scan) = lazy.scan(start, row.place.behind) else {
        return false;
    };
    let mut is_sound = true;
    for piece in row.place.text.as_slice().chunks(2) {
        let is_fed = lazy.feed(&mut scan, piece).is_ok();
        if !is_fed && lazy.feed(&mut scan, piece).is_err() {
            return false;
        }
        is_sound &= is_fed;
    }
    row.is_last(rt, lazy.finish(&scan, row.place.ahead)) && is_sound
}

/// Walks by steps, and takes a step again if it fails. Each state must be that of the walk. Returns
/// whether no call failed.
fn walk_by_steps<R: Abort + AllocGlobal, A: Allocator + Copy>(
    rt: &R,
    lazy: &mut Lazy<'_, Global, A>,
    row: &Row,
) -> bool {
    let start = lazy.nfa().start_anchored();
    let Ok(mut walker) = lazy.walker(start, row.place.behind) else {
        return false;
    };
    let mut is_sound = true;
    for index in 0..row.output.lines().count().saturating_sub(1) {
        row.expect(rt, index, walker.state().as_bytes());
        let is_stepped = lazy.next(&mut walker, row.unit(index)).is_ok();
        if !is_stepped && lazy.next(&mut walker, row.unit(index)).is_err() {
            return false;
        }
        is_sound &= is_stepped;
    }
    is_sound
}

#[test]
fn walks_and_searches(rt: HostRuntime) {
    for row in rows(&rt).iter() {
        for limit in [0, 1, 2, 64] {
            for call in [Call::Walk, Call::Search, Call::Scan, Call::Steps] {
                fail_each_in_turn(&rt, Trial::Cached(row, call, limit));
            }
            // A haystack has no bytes around it, and a reverse NFA reads it from its end.
            let (behind, ahead) = (row.place.behind, row.place.ahead);
            if behind.is_none() && ahead.is_none() && !row.nfa.is_reverse() {
                fail_each_in_turn(&rt, Trial::Cached(row, Call::SearchInput, limit));
                fail_each_in_turn(&rt, Trial::Cached(row, Call::IsMatch, limit));
            }
        }
    }
}

/// Walks twice over a text through a cache of two states.
fn walk_twice<R: Abort, A: Allocator + Copy>(rt: &R, alloc: A, nfa: &NFA, text: &[u8]) {
    let mut lazy = Lazy::new(alloc, nfa, MatchKind::All, 2);
    for _ in 0..2 {
        let start = lazy.nfa().start_anchored();
        let states = lazy.walk(start, None, text);
        let count = states.expect(rt, "memory").len();
        same(rt, count, text.len().saturating_add(2));
    }
    holds(rt, lazy.computed() >= 6_000);
}

/// The NFA has a loop of three states, over `a`, `b` and `c`, and a cache of two states keeps no
/// transition until it is used again. The states of these walks are stored inline. So only these
/// grow: the two lists of states, at most 13 times each if they double, and the sets, the stack,
/// the builder and the table of the cache, a few times each. A walk that allocated any of them in
/// each step would make 3000 requests.
#[test]
fn growths_of_long_walks(rt: HostRuntime) {
    let nfa = nfa(&rt, "B:61>1 B:62>2 B:63>0", "dir=fwd");
    let text = repeated(&rt, "", "abc", 1_000, "");
    let heap = FailingAllocator::after(rt.alloc(), u64::MAX);
    heap.begin();
    walk_twice(&rt, &heap, &nfa, text.as_str().as_bytes());
    heap.end();
    holds(&rt, heap.asked() <= 100);
}
