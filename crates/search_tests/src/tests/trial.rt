//! What is done while each allocation fails in turn.

use crate::tests::find::{self, Search};
use crate::tests::{dense, same, uses};
use determinize_below::MatchKind;
use failing_alloc::{FailingAllocator, Outcome, fail_each_allocation};
use std::alloc::{AllocError, Allocator, Global};
use std::process::Abort;

/// A trial: it runs with an allocator that may fail, and compares what it finds.
#[derive(Drop)]
pub enum Trial<'r> {
    /// Builds NFAs.
    Build,
    /// Finds the matches of a row by a `Plain`, through a cache of this limit.
    SearchPlain(&'r find::Row<'r>, usize, Search),
    /// Finds the matches of a row by a `Regex`, through caches of this limit.
    Search(&'r find::Row<'r>, usize, Search),
    /// Builds the whole DFA of a row under a match kind, minimizes it, and counts states.
    Minimize(&'r dense::Row, MatchKind, dense::Counts),
}

/// Makes a trial. Returns an error if an allocation failed, also if the call that failed was made
/// again.
fn run<R: Abort + AllocGlobal, A: Allocator + Copy>(
    rt: &R,
    alloc: A,
    trial: &Trial<'_>,
) -> Result<(), AllocError> {
    match *trial {
        Trial::Build => uses::build(rt, alloc),
        Trial::SearchPlain(row, limit, search) => {
            find::search_plain(rt, alloc, row, limit, search)
        }
        Trial::Search(row, limit, search) => find::search_regex(rt, alloc, row, limit, search),
        Trial::Minimize(row, kind, counts) => {
            dense::build_and_minimize(rt, alloc, row, kind, counts)
        }
    }
}

/// Makes a trial while the allocator may fail, and returns whether no allocation failed.
fn has_run<R: Abort + AllocGlobal>(
    rt: &R,
    heap: &FailingAllocator<Global>,
    trial: &Trial<'_>,
) -> Result<bool, AllocError> {
    heap.begin();
    let outcome = run(rt, heap, trial);
    heap.end();
    Ok(outcome.is_ok())
}

/// Repeats a trial with its first allocation failing, then its second, and so on, until there is no
/// failure. Each time it must find the known result or report the failed allocation, and all memory
/// must have been freed.
pub fn fail_each_in_turn<R: Abort + AllocGlobal>(rt: &R, trial: &Trial<'_>) {
    let outcome = fail_each_allocation(rt.alloc(), |heap| has_run(rt, heap, trial));
    same(rt, outcome.expect(rt, "no error"), Outcome::Sound);
}

#[test]
fn builds(rt: HostRuntime) {
    fail_each_in_turn(&rt, &Trial::Build);
    for row in &dense::ROWS {
        for &(kind, counts) in &row.counts {
            fail_each_in_turn(&rt, &Trial::Minimize(row, kind, counts));
        }
    }
}
