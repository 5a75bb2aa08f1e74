//! Places of a scan before which no match begins, so that a caller may drop the bytes up to there.

ghost use Rattle.std.specs.Bool.{Decides};
ghost use Rattle.determinize_find.specs.Idle.{IsIdle};

use determinize_below::NFA;
use determinize_lazy::Scan;
use std::alloc::Allocator;

/// Returns whether a scan has no match so far and none under way: its first NFA state is the
/// unanchored start.
///
/// The scan must be one of `MatchKind::LeftmostFirst` from the unanchored start of this NFA, which
/// must have the usual prefix apart (`has_prefix_apart`). Then no match begins before the bytes
/// that follow (`laws::idle_law`).
pub fn is_idle<N: Allocator, A: Allocator>(nfa: &NFA<N>, scan: &Scan<A>) -> bool
    ensures { Decides result (IsIdle nfa.now scan.now) }
{
    let first = scan.state().iter_nfa_state_ids().next();
    scan.last().is_none() && first == Some(nfa.start_unanchored())
}
