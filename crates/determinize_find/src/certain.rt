//! Which match of a scan is certain, so that a caller need not wait for the bytes that follow.

ghost use Rattle.std.specs.Prelude.{◌≡◌, ◌≤◌};
ghost use Rattle.std.specs.Option.{IfSome};
ghost use Rattle.determinize_find.specs.Certain.{certain_match};

use determinize_below::nfa::state::State;
use determinize_below::{HalfMatch, NFA};
use determinize_lazy::Scan;
use std::alloc::Allocator;

/// Returns the pattern and the end of the match of a scan if nothing that follows can change it: if
/// no NFA state is left, those of the last match; or if the first NFA state is a `Match`, its
/// pattern, and the number of bytes so far.
///
/// The scan must be one of `MatchKind::LeftmostFirst` for this NFA. Then it is the match of each
/// text that begins with the bytes so far (`laws::certain_law`). `None` does not mean that the
/// match may still change.
pub fn certain_match<N: Allocator, A: Allocator>(nfa: &NFA<N>, scan: &Scan<A>) -> Option<HalfMatch>
    ensures value { result ≡ certain_match nfa.now scan.now }
    ensures within { IfSome result (λ m. m.offset ≤ scan.now.read) }
{
    let Some(first) = scan.state().iter_nfa_state_ids().next() else {
        return scan.last();
    };
    if first.as_usize() >= nfa.len() {
        return None;
    }
    match nfa.state(first) {
        State::Match { pattern_id } => Some(HalfMatch {
            pattern: *pattern_id,
            offset: scan.bytes_read(),
        }),
        _ => None,
    }
}
