//! A whole DFA with the fewest states, and the patterns that match at a position.

ghost use Rattle.std.specs.Prelude.{◌≡◌, ◌≤◌, IfOk, None, length, slice_get, take};
ghost use Rattle.determinize_below.specs.Semantics.{between};
ghost use Rattle.determinize_below.specs.declared.search.MatchKind.TheVariants as kinds;
ghost use Rattle.determinize_core.specs.Walk.{ListsAccepted};
ghost use Rattle.determinize_dense.specs.Least.{IsLeast};

use determinize_below::{Anchored, AsNfa, MatchKind, PatternID};
use determinize_dense::{Dfa, DfaError};
use std::alloc::Allocator;

/// Returns the smallest DFA of an NFA, in the sense of `Dfa::minimize`. Building it takes up to
/// `limit` states. The DFA owns the NFA if it is passed by value, and else borrows it.
pub fn smallest<R: AsNfa, A: Allocator + Copy>(
    alloc: A,
    nfa: R,
    kind: MatchKind,
    limit: usize,
) -> Result<Dfa<R, A>, DfaError>
    ensures nfa { IfOk result (λ dfa. dfa.nfa ≡ R.nfa nfa) }
    ensures kind { IfOk result (λ dfa. dfa.kind ≡ kind) }
    ensures least { IfOk result (λ dfa. IsLeast dfa.nfa dfa.table) }
{
    let dfa = Dfa::build(alloc, nfa, kind, limit)?;
    Ok(dfa.into_minimized(alloc)?)
}

/// Returns the patterns with a match that ends at an offset of the haystack and begins anywhere
/// before, most preferred first. Does not allocate.
pub fn patterns_at<'d, R: AsNfa, A: Allocator + Copy>(
    dfa: &'d Dfa<R, A>,
    haystack: &[u8],
    offset: usize,
) -> &'d [PatternID]
    requires kind { dfa.now.kind ≡ kinds.All }
    requires offset { offset ≤ length haystack.now }
    ensures { ListsAccepted dfa.now.nfa
        (between None (take offset haystack.now) (slice_get haystack.now offset))
        dfa.now.nfa.start_unanchored (length (take offset haystack.now)) result.now }
{
    let ahead = haystack.get(offset).copied();
    dfa.patterns_after(Anchored::No, None, &haystack[..offset], ahead)
}
