//! Facts about the definitions of closures and about constants and clones, as contracts of public
//! functions.

ghost use Rattle.std.specs.Prelude.{◌≡◌, IfOk, IsOk};
ghost use Rattle.determinize_below.specs.ReachLaws.{EachNfaReachIsInOrder, EachNfaReachIsOne, EachNfaReachIsInTurn, EachReachIsPastNothing};

use crate::look::LookMatcher;
use crate::primitives::{ID_LIMIT, PatternID, StateID};
use crate::search::Input;
pub use ordered_reach::laws::reach_law;
use std::alloc::AllocError;

/// States the laws of [`reach_law`] of a valid NFA, for any roots and any set of states visited
/// before. With nothing visited, `reach` is `reach_past` of the empty list.
pub fn nfa_reach_law()
    ensures in_order { EachNfaReachIsInOrder }
    ensures only { EachNfaReachIsOne }
    ensures in_turn { EachNfaReachIsInTurn }
    ensures nothing_held { EachReachIsPastNothing }
{}

/// Returns the smallest id of a state, the greatest id, and the size of an id in bytes.
pub fn state_id_law() -> (StateID, StateID, usize)
    ensures zero { result.0 ≡ 0 }
    ensures max { result.1 ≡ 2147483646 }
    ensures size { result.2 ≡ 4 }
{
    (StateID::ZERO, StateID::MAX, StateID::SIZE)
}

/// Returns the number of ids, which is the greatest number of states of an NFA.
pub fn id_limit_law() -> usize
    ensures { result ≡ 2147483647 }
{
    ID_LIMIT
}

/// Returns the smallest id of a pattern, the greatest id, and the size of an encoded id in bytes.
pub fn pattern_id_law() -> (PatternID, PatternID, usize)
    ensures zero { result.0 ≡ 0 }
    ensures max { result.1 ≡ 2147483646 }
    ensures size { result.2 ≡ 4 }
{
    (PatternID::ZERO, PatternID::MAX, PatternID::SIZE)
}

/// Returns clones of a matcher and of an input. They are equal to the originals, and nothing is
/// allocated, so it never fails.
pub fn clone_law<'h>(
    matcher: &LookMatcher,
    input: &Input<'h>,
) -> Result<(LookMatcher, Input<'h>), AllocError>
    ensures succeeds { IsOk result }
    ensures matcher { IfOk result (λ r. r.0 ≡ matcher.now) }
    ensures input { IfOk result (λ r. r.1 ≡ input.now) }
{
    Ok((matcher.clone()?, input.clone()?))
}
