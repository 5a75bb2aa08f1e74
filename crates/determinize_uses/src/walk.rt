//! A walk without a cache, with a contract that speaks of runs only.

ghost use Rattle.std.specs.Prelude.{◌≡◌, ◌<◌, ℕ, List, length, IfOk, IfSome, None};
ghost use Rattle.determinize_below.specs.Semantics.{Accepts, IsPreferredRun, between};

use determinize_below::{HalfMatch, MatchKind, NFA, StateID};
use determinize_core::determinize::{last_match, walk};
use std::alloc::{AllocError, Allocator};

/// Returns the pattern and the end of the most preferred match that starts where the text starts,
/// or `None` if there is no match.
pub fn preferred<N: Allocator, A: Allocator + Copy>(
    alloc: A,
    nfa: &NFA<N>,
    start: StateID,
    text: &[u8],
) -> Result<Option<HalfMatch>, AllocError>
    requires { start < length nfa.now.states }
    ensures found { IfOk result (λ found. IfSome found (λ m. (cs : List ℕ)
        × IsPreferredRun nfa.now (between None text.now None) start cs m.offset m.pattern)) }
    ensures none { IfOk result (λ found. found ≡ None → (cs : List ℕ) (i pattern : ℕ)
        → Accepts nfa.now (between None text.now None) start cs i pattern → ⊥) }
{
    let states = walk(alloc, nfa, MatchKind::LeftmostFirst, start, None, text)?;
    let found = last_match(states.as_slice());
    Ok(found)
}
