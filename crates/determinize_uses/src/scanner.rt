//! A scanner: all matches of a haystack, with both of their ends.

ghost use Rattle.std.specs.Prelude.{◌≡◌, IfOk, None, false, length};
ghost use Rattle.determinize_below.specs.declared.search.Anchored.TheVariants.{No};
ghost use Rattle.determinize_find.specs.Matches.{AreMatches};

use determinize_below::{Input, MatchKind, NFA};
use determinize_find::{Match, Plain, find_all};
use determinize_lazy::Lazy;
use std::alloc::{AllocError, Allocator};

/// Returns all matches of a haystack, with their patterns and both of their ends.
pub fn matches<N: Allocator, A: Allocator + Copy>(
    alloc: A,
    nfa: &NFA<N>,
    haystack: &[u8],
) -> Result<Vec<Match, A>, AllocError>
    requires { nfa.now.reverse ≡ false }
    ensures { IfOk result (λ found. AreMatches nfa.now record {
      haystack = haystack.now;
      start = 0;
      end = length haystack.now;
      anchored = No;
    } None found.items) }
{
    let lazy = Lazy::new(alloc, nfa, MatchKind::LeftmostFirst, 1000);
    find_all(alloc, &mut Plain::new(nfa, lazy), &Input::new(haystack))
}
