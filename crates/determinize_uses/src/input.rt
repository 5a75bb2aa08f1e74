//! Whether a haystack has a match.

ghost use Rattle.std.specs.Prelude.{length, Decides, IfOk};
ghost use Rattle.determinize_below.specs.declared.search.Anchored.TheVariants.{No};
ghost use Rattle.determinize_engine.specs.Searches.{HasMatch};

use determinize_below::Input;
use determinize_lazy::Lazy;
use std::alloc::{AllocError, Allocator};

/// Returns whether the haystack contains a match: whether some run over it accepts.
pub fn contains<N: Allocator, A: Allocator + Copy>(
    lazy: &mut Lazy<'_, N, A>,
    haystack: &[u8],
) -> Result<bool, AllocError>
    ensures accepts { IfOk result (λ found. Decides found (HasMatch lazy.old.nfa record {
      haystack = haystack.now;
      start = 0;
      end = length haystack.now;
      anchored = No;
    })) }
{
    lazy.is_match(&Input::new(haystack))
}
