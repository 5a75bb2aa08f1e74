//! A walk through a cache, and the patterns at the end of a text.

ghost use Rattle.std.specs.Prelude.{◌≡◌, length, IfOk, IfSome, IsSome, None};
ghost use Rattle.determinize_below.specs.Semantics.{between};
ghost use Rattle.determinize_below.specs.declared.search.MatchKind.TheVariants as kinds;
ghost use Rattle.determinize_core.specs.Walk.{ListsAccepted};

use determinize_core::state::State;
use determinize_lazy::Lazy;
use std::alloc::{AllocError, Allocator};

/// Returns the state at the end of the text, which lists the patterns that match there, best first.
pub fn at_the_end<N: Allocator, A: Allocator + Copy>(
    lazy: &mut Lazy<'_, N, A>,
    text: &[u8],
) -> Result<Option<State<A>>, AllocError>
    requires { lazy.old.kind ≡ kinds.All }
    ensures listed { IfOk result (λ last. IfSome last (λ state. ListsAccepted lazy.old.nfa
        (between None text.now None) lazy.old.nfa.start_anchored (length text.now)
        state.patterns)) }
    ensures some { IfOk result (λ last. IsSome last) }
    ensures nfa { lazy.new.nfa ≡ lazy.old.nfa }
    ensures kind { lazy.new.kind ≡ lazy.old.kind }
{
    let start = lazy.nfa().start_anchored();
    let mut states = lazy.walk(start, None, text)?;
    let last = states.pop();
    Ok(last)
}
