//! An NFA made by a `Builder`.

ghost use Rattle.std.specs.Prelude.{◌≡◌, false, IfOk};
ghost use Rattle.determinize_nfa.specs.Prefix.{HasPrefix};

use determinize_below::nfa::BuildError;
use determinize_below::{NFA, Transition};
use determinize_nfa::Builder;
use std::alloc::Allocator;

/// Returns the NFA of `[0-9]+` after the prefix that passes over any bytes.
pub fn digits<A: Allocator + Copy>(alloc: A) -> Result<NFA<A>, BuildError>
    ensures prefix { IfOk result (λ nfa. HasPrefix nfa) }
    ensures forward { IfOk result (λ nfa. nfa.reverse ≡ false) }
{
    let mut builder = Builder::new(alloc);
    let next = builder.add_union(&[])?;
    let (start, end) = (b'0', b'9');
    let digit = builder.add_range(Transition { start, end, next })?;
    let done = builder.add_match()?;
    builder.close(next, &[digit, done])?;
    builder.build_with_prefix(digit)
}
