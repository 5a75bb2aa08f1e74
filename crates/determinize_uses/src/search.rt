//! Searches of many texts through one cache.

ghost use Rattle.std.specs.Prelude.{◌≡◌, map, IfOk, None};
ghost use Rattle.determinize_below.specs.Semantics.{between};
ghost use Rattle.determinize_below.specs.declared.search.MatchKind.TheVariants as kinds;
ghost use Rattle.determinize_core.specs.Chain.{chain};
ghost use Rattle.determinize_core.specs.LastMatch.{last_match};

use determinize_below::{HalfMatch, MatchKind, NFA};
use determinize_lazy::Lazy;
use std::alloc::{AllocError, Allocator};

/// Returns the preferred match of each text from its beginning, through one cache of at most
/// `limit` states: the matches of walks without a cache.
pub fn matches<N: Allocator, A: Allocator + Copy>(
    alloc: A,
    nfa: &NFA<N>,
    texts: &[&[u8]],
    limit: usize,
) -> Result<Vec<Option<HalfMatch>, A>, AllocError>
    ensures { IfOk result (λ found. found.items ≡ map (λ text. last_match (chain nfa.now
        kinds.LeftmostFirst nfa.now.start_anchored (between None text.now None))) texts.now) }
{
    let mut lazy = Lazy::new(alloc, nfa, MatchKind::LeftmostFirst, limit);
    let start = lazy.nfa().start_anchored();
    let mut found = Vec::new(alloc);
    for text in texts {
        found.push(lazy.search(start, None, text, None)?)?;
    }
    Ok(found)
}
