//! A scanner that never allocates while it runs: over whole DFAs, which are built in advance. Other
//! scanners may use the same DFAs.

ghost use Rattle.std.specs.Prelude.{◌≡◌, IfOk, None, length};
ghost use Rattle.determinize_below.specs.declared.search.Anchored.TheVariants.{No};
ghost use Rattle.determinize_find.specs.Cursors.{after_match};
ghost use Rattle.determinize_find.specs.Matches.{AreMatches, IsNext};

use determinize_below::{AsNfa, Input};
use determinize_dense::Dfa;
use determinize_find::{Match, Regex, Searcher};
use std::alloc::{AllocError, Allocator};

/// Returns the next match, and moves the cursor behind it. Does not allocate, and cannot fail.
pub fn next<F: AsNfa, B: AsNfa, A: Allocator + Copy>(
    scanner: &mut Regex<&Dfa<F, A>, &Dfa<B, A>>,
    searcher: &mut Searcher<'_>,
) -> Option<Match>
    ensures next { IsNext scanner.old.nfa searcher.old.asked searcher.old.before result }
    ensures after { searcher.new ≡ after_match searcher.old result }
    ensures same { scanner.new ≡ scanner.old }
{
    let Ok(found) = searcher.advance(scanner);
    found
}

/// Returns all matches of a haystack. Only the list is allocated.
pub fn matches<F: AsNfa, B: AsNfa, A: Allocator + Copy>(
    alloc: A,
    scanner: &mut Regex<&Dfa<F, A>, &Dfa<B, A>>,
    haystack: &[u8],
) -> Result<Vec<Match, A>, AllocError>
    ensures all { IfOk result (λ found. AreMatches scanner.old.nfa record {
      haystack = haystack.now;
      start = 0;
      end = length haystack.now;
      anchored = No;
    } None found.items) }
    ensures same { scanner.new ≡ scanner.old }
{
    scanner.find_all(alloc, &Input::new(haystack))
}
