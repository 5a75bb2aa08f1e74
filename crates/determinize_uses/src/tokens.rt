//! A lexer in linear time: the longest token at each position of a text, by a whole DFA. The
//! searches of [`crate::lexer`] may take quadratic time.

ghost use Rattle.std.specs.Prelude.{◌≡◌, IfOk, false, length};
ghost use Rattle.determinize_below.specs.declared.search.Anchored.TheVariants.{No};
ghost use Rattle.determinize_below.specs.declared.search.MatchKind.TheVariants as kinds;
ghost use Rattle.determinize_linear.specs.Tokens.{AreTokens};

use crate::dfa::smallest;
use determinize_below::{AsNfa, Input, Match, MatchKind};
use determinize_dense::{Dfa, DfaError};
use determinize_linear::lexer;
use std::alloc::{AllocError, Allocator};

/// Returns a DFA for the tokens of an NFA, which has a pattern for each kind of token.
pub fn lexer_of<R: AsNfa, A: Allocator + Copy>(alloc: A, nfa: R) -> Result<Dfa<R, A>, DfaError>
    ensures nfa { IfOk result (λ dfa. dfa.nfa ≡ R.nfa nfa) }
    ensures kind { IfOk result (λ dfa. dfa.kind ≡ kinds.All) }
{
    smallest(alloc, nfa, MatchKind::All, 10_000)
}

/// Returns the tokens of a text, each of which begins where the one before it ends. They end with
/// the text, or where no token of at least one byte begins.
pub fn tokens<R: AsNfa, M: Allocator + Copy, A: Allocator + Copy>(
    alloc: A,
    dfa: &Dfa<R, M>,
    text: &[u8],
) -> Result<Vec<Match, A>, AllocError>
    requires kind { dfa.now.kind ≡ kinds.All }
    requires forward { dfa.now.nfa.reverse ≡ false }
    ensures tokens { IfOk result (λ found. AreTokens dfa.now.nfa record {
      haystack = text.now;
      start = 0;
      end = length text.now;
      anchored = No;
    } found.items) }
{
    lexer::tokens(alloc, dfa, &Input::new(text))
}
