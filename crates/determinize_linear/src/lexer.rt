//! The tokens of an input by longest match, in a number of steps linear in its length, for a given
//! DFA.
//!
//! A walk from where a token begins may read far past its end. The next walk begins there, is at
//! the same bytes again, and ends where it comes to a pair of a position and a row that was marked,
//! as those of [`crate::dense`] do: after the end of the token no match was listed.

ghost use Rattle.std.specs.Prelude.{◌≡◌, ◌≤◌, ◌-◌, ◌+◌, IfOk, IsTrue, false, length};
ghost use Rattle.determinize_below.specs.Semantics.{Nfa};
ghost use Rattle.determinize_below.specs.declared.search.MatchKind.TheVariants as kinds;
ghost use Rattle.determinize_linear.specs.Tokens.{AreTokens, least_steps};
ghost use Rattle.determinize_linear.specs.Tries.{most_steps};

use crate::dense::{new_marks, walk_from};
use crate::in_turn::push_moved;
use crate::starts::begin_alike;
use crate::tries::{Counter, Tries};
use determinize_below::{Input, Match};
use determinize_dense::Automaton;
use determinize_engine::text::Text;
use std::alloc::{AllocError, Allocator};
use std::sync::ledger::Ledger;

/// Returns the tokens of an input, counted or not.
fn tokens_with<D: Automaton, A: Allocator + Copy, C: Counter>(
    alloc: A,
    dfa: &D,
    input: &Input<'_>,
    counter: &mut C,
) -> Result<Vec<Match, A>, AllocError>
    requires forward { (D.stored dfa.now).reverse ≡ false }
    requires kind { (D.stored dfa.now).kind ≡ kinds.All }
    ensures tokens { (nfa : Nfa) → D.is_of dfa.now nfa
        → IfOk result (λ found. AreTokens nfa input.now found.items) }
    ensures linear { IsTrue C.counts → C.total counter.new ≤ C.total counter.old
        + most_steps (D.stored dfa.now).table (input.now.end - input.now.start) }
    ensures counted { IsTrue C.counts → IfOk result
        (λ found. C.total counter.old + least_steps input.now found.items ≤ C.total counter.new) }
{
    let base = input.start();
    let mut found = Vec::new(alloc);
    if base > input.end() {
        return Ok(found);
    }
    let text = Text::of_input(input, false);
    let begin_alike = begin_alike(dfa, &text);
    let mut marks = new_marks(alloc, dfa, &text)?;
    let mut at = 0;
    while at < text.len() {
        match walk_from(dfa, &text, at, begin_alike, &mut marks, counter) {
            Some(next) if next.offset > at => {
                push_moved(&mut found, base, at, &next)?;
                at = next.offset;
            }
            _ => return Ok(found),
        }
    }
    Ok(found)
}

/// Returns the tokens of an input: each begins where the one before it ends, and is the longest
/// match there, of the pattern that is preferred of those that match up to its end.
///
/// The DFA must be for `MatchKind::All`, and its NFA must read forward; it needs no prefix. A token
/// has one byte or more: the list ends with the range, or where no match or only an empty one
/// begins. The anchored mode of the input makes no difference. The bytes next to the range are seen
/// by assertions. The number of steps is linear in the length of the range, as [`tokens_counted`]
/// says, and so is the memory, as of [`crate::dense::find_all`].
pub fn tokens<D: Automaton, A: Allocator + Copy>(
    alloc: A,
    dfa: &D,
    input: &Input<'_>,
) -> Result<Vec<Match, A>, AllocError>
    requires forward { (D.stored dfa.now).reverse ≡ false }
    requires kind { (D.stored dfa.now).kind ≡ kinds.All }
    ensures { (nfa : Nfa) → D.is_of dfa.now nfa
        → IfOk result (λ found. AreTokens nfa input.now found.items) }
{
    tokens_with(alloc, dfa, input, &mut ())
}

/// Returns the same as [`tokens`], and counts the steps from one row to the next. On error too,
/// they are at most `(rows + 4) * (bytes + 2)`, for the rows of the DFA and the bytes of the range.
/// On success they are at least one for each token and one for each byte that they cover, and one
/// more if the list ends before the range does.
pub fn tokens_counted<D: Automaton, A: Allocator + Copy, L: Ledger>(
    alloc: A,
    dfa: &D,
    input: &Input<'_>,
    steps: &mut Tries<L>,
) -> Result<Vec<Match, A>, AllocError>
    requires forward { (D.stored dfa.now).reverse ≡ false }
    requires kind { (D.stored dfa.now).kind ≡ kinds.All }
    ensures tokens { (nfa : Nfa) → D.is_of dfa.now nfa
        → IfOk result (λ found. AreTokens nfa input.now found.items) }
    ensures linear { steps.new ≤ steps.old
        + most_steps (D.stored dfa.now).table (input.now.end - input.now.start) }
    ensures counted { IfOk result
        (λ found. steps.old + least_steps input.now found.items ≤ steps.new) }
{
    tokens_with(alloc, dfa, input, steps)
}
