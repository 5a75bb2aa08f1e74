//! A lexer: the longest token at each position of a text, by anchored searches through one cache.

ghost use Rattle.std.specs.Prelude.{◌≡◌, ◌≤◌, All, IfOk, IfSome, false, length};
ghost use Rattle.determinize_below.specs.declared.search.MatchKind.TheVariants as kinds;
ghost use Rattle.determinize_uses.specs.Tokens.{IsLongest};

use determinize_below::search::Match;
use determinize_below::{Anchored, Input};
use determinize_lazy::Lazy;
use std::alloc::{AllocError, Allocator};

/// Returns the longest token that begins at this index, or `None` if no pattern matches there. Its
/// pattern is the best one of those that match up to its end. The cache must be for
/// `MatchKind::All`, and its NFA must read forward.
pub fn token<N: Allocator, A: Allocator + Copy>(
    lazy: &mut Lazy<'_, N, A>,
    text: &[u8],
    at: usize,
) -> Result<Option<Match>, AllocError>
    requires kind { lazy.old.kind ≡ kinds.All }
    requires forward { lazy.old.nfa.reverse ≡ false }
    requires at { at ≤ length text.now }
    ensures longest { IfOk result
        (λ found. IfSome found (λ m. IsLongest lazy.old.nfa text.now m)) }
    ensures within { IfOk result (λ found. IfSome found
        (λ m. (m.start ≡ at) × (at ≤ m.end) × (m.end ≤ length text.now))) }
    ensures nfa { lazy.new.nfa ≡ lazy.old.nfa }
    ensures kind { lazy.new.kind ≡ lazy.old.kind }
{
    let rest = Input::new(text)
        .range(at..text.len())
        .anchored(Anchored::Yes);
    let Some(last) = lazy.search_input(&rest)? else {
        return Ok(None);
    };
    Ok(Some(Match {
        pattern: last.pattern,
        start: at,
        end: last.offset,
    }))
}

/// Returns the tokens of a text, each of which begins where the one before it ends. They end with
/// the text, or where no token of at least one byte begins.
pub fn tokens<N: Allocator, A: Allocator + Copy>(
    alloc: A,
    lazy: &mut Lazy<'_, N, A>,
    text: &[u8],
) -> Result<Vec<Match, A>, AllocError>
    requires kind { lazy.old.kind ≡ kinds.All }
    requires forward { lazy.old.nfa.reverse ≡ false }
    ensures longest { IfOk result
        (λ found. All (λ (m : Match). IsLongest lazy.old.nfa text.now m) found.items) }
{
    let mut found = Vec::new(alloc);
    let mut at = 0;
    for _ in 0..text.len() {
        match token(lazy, text, at)? {
            Some(next) if next.end > at => {
                at = next.end;
                found.push(next)?;
            }
            _ => return Ok(found),
        }
    }
    Ok(found)
}
