//! An NFA by hand, with contracts that say which states it has.

ghost use Rattle.std.specs.Prelude.{◌≡◌, [], ◌∷◌, IfErr, IfOk, false};
ghost use Rattle.determinize_below.specs.Semantics as nodes;
ghost use Rattle.determinize_below.specs.Node.{node_of};

use determinize_below::nfa::State;
use determinize_below::{BuildError, LookMatcher, NFA, PatternID, StateID, Transition};
use std::alloc::Allocator;

/// Returns a state with a transition on each byte from `start` to `end`.
fn range<A: Allocator>(start: u8, end: u8, next: u8) -> State<A>
    ensures { node_of result
        ≡ nodes.ByteRange record { start = start; end = end; next = next } }
{
    let next = StateID::must(usize::from(next));
    State::ByteRange {
        trans: Transition { start, end, next },
    }
}

/// Returns a state with epsilon transitions to two states, of which `first` is preferred.
fn either<A: Allocator>(first: u8, second: u8) -> State<A>
    ensures { node_of result ≡ nodes.BinaryUnion first second }
{
    State::BinaryUnion {
        alt1: StateID::must(usize::from(first)),
        alt2: StateID::must(usize::from(second)),
    }
}

/// Returns the NFA of `[0-9]+`.
///
/// State 2 is the anchored start state. State 0 is the unanchored one, a loop over any byte that
/// prefers to begin a match. Returns `OutOfMemory` if an allocation fails, and no other error.
pub fn digits<A: Allocator + Copy>(alloc: A) -> Result<NFA<A>, BuildError>
    ensures states { IfOk result (λ nfa. nfa.states ≡ nodes.BinaryUnion 2 1
        ∷ nodes.ByteRange record { start = 0; end = 255; next = 0 }
        ∷ nodes.ByteRange record { start = 48; end = 57; next = 3 }
        ∷ nodes.BinaryUnion 2 4
        ∷ nodes.Match 0 ∷ []) }
    ensures forward { IfOk result (λ nfa. nfa.reverse ≡ false) }
    ensures err { IfErr result (λ error. error ≡ BuildError.OutOfMemory) }
{
    let pattern_id = PatternID::ZERO;
    let mut states = Vec::new(alloc);
    states.push(either(2, 1))?;
    states.push(range(0, 255, 0))?;
    states.push(range(b'0', b'9', 3))?;
    states.push(either(2, 4))?;
    states.push(State::Match { pattern_id })?;
    let (anchored, anywhere) = (StateID::must(2), StateID::ZERO);
    let matcher = LookMatcher::new();
    let nfa = NFA::from_parts(alloc, states, anchored, anywhere, false, matcher)?;
    Ok(nfa)
}
