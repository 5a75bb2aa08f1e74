//! Values by hand: ids in a set, assertions, a start kind, a closure and a state.

ghost use Rattle.std.specs.Prelude.{◌≡◌, ◌∷◌, ◌<◌, [], IfOk, length, true};
ghost use Rattle.determinize_core.specs.Closure.{closure_of};

use determinize_below::{Input, Look, LookMatcher, LookSet, NFA, PatternID, SparseSet, StateID};
use determinize_core::determinize::epsilon_closure;
use determinize_core::start::{Config, Start, StartByteMap};
use determinize_core::state::{State, StateBuilderEmpty};
use std::alloc::{AllocError, Allocator};

/// Returns the set of the ids 3 and 1, in the order of their insertion.
pub fn ids<A: Allocator + Copy>(alloc: A) -> Result<SparseSet<A>, AllocError>
    ensures { IfOk result (λ set. set.ids ≡ 3 ∷ 1 ∷ []) }
{
    let mut set = SparseSet::new(alloc, 5)?;
    set.insert(StateID::must(3));
    set.insert(StateID::must(1));
    set.insert(StateID::must(3));
    Ok(set)
}

/// Returns the set of a boundary of a word and the start of a line.
pub fn assertions() -> LookSet {
    LookSet::empty()
        .insert(Look::WordAscii)
        .insert(Look::StartLF)
}

/// Returns the start kind of a forward search, by the byte before its range.
pub fn start_kind(matcher: &LookMatcher, input: &Input<'_>) -> Start {
    match Config::from_input_forward(input).get_look_behind() {
        Some(byte) => StartByteMap::new(matcher).get(byte),
        None => Start::Text,
    }
}

/// Returns the epsilon closure of an NFA state under no assertion: the states that it reaches
/// without a byte, most preferred first.
pub fn closure<N: Allocator, A: Allocator + Copy>(
    alloc: A,
    nfa: &NFA<N>,
    start: StateID,
) -> Result<SparseSet<A>, AllocError>
    requires { start < length nfa.now.states }
    ensures { IfOk result (λ set. set.ids ≡ closure_of nfa.now 0 [] start) }
{
    let mut set = SparseSet::new(alloc, nfa.len())?;
    let mut stack = Vec::new(alloc);
    epsilon_closure(nfa, start, LookSet::empty(), &mut stack, &mut set)?;
    Ok(set)
}

/// Returns the state that was entered by a word byte, in which the patterns 1 and 0 match, and
/// which has the NFA states 1, 3 and 2.
pub fn state<A: Allocator + Copy>(alloc: A) -> Result<State<A>, AllocError>
    ensures from_word { IfOk result (λ state. state.from_word ≡ true) }
    ensures patterns { IfOk result (λ state. state.patterns ≡ 1 ∷ 0 ∷ []) }
    ensures states { IfOk result (λ state. state.states ≡ 1 ∷ 3 ∷ 2 ∷ []) }
{
    let mut matches = StateBuilderEmpty::new(alloc).into_matches()?;
    matches.set_is_from_word();
    matches.add_match_pattern_id(PatternID::must(1))?;
    matches.add_match_pattern_id(PatternID::ZERO)?;
    let mut builder = matches.into_nfa();
    builder.set_look_need(|need| need.insert(Look::WordAscii));
    builder.add_nfa_state_id(StateID::must(1))?;
    builder.add_nfa_state_id(StateID::must(3))?;
    builder.add_nfa_state_id(StateID::must(2))?;
    builder.to_state()
}
