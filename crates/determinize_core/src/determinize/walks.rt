//! The start state, and walks: the states of a DFA over a text, from the start state on.

ghost use Rattle.std.specs.Prelude.{◌≡◌, ◌<◌, ◌+◌, ◌++◌, ◌∷◌, [], None, get_or, length, IfOk, OnOk};
ghost use Rattle.determinize_below.specs.Nfa.{AllResolve, IsAccepted};
ghost use Rattle.determinize_below.specs.Semantics.{between};
ghost use Rattle.determinize_below.specs.Unit.{byte_of};
ghost use Rattle.determinize_core.specs.Scratch.{IsScratch};
ghost use Rattle.determinize_core.specs.Step.{IsStartOf, start_value, step};
ghost use Rattle.determinize_core.specs.LastMatch as matches;
ghost use Rattle.determinize_core.specs.WholeWalk.{IsWalk};
ghost use Rattle.determinize_state.specs.Value.{dead};

use crate::determinize::scratch::Scratch;
use crate::determinize::transition::enter;
use determinize_below::{HalfMatch, MatchKind, NFA, SparseSets, StateID, Unit};
use determinize_start::look_tables::LookTables;
use determinize_start::start::{Start, start_kind_of};
use determinize_state::state::{State, StateBuilderEmpty, StateBuilderNFA};
use std::alloc::{AllocError, Allocator};
use std::slice;

/// Returns the state before the first unit, in a builder.
///
/// - `start` is the NFA state to start from, below the number of states.
/// - `look_behind` is the byte before the text in reading order, `None` at an end of the haystack.
/// - `sparses` and `stack` are scratch, as in [`crate::determinize::next`].
///
/// The state has the look-behind for that byte and the epsilon closure of `start`. It lists no
/// pattern, since matches are delayed by one unit. On error the builder is dropped.
pub fn start_state<N: Allocator, A: Allocator>(
    nfa: &NFA<N>,
    start: StateID,
    look_behind: Option<u8>,
    sparses: &mut SparseSets<A>,
    stack: &mut Vec<StateID, A>,
    empty_builder: StateBuilderEmpty<A>,
) -> Result<StateBuilderNFA<A>, AllocError>
    requires scratch { IsScratch nfa.now sparses.old.set1 sparses.old.set2 stack.old.items }
    requires resolve { start < length nfa.now.states }
    ensures ok { IfOk result (λ builder. builder ≡ start_value nfa.now start look_behind) }
    ensures resolve { IfOk result (λ builder. AllResolve nfa.now builder.states) }
    ensures scratch { IsScratch nfa.now sparses.new.set1 sparses.new.set2 stack.new.items }
{
    let terminator = nfa.look_matcher().get_line_terminator();
    let kind = start_kind_of(terminator, look_behind);
    start_state_of(nfa, start, kind, sparses, stack, empty_builder)
}

/// Returns the state before the first unit for a kind of start, as [`start_state`] does for each
/// byte of this kind.
pub(crate) fn start_state_of<N: Allocator, A: Allocator>(
    nfa: &NFA<N>,
    start: StateID,
    kind: Start,
    sparses: &mut SparseSets<A>,
    stack: &mut Vec<StateID, A>,
    empty_builder: StateBuilderEmpty<A>,
) -> Result<StateBuilderNFA<A>, AllocError>
    requires accepted { IsAccepted nfa.now }
    requires scratch { IsScratch nfa.now sparses.old.set1 sparses.old.set2 stack.old.items }
    requires resolve { start < length nfa.now.states }
    ensures ok { IfOk result (λ builder. IsStartOf nfa.now start kind builder) }
    ensures resolve { IfOk result (λ builder. AllResolve nfa.now builder.states) }
    ensures scratch { IsScratch nfa.now sparses.new.set1 sparses.new.set2 stack.new.items }
{
    let mut builder = empty_builder.into_matches()?.into_nfa();
    let look_behind = LookTables::of(nfa).at_start(kind);
    let first = slice::from_ref(&start);
    let set = &mut sparses.set1;
    let result = enter(nfa, look_behind, first, stack, set, &mut builder, &mut ());
    stack.clear();
    result?;
    Ok(builder)
}

/// Returns the states over a text that ends the haystack: [`walk_between`] with no byte ahead.
///
/// The last state has no NFA states, since no state has a transition on EOI.
pub fn walk<N: Allocator, A: Allocator + Copy>(
    alloc: A,
    nfa: &NFA<N>,
    match_kind: MatchKind,
    start: StateID,
    look_behind: Option<u8>,
    text: &[u8],
) -> Result<Vec<State<A>, A>, AllocError>
    requires { start < length nfa.now.states }
    ensures { IfOk result (λ states. IsWalk nfa.now match_kind start
        (between look_behind text.now None) states.items) }
{
    walk_between(alloc, nfa, match_kind, start, look_behind, text, None)
}

/// Returns the states over a text that may be a part of a haystack: the start state, then the state
/// after each byte, and last the state after the byte ahead of the text or EOI.
///
/// - `start` is the NFA state to start from, below the number of states. It may be any state, and
///   is mostly one of the two start states.
/// - `text` is the bytes in reading order: a reverse NFA takes them from the end of the haystack.
/// - `look_behind` is the byte before the text in reading order, `None` at an end of the haystack.
/// - `look_ahead` is the byte after the text in reading order, `None` at an end of the haystack. It
///   is only peeked: no match contains it.
///
/// There are `text.len() + 2` states. Matches are delayed by one unit: the state at index `j` lists
/// the patterns that match at position `j - 1` of the text, and the start state lists none. Under
/// `MatchKind::All` these are all patterns with a match that ends there, most preferred first.
/// Under `MatchKind::LeftmostFirst` a state lists at most one pattern, and the last one listed is
/// the pattern of the most preferred match, which ends there. If no state lists a pattern, there is
/// no match.
///
/// The states and all scratch memory are allocated from `alloc`.
pub fn walk_between<N: Allocator, A: Allocator + Copy>(
    alloc: A,
    nfa: &NFA<N>,
    match_kind: MatchKind,
    start: StateID,
    look_behind: Option<u8>,
    text: &[u8],
    look_ahead: Option<u8>,
) -> Result<Vec<State<A>, A>, AllocError>
    requires { start < length nfa.now.states }
    ensures { IfOk result (λ states. IsWalk nfa.now match_kind start
        (between look_behind text.now look_ahead) states.items) }
{
    let mut scratch = Scratch::new(alloc);
    let mut states = Vec::new(alloc);
    states.push(scratch.start(nfa, start, look_behind)?)?;
    for index in 0..text.len() {
        let unit = Unit::u8(text[index]);
        push_next(nfa, match_kind, &mut scratch, &mut states, index, unit)?;
    }
    let unit = Unit::from(look_ahead);
    push_next(nfa, match_kind, &mut scratch, &mut states, text.len(), unit)?;
    Ok(states)
}

/// Pushes the state that follows the last one over a unit.
///
/// - `last` is the index of the last state.
///
/// Inlined, and the last state is read where it is, since each move of a state takes time.
#[inline(always)]
fn push_next<N: Allocator, A: Allocator + Copy>(
    nfa: &NFA<N>,
    match_kind: MatchKind,
    scratch: &mut Scratch<A>,
    states: &mut Vec<State<A>, A>,
    last: usize,
    unit: Unit,
) -> Result<(), AllocError>
    requires last { length states.old.items ≡ last + 1 }
    requires resolve { AllResolve nfa.now (get_or states.old.items last dead).states }
    ensures pushed { OnOk result (states.new.items ≡ states.old.items
        ++ step nfa.now match_kind (get_or states.old.items last dead) (byte_of unit) ∷ []) }
    ensures resolve { OnOk result
        (AllResolve nfa.now (get_or states.new.items (last + 1) dead).states) }
{
    let next = scratch.next(nfa, match_kind, &states[last], unit)?;
    states.push(next)?;
    Ok(())
}

/// Returns the last match of a walk: the first pattern of the last state that lists one, and the
/// end of the match. `None` if no state lists a pattern.
///
/// The start state, which lists no pattern, is skipped. The offset is the number of bytes before
/// the end of the match. Under `MatchKind::LeftmostFirst` this is the most preferred match.
pub fn last_match<A: Allocator>(states: &[State<A>]) -> Option<HalfMatch>
    ensures { result ≡ matches.last_match states.now }
{
    let Some((_, others)) = states.split_first() else {
        return None;
    };
    let mut last = None;
    for (offset, state) in others.iter().enumerate() {
        if state.is_match() {
            let pattern = state.match_pattern(0);
            last = Some(HalfMatch { pattern, offset });
        }
    }
    last
}
