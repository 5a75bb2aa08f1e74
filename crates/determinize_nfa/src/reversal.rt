//! The NFA that reads in the other direction.
//!
//! Each range of bytes and each assertion becomes a state between target and source, and epsilon
//! transitions are reversed. The start is a union of the match states, and the anchored start
//! becomes the one match state.

ghost use Rattle.std.specs.Prelude.{◌≡◌, ◌+◌, ◌++◌, ◌<◌, ◌≤◌, ◌∷◌, [], All, IfErr, IfOk, OnOk, length, map, nat_eq, true};
ghost use Rattle.std.specs.List.{IsDistinct, filter};
ghost use Rattle.determinize_below.specs.Edges.{is_match_node};
ghost use Rattle.determinize_below.specs.Nfa.{AllResolve, is_dense_sound, resolves};
ghost use Rattle.determinize_below.specs.Semantics as nodes;
ghost use Rattle.determinize_below.specs.Node.{node_of};
ghost use Rattle.determinize_nfa.specs.Private.Arcs.{next_of};
ghost use Rattle.determinize_nfa.specs.Private.Gathered as states;
ghost use Rattle.determinize_nfa.specs.Private.Turning.{IsTurnedOver};
ghost use Rattle.determinize_nfa.specs.Private.Turning as turning;
ghost use Rattle.determinize_nfa.specs.Reversal.{IsReverseOf, IsTooLarge, most_states};

use crate::arcs::{Arc, arc_from};
use crate::builder::push_state;
use crate::reached::reached;
use determinize_below::nfa::{BuildError, State, Transition};
use determinize_below::{ID_LIMIT, NFA, PatternID, StateID};
use std::alloc::{AllocError, Allocator};
use std::marker::Model;

/// The transitions of an NFA that have been reversed so far.
#[derive(Drop)]
struct Turned<A: Allocator> {
    /// For each state, the ids that it has transitions to in the reversed NFA.
    into: Vec<Vec<StateID, A>, A>,
    /// The states of the reversed NFA that read a byte or test an assertion.
    rest: Vec<State<A>, A>,
    /// The `Match` states.
    ends: Vec<StateID, A>,
}

impl<A: Allocator> Model for Turned<A> {
    ghost use Rattle.std.specs.Prelude.{map};
    ghost use Rattle.determinize_below.specs.Node.{node_of};
    ghost use Rattle.determinize_nfa.specs.Private.Turning.{IsTurnedOver};
    ghost use Rattle.determinize_nfa.specs.Private.Turning as turning;

    ghost Value = { turning.Turned };

    ghost view = { λ t. record {
      into = map (λ v. v.items) t.into.items;
      rest = map node_of t.rest.items;
      ends = t.ends.items;
    } };
}

impl<A: Allocator + Copy> Turned<A> {
    /// Returns a record of no transition, for this number of states.
    fn new(alloc: A, count: usize) -> Result<Turned<A>, AllocError>
        ensures { IfOk result (λ t. t ≡ turning.none_turned count) }
    {
        let mut into = Vec::new(alloc);
        for _ in 0..count {
            into.push(Vec::new(alloc))?;
        }
        Ok(Turned {
            into,
            rest: Vec::new(alloc),
            ends: Vec::new(alloc),
        })
    }

    /// Adds a transition of the reversed NFA without input.
    fn add(&mut self, state: StateID, next: StateID) -> Result<(), BuildError>
        requires { state < length self.old.into }
        ensures turned { OnOk result (self.new ≡ turning.added self.old state next) }
        ensures err { IfErr result (λ e. e ≡ BuildError.OutOfMemory) }
    {
        self.into[state.as_usize()].push(next)?;
        Ok(())
    }

    /// Adds a state of the reversed NFA that reads a byte or tests an assertion, and a transition
    /// to it.
    fn add_state(&mut self, from: StateID, state: State<A>) -> Result<(), BuildError>
        requires from { from < length self.old.into }
        requires small { length self.old.into ≤ ID_LIMIT }
        ensures turned { OnOk result (self.new ≡ turning.with_state self.old from (node_of state)) }
        ensures err { IfErr result (λ e.
            IsTooLarge (turning.total self.old + 1) e) }
    {
        let id = StateID::new(self.into.len() + 2 + self.rest.len())?;
        push_state(&mut self.rest, state)?;
        self.add(from, id)
    }

    /// Adds a transition of a state, reversed.
    fn add_arc(&mut self, state: StateID, arc: Arc) -> Result<(), BuildError>
        requires next { next_of arc < length self.old.into }
        requires small { length self.old.into ≤ ID_LIMIT }
        ensures turned { OnOk result (self.new ≡ turning.with_arc self.old state arc) }
        ensures err { IfErr result (λ e.
            IsTooLarge (turning.total (turning.with_arc self.old state arc)) e) }
    {
        match arc {
            Arc::Range(range) => {
                let trans = Transition {
                    next: state,
                    ..range
                };
                self.add_state(range.next, State::ByteRange { trans })
            }
            Arc::Test(look, next) => {
                let look = look.reversed();
                self.add_state(next, State::Look { look, next: state })
            }
            Arc::Free(next) => self.add(next, state),
        }
    }

    /// Adds the transitions of a state, reversed, and the state itself if it is a `Match`.
    fn add_node<N: Allocator>(&mut self, id: StateID, state: &State<N>) -> Result<(), BuildError>
        requires resolves { resolves (length self.old.into) (node_of state.now) ≡ true }
        requires whole { is_dense_sound (node_of state.now) ≡ true }
        requires small { length self.old.into ≤ ID_LIMIT }
        ensures turned { OnOk result
            (self.new ≡ turning.with_reversed self.old id (node_of state.now)) }
        ensures err { IfErr result (λ e.
            IsTooLarge (turning.total (turning.with_reversed self.old id (node_of state.now))) e) }
    {
        let mut from = 0;
        while let Some((arc, after)) = arc_from(state, from) {
            self.add_arc(id, arc)?;
            from = after;
        }
        if let State::Match { .. } = state {
            self.ends.push(id)?;
        }
        Ok(())
    }

    /// Adds the transition from `begin` to the anchored start, reversed, and the transitions of
    /// these states.
    fn add_nodes<N: Allocator>(
        &mut self,
        nfa: &NFA<N>,
        begin: StateID,
        ids: &[StateID],
    ) -> Result<(), BuildError>
        requires none { self.old ≡ turning.none_turned (length nfa.now.states) }
        requires begin { begin ≡ length nfa.now.states }
        requires below { AllResolve nfa.now ids.now }
        requires distinct { IsDistinct nat_eq ids.now }
        requires small { length nfa.now.states ≤ ID_LIMIT }
        ensures turned { OnOk result (turning.turned_over nfa.now ids.now ≡ self.new) }
        ensures count { OnOk result (length self.new.into ≡ length nfa.now.states) }
        ensures err { IfErr result (λ e. IsTooLarge (most_states nfa.now) e) }
    {
        self.add(nfa.start_anchored(), begin)?;
        for id in ids {
            self.add_node(*id, nfa.state(*id))?;
        }
        Ok(())
    }

    /// Returns the transitions of the states that the anchored start reaches, reversed.
    fn over<N: Allocator>(alloc: A, nfa: &NFA<N>, begin: StateID) -> Result<Turned<A>, BuildError>
        requires { begin ≡ length nfa.now.states }
        ensures ok { IfOk result (λ turned. IsTurnedOver nfa.now turned) }
        ensures err { IfErr result (λ e. IsTooLarge (most_states nfa.now) e) }
    {
        let found = reached(alloc, nfa)?;
        let mut turned = Turned::new(alloc, nfa.len())?;
        turned.add_nodes(nfa, begin, found.as_slice())?;
        Ok(turned)
    }

    /// Returns the states of the reversed NFA: those of the NFA by their ids, the match state, the
    /// start state, and then the states that read a byte or test an assertion.
    fn into_states(self, alloc: A) -> Result<Vec<State<A>, A>, AllocError>
        ensures { IfOk result (λ made. map node_of made.items ≡ states.states_of self) }
    {
        let Turned {
            into,
            mut rest,
            ends,
        } = self;
        let mut made = Vec::new(alloc);
        gather_all(&mut made, into)?;
        end_states(&mut made, ends, &mut rest)?;
        Ok(made)
    }
}

/// Returns the state with transitions to these ids, without input.
fn gathered<A: Allocator>(alternates: Vec<StateID, A>) -> State<A>
    ensures { node_of result ≡ states.gathered alternates.items }
{
    match alternates.len() {
        0 => State::Fail,
        1 => State::Capture {
            next: alternates[0],
        },
        _ => State::Union { alternates },
    }
}

/// Adds the state for each list.
fn gather_all<A: Allocator>(
    made: &mut Vec<State<A>, A>,
    lists: Vec<Vec<StateID, A>, A>,
) -> Result<(), AllocError>
    ensures { OnOk result (map node_of made.new.items ≡ map node_of made.old.items
        ++ map states.gathered (map (λ v. v.items) lists.items)) }
{
    for alternates in lists {
        push_state(made, gathered(alternates))?;
    }
    Ok(())
}

/// Adds the match state, the start state, and the states that read a byte or test an assertion,
/// which are taken from `rest`.
fn end_states<A: Allocator>(
    made: &mut Vec<State<A>, A>,
    ends: Vec<StateID, A>,
    rest: &mut Vec<State<A>, A>,
) -> Result<(), AllocError>
    ensures { OnOk result (map node_of made.new.items ≡ map node_of made.old.items
        ++ nodes.Match 0 ∷ nodes.Union ends.items ∷ map node_of rest.old.items) }
{
    let pattern_id = PatternID::ZERO;
    push_state(made, State::Match { pattern_id })?;
    push_state(made, State::Union { alternates: ends })?;
    made.append(rest)
}

/// Returns the NFA that reads in the other direction and reports where matches begin: from a
/// position on, it accepts exactly where a run of the first NFA begins that accepts at this
/// position.
///
/// Both of its starts are one state, and its one pattern is 0. It reverses the transitions of the
/// states that the anchored start reaches. Returns `TooManyStates` only if two states more than
/// those of the NFA, and one for each range of bytes, each run of bytes of a dense state with one
/// target and each assertion, are above the limit.
#[tactic(auto, using(crate::proofs::Limits::no_memory))]
pub fn reversed<N: Allocator, A: Allocator + Copy>(
    alloc: A,
    nfa: &NFA<N>,
) -> Result<NFA<A>, BuildError>
    ensures reverse { IfOk result (λ backward. IsReverseOf backward nfa.now) }
    ensures starts { IfOk result
        (λ backward. backward.start_anchored ≡ backward.start_unanchored) }
    ensures pattern { IfOk result
        (λ backward. filter is_match_node backward.states ≡ nodes.Match 0 ∷ []) }
    ensures size { IfOk result (λ backward. length backward.states ≤ most_states nfa.now) }
    ensures err { IfErr result (λ e. IsTooLarge (most_states nfa.now) e) }
{
    let count = nfa.len();
    let start = StateID::new(count + 1)?;
    let begin = StateID::must(count);
    let turned = Turned::over(alloc, nfa, begin)?;
    let states = turned.into_states(alloc)?;
    let matcher = *nfa.look_matcher();
    NFA::from_parts(alloc, states, start, start, !nfa.is_reverse(), matcher)
}
