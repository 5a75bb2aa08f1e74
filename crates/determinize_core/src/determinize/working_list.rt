//! The working list of a transition.
//!
//! It is the NFA states of a DFA state, each once, or their closure if the unit reopens it. If not,
//! no list is made: the recorded ids are read as they are decoded, and repeats are skipped.

ghost use Rattle.std.specs.Prelude.{◌≡◌, IsTrue, ◌+◌, ◌++◌, ◌<◌, ◌≤◌, ◌⊎◌, [], All, OnOk};
ghost use Rattle.determinize_below.specs.Edges.{reach_past};
ghost use Rattle.determinize_below.specs.Look.{has};
ghost use Rattle.determinize_below.specs.Nfa.{AllResolve, IsAccepted};
ghost use Rattle.determinize_below.specs.Unit.{byte_of};
ghost use Rattle.determinize_core.specs.Private.Reading.{byte_or_256, IsListRead};
ghost use Rattle.determinize_core.specs.Private.Search.{tries_left};
ghost use Rattle.determinize_core.specs.Scratch.{IsScratch};
ghost use Rattle.determinize_core.specs.Step.{distinct_states, working_list};
ghost use Rattle.determinize_core.specs.Tries.{tries_again};

use crate::determinize::closure::explore;
use crate::determinize::reading::read_states;
use crate::determinize::reopening::reopened_under;
use crate::determinize::steps::Counter;
use determinize_below::{LookSet, MatchKind, NFA, SparseSet, SparseSets, StateID, Unit};
use determinize_state::state::{State, StateBuilderNFA};
use std::alloc::{AllocError, Allocator};

/// Adds the NFA states of a state to a set, which is empty before.
fn collect_states<A: Allocator>(state: &State<A>, set: &mut SparseSet<A>)
    requires empty { set.old.ids ≡ [] }
    requires resolve { All (λ id. id < set.old.capacity) state.now.states }
    ensures ids { set.new.ids ≡ distinct_states state.now }
    ensures capacity { set.new.capacity ≡ set.old.capacity }
{
    for id in state.iter_nfa_state_ids() {
        set.insert(id);
    }
}

/// Adds the closure of the NFA states of a state to `second`. Both sets and the stack are empty
/// before, and `first` and the stack afterwards. On error nothing is cleared.
#[inline(always)]
fn reopen<N: Allocator, A: Allocator, C: Counter>(
    nfa: &NFA<N>,
    state: &State<A>,
    look_have: LookSet,
    first: &mut SparseSet<A>,
    second: &mut SparseSet<A>,
    stack: &mut Vec<StateID, A>,
    counter: &mut C,
) -> Result<(), AllocError>
    requires accepted { IsAccepted nfa.now }
    requires scratch { IsScratch nfa.now first.old second.old stack.old.items }
    requires empty { first.old.ids ≡ [] }
    requires resolve { AllResolve nfa.now state.now.states }
    ensures list { OnOk result (second.new.ids ≡ second.old.ids
        ++ reach_past nfa.now (has look_have) second.old.ids (distinct_states state.now)) }
    ensures resolve { OnOk result
        ((distinct_states state.now ≡ []) ⊎ AllResolve nfa.now second.new.ids) }
    ensures first { OnOk result (first.new.ids ≡ []) }
    ensures stack { OnOk result (stack.new.items ≡ []) }
    ensures scratch { IsScratch nfa.now first.new second.new [] }
    ensures counted { IsTrue C.counts → OnOk result (C.total counter.new ≡ C.total counter.old
        + tries_left nfa.now (has look_have) second.old.ids (distinct_states state.now)) }
    ensures bounded { IsTrue C.counts → C.total counter.new ≤ C.total counter.old
        + tries_left nfa.now (has look_have) second.old.ids (distinct_states state.now) }
{
    collect_states(state, first);
    explore(
        nfa,
        first.as_slice(),
        look_have,
        stack,
        second,
        &mut (),
        counter,
    )?;
    first.clear();
    Ok(())
}

/// Reads the working list: adds its patterns to the builder and pushes its targets, under
/// `MatchKind::LeftmostFirst` up to the first match. The sets may have any contents before, and
/// each is cleared before it is used. `number` is the byte of the unit, or 256 for EOI.
#[inline(always)]
pub(crate) fn read_working_list<N: Allocator, A: Allocator, C: Counter>(
    nfa: &NFA<N>,
    match_kind: MatchKind,
    state: &State<A>,
    unit: Unit,
    number: usize,
    sparses: &mut SparseSets<A>,
    stack: &mut Vec<StateID, A>,
    builder: &mut StateBuilderNFA<A>,
    counter: &mut C,
) -> Result<(), AllocError>
    requires number { number ≡ byte_or_256 (byte_of unit) }
    requires scratch { IsScratch nfa.now sparses.old.set1 sparses.old.set2 stack.old.items }
    requires resolve { AllResolve nfa.now state.now.states }
    requires unread { builder.old.patterns ≡ [] }
    requires unrecorded { builder.old.states ≡ [] }
    ensures ok { OnOk result (IsListRead nfa.now match_kind (byte_of unit)
        (working_list nfa.now state.now (byte_of unit)) builder.old builder.new stack.new.items) }
    ensures accepted { IsAccepted nfa.now }
    ensures scratch { IsScratch nfa.now sparses.new.set1 sparses.new.set2 [] }
    ensures counted { IsTrue C.counts → OnOk result (C.total counter.new
        ≡ C.total counter.old + tries_again nfa.now state.now (byte_of unit)) }
    ensures bounded { IsTrue C.counts → C.total counter.new
        ≤ C.total counter.old + tries_again nfa.now state.now (byte_of unit) }
{
    sparses.set1.clear();
    let Some(look_have) = reopened_under(nfa, state, unit) else {
        let ids = state.iter_nfa_state_ids();
        return read_states(
            nfa,
            match_kind,
            ids,
            unit,
            number,
            &mut sparses.set1,
            stack,
            builder,
        );
    };
    sparses.set2.clear();
    reopen(
        nfa,
        state,
        look_have,
        &mut sparses.set1,
        &mut sparses.set2,
        stack,
        counter,
    )?;
    let ids = sparses.set2.iter();
    read_states(
        nfa,
        match_kind,
        ids,
        unit,
        number,
        &mut sparses.set1,
        stack,
        builder,
    )
}
