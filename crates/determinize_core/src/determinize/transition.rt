//! One transition: from a DFA state over a unit of input to the next state.
//!
//! The first pass over the working list adds the patterns and pushes the targets. If there are any
//! targets, the look-behind is computed from the unit, and their closure adds the NFA states. Many
//! transitions enter no state, and then no look-behind is computed. The state before the first unit
//! is entered in the same way, by `enter`.

ghost use Rattle.std.specs.Prelude.{◌≡◌, ◌+◌, ◌*◌, ◌<◌, ◌≤◌, ◌++◌, [], false, IsTrue, length, IfOk, OnOk};
ghost use Rattle.determinize_below.specs.Edges.{reach};
ghost use Rattle.determinize_below.specs.Look.{has};
ghost use Rattle.determinize_below.specs.Nfa.{AllResolve, IsAccepted};
ghost use Rattle.determinize_below.specs.Unit.{byte_of};
ghost use Rattle.determinize_below.specs.declared.search.MatchKind.TheVariants as kinds;
ghost use Rattle.determinize_core.specs.Private.Reading.{byte_or_256};
ghost use Rattle.determinize_core.specs.Scratch.{IsScratch};
ghost use Rattle.determinize_core.specs.Step.{begun, left_by, step};
ghost use Rattle.determinize_core.specs.Tries.{edges_in_all, tries, tries_of};
ghost use Rattle.determinize_start.specs.LookTables.{have_after, tables_of};
ghost use Rattle.determinize_state.specs.Recording.{recorded, settled};
ghost use Rattle.determinize_state.specs.Value.{dead, with_flags};

use crate::determinize::closure::explore;
use crate::determinize::reading::byte_or_256;
use crate::determinize::steps::{Counter, Steps};
use crate::determinize::working_list::read_working_list;
use determinize_below::{LookSet, MatchKind, NFA, SparseSet, SparseSets, StateID, Unit};
use determinize_start::look_tables::{LookBehind, LookTables};
use determinize_state::state::{State, StateBuilderEmpty, StateBuilderNFA};
use std::alloc::{AllocError, Allocator};
use std::sync::ledger::Ledger;

/// Sets the flags of the look-behind.
fn set_flags<A: Allocator>(look_behind: LookBehind, builder: &mut StateBuilderNFA<A>)
    ensures { builder.new ≡ with_flags builder.old look_behind.from_word look_behind.half_crlf }
{
    if look_behind.from_word {
        builder.set_is_from_word();
    }
    if look_behind.half_crlf {
        builder.set_is_half_crlf();
    }
}

/// Sets look-have if look-need is not empty, so that states do not differ in assertions that
/// nothing tests. Look-have must be empty before the call.
fn set_look_have<A: Allocator>(looks: LookSet, builder: &mut StateBuilderNFA<A>)
    requires { builder.old.look_have ≡ 0 }
    ensures { builder.new ≡ settled (record builder.old { look_have = looks }) }
{
    if !builder.look_need().is_empty() {
        builder.set_look_have(|_| looks);
    }
}

/// Adds the closure of `first`, and then of the states on the stack, to a builder that has nothing
/// but patterns, and sets the look-behind: its flags, and look-have if look-need is not empty. The
/// set may have any contents before. On error the stack is not cleared.
#[inline(always)]
pub(crate) fn enter<N: Allocator, A: Allocator, C: Counter>(
    nfa: &NFA<N>,
    look_behind: LookBehind,
    first: &[StateID],
    stack: &mut Vec<StateID, A>,
    set: &mut SparseSet<A>,
    builder: &mut StateBuilderNFA<A>,
    counter: &mut C,
) -> Result<(), AllocError>
    requires accepted { IsAccepted nfa.now }
    requires resolve { AllResolve nfa.now (first.now ++ stack.old.items) }
    requires capacity { set.old.capacity ≡ length nfa.now.states }
    requires unrecorded { builder.old ≡ begun false false 0 builder.old.patterns }
    ensures ok { OnOk result (builder.new ≡ recorded nfa.now
        (begun look_behind.from_word look_behind.half_crlf look_behind.looks builder.old.patterns)
        (reach nfa.now (has look_behind.looks) (first.now ++ stack.old.items))) }
    ensures stack { OnOk result (stack.new.items ≡ []) }
    ensures capacity { set.new.capacity ≡ set.old.capacity }
    ensures counted { IsTrue C.counts → OnOk result (C.total counter.new ≡ C.total counter.old
        + tries_of nfa.now (has look_behind.looks) (first.now ++ stack.old.items)) }
    ensures bounded { IsTrue C.counts → C.total counter.new ≤ C.total counter.old
        + tries_of nfa.now (has look_behind.looks) (first.now ++ stack.old.items) }
{
    set.clear();
    set_flags(look_behind, builder);
    explore(nfa, first, look_behind.looks, stack, set, builder, counter)?;
    set_look_have(look_behind.looks, builder);
    Ok(())
}

/// Adds the closure of the targets on the stack to a builder that has nothing but patterns, and
/// sets the look-behind after the unit. The set may have any contents before. On error the stack
/// is not cleared.
///
/// Without targets the builder is unchanged: nothing uses a look-behind then, and setting it would
/// give states that differ in flags only, such as a second dead state.
#[inline(always)]
fn enter_targets<N: Allocator, A: Allocator, C: Counter>(
    nfa: &NFA<N>,
    unit: Unit,
    stack: &mut Vec<StateID, A>,
    set: &mut SparseSet<A>,
    builder: &mut StateBuilderNFA<A>,
    counter: &mut C,
) -> Result<(), AllocError>
    requires resolve { AllResolve nfa.now stack.old.items }
    requires capacity { set.old.capacity ≡ length nfa.now.states }
    requires unrecorded { builder.old ≡ begun false false 0 builder.old.patterns }
    ensures ok { OnOk result (builder.new ≡ left_by nfa.now (byte_of unit) builder.old.patterns
        (reach nfa.now (has (have_after (tables_of nfa.now) (byte_of unit))) stack.old.items)) }
    ensures stack { OnOk result (stack.new.items ≡ []) }
    ensures capacity { set.new.capacity ≡ set.old.capacity }
    ensures counted { IsTrue C.counts → OnOk result (C.total counter.new ≡ C.total counter.old
        + tries_of nfa.now (has (have_after (tables_of nfa.now) (byte_of unit))) stack.old.items) }
    ensures bounded { IsTrue C.counts → C.total counter.new ≤ C.total counter.old
        + tries_of nfa.now (has (have_after (tables_of nfa.now) (byte_of unit))) stack.old.items }
{
    if stack.is_empty() {
        return Ok(());
    }
    let look_behind = LookTables::of(nfa).after(unit);
    enter(nfa, look_behind, &[], stack, set, builder, counter)
}

/// Builds the next state in an empty builder. `number` is the byte of the unit, or 256 for EOI. On
/// error the stack is not cleared.
#[inline(always)]
fn step_over<N: Allocator, A: Allocator, C: Counter>(
    nfa: &NFA<N>,
    match_kind: MatchKind,
    sparses: &mut SparseSets<A>,
    stack: &mut Vec<StateID, A>,
    state: &State<A>,
    unit: Unit,
    number: usize,
    builder: &mut StateBuilderNFA<A>,
    counter: &mut C,
) -> Result<(), AllocError>
    requires number { number ≡ byte_or_256 (byte_of unit) }
    requires scratch { IsScratch nfa.now sparses.old.set1 sparses.old.set2 stack.old.items }
    requires resolve { AllResolve nfa.now state.now.states }
    requires empty { builder.old ≡ dead }
    ensures ok { OnOk result (builder.new ≡ step nfa.now match_kind state.now (byte_of unit)) }
    ensures resolve { OnOk result (AllResolve nfa.now builder.new.states) }
    ensures scratch { IsScratch nfa.now sparses.new.set1 sparses.new.set2 [] }
    ensures counted { IsTrue C.counts → OnOk result (C.total counter.new
        ≡ C.total counter.old + tries nfa.now match_kind state.now (byte_of unit)) }
    ensures bounded { IsTrue C.counts → C.total counter.new
        ≤ C.total counter.old + 2 * (length nfa.now.states + edges_in_all nfa.now) }
{
    read_working_list(
        nfa, match_kind, state, unit, number, sparses, stack, builder, counter,
    )?;
    enter_targets(nfa, unit, stack, &mut sparses.set2, builder, counter)
}

/// Builds the next state over a byte, or over EOI for `None`. On error the stack is not cleared.
///
/// All parts of a transition are inlined into this function, and it is not inlined itself, so it is
/// as fast for each caller. It changes the builder in place: moving it just after a write to it
/// stalls until the write is done. An optional byte is passed in registers, a unit in memory.
/// `number` is the byte, or 256 for `None`. If it were computed here, the compiler would see that
/// 256 is in no range, and test for EOI at each `ByteRange` state.
#[inline(never)]
fn transition<N: Allocator, A: Allocator, C: Counter>(
    nfa: &NFA<N>,
    match_kind: MatchKind,
    sparses: &mut SparseSets<A>,
    stack: &mut Vec<StateID, A>,
    state: &State<A>,
    byte: Option<u8>,
    number: usize,
    builder: &mut StateBuilderNFA<A>,
    counter: &mut C,
) -> Result<(), AllocError>
    requires number { number ≡ byte_or_256 byte }
    requires scratch { IsScratch nfa.now sparses.old.set1 sparses.old.set2 stack.old.items }
    requires resolve { AllResolve nfa.now state.now.states }
    requires empty { builder.old ≡ dead }
    ensures ok { OnOk result (builder.new ≡ step nfa.now match_kind state.now byte) }
    ensures resolve { OnOk result (AllResolve nfa.now builder.new.states) }
    ensures scratch { IsScratch nfa.now sparses.new.set1 sparses.new.set2 [] }
    ensures counted { IsTrue C.counts → OnOk result (C.total counter.new
        ≡ C.total counter.old + tries nfa.now match_kind state.now byte) }
    ensures bounded { IsTrue C.counts → C.total counter.new
        ≤ C.total counter.old + 2 * (length nfa.now.states + edges_in_all nfa.now) }
{
    let unit = Unit::from(byte);
    step_over(
        nfa, match_kind, sparses, stack, state, unit, number, builder, counter,
    )
}

/// Returns the next state in a builder, as [`next`] does.
#[inline(always)]
#[tactic(auto, using(crate::proofs::step::StepLaws::one_pattern))]
fn build_counted<N: Allocator, A: Allocator, C: Counter>(
    nfa: &NFA<N>,
    match_kind: MatchKind,
    sparses: &mut SparseSets<A>,
    stack: &mut Vec<StateID, A>,
    state: &State<A>,
    unit: Unit,
    empty_builder: StateBuilderEmpty<A>,
    counter: &mut C,
) -> Result<StateBuilderNFA<A>, AllocError>
    requires scratch { IsScratch nfa.now sparses.old.set1 sparses.old.set2 stack.old.items }
    requires resolve { AllResolve nfa.now state.now.states }
    ensures ok { IfOk result
        (λ builder. builder ≡ step nfa.now match_kind state.now (byte_of unit)) }
    ensures single { match_kind ≡ kinds.LeftmostFirst
        → IfOk result (λ builder. length builder.patterns ≤ 1) }
    ensures resolve { IfOk result (λ builder. AllResolve nfa.now builder.states) }
    ensures scratch { IsScratch nfa.now sparses.new.set1 sparses.new.set2 stack.new.items }
    ensures counted { IsTrue C.counts → OnOk result (C.total counter.new
        ≡ C.total counter.old + tries nfa.now match_kind state.now (byte_of unit)) }
    ensures bounded { IsTrue C.counts → C.total counter.new
        ≤ C.total counter.old + 2 * (length nfa.now.states + edges_in_all nfa.now) }
{
    let mut builder = match empty_builder.into_matches() {
        Ok(builder) => builder.into_nfa(),
        Err(error) => return Err(error),
    };
    let result = transition(
        nfa,
        match_kind,
        sparses,
        stack,
        state,
        unit.as_u8(),
        byte_or_256(unit),
        &mut builder,
        counter,
    );
    stack.clear();
    result?;
    Ok(builder)
}

/// Returns the same as [`next`], and counts the tries to add a state to a set.
///
/// `steps` grows by the tries of all closures of the transition. The NFA, the match kind, the state
/// and the unit determine this number, and it is at most twice the number of states and epsilon
/// edges of the NFA. On error too, `steps` grows by no more than that.
#[inline(always)]
pub fn next_counted<N: Allocator, A: Allocator, L: Ledger>(
    nfa: &NFA<N>,
    match_kind: MatchKind,
    sparses: &mut SparseSets<A>,
    stack: &mut Vec<StateID, A>,
    state: &State<A>,
    unit: Unit,
    empty_builder: StateBuilderEmpty<A>,
    steps: &mut Steps<L>,
) -> Result<StateBuilderNFA<A>, AllocError>
    requires scratch { IsScratch nfa.now sparses.old.set1 sparses.old.set2 stack.old.items }
    requires resolve { AllResolve nfa.now state.now.states }
    ensures ok { IfOk result
        (λ builder. builder ≡ step nfa.now match_kind state.now (byte_of unit)) }
    ensures single { match_kind ≡ kinds.LeftmostFirst
        → IfOk result (λ builder. length builder.patterns ≤ 1) }
    ensures resolve { IfOk result (λ builder. AllResolve nfa.now builder.states) }
    ensures scratch { IsScratch nfa.now sparses.new.set1 sparses.new.set2 stack.new.items }
    ensures counted { OnOk result
        (steps.new ≡ steps.old + tries nfa.now match_kind state.now (byte_of unit)) }
    ensures bounded { steps.new ≤ steps.old + 2 * (length nfa.now.states + edges_in_all nfa.now) }
{
    build_counted(
        nfa,
        match_kind,
        sparses,
        stack,
        state,
        unit,
        empty_builder,
        steps,
    )
}

/// Returns the state after a state over a unit of input, in a builder.
///
/// - `sparses` and `stack` are scratch: both sets have the number of states of the NFA as their
///   capacity, and any contents; the stack is empty. All of this is true again afterwards, also on
///   error.
/// - `state` is the current state, and its ids are states of the NFA.
/// - `unit` is the next byte, or EOI.
///
/// Matches are delayed by one unit: the next state lists the patterns that match before the unit.
/// These are all of them, most preferred first, under `MatchKind::All`, and the first of them under
/// `MatchKind::LeftmostFirst`. Its NFA states are the closure of the targets of the unit. On error
/// the builder is dropped.
#[inline(always)]
pub fn next<N: Allocator, A: Allocator>(
    nfa: &NFA<N>,
    match_kind: MatchKind,
    sparses: &mut SparseSets<A>,
    stack: &mut Vec<StateID, A>,
    state: &State<A>,
    unit: Unit,
    empty_builder: StateBuilderEmpty<A>,
) -> Result<StateBuilderNFA<A>, AllocError>
    requires scratch { IsScratch nfa.now sparses.old.set1 sparses.old.set2 stack.old.items }
    requires resolve { AllResolve nfa.now state.now.states }
    ensures ok { IfOk result
        (λ builder. builder ≡ step nfa.now match_kind state.now (byte_of unit)) }
    ensures single { match_kind ≡ kinds.LeftmostFirst
        → IfOk result (λ builder. length builder.patterns ≤ 1) }
    ensures resolve { IfOk result (λ builder. AllResolve nfa.now builder.states) }
    ensures scratch { IsScratch nfa.now sparses.new.set1 sparses.new.set2 stack.new.items }
{
    build_counted(
        nfa,
        match_kind,
        sparses,
        stack,
        state,
        unit,
        empty_builder,
        &mut (),
    )
}
