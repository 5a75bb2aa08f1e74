//! The calls that no job makes: single steps from a start state with a count, and the recording of
//! one NFA state.

ghost use Rattle.std.specs.Prelude.{◌≡◌, ◌<◌};
ghost use Rattle.determinize_below.specs.Nfa.{AllResolve};
ghost use Rattle.determinize_core.specs.Scratch.{IsScratch};

use crate::tests::alloc_failure::{Row, Trial, fail_each_in_turn, rows};
use crate::tests::{caches, same, with_start};
use determinize_below::{NFA, SparseSets, StateID, Unit};
use determinize_core::determinize::{Steps, next_counted, start_state};
use determinize_core::recording::add_state;
use determinize_core::state::{State, StateBuilderEmpty, StateBuilderNFA};
use std::alloc::{AllocError, Allocator};
use std::marker::Brand;
use std::process::Abort;
use std::sync::ledger::{Blank, Ledger};

/// Computes the transition from a state, with a count that is dropped.
fn count<A: Allocator, L: Ledger>(
    row: &Row,
    sparses: &mut SparseSets<A>,
    stack: &mut Vec<StateID, A>,
    state: &State<A>,
    empty: StateBuilderEmpty<A>,
    blank: Blank,
) -> Result<StateBuilderNFA<A>, AllocError>
    requires name { blank.name ≡ L.name }
    requires parts { blank.parts ≡ L.parts }
    requires some { 0 < L.parts }
    requires scratch { IsScratch row.now.nfa sparses.old.set1 sparses.old.set2 stack.old.items }
    requires resolve { AllResolve row.now.nfa state.now.states }
{
    let (unit, mut steps) = (Unit::from(row.unit(0)), Steps::<L>::new(blank));
    next_counted(
        &row.nfa, row.kind, sparses, stack, state, unit, empty, &mut steps,
    )
}

/// Makes the first step of a walk, and compares both states.
pub fn step<R: Abort + AllocGlobal, A: Allocator + Copy>(
    rt: &R,
    alloc: A,
    row: &Row,
) -> Result<(), AllocError> {
    let mut sparses = SparseSets::new(alloc, row.nfa.len())?;
    let (mut stack, empty) = (Vec::new(alloc), StateBuilderEmpty::new(alloc));
    let (start, behind) = (row.nfa.start_anchored(), row.place.behind);
    let first = start_state(&row.nfa, start, behind, &mut sparses, &mut stack, empty)?;
    row.expect(rt, 0, first.as_bytes());
    let (state, empty) = (first.to_state()?, first.clear());
    let blank = Blank::new(1);
    let next = count::<A, Brand>(row, &mut sparses, &mut stack, &state, empty, blank)?;
    row.expect(rt, 1, next.as_bytes());
    Ok(())
}

#[test]
fn first_steps(rt: HostRuntime) {
    for row in rows(&rt).iter() {
        fail_each_in_turn(&rt, Trial::Step(row));
    }
}

/// Records the first state of an NFA, which needs that a line starts, after the assertion `Start`,
/// and compares the bytes.
pub fn record<R: Abort, A: Allocator>(rt: &R, alloc: A, nfa: &NFA) -> Result<(), AllocError> {
    let mut builder = StateBuilderEmpty::new(alloc).into_matches()?.into_nfa();
    builder.set_look_have(with_start);
    add_state(nfa, nfa.start_anchored(), &mut builder)?;
    builder.settle();
    let bytes = [0, 1, 0, 0, 0, 4, 0, 0, 0, 0];
    same(rt, builder.as_bytes(), bytes.as_slice());
    Ok(())
}

#[test]
fn one_state(rt: HostRuntime) {
    let nfa = caches::nfa(&rt, "L:StartLF>1 M:0", "dir=fwd");
    fail_each_in_turn(&rt, Trial::Record(&nfa));
}
