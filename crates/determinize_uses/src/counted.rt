//! A step with its count, for contracts: the count takes no bytes at run time.

ghost use Rattle.std.specs.Prelude.{◌≡◌, ◌+◌, ◌*◌, ◌<◌, ◌≤◌, length, IfOk};
ghost use Rattle.determinize_below.specs.Nfa.{AllResolve};
ghost use Rattle.determinize_core.specs.Tries.{edges_in_all};

use determinize_below::{MatchKind, NFA, SparseSets, Unit};
use determinize_core::determinize::{Steps, next_counted};
use determinize_core::state::{State, StateBuilderEmpty};
use std::alloc::{AllocError, Allocator};
use std::sync::ledger::{Blank, Ledger};

/// Returns the next state over a unit under `MatchKind::All`, and how many times the step tried to
/// add a state to a set: at most twice the number of states of the NFA and of its epsilon edges.
pub fn counted<N: Allocator, A: Allocator + Copy, L: Ledger>(
    alloc: A,
    nfa: &NFA<N>,
    state: &State<A>,
    unit: Unit,
    blank: Blank,
) -> Result<(State<A>, Steps<L>), AllocError>
    requires name { blank.name ≡ L.name }
    requires parts { blank.parts ≡ L.parts }
    requires some { 0 < L.parts }
    requires resolve { AllResolve nfa.now state.now.states }
    ensures bounded { IfOk result
        (λ both. both.1 ≤ 2 * (length nfa.now.states + edges_in_all nfa.now)) }
{
    let mut steps = Steps::<L>::new(blank);
    let mut sets = SparseSets::new(alloc, nfa.len())?;
    let mut stack = Vec::new(alloc);
    let (kind, empty) = (MatchKind::All, StateBuilderEmpty::new(alloc));
    let builder = next_counted(
        nfa, kind, &mut sets, &mut stack, state, unit, empty, &mut steps,
    )?;
    Ok((builder.to_state()?, steps))
}
