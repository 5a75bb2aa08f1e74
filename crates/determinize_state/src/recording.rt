//! Adding NFA states, one or a set, to the builder of a DFA state.

ghost use Rattle.std.specs.Prelude.{◌≡◌, ◌<◌, [], ◌∷◌, length, OnOk, OnErr};
ghost use Rattle.determinize_below.specs.Edges.{is_capture};
ghost use Rattle.determinize_below.specs.Nfa.{AllResolve};
ghost use Rattle.ordered_reach.specs.Runs.{without};
ghost use Rattle.determinize_state.specs.Recording.{added, added_one, needs, recorded, IsGrown};

use crate::state::StateBuilderNFA;
use determinize_below::nfa::State;
use determinize_below::{NFA, SparseSet, StateID};
use std::alloc::{AllocError, Allocator};

/// Adds one NFA state after the others and, for a `Look` state, its assertion to look-need. A
/// capture is skipped: its target is recorded by itself, so nothing is lost. Look-have is
/// unchanged, so [`StateBuilderNFA::settle`] must be called after the last state.
///
/// Unions and `Look` states are recorded although they have no transitions: the closure may be
/// computed again from the recorded states, and then further paths may start in them.
///
/// On error the builder has the assertion, but not the state.
#[inline(always)]
pub fn add_state<N: Allocator, A: Allocator>(
    nfa: &NFA<N>,
    id: StateID,
    builder: &mut StateBuilderNFA<A>,
) -> Result<(), AllocError>
    requires { id < length nfa.now.states }
    ensures ok { OnOk result (builder.new ≡ added_one nfa.now builder.old id) }
    ensures err { OnErr result (builder.new
        ≡ record builder.old { look_need = needs nfa.now builder.old.look_need (id ∷ []) }) }
{
    match nfa.state(id) {
        State::Capture { .. } => return Ok(()),
        State::Look { look, .. } => builder.add_look_need(*look),
        _ => {}
    }
    builder.add_nfa_state_id(id)
}

/// Adds the states of a set. On error a prefix of them may have been added, and assertions to
/// look-need.
fn add_states<N: Allocator, A: Allocator>(
    nfa: &NFA<N>,
    set: &SparseSet<A>,
    builder: &mut StateBuilderNFA<A>,
) -> Result<(), AllocError>
    requires { AllResolve nfa.now set.now.ids }
    ensures ok { OnOk result (builder.new
        ≡ added nfa.now builder.old (without (is_capture nfa.now) set.now.ids)) }
    ensures err { OnErr result (IsGrown builder.old builder.new) }
{
    for id in set.iter() {
        add_state(nfa, id, builder)?;
    }
    Ok(())
}

/// Adds the states of a set, in its order and without captures, after those of the builder. Adds
/// the assertions of the `Look` states among them to look-need. If look-need is empty then,
/// look-have is cleared.
///
/// On error the builder is unchanged.
pub fn add_nfa_states<N: Allocator, A: Allocator>(
    nfa: &NFA<N>,
    set: &SparseSet<A>,
    builder: &mut StateBuilderNFA<A>,
) -> Result<(), AllocError>
    requires { AllResolve nfa.now set.now.ids }
    ensures ok { OnOk result (builder.new ≡ recorded nfa.now builder.old set.now.ids) }
    ensures err { OnErr result (builder.new ≡ builder.old) }
{
    let mark = builder.mark();
    if let Err(error) = add_states(nfa, set, builder) {
        // Only NFA states and look-need have changed since the mark.
        builder.restore(mark);
        return Err(error);
    }
    builder.settle();
    Ok(())
}
