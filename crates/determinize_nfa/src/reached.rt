//! The states of an NFA that its anchored start reaches.

ghost use Rattle.std.specs.Prelude.{◌≡◌, ◌<◌, IfOk, nat_eq, true};
ghost use Rattle.std.specs.List.{IsDistinct};
ghost use Rattle.determinize_below.specs.Nfa.{AllResolve, is_dense_sound, resolves};
ghost use Rattle.determinize_below.specs.Node.{node_of};
ghost use Rattle.determinize_nfa.specs.Private.Arcs.{targets_in};
ghost use Rattle.determinize_nfa.specs.Private.Closed.{IsClosed, all_visited};

use crate::arcs::arc_from;
use determinize_below::nfa::State;
use determinize_below::{NFA, SparseSet, StateID};
use std::alloc::{AllocError, Allocator};

/// Adds each state that a state has a transition to if it is new.
fn visit_targets<N: Allocator, A: Allocator>(found: &mut SparseSet<A>, state: &State<N>)
    requires resolves { resolves found.old.capacity (node_of state.now) ≡ true }
    requires whole { is_dense_sound (node_of state.now) ≡ true }
    ensures { found.new ≡ record found.old {
      ids = all_visited found.old.ids (targets_in (node_of state.now));
    } }
{
    let mut from = 0;
    while let Some((arc, after)) = arc_from(state, from) {
        found.insert(arc.next());
        from = after;
    }
}

/// Returns the states that the anchored start reaches, over transitions of any kind, in the order
/// in which they are found.
pub(crate) fn reached<N: Allocator, A: Allocator + Copy>(
    alloc: A,
    nfa: &NFA<N>,
) -> Result<SparseSet<A>, AllocError>
    ensures closed { IfOk result (λ met. IsClosed nfa.now met.ids) }
    ensures below { IfOk result (λ met. AllResolve nfa.now met.ids) }
    ensures distinct { IfOk result (λ met. IsDistinct nat_eq met.ids) }
{
    let mut found = SparseSet::new(alloc, nfa.len())?;
    found.insert(nfa.start_anchored());
    let mut index = 0;
    while index < found.len() {
        let id = found.as_slice()[index];
        visit_targets(&mut found, nfa.state(id));
        index += 1;
    }
    Ok(found)
}
