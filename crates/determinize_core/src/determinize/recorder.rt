//! Recording what a search finds.
//!
//! One search serves all closures. Those of a start state and of the targets of a transition record
//! each new state in the builder at once, so the set is not read again. The others only fill the
//! set: their recorder is `()`, which compiles to nothing.

ghost use Rattle.std.specs.Prelude.{◌≡◌, ℕ, ◌<◌, length, OnOk};
ghost use Rattle.determinize_below.specs.Semantics.{Nfa};
ghost use Rattle.determinize_state.specs.Recording.{added_one};

use determinize_below::{NFA, StateID};
use determinize_state::recording::add_state;
use determinize_state::state::StateBuilderNFA;
use std::alloc::{AllocError, Allocator};

/// Receives the states that a search finds: a builder, or `()`, which ignores them.
pub(crate) trait Recorder {
    ghost with_one: { Nfa → Self → ℕ → Self };

    /// Records a state after those before.
    fn record<N: Allocator>(&mut self, nfa: &NFA<N>, id: StateID) -> Result<(), AllocError>
        requires { id < length nfa.now.states }
        ensures { OnOk result (self.new ≡ with_one nfa.now self.old id) };
}

impl Recorder for () {
    ghost with_one = { λ nfa recorder id. recorder };

    #[inline(always)]
    fn record<N: Allocator>(&mut self, _nfa: &NFA<N>, _id: StateID) -> Result<(), AllocError> {
        Ok(())
    }
}

impl<A: Allocator> Recorder for StateBuilderNFA<A> {
    ghost with_one = { added_one };

    #[inline(always)]
    fn record<N: Allocator>(&mut self, nfa: &NFA<N>, id: StateID) -> Result<(), AllocError> {
        add_state(nfa, id, self)
    }
}
