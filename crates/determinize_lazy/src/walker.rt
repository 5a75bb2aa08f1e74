//! Walks by steps, for a caller that needs each state of a walk, but no list of them.

ghost use Rattle.std.specs.Prelude.{◌≡◌, ◌+◌, ◌∷◌, ◌<◌, ℕ, [], Option, length, slice_get, IfOk, OnErr, OnOk, Some};
ghost use Rattle.determinize_lazy.specs.Clauses.{AllResolve, HasRead, IsWalkedTo, start_value, step, units};
ghost use Rattle.determinize_below.specs.Semantics.{Text as TextValue};

use crate::lazy::LazyDfa;
use determinize_below::{AsNfa, StateID};
use determinize_core::state::State;
use determinize_table::LazyStateId;
use std::alloc::{AllocError, Allocator, Global};
use std::marker::Model;

/// A walk under way, by steps: `LazyDfa::walker` begins it, and `LazyDfa::next` takes a step.
///
/// It owns its state, so it may continue through any cache of the same NFA and match kind,
/// regardless of the other uses of that cache in between.
#[derive(Drop)]
pub struct Walker<A: Allocator = Global> {
    state: State<A>,
    /// The id of the state when the last step was taken, if it was cached then. The cache may have
    /// been cleared since, or the next step is taken through another one.
    id: Option<LazyStateId>,
}

impl<A: Allocator> Model for Walker<A> {
    ghost use Rattle.determinize_core.specs.Value.{Value as StateValue};

    ghost Value = { StateValue };

    ghost view = { λ w. w.state };
}

impl<A: Allocator> Walker<A> {
    /// Returns the state where the walk is.
    pub fn state(&self) -> &State<A>
        ensures { result.now ≡ self.now }
    {
        &self.state
    }
}

impl<R: AsNfa, A: Allocator + Copy> LazyDfa<R, A> {
    /// Returns a walker at the start state of a walk.
    #[tactic(auto, using(crate::proofs::walking::CachedWalks::walked_steps))]
    pub fn walker(
        &mut self,
        start: StateID,
        look_behind: Option<u8>,
    ) -> Result<Walker<A>, AllocError>
        requires { start < length self.old.nfa.states }
        ensures value { IfOk result
            (λ walker. walker ≡ start_value self.old.nfa start look_behind) }
        ensures begun { IfOk result (λ walker. (text : TextValue) → text.behind ≡ look_behind
            → IsWalkedTo self.old.nfa self.old.kind start text 0 walker) }
        ensures resolve { IfOk result (λ walker. AllResolve self.new.nfa walker.states) }
        ensures unchanged { self.new ≡ self.old }
    {
        let state = self.start_state(start, look_behind)?;
        Ok(Walker { state, id: None })
    }

    /// Takes a step of a walk over a byte, or over the end of input (EOI) for `None`: the walker is
    /// then at the next state of the walk. After an error the walker is unchanged, and may take the
    /// same step again.
    pub fn next(&mut self, walker: &mut Walker<A>, unit: Option<u8>) -> Result<(), AllocError>
        ensures value { OnOk result
            (walker.new ≡ step self.old.nfa self.old.kind walker.old unit) }
        ensures walked { (start index : ℕ) (text : TextValue)
            → IsWalkedTo self.old.nfa self.old.kind start text index walker.old
            → slice_get (units text) index ≡ Some unit → OnOk result
            (IsWalkedTo self.old.nfa self.old.kind start text (index + 1) walker.new) }
        ensures resolve { AllResolve self.old.nfa walker.old.states
            → AllResolve self.new.nfa walker.new.states }
        ensures same { OnErr result (walker.new ≡ walker.old) }
        ensures cache { HasRead self.old walker.old (unit ∷ []) result self.new }
    {
        let cursor = self.cursor_of(&walker.state, walker.id)?;
        let next = self.step(cursor, unit)?;
        let id = next.id();
        walker.state = self.table.into_state(next)?;
        walker.id = id;
        Ok(())
    }
}
