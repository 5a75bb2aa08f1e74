//! The working memory of steps. One serves any NFA, and several in turn.

ghost use Rattle.std.specs.Prelude.{◌≡◌, ◌<◌, ◌≤◌, length, IfOk, IfSome, IsSome, OnOk};
ghost use Rattle.determinize_below.specs.Nfa.{AllResolve, IsAccepted};
ghost use Rattle.determinize_below.specs.Unit.{byte_of};
ghost use Rattle.determinize_below.specs.declared.search.MatchKind.TheVariants as kinds;
ghost use Rattle.determinize_core.specs.Step.{IsStartOf, start_value, step};
ghost use Rattle.determinize_core.specs.Stepper.{IsPrepared};

use crate::determinize::transition::next;
use crate::determinize::walks::start_state_of;
use determinize_below::{MatchKind, NFA, SparseSets, StateID, Unit};
use determinize_start::start::{Start, start_kind_of};
use determinize_state::state::{State, StateBuilderEmpty, StateBuilderNFA};
use std::alloc::{AllocError, Allocator, Global};
use std::marker::Model;
use std::mem;
use std::mem::size_of;

/// The working memory of steps: two sets, a stack and the memory of the builder.
///
/// It fits each NFA: a call for an NFA with another number of states allocates the sets anew. What
/// a call returns does not depend on it, so contracts do not see what is in it.
pub struct Scratch<A: Allocator = Global> {
    alloc: A,
    sparses: Option<SparseSets<A>>,
    stack: Vec<StateID, A>,
    empty_builder: StateBuilderEmpty<A>,
}

// Derived code is proved again in each crate that drops one.
impl<A: Allocator> Drop for Scratch<A> {
    fn drop(self) {
        let Scratch {
            alloc: _,
            sparses: _,
            stack: _,
            empty_builder: _,
        } = self;
    }
}

impl<A: Allocator> Model for Scratch<A> {
    ghost use Rattle.std.specs.Prelude.{◌≡◌, [], ⊤};

    ghost Value = { ⊤ };

    ghost view = { λ _. tt };

    ghost invariant = { λ s. s.stack.items ≡ [] };
}

/// Allocates the sets, unless they are allocated for this number of states already.
#[inline(always)]
fn prepare<N: Allocator, A: Allocator + Copy>(
    alloc: A,
    nfa: &NFA<N>,
    sparses: &mut Option<SparseSets<A>>,
) -> Result<(), AllocError>
    ensures prepared { OnOk result
        (IfSome sparses.new (λ sets. IsPrepared nfa.now sets.set1 sets.set2)) }
    ensures some { OnOk result (IsSome sparses.new) }
{
    let states = nfa.len();
    let fits = match sparses {
        Some(sets) => sets.set1.capacity() == states && sets.set2.capacity() == states,
        None => false,
    };
    if !fits {
        *sparses = Some(SparseSets::new(alloc, states)?);
    }
    Ok(())
}

/// Takes the builder, and leaves one without memory.
#[inline(always)]
fn take_builder<A: Allocator + Copy>(
    alloc: A,
    builder: &mut StateBuilderEmpty<A>,
) -> StateBuilderEmpty<A> {
    mem::replace(builder, StateBuilderEmpty::new(alloc))
}

impl<A: Allocator + Copy> Scratch<A> {
    /// Returns working memory that is not allocated yet. Calls allocate from `alloc`.
    pub fn new(alloc: A) -> Scratch<A> {
        Scratch {
            alloc,
            sparses: None,
            stack: Vec::new(alloc),
            empty_builder: StateBuilderEmpty::new(alloc),
        }
    }

    /// Returns its heap memory, in bytes. A set has an id and a bit for each NFA state. No clause
    /// says how much it is.
    pub fn memory_usage(&self) -> usize {
        let states = match &self.sparses {
            Some(sparses) => sparses.set1.capacity(),
            None => 0,
        };
        let ids = states.saturating_mul(size_of::<StateID>());
        let bits = states.div_ceil(64).saturating_mul(size_of::<u64>());
        let sets = ids.saturating_add(bits).saturating_mul(2);
        let stack = self.stack.capacity().saturating_mul(size_of::<StateID>());
        sets.saturating_add(stack)
            .saturating_add(self.empty_builder.capacity())
    }

    /// Returns the state before the first unit, as [`start_state`] does: from the NFA state
    /// `start`, behind the byte before the text in reading order, `None` at an end of the haystack.
    pub fn start<N: Allocator>(
        &mut self,
        nfa: &NFA<N>,
        start: StateID,
        look_behind: Option<u8>,
    ) -> Result<State<A>, AllocError>
        requires { start < length nfa.now.states }
        ensures ok { IfOk result (λ state. state ≡ start_value nfa.now start look_behind) }
        ensures resolve { IfOk result (λ state. AllResolve nfa.now state.states) }
        ensures accepted { OnOk result (IsAccepted nfa.now) }
    {
        let terminator = nfa.look_matcher().get_line_terminator();
        self.start_of(nfa, start, start_kind_of(terminator, look_behind))
    }

    /// Returns the state before the first unit for a kind of start: the one that `start` returns
    /// for each byte of this kind. For a kind that does not occur (`Start::occurs`) it is some
    /// state.
    pub fn start_of<N: Allocator>(
        &mut self,
        nfa: &NFA<N>,
        start: StateID,
        kind: Start,
    ) -> Result<State<A>, AllocError>
        requires { start < length nfa.now.states }
        ensures ok { IfOk result (λ state. IsStartOf nfa.now start kind state) }
        ensures resolve { IfOk result (λ state. AllResolve nfa.now state.states) }
        ensures accepted { OnOk result (IsAccepted nfa.now) }
    {
        prepare(self.alloc, nfa, &mut self.sparses)?;
        let Some(sparses) = &mut self.sparses else {
            unreachable!()
        };
        let empty = take_builder(self.alloc, &mut self.empty_builder);
        let builder = start_state_of(nfa, start, kind, sparses, &mut self.stack, empty)?;
        self.finish(builder)
    }

    /// Returns the state after a state of this NFA over a unit of input, as [`next`] does.
    pub fn next<N: Allocator>(
        &mut self,
        nfa: &NFA<N>,
        match_kind: MatchKind,
        state: &State<A>,
        unit: Unit,
    ) -> Result<State<A>, AllocError>
        requires { AllResolve nfa.now state.now.states }
        ensures ok { IfOk result
            (λ after. after ≡ step nfa.now match_kind state.now (byte_of unit)) }
        ensures single { match_kind ≡ kinds.LeftmostFirst
            → IfOk result (λ after. length after.patterns ≤ 1) }
        ensures resolve { IfOk result (λ after. AllResolve nfa.now after.states) }
    {
        let builder = self.build_next(nfa, match_kind, state, unit)?;
        self.finish(builder)
    }

    /// Returns the state that `next` returns, in the memory of the builder and not in a copy. Given
    /// back by `take_back`, the memory is used again by the next call.
    pub fn next_lent<N: Allocator>(
        &mut self,
        nfa: &NFA<N>,
        match_kind: MatchKind,
        state: &State<A>,
        unit: Unit,
    ) -> Result<State<A>, AllocError>
        requires { AllResolve nfa.now state.now.states }
        ensures ok { IfOk result
            (λ after. after ≡ step nfa.now match_kind state.now (byte_of unit)) }
        ensures single { match_kind ≡ kinds.LeftmostFirst
            → IfOk result (λ after. length after.patterns ≤ 1) }
        ensures resolve { IfOk result (λ after. AllResolve nfa.now after.states) }
    {
        Ok(self.build_next(nfa, match_kind, state, unit)?.into_state())
    }

    /// Replaces the memory that is kept for the next builder by that of a state, or by none if the
    /// state is stored inline.
    pub fn take_back(&mut self, state: State<A>) {
        self.empty_builder = StateBuilderEmpty::from_state(state);
    }

    /// Returns the next state in a builder, with the memory that is kept for one.
    fn build_next<N: Allocator>(
        &mut self,
        nfa: &NFA<N>,
        match_kind: MatchKind,
        state: &State<A>,
        unit: Unit,
    ) -> Result<StateBuilderNFA<A>, AllocError>
        requires { AllResolve nfa.now state.now.states }
        ensures ok { IfOk result
            (λ builder. builder ≡ step nfa.now match_kind state.now (byte_of unit)) }
        ensures single { match_kind ≡ kinds.LeftmostFirst
            → IfOk result (λ builder. length builder.patterns ≤ 1) }
        ensures resolve { IfOk result (λ builder. AllResolve nfa.now builder.states) }
    {
        prepare(self.alloc, nfa, &mut self.sparses)?;
        let Some(sparses) = &mut self.sparses else {
            unreachable!()
        };
        let empty = take_builder(self.alloc, &mut self.empty_builder);
        next(
            nfa,
            match_kind,
            sparses,
            &mut self.stack,
            state,
            unit,
            empty,
        )
    }

    /// Returns the state that was built. Keeps the builder's memory for the next one.
    fn finish(&mut self, builder: StateBuilderNFA<A>) -> Result<State<A>, AllocError>
        ensures ok { IfOk result (λ state. state ≡ builder) }
    {
        let state = builder.to_state();
        self.empty_builder = builder.clear();
        state
    }
}
