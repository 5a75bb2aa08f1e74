//! The start state and each next state of one NFA, with scratch that is kept between calls.

ghost use Rattle.std.specs.Prelude.{◌≡◌, ◌<◌, ◌≤◌, length, IfOk, OnOk};
ghost use Rattle.determinize_below.specs.Nfa.{AllResolve, IsAccepted};
ghost use Rattle.determinize_below.specs.Unit.{byte_of};
ghost use Rattle.determinize_below.specs.declared.search.MatchKind.TheVariants as kinds;
ghost use Rattle.determinize_core.specs.Step.{IsStartOf, start_value, step};

use crate::determinize::scratch::Scratch;
use determinize_below::{MatchKind, NFA, StateID, Unit};
use determinize_start::start::Start;
use determinize_state::state::State;
use std::alloc::{AllocError, Allocator, Global};
use std::marker::Model;

/// Computes the states of a DFA, one at a time: [`start_state`] and [`next`] with the scratch and
/// the memory of the builder, which are reused.
///
/// The states depend on the NFA, the match kind and the arguments of the call only, not on earlier
/// calls. After an error a stepper can be used as before.
///
/// The first `start` or `next` allocates the sets. An error drops the builder's memory, and a state
/// of `next_lent` takes it along. In contracts a stepper is its NFA and its match kind.
pub struct Stepper<'n, N: Allocator = Global, A: Allocator = Global> {
    nfa: &'n NFA<N>,
    match_kind: MatchKind,
    scratch: Scratch<A>,
}

// Derived code is proved again in each crate that drops a stepper.
impl<'n, N: Allocator, A: Allocator> Drop for Stepper<'n, N, A> {
    fn drop(self) {
        let Stepper {
            nfa: _,
            match_kind: _,
            scratch: _,
        } = self;
    }
}

impl<'n, N: Allocator, A: Allocator> Model for Stepper<'n, N, A> {
    ghost use Rattle.determinize_core.specs.Stepper.{StepperValue};

    ghost Value = { StepperValue };

    ghost view = { λ s. record { nfa = s.nfa.now; kind = s.match_kind } };
}

impl<'n, N: Allocator, A: Allocator + Copy> Stepper<'n, N, A> {
    /// Returns a stepper for an NFA, whose calls allocate from `alloc`. Does not allocate.
    pub fn new(alloc: A, nfa: &'n NFA<N>, match_kind: MatchKind) -> Stepper<'n, N, A>
        ensures { result ≡ record { nfa = nfa.now; kind = match_kind } }
    {
        Stepper {
            nfa,
            match_kind,
            scratch: Scratch::new(alloc),
        }
    }

    /// Returns the NFA.
    pub fn nfa(&self) -> &'n NFA<N>
        ensures { result.now ≡ self.now.nfa }
    {
        self.nfa
    }

    /// Returns the match kind.
    pub fn match_kind(&self) -> MatchKind
        ensures { result ≡ self.now.kind }
    {
        self.match_kind
    }

    /// Returns the heap memory of the scratch and of the builder, in bytes. A set has an id and a
    /// bit for each NFA state. No clause says how much it is.
    pub fn memory_usage(&self) -> usize {
        self.scratch.memory_usage()
    }

    /// Returns the state before the first unit, as [`start_state`] does.
    ///
    /// - `start` is the NFA state to start from, below the number of states.
    /// - `look_behind` is the byte before the text in reading order, `None` at an end of the
    ///   haystack.
    pub fn start(&mut self, start: StateID, look_behind: Option<u8>) -> Result<State<A>, AllocError>
        requires { start < length self.old.nfa.states }
        ensures ok { IfOk result (λ state. state ≡ start_value self.old.nfa start look_behind) }
        ensures resolve { IfOk result (λ state. AllResolve self.old.nfa state.states) }
        ensures accepted { OnOk result (IsAccepted self.old.nfa) }
        ensures unchanged { self.new ≡ self.old }
    {
        self.scratch.start(self.nfa, start, look_behind)
    }

    /// Returns the state before the first unit for a kind of start: the state that `start` returns
    /// for each byte of this kind, or behind no byte for `Start::Text`. For a kind that does not
    /// occur (`Start::occurs`) it is some state.
    ///
    /// - `start` is the NFA state to start from, below the number of states.
    pub fn start_of(&mut self, start: StateID, kind: Start) -> Result<State<A>, AllocError>
        requires { start < length self.old.nfa.states }
        ensures ok { IfOk result (λ state. IsStartOf self.old.nfa start kind state) }
        ensures resolve { IfOk result (λ state. AllResolve self.old.nfa state.states) }
        ensures accepted { OnOk result (IsAccepted self.old.nfa) }
        ensures unchanged { self.new ≡ self.old }
    {
        self.scratch.start_of(self.nfa, start, kind)
    }

    /// Returns the state after a state over a unit of input, as [`next`] does.
    ///
    /// - `state` is the current state, and its ids are states of the NFA.
    /// - `unit` is the next byte, or EOI.
    pub fn next(&mut self, state: &State<A>, unit: Unit) -> Result<State<A>, AllocError>
        requires { AllResolve self.old.nfa state.now.states }
        ensures ok { IfOk result
            (λ after. after ≡ step self.old.nfa self.old.kind state.now (byte_of unit)) }
        ensures single { self.old.kind ≡ kinds.LeftmostFirst
            → IfOk result (λ after. length after.patterns ≤ 1) }
        ensures resolve { IfOk result (λ after. AllResolve self.old.nfa after.states) }
        ensures unchanged { self.new ≡ self.old }
    {
        self.scratch.next(self.nfa, self.match_kind, state, unit)
    }

    /// Returns the state that `next` returns, in the memory of the builder and not in a copy. Given
    /// back by `take_back`, the memory is used again by the next call. To keep the state, clone it.
    pub fn next_lent(&mut self, state: &State<A>, unit: Unit) -> Result<State<A>, AllocError>
        requires { AllResolve self.old.nfa state.now.states }
        ensures ok { IfOk result
            (λ after. after ≡ step self.old.nfa self.old.kind state.now (byte_of unit)) }
        ensures single { self.old.kind ≡ kinds.LeftmostFirst
            → IfOk result (λ after. length after.patterns ≤ 1) }
        ensures resolve { IfOk result (λ after. AllResolve self.old.nfa after.states) }
        ensures unchanged { self.new ≡ self.old }
    {
        self.scratch
            .next_lent(self.nfa, self.match_kind, state, unit)
    }

    /// Replaces the memory that is kept for the next builder by that of a state, or by none if the
    /// state is stored inline.
    pub fn take_back(&mut self, state: State<A>)
        ensures unchanged { self.new ≡ self.old }
    {
        self.scratch.take_back(state);
    }
}
