//! A builder of NFAs, which adds one state after another.
//!
//! Each call that adds a state returns its id. A target that is not known yet is any id at first,
//! and `patch` sets it later. A union whose alternates are not known yet is `add_union(&[])`, and
//! `close` sets its alternates: so the body of a loop can have a transition to an earlier state.

ghost use Rattle.std.specs.Prelude.{◌≡◌, ◌+◌, ◌++◌, ◌<◌, ◌∷◌, [], Some, IfErr, IfOk, OnErr, OnOk, false, if◌then◌else◌, is_ok, length, map, option_map, slice_get, slice_index_or, true, vec_len, ◌⊎◌};
ghost use Rattle.std.specs.List.{position};
ghost use Rattle.determinize_below.specs.Nfa.{failure};
ghost use Rattle.determinize_below.specs.Semantics as nodes;
ghost use Rattle.determinize_below.specs.Node.{node_of};
ghost use Rattle.determinize_nfa.specs.Builder as builders;
ghost use Rattle.determinize_nfa.specs.Builder.{IsApart, IsNotSet, IsUnfit, built, closed, has_transition_to, is_patchable, is_place, patched, prefixed, with_match, with_node};
ghost use Rattle.determinize_nfa.specs.Prefix as prefixes;
ghost use Rattle.determinize_nfa.specs.Prefix.{HasPrefix, HasPrefixApart};
ghost use Rattle.determinize_nfa.specs.Reversal.{IsTooLarge};

use crate::prefix::leads_to;
use determinize_below::nfa::{BuildError, DenseTransitions, SparseTransitions, State, Transition};
use determinize_below::{Look, LookMatcher, NFA, PatternID, StateID};
use std::alloc::{AllocError, Allocator};
use std::marker::Model;

/// A builder of an NFA that reads forward.
///
/// A call that adds a state returns `TooManyStates` if there are already 2147483647, and
/// `OutOfMemory` if an allocation fails. If a call returns an error, the builder is as before. An
/// id that is that of no state, or a sparse state that is not sorted, is an error when the NFA is
/// built.
pub struct Builder<A: Allocator> {
    alloc: A,
    states: Vec<State<A>, A>,
    patterns: usize,
    look_matcher: LookMatcher,
}

// Derived code is proved again at each exit of a function that owns one.
impl<A: Allocator> Drop for Builder<A> {
    fn drop(self) {
        let Builder {
            alloc: _,
            states: _,
            patterns: _,
            look_matcher: _,
        } = self;
    }
}

impl<A: Allocator> Model for Builder<A> {
    ghost use Rattle.std.specs.Prelude.{◌≤◌, length, map};
    ghost use Rattle.determinize_below.specs.Node.{node_of};
    ghost use Rattle.determinize_nfa.specs.Builder.{BuilderValue};

    ghost Value = { BuilderValue };

    ghost view = { λ b. record {
      states = map node_of b.states.items;
      patterns = b.patterns;
      terminator = b.look_matcher;
    } };

    ghost invariant = { λ b. b.patterns ≤ length b.states.items };
}

impl<A: Allocator + Copy> Builder<A> {
    /// Returns a builder with no state. The line terminator is `\n`.
    pub fn new(alloc: A) -> Builder<A>
        ensures { result ≡ record { states = []; patterns = 0; terminator = 10 } }
    {
        Builder {
            alloc,
            states: Vec::new(alloc),
            patterns: 0,
            look_matcher: LookMatcher::new(),
        }
    }

    /// Returns the number of states, which is the id of the next one.
    pub fn len(&self) -> usize
        ensures { result ≡ length self.now.states }
    {
        self.states.len()
    }

    /// Returns the number of patterns: each match state has its own.
    pub fn pattern_len(&self) -> usize
        ensures { result ≡ self.now.patterns }
    {
        self.patterns
    }

    /// Returns the state with this id, if there is one.
    pub fn get(&self, id: StateID) -> Option<&State<A>>
        ensures { option_map (λ state. node_of state.now) result ≡ slice_get self.now.states id }
    {
        self.states.get(id.as_usize())
    }

    /// Sets the line terminator.
    pub fn set_look_matcher(&mut self, look_matcher: LookMatcher)
        ensures { self.new ≡ record self.old { terminator = look_matcher } }
    {
        self.look_matcher = look_matcher;
    }

    /// Adds a state, and returns its id.
    fn add(&mut self, state: State<A>) -> Result<StateID, BuildError>
        ensures id { IfOk result (λ id. id ≡ length self.old.states) }
        ensures added { OnOk result (self.new ≡ with_node self.old (node_of state)) }
        ensures failed { OnErr result (self.new ≡ self.old) }
        ensures err { IfErr result (λ e. IsTooLarge (length self.old.states + 1) e) }
    {
        let id = StateID::new(self.states.len())?;
        push_state(&mut self.states, state)?;
        Ok(id)
    }

    /// Adds a state with a transition without input to state 0, and returns its id. `patch` sets
    /// the target.
    pub fn add_empty(&mut self) -> Result<StateID, BuildError>
        ensures id { IfOk result (λ id. id ≡ length self.old.states) }
        ensures added { OnOk result (self.new ≡ with_node self.old (nodes.Capture 0)) }
        ensures failed { OnErr result (self.new ≡ self.old) }
        ensures err { IfErr result (λ e. IsTooLarge (length self.old.states + 1) e) }
    {
        let next = StateID::ZERO;
        self.add(State::Capture { next })
    }

    /// Adds a state with a transition on a range of bytes, and returns its id.
    pub fn add_range(&mut self, trans: Transition) -> Result<StateID, BuildError>
        ensures id { IfOk result (λ id. id ≡ length self.old.states) }
        ensures added { OnOk result (self.new ≡ with_node self.old (nodes.ByteRange trans)) }
        ensures failed { OnErr result (self.new ≡ self.old) }
        ensures err { IfErr result (λ e. IsTooLarge (length self.old.states + 1) e) }
    {
        self.add(State::ByteRange { trans })
    }

    /// Adds a state with transitions on several ranges of bytes, and returns its id. They must be
    /// sorted, not empty and not overlap, or the NFA is not built.
    pub fn add_sparse(&mut self, transitions: &[Transition]) -> Result<StateID, BuildError>
        ensures id { IfOk result (λ id. id ≡ length self.old.states) }
        ensures added { OnOk result
            (self.new ≡ with_node self.old (nodes.Sparse transitions.now)) }
        ensures failed { OnErr result (self.new ≡ self.old) }
        ensures err { IfErr result (λ e. IsTooLarge (length self.old.states + 1) e) }
    {
        let transitions = Vec::from_slice(self.alloc, transitions)?;
        self.add(State::Sparse(SparseTransitions { transitions }))
    }

    /// Adds a state with a transition without input where an assertion holds, and returns its id.
    pub fn add_look(&mut self, next: StateID, look: Look) -> Result<StateID, BuildError>
        ensures id { IfOk result (λ id. id ≡ length self.old.states) }
        ensures added { OnOk result (self.new ≡ with_node self.old (nodes.Look look next)) }
        ensures failed { OnErr result (self.new ≡ self.old) }
        ensures err { IfErr result (λ e. IsTooLarge (length self.old.states + 1) e) }
    {
        self.add(State::Look { look, next })
    }

    /// Adds a state with transitions without input to these states, in order of preference, and
    /// returns its id. The alternates of `add_union(&[])` can be set later by `close`.
    pub fn add_union(&mut self, alternates: &[StateID]) -> Result<StateID, BuildError>
        ensures id { IfOk result (λ id. id ≡ length self.old.states) }
        ensures added { OnOk result (self.new ≡ with_node self.old (nodes.Union alternates.now)) }
        ensures failed { OnErr result (self.new ≡ self.old) }
        ensures err { IfErr result (λ e. IsTooLarge (length self.old.states + 1) e) }
    {
        let alternates = Vec::from_slice(self.alloc, alternates)?;
        self.add(State::Union { alternates })
    }

    /// Adds a state with no transition, and returns its id.
    pub fn add_fail(&mut self) -> Result<StateID, BuildError>
        ensures id { IfOk result (λ id. id ≡ length self.old.states) }
        ensures added { OnOk result (self.new ≡ with_node self.old nodes.Fail) }
        ensures failed { OnErr result (self.new ≡ self.old) }
        ensures err { IfErr result (λ e. IsTooLarge (length self.old.states + 1) e) }
    {
        self.add(State::Fail)
    }

    /// Adds the match state of the next pattern, and returns its id. The first match state is that
    /// of pattern 0.
    pub fn add_match(&mut self) -> Result<StateID, BuildError>
        ensures id { IfOk result (λ id. id ≡ length self.old.states) }
        ensures added { OnOk result (self.new ≡ with_match self.old) }
        ensures failed { OnErr result (self.new ≡ self.old) }
        ensures err { IfErr result (λ e. IsTooLarge (length self.old.states + 1) e) }
    {
        let id = StateID::new(self.states.len())?;
        let pattern_id = PatternID::must(self.patterns);
        push_state(&mut self.states, State::Match { pattern_id })?;
        self.patterns += 1;
        Ok(id)
    }

    /// Sets the target of a state that has one target, or adds a last alternate to a union.
    ///
    /// `to` may be any id. Returns `NotPatchable` if `from` is the id of no state, or of a sparse
    /// state, a match state or a fail state. To patch a sparse state, give it an empty state as its
    /// target and patch that.
    pub fn patch(&mut self, from: StateID, to: StateID) -> Result<(), BuildError>
        ensures patched { OnOk result (self.new ≡ patched self.old from to) }
        ensures patchable { OnOk result
            (is_patchable (slice_index_or self.old.states from nodes.Fail) ≡ true) }
        ensures failed { OnErr result (self.new ≡ self.old) }
        ensures count { length self.new.states ≡ length self.old.states }
        ensures err { IfErr result (λ e.
            IsNotSet (is_patchable (slice_index_or self.old.states from nodes.Fail)) from e) }
    {
        let index = from.as_usize();
        if index >= self.states.len() {
            return Err(BuildError::NotPatchable(index));
        }
        redirect(&mut self.states[index], to, index)
    }

    /// Gives a union without alternates, as `add_union(&[])` adds it, these alternates, in order of
    /// preference. Returns `NotPatchable` for the id of any other state, or of none.
    pub fn close(&mut self, union: StateID, alternates: &[StateID]) -> Result<(), BuildError>
        ensures closed { OnOk result (self.new ≡ closed self.old union alternates.now) }
        ensures place { OnOk result
            (is_place (slice_index_or self.old.states union nodes.Fail) ≡ true) }
        ensures failed { OnErr result (self.new ≡ self.old) }
        ensures count { length self.new.states ≡ length self.old.states }
        ensures err { IfErr result (λ e.
            IsNotSet (is_place (slice_index_or self.old.states union nodes.Fail)) union e) }
    {
        let index = union.as_usize();
        if index >= self.states.len() {
            return Err(BuildError::NotPatchable(index));
        }
        if !is_empty_union(&self.states[index]) {
            return Err(BuildError::NotPatchable(index));
        }
        let alternates = Vec::from_slice(self.alloc, alternates)?;
        set_alternates(&mut self.states[index], alternates);
        Ok(())
    }

    /// Returns the NFA of the states that were added, or the first error that its validation finds.
    pub fn build(
        &self,
        start_anchored: StateID,
        start_unanchored: StateID,
    ) -> Result<NFA<A>, BuildError>
        ensures ok { IfOk result (λ nfa. nfa ≡ built self.now start_anchored start_unanchored) }
        ensures accepted { OnOk result
            (failure self.now.states start_anchored start_unanchored ≡ None) }
        ensures err { IfErr result (λ e.
            (failure self.now.states start_anchored start_unanchored ≡ Some e)
            ⊎ (e ≡ BuildError.OutOfMemory)) }
    {
        let states = copies(self.alloc, self.states.as_slice())?;
        let (anchored, unanchored) = (start_anchored, start_unanchored);
        let matcher = self.look_matcher;
        NFA::from_parts(self.alloc, states, anchored, unanchored, false, matcher)
    }

    /// Returns the NFA of the states that were added and of the usual prefix, `(?s-u:.)*?`, which
    /// is its unanchored start. The two states of the prefix have the ids `len()` and `len() + 1`.
    ///
    /// Returns `UnresolvedStart` if `start_anchored` is not below `len()`, `UnresolvedId` for a
    /// state with a transition to one of these two, `TooManyStates` if there are not two more ids,
    /// and otherwise the errors of `build`.
    #[tactic(auto, using(crate::proofs::building::Building::unfit_memory))]
    pub fn build_with_prefix(&self, start_anchored: StateID) -> Result<NFA<A>, BuildError>
        ensures prefix { IfOk result (λ nfa. HasPrefix nfa) }
        ensures separate { IfOk result (λ nfa. HasPrefixApart nfa) }
        ensures forward { IfOk result (λ nfa. nfa.reverse ≡ false) }
        ensures ok { IfOk result (λ nfa. nfa
            ≡ built (prefixed self.now start_anchored) start_anchored (length self.now.states)) }
        ensures apart { OnOk result (IsApart self.now) }
        ensures err { IfErr result (λ e. IsUnfit self.now start_anchored e) }
    {
        let count = self.states.len();
        let skip = StateID::new(count + 1)?;
        let union = StateID::must(count);
        if start_anchored.as_usize() >= count {
            return Err(BuildError::UnresolvedStart);
        }
        if let Some(index) = first_to(self.states.as_slice(), union, skip) {
            return Err(BuildError::UnresolvedId(index));
        }
        let mut states = copies(self.alloc, self.states.as_slice())?;
        push_prefix(&mut states, start_anchored, union, skip)?;
        let matcher = self.look_matcher;
        NFA::from_parts(self.alloc, states, start_anchored, union, false, matcher)
    }
}

/// Adds a state at the end.
#[tactic(auto, using(crate::proofs::building::Building::pushing))]
pub(crate) fn push_state<A: Allocator>(
    states: &mut Vec<State<A>, A>,
    state: State<A>,
) -> Result<(), AllocError>
    ensures items { states.new.items
        ≡ (if is_ok result then states.old.items ++ state ∷ [] else states.old.items) }
    ensures len { vec_len states.new
        ≡ (if is_ok result then vec_len states.old + 1 else vec_len states.old) }
    ensures nodes { OnOk result
        (map node_of states.new.items ≡ map node_of states.old.items ++ node_of state ∷ []) }
{
    Ok(states.push(state)?)
}

/// Adds the two states of the usual prefix: a union that prefers the start, and a range of all
/// bytes back to it.
fn push_prefix<A: Allocator>(
    states: &mut Vec<State<A>, A>,
    start: StateID,
    union: StateID,
    skip: StateID,
) -> Result<(), AllocError>
    ensures { OnOk result (map node_of states.new.items
        ≡ (map node_of states.old.items ++ nodes.BinaryUnion start skip ∷ [])
        ++ nodes.ByteRange record { start = 0; end = 255; next = union } ∷ []) }
{
    let (alt1, alt2) = (start, skip);
    push_state(states, State::BinaryUnion { alt1, alt2 })?;
    let (start, end, next) = (0, 255, union);
    let trans = Transition { start, end, next };
    push_state(states, State::ByteRange { trans })
}

/// Returns whether the state is a union without alternates.
fn is_empty_union<A: Allocator>(state: &State<A>) -> bool
    ensures { result ≡ is_place (node_of state.now) }
{
    match state {
        State::Union { alternates } => alternates.is_empty(),
        _ => false,
    }
}

/// Sets the alternates of a union.
fn set_alternates<A: Allocator>(state: &mut State<A>, ids: Vec<StateID, A>)
    requires { is_place (node_of state.old) ≡ true }
    ensures { node_of state.new ≡ nodes.Union ids.items }
{
    if let State::Union { alternates } = state {
        *alternates = ids;
    }
}

/// Returns a copy of the state.
fn copy<A: Allocator + Copy>(alloc: A, state: &State<A>) -> Result<State<A>, AllocError>
    ensures { IfOk result (λ made. node_of made ≡ node_of state.now) }
{
    let made = match state {
        State::ByteRange { trans } => State::ByteRange { trans: *trans },
        State::Sparse(sparse) => {
            let transitions = Vec::from_slice(alloc, sparse.transitions.as_slice())?;
            State::Sparse(SparseTransitions { transitions })
        }
        State::Dense(dense) => {
            let transitions = Vec::from_slice(alloc, dense.transitions.as_slice())?;
            State::Dense(DenseTransitions { transitions })
        }
        State::Look { look, next } => State::Look {
            look: *look,
            next: *next,
        },
        State::Union { alternates } => {
            let alternates = Vec::from_slice(alloc, alternates.as_slice())?;
            State::Union { alternates }
        }
        State::BinaryUnion { alt1, alt2 } => State::BinaryUnion {
            alt1: *alt1,
            alt2: *alt2,
        },
        State::Capture { next } => State::Capture { next: *next },
        State::Fail => State::Fail,
        State::Match { pattern_id } => State::Match {
            pattern_id: *pattern_id,
        },
    };
    Ok(made)
}

/// Returns copies of the states.
fn copies<A: Allocator + Copy>(
    alloc: A,
    states: &[State<A>],
) -> Result<Vec<State<A>, A>, AllocError>
    ensures { IfOk result (λ made. map node_of made.items ≡ map node_of states.now) }
{
    let mut made = Vec::new(alloc);
    for state in states {
        push_state(&mut made, copy(alloc, state)?)?;
    }
    Ok(made)
}

/// Sets the target of the state with this index if it has one target, or adds a last alternate to a
/// union.
fn redirect<A: Allocator>(state: &mut State<A>, to: StateID, index: usize) -> Result<(), BuildError>
    ensures redirected { OnOk result
        (node_of state.new ≡ builders.redirected to (node_of state.old)) }
    ensures patchable { OnOk result (is_patchable (node_of state.old) ≡ true) }
    ensures failed { OnErr result (node_of state.new ≡ node_of state.old) }
    ensures err { IfErr result (λ e. IsNotSet (is_patchable (node_of state.old)) index e) }
{
    match state {
        State::ByteRange { trans } => trans.next = to,
        State::Look { next, .. } => *next = to,
        State::Capture { next } => *next = to,
        State::Union { alternates } => alternates.push(to)?,
        _ => return Err(BuildError::NotPatchable(index)),
    }
    Ok(())
}

/// Returns the index of the first state with a transition to one of two states, if any.
fn first_to<A: Allocator>(states: &[State<A>], id: StateID, other: StateID) -> Option<usize>
    ensures { result ≡ position (λ s. has_transition_to id other (node_of s)) states.now }
{
    for index in 0..states.len() {
        let state = &states[index];
        if leads_to(state, id) || leads_to(state, other) {
            return Some(index);
        }
    }
    None
}
