//! Steps of walks and searches: over a cached transition, or computed and cached by the rule.
//!
//! The start states of walks and searches are kept by the kind of their start, which is all that
//! they depend on besides the NFA state. Only starts from the two start states of the NFA are kept,
//! and the table drops them when it is cleared. A start state is computed if no id of it is kept:
//! from any other NFA state always, and else until the state was found cached.

ghost use Rattle.std.specs.Prelude.{Decides, ◌≡◌, ◌<◌, ℕ, false, length, IfOk};
ghost use Rattle.std.specs.Option.{option_copied};
ghost use Rattle.determinize_lazy.specs.Clauses.{cache, classes_from, cursor_value, is_cached, IsCursor, start_value, tag_in, tag_of};
ghost use Rattle.determinize_lazy.specs.Private.{IsReady, IsSound, IsStarted, IsStateOf, IsStepped};
ghost use Rattle.determinize_table.specs.declared.table.Cursor.TheVariants as cursors;

use crate::cached::start_number;
use crate::lazy::LazyDfa;
use determinize_below::{AsNfa, NFA, StateID, Unit};
use determinize_core::state::State;
use determinize_table::{ClassSpans, Cursor, LazyStateId, StateTag};
use std::alloc::{AllocError, Allocator};

/// Returns whether a state may be one of the DFA of an NFA: each id in it is that of a state of the
/// NFA, and it lists no more patterns and no more states than the NFA has.
fn is_state_of<N: Allocator, A: Allocator>(nfa: &NFA<N>, state: &State<A>) -> bool
    ensures { Decides result (IsStateOf nfa.now state.now) }
{
    // Without patterns there is no need to count those of the NFA, which takes a pass over it.
    if state.is_match() && state.match_len() > nfa.pattern_len() {
        return false;
    }
    let count = nfa.len();
    let mut listed = 0;
    for id in state.iter_nfa_state_ids() {
        if listed == count || id.as_usize() >= count {
            return false;
        }
        listed += 1;
    }
    true
}

/// Returns the classes of bytes over which a step from a state is the same: none, if the state
/// needs an assertion that the NFA does not test.
fn classes_from<'s, N: Allocator, A: Allocator>(
    nfa: &NFA<N>,
    state: &State<A>,
    spans: &'s Option<ClassSpans>,
) -> Option<&'s ClassSpans>
    ensures { option_copied result ≡ classes_from nfa.now state.now spans.now }
{
    let tested = nfa.look_set_any();
    match spans {
        Some(spans) if state.look_need().union(tested) == tested => Some(spans),
        _ => None,
    }
}

impl<R: AsNfa, A: Allocator + Copy> LazyDfa<R, A> {
    /// Returns the state before the first unit.
    pub(crate) fn start_state(
        &mut self,
        start: StateID,
        look_behind: Option<u8>,
    ) -> Result<State<A>, AllocError>
        requires { start < length self.old.nfa.states }
        ensures value { IfOk result
            (λ state. state ≡ start_value self.old.nfa start look_behind) }
        ensures known { IfOk result (λ state. IsStateOf self.old.nfa state) }
        ensures sound { IsSound (cache self.old) }
        ensures unchanged { self.new ≡ self.old }
    {
        self.scratch.start(self.nfa.nfa(), start, look_behind)
    }

    /// Returns where a walk or a search begins. If `start` is one of the two start states of the
    /// NFA and the start state is cached, its id is kept: the next one from it looks up and
    /// computes nothing to begin.
    #[inline(always)]
    pub(crate) fn start(
        &mut self,
        start: StateID,
        look_behind: Option<u8>,
    ) -> Result<Cursor<A>, AllocError>
        requires { start < length self.old.nfa.states }
        ensures { IsStarted self.old (start_value self.old.nfa start look_behind) result self.new }
    {
        match self.kept_start(start, look_behind) {
            Some(id) => Ok(Cursor::Cached(id)),
            None => self.find_start(start, look_behind),
        }
    }

    /// Returns where a walk or a search begins whose start is not kept, and keeps it if it is
    /// cached.
    #[cold]
    #[inline(never)]
    pub(crate) fn find_start(
        &mut self,
        start: StateID,
        look_behind: Option<u8>,
    ) -> Result<Cursor<A>, AllocError>
        requires { start < length self.old.nfa.states }
        ensures { IsStarted self.old (start_value self.old.nfa start look_behind) result self.new }
    {
        let state = self.start_state(start, look_behind)?;
        let Some(id) = self.table.find(&state, None) else {
            return Ok(Cursor::Uncached(state));
        };
        if let Some(number) = start_number(self.nfa.nfa(), start, look_behind) {
            self.table.set_start(number, id);
        }
        Ok(Cursor::Cached(id))
    }

    /// Returns the cursor of a borrowed state: a copy of it, if it is not cached. `likely` is an id
    /// that it may have.
    ///
    /// Returns `AllocError` also if the state cannot be one of the DFA of the NFA (`is_state_of`).
    /// No such state is cached.
    pub(crate) fn cursor_of(
        &self,
        state: &State<A>,
        likely: Option<LazyStateId>,
    ) -> Result<Cursor<A>, AllocError>
        ensures ready { IfOk result (λ cursor. IsReady self.now cursor) }
        ensures value { IfOk result (λ cursor. cursor_value self.now.states cursor ≡ state.now) }
        ensures sound { IsSound (cache self.now) }
    {
        match self.table.find(state, likely) {
            Some(id) => Ok(Cursor::Cached(id)),
            None if is_state_of(self.nfa.nfa(), state) => Ok(Cursor::Uncached(state.clone()?)),
            None => Err(AllocError),
        }
    }

    /// Returns the tag of the state at a cursor.
    #[inline(always)]
    pub(crate) fn tag_at(&self, cursor: &Cursor<A>) -> StateTag
        requires { IsCursor self.now.states cursor.now }
        ensures { tag_in result.bits ≡ tag_of (cursor_value self.now.states cursor.now) }
    {
        match cursor {
            Cursor::Cached(id) => self.table.tag(*id),
            Cursor::Uncached(state) => StateTag::of(state),
        }
    }

    /// Takes one step over a unit: to the target of the cached transition, or else to the state
    /// that is computed.
    #[inline(always)]
    pub(crate) fn step(
        &mut self,
        cursor: Cursor<A>,
        unit: Option<u8>,
    ) -> Result<Cursor<A>, AllocError>
        requires { IsReady self.old cursor }
        ensures { IsStepped self.old (cursor_value self.old.states cursor) unit result self.new }
    {
        match cursor {
            Cursor::Cached(id) => match self.table.lookup(id, unit) {
                Some(next) => Ok(Cursor::Cached(next)),
                None => self.compute(Cursor::Cached(id), unit),
            },
            Cursor::Uncached(state) => self.compute(Cursor::Uncached(state), unit),
        }
    }

    /// Takes a step that is not cached: the state that follows is computed and counted, and the
    /// transition is cached by the rule, with those that share it. No other call computes one.
    #[cold]
    #[inline(never)]
    fn compute(&mut self, cursor: Cursor<A>, unit: Option<u8>) -> Result<Cursor<A>, AllocError>
        requires ready { IsReady self.old cursor }
        requires uncached { (id : ℕ) → cursor ≡ cursors.Cached id → is_cached (cache self.old).table
            (cursor_value self.old.states cursor) unit ≡ false }
        ensures { IsStepped self.old (cursor_value self.old.states cursor) unit result self.new }
    {
        let state = self.table.state(&cursor);
        let spans = classes_from(self.nfa.nfa(), state, &self.spans);
        let following = self
            .scratch
            .next(self.nfa.nfa(), self.match_kind, state, Unit::from(unit))?;
        self.computed = self.computed.saturating_add(1);
        self.table.keep(cursor, unit, following, self.limit, spans)
    }
}
