//! Walks over the cache, as a list of their states.

ghost use Rattle.std.specs.Prelude.{◌≡◌, ◌<◌, ◌++◌, ◌∷◌, [], length, IfOk, None, OnOk};
ghost use Rattle.determinize_lazy.specs.Clauses.{between, cache, cursor_value, future, HasRead, IsCursor, IsWalk, start_value, units};
ghost use Rattle.determinize_lazy.specs.Private.{IsCacheAfter, IsFollowed, IsReady};

use crate::lazy::LazyDfa;
use determinize_below::{AsNfa, StateID};
use determinize_core::state::State;
use determinize_engine::text::Text;
use determinize_table::{Cursor, LazyStateId};
use std::alloc::{AllocError, Allocator};

impl<R: AsNfa, A: Allocator + Copy> LazyDfa<R, A> {
    /// Follows cached transitions over the bytes of a text from an index on, and adds a clone of
    /// each state. Returns the id of the last one and the index of the first unit not read. The
    /// last unit, which may be EOI, is left to the caller.
    #[inline(always)]
    fn follow_bytes(
        &self,
        from: LazyStateId,
        start: usize,
        text: &Text<'_>,
        states: &mut Vec<State<A>, A>,
    ) -> Result<(LazyStateId, usize), AllocError>
        requires { from < length self.now.states }
        ensures { IfOk result (λ at. IsFollowed (units text.now) self.now from start
            states.old.items at.0 at.1 states.new.items) }
    {
        let mut id = from;
        let mut read = start;
        while read < text.len() {
            let Some(next) = self.table.lookup(id, Some(text.byte(read))) else {
                return Ok((id, read));
            };
            states.push(self.table.get(next).clone()?)?;
            id = next;
            read += 1;
        }
        Ok((id, read))
    }

    /// Adds a clone of the state at a cursor.
    ///
    /// Inlined, since a call that borrows the list would keep its length in memory for the whole
    /// walk.
    #[inline(always)]
    fn push_state(
        &self,
        cursor: &Cursor<A>,
        states: &mut Vec<State<A>, A>,
    ) -> Result<(), AllocError>
        requires { IsCursor self.now.states cursor.now }
        ensures { OnOk result (states.new.items
            ≡ states.old.items ++ cursor_value self.now.states cursor.now ∷ []) }
    {
        states.push(self.table.state(cursor).clone()?)?;
        Ok(())
    }

    /// Returns the states of a walk over a text from its first state on.
    fn walk_on(&mut self, first: Cursor<A>, text: &Text<'_>) -> Result<Vec<State<A>, A>, AllocError>
        requires { IsReady self.old first }
        ensures values { IfOk result (λ states. states.items ≡ future self.old.nfa self.old.kind
            (cursor_value self.old.states first) (units text.now)) }
        ensures left { IsCacheAfter (cache self.old) (cursor_value self.old.states first)
            (units text.now) result (cache self.new) }
    {
        let mut states = Vec::with_capacity(self.alloc, text.len() + 2)?;
        self.push_state(&first, &mut states)?;
        let mut cursor = first;
        let mut read = 0;
        while read <= text.len() {
            let unit = text.unit(read);
            cursor = self.step(cursor, unit)?;
            self.push_state(&cursor, &mut states)?;
            read += 1;
            if let Cursor::Cached(id) = &cursor {
                let (id, next) = self.follow_bytes(*id, read, text, &mut states)?;
                cursor = Cursor::Cached(id);
                read = next;
            }
        }
        Ok(states)
    }

    /// Returns the states of a walk over a text, as `walk` of `determinize_core` does: the start
    /// state, the state that follows over each byte and, last, over the end of input (EOI).
    pub fn walk(
        &mut self,
        start: StateID,
        look_behind: Option<u8>,
        text: &[u8],
    ) -> Result<Vec<State<A>, A>, AllocError>
        requires { start < length self.old.nfa.states }
        ensures walk { IfOk result (λ states. IsWalk self.old.nfa self.old.kind start
            (between look_behind text.now None) states.items) }
        ensures cache { HasRead self.old (start_value self.old.nfa start look_behind)
            (units (between look_behind text.now None)) result self.new }
    {
        self.walk_between(start, look_behind, text, None)
    }

    /// Returns the states of a walk over a text, as `walk` does, but the last state follows over
    /// `look_ahead`.
    pub fn walk_between(
        &mut self,
        start: StateID,
        look_behind: Option<u8>,
        text: &[u8],
        look_ahead: Option<u8>,
    ) -> Result<Vec<State<A>, A>, AllocError>
        requires { start < length self.old.nfa.states }
        ensures walk { IfOk result (λ states. IsWalk self.old.nfa self.old.kind start
            (between look_behind text.now look_ahead) states.items) }
        ensures cache { HasRead self.old (start_value self.old.nfa start look_behind)
            (units (between look_behind text.now look_ahead)) result self.new }
    {
        let text = Text::new(look_behind, text, look_ahead);
        let first = self.start(start, text.behind())?;
        self.walk_on(first, &text)
    }
}
