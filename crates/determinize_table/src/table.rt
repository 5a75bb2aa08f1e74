//! The transition table: the cached states, a row for each, the ids of the start states that
//! searches have used, and the rule of what is cached (`keep`).

ghost use Rattle.std.specs.Prelude.{◌≡◌, ◌*◌, ◌<◌, ◌≤◌, false, true, length, min, nat_le, slice_get, slice_index_or, slice_set, IfOk, None, Some};
ghost use Rattle.std.specs.List.{list_any};
ghost use Rattle.std.specs.Option.{option_copied};
ghost use Rattle.determinize_core.specs.Equality.{same};
ghost use Rattle.determinize_core.specs.Value.{Value as StateValue};
ghost use Rattle.determinize_engine.specs.States.{IsIndex};
ghost use Rattle.determinize_start.specs.declared.start.TheConstants.StartSlot.{COUNT};
ghost use Rattle.determinize_table.specs.Changes.{IsInterned, IsKept, IsWritten};
ghost use Rattle.determinize_table.specs.Cursors.{IsCursor, IsIndexBefore, cursor_value};
ghost use Rattle.determinize_table.specs.CacheBytes.{cache_bytes};
ghost use Rattle.determinize_table.specs.Rows.{IsEmpty, IsTarget, table_of};
ghost use Rattle.determinize_table.specs.Stored.{column, is_unit};
ghost use Rattle.determinize_table.specs.Table.{in_one_class, in_range, keep, shares, with_transition, with_value};
ghost use Rattle.determinize_table.specs.Tags.{tag_in, tag_of};

use crate::looping::Loop;
use crate::spans::ClassSpans;
use crate::state_id::{COLUMNS, LazyStateId, UNITS};
use crate::tag::StateTag;
use determinize_core::start::StartSlot;
use determinize_core::state::State;
use determinize_engine::state_table::{MAX_STATES, StateTable};
use std::alloc::{AllocError, Allocator, Global};
use std::marker::Model;
use std::mem::size_of;

/// The entry of a transition that is not cached. It is the offset of no row, since these are
/// multiples of 258.
const UNKNOWN: u32 = 1;

/// Where a walk or a search is.
#[derive(Drop)]
pub enum Cursor<A: Allocator = Global> {
    /// At a cached state.
    Cached(LazyStateId),
    /// At a state that is not cached.
    Uncached(State<A>),
}

impl<A: Allocator> Cursor<A> {
    /// Returns the id of the state, if it is cached.
    pub fn id(&self) -> Option<LazyStateId> {
        match self {
            Cursor::Cached(id) => Some(*id),
            Cursor::Uncached(_) => None,
        }
    }
}

/// The cached states, the cached transitions between them, and the ids of cached start states.
#[derive(Drop)]
pub struct TransitionTable<A: Allocator = Global> {
    states: StateTable<A>,
    rows: Vec<u32, A>,
    // The ids of start states, by the numbers of their slots. `clear` removes them.
    starts: [Option<LazyStateId>; StartSlot::COUNT],
    // `None` wherever a transition or a state is added.
    pub(crate) looping: Option<Loop>,
}

impl<A: Allocator> Model for TransitionTable<A> {
    ghost use Rattle.determinize_table.specs.Looping.{IsWhole};
    ghost use Rattle.determinize_table.specs.Rows.{StoredTable};

    ghost Value = { StoredTable };

    ghost view = { λ t. record {
      states = t.states;
      rows = t.rows.items;
      starts = t.starts;
    } };

    ghost invariant = { λ t. IsWhole record {
      states = t.states;
      rows = t.rows.items;
      starts = t.starts;
    } t.looping };
}

/// Returns the column of a unit in a row.
#[inline(always)]
fn column(unit: Option<u8>) -> usize
    ensures value { result ≡ column unit }
    ensures limit { result < UNITS }
    ensures is_unit { is_unit unit ≡ true }
{
    match unit {
        Some(byte) => byte as usize,
        None => 256,
    }
}

impl<A: Allocator + Copy> TransitionTable<A> {
    /// Returns a table in which nothing is cached. Does not allocate.
    pub fn new(alloc: A) -> TransitionTable<A>
        ensures { IsEmpty result }
    {
        TransitionTable {
            states: StateTable::new(alloc),
            rows: Vec::new(alloc),
            starts: [None; StartSlot::COUNT],
            looping: None,
        }
    }

    /// Removes all transitions, states and start states.
    pub fn clear(&mut self)
        ensures { IsEmpty self.new }
    {
        self.states.clear();
        self.rows.clear();
        // The borrow checker does not cover an array that is assigned to a field as it is made.
        let starts = [None; StartSlot::COUNT];
        self.starts = starts;
        self.looping = None;
    }

    /// Returns the number of cached states.
    #[inline(always)]
    pub fn len(&self) -> usize
        ensures value { result ≡ length self.now.states }
        ensures limit { result ≤ MAX_STATES }
    {
        self.states.len()
    }

    /// Returns the heap memory that the table uses, in bytes: that of the states, and 1032 for the
    /// row of each.
    pub fn memory_usage(&self) -> usize
        ensures rows { length self.now.states * 1032 ≤ result }
        ensures value { result ≡ min (cache_bytes self.now.states) usize.MAX }
    {
        let rows = self.states.len() * COLUMNS * size_of::<u32>();
        rows.saturating_add(self.states.memory_usage())
    }

    /// Returns the id of a state, or `None` if it is not cached. Compares the state with the one at
    /// the id `likely` first, which needs no hash. That id may be stale, or of another table.
    #[inline(always)]
    #[tactic(auto, using(crate::proofs::Changes::caching))]
    pub fn find(&self, state: &State<A>, likely: Option<LazyStateId>) -> Option<LazyStateId>
        ensures { IsIndex self.now.states state.now result }
    {
        match likely {
            Some(id) if id.index() < self.len() && self.get(id) == state => Some(id),
            _ => {
                let index = self.states.find(state)?;
                Some(LazyStateId::from_index(index))
            }
        }
    }

    /// Returns the cached state with this id.
    #[inline(always)]
    pub fn get(&self, id: LazyStateId) -> &State<A>
        requires { id < length self.now.states }
        ensures { slice_get self.now.states id ≡ Some result.now }
    {
        self.states.get(id.index())
    }

    /// Returns the state at a cursor.
    #[inline(always)]
    pub fn state<'a>(&'a self, cursor: &'a Cursor<A>) -> &'a State<A>
        requires { IsCursor self.now.states cursor.now }
        ensures { result.now ≡ cursor_value self.now.states cursor.now }
    {
        match cursor {
            Cursor::Cached(id) => self.get(*id),
            Cursor::Uncached(state) => state,
        }
    }

    /// Returns the id of the state that follows a cached state over a unit, or `None` if that
    /// transition is not cached.
    #[inline(always)]
    pub fn lookup(&self, id: LazyStateId, unit: Option<u8>) -> Option<LazyStateId>
        requires { id < length self.now.states }
        ensures { (v : StateValue) → slice_get self.now.states id ≡ Some v
            → IsTarget (table_of self.now) v unit result }
    {
        // Slicing at the column first keeps that addition off the path from one id to the next.
        let rows = &self.rows[column(unit)..];
        let entry = rows[id.row()];
        if entry == UNKNOWN {
            None
        } else {
            Some(LazyStateId::from_row(entry))
        }
    }

    /// Returns the tag of a cached state.
    #[inline(always)]
    pub fn tag(&self, id: LazyStateId) -> StateTag
        requires { id < length self.now.states }
        ensures { (v : StateValue) → slice_get self.now.states id ≡ Some v
            → tag_in result.bits ≡ tag_of v }
    {
        StateTag {
            bits: self.rows[id.row() + UNITS],
        }
    }

    /// Returns the start that is kept in the slot with this number.
    pub fn start(&self, number: usize) -> Option<LazyStateId>
        requires { number < COUNT }
        ensures { result ≡ slice_index_or self.now.starts number None }
    {
        self.starts[number]
    }

    /// Keeps the id of a start state in the slot with this number.
    pub fn set_start(&mut self, number: usize, id: LazyStateId)
        requires { number < COUNT }
        ensures { self.new
            ≡ record self.old { starts = slice_set self.old.starts number (Some id) } }
    {
        self.starts[number] = Some(id);
    }

    /// Caches a state that is not cached, and returns its id.
    ///
    /// If an allocation fails, the table is unchanged.
    fn push(&mut self, state: State<A>) -> Result<LazyStateId, AllocError>
        requires { list_any (same state) self.old.states ≡ false }
        ensures { IsInterned self.old state result self.new }
    {
        self.looping = None;
        let tag = StateTag::of(&state);
        let len = self.rows.len();
        self.rows.resize(len + COLUMNS, UNKNOWN)?;
        self.rows[len + UNITS] = tag.bits;
        match self.states.intern(state) {
            Ok(index) => Ok(LazyStateId::from_index(index)),
            Err(failed) => {
                self.rows.truncate(len);
                Err(failed)
            }
        }
    }

    /// Returns the id of the state at a cursor. Caches the state if it is not cached.
    ///
    /// If an allocation fails, the table is unchanged.
    #[tactic(auto, using(crate::proofs::Changes::caching))]
    fn intern(&mut self, cursor: Cursor<A>) -> Result<LazyStateId, AllocError>
        requires { IsCursor self.old.states cursor }
        ensures { IsInterned self.old (cursor_value self.old.states cursor) result self.new }
    {
        match cursor {
            Cursor::Cached(id) => Ok(id),
            Cursor::Uncached(state) => self.push(state),
        }
    }

    /// Returns the id of a state. Caches the state if it is not cached. `found` is what a lookup
    /// returned before the state at `source` was interned, so a state that was not found may be
    /// that one.
    ///
    /// If an allocation fails, the table is unchanged.
    #[inline(always)]
    #[tactic(auto, using(crate::proofs::Changes::caching))]
    fn intern_after(
        &mut self,
        source: LazyStateId,
        state: State<A>,
        found: Option<LazyStateId>,
    ) -> Result<LazyStateId, AllocError>
        requires source { source < length self.old.states }
        requires found { IsIndexBefore self.old.states source state found }
        ensures { IsInterned self.old state result self.new }
    {
        match found {
            Some(id) => Ok(id),
            None if *self.get(source) == state => Ok(source),
            None => self.push(state),
        }
    }

    /// Caches the transition between two cached states over a unit.
    #[inline(always)]
    fn write(&mut self, source: LazyStateId, unit: Option<u8>, target: LazyStateId)
        requires source { source < length self.old.states }
        requires target { target < length self.old.states }
        ensures { IsWritten (shares None unit) self.old source target self.new }
    {
        self.looping = None;
        self.rows[source.row() + column(unit)] = target.entry();
    }

    /// Caches the transitions between two cached states over each byte from `first` up to, but not
    /// including, `end`.
    fn write_range(&mut self, source: LazyStateId, first: usize, end: usize, target: LazyStateId)
        requires source { source < length self.old.states }
        requires target { target < length self.old.states }
        requires range { first ≤ end × end ≤ 256 }
        ensures { IsWritten (in_range first end) self.old source target self.new }
    {
        self.looping = None;
        let row = source.row();
        self.rows[row + first..row + end].fill(target.entry());
    }

    /// Caches the transitions between two cached states over each byte of the class of a byte, run
    /// by run.
    #[inline(always)]
    fn write_class(
        &mut self,
        source: LazyStateId,
        byte: u8,
        target: LazyStateId,
        spans: &ClassSpans,
    )
        requires source { source < length self.old.states }
        requires target { target < length self.old.states }
        ensures { IsWritten (in_one_class spans.now (Some byte)) self.old source target self.new }
    {
        let end = spans.end(byte);
        let mut first = spans.start(byte);
        while first < end {
            let run_end = spans.run_end(first as u8);
            if spans.are_in_one(byte, first as u8) {
                self.write_range(source, first, run_end, target);
            }
            first = run_end;
        }
    }

    /// Caches the transitions between two cached states over a unit and, if there are classes, over
    /// each byte of its class.
    #[inline(always)]
    fn write_shared(
        &mut self,
        source: LazyStateId,
        unit: Option<u8>,
        target: LazyStateId,
        spans: Option<&ClassSpans>,
    )
        requires source { source < length self.old.states }
        requires target { target < length self.old.states }
        ensures { IsWritten (shares (option_copied spans.entry) unit) self.old source target
            self.new }
    {
        self.write(source, unit, target);
        let Some(spans) = spans else {
            return;
        };
        match unit {
            Some(byte) => self.write_class(source, byte, target, spans),
            None => {}
        }
    }

    /// Caches the transition from `source` over `unit` to `target`, those that share it, and both
    /// states. Returns the cursor of the target. `found` is the id of the target, if it is cached.
    ///
    /// If an allocation fails, the table is unchanged or empty.
    #[inline(always)]
    fn insert(
        &mut self,
        source: Cursor<A>,
        unit: Option<u8>,
        target: State<A>,
        found: Option<LazyStateId>,
        spans: Option<&ClassSpans>,
    ) -> Result<Cursor<A>, AllocError>
        requires source { IsCursor self.old.states source }
        requires found { IsIndex self.old.states target found }
        ensures { IsKept self.old (with_transition (shares (option_copied spans.entry) unit)
            (table_of self.old) (cursor_value self.old.states source) target) target result
            self.new }
    {
        let source = self.intern(source)?;
        match self.intern_after(source, target, found) {
            Ok(target) => {
                self.write_shared(source, unit, target, spans);
                Ok(Cursor::Cached(target))
            }
            Err(failed) => {
                // The source may just have been added, and no transition would have it.
                self.clear();
                Err(failed)
            }
        }
    }

    /// Caches a computed transition if it fits within `limit` states, after clearing the table if
    /// it does not fit with the rest. With classes, caches it over each byte of the class of its
    /// unit. Returns the cursor of its target.
    ///
    /// If an allocation fails, the table is unchanged or empty.
    pub fn keep(
        &mut self,
        source: Cursor<A>,
        unit: Option<u8>,
        following: State<A>,
        limit: usize,
        spans: Option<&ClassSpans>,
    ) -> Result<Cursor<A>, AllocError>
        requires { IsCursor self.old.states source }
        ensures { IsKept self.old (keep (shares (option_copied spans.entry) unit) limit
            (table_of self.old) (cursor_value self.old.states source) following) following result
            self.new }
    {
        // A loop over many bytes leads back to its source over each of them.
        let found = self.find(&following, source.id());
        if self.fits(&source, &following, found, limit) {
            return self.insert(source, unit, following, found, spans);
        }
        let source = Cursor::Uncached(self.into_state(source)?);
        self.clear();
        if self.fits(&source, &following, None, limit) {
            return self.insert(source, unit, following, None, spans);
        }
        Ok(Cursor::Uncached(following))
    }

    /// Returns whether at most `limit` states are cached once the source and the target of one more
    /// transition are too. `found` is the id of the target, if it is cached.
    #[tactic(auto, using(crate::proofs::Changes::counting))]
    fn fits(
        &self,
        source: &Cursor<A>,
        target: &State<A>,
        found: Option<LazyStateId>,
        limit: usize,
    ) -> bool
        requires source { IsCursor self.now.states source.now }
        requires found { IsIndex self.now.states target.now found }
        ensures { result ≡ nat_le (length (with_value (with_value self.now.states
            (cursor_value self.now.states source.now)) target.now)) limit }
    {
        let more = match (source, found) {
            (Cursor::Cached(_), Some(_)) => 0,
            (Cursor::Uncached(state), None) if state != target => 2,
            // One of them is new, or both are the same new state.
            _ => 1,
        };
        self.states.len() + more <= limit
    }

    /// Returns the state at a cursor, as a value that no longer needs the table.
    pub fn into_state(&self, cursor: Cursor<A>) -> Result<State<A>, AllocError>
        requires { IsCursor self.now.states cursor }
        ensures { IfOk result (λ state. state ≡ cursor_value self.now.states cursor) }
    {
        match cursor {
            Cursor::Cached(id) => self.get(id).clone(),
            Cursor::Uncached(state) => Ok(state),
        }
    }
}
