//! States that are kept, each once, with a map from a state to its index.
//!
//! A new state is hashed twice, by `find` and by `intern`. An entry of the map could save that, but
//! it takes a copy of the state before it is known to be new, and borrows the map while a lazy DFA
//! adds the source of the transition.

ghost use Rattle.std.specs.Prelude.{◌≡◌, ◌++◌, ◌∷◌, ◌<◌, ◌≤◌, [], Some, false, length, min, slice_get, IfOk, IfSome, OnErr, OnOk};
ghost use Rattle.std.specs.List.{list_any};
ghost use Rattle.determinize_engine.specs.StateBytes.{table_bytes};
ghost use Rattle.determinize_engine.specs.States.{EachApart, IsIndex};
ghost use Rattle.determinize_state.specs.Equality.{same};

use determinize_state::state::State;
use std::alloc::{AllocError, Allocator, Global};
use std::collections::HashMap;
use std::hash::{BuildHasherDefault, FoldHasher};
use std::marker::Model;
use std::mem::size_of;

/// The most bytes of a clone of a state that lie in the `State` itself and not on the heap.
const SHORT: usize = 30;

/// The bytes that an entry takes: the state, its clone that is the key of the map, and its index.
const ENTRY: usize = 2 * size_of::<State>() + size_of::<usize>();

/// The greatest number of states, 16647160: rows of 258 numbers then have offsets of 32 bits.
pub const MAX_STATES: usize = u32::MAX as usize / 258;

/// States of which no two are equal, with a map from a state to its index.
pub struct StateTable<A: Allocator = Global> {
    states: Vec<State<A>, A>,
    indices: HashMap<State<A>, usize, BuildHasherDefault<FoldHasher>, A>,
}

// Derived code is proved again in each crate that drops a table.
impl<A: Allocator> Drop for StateTable<A> {
    fn drop(self) {
        let StateTable {
            states: _,
            indices: _,
        } = self;
    }
}

impl<A: Allocator> Model for StateTable<A> {
    ghost use Rattle.std.specs.Prelude.{List};
    ghost use Rattle.std.specs.HashMap.{get};
    ghost use Rattle.determinize_engine.specs.Private.Interned.{AreInterned};
    ghost use Rattle.determinize_state.specs.Equality.{same};
    ghost use Rattle.determinize_state.specs.Value.{Value as StateValue};

    ghost Value = { List StateValue };

    ghost view = { λ a. a.states.items };

    ghost invariant = { λ a. AreInterned a.states.items (get same a.indices) };
}

impl<A: Allocator + Copy> StateTable<A> {
    /// Returns a table without states. Does not allocate.
    pub fn new(alloc: A) -> StateTable<A>
        ensures { result ≡ [] }
    {
        StateTable {
            states: Vec::new(alloc),
            indices: HashMap::new(alloc),
        }
    }

    /// Returns the number of states, at most `MAX_STATES`.
    #[inline(always)]
    pub fn len(&self) -> usize
        ensures value { result ≡ length self.now }
        ensures limit { result ≤ MAX_STATES }
        ensures apart { EachApart self.now }
    {
        self.states.len()
    }

    /// Returns the index of a state, or `None` if it is not in the table.
    pub fn find(&self, state: &State<A>) -> Option<usize>
        ensures index { IsIndex self.now state.now result }
        ensures limit { IfSome result (λ index. index < MAX_STATES) }
    {
        self.indices.get(state).copied()
    }

    /// Returns the state at an index.
    #[inline(always)]
    pub fn get(&self, index: usize) -> &State<A>
        requires { index < length self.now }
        ensures { slice_get self.now index ≡ Some result.now }
    {
        &self.states[index]
    }

    /// Returns the states in the order of their indices.
    pub fn as_slice(&self) -> &[State<A>]
        ensures { result.now ≡ self.now }
    {
        self.states.as_slice()
    }

    /// Returns the heap memory that the states and the map use, in bytes: 72 for each state, and
    /// twice the length of its encoding if that is more than 30. An allocator that has a size is
    /// not counted, although each state has a copy of it.
    pub fn memory_usage(&self) -> usize
        ensures { result ≡ min (table_bytes self.now) usize.MAX }
    {
        let mut bytes = self.states.len() * ENTRY;
        for state in &self.states {
            let len = state.memory_usage();
            if len > SHORT {
                bytes = bytes.saturating_add(len.saturating_mul(2));
            }
        }
        bytes
    }

    /// Removes all states.
    pub fn clear(&mut self)
        ensures { self.new ≡ [] }
    {
        self.states.clear();
        self.indices.clear();
    }

    /// Adds a state that is not in the table, and returns its index.
    ///
    /// Returns `AllocError` if an allocation fails or the table has `MAX_STATES` states. The table
    /// is unchanged then.
    pub fn intern(&mut self, state: State<A>) -> Result<usize, AllocError>
        requires { list_any (same state) self.old ≡ false }
        ensures index { IfOk result (λ index. index ≡ length self.old) }
        ensures limit { IfOk result (λ index. index < MAX_STATES) }
        ensures states { OnOk result (self.new ≡ self.old ++ state ∷ []) }
        ensures err { OnErr result (self.new ≡ self.old) }
    {
        let index = self.states.len();
        if index == MAX_STATES {
            return Err(AllocError);
        }
        let key = state.clone()?;
        self.states.push(state)?;
        match self.indices.insert(key, index) {
            Ok(_) => Ok(index),
            Err(failed) => {
                self.states.pop();
                Err(AllocError::from(failed))
            }
        }
    }
}
