//! Thompson NFAs, built from parts that are validated.
//!
//! An NFA here is a vector of states that refer to each other by index (`StateID`), two start
//! states, a direction and a line terminator. `from_parts` is the only constructor. It rejects
//! parts with an id out of range, with unsorted or overlapping sparse ranges, with a dense state of
//! other than 256 targets, or with two `Match` states of one pattern. So every other call indexes
//! states without a check, and a DFA state lists no pattern twice.
//!
//! An NFA for which `is_reverse` returns true is for scanning from the end of the haystack to its
//! start. Of the assertions, only those on CRLF depend on the direction: in reverse `\n` is read
//! before `\r`.

ghost use Rattle.std.specs.Prelude.{◌≡◌, ℕ, ◌<◌, ◌≤◌, ◌++◌, Some, None, true, codes, decimal, map, length, slice_get, vec_len, IfOk, OnOk, IfErr, IsErrOf, ◌⊎◌};
ghost use Rattle.std.specs.Fmt.{WritesOnOk};
ghost use Rattle.determinize_below.specs.Edges.{pattern_count};
ghost use Rattle.determinize_below.specs.Node.{node_of};
ghost use Rattle.determinize_below.specs.Nfa.{failure, is_dense_sound, is_sparse_sound, looks_of};

use crate::look::{LookMatcher, LookSet};
use crate::primitives::{ID_LIMIT, StateID, StateIDError};
use std::alloc::{AllocError, AllocFailed, Allocator, Global};
use std::error::Error;
use std::fmt;
use std::marker::Model;

mod byte_classes;
mod changes;
mod checks;
mod debug;
pub mod state;
pub mod transitions;

pub use state::State;
pub use transitions::{DenseTransitions, SparseTransitions, Transition};

/// An error from `NFA::from_parts` or from a builder of NFAs. The number, if any, is the index of
/// the state.
#[derive(Clone, Copy, Debug, PartialEq, Eq)]
pub enum BuildError {
    /// There are more than 2147483647 states.
    TooManyStates,
    /// A start id is not below the number of states.
    UnresolvedStart,
    /// An id in the state is not below the number of states.
    UnresolvedId(usize),
    /// A range of the sparse state is empty, or does not begin above the end of the previous range.
    BadSparse(usize),
    /// The dense state has not exactly 256 targets.
    BadDense(usize),
    /// The pattern of this `Match` state is also that of an earlier state.
    RepeatedPattern(usize),
    /// A builder was to set a target of this state, which is not there or has none to set.
    NotPatchable(usize),
    /// An allocation failed.
    OutOfMemory,
}

impl From<AllocError> for BuildError {
    ghost use Rattle.determinize_below.specs.declared.nfa.BuildError.TheVariants.{OutOfMemory};

    ghost from_gives = { λ _ e. e ≡ OutOfMemory };

    fn from(_error: AllocError) -> BuildError {
        BuildError::OutOfMemory
    }
}

impl<T: Drop> From<AllocFailed<T>> for BuildError {
    ghost use Rattle.determinize_below.specs.declared.nfa.BuildError.TheVariants.{OutOfMemory};

    ghost from_gives = { λ _ e. e ≡ OutOfMemory };

    fn from(_error: AllocFailed<T>) -> BuildError {
        BuildError::OutOfMemory
    }
}

/// Returns `TooManyStates`: more states than ids.
impl From<StateIDError> for BuildError {
    ghost use Rattle.determinize_below.specs.declared.nfa.BuildError.TheVariants.{TooManyStates};

    ghost from_gives = { λ _ e. e ≡ TooManyStates };

    fn from(_error: StateIDError) -> BuildError {
        BuildError::TooManyStates
    }
}

impl fmt::Display for BuildError {
    ghost use Rattle.determinize_below.specs.Messages.{build_message};

    ghost output = { λ e. Some (build_message e) };

    fn fmt<W: fmt::Write>(&self, f: &mut fmt::Formatter<W>) -> fmt::Result {
        match self {
            BuildError::TooManyStates => f.write_str("more than 2147483647 states"),
            BuildError::UnresolvedStart => f.write_str("no state has the start id"),
            BuildError::UnresolvedId(index) => write_fault(f, *index, " leads to no state"),
            BuildError::BadSparse(index) => write_fault(f, *index, " has a range out of order"),
            BuildError::BadDense(index) => write_fault(f, *index, " has not 256 targets"),
            BuildError::RepeatedPattern(index) => write_fault(f, *index, " repeats a pattern"),
            BuildError::NotPatchable(index) => write_fault(f, *index, " has no target to set"),
            BuildError::OutOfMemory => f.write_str("out of memory"),
        }
    }
}

/// Writes what is wrong with the state at an index.
fn write_fault<W: fmt::Write>(f: &mut fmt::Formatter<W>, index: usize, fault: &str) -> fmt::Result
    ensures { WritesOnOk W.write_str_gives f.old result
        (codes "state " ++ decimal index ++ fault.now) f.new }
{
    write!(f, "state {index}{fault}")
}

impl Error for BuildError {}

/// A valid Thompson NFA.
pub struct NFA<A: Allocator = Global> {
    states: Vec<State<A>, A>,
    start_anchored: StateID,
    start_unanchored: StateID,
    reverse: bool,
    look_matcher: LookMatcher,
    look_set_any: LookSet,
}

// Derived code is proved again in each crate that drops an NFA.
impl<A: Allocator> Drop for NFA<A> {
    fn drop(self) {
        let NFA {
            states: _,
            start_anchored: _,
            start_unanchored: _,
            reverse: _,
            look_matcher: _,
            look_set_any: _,
        } = self;
    }
}

impl<A: Allocator> Model for NFA<A> {
    ghost use Rattle.std.specs.Prelude.{map};
    ghost use Rattle.determinize_below.specs.Node.{node_of};
    ghost use Rattle.determinize_below.specs.Semantics.{Nfa};
    ghost use Rattle.determinize_below.specs.Nfa.{IsAccepted};

    ghost Value = { Nfa };

    ghost view = { λ a. record {
      states = map node_of a.states.items;
      start_anchored = a.start_anchored;
      start_unanchored = a.start_unanchored;
      reverse = a.reverse;
      terminator = a.look_matcher;
      look_set_any = a.look_set_any;
    } };

    ghost invariant = { λ a. IsAccepted record {
      states = map node_of a.states.items;
      start_anchored = a.start_anchored;
      start_unanchored = a.start_unanchored;
      reverse = a.reverse;
      terminator = a.look_matcher;
      look_set_any = a.look_set_any;
    } };
}

impl<A: Allocator> NFA<A> {
    ghost use Rattle.determinize_below.specs.Nfa.{IsAccepted};

    /// Returns the NFA with these parts, or the first error that validation finds. The parts are
    /// consumed on success and on error.
    ///
    /// The checks run in this order: the number of states; the two start ids; then the states by
    /// index, and within a state its ids, the ranges of a sparse state, the length of a dense
    /// state, and whether the pattern of a `Match` state repeats. Returns `OutOfMemory` if an
    /// allocation for the set of patterns fails, even where a later check would have failed. The
    /// number of states and the start ids are checked before anything is allocated, so those errors
    /// do not depend on memory. The set of patterns is allocated in `alloc` and dropped before the
    /// call returns.
    pub fn from_parts<B: Allocator + Clone>(
        alloc: B,
        states: Vec<State<A>, A>,
        start_anchored: StateID,
        start_unanchored: StateID,
        reverse: bool,
        look_matcher: LookMatcher,
    ) -> Result<NFA<A>, BuildError>
        ensures ok { IfOk result (λ nfa. nfa ≡ record {
          states = map node_of states.items;
          start_anchored = start_anchored;
          start_unanchored = start_unanchored;
          reverse = reverse;
          terminator = look_matcher;
          look_set_any = looks_of (map node_of states.items);
        }) }
        ensures accepted { OnOk result
            (failure (map node_of states.items) start_anchored start_unanchored ≡ None) }
        ensures err { IfErr result (λ e.
            (failure (map node_of states.items) start_anchored start_unanchored ≡ Some e)
            ⊎ (e ≡ BuildError.OutOfMemory)) }
        ensures limit { ID_LIMIT < vec_len states → IsErrOf result BuildError.TooManyStates }
        ensures starts { vec_len states ≤ ID_LIMIT
            → (vec_len states ≤ start_anchored) ⊎ (vec_len states ≤ start_unanchored)
            → IsErrOf result BuildError.UnresolvedStart }
    {
        let count = states.len();
        if count > ID_LIMIT {
            return Err(BuildError::TooManyStates);
        }
        if start_anchored.as_usize() >= count || start_unanchored.as_usize() >= count {
            return Err(BuildError::UnresolvedStart);
        }
        checks::check_states(alloc, states.as_slice())?;
        let look_set_any = checks::looks_in(states.as_slice());
        Ok(NFA {
            states,
            start_anchored,
            start_unanchored,
            reverse,
            look_matcher,
            look_set_any,
        })
    }

    /// Returns the number of states, at most 2147483647.
    pub fn len(&self) -> usize
        ensures count { result ≡ length self.now.states }
        ensures limit { result ≤ ID_LIMIT }
        ensures accepted { IsAccepted self.now }
    {
        self.states.len()
    }

    /// Returns the number of patterns, which is the number of `Match` states: no two of them match
    /// the same pattern. The ids of the patterns need not be consecutive. Does not allocate.
    pub fn pattern_len(&self) -> usize
        ensures count { result ≡ pattern_count self.now }
        ensures limit { result ≤ length self.now.states }
        ensures accepted { IsAccepted self.now }
    {
        state::match_count(self.states.as_slice())
    }

    /// Returns the state with this id, which must be below the number of states.
    pub fn state(&self, id: StateID) -> &State<A>
        requires { id < length self.now.states }
        ensures state { slice_get self.now.states id ≡ Some (node_of result.now) }
        ensures ascends { is_sparse_sound (node_of result.now) ≡ true }
        ensures whole { is_dense_sound (node_of result.now) ≡ true }
        ensures accepted { IsAccepted self.now }
    {
        &self.states[id.as_usize()]
    }

    /// Returns whether the NFA scans its haystack in reverse, from the end to the start.
    pub fn is_reverse(&self) -> bool
        ensures { result ≡ self.now.reverse }
    {
        self.reverse
    }

    /// Returns the configuration of line assertions.
    pub fn look_matcher(&self) -> &LookMatcher
        ensures value { result.now ≡ self.now.terminator }
        ensures accepted { IsAccepted self.now }
    {
        &self.look_matcher
    }

    /// Returns the set of the assertions of all `Look` states, reachable or not.
    pub fn look_set_any(&self) -> LookSet
        ensures value { result ≡ self.now.look_set_any }
        ensures accepted { IsAccepted self.now }
    {
        self.look_set_any
    }

    /// Returns the start state for anchored searches, which is below the number of states.
    pub fn start_anchored(&self) -> StateID
        ensures value { result ≡ self.now.start_anchored }
        ensures resolves { result < length self.now.states }
    {
        self.start_anchored
    }

    /// Returns the start state for unanchored searches, which is below the number of states.
    pub fn start_unanchored(&self) -> StateID
        ensures value { result ≡ self.now.start_unanchored }
        ensures resolves { result < length self.now.states }
    {
        self.start_unanchored
    }
}
