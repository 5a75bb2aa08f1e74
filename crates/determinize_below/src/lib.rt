//! The layers below determinization: ids, assertions, input units, searches, sparse sets and
//! Thompson NFAs.
//!
//! These are the parts of the modules `util` and `nfa::thompson` of regex-automata that its
//! determinizer needs. An `NFA` is built from its parts by `NFA::from_parts`, which validates them,
//! so every other call may rely on a valid NFA. The modules `laws` and `look_laws` have functions
//! whose contracts are facts about the definitions in `specs/`.
//!
//! A `Result` with `AllocError` is `Err` only if an allocation fails.
#![tactic(auto)]

pub mod alphabet;
pub mod as_nfa;
pub mod laws;
pub mod look;
pub mod look_laws;
pub mod nfa;
pub mod primitives;
pub mod search;
pub mod sparse_set;

pub use alphabet::{ByteClasses, Unit};
pub use as_nfa::AsNfa;
pub use look::{Look, LookMatcher, LookSet};
pub use nfa::{BuildError, DenseTransitions, NFA, SparseTransitions, Transition};
pub use primitives::{ID_LIMIT, MAX_ID, PatternID, PatternIDError, StateID, StateIDError};
pub use search::{Anchored, HalfMatch, Input, Match, MatchKind};
pub use sparse_set::{SparseSet, SparseSetIter, SparseSets};
