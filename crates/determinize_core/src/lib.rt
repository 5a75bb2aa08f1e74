//! Determinization: from a Thompson NFA to the states of a DFA, one state at a time.
//!
//! [`determinize`] has the start state, transitions and walks, [`start`] the start kinds, and
//! [`state`] the byte encoding of a state. [`laws`], [`look_laws`] and [`state_laws`] have facts
//! that callers may use in addition to the contracts.
//!
//! A `Result` with `AllocError` is `Err` only if an allocation fails.
#![tactic(auto)]

pub mod determinize;
pub mod laws;

pub use determinize_start::{look_laws, look_tables, start};
pub use determinize_state::{recording, state, state_laws};
