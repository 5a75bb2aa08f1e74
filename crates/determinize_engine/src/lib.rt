//! What the search engines have in common: the lazy DFA of `determinize_lazy` and the whole DFA of
//! `determinize_dense`. Both step from state to state as `determinize_core` does, over the same
//! texts; they differ in where they keep transitions.
//!
//! - [`engine`] is their trait, so that a caller, as `determinize_find`, may take either, or one of
//!   each ([`WithAllocError`]).
//! - [`text`] is what a search of an input reads: the byte behind, on which the start state
//!   depends; the bytes of the range, forward or backward; the byte ahead, or the end of input
//!   (EOI).
//! - [`scans`] passes bytes of a text over which a search stays at its state.
//! - [`state_table`] has the states of a DFA, each once, and finds the index of a state.
//!
//! The last three are public for the two crates only.
#![tactic(auto)]

pub mod engine;
#[doc(hidden)]
pub mod scans;
#[doc(hidden)]
pub mod state_table;
#[doc(hidden)]
pub mod text;

pub use crate::engine::{Engine, WithAllocError};
