//! The states of a DFA during determinization: their byte encoding and their builders.
//!
//! [`state`] has the states and their builders, and [`recording`] adds NFA states to a builder.
//! [`state_laws`] has facts about the encoding.
//!
//! A `Result` with `AllocError` is `Err` only if an allocation fails.
#![tactic(auto)]

pub mod recording;
pub mod state;
pub mod state_laws;
