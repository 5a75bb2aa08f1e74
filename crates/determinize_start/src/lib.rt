//! Start states and look-behind: which assertions the bytes around a position satisfy.
//!
//! A DFA state records the assertions that are satisfied behind its position (look-have) and two
//! flags about the byte behind it (from-word and half-CRLF). [`start`] classifies the byte before a
//! search. [`look_tables`] computes look-have and flags for the start state and after each unit,
//! and the assertions that the next unit satisfies in addition. [`look_laws`] has facts about both.
//!
//! A `Result` with `AllocError` is `Err` only if an allocation fails.
#![tactic(auto)]

pub mod look_laws;
pub mod look_tables;
pub mod start;
