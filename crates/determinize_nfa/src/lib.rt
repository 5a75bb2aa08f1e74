//! NFAs: a builder, the usual prefix of an unanchored start, and reversal.
//!
//! - [`builder`] makes an NFA, one state after another.
//! - [`prefix`] tests whether the unanchored start of an NFA is its anchored one after the prefix
//!   `(?s-u:.)*?`.
//! - [`reversal`] makes the NFA that reads in the other direction.
//! - [`laws`] are laws of runs that callers may use in addition to the contracts.
#![tactic(auto)]

mod arcs;
pub mod builder;
pub mod laws;
pub mod prefix;
mod reached;
pub mod reversal;

pub use builder::Builder;
pub use prefix::{has_prefix, has_prefix_apart};
pub use reversal::reversed;
