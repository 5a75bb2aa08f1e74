//! A lazy DFA: walks and searches through a bounded cache of transitions.
//!
//! A [`LazyDfa`] borrows its NFA ([`Lazy`]) or owns it, and computes the states of its DFA as a
//! text needs them. A walk returns the states that `determinize_core::determinize::walk` returns. A
//! search returns the last match of such a walk, also in a range of a haystack and in either
//! direction.
//!
//! - `lazy`: the type. `walk`: walks. `search`: searches. `cached`: the part of a search that only
//!   reads the cache. `patterns`: which patterns match. `step`: one step of a walk or a search.
//!   `scan`: searches of texts in pieces. `walker`: walks by steps. `engine`: a lazy DFA as an
//!   `Engine`.
//! - The transition table and the rule of what is cached are in the crate `determinize_table`,
//!   which also says what a row is.
//!
//! [`LazyDfa`] says when a `Result` is `Err`.
#![tactic(auto)]

mod cached;
mod engine;
pub mod laws;
pub mod lazy;
mod patterns;
mod scan;
mod search;
mod step;
mod walk;
mod walker;

pub use crate::lazy::{Lazy, LazyDfa};
pub use crate::scan::Scan;
pub use crate::walker::Walker;
pub use determinize_engine::engine::Engine;
