//! A whole DFA, built in advance: a table with a row for each state that a search can reach.
//!
//! [`Dfa::build`] computes the rows of all start states and of all states that follow them. A
//! search then follows the table: it allocates nothing, cannot fail, and takes `&self`, so one DFA
//! serves any number of searches. The matches are those of `determinize_lazy::Lazy`.
//!
//! - `dfa`: the type, and its table. `build`: its construction, with `error`. `rows`: the rows
//!   until they are in order. `search`: searches, with `scans`. `automaton`: what a DFA has in
//!   common with one in the bytes of a file, which `reading` gives. `walker`: faster steps.
//!   `overlapping`: all patterns at each position. `bytes`: a DFA as bytes. `minimize`: the fewest
//!   rows, by `partition`. `laws`: what a DFA lists where a text ends, that no table that lists the
//!   same along all units has fewer rows, and that the number of states is one.
#![tactic(auto)]

pub mod automaton;
mod build;
pub mod bytes;
pub mod dfa;
pub mod error;
pub mod laws;
mod minimize;
pub mod overlapping;
mod partition;
pub mod reading;
mod rows;
mod scans;
mod search;
pub mod walker;

pub use crate::automaton::{Automaton, RowPatterns};
pub use crate::dfa::Dfa;
pub use crate::error::DfaError;
pub use crate::overlapping::Overlapping;
pub use crate::reading::{Offset, RowId, RowIds};
pub use crate::walker::Walker;
