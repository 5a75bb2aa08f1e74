//! Pictures of whole DFAs and of NFAs, as text for the program `dot` of Graphviz.
//!
//! [`DfaGraph`], [`SearchGraph`] and [`NfaGraph`] implement `Display`, and what they write is one
//! `digraph`. States are numbered as in the DFA or NFA. All bytes from one state to another are
//! one edge, with its ranges of bytes as a label. Writing allocates nothing.
//!
//! - `dfa`: a whole DFA. `search`: the part of it that searches enter. `nfa`: an NFA. `targets`:
//!   the target of each byte, and the text of edges.
#![tactic(auto)]

pub mod dfa;
pub mod nfa;
pub mod search;
mod targets;

pub use crate::dfa::DfaGraph;
pub use crate::nfa::NfaGraph;
pub use crate::search::SearchGraph;
