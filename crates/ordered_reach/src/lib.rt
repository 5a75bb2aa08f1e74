//! The order theory of depth-first search: a search with a set of visited nodes lists the nodes of
//! any graph in the order of their least loop-free paths.
//!
//! The crate has no program. Its definitions are in `specs/`: paths and their order (`Paths`), the
//! search as a function that computes (`Reach`), a search with a stack (`StackSearch`), graphs of
//! positions and nodes, in which a path is a run over a text (`Runs`), and walks, which may meet a
//! node again (`Walks`). The main theorems are contracts of the functions of [`laws`]. The lemmas
//! are in `proofs/`: about lists, about graphs, about runs, and about walks.
#![tactic(auto)]

pub mod laws;
