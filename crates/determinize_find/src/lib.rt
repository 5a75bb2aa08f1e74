//! The leftmost match, with both of its ends, and all matches of a haystack.
//!
//! A search returns an error if an allocation fails or a cache would need more than 16647160
//! states. The caches stay usable: later results are the same. The input of a search must not be
//! `Anchored::Pattern`.
#![tactic(auto)]

pub mod certain;
pub mod finder;
pub mod idle;
pub mod iter;
pub mod laws;
pub mod pieces;
pub mod plain;
pub mod regex;

pub use certain::certain_match;
pub use determinize_below::search::Match;
pub use determinize_nfa::{
    Builder, builder, has_prefix, has_prefix_apart, prefix, reversal, reversed,
};
pub use finder::Finder;
pub use idle::is_idle;
pub use iter::{Searcher, find_all};
pub use pieces::Pieces;
pub use plain::Plain;
pub use regex::{Regex, cached_memory_usage};
