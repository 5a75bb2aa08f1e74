//! Patterns and their matches, from one crate: all that a program needs to search for patterns.
//!
//! A [`Regex`] is compiled once and then searches. A [`Matcher`] searches for the same patterns
//! with separate caches, and a [`Stream`] in a text that comes in pieces. A [`RegexSet`] finds
//! which of several patterns match.
//!
//! `compile` of `determinize_pattern` makes the NFA, and `determinize_find` searches it. The
//! [`laws`] join their contracts: the leftmost match that a search finds is that of the patterns,
//! and so are all matches.
//!
//! A search returns `AllocError` if an allocation fails or a cache would need more than 16647160
//! states. The caches stay usable: later results are the same. The input of a search must not be
//! `Anchored::Pattern`.
#![tactic(auto)]

pub mod error;
pub mod laws;
pub mod regex;
mod set;
mod split;
pub mod stream;
pub mod utf8;

pub use determinize_below::{
    Anchored, AsNfa, BuildError, HalfMatch, Input, Look, LookMatcher, Match, NFA, PatternID,
};
pub use determinize_find::{Finder, Searcher};
pub use determinize_linear::Tries;
pub use determinize_pattern::{
    ClassBytes, ClassBytesRange, ClassUnicodeRange, CompileError, Config, Pattern,
};
pub use determinize_syntax::{ErrorKind, Flags, ParseError};
pub use error::Error;
pub use regex::{Matcher, Regex, RegexConfig, parse_all};
pub use set::RegexSet;
pub use stream::Stream;
