//! Uses of the libraries, to read and to copy. Each module is one use, and its contracts are
//! proved. `search_tests` runs all but [`counted`], [`log`], [`pieces`] and [`stored`].
//!
//! - [`values`] makes one value of each small type: sets, start kinds, closures, states.
//! - [`nfa`] makes an NFA by hand, and [`built`] one by a `Builder`.
//! - [`words`] returns a search for two patterns that owns them, finds all their matches in several
//!   ways, splits a text at them, and replaces them. [`patterns`] finds the leftmost match of
//!   pattern values, the routes of a path, and the part of a text that is wrong.
//! - [`scanner`] finds all matches of a haystack, and [`lexer`] the longest token at each position.
//!   [`tokens`] does so in linear time. [`steady`] finds all matches and never allocates while it
//!   runs.
//! - [`input`] finds whether a haystack has a match.
//! - [`pieces`] finds all matches of patterns in a text of several pieces.
//!   [`strings`] prints where strings in double quotes are in an input that it reads in pieces.
//! - [`log`] lists the numbers of the lines of a log that have a match.
//! - [`search`] and [`cache`] search and walk many texts through one cache.
//! - [`walk`] finds the preferred match without a cache, and [`counted`] makes one counted step.
//! - [`dfa`] builds the smallest whole DFA, and lists the patterns that match at a position.
//!   [`steps`] reads one: it steps by hand, and lists all matches of a haystack. [`stored`] draws
//!   one, keeps it as bytes, and steps through these. [`from_bytes`] reads one, and finds tokens or
//!   all matches.
#![tactic(auto)]

pub mod built;
pub mod cache;
pub mod counted;
pub mod dfa;
pub mod from_bytes;
pub mod input;
pub mod lexer;
pub mod log;
pub mod nfa;
pub mod patterns;
pub mod pieces;
pub mod scanner;
pub mod search;
pub mod steady;
pub mod steps;
pub mod stored;
pub mod strings;
pub mod tokens;
pub mod values;
pub mod walk;
pub mod words;
