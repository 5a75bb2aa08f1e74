//! Patterns as values, and their compilation to an NFA that is proved to have their meaning.
//!
//! - [`pattern`] is the type of patterns, with a constructor for each kind.
//! - [`class`] is that of classes of bytes, and [`chars`] that of ranges of characters.
//! - [`nfa`] compiles several patterns, of which the first is preferred, to one NFA.
//! - [`lines`] tests whether the matches of patterns stay in a line.
//! - [`laws`] are laws of the meaning and of compiled NFAs that callers may use in addition to the
//!   contracts.
//!
//! The meaning of a pattern is the list of the positions where its matches end, most preferred
//! first: `ends` in `specs/Meaning.antt`.
#![tactic(auto)]

mod always_reads;
pub mod chars;
pub mod class;
mod compiler;
mod display;
mod first_class;
mod head;
pub mod laws;
pub mod lines;
mod nesting;
pub mod nfa;
mod parts;
pub mod pattern;
mod prefix_tree;
mod shared;
mod utf8;

pub use chars::ClassUnicodeRange;
pub use class::{ClassBytes, ClassBytesRange};
pub use lines::stay_in_lines;
pub use nfa::{CompileError, Config, compile, compile_anchored};
pub use pattern::Pattern;
