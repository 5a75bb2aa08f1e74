//! Patterns from text, in a subset of the syntax of regex-syntax 0.8: over bytes, and where the
//! flag `u` holds over characters.
#![tactic(auto)]

mod bracket;
mod class;
mod cursor;
pub mod error;
mod escape;
pub mod flags;
mod group;
mod kind;
pub mod laws;
pub mod parser;
mod repetition;

pub use error::{ErrorKind, ParseError};
pub use flags::Flags;
pub use parser::{parse, parse_with};
