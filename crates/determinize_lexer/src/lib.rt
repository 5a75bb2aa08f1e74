//! A lexer: the tokens of a text by patterns, one for each kind of token, in linear time.
//!
//! A [`Lexer`] is made of pattern strings and owns the smallest whole DFA of them, which finds
//! matches only at a given start. [`Lexer::tokens`] cuts a text into tokens: each begins where
//! the one before it ends, and is the longest match there; of the patterns with such a match, it is
//! of the first. [`rest`] is what is left of the text where no token begins.
#![tactic(auto)]

mod error;
pub mod lexer;

pub use determinize_dense::{Dfa, DfaError};
pub use determinize_regex::{
    CompileError, Config, Error as PatternError, Flags, Input, Match, ParseError, Pattern,
    PatternID,
};
pub use error::Error;
pub use lexer::{Lexer, LexerConfig, rest};
