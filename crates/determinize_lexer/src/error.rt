//! Why a lexer was not made.

ghost use Rattle.std.specs.Prelude.{◌≡◌};
ghost use Rattle.determinize_lexer.specs.declared.error.Error.TheVariants.{Dfa, Patterns};
ghost use Rattle.determinize_regex.specs.declared.error.Error.TheVariants.{Compile};

use determinize_dense::DfaError;
use determinize_pattern::CompileError;
use determinize_regex::Error as PatternError;
use std::{error, fmt, io};

/// An error from the patterns of a lexer.
#[derive(Clone, Copy, Debug, PartialEq, Eq)]
pub enum Error {
    /// The text of a pattern was rejected, or the patterns were not compiled.
    Patterns(PatternError),
    /// The whole DFA was not built.
    Dfa(DfaError),
}

impl fmt::Display for Error {
    fn fmt<W: fmt::Write>(&self, f: &mut fmt::Formatter<W>) -> fmt::Result {
        match self {
            Error::Patterns(error) => fmt::Display::fmt(error, f),
            Error::Dfa(error) => write!(f, "whole DFA: {error}"),
        }
    }
}

impl error::Error for Error {}

impl From<PatternError> for Error {
    ghost from_gives = { λ error e. e ≡ Patterns error };

    fn from(error: PatternError) -> Error {
        Error::Patterns(error)
    }
}

impl From<CompileError> for Error {
    ghost from_gives = { λ error e. e ≡ Patterns (Compile error) };

    fn from(error: CompileError) -> Error {
        Error::Patterns(PatternError::Compile(error))
    }
}

impl From<DfaError> for Error {
    ghost from_gives = { λ error e. e ≡ Dfa error };

    fn from(error: DfaError) -> Error {
        Error::Dfa(error)
    }
}

/// Returns an error of kind `OutOfMemory`, or else of kind `InvalidInput`. So `?` works in a `main`
/// that returns an `io::Result`.
impl From<Error> for io::Error {
    fn from(error: Error) -> io::Error {
        match error {
            Error::Patterns(error) => io::Error::from(error),
            Error::Dfa(DfaError::OutOfMemory) => io::Error::from(io::ErrorKind::OutOfMemory),
            Error::Dfa(DfaError::TooManyStates) => io::Error::from(io::ErrorKind::InvalidInput),
        }
    }
}
