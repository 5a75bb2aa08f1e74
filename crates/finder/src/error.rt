//! Errors: those that end the program, and those of one text.

use crate::quoted::{Quoted, Reason};
use determinize_regex::{CompileError, ParseError};
use std::alloc::{AllocError, AllocFailed};
use std::{fmt, io};

/// The longest pattern that is printed with its error.
const LONGEST_SHOWN: usize = 200;

/// An error that ends the program.
#[derive(Drop)]
pub enum Error<'a> {
    /// An argument is wrong: what is, in words, and the option or the value.
    Usage(&'static str, &'a [u8]),
    /// There is no pattern.
    NoPattern,
    /// A file of patterns was not read.
    PatternFile { name: &'a [u8], error: io::Error },
    /// A pattern is not UTF-8.
    NotUtf8(Vec<u8>),
    /// The text of a pattern is rejected by `parse_with`.
    Parse { text: String, error: ParseError },
    /// The patterns were not compiled.
    Compile(CompileError),
    /// Standard output was not written.
    Output(io::Error),
    /// An allocation failed.
    OutOfMemory,
}

impl fmt::Display for Error<'_> {
    fn fmt<W: fmt::Write>(&self, f: &mut fmt::Formatter<W>) -> fmt::Result {
        match self {
            Error::Usage(problem, argument) => {
                write_usage(f, problem, argument, "see finder --help")
            }
            Error::NoPattern => f.write_str("there is no pattern (see finder --help)"),
            Error::PatternFile { name, error } => write_failure(f, name, error),
            Error::NotUtf8(text) => {
                let hint = "write \\xFF for a byte, or use -F";
                write_usage(f, "a pattern is not UTF-8", text, hint)
            }
            Error::Parse { text, error } => write_parse(f, text.as_str(), error),
            Error::Compile(error) => fmt::Display::fmt(error, f),
            Error::Output(error) => write_failure(f, b"write error", error),
            Error::OutOfMemory => f.write_str("memory exhausted"),
        }
    }
}

/// Writes what is wrong with an argument, and what to do.
fn write_usage<W: fmt::Write>(
    f: &mut fmt::Formatter<W>,
    problem: &str,
    argument: &[u8],
    hint: &str,
) -> fmt::Result {
    let argument = Quoted(argument);
    write!(f, "{problem}: {argument} ({hint})")
}

/// Writes what failed, as a file of this name, and why.
fn write_failure<W: fmt::Write>(
    f: &mut fmt::Formatter<W>,
    name: &[u8],
    error: &io::Error,
) -> fmt::Result {
    let (name, reason) = (Quoted(name), Reason::of(error));
    write!(f, "{name}: {reason}")
}

/// Writes the error of a pattern, under its text if that is short and has no control characters.
fn write_parse<W: fmt::Write>(
    f: &mut fmt::Formatter<W>,
    text: &str,
    error: &ParseError,
) -> fmt::Result {
    if text.len() > LONGEST_SHOWN || has_control(text) {
        return write!(f, "in a pattern: {error}");
    }
    let marked = error.display(text);
    write!(f, "\n{marked}")
}

/// Returns whether a text has control characters.
fn has_control(text: &str) -> bool {
    for c in text.chars() {
        if c.is_control() {
            return true;
        }
    }
    false
}

impl From<AllocError> for Error<'_> {
    fn from(_error: AllocError) -> Self {
        Error::OutOfMemory
    }
}

impl<T: Drop> From<AllocFailed<T>> for Error<'_> {
    fn from(_error: AllocFailed<T>) -> Self {
        Error::OutOfMemory
    }
}

impl From<io::Error> for Error<'_> {
    fn from(error: io::Error) -> Self {
        Error::Output(error)
    }
}

/// Why a text was not searched to its end.
#[derive(Drop)]
pub enum SearchError {
    /// The text was not read, or an allocation failed: other texts may still be searched.
    Input(io::Error),
    /// Standard output was not written.
    Output(io::Error),
}

impl From<io::Error> for SearchError {
    fn from(error: io::Error) -> SearchError {
        SearchError::Output(error)
    }
}

impl From<AllocError> for SearchError {
    fn from(error: AllocError) -> SearchError {
        SearchError::Input(io::Error::from(error))
    }
}
