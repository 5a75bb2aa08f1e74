//! The errors of a replay.

use determinize_below::BuildError;
use example_walks::error::TextError;
use std::alloc::{AllocError, AllocFailed};
use std::{fmt, io};

/// A reason why a replay has no verdict.
#[derive(Clone, Copy)]
pub enum ReplayError {
    /// A line cannot be read, or is not UTF-8.
    Unreadable,
    /// A line belongs to no job.
    NoJob,
    /// This part of a job or a row is malformed.
    Malformed(&'static str),
    /// An allocation failed.
    OutOfMemory,
    /// The output cannot be written.
    Output,
}

impl From<AllocError> for ReplayError {
    fn from(_: AllocError) -> ReplayError {
        ReplayError::OutOfMemory
    }
}

impl<T: Drop> From<AllocFailed<T>> for ReplayError {
    fn from(_: AllocFailed<T>) -> ReplayError {
        ReplayError::OutOfMemory
    }
}

impl From<TextError> for ReplayError {
    fn from(error: TextError) -> ReplayError {
        match error {
            TextError::OutOfMemory => ReplayError::OutOfMemory,
            _ => ReplayError::Malformed("a value"),
        }
    }
}

impl From<BuildError> for ReplayError {
    fn from(error: BuildError) -> ReplayError {
        match error {
            BuildError::OutOfMemory => ReplayError::OutOfMemory,
            _ => ReplayError::Malformed("a pattern whose NFA can be reversed"),
        }
    }
}

impl From<io::Error> for ReplayError {
    fn from(_: io::Error) -> ReplayError {
        ReplayError::Output
    }
}

impl fmt::Display for ReplayError {
    fn fmt<W: fmt::Write>(&self, f: &mut fmt::Formatter<W>) -> fmt::Result {
        match self {
            ReplayError::Unreadable => f.write_str("the line can't be read"),
            ReplayError::NoJob => f.write_str("no job before the line"),
            ReplayError::Malformed(part) => write!(f, "not {part}"),
            ReplayError::OutOfMemory => f.write_str("out of memory"),
            ReplayError::Output => f.write_str("the output can't be written"),
        }
    }
}
