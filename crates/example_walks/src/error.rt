//! The errors of texts: of a value or an NFA, of a job, and of all jobs of an input.

use determinize_below::BuildError;
use std::alloc::{AllocError, AllocFailed};
use std::{fmt, io};

/// The part of a text that is malformed or that the preconditions of a call exclude. The text of
/// each says what it is.
#[derive(Clone, Copy)]
pub enum Part {
    MatchKind,
    Direction,
    Range,
    Position,
    StartKind,
    Number,
    Flag,
    Digit,
    StateId,
    Unresolved,
    PatternId,
    Look,
    State,
    Transition,
    ByteRange,
    Union,
}

impl fmt::Display for Part {
    fn fmt<W: fmt::Write>(&self, f: &mut fmt::Formatter<W>) -> fmt::Result {
        f.write_str(match *self {
            Part::MatchKind => "a match kind",
            Part::Direction => "a direction",
            Part::Range => "a range of the haystack",
            Part::Position => "the number of a state of the walk",
            Part::StartKind => "a start kind",
            Part::Number => "a decimal number",
            Part::Flag => "a flag",
            Part::Digit => "two hexadecimal digits",
            Part::StateId => "the id of a state",
            Part::Unresolved => "the id of a state of the NFA",
            Part::PatternId => "the id of a pattern",
            Part::Look => "an assertion",
            Part::State => "an NFA state",
            Part::Transition => "a transition",
            Part::ByteRange => "a range of bytes, the least first",
            Part::Union => "a union of two states",
        })
    }
}

/// An error from a text of a value, of a pattern or of the states of an NFA.
#[derive(Clone, Copy)]
pub enum TextError {
    /// An allocation failed.
    OutOfMemory,
    /// A pattern is repeated in a list.
    RepeatedPattern,
    /// A value is malformed, or the preconditions of the call exclude it.
    Malformed(Part),
    /// `NFA::from_parts` returns this error for the states.
    Refused(BuildError),
}

impl From<AllocError> for TextError {
    fn from(_: AllocError) -> TextError {
        TextError::OutOfMemory
    }
}

impl<T: Drop> From<AllocFailed<T>> for TextError {
    fn from(_: AllocFailed<T>) -> TextError {
        TextError::OutOfMemory
    }
}

impl From<BuildError> for TextError {
    fn from(error: BuildError) -> TextError {
        match error {
            BuildError::OutOfMemory => TextError::OutOfMemory,
            _ => TextError::Refused(error),
        }
    }
}

impl fmt::Display for TextError {
    fn fmt<W: fmt::Write>(&self, f: &mut fmt::Formatter<W>) -> fmt::Result {
        match self {
            TextError::OutOfMemory => f.write_str("out of memory"),
            TextError::RepeatedPattern => f.write_str("a pattern stands twice"),
            TextError::Malformed(part) => write!(f, "not {part}"),
            TextError::Refused(error) => write!(f, "the states make no NFA: {error}"),
        }
    }
}

impl fmt::Debug for TextError {
    fn fmt<W: fmt::Write>(&self, f: &mut fmt::Formatter<W>) -> fmt::Result {
        fmt::Display::fmt(self, f)
    }
}

/// An error from the text of a job.
#[derive(Clone, Copy)]
pub enum ReadError<'t> {
    /// A word is not accepted: the reason, and the word.
    Word(&'static str, &'t str),
    /// A key is not accepted or is missing: the key, and the reason.
    Key(&'t str, &'static str),
    /// The line is not accepted, for this reason.
    Line(&'static str),
    /// The words are known, and a value or the states have this error.
    Text(TextError),
}

impl From<TextError> for ReadError<'_> {
    fn from(error: TextError) -> Self {
        ReadError::Text(error)
    }
}

impl fmt::Display for ReadError<'_> {
    fn fmt<W: fmt::Write>(&self, f: &mut fmt::Formatter<W>) -> fmt::Result {
        match self {
            ReadError::Word(reason, word) => write!(f, "{reason} {word:?}"),
            ReadError::Key(key, reason) => write!(f, "key {key} {reason}"),
            ReadError::Line(reason) => f.write_str(reason),
            ReadError::Text(error) => write!(f, "{error}"),
        }
    }
}

impl fmt::Debug for ReadError<'_> {
    fn fmt<W: fmt::Write>(&self, f: &mut fmt::Formatter<W>) -> fmt::Result {
        write!(f, "{self}")
    }
}

/// A reason why a replay of jobs has no verdict.
#[derive(Clone, Copy)]
pub enum ReplayError<'t> {
    /// The arguments are invalid.
    Arguments,
    /// The line with this number, starting from 1, is invalid.
    Line(u64, ReadError<'t>),
    /// There was no job.
    Nothing,
    /// An allocation failed.
    OutOfMemory,
    /// The output cannot be written.
    Output,
}

impl<'t> ReplayError<'t> {
    /// Returns the error for the line with this number, starting from 1.
    pub fn of_line(number: u64, error: ReadError<'t>) -> ReplayError<'t> {
        match error {
            ReadError::Text(TextError::OutOfMemory) => ReplayError::OutOfMemory,
            _ => ReplayError::Line(number, error),
        }
    }

    /// Returns this error of a failed input, or that of a failed allocation if this is why.
    pub fn because(self, error: &io::Error) -> ReplayError<'t> {
        match error.kind() {
            io::ErrorKind::OutOfMemory => ReplayError::OutOfMemory,
            _ => self,
        }
    }
}

impl From<AllocError> for ReplayError<'_> {
    fn from(_: AllocError) -> Self {
        ReplayError::OutOfMemory
    }
}

impl From<io::Error> for ReplayError<'_> {
    fn from(_: io::Error) -> Self {
        ReplayError::Output
    }
}

impl fmt::Display for ReplayError<'_> {
    fn fmt<W: fmt::Write>(&self, f: &mut fmt::Formatter<W>) -> fmt::Result {
        f.write_str(match self {
            ReplayError::Line(number, error) => return write!(f, "line {number}: {error}"),
            ReplayError::Arguments => "arguments are not taken",
            ReplayError::Nothing => "no job was replayed",
            ReplayError::OutOfMemory => "out of memory",
            ReplayError::Output => "the output can't be written",
        })
    }
}
