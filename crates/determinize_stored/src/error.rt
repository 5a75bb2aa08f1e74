//! What is wrong with bytes that are no DFA.

use std::error::Error;
use std::fmt;

/// What is wrong at an offset.
#[derive(Clone, Copy, Debug, PartialEq, Eq)]
pub enum FormatErrorKind {
    /// The bytes do not begin as those of a DFA do, or their order is another one.
    Magic,
    /// The version is not the one that is read.
    Version,
    /// The match kind is neither 0 nor 1.
    MatchKind,
    /// Whether the NFA is a reverse one is neither 0 nor 1.
    Direction,
    /// The line terminator is no byte.
    LineTerminator,
    /// There are more than 256 classes of bytes.
    ClassCount,
    /// The bytes are too few or too many. The offset is where they should end or, if they are too
    /// few, that of the first number that is not there in full.
    Length,
    /// The class of a byte is none of the classes.
    Class,
    /// A start is no row.
    Start,
    /// An entry is no row.
    Entry,
    /// The list of a row ends before it begins.
    ListEnd,
    /// A pattern is no id.
    Pattern,
}

/// An error from `StoredDfa::from_bytes`.
#[derive(Clone, Copy, Debug, PartialEq, Eq)]
pub struct FormatError {
    /// What is wrong.
    pub kind: FormatErrorKind,
    /// The offset of the first byte that is wrong, or of the number that it belongs to.
    pub offset: usize,
}

impl FormatError {
    /// Returns the error of the number at an index.
    pub(crate) fn at(kind: FormatErrorKind, index: usize) -> FormatError {
        FormatError {
            kind,
            offset: index.saturating_mul(4),
        }
    }
}

impl fmt::Display for FormatErrorKind {
    fn fmt<W: fmt::Write>(&self, f: &mut fmt::Formatter<W>) -> fmt::Result {
        f.write_str(match self {
            FormatErrorKind::Magic => "no stored DFA, or one in another byte order",
            FormatErrorKind::Version => "an unknown version",
            FormatErrorKind::MatchKind => "an unknown match kind",
            FormatErrorKind::Direction => "an unknown direction",
            FormatErrorKind::LineTerminator => "a line terminator that is no byte",
            FormatErrorKind::ClassCount => "more than 256 classes",
            FormatErrorKind::Length => "too few bytes, or too many",
            FormatErrorKind::Class => "a class that is out of range",
            FormatErrorKind::Start => "a start that is no row",
            FormatErrorKind::Entry => "an entry that is no row",
            FormatErrorKind::ListEnd => "a list that ends before it begins",
            FormatErrorKind::Pattern => "a pattern that is no id",
        })
    }
}

impl fmt::Display for FormatError {
    fn fmt<W: fmt::Write>(&self, f: &mut fmt::Formatter<W>) -> fmt::Result {
        write!(f, "{} at offset {}", self.kind, self.offset)
    }
}

impl Error for FormatError {}
