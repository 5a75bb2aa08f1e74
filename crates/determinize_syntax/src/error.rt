//! Errors of the text of a pattern.

ghost use Rattle.std.specs.Prelude.{◌≡◌};
ghost use Rattle.determinize_syntax.specs.Places.{IsErrorIn};
ghost use Rattle.determinize_syntax.specs.declared.error.ErrorKind.TheVariants as kinds;

use std::alloc::{AllocError, AllocFailed};
use std::error::Error;
use std::fmt;

/// What is wrong with a text, named as in regex-syntax.
#[derive(Clone, Copy, Debug, PartialEq, Eq)]
pub enum ErrorKind {
    /// An assertion in brackets, as in `[\b]`.
    ClassEscapeInvalid,
    /// Brackets in brackets, which are not supported, as in `[a[b]]`.
    ClassNested,
    /// An operation on classes, which is not supported: `&&`, `--` or `~~` in brackets.
    ClassOperation,
    /// A range whose end is below its beginning, as in `[z-a]`.
    ClassRangeInvalid,
    /// A range that begins or ends with a class, as in `[a-\d]`.
    ClassRangeLiteral,
    /// Brackets that are not closed.
    ClassUnclosed,
    /// A number that is not below 2^32.
    DecimalInvalid,
    /// No digits, as in `\x{}`.
    EscapeHexEmpty,
    /// A number that is no character, as in `\x{D800}`.
    EscapeHexInvalid,
    /// A character that is no hexadecimal digit, as in `\xZZ`.
    EscapeHexInvalidDigit,
    /// The text ends in an escape.
    EscapeUnexpectedEof,
    /// An escape that has no meaning, as `\q`.
    EscapeUnrecognized,
    /// No flag after `-`, as in `(?i-)`.
    FlagDanglingNegation,
    /// A flag that comes twice, as in `(?ii)`.
    FlagDuplicate,
    /// A second `-`, as in `(?i-s-m)`.
    FlagRepeatedNegation,
    /// The text ends in flags.
    FlagUnexpectedEof,
    /// A letter that is no flag.
    FlagUnrecognized,
    /// A flag that is not supported: `x`.
    FlagUnsupported,
    /// A second group with the same name.
    GroupNameDuplicate,
    /// A name without characters.
    GroupNameEmpty,
    /// A character that a name may not have.
    GroupNameInvalid,
    /// The text ends in a name.
    GroupNameUnexpectedEof,
    /// A group that is not closed.
    GroupUnclosed,
    /// A parenthesis that closes no group.
    GroupUnopened,
    /// Groups and operators that are more than 250 deep.
    NestLimitExceeded,
    /// An allocation failed. The text may be a pattern.
    OutOfMemory,
    /// No number in braces, as in `a{}`.
    RepetitionCountDecimalEmpty,
    /// A maximum below the minimum, as in `a{2,1}`.
    RepetitionCountInvalid,
    /// Braces that are not closed.
    RepetitionCountUnclosed,
    /// Nothing in front of an operator, as in `*`.
    RepetitionMissing,
    /// The name of a boundary that is not closed, as in `\b{start`.
    SpecialWordBoundaryUnclosed,
    /// A name that is none of a boundary, as in `\b{x}`.
    SpecialWordBoundaryUnrecognized,
    /// The text ends after `\b{`.
    SpecialWordOrRepetitionUnexpectedEof,
    /// The flag `i` where `u` holds: only the cases of ASCII letters are known.
    UnicodeCaseUnavailable,
    /// `\u` and `\p`, which are not supported, or, where `u` does not hold, a character beyond
    /// ASCII in brackets.
    UnicodeNotAllowed,
    /// A class as `\d` where `u` holds: only its ASCII characters are known.
    UnicodePerlClassNotFound,
    /// An assertion on words, as `\b`, where `u` holds: only words of ASCII are known.
    UnicodeWordUnavailable,
    /// A reference to a group, as `\1`.
    UnsupportedBackreference,
    /// What looks ahead or behind, as `(?=a)`.
    UnsupportedLookAround,
}

/// An error of a text: what is wrong, and the bytes from `start` to before `end`.
#[derive(Clone, Copy, Debug, PartialEq, Eq)]
pub struct ParseError {
    pub kind: ErrorKind,
    pub start: usize,
    pub end: usize,
}

impl ParseError {
    /// Returns the error of this kind at this place.
    pub fn new(kind: ErrorKind, start: usize, end: usize) -> ParseError
        ensures kind { result.kind ≡ kind }
        ensures start { result.start ≡ start }
        ensures end { result.end ≡ end }
    {
        ParseError { kind, start, end }
    }

    /// Returns the error as it is written with its text: the line, carets under the place, and what
    /// is wrong.
    pub fn display(self, text: &str) -> Marked<'_> {
        Marked { error: self, text }
    }
}

impl From<AllocError> for ParseError {
    ghost from_gives = { λ _ e. e.kind ≡ kinds.OutOfMemory };

    fn from(_error: AllocError) -> ParseError {
        ParseError::new(ErrorKind::OutOfMemory, 0, 0)
    }
}

impl<T: Drop> From<AllocFailed<T>> for ParseError {
    ghost from_gives = { λ _ e. e.kind ≡ kinds.OutOfMemory };

    fn from(_error: AllocFailed<T>) -> ParseError {
        ParseError::new(ErrorKind::OutOfMemory, 0, 0)
    }
}

/// An error where a text is read: what is wrong, how many bytes are left at the beginning of its
/// place, and how many bytes the place has.
#[derive(Clone, Copy)]
pub(crate) struct Rejection {
    pub kind: ErrorKind,
    pub left: usize,
    pub len: usize,
}

impl Rejection {
    /// Returns the error of this kind from where `left` bytes are left to where `after` are.
    pub fn new(kind: ErrorKind, left: usize, after: usize) -> Rejection
        ensures { result.kind ≡ kind }
    {
        let len = left.saturating_sub(after);
        Rejection { kind, left, len }
    }

    /// Returns the error of this kind at the ASCII character at this place.
    pub fn at(kind: ErrorKind, left: usize) -> Rejection
        ensures { result.kind ≡ kind }
    {
        Rejection { kind, left, len: 1 }
    }

    /// Returns the error in its text, with the place counted from the beginning.
    pub fn in_text(self, text: &str) -> ParseError
        ensures kind { result.kind ≡ self.kind }
        ensures range { IsErrorIn text.now result }
    {
        let start = text.len().saturating_sub(self.left);
        let after = self.left.saturating_sub(self.len);
        ParseError::new(self.kind, start, text.len().saturating_sub(after))
    }
}

impl From<AllocError> for Rejection {
    ghost from_gives = { λ _ e. e.kind ≡ kinds.OutOfMemory };

    fn from(_error: AllocError) -> Rejection {
        Rejection::new(ErrorKind::OutOfMemory, usize::MAX, usize::MAX)
    }
}

impl<T: Drop> From<AllocFailed<T>> for Rejection {
    ghost from_gives = { λ _ e. e.kind ≡ kinds.OutOfMemory };

    fn from(_error: AllocFailed<T>) -> Rejection {
        Rejection::new(ErrorKind::OutOfMemory, usize::MAX, usize::MAX)
    }
}

impl ErrorKind {
    /// Returns what is wrong, in words.
    fn words(self) -> &'static str {
        match self {
            ErrorKind::ClassEscapeInvalid => "an assertion in brackets",
            ErrorKind::ClassNested => "brackets in brackets are not supported",
            ErrorKind::ClassOperation => "an operation on classes is not supported",
            ErrorKind::ClassRangeInvalid => "the end of the range is below its beginning",
            ErrorKind::ClassRangeLiteral => "a range begins or ends with a class",
            ErrorKind::ClassUnclosed => "the brackets are not closed",
            ErrorKind::DecimalInvalid => "the number is too large",
            ErrorKind::EscapeHexEmpty => "there are no digits",
            ErrorKind::EscapeHexInvalid => "the number is no character",
            ErrorKind::EscapeHexInvalidDigit => "this is no hexadecimal digit",
            ErrorKind::EscapeUnexpectedEof => "the text ends in an escape",
            ErrorKind::EscapeUnrecognized => "the escape has no meaning",
            ErrorKind::FlagDanglingNegation => "no flag follows the hyphen",
            ErrorKind::FlagDuplicate => "the flag comes twice",
            ErrorKind::FlagRepeatedNegation => "there is a second hyphen",
            ErrorKind::FlagUnexpectedEof => "the text ends in flags",
            ErrorKind::FlagUnrecognized => "this is no flag",
            _ => self.other_words(),
        }
    }

    /// Returns what is wrong, of the kinds that `words` leaves to it.
    fn other_words(self) -> &'static str {
        match self {
            ErrorKind::FlagUnsupported => "the flag is not supported",
            ErrorKind::GroupNameDuplicate => "another group has the name",
            ErrorKind::GroupNameEmpty => "the name is empty",
            ErrorKind::GroupNameInvalid => "a name may not have this character",
            ErrorKind::GroupNameUnexpectedEof => "the text ends in a name",
            ErrorKind::GroupUnclosed => "the group is not closed",
            ErrorKind::GroupUnopened => "no group is open here",
            ErrorKind::NestLimitExceeded => "groups and operators are too deep",
            ErrorKind::OutOfMemory => "out of memory",
            ErrorKind::RepetitionCountDecimalEmpty => "there is no number",
            ErrorKind::RepetitionCountInvalid => "the maximum is below the minimum",
            ErrorKind::RepetitionCountUnclosed => "the braces are not closed",
            ErrorKind::RepetitionMissing => "there is nothing to repeat",
            ErrorKind::SpecialWordBoundaryUnclosed => "the name of the boundary is not closed",
            ErrorKind::SpecialWordBoundaryUnrecognized => "no boundary has this name",
            ErrorKind::SpecialWordOrRepetitionUnexpectedEof => "the text ends after the brace",
            ErrorKind::UnicodeCaseUnavailable => "the cases of Unicode are not supported",
            ErrorKind::UnicodeNotAllowed => "this needs Unicode, which is off or not supported",
            ErrorKind::UnicodePerlClassNotFound => "this class of Unicode is not supported",
            ErrorKind::UnicodeWordUnavailable => "the words of Unicode are not supported",
            ErrorKind::UnsupportedBackreference => "a reference to a group is not supported",
            _ => "looking ahead or behind is not supported",
        }
    }
}

/// Writes what is wrong.
impl fmt::Display for ErrorKind {
    fn fmt<W: fmt::Write>(&self, f: &mut fmt::Formatter<W>) -> fmt::Result {
        f.write_str(self.words())
    }
}

/// Writes what is wrong, and the bytes that it is about.
impl fmt::Display for ParseError {
    fn fmt<W: fmt::Write>(&self, f: &mut fmt::Formatter<W>) -> fmt::Result {
        let ParseError { kind, start, end } = *self;
        write!(f, "{kind}, at {start}..{end}")
    }
}

impl Error for ParseError {}

/// An error with its text.
#[derive(Clone, Copy)]
pub struct Marked<'a> {
    error: ParseError,
    text: &'a str,
}

/// Writes the line of the text that the error is about, carets under the place, and what is wrong.
impl fmt::Display for Marked<'_> {
    fn fmt<W: fmt::Write>(&self, f: &mut fmt::Formatter<W>) -> fmt::Result {
        let ParseError { start, end, .. } = self.error;
        let mut offset = 0_usize;
        for line in self.text.split('\n') {
            let line_end = offset.saturating_add(line.len());
            if start <= line_end {
                let (start, end) = (start.saturating_sub(offset), end.saturating_sub(offset));
                write_marked(f, line, start, end)?;
                break;
            }
            offset = line_end.saturating_add(1);
        }
        fmt::Display::fmt(&self.error, f)
    }
}

/// Writes the line, and below it a line with carets under the characters from `start` to before
/// `end`, at least one.
fn write_marked<W: fmt::Write>(
    f: &mut fmt::Formatter<W>,
    line: &str,
    start: usize,
    end: usize,
) -> fmt::Result {
    f.write_str(line)?;
    f.write_str("\n")?;
    let last = end.max(start.saturating_add(1));
    for (at, _) in line.char_indices() {
        if at >= last {
            break;
        }
        f.write_str(if at < start { " " } else { "^" })?;
    }
    if line.len() <= start {
        f.write_str("^")?;
    }
    f.write_str("\n")
}
