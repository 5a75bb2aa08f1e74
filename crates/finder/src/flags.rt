//! The names of the options.

/// An option.
#[derive(Clone, Copy, PartialEq, Eq)]
pub enum Flag {
    AfterContext,
    BeforeContext,
    Binary,
    BinaryAsText,
    BinaryFiles,
    BinarySkipped,
    ByteOffset,
    Characters,
    Color,
    Context,
    Count,
    DereferenceRecursive,
    Exclude,
    ExcludeDir,
    ExtendedRegexp,
    File,
    FilesWithMatches,
    FilesWithoutMatch,
    FixedStrings,
    GroupSeparator,
    Help,
    IgnoreCase,
    Include,
    InitialTab,
    InvertMatch,
    Label,
    LineBuffered,
    LineNumber,
    LineRegexp,
    MaxCount,
    NoFilename,
    NoGroupSeparator,
    NoMessages,
    Null,
    NullData,
    OnlyMatching,
    PatternNumber,
    Quiet,
    Recursive,
    Regexp,
    Version,
    WithFilename,
    WordRegexp,
}

/// Whether an option has a value.
#[derive(Clone, Copy)]
pub enum Takes {
    Nothing,
    /// A value, which may only follow an equals sign.
    Optional,
    /// A value, which may be the next argument.
    Value,
}

/// The letter of an option without one.
const NONE: u8 = b'-';

/// Each option with its letter and its name.
const NAMES: [(u8, &str, Flag); 45] = [
    (b'A', "after-context", Flag::AfterContext),
    (b'B', "before-context", Flag::BeforeContext),
    (b'C', "context", Flag::Context),
    (b'E', "extended-regexp", Flag::ExtendedRegexp),
    (b'F', "fixed-strings", Flag::FixedStrings),
    (b'H', "with-filename", Flag::WithFilename),
    (b'I', "", Flag::BinarySkipped),
    (b'L', "files-without-match", Flag::FilesWithoutMatch),
    (b'R', "dereference-recursive", Flag::DereferenceRecursive),
    (b'T', "initial-tab", Flag::InitialTab),
    (b'U', "binary", Flag::Binary),
    (b'V', "version", Flag::Version),
    (b'Z', "null", Flag::Null),
    (b'a', "text", Flag::BinaryAsText),
    (b'b', "byte-offset", Flag::ByteOffset),
    (b'c', "count", Flag::Count),
    (b'e', "regexp", Flag::Regexp),
    (b'f', "file", Flag::File),
    (b'h', "no-filename", Flag::NoFilename),
    (b'i', "ignore-case", Flag::IgnoreCase),
    (b'l', "files-with-matches", Flag::FilesWithMatches),
    (b'm', "max-count", Flag::MaxCount),
    (b'n', "line-number", Flag::LineNumber),
    (b'o', "only-matching", Flag::OnlyMatching),
    (b'q', "quiet", Flag::Quiet),
    (b'r', "recursive", Flag::Recursive),
    (b's', "no-messages", Flag::NoMessages),
    (b'v', "invert-match", Flag::InvertMatch),
    (b'w', "word-regexp", Flag::WordRegexp),
    (b'x', "line-regexp", Flag::LineRegexp),
    (b'z', "null-data", Flag::NullData),
    (NONE, "binary-files", Flag::BinaryFiles),
    (NONE, "characters", Flag::Characters),
    (NONE, "color", Flag::Color),
    (NONE, "colour", Flag::Color),
    (NONE, "exclude", Flag::Exclude),
    (NONE, "exclude-dir", Flag::ExcludeDir),
    (NONE, "group-separator", Flag::GroupSeparator),
    (NONE, "help", Flag::Help),
    (NONE, "include", Flag::Include),
    (NONE, "label", Flag::Label),
    (NONE, "line-buffered", Flag::LineBuffered),
    (NONE, "no-group-separator", Flag::NoGroupSeparator),
    (NONE, "pattern-number", Flag::PatternNumber),
    (NONE, "silent", Flag::Quiet),
];

impl Flag {
    /// Returns the option of a letter.
    pub fn from_letter(letter: u8) -> Option<Flag> {
        for (own, _, flag) in &NAMES {
            if *own == letter && letter != NONE {
                return Some(*flag);
            }
        }
        None
    }

    /// Returns the option of a name, or else the only one whose name begins like this. If there is
    /// none, returns why, in words.
    pub fn from_name(name: &[u8]) -> Result<Flag, &'static str> {
        let (mut found, mut are_several) = (None, false);
        for (_, own, flag) in &NAMES {
            let own = own.as_bytes();
            if own == name {
                return Ok(*flag);
            }
            if own.starts_with(name) {
                are_several = are_several || matches!(found, Some(other) if other != *flag);
                found = Some(*flag);
            }
        }
        match found {
            Some(_) if are_several => Err("several options begin so"),
            Some(flag) => Ok(flag),
            None => Err("there is no such option"),
        }
    }

    /// Returns whether the option has a value.
    pub fn takes(self) -> Takes {
        match self {
            Flag::AfterContext
            | Flag::BeforeContext
            | Flag::BinaryFiles
            | Flag::Context
            | Flag::Exclude
            | Flag::ExcludeDir
            | Flag::File
            | Flag::GroupSeparator
            | Flag::Include
            | Flag::Label
            | Flag::MaxCount
            | Flag::Regexp => Takes::Value,
            Flag::Color => Takes::Optional,
            _ => Takes::Nothing,
        }
    }
}
