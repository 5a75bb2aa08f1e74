//! The patterns, the files and the settings that the arguments give.

use crate::globs::Globs;
use std::alloc::Global;

/// The patterns, the files and the settings.
#[derive(Drop)]
pub struct Options<'a> {
    /// The patterns, of which the first is pattern 0.
    pub patterns: Vec<Vec<u8>>,
    /// The names of the files; `-` is standard input.
    pub files: Vec<&'a [u8]>,
    /// Which files and directories are searched, by their names.
    pub globs: Globs<'a>,
    pub settings: Settings<'a>,
}

/// How lines are selected, and what is printed.
#[derive(Clone, Copy)]
pub struct Settings<'a> {
    pub action: Action,
    /// Whether the patterns are texts.
    pub is_fixed: bool,
    /// Whether the ASCII letters of the patterns match in both cases.
    pub ignores_case: bool,
    /// Whether the patterns read characters in UTF-8, and not bytes.
    pub reads_characters: bool,
    /// Whether a match must have no word character before or after it.
    pub matches_words: bool,
    /// Whether a match must be a whole line.
    pub matches_lines: bool,
    /// Whether lines without a match are selected, and not those with one.
    pub inverts: bool,
    /// The greatest number of selected lines of a file.
    pub max_count: u64,
    /// The byte that ends a line.
    pub terminator: u8,
    pub binary: Binary,
    /// Whether the files below directories are searched.
    pub is_recursive: bool,
    /// Whether links that are met there are followed.
    pub follows_links: bool,
    /// Whether there are no messages about files that cannot be read.
    pub is_silent: bool,
    pub shows: Shows,
    /// Whether the number of each line is printed.
    pub numbers: bool,
    /// Whether the offset of each line or match is printed.
    pub offsets: bool,
    /// Whether the number of the pattern of each match is printed.
    pub pattern_numbers: bool,
    pub names: Names,
    /// The name of standard input.
    pub label: &'a str,
    /// Whether a zero byte follows names of files.
    pub has_nulls: bool,
    /// Whether a tab is before each line, and numbers are as wide as the greatest one.
    pub has_tabs: bool,
    /// Whether each line is written as soon as it is printed.
    pub is_line_buffered: bool,
    pub colors: Colors,
    /// How many lines are printed before each selected line, and after it.
    pub before: Option<u64>,
    pub after: Option<u64>,
    /// How many are if these say nothing.
    pub around: Option<u64>,
    /// What is printed between groups of lines, if anything is.
    pub separator: Option<&'a [u8]>,
}

/// What the program does.
#[derive(Clone, Copy)]
pub enum Action {
    Search,
    PrintUsage,
    PrintVersion,
}

/// What is printed of the lines that are selected. Of two options the later one here counts, and of
/// the two of names the one that was given last.
#[derive(Clone, Copy)]
pub enum Shows {
    /// Each line.
    Lines,
    /// Each match of each line, and nothing else of it.
    Matches,
    /// Their number, for each file.
    Count,
    /// The name of each file that has one.
    Names,
    /// The name of each file that has none.
    OtherNames,
    /// Nothing: only the exit status says whether there is one.
    Nothing,
}

/// How a file is searched that has a zero byte.
#[derive(Clone, Copy)]
pub enum Binary {
    /// That it has a selected line is said, and none is printed.
    Noted,
    /// As any other.
    Text,
    /// As one without matches.
    Skipped,
}

/// When the name of a file is printed.
#[derive(Clone, Copy)]
pub enum Names {
    /// If there may be several files.
    IfSeveral,
    Always,
    Never,
}

/// When colors are printed.
#[derive(Clone, Copy)]
pub enum Colors {
    /// If standard output is a terminal that has them.
    IfTerminal,
    Always,
    Never,
}

impl Options<'_> {
    /// Returns the options of a program without arguments.
    pub fn new(alloc: Global) -> Self {
        Options {
            patterns: Vec::new(alloc),
            files: Vec::new(alloc),
            globs: Globs::new(alloc),
            settings: Settings::new(),
        }
    }
}

impl Settings<'_> {
    /// Returns the usual settings.
    fn new() -> Self {
        Settings {
            action: Action::Search,
            is_fixed: false,
            ignores_case: false,
            reads_characters: false,
            matches_words: false,
            matches_lines: false,
            inverts: false,
            max_count: u64::MAX,
            terminator: b'\n',
            binary: Binary::Noted,
            is_recursive: false,
            follows_links: false,
            is_silent: false,
            shows: Shows::Lines,
            numbers: false,
            offsets: false,
            pattern_numbers: false,
            names: Names::IfSeveral,
            label: "(standard input)",
            has_nulls: false,
            has_tabs: false,
            is_line_buffered: false,
            colors: Colors::Never,
            before: None,
            after: None,
            around: None,
            separator: Some(b"--"),
        }
    }

    /// Returns how many lines are printed before each selected one.
    pub fn before(&self) -> u64 {
        self.before.or(self.around).unwrap_or(0)
    }

    /// Returns how many lines are printed after each selected one.
    pub fn after(&self) -> u64 {
        self.after.or(self.around).unwrap_or(0)
    }

    /// Returns whether groups of lines are separated: whether an option speaks of lines around.
    pub fn separates(&self) -> bool {
        self.before.is_some() || self.after.is_some() || self.around.is_some()
    }

    /// Returns whether lines are printed, or matches.
    pub fn prints_lines(&self) -> bool {
        matches!(self.shows, Shows::Lines | Shows::Matches)
    }

    /// Returns whether a search of the file that it writes to might not end: if it prints more
    /// than one line of it.
    pub fn can_grow(&self) -> bool {
        self.prints_lines() && self.max_count > 1
    }

    /// Returns whether nothing is printed.
    pub fn is_quiet(&self) -> bool {
        matches!(self.shows, Shows::Nothing)
    }

    /// Returns the number of selected lines of a file after which no others are: one decides
    /// whether the name of the file is printed.
    pub fn most(&self) -> u64 {
        match self.shows {
            Shows::Names | Shows::OtherNames | Shows::Nothing => self.max_count.min(1),
            _ => self.max_count,
        }
    }
}
