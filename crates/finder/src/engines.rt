//! What finds the matches of patterns in lines: texts that each match contains, and regexes.

use crate::literals::Literals;
use crate::options::Settings;
use determinize_lines::LineFinder;
use determinize_regex::{Match, Regex};
use std::alloc::{AllocError, Global};
use std::ops::Range;

/// The most states of a cache of the regex, as `RegexConfig` has it.
const CACHE_LIMIT: usize = 10_000;

/// What finds the matches of patterns in lines.
#[derive(Drop)]
pub struct Engines<'r> {
    finder: LineFinder<'r>,
    /// What each match contains.
    literals: Option<Literals>,
    /// Whether the matches of several lines are those of each where a zero byte ends a line too.
    is_local_in_binary: bool,
    /// The matches of the last line of which all were asked for.
    found: Vec<Match>,
}

impl<'r> Engines<'r> {
    /// Returns what finds the matches of a regex, by the settings.
    pub fn new(
        alloc: Global,
        regex: &'r Regex,
        settings: &Settings<'_>,
    ) -> Result<Engines<'r>, AllocError> {
        let finder = LineFinder::new(alloc, regex, settings.terminator, CACHE_LIMIT);
        let looks = regex.nfa().look_set_any();
        Ok(Engines {
            literals: Literals::of(alloc, regex.patterns(), settings.terminator)?,
            is_local_in_binary: finder.is_at_once() && !looks.contains_anchor_line(),
            finder,
            found: Vec::new(alloc),
        })
    }

    /// Returns whether `find` passes several lines at once, in a binary text or in another.
    pub fn can_find(&self, is_binary: bool) -> bool {
        let is_local = if is_binary {
            self.is_local_in_binary
        } else {
            self.finder.is_at_once()
        };
        self.literals.is_some() || is_local
    }

    /// Returns whether each line that `find` finds has a match.
    pub fn finds_matches(&self) -> bool {
        match &self.literals {
            Some(literals) => literals.are_matches(),
            None => true,
        }
    }

    /// Returns the first line that may have a match. The lines before it have none.
    pub fn find(&mut self, lines: &[u8]) -> Result<Option<Range<usize>>, AllocError> {
        let Some(literals) = &self.literals else {
            return self.finder.find(lines);
        };
        match literals.find(lines) {
            Some(at) => Ok(Some(self.finder.line_at(lines, at.min(lines.len())))),
            None => Ok(None),
        }
    }

    /// Returns whether a line has a match.
    pub fn is_match(&mut self, line: &[u8]) -> Result<bool, AllocError> {
        self.finder.is_match(line)
    }

    /// Returns all matches of a line.
    pub fn matches(&mut self, line: &[u8]) -> Result<&[Match], AllocError> {
        self.found = self.finder.find_all(line)?;
        Ok(self.found.as_slice())
    }
}
