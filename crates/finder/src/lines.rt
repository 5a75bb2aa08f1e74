//! A search in one text after the other, line by line.

use crate::engines::Engines;
use crate::error::SearchError;
use crate::options::{Binary, Settings};
use crate::printer::{Head, Printer};
use crate::split::split_once;
use byte_set::ByteSet;
use determinize_lines::Blocks;
use determinize_lines::blocks::set_of;
use std::alloc::{AllocError, Global};
use std::collections::VecDeque;
use std::io::Read;

/// A search of texts for the lines that the settings select.
#[derive(Drop)]
pub struct Lines<'a> {
    alloc: Global,
    settings: &'a Settings<'a>,
    engines: Engines<'a>,
    pub printer: Printer<'a>,
    /// The number of selected lines of a text after which no others are.
    most: u64,
    /// The byte that ends a line.
    ends: ByteSet,
    /// The zero byte.
    zero: ByteSet,
    /// The lines before, if they may be printed before a selected one.
    before: VecDeque<Line>,
    /// Whether a group of lines was printed, of any text.
    has_group: bool,
}

/// What a search found in a text.
#[derive(Clone, Copy)]
pub struct Found {
    /// The number of selected lines, if all were read.
    pub selected: u64,
    /// Whether lines were left out because the text is binary.
    pub is_left_out: bool,
}

/// What is known of a text while it is read.
#[derive(Clone, Copy)]
struct Text<'t> {
    /// The name to print before its lines.
    name: Option<&'t str>,
    /// The least width of numbers.
    width: usize,
    place: Place,
    /// The number of selected lines.
    selected: u64,
    is_binary: bool,
    /// How many lines are still printed because they follow a selected one.
    after: u64,
    /// How many lines are before the one behind the last one that was printed.
    printed: Option<u64>,
}

/// A line that may be printed later.
#[derive(Drop)]
struct Line {
    place: Place,
    bytes: Vec<u8>,
}

/// Where a line is in its text.
#[derive(Clone, Copy)]
struct Place {
    /// How many lines are before it.
    lines: u64,
    /// How many bytes are before it.
    bytes: u64,
}

impl Place {
    /// Passes a number of lines, and of bytes in them.
    fn pass(&mut self, lines: usize, bytes: usize) {
        self.lines = self.lines.saturating_add(lines as u64);
        self.bytes = self.bytes.saturating_add(bytes as u64);
    }
}

impl<'a> Lines<'a> {
    /// Returns a search that has read nothing yet.
    pub fn new(
        alloc: Global,
        settings: &'a Settings<'a>,
        engines: Engines<'a>,
        printer: Printer<'a>,
    ) -> Lines<'a> {
        Lines {
            alloc,
            settings,
            engines,
            printer,
            most: settings.most(),
            ends: set_of(settings.terminator),
            zero: set_of(0),
            before: VecDeque::new(alloc),
            has_group: false,
        }
    }

    /// Reads a text, and prints what the settings select, behind the name if there is one. Stops
    /// once all that is printed is known. The size is that of the text, if it is known.
    ///
    /// What was printed is written before a read that may wait for input.
    pub fn search<R: Read>(
        &mut self,
        name: Option<&str>,
        size: Option<u64>,
        blocks: &mut Blocks,
        input: &mut R,
    ) -> Result<Found, SearchError> {
        self.before.clear();
        let mut text = Text {
            name,
            width: self.width(size),
            place: Place { lines: 0, bytes: 0 },
            selected: 0,
            is_binary: false,
            after: 0,
            printed: None,
        };
        blocks.begin();
        for block in 0..u64::MAX {
            self.printer.flush()?;
            if self.is_done(&text) || !blocks.advance(input).map_err(SearchError::Input)? {
                break;
            }
            if block == 0 && self.makes_binary(blocks.first_bytes()) {
                text.is_binary = true;
                if matches!(self.settings.binary, Binary::Skipped) {
                    break;
                }
            }
            self.take_block(&mut text, blocks.lines())?;
        }
        Ok(Found {
            selected: text.selected,
            is_left_out: self.is_left_out(&text),
        })
    }

    /// Returns whether all that is printed of a text is known.
    fn is_done(&self, text: &Text<'_>) -> bool {
        (text.selected >= self.most && text.after == 0) || self.is_left_out(text)
    }

    /// Returns whether lines of a text are left out because it is binary.
    fn is_left_out(&self, text: &Text<'_>) -> bool {
        text.is_binary && text.selected > 0 && self.settings.prints_lines()
    }

    /// Takes the lines of a block.
    fn take_block(&mut self, text: &mut Text<'_>, block: &[u8]) -> Result<(), SearchError> {
        let mut rest = block;
        for _ in 0..block.len() {
            if rest.is_empty() || self.is_done(text) {
                break;
            }
            rest = if self.can_find(text) {
                self.take_found(text, rest)?
            } else {
                self.take_first(text, rest, None)?
            };
        }
        Ok(())
    }

    /// Returns whether lines that have a match are found among others. In a binary text a line
    /// without a match may be several, which count with `-v`.
    fn can_find(&self, text: &Text<'_>) -> bool {
        self.engines.can_find(text.is_binary) && !(text.is_binary && self.settings.inverts)
    }

    /// Takes the lines up to the first that may have a match. Returns the others.
    fn take_found<'t>(
        &mut self,
        text: &mut Text<'_>,
        lines: &'t [u8],
    ) -> Result<&'t [u8], SearchError> {
        let Some(line) = self.engines.find(lines)? else {
            self.take_others(text, lines)?;
            return Ok(&[]);
        };
        let passed = lines.get(..line.start).unwrap_or(&[]);
        let found = lines.get(line.start..).unwrap_or(lines);
        self.take_others(text, passed)?;
        if self.is_done(text) {
            return Ok(&[]);
        }
        // In a binary text the parts of the line may have no match.
        let is_known = self.engines.finds_matches() && !text.is_binary;
        self.take_prefix(text, found, line.len(), is_known.then_some(true))
    }

    /// Takes lines one by one. It may be known whether each has a match, or else none.
    fn take_lines(
        &mut self,
        text: &mut Text<'_>,
        lines: &[u8],
        has_match: Option<bool>,
    ) -> Result<(), SearchError> {
        let mut rest = lines;
        for _ in 0..lines.len() {
            if rest.is_empty() || self.is_done(text) {
                break;
            }
            rest = self.take_first(text, rest, has_match)?;
        }
        Ok(())
    }

    /// Takes the first of these lines, of which it may be known whether it has a match. Returns the
    /// others.
    fn take_first<'t>(
        &mut self,
        text: &mut Text<'_>,
        lines: &'t [u8],
        has_match: Option<bool>,
    ) -> Result<&'t [u8], SearchError> {
        let end = self.ends.find(lines, 0, lines.len());
        self.take_prefix(text, lines, end.unwrap_or(lines.len()), has_match)
    }

    /// Takes the first of these lines, which has this length. Returns the others.
    fn take_prefix<'t>(
        &mut self,
        text: &mut Text<'_>,
        lines: &'t [u8],
        length: usize,
        has_match: Option<bool>,
    ) -> Result<&'t [u8], SearchError> {
        let line = lines.get(..length).unwrap_or(lines);
        match has_match {
            Some(has_match) => self.take_known(text, line, has_match)?,
            None => self.take(text, line)?,
        }
        let rest = lines.get(length.saturating_add(1)..).unwrap_or(&[]);
        text.place.pass(1, lines.len().saturating_sub(rest.len()));
        Ok(rest)
    }

    /// Takes lines without a match. If none of them can be printed, they are only counted.
    fn take_others(&mut self, text: &mut Text<'_>, lines: &[u8]) -> Result<(), SearchError> {
        if self.settings.inverts || self.settings.separates() {
            return self.take_lines(text, lines, Some(false));
        }
        let count = if self.settings.numbers {
            self.ends.count(lines, 0, lines.len())
        } else {
            0
        };
        text.place.pass(count, lines.len());
        Ok(())
    }

    /// Takes a line. In a binary text a zero byte ends a line too.
    fn take(&mut self, text: &mut Text<'_>, line: &[u8]) -> Result<(), SearchError> {
        if !text.is_binary {
            return self.take_line(text, line);
        }
        let mut rest = Some(line);
        for _ in 0..=line.len() {
            match rest {
                Some(parts) if !self.is_done(text) => {
                    let (part, behind) = split_once(parts, &self.zero);
                    self.take_line(text, part)?;
                    rest = behind;
                }
                _ => break,
            }
        }
        Ok(())
    }

    /// Counts and prints a line if it is selected, and prints it if it is near one that is.
    fn take_line(&mut self, text: &mut Text<'_>, line: &[u8]) -> Result<(), SearchError> {
        let has_match = self.engines.is_match(line)?;
        self.take_known(text, line, has_match)
    }

    /// Counts and prints a line of which it is known whether it has a match.
    fn take_known(
        &mut self,
        text: &mut Text<'_>,
        line: &[u8],
        has_match: bool,
    ) -> Result<(), SearchError> {
        if has_match == self.settings.inverts || text.selected >= self.most {
            return self.pass(text, line);
        }
        text.selected = text.selected.saturating_add(1);
        if !self.settings.prints_lines() {
            return Ok(());
        }
        if self.may_print(text, line) {
            self.print_group(text, line)?;
        }
        self.has_group = true;
        Ok(())
    }

    /// Returns whether the lines of a text are printed. One with a zero byte makes it binary.
    fn may_print(&self, text: &mut Text<'_>, line: &[u8]) -> bool {
        text.is_binary = text.is_binary || self.makes_binary(line);
        !text.is_binary
    }

    /// Returns whether a text with these bytes is binary: whether there is a zero byte, and the
    /// settings do not say otherwise.
    fn makes_binary(&self, bytes: &[u8]) -> bool {
        self.settings.terminator == b'\n'
            && !matches!(self.settings.binary, Binary::Text)
            && self.zero.find(bytes, 0, bytes.len()).is_some()
    }

    /// Passes a line that is not selected: prints it if it follows a selected one, and keeps it if
    /// it may be printed before one.
    fn pass(&mut self, text: &mut Text<'_>, line: &[u8]) -> Result<(), SearchError> {
        let is_kept = self.settings.prints_lines() && self.settings.before() > 0;
        if text.after == 0 && !is_kept {
            return Ok(());
        }
        if !self.may_print(text, line) {
            text.after = 0;
        } else if text.after > 0 {
            text.after = text.after.saturating_sub(1);
            self.print_line(text, line, false)?;
        } else {
            self.keep(text.place, line)?;
        }
        Ok(())
    }

    /// Keeps a line that may be printed before a selected one.
    fn keep(&mut self, place: Place, line: &[u8]) -> Result<(), AllocError> {
        if self.before.len() as u64 >= self.settings.before() {
            let _oldest = self.before.pop_front();
        }
        let bytes = line.to_vec(self.alloc)?;
        self.before.push_back(Line { place, bytes })?;
        Ok(())
    }

    /// Prints a selected line, behind the lines before it.
    fn print_group(&mut self, text: &mut Text<'_>, line: &[u8]) -> Result<(), SearchError> {
        let kept = self.before.len();
        let first = text.place.lines.saturating_sub(kept as u64);
        if self.has_group && text.printed != Some(first) {
            self.printer.separator()?;
        }
        for _ in 0..kept {
            if let Some(before) = self.before.pop_front() {
                self.print(
                    &self.head(text, before.place, false),
                    before.bytes.as_slice(),
                )?;
            }
        }
        self.print_line(text, line, true)?;
        text.after = self.settings.after();
        Ok(())
    }

    /// Prints the line where a text is, which is selected or near one that is.
    fn print_line(
        &mut self,
        text: &mut Text<'_>,
        line: &[u8],
        is_selected: bool,
    ) -> Result<(), SearchError> {
        text.printed = Some(text.place.lines.saturating_add(1));
        self.print(&self.head(text, text.place, is_selected), line)
    }

    /// Prints a line, or its matches, by the settings.
    fn print(&mut self, head: &Head<'_>, line: &[u8]) -> Result<(), SearchError> {
        if head.is_selected == self.settings.inverts || !self.printer.needs_matches() {
            return Ok(self.printer.print(head, line, &[])?);
        }
        let matches = self.engines.matches(line)?;
        Ok(self.printer.print(head, line, matches)?)
    }

    /// Returns what is printed before a line.
    fn head<'t>(&self, text: &Text<'t>, place: Place, is_selected: bool) -> Head<'t> {
        let settings = self.settings;
        Head {
            name: text.name,
            number: settings.numbers.then_some(place.lines.saturating_add(1)),
            offset: settings.offsets.then_some(place.bytes),
            pattern: None,
            width: text.width,
            is_selected,
        }
    }

    /// Returns the least width of numbers in a text, so that those of all lines have the same: of
    /// all that are possible, if the size is not known.
    fn width(&self, size: Option<u64>) -> usize {
        if !self.settings.has_tabs {
            return 0;
        }
        let greatest = size.unwrap_or(i64::MAX.cast_unsigned());
        let greatest = greatest.saturating_add(u64::from(self.settings.numbers));
        greatest.checked_ilog10().unwrap_or(0).saturating_add(1) as usize
    }
}
