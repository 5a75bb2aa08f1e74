//! What is printed: names, numbers, lines, and the marks around them.

use crate::options::{Settings, Shows};
use determinize_regex::Match;
use std::io::{self, BufWriter, Stdout, Write};

/// Standard output.
#[derive(Drop)]
pub struct Printer<'a> {
    out: BufWriter<Stdout>,
    settings: &'a Settings<'a>,
    /// Whether names, numbers and matches are marked by colors.
    has_colors: bool,
}

/// What is printed before a line or a match, each part with a sign behind it.
#[derive(Clone, Copy)]
pub struct Head<'a> {
    /// The name of the file.
    pub name: Option<&'a str>,
    /// The number of the line.
    pub number: Option<u64>,
    /// The offset of what is printed.
    pub offset: Option<u64>,
    /// The number of the pattern.
    pub pattern: Option<u64>,
    /// The least width of each of these numbers.
    pub width: usize,
    /// Whether the line is selected: the sign is a colon, and else a hyphen.
    pub is_selected: bool,
}

/// What selects the color of a match, as in grep.
const MATCH: &[u8] = b"\x1b[01;31m\x1b[K";

/// What selects the color of a name.
const NAME: &[u8] = b"\x1b[35m\x1b[K";

/// What selects the color of a number.
const NUMBER: &[u8] = b"\x1b[32m\x1b[K";

/// What selects the color of a sign.
const SIGN: &[u8] = b"\x1b[36m\x1b[K";

/// What ends a color.
const PLAIN: &[u8] = b"\x1b[m\x1b[K";

impl Head<'_> {
    /// Returns whether anything is before the line.
    fn has_some(&self) -> bool {
        self.name.is_some()
            || self.number.is_some()
            || self.offset.is_some()
            || self.pattern.is_some()
    }
}

impl<'a> Printer<'a> {
    /// Returns a printer that has printed nothing.
    pub fn new(
        rt: &HostRuntime,
        settings: &'a Settings<'a>,
        has_colors: bool,
    ) -> io::Result<Printer<'a>> {
        Ok(Printer {
            out: BufWriter::with_capacity(rt.alloc(), 1 << 16, rt.stdout())?,
            settings,
            has_colors,
        })
    }

    /// Returns whether what is printed of a line depends on its matches.
    pub fn needs_matches(&self) -> bool {
        self.has_colors || matches!(self.settings.shows, Shows::Matches)
    }

    /// Writes all that was printed.
    pub fn flush(&mut self) -> io::Result<()> {
        self.out.flush()
    }

    /// Prints a line with these matches marked, or only the matches, by the settings.
    pub fn print(&mut self, head: &Head<'_>, line: &[u8], matches: &[Match]) -> io::Result<()> {
        match self.settings.shows {
            Shows::Matches => self.matches(head, line, matches),
            _ => self.line(head, line, matches),
        }
    }

    /// Prints each match of a line as a line, unless it is empty.
    fn matches(&mut self, head: &Head<'_>, line: &[u8], matches: &[Match]) -> io::Result<()> {
        for found in matches {
            let bytes = found.bytes(line).unwrap_or(&[]);
            if bytes.is_empty() {
                continue;
            }
            let mut head = *head;
            if let Some(offset) = head.offset {
                head.offset = Some(offset.saturating_add(found.start as u64));
            }
            let pattern = found.pattern.as_usize() as u64;
            head.pattern = self.settings.pattern_numbers.then_some(pattern);
            let mut whole = *found;
            (whole.start, whole.end) = (0, bytes.len());
            self.line(&head, bytes, &[whole])?;
        }
        Ok(())
    }

    /// Prints a line, or a part of one as a line, with these matches marked.
    fn line(&mut self, head: &Head<'_>, line: &[u8], matches: &[Match]) -> io::Result<()> {
        self.head(head, line.is_empty())?;
        let mut done = 0;
        for found in matches {
            if !found.is_empty() {
                self.out
                    .write_all(line.get(done..found.start).unwrap_or(&[]))?;
                self.colored(MATCH, found.bytes(line).unwrap_or(&[]))?;
                done = found.end;
            }
        }
        self.out.write_all(line.get(done..).unwrap_or(&[]))?;
        self.end_with(self.settings.terminator)
    }

    /// Prints the line between groups of lines, if there is one.
    pub fn separator(&mut self) -> io::Result<()> {
        match self.settings.separator {
            Some(text) if self.settings.separates() => {
                self.colored(SIGN, text)?;
                self.end_with(b'\n')
            }
            _ => Ok(()),
        }
    }

    /// Prints what the settings select where a text ends: its number of lines, or its name.
    pub fn total(&mut self, name: &str, is_named: bool, selected: u64) -> io::Result<()> {
        match self.settings.shows {
            Shows::Count => self.count(is_named.then_some(name), selected),
            Shows::Names if selected > 0 => self.name(name),
            Shows::OtherNames if selected == 0 => self.name(name),
            _ => Ok(()),
        }
    }

    /// Prints the name of a file as a line.
    fn name(&mut self, name: &str) -> io::Result<()> {
        self.colored(NAME, name.as_bytes())?;
        self.end_with(if self.settings.has_nulls { 0 } else { b'\n' })
    }

    /// Prints a number of lines, behind the name of the file if there is one.
    fn count(&mut self, name: Option<&str>, count: u64) -> io::Result<()> {
        self.name_before(name, b":")?;
        write!(self.out, "{count}")?;
        self.end_with(b'\n')
    }

    /// Prints the byte that ends what is printed, and writes all if each line is written at once.
    fn end_with(&mut self, byte: u8) -> io::Result<()> {
        self.out.write_all(&[byte])?;
        if self.settings.is_line_buffered {
            self.out.flush()?;
        }
        Ok(())
    }

    /// Prints what is before a line, without a tab if the line is empty.
    fn head(&mut self, head: &Head<'_>, is_empty: bool) -> io::Result<()> {
        let sign: &[u8] = if head.is_selected { b":" } else { b"-" };
        self.name_before(head.name, sign)?;
        for number in [head.number, head.offset, head.pattern] {
            self.number(number, head.width, sign)?;
        }
        if self.settings.has_tabs && !is_empty && head.has_some() {
            self.out.write_all(b"\t")?;
        }
        Ok(())
    }

    /// Prints the name of a file, and what is between it and other things, if there is one.
    fn name_before(&mut self, name: Option<&str>, sign: &[u8]) -> io::Result<()> {
        let Some(name) = name else {
            return Ok(());
        };
        self.colored(NAME, name.as_bytes())?;
        if self.settings.has_nulls {
            self.out.write_all(&[0])
        } else {
            self.colored(SIGN, sign)
        }
    }

    /// Prints a number of at least this width, and the sign behind it, if there is one.
    fn number(&mut self, number: Option<u64>, width: usize, sign: &[u8]) -> io::Result<()> {
        let Some(number) = number else {
            return Ok(());
        };
        self.color(NUMBER)?;
        write!(self.out, "{number:>width$}")?;
        self.color(PLAIN)?;
        self.colored(SIGN, sign)
    }

    /// Prints bytes in a color.
    fn colored(&mut self, color: &[u8], bytes: &[u8]) -> io::Result<()> {
        self.color(color)?;
        self.out.write_all(bytes)?;
        self.color(PLAIN)
    }

    /// Selects a color, if there are colors.
    fn color(&mut self, color: &[u8]) -> io::Result<()> {
        if self.has_colors {
            self.out.write_all(color)
        } else {
            Ok(())
        }
    }
}
