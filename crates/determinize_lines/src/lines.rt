//! The lines of a text that have a match, one after the other.

ghost use Rattle.std.specs.Prelude.{◌≡◌, ◌≤◌, [], IfNone, IfOk, IfSome, OnErr, length};
ghost use Rattle.determinize_lines.specs.Finders.{FinderValue, IsMatching};
ghost use Rattle.determinize_lines.specs.Texts.{IsUnbroken, TextValue};
ghost use Rattle.determinize_regex.specs.Regexes.{AreAllIn};

use crate::blocks::{Blocks, set_of};
use crate::finder::LineFinder;
use byte_set::ByteSet;
use determinize_regex::{Match, Regex};
use std::alloc::{AllocError, Global};
use std::io::{self, Read};
use std::marker::Model;
use std::ops::Range;

/// Where a line is in its text.
#[derive(Clone, Copy, Debug, PartialEq, Eq)]
pub struct Line {
    /// The number of the line. The first line has number 1.
    pub number: u64,
    /// How many bytes are before the line.
    pub offset: u64,
}

impl Line {
    /// Passes bytes, and counts the lines that end in them.
    fn pass(&mut self, ends: &ByteSet, bytes: &[u8]) {
        let lines = ends.count(bytes, 0, bytes.len());
        self.number = self.number.saturating_add(lines as u64);
        self.offset = self.offset.saturating_add(bytes.len() as u64);
    }

    /// Passes lines up to one of them, and then this one. Returns where it is.
    fn take(&mut self, ends: &ByteSet, lines: &[u8], line: &Range<usize>) -> Line
        requires order { line.now.start ≤ line.now.end }
        requires within { line.now.end ≤ length lines.now }
    {
        self.pass(ends, &lines[..line.start]);
        let place = Line {
            number: self.number.saturating_add(1),
            offset: self.offset,
        };
        self.pass(ends, &lines[line.start..lines.len().min(line.end + 1)]);
        place
    }
}

/// A search for the lines of a text that have a match of the patterns of a regex.
#[derive(Drop)]
pub struct Lines<'r, R: Read + Drop> {
    input: R,
    blocks: Blocks,
    finder: LineFinder<'r>,
    /// The byte that ends a line.
    ends: ByteSet,
    /// The start and the end in the block of the line that was returned last.
    start: usize,
    end: usize,
    /// Where the others begin in the block.
    next: usize,
    /// How many lines, and bytes, are before that.
    passed: Line,
}

impl<'r, R: Read + Drop> Model for Lines<'r, R> {
    ghost use Rattle.std.specs.Prelude.{slice_range};
    ghost use Rattle.std.specs.Coded.{codes};
    ghost use Rattle.determinize_lines.specs.Private.Reading.{IsReading};
    ghost use Rattle.determinize_lines.specs.Texts.{TextValue};
    ghost use Rattle.determinize_pattern.specs.contracts.pattern.Pattern as e;

    ghost Value = { TextValue };

    ghost coded = { Prim.hlevel (codes, e.the_row.coded) };

    ghost view = { λ l. record {
      finder = l.finder;
      line = slice_range l.blocks.lines l.start l.end;
    } };

    ghost invariant = { λ l. IsReading l.finder l.blocks l.ends l.start l.end l.next };
}

impl<'r, R: Read + Drop> Lines<'r, R> {
    /// Returns a search of a text whose lines end in this byte, with two empty caches of at most
    /// `limit` states each. Nothing is read yet.
    pub fn new(
        alloc: Global,
        regex: &'r Regex,
        terminator: u8,
        limit: usize,
        input: R,
    ) -> Result<Lines<'r, R>, AllocError>
        ensures { IfOk result (λ lines. lines ≡ record {
          finder = record { regex = record regex.now { limit = limit }; terminator = terminator };
          line = [];
        }) }
    {
        Ok(Lines {
            input,
            blocks: Blocks::new(alloc, terminator)?,
            finder: LineFinder::new(alloc, regex, terminator, limit),
            ends: set_of(terminator),
            start: 0,
            end: 0,
            next: 0,
            passed: Line {
                number: 0,
                offset: 0,
            },
        })
    }

    /// Moves to the next line that has a match, and returns where it is, or `None` if there are no
    /// more. Reads no more blocks of the text than it needs to. No clause says that no such line is
    /// skipped, and none speaks of numbers and offsets: they are tested.
    ///
    /// Returns an error where `advance` of [`Blocks`] does, or if an allocation fails. It may be
    /// called again.
    pub fn advance(&mut self) -> io::Result<Option<Line>>
        ensures matches { IfOk result (λ found. IfSome found
            (λ _. IsMatching self.new.finder self.new.line)) }
        ensures unbroken { IfOk result (λ found. IfSome found
            (λ _. IsUnbroken self.new.finder.terminator self.new.line)) }
        ensures none { IfOk result (λ found. IfNone found (self.new.line ≡ [])) }
        ensures failed { OnErr result (self.new.line ≡ []) }
        ensures same { self.new.finder ≡ self.old.finder }
    {
        self.start = 0;
        self.end = 0;
        for _ in 0..u64::MAX {
            let rest = &self.blocks.lines()[self.next..];
            if let Some(line) = self.finder.find(rest)? {
                let place = self.passed.take(&self.ends, rest, &line);
                self.start = self.next + line.start;
                self.end = self.next + line.end;
                self.next += rest.len().min(line.end + 1);
                return Ok(Some(place));
            }
            self.passed.pass(&self.ends, rest);
            self.next = 0;
            if !self.blocks.advance(&mut self.input)? {
                break;
            }
        }
        Ok(None)
    }

    /// Returns the bytes of the line that was returned last, without the byte that ends it. They
    /// are empty before the first call of `advance`, and after one that returned no line.
    pub fn bytes(&self) -> &[u8]
        ensures { result.now ≡ self.now.line }
    {
        &self.blocks.lines()[self.start..self.end]
    }

    /// Returns all matches in the line that was returned last, as `find_all` of [`LineFinder`].
    /// Their ends are indices into its bytes.
    pub fn find_all(&mut self) -> Result<Vec<Match>, AllocError>
        ensures all { IfOk result
            (λ found. AreAllIn self.old.finder.regex self.old.line found.items) }
        ensures same { self.new ≡ self.old }
    {
        self.finder
            .find_all(&self.blocks.lines()[self.start..self.end])
    }
}
