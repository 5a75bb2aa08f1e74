//! The first of several lines that has a match of the patterns of a regex.

ghost use Rattle.std.specs.Prelude.{◌≡◌, ◌<◌, ◌≤◌, IfOk, IfSome, IsTrue, length, true};
ghost use Rattle.std.specs.Bool.{Decides};
ghost use Rattle.std.specs.Coded.{codes};
ghost use Rattle.determinize_lines.specs.Finders.{FinderValue, IsAround, IsFirstWithMatch, IsMatching, IsStopAfter};
ghost use Rattle.determinize_lines.specs.Private.Finding.{IsEndIn, IsFinder, IsTextOf};
ghost use Rattle.determinize_pattern.specs.Lines.{all_stay};
ghost use Rattle.determinize_pattern.specs.contracts.pattern.Pattern as e;
ghost use Rattle.determinize_regex.specs.Regexes.{AreAllIn, meanings};

use crate::blocks::set_of;
use byte_set::ByteSet;
use determinize_below::MatchKind;
use determinize_dense::Dfa;
use determinize_find::laws::input_law;
use determinize_pattern::laws::first_line_law;
use determinize_pattern::stay_in_lines;
use determinize_regex::{HalfMatch, Input, Match, Matcher, NFA, Regex};
use std::alloc::{AllocError, Global};
use std::marker::Model;
use std::ops::Range;

/// The numbers of bytes after which a whole DFA is built, until one is: a small text is searched
/// without one, and where much is searched, it may have more states.
const MUCH: [usize; 3] = [1 << 20, 1 << 22, 1 << 24];

/// The number of bytes that are searched for each state of a whole DFA, so that it takes less time
/// to build it than to search.
const BYTES_A_STATE: usize = 1 << 10;

/// The length from which on a line is long. `find_all` takes a time that may grow with the square
/// of the length; `find_all_linear` does not, but takes longer for most patterns.
const LONG: usize = 1 << 14;

/// The length from which on a line is too long for `find_all_linear`, which allocates for each
/// byte.
const TOO_LONG: usize = 1 << 20;

/// A search for lines that have a match of the patterns of a regex, with caches of its own.
///
/// If each match of the patterns stays in one line (`stay_in_lines` of `determinize_pattern`),
/// several lines are searched at once, and else they are searched one by one. Once much was
/// searched, a whole DFA takes the place of a cache, if it has few states.
pub struct LineFinder<'r> {
    alloc: Global,
    matcher: Matcher<'r>,
    nfa: &'r NFA,
    /// The byte that ends a line.
    terminator: u8,
    /// The same, as a set.
    ends: ByteSet,
    /// Whether several lines are searched at once.
    is_at_once: bool,
    /// The whole DFA, if it is built and has few states.
    dfa: Option<Dfa<&'r NFA>>,
    /// The number of bytes that were searched.
    searched: usize,
}

// Derived code is proved again in each crate that drops a finder.
impl<'r> Drop for LineFinder<'r> {
    fn drop(self) {
        let LineFinder {
            alloc: _,
            matcher: _,
            nfa: _,
            terminator: _,
            ends: _,
            is_at_once: _,
            dfa: _,
            searched: _,
        } = self;
    }
}

impl<'r> Model for LineFinder<'r> {
    ghost Value = { FinderValue };

    ghost coded = { Prim.hlevel (codes, e.the_row.coded) };

    ghost view = { λ f. record { regex = f.matcher; terminator = f.terminator } };

    ghost invariant = { λ f.
        IsFinder f.matcher f.nfa.now f.terminator f.ends f.is_at_once f.dfa };
}

impl<'r> LineFinder<'r> {
    /// Returns a search for lines that end in this byte and have a match of a regex, with two empty
    /// caches of at most `limit` states each. Does not allocate.
    ///
    /// Only if the byte is the line terminator of the regex, several lines are searched at once.
    pub fn new(alloc: Global, regex: &'r Regex, terminator: u8, limit: usize) -> LineFinder<'r>
        ensures { result
            ≡ record { regex = record regex.now { limit = limit }; terminator = terminator } }
    {
        let nfa = regex.nfa();
        let is_same = nfa.look_matcher().get_line_terminator() == terminator;
        LineFinder {
            alloc,
            matcher: regex.matcher(alloc, limit),
            nfa,
            terminator,
            ends: set_of(terminator),
            is_at_once: is_same && stay_in_lines(regex.patterns(), terminator),
            dfa: None,
            searched: 0,
        }
    }

    /// Returns whether several lines are searched at once, and not one by one.
    pub fn is_at_once(&self) -> bool
        ensures { IsTrue result
            → all_stay self.now.terminator (meanings self.now.regex) ≡ true }
    {
        self.is_at_once
    }

    /// Returns where the first of these lines is that has a match, without the byte that ends it,
    /// or `None` if none has one. The last of them may have no such byte.
    ///
    /// An error does not change what later calls return.
    pub fn find(&mut self, lines: &[u8]) -> Result<Option<Range<usize>>, AllocError>
        ensures first { IfOk result (λ found. IsFirstWithMatch self.old lines.now found) }
        ensures same { self.new ≡ self.old }
    {
        let found = self.first_line(lines)?;
        self.count(match &found {
            Some(line) => line.end,
            None => lines.len(),
        });
        Ok(found)
    }

    /// Returns whether a line has a match.
    pub fn is_match(&mut self, line: &[u8]) -> Result<bool, AllocError>
        ensures found { IfOk result (λ found. Decides found (IsMatching self.old line.now)) }
        ensures same { self.new ≡ self.old }
    {
        self.count(line.len());
        self.has_match(line)
    }

    /// Returns all matches of a line, in their order.
    ///
    /// A line of 16 KB to 1 MB is searched by `find_all_linear` of the regex, which allocates up to
    /// a byte for each byte of the line and state of the NFA. Other lines are searched by
    /// `find_all`, whose time may grow with the square of the length.
    pub fn find_all(&mut self, line: &[u8]) -> Result<Vec<Match>, AllocError>
        ensures all { IfOk result (λ found. AreAllIn self.old.regex line.now found.items) }
        ensures same { self.new ≡ self.old }
    {
        let input = Input::new(line);
        if line.len() >= LONG && line.len() < TOO_LONG {
            self.matcher.find_all_linear(self.alloc, &input)
        } else {
            self.matcher.find_all(self.alloc, &input)
        }
    }

    /// Returns whether a line has a match.
    fn has_match(&mut self, line: &[u8]) -> Result<bool, AllocError>
        ensures found { IfOk result (λ found. Decides found (IsMatching self.old line.now)) }
        ensures same { self.new ≡ self.old }
    {
        let input = Input::new(line);
        input_law(&input);
        match &self.dfa {
            Some(dfa) => Ok(dfa.is_match(&input)),
            None => self.matcher.is_match(&input),
        }
    }

    /// Returns the first line that has a match.
    fn first_line(&mut self, lines: &[u8]) -> Result<Option<Range<usize>>, AllocError>
        ensures first { IfOk result (λ found. IsFirstWithMatch self.old lines.now found) }
        ensures same { self.new ≡ self.old }
    {
        if self.is_at_once {
            self.first_at_once(lines)
        } else {
            self.first_in_turn(lines)
        }
    }

    /// Returns the first line that has a match, by one search of all lines.
    fn first_at_once(&mut self, lines: &[u8]) -> Result<Option<Range<usize>>, AllocError>
        requires terminator { self.old.terminator ≡ self.old.regex.terminator }
        requires stay { all_stay self.old.terminator (meanings self.old.regex) ≡ true }
        ensures first { IfOk result (λ found. IsFirstWithMatch self.old lines.now found) }
        ensures same { self.new ≡ self.old }
    {
        if lines.is_empty() {
            return Ok(None);
        }
        first_line_law();
        match self.first_end(text_of(lines, self.terminator))? {
            Some(found) => Ok(Some(self.line_at(lines, found.offset))),
            None => Ok(None),
        }
    }

    /// Returns the pattern and the end of the leftmost match of a text.
    fn first_end(&mut self, text: &[u8]) -> Result<Option<HalfMatch>, AllocError>
        ensures end { IfOk result (λ found. IsEndIn self.old.regex text.now found) }
        ensures within { IfOk result (λ found. IfSome found (λ m. m.offset ≤ length text.now)) }
        ensures same { self.new ≡ self.old }
    {
        let input = Input::new(text);
        input_law(&input);
        match &self.dfa {
            Some(dfa) => Ok(dfa.search_input(&input)),
            None => self.matcher.search_half(&input),
        }
    }

    /// Returns where the line is that an index is in, without the byte that ends it. That byte is
    /// in the line that it ends.
    pub fn line_at(&self, lines: &[u8], index: usize) -> Range<usize>
        requires { index ≤ length lines.now }
        ensures { IsAround self.now.terminator lines.now index result.start result.end }
    {
        let start = match self.ends.rfind(lines, 0, index) {
            Some(end) => end + 1,
            None => 0,
        };
        start..self.end_of_line(lines, index)
    }

    /// Returns the end of the line that an index is in.
    fn end_of_line(&self, lines: &[u8], index: usize) -> usize
        requires { index ≤ length lines.now }
        ensures { IsStopAfter self.now.terminator lines.now index result }
    {
        match self.ends.find(lines, index, lines.len()) {
            Some(end) => end,
            None => lines.len(),
        }
    }

    /// Returns the first line that has a match, by a search of each.
    fn first_in_turn(&mut self, lines: &[u8]) -> Result<Option<Range<usize>>, AllocError>
        ensures first { IfOk result (λ found. IsFirstWithMatch self.old lines.now found) }
        ensures same { self.new ≡ self.old }
    {
        let mut start = 0;
        while start < lines.len() {
            let end = self.end_of_line(lines, start);
            if self.has_match(&lines[start..end])? {
                return Ok(Some(start..end));
            }
            start = end + 1;
        }
        Ok(None)
    }

    /// Builds the whole DFA, if these bytes make those that were searched many. If it has too many
    /// states, or not enough memory, the caches find all matches as before.
    fn count(&mut self, bytes: usize)
        ensures { self.new ≡ self.old }
    {
        let before = self.searched;
        self.searched = before.saturating_add(bytes);
        for much in MUCH {
            if before < much && self.searched >= much && self.dfa.is_none() {
                self.build(much / BYTES_A_STATE);
            }
        }
    }

    /// Builds the whole DFA, if it has at most `limit` states.
    fn build(&mut self, limit: usize)
        ensures { self.new ≡ self.old }
    {
        if let Ok(dfa) = Dfa::build(self.alloc, self.nfa, MatchKind::LeftmostFirst, limit) {
            self.dfa = Some(dfa);
        }
    }
}

/// Returns lines without the byte that ends the last one.
fn text_of(lines: &[u8], terminator: u8) -> &[u8]
    ensures { IsTextOf terminator lines.now result.now }
{
    match lines {
        [text @ .., last] if *last == terminator => text,
        _ => lines,
    }
}
