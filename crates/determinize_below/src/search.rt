//! The configuration of a search: its haystack and range, its anchored mode and its match kind.

ghost use Rattle.std.specs.Prelude.{◌≡◌, ℕ, ◌+◌, ◌≤◌, ◌↔◌, false, length, nat_le, IsSome};
ghost use Rattle.std.specs.List.{slice_range};
ghost use Rattle.std.specs.Option.{IfSome};
ghost use Rattle.determinize_below.specs.Search as search_specs;

use crate::primitives::PatternID;
use std::marker::Model;
use std::ops::Range;

/// Which matches a search reports.
#[derive(Clone, Copy, Debug, PartialEq, Eq)]
pub enum MatchKind {
    /// All matches: determinization keeps every NFA state, so a state may list several patterns.
    All,
    /// Only the match that is preferred by the order of alternatives, as in Perl. NFA states that
    /// are less preferred than a match are dropped, so a state lists at most one pattern.
    LeftmostFirst,
}

impl MatchKind {
    /// Returns whether a search continues after the first match: true only for `All`.
    pub fn continue_past_first_match(&self) -> bool
        ensures { result ≡ search_specs.continues self.now }
    {
        match *self {
            MatchKind::All => true,
            MatchKind::LeftmostFirst => false,
        }
    }
}

/// Whether a match must begin where the search begins.
#[derive(Clone, Copy, Debug, PartialEq, Eq)]
pub enum Anchored {
    /// A match may begin anywhere.
    No,
    /// A match must begin where the search begins.
    Yes,
    /// A match must begin where the search begins and be of this pattern.
    Pattern(PatternID),
}

impl Anchored {
    /// Returns whether a match must begin where the search begins: false only for `No`.
    pub fn is_anchored(&self) -> bool
        ensures { result ≡ search_specs.is_anchored self.now }
    {
        match *self {
            Anchored::No => false,
            Anchored::Yes | Anchored::Pattern(_) => true,
        }
    }
}

/// A haystack, the range of it to search, and the anchored mode.
///
/// The range is within the haystack. Its start may be one past its end, and then the search is
/// done.
#[derive(Clone, Debug, Drop)]
pub struct Input<'h> {
    haystack: &'h [u8],
    start: usize,
    end: usize,
    anchored: Anchored,
}

impl<'h> Model for Input<'h> {
    ghost use Rattle.std.specs.Prelude.{◌+◌, ◌≤◌, length};
    ghost use Rattle.determinize_below.specs.Search.{Asked};

    ghost Value = { Asked };

    ghost view = { λ i. record {
      haystack = i.haystack.now;
      start = i.start;
      end = i.end;
      anchored = i.anchored;
    } };

    ghost invariant = { λ i. (i.end ≤ length i.haystack.now) × (i.start ≤ i.end + 1) };
}

impl<'h> Input<'h> {
    /// Returns an input for an unanchored search of the whole haystack.
    pub fn new(haystack: &'h [u8]) -> Input<'h>
        ensures value { result ≡ record {
          haystack = haystack.now;
          start = 0;
          end = length haystack.now;
          anchored = Anchored.No;
        } }
        ensures open { search_specs.is_done result ≡ false }
    {
        Input {
            haystack,
            start: 0,
            end: haystack.len(),
            anchored: Anchored::No,
        }
    }

    /// Returns the input with this range, which must end within the haystack and start at most one
    /// past its end.
    pub fn range(self, range: Range<usize>) -> Input<'h>
        requires in_haystack { range.end ≤ length self.haystack }
        requires near { range.start ≤ range.end + 1 }
        ensures { result ≡ record self.entry { start = range.start; end = range.end } }
    {
        Input {
            haystack: self.haystack,
            start: range.start,
            end: range.end,
            anchored: self.anchored,
        }
    }

    /// Returns the input with this range, or `None` if the range does not end within the haystack
    /// or starts more than one past its end.
    pub fn try_range(self, range: Range<usize>) -> Option<Input<'h>>
        ensures some { IfSome result
            (λ i. i ≡ record self.entry { start = range.start; end = range.end }) }
        ensures fits { IsSome result
            ↔ ((range.end ≤ length self.entry.haystack) × (range.start ≤ range.end + 1)) }
    {
        if range.end > self.haystack.len() || range.start > range.end + 1 {
            return None;
        }
        Some(self.range(range))
    }

    /// Returns the input with this anchored mode.
    pub fn anchored(self, anchored: Anchored) -> Input<'h>
        ensures { result ≡ record self.entry { anchored = anchored } }
    {
        Input {
            haystack: self.haystack,
            start: self.start,
            end: self.end,
            anchored,
        }
    }

    /// Returns this input with another start of its range, which must be at most one past its end.
    pub fn from_index(&self, start: usize) -> Input<'h>
        requires near { start ≤ self.now.end + 1 }
        ensures { result ≡ record self.now { start = start } }
    {
        Input {
            haystack: self.haystack,
            start,
            end: self.end,
            anchored: self.anchored,
        }
    }

    /// Sets the start of the range, which must be at most one past its end.
    pub fn set_start(&mut self, start: usize)
        requires near { start ≤ self.old.end + 1 }
        ensures { self.new ≡ record self.old { start = start } }
    {
        self.start = start;
    }

    /// Sets the end of the range, which must be at most the length of the haystack and at least the
    /// start minus one.
    pub fn set_end(&mut self, end: usize)
        requires in_haystack { end ≤ length self.old.haystack }
        requires near { self.old.start ≤ end + 1 }
        ensures { self.new ≡ record self.old { end = end } }
    {
        self.end = end;
    }

    /// Sets the range, which must end within the haystack and start at most one past its end.
    pub fn set_range(&mut self, range: Range<usize>)
        requires in_haystack { range.end ≤ length self.old.haystack }
        requires near { range.start ≤ range.end + 1 }
        ensures { self.new ≡ record self.old { start = range.start; end = range.end } }
    {
        self.start = range.start;
        self.end = range.end;
    }

    /// Returns the start of the range, an index into the haystack. It may be one past `end`, and so
    /// one past the length of the haystack.
    pub fn start(&self) -> usize
        ensures value { result ≡ self.now.start }
        ensures near { result ≤ self.now.end + 1 }
    {
        self.start
    }

    /// Returns the end of the range, an index into the haystack, at most its length.
    pub fn end(&self) -> usize
        ensures value { result ≡ self.now.end }
        ensures in_haystack { result ≤ length self.now.haystack }
    {
        self.end
    }

    /// Returns the whole haystack, not only the range.
    pub fn haystack(&self) -> &'h [u8]
        ensures { result.now ≡ self.now.haystack }
    {
        self.haystack
    }

    /// Returns whether the range starts past its end, so that no position is left to search.
    pub fn is_done(&self) -> bool
        ensures { result ≡ search_specs.is_done self.now }
    {
        self.start > self.end
    }

    /// Returns the anchored mode.
    pub fn get_anchored(&self) -> Anchored
        ensures { result ≡ self.now.anchored }
    {
        self.anchored
    }
}

/// One end of a match, with the pattern that matched. A DFA finds only one end in one scan.
#[derive(Clone, Copy, Debug, PartialEq, Eq, Hash)]
pub struct HalfMatch {
    /// The pattern that matched.
    pub pattern: PatternID,
    /// The offset of the match. A walk, or a search of a text, reports the number of bytes read
    /// before the match ends. A search of an input reports an index into the haystack: the end of
    /// the match, or its start for a reverse search.
    pub offset: usize,
}

impl HalfMatch {
    /// Returns the match of this pattern at this offset.
    pub fn new(pattern: PatternID, offset: usize) -> HalfMatch
        ensures { result ≡ record { pattern = pattern; offset = offset } }
    {
        HalfMatch { pattern, offset }
    }
}

/// A match: the pattern that matched, and both ends of the match.
#[derive(Clone, Copy, Debug, PartialEq, Eq, Hash)]
pub struct Match {
    /// The pattern that matched.
    pub pattern: PatternID,
    /// The index in the haystack of the start of the match.
    pub start: usize,
    /// The index in the haystack of the end of the match.
    pub end: usize,
}

impl Match {
    /// Returns whether the match is empty: its start is not below its end, as for a `Range`.
    pub fn is_empty(&self) -> bool
        ensures { result ≡ nat_le self.now.end self.now.start }
    {
        self.start >= self.end
    }

    /// Returns the range of the match in the haystack.
    pub fn range(&self) -> Range<usize>
        ensures start { result.start ≡ self.now.start }
        ensures end { result.end ≡ self.now.end }
    {
        self.start..self.end
    }

    /// Returns the bytes of the match in its haystack, or `None` if they are not all in this one.
    pub fn bytes<'h>(&self, haystack: &'h [u8]) -> Option<&'h [u8]>
        ensures some { IsSome result
            ↔ ((self.now.start ≤ self.now.end) × (self.now.end ≤ length haystack.now)) }
        ensures bytes { IfSome result (λ bytes.
            bytes.now ≡ slice_range haystack.now self.now.start self.now.end) }
    {
        haystack.get(self.range())
    }
}
