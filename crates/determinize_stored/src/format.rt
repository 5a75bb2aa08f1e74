//! What the bytes of a DFA are, in their order: a head of seven numbers, the class of each byte,
//! the row of each start, the entries of each row, where the list of each row ends, and the lists.

ghost use Rattle.std.specs.Prelude.{All, Bool, Decides, [], ◌≡◌, ◌<◌, ◌≤◌, ◌^◌, IfNone, IfOk, IfSome, OnErr, OnOk, cond, drop, length, slice_index_or};
ghost use Rattle.determinize_dense.specs.Bytes.{kind_number};
ghost use Rattle.determinize_stored.specs.Private.Parts.{AreEnds, HasHead, HasSizes, IsInRange, IsOfNone, list_start, lists_from, parts_words, stored_in};
ghost use Rattle.determinize_stored.specs.Reading.{HasDeadRow};

use crate::error::{FormatError, FormatErrorKind};
use crate::words::Words;
use determinize_below::{MAX_ID, MatchKind};
use determinize_core::start::StartSlot;
use determinize_dense::bytes::{MAGIC, VERSION};

/// The number of numbers in the head.
const HEAD: usize = 7;

/// The number of bytes, each of which has a class.
const BYTES: usize = 256;

/// Returns the match kind with a number, if there is one.
fn match_kind_of(number: u32) -> Option<MatchKind>
    ensures some { IfSome result (λ kind. kind_number kind ≡ number) }
    ensures none { IfNone result ((kind : MatchKind) → kind_number kind ≡ number → ⊥) }
{
    match number {
        0 => Some(MatchKind::All),
        1 => Some(MatchKind::LeftmostFirst),
        _ => None,
    }
}

/// Returns the flag with a number: 1 if it is set, and else 0.
fn flag_of(number: u32) -> Option<bool>
    ensures some { IfSome result (λ flag. cond flag 1 0 ≡ number) }
    ensures none { IfNone result ((flag : Bool) → cond flag 1 0 ≡ number → ⊥) }
{
    match number {
        0 => Some(false),
        1 => Some(true),
        _ => None,
    }
}

/// The head: what is known of a DFA besides its table, and how large the table is.
#[derive(Clone, Copy)]
pub(crate) struct Head {
    pub(crate) match_kind: MatchKind,
    pub(crate) is_reverse: bool,
    pub(crate) line_terminator: u8,
    pub(crate) class_count: usize,
    pub(crate) rows: usize,
}

impl Head {
    /// Reads the head.
    pub(crate) fn read(words: &Words<'_>) -> Result<Head, FormatError>
        ensures head { IfOk result (λ head. HasHead words.now head) }
        ensures none { OnErr result (IsOfNone words.now) }
    {
        if words.len() < HEAD {
            return Err(FormatError::at(FormatErrorKind::Length, words.len()));
        }
        if words.get(0) != MAGIC {
            return Err(FormatError::at(FormatErrorKind::Magic, 0));
        }
        if words.get(1) != VERSION {
            return Err(FormatError::at(FormatErrorKind::Version, 1));
        }
        let Some(match_kind) = match_kind_of(words.get(2)) else {
            return Err(FormatError::at(FormatErrorKind::MatchKind, 2));
        };
        let Some(is_reverse) = flag_of(words.get(3)) else {
            return Err(FormatError::at(FormatErrorKind::Direction, 3));
        };
        let Ok(line_terminator) = u8::try_from(words.get(4)) else {
            return Err(FormatError::at(FormatErrorKind::LineTerminator, 4));
        };
        let class_count = words.get(5) as usize;
        if class_count > BYTES {
            return Err(FormatError::at(FormatErrorKind::ClassCount, 5));
        }
        Ok(Head {
            match_kind,
            is_reverse,
            line_terminator,
            class_count,
            rows: words.get(6) as usize,
        })
    }
}

/// The parts behind the head.
#[derive(Drop)]
pub(crate) struct Parts<'b> {
    pub(crate) classes: Words<'b>,
    pub(crate) starts: Words<'b>,
    pub(crate) next: Words<'b>,
    pub(crate) ends: Words<'b>,
    pub(crate) patterns: Words<'b>,
}

impl<'b> Parts<'b> {
    /// Returns the parts behind a head. All numbers behind the ends of the lists are patterns.
    pub(crate) fn split(head: &Head, words: &Words<'b>) -> Result<Parts<'b>, FormatError>
        requires { HasHead words.now head.now }
        ensures parts { IfOk result (λ parts. drop HEAD words.now ≡ parts_words parts) }
        ensures sizes { IfOk result (λ parts. HasSizes head.now parts) }
        ensures none { OnErr result (IsOfNone words.now) }
    {
        let starts = HEAD + BYTES;
        let next = starts + StartSlot::COUNT;
        let ends = next + head.rows * (head.class_count + 1);
        let patterns = ends + head.rows;
        if words.len() < patterns {
            return Err(FormatError::at(FormatErrorKind::Length, words.len()));
        }
        let classes = words.range(HEAD, starts);
        let starts = words.range(starts, next);
        let next = words.range(next, ends);
        let ends = words.range(ends, patterns);
        let patterns = words.range(patterns, words.len());
        Ok(Parts {
            classes,
            starts,
            next,
            ends,
            patterns,
        })
    }

    /// Returns whether row 0 lists no pattern, and follows itself over each unit.
    pub(crate) fn has_dead_row(&self, head: &Head) -> bool
        requires few { head.now.class_count ≤ 256 }
        requires sizes { HasSizes head.now self.now }
        requires range { IsInRange head.now self.now }
        ensures { Decides result (HasDeadRow (stored_in head.now self.now).table) }
    {
        if self.ends.get(0) != 0 {
            return false;
        }
        self.next
            .range(0, head.class_count + 1)
            .first_from(1)
            .is_none()
    }

    /// Returns the index of the first pattern that a row lists.
    #[inline(always)]
    fn list_start(&self, row: usize) -> usize
        requires { row < length self.now.ends }
        ensures { result ≡ list_start self.now.ends row }
    {
        if row == 0 {
            0
        } else {
            self.ends.get(row - 1) as usize
        }
    }

    /// Returns the patterns that a row lists.
    #[inline(always)]
    pub(crate) fn list(&self, row: usize) -> Words<'b>
        requires row { row < length self.now.ends }
        requires ends { AreEnds 0 self.now.ends (length self.now.patterns) }
        ensures { result ≡ slice_index_or (lists_from 0 self.now.ends self.now.patterns) row [] }
    {
        self.patterns
            .range(self.list_start(row), self.ends.get(row) as usize)
    }

    /// Checks that each number is in its range.
    pub(crate) fn check(&self, head: &Head) -> Result<(), FormatError>
        ensures ok { OnOk result (IsInRange head.now self.now) }
        ensures err { OnErr result (IsInRange head.now self.now → ⊥) }
    {
        let starts = HEAD + BYTES;
        let next = starts + StartSlot::COUNT;
        let ends = next + self.next.len();
        let patterns = ends + self.ends.len();
        check_below(
            &self.classes,
            head.class_count,
            FormatErrorKind::Class,
            HEAD,
        )?;
        check_below(&self.starts, head.rows, FormatErrorKind::Start, starts)?;
        check_below(&self.next, head.rows, FormatErrorKind::Entry, next)?;
        self.check_ends(ends, patterns)?;
        check_below(
            &self.patterns,
            MAX_ID + 1,
            FormatErrorKind::Pattern,
            patterns,
        )
    }

    /// Checks that the ends of the lists ascend to the number of patterns.
    fn check_ends(&self, ends: usize, patterns: usize) -> Result<(), FormatError>
        ensures ok { OnOk result (AreEnds 0 self.now.ends (length self.now.patterns)) }
        ensures few { OnOk result (length self.now.patterns < 2 ^ 32) }
        ensures err { OnErr result (AreEnds 0 self.now.ends (length self.now.patterns) → ⊥) }
    {
        let mut start = 0;
        for row in 0..self.ends.len() {
            let end = self.ends.get(row) as usize;
            if end < start {
                return Err(FormatError::at(FormatErrorKind::ListEnd, ends.saturating_add(row)));
            }
            start = end;
        }
        if start == self.patterns.len() {
            return Ok(());
        }
        let end = start.min(self.patterns.len());
        Err(FormatError::at(FormatErrorKind::Length, patterns.saturating_add(end)))
    }
}

/// Checks that numbers are below a limit.
///
/// - `kind` and `first` are for the error: what is wrong, and the index of the first number.
fn check_below(
    words: &Words<'_>,
    limit: usize,
    kind: FormatErrorKind,
    first: usize,
) -> Result<(), FormatError>
    ensures ok { OnOk result (All (λ w. w < limit) words.now) }
    ensures err { OnErr result (All (λ w. w < limit) words.now → ⊥) }
{
    match words.first_from(limit) {
        None => Ok(()),
        Some(index) => Err(FormatError::at(kind, first.saturating_add(index))),
    }
}
