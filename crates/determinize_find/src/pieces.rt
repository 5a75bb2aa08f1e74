//! All matches of a text that comes in pieces, as from a socket or a file.

ghost use Rattle.std.specs.Prelude.{◌≡◌, ◌++◌, ◌+◌, ◌-◌, ◌<◌, ◌≤◌, ◌∷◌, ◌⊎◌, ◌↔◌, ℕ, [], List};
ghost use Rattle.std.specs.Prelude.{None, Some, cond, drop, length, take, true, IfOk, IsSome};
ghost use Rattle.std.specs.Prelude.{OnErr, OnOk};
ghost use Rattle.std.specs.List.{slice_range};
ghost use Rattle.std.specs.Option.{IfNone, IfSome};
ghost use Rattle.determinize_below.specs.Semantics.{Nfa};
ghost use Rattle.determinize_below.specs.declared.search.Match.{Match as Found};
ghost use Rattle.determinize_find.specs.Certain.{IsUnsettled};
ghost use Rattle.determinize_find.specs.Idle.{IsIdle};
ghost use Rattle.determinize_find.specs.LeftmostIn.{moved};
ghost use Rattle.determinize_nfa.specs.Prefix.{HasPrefixApart};
ghost use Rattle.determinize_find.specs.Private.Windows.{HasMoved, IsCertain, IsFresh, IsInside};
ghost use Rattle.determinize_find.specs.Private.Windows.{IsPlaceOf, IsStep, past_match, with_bytes};
ghost use Rattle.determinize_find.specs.Private.Windows.{with_scan};
ghost use Rattle.determinize_find.specs.Streams.{IsAdvance, IsFed, IsFeeding, IsFinished};
ghost use Rattle.determinize_find.specs.Streams.{IsFoundInBlock, IsKept, IsSearching, IsStream};
ghost use Rattle.determinize_find.specs.Streams.{KeepsFew, KeptFewInBlocks, count_kept, count_read};
ghost use Rattle.determinize_find.specs.Streams.{left_in};

use crate::iter::{Searcher, is_touching};
use crate::regex::Regex;
use crate::{certain_match, is_idle};
use determinize_below::{AsNfa, Input, Match};
use determinize_lazy::{Engine, LazyDfa, Scan};
use std::alloc::{AllocError, Allocator, Global};
use std::marker::Model;

/// The most bytes that are read at once, and between two places where bytes may be dropped.
const BLOCK: usize = 4096;

/// A search for all matches of a text that comes in pieces: `feed` reads the next piece, `advance`
/// returns the next match of it, and `finish` says that the text ends.
///
/// A piece is read in blocks of 4096 bytes. At the end of a block `feed` adds each match that is
/// certain (`certain_match`), and `advance` returns the first: no NFA state is left, or the first
/// one is a `Match`, so no byte that follows can change it. So a line, as a match of `[^\n]*\n`, is
/// found with its last byte. The positions of a match count from the beginning of the text.
///
/// If the search is idle at the end of a block (`is_idle`), and the prefix of the NFA is apart
/// (`has_prefix_apart`), a new one begins there. The bytes before a search are dropped, but for the
/// last one. So the bytes since the last such end or the last match are kept, whichever is later.
/// Where each search reads to the end of the text, as for `[^z]*z|a` over bytes `a`, all bytes are
/// kept, and the time is quadratic.
pub struct Pieces<A: Allocator = Global> {
    kept: Vec<u8, A>,
    dropped: usize,
    start: usize,
    is_after_match: bool,
    scan: Option<Scan<A>>,
}

// Derived code is proved again at each exit of a function that owns one.
impl<A: Allocator> Drop for Pieces<A> {
    fn drop(self) {
        let Pieces {
            kept: _,
            dropped: _,
            start: _,
            is_after_match: _,
            scan: _,
        } = self;
    }
}

impl<A: Allocator> Model for Pieces<A> {
    ghost use Rattle.determinize_find.specs.Private.Windows.{IsWindow};
    ghost use Rattle.determinize_find.specs.Streams.{Streamed};

    ghost Value = { Streamed };

    ghost view = { λ p. record {
      kept = p.kept.items;
      dropped = p.dropped;
      start = p.start;
      is_after = p.is_after_match;
      scan = p.scan;
    } };

    ghost invariant = { λ p. IsWindow p.kept.items p.dropped p.start p.scan };
}

/// Removes the first bytes.
fn remove_first<A: Allocator>(bytes: &mut Vec<u8, A>, count: usize)
    requires { count ≤ length bytes.old.items }
    ensures { bytes.new.items ≡ drop count bytes.old.items }
{
    let left = bytes.len() - count;
    bytes.rotate_left(count);
    bytes.truncate(left);
}

impl<A: Allocator + Copy> Pieces<A> {
    /// Returns a search that has read nothing yet. Does not allocate. The bytes that are kept are
    /// allocated from `alloc`.
    pub fn new(alloc: A) -> Pieces<A>
        ensures stream { (nfa : Nfa) → IsStream nfa [] [] result }
        ensures searching { (nfa : Nfa) → IsSearching nfa result }
    {
        Pieces {
            kept: Vec::new(alloc),
            dropped: 0,
            start: 0,
            is_after_match: false,
            scan: None,
        }
    }

    /// Returns how many bytes of the text were read.
    pub fn bytes_read(&self) -> usize
        ensures { result ≡ count_read self.now }
    {
        self.dropped + self.kept.len()
    }

    /// Returns how many bytes of the text are kept.
    pub fn bytes_kept(&self) -> usize
        ensures { result ≡ count_kept self.now }
    {
        self.kept.len()
    }

    /// Returns the index where the last match ended, if the search begins there.
    fn last_match_end(&self) -> Option<usize>
        ensures { result ≡ cond self.now.is_after (Some self.now.start) None }
    {
        self.is_after_match.then_some(self.start)
    }

    /// Keeps the next bytes of the text, which the search under way reads too. After an error
    /// nothing has changed.
    fn keep<R: AsNfa, B: Engine<Error = AllocError>>(
        &mut self,
        regex: &mut Regex<LazyDfa<R, A>, B>,
        block: &[u8],
    ) -> Result<(), AllocError>
        ensures kept { OnOk result
            (self.new ≡ with_scan self.new.scan (with_bytes block.now self.old)) }
        ensures fed { OnOk result ((nfa : Nfa) (list : List Found)
            → IsFed nfa self.old self.new block.now list list) }
        ensures failed { OnErr result (self.new ≡ self.old) }
        ensures searching { IsSearching regex.old.nfa self.old
            → IsSearching regex.old.nfa self.new }
        ensures same { regex.new ≡ regex.old }
    {
        let before = self.kept.len();
        if self.bytes_read().checked_add(block.len()).is_none() {
            return Err(AllocError);
        }
        self.kept.extend_from_slice(block)?;
        if let Some(scan) = &mut self.scan {
            if let Err(error) = regex.feed(scan, block) {
                self.kept.truncate(before);
                return Err(error);
            }
        }
        Ok(())
    }

    /// Begins the search of all kept bytes from the start on, if none is under way.
    #[inline(always)]
    fn begin_scan<R: AsNfa, B: Engine<Error = AllocError>>(
        &mut self,
        regex: &mut Regex<LazyDfa<R, A>, B>,
    ) -> Result<(), AllocError>
        ensures begun { OnOk result (IsSome self.new.scan) }
        ensures value { self.new ≡ with_scan self.new.scan self.old }
        ensures searching { IsSearching regex.old.nfa self.old
            → IsSearching regex.old.nfa self.new }
        ensures same { regex.new ≡ regex.old }
    {
        if self.scan.is_none() {
            self.scan = Some(regex.scan(self.kept.as_slice(), self.start)?);
        }
        Ok(())
    }

    /// Returns a match in the kept bytes, as a match in the text.
    fn in_text(&self, found: &Match) -> Match
        requires order { found.now.start ≤ found.now.end }
        requires end { found.now.end ≤ length self.now.kept }
        ensures { result ≡ moved self.now.dropped found.now }
    {
        Match {
            pattern: found.pattern,
            start: self.dropped + found.start,
            end: self.dropped + found.end,
        }
    }

    /// Returns whether the search under way has read some bytes and is idle (`is_idle`), if the
    /// prefix of the NFA is apart. Then no match begins in them, regardless of what follows.
    fn is_idle<R: AsNfa, B: Engine<Error = AllocError>>(
        &self,
        regex: &Regex<LazyDfa<R, A>, B>,
    ) -> bool
        ensures fresh { IsSearching regex.now.nfa self.now → result ≡ true
            → IsFresh regex.now.nfa self.now.kept self.now.start }
        ensures idle { IfSome self.now.scan (λ scan. HasPrefixApart regex.now.nfa
            → IsIdle regex.now.nfa scan → self.now.start < length self.now.kept
            → result ≡ true) }
        ensures some { result ≡ true → self.now.start < length self.now.kept }
    {
        let Some(scan) = &self.scan else {
            return false;
        };
        let kept = self.kept.as_slice();
        if self.start == kept.len() {
            return false;
        }
        is_idle(regex.forward().nfa(), scan) && regex.is_apart()
    }

    /// Begins a new search at the end of the kept bytes if the one under way is idle: then no match
    /// begins before. Called where no match is certain.
    fn skip_idle<R: AsNfa, B: Engine<Error = AllocError>>(
        &mut self,
        regex: &mut Regex<LazyDfa<R, A>, B>,
    ) -> Result<(), AllocError>
        ensures moved { IsSearching regex.old.nfa self.old
            → HasMoved regex.old.nfa self.old self.new }
        ensures unsettled { IfSome self.old.scan (IsUnsettled regex.old.nfa)
            → IfSome self.new.scan (IsUnsettled regex.old.nfa) }
        ensures idle { IfSome self.new.scan (λ scan. HasPrefixApart regex.old.nfa
            → IsIdle regex.old.nfa scan → self.new.start ≡ count_kept self.new) }
        ensures begun { IsSome self.old.scan → OnOk result (IsSome self.new.scan) }
        ensures left { left_in [] self.new ≤ left_in [] self.old }
        ensures same { regex.new ≡ regex.old }
    {
        if !self.is_idle(regex) {
            return Ok(());
        }
        self.scan = None;
        self.start = self.kept.len();
        self.is_after_match = false;
        self.begin_scan(regex)
    }

    /// Begins a new search if the one under way is idle, and drops the bytes that no search needs
    /// any more. Called where no match is certain.
    fn settle<R: AsNfa, B: Engine<Error = AllocError>>(
        &mut self,
        regex: &mut Regex<LazyDfa<R, A>, B>,
    ) -> Result<(), AllocError>
        ensures moved { IsSearching regex.old.nfa self.old
            → HasMoved regex.old.nfa self.old self.new }
        ensures few { IsSearching regex.old.nfa self.old → IsSome self.old.scan
            → IfSome self.old.scan (IsUnsettled regex.old.nfa)
            → OnOk result (KeepsFew regex.old.nfa self.new) }
        ensures left { left_in [] self.new ≤ left_in [] self.old }
        ensures same { regex.new ≡ regex.old }
    {
        self.skip_idle(regex)?;
        let passed = self.start.saturating_sub(1);
        remove_first(&mut self.kept, passed);
        self.dropped += passed;
        self.start -= passed;
        Ok(())
    }

    /// Returns the leftmost match of the kept bytes from the start on, by indices into these bytes,
    /// if the search under way makes it certain: then nothing that follows can change it. Such a
    /// match begins before the end of these bytes.
    #[inline(always)]
    fn certain_now<R: AsNfa, B: Engine<Error = AllocError>>(
        &self,
        regex: &mut Regex<LazyDfa<R, A>, B>,
    ) -> Result<Option<Match>, AllocError>
        ensures certain { IsSearching regex.old.nfa self.now → IfOk result (λ next. IfSome next
            (λ m. IsCertain regex.old.nfa self.now.kept self.now.start m)) }
        ensures unsettled { IsSearching regex.old.nfa self.now → IfOk result (λ next.
            IfNone next (IfSome self.now.scan (IsUnsettled regex.old.nfa))) }
        ensures inside { IfOk result (λ next. IfSome next
            (λ m. IsInside (length self.now.kept) self.now.start m)) }
        ensures same { regex.new ≡ regex.old }
    {
        let Some(scan) = &self.scan else {
            return Ok(None);
        };
        let Some(half) = certain_match(regex.forward().nfa(), scan) else {
            return Ok(None);
        };
        let kept = self.kept.as_slice();
        let end = self.start + half.offset;
        // The end itself, if no match of this NFA ends there: the scan is then one of another NFA.
        let begin = regex.search_start(kept, self.start, end)?;
        if begin >= kept.len() {
            return Ok(None);
        }
        Ok(Some(Match {
            pattern: half.pattern,
            start: begin,
            end,
        }))
    }

    /// Returns the leftmost match of the kept bytes from the start on if it is certain, by indices
    /// into these bytes. If none is, drops the bytes that no search needs any more.
    ///
    /// Inlined, as the other steps that each match takes: with calls it takes 5 percent longer.
    #[inline(always)]
    fn certain<R: AsNfa, B: Engine<Error = AllocError>>(
        &mut self,
        regex: &mut Regex<LazyDfa<R, A>, B>,
    ) -> Result<Option<Match>, AllocError>
        ensures step { IsSearching regex.old.nfa self.old
            → IsStep regex.old.nfa self.old self.new result }
        ensures inside { IfOk result (λ next. IfSome next
            (λ m. IsInside (length self.new.kept) self.new.start m)) }
        ensures taken { IfOk result (λ next. IfSome next
            (λ m. self.new ≡ with_scan None self.old)) }
        ensures left { left_in [] self.new ≤ left_in [] self.old }
        ensures same { regex.new ≡ regex.old }
    {
        self.begin_scan(regex)?;
        let next = self.certain_now(regex)?;
        if next.is_some() {
            self.scan = None;
            return Ok(next);
        }
        self.settle(regex)?;
        Ok(None)
    }

    /// Returns the next match if it is certain, as `certain` does. But an empty match where the one
    /// before ended is skipped, and the start is moved by one byte.
    #[inline(always)]
    fn next_certain<R: AsNfa, B: Engine<Error = AllocError>>(
        &mut self,
        regex: &mut Regex<LazyDfa<R, A>, B>,
    ) -> Result<Option<Match>, AllocError>
        ensures step { IsSearching regex.old.nfa self.old
            → IsStep regex.old.nfa self.old self.new result }
        ensures place { IfOk result (λ next. IfSome next (λ m. IsPlaceOf m self.new)) }
        ensures left { left_in [] self.new ≤ left_in [] self.old }
        ensures same { regex.new ≡ regex.old }
    {
        let first = self.certain(regex)?;
        if !is_touching(self.last_match_end(), &first) {
            return Ok(first);
        }
        self.start += 1;
        self.is_after_match = false;
        self.certain(regex)
    }

    /// Moves the start to the end of the next match.
    fn pass(&mut self, next: &Match)
        requires { IsPlaceOf next.now self.old }
        ensures value { self.new ≡ past_match next.now self.old }
        ensures fed { (nfa : Nfa) → IsCertain nfa self.old.kept self.old.start next.now
            → (list : List Found) → IsFed nfa self.old self.new [] list
            (list ++ moved self.old.dropped next.now ∷ []) }
    {
        self.start = next.end;
        self.is_after_match = true;
    }

    /// Reads a piece of the text until the next match is certain, and returns that match. The piece
    /// is then what is left of it. `None` means that all of it was read.
    ///
    /// The bytes of the match are kept (`bytes_of`) until the next call of `advance` or `feed`.
    ///
    /// Returns `AllocError` as `feed` does. The piece is then what is left after the blocks that
    /// were read. To continue, call it again with what is left, through a `Regex` as `feed` needs.
    pub fn advance<R: AsNfa, B: Engine<Error = AllocError>>(
        &mut self,
        regex: &mut Regex<LazyDfa<R, A>, B>,
        piece: &mut &[u8],
    ) -> Result<Option<Match>, AllocError>
        ensures read { IsSearching regex.old.nfa self.old → IsAdvance regex.old.nfa
            self.old self.new piece.old.now piece.new.now result }
        ensures end { IfOk result (λ next. IfNone next (piece.new.now ≡ [])) }
        ensures block { IsSearching regex.old.nfa self.old → IfOk result (λ next. IfSome next
            (λ m. (piece.new.now ≡ piece.old.now) ⊎ IsFoundInBlock regex.old.nfa
            self.old self.new piece.old.now piece.new.now m)) }
        ensures few { IsSearching regex.old.nfa self.old → IfOk result
            (λ next. IfNone next (KeepsFew regex.old.nfa self.new)) }
        ensures kept { IfOk result (λ next. IfSome next (λ m. IsKept self.new m)) }
        ensures fewer { IfOk result (λ next. IfSome next
            (λ m. left_in piece.new.now self.new < left_in piece.old.now self.old)) }
        ensures same { regex.new ≡ regex.old }
    {
        loop {
            if let Some(next) = self.next_certain(regex)? {
                let found = self.in_text(&next);
                self.pass(&next);
                return Ok(Some(found));
            }
            if piece.is_empty() {
                return Ok(None);
            }
            let (block, rest) = piece.split_at(piece.len().min(BLOCK));
            self.keep(regex, block)?;
            *piece = rest;
        }
    }

    /// Returns the bytes of a match, if all of them are kept.
    pub fn bytes_of(&self, found: &Match) -> Option<&[u8]>
        ensures some { IsSome result ↔ IsKept self.now found.now }
        ensures bytes { IfSome result (λ bytes. bytes.now ≡ slice_range self.now.kept
            (found.now.start - self.now.dropped) (found.now.end - self.now.dropped)) }
        ensures text { IfSome result (λ bytes. (text : List ℕ)
            → self.now.kept ≡ drop self.now.dropped text
            → bytes.now ≡ slice_range text found.now.start found.now.end) }
    {
        let start = found.start.checked_sub(self.dropped)?;
        let end = found.end.checked_sub(self.dropped)?;
        self.kept.get(start..end)
    }

    /// Reads the next bytes, and adds each match that is certain.
    fn read_block<R: AsNfa, B: Engine<Error = AllocError>, C: Allocator>(
        &mut self,
        regex: &mut Regex<LazyDfa<R, A>, B>,
        block: &[u8],
        found: &mut Vec<Match, C>,
    ) -> Result<(), AllocError>
        ensures read { IsSearching regex.old.nfa self.old
            → IsFeeding regex.old.nfa self.old self.new block.now
            found.old.items found.new.items result }
        ensures few { IsSearching regex.old.nfa self.old
            → OnOk result (KeepsFew regex.old.nfa self.new) }
        ensures same { regex.new ≡ regex.old }
    {
        self.keep(regex, block)?;
        while let Some(next) = self.next_certain(regex)? {
            found.push(self.in_text(&next))?;
            self.pass(&next);
        }
        Ok(())
    }

    /// Reads the next piece of the text, and adds matches, in order. A piece may be empty. Through
    /// a `Regex` of another NFA than the pieces before, the matches may be any.
    ///
    /// The end of the piece is the end of a block. `bytes_kept` never grows by more than the bytes
    /// that are read.
    ///
    /// Returns `AllocError` if an allocation fails, if a cache would need more than 16647160
    /// states, if the pieces have more than `usize::MAX` bytes together, or if the pieces before
    /// were fed through a `Regex` of another NFA and this is seen. The first bytes of the piece may
    /// have been read (`bytes_read`), and matches added. To continue, feed the rest, through a
    /// `Regex` of the NFA of the pieces before.
    pub fn feed<R: AsNfa, B: Engine<Error = AllocError>, C: Allocator>(
        &mut self,
        regex: &mut Regex<LazyDfa<R, A>, B>,
        piece: &[u8],
        found: &mut Vec<Match, C>,
    ) -> Result<(), AllocError>
        ensures read { IsSearching regex.old.nfa self.old
            → IsFeeding regex.old.nfa self.old self.new piece.now
            found.old.items found.new.items result }
        ensures few { IsSearching regex.old.nfa self.old
            → OnOk result (KeptFewInBlocks regex.old.nfa self.old self.new piece.now
            found.old.items found.new.items) }
        ensures same { regex.new ≡ regex.old }
    {
        for block in piece.chunks(BLOCK) {
            self.read_block(regex, block, found)?;
        }
        Ok(())
    }

    /// Adds the matches that are left, if the text ends here.
    fn add_rest<R: AsNfa, B: Engine<Error = AllocError>, C: Allocator>(
        &self,
        regex: &mut Regex<LazyDfa<R, A>, B>,
        found: &mut Vec<Match, C>,
    ) -> Result<(), AllocError>
        ensures finished { OnOk result (IsFinished regex.old.nfa self.now
            found.old.items found.new.items) }
        ensures begins { take (length found.old.items) found.new.items ≡ found.old.items }
        ensures same { regex.new ≡ regex.old }
    {
        let rest = Input::new(self.kept.as_slice()).range(self.start..self.kept.len());
        let mut searcher = Searcher::after(rest, self.last_match_end());
        while let Some(next) = searcher.advance(regex)? {
            found.push(self.in_text(&next))?;
        }
        Ok(())
    }

    /// Adds the matches that are left if the text ends after the pieces so far. The search is
    /// unchanged, so it may be fed further, as if `finish` had not been called.
    ///
    /// Returns `AllocError` if an allocation fails or a cache would need more than 16647160 states.
    /// Then nothing is added, and it may be called again.
    pub fn finish<R: AsNfa, B: Engine<Error = AllocError>, C: Allocator>(
        &self,
        regex: &mut Regex<LazyDfa<R, A>, B>,
        found: &mut Vec<Match, C>,
    ) -> Result<(), AllocError>
        ensures finished { OnOk result (IsFinished regex.old.nfa self.now
            found.old.items found.new.items) }
        ensures failed { OnErr result (found.new.items ≡ found.old.items) }
        ensures same { regex.new ≡ regex.old }
    {
        let count = found.len();
        let done = self.add_rest(regex, found);
        if done.is_err() {
            found.truncate(count);
        }
        done
    }
}
