//! Searches of a text that comes in pieces, as from a socket or a file.
//!
//! A [`Scan`] owns a copy of the state where it is and the last match so far, so that it does not
//! depend on what the cache is used for between two pieces. For each piece `feed` looks for that
//! state in the cache, first at the id that it had at the end of the piece before, and copies the
//! state at the end of this one.

ghost use Rattle.std.specs.Prelude.{◌≡◌, ◌+◌, ◌++◌, ◌<◌, ◌≤◌, ◌∷◌, ℕ, [], false, List, Option, length, map, not, option_map, true, IfOk, OnErr, OnOk, None, Some};
ghost use Rattle.std.specs.Option.{IfSome, option_or};
ghost use Rattle.determinize_lazy.specs.Clauses.{AllResolve, between, cache, cursor_value, EndsBefore, HasSearched, is_nonempty, IsFoundBeforeLast, IsFoundInEach, IsScan, IsSearch, IsSettledIn, start_value};
ghost use Rattle.determinize_lazy.specs.Private.{first_place, IsLeftBy, IsPieceRead, IsReady, later_by};

use crate::lazy::LazyDfa;
use crate::search::Position;
use determinize_below::{AsNfa, HalfMatch, StateID};
use determinize_core::state::State;
use determinize_engine::text::Text;
use determinize_table::{Cursor, LazyStateId};
use std::alloc::{AllocError, Allocator, Global};
use std::marker::Model;

/// A search under way, of a text that comes in pieces: `LazyDfa::scan` begins it, `LazyDfa::feed`
/// reads the next piece, and `LazyDfa::finish` returns the match.
///
/// The match is that of one search if all caches that it is fed through have the same NFA and match
/// kind.
#[derive(Drop)]
pub struct Scan<A: Allocator = Global> {
    state: State<A>,
    /// The id of the state when the last piece was read, if it was cached then. The cache may have
    /// been cleared since, and the next piece may be read through another one, so it is compared.
    id: Option<LazyStateId>,
    last: Option<HalfMatch>,
    read: usize,
}

impl<A: Allocator> Model for Scan<A> {
    ghost use Rattle.determinize_engine.specs.Scans.{Scanned};
    ghost use Rattle.determinize_lazy.specs.Scanning.{EndsBefore};

    ghost Value = { Scanned };

    ghost view = { λ s. record { state = s.state; last = s.last; read = s.read } };

    ghost invariant = { λ s. EndsBefore s.last s.read };
}

impl<A: Allocator> Scan<A> {
    /// Returns the state where the scan is: that after the bytes so far, or the state without NFA
    /// states at which the search ended.
    pub fn state(&self) -> &State<A>
        ensures { result.now ≡ self.now.state }
    {
        &self.state
    }

    /// Returns the last match that the states so far have reported, or `None`. Matches are delayed
    /// by one unit, so one that ends where the last piece ends is not reported yet: the result is
    /// that of a search of all bytes but the last, which that search sees as the byte after its
    /// range.
    pub fn last(&self) -> Option<HalfMatch>
        ensures value { result ≡ self.now.last }
        ensures within { EndsBefore result self.now.read }
        ensures search { IsFoundBeforeLast self.now }
    {
        self.last
    }

    /// Returns how many bytes the scan was fed.
    pub fn bytes_read(&self) -> usize
        ensures { result ≡ self.now.read }
    {
        self.read
    }

    /// Returns whether the search has ended: no NFA state is left, so nothing that follows can
    /// change the match, and `last` is what `finish` will return.
    pub fn is_over(&self) -> bool
        ensures value { result ≡ not (is_nonempty self.now.state.states) }
        ensures settled { result ≡ true → IsSettledIn self.now }
        ensures search { result ≡ true → IsFoundInEach self.now }
    {
        self.state.iter_nfa_state_ids().next().is_none()
    }
}

/// Returns the last match of a text, of which `last` is the last match of the first `read` bytes,
/// and `found` that of the rest, with its offset counted from there.
fn or_later(last: Option<HalfMatch>, read: usize, found: Option<HalfMatch>) -> Option<HalfMatch>
    requires { IfSome found (λ m. read + m.offset ≤ usize.MAX) }
    ensures { result ≡ option_or (option_map (later_by read) found) last }
{
    match found {
        Some(HalfMatch { pattern, offset }) => Some(HalfMatch {
            pattern,
            offset: read + offset,
        }),
        None => last,
    }
}

impl<R: AsNfa, A: Allocator + Copy> LazyDfa<R, A> {
    /// Returns a search that has read nothing yet.
    pub fn scan(&mut self, start: StateID, look_behind: Option<u8>) -> Result<Scan<A>, AllocError>
        requires { start < length self.old.nfa.states }
        ensures begun { IfOk result
            (λ scan. IsScan self.old.nfa self.old.kind start look_behind [] scan) }
        ensures resolve { IfOk result
            (λ scan. AllResolve self.new.nfa scan.state.states) }
        ensures unchanged { self.new ≡ self.old }
    {
        let state = self.start_state(start, look_behind)?;
        Ok(Scan {
            state,
            id: None,
            last: None,
            read: 0,
        })
    }

    /// Returns a search that has read the first piece of its text, as `scan` and then `feed` would.
    /// If the id of its start state is kept, as for `search`, nothing is computed to begin it.
    pub fn scan_text(
        &mut self,
        start: StateID,
        look_behind: Option<u8>,
        piece: &[u8],
    ) -> Result<Scan<A>, AllocError>
        requires { start < length self.old.nfa.states }
        ensures begun { IfOk result
            (λ scan. IsScan self.old.nfa self.old.kind start look_behind piece.now scan) }
        ensures resolve { IfOk result
            (λ scan. AllResolve self.new.nfa scan.state.states) }
        ensures cache { HasSearched false self.old (start_value self.old.nfa start look_behind)
            (map Some piece.now) result self.new }
    {
        let cursor = self.start(start, look_behind)?;
        self.read_piece(cursor, piece)
    }

    /// Returns the search of a piece from a cursor, as if its text began there.
    fn read_piece(&mut self, start: Cursor<A>, piece: &[u8]) -> Result<Scan<A>, AllocError>
        requires { IsReady self.old start }
        ensures read { IfOk result (λ scan. IsPieceRead (cache self.old)
            (cursor_value self.old.states start) piece.now scan) }
        ensures resolve { IfOk result
            (λ scan. AllResolve self.new.nfa scan.state.states) }
        ensures left { IsLeftBy false (map Some piece.now) (first_place (cache self.old)
            (cursor_value self.old.states start)) result (cache self.new) }
    {
        let text = Text::new(None, piece, None);
        let at = self.search_bytes(Position::start(start), &text, false)?;
        let last = self.found(&at);
        let id = at.cursor.id();
        let state = self.table.into_state(at.cursor)?;
        Ok(Scan {
            state,
            id,
            last,
            read: piece.len(),
        })
    }

    /// Reads the next piece of the text of a scan, in reading order. A piece may be empty.
    ///
    /// Returns `AllocError` also if the pieces have more than `usize::MAX` bytes together. After an
    /// error the scan is unchanged, and the piece may be fed again.
    pub fn feed(&mut self, scan: &mut Scan<A>, piece: &[u8]) -> Result<(), AllocError>
        ensures fed { (start : ℕ) (behind : Option ℕ) (bytes : List ℕ)
            → IsScan self.old.nfa self.old.kind start behind bytes scan.old → OnOk result
            (IsScan self.old.nfa self.old.kind start behind (bytes ++ piece.now) scan.new) }
        ensures resolve { AllResolve self.old.nfa scan.old.state.states
            → AllResolve self.new.nfa scan.new.state.states }
        ensures read { OnOk result (scan.new.read ≡ scan.old.read + length piece.now) }
        ensures same { OnErr result (scan.new ≡ scan.old) }
        ensures cache { HasSearched false self.old scan.old.state (map Some piece.now) result
            self.new }
    {
        let Some(read) = scan.read.checked_add(piece.len()) else {
            return Err(AllocError);
        };
        let start = self.cursor_of(&scan.state, scan.id)?;
        let rest = self.read_piece(start, piece)?;
        scan.last = or_later(scan.last, scan.read, rest.last);
        scan.state = rest.state;
        scan.id = rest.id;
        scan.read = read;
        Ok(())
    }

    /// Returns the match of a scan whose text ends after the pieces so far: that of `search` over
    /// all of them as one text. The scan is unchanged, so it may be fed further.
    pub fn finish(
        &mut self,
        scan: &Scan<A>,
        look_ahead: Option<u8>,
    ) -> Result<Option<HalfMatch>, AllocError>
        ensures search { (start : ℕ) (behind : Option ℕ) (bytes : List ℕ)
            → IsScan self.old.nfa self.old.kind start behind bytes scan.now
            → IfOk result (λ found. IsSearch self.old.nfa self.old.kind start
            (between behind bytes look_ahead) found) }
        ensures cache { HasSearched false self.old scan.now.state (look_ahead ∷ []) result
            self.new }
    {
        let start = self.cursor_of(&scan.state, scan.id)?;
        let text = Text::new(None, &[], look_ahead);
        let at = self.search_to_end(Position::start(start), &text, false)?;
        Ok(or_later(scan.last, scan.read, self.found(&at)))
    }
}
