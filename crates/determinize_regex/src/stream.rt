//! All matches of patterns in a text that comes in pieces.

ghost use Rattle.std.specs.Prelude.{◌≡◌, ◌<◌, ◌⊎◌, ◌↔◌, ℕ, [], IfNone, IfOk, IfSome, IsSome, List, OnErr, OnOk, drop, option_to_list, slice_range};
ghost use Rattle.std.specs.Coded.{codes};
ghost use Rattle.determinize_find.specs.Streams.{IsKept, count_kept, count_read, left_in};
ghost use Rattle.determinize_pattern.specs.contracts.pattern.Pattern as e;
ghost use Rattle.determinize_regex.specs.Private.Searched.{IsStreaming, value_of};
ghost use Rattle.determinize_regex.specs.Streams.{IsFedOf, IsFinishedOf, IsFoundInBlockOf, IsFrontFedOf, IsPartFedOf, KeepsFewOf, KeptFewOf, StreamValue};

use determinize_below::{Match, NFA};
use determinize_find::{Pieces, Regex as Search};
use determinize_lazy::LazyDfa;
use determinize_pattern::Pattern;
use std::alloc::{AllocError, Allocator, Global};
use std::marker::Model;

/// A search for all matches of the patterns of a [`Regex`] in a text that comes in pieces, with
/// two separate caches: `feed` reads the next piece, `advance` returns the next match of it, and
/// `finish` says that the text ends.
///
/// A match is found once it is certain (`certain_match` of `determinize_find`): no byte that
/// follows can change it. So a line, as a match of `[^\n]*\n`, is found with its last byte. The
/// positions of a match count from the beginning of the text. Bytes are kept as by `Pieces` of
/// `determinize_find`.
#[derive(Drop)]
pub struct Stream<'r, A: Allocator + Copy = Global> {
    pub(crate) patterns: &'r [Pattern],
    pub(crate) search: Search<LazyDfa<&'r NFA, A>, LazyDfa<&'r NFA, A>>,
    pub(crate) pieces: Pieces<A>,
}

impl<'r, A: Allocator + Copy> Model for Stream<'r, A> {
    ghost Value = { StreamValue };

    ghost coded = { Prim.hlevel (codes, e.the_row.coded) };

    ghost view = { λ s. record {
      regex = value_of s.patterns.now s.search.nfa s.search.limit;
      pieces = s.pieces;
    } };

    ghost invariant = { λ s.
        IsStreaming (value_of s.patterns.now s.search.nfa s.search.limit) s.pieces };
}

impl<'r, A: Allocator + Copy> Stream<'r, A> {
    /// Returns how many bytes of the text were read.
    pub fn bytes_read(&self) -> usize
        ensures { result ≡ count_read self.now.pieces }
    {
        self.pieces.bytes_read()
    }

    /// Returns how many bytes of the text are kept.
    pub fn bytes_kept(&self) -> usize
        ensures { result ≡ count_kept self.now.pieces }
    {
        self.pieces.bytes_kept()
    }

    /// Reads the next piece of the text, and adds matches, in order. A piece may be empty.
    ///
    /// Returns `AllocError` if an allocation fails, if a cache would need more than 16647160
    /// states, or if the pieces have more than `usize::MAX` bytes together. The first bytes of the
    /// piece may have been read (`bytes_read`), and matches added. To continue, feed the rest.
    pub fn feed<C: Allocator>(
        &mut self,
        piece: &[u8],
        found: &mut Vec<Match, C>,
    ) -> Result<(), AllocError>
        ensures fed { OnOk result
            (IsFedOf self.old self.new piece.now found.old.items found.new.items) }
        ensures failed { OnErr result
            (IsPartFedOf self.old self.new piece.now found.old.items found.new.items) }
        ensures few { OnOk result
            (KeptFewOf self.old self.new piece.now found.old.items found.new.items) }
        ensures same { self.new.regex ≡ self.old.regex }
    {
        self.pieces.feed(&mut self.search, piece, found)
    }

    /// Reads a piece of the text until the next match is certain, and returns that match. The piece
    /// is then what is left of it. `None` means that all of it was read.
    ///
    /// The piece is read in blocks of 4096 bytes, and a match is returned with the block that makes
    /// it certain. Its bytes are kept (`bytes_of`) until the next call of `advance` or `feed`.
    ///
    /// Returns `AllocError` as `feed` does. To continue, call it again with what is left.
    pub fn advance(&mut self, piece: &mut &[u8]) -> Result<Option<Match>, AllocError>
        ensures read { IfOk result (λ next. IsFrontFedOf self.old self.new
            piece.old.now piece.new.now (option_to_list next)) }
        ensures failed { OnErr result
            (IsFrontFedOf self.old self.new piece.old.now piece.new.now []) }
        ensures end { IfOk result (λ next. IfNone next (piece.new.now ≡ [])) }
        ensures block { IfOk result (λ next. IfSome next (λ m. (piece.new.now ≡ piece.old.now)
            ⊎ IsFoundInBlockOf self.old self.new piece.old.now piece.new.now m)) }
        ensures few { IfOk result (λ next. IfNone next (KeepsFewOf self.new)) }
        ensures kept { IfOk result (λ next. IfSome next (λ m. IsKept self.new.pieces m)) }
        ensures fewer { IfOk result (λ next. IfSome next (λ m.
            left_in piece.new.now self.new.pieces < left_in piece.old.now self.old.pieces)) }
        ensures same { self.new.regex ≡ self.old.regex }
    {
        self.pieces.advance(&mut self.search, piece)
    }

    /// Returns the bytes of a match, if all of them are kept. Kept are the bytes since the last
    /// match or since the last end of a block where the search was idle, whichever is later, and
    /// those of a match that `advance` returned until `advance` or `feed` is called again.
    pub fn bytes_of(&self, found: &Match) -> Option<&[u8]>
        ensures some { IsSome result ↔ IsKept self.now.pieces found.now }
        ensures bytes { IfSome result (λ bytes. (text : List ℕ)
            → self.now.pieces.kept ≡ drop self.now.pieces.dropped text
            → bytes.now ≡ slice_range text found.now.start found.now.end) }
    {
        self.pieces.bytes_of(found)
    }

    /// Adds the matches that are left, if the text ends after the pieces so far. The text may still
    /// be fed further, as if `finish` had not been called.
    ///
    /// Returns `AllocError` if an allocation fails or a cache would need more than 16647160 states.
    /// Then nothing is added, and it may be called again.
    pub fn finish<C: Allocator>(&mut self, found: &mut Vec<Match, C>) -> Result<(), AllocError>
        ensures finished { OnOk result
            (IsFinishedOf self.old found.old.items found.new.items) }
        ensures failed { OnErr result (found.new.items ≡ found.old.items) }
        ensures same { self.new ≡ self.old }
    {
        self.pieces.finish(&mut self.search, found)
    }
}
