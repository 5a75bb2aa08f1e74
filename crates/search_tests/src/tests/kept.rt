//! The matches of a text in pieces, and the bytes of each, which are kept until the search
//! continues.

use crate::tests::find::{self, Row, Search, WORDS};
use crate::tests::patterns::regex_of;
use crate::tests::trial::{Trial, fail_each_in_turn};
use crate::tests::{expect_matches, holds, same};
use determinize_below::{AsNfa, Match, PatternID};
use determinize_find::{Pieces, Regex};
use determinize_lazy::{Engine, LazyDfa};
use std::alloc::{AllocError, Allocator};
use std::process::Abort;

/// Words; `a*`, of which an empty match where the one before ended is skipped; and `b|`, of which
/// a match is certain at once.
static ROWS: [Row<'static>; 3] = [
    Row {
        states: WORDS,
        haystack: b"-x1- _, abcd",
        matches: &[(0, 1, 3), (0, 5, 6), (0, 8, 12)],
    },
    Row {
        states: "BU:2,1 B:00-ff>0 BU:3,4 B:61>2 M:0",
        haystack: b"baac",
        matches: &[(0, 0, 0), (0, 1, 3), (0, 4, 4)],
    },
    Row {
        states: "BU:2,1 B:00-ff>0 BU:3,4 B:62>4 M:0",
        haystack: b"abbc",
        matches: &[(0, 0, 0), (0, 1, 2), (0, 2, 3), (0, 4, 4)],
    },
];

/// The calls by which a text in pieces is searched.
#[derive(Clone, Copy)]
pub enum Calls {
    /// `feed`, which adds all matches that are certain after a piece.
    Feed,
    /// `advance`, which returns one of them.
    Advance,
}

/// Compares the bytes that are kept of a match.
fn expect_bytes<R: Abort, A: Allocator + Copy>(
    rt: &R,
    stream: &Pieces<A>,
    found: &Match,
    wanted: Option<&[u8]>,
) {
    same(rt, stream.bytes_of(found), wanted);
}

/// Adds the matches that are certain after a piece. If that fails, feeds the part that was not
/// read. Returns whether nothing failed.
fn feed_piece<N: AsNfa, B: Engine<Error = AllocError>, A: Allocator + Copy>(
    stream: &mut Pieces<A>,
    regex: &mut Regex<LazyDfa<N, A>, B>,
    piece: &[u8],
    found: &mut Vec<Match, A>,
) -> Result<bool, AllocError> {
    let begin = stream.bytes_read();
    if stream.feed(regex, piece, found).is_ok() {
        return Ok(true);
    }
    let read = stream.bytes_read().saturating_sub(begin);
    stream.feed(regex, piece.get(read..).unwrap_or(piece), found)?;
    Ok(false)
}

/// Adds the matches that are certain after a piece, by `advance`, and compares their bytes with
/// those of the text. A call that fails is made again, once. Returns whether nothing failed.
fn read_piece<R: Abort, N: AsNfa, B: Engine<Error = AllocError>, A: Allocator + Copy>(
    rt: &R,
    stream: &mut Pieces<A>,
    regex: &mut Regex<LazyDfa<N, A>, B>,
    text: &[u8],
    mut piece: &[u8],
    found: &mut Vec<Match, A>,
) -> Result<bool, AllocError> {
    let mut is_sound = true;
    for _ in 0..u64::MAX {
        match stream.advance(regex, &mut piece) {
            Ok(Some(next)) => {
                expect_bytes(rt, stream, &next, text.get(next.range()));
                found.push(next)?;
            }
            Ok(None) => break,
            Err(_) if is_sound => is_sound = false,
            Err(error) => return Err(error),
        }
    }
    holds(rt, piece.is_empty());
    Ok(is_sound)
}

/// Adds the matches that are left, and makes a call that fails again. Compares their bytes. Returns
/// whether nothing failed.
fn finish<R: Abort, N: AsNfa, B: Engine<Error = AllocError>, A: Allocator + Copy>(
    rt: &R,
    stream: &Pieces<A>,
    regex: &mut Regex<LazyDfa<N, A>, B>,
    text: &[u8],
    found: &mut Vec<Match, A>,
) -> Result<bool, AllocError> {
    let count = found.len();
    let is_sound = stream.finish(regex, found).is_ok();
    if !is_sound {
        stream.finish(regex, found)?;
    }
    for next in found.get(count..).unwrap_or(&[]) {
        expect_bytes(rt, stream, next, text.get(next.range()));
    }
    Ok(is_sound)
}

/// Finds the matches of a row in pieces, and makes a search that fails again: no match is lost, and
/// none is found twice. Returns an error if an allocation failed.
fn read_all<R: Abort, N: AsNfa, B: Engine<Error = AllocError>, A: Allocator + Copy>(
    rt: &R,
    stream: &mut Pieces<A>,
    regex: &mut Regex<LazyDfa<N, A>, B>,
    row: &Row<'_>,
    calls: Calls,
    size: usize,
    found: &mut Vec<Match, A>,
) -> Result<(), AllocError> {
    let (text, mut is_sound) = (row.haystack, true);
    for piece in text.chunks(size.max(1)) {
        let is_read = match calls {
            Calls::Feed => feed_piece(stream, regex, piece, found),
            Calls::Advance => read_piece(rt, stream, regex, text, piece, found),
        }?;
        is_sound = is_sound && is_read;
    }
    is_sound = finish(rt, stream, regex, text, found)? && is_sound;
    expect_matches(rt, found.as_slice(), row.matches);
    if is_sound { Ok(()) } else { Err(AllocError) }
}

/// Finds the matches of a row in pieces of this size.
pub fn read<R: Abort, N: AsNfa, B: Engine<Error = AllocError>, A: Allocator + Copy>(
    rt: &R,
    alloc: A,
    regex: &mut Regex<LazyDfa<N, A>, B>,
    row: &Row<'_>,
    calls: Calls,
    size: usize,
) -> Result<(), AllocError> {
    let (mut stream, mut found) = (Pieces::new(alloc), Vec::new(alloc));
    read_all(rt, &mut stream, regex, row, calls, size, &mut found)
}

/// The bytes of each match, with each allocation failing in turn.
#[test]
fn bytes_of_each_match(rt: HostRuntime) {
    for row in &ROWS {
        for size in 1..=row.haystack.len() {
            let search = Search::Pieces(Calls::Advance, size);
            fail_each_in_turn(&rt, &Trial::Search(row, 3, search));
        }
    }
}

/// Reads 1500 words in one piece of three blocks, of which never more than one and the beginning of
/// a word are kept. The bytes of the first word are then dropped.
#[test]
fn bytes_of_many_matches(rt: HostRuntime) {
    let mut regex = find::regex(&rt, WORDS);
    let text = b"seven, ".repeat(rt.alloc(), 1500).expect(&rt, "memory");
    let (mut stream, mut piece) = (Pieces::new(rt.alloc()), text.as_slice());
    for _ in 0..1500u32 {
        let next = stream.advance(&mut regex, &mut piece).expect(&rt, "memory");
        let next = next.expect(&rt, "a word");
        expect_bytes(&rt, &stream, &next, Some(b"seven"));
        holds(&rt, stream.bytes_kept() <= 4096 + 8);
    }
    same(&rt, stream.advance(&mut regex, &mut piece), Ok(None));
    holds(&rt, stream.bytes_kept() <= 64);
    let (pattern, start, end) = (PatternID::ZERO, 0, 5);
    same(
        &rt,
        stream.bytes_of(&Match {
            pattern,
            start,
            end,
        }),
        None,
    );
}

/// The start and the bytes of a word.
type Word = (usize, &'static [u8]);

/// A text in two pieces, with the words that end in each.
static PIECES: [(&[u8], &[Word]); 2] = [
    (b"ab, cd, e", &[(0, b"ab"), (4, b"cd")]),
    (b"f;", &[(8, b"ef")]),
];

#[test]
fn bytes_of_patterns(rt: HostRuntime) {
    let regex = regex_of(&rt, &["[a-z]+"]);
    let mut stream = regex.stream(rt.alloc(), 100);
    for &(piece, wanted) in &PIECES {
        let mut piece = piece;
        for &(start, bytes) in wanted {
            let found = stream.advance(&mut piece).expect(&rt, "memory");
            let found = found.expect(&rt, "a word");
            same(&rt, found.start, start);
            same(&rt, stream.bytes_of(&found), Some(bytes));
        }
        same(&rt, stream.advance(&mut piece), Ok(None));
        holds(&rt, piece.is_empty());
    }
}
