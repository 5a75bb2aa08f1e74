//! A text in pieces: each match is found with its last byte, and few bytes are kept.

use crate::tests::find::{self, WORDS, nfa};
use crate::tests::{Ends, dense, ended, expect_matches, holds, same};
use determinize_below::{AsNfa, Match, MatchKind};
use determinize_engine::WithAllocError;
use determinize_find::{Pieces, Regex, reversed};
use determinize_lazy::{Engine, Lazy, LazyDfa};
use std::alloc::AllocError;
use std::process::Abort;

/// `[^\n]*\n`, a line.
const LINE: &str = "BU:2,1 B:00-ff>0 BU:3,4 S:00-09>2,0b-ff>2 B:0a>5 M:0";

/// Lines, of which the last does not end.
const LINES: &[u8] = b"ab\n\nc d\n\n\ne";

/// The same, line by line.
static EACH_LINE: [&[u8]; 6] = [b"ab\n", b"\n", b"c d\n", b"\n", b"\n", b"e"];

/// How many lines have ended after each number of bytes.
static ENDED: [usize; 12] = [0, 0, 0, 1, 2, 2, 2, 2, 3, 4, 5, 5];

/// The lines that end.
const MATCHES: &[Ends] = &[(0, 0, 3), (0, 3, 4), (0, 4, 8), (0, 8, 9), (0, 9, 10)];

/// The words from one to ten, in 64 bytes. `seven` begins at their end and ends at their beginning.
const TEN_WORDS: &[u8] = b"ven; one, two, three, four, five, six; eight, nine, ten...   sev";

/// Feeds a piece.
pub fn put<R: Abort, N: AsNfa, B: Engine<Error = AllocError>>(
    rt: &R,
    stream: &mut Pieces,
    regex: &mut Regex<LazyDfa<N>, B>,
    piece: &[u8],
    found: &mut Vec<Match>,
) {
    stream.feed(regex, piece, found).expect(rt, "memory");
}

/// Ends a text.
pub fn end<R: Abort, N: AsNfa, B: Engine<Error = AllocError>>(
    rt: &R,
    stream: &Pieces,
    regex: &mut Regex<LazyDfa<N>, B>,
    found: &mut Vec<Match>,
) {
    stream.finish(regex, found).expect(rt, "memory");
}

/// Feeds 1024 times the ten words 1600 times, after each of which at most 64 bytes may be kept, and
/// counts the words. The first and the last word are halves of `seven`.
#[test]
fn hundred_megabytes(rt: HostRuntime) {
    let mut regex = find::regex(&rt, WORDS);
    let block = TEN_WORDS.repeat(rt.alloc(), 1024).expect(&rt, "memory");
    let (mut stream, mut found) = (Pieces::new(rt.alloc()), Vec::new(rt.alloc()));
    let mut count = 0usize;
    for _ in 0..1600u32 {
        put(&rt, &mut stream, &mut regex, &block, &mut found);
        holds(&rt, stream.bytes_kept() <= 64);
        count = count.saturating_add(found.len());
        found.clear();
    }
    end(&rt, &stream, &mut regex, &mut found);
    same(&rt, count.saturating_add(found.len()), 1600 * 1024 * 10 + 1);
}

/// Finds the lines of a text in pieces. After each piece there must be a match for each line that
/// has ended.
fn expect_lines<R: Abort + AllocGlobal, B: Engine<Error = AllocError>>(
    rt: &R,
    regex: &mut Regex<Lazy<'_>, B>,
    pieces: &[&[u8]],
) {
    let (mut stream, mut found) = (Pieces::new(rt.alloc()), Vec::new(rt.alloc()));
    let mut read = 0usize;
    for piece in pieces {
        put(rt, &mut stream, regex, piece, &mut found);
        read = read.saturating_add(piece.len());
        same(rt, Some(found.len()), ENDED.get(read).copied());
    }
    end(rt, &stream, regex, &mut found);
    expect_matches(rt, &found, MATCHES);
}

/// Finds the lines one by one, and in pieces of one byte to all bytes, by a lazy DFA that finds the
/// ends and a whole one that finds the starts.
#[test]
fn each_line_at_its_last_byte(rt: HostRuntime) {
    let nfa = nfa(&rt, LINE);
    let backward = reversed(rt.alloc(), &nfa).expect(&rt, "a reverse");
    let starts = dense::dfa(&rt, &backward, MatchKind::All, 1000);
    let ends = Lazy::new(rt.alloc(), &nfa, MatchKind::LeftmostFirst, 100);
    let mut regex = Regex::from_engines(ends, WithAllocError(&starts));
    expect_lines(&rt, &mut regex, &EACH_LINE);
    for size in 1..=LINES.len() {
        let pieces = LINES.chunks(size).collect::<Vec<_>>(rt.alloc());
        expect_lines(&rt, &mut regex, &pieces.expect(&rt, "memory"));
    }
}

/// Scans `ab` by a cache, while another one must not feed or finish the scan.
fn expect_scan<R: Abort>(rt: &R, lazy: &mut Lazy<'_>, other: &mut Lazy<'_>) {
    let start = lazy.nfa().start_unanchored();
    let mut scan = lazy.scan_text(start, None, b"a").expect(rt, "memory");
    holds(rt, other.feed(&mut scan, b"b").is_err());
    holds(rt, other.finish(&scan, None).is_err());
    lazy.feed(&mut scan, b"b").expect(rt, "memory");
    same(rt, lazy.finish(&scan, None), Ok(ended(2)));
}

/// Walks over `ab` by a cache, while another one must not move the walker.
fn expect_walker<R: Abort>(rt: &R, lazy: &mut Lazy<'_>, other: &mut Lazy<'_>) {
    let start = lazy.nfa().start_unanchored();
    let mut walker = lazy.walker(start, None).expect(rt, "memory");
    lazy.next(&mut walker, Some(b'a')).expect(rt, "memory");
    holds(rt, other.next(&mut walker, Some(b'b')).is_err());
    lazy.next(&mut walker, Some(b'b')).expect(rt, "memory");
}

/// A cache of another NFA, which has no such states, returns an error, and changes nothing.
#[test]
fn scans_of_another_nfa(rt: HostRuntime) {
    let (nfa, other) = (nfa(&rt, WORDS), nfa(&rt, "BU:2,1 B:00-ff>0 M:0"));
    let mut lazy = Lazy::new(rt.alloc(), &nfa, MatchKind::LeftmostFirst, 100);
    let mut other = Lazy::new(rt.alloc(), &other, MatchKind::LeftmostFirst, 100);
    expect_scan(&rt, &mut lazy, &mut other);
    expect_walker(&rt, &mut lazy, &mut other);
}
