//! Whole DFAs in bytes: a file that was written by hand, and what is wrong with others.

use crate::tests::dense::{dfa, nfa};
use crate::tests::patterns::regex_of;
use crate::tests::{Ends, expect_end, expect_matches, holds, same};
use determinize_below::{Anchored, Input, MatchKind};
use determinize_dense::{Automaton, Overlapping};
use determinize_stored::{FormatError, FormatErrorKind, StoredDfa};
use determinize_uses::from_bytes::tokens_or_matches;
use std::mem;
use std::process::Abort;

/// The numbers before the classes, and those behind them, of the DFA of the pattern `a` under
/// `MatchKind::LeftmostFirst`. `a` has class 1, all other bytes have class 0. Row 2 is each start
/// but those behind a line terminator that is not `\n`, row 3 comes after `a`, row 1 lists pattern
/// 0, and row 0 is dead.
static HEAD: [u32; 7] = [0x0041_4644, 1, 1, 0, 10, 2, 4];

static BEHIND: [u32; 29] = [
    2, 2, 2, 2, 2, 0, 2, 2, 2, 2, 2, 0, 0, 0, 0, 0, 0, 0, 0, 3, 0, 1, 1, 1, 0, 1, 1, 1, 0,
];

/// An index of a number, another number for it, and what is then wrong at which offset.
static WRONG: [(usize, u32, FormatErrorKind, usize); 13] = [
    (0, 0x4446_4100, FormatErrorKind::Magic, 0),
    (1, 2, FormatErrorKind::Version, 4),
    (2, 2, FormatErrorKind::MatchKind, 8),
    (3, 2, FormatErrorKind::Direction, 12),
    (4, 256, FormatErrorKind::LineTerminator, 16),
    (5, 257, FormatErrorKind::ClassCount, 20),
    (6, 5, FormatErrorKind::Length, 1168),
    (12, 2, FormatErrorKind::Class, 48),
    (263, 4, FormatErrorKind::Start, 1052),
    (278, 4, FormatErrorKind::Entry, 1112),
    (287, 2, FormatErrorKind::ListEnd, 1152),
    (290, 2, FormatErrorKind::Length, 1168),
    (291, 0x7FFF_FFFF, FormatErrorKind::Pattern, 1164),
];

/// Adds numbers to bytes.
fn push<R: Abort>(rt: &R, bytes: &mut Vec<u8>, words: &[u32]) {
    for word in words {
        let added = bytes.extend_from_slice(&word.to_le_bytes());
        added.expect(rt, "memory");
    }
}

/// Returns the file.
fn file<R: Abort + AllocGlobal>(rt: &R) -> Vec<u8> {
    let mut bytes = Vec::new(rt.alloc());
    push(rt, &mut bytes, &HEAD);
    for byte in 0..=u8::MAX {
        push(rt, &mut bytes, &[u32::from(byte == b'a')]);
    }
    push(rt, &mut bytes, &BEHIND);
    bytes
}

/// Compares what is wrong with bytes.
fn expect_error<R: Abort>(rt: &R, bytes: &[u8], kind: FormatErrorKind, offset: usize) {
    let found = StoredDfa::from_bytes(bytes).err();
    same(rt, found, Some(FormatError { kind, offset }));
}

#[test]
fn a_dfa_is_written_as_by_hand(rt: HostRuntime) {
    let nfa = nfa(&rt, "B:61>1 M:0", 0);
    let bytes = dfa(&rt, &nfa, MatchKind::LeftmostFirst, 10).to_bytes(rt.alloc());
    same(
        &rt,
        bytes.expect(&rt, "memory").as_slice(),
        file(&rt).as_slice(),
    );
}

/// Texts, and the ends of their matches.
static TEXTS: [(&[u8], Option<usize>); 4] = [
    (b"", None),
    (b"a", Some(1)),
    (b"ab", Some(1)),
    (b"ba", None),
];

/// Searches texts. The match of `a` in `ab` ends at position 1.
#[test]
fn a_file_is_searched(rt: HostRuntime) {
    let bytes = file(&rt);
    let dfa = StoredDfa::from_bytes(&bytes).expect(&rt, "a DFA");
    for &(text, end) in &TEXTS {
        expect_end(&rt, dfa.search_input(&Input::new(text)), end);
    }
    let lists = Overlapping::new(&dfa, Anchored::Yes, None, b"ab", None);
    for (at, mut patterns) in lists.enumerate() {
        same(&rt, patterns.next().is_some(), at == 1);
    }
}

/// Counts the four rows, and steps over `a` and over another one.
#[test]
fn a_file_is_read(rt: HostRuntime) {
    let bytes = file(&rt);
    let dfa = StoredDfa::from_bytes(&bytes).expect(&rt, "a DFA");
    assert_eq!(&rt; dfa.len(), 4);
    same(&rt, dfa.rows().count(), 4);
    let start = dfa.start_state_forward(&Input::new(b"a"));
    let last = dfa.next_eoi_state(dfa.next_state(start, b'a'));
    same(&rt, dfa.match_len(last), 1);
    holds(&rt, dfa.is_match_state(last) && !dfa.is_dead_state(last));
    holds(&rt, dfa.is_dead_state(dfa.next_state(last, b'a')));
}

/// The tokens of `if iffy if` by `if`, `[a-z]+` and a blank, and all matches, worked out by hand.
static PIECES: [(MatchKind, &[Ends]); 2] = [
    (
        MatchKind::All,
        &[(0, 0, 2), (2, 2, 3), (1, 3, 7), (2, 7, 8), (0, 8, 10)],
    ),
    (
        MatchKind::LeftmostFirst,
        &[
            (0, 0, 2),
            (2, 2, 3),
            (0, 3, 5),
            (1, 5, 7),
            (2, 7, 8),
            (0, 8, 10),
        ],
    ),
];

/// Finds the tokens and all matches by the bytes of a DFA.
#[test]
fn a_file_finds_tokens_and_matches(rt: HostRuntime) {
    let regex = regex_of(&rt, &["if", "[a-z]+", " "]);
    for &(kind, wanted) in &PIECES {
        let dfa = dfa(&rt, regex.nfa(), kind, 100);
        let bytes = dfa.to_bytes(rt.alloc()).expect(&rt, "memory");
        let found = tokens_or_matches(rt.alloc(), &bytes, b"if iffy if");
        expect_matches(&rt, &found.expect(&rt, "a DFA"), wanted);
    }
}

#[test]
fn what_is_wrong_is_said(rt: HostRuntime) {
    for &(index, word, kind, offset) in &WRONG {
        let mut bytes = file(&rt);
        let (first, word) = (index.saturating_mul(4), word.to_le_bytes());
        for (at, byte) in word.iter().enumerate() {
            exchanged(&mut bytes, first.saturating_add(at), *byte);
        }
        expect_error(&rt, &bytes, kind, offset);
    }
    let mut bytes = file(&rt);
    expect_error(&rt, &[], FormatErrorKind::Length, 0);
    let _last = bytes.pop();
    expect_error(&rt, &bytes, FormatErrorKind::Length, 1164);
    bytes.push(0).expect(&rt, "memory");
    bytes.push(0).expect(&rt, "memory");
    expect_error(&rt, &bytes, FormatErrorKind::Length, 1168);
}

/// Returns whether bytes are a DFA. If so, takes steps from each row, searches a text, and asserts
/// that all rows and offsets are in range.
fn is_safe<R: Abort>(rt: &R, bytes: &[u8]) -> bool {
    let Ok(dfa) = StoredDfa::from_bytes(bytes) else {
        return false;
    };
    for row in dfa.rows() {
        let next = dfa.next_state(row, b'a');
        holds(rt, next.as_usize() < dfa.len());
        holds(rt, dfa.next_eoi_state(next).as_usize() < dfa.len());
        let has_pattern = dfa.match_pattern(next, 0).is_some();
        same(rt, has_pattern, dfa.is_match_state(next));
    }
    if let Some(found) = dfa.search_input(&Input::new(b"aab")) {
        holds(rt, found.offset <= 3);
    }
    true
}

/// Writes another byte at an index, and returns the one that was there.
fn exchanged(bytes: &mut [u8], index: usize, byte: u8) -> u8 {
    match bytes.get_mut(index) {
        Some(place) => mem::replace(place, byte),
        None => byte,
    }
}

/// Each time a number, of some that look random, chooses a place in the file and another byte.
#[test]
fn changed_files_are_safe(rt: HostRuntime) {
    let mut bytes = file(&rt);
    let mut number: u64 = 88172645463325252;
    let mut accepted: u32 = 0;
    for _ in 0..100_000 {
        number ^= number << 13;
        number ^= number >> 7;
        number ^= number << 17;
        let index = (number % 1168) as usize;
        let before = exchanged(&mut bytes, index, ((number >> 32) & 7) as u8);
        if is_safe(&rt, &bytes) {
            accepted = accepted.saturating_add(1);
        }
        exchanged(&mut bytes, index, before);
    }
    holds(&rt, accepted > 1000);
}
