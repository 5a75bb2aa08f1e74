//! Calls of a `Builder` that no other test makes, and sizes above those of the other tests.

use crate::tests::find::{self, WORDS};
use crate::tests::pieces::{end, put};
use crate::tests::uses::over;
use crate::tests::{dense, ended, holds, same};
use determinize_below::{Anchored, Input, Look, MatchKind, NFA, StateID};
use determinize_find::{Builder, Finder, Pieces, Plain, find_all, reversed};
use determinize_lazy::Lazy;
use std::alloc::Global;
use std::process::Abort;

/// Adds the states of the patterns `\<a`, patching the target of its assertion, `[bcd]` and
/// `e{40}`, and returns the first one.
fn add_three<R: Abort>(rt: &R, builder: &mut Builder<Global>) -> StateID {
    let word = builder.add_look(StateID::ZERO, Look::WordStartAscii);
    let word = word.expect(rt, "memory");
    let done = builder.add_match().expect(rt, "memory");
    let letter = builder.add_range(over(b'a', b'a', done));
    let patched = builder.patch(word, letter.expect(rt, "memory"));
    patched.expect(rt, "memory");
    let done = builder.add_match().expect(rt, "memory");
    let letters = [
        over(b'b', b'b', done),
        over(b'c', b'c', done),
        over(b'd', b'd', done),
    ];
    let letters = builder.add_sparse(&letters).expect(rt, "memory");
    let mut run = builder.add_match().expect(rt, "memory");
    for _ in 0..40u32 {
        let letter = builder.add_range(over(b'e', b'e', run));
        run = letter.expect(rt, "memory");
    }
    let first = builder.add_union(&[word, letters, run]);
    first.expect(rt, "memory")
}

/// Texts, and the pattern and the end of the match at their start.
static TEXTS: [(&[u8], Option<(usize, usize)>); 4] = [
    (b"a", Some((0, 1))),
    (b"d", Some((1, 1))),
    (&[b'e'; 40], Some((2, 40))),
    (b"xa", None),
];

/// A text that the last pattern matches, as pattern 0 of a reverse, and one that is too short.
static RUNS: [(&[u8], Option<(usize, usize)>); 2] = [
    (&[b'e'; 40], Some((0, 40))),
    (&[b'e'; 39], None),
];

/// Searches texts from their starts, and compares the pattern and the end of the matches.
fn expect_texts<R: Abort + AllocGlobal>(
    rt: &R,
    nfa: &NFA,
    texts: &[(&[u8], Option<(usize, usize)>)],
) {
    let mut lazy = Lazy::new(rt.alloc(), nfa, MatchKind::LeftmostFirst, 100);
    for &(text, wanted) in texts {
        let input = Input::new(text).anchored(Anchored::Yes);
        let found = match lazy.search_input(&input).expect(rt, "memory") {
            Some(half) => Some((half.pattern.as_usize(), half.offset)),
            None => None,
        };
        same(rt, found, wanted);
    }
}

/// Builds an NFA without the usual prefix, and one with it. The reverse of the reverse of the first
/// reads forward, and a run of 40 letters matches as before, as pattern 0, the only one of a
/// reverse.
#[test]
fn three_patterns(rt: HostRuntime) {
    let mut builder = Builder::new(rt.alloc());
    let start = add_three(&rt, &mut builder);
    let prefixed = builder.build_with_prefix(start).expect(&rt, "an NFA");
    expect_texts(&rt, &prefixed, &TEXTS);
    let nfa = builder.build(start, StateID::ZERO).expect(&rt, "an NFA");
    expect_texts(&rt, &nfa, &TEXTS);
    let once = reversed(rt.alloc(), &nfa).expect(&rt, "a reverse");
    let twice = reversed(rt.alloc(), &once).expect(&rt, "a reverse");
    same(&rt, (once.is_reverse(), twice.is_reverse()), (true, false));
    expect_texts(&rt, &twice, &RUNS);
}

/// `[01]*1[01]{9}`.
const TENTH: &str = "BU:1,2 B:30-31>0 B:31>3 B:30-31>4 B:30-31>5 B:30-31>6 B:30-31>7 B:30-31>8 \
    B:30-31>9 B:30-31>10 B:30-31>11 B:30-31>12 M:0";

/// Whether each of the last ten bytes was a `1` makes 1024 rows, of which none are alike. A match
/// ends after ten `1`, and none after ten `0` more.
#[test]
fn many_rows(rt: HostRuntime) {
    let nfa = dense::nfa(&rt, TENTH, 0);
    let dfa = dense::dfa(&rt, &nfa, MatchKind::All, 10_000);
    let least = dense::least(&rt, &dfa);
    holds(&rt, 1024 <= least.len() && least.len() <= dfa.len());
    for dfa in &[dfa, least] {
        let found = dfa.search(Anchored::Yes, None, b"1111111111", None);
        same(&rt, found, ended(10));
        let text = b"11111111110000000000";
        let found = dfa.patterns_after(Anchored::Yes, None, text, None);
        same(&rt, found.len(), 0);
    }
}

/// Returns 20,000 words of two bytes, and then one of 30,000.
fn long_text<R: Abort + AllocGlobal>(rt: &R) -> Vec<u8> {
    let mut text = b"ab ".repeat(rt.alloc(), 20_000).expect(rt, "memory");
    text.resize(90_000, b'z').expect(rt, "memory");
    text
}

/// Finds all words of a long text by an NFA and its reverse: whole, and in one piece, of which the
/// last word is kept until the text ends.
#[test]
fn long_texts(rt: HostRuntime) {
    let (mut regex, text) = (find::regex(&rt, WORDS), long_text(&rt));
    let all = regex.find_all(rt.alloc(), &Input::new(&text));
    let all = all.expect(&rt, "memory");
    same(&rt, all.len(), 20_001);
    let (mut stream, mut found) = (Pieces::new(rt.alloc()), Vec::new(rt.alloc()));
    put(&rt, &mut stream, &mut regex, &text, &mut found);
    holds(&rt, stream.bytes_kept() >= 30_000);
    end(&rt, &stream, &mut regex, &mut found);
    same(&rt, found.as_slice(), all.as_slice());
}

/// Scans a text by a scan that begins before it and by one of it all.
fn expect_scans<R: Abort>(rt: &R, lazy: &mut Lazy<'_>, text: &[u8]) {
    let start = lazy.nfa().start_unanchored();
    let mut fed = lazy.scan(start, None).expect(rt, "memory");
    lazy.feed(&mut fed, text).expect(rt, "memory");
    let scanned = lazy.scan_text(start, None, text).expect(rt, "memory");
    let found = lazy.finish(&fed, None);
    same(rt, lazy.finish(&scanned, None), found);
    holds(rt, found.is_ok());
}

/// Finds 100 words by a `Plain`, and none in spaces. Then scans a long text, and walks over it.
#[test]
fn long_scans(rt: HostRuntime) {
    let (nfa, text) = (find::nfa(&rt, WORDS), long_text(&rt));
    let lazy = Lazy::new(rt.alloc(), &nfa, MatchKind::LeftmostFirst, 100);
    let mut plain = Plain::new(&nfa, lazy);
    let some = Input::new(text.get(..300).unwrap_or(&[]));
    let some = find_all(rt.alloc(), &mut plain, &some);
    same(&rt, some.expect(&rt, "memory").len(), 100);
    same(&rt, plain.find(&Input::new(&[b' '; 40])), Ok(None));
    let mut lazy = plain.into_engine();
    expect_scans(&rt, &mut lazy, &text);
    let start = lazy.nfa().start_unanchored();
    let states = lazy.walk(start, None, &text);
    let count = states.expect(&rt, "memory").len();
    same(&rt, count, text.len().saturating_add(2));
}
