//! Whole DFAs of `determinize_dense`: their numbers of states, the patterns where a text ends, and
//! allocations.

ghost use Rattle.std.specs.Prelude.{◌≡◌, false};

use crate::tests::{ended, expect_debug, expect_patterns, same};
use determinize_below::{Anchored, Input, LookMatcher, MatchKind, NFA, StateID};
use determinize_dense::{Dfa, DfaError};
use determinize_uses::dfa::smallest;
use example_walks::states;
use failing_alloc::FailingAllocator;
use std::alloc::{AllocError, Allocator, Global};
use std::process::Abort;

/// The numbers of states of a whole DFA with all starts, and of the smallest one.
#[derive(Clone, Copy)]
pub struct Counts {
    len: usize,
    least: usize,
}

/// The states of an NFA, its anchored start, and the counts of its DFAs under each match kind.
pub struct Row {
    states: &'static str,
    start_anchored: u8,
    pub counts: [(MatchKind, Counts); 2],
}

/// The states of `\b\w+\b`.
pub const WORD: &str = "L:WordAscii>1 S:30-39>2,41-5a>2,5f-5f>2,61-7a>2 BU:1,3 L:WordAscii>4 M:0";

/// The states of `[a-z]+`, which is pattern 0, and `[0-9]+`, pattern 1, after the prefix
/// `(?s-u:.)*?`.
pub const TOKENS: &str = "BU:2,1 B:00-ff>0 U:3,6 B:61-7a>4 BU:3,5 M:0 B:30-39>7 BU:6,8 M:1";

/// The states of `foo[0-9]+|bar`, as the original compiles it without captures: state 2 is the
/// anchored start, and state 0 begins the prefix `(?s-u:.)*?`. Both alternates, and the union of
/// the repetition, go to the one `Match` state.
pub const FOO_OR_BAR: &str = "\
BU:2,1 B:00-ff>0 BU:3,8 B:66>4 B:6f>5 B:6f>6 B:30-39>7 BU:6,11 B:62>9 B:61>10 B:72>11 M:0";

/// `\b\w+\b`, and after the prefix `foo[0-9]+|bar`, `(?:\b|%)+`, `[a-z]+` with `[0-9]+`,
/// `(?mR)$`, and `1[01]{4}`. A program that shares no code with this one has counted the states.
pub static ROWS: [Row; 6] = [
    Row {
        states: WORD,
        start_anchored: 0,
        counts: [
            (MatchKind::All, Counts { len: 5, least: 4 }),
            (MatchKind::LeftmostFirst, Counts { len: 5, least: 4 }),
        ],
    },
    Row {
        states: FOO_OR_BAR,
        start_anchored: 2,
        counts: [
            (MatchKind::All, Counts { len: 23, least: 23 }),
            (MatchKind::LeftmostFirst, Counts { len: 19, least: 17 }),
        ],
    },
    Row {
        states: "BU:4,1 B:00-ff>0 L:WordAscii>5 B:25>5 BU:2,3 BU:4,6 M:0",
        start_anchored: 4,
        counts: [
            (MatchKind::All, Counts { len: 12, least: 12 }),
            (MatchKind::LeftmostFirst, Counts { len: 9, least: 8 }),
        ],
    },
    Row {
        states: TOKENS,
        start_anchored: 2,
        counts: [
            (MatchKind::All, Counts { len: 17, least: 17 }),
            (MatchKind::LeftmostFirst, Counts { len: 11, least: 9 }),
        ],
    },
    Row {
        states: "BU:2,1 B:00-ff>0 L:EndCRLF>3 M:0",
        start_anchored: 2,
        counts: [
            (MatchKind::All, Counts { len: 10, least: 8 }),
            (MatchKind::LeftmostFirst, Counts { len: 8, least: 6 }),
        ],
    },
    Row {
        states: "BU:2,1 B:00-ff>0 B:31>3 B:30-31>4 B:30-31>5 B:30-31>6 B:30-31>7 M:0",
        start_anchored: 2,
        counts: [
            (MatchKind::All, Counts { len: 72, least: 72 }),
            (MatchKind::LeftmostFirst, Counts { len: 40, least: 13 }),
        ],
    },
];

/// Returns the NFA of these states, which reads forward and whose unanchored start is 0.
pub fn nfa<R: Abort + AllocGlobal>(rt: &R, states: &str, start_anchored: u8) -> NFA
    ensures { result.reverse ≡ false }
{
    let (alloc, matcher) = (rt.alloc(), LookMatcher::new());
    let states = states::states(alloc, states).expect(rt, "states");
    let start = StateID::must(usize::from(start_anchored));
    let nfa = NFA::from_parts(alloc, states, start, StateID::ZERO, false, matcher);
    nfa.expect(rt, "an NFA")
}

/// Returns the DFA of an NFA, which has at most this number of states.
pub fn dfa<'n, R: Abort + AllocGlobal>(
    rt: &R,
    nfa: &'n NFA,
    kind: MatchKind,
    limit: usize,
) -> Dfa<&'n NFA>
    ensures nfa { result.nfa ≡ nfa.now }
    ensures kind { result.kind ≡ kind }
{
    Dfa::build(rt.alloc(), nfa, kind, limit).expect(rt, "few states")
}

/// Returns the smallest DFA that lists the same as another one.
pub fn least<'n, R: Abort + AllocGlobal>(rt: &R, dfa: &Dfa<&'n NFA>) -> Dfa<&'n NFA> {
    dfa.minimize(rt.alloc()).expect(rt, "memory")
}

/// Asserts that a DFA has `len` states, and the smallest one `least`: it is built with this limit
/// and with one more, but not with one less.
fn expect_counts<R: Abort + AllocGlobal>(rt: &R, nfa: &NFA, kind: MatchKind, wanted: Counts) {
    let Counts { len, least } = wanted;
    let fewer = Dfa::build(rt.alloc(), nfa, kind, len.saturating_sub(1));
    same(rt, fewer.err(), Some(DfaError::TooManyStates));
    same(rt, dfa(rt, nfa, kind, len.saturating_add(1)).len(), len);
    let smallest = smallest(rt.alloc(), nfa, kind, len).expect(rt, "few states");
    same(rt, smallest.len(), least);
}

#[test]
fn dense_counts(rt: HostRuntime) {
    for row in &ROWS {
        let nfa = nfa(&rt, row.states, row.start_anchored);
        for &(kind, counts) in &row.counts {
            expect_counts(&rt, &nfa, kind, counts);
        }
    }
}

/// Builds the DFA of a row under a match kind, minimizes it, and asserts both numbers of states.
pub fn build_and_minimize<R: Abort + AllocGlobal, A: Allocator + Copy>(
    rt: &R,
    alloc: A,
    row: &Row,
    kind: MatchKind,
    wanted: Counts,
) -> Result<(), AllocError> {
    let nfa = nfa(rt, row.states, row.start_anchored);
    match Dfa::build(alloc, &nfa, kind, wanted.len) {
        Ok(dfa) => {
            let least = dfa.minimize(alloc)?;
            same(rt, (dfa.len(), least.len()), (wanted.len, wanted.least));
            Ok(())
        }
        Err(error) => {
            same(rt, error, DfaError::OutOfMemory);
            Err(AllocError)
        }
    }
}

/// The states of an NFA, a match kind, a text with the byte after it, and the patterns that match
/// where the text ends, most preferred first.
struct List {
    states: &'static str,
    kind: MatchKind,
    text: &'static [u8],
    look_ahead: Option<u8>,
    patterns: &'static [usize],
}

const THREE: &str = "U:1,2,3 M:2 M:0 M:1";

/// Another program has written down the lists, but that of five patterns.
static LISTS: [List; 6] = [
    List {
        states: "U:1,2,3,4,5 M:4 M:3 M:2 M:1 M:0",
        kind: MatchKind::All,
        text: b"",
        look_ahead: None,
        patterns: &[4, 3, 2, 1, 0],
    },
    List {
        states: THREE,
        kind: MatchKind::All,
        text: b"",
        look_ahead: None,
        patterns: &[2, 0, 1],
    },
    List {
        states: THREE,
        kind: MatchKind::LeftmostFirst,
        text: b"",
        look_ahead: None,
        patterns: &[2],
    },
    List {
        states: TOKENS,
        kind: MatchKind::LeftmostFirst,
        text: b"12",
        look_ahead: Some(b'3'),
        patterns: &[1],
    },
    List {
        states: TOKENS,
        kind: MatchKind::LeftmostFirst,
        text: b"123",
        look_ahead: Some(b' '),
        patterns: &[1],
    },
    List {
        states: TOKENS,
        kind: MatchKind::LeftmostFirst,
        text: b"123 foobar",
        look_ahead: Some(b' '),
        patterns: &[],
    },
];

#[test]
fn dense_patterns(rt: HostRuntime) {
    for list in &LISTS {
        let nfa = nfa(&rt, list.states, 0);
        let dfa = dfa(&rt, &nfa, list.kind, 100);
        let found = dfa.patterns_after(Anchored::Yes, None, list.text, list.look_ahead);
        expect_patterns(&rt, found, list.patterns);
    }
}

/// A DFA has five states, and the smallest one four. The rows have three entries: for word bytes,
/// for other bytes and for EOI. A row takes 12 bytes for these and 24 for its list. One row lists a
/// pattern: that after a word.
#[test]
fn dense_size_and_text(rt: HostRuntime) {
    let nfa = nfa(&rt, WORD, 0);
    let dfa = dfa(&rt, &nfa, MatchKind::All, 5);
    same(&rt, dfa.memory_usage(), 5 * 36 + 4);
    let wanted = "Dfa { match_kind: All, len: 5, alphabet_len: 3, .. }";
    expect_debug(&rt, &dfa, wanted);
    same(&rt, least(&rt, &dfa).memory_usage(), 4 * 36 + 4);
}

/// Builds a DFA of `\b\w+\b` before each allocation would fail, and searches by it in each way.
fn search_without<R: Abort + AllocGlobal, A: Allocator + Copy>(
    rt: &R,
    heap: &FailingAllocator<Global>,
    alloc: A,
) {
    let nfa = nfa(rt, WORD, 0);
    let dfa = Dfa::build(alloc, &nfa, MatchKind::All, 5).expect(rt, "five states");
    let input = Input::new(b"ab c").anchored(Anchored::Yes);
    heap.begin();
    let found = dfa.search(Anchored::Yes, None, b"ab", Some(b' '));
    same(rt, found, ended(2));
    same(rt, dfa.search_input(&input), ended(2));
    same(rt, dfa.is_match(&input), true);
    let patterns = dfa.patterns_after(Anchored::Yes, None, b"ab", Some(b' '));
    expect_patterns(rt, patterns, &[0]);
    heap.end();
}

/// Searches of a whole DFA make no request for memory.
#[test]
fn searches_that_do_not_allocate(rt: HostRuntime) {
    let heap = FailingAllocator::after(rt.alloc(), 0);
    search_without(&rt, &heap, &heap);
    same(&rt, heap.asked(), 0);
}
