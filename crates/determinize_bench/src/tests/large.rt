//! Large NFAs: long chains, wide unions and many matches. Each is walked over `ab`. The expected
//! numbers of patterns and NFA states of each state follow from the shape of the NFA.

use crate::tests::texts::expect_text;
use crate::tests::{ended, same, same_at, write_numbers};
use determinize_below::{HalfMatch, MatchKind, NFA};
use determinize_core::determinize::{last_match, walk};
use determinize_core::state::State;
use example_walks::fields::Fields;
use std::process::Abort;

/// The number of states of a chain, and of alternates of a wide union. The union after a chain has
/// this id, and its alternates the next two.
const LINKS: usize = 100000;

/// The number of patterns that match at once. The union of the matches has this id.
const PATTERNS: usize = 50000;

/// Returns the NFA of these states, which starts in the one that `start` names.
fn nfa<R: Abort + AllocGlobal>(rt: &R, states: &str, start: &str) -> NFA {
    let fields = Fields {
        words: Some(start),
        states: Some(states),
    };
    fields.nfa(rt.alloc()).expect(rt, "an NFA")
}

/// Returns a text between two others, this number of times.
pub fn repeated<R: Abort + AllocGlobal>(
    rt: &R,
    before: &str,
    part: &str,
    count: usize,
    after: &str,
) -> String {
    let mut text = String::from_str(rt.alloc(), before).expect(rt, "memory");
    for _ in 0..count {
        text.push_str(part).expect(rt, "memory");
    }
    text.push_str(after).expect(rt, "memory");
    text
}

/// The numbers of patterns and of NFA states of a state.
type Sizes = (usize, usize);

/// Returns the states of a walk over a text.
fn states_of<R: Abort + AllocGlobal>(
    rt: &R,
    kind: MatchKind,
    nfa: &NFA,
    text: &[u8],
) -> Vec<State> {
    let states = walk(rt.alloc(), nfa, kind, nfa.start_anchored(), None, text);
    states.expect(rt, "memory")
}

/// Walks over `ab`, and compares the numbers of patterns and NFA states of each state, and the last
/// match.
fn expect<R: Abort + AllocGlobal>(
    rt: &R,
    kind: MatchKind,
    nfa: &NFA,
    wanted: [Sizes; 4],
    last: Option<HalfMatch>,
) {
    let states = states_of(rt, kind, nfa, b"ab");
    same(rt, (states.len(), last_match(states.as_slice())), (4, last));
    for (index, state) in states.iter().enumerate() {
        let ids = state.iter_nfa_state_ids().collect::<Vec<_>>(rt.alloc());
        let sizes = (state.match_len(), ids.expect(rt, "memory").len());
        same_at(rt, index, Some(&sizes), wanted.get(index));
    }
}

/// Walks over `ab` by the NFA of a chain, each of whose states is written as the id of the next one
/// between two texts, and after it a union of `a`, which continues at the first state, and a match
/// of pattern 0.
fn expect_chain<R: Abort + AllocGlobal>(
    rt: &R,
    before: &str,
    after: &str,
    wanted: [Sizes; 4],
    end: usize,
) {
    let mut states = String::new(rt.alloc());
    write_numbers(rt, &mut states, before, 1, LINKS + 1, after);
    let last = states.push_str("BU:100001,100002 B:61>0 M:0");
    last.expect(rt, "memory");
    let nfa = nfa(rt, states.as_str(), "start=0");
    expect(rt, MatchKind::All, &nfa, wanted, ended(Some(end)));
}

/// The walk follows the whole chain of unions or captures before `a` and after it. Captures are not
/// recorded. Before `a` a line and a word start; after it neither starts, nor does a word end.
/// Before `a` is read, the start of the line is known and that of the word is not.
#[test]
fn chains(rt: HostRuntime) {
    let all = LINKS + 3;
    let wanted = [(0, all), (1, all), (1, 0), (0, 0)];
    expect_chain(&rt, "BU:", ",0 ", wanted, 1);
    let wanted = [(0, 3), (1, 3), (1, 0), (0, 0)];
    expect_chain(&rt, "C:", " ", wanted, 1);
    let wanted = [(0, all), (1, 1), (0, 0), (0, 0)];
    expect_chain(&rt, "L:StartLF>", " ", wanted, 0);
    let wanted = [(0, 1), (1, 1), (0, 0), (0, 0)];
    expect_chain(&rt, "L:WordAscii>", " ", wanted, 0);
}

#[test]
fn wide_union_of_itself(rt: HostRuntime) {
    let wanted = [(0, 1), (0, 0), (0, 0), (0, 0)];
    let states = repeated(&rt, "U:0", ",0", LINKS - 1, "");
    let nfa = nfa(&rt, states.as_str(), "start=0");
    expect(&rt, MatchKind::All, &nfa, wanted, None);
}

/// Returns an NFA with a match of each of many patterns, from 0 on, and then a union of the
/// matches, where it starts.
fn nfa_of_many_patterns<R: Abort + AllocGlobal>(rt: &R) -> NFA {
    let mut states = String::new(rt.alloc());
    write_numbers(rt, &mut states, "M:", 0, PATTERNS, " ");
    states.push_str("U:0").expect(rt, "memory");
    write_numbers(rt, &mut states, ",", 1, PATTERNS, "");
    nfa(rt, states.as_str(), "start=50000")
}

#[test]
fn many_patterns_at_once(rt: HostRuntime) {
    let nfa = nfa_of_many_patterns(&rt);
    for (kind, count) in [(MatchKind::All, PATTERNS), (MatchKind::LeftmostFirst, 1)] {
        let wanted = [(0, PATTERNS + 1), (count, 0), (0, 0), (0, 0)];
        expect(&rt, kind, &nfa, wanted, ended(Some(0)));
    }
}

/// The number of `Fail` states before the `Match` states.
const DEAD_ENDS: usize = 300_000;

/// A match of each of three patterns, of which the second needs more than 16 bits, and the third is
/// the greatest; then a union of the matches, behind the `Fail` states.
const GREAT: &str = "M:0 M:65536 M:2147483646 U:300000,300001,300002";

/// The states that the first state of a walk lists: the union behind the dead ends, and then the
/// three matches.
const GREAT_IDS: &str = "\
[StateID(300003), StateID(300000), StateID(300001), StateID(300002)]";

/// The patterns of the second state.
const GREAT_PATTERNS: &str = "\
Ok(Some([PatternID(0), PatternID(65536), PatternID(2147483646)]))";

/// Compares what two states list.
fn expect_great<R: Abort + AllocGlobal>(rt: &R, states: &[State]) {
    same(rt, states.len(), 2);
    let first = states.first().expect(rt, "a state");
    let second = states.get(1).expect(rt, "a state");
    expect_text(rt, &first.iter_nfa_state_ids(), GREAT_IDS);
    expect_text(rt, &second.match_pattern_ids(), GREAT_PATTERNS);
}

/// A walk lists large state ids and then large pattern ids, in order.
#[test]
fn great_ids(rt: HostRuntime) {
    let states = repeated(&rt, "", "F ", DEAD_ENDS, GREAT);
    let nfa = nfa(&rt, states.as_str(), "start=300003");
    expect_great(&rt, states_of(&rt, MatchKind::All, &nfa, b"").as_slice());
}
