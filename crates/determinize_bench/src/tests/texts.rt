//! The debug texts of states, builders and NFAs.

use crate::tests::caches::nfa;
use crate::tests::{built, joined, parts_of, same};
use determinize_below::StateID;
use determinize_core::state::StateBuilderEmpty;
use determinize_replay::records;
use example_walks::fields::Fields;
use std::fmt::Debug;
use std::process::Abort;

/// Returns the debug text of a value.
pub fn text_of<R: Abort + AllocGlobal, T: Debug>(rt: &R, value: &T) -> String {
    format!(in rt.alloc(); "{value:?}").expect(rt, "memory")
}

/// Compares the debug text of a value.
pub fn expect_text<R: Abort + AllocGlobal, T: Debug>(rt: &R, value: &T, wanted: &str) {
    same(rt, text_of(rt, value).as_str(), wanted);
}

/// The texts of a builder with the flag from-word, patterns and look-have, of one with the flag
/// half-CRLF, and of an empty one.
const BUILDERS: &str = "\
(StateBuilderMatches { is_match: true, is_from_word: true, is_half_crlf: false, \
look_have: LookSet { bits: 1 }, look_need: LookSet { bits: 0 }, \
match_pattern_ids: [PatternID(1), PatternID(0)], nfa_state_ids: [] }, \
StateBuilderMatches { is_match: false, is_from_word: false, is_half_crlf: true, \
look_have: LookSet { bits: 0 }, look_need: LookSet { bits: 0 }, \
match_pattern_ids: [], nfa_state_ids: [] }, \
StateBuilderEmpty { .. })";

#[test]
fn texts_of_builders(rt: HostRuntime) {
    let (_, entered) = Fields::split("build fw=1 half=0 have=Start pids=1,0");
    let entered = records::entered(rt.alloc(), &entered).expect(&rt, "a record");
    let (_, half) = Fields::split("build fw=0 half=1");
    let half = records::entered(rt.alloc(), &half).expect(&rt, "a record");
    let empty = StateBuilderEmpty::new(rt.alloc());
    expect_text(&rt, &(&entered, &half, &empty), BUILDERS);
}

/// Jobs of the verb `build`, each in a line with the text of its builder and state after the type
/// name.
const TEXTS: &str = "\
build fw=1 half=0 have=Start need=End pids=0 ids=1,3 => \
is_match: true, is_from_word: true, is_half_crlf: false, \
look_have: LookSet { bits: 1 }, look_need: LookSet { bits: 2 }, \
match_pattern_ids: [PatternID(0)], nfa_state_ids: [StateID(1), StateID(3)]
build fw=0 half=1 pids=2,0,1 ids=1,3,2 => \
is_match: true, is_from_word: false, is_half_crlf: true, \
look_have: LookSet { bits: 0 }, look_need: LookSet { bits: 0 }, \
match_pattern_ids: [PatternID(2), PatternID(0), PatternID(1)], \
nfa_state_ids: [StateID(1), StateID(3), StateID(2)]
";

/// Compares the debug texts of the builder and of the state of a job.
fn expect_built<R: Abort + AllocGlobal>(rt: &R, job: &str, fields: &str) {
    let builder = built(rt, job);
    let wanted = joined(rt, "StateBuilderNFA { ", fields, " }");
    expect_text(rt, &builder, wanted.as_str());
    let wanted = joined(rt, "State { ", fields, " }");
    expect_text(rt, &builder.into_state(), wanted.as_str());
}

#[test]
fn texts_of_values(rt: HostRuntime) {
    for line in TEXTS.lines() {
        let (job, fields) = parts_of(line, " => ");
        expect_built(&rt, job, fields);
    }
}

#[test]
fn text_of_ids_that_are_left(rt: HostRuntime) {
    let state = built(&rt, "build fw=0 half=0 ids=8,0,300").to_state();
    let state = state.expect(&rt, "memory");
    let mut ids = state.iter_nfa_state_ids();
    expect_text(&rt, &ids, "[StateID(8), StateID(0), StateID(300)]");
    same(&rt, ids.next(), Some(StateID::must(8)));
    expect_text(&rt, &ids, "[StateID(0), StateID(300)]");
}

/// The text of an NFA, one line per state.
const STATES: &str = "\
NFA(
0: sparse(30-39 => 2, 41-5a => 3)
1: union(0, 2)
2: capture => 3
3: match(0)
start_anchored: 0, start_unanchored: 0, reverse: true, line_terminator: 0a
)";

#[test]
fn text_of_an_nfa(rt: HostRuntime) {
    let nfa = nfa(&rt, "S:30-39>2,41-5a>3 BU:0,2 C:3 M:0", "dir=rev");
    expect_text(&rt, &nfa, STATES);
}
