//! The last matches of walks, by searches of their texts: by whole DFAs, through caches by class,
//! and, with the usual prefix before their NFAs, as leftmost matches with both ends.

ghost use Rattle.std.specs.Prelude.{◌≡◌, false};
ghost use Rattle.determinize_find.specs.Prefix.{HasPrefix};

use crate::tests::find::first;
use crate::tests::{dense, expect_text, holds, same};
use determinize_below::nfa::State;
use determinize_below::{Anchored, HalfMatch, Input, MatchKind, NFA, StateID, Transition};
use determinize_find::{Regex, has_prefix};
use determinize_lazy::Lazy;
use example_walks::examples::{Example, names};
use example_walks::fields::Fields;
use example_walks::states;
use example_walks::values::LastMatch;
use std::process::Abort;

/// Walks of regex-automata 0.4.18 over NFAs that were made at random: in each line a job, and the
/// last match of its states.
static STORED: &str = "\
walk kind=leftmost-first lb=0d text=7a0d7a5f5f257a0d0d252525 | BU:1,2 B:00-ff>0 L:WordEndAscii>3 M:0 = match 0 7
walk kind=leftmost-first lb=0d text=25256161 | BU:7,1 B:00-ff>0 B:00-ff>3 B:61-7a>4 M:1 L:EndLF>6 M:3 U:2,5 = match 1 3
walk kind=leftmost-first lb=0a text=0d0d | S:0d-0d>1 BU:2,3 C:1 L:StartCRLF>4 L:EndCRLF>5 M:1 = match 1 1
walk kind=leftmost-first lb=0a text=0a0a0a0a after=0d | BU:1,2 B:00-ff>0 L:WordStartHalfUnicode>3 M:95 = match 95 4
walk kind=leftmost-first lb=0a text=0d0a0a | BU:1,2 B:00-ff>0 B:0a-0a>3 L:End>4 M:0 = match 0 3
walk kind=leftmost-first term=25 lb=30 text=61ff306161 | BU:2,1 B:00-ff>0 L:WordEndHalfAscii>3 BU:4,2 M:1 = match 1 1
walk kind=leftmost-first start=2 text=5f0a0a0a | M:1 L:WordAsciiNegate>0 BU:1,3 B:00-ff>2 = match 1 2
walk kind=leftmost-first start=2 lb=30 text=200a0a7a30410a7a0a200d7a | BU:2,1 B:00-ff>0 B:00-ff>3 BU:2,4 M:1 = match 1 12
walk kind=leftmost-first start=1 term=0d text=0d0a0a0a0d0d1a0d0d410d0a | M:228 B:00-ff>0 = match 228 1
walk kind=leftmost-first lb=0a text=0a0a0a0d0d0d0d0d0a0a410d | BU:1,2 B:00-ff>0 B:0a-0a>3 M:0 = match 0 10
walk kind=leftmost-first term=25 lb=0a text=250a | U:8,5 BU:4,6 M:2 B:5f-5f>4 BU:1,2 BU:1,2 C:3 M:1 B:00-2f>7 = match 1 1
walk kind=leftmost-first start=4 term=00 lb=0d text=0d0d | BU:2,2 B:0d-0d>0 M:0 B:00-ff>3 B:0d-0d>0 = match 0 1
walk kind=leftmost-first start=3 term=0d text=0d | B:00-ff>2 M:2147483646 BU:3,0 B:00-ff>1 = match 2147483646 1
walk kind=leftmost-first start=1 text=ffff61617a | M:1355997592 B:00-ff>0 = match 1355997592 1
walk kind=leftmost-first term=00 lb=00 text=0a0d000d | BU:2,1 B:00-ff>0 B:00-ff>3 M:2147483646 = match 2147483646 1
walk kind=leftmost-first start=2 term=5f text=ff0d0a0d30 | M:2 B:30-30>0 BU:1,3 B:00-ff>2 = match 2 5
walk kind=leftmost-first start=2 lb=7a text=250a after=0a | M:0 B:00-ff>0 BU:1,3 B:00-ff>2 = match 0 1
walk kind=leftmost-first start=2 text=0d0a0a0d0d0a0a0a0a0d0a0a | B:00-ff>4 M:2 B:0d-0d>3 B:0a-0a>1 BU:2,0 = match 2 2
walk kind=leftmost-first term=61 lb=0d text=0a000a | BU:2,1 B:00-ff>0 B:0a-0a>3 M:1 = match 1 1
walk kind=leftmost-first lb=25 text=0a | BU:2,1 B:00-ff>0 B:0a-0a>3 M:0 = match 0 1
walk kind=leftmost-first term=00 text=00 | S:00-00>1,5f-5f>1 M:0 B:00-ff>0 BU:2,4 B:00-ff>3 = match 0 1
walk kind=leftmost-first term=00 text=0d0dff | BU:5,1 B:00-ff>0 B:0d-0d>3 BU:2,4 M:1 U:2 = match 1 2
walk kind=leftmost-first start=1 term=0d lb=20 text=2020 | B:0e-20>2 BU:0,3 M:1 B:00-ff>1 = match 1 1
walk kind=leftmost-first start=2 term=ff lb=ff text=3020ff | M:32 L:Start>0 B:7a-ff>1 BU:2,4 B:00-ff>3 = none
walk kind=leftmost-first term=ff lb=0a text=0a | BU:2,1 B:00-ff>0 L:Start>3 B:0a-0a>4 M:2 = none
walk kind=leftmost-first term=00 lb=0a text=0d0a20 | L:StartCRLF>1 S:0a-0a>0 = none
walk kind=leftmost-first start=2 term=0d lb=0d text=0d after=0d | BU:2,1 B:00-ff>0 L:End>3 L:End>4 L:Start>5 M:0 = none
walk kind=leftmost-first start=2 lb=25 text=25 | M:0 L:WordEndAscii>0 BU:1,3 B:00-ff>2 = none
walk kind=leftmost-first start=2 term=78 lb=ff text=ffff | D:ff-ff>1 C:1 C:1 L:EndLF>3 L:StartCRLF>1 M:0 = none
walk kind=leftmost-first text=0d0d0d0d | D:0d-0d>1 C:1 C:1 L:StartLF>4 L:EndLF>1 M:166 = none
walk kind=leftmost-first term=ff lb=41 text=5f415f5f5f5f | BU:1,2 C:2 C:3 L:EndCRLF>4 L:WordAscii>1 M:2147483646 = none
walk start=7 term=0d text=303061 | S:00-ff>5 B:00-ff>7 B:25-25>0 U:4,2,6 L:StartCRLF>5 M:3 L:EndLF>5 BU:3,1 = match 3 3
walk term=ff lb=30 text=0000300000300000300d3030 | BU:1,2 B:00-ff>0 L:End>3 BU:4,2 M:0 = match 0 12
walk start=2 lb=25 text=2525 | BU:2,1 B:00-ff>0 L:WordStartHalfUnicode>3 M:61 = match 61 0
walk start=2 term=0d text=0d0d0d0d0d0d0d0d | BU:2,1 B:00-ff>0 L:StartLF>3 B:0d-0d>4 L:StartLF>5 M:0 = match 0 1
walk term=0d lb=0d text=0a | BU:7,1 B:00-ff>0 L:EndCRLF>3 M:0 B:00-ff>5 BU:6,4 M:2147483646 U:2,4 = match 2147483646 1
walk start=9 term=25 lb=25 text=0d0d | M:0 L:End>0 C:1 D: BU:0,3 M:3 BU:7,5 B:0a-0a>6 U:4,6 BU:8,10 B:00-ff>9 = match 0 2
walk term=25 text=0a610a | BU:1,2 B:00-ff>0 L:WordEndHalfAscii>3 L:StartCRLF>4 L:StartCRLF>5 BU:2,6 M:223 = match 223 3
walk lb=5f text=5f0d | BU:2,1 B:00-ff>0 L:EndLF>3 BU:2,4 M:2 = match 2 2
walk term=0d lb=0d text=610d | BU:1,2 B:00-ff>0 L:Start>3 M:2147483646 = none
walk lb=0a text=5f0a5f5f0a5f0a5f | U:1,3 C:2 S:0a-0a>1,5f-5f>0 L:End>0 = none
walk start=1 lb=0a text=5f5f0a5f25 | M:0 L:WordUnicode>4 L:WordAsciiNegate>2 L:WordAscii>4 F U:2 B:0a-0a>0 = none
";

/// Asserts that searches of the text of a walk have its last match: by a DFA of at most 1000
/// states, and through a cache by class, by a search that computes steps and by one that does not.
fn expect_last<R: Abort + AllocGlobal>(rt: &R, fields: &Fields<'_>, last: &str) {
    let start = fields.start().expect(rt, "a start");
    let kind = fields.match_kind().expect(rt, "a match kind");
    let nfa = fields.nfa_from(rt.alloc(), start).expect(rt, "an NFA");
    let text = fields.text(rt.alloc()).expect(rt, "bytes");
    let behind = fields.look_behind().expect(rt, "a byte");
    let ahead = fields.look_ahead().expect(rt, "a byte");
    let found = dense::dfa(rt, &nfa, kind, 1000).search(Anchored::Yes, behind, &text, ahead);
    expect_text(rt, &LastMatch(found), last);
    let mut lazy = Lazy::new_by_class(rt.alloc(), &nfa, kind, 50);
    for _ in 0..2u32 {
        let start = lazy.nfa().start_anchored();
        let found = lazy.search(start, behind, &text, ahead);
        expect_text(rt, &LastMatch(found.expect(rt, "memory")), last);
    }
}

/// Returns the NFA of a walk for forward scans, with the usual prefix before its start: two states
/// after the others.
fn prefixed<R: Abort + AllocGlobal>(rt: &R, fields: &Fields<'_>) -> NFA
    ensures forward { result.reverse ≡ false }
    ensures prefix { HasPrefix result }
{
    let start = fields.start().expect(rt, "a start");
    let matcher = fields.matcher().expect(rt, "a line terminator");
    let states = states::states(rt.alloc(), fields.states.unwrap_or(""));
    let mut states = states.expect(rt, "states");
    let any = StateID::new(states.len()).expect(rt, "few states");
    let skip = StateID::new(any.as_usize() + 1).expect(rt, "few states");
    let (alt1, alt2) = (start, skip);
    let pushed = states.push(State::BinaryUnion { alt1, alt2 });
    pushed.expect(rt, "memory");
    let trans = Transition {
        start: 0,
        end: 255,
        next: any,
    };
    states.push(State::ByteRange { trans }).expect(rt, "memory");
    let nfa = NFA::from_parts(rt.alloc(), states, start, any, false, matcher);
    let nfa = nfa.expect(rt, "an NFA");
    holds(rt, has_prefix(&nfa));
    nfa
}

/// Returns the text of a walk as a range of a haystack, which has the bytes behind and ahead of it.
fn place<R: Abort + AllocGlobal>(rt: &R, fields: &Fields<'_>) -> (Vec<u8>, usize, usize) {
    let mut haystack = fields.text(rt.alloc()).expect(rt, "bytes");
    let behind = fields.look_behind().expect(rt, "a byte");
    if let Some(byte) = behind {
        haystack.insert(0, byte).expect(rt, "memory");
    }
    let (start, end) = (usize::from(behind.is_some()), haystack.len());
    if let Some(byte) = fields.look_ahead().expect(rt, "a byte") {
        haystack.push(byte).expect(rt, "memory");
    }
    (haystack, start, end)
}

/// Returns the leftmost match that begins with the text of a walk. Asserts that it is the leftmost
/// one anywhere, too.
fn leftmost<R: Abort + AllocGlobal>(rt: &R, fields: &Fields<'_>) -> Option<HalfMatch> {
    let (haystack, start, end) = place(rt, fields);
    assert!(rt; start <= end && end <= haystack.len());
    let input = Input::new(&haystack).range(start..end);
    let regex = Regex::from_nfa(rt.alloc(), prefixed(rt, fields), 50);
    let mut regex = regex.expect(rt, "a reverse");
    let anywhere = first(rt, &mut regex, &input);
    match first(rt, &mut regex, &input.anchored(Anchored::Yes)) {
        Some(found) => {
            same(rt, anywhere, Some(found));
            let size = found.end.saturating_sub(found.start);
            Some(HalfMatch::new(found.pattern, size))
        }
        None => None,
    }
}

/// Compares the last match of a walk with those of searches, the leftmost one if the walk is
/// forward. Under `All` that may be another one, so then only whether there is one.
fn expect_walk<R: Abort + AllocGlobal>(rt: &R, line: &str, last: &str) {
    let (_, fields) = Fields::split(line);
    expect_last(rt, &fields, last);
    if fields.is_reverse().expect(rt, "a direction") {
        return;
    }
    let found = leftmost(rt, &fields);
    if fields.match_kind().expect(rt, "a match kind") == MatchKind::All {
        same(rt, found.is_none(), last == "none");
    } else {
        expect_text(rt, &LastMatch(found), last);
    }
}

/// The last matches of the 45 examples and of the 42 stored walks.
#[test]
fn stored_walks(rt: HostRuntime) {
    for name in names() {
        let example = Example::of(name);
        let last = example.output.lines().last().unwrap_or("");
        expect_walk(&rt, example.job, last);
    }
    for line in STORED.lines() {
        let (job, last) = line.split_once(" = ").unwrap_or((line, ""));
        expect_walk(&rt, job, last);
    }
    same(&rt, (names().len(), STORED.lines().count()), (45, 42));
}
