//! Runs of each caller, and NFAs of a `Builder`.

use crate::tests::{ended, expect_found, holds, same};
use determinize_below::{
    Anchored, BuildError, Input, Look, LookMatcher, MatchKind, NFA, SparseSet, StateID, Transition,
};
use determinize_core::start::Start;
use determinize_find::{Builder, reversed};
use determinize_lazy::Lazy;
use determinize_uses::{built, cache, input, lexer, nfa, scanner, search, values, walk};
use std::alloc::{AllocError, Allocator};
use std::process::Abort;

/// Compares the ids of a set, in their order.
fn expect_ids<R: Abort>(rt: &R, set: &SparseSet, wanted: &[StateID]) {
    let mut ids = set.iter();
    for id in wanted {
        same(rt, ids.next(), Some(*id));
    }
    same(rt, ids.next(), None);
}

/// The bytes of a state.
static BYTES: [u8; 24] = *b"\x07\0\0\0\0\x40\0\0\0\x02\0\0\0\x01\0\0\0\0\0\0\0\x02\x04\x01";

#[test]
fn small_values(rt: HostRuntime) {
    let set = values::assertions();
    same(&rt, set.contains_word(), true);
    same(&rt, set.contains_anchor_line(), true);
    same(&rt, set.contains_anchor_haystack(), false);
    let ids = values::ids(rt.alloc()).expect(&rt, "memory");
    expect_ids(&rt, &ids, &[StateID::must(3), StateID::must(1)]);
    let state = values::state(rt.alloc()).expect(&rt, "memory");
    same(&rt, state.as_bytes(), BYTES.as_slice());
}

/// The start kinds of ranges of a text, at last of one behind a line terminator.
#[test]
fn start_kinds(rt: HostRuntime) {
    let (mut matcher, text) = (LookMatcher::new(), b"\nabc");
    let kind = values::start_kind(&matcher, &Input::new(text));
    same(&rt, kind, Start::Text);
    let kind = values::start_kind(&matcher, &Input::new(text).range(1..4));
    same(&rt, kind, Start::LineLF);
    let input = Input::new(text).range(2..4);
    same(&rt, values::start_kind(&matcher, &input), Start::WordByte);
    matcher.set_line_terminator(b'a');
    let kind = values::start_kind(&matcher, &input);
    same(&rt, kind, Start::CustomLineTerminator);
}

/// A number in a text, by a search and by a walk, of which the last two states are match states,
/// through a cache for each.
#[test]
fn first_search(rt: HostRuntime) {
    let nfa = built::digits(rt.alloc()).expect(&rt, "an NFA");
    let mut lazy = Lazy::new(rt.alloc(), &nfa, MatchKind::LeftmostFirst, 100);
    same(&rt, lazy.search_input(&Input::new(b"a12")), Ok(ended(3)));
    let mut lazy = Lazy::new(rt.alloc(), &nfa, MatchKind::All, 100);
    let states = lazy.walk(nfa.start_unanchored(), None, b"a12");
    for (index, state) in states.expect(&rt, "memory").iter().enumerate() {
        let patterns = state.match_pattern_ids().expect(&rt, "memory");
        same(&rt, patterns.is_some(), index > 2);
    }
}

/// Returns the transition to `next` on each byte from `start` to `end`.
pub fn over(start: u8, end: u8, next: StateID) -> Transition {
    Transition { start, end, next }
}

/// Adds the states of `(?m)^[a-cx]!$|`, with an empty one before `[a-cx]`, and returns the first.
fn add_lines<A: Allocator + Copy>(builder: &mut Builder<A>) -> Result<StateID, BuildError> {
    let done = builder.add_match()?;
    let end = builder.add_look(done, Look::EndLF)?;
    let mark = builder.add_range(over(b'!', b'!', end))?;
    let letters = builder.add_sparse(&[over(b'a', b'c', mark), over(b'x', b'x', mark)])?;
    let joint = builder.add_empty()?;
    builder.patch(joint, letters)?;
    let start = builder.add_look(joint, Look::StartLF)?;
    let fail = builder.add_fail()?;
    let either = builder.add_union(&[fail, start])?;
    builder.patch(either, done)?;
    Ok(either)
}

/// Returns the NFA of these states, where `;` ends a line, with the usual prefix or without one.
fn lines<A: Allocator + Copy>(alloc: A, has_prefix: bool) -> Result<NFA<A>, BuildError> {
    let mut builder = Builder::new(alloc);
    let mut matcher = LookMatcher::new();
    matcher.set_line_terminator(b';');
    builder.set_look_matcher(matcher);
    match add_lines(&mut builder) {
        Ok(start) if has_prefix => builder.build_with_prefix(start),
        Ok(start) => builder.build(start, start),
        Err(error) => Err(error),
    }
}

/// Two texts, of which only the first has a line, and the ends of their matches.
static LINES: [(&[u8], usize); 2] = [(b"b!;a", 2), (b"b!b", 0)];

/// Builds an NFA with the usual prefix, which has two states, and one without, and searches with
/// both.
pub fn build<R: Abort + AllocGlobal, A: Allocator + Copy>(
    rt: &R,
    alloc: A,
) -> Result<(), AllocError> {
    for &(has_prefix, count) in &[(true, 10), (false, 8)] {
        match lines(alloc, has_prefix) {
            Ok(nfa) => {
                same(rt, (nfa.len(), nfa.pattern_len()), (count, 1));
                let mut lazy = Lazy::new(rt.alloc(), &nfa, MatchKind::LeftmostFirst, 50);
                for &(text, end) in &LINES {
                    same(rt, lazy.search_input(&Input::new(text)), Ok(ended(end)));
                }
            }
            Err(error) => {
                same(rt, error, BuildError::OutOfMemory);
                return Err(AllocError);
            }
        }
    }
    Ok(())
}

/// No prefix is added to an NFA without states, nor to one whose state 0 has a transition to an id
/// that it does not have: those of the two states of the prefix, and the first after them.
#[test]
fn builds_no_bad_prefix(rt: HostRuntime) {
    let none = Builder::new(rt.alloc()).build_with_prefix(StateID::ZERO);
    same(&rt, none.err(), Some(BuildError::UnresolvedStart));
    for id in 1..4u8 {
        let mut builder = Builder::new(rt.alloc());
        let first = builder.add_range(over(0, 255, StateID::must(usize::from(id))));
        let built = builder.build_with_prefix(first.expect(&rt, "memory"));
        same(&rt, built.err(), Some(BuildError::UnresolvedId(0)));
    }
}

/// The closure of the start of `[0-9]+` is that state, and that of the unanchored start has two
/// more. Walks over a text from both.
#[test]
fn numbers_by_walks(rt: HostRuntime) {
    let nfa = nfa::digits(rt.alloc()).expect(&rt, "memory");
    let (first, any) = (nfa.start_anchored(), nfa.start_unanchored());
    let [zero, one, two] = [StateID::ZERO, StateID::must(1), StateID::must(2)];
    let ids = values::closure(rt.alloc(), &nfa, first);
    expect_ids(&rt, &ids.expect(&rt, "memory"), &[two]);
    let ids = values::closure(rt.alloc(), &nfa, any);
    expect_ids(&rt, &ids.expect(&rt, "memory"), &[zero, two, one]);
    let text = b"ab 42 c";
    same(
        &rt,
        walk::preferred(rt.alloc(), &nfa, any, text),
        Ok(ended(5)),
    );
    same(
        &rt,
        walk::preferred(rt.alloc(), &nfa, first, text),
        Ok(None),
    );
}

/// Texts, and the ends of the numbers that they begin with.
static TEXTS: [&[u8]; 4] = [b"42 c", b"ab", b"7", b""];

/// Searches the texts through one cache of each limit, and finds all numbers of another one.
#[test]
fn numbers(rt: HostRuntime) {
    let nfa = nfa::digits(rt.alloc()).expect(&rt, "memory");
    let wanted = [ended(2), None, ended(1), None];
    for &limit in &[0, 2, 100] {
        let found = search::matches(rt.alloc(), &nfa, &TEXTS, limit);
        same(
            &rt,
            found.expect(&rt, "memory").as_slice(),
            wanted.as_slice(),
        );
    }
    let found = scanner::matches(rt.alloc(), &nfa, b"ab 42 c7");
    expect_found(&rt, found, &[(0, 3, 5), (0, 7, 8)]);
}

/// Walks twice through one cache, over a text with a match at its end and over one without. Splits
/// a text into the longest numbers, up to the first byte that begins none.
#[test]
fn longest_numbers(rt: HostRuntime) {
    let nfa = nfa::digits(rt.alloc()).expect(&rt, "memory");
    let mut lazy = Lazy::new(rt.alloc(), &nfa, MatchKind::All, 100);
    let last = cache::at_the_end(&mut lazy, b"42").expect(&rt, "memory");
    holds(&rt, last.expect(&rt, "a state").is_match());
    let last = cache::at_the_end(&mut lazy, b"4x").expect(&rt, "memory");
    holds(&rt, !last.expect(&rt, "a state").is_match());
    let found = lexer::tokens(rt.alloc(), &mut lazy, b"427 c");
    expect_found(&rt, found, &[(0, 0, 3)]);
}

/// A text with a number in its middle, and one without.
static SPANS: [(&[u8], Option<(usize, usize)>); 2] = [(b"ab 42 c", Some((3, 5))), (b"ab", None)];

/// Searches texts for both ends of a number, by a search in either direction, and for whether there
/// is one.
#[test]
fn both_ends_of_numbers(rt: HostRuntime) {
    let nfa = nfa::digits(rt.alloc()).expect(&rt, "memory");
    let reversed = reversed(rt.alloc(), &nfa).expect(&rt, "a reverse");
    let mut forward = Lazy::new(rt.alloc(), &nfa, MatchKind::LeftmostFirst, 100);
    let mut backward = Lazy::new(rt.alloc(), &reversed, MatchKind::All, 100);
    for &(text, wanted) in &SPANS {
        same(
            &rt,
            input::contains(&mut forward, text),
            Ok(wanted.is_some()),
        );
        let (mut found, input) = (None, Input::new(text));
        if let Some(last) = forward.search_input(&input).expect(&rt, "memory") {
            let before = input.range(0..last.offset).anchored(Anchored::Yes);
            let first = backward.search_input(&before).expect(&rt, "memory");
            found = Some((first.expect(&rt, "a start").offset, last.offset));
        }
        same(&rt, found, wanted);
    }
}
