//! The calls that do not allocate: they succeed while every allocation would fail, and request
//! none.

ghost use Rattle.std.specs.Prelude.{◌≡◌, ◌<◌, [], length};

use crate::tests::alloc_failure::{Heap, Row, rows};
use crate::tests::{holds, same, with_start};
use determinize_below::{
    Anchored, Input, Look, LookSet, MatchKind, PatternID, SparseSet, SparseSets, StateID,
};
use determinize_core::determinize::{epsilon_closure, set_lookbehind_from_start};
use determinize_core::start::{Config, Start};
use determinize_core::state::{State, StateBuilderEmpty, StateBuilderMatches};
use determinize_lazy::Lazy;
use example_walks::walk::walk_over;
use failing_alloc::FailingAllocator;
use std::alloc::{Allocator, Global};
use std::process::Abort;

/// Inserts three ids, and finds each of them. Swaps the set with an empty one, and clears both.
fn fill<R: Abort, A: Allocator>(rt: &R, sparses: &mut SparseSets<A>) {
    for number in [5, 69, 0] {
        let id = StateID::must(number);
        holds(rt, number < sparses.set1.capacity());
        holds(rt, sparses.set1.insert(id));
        holds(rt, number < sparses.set1.capacity());
        holds(rt, sparses.set1.contains(id));
    }
    same(rt, sparses.set1.iter().count(), 3);
    sparses.swap();
    same(rt, (sparses.set1.len(), sparses.set2.len()), (0, 3));
    sparses.clear();
    sparses.set1.clear();
    let are_empty = (sparses.set1.is_empty(), sparses.set2.is_empty());
    same(rt, are_empty, (true, true));
}

/// Sets flags, assertions and the pattern `ZERO` in a builder, converts it to one of NFA states,
/// changes its assertions, and clears it.
fn build_in<R: Abort, A: Allocator>(rt: &R, empty: StateBuilderMatches<A>)
    requires { empty.patterns ≡ [] }
{
    let mut matches = empty;
    matches.set_is_from_word();
    matches.set_is_half_crlf();
    matches.set_look_have(with_start);
    let is_set = matches.look_have().contains(Look::Start);
    let is_added = matches.add_match_pattern_id(PatternID::ZERO).is_ok();
    same(rt, (is_set, is_added), (true, true));
    let mut builder = matches.into_nfa();
    builder.set_look_have(|have| have.remove(Look::Start));
    builder.set_look_need(|need| need.insert(Look::End));
    let is_set = builder.look_have().is_empty() && builder.look_need().contains(Look::End);
    let bytes = [13, 0, 0, 0, 0, 2, 0, 0, 0];
    same(rt, (is_set, builder.as_bytes()), (true, bytes.as_slice()));
    holds(rt, builder.clear().capacity() > 0);
}

/// Returns a builder without patterns.
fn empty<R: Abort, A: Allocator>(rt: &R, alloc: A) -> StateBuilderMatches<A>
    ensures { result.patterns ≡ [] }
{
    let matches = StateBuilderEmpty::new(alloc).into_matches();
    matches.expect(rt, "memory")
}

/// Fills two sets, makes the dead state, and uses two builders, of which one has explicit patterns.
fn make_each<R: Abort, A: Allocator + Copy>(rt: &R, heap: &Heap, alloc: A) {
    let mut sparses = SparseSets::new(alloc, 70).expect(rt, "memory");
    let (matches, mut explicit) = (empty(rt, alloc), empty(rt, alloc));
    let added = explicit.add_match_pattern_id(PatternID::must(1));
    added.expect(rt, "memory");
    heap.begin();
    fill(rt, &mut sparses);
    let dead = State::dead(alloc).expect(rt, "no allocation");
    let capacity = StateBuilderEmpty::new(alloc).capacity();
    same(rt, (dead.as_bytes(), capacity), ([0; 9].as_slice(), 0));
    build_in(rt, matches);
    let builder = explicit.into_nfa();
    let bytes = [3, 0, 0, 0, 0, 0, 0, 0, 0, 1, 0, 0, 0, 1, 0, 0, 0];
    same(rt, builder.as_bytes(), bytes.as_slice());
    heap.end();
}

/// Reads the bytes around a text, and sets the look-behind of the start of the text in a builder.
fn begin_walk<R: Abort, A: Allocator>(rt: &R, heap: &Heap, alloc: A, row: &Row) {
    let mut matches = empty(rt, alloc);
    heap.begin();
    let input = Input::new(row.place.text.as_slice());
    let forward = Config::from_input_forward(&input).get_look_behind();
    let reverse = Config::from_input_reverse(&input).get_look_behind();
    same(rt, (forward, reverse), (None, None));
    set_lookbehind_from_start(&row.nfa, &Start::Text, &mut matches);
    heap.end();
}

/// Computes the closure of each state with a stack of more capacity than any example needs if the
/// state is an epsilon state, and otherwise of no capacity.
fn close_each<R: Abort, A: Allocator + Copy>(rt: &R, heap: &Heap, alloc: A, row: &Row) {
    for number in 0..row.nfa.len() {
        let (id, none) = (StateID::must(number), LookSet::empty());
        let capacity = if row.nfa.state(id).is_epsilon() {
            100
        } else {
            0
        };
        let mut set = SparseSet::new(alloc, row.nfa.len()).expect(rt, "memory");
        let mut stack = Vec::with_capacity(alloc, capacity).expect(rt, "memory");
        heap.begin();
        let closed = epsilon_closure(&row.nfa, id, none, &mut stack, &mut set);
        closed.expect(rt, "no allocation");
        heap.end();
        same(rt, set.as_slice().first().copied(), Some(id));
    }
}

/// Calls all readers of a state, whose bytes say whether it has patterns and which flags.
fn read_state<R: Abort, A: Allocator + Copy>(rt: &R, state: &State<A>) {
    let (bytes, is_match) = (state.as_bytes(), state.is_match());
    let flags = bytes.first().copied().unwrap_or_default();
    same(
        rt,
        (is_match, state.match_len() > 0),
        (flags & 1 != 0, is_match),
    );
    let found = (
        state.is_from_word(),
        state.is_half_crlf(),
        state.memory_usage(),
    );
    same(rt, found, (flags & 4 != 0, flags & 8 != 0, bytes.len()));
    let is_needed = state.look_have().is_empty() || !state.look_need().is_empty();
    same(
        rt,
        (is_needed, state == state, state <= state),
        (true, true, true),
    );
    if state.match_len() > 0 {
        let _ = state.match_pattern(0);
    } else {
        holds(rt, matches!(state.match_pattern_ids(), Ok(None)));
    }
    for _ in state.iter_nfa_state_ids() {}
}

/// Calls all readers of each state of a walk.
fn read_states<R: Abort, A: Allocator + Copy>(rt: &R, heap: &Heap, alloc: A, row: &Row) {
    let states = walk_over(alloc, &row.nfa, row.kind, &row.place).expect(rt, "memory");
    heap.begin();
    for state in &states {
        read_state(rt, state);
    }
    heap.end();
}

/// Searches a text through a cache, also as a haystack.
fn search_each<R: Abort + AllocGlobal, A: Allocator + Copy>(
    rt: &R,
    lazy: &mut Lazy<'_, Global, A>,
    row: &Row,
) {
    let (start, place) = (lazy.nfa().start_anchored(), &row.place);
    let last = lazy.search(start, place.behind, place.text.as_slice(), place.ahead);
    holds(rt, lazy.match_kind() != row.kind || row.is_last(rt, last));
    let input = Input::new(place.text.as_slice()).anchored(Anchored::Yes);
    let found = lazy.search_input(&input).expect(rt, "memory");
    same(rt, lazy.is_match(&input), Ok(found.is_some()));
}

/// Searches three times through one new cache. The first searches cache each transition, and the
/// second find the start states in the cache, so that the third only read it. Then clears it.
fn search_cached<R: Abort + AllocGlobal, A: Allocator + Copy>(
    rt: &R,
    heap: &Heap,
    alloc: A,
    row: &Row,
    kind: MatchKind,
) {
    heap.begin();
    let mut lazy = Lazy::new(alloc, &row.nfa, kind, 100);
    lazy.clear();
    same(rt, (lazy.states_kept(), lazy.computed()), (0, 0));
    heap.end();
    search_each(rt, &mut lazy, row);
    search_each(rt, &mut lazy, row);
    let computed = lazy.computed();
    heap.begin();
    search_each(rt, &mut lazy, row);
    same(rt, (lazy.computed(), computed > 0), (computed, true));
    holds(rt, lazy.states_kept() > 0);
    lazy.clear();
    same(rt, lazy.states_kept(), 0);
    heap.end();
}

/// Makes the calls for a walk that do not allocate.
fn walk<R: Abort + AllocGlobal, A: Allocator + Copy>(rt: &R, heap: &Heap, alloc: A, row: &Row) {
    begin_walk(rt, heap, alloc, row);
    close_each(rt, heap, alloc, row);
    read_states(rt, heap, alloc, row);
    search_cached(rt, heap, alloc, row, MatchKind::All);
    search_cached(rt, heap, alloc, row, MatchKind::LeftmostFirst);
}

#[test]
fn calls_that_do_not_allocate(rt: HostRuntime) {
    let heap = FailingAllocator::after(rt.alloc(), 0);
    make_each(&rt, &heap, &heap);
    for row in rows(&rt).iter() {
        walk(&rt, &heap, &heap, row);
    }
    same(&rt, heap.asked(), 0);
}

/// Makes states of 9 to 70 bytes, each with a clone. Up to 30 bytes nothing is allocated, and from
/// 31 on something is.
fn clone_each<R: Abort, A: Allocator + Copy>(rt: &R, heap: &Heap, alloc: A) {
    let mut builder = empty(rt, alloc).into_nfa();
    for number in 0..62 {
        let asked = heap.asked();
        heap.begin();
        let state = builder.to_state().expect(rt, "memory");
        holds(rt, state.clone().is_ok());
        heap.end();
        same(rt, state.as_bytes().len(), number + 9);
        holds(rt, (heap.asked() == asked) == (number + 9 <= 30));
        let added = builder.add_nfa_state_id(StateID::must(number));
        added.expect(rt, "memory");
    }
}

#[test]
fn short_states(rt: HostRuntime) {
    let heap = FailingAllocator::after(rt.alloc(), u64::MAX);
    clone_each(&rt, &heap, &heap);
}
