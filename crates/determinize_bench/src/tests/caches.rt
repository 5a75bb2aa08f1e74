//! Walks and searches through one cache: what they find, what is cached, and what is computed.

ghost use Rattle.std.specs.Prelude.{◌≡◌, true};
ghost use Rattle.determinize_engine.specs.Searches.{has_start};

use crate::tests::{ended, holds, parts_of, same, same_at, texts, write_numbers};
use determinize_below::{Anchored, Input, MatchKind, NFA};
use determinize_core::determinize::last_match;
use determinize_core::state::State;
use determinize_lazy::Lazy;
use example_walks::fields::Fields;
use example_walks::values::{bytes, number};
use example_walks::walk::Place;
use std::process::Abort;

/// `\b\w+\b` of ASCII words.
const WORDS: &str = "L:WordAscii>1 S:30-39>2,41-5a>2,5f-5f>2,61-7a>2 BU:1,3 L:WordAscii>4 M:0";

/// Calls through caches, which follow a line with the limit and the NFA of their cache.
///
/// `walk` makes a walk whose last match, of pattern 0, ends at this offset, and `second` are the
/// bytes of its second state. `search` searches a range of a haystack. `counts` has the numbers of
/// computed transitions and of cached states.
const CALLS: &str = "\
# what is kept of walks over a word, also after it is cleared
= cache kind=leftmost-first limit=16 | WORDS
walk text=71756172747a end=6
counts computed=7 kept=3
debug LazyDfa { match_kind: LeftmostFirst, limit: 16, states_kept: 3, computed: 7, .. }
walk text=71756172747a end=6
counts computed=7 kept=3
= cache kind=leftmost-first limit=16 | WORDS
walk text=71756172747a end=6
clear
walk text=71756172747a end=6
counts computed=14 kept=3
# the word without its first byte, which then is the look-behind
= cache kind=leftmost-first limit=16 | WORDS
walk text=756172747a end=5
counts computed=6 kept=3
walk lb=71 text=756172747a end=-
counts computed=12 kept=5
# what small caches keep
= cache kind=leftmost-first limit=2 | WORDS
walk text=71756172747a end=6
counts computed=7 kept=2
walk text=71756172747a end=6
counts computed=14 kept=2
= cache kind=leftmost-first limit=0 | WORDS
walk text=71756172747a end=6
counts computed=7 kept=0
walk text=71756172747a end=6
counts computed=14 kept=0
= cache kind=leftmost-first limit=1 | WORDS
walk lb=71 text=756172747a end=-
counts computed=6 kept=1
walk lb=71 text=756172747a end=-
counts computed=12 kept=1
# the beginning of a word before a word byte, before another byte, and before EOI
= cache kind=leftmost-first limit=16 | WORDS
walk text=71756172 after=74 end=-
walk text=71756172 after=20 end=4
walk text=71756172 end=4
# a boundary of Unicode words, unanchored: an empty text, and one with a byte that is no word byte
= cache limit=16 | BU:2,1 B:00-ff>0 L:WordUnicode>3 M:0
walk text=- end=- second=000000000000000000
walk text=00 end=- second=000040010000010000000401
# in a haystack: a whole word, its first half, its second half, a range that ends before its start
= cache kind=all limit=16 | WORDS
search hay=3d3d2071756172747a203d3d from=3 to=9 end=9
search hay=3d3d2071756172747a203d3d from=3 to=6 end=-
search hay=3d3d2071756172747a203d3d from=6 to=9 end=-
search hay=3d3d2071756172747a203d3d from=4 to=3 end=-
= cache kind=leftmost-first limit=16 | WORDS
search hay=3d3d2071756172747a203d3d from=3 to=9 end=9
search hay=3d3d2071756172747a203d3d from=3 to=6 end=-
search hay=3d3d2071756172747a203d3d from=6 to=9 end=-
search hay=3d3d2071756172747a203d3d from=4 to=3 end=-
# a range that ends before its start, and an empty one
= cache limit=16 | M:0
search hay=3d3d2071756172747a203d3d from=4 to=3 end=-
counts computed=0 kept=0
search hay=3d3d2071756172747a203d3d from=4 to=4 end=4
counts computed=1 kept=2
= cache dir=rev limit=16 | M:0
search hay=3d3d2071756172747a203d3d from=4 to=3 end=-
counts computed=0 kept=0
search hay=3d3d2071756172747a203d3d from=4 to=4 end=4
counts computed=1 kept=2
";

/// Returns the NFA of these states, which starts in the first one, for a direction.
pub fn nfa<R: Abort + AllocGlobal>(rt: &R, states: &str, direction: &str) -> NFA {
    let fields = Fields {
        words: Some(direction),
        states: Some(states),
    };
    fields.nfa(rt.alloc()).expect(rt, "an NFA")
}

/// Returns the number of a key, or `None` for `-`.
fn number_of<R: Abort>(rt: &R, fields: &Fields<'_>, key: &str) -> Option<usize> {
    match fields.value_or_none(key) {
        "-" => None,
        text => Some(number(text).expect(rt, "a number")),
    }
}

/// Makes a walk through a cache, and compares the end of its last match and, if they are known, the
/// bytes of its second state.
fn walk<R: Abort + AllocGlobal>(rt: &R, lazy: &mut Lazy<'_>, call: &Fields<'_>) {
    let (start, wanted) = (lazy.nfa().start_anchored(), number_of(rt, call, "end"));
    let place = Place::of(rt.alloc(), call).expect(rt, "a place");
    let states = lazy.walk_between(start, place.behind, place.text.as_slice(), place.ahead);
    let states = states.expect(rt, "memory");
    same_at(rt, call.words, last_match(states.as_slice()), ended(wanted));
    if let Some(text) = call.value("second") {
        let wanted = bytes(rt.alloc(), text).expect(rt, "bytes");
        let second = states.get(1).expect(rt, "two states");
        same(rt, second.as_bytes(), wanted.as_slice());
    }
}

/// Searches an input for a match of pattern 0 that ends here, and tests whether it has a match.
fn search<R: Abort>(rt: &R, lazy: &mut Lazy<'_>, input: &Input<'_>, wanted: Option<usize>)
    requires { has_start input.now.anchored ≡ true }
{
    let found = (lazy.search_input(input), lazy.is_match(input));
    same_at(
        rt,
        input.start(),
        found,
        (Ok(ended(wanted)), Ok(wanted.is_some())),
    );
}

/// Searches a range of a haystack.
fn search_range<R: Abort + AllocGlobal>(rt: &R, lazy: &mut Lazy<'_>, call: &Fields<'_>) {
    let haystack = bytes(rt.alloc(), call.value_or_none("hay")).expect(rt, "bytes");
    let start = number_of(rt, call, "from").unwrap_or(0);
    let end = number_of(rt, call, "to").unwrap_or(0);
    holds(rt, end <= haystack.len());
    holds(rt, start <= end + 1);
    let input = Input::new(haystack.as_slice()).range(start..end);
    same(rt, input.is_done(), start > end);
    search(rt, lazy, &input, number_of(rt, call, "end"));
}

/// Compares the numbers of computed transitions and of cached states.
fn counts<R: Abort>(rt: &R, lazy: &Lazy<'_>, computed: usize, kept: usize) {
    let found = (usize::try_from(lazy.computed()).ok(), lazy.states_kept());
    same_at(rt, lazy.limit(), found, (Some(computed), kept));
}

/// Makes a call through a cache.
fn make<R: Abort + AllocGlobal>(rt: &R, lazy: &mut Lazy<'_>, line: &str) {
    let (verb, call) = Fields::split(line);
    match verb {
        "walk" => walk(rt, lazy, &call),
        "search" => search_range(rt, lazy, &call),
        "counts" => {
            let computed = number_of(rt, &call, "computed").unwrap_or(0);
            counts(
                rt,
                lazy,
                computed,
                number_of(rt, &call, "kept").unwrap_or(0),
            );
        }
        "clear" => lazy.clear(),
        "debug" => texts::expect_text(rt, lazy, parts_of(line, " ").1),
        _ => holds(rt, verb == "#"),
    }
}

/// Makes the calls of these lines, of which the first describes the cache.
fn make_each<R: Abort + AllocGlobal>(rt: &R, head: &str, lines: &str) {
    let (_, given) = Fields::split(head);
    let mut fields = given;
    if fields.states == Some("WORDS") {
        fields.states = Some(WORDS);
    }
    let nfa = fields.nfa(rt.alloc()).expect(rt, "an NFA");
    let kind = fields.match_kind().expect(rt, "a match kind");
    let limit = number_of(rt, &fields, "limit").unwrap_or(0);
    let mut lazy = Lazy::new(rt.alloc(), &nfa, kind, limit);
    same(rt, (lazy.limit(), lazy.memory_usage()), (limit, 0));
    for line in lines.lines() {
        make(rt, &mut lazy, line);
    }
}

#[test]
fn calls(rt: HostRuntime) {
    for part in CALLS.split("= ").skip(1) {
        let (head, lines) = parts_of(part, "\n");
        make_each(&rt, head, lines);
    }
}

/// Searches in reverse for letters that begin after a byte ff which is in the range, and before it,
/// and for letters that end after the last letter, and before the byte ff in front of it.
#[test]
fn ranges_backward(rt: HostRuntime) {
    let nfa = nfa(&rt, "BU:1,2 B:61>0 B:ff>3 M:0", "dir=rev");
    let mut lazy = Lazy::new(rt.alloc(), &nfa, MatchKind::All, 16);
    let mut input = Input::new(b"\xff\xffaa\xffa")
        .range(1..4)
        .anchored(Anchored::Yes);
    search(&rt, &mut lazy, &input, Some(1));
    input.set_start(2);
    search(&rt, &mut lazy, &input, None);
    input.set_range(1..6);
    search(&rt, &mut lazy, &input, Some(4));
    input.set_end(4);
    search(&rt, &mut lazy, &input, Some(1));
}

/// Searches a haystack that is one word, for which three transitions and states are enough. The
/// match ends at the end of the word or, in reverse, at its start.
fn expect_word<R: Abort + AllocGlobal>(rt: &R, kind: MatchKind, direction: &str, len: usize) {
    let word = vec![in rt.alloc(); b'a'; len].expect(rt, "memory");
    let nfa = nfa(rt, WORDS, direction);
    let mut lazy = Lazy::new(rt.alloc(), &nfa, kind, 16);
    let end = if nfa.is_reverse() { 0 } else { len };
    search(rt, &mut lazy, &Input::new(word.as_slice()), Some(end));
    counts(rt, &lazy, 3, 3);
    let start = lazy.nfa().start_anchored();
    let found = lazy.search(start, None, word.as_slice(), None);
    same(rt, found, Ok(ended(Some(len))));
}

#[test]
fn long_haystacks_forward(rt: HostRuntime) {
    expect_word(&rt, MatchKind::LeftmostFirst, "dir=fwd", 10_000_000);
    expect_word(&rt, MatchKind::All, "dir=fwd", 1_000_000);
}

#[test]
fn long_haystacks_backward(rt: HostRuntime) {
    expect_word(&rt, MatchKind::All, "dir=rev", 10_000_000);
    expect_word(&rt, MatchKind::LeftmostFirst, "dir=rev", 1_000_000);
}

/// The bytes that a cached state uses: a row of 258 numbers, the state in the list and as a key,
/// and the index of the key.
const STATE: usize = 258 * 4 + 32 + 32 + 8;

/// Returns the index of the first of these states that is equal to this one, or their number if
/// none is.
fn index_of(states: &[State], state: &State) -> usize {
    for (index, other) in states.iter().enumerate() {
        if other == state {
            return index;
        }
    }
    states.len()
}

/// Returns the heap bytes of the states of a walk in a cache that has them all: those of a state of
/// more than 30 bytes, once in the list and once as a key.
fn heap_bytes(states: &[State]) -> usize {
    let mut bytes = 0usize;
    for (index, state) in states.iter().enumerate() {
        let len = state.as_bytes().len();
        if len > 30 && index_of(states, state) == index {
            bytes = bytes.saturating_add(len.saturating_mul(2));
        }
    }
    bytes
}

/// Walks over a text through a new cache, and compares the numbers of transitions computed and of
/// states cached, and its memory with that after it is cleared: that of the sets and the builder.
fn expect_memory<R: Abort + AllocGlobal>(
    rt: &R,
    states: &str,
    text: &[u8],
    computed: usize,
    kept: usize,
) {
    let nfa = nfa(rt, states, "dir=fwd");
    let mut lazy = Lazy::new(rt.alloc(), &nfa, MatchKind::All, 2_100);
    let states = lazy.walk(nfa.start_anchored(), None, text);
    let states = states.expect(rt, "memory");
    counts(rt, &lazy, computed, kept);
    let used = lazy.memory_usage();
    lazy.clear();
    let (left, cached) = (lazy.memory_usage(), kept.saturating_mul(STATE));
    let taken = cached.saturating_add(heap_bytes(states.as_slice()));
    same(rt, used, left.saturating_add(taken));
    same(rt, (left > 0, left < 600), (true, true));
}

/// Returns the `count` states of `[01]*1[01]{n}`, where `n` is `count` minus 4. A match ends after
/// each byte that is `n` bytes after a `1`.
fn far_from_the_end<R: Abort + AllocGlobal>(rt: &R, count: usize) -> String {
    let states = String::from_str(rt.alloc(), "BU:1,2 B:30-31>0 B:31>3");
    let mut states = states.expect(rt, "memory");
    write_numbers(rt, &mut states, " B:30-31>", 4, count, "");
    states.push_str(" M:0").expect(rt, "memory");
    states
}

#[test]
fn memory_of_caches(rt: HostRuntime) {
    expect_memory(&rt, WORDS, b"quartz", 7, 3);
    // After `n` bytes `1`, for `n` up to 29, a state has `n` NFA states in addition to the three of
    // the loop. After 30 it also has a match, and then it stays the same.
    let states = far_from_the_end(&rt, 32);
    expect_memory(&rt, states.as_str(), &[b'1'; 40], 32, 32);
}

/// The text has the numbers below 1024 in ten binary digits each. The states of its walk differ in
/// which of the last eleven bytes are `1`. After eleven `0`, the text has 2045 such pieces, joined
/// by 3065 bytes, and then EOI.
#[test]
fn many_states(rt: HostRuntime) {
    let mut text = String::new(rt.alloc());
    for number in 0..1024u32 {
        write!(text, "{number:010b}").expect(&rt, "memory");
    }
    let (states, text) = (far_from_the_end(&rt, 13), text.as_str().as_bytes());
    expect_memory(&rt, states.as_str(), text, 3_066, 2_046);
}
