//! Patterns from their texts: all matches, also in pieces, whether there is one, the parts between
//! them, other bytes in their place, which patterns match, which text is in error, how errors are
//! written, and the memory of caches.

use crate::tests::{Ends, expect_found, expect_matches, expect_text, holds, same};
use determinize_regex::{
    Error, ErrorKind, Input, ParseError, PatternID, Regex, RegexConfig, Searcher,
};
use determinize_uses::{patterns, words};
use std::alloc::AllocError;
use std::io;
use std::process::Abort;

/// Returns the regex of these patterns.
pub fn regex_of<R: Abort + AllocGlobal>(rt: &R, patterns: &[&str]) -> Regex {
    let made = Regex::new_many(rt.alloc(), patterns, RegexConfig::new());
    made.expect(rt, "patterns")
}

/// The numbers and names in `In 1984 Ada`.
static FOUND: [Ends; 3] = [(1, 0, 2), (0, 3, 7), (1, 8, 11)];

const TEXT: &[u8] = b"In 1984 Ada";

/// Finds the same matches before and after the caches are cleared and freed, and compares the
/// memory of the caches.
#[test]
fn numbers_and_names(rt: HostRuntime) {
    let mut regex = words::words(rt.alloc()).expect(&rt, "patterns");
    for &is_reset in &[false, true, false] {
        expect_found(&rt, words::find_all(rt.alloc(), &mut regex, TEXT), &FOUND);
        holds(&rt, regex.memory_usage() > 0);
        if is_reset {
            regex.reset();
        } else {
            regex.clear();
        }
        same(&rt, regex.memory_usage(), 0);
    }
}

/// Compares the memory of both caches with that of each: `is_match` fills the one of the DFA that
/// reads forward, `is_full_match` the one of the DFA that reads backward.
#[test]
fn memory_of_each_cache(rt: HostRuntime) {
    let mut regex = words::words(rt.alloc()).expect(&rt, "patterns");
    let input = Input::new(TEXT);
    same(&rt, regex.is_match(&input), Ok(true));
    let forward = regex.memory_usage();
    regex.clear();
    same(&rt, regex.is_full_match(&input), Ok(false));
    let backward = regex.memory_usage();
    holds(&rt, forward > 0 && backward > 0);
    same(&rt, regex.is_match(&input), Ok(true));
    same(&rt, regex.memory_usage(), forward.saturating_add(backward));
}

/// The same matches by a second search, in a linear number of steps, and one after another.
#[test]
fn numbers_and_names_in_turn(rt: HostRuntime) {
    let mut regex = words::words(rt.alloc()).expect(&rt, "patterns");
    let found = words::find_all_apart(rt.alloc(), &regex, TEXT);
    expect_found(&rt, found, &FOUND);
    let found = words::find_all_linear(rt.alloc(), &regex, TEXT);
    expect_found(&rt, found, &FOUND);
    let [first, second] = words::first_two(&mut regex, TEXT).expect(&rt, "memory");
    expect_matches(&rt, first.as_slice(), &FOUND[..1]);
    expect_matches(&rt, second.as_slice(), &FOUND[1..2]);
    let mut searcher = Searcher::new(Input::new(TEXT));
    for wanted in &FOUND {
        let found = regex.next_match(&mut searcher).expect(&rt, "memory");
        expect_matches(&rt, found.as_slice(), &[*wanted]);
    }
    same(&rt, regex.next_match(&mut searcher), Ok(None));
}

/// The routes of a path, before and after the cache is freed: those that match it as a whole, at
/// its end, and anywhere in it.
#[test]
fn routes_of_a_path(rt: HostRuntime) {
    let mut set = patterns::routes(rt.alloc()).expect(&rt, "patterns");
    let wanted = [PatternID::must(1), PatternID::must(2)];
    for _ in 0..2u32 {
        let whole = patterns::routes_of(&mut set, b"/user/12").expect(&rt, "memory");
        same(&rt, whole.as_slice(), &wanted[..1]);
        let ends = set.matches_at_end(&Input::new(b"/user/12"));
        same(
            &rt,
            ends.expect(&rt, "memory").as_slice(),
            wanted.as_slice(),
        );
        let some = set.matches(rt.alloc(), &Input::new(b"/user/x1"));
        let some = some.expect(&rt, "memory");
        same(&rt, some.as_slice(), [true, false, true].as_slice());
        holds(&rt, set.memory_usage() > 0);
        set.reset();
        same(&rt, set.memory_usage(), 0);
    }
}

/// Compares whether a `Regex` of `a|ab` has a match in two texts, and the first match, before and
/// after its caches are cleared, all matches of a text by a `Matcher`, and whether a text is a
/// match as a whole, as Python's `re.fullmatch` says.
#[test]
fn regex_and_matcher(rt: HostRuntime) {
    let mut regex = regex_of(&rt, &["a|ab"]);
    for _ in 0..2u32 {
        let some = Input::new(b"xab");
        same(&rt, regex.is_match(&some), Ok(true));
        same(&rt, regex.is_match(&Input::new(b"xb")), Ok(false));
        let found = regex.find(&some).expect(&rt, "memory");
        expect_matches(&rt, found.as_slice(), &[(0, 1, 2)]);
        regex.clear();
    }
    same(&rt, regex.is_full_match(&Input::new(b"ab")), Ok(true));
    same(&rt, regex.is_full_match(&Input::new(b"abb")), Ok(false));
    let mut matcher = regex.matcher(rt.alloc(), 2);
    same(&rt, matcher.is_match(&Input::new(b"xab")), Ok(true));
    let found = matcher.find_all(rt.alloc(), &Input::new(b"aab"));
    expect_found(&rt, found, &[(0, 0, 1), (0, 1, 2)]);
}

/// A text, its parts between runs of commas and blanks, and the text with `$1` in place of each
/// run, as Python's `re` finds them.
const LIST: &[u8] = b"a, b,,c ";

static PARTS: [&[u8]; 4] = [b"a", b"b", b"c", b""];

const REPLACED: &[u8] = b"a$1b$1c$1";

/// The UTF-8 of `aé`, its parts between the matches of `b*`, and the text with `-` in place of
/// each, as Python's `re` finds them in the string.
const ACCENTED: &[u8] = b"a\xC3\xA9";

static ACCENTED_PARTS: [&[u8]; 4] = [b"", b"a", b"\xC3\xA9", b""];

const DASHED: &[u8] = b"-a-\xC3\xA9-";

/// The bytes between the numbers and names of the text.
static BETWEEN: [&[u8]; 4] = [b"", b" ", b" ", b""];

/// Splits the text at its numbers and names, and replaces these.
#[test]
fn numbers_and_names_are_replaced(rt: HostRuntime) {
    let mut regex = words::words(rt.alloc()).expect(&rt, "patterns");
    let parts = words::parts(rt.alloc(), &mut regex, TEXT).expect(&rt, "memory");
    same(&rt, parts.as_slice(), BETWEEN.as_slice());
    let text = words::masked(rt.alloc(), &mut regex, TEXT).expect(&rt, "memory");
    same(&rt, text.as_slice(), b"A # A".as_slice());
}

/// Splits a text and replaces its separators, and so of a text in UTF-8, but not inside its second
/// character.
#[test]
fn split_and_replace(rt: HostRuntime) {
    let mut regex = regex_of(&rt, &["[ ,]+"]);
    let parts = regex.split(rt.alloc(), LIST).expect(&rt, "memory");
    same(&rt, parts.as_slice(), PARTS.as_slice());
    let text = regex.replace_all(rt.alloc(), LIST, b"$1");
    same(&rt, text.expect(&rt, "memory").as_slice(), REPLACED);
    let mut regex = regex_of(&rt, &["b*"]);
    let parts = regex.split_utf8(rt.alloc(), ACCENTED).expect(&rt, "memory");
    same(&rt, parts.as_slice(), ACCENTED_PARTS.as_slice());
    let text = regex.replace_all_utf8(rt.alloc(), ACCENTED, b"-");
    same(&rt, text.expect(&rt, "memory").as_slice(), DASHED);
}

/// `In 1984 Ada` in two pieces, with those of its numbers and names that are found after each. The
/// year lies in both, and the last name may go on.
static PIECES: [(&[u8], &[Ends]); 2] = [
    (b"In 19", &[(1, 0, 2)]),
    (b"84 Ada", &[(1, 0, 2), (0, 3, 7)]),
];

/// Feeds the pieces. The last name, the byte before it and the one before these are kept.
#[test]
fn in_pieces(rt: HostRuntime) {
    let regex = regex_of(&rt, &["[0-9]+", "[A-Z][a-z]*"]);
    let (mut stream, mut found) = (regex.stream(rt.alloc(), 100), Vec::new(rt.alloc()));
    for &(piece, wanted) in &PIECES {
        stream.feed(piece, &mut found).expect(&rt, "memory");
        expect_matches(&rt, &found, wanted);
    }
    same(&rt, (stream.bytes_read(), stream.bytes_kept()), (11, 5));
    stream.finish(&mut found).expect(&rt, "memory");
    expect_matches(&rt, &found, &FOUND);
}

/// Errors with their texts, and what is written of both.
static MARKED: [(&str, ErrorKind, usize, usize, &str); 5] = [
    (
        "b(",
        ErrorKind::GroupUnclosed,
        1,
        2,
        "b(\n ^\nthe group is not closed, at 1..2",
    ),
    (
        "é(",
        ErrorKind::GroupUnclosed,
        2,
        3,
        "é(\n ^\nthe group is not closed, at 2..3",
    ),
    (
        "*",
        ErrorKind::RepetitionMissing,
        0,
        0,
        "*\n^\nthere is nothing to repeat, at 0..0",
    ),
    (
        "a{",
        ErrorKind::RepetitionCountUnclosed,
        2,
        2,
        "a{\n  ^\nthe braces are not closed, at 2..2",
    ),
    (
        "ab\nc[z-a]",
        ErrorKind::ClassRangeInvalid,
        5,
        8,
        "c[z-a]\n  ^^^\nthe end of the range is below its beginning, at 5..8",
    ),
];

/// Errors are written with their texts, and the second of two patterns is in error.
#[test]
fn errors_are_written(rt: HostRuntime) {
    for &(text, kind, start, end, written) in &MARKED {
        expect_text(
            &rt,
            &ParseError::new(kind, start, end).display(text),
            written,
        );
    }
    let error = ParseError::new(ErrorKind::GroupUnclosed, 1, 2);
    let second = Error::Parse { index: 1, error };
    let written = "pattern 1: the group is not closed, at 1..2";
    expect_text(&rt, &second, written);
    expect_text(&rt, &io::Error::from(second), written);
    let full = io::Error::from(Error::from(AllocError));
    expect_text(&rt, &full, "out of memory");
    let made = Regex::new_many(rt.alloc(), &["a", "b("], RegexConfig::new());
    let place = match made {
        Err(Error::Parse { index, error }) => Some((index, error.start, error.end)),
        _ => None,
    };
    same(&rt, place, Some((1, 1, 2)));
}
