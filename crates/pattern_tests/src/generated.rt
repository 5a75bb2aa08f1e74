//! Pattern strings that are made here: random ones, and long ones of a megabyte.

use crate::counts::{Counts, count_if};
use crate::strings::{answer, answer_again};
use determinize_syntax::parse;
use std::alloc::{AllocError, Global};

/// The characters of random texts. Most of them have a meaning in a pattern.
const CHARACTERS: &str = "aab019-,^$.*+?|()()()[]{}\\:<>=!PimsRUxuwdbn&~ é";

/// How many random texts are parsed.
const RANDOM: u32 = 100_000;

/// The length of what is repeated in a long text, at most, in bytes.
const LONG: usize = 1_000_000;

/// A long text: its beginning, what is repeated after it, and what it is read as. Where that is
/// empty, the text is a pattern.
type Long = (&'static str, &'static str, &'static str);

/// Of each kind of item of a pattern one that is repeated without end, and of errors some that come
/// early in a text, and some that come at its end. Only [`long_texts`] names this table: a proof
/// reads the whole table at each mention.
static LONG_TEXTS: [Long; 17] = [
    ("", "a", ""),
    ("", "é", ""),
    ("", "a|", ""),
    ("", "(a)", ""),
    ("", "(?:a|b)", ""),
    ("", "a*?", ""),
    ("", "a{2,3}", ""),
    ("", "[^a-z]", ""),
    ("", "\\d\\n", ""),
    ("", "^$\\b", ""),
    ("", "(?i-s)", ""),
    ("[", "a-z", "error ClassUnclosed 0 1"),
    ("", ")", "error GroupUnopened 0 1"),
    ("", "*", "error RepetitionMissing 0 0"),
    ("", "(", "error NestLimitExceeded 250 251"),
    ("a", "*", "error NestLimitExceeded 251 252"),
    ("(", "a", "error GroupUnclosed 0 1"),
];

/// Returns the long texts.
fn long_texts() -> &'static [Long] {
    LONG_TEXTS.as_slice()
}

/// Returns the next number of a generator with a fixed beginning, below `limit`.
fn draw(state: &mut u64, limit: u64) -> u64 {
    *state = state
        .wrapping_mul(6_364_136_223_846_793_005)
        .wrapping_add(1_442_695_040_888_963_407);
    (*state >> 33) % limit.max(1)
}

/// Replaces a text by a random one of at most 40 characters.
fn make_random(state: &mut u64, text: &mut String) -> Result<(), AllocError> {
    text.clear();
    let count = CHARACTERS.chars().count() as u64;
    for _ in 0..draw(state, 41) {
        let index = draw(state, count) as usize;
        if let Some(character) = CHARACTERS.chars().nth(index) {
            text.push(character)?;
        }
    }
    Ok(())
}

/// Parses random texts. If one is a pattern, then the text that `Display` writes of it must be read
/// as the same pattern.
fn parse_random(alloc: Global, text: &mut String, counts: &mut Counts) -> Result<(), AllocError> {
    let mut state = 1;
    for _ in 0..RANDOM {
        make_random(&mut state, text)?;
        let read = answer(alloc, text.as_str())?;
        let again = answer_again(alloc, text.as_str())?;
        count_if(true, &mut counts.random);
        count_if(read != again, &mut counts.made_differ);
    }
    Ok(())
}

/// Parses a text, and counts it as a long one, which is read as expected, or is a pattern if that
/// is empty.
fn count_long(
    alloc: Global,
    text: &str,
    expected: &str,
    counts: &mut Counts,
) -> Result<(), AllocError> {
    let is_read = if expected.is_empty() {
        parse(alloc, text).is_ok()
    } else {
        answer(alloc, text)?.as_str() == expected
    };
    count_if(true, &mut counts.long);
    count_if(!is_read, &mut counts.made_differ);
    Ok(())
}

/// Parses the long texts: the beginning of each, and then what is repeated, up to a megabyte.
fn parse_long(alloc: Global, text: &mut String, counts: &mut Counts) -> Result<(), AllocError> {
    for (first, repeated, expected) in long_texts() {
        text.clear();
        text.push_str(first)?;
        for _ in 0..LONG / repeated.len().max(1) {
            text.push_str(repeated)?;
        }
        count_long(alloc, text.as_str(), expected, counts)?;
    }
    Ok(())
}

/// Parses brackets of characters that are all different, no two of them neighbours, of a megabyte.
fn parse_brackets(alloc: Global, text: &mut String, counts: &mut Counts) -> Result<(), AllocError> {
    text.clear();
    text.push_str("(?u)[")?;
    for i in 0..LONG as u32 / 4 {
        if let Some(character) = char::from_u32(0x1_0000 + 2 * i) {
            text.push(character)?;
        }
    }
    text.push(']')?;
    count_long(alloc, text.as_str(), "", counts)
}

/// Parses all texts that are made here, and counts them.
pub fn parse_generated(alloc: Global, counts: &mut Counts) -> Result<(), AllocError> {
    let mut text = String::new(alloc);
    parse_random(alloc, &mut text, counts)?;
    parse_long(alloc, &mut text, counts)?;
    parse_brackets(alloc, &mut text, counts)
}
