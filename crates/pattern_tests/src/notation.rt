//! Parses patterns in prefix notation.
//!
//! The words are read from the last one to the first one, with a stack of the patterns to the right
//! of the word: so its parts are on top of the stack, the first of them topmost.

use crate::error::ReplayError;
use determinize_pattern::{ClassBytesRange, ClassUnicodeRange, Pattern};
use example_walks::values;
use std::alloc::Global;

/// Adds the patterns of words that are separated by spaces to a stack: several of a word if it has
/// a number, as in `E*3`. The first pattern is topmost.
pub fn push_patterns(
    alloc: Global,
    words: &str,
    stack: &mut Vec<Pattern>,
) -> Result<(), ReplayError> {
    for word in words.rsplit(' ') {
        let (word, count) = match word.split_once('*') {
            Some((word, count)) => (word, values::number(count)?),
            None => (word, 1),
        };
        for _ in 0..count {
            let pattern = pattern(alloc, stack, word)?;
            stack.push(pattern)?;
        }
    }
    Ok(())
}

/// Returns the pattern of a word, whose parts are taken from the stack.
fn pattern(alloc: Global, stack: &mut Vec<Pattern>, word: &str) -> Result<Pattern, ReplayError> {
    let (kind, value) = word.split_once(':').unwrap_or((word, ""));
    match kind {
        "G" => Ok(Pattern::Capture(part(alloc, stack)?)),
        "R" => repetition(alloc, stack, value),
        "S" => Ok(Pattern::Concat(parts(alloc, stack, value)?)),
        "A" => Ok(Pattern::Alternation(parts(alloc, stack, value)?)),
        _ => leaf(alloc, kind, value),
    }
}

/// Returns the pattern of a word that has no parts.
fn leaf(alloc: Global, kind: &str, value: &str) -> Result<Pattern, ReplayError> {
    match kind {
        "E" => Ok(Pattern::Empty),
        "L" => Ok(Pattern::Literal(values::bytes(alloc, value)?)),
        "C" => class(alloc, value),
        "U" => chars(alloc, value, false),
        "N" => chars(alloc, value, true),
        "K" => Ok(Pattern::Look(values::look(value)?)),
        _ => Err(ReplayError::Malformed("a word of a pattern")),
    }
}

/// Takes the topmost pattern of the stack.
fn pop(stack: &mut Vec<Pattern>) -> Result<Pattern, ReplayError> {
    match stack.pop() {
        Some(pattern) => Ok(pattern),
        None => Err(ReplayError::Malformed("as many patterns as its words need")),
    }
}

/// Takes the topmost pattern of the stack into a box.
fn part(alloc: Global, stack: &mut Vec<Pattern>) -> Result<Box<Pattern>, ReplayError> {
    Ok(Box::new(alloc, pop(stack)?)?)
}

/// Takes this number of patterns from the stack.
fn parts(
    alloc: Global,
    stack: &mut Vec<Pattern>,
    count: &str,
) -> Result<Vec<Pattern>, ReplayError> {
    let (count, mut found) = (values::number(count)?, Vec::new(alloc));
    for _ in 0..count {
        found.push(pop(stack)?)?;
    }
    Ok(found)
}

/// Returns the numbers of a range such as `61-7a`.
fn ends(word: &str) -> Result<(u32, u32), ReplayError> {
    let (start, end) = word.split_once('-').unwrap_or(("", ""));
    match (u32::from_str_radix(start, 16), u32::from_str_radix(end, 16)) {
        (Ok(start), Ok(end)) => Ok((start, end)),
        _ => Err(ReplayError::Malformed("a range of numbers in hexadecimal")),
    }
}

/// Returns the class of ranges such as `30-39,61-7a`.
fn class(alloc: Global, value: &str) -> Result<Pattern, ReplayError> {
    let mut ranges = Vec::new(alloc);
    for word in value.split(',') {
        if !word.is_empty() {
            let (start, end) = ends(word)?;
            let (Ok(start), Ok(end)) = (u8::try_from(start), u8::try_from(end)) else {
                return Err(ReplayError::Malformed("a range of bytes"));
            };
            ranges.push(ClassBytesRange { start, end })?;
        }
    }
    Ok(Pattern::class(alloc, ranges.as_slice())?)
}

/// Returns the pattern of a character in ranges such as `e9-e9,20ac-20ac`, or in none of them if
/// `negated` is set.
fn chars(alloc: Global, value: &str, negated: bool) -> Result<Pattern, ReplayError> {
    let mut ranges = Vec::new(alloc);
    for word in value.split(',') {
        if !word.is_empty() {
            let (start, end) = ends(word)?;
            let (Some(start), Some(end)) = (char::from_u32(start), char::from_u32(end)) else {
                return Err(ReplayError::Malformed("a range of characters"));
            };
            ranges.push(ClassUnicodeRange { start, end })?;
        }
    }
    let pattern = if negated {
        Pattern::none_of_chars(alloc, ranges.as_slice())
    } else {
        Pattern::chars(alloc, ranges.as_slice())
    };
    Ok(pattern?)
}

/// Returns the repetition of the topmost pattern of the stack, with counts such as `1,-,g`.
fn repetition(
    alloc: Global,
    stack: &mut Vec<Pattern>,
    value: &str,
) -> Result<Pattern, ReplayError> {
    let (min, rest) = value.split_once(',').unwrap_or(("", ""));
    let (max, greedy) = match rest.split_once(',') {
        Some((max, "g")) => (max, true),
        Some((max, "l")) => (max, false),
        _ => return Err(ReplayError::Malformed("a greedy or a lazy repetition")),
    };
    Ok(Pattern::Repetition {
        min: count(min)?,
        max: if max == "-" { None } else { Some(count(max)?) },
        greedy,
        sub: part(alloc, stack)?,
    })
}

/// Returns a number of rounds or of levels.
pub fn count(text: &str) -> Result<u32, ReplayError> {
    match u32::try_from(values::number(text)?) {
        Ok(count) => Ok(count),
        Err(_) => Err(ReplayError::Malformed("a number of rounds or of levels")),
    }
}
