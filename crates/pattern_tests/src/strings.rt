//! What a pattern string is read as, in the notation of the rows.

use crate::counts::{Counts, count_if};
use crate::error::ReplayError;
use determinize_pattern::{ClassBytes, Pattern};
use determinize_syntax::parse;
use example_walks::values;
use std::alloc::{AllocError, Global};
use std::io::Write;

/// Judges a row, whose first fields are a text in hexadecimal and the expected result. Writes it if
/// the result differs, or the text of the pattern is read as another one.
pub fn judge<W: Write>(
    alloc: Global,
    row: &str,
    counts: &mut Counts,
    out: &mut W,
) -> Result<(), ReplayError> {
    let mut fields = row.split('\t');
    let (Some(hex), Some(expected), Some(_)) = (fields.next(), fields.next(), fields.next()) else {
        return Err(ReplayError::Malformed("a text, its result and more"));
    };
    let bytes = values::bytes(alloc, hex)?;
    match str::from_utf8(&bytes) {
        Ok(text) => judge_text(alloc, text, expected, counts, out),
        Err(_) => Err(ReplayError::Malformed("a text in UTF-8")),
    }
}

/// Judges the text of a row. A pattern that is written deeper than it was read may exceed the limit
/// of nesting.
fn judge_text<W: Write>(
    alloc: Global,
    text: &str,
    expected: &str,
    counts: &mut Counts,
    out: &mut W,
) -> Result<(), ReplayError> {
    let read = answer(alloc, text)?;
    let again = answer_again(alloc, text)?;
    let is_again = again.as_str() == expected || again.starts_with("error NestLimitExceeded");
    let differs = read.as_str() != expected || !is_again;
    count_if(true, &mut counts.rows);
    count_if(read.starts_with("error"), &mut counts.errors);
    count_if(differs, &mut counts.rows_differ);
    if differs {
        writeln!(out, "{text:?}: {read}, again {again}, and not {expected}")?;
    }
    Ok(())
}

/// Returns what the text is read as.
pub fn answer(alloc: Global, text: &str) -> Result<String, AllocError> {
    let mut out = String::new(alloc);
    match parse(alloc, text) {
        Ok(pattern) => write_tree(&mut out, &pattern),
        Err(error) => {
            let (kind, start, end) = (error.kind, error.start, error.end);
            write!(out, "error {kind:?} {start} {end}")
        }
    }?;
    Ok(out)
}

/// Returns what the text is read as that the pattern of this text is written as, or this text if it
/// is that of no pattern.
pub fn answer_again(alloc: Global, text: &str) -> Result<String, AllocError> {
    let mut written = String::new(alloc);
    match parse(alloc, text) {
        Ok(pattern) => write!(written, "{pattern}"),
        Err(_) => written.push_str(text),
    }?;
    answer(alloc, written.as_str())
}

/// Writes the pattern, with its concatenations and alternations flattened.
#[cycle(tree)]
fn write_tree(out: &mut String, pattern: &Pattern) -> Result<(), AllocError> {
    match pattern {
        Pattern::Empty => out.push_str("empty"),
        Pattern::Class(class) => write_class(out, class),
        Pattern::Look(look) => write!(out, "{look:?}"),
        Pattern::Capture(sub) => {
            out.push_str("(cap ")?;
            write_closed(out, sub)
        }
        Pattern::Repetition {
            min,
            max,
            greedy,
            sub,
        } => {
            write_operator(out, *min, *max, *greedy)?;
            write_closed(out, sub)
        }
        Pattern::Literal(bytes) => {
            out.push_str("(cat")?;
            write_bytes(out, bytes)?;
            out.push(')')
        }
        Pattern::Concat(subs) => write_concat(out, subs),
        Pattern::Alternation(subs) => {
            out.push_str("(alt")?;
            write_branches(out, subs)?;
            out.push(')')
        }
    }
}

/// Writes the pattern in a group, and closes the group.
#[cycle(tree)]
fn write_closed(out: &mut String, sub: &Pattern) -> Result<(), AllocError> {
    write_tree(out, sub)?;
    out.push(')')
}

/// Writes a concatenation, flattened.
#[cycle(tree)]
fn write_concat(out: &mut String, subs: &[Pattern]) -> Result<(), AllocError> {
    match count_all(subs) {
        0 => out.push_str("empty"),
        1 => write_all(out, subs, ""),
        _ => {
            out.push_str("(cat")?;
            write_all(out, subs, " ")?;
            out.push(')')
        }
    }
}

/// Writes the parts of a concatenation, or the parts of a part that is one itself, each after
/// `space`.
#[cycle(tree)]
fn write_all(out: &mut String, subs: &[Pattern], space: &str) -> Result<(), AllocError> {
    for i in 0..subs.len() {
        match &subs[i] {
            Pattern::Empty => {}
            Pattern::Literal(bytes) => write_bytes(out, bytes)?,
            Pattern::Concat(parts) => write_all(out, parts, space)?,
            sub => {
                out.push_str(space)?;
                write_tree(out, sub)?;
            }
        }
    }
    Ok(())
}

/// Writes the branches of an alternation, or those of a branch that is one itself, each after a
/// space.
#[cycle(tree)]
fn write_branches(out: &mut String, subs: &[Pattern]) -> Result<(), AllocError> {
    for i in 0..subs.len() {
        match &subs[i] {
            Pattern::Alternation(branches) => write_branches(out, branches)?,
            sub => {
                out.push(' ')?;
                write_tree(out, sub)?;
            }
        }
    }
    Ok(())
}

/// Returns the number of parts of a concatenation once it is flattened, at most 2.
#[cycle(count)]
fn count_all(subs: &[Pattern]) -> usize {
    let mut count = 0;
    for i in 0..subs.len() {
        let parts = match &subs[i] {
            Pattern::Empty => 0,
            Pattern::Literal(bytes) => bytes.len().min(2),
            Pattern::Concat(parts) => count_all(parts),
            _ => 1,
        };
        count = parts.saturating_add(count).min(2);
    }
    count
}

/// Writes bytes, each after a space.
fn write_bytes(out: &mut String, bytes: &[u8]) -> Result<(), AllocError> {
    for byte in bytes {
        write!(out, " [{byte:02x}]")?;
    }
    Ok(())
}

/// Writes the beginning of a repetition.
fn write_operator(
    out: &mut String,
    min: u32,
    max: Option<u32>,
    greedy: bool,
) -> Result<(), AllocError> {
    out.push_str(if greedy { "(greedy " } else { "(lazy " })?;
    match max {
        None => write!(out, "{min} inf "),
        Some(max) => write!(out, "{min} {max} "),
    }
}

/// Writes the ranges of a class: of each its bytes, or the only one.
fn write_class(out: &mut String, class: &ClassBytes) -> Result<(), AllocError> {
    out.push('[')?;
    let mut space = "";
    for range in class.ranges() {
        let (start, end) = (range.start, range.end);
        if start == end {
            write!(out, "{space}{start:02x}")?;
        } else {
            write!(out, "{space}{start:02x}-{end:02x}")?;
        }
        space = " ";
    }
    out.push(']')
}
