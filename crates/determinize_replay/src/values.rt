//! Reads and writes the values of jobs that no walk has: flags, ids and sets of assertions.

use determinize_below::LookSet;
use example_walks::error::{Part, TextError};
use example_walks::values::{Hex, is_none, look, looks};
use std::alloc::AllocError;
use std::fmt::Display;

/// Returns a flag, `0` or `1`.
pub fn flag(text: &str) -> Result<bool, TextError> {
    match text {
        "0" => Ok(false),
        "1" => Ok(true),
        _ => Err(TextError::Malformed(Part::Flag)),
    }
}

/// Returns a set of assertions.
pub fn look_set(text: &str) -> Result<LookSet, TextError> {
    let mut set = LookSet::empty();
    if !is_none(text) {
        for name in text.split(',') {
            set = set.insert(look(name)?);
        }
    }
    Ok(set)
}

/// Writes bytes as hexadecimal digits, and a line break.
pub fn write_bytes(text: &mut String, bytes: &[u8]) -> Result<(), AllocError> {
    writeln!(text, "{}", Hex(bytes))
}

/// Writes ids joined by commas, or `-` if there is none.
pub fn write_ids<T: Display>(text: &mut String, ids: &[T]) -> Result<(), AllocError> {
    let mut before = "";
    for id in ids {
        write!(text, "{before}{id}")?;
        before = ",";
    }
    if before.is_empty() {
        text.push('-')?;
    }
    Ok(())
}

/// Writes the names of a set of assertions joined by commas, or `-` if it is empty.
pub fn write_looks(text: &mut String, set: LookSet) -> Result<(), AllocError> {
    let mut before = "";
    for (name, look) in looks() {
        if set.contains(*look) {
            write!(text, "{before}{name}")?;
            before = ",";
        }
    }
    if before.is_empty() {
        text.push('-')?;
    }
    Ok(())
}
