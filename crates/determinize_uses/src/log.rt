//! The numbers of the lines of a log that have a match.

use determinize_lines::Lines;
use determinize_regex::Regex;
use std::alloc::Global;
use std::io::{self, Read};

/// Returns the numbers of the lines of a log that have a match of a regex.
pub fn numbers<R: Read + Drop>(alloc: Global, regex: &Regex, log: R) -> io::Result<Vec<u64>> {
    let mut lines = Lines::new(alloc, regex, b'\n', 10_000, log)?;
    let mut numbers = Vec::new(alloc);
    for _ in 0..u64::MAX {
        match lines.advance()? {
            Some(line) => numbers.push(line.number)?,
            None => break,
        }
    }
    Ok(numbers)
}
