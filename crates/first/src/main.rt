//! Prints each number and each name of a text, with its place and the number of its pattern.
#![tactic(auto)]

use determinize_regex::{Input, Regex, RegexConfig};
use std::io::{self, Print};

const PATTERNS: [&str; 2] = ["[0-9]+", "[A-Z][a-z]*"];

fn main(rt: HostRuntime) -> io::Result<()> {
    let text = b"In 1984 Winston wrote";
    let mut regex = Regex::new_many(rt.alloc(), &PATTERNS, RegexConfig::new())?;
    for found in &regex.find_all(rt.alloc(), &Input::new(text))? {
        let pattern = found.pattern.as_usize();
        println!(rt; "{}..{} pattern {pattern}", found.start, found.end)?;
    }
    Ok(())
}
