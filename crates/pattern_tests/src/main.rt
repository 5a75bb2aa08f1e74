//! Compiles the patterns of the jobs of standard input, searches their texts, and prints each job
//! whose NFA or matches are not the expected ones. Parses the pattern strings of the rows of
//! standard input, and prints each row that is not read as expected. Then parses strings that it
//! makes itself, and counts those that are not.
#![tactic(auto)]

mod counts;
mod error;
mod generated;
mod head;
mod judge;
mod notation;
mod replay;
mod strings;

use crate::error::ReplayError;
use crate::generated::parse_generated;
use crate::replay::Replay;
use std::alloc::Global;
use std::io::{self, BufRead, BufReader, Read, Write};
use std::process::ExitCode;

/// Judges the jobs and the rows of the input, and the strings that are made here. Writes the
/// counts, and returns whether all agree.
fn run<R: Read + Drop, W: Write>(
    alloc: Global,
    replay: &mut Replay,
    input: R,
    out: &mut W,
) -> Result<bool, ReplayError> {
    let Ok(input) = BufReader::new(alloc, input) else {
        return Err(ReplayError::OutOfMemory);
    };
    for line in input.lines(alloc) {
        match line {
            Ok(line) => replay.take_line(line.as_str(), out)?,
            Err(_) => return Err(ReplayError::Unreadable),
        }
    }
    replay.judge(out)?;
    parse_generated(alloc, &mut replay.counts)?;
    writeln!(out, "{}", replay.counts)?;
    Ok(replay.counts.agree())
}

fn main(rt: HostRuntime) -> ExitCode {
    let mut out = io::writer(&rt);
    let mut replay = Replay::new(rt.alloc());
    match run(rt.alloc(), &mut replay, rt.reader(), &mut out) {
        Ok(agree) => ExitCode::from(if agree { 0 } else { 1 }),
        Err(error) => {
            let line = replay.line;
            let _ = writeln!(rt.stderr(), "line {line}, or the job before it: {error}");
            ExitCode::from(2)
        }
    }
}
