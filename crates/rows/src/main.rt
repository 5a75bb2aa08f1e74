//! `rows N` prints the states of an example walk, and its last match.
#![tactic(auto)]

use example_walks::arguments::arguments;
use example_walks::rows::{RowError, report, run_rows};
use std::io;
use std::process::ExitCode;

fn main(rt: HostRuntime) -> ExitCode {
    let mut out = io::writer(&rt);
    let mut err = rt.stderr();
    let status = match arguments(&rt) {
        Ok(words) => run_rows(rt.alloc(), words.as_slice(), &mut out, &mut err),
        Err(error) => report(Err(RowError::of_arguments(&error)), &mut err),
    };
    ExitCode::from(status)
}
