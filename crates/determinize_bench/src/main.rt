//! Replays the jobs of standard input through the public calls of the library, and prints each job
//! whose output differs from the expected one.
#![tactic(auto)]

#[cfg(test)]
mod tests;

use determinize_replay::run;
use example_walks::arguments::arguments;
use example_walks::error::ReplayError;
use std::io;
use std::process::ExitCode;

fn main(rt: HostRuntime) -> ExitCode {
    let mut out = io::writer(&rt);
    let mut err = rt.stderr();
    let status = match arguments(&rt) {
        Ok(words) => {
            let input = rt.reader();
            run::run(rt.alloc(), words.as_slice(), input, &mut out, &mut err)
        }
        Err(error) => run::report(Err(ReplayError::Arguments.because(&error)), &mut err),
    };
    ExitCode::from(status)
}
