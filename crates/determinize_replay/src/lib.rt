//! Replays jobs: lines of text that describe a call of the library, with the output that is
//! expected of it. The program `determinize_bench` does this work.
//!
//! [`job`] parses a job, [`verbs`] runs it through public calls and writes its output, and
//! [`replay`] compares that with the expected lines. [`run`] is the program `determinize_bench`
//! over any reader and writers.
#![tactic(auto)]

pub mod automata;
pub mod job;
pub mod records;
pub mod replay;
pub mod run;
pub mod values;
pub mod verbs;
