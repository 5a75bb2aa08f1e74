//! Jobs, and the program `rows`.

use crate::tests::alloc_failure::{Trial, fail_each_in_turn};
use crate::tests::runs::words;
use crate::tests::{holds, joined, same, worked, write_numbers};
use determinize_replay::job::Job;
use determinize_replay::verbs;
use example_walks::error::TextError;
use example_walks::examples::{Example, names};
use example_walks::rows::run_rows;
use std::alloc::Allocator;
use std::process::Abort;

/// Runs a job, and compares its output. Returns whether no allocation failed.
pub fn is_output<R: Abort + AllocGlobal, A: Allocator + Copy>(
    rt: &R,
    alloc: A,
    job: &Job<'_>,
    wanted: &str,
) -> bool {
    let mut output = String::new(rt.alloc());
    match verbs::write_output(alloc, job, &mut output) {
        Ok(()) => {
            same(rt, output.as_str(), wanted);
            true
        }
        Err(error) => {
            holds(rt, matches!(error, TextError::OutOfMemory));
            false
        }
    }
}

/// Runs a job while each allocation fails in turn, and compares its output.
fn expect<R: Abort + AllocGlobal>(rt: &R, job: &str, output: &str) {
    let job = Job::read(job).expect(rt, "a job");
    fail_each_in_turn(rt, Trial::Job(&job, output));
}

#[test]
fn walks(rt: HostRuntime) {
    for name in names() {
        let Example { job, output, .. } = Example::of(name);
        expect(&rt, job, output);
    }
}

#[test]
fn single_calls(rt: HostRuntime) {
    let mut count = 0u32;
    for part in worked::CALLS.split("> ") {
        if let Some((job, output)) = part.split_once('\n') {
            expect(&rt, job, output);
            count = count.saturating_add(1);
        }
    }
    same(&rt, count, 80);
}

/// States of up to 30 bytes, which are stored inline, and of more. A state has nine bytes and one
/// for each NFA state, since the ids go up by one.
#[test]
fn states_of_each_length(rt: HostRuntime) {
    let mut ids = String::from_str(rt.alloc(), "0").expect(&rt, "memory");
    let mut bytes = String::from_str(rt.alloc(), "00000000000000000000").expect(&rt, "memory");
    for len in 10usize..=70 {
        let job = joined(&rt, "build fw=0 half=0 ids=", ids.as_str(), "");
        let output = format!(in rt.alloc();
            "{bytes}\nmatch=0 len=0 pids=none usage={len}\nfw=0 half=0 have=- need=-\nids={ids}\n"
        );
        expect(&rt, job.as_str(), output.expect(&rt, "memory").as_str());
        write_numbers(&rt, &mut ids, ",", len - 9, len - 8, "");
        bytes.push_str("02").expect(&rt, "memory");
    }
}

/// Prints a walk by the program `rows`, which after a failed allocation has printed a prefix of it.
/// Returns whether no allocation failed.
pub fn print<R: Abort + AllocGlobal, A: Allocator + Copy>(
    rt: &R,
    alloc: A,
    words: &[String],
    lines: &str,
) -> bool {
    let (mut out, mut err) = (Vec::new(rt.alloc()), Vec::new(rt.alloc()));
    let status = run_rows(alloc, words, &mut out, &mut err);
    let (out, lines) = (out.as_slice(), lines.as_bytes());
    if status == 0 {
        same(rt, (out, err.as_slice()), (lines, b"".as_slice()));
        return true;
    }
    let found = (lines.starts_with(out), status, err.as_slice());
    same(rt, found, (true, 1, b"out of memory\n".as_slice()));
    false
}

#[test]
fn prints_each_walk_or_fails_to_allocate(rt: HostRuntime) {
    for name in names() {
        let words = words(&rt, name);
        fail_each_in_turn(
            &rt,
            Trial::Print(words.as_slice(), Example::of(name).output),
        );
    }
}
