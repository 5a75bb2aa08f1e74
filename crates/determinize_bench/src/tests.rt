//! Tests through public calls only: outputs that were worked out by hand, texts of values, failing
//! allocations, large NFAs, and the work of the programs.
//!
//! Each function of a test is proved, which takes longer than its run. So they compare by `same`
//! and `holds`, since the message that a macro writes is proved at each place. What must succeed is
//! taken by `expect`, which ends the test if it fails: a `?` is one more exit of its function, and
//! the drop of all that a function owns is proved at each exit. Only what runs while each
//! allocation fails in turn returns errors, or whether it succeeded, and that owns little.

ghost use Rattle.std.specs.Prelude.{◌≡◌, true};

mod alloc_failure;
mod below;
mod caches;
mod invalid_jobs;
mod large;
mod laws;
mod map_text;
mod parts;
mod rows;
mod runs;
mod starts;
mod texts;
mod worked;

use determinize_below::{HalfMatch, Look, LookSet, PatternID};
use determinize_core::state::StateBuilderNFA;
use determinize_replay::job::Job;
use determinize_replay::records;
use std::fmt::{Debug, Display};
use std::process::Abort;

/// Asserts that two values are equal.
pub fn same<R: Abort, T: PartialEq + Debug + Copy>(rt: &R, found: T, wanted: T) {
    same_at(rt, "", found, wanted);
}

/// Asserts that two values are equal, and prints `place` if they are not.
pub fn same_at<R: Abort, L: Debug + Copy, T: PartialEq + Debug + Copy>(
    rt: &R,
    place: L,
    found: T,
    wanted: T,
) {
    assert_eq!(rt; found, wanted, "{place:?}");
}

/// Asserts a condition.
pub fn holds<R: Abort>(rt: &R, is_so: bool)
    ensures { is_so ≡ true }
{
    assert!(rt; is_so);
}

/// Returns the match of pattern 0 that ends at this offset, if there is one.
pub fn ended(offset: Option<usize>) -> Option<HalfMatch> {
    match offset {
        Some(offset) => Some(HalfMatch::new(PatternID::ZERO, offset)),
        None => None,
    }
}

/// Writes the numbers from one up to another, exclusive, each between two texts.
pub fn write_numbers<R: Abort>(
    rt: &R,
    text: &mut String,
    before: &str,
    first: usize,
    end: usize,
    after: &str,
) {
    for number in first..end {
        write!(text, "{before}{number}{after}").expect(rt, "memory");
    }
}

/// Returns what is before and after the first separator of a text, which is at the end if there is
/// none.
pub fn parts_of<'t>(text: &'t str, separator: &str) -> (&'t str, &'t str) {
    text.split_once(separator).unwrap_or((text, ""))
}

/// Returns the text of a value between two others.
pub fn joined<R: Abort + AllocGlobal, T: Display + Copy>(
    rt: &R,
    before: &str,
    value: T,
    after: &str,
) -> String {
    format!(in rt.alloc(); "{before}{value}{after}").expect(rt, "memory")
}

/// Returns the builder of a job of the verb `build`.
pub fn built<R: Abort + AllocGlobal>(rt: &R, line: &str) -> StateBuilderNFA {
    let job = Job::read(line).expect(rt, "a job");
    records::builder(rt.alloc(), job.fields()).expect(rt, "a record")
}

/// Returns these assertions and `Start`.
pub fn with_start(have: LookSet) -> LookSet {
    have.insert(Look::Start)
}
