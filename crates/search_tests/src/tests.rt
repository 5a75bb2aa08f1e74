//! Searches whose results were worked out by hand, or are those of another search or program, and
//! graphs written by hand.
//!
//! Each function of a test is proved, which takes longer than its run. So there are few, over
//! tables, and what must succeed is taken by `expect`, which ends the test if it fails: a `?` is
//! one more exit of its function, and the drop of all that a function owns is proved at each exit.
//! Only what runs while allocations fail returns errors, and that owns little.

ghost use Rattle.std.specs.Prelude.{◌≡◌, true};

mod by_class;
mod classes;
mod dense;
mod dfa;
mod draw;
mod find;
mod finders;
mod idle;
mod kept;
mod linear;
mod lines;
mod loops;
mod patterns;
mod pieces;
mod reading;
mod sizes;
mod stored;
mod stored_walks;
mod strings;
mod tokens;
mod trial;
mod uses;
mod which;

use determinize_below::{HalfMatch, Match, PatternID};
use std::alloc::AllocError;
use std::fmt::{Debug, Display};
use std::process::Abort;

/// Asserts that two values are equal.
pub fn same<R: Abort, T: PartialEq + Debug + Copy>(rt: &R, found: T, wanted: T) {
    assert_eq!(rt; found, wanted);
}

/// Asserts a condition.
pub fn holds<R: Abort>(rt: &R, is_so: bool)
    ensures { is_so ≡ true }
{
    assert!(rt; is_so);
}

/// Asserts that a value has this text.
pub fn expect_text<R: Abort + AllocGlobal, T: Display>(rt: &R, value: &T, wanted: &str) {
    let text = format!(in rt.alloc(); "{value}").expect(rt, "memory");
    same(rt, text.as_str(), wanted);
}

/// Asserts that a value has this `Debug` text.
pub fn expect_debug<R: Abort + AllocGlobal, T: Debug>(rt: &R, value: &T, wanted: &str) {
    let text = format!(in rt.alloc(); "{value:?}").expect(rt, "memory");
    same(rt, text.as_str(), wanted);
}

/// Returns the match of pattern 0 that ends at this offset.
pub fn ended(offset: usize) -> Option<HalfMatch> {
    Some(HalfMatch::new(PatternID::ZERO, offset))
}

/// Asserts that a match is of pattern 0 and has this end, or that there is none.
pub fn expect_end<R: Abort>(rt: &R, found: Option<HalfMatch>, end: Option<usize>) {
    let wanted = match end {
        Some(end) => ended(end),
        None => None,
    };
    same(rt, found, wanted);
}

/// Pattern, start and end of a match.
pub type Ends = (usize, usize, usize);

/// Compares matches with their patterns and ends.
pub fn expect_matches<R: Abort>(rt: &R, found: &[Match], wanted: &[Ends]) {
    same(rt, found.len(), wanted.len());
    for index in 0..wanted.len() {
        let found = match found.get(index) {
            Some(m) => Some((m.pattern.as_usize(), m.start, m.end)),
            None => None,
        };
        same(rt, found, wanted.get(index).copied());
    }
}

/// Asserts that a search did not fail, and found matches with these patterns and ends.
pub fn expect_found<R: Abort>(rt: &R, found: Result<Vec<Match>, AllocError>, wanted: &[Ends]) {
    expect_matches(rt, &found.expect(rt, "memory"), wanted);
}

/// Asserts that these patterns match.
pub fn expect_patterns<R: Abort>(rt: &R, found: &[PatternID], wanted: &[usize]) {
    same(rt, found.len(), wanted.len());
    for index in 0..wanted.len() {
        let found = match found.get(index) {
            Some(pattern) => Some(pattern.as_usize()),
            None => None,
        };
        same(rt, found, wanted.get(index).copied());
    }
}
