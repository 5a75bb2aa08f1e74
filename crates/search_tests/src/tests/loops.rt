//! Searches that pass bytes that keep a search at its state, forward and backward.

use crate::tests::expect_matches;
use crate::tests::patterns::regex_of;
use determinize_regex::{Input, Regex};
use std::process::Abort;

/// Finds `x`, this many bytes `-` and `y`, behind as many bytes `-` and before others.
fn expect_between<R: Abort + AllocGlobal>(rt: &R, regex: &mut Regex, count: usize) {
    let mut text = Vec::from_elem(rt.alloc(), b'-', 5000).expect(rt, "memory");
    assert!(rt; count < 2400);
    let (start, end) = (count, 2 * count + 1);
    text[start] = b'x';
    text[end] = b'y';
    let found = regex.find(&Input::new(&text)).expect(rt, "memory");
    expect_matches(rt, found.as_slice(), &[(0, start, end + 1)]);
    text[end] = b'x';
    let found = regex.find(&Input::new(&text)).expect(rt, "memory");
    expect_matches(rt, found.as_slice(), &[]);
}

/// Each position of the first byte behind a run, from none to many bytes, and then again from many
/// to none.
#[test]
fn runs_of_each_length(rt: HostRuntime) {
    let mut regex = regex_of(&rt, &["x-*y"]);
    for count in 0..2000 {
        expect_between(&rt, &mut regex, count);
        expect_between(&rt, &mut regex, 2000 - count);
    }
}
