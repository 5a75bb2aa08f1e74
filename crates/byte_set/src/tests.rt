//! Texts of each length up to 200 from each of 64 indexes, compared with loops over their bytes.

ghost use Rattle.std.specs.Prelude.{◌≤◌};

use crate::ByteSet;
use std::process::Abort;

/// The number of bytes of the text.
const LEN: usize = 264;

/// Returns the first index from `from` up to `to` at which a byte has a flag.
fn first(members: &[bool; 256], text: &[u8; LEN], from: usize, to: usize) -> Option<usize>
    requires { to ≤ LEN }
{
    for index in from..to {
        if members[usize::from(text[index])] {
            return Some(index);
        }
    }
    None
}

/// Returns the last such index.
fn last(members: &[bool; 256], text: &[u8; LEN], from: usize, to: usize) -> Option<usize>
    requires { to ≤ LEN }
{
    let mut found = None;
    for index in from..to {
        if members[usize::from(text[index])] {
            found = Some(index);
        }
    }
    found
}

/// Returns the number of such indexes.
fn count(members: &[bool; 256], text: &[u8; LEN], from: usize, to: usize) -> usize
    requires { to ≤ LEN }
{
    let mut count: usize = 0;
    for index in from..to {
        if members[usize::from(text[index])] {
            count = count.saturating_add(1);
        }
    }
    count
}

/// Returns a text with each byte at least once, of which neighbors are far apart.
fn text() -> [u8; LEN] {
    let mut text = [0; LEN];
    for index in 0..LEN {
        text[index] = (index * 89 % 256) as u8;
    }
    text
}

/// Asserts that a set finds what the loops find.
fn compare<R: Abort>(rt: &R, members: &[bool; 256]) {
    let set = ByteSet::new(members);
    let text = text();
    for from in 0..64 {
        for len in 0..=200 {
            let to = from + len;
            assert_eq!(rt; set.find(&text, from, to), first(members, &text, from, to));
            assert_eq!(rt; set.rfind(&text, from, to), last(members, &text, from, to));
            assert_eq!(rt; set.count(&text, from, to), count(members, &text, from, to));
        }
    }
}

/// One byte below 128, one above, a few bytes, every fifth one, all but one, and none.
#[test]
fn each_length(rt: HostRuntime) {
    let mut members = [false; 256];
    compare(&rt, &members);
    members[10] = true;
    compare(&rt, &members);
    members = [false; 256];
    members[200] = true;
    compare(&rt, &members);
    members[34] = true;
    members[92] = true;
    compare(&rt, &members);
    for byte in 0..256 {
        members[byte] = byte % 5 == 0;
    }
    compare(&rt, &members);
    members = [true; 256];
    members[127] = false;
    compare(&rt, &members);
}
