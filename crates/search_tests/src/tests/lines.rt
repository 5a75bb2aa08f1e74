//! Lines that have a match: the first of several in memory, and those of a text that is read in
//! parts of a few bytes.

use crate::tests::same;
use determinize_lines::{LineFinder, Lines};
use determinize_regex::Regex;
use std::io::{self, ErrorKind, Read};

/// A pattern, whether several lines are searched at once, lines, and where the first one is that
/// has a match. No line begins after a last line break.
type First = (&'static str, bool, &'static str, Option<(usize, usize)>);

static FIRST: [First; 8] = [
    ("[0-9]+", true, "one\ntwo 2\nthree 3\n", Some((4, 9))),
    ("(?m)^$", true, "a\n\nb", Some((2, 2))),
    ("(?m)^$", true, "a\n", None),
    ("x*", true, "\n", Some((0, 0))),
    ("x*", true, "", None),
    ("^b", false, "a\nb\nb", Some((2, 3))),
    ("e[^x]t", false, "one\ntwo\nest", Some((8, 11))),
    ("^$", false, "a\n", None),
];

/// Compares the first line of each case.
#[test]
fn first_lines(rt: HostRuntime) {
    for &(pattern, is_at_once, lines, wanted) in &FIRST {
        let regex = Regex::new(rt.alloc(), pattern).expect(&rt, "valid");
        let mut finder = LineFinder::new(rt.alloc(), &regex, b'\n', 1000);
        same(&rt, finder.is_at_once(), is_at_once);
        let found = finder.find(lines.as_bytes()).expect(&rt, "memory");
        same(&rt, found.map(|line| (line.start, line.end)), wanted);
    }
}

/// A text that is read three bytes at a time, with an interruption before each.
#[derive(Drop)]
struct Slow<'t> {
    rest: &'t [u8],
    is_interrupted: bool,
}

impl Read for Slow<'_> {
    fn read(&mut self, buf: &mut [u8]) -> io::Result<usize> {
        self.is_interrupted = !self.is_interrupted;
        if self.is_interrupted {
            return Err(io::Error::from(ErrorKind::Interrupted));
        }
        let count = self.rest.len().min(buf.len()).min(3);
        buf[..count].copy_from_slice(&self.rest[..count]);
        self.rest = &self.rest[count..];
        Ok(count)
    }
}

/// A pattern, the byte that ends a line, a text, and the number and the offset of each line of it
/// that has a match.
type Numbered = (&'static str, u8, &'static [u8], &'static [(u64, u64)]);

static NUMBERED: [Numbered; 6] = [
    (
        "[0-9]+",
        b'\n',
        b"one\ntwo 2\n\nthree\n44 four 4",
        &[(2, 4), (5, 17)],
    ),
    ("b$", b'\n', b"ab\r\nab\n", &[(2, 4)]),
    (r"(?mR)b$", b'\n', b"ab\r\nab\n", &[(1, 0), (2, 4)]),
    ("^b", 0, b"a\nb\0b\n", &[(2, 4)]),
    ("x*", b'\n', b"\n\n", &[(1, 0), (2, 1)]),
    ("x*", b'\n', b"", &[]),
];

/// Compares numbers and offsets of the lines of each case.
#[test]
fn numbered_lines(rt: HostRuntime) {
    for &(pattern, terminator, text, wanted) in &NUMBERED {
        let regex = Regex::new(rt.alloc(), pattern).expect(&rt, "valid");
        let input = Slow {
            rest: text,
            is_interrupted: false,
        };
        let lines = Lines::new(rt.alloc(), &regex, terminator, 1000, input);
        let mut lines = lines.expect(&rt, "memory");
        for &(number, offset) in wanted {
            let line = lines.advance().expect(&rt, "read").expect(&rt, "a line");
            same(&rt, (line.number, line.offset), (number, offset));
        }
        assert!(rt; lines.advance().expect(&rt, "read").is_none());
    }
}
