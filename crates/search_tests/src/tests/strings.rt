//! Strings of an input: each line is printed before the byte after its string is read.

use crate::tests::same;
use determinize_uses::strings::print_strings;
use std::cell::Cell;
use std::fmt::Display;
use std::io::{self, Print, Read};

/// A text of which each read gives one byte, and how many it has given.
#[derive(Drop)]
struct Slow<'a> {
    text: &'a [u8],
    count: &'a Cell<usize>,
}

impl Read for Slow<'_> {
    fn read(&mut self, buffer: &mut [u8]) -> io::Result<usize> {
        let count = self.count.get();
        let Some(byte) = self.text.get(count) else {
            return Ok(0);
        };
        let Some(first) = buffer.first_mut() else {
            return Ok(0);
        };
        *first = *byte;
        self.count.set(count.saturating_add(1));
        Ok(1)
    }
}

/// How many bytes must have been read when each line is printed.
static ENDS: [usize; 3] = [5, 8, 13];

/// Counts the lines, and those that are printed in time.
#[derive(Drop)]
struct Lines<'a> {
    count: &'a Cell<usize>,
    printed: Cell<usize>,
    in_time: Cell<usize>,
}

impl Print for Lines<'_> {
    fn print<D: Display + Drop>(&self, _: D) -> io::Result<()> {
        Ok(())
    }

    fn println<D: Display + Drop>(&self, _: D) -> io::Result<()> {
        let printed = self.printed.get();
        if ENDS.get(printed) == Some(&self.count.get()) {
            self.in_time.set(self.in_time.get().saturating_add(1));
        }
        self.printed.set(printed.saturating_add(1));
        Ok(())
    }

    fn write_all(&self, _: &[u8]) -> io::Result<()> {
        Ok(())
    }
}

#[test]
fn each_line_at_its_last_byte(rt: HostRuntime) {
    let count = Cell::new(0);
    let mut input = Slow {
        text: b"a \"b\" \"\"\"c d\" \"e",
        count: &count,
    };
    let output = Lines {
        count: &count,
        printed: Cell::new(0),
        in_time: Cell::new(0),
    };
    let is_read = print_strings(rt.alloc(), &mut input, &output).is_ok();
    same(&rt, is_read, true);
    same(&rt, output.printed.get(), ENDS.len());
    same(&rt, output.in_time.get(), ENDS.len());
}
