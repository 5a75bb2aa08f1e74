//! Classes of bytes that share computed steps, with the least and the greatest byte of each, and
//! their runs: the longest ranges of bytes that are of one class.

ghost use Rattle.std.specs.Prelude.{◌≡◌, ◌<◌, ◌≤◌, ℕ, Some, true};
ghost use Rattle.determinize_table.specs.Table.{in_one_class};

use determinize_below::alphabet::ByteClasses;
use std::marker::Model;

/// Classes of bytes, each with its span, the bytes from its least to its greatest, and with its
/// runs, the longest ranges of bytes that are of one class.
#[derive(Drop)]
pub struct ClassSpans {
    classes: ByteClasses,
    /// The greatest byte of each class.
    lasts: [u8; 256],
    /// The last byte of the run that begins with a byte, or 0 if none does.
    runs: [u8; 256],
}

impl Model for ClassSpans {
    ghost use Rattle.determinize_below.specs.ByteClasses.{Classes};
    ghost use Rattle.determinize_table.specs.Spans.{AreSpans};

    ghost Value = { Classes };

    ghost view = { λ s. s.classes };

    ghost invariant = { λ s. AreSpans s.classes s.lasts s.runs };
}

impl ClassSpans {
    /// Returns the classes with their spans and runs.
    pub fn new(classes: ByteClasses) -> ClassSpans
        ensures { result ≡ classes }
    {
        // Only for the proof: the contract of `alphabet_len` says that these are classes.
        let _ = classes.alphabet_len();
        let mut lasts = [0; 256];
        let mut runs = [0; 256];
        let mut first = 0;
        for byte in 0..256usize {
            let class = classes.get(byte as u8);
            if class != classes.get(first as u8) {
                first = byte;
            }
            lasts[usize::from(class)] = byte as u8;
            runs[first] = byte as u8;
        }
        ClassSpans {
            classes,
            lasts,
            runs,
        }
    }

    /// Returns a copy.
    pub fn copied(&self) -> ClassSpans
        ensures { result ≡ self.now }
    {
        // A clone of arrays does not fail.
        let Ok(classes) = self.classes.clone() else {
            unreachable!()
        };
        ClassSpans {
            classes,
            lasts: self.lasts,
            runs: self.runs,
        }
    }

    /// Returns the least byte of the class of a byte.
    #[inline(always)]
    pub(crate) fn start(&self, byte: u8) -> usize
        ensures { (c : ℕ) → in_one_class self.now (Some byte) (Some c) ≡ true → result ≤ c }
    {
        let class = self.classes.get(byte);
        usize::from(self.classes.representatives()[usize::from(class)])
    }

    /// Returns the number after the greatest byte of the class of a byte.
    #[inline(always)]
    pub(crate) fn end(&self, byte: u8) -> usize
        ensures limit { result ≤ 256 }
        ensures after { (c : ℕ) → in_one_class self.now (Some byte) (Some c) ≡ true → c < result }
    {
        usize::from(self.lasts[usize::from(self.classes.get(byte))]) + 1
    }

    /// Returns the number after the last byte of the run that begins with a byte, or after the byte
    /// itself if none does. The clauses let a run end early, which would only take longer.
    #[inline(always)]
    pub(crate) fn run_end(&self, byte: u8) -> usize
        ensures limit { byte < result × result ≤ 256 }
        ensures run { (c : ℕ) → byte ≤ c → c < result
            → in_one_class self.now (Some byte) (Some c) ≡ true }
    {
        usize::from(self.runs[usize::from(byte)].max(byte)) + 1
    }

    /// Returns whether two bytes are of one class.
    #[inline(always)]
    pub(crate) fn are_in_one(&self, byte: u8, other: u8) -> bool
        ensures { result ≡ in_one_class self.now (Some byte) (Some other) }
    {
        self.classes.get(byte) == self.classes.get(other)
    }
}
