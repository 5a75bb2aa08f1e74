//! Classes of bytes.

ghost use Rattle.std.specs.Prelude.{◌≡◌, ◌≤◌, ◌∷◌, IfOk, IfSome, OnOk, Some, [], false, true};
ghost use Rattle.std.specs.List.{list_any};
ghost use Rattle.determinize_below.specs.Semantics.{within};
ghost use Rattle.determinize_pattern.specs.Classes.{HasBytes, is_apart, is_chosen, pairs};
ghost use Rattle.determinize_pattern.specs.Meaning.{is_in};
ghost use Rattle.determinize_pattern.specs.Private.Scanning.{with_range};

use std::alloc::{AllocError, Global};
use std::marker::Model;

/// The bytes from `start` to `end`, both included. If `end` is less than `start`, there is none.
#[derive(Clone, Copy, Debug, PartialEq, Eq)]
pub struct ClassBytesRange {
    pub start: u8,
    pub end: u8,
}

impl ClassBytesRange {
    /// Returns whether the byte is in the range.
    pub fn contains(&self, byte: u8) -> bool
        ensures { result ≡ within self.now.start self.now.end byte }
    {
        self.start <= byte && byte <= self.end
    }
}

/// A set of bytes, as ranges that are sorted and not empty; between two of them there is a byte.
#[derive(Drop)]
pub struct ClassBytes {
    ranges: Vec<ClassBytesRange>,
}

impl Model for ClassBytes {
    ghost use Rattle.std.specs.Prelude.{◌≡◌, ℕ, List, true};
    ghost use Rattle.determinize_pattern.specs.Classes.{is_apart, pairs};

    ghost Value = { List (ℕ × ℕ) };

    ghost view = { λ c. pairs c.ranges.items };

    ghost invariant = { λ c. is_apart 0 (pairs c.ranges.items) ≡ true };
}

impl ClassBytes {
    /// Returns the class of the bytes of the ranges, which may overlap and be in any order.
    pub fn new(alloc: Global, ranges: &[ClassBytesRange]) -> Result<ClassBytes, AllocError>
        ensures { IfOk result (λ c. HasBytes (is_chosen (pairs ranges.now) false) c) }
    {
        collect(alloc, ranges, false)
    }

    /// Returns the class of the bytes that are in none of the ranges.
    pub fn none_of(alloc: Global, ranges: &[ClassBytesRange]) -> Result<ClassBytes, AllocError>
        ensures { IfOk result (λ c. HasBytes (is_chosen (pairs ranges.now) true) c) }
    {
        collect(alloc, ranges, true)
    }

    /// Returns the class of the bytes that are not in this one.
    pub fn negated(&self, alloc: Global) -> Result<ClassBytes, AllocError>
        ensures { IfOk result (λ c. HasBytes (is_chosen self.now true) c) }
    {
        collect(alloc, &self.ranges, true)
    }

    /// Returns the class with these ranges, which are sorted and not empty, with a
    /// byte between any two.
    pub fn from_sorted(alloc: Global, ranges: &[ClassBytesRange]) -> Result<ClassBytes, AllocError>
        requires { is_apart 0 (pairs ranges.now) ≡ true }
        ensures { IfOk result (λ c. c ≡ pairs ranges.now) }
    {
        let ranges = Vec::from_slice(alloc, ranges)?;
        Ok(ClassBytes { ranges })
    }

    /// Returns the byte of a class of one byte.
    pub fn single(&self) -> Option<u8>
        ensures { IfSome result (λ byte. self.now ≡ (byte, byte) ∷ []) }
    {
        match self.ranges.as_slice() {
            [range] if range.start == range.end => Some(range.start),
            _ => None,
        }
    }

    /// Returns whether the byte is in the class.
    pub fn contains(&self, byte: u8) -> bool
        ensures { result ≡ is_in self.now (Some byte) }
    {
        is_in_some(&self.ranges, byte)
    }

    /// Returns the ranges.
    pub fn ranges(&self) -> &[ClassBytesRange]
        ensures { pairs result.now ≡ self.now }
    {
        &self.ranges
    }
}

/// Returns whether the byte is in one of the ranges.
fn is_in_some(ranges: &[ClassBytesRange], byte: u8) -> bool
    ensures { result ≡ list_any (λ r. within r.start r.end byte) ranges.now }
{
    for range in ranges {
        if range.contains(byte) {
            return true;
        }
    }
    false
}

/// Returns the class of the bytes in one of the ranges, or in none if `negated` is set: a scan of
/// all bytes, in which `start` is where the last range begins that has not ended.
fn collect(
    alloc: Global,
    ranges: &[ClassBytesRange],
    negated: bool,
) -> Result<ClassBytes, AllocError>
    ensures { IfOk result (λ c. HasBytes (is_chosen (pairs ranges.now) negated) c) }
{
    let mut found = Vec::new(alloc);
    let mut start = 0;
    for byte in 0..256 {
        if is_in_some(ranges, byte as u8) == negated {
            push_range(&mut found, start, byte)?;
            start = byte + 1;
        }
    }
    push_range(&mut found, start, 256)?;
    Ok(ClassBytes { ranges: found })
}

/// Adds the range from `start` to the byte before `end`, unless it is empty.
fn push_range(ranges: &mut Vec<ClassBytesRange>, start: usize, end: usize) -> Result<(), AllocError>
    requires small { end ≤ 256 }
    ensures { OnOk result
        (pairs ranges.new.items ≡ with_range (pairs ranges.old.items) start end) }
{
    if start < end {
        let (start, end) = (start as u8, (end - 1) as u8);
        ranges.push(ClassBytesRange { start, end })?;
    }
    Ok(())
}
