//! Sets of bytes, and the first, the last and the number of members in a part of a text, found by
//! vectors: 64 bytes at a time, and then 16.
//!
//! A set is 32 bytes, in two tables of 16. A byte is looked up by its low half, and the bit of its
//! high half says whether it is a member. `lanes` looks up many bytes at once. If there is only one
//! member, bytes are compared with it.
#![tactic(auto)]

ghost use Rattle.std.specs.Prelude.{◌≡◌, ℕ, ◌+◌, ◌-◌, ◌*◌, ◌%◌, ◌<◌, ◌≤◌, Bool, Decides, List, length, replicate, true, slice_index};
ghost use Rattle.std.specs.List.{count_by, slice_range};
ghost use Rattle.std.specs.Option.{IfSome};
ghost use Rattle.byte_set.specs.Sets.{HasNone, IsFirst, IsLast, IsOnly, is_member};
ghost use Rattle.byte_set.specs.Tables.{bits_of, passes, same_bits, set_of};

mod lanes;
mod tables;
#[cfg(test)]
mod tests;

use lanes::{FEW, FEWER, LookUp, MANY, One, Tables};
use std::marker::Model;
use std::simd::prelude::*;

/// A set of bytes.
#[derive(Drop)]
pub struct ByteSet {
    /// The table of the bytes below 128: bit `h` of entry `l` says whether `16 * h + l` is a
    /// member.
    low: [u8; 16],
    /// The table of the other bytes: bit `h` of entry `l` says the same of `128 + 16 * h + l`.
    high: [u8; 16],
    /// The member, if there is only one.
    only: Option<u8>,
}

impl Model for ByteSet {
    ghost Value = { List Bool };

    ghost view = { λ s. set_of s.low s.high };

    ghost invariant = { λ s. IfSome s.only (IsOnly (set_of s.low s.high)) };
}

impl ByteSet {
    /// Returns the set of the bytes that have a flag.
    pub fn new(members: &[bool; 256]) -> ByteSet
        ensures { result ≡ members.now }
    {
        ByteSet {
            low: tables::table(members, 0),
            high: tables::table(members, 128),
            only: tables::only_member(members),
        }
    }

    /// Returns the set of all bytes.
    pub fn all() -> ByteSet
        ensures { result ≡ replicate 256 true }
    {
        ByteSet {
            low: [255; 16],
            high: [255; 16],
            only: None,
        }
    }

    /// Returns whether a byte is a member.
    #[inline]
    pub fn contains(&self, byte: u8) -> bool
        ensures { result ≡ is_member self.now byte }
    {
        let index = usize::from(byte % 16);
        let entry = if byte < 128 {
            self.low[index]
        } else {
            self.high[index]
        };
        entry & (1 << (byte / 16 % 8)) != 0
    }

    /// Returns whether none of the sixteen bytes from `from` on is a member.
    #[inline(always)]
    pub fn has_none(&self, text: &[u8], from: usize) -> bool
        requires { from + 16 ≤ length text.now }
        ensures { Decides result (HasNone (is_member self.now) text.now from (from + 16)) }
    {
        lanes::run_of_few(&self.tables(), text, from) == FEW
    }

    /// Returns the first index from `from` up to `to` at which the text has a member.
    #[inline]
    pub fn find(&self, text: &[u8], from: usize, to: usize) -> Option<usize>
        requires ordered { from ≤ to }
        requires within { to ≤ length text.now }
        ensures { IsFirst (is_member self.now) text.now from to result }
    {
        if to - from < FEWER {
            return self.first_by_bytes(text, from, to);
        }
        if to - from < FEW {
            return first_of_fewer(&self.tables(), text, from, to);
        }
        match self.only {
            Some(byte) => first_of_one(byte, text, from, to),
            None => first_by_vectors(&self.tables(), text, from, to),
        }
    }

    /// Returns the last index from `from` up to `to` at which the text has a member.
    #[inline]
    pub fn rfind(&self, text: &[u8], from: usize, to: usize) -> Option<usize>
        requires ordered { from ≤ to }
        requires within { to ≤ length text.now }
        ensures { IsLast (is_member self.now) text.now from to result }
    {
        let end = match self.only {
            Some(byte) => quiet_from(&One { byte }, text, from, to),
            None => quiet_from(&self.tables(), text, from, to),
        };
        self.last_by_bytes(text, from, end)
    }

    /// Returns the number of bytes of the text, from `from` up to `to`, that are members.
    #[inline]
    pub fn count(&self, text: &[u8], from: usize, to: usize) -> usize
        requires ordered { from ≤ to }
        requires within { to ≤ length text.now }
        ensures { result ≡ count_by (is_member self.now) (slice_range text.now from to) }
    {
        let rest = to - (to - from) % FEW;
        let mut count = match self.only {
            Some(byte) => count_by_vectors(&One { byte }, text, from, rest),
            None => count_by_vectors(&self.tables(), text, from, rest),
        };
        for index in rest..to {
            if self.contains(text[index]) {
                count += 1;
            }
        }
        count
    }

    /// Returns the tables as vectors.
    #[inline(always)]
    fn tables(&self) -> Tables
        ensures { (b : ℕ) → b < 256
            → passes (bits_of result.low result.high) b ≡ is_member self.now b }
    {
        Tables {
            low: u8x16::from_array(self.low),
            high: u8x16::from_array(self.high),
        }
    }

    /// Returns the first index from `from` up to `to` at which the text has a member, byte by byte.
    #[inline(always)]
    fn first_by_bytes(&self, text: &[u8], from: usize, to: usize) -> Option<usize>
        requires ordered { from ≤ to }
        requires within { to ≤ length text.now }
        ensures { IsFirst (is_member self.now) text.now from to result }
    {
        for index in from..to {
            if self.contains(text[index]) {
                return Some(index);
            }
        }
        None
    }

    /// Returns the last index from `from` up to `to` at which the text has a member, byte by byte.
    #[inline(always)]
    fn last_by_bytes(&self, text: &[u8], from: usize, to: usize) -> Option<usize>
        requires ordered { from ≤ to }
        requires within { to ≤ length text.now }
        ensures { IsLast (is_member self.now) text.now from to result }
    {
        let mut end = to;
        while end > from {
            end -= 1;
            if self.contains(text[end]) {
                return Some(end);
            }
        }
        None
    }
}

/// Returns the first index from `from` up to `to`, which are sixteen or more bytes, at which the
/// text has a byte. It is no part of `find`, which it would make slower for other sets.
#[inline(never)]
fn first_of_one(byte: u8, text: &[u8], from: usize, to: usize) -> Option<usize>
    requires long { from + 16 ≤ to }
    requires within { to ≤ length text.now }
    ensures { IsFirst (passes (same_bits byte)) text.now from to result }
{
    first_by_vectors(&One { byte }, text, from, to)
}

/// Returns the first index from `from` up to `to`, which are sixteen or more bytes, at which the
/// text has a byte with a bit.
#[inline(always)]
fn first_by_vectors<S: LookUp>(s: &S, text: &[u8], from: usize, to: usize) -> Option<usize>
    requires long { from + 16 ≤ to }
    requires within { to ≤ length text.now }
    ensures { IsFirst (passes (S.bits s.now)) text.now from to result }
{
    let mut at = from;
    while to - at >= MANY {
        let passed = lanes::run_of_many(s, text, at);
        if passed < MANY {
            return Some(at + passed);
        }
        at += MANY;
    }
    while to - at >= FEW {
        let passed = lanes::run_of_few(s, text, at);
        if passed < FEW {
            return Some(at + passed);
        }
        at += FEW;
    }
    // The last sixteen bytes, of which some are passed already.
    let last = to - FEW;
    let passed = lanes::run_of_few(s, text, last);
    if passed < FEW {
        return Some(last + passed);
    }
    None
}

/// Returns the same of eight to sixteen bytes.
#[inline(always)]
fn first_of_fewer<S: LookUp>(s: &S, text: &[u8], from: usize, to: usize) -> Option<usize>
    requires long { from + 8 ≤ to }
    requires short { to ≤ from + 16 }
    requires within { to ≤ length text.now }
    ensures { IsFirst (passes (S.bits s.now)) text.now from to result }
{
    let passed = lanes::run_of_fewer(s, text, from, to);
    if passed < to - from {
        return Some(from + passed);
    }
    None
}

/// Returns an index from which on, up to `to`, no byte has a bit: none of the 16 bytes before it is
/// left out, unless fewer are left, or one of them has a bit.
#[inline(always)]
fn quiet_from<S: LookUp>(s: &S, text: &[u8], from: usize, to: usize) -> usize
    requires ordered { from ≤ to }
    requires within { to ≤ length text.now }
    ensures low { from ≤ result }
    ensures high { result ≤ to }
    ensures none { HasNone (passes (S.bits s.now)) text.now result to }
{
    let mut end = to;
    while end - from >= MANY && lanes::is_many_quiet(s, text, end - MANY) {
        end -= MANY;
    }
    while end - from >= FEW && lanes::is_few_quiet(s, text, end - FEW) {
        end -= FEW;
    }
    end
}

/// Returns the number of bytes of the text that have a bit, from `from` up to `to`, which are a
/// multiple of sixteen bytes.
#[inline(always)]
fn count_by_vectors<S: LookUp>(s: &S, text: &[u8], from: usize, to: usize) -> usize
    requires ordered { from ≤ to }
    requires whole { (to - from) % 16 ≡ 0 }
    requires within { to ≤ length text.now }
    ensures { result ≡ count_by (passes (S.bits s.now)) (slice_range text.now from to) }
{
    let mut count = 0;
    let mut at = from;
    while to - at >= MANY {
        count += lanes::count_of_many(s, text, at);
        at += MANY;
    }
    while at < to {
        count += lanes::count_of_few(s, text, at);
        at += FEW;
    }
    count
}
