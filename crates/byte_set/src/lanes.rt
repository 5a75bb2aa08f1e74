//! Vectors of 64 and of 16 bytes: how many come before the first that two tables give a bit, and
//! how many have one.

ghost use Rattle.std.specs.Prelude.{◌≡◌, ℕ, ◌+◌, ◌-◌, ◌<◌, ◌≤◌, ◌%◌, IsTrue, length, map, slice_index};
ghost use Rattle.std.specs.List.{count_by};
ghost use Rattle.std.specs.Simd.Lanes.{chunk, mask_l};
ghost use Rattle.byte_set.specs.Sets.{HasNone, IsRun};
ghost use Rattle.byte_set.specs.Tables.{bits_of, is_some_bit, passes, same_bits};

use std::simd::prelude::*;

/// The bit of each high half of a byte.
const BITS: [u8; 16] = [1, 2, 4, 8, 16, 32, 64, 128, 1, 2, 4, 8, 16, 32, 64, 128];

/// What gives bytes their bits.
pub(crate) trait LookUp {
    ghost bits: { Self → ℕ → ℕ };

    fn of_many(&self, bytes: u8x64) -> u8x64
        ensures { result ≡ map (bits self.now) bytes };

    fn of_few(&self, bytes: u8x16) -> u8x16
        ensures { result ≡ map (bits self.now) bytes };
}

/// Two tables.
#[derive(Drop)]
pub(crate) struct Tables {
    pub(crate) low: u8x16,
    pub(crate) high: u8x16,
}

impl LookUp for Tables {
    ghost bits = { λ t. bits_of t.low t.high };

    #[inline(always)]
    fn of_many(&self, bytes: u8x64) -> u8x64 {
        bits_of_many(self.low, self.high, bytes)
    }

    #[inline(always)]
    fn of_few(&self, bytes: u8x16) -> u8x16 {
        bits_of_few(self.low, self.high, bytes)
    }
}

/// The comparison with one byte.
#[derive(Drop)]
pub(crate) struct One {
    pub(crate) byte: u8,
}

impl LookUp for One {
    ghost bits = { λ o. same_bits o.byte };

    #[inline(always)]
    fn of_many(&self, bytes: u8x64) -> u8x64 {
        bytes
            .simd_eq(u8x64::splat(self.byte))
            .select(u8x64::splat(255), u8x64::splat(0))
    }

    #[inline(always)]
    fn of_few(&self, bytes: u8x16) -> u8x16 {
        bytes
            .simd_eq(u8x16::splat(self.byte))
            .select(u8x16::splat(255), u8x16::splat(0))
    }
}

/// The number of bytes of a long vector.
pub(crate) const MANY: usize = 64;

/// The number of bytes of a short vector.
pub(crate) const FEW: usize = 16;

/// The number of bytes of half a short vector.
pub(crate) const FEWER: usize = 8;

/// Returns how many of the next 64 bytes come before the first that has a bit.
#[inline(always)]
pub(crate) fn run_of_many<S: LookUp>(s: &S, text: &[u8], from: usize) -> usize
    requires { from + 64 ≤ length text.now }
    ensures { IsRun (passes (S.bits s.now)) text.now from 64 result }
{
    let bits = s.of_many(u8x64::from_slice(&text[from..]));
    if has_no_bit(bits) {
        return MANY;
    }
    marks_of_many(bits).trailing_zeros() as usize
}

/// Returns how many of the next 16 bytes come before the first that has a bit.
#[inline(always)]
pub(crate) fn run_of_few<S: LookUp>(s: &S, text: &[u8], from: usize) -> usize
    requires { from + 16 ≤ length text.now }
    ensures { IsRun (passes (S.bits s.now)) text.now from 16 result }
{
    run_of_lanes(s, u8x16::from_slice(&text[from..]))
}

/// Returns whether none of the next 64 bytes has a bit.
#[inline(always)]
pub(crate) fn is_many_quiet<S: LookUp>(s: &S, text: &[u8], from: usize) -> bool
    requires { from + 64 ≤ length text.now }
    ensures { IsTrue result → HasNone (passes (S.bits s.now)) text.now from (from + 64) }
{
    run_of_many(s, text, from) == MANY
}

/// Returns whether none of the next 16 bytes has a bit.
#[inline(always)]
pub(crate) fn is_few_quiet<S: LookUp>(s: &S, text: &[u8], from: usize) -> bool
    requires { from + 16 ≤ length text.now }
    ensures { IsTrue result → HasNone (passes (S.bits s.now)) text.now from (from + 16) }
{
    run_of_few(s, text, from) == FEW
}

/// Returns how many of the next 64 bytes have a bit.
#[inline(always)]
pub(crate) fn count_of_many<S: LookUp>(s: &S, text: &[u8], from: usize) -> usize
    requires { from + 64 ≤ length text.now }
    ensures { result ≡ count_by (passes (S.bits s.now)) (chunk from 64 text.now) }
{
    marks_of_many(s.of_many(u8x64::from_slice(&text[from..]))).count_ones() as usize
}

/// Returns how many of the next 16 bytes have a bit.
#[inline(always)]
pub(crate) fn count_of_few<S: LookUp>(s: &S, text: &[u8], from: usize) -> usize
    requires { from + 16 ≤ length text.now }
    ensures { result ≡ count_by (passes (S.bits s.now)) (chunk from 16 text.now) }
{
    marks_of_few(s.of_few(u8x16::from_slice(&text[from..]))).count_ones() as usize
}

/// Returns how many of eight to sixteen bytes come before the first that has a bit.
#[inline(always)]
pub(crate) fn run_of_fewer<S: LookUp>(s: &S, text: &[u8], from: usize, to: usize) -> usize
    requires long { from + 8 ≤ to }
    requires short { to ≤ from + 16 }
    requires within { to ≤ length text.now }
    ensures { IsRun (passes (S.bits s.now)) text.now from (to - from) result }
{
    let passed = run_of_lanes(s, both_ends(text, from, to));
    if passed < FEWER {
        return passed;
    }
    (to - from) - (FEW - passed)
}

/// Returns how many of 16 lanes come before the first that has a bit.
#[inline(always)]
fn run_of_lanes<S: LookUp>(s: &S, bytes: u8x16) -> usize
    ensures { IsRun (passes (S.bits s.now)) bytes 0 16 result }
{
    let marks = marks_of_few(s.of_few(bytes));
    if marks == 0 {
        return FEW;
    }
    marks.trailing_zeros() as usize
}

/// Returns the first eight bytes and then the last eight, which may overlap.
#[inline(always)]
fn both_ends(text: &[u8], from: usize, to: usize) -> u8x16
    requires long { from + 8 ≤ to }
    requires within { to ≤ length text.now }
    ensures front { (k : ℕ) → k < 8 → slice_index result k ≡ slice_index text.now (from + k) }
    ensures back { (k : ℕ) → k < 8
        → slice_index result (8 + k) ≡ slice_index text.now (to - 8 + k) }
{
    let front = u8x8::from_slice(&text[from..]);
    let back = u8x8::from_slice(&text[to - FEWER..]);
    front.shuffle(back, [0, 1, 2, 3, 4, 5, 6, 7, 8, 9, 10, 11, 12, 13, 14, 15])
}

/// Returns the bits of 64 bytes by two tables.
#[inline(always)]
fn bits_of_many(low: u8x16, high: u8x16, bytes: u8x64) -> u8x64
    ensures { result ≡ map (bits_of low high) bytes }
{
    let halves = bytes & u8x64::splat(15);
    let by_low = four_times(low).swizzle_dyn_within::<16>(halves);
    let by_high = four_times(high).swizzle_dyn_within::<16>(halves);
    let entries = bytes.simd_lt(u8x64::splat(128)).select(by_low, by_high);
    entries & four_times(u8x16::from_array(BITS)).swizzle_dyn_within::<16>(bytes >> u8x64::splat(4))
}

/// Returns the bits of 16 bytes by two tables.
#[inline(always)]
fn bits_of_few(low: u8x16, high: u8x16, bytes: u8x16) -> u8x16
    ensures { result ≡ map (bits_of low high) bytes }
{
    let halves = bytes & u8x16::splat(15);
    let by_low = low.swizzle_dyn_within::<16>(halves);
    let by_high = high.swizzle_dyn_within::<16>(halves);
    let entries = bytes.simd_lt(u8x16::splat(128)).select(by_low, by_high);
    entries & u8x16::from_array(BITS).swizzle_dyn_within::<16>(bytes >> u8x16::splat(4))
}

/// Returns a table as each of four blocks.
#[inline(always)]
fn four_times(table: u8x16) -> u8x64
    ensures { (k : ℕ) → k < 64 → slice_index result k ≡ slice_index table (k % 16) }
{
    table.swizzle([
        0, 1, 2, 3, 4, 5, 6, 7, 8, 9, 10, 11, 12, 13, 14, 15, 0, 1, 2, 3, 4, 5, 6, 7, 8, 9, 10, 11,
        12, 13, 14, 15, 0, 1, 2, 3, 4, 5, 6, 7, 8, 9, 10, 11, 12, 13, 14, 15, 0, 1, 2, 3, 4, 5, 6,
        7, 8, 9, 10, 11, 12, 13, 14, 15,
    ])
}

/// Returns whether no lane has a bit.
#[inline(always)]
fn has_no_bit(lanes: u8x64) -> bool
    ensures { IsTrue result → mask_l (map is_some_bit lanes) ≡ 0 }
{
    lanes.reduce_or() == 0
}

/// Returns a bit for each of 64 lanes: 1 where it is not 0.
#[inline(always)]
fn marks_of_many(lanes: u8x64) -> u64
    ensures { result ≡ mask_l (map is_some_bit lanes) }
{
    lanes.simd_ne(u8x64::splat(0)).to_bitmask()
}

/// Returns a bit for each of 16 lanes: 1 where it is not 0.
#[inline(always)]
fn marks_of_few(lanes: u8x16) -> u64
    ensures { result ≡ mask_l (map is_some_bit lanes) }
{
    lanes.simd_ne(u8x16::splat(0)).to_bitmask()
}
