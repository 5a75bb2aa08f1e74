//! The encoding of NFA states: differences of consecutive ids as zigzag varints.
//!
//! Zigzag maps a signed difference to an unsigned number, so that a small difference of either sign
//! is a small number. A varint has 7 bits per byte, the low ones first; the top bit of a byte says
//! that another follows. Most numbers take one byte, in a large NFA two: each of these lengths has
//! a separate path, which is inlined.

ghost use Rattle.std.specs.Prelude.{◌≡◌, ◌+◌, ◌%◌, ◌≤◌, ◌<◌, ◌++◌, drop, length, option_map, IfNone, IfSome, OnErr, OnOk};
ghost use Rattle.determinize_state.specs.Varint as format;
ghost use Rattle.determinize_state.specs.Private.Groups.{read};
ghost use Rattle.determinize_state.specs.Varint.{unzigzag};

use determinize_below::{MAX_ID, StateID};
use std::alloc::{AllocError, Allocator};

/// Returns the difference between two ids as an unsigned number: even for a difference of 0 or
/// more, odd for a negative one.
#[inline(always)]
pub(crate) fn zigzag(from: StateID, to: StateID) -> u32
    ensures value { result ≡ format.zigzag from to }
    ensures small { to ≤ MAX_ID }
{
    let from = from.as_u32();
    let to = to.as_u32();
    if from <= to {
        2 * (to - from)
    } else {
        2 * (from - to) - 1
    }
}

/// Appends a number as a varint. On error the bytes are unchanged.
#[tactic(auto, using(crate::proofs::encoding::Varints::varints))]
#[inline(always)]
pub(crate) fn write<A: Allocator>(bytes: &mut Vec<u8, A>, number: u32) -> Result<(), AllocError>
    ensures ok { OnOk result (bytes.new.items ≡ bytes.old.items ++ format.varint number) }
    ensures err { OnErr result (bytes.new.items ≡ bytes.old.items) }
{
    if number < 128 {
        bytes.push(number as u8)?;
        return Ok(());
    }
    if number < 16384 {
        bytes.reserve(2)?;
        bytes.push_reserved(more(number));
        bytes.push_reserved((number / 128) as u8);
        return Ok(());
    }
    write_groups(bytes, number)
}

/// Appends a number of any size, here one of three bytes or more. On error the bytes are unchanged.
#[tactic(auto, using(crate::proofs::encoding::Varints::varints))]
#[cold]
fn write_groups<A: Allocator>(bytes: &mut Vec<u8, A>, number: u32) -> Result<(), AllocError>
    ensures ok { OnOk result (bytes.new.items ≡ bytes.old.items ++ format.varint number) }
    ensures err { OnErr result (bytes.new.items ≡ bytes.old.items) }
{
    // A number of 32 bits has at most five groups.
    bytes.reserve(5)?;
    let mut rest = number;
    while rest >= 128 {
        bytes.push_reserved(more(rest));
        rest /= 128;
    }
    bytes.push_reserved(rest as u8);
    Ok(())
}

/// Returns the low 7 bits as a group that another follows.
fn more(number: u32) -> u8
    ensures { result ≡ 128 + number % 128 }
{
    128 + (number % 128) as u8
}

/// Decodes one varint. Returns it with the remaining bytes, or `None` at the end.
#[inline(always)]
pub(crate) fn read_number(bytes: &[u8]) -> Option<(u64, &[u8])>
    ensures { option_map (λ r. (r.0, r.1.now)) result ≡ read 0 1 bytes.now }
{
    let (byte, after) = bytes.split_first()?;
    if *byte < 128 {
        return Some((*byte as u64, after));
    }
    let (second, rest) = after.split_first()?;
    if *second < 128 {
        return Some((*byte as u64 - 128 + 128 * *second as u64, rest));
    }
    // Two calls, since a number and a slice at once are returned through memory, which makes short
    // varints slower too.
    let size = groups_size(bytes);
    if size == 0 {
        return None;
    }
    let (_, after) = bytes.split_at(size);
    Some((groups_number(bytes), after))
}

/// Returns the number of bytes of the first varint, or 0 if there is none.
#[tactic(auto, using(crate::proofs::encoding::Varints::read_rest))]
#[cold]
#[inline(never)]
fn groups_size(bytes: &[u8]) -> usize
    ensures within { result ≤ length bytes.now }
    ensures none { IfNone (read 0 1 bytes.now) (result ≡ 0) }
    ensures some { IfSome (read 0 1 bytes.now) (λ r. (0 < result) × (r.1 ≡ drop result bytes.now)) }
{
    match read_groups(bytes) {
        None => 0,
        Some((_number, after)) => bytes.len() - after.len(),
    }
}

/// Returns the first varint, or 0 if there is none.
#[cold]
#[inline(never)]
fn groups_number(bytes: &[u8]) -> u64
    ensures { IfSome (read 0 1 bytes.now) (λ r. result ≡ r.0) }
{
    match read_groups(bytes) {
        None => 0,
        Some((number, _)) => number,
    }
}

/// Decodes one varint of any size. Returns `None` if the bytes end within it or it has more than
/// five groups.
#[cold]
fn read_groups(bytes: &[u8]) -> Option<(u64, &[u8])>
    ensures { option_map (λ r. (r.0, r.1.now)) result ≡ read 0 1 bytes.now }
{
    let mut low = 0u64;
    let mut weight = 1u64;
    let mut rest = bytes;
    while let Some((byte, after)) = rest.split_first() {
        // A number of 32 bits has at most five groups.
        if weight > 268435456 {
            return None;
        }
        let byte = *byte as u64;
        if byte < 128 {
            return Some((low + weight * byte, after));
        }
        low += weight * (byte - 128);
        weight *= 128;
        rest = after;
    }
    None
}

/// Returns the id whose difference to `from` is this number.
#[inline(always)]
pub(crate) fn id_after(from: u32, number: u64) -> StateID
    requires from { from ≤ MAX_ID }
    requires small { unzigzag from number ≤ MAX_ID }
    requires back { number ≡ format.zigzag from (unzigzag from number) }
    ensures { result ≡ unzigzag from number }
{
    let id = if number % 2 == 0 {
        from as u64 + number / 2
    } else {
        from as u64 - (number + 1) / 2
    };
    StateID::must(id as usize)
}
