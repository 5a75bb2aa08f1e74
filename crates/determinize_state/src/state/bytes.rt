//! Reading and writing parts of an encoded state.
//!
//! The bytes of a `State` and those of a builder encode its value (`IsSpelled`), so the readers
//! serve both.
#![tactic(auto)]

ghost use Rattle.std.specs.Prelude.{◌≡◌, ◌+◌, ◌*◌, ◌++◌, ◌<◌, ◌≤◌, length, vec_len, false, OnOk, OnErr, IsOk};
ghost use Rattle.determinize_below.specs.declared.primitives.TheConstants.{ID_LIMIT};
ghost use Rattle.determinize_state.specs.Spelling.{IsSpelled, value_of, number_at, word, words, with_word, has_flag};
ghost use Rattle.determinize_state.specs.Building.{header};
ghost use Rattle.determinize_state.specs.Private.PatternBytes.{with_bit, with_pattern_bytes};

use crate::state::nfa_state_ids::NfaStateIds;
use crate::state::pattern_ids::PatternIds;
use determinize_below::{LookSet, PatternID};
use std::alloc::{AllocError, Allocator};

/// The bit of the first byte that is set if some pattern matches.
pub(crate) const MATCH: u8 = 1;

/// The bit of the first byte that is set if the patterns are explicit.
pub(crate) const EXPLICIT: u8 = 2;

/// The bit of the first byte that is set if the byte before the state is a word byte.
pub(crate) const FROM_WORD: u8 = 4;

/// The bit of the first byte that is set if the byte before the state may be the first half of a
/// CRLF.
pub(crate) const HALF_CRLF: u8 = 8;

/// The offset of look-have.
pub(crate) const LOOK_HAVE: usize = 1;

/// The offset of look-need.
pub(crate) const LOOK_NEED: usize = 5;

/// The offset of the number of patterns, or of the NFA states if the patterns are implicit.
pub(crate) const COUNT: usize = 9;

/// The offset of the explicit patterns.
pub(crate) const PATTERNS: usize = 13;

/// Truncates the bytes to the header, and zeroes it.
#[inline(always)]
pub(crate) fn clear<A: Allocator>(bytes: &mut Vec<u8, A>)
    requires { COUNT ≤ vec_len bytes.old }
    ensures { bytes.new.items ≡ header }
{
    bytes.truncate(COUNT);
    bytes[0] = 0;
    put_number(bytes, LOOK_HAVE, 0);
    put_number(bytes, LOOK_NEED, 0);
}

/// Returns whether the first byte has the flag.
pub(crate) fn has_flag(bytes: &[u8], weight: u8) -> bool
    requires { 0 < length bytes.now }
    ensures { result ≡ has_flag bytes.now weight }
{
    bytes[0] & weight != 0
}

/// Returns look-have.
#[tactic(auto, using(crate::proofs::encoding::ReadBytes::reading))]
pub(crate) fn look_have(bytes: &[u8]) -> LookSet
    requires { IsSpelled bytes.now }
    ensures { result ≡ (value_of bytes.now).look_have }
{
    LookSet::from_repr(number_at(bytes, LOOK_HAVE))
}

/// Returns look-need.
#[tactic(auto, using(crate::proofs::encoding::ReadBytes::reading))]
pub(crate) fn look_need(bytes: &[u8]) -> LookSet
    requires { IsSpelled bytes.now }
    ensures { result ≡ (value_of bytes.now).look_need }
{
    LookSet::from_repr(number_at(bytes, LOOK_NEED))
}

/// Returns the number in the four bytes at an offset.
pub(crate) fn number_at(bytes: &[u8], at: usize) -> u32
    requires { at + 4 ≤ length bytes.now }
    ensures { result ≡ number_at bytes.now at }
{
    u32::from_le_bytes([bytes[at], bytes[at + 1], bytes[at + 2], bytes[at + 3]])
}

/// Sets a flag of the first byte.
pub(crate) fn set_flag<A: Allocator>(bytes: &mut Vec<u8, A>, flag: u8)
    requires { 0 < vec_len bytes.old }
    ensures { bytes.new.items ≡ with_bit bytes.old.items flag }
{
    bytes[0] |= flag;
}

/// Adds a pattern to bytes without NFA states. `ZERO` as the first stays implicit until another
/// pattern follows.
#[tactic(auto, using(crate::proofs::encoding::ReadBytes::reading))]
pub(crate) fn add_pattern<A: Allocator>(bytes: &mut Vec<u8, A>, id: u32) -> Result<(), AllocError>
    requires { IsSpelled bytes.old.items }
    ensures ok { OnOk result (bytes.new.items ≡ with_pattern_bytes bytes.old.items id) }
    ensures err { OnErr result (bytes.new.items ≡ bytes.old.items) }
    ensures first { has_flag bytes.old.items MATCH ≡ false
        → has_flag bytes.old.items EXPLICIT ≡ false → id ≡ 0 → IsOk result }
{
    if has_flag(bytes, EXPLICIT) {
        return add_listed(bytes, id);
    }
    let [a, b, c, d] = id.to_le_bytes();
    if has_flag(bytes, MATCH) {
        return begin_list(bytes, &[2, 0, 0, 0, 0, 0, 0, 0, a, b, c, d], EXPLICIT);
    }
    if id != 0 {
        return begin_list(bytes, &[1, 0, 0, 0, a, b, c, d], MATCH | EXPLICIT);
    }
    set_flag(bytes, MATCH);
    Ok(())
}

/// Appends a pattern to the explicit ones. On error the bytes are unchanged.
fn add_listed<A: Allocator>(bytes: &mut Vec<u8, A>, id: u32) -> Result<(), AllocError>
    requires whole { COUNT + 4 ≤ vec_len bytes.old }
    requires few { number_at bytes.old.items COUNT ≤ ID_LIMIT }
    ensures ok { OnOk result (bytes.new.items
        ≡ with_word (bytes.old.items ++ word id) COUNT (number_at bytes.old.items COUNT + 1)) }
    ensures err { OnErr result (bytes.new.items ≡ bytes.old.items) }
{
    let count = number_at(bytes, COUNT);
    bytes.extend_from_slice(&id.to_le_bytes())?;
    put_number(bytes, COUNT, count + 1);
    Ok(())
}

/// Appends a number of patterns and the patterns, and sets flags. On error the bytes are unchanged.
fn begin_list<A: Allocator>(
    bytes: &mut Vec<u8, A>,
    list: &[u8],
    flags: u8,
) -> Result<(), AllocError>
    requires { 0 < vec_len bytes.old }
    ensures ok { OnOk result (bytes.new.items ≡ with_bit (bytes.old.items ++ list.now) flags) }
    ensures err { OnErr result (bytes.new.items ≡ bytes.old.items) }
{
    bytes.extend_from_slice(list)?;
    set_flag(bytes, flags);
    Ok(())
}

/// Writes a number into the four bytes at an offset.
pub(crate) fn put_number<A: Allocator>(bytes: &mut Vec<u8, A>, at: usize, number: u32)
    requires { at + 4 ≤ vec_len bytes.old }
    ensures items { bytes.new.items ≡ with_word bytes.old.items at number }
    ensures len { vec_len bytes.new ≡ vec_len bytes.old }
{
    let [first, second, third, fourth] = number.to_le_bytes();
    let bytes = bytes.as_mut_slice();
    bytes[at] = first;
    bytes[at + 1] = second;
    bytes[at + 2] = third;
    bytes[at + 3] = fourth;
}

/// Returns the patterns, four bytes each. If they are implicit and there is one, these are the
/// bytes of `ZERO`.
#[tactic(auto, using(crate::proofs::encoding::ReadBytes::reading))]
pub(crate) fn pattern_words(bytes: &[u8]) -> &[u8]
    requires { IsSpelled bytes.now }
    ensures { result.now ≡ words (value_of bytes.now).patterns }
{
    if has_flag(bytes, EXPLICIT) {
        let size = PatternID::SIZE * number_at(bytes, COUNT) as usize;
        let (_, rest) = bytes.split_at(PATTERNS);
        let (ids, _) = rest.split_at(size);
        ids
    } else if has_flag(bytes, MATCH) {
        &[0; PatternID::SIZE]
    } else {
        &[]
    }
}

/// Returns an iterator over the patterns.
#[tactic(auto, using(crate::proofs::encoding::ReadBytes::patterns))]
pub(crate) fn pattern_ids(bytes: &[u8]) -> PatternIds<'_>
    requires { IsSpelled bytes.now }
    ensures { result ≡ (value_of bytes.now).patterns }
{
    PatternIds::new(pattern_words(bytes))
}

/// Returns an iterator over the NFA states.
#[tactic(auto, using(crate::proofs::encoding::ReadBytes::reading))]
pub(crate) fn nfa_state_ids(bytes: &[u8]) -> NfaStateIds<'_>
    requires { IsSpelled bytes.now }
    ensures { result ≡ (value_of bytes.now).states }
{
    let start = if has_flag(bytes, EXPLICIT) {
        PATTERNS + PatternID::SIZE * number_at(bytes, COUNT) as usize
    } else {
        COUNT
    };
    let (_, rest) = bytes.split_at(start);
    NfaStateIds::new(0, rest)
}
