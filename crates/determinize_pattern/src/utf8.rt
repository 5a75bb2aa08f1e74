//! Runs of characters as patterns of the bytes of their UTF-8.
//!
//! Among the characters with the same number of bytes, a character is written in base 64: its first
//! digit is added to the lead byte, and each other one to 0x80. The branches of a choice differ in
//! their first byte, and neighbors that the same bytes may follow are one branch.

ghost use Rattle.std.specs.Prelude.{◌≡◌, ◌*◌, ◌∷◌, ◌+◌, ◌<◌, ◌≤◌, ℕ, All, IfOk, OnOk, [], map, true};
ghost use Rattle.determinize_pattern.specs.Characters.{IsCharClass};
ghost use Rattle.determinize_pattern.specs.Patterns.{choice_of, meaning, sequence};
ghost use Rattle.determinize_pattern.specs.Private.Characters.{Adds, ArePart, HasNumber, IsNumberOf, in_runs, capacity, numbers_of};

use crate::pattern::Pattern;
use std::alloc::{AllocError, Global};

/// The numbers from `start` on and below `end`.
#[derive(Clone, Copy, PartialEq, Eq)]
pub struct Run {
    pub start: u32,
    pub end: u32,
}

/// Returns the pattern of a character whose number is in one of the runs.
pub fn chars_of(alloc: Global, runs: &[Run]) -> Result<Pattern, AllocError>
    ensures { IfOk result (λ p. IsCharClass (in_runs runs.now) (meaning p)) }
{
    let mut branches = Vec::new(alloc);
    push_chars(&mut branches, alloc, runs, 0x00, 0, 0, 0x80)?;
    push_chars(&mut branches, alloc, runs, 0xC0, 1, 0x80, 0x800)?;
    push_chars(&mut branches, alloc, runs, 0xE0, 2, 0x800, 0xD800)?;
    // Between these are the surrogates, which are no characters.
    push_chars(&mut branches, alloc, runs, 0xE0, 2, 0xE000, 0x1_0000)?;
    push_chars(&mut branches, alloc, runs, 0xF0, 3, 0x1_0000, 0x11_0000)?;
    Ok(one_of(branches))
}

/// Adds branches for the numbers in the runs from `low` on and below `high`, which are written with
/// `count` digits after the first one.
fn push_chars(
    branches: &mut Vec<Pattern>,
    alloc: Global,
    runs: &[Run],
    lead: u8,
    count: u32,
    low: u32,
    high: u32,
) -> Result<(), AllocError>
    requires count { count ≤ 3 }
    requires small { high ≤ capacity lead count }
    ensures { OnOk result (Adds (IsNumberOf lead count
        (λ v. (low ≤ v) × (v < high) × (in_runs runs.now v ≡ true)))
        (map meaning branches.old.items) (map meaning branches.new.items)) }
{
    let part = part_of(alloc, runs, low, high, 0)?;
    push_numbers(branches, alloc, lead, count, &part)
}

/// Adds branches for the numbers in the runs, which are written with `count` digits after the first
/// one.
fn push_numbers(
    branches: &mut Vec<Pattern>,
    alloc: Global,
    lead: u8,
    count: u32,
    runs: &[Run],
) -> Result<(), AllocError>
    requires count { count ≤ 3 }
    requires small { (v : ℕ) → in_runs runs.now v ≡ true → v < capacity lead count }
    ensures { OnOk result (Adds (IsNumberOf lead count (λ v. in_runs runs.now v ≡ true))
        (map meaning branches.old.items) (map meaning branches.new.items)) }
{
    let digits = 256 - lead as u32;
    let mut digit = 0;
    while digit < digits {
        let rest = after_digit(alloc, runs, digit, count)?;
        let past = past_alike(alloc, runs, &rest, digit + 1, digits, count)?;
        if !rest.is_empty() {
            let (start, end) = (lead + digit as u8, lead + (past - 1) as u8);
            let mut branch = Pattern::range(alloc, start, end)?;
            if count > 0 {
                let mut rests = Vec::new(alloc);
                push_numbers(&mut rests, alloc, 0x80, count - 1, &rest)?;
                branch = in_a_row(alloc, branch, one_of(rests))?;
            }
            branches.push(branch)?;
        }
        digit = past;
    }
    Ok(())
}

/// Returns the numbers of the `count` digits that may follow this first digit.
fn after_digit(alloc: Global, runs: &[Run], digit: u32, count: u32) -> Result<Vec<Run>, AllocError>
    requires count { count ≤ 3 }
    requires digit { digit ≤ 256 }
    ensures part { IfOk result (λ part. ArePart runs.now (digit * numbers_of count)
        (digit * numbers_of count + numbers_of count) (digit * numbers_of count) part.items) }
    ensures some { IfOk result (λ part. All HasNumber part.items) }
{
    let size = size_of(count);
    let low = digit * size;
    part_of(alloc, runs, low, low + size, low)
}

/// Returns a digit from `digit` on, before which each is followed by the numbers of `rest`.
fn past_alike(
    alloc: Global,
    runs: &[Run],
    rest: &[Run],
    digit: u32,
    digits: u32,
    count: u32,
) -> Result<u32, AllocError>
    requires count { count ≤ 3 }
    requires order { digit ≤ digits }
    requires digits { digits ≤ 256 }
    ensures within { IfOk result (λ past. (digit ≤ past) × (past ≤ digits)) }
    ensures alike { IfOk result (λ past. (d : ℕ) → digit ≤ d → d < past → ArePart runs.now
        (d * numbers_of count) (d * numbers_of count + numbers_of count) (d * numbers_of count)
        rest.now) }
{
    for next in digit..digits {
        let other = after_digit(alloc, runs, next, count)?;
        if !are_equal(&other, rest) {
            return Ok(next);
        }
    }
    Ok(digits)
}

/// Returns the numbers of the runs from `low` on and below `high`, each less `base`.
fn part_of(
    alloc: Global,
    runs: &[Run],
    low: u32,
    high: u32,
    base: u32,
) -> Result<Vec<Run>, AllocError>
    requires { base ≤ low }
    ensures part { IfOk result (λ part. ArePart runs.now low high base part.items) }
    ensures some { IfOk result (λ part. All HasNumber part.items) }
{
    let mut part = Vec::new(alloc);
    for run in runs {
        let start = run.start.max(low);
        let end = run.end.min(high);
        if start < end {
            part.push(Run {
                start: start - base,
                end: end - base,
            })?;
        }
    }
    Ok(part)
}

/// Returns `true` only if these are the same runs.
fn are_equal(one: &[Run], other: &[Run]) -> bool
    ensures { result ≡ true → one.now ≡ other.now }
{
    if one.len() != other.len() {
        return false;
    }
    for i in 0..one.len() {
        if one[i] != other[i] {
            return false;
        }
    }
    true
}

/// Returns how many numbers have this many digits.
fn size_of(count: u32) -> u32
    requires { count ≤ 3 }
    ensures size { result ≡ numbers_of count }
    ensures small { result ≤ 262144 }
{
    match count {
        0 => 1,
        1 => 64,
        2 => 4096,
        _ => 262_144,
    }
}

/// Returns the patterns one after the other.
fn in_a_row(alloc: Global, first: Pattern, second: Pattern) -> Result<Pattern, AllocError>
    ensures { IfOk result (λ p. meaning p ≡ sequence (meaning first ∷ meaning second ∷ [])) }
{
    let mut parts = Vec::new(alloc);
    parts.push(first)?;
    parts.push(second)?;
    Ok(Pattern::concat(parts))
}

/// Returns a choice between the branches, or the single one.
fn one_of(mut branches: Vec<Pattern>) -> Pattern
    ensures { meaning result ≡ choice_of (map meaning branches.items) }
{
    if branches.len() == 1 {
        if let Some(branch) = branches.pop() {
            return branch;
        }
    }
    Pattern::alternation(branches)
}
