//! Classes of characters, as patterns of the bytes of their UTF-8.

ghost use Rattle.std.specs.Prelude.{◌≡◌, ◌||◌, ℕ, IfOk, OnOk, cond, false, true};
ghost use Rattle.std.specs.List.Sorted.{IsNonDecreasingBy, IsPermutation};
ghost use Rattle.determinize_pattern.specs.Characters.{IsCharClass, char_pairs};
ghost use Rattle.determinize_pattern.specs.Classes.{is_chosen};
ghost use Rattle.determinize_pattern.specs.Patterns.{meaning};
ghost use Rattle.determinize_pattern.specs.Private.Characters.{in_runs, is_from};

use crate::pattern::Pattern;
use crate::utf8::{Run, chars_of};
use std::alloc::{AllocError, Global};

/// The number after that of the last character.
const PAST: u32 = 0x11_0000;

/// The characters from `start` to `end`, both included. If `end` is before `start`, there is none.
#[derive(Clone, Copy, Debug, PartialEq, Eq)]
pub struct ClassUnicodeRange {
    pub start: char,
    pub end: char,
}

impl Pattern {
    /// Returns the pattern of a character in one of the ranges, as the bytes of its UTF-8. The
    /// ranges may overlap and be in any order.
    pub fn chars(alloc: Global, ranges: &[ClassUnicodeRange]) -> Result<Pattern, AllocError>
        ensures { IfOk result
            (λ p. IsCharClass (is_chosen (char_pairs ranges.now) false) (meaning p)) }
    {
        collect(alloc, ranges, false)
    }

    /// Returns the pattern of a character in none of the ranges, as the bytes of its UTF-8.
    pub fn none_of_chars(alloc: Global, ranges: &[ClassUnicodeRange]) -> Result<Pattern, AllocError>
        ensures { IfOk result
            (λ p. IsCharClass (is_chosen (char_pairs ranges.now) true) (meaning p)) }
    {
        collect(alloc, ranges, true)
    }
}

/// Returns the ranges in the order of their starts.
fn sorted(alloc: Global, ranges: &[ClassUnicodeRange]) -> Result<Vec<ClassUnicodeRange>, AllocError>
    ensures same { IfOk result (λ v. IsPermutation ranges.now v.items) }
    ensures ordered { IfOk result (λ v. IsNonDecreasingBy (λ r. r.start) v.items) }
{
    let mut sorted = Vec::from_slice(alloc, ranges)?;
    sorted.sort_unstable_by_key(|range| range.start);
    Ok(sorted)
}

/// Adds the run from the number `start` on and below `end`, or if `negated` is set that from `end`
/// on and below `next`.
fn push_run(
    runs: &mut Vec<Run>,
    negated: bool,
    start: u32,
    end: u32,
    next: u32,
) -> Result<(), AllocError>
    ensures { OnOk result ((c : ℕ) → in_runs runs.new.items c ≡ (in_runs runs.old.items c
        || cond negated (is_from end next c) (is_from start end c))) }
{
    let run = if negated {
        Run {
            start: end,
            end: next,
        }
    } else {
        Run { start, end }
    };
    runs.push(run)?;
    Ok(())
}

/// Returns the pattern of the characters in one of the ranges, or in none if `negated` is set. Goes
/// through the ranges in the order of their starts; `start..end` is the last run of numbers that
/// are in some range so far.
fn collect(
    alloc: Global,
    ranges: &[ClassUnicodeRange],
    negated: bool,
) -> Result<Pattern, AllocError>
    ensures { IfOk result
        (λ p. IsCharClass (is_chosen (char_pairs ranges.now) negated) (meaning p)) }
{
    let sorted = sorted(alloc, ranges)?;
    let mut runs = Vec::new(alloc);
    let mut start = 0;
    let mut end = 0;
    for range in &sorted {
        let first = range.start as u32;
        if end < first {
            push_run(&mut runs, negated, start, end, first)?;
            start = first;
            end = first;
        }
        end = end.max(range.end as u32 + 1);
    }
    push_run(&mut runs, negated, start, end, PAST)?;
    chars_of(alloc, &runs)
}
