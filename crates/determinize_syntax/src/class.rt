//! Classes of bytes, with both cases of letters, and of characters.

ghost use Rattle.std.specs.Prelude.{◌≡◌, IfOk, true};
ghost use Rattle.determinize_pattern.specs.Classes.{HasBytes, is_chosen, pairs};
ghost use Rattle.determinize_pattern.specs.Meaning as meanings;
ghost use Rattle.determinize_pattern.specs.Patterns.{meaning};
ghost use Rattle.determinize_syntax.specs.Private.Sets.{either_case, has, has_char, turned};
ghost use Rattle.determinize_syntax.specs.Spells.{IsOneOf};
ghost use Rattle.determinize_syntax.specs.Words.{folded, knows_cases};

use crate::flags::Flags;
use determinize_pattern::{ClassBytes, ClassBytesRange, ClassUnicodeRange, Pattern};
use std::alloc::{AllocError, Global};

/// Returns the pattern of one byte of the ranges, under `i` in both cases, or where `u` holds of
/// one character of them. If `negated` is set, the pattern is that of one other byte or character.
pub fn one_of(
    alloc: Global,
    ranges: &[ClassUnicodeRange],
    flags: Flags,
    negated: bool,
) -> Result<Pattern, AllocError>
    requires { knows_cases flags ≡ true }
    ensures { IfOk result (λ p.
        IsOneOf flags.unicode (turned negated (folded flags (has_char ranges.now))) (meaning p)) }
{
    if !flags.unicode {
        let bytes = bytes_of(alloc, ranges)?;
        return Ok(of_class(class(alloc, &bytes, flags, negated)?));
    }
    if negated {
        Pattern::none_of_chars(alloc, ranges)
    } else {
        Pattern::chars(alloc, ranges)
    }
}

/// Returns the pattern of one byte of the class.
pub fn of_class(class: ClassBytes) -> Pattern
    ensures { meaning result ≡ meanings.Byte class }
{
    Pattern::Class(class)
}

/// Returns the bytes of the ranges: a byte is in a range that has the character of its number.
fn bytes_of(alloc: Global, ranges: &[ClassUnicodeRange]) -> Result<Vec<ClassBytesRange>, AllocError>
    ensures { IfOk result (λ v. HasBytes (has_char ranges.now) (pairs v.items)) }
{
    let mut bytes = Vec::new(alloc);
    for range in ranges {
        let (start, end) = (range.start as u32, (range.end as u32).min(0xFF));
        if start <= 0xFF {
            bytes.push(ClassBytesRange {
                start: start as u8,
                end: end as u8,
            })?;
        }
    }
    Ok(bytes)
}

/// Returns the class of the bytes of the ranges, under `i` in both cases, or that of all other
/// bytes if `negated` is set.
pub fn class(
    alloc: Global,
    ranges: &[ClassBytesRange],
    flags: Flags,
    negated: bool,
) -> Result<ClassBytes, AllocError>
    ensures { IfOk result (λ c. HasBytes (turned negated (folded flags (has ranges.now))) c) }
{
    if !flags.case_insensitive {
        return collected(alloc, ranges, negated);
    }
    let cases = with_cases(alloc, ranges)?;
    collected(alloc, &cases, negated)
}

/// Returns the class of the bytes of the ranges, or that of all other bytes if `negated` is set.
fn collected(
    alloc: Global,
    ranges: &[ClassBytesRange],
    negated: bool,
) -> Result<ClassBytes, AllocError>
    ensures { IfOk result (λ c. HasBytes (is_chosen (pairs ranges.now) negated) c) }
{
    if negated {
        ClassBytes::none_of(alloc, ranges)
    } else {
        ClassBytes::new(alloc, ranges)
    }
}

/// Returns the bytes of which one case is in the ranges.
fn with_cases(alloc: Global, ranges: &[ClassBytesRange]) -> Result<Vec<ClassBytesRange>, AllocError>
    ensures { IfOk result (λ v. HasBytes (either_case (has ranges.now)) (pairs v.items)) }
{
    let mut cases = Vec::new(alloc);
    for i in 0..256_usize {
        let byte = i as u8;
        if has_case(ranges, byte) {
            let range = ClassBytesRange {
                start: byte,
                end: byte,
            };
            cases.push(range)?;
        }
    }
    Ok(cases)
}

/// Returns whether one case of the byte is in one of the ranges.
fn has_case(ranges: &[ClassBytesRange], byte: u8) -> bool
    ensures { result ≡ either_case (has ranges.now) byte }
{
    let (lower, upper) = (byte.to_ascii_lowercase(), byte.to_ascii_uppercase());
    for range in ranges {
        if range.contains(lower) || range.contains(upper) {
            return true;
        }
    }
    false
}
