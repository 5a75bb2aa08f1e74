//! The word with which a pattern begins.

ghost use Rattle.std.specs.Prelude.{◌≤◌, IfOk, drop, length, map};
ghost use Rattle.determinize_pattern.specs.Patterns.{literal, meaning, sequence};
ghost use Rattle.determinize_pattern.specs.Meaning.{Then};
ghost use Rattle.determinize_pattern.specs.Private.Words.{HasPushed, SameEnds};

use crate::pattern::Pattern;
use std::alloc::{AllocError, Allocator};

/// Adds the bytes of the patterns before the first one that is no word, and returns how many these
/// are.
pub fn push_words<A: Allocator>(
    bytes: &mut Vec<u8, A>,
    subs: &[Pattern],
) -> Result<usize, AllocError>
    ensures within { IfOk result (λ count. count ≤ length subs.now) }
    ensures same { IfOk result (λ count. SameEnds
        (Then (literal bytes.old.items) (sequence (map meaning subs.now)))
        (Then (literal bytes.new.items) (sequence (map meaning (drop count subs.now))))) }
{
    for i in 0..subs.len() {
        if !push_word(bytes, &subs[i])? {
            return Ok(i);
        }
    }
    Ok(subs.len())
}

/// Adds the bytes of a pattern that is a word, and returns whether it is one.
pub fn push_word<A: Allocator>(
    bytes: &mut Vec<u8, A>,
    pattern: &Pattern,
) -> Result<bool, AllocError>
    ensures { IfOk result (λ is_word. HasPushed is_word (meaning pattern.now)
        bytes.old.items bytes.new.items) }
{
    match pattern {
        Pattern::Literal(word) => {
            bytes.extend_from_slice(word)?;
            Ok(true)
        }
        Pattern::Class(class) => {
            let Some(byte) = class.single() else {
                return Ok(false);
            };
            bytes.push(byte)?;
            Ok(true)
        }
        _ => Ok(false),
    }
}
