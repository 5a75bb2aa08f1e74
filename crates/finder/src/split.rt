//! Texts that are split at bytes.

use byte_set::ByteSet;

/// Returns what is before the first byte of a set, and what is behind it, if there is one.
pub fn split_once<'t>(text: &'t [u8], set: &ByteSet) -> (&'t [u8], Option<&'t [u8]>) {
    match set.find(text, 0, text.len()) {
        Some(at) => (&text[..at], Some(&text[at + 1..])),
        None => (text, None),
    }
}
