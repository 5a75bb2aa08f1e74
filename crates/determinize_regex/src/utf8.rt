//! Matches that do not divide an encoded character.
//!
//! A search is over bytes. Where patterns match whole characters only, so do their matches, but an
//! empty match may still be inside a character. Such are patterns whose texts begin under the flag
//! `u` and clear it nowhere (`characters_law` of `determinize_syntax`).

ghost use Rattle.std.specs.Prelude.{◌≡◌, filter};
ghost use Rattle.determinize_regex.specs.Utf8.{is_boundary, is_whole};

use determinize_below::Match;
use std::alloc::Allocator;

/// Returns whether an index of a text is not inside an encoded character: at the index the text
/// ends, or a byte is there that does not continue a character. The text should be UTF-8.
pub fn is_char_boundary(text: &[u8], index: usize) -> bool
    ensures { result ≡ is_boundary text.now index }
{
    match text.get(index) {
        Some(byte) => *byte < 0x80 || *byte > 0xBF,
        None => index == text.len(),
    }
}

/// Removes the empty matches inside an encoded character of the text, as a search in UTF-8 mode of
/// regex-automata leaves them out if its input is not anchored.
pub fn retain_whole<A: Allocator>(text: &[u8], found: &mut Vec<Match, A>)
    ensures { found.new.items ≡ filter (is_whole text.now) found.old.items }
{
    found.retain(|m| !m.is_empty() || is_char_boundary(text, m.start));
}
