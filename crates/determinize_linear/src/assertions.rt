//! Which assertions hold between two bytes.

ghost use Rattle.std.specs.Prelude.{◌≡◌, ◌||◌, false};
ghost use Rattle.std.specs.Option.{is_none};
ghost use Rattle.determinize_below.specs.Semantics as semantics;

use determinize_below::Look;
use determinize_below::alphabet::is_word_byte;

/// Returns whether there is a byte, and it is a word byte.
fn is_word(byte: Option<u8>) -> bool
    ensures { result ≡ semantics.is_word byte }
{
    match byte {
        Some(byte) => is_word_byte(byte),
        None => false,
    }
}

/// Returns whether there is a byte, and it is this one.
fn is(byte: Option<u8>, value: u8) -> bool
    ensures { result ≡ semantics.is byte value }
{
    match byte {
        Some(byte) => byte == value,
        None => false,
    }
}

/// Returns whether there is no byte, or it is this one.
fn is_edge(byte: Option<u8>, terminator: u8) -> bool
    ensures { result ≡ (is_none byte || semantics.is byte terminator) }
{
    byte.is_none() || is(byte, terminator)
}

/// Returns whether an assertion holds between the byte before a position and the one after it.
pub(crate) fn holds(look: Look, terminator: u8, before: Option<u8>, after: Option<u8>) -> bool
    ensures { result ≡ semantics.holds false terminator before after look }
{
    match look {
        Look::Start => before.is_none(),
        Look::End => after.is_none(),
        Look::StartLF => is_edge(before, terminator),
        Look::EndLF => is_edge(after, terminator),
        Look::StartCRLF => is_edge(before, b'\n') || (is(before, b'\r') && !is(after, b'\n')),
        Look::EndCRLF => is_edge(after, b'\r') || (is(after, b'\n') && !is(before, b'\r')),
        Look::WordAscii | Look::WordUnicode => is_word(before) != is_word(after),
        Look::WordAsciiNegate | Look::WordUnicodeNegate => is_word(before) == is_word(after),
        Look::WordStartAscii | Look::WordStartUnicode => !is_word(before) && is_word(after),
        Look::WordEndAscii | Look::WordEndUnicode => is_word(before) && !is_word(after),
        Look::WordStartHalfAscii | Look::WordStartHalfUnicode => !is_word(before),
        Look::WordEndHalfAscii | Look::WordEndHalfUnicode => !is_word(after),
    }
}
