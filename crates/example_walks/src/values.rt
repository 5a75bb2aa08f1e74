//! Reads and writes the values of texts: bytes, ids and assertions.

ghost use Rattle.std.specs.Prelude.{◌<◌, IfSome};

use crate::error::{Part, TextError};
use determinize_below::{HalfMatch, Look, PatternID, StateID};
use std::alloc::Allocator;
use std::fmt;

/// The assertions and their names. Only [`looks`] names this table: a proof reads the whole table
/// at each mention.
static LOOKS: [(&str, Look); 18] = [
    ("Start", Look::Start),
    ("End", Look::End),
    ("StartLF", Look::StartLF),
    ("EndLF", Look::EndLF),
    ("StartCRLF", Look::StartCRLF),
    ("EndCRLF", Look::EndCRLF),
    ("WordAscii", Look::WordAscii),
    ("WordAsciiNegate", Look::WordAsciiNegate),
    ("WordUnicode", Look::WordUnicode),
    ("WordUnicodeNegate", Look::WordUnicodeNegate),
    ("WordStartAscii", Look::WordStartAscii),
    ("WordEndAscii", Look::WordEndAscii),
    ("WordStartUnicode", Look::WordStartUnicode),
    ("WordEndUnicode", Look::WordEndUnicode),
    ("WordStartHalfAscii", Look::WordStartHalfAscii),
    ("WordEndHalfAscii", Look::WordEndHalfAscii),
    ("WordStartHalfUnicode", Look::WordStartHalfUnicode),
    ("WordEndHalfUnicode", Look::WordEndHalfUnicode),
];

/// Returns the assertions with their names, in the order of their bits.
pub fn looks() -> &'static [(&'static str, Look)] {
    LOOKS.as_slice()
}

/// Returns the longest text that these bytes begin with.
pub fn text_of(bytes: &[u8]) -> &str {
    match bytes.utf8_chunks().next() {
        Some(chunk) => chunk.valid(),
        None => "",
    }
}

/// Returns whether the text is that of no value or of an empty list.
pub fn is_none(text: &str) -> bool {
    matches!(text, "" | "-")
}

/// Returns the value of a lower-case hexadecimal digit.
fn digit(byte: u8) -> Option<u8>
    ensures { IfSome result (λ value. value < 16) }
{
    match byte {
        b'0'..=b'9' => Some(byte - b'0'),
        b'a'..=b'f' => Some(byte - b'a' + 10),
        _ => None,
    }
}

/// Returns the byte of two hexadecimal digits.
fn pair(digits: &[u8]) -> Result<u8, TextError> {
    if let [high, low] = digits {
        if let (Some(high), Some(low)) = (digit(*high), digit(*low)) {
            return Ok(high * 16 + low);
        }
    }
    Err(TextError::Malformed(Part::Digit))
}

/// Returns the byte of a text of two hexadecimal digits.
pub fn byte(text: &str) -> Result<u8, TextError> {
    pair(text.as_bytes())
}

/// Returns an optional byte.
pub fn optional_byte(text: &str) -> Result<Option<u8>, TextError> {
    if is_none(text) {
        return Ok(None);
    }
    Ok(Some(byte(text)?))
}

/// Adds the bytes of a text of hexadecimal digits.
fn add_bytes<A: Allocator>(found: &mut Vec<u8, A>, text: &str) -> Result<(), TextError> {
    if !is_none(text) {
        for digits in text.as_bytes().chunks(2) {
            let value = pair(digits)?;
            found.push(value)?;
        }
    }
    Ok(())
}

/// Returns the bytes of a text of hexadecimal digits.
pub fn bytes<A: Allocator>(alloc: A, text: &str) -> Result<Vec<u8, A>, TextError> {
    let mut found = Vec::new(alloc);
    add_bytes(&mut found, text)?;
    Ok(found)
}

/// Returns a decimal number, which has digits only.
pub fn number(text: &str) -> Result<usize, TextError> {
    match text.parse::<usize>() {
        Ok(number) if !text.starts_with('+') => Ok(number),
        _ => Err(TextError::Malformed(Part::Number)),
    }
}

/// A value of a list, as it is written between commas.
pub trait Item: Copy {
    /// Returns the value of a text.
    fn read(text: &str) -> Result<Self, TextError>;
}

impl Item for StateID {
    fn read(text: &str) -> Result<StateID, TextError> {
        match StateID::new(number(text)?) {
            Ok(id) => Ok(id),
            Err(_) => Err(TextError::Malformed(Part::StateId)),
        }
    }
}

impl Item for PatternID {
    fn read(text: &str) -> Result<PatternID, TextError> {
        match PatternID::new(number(text)?) {
            Ok(id) => Ok(id),
            Err(_) => Err(TextError::Malformed(Part::PatternId)),
        }
    }
}

/// Adds the values of a list that is not empty.
fn add_items<T: Item, A: Allocator>(items: &mut Vec<T, A>, text: &str) -> Result<(), TextError> {
    for word in text.split(',') {
        items.push(T::read(word)?)?;
    }
    Ok(())
}

/// Returns the values of a list, which is empty for `-` and for an empty text.
pub fn items<T: Item, A: Allocator>(alloc: A, text: &str) -> Result<Vec<T, A>, TextError> {
    let mut items = Vec::new(alloc);
    if !is_none(text) {
        add_items(&mut items, text)?;
    }
    Ok(items)
}

/// Returns the assertion of this name.
pub fn look(text: &str) -> Result<Look, TextError> {
    for (name, look) in looks() {
        if *name == text {
            return Ok(*look);
        }
    }
    Err(TextError::Malformed(Part::Look))
}

/// Bytes, written as lower-case hexadecimal digits.
#[derive(Clone, Copy)]
pub struct Hex<'a>(pub &'a [u8]);

impl fmt::Display for Hex<'_> {
    fn fmt<W: fmt::Write>(&self, f: &mut fmt::Formatter<W>) -> fmt::Result {
        for byte in self.0 {
            write!(f, "{byte:02x}")?;
        }
        Ok(())
    }
}

/// The last match of a walk, written as `match P E` with its pattern and its end, or as `none`.
#[derive(Clone, Copy)]
pub struct LastMatch(pub Option<HalfMatch>);

impl fmt::Display for LastMatch {
    fn fmt<W: fmt::Write>(&self, f: &mut fmt::Formatter<W>) -> fmt::Result {
        match self.0 {
            Some(HalfMatch { pattern, offset }) => {
                let pattern = pattern.as_u32();
                write!(f, "match {pattern} {offset}")
            }
            None => f.write_str("none"),
        }
    }
}
