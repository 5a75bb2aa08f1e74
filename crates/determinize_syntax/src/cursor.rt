//! A place in the text of a pattern.

ghost use Rattle.std.specs.Prelude.{◌≡◌, ◌≤◌, ◌++◌, ◌∷◌, ℕ, IfNone, IfSome, List, Some, encode_utf8, false, slice_get, true};
ghost use Rattle.std.specs.Char.{len_utf8};
ghost use Rattle.determinize_syntax.specs.Private.Reading.{IsNotAt, rest};
ghost use Rattle.determinize_syntax.specs.Spells.{IsWide};

use crate::error::{ErrorKind, Rejection};

/// The place up to which the bytes of a text were read.
#[derive(Clone, Copy)]
pub struct Cursor<'a> {
    /// The bytes that are still to be read.
    pub rest: &'a [u8],
}

impl<'a> Cursor<'a> {
    /// Returns the beginning of the text.
    pub fn new(text: &'a str) -> Cursor<'a>
        ensures { rest result ≡ text.now }
    {
        Cursor {
            rest: text.as_bytes(),
        }
    }

    /// Returns the number of bytes that are left, which is how a place is kept.
    pub fn left(&self) -> usize {
        self.rest.len()
    }

    /// Returns the number of bytes that are left after the next character.
    pub fn after_next(&self) -> usize {
        match self.peek() {
            None => 0,
            Some(byte) => self.left().saturating_sub(width(byte)),
        }
    }

    /// Returns the next byte.
    pub fn peek(&self) -> Option<u8>
        ensures { result ≡ slice_get (rest self.now) 0 }
    {
        self.rest.first().copied()
    }

    /// Returns whether the byte is the next one.
    pub fn is_at(&self, byte: u8) -> bool
        ensures here { result ≡ true → slice_get (rest self.now) 0 ≡ Some byte }
        ensures other { result ≡ false → IsNotAt byte self.now }
    {
        matches!(self.peek(), Some(next) if next == byte)
    }

    /// Passes the byte if it is the next one.
    pub fn take(&mut self, byte: u8) -> bool
        ensures read { result ≡ true → rest self.old ≡ byte ∷ rest self.new }
        ensures left { result ≡ false → self.new ≡ self.old }
        ensures other { result ≡ false → IsNotAt byte self.old }
    {
        match self.peek() {
            Some(next) if next == byte => {
                self.rest = &self.rest[1..];
                true
            }
            _ => false,
        }
    }

    /// Passes the next byte, if there is one.
    pub fn pass(&mut self)
        ensures { (c : ℕ) → slice_get (rest self.old) 0 ≡ Some c
            → rest self.old ≡ c ∷ rest self.new }
    {
        if let [_, rest @ ..] = self.rest {
            self.rest = rest;
        }
    }

    /// Passes a character beyond ASCII and returns it.
    pub fn take_wide(&mut self) -> Option<char>
        ensures read { IfSome result (λ c.
            IsWide c × (rest self.old ≡ encode_utf8 c ++ rest self.new)) }
        ensures other { IfNone result ((c : ℕ) (t : List ℕ) → IsWide c
            → rest self.old ≡ encode_utf8 c ++ t → ⊥) }
    {
        let width = width(self.peek()?);
        if self.rest.len() < width {
            return None;
        }
        let (front, back) = self.rest.split_at(width);
        let Ok(text) = str::from_utf8(front) else {
            return None;
        };
        let mut chars = text.chars();
        let character = chars.next()?;
        if (character as u32) < 128 || !chars.as_str().is_empty() {
            return None;
        }
        self.rest = back;
        Some(character)
    }

    /// Returns the bytes that were read since `start`.
    pub fn since(&self, start: Cursor<'a>) -> &'a [u8]
        ensures { (t : List ℕ) → rest start.entry ≡ t ++ rest self.now → result.now ≡ t }
    {
        let len = start.rest.len().saturating_sub(self.rest.len());
        &start.rest[..len]
    }

    /// Returns an error from the place `start` to the next byte.
    pub fn error_since(&self, start: usize, kind: ErrorKind) -> Rejection
        ensures { result.kind ≡ kind }
    {
        Rejection::new(kind, start, self.left())
    }

    /// Returns an error at the next character, or at the end of the text.
    pub fn error_here(&self, kind: ErrorKind) -> Rejection
        ensures { result.kind ≡ kind }
    {
        Rejection::new(kind, self.left(), self.after_next())
    }

    /// Returns an error between this byte and the one before.
    pub fn error_before(&self, kind: ErrorKind) -> Rejection
        ensures { result.kind ≡ kind }
    {
        self.error_since(self.left(), kind)
    }
}

/// Returns how many bytes the character has in UTF-8 that begins with the byte.
pub fn width(byte: u8) -> usize
    ensures { (c : ℕ) (t : List ℕ) → 128 ≤ c → encode_utf8 c ≡ byte ∷ t → result ≡ len_utf8 c }
{
    match byte {
        0..=0x7F => 1,
        0x80..=0xDF => 2,
        0xE0..=0xEF => 3,
        _ => 4,
    }
}
