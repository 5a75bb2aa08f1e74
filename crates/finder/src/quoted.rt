//! What messages print of bytes and of errors.

use std::io::ErrorKind;
use std::{fmt, io};

/// Bytes as messages print them: UTF-8 as it is, but control characters, and bytes that are not
/// UTF-8, as `\x1B`.
#[derive(Clone, Copy)]
pub struct Quoted<'a>(pub &'a [u8]);

impl fmt::Display for Quoted<'_> {
    fn fmt<W: fmt::Write>(&self, f: &mut fmt::Formatter<W>) -> fmt::Result {
        for chunk in self.0.utf8_chunks() {
            write_chars(f, chunk.valid())?;
            for byte in chunk.invalid() {
                write_code(f, u32::from(*byte))?;
            }
        }
        Ok(())
    }
}

/// Writes a text, its control characters as numbers.
fn write_chars<W: fmt::Write>(f: &mut fmt::Formatter<W>, text: &str) -> fmt::Result {
    for c in text.chars() {
        if c.is_control() {
            write_code(f, u32::from(c))?;
        } else {
            f.write_char(c)?;
        }
    }
    Ok(())
}

/// Writes a byte, or a character, as a number.
fn write_code<W: fmt::Write>(f: &mut fmt::Formatter<W>, code: u32) -> fmt::Result {
    write!(f, "\\x{code:02X}")
}

/// Why something failed, as messages print it.
#[derive(Clone, Copy)]
pub enum Reason<'a> {
    Text(&'a str),
    Error(&'a io::Error),
}

impl<'a> Reason<'a> {
    /// Returns the reason of an error, in the words of the C library if it is a frequent one.
    pub fn of(error: &'a io::Error) -> Reason<'a> {
        Reason::Text(match error.kind() {
            ErrorKind::NotFound => "No such file or directory",
            ErrorKind::PermissionDenied => "Permission denied",
            ErrorKind::IsADirectory => "Is a directory",
            ErrorKind::NotADirectory => "Not a directory",
            ErrorKind::StorageFull => "No space left on device",
            ErrorKind::OutOfMemory => "memory exhausted",
            ErrorKind::InvalidFilename => "a name is too long or not UTF-8",
            _ => return Reason::Error(error),
        })
    }
}

impl fmt::Display for Reason<'_> {
    fn fmt<W: fmt::Write>(&self, f: &mut fmt::Formatter<W>) -> fmt::Result {
        match self {
            Reason::Text(text) => f.write_str(text),
            Reason::Error(error) => fmt::Display::fmt(*error, f),
        }
    }
}
