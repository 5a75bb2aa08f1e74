//! Units of input: the 256 byte values and a sentinel for end of input (EOI).
//!
//! Matches are delayed by one unit so that assertions can look ahead, so a walk feeds one unit
//! after the last byte, usually EOI. EOI is equal to no byte, is no word byte and no NFA state has
//! a transition on it.

ghost use Rattle.std.specs.Prelude.{◌≡◌, ℕ, ◌≤◌, Option, Bool};
ghost use Rattle.std.specs.Option.{is_none};
ghost use Rattle.determinize_below.specs.Semantics as semantics;
ghost use Rattle.determinize_below.specs.Unit as units;

use crate::sparse_set::is_bit_set;
use std::marker::Model;

pub mod classes;

pub use classes::ByteClasses;

/// A bit for each byte: 1 for digits and letters of ASCII and for the underscore.
const WORD_BYTES: [u64; 4] = [0x03FF_0000_0000_0000, 0x07FF_FFFE_87FF_FFFE, 0, 0];

/// Returns whether the byte is an ASCII digit, an ASCII letter or an underscore.
pub fn is_word_byte(byte: u8) -> bool
    ensures { result ≡ semantics.is_word_byte byte }
{
    is_bit_set(&WORD_BYTES, byte as usize)
}

/// A byte or EOI.
///
/// EOI carries a number from 0 to 256 that is visible only to `==` and `Debug`: determinization
/// treats every EOI alike.
#[derive(Clone, Copy, Debug, PartialEq, Eq)]
pub struct Unit(UnitKind);

#[derive(Clone, Copy, Debug, PartialEq, Eq)]
enum UnitKind {
    U8(u8),
    Eoi(u16),
}

impl Model for Unit {
    ghost use Rattle.std.specs.Prelude.{◌≤◌};
    ghost use Rattle.determinize_below.specs.Unit.{Symbol, symbol_of, kind_of, eoi_number};

    ghost Value = { Symbol };

    ghost view = { λ u. symbol_of u.0 };

    ghost invariant = { λ u. eoi_number (symbol_of u.0) ≤ 256 };

    ghost inverse = { λ s. record { 0 = kind_of s } };
}

/// Returns the unit of this byte, or EOI with the number 256 for `None`.
impl From<Option<u8>> for Unit {
    ghost use Rattle.std.specs.Prelude.{None};

    ghost from_gives = { λ byte u. (units.byte_of u ≡ byte) × (byte ≡ None → u ≡ units.End 256) };

    fn from(byte: Option<u8>) -> Unit {
        match byte {
            Some(value) => Unit::u8(value),
            None => Unit::eoi(256),
        }
    }
}

impl Unit {
    /// Returns the unit of this byte.
    pub fn u8(byte: u8) -> Unit
        ensures { result ≡ units.Byte byte }
    {
        Unit(UnitKind::U8(byte))
    }

    /// Returns EOI with this number, which must be at most 256.
    pub fn eoi(number: usize) -> Unit
        requires { number ≤ 256 }
        ensures { result ≡ units.End number }
    {
        Unit(UnitKind::Eoi(number as u16))
    }

    /// Returns the byte, or `None` for EOI.
    pub fn as_u8(self) -> Option<u8>
        ensures byte { result ≡ units.byte_of self }
        ensures limit { units.eoi_number self ≤ 256 }
    {
        match self.0 {
            UnitKind::U8(value) => Some(value),
            UnitKind::Eoi(_) => None,
        }
    }

    /// Returns whether the unit is this byte, which is false for EOI.
    pub fn is_byte(self, byte: u8) -> bool
        ensures { result ≡ semantics.is (units.byte_of self) byte }
    {
        self.as_u8() == Some(byte)
    }

    /// Returns whether the unit is EOI.
    pub fn is_eoi(self) -> bool
        ensures { result ≡ is_none (units.byte_of self) }
    {
        self.as_u8().is_none()
    }

    /// Returns whether the unit is a word byte, which is false for EOI.
    pub fn is_word_byte(self) -> bool
        ensures { result ≡ semantics.is_word (units.byte_of self) }
    {
        match self.as_u8() {
            Some(byte) => is_word_byte(byte),
            None => false,
        }
    }
}
