//! Classes of bytes: a DFA needs one column for each class, where it would need 256 for all bytes.
//!
//! `NFA::byte_classes` puts bytes into one class exactly if every state has the same target on them
//! and no assertion distinguishes them. Classes are numbered from 0 in the order of their least
//! bytes. EOI is in none of them: its number is that of a class after the last.

ghost use Rattle.std.specs.Prelude.{◌≡◌, ◌+◌, ◌<◌, ◌≤◌, length, take};
ghost use Rattle.determinize_below.specs.ByteClasses.{AreClasses, class_of};
ghost use Rattle.determinize_below.specs.Unit as units;

use crate::alphabet::Unit;
use std::fmt;
use std::marker::Model;

/// The class of each byte.
#[derive(Clone, Drop)]
pub struct ByteClasses {
    /// The classes, indexed by byte.
    classes: [u8; 256],
    /// The least bytes of the classes, and behind them anything.
    firsts: [u8; 256],
    /// The number of classes.
    len: usize,
}

impl Model for ByteClasses {
    ghost use Rattle.std.specs.Prelude.{◌≤◌, take};
    ghost use Rattle.determinize_below.specs.ByteClasses.{AreClasses, Classes};

    ghost Value = { Classes };

    ghost view = { λ c. record { of_bytes = c.classes; firsts = take c.len c.firsts } };

    ghost invariant = { λ c. (c.len ≤ 256)
        × AreClasses record { of_bytes = c.classes; firsts = take c.len c.firsts } };
}

impl ByteClasses {
    /// Returns the classes with these parts: the class of each byte, and the least byte of each
    /// class.
    pub(crate) fn from_parts(classes: [u8; 256], firsts: [u8; 256], len: usize) -> ByteClasses
        requires room { len ≤ 256 }
        requires sound { AreClasses record { of_bytes = classes; firsts = take len firsts } }
        ensures { result ≡ record { of_bytes = classes; firsts = take len firsts } }
    {
        ByteClasses {
            classes,
            firsts,
            len,
        }
    }

    /// Returns the class of the byte.
    pub fn get(&self, byte: u8) -> u8
        ensures class { result ≡ class_of self.now byte }
        ensures within { result < length self.now.firsts }
    {
        self.classes[usize::from(byte)]
    }

    /// Returns the number of classes and one for EOI: from 2 to 257.
    pub fn alphabet_len(&self) -> usize
        ensures count { result ≡ length self.now.firsts + 1 }
        ensures some { 2 ≤ result }
        ensures limit { result ≤ 257 }
        ensures sound { AreClasses self.now }
    {
        self.len + 1
    }

    /// Returns EOI, with the number after those of the classes.
    pub fn eoi(&self) -> Unit
        ensures { result ≡ units.End (length self.now.firsts) }
    {
        Unit::eoi(self.len)
    }

    /// Returns the least byte of each class, in the order of the classes. These bytes ascend.
    pub fn representatives(&self) -> &[u8]
        ensures firsts { result.now ≡ self.now.firsts }
        ensures sound { AreClasses self.now }
    {
        &self.firsts[..self.len]
    }
}

impl fmt::Debug for ByteClasses {
    /// Writes the class of each byte that is not in the class of the byte before it.
    fn fmt<W: fmt::Write>(&self, f: &mut fmt::Formatter<W>) -> fmt::Result {
        let mut before = "ByteClasses(";
        for byte in 0..=255u8 {
            let class = self.get(byte);
            if byte == 0 || class != self.get(byte - 1) {
                write!(f, "{before}{byte}.. => {class}")?;
                before = ", ";
            }
        }
        f.write_str(")")
    }
}
