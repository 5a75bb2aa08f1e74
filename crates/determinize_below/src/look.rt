//! Look-around assertions and sets of them.
//!
//! An assertion is a condition on the bytes before and after a position. A `Look` state of an NFA
//! has an epsilon transition that may be taken only where its assertion holds. Its two bytes are
//! those before and after the position in reading order, so in a reverse NFA `Start` holds at the
//! end of the haystack. `determinize_start` computes which assertions hold; here are only their
//! bits.

ghost use Rattle.std.specs.Prelude.{◌≡◌, ℕ, ◌^◌, ◌<◌, ◌==◌, ◌&&◌, bit_and, bit_or, false, not};
ghost use Rattle.std.specs.Bool.{Decides};
ghost use Rattle.determinize_below.specs.Look.{bit_of, has};
ghost use Rattle.determinize_below.specs.Look as looks;
ghost use Rattle.determinize_below.specs.declared.look.Look.{Look as Assertion};

use std::marker::Model;

/// A look-around assertion. The discriminants are the bits of a `LookSet`.
#[derive(Clone, Copy, Debug, PartialEq, Eq)]
pub enum Look {
    /// The start of the haystack.
    Start = 0x1,
    /// The end of the haystack.
    End = 0x2,
    /// The start of a line: the start of the haystack, or after the line terminator.
    StartLF = 0x4,
    /// The end of a line: the end of the haystack, or before the line terminator.
    EndLF = 0x8,
    /// The start of a line, where `\r`, `\n` and `\r\n` end lines; never between `\r` and `\n`.
    StartCRLF = 0x10,
    /// The end of a line, where `\r`, `\n` and `\r\n` end lines; never between `\r` and `\n`.
    EndCRLF = 0x20,
    /// A word boundary: a word byte on exactly one side.
    WordAscii = 0x40,
    /// No word boundary: a word byte on both sides or on neither.
    WordAsciiNegate = 0x80,
    /// Treated as `WordAscii`.
    WordUnicode = 0x100,
    /// Treated as `WordAsciiNegate`.
    WordUnicodeNegate = 0x200,
    /// The start of a word: a word byte after the position and none before it.
    WordStartAscii = 0x400,
    /// The end of a word: a word byte before the position and none after it.
    WordEndAscii = 0x800,
    /// Treated as `WordStartAscii`.
    WordStartUnicode = 0x1000,
    /// Treated as `WordEndAscii`.
    WordEndUnicode = 0x2000,
    /// The left half of a word start: no word byte before the position.
    WordStartHalfAscii = 0x4000,
    /// The right half of a word end: no word byte after the position.
    WordEndHalfAscii = 0x8000,
    /// Treated as `WordStartHalfAscii`.
    WordStartHalfUnicode = 0x10000,
    /// Treated as `WordEndHalfAscii`.
    WordEndHalfUnicode = 0x20000,
}

impl Look {
    /// Returns the bit of the assertion, one of the lowest 18.
    #[inline(always)]
    pub fn as_repr(self) -> u32
        ensures { result ≡ bit_of self }
    {
        self as u32
    }

    /// Returns the assertion that holds at the same position when the text is read in the other
    /// direction. Starts and ends are exchanged, `\b` and its negation stay.
    pub fn reversed(self) -> Look
        ensures { result ≡ looks.reversed self }
    {
        match self {
            Look::Start => Look::End,
            Look::End => Look::Start,
            Look::StartLF => Look::EndLF,
            Look::EndLF => Look::StartLF,
            Look::StartCRLF => Look::EndCRLF,
            Look::EndCRLF => Look::StartCRLF,
            Look::WordAscii => Look::WordAscii,
            Look::WordAsciiNegate => Look::WordAsciiNegate,
            Look::WordUnicode => Look::WordUnicode,
            Look::WordUnicodeNegate => Look::WordUnicodeNegate,
            Look::WordStartAscii => Look::WordEndAscii,
            Look::WordEndAscii => Look::WordStartAscii,
            Look::WordStartUnicode => Look::WordEndUnicode,
            Look::WordEndUnicode => Look::WordStartUnicode,
            Look::WordStartHalfAscii => Look::WordEndHalfAscii,
            Look::WordEndHalfAscii => Look::WordStartHalfAscii,
            Look::WordStartHalfUnicode => Look::WordEndHalfUnicode,
            Look::WordEndHalfUnicode => Look::WordStartHalfUnicode,
        }
    }
}

/// A set of assertions as a bit set: one bit per assertion, the upper 14 bits are zero. No method
/// allocates.
#[derive(Clone, Copy, Debug, PartialEq, Eq)]
pub struct LookSet {
    bits: u32,
}

impl Model for LookSet {
    ghost use Rattle.std.specs.Prelude.{ℕ, ◌^◌, ◌<◌};

    ghost Value = { ℕ };

    ghost view = { λ s. s.bits };

    ghost invariant = { λ s. s.bits < 2 ^ 18 };

    ghost inverse = { λ n. record { bits = n } };
}

#[tactic(auto, using(crate::proofs::looks::LookBounds::bit_small, crate::proofs::looks::LookBounds::or_of_18), unfolding(crate::specs::Look::has, crate::specs::Look::insert, crate::specs::Look::remove, crate::specs::Look::subtract, crate::specs::Look::meets))]
impl LookSet {
    /// Returns the empty set.
    pub fn empty() -> LookSet
        ensures { result ≡ 0 }
    {
        LookSet { bits: 0 }
    }

    /// Returns the set with these bits. Only the lowest 18 may be set.
    pub fn from_repr(bits: u32) -> LookSet
        requires { bits < 2 ^ 18 }
        ensures { result ≡ bits }
    {
        LookSet { bits }
    }

    /// Returns the bits of the set, which are below 2^18.
    pub fn as_repr(self) -> u32
        ensures value { result ≡ self }
        ensures small { self < 2 ^ 18 }
    {
        self.bits
    }

    /// Returns whether the set contains the assertion.
    #[inline(always)]
    pub fn contains(self, look: Look) -> bool
        ensures { result ≡ has self look }
    {
        self.bits & look.as_repr() != 0
    }

    /// Returns the set with the assertion added.
    #[inline(always)]
    pub fn insert(self, look: Look) -> LookSet
        ensures { result ≡ looks.insert self look }
    {
        LookSet {
            bits: self.bits | look.as_repr(),
        }
    }

    /// Returns the set with the assertion removed.
    pub fn remove(self, look: Look) -> LookSet
        ensures { result ≡ looks.remove self look }
    {
        LookSet {
            bits: self.bits & !look.as_repr(),
        }
    }

    /// Returns the union of the two sets.
    pub fn union(self, other: LookSet) -> LookSet
        ensures { result ≡ looks.union self other }
    {
        LookSet {
            bits: self.bits | other.bits,
        }
    }

    /// Returns the intersection of the two sets.
    pub fn intersect(self, other: LookSet) -> LookSet
        ensures { result ≡ looks.intersect self other }
    {
        LookSet {
            bits: self.bits & other.bits,
        }
    }

    /// Returns the assertions in `self` that are not in `other`.
    pub fn subtract(self, other: LookSet) -> LookSet
        ensures value { result ≡ looks.subtract self other }
        ensures members { (look : Assertion)
            → has result look ≡ (has self look && not (has other look)) }
    {
        LookSet {
            bits: self.bits & !other.bits,
        }
    }

    /// Returns whether the set is empty.
    #[tactic(auto, using(crate::proofs::looks::LookSets::emptiness))]
    pub fn is_empty(self) -> bool
        ensures value { result ≡ (self == 0) }
        ensures members { Decides result ((look : Assertion) → has self look ≡ false) }
    {
        self.bits == 0
    }

    /// Returns whether the set contains `Start` or `End`.
    pub fn contains_anchor_haystack(self) -> bool
        ensures { result ≡ looks.has_haystack self }
    {
        self.bits & 0x3 != 0
    }

    /// Returns whether the set contains one of the four line assertions.
    pub fn contains_anchor_line(self) -> bool
        ensures { result ≡ looks.has_line self }
    {
        self.bits & 0x3C != 0
    }

    /// Returns whether the set contains `StartCRLF` or `EndCRLF`.
    pub fn contains_anchor_crlf(self) -> bool
        ensures { result ≡ looks.has_crlf self }
    {
        self.bits & 0x30 != 0
    }

    /// Returns whether the set contains one of the twelve word assertions.
    pub fn contains_word(self) -> bool
        ensures { result ≡ looks.has_word self }
    {
        self.bits & 0x3FFC0 != 0
    }
}

/// The configuration of line assertions: the line terminator of `StartLF` and `EndLF`.
#[derive(Clone, Copy, Debug)]
pub struct LookMatcher {
    line_terminator: u8,
}

impl Model for LookMatcher {
    ghost Value = { ℕ };

    ghost view = { λ m. m.line_terminator };

    ghost inverse = { λ n. record { line_terminator = n } };
}

impl LookMatcher {
    /// Returns a matcher with the line terminator `\n`.
    pub fn new() -> LookMatcher
        ensures { result ≡ 10 }
    {
        LookMatcher {
            line_terminator: b'\n',
        }
    }

    /// Sets the line terminator, which may be any byte, and returns `self`.
    pub fn set_line_terminator(&mut self, byte: u8) -> &mut LookMatcher
        ensures same { result.ghost_name ≡ self.entry.ghost_name }
        ensures set { result.now ≡ byte }
    {
        self.line_terminator = byte;
        self
    }

    /// Returns the line terminator.
    pub fn get_line_terminator(&self) -> u8
        ensures { result ≡ self.now }
    {
        let LookMatcher { line_terminator } = self;
        *line_terminator
    }
}

impl Default for LookMatcher {
    ghost is_default = { λ m. m ≡ 10 };

    fn default() -> LookMatcher {
        LookMatcher::new()
    }
}
