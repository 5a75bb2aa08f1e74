//! Classes that have a name or a letter.

ghost use Rattle.std.specs.Prelude.{◌≡◌, IfNone, IfOk, IfSome, None, Some, true};
ghost use Rattle.determinize_pattern.specs.Classes.{HasBytes, pairs};
ghost use Rattle.determinize_syntax.specs.Private.Sets.{name_of, set_of, turned};
ghost use Rattle.determinize_syntax.specs.Words.{folded, is_text, named_class};

use crate::class::class;
use crate::flags::Flags;
use determinize_pattern::{ClassBytes, ClassBytesRange};
use std::alloc::{AllocError, Global};

/// A class that has a name or a letter.
#[derive(Clone, Copy)]
pub enum ClassKind {
    Alnum,
    Alpha,
    Ascii,
    Blank,
    Cntrl,
    Digit,
    Graph,
    Lower,
    Print,
    Punct,
    Space,
    Upper,
    Word,
    Xdigit,
}

/// The classes that have a name.
const KINDS: [ClassKind; 14] = [
    ClassKind::Alnum,
    ClassKind::Alpha,
    ClassKind::Ascii,
    ClassKind::Blank,
    ClassKind::Cntrl,
    ClassKind::Digit,
    ClassKind::Graph,
    ClassKind::Lower,
    ClassKind::Print,
    ClassKind::Punct,
    ClassKind::Space,
    ClassKind::Upper,
    ClassKind::Word,
    ClassKind::Xdigit,
];

impl ClassKind {
    /// Returns the class of this name, as in `[:alpha:]`.
    pub fn from_name(name: &[u8]) -> Option<ClassKind>
        ensures some { IfSome result (λ k. named_class name.now ≡ Some (set_of k)) }
        ensures none { IfNone result (named_class name.now ≡ None) }
    {
        for kind in KINDS {
            if kind.name().as_bytes() == name {
                return Some(kind);
            }
        }
        None
    }

    /// Returns the name of the class.
    fn name(self) -> &'static str
        ensures class { named_class result.now ≡ Some (set_of self) }
        ensures text { is_text (name_of self) result.now ≡ true }
    {
        match self {
            ClassKind::Alnum => "alnum",
            ClassKind::Alpha => "alpha",
            ClassKind::Ascii => "ascii",
            ClassKind::Blank => "blank",
            ClassKind::Cntrl => "cntrl",
            ClassKind::Digit => "digit",
            ClassKind::Graph => "graph",
            ClassKind::Lower => "lower",
            ClassKind::Print => "print",
            ClassKind::Punct => "punct",
            ClassKind::Space => "space",
            ClassKind::Upper => "upper",
            ClassKind::Word => "word",
            ClassKind::Xdigit => "xdigit",
        }
    }

    /// Returns whether the class has the byte.
    fn contains(self, byte: u8) -> bool
        ensures { result ≡ set_of self byte }
    {
        match self {
            ClassKind::Alnum => byte.is_ascii_alphanumeric(),
            ClassKind::Alpha => byte.is_ascii_alphabetic(),
            ClassKind::Ascii => byte.is_ascii(),
            ClassKind::Blank => byte == b'\t' || byte == b' ',
            ClassKind::Cntrl => byte.is_ascii_control(),
            ClassKind::Digit => byte.is_ascii_digit(),
            ClassKind::Graph => byte.is_ascii_graphic(),
            ClassKind::Lower => byte.is_ascii_lowercase(),
            ClassKind::Print => byte >= b' ' && byte <= b'~',
            ClassKind::Punct => byte.is_ascii_punctuation(),
            ClassKind::Space => matches!(byte, 9..=13 | b' '),
            ClassKind::Upper => byte.is_ascii_uppercase(),
            ClassKind::Word => byte.is_ascii_alphanumeric() || byte == b'_',
            ClassKind::Xdigit => byte.is_ascii_hexdigit(),
        }
    }

    /// Returns the bytes of the class.
    fn members(self, alloc: Global) -> Result<Vec<ClassBytesRange>, AllocError>
        ensures { IfOk result (λ v. HasBytes (set_of self) (pairs v.items)) }
    {
        let mut members = Vec::new(alloc);
        for i in 0..256_usize {
            let byte = i as u8;
            if self.contains(byte) {
                let range = ClassBytesRange {
                    start: byte,
                    end: byte,
                };
                members.push(range)?;
            }
        }
        Ok(members)
    }

    /// Returns the class, under `i` in both cases, or that of all other bytes if `negated` is set.
    pub fn class(self, alloc: Global, flags: Flags, negated: bool) -> Result<ClassBytes, AllocError>
        ensures { IfOk result (λ c. HasBytes (turned negated (folded flags (set_of self))) c) }
    {
        let members = self.members(alloc)?;
        class(alloc, &members, flags, negated)
    }
}
