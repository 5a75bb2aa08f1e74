//! The text of a pattern, in the syntax of regex-syntax.
//!
//! It is the text of a pattern over bytes, to be read with the flag `(?-u)`. A byte that is no
//! printable ASCII character is written `\xHH`.

use crate::class::ClassBytes;
use crate::pattern::Pattern;
use determinize_below::Look;
use std::fmt;

/// The text of the pattern of the empty text.
const EMPTY: &str = "(?:)";

/// The text of the class without bytes.
const NONE: &str = "[^\\x00-\\xFF]";

/// Writes the pattern as text, with groups where they are needed.
impl fmt::Display for Pattern {
    fn fmt<W: fmt::Write>(&self, f: &mut fmt::Formatter<W>) -> fmt::Result {
        write_bare(f, self)
    }
}

/// Writes the same text as `Display`.
impl fmt::Debug for Pattern {
    fn fmt<W: fmt::Write>(&self, f: &mut fmt::Formatter<W>) -> fmt::Result {
        write_bare(f, self)
    }
}

/// The place of a part in the text: which parts need a group there.
#[derive(Clone, Copy)]
enum Place {
    /// A branch of an alternation, or a part of a concatenation.
    Branch,
    /// In front of an operator.
    Operand,
}

/// Writes a part of a pattern, in a group where its place needs one.
#[cycle(write_bare)]
fn write_part<W: fmt::Write>(
    f: &mut fmt::Formatter<W>,
    pattern: &Pattern,
    place: Place,
) -> fmt::Result {
    if needs_group(pattern, place) {
        write_group(f, "(?:", pattern)
    } else {
        write_bare(f, pattern)
    }
}

/// Writes a pattern in a group, which begins with this text.
#[cycle(write_bare)]
fn write_group<W: fmt::Write>(
    f: &mut fmt::Formatter<W>,
    opening: &str,
    pattern: &Pattern,
) -> fmt::Result {
    f.write_str(opening)?;
    write_bare(f, pattern)?;
    f.write_str(")")
}

/// Returns whether a pattern needs a group in this place.
fn needs_group(pattern: &Pattern, place: Place) -> bool {
    match (pattern, place) {
        (Pattern::Alternation(subs), _) => !subs.is_empty(),
        (Pattern::Literal(bytes), Place::Operand) => bytes.len() > 1,
        (Pattern::Concat(subs), Place::Operand) => !subs.is_empty(),
        (Pattern::Look(_) | Pattern::Repetition { .. }, Place::Operand) => true,
        _ => false,
    }
}

/// Writes a pattern without a group around it.
#[cycle(write_bare)]
fn write_bare<W: fmt::Write>(f: &mut fmt::Formatter<W>, pattern: &Pattern) -> fmt::Result {
    match pattern {
        Pattern::Empty => f.write_str(EMPTY),
        Pattern::Literal(bytes) => write_literal(f, bytes),
        Pattern::Class(class) => write_class(f, class),
        Pattern::Look(look) => f.write_str(look_text(*look)),
        Pattern::Repetition {
            min,
            max,
            greedy,
            sub,
        } => {
            write_part(f, sub, Place::Operand)?;
            write_operator(f, *min, *max)?;
            if *greedy { Ok(()) } else { f.write_str("?") }
        }
        Pattern::Capture(sub) => write_group(f, "(", sub),
        Pattern::Concat(subs) => write_all(f, subs, "", EMPTY),
        Pattern::Alternation(subs) => write_all(f, subs, "|", NONE),
    }
}

/// Writes patterns with a separator between them, or the text `none` if there is none.
#[cycle(write_bare)]
fn write_all<W: fmt::Write>(
    f: &mut fmt::Formatter<W>,
    subs: &[Pattern],
    separator: &str,
    none: &str,
) -> fmt::Result {
    if subs.is_empty() {
        return f.write_str(none);
    }
    for i in 0..subs.len() {
        if i > 0 {
            f.write_str(separator)?;
        }
        write_part(f, &subs[i], Place::Branch)?;
    }
    Ok(())
}

/// Writes the bytes of a literal.
fn write_literal<W: fmt::Write>(f: &mut fmt::Formatter<W>, bytes: &[u8]) -> fmt::Result {
    if bytes.is_empty() {
        return f.write_str(EMPTY);
    }
    for byte in bytes {
        write_byte(f, *byte)?;
    }
    Ok(())
}

/// Writes a class of bytes in brackets: each range as one byte, or two with a hyphen between them.
fn write_class<W: fmt::Write>(f: &mut fmt::Formatter<W>, class: &ClassBytes) -> fmt::Result {
    let ranges = class.ranges();
    if ranges.is_empty() {
        return f.write_str(NONE);
    }
    f.write_str("[")?;
    for range in ranges {
        write_byte(f, range.start)?;
        if range.start != range.end {
            f.write_str("-")?;
            write_byte(f, range.end)?;
        }
    }
    f.write_str("]")
}

/// Writes a byte: escaped if it has a meaning in the syntax, and in hexadecimal if it is not
/// printable ASCII.
fn write_byte<W: fmt::Write>(f: &mut fmt::Formatter<W>, byte: u8) -> fmt::Result {
    if byte < 32 || byte > 126 {
        return write!(f, "\\x{byte:02X}");
    }
    if is_meta(byte) {
        f.write_str("\\")?;
    }
    f.write_char(char::from(byte))
}

/// Returns whether the byte is an operator of the syntax.
fn is_meta(byte: u8) -> bool {
    matches!(
        byte,
        b'\\'
            | b'.'
            | b'+'
            | b'*'
            | b'?'
            | b'('
            | b')'
            | b'|'
            | b'['
            | b']'
            | b'{'
            | b'}'
            | b'^'
            | b'$'
            | b'#'
            | b'&'
            | b'-'
            | b'~'
    )
}

/// Writes the operator of a repetition.
fn write_operator<W: fmt::Write>(
    f: &mut fmt::Formatter<W>,
    min: u32,
    max: Option<u32>,
) -> fmt::Result {
    match (min, max) {
        (0, None) => f.write_str("*"),
        (1, None) => f.write_str("+"),
        (0, Some(1)) => f.write_str("?"),
        _ => write_counts(f, min, max),
    }
}

/// Writes the counts of a repetition in braces.
fn write_counts<W: fmt::Write>(
    f: &mut fmt::Formatter<W>,
    min: u32,
    max: Option<u32>,
) -> fmt::Result {
    write!(f, "{{{min}")?;
    match max {
        None => f.write_str(",}"),
        Some(max) if max <= min => f.write_str("}"),
        Some(max) => write!(f, ",{max}}}"),
    }
}

/// Returns the text of an assertion.
fn look_text(look: Look) -> &'static str {
    match look {
        Look::Start => "\\A",
        Look::End => "\\z",
        Look::StartLF => "(?m:^)",
        Look::EndLF => "(?m:$)",
        Look::StartCRLF => "(?mR:^)",
        Look::EndCRLF => "(?mR:$)",
        Look::WordAscii => "\\b",
        Look::WordAsciiNegate => "\\B",
        Look::WordUnicode => "(?u:\\b)",
        Look::WordUnicodeNegate => "(?u:\\B)",
        Look::WordStartAscii => "\\b{start}",
        Look::WordEndAscii => "\\b{end}",
        Look::WordStartUnicode => "(?u:\\b{start})",
        Look::WordEndUnicode => "(?u:\\b{end})",
        Look::WordStartHalfAscii => "\\b{start-half}",
        Look::WordEndHalfAscii => "\\b{end-half}",
        Look::WordStartHalfUnicode => "(?u:\\b{start-half})",
        Look::WordEndHalfUnicode => "(?u:\\b{end-half})",
    }
}
