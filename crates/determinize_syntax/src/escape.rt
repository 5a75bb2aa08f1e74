//! What follows a backslash.

ghost use Rattle.std.specs.Prelude.{◌≡◌, ◌*◌, ◌+◌, ◌<◌, ◌≤◌, ◌++◌, ◌∷◌, ℕ, IfErr, IfNone, IfOk, IfSome, List, OnErr, OnOk, OnSome, Some, codes, false, length, slice_get, true};
ghost use Rattle.std.specs.Char.{is_digit};
ghost use Rattle.std.specs.List.{list_all};
ghost use Rattle.determinize_syntax.specs.Private.Following.{IsPastBoundary, MayPrecede, Unlimited};
ghost use Rattle.determinize_syntax.specs.Private.Following as following;
ghost use Rattle.determinize_syntax.specs.declared.escape.Escape.{Escape};
ghost use Rattle.determinize_syntax.specs.Private.Names.{is_local};
ghost use Rattle.determinize_syntax.specs.Private.Letters.{AtEscape, AtNumber};
ghost use Rattle.determinize_syntax.specs.Private.Reading as reading;
ghost use Rattle.determinize_syntax.specs.Private.Reading.{IsDigit, IsDigits, IsEscape, Part, Reads, is_available, rest};
ghost use Rattle.determinize_syntax.specs.Words as words;
ghost use Rattle.determinize_syntax.specs.Words.{number};

use crate::cursor::Cursor;
use crate::error::{ErrorKind, Rejection};
use crate::flags::Flags;
use crate::kind::ClassKind;
use determinize_below::Look;

/// What an escape denotes.
#[derive(Clone, Copy)]
pub enum Escape {
    /// A byte, as `\n`, or, where `u` holds, the character with its number.
    Byte(u8),
    /// A character beyond ASCII, as `\x{E9}`.
    Wide(char),
    /// A class, as `\d`, with whether it has all other bytes, as `\D`.
    Class(ClassKind, bool),
    /// An assertion, as `\b`.
    Look(Look),
}

impl Escape {
    /// Returns the error if tables of Unicode are needed under these flags.
    pub fn unavailable(self, flags: Flags) -> Option<ErrorKind>
        ensures none { IfNone result (is_available flags self ≡ true) }
        ensures some { OnSome result (is_available flags self ≡ false) }
        ensures local { IfSome result (λ kind. is_local kind ≡ true) }
    {
        let (available, kind) = match self {
            Escape::Class(..) => (!flags.unicode, ErrorKind::UnicodePerlClassNotFound),
            Escape::Look(look) => (
                !flags.unicode || is_text_end(look),
                ErrorKind::UnicodeWordUnavailable,
            ),
            _ => (flags.know_cases(), ErrorKind::UnicodeCaseUnavailable),
        };
        if available { None } else { Some(kind) }
    }
}

/// Returns whether the assertion is `\A` or `\z`, which are not about words.
fn is_text_end(look: Look) -> bool
    ensures { result ≡ words.is_text_end look }
{
    matches!(look, Look::Start | Look::End)
}

/// Reads an escape after its backslash, which is at `start`.
pub fn read_escape(cursor: &mut Cursor<'_>, start: usize) -> Result<Escape, Rejection>
    ensures read { IfOk result (λ e.
        Reads cursor.old cursor.new (λ t. IsEscape e (0x5C ∷ t))) }
    ensures whole { (e : Escape) (u : List ℕ) → AtEscape u e (rest cursor.old) → MayPrecede e u
        → Unlimited result (λ d. (d ≡ e) × (rest cursor.new ≡ u)) }
    ensures local { IfErr result (λ e. is_local e.kind ≡ true) }
{
    let Some(next) = cursor.peek() else {
        return Err(cursor.error_since(start, ErrorKind::EscapeUnexpectedEof));
    };
    if let Some(escape) = one_byte(next) {
        cursor.pass();
        return Ok(escape);
    }
    if cursor.take(b'x') {
        return hex(cursor);
    }
    if !cursor.take(b'b') {
        return Err(unrecognized(cursor, start, next));
    }
    Ok(Escape::Look(boundary(cursor)?))
}

/// Returns the error of an escape that has no meaning, whose byte after the backslash is `next`.
fn unrecognized(cursor: &Cursor<'_>, start: usize, next: u8) -> Rejection
    ensures { is_local result.kind ≡ true }
{
    let kind = match next {
        b'0'..=b'9' => ErrorKind::UnsupportedBackreference,
        b'u' | b'U' | b'p' | b'P' => ErrorKind::UnicodeNotAllowed,
        _ => ErrorKind::EscapeUnrecognized,
    };
    Rejection::new(kind, start, cursor.after_next())
}

/// Returns the escape of a backslash and one byte, which is not `x` or `b`.
fn one_byte(byte: u8) -> Option<Escape>
    ensures { result ≡ reading.one_byte byte }
{
    match byte {
        b'A' => Some(Escape::Look(Look::Start)),
        b'z' => Some(Escape::Look(Look::End)),
        b'B' => Some(Escape::Look(Look::WordAsciiNegate)),
        b'<' => Some(Escape::Look(Look::WordStartAscii)),
        b'>' => Some(Escape::Look(Look::WordEndAscii)),
        b'd' => Some(Escape::Class(ClassKind::Digit, false)),
        b'D' => Some(Escape::Class(ClassKind::Digit, true)),
        b's' => Some(Escape::Class(ClassKind::Space, false)),
        b'S' => Some(Escape::Class(ClassKind::Space, true)),
        b'w' => Some(Escape::Class(ClassKind::Word, false)),
        b'W' => Some(Escape::Class(ClassKind::Word, true)),
        b'a' => Some(Escape::Byte(7)),
        b't' => Some(Escape::Byte(9)),
        b'n' => Some(Escape::Byte(10)),
        b'v' => Some(Escape::Byte(11)),
        b'f' => Some(Escape::Byte(12)),
        b'r' => Some(Escape::Byte(13)),
        _ if byte.is_ascii() && !byte.is_ascii_alphanumeric() => Some(Escape::Byte(byte)),
        _ => None,
    }
}

/// Reads the rest of a boundary after `\b`.
fn boundary(cursor: &mut Cursor<'_>) -> Result<Look, Rejection>
    ensures read { IfOk result (λ l.
        Reads cursor.old cursor.new (λ t. words.assertion (0x62 ∷ t) ≡ Some l)) }
    ensures whole { (l : _) (u : List ℕ)
        → Part (rest cursor.old) u (λ t. words.assertion (0x62 ∷ t) ≡ Some l) → IsPastBoundary u
        → Unlimited result (λ m. (m ≡ l) × (rest cursor.new ≡ u)) }
    ensures local { IfErr result (λ e. is_local e.kind ≡ true) }
{
    let brace = cursor.left();
    let mut ahead = *cursor;
    if !ahead.take(b'{') {
        return Ok(Look::WordAscii);
    }
    if ahead.peek().is_none() {
        return Err(ahead.error_since(brace, ErrorKind::SpecialWordOrRepetitionUnexpectedEof));
    }
    let first = ahead;
    pass_letters(&mut ahead);
    let name = ahead.since(first);
    if name.is_empty() {
        return Ok(Look::WordAscii);
    }
    let last = ahead.left();
    if !ahead.take(b'}') {
        return Err(ahead.error_since(brace, ErrorKind::SpecialWordBoundaryUnclosed));
    }
    let Some(look) = boundary_of(name) else {
        return Err(Rejection::new(
            ErrorKind::SpecialWordBoundaryUnrecognized,
            first.left(),
            last,
        ));
    };
    *cursor = ahead;
    Ok(look)
}

/// Passes letters and hyphens.
pub fn pass_letters(cursor: &mut Cursor<'_>)
    ensures read { Reads cursor.old cursor.new (λ t. list_all following.is_in_boundary t ≡ true) }
    ensures past { (c : ℕ) → slice_get (rest cursor.new) 0 ≡ Some c
        → following.is_in_boundary c ≡ false }
{
    while let Some(next) = cursor.peek() {
        if !is_in_boundary(next) {
            break;
        }
        cursor.pass();
    }
}

/// Returns whether the byte is a letter or a hyphen.
fn is_in_boundary(byte: u8) -> bool
    ensures { result ≡ following.is_in_boundary byte }
{
    byte.is_ascii_alphabetic() || byte == b'-'
}

/// Returns the boundary of this name.
fn boundary_of(name: &[u8]) -> Option<Look>
    ensures some { IfSome result (λ l.
        words.assertion (codes "b{" ++ name.now ++ codes "}") ≡ Some l) }
    ensures none { IfNone result ((l : _) →
        words.assertion (codes "b{" ++ name.now ++ codes "}") ≡ Some l → ⊥) }
{
    if name == "start".as_bytes() {
        return Some(Look::WordStartAscii);
    }
    if name == "end".as_bytes() {
        return Some(Look::WordEndAscii);
    }
    if name == "start-half".as_bytes() {
        return Some(Look::WordStartHalfAscii);
    }
    if name == "end-half".as_bytes() {
        return Some(Look::WordEndHalfAscii);
    }
    None
}

/// Reads what follows `\x`.
fn hex(cursor: &mut Cursor<'_>) -> Result<Escape, Rejection>
    ensures read { IfOk result (λ e.
        Reads cursor.old cursor.new (λ t. IsEscape e (0x5C ∷ 0x78 ∷ t))) }
    ensures whole { (e : Escape) (u : List ℕ) → AtNumber u e (rest cursor.old)
        → Unlimited result (λ d. (d ≡ e) × (rest cursor.new ≡ u)) }
    ensures local { IfErr result (λ e. is_local e.kind ≡ true) }
{
    let brace = cursor.left();
    if cursor.take(b'{') {
        return braces(cursor, brace);
    }
    let high = hex_digit(cursor, brace)?;
    let place = cursor.left();
    let low = hex_digit(cursor, place)?;
    Ok(Escape::Byte((high * 16 + low) as u8))
}

/// Reads a number after the brace of `\x{`, which is at `brace`.
fn braces(cursor: &mut Cursor<'_>, brace: usize) -> Result<Escape, Rejection>
    ensures read { IfOk result (λ e.
        Reads cursor.old cursor.new (λ t. IsEscape e (0x5C ∷ 0x78 ∷ 0x7B ∷ t))) }
    ensures whole { (e : Escape) (u : List ℕ) → AtNumber u e (0x7B ∷ rest cursor.old)
        → Unlimited result (λ d. (d ≡ e) × (rest cursor.new ≡ u)) }
    ensures local { IfErr result (λ e. is_local e.kind ≡ true) }
{
    let first = cursor.left();
    if cursor.take(b'}') {
        return Err(cursor.error_since(brace, ErrorKind::EscapeHexEmpty));
    }
    let value = hex_number(cursor, brace)?;
    let last = cursor.left();
    if !cursor.take(b'}') {
        return Err(cursor.error_since(brace, ErrorKind::EscapeUnexpectedEof));
    }
    if value < 128 {
        return Ok(Escape::Byte(value as u8));
    }
    match char::from_u32(value) {
        Some(character) => Ok(Escape::Wide(character)),
        None => Err(Rejection::new(ErrorKind::EscapeHexInvalid, first, last)),
    }
}

/// Reads digits up to a brace. A number that is too large for a character is returned as some
/// other such number.
fn hex_number(cursor: &mut Cursor<'_>, brace: usize) -> Result<u32, Rejection>
    ensures read { IfOk result (λ n. Reads cursor.old cursor.new (IsDigits n)) }
    ensures whole { (n : ℕ) (u : List ℕ)
        → Part (rest cursor.old) (0x7D ∷ u) (λ t. number 16 t ≡ Some n)
        → Unlimited result (λ m. (n ≤ 0x10_FFFF → m ≡ n) × (rest cursor.new ≡ 0x7D ∷ u)) }
    ensures local { IfErr result (λ e. is_local e.kind ≡ true) }
{
    let mut value = hex_digit(cursor, brace)?;
    loop {
        if cursor.is_at(b'}') {
            break;
        }
        let digit = hex_digit(cursor, brace)?;
        value = with_digit(value, digit);
    }
    Ok(value)
}

/// Returns the number with one more digit, or itself if it is too large for a character.
fn with_digit(value: u32, digit: u32) -> u32
    requires { digit < 16 }
    ensures read { result ≤ 0x10_FFFF → (value ≤ 0x10_FFFF) × (result ≡ value * 16 + digit) }
    ensures small { value ≤ 0x10_FFFF → result ≡ value * 16 + digit }
{
    if value > 0x10_FFFF {
        return value;
    }
    value * 16 + digit
}

/// Reads a digit. If the text ends here, the error is from `from` to its end.
fn hex_digit(cursor: &mut Cursor<'_>, from: usize) -> Result<u32, Rejection>
    ensures read { IfOk result (λ n. Reads cursor.old cursor.new (IsDigit 16 n)) }
    ensures small { IfOk result (λ n. n < 16) }
    ensures other { OnErr result ((d : ℕ) → slice_get (rest cursor.old) 0 ≡ Some d
        → is_digit d 16 ≡ false) }
    ensures progress { OnOk result (length (rest cursor.new) < length (rest cursor.old)) }
    ensures local { IfErr result (λ e. is_local e.kind ≡ true) }
{
    let Some(next) = cursor.peek() else {
        return Err(cursor.error_since(from, ErrorKind::EscapeUnexpectedEof));
    };
    let Some(digit) = char::from(next).to_digit(16) else {
        return Err(cursor.error_here(ErrorKind::EscapeHexInvalidDigit));
    };
    cursor.pass();
    Ok(digit)
}
