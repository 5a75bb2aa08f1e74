//! Operators of repetitions.

ghost use Rattle.std.specs.Prelude.{◌≡◌, ◌<◌, ◌∷◌, [], ℕ, Bool, IfErr, IfNone, IfOk, IfSome, List, MatchOption, OnOk, OnSome, Some, false, length, true};
ghost use Rattle.determinize_syntax.specs.Private.Following.{AfterOperator, CountsTo, FromItem, FromOperator, IsCount, NoDigit, Unlimited};
ghost use Rattle.determinize_syntax.specs.Private.Names.{is_local};
ghost use Rattle.determinize_syntax.specs.Private.Reading.{IsDigit, Part, Reads, rest};
ghost use Rattle.determinize_syntax.specs.declared.flags.Flags.{Flags};
ghost use Rattle.determinize_syntax.specs.Spells.{Operator};
ghost use Rattle.determinize_syntax.specs.Words.{◌∈◌, number};

use crate::cursor::Cursor;
use crate::error::{ErrorKind, Rejection};

/// How often a pattern is repeated.
#[derive(Clone, Copy)]
pub struct Bounds {
    pub min: u32,
    pub max: Option<u32>,
}

/// Reads an operator, if there is one.
pub fn operator(cursor: &mut Cursor<'_>) -> Result<Option<Bounds>, Rejection>
    ensures read { IfOk result (λ o. IfSome o (λ b.
        Reads cursor.old cursor.new (Operator b.min b.max))) }
    ensures progress { IfOk result (λ o. OnSome o
        (length (rest cursor.new) < length (rest cursor.old))) }
    ensures none { IfOk result (λ o. IfNone o (cursor.new ≡ cursor.old)) }
    ensures whole { (k : List Flags) (f : Flags) (e : Bool) → FromOperator k f e (rest cursor.old)
        → Unlimited result (λ o. MatchOption o (FromItem k f (rest cursor.new))
        (λ b. AfterOperator k f (rest cursor.new))) }
    ensures local { IfErr result (λ e. is_local e.kind ≡ true) }
{
    let Some(next) = cursor.peek() else {
        return Ok(None);
    };
    if let Some(bounds) = bounds_of(next) {
        cursor.pass();
        return Ok(Some(bounds));
    }
    let start = cursor.left();
    if !cursor.take(b'{') {
        return Ok(None);
    }
    let bounds = counts(cursor, start)?;
    Ok(Some(bounds))
}

/// Returns the bounds of `*`, `+` or `?`.
fn bounds_of(sign: u8) -> Option<Bounds>
    ensures some { IfSome result (λ b. Operator b.min b.max (sign ∷ []) × (sign ∈ "*+?" ≡ true)) }
    ensures none { IfNone result (sign ∈ "*+?" ≡ false) }
{
    match sign {
        b'*' => Some(Bounds { min: 0, max: None }),
        b'+' => Some(Bounds { min: 1, max: None }),
        b'?' => Some(Bounds {
            min: 0,
            max: Some(1),
        }),
        _ => None,
    }
}

/// Reads counts after their brace, which is at `start`.
fn counts(cursor: &mut Cursor<'_>, start: usize) -> Result<Bounds, Rejection>
    ensures read { IfOk result (λ b.
        Reads cursor.old cursor.new (λ t. Operator b.min b.max (0x7B ∷ t))) }
    ensures whole { (u : List ℕ) → CountsTo u (rest cursor.old)
        → Unlimited result (λ b. rest cursor.new ≡ u) }
    ensures local { IfErr result (λ e. is_local e.kind ≡ true) }
{
    let min = decimal(cursor, start)?;
    if cursor.take(b'}') {
        return Ok(Bounds {
            min,
            max: Some(min),
        });
    }
    if !cursor.take(b',') {
        return Err(cursor.error_since(start, ErrorKind::RepetitionCountUnclosed));
    }
    if cursor.take(b'}') {
        return Ok(Bounds { min, max: None });
    }
    let max = decimal(cursor, start)?;
    if !cursor.take(b'}') {
        return Err(cursor.error_since(start, ErrorKind::RepetitionCountUnclosed));
    }
    if max < min {
        let _ = cursor.take(b'?');
        return Err(cursor.error_since(start, ErrorKind::RepetitionCountInvalid));
    }
    Ok(Bounds {
        min,
        max: Some(max),
    })
}

/// Reads a number of the counts whose brace is at `start`.
fn decimal(cursor: &mut Cursor<'_>, start: usize) -> Result<u32, Rejection>
    ensures read { IfOk result (λ n. Reads cursor.old cursor.new (λ t. number 10 t ≡ Some n)) }
    ensures whole { (n : ℕ) (u : List ℕ) → Part (rest cursor.old) u (IsCount n) → NoDigit 10 u
        → Unlimited result (λ m. (m ≡ n) × (rest cursor.new ≡ u)) }
    ensures local { IfErr result (λ e. is_local e.kind ≡ true) }
{
    let first = cursor.left();
    let Some(mut value) = digit(cursor) else {
        return Err(match cursor.peek() {
            None => cursor.error_since(start, ErrorKind::RepetitionCountUnclosed),
            Some(_) => cursor.error_before(ErrorKind::RepetitionCountDecimalEmpty),
        });
    };
    while let Some(next) = digit(cursor) {
        let Some(tenfold) = value.checked_mul(10) else {
            return Err(too_large(cursor, first));
        };
        let Some(grown) = tenfold.checked_add(next) else {
            return Err(too_large(cursor, first));
        };
        value = grown;
    }
    Ok(value)
}

/// Passes a digit and returns its value.
fn digit(cursor: &mut Cursor<'_>) -> Option<u32>
    ensures read { IfSome result (λ n.
        Reads cursor.old cursor.new (IsDigit 10 n)) }
    ensures none { IfNone result (cursor.new ≡ cursor.old) }
    ensures past { IfNone result (NoDigit 10 (rest cursor.old)) }
{
    let next = cursor.peek()?;
    if !next.is_ascii_digit() {
        return None;
    }
    cursor.pass();
    Some(u32::from(next - b'0'))
}

/// Passes the digits that are left, and returns the error of the number that begins at `first`.
fn too_large(cursor: &mut Cursor<'_>, first: usize) -> Rejection
    ensures { is_local result.kind ≡ true }
{
    while let Some(_) = digit(cursor) {}
    cursor.error_since(first, ErrorKind::DecimalInvalid)
}
