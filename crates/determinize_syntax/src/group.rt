//! What opens a group.

ghost use Rattle.std.specs.Prelude.{◌≡◌, ◌++◌, ◌∷◌, [], ℕ, IfErr, IfOk, List, MatchResult, OnOk, false, true};
ghost use Rattle.determinize_syntax.specs.Private.Following.{FromAtom, FromItem, Unlimited};
ghost use Rattle.determinize_syntax.specs.Private.Names.{IsRight, Passes, is_local};
ghost use Rattle.determinize_syntax.specs.Private.Reading.{IsNamed, Opens, Reads, rest};
ghost use Rattle.determinize_syntax.specs.declared.flags.Flags.{Flags};
ghost use Rattle.determinize_syntax.specs.Words as words;
ghost use Rattle.determinize_syntax.specs.Words.{◌∈◌, is_name};

use crate::cursor::Cursor;
use crate::error::{ErrorKind, Rejection};
use crate::flags::{Flags, letters};
use std::alloc::Global;
use std::collections::BTreeSet;

/// What is known of a text apart from the place and its flags.
#[derive(Drop)]
pub struct Context<'a> {
    pub alloc: Global,
    /// How deep groups and operators are in the part that was read last.
    pub depth: u8,
    /// The names of groups so far.
    pub names: BTreeSet<&'a [u8]>,
}

impl<'a> Context<'a> {
    /// Returns what is known before a text is read.
    pub fn new(alloc: Global) -> Context<'a>
        ensures { result.names.keys ≡ [] }
    {
        Context {
            alloc,
            depth: 0,
            names: BTreeSet::new(alloc),
        }
    }
}

/// What opens a group.
#[derive(Clone, Copy)]
pub struct Opening {
    /// Whether it is a group that is kept for printing.
    pub captures: bool,
    /// The flags at the beginning of the group.
    pub flags: Flags,
}

/// Reads what opens a group, after its parenthesis, which is at `start`.
pub fn read_opening<'a>(
    context: &mut Context<'a>,
    cursor: &mut Cursor<'a>,
    start: usize,
    flags: Flags,
) -> Result<Opening, Rejection>
    ensures read { IfOk result (λ o. Reads cursor.old cursor.new (Opens flags o.flags)) }
    ensures whole { (k : List Flags) → FromAtom k flags (0x28 ∷ rest cursor.old)
        → Unlimited result (λ o. FromItem (flags ∷ k) o.flags (rest cursor.new)) }
    ensures limits { (levels : ℕ) → MatchResult result
        (λ _. Passes context.old (rest cursor.old) 0 context.new (rest cursor.new))
        (IsRight levels context.old (rest cursor.old)) }
{
    let capture = Opening {
        captures: true,
        flags,
    };
    if !cursor.take(b'?') {
        return Ok(capture);
    }
    if cursor.take(b'P') {
        if !cursor.take(b'<') {
            return Err(cursor.error_here(ErrorKind::FlagUnrecognized));
        }
        name(context, cursor)?;
        return Ok(capture);
    }
    if cursor.take(b'<') {
        if looks_around(cursor) {
            return Err(cursor.error_since(start, ErrorKind::UnsupportedLookAround));
        }
        name(context, cursor)?;
        return Ok(capture);
    }
    if looks_around(cursor) {
        return Err(cursor.error_since(start, ErrorKind::UnsupportedLookAround));
    }
    let flags = letters(cursor, flags)?;
    if !cursor.take(b':') {
        return Err(cursor.error_here(ErrorKind::FlagUnrecognized));
    }
    Ok(Opening {
        captures: false,
        flags,
    })
}

/// Passes what makes of an opening one that looks ahead or behind.
fn looks_around(cursor: &mut Cursor<'_>) -> bool
    ensures left { result ≡ false → cursor.new ≡ cursor.old }
    ensures begun { result ≡ true → (c : ℕ) × (t : List ℕ) × (rest cursor.old ≡ c ∷ t)
        × ((c ∈ "=!") ≡ true) }
{
    cursor.take(b'=') || cursor.take(b'!')
}

/// Reads the name of a group and its end. No other group may have the name.
fn name<'a>(context: &mut Context<'a>, cursor: &mut Cursor<'a>) -> Result<(), Rejection>
    ensures read { OnOk result (Reads cursor.old cursor.new IsNamed) }
    ensures whole { (n u : List ℕ) → rest cursor.old ≡ n ++ 0x3E ∷ u → is_name n ≡ true
        → Unlimited result (λ r. rest cursor.new ≡ u) }
    ensures limits { (levels : ℕ) → MatchResult result
        (λ _. Passes context.old (0x3C ∷ rest cursor.old) 0 context.new (rest cursor.new))
        (IsRight levels context.old (0x3C ∷ rest cursor.old)) }
{
    let first = *cursor;
    if let Some(b'>') = cursor.peek() {
        return Err(cursor.error_before(ErrorKind::GroupNameEmpty));
    }
    letters_of_name(cursor)?;
    let name = cursor.since(first);
    let end = cursor.left();
    if !cursor.take(b'>') {
        return Err(unnamed(cursor));
    }
    if !context.names.insert(name)? {
        return Err(Rejection::new(ErrorKind::GroupNameDuplicate, first.left(), end));
    }
    Ok(())
}

/// Returns the error of a byte that the name of a group may not have.
fn unnamed(cursor: &Cursor<'_>) -> Rejection
    ensures { is_local result.kind ≡ true }
{
    cursor.error_here(match cursor.peek() {
        None => ErrorKind::GroupNameUnexpectedEof,
        Some(_) => ErrorKind::GroupNameInvalid,
    })
}

/// Reads the letters of a name.
fn letters_of_name(cursor: &mut Cursor<'_>) -> Result<(), Rejection>
    ensures read { OnOk result (Reads cursor.old cursor.new (λ t. is_name t ≡ true)) }
    ensures whole { (n u : List ℕ) → rest cursor.old ≡ n ++ 0x3E ∷ u → is_name n ≡ true
        → Unlimited result (λ r. rest cursor.new ≡ 0x3E ∷ u) }
    ensures local { IfErr result (λ e. is_local e.kind ≡ true) }
{
    let Some(first) = cursor.peek() else {
        return Err(unnamed(cursor));
    };
    if !begins_name(first) {
        return Err(unnamed(cursor));
    }
    cursor.pass();
    while let Some(next) = cursor.peek() {
        if !is_in_name(next) {
            break;
        }
        cursor.pass();
    }
    Ok(())
}

/// Returns whether a name may begin with the byte.
fn begins_name(byte: u8) -> bool
    ensures { result ≡ words.begins_name byte }
{
    byte.is_ascii_alphabetic() || byte == b'_'
}

/// Returns whether a name may have the byte, but for its first one.
fn is_in_name(byte: u8) -> bool
    ensures { result ≡ words.is_in_name byte }
{
    byte.is_ascii_alphanumeric() || matches!(byte, b'_' | b'.' | b'[' | b']')
}
