//! The flags of patterns.

ghost use Rattle.std.specs.Prelude.{◌≡◌, ◌<◌, ◌++◌, ◌∷◌, ◌==◌, ◌⊎◌, [], ℕ, Bool, IfErr, IfNone, IfOk, IfSome, List, MatchOption, OnOk, OnSome, Some, false, length, true};
ghost use Rattle.std.specs.List.{list_any};
ghost use Rattle.determinize_syntax.specs.Private.Following.{FromAtom, FromItem, IsAfterLetters, IsBranchEnd, Unlimited};
ghost use Rattle.determinize_syntax.specs.Private.Letters.{Letters};
ghost use Rattle.determinize_syntax.specs.Private.Names.{is_local};
ghost use Rattle.determinize_syntax.specs.Private.Reading.{IsFlag, IsNotAt, IsSetting, Reads, SetsMore, rest};
ghost use Rattle.determinize_syntax.specs.Spells.{Sets};
ghost use Rattle.determinize_syntax.specs.Words as words;
ghost use Rattle.determinize_syntax.specs.Words.{◌∈◌, knows_cases, no_flags};

use crate::cursor::Cursor;
use crate::error::{ErrorKind, Rejection};

/// The flags that hold at a place of a pattern.
#[derive(Clone, Copy, Debug, PartialEq, Eq)]
pub struct Flags {
    /// `i`: an ASCII letter also reads its other case.
    pub case_insensitive: bool,
    /// `m`: `^` and `$` are the ends of lines too.
    pub multi_line: bool,
    /// `s`: `.` reads the ends of lines too.
    pub dot_matches_new_line: bool,
    /// `U`: operators are lazy, and with a `?` greedy.
    pub swap_greed: bool,
    /// `R`: lines end with `\n`, `\r` or `\r\n`.
    pub crlf: bool,
    /// `u`: `.`, brackets and escapes as `\xE9` read characters, as their bytes in UTF-8.
    pub unicode: bool,
}

impl Flags {
    /// Returns the flags of which none is set.
    pub fn new() -> Flags
        ensures { result ≡ no_flags }
    {
        Flags {
            case_insensitive: false,
            multi_line: false,
            dot_matches_new_line: false,
            swap_greed: false,
            crlf: false,
            unicode: false,
        }
    }

    /// Returns whether the cases of letters are known: under `i` they are not where `u` holds.
    pub(crate) fn know_cases(self) -> bool
        ensures { result ≡ knows_cases self }
    {
        !(self.unicode && self.case_insensitive)
    }
}

/// Reads `(?flags)`, if it is next, and returns the flags that it makes of these.
pub(crate) fn setting(cursor: &mut Cursor<'_>, flags: Flags) -> Result<Option<Flags>, Rejection>
    ensures read { IfOk result (λ o. IfSome o (λ g.
        Reads cursor.old cursor.new (IsSetting flags g))) }
    ensures progress { IfOk result (λ o. OnSome o
        (length (rest cursor.new) < length (rest cursor.old))) }
    ensures none { IfOk result (λ o. IfNone o (cursor.new ≡ cursor.old)) }
    ensures whole { (k : List Flags) → FromItem k flags (rest cursor.old)
        → Unlimited result (λ o. MatchOption o
        (IsBranchEnd (rest cursor.old) ⊎ FromAtom k flags (rest cursor.old))
        (λ g. FromItem k g (rest cursor.new))) }
    ensures local { IfErr result (λ e. is_local e.kind ≡ true) }
{
    let mut ahead = *cursor;
    if !ahead.take(b'(') || !ahead.take(b'?') || begins_other(&ahead) {
        return Ok(None);
    }
    if ahead.peek().is_none() {
        return Err(cursor.error_here(ErrorKind::GroupUnclosed));
    }
    if ahead.take(b')') {
        let mark = cursor.left().saturating_sub(1);
        return Err(Rejection::new(ErrorKind::RepetitionMissing, mark, mark));
    }
    let set = letters(&mut ahead, flags)?;
    if !ahead.take(b')') {
        return Ok(None);
    }
    *cursor = ahead;
    Ok(Some(set))
}

/// Returns whether no flags follow a `(?`, but a name, or what looks ahead or behind.
fn begins_other(cursor: &Cursor<'_>) -> bool
    ensures begun { result ≡ true → (c : ℕ) × (t : List ℕ) × (rest cursor.now ≡ c ∷ t)
        × ((c ∈ "<=!P") ≡ true) }
    ensures other { result ≡ false → IsNotAt 0x3C cursor.now }
    ensures unnamed { result ≡ false → (t : List ℕ) → rest cursor.now ≡ 0x50 ∷ 0x3C ∷ t → ⊥ }
{
    match cursor.rest {
        [b'<' | b'=' | b'!', ..] | [b'P', b'<', ..] => true,
        _ => false,
    }
}

/// Reads letters of flags up to a `:` or `)`, and returns the flags that they make of these.
pub(crate) fn letters(cursor: &mut Cursor<'_>, flags: Flags) -> Result<Flags, Rejection>
    ensures read { IfOk result (λ g. Reads cursor.old cursor.new
        (λ t. (on : Bool) × Sets flags on g t)) }
    ensures whole { (g : Flags) (u : List ℕ) → Letters g u [] true flags (rest cursor.old)
        → IsAfterLetters u → Unlimited result (λ h. (h ≡ g) × (rest cursor.new ≡ u)) }
    ensures local { IfErr result (λ e. is_local e.kind ≡ true) }
{
    let start = *cursor;
    let mut flags = flags;
    let mut on = true;
    loop {
        match cursor.peek() {
            None => return Err(cursor.error_here(ErrorKind::FlagUnexpectedEof)),
            Some(b':' | b')') => break,
            Some(_) => {}
        }
        let seen = cursor.since(start);
        (flags, on) = next_flag(cursor, seen, flags, on)?;
    }
    Ok(flags)
}

/// Reads the letter of a flag, or a `-` and a letter, and returns the flags that it makes of these,
/// and whether the next letter sets a flag.
fn next_flag(
    cursor: &mut Cursor<'_>,
    seen: &[u8],
    flags: Flags,
    on: bool,
) -> Result<(Flags, bool), Rejection>
    ensures read { IfOk result (λ r. Reads cursor.old cursor.new
        (SetsMore seen.now on flags r.1 r.0)) }
    ensures whole { (g : Flags) (u : List ℕ) → Letters g u seen.now on flags (rest cursor.old)
        → IsAfterLetters u → (IsAfterLetters (rest cursor.old) → ⊥)
        → Unlimited result (λ r. Reads cursor.old cursor.new
        (λ t. Letters g u (seen.now ++ t) r.1 r.0 (rest cursor.new))) }
    ensures progress { OnOk result (length (rest cursor.new) < length (rest cursor.old)) }
    ensures local { IfErr result (λ e. is_local e.kind ≡ true) }
{
    let place = cursor.left();
    if !cursor.take(b'-') {
        let set = letter(cursor, seen, flags, on)?;
        return Ok((set, on));
    }
    if !on {
        return Err(Rejection::at(ErrorKind::FlagRepeatedNegation, place));
    }
    if let Some(b':' | b')') = cursor.peek() {
        return Err(Rejection::at(ErrorKind::FlagDanglingNegation, place));
    }
    let set = letter(cursor, seen, flags, false)?;
    Ok((set, false))
}

/// Reads the letter of a flag that is not yet among the letters seen, and sets or clears it.
fn letter(cursor: &mut Cursor<'_>, seen: &[u8], flags: Flags, on: bool) -> Result<Flags, Rejection>
    ensures read { IfOk result (λ g. Reads cursor.old cursor.new (IsFlag seen.now flags on g)) }
    ensures whole { (c : ℕ) (t : List ℕ) (g : Flags) → rest cursor.old ≡ c ∷ t
        → list_any (λ d. d == c) seen.now ≡ false → words.set_flag flags c on ≡ Some g
        → Unlimited result (λ h. (h ≡ g) × (rest cursor.new ≡ t)) }
    ensures progress { OnOk result (length (rest cursor.new) < length (rest cursor.old)) }
    ensures local { IfErr result (λ e. is_local e.kind ≡ true) }
{
    let Some(letter) = cursor.peek() else {
        return Err(cursor.error_here(ErrorKind::FlagUnexpectedEof));
    };
    if letter == b'-' {
        return Err(cursor.error_here(ErrorKind::FlagRepeatedNegation));
    }
    if seen.contains(&letter) {
        return Err(cursor.error_here(ErrorKind::FlagDuplicate));
    }
    let Some(set) = set_flag(flags, letter, on) else {
        return Err(cursor.error_here(match letter {
            b'x' => ErrorKind::FlagUnsupported,
            _ => ErrorKind::FlagUnrecognized,
        }));
    };
    cursor.pass();
    Ok(set)
}

/// Returns the flags once the letter has set or cleared one, if it is the letter of a flag.
fn set_flag(flags: Flags, letter: u8, on: bool) -> Option<Flags>
    ensures { result ≡ words.set_flag flags letter on }
{
    let mut set = flags;
    match letter {
        b'i' => set.case_insensitive = on,
        b'm' => set.multi_line = on,
        b's' => set.dot_matches_new_line = on,
        b'U' => set.swap_greed = on,
        b'R' => set.crlf = on,
        b'u' => set.unicode = on,
        _ => return None,
    }
    Some(set)
}
