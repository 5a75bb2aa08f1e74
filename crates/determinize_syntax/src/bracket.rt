//! Brackets.

ghost use Rattle.std.specs.Prelude.{◌≡◌, ◌<◌, ◌++◌, ◌∷◌, ◌&&◌, [], ℕ, Bool, IfErr, IfOk, List, OnOk, Some, encode_utf8, false, length, not, slice_get, true};
ghost use Rattle.determinize_syntax.specs.Private.Following.{FromAtom, FromOperator, Unlimited};
ghost use Rattle.determinize_syntax.specs.Private.Letters.{AtBound, Inner, Item, Listing};
ghost use Rattle.std.specs.Char.{is_ascii};
ghost use Rattle.determinize_pattern.specs.Characters.{char_pairs};
ghost use Rattle.determinize_pattern.specs.Patterns.{meaning};
ghost use Rattle.determinize_syntax.specs.Private.Brackets.{Extends, IsBegun, IsInside};
ghost use Rattle.determinize_syntax.specs.Private.Names.{is_local};
ghost use Rattle.determinize_syntax.specs.Private.Reading.{IsNotAt, Part, Reads, rest};
ghost use Rattle.determinize_syntax.specs.Private.Sets.{AddsChars, set_of, turned};
ghost use Rattle.determinize_syntax.specs.Spells as spells;
ghost use Rattle.determinize_syntax.specs.Spells.{Atom, Bound, IsWide, Wide};
ghost use Rattle.determinize_syntax.specs.Words.{◌∈◌, folded, knows_cases};
ghost use Rattle.determinize_syntax.specs.declared.bracket.Before.TheVariants.{AfterOne, First};
ghost use Rattle.determinize_syntax.specs.declared.flags.Flags.{Flags};

use crate::class::one_of;
use crate::cursor::Cursor;
use crate::error::{ErrorKind, Rejection};
use crate::escape::{Escape, pass_letters, read_escape};
use crate::flags::Flags;
use crate::kind::ClassKind;
use determinize_pattern::{ClassUnicodeRange, Pattern};
use std::alloc::{AllocError, Global};

/// What is before a place in brackets.
#[derive(Clone, Copy)]
pub enum Before {
    /// Nothing, or hyphens.
    First,
    /// A range or a name, or a bracket in front.
    AfterRange,
    /// A class by a backslash.
    AfterClass,
    /// A hyphen.
    AfterHyphen,
    /// A byte or a character, with whether it is escaped or beyond ASCII.
    AfterOne(bool, char),
}

/// The items of brackets that were read.
#[derive(Drop)]
struct Items {
    /// The characters that are listed. A byte is listed as the character with its number.
    ranges: Vec<ClassUnicodeRange>,
    before: Before,
    /// The beginning of the brackets.
    start: usize,
    /// The place after what is in front: `^`, hyphens, or a bracket.
    opened: usize,
    /// The beginning of the last item.
    last: usize,
}

/// Reads brackets after the first one, which is at `start`.
pub fn bracket(
    alloc: Global,
    cursor: &mut Cursor<'_>,
    start: usize,
    flags: Flags,
) -> Result<Pattern, Rejection>
    ensures read { IfOk result (λ p. Reads cursor.old cursor.new
        (λ t. Atom flags (meaning p) (0x5B ∷ t))) }
    ensures whole { (k : List Flags) → FromAtom k flags (0x5B ∷ rest cursor.old)
        → Unlimited result (λ p. FromOperator k flags false (rest cursor.new)) }
    ensures local { IfErr result (λ e. is_local e.kind ≡ true) }
{
    let negated = cursor.take(b'^');
    let ranges = inside(alloc, cursor, start, flags)?;
    if !flags.know_cases() {
        return Err(cursor.error_since(start, ErrorKind::UnicodeCaseUnavailable));
    }
    let pattern = one_of(alloc, &ranges, flags, negated)?;
    Ok(pattern)
}

/// Reads the inside of brackets and the last bracket.
fn inside(
    alloc: Global,
    cursor: &mut Cursor<'_>,
    start: usize,
    flags: Flags,
) -> Result<Vec<ClassUnicodeRange>, Rejection>
    ensures read { IfOk result (λ v. Reads cursor.old cursor.new
        (IsInside flags (char_pairs v.items))) }
    ensures whole { (u : List ℕ) → Inner flags u (rest cursor.old) → knows_cases flags ≡ true
        → Unlimited result (λ v. rest cursor.new ≡ u) }
    ensures local { IfErr result (λ e. is_local e.kind ≡ true) }
{
    let mut items = front(alloc, cursor, start)?;
    loop {
        if cursor.take(b']') {
            return Ok(items.ranges);
        }
        if items.ends_with_hyphen(cursor)? {
            return Ok(items.ranges);
        }
        items.item(alloc, cursor, flags)?;
    }
}

/// Reads a bracket that is in front.
fn front(alloc: Global, cursor: &mut Cursor<'_>, start: usize) -> Result<Items, AllocError>
    ensures read { IfOk result (λ i. (f : Flags) → Reads cursor.old cursor.new
        (IsBegun f i.before (char_pairs i.ranges.items) cursor.new)) }
    ensures whole { IfOk result (λ i. (f : Flags) (u : List ℕ) → Inner f u (rest cursor.old)
        → Listing f u i.before (rest cursor.new)) }
{
    let mut items = Items {
        ranges: Vec::new(alloc),
        before: Before::First,
        start,
        opened: cursor.left(),
        last: cursor.left(),
    };
    if !cursor.take(b']') {
        return Ok(items);
    }
    items.add(']', ']', Before::AfterRange)?;
    items.opened = cursor.left();
    Ok(items)
}

impl Items {
    /// Adds the characters from `low` to `high`.
    fn add(&mut self, low: char, high: char, before: Before) -> Result<(), AllocError>
        ensures ranges { OnOk result (char_pairs self.new.ranges.items
            ≡ char_pairs self.old.ranges.items ++ (low, high) ∷ []) }
        ensures before { OnOk result (self.new.before ≡ before) }
    {
        let range = ClassUnicodeRange {
            start: low,
            end: high,
        };
        self.ranges.push(range)?;
        self.before = before;
        Ok(())
    }

    /// Adds the characters of the class, under `i` in both cases, or all others if `negated` is
    /// set.
    fn add_class(
        &mut self,
        alloc: Global,
        kind: ClassKind,
        flags: Flags,
        negated: bool,
        before: Before,
    ) -> Result<(), AllocError>
        ensures ranges { OnOk result (AddsChars (turned negated (folded flags (set_of kind)))
            (char_pairs self.old.ranges.items) (char_pairs self.new.ranges.items)) }
        ensures before { OnOk result (self.new.before ≡ before) }
    {
        let class = kind.class(alloc, flags, negated)?;
        let ranges = class.ranges();
        for range in ranges {
            if range.start.is_ascii() {
                let end = char::from(range.end.min(0x7F));
                self.add(char::from(range.start), end, before)?;
            }
        }
        self.before = before;
        if !negated {
            return Ok(());
        }
        self.add('\u{80}', '\u{10FFFF}', before)
    }

    /// Reads a hyphen and the last bracket, if the hyphen may be there.
    fn ends_with_hyphen(&mut self, cursor: &mut Cursor<'_>) -> Result<bool, AllocError>
        ensures read { IfOk result (λ b. b ≡ true
            → (spells.may_end self.old.before ≡ true)
            × (rest cursor.old ≡ 0x2D ∷ 0x5D ∷ rest cursor.new)
            × (char_pairs self.new.ranges.items
            ≡ char_pairs self.old.ranges.items ++ (0x2D, 0x2D) ∷ [])) }
        ensures left { IfOk result (λ b. b ≡ false
            → (cursor.new ≡ cursor.old) × (self.new ≡ self.old)) }
        ensures other { IfOk result (λ b. b ≡ false → spells.may_end self.old.before ≡ true
            → (t : List ℕ) → rest cursor.old ≡ 0x2D ∷ 0x5D ∷ t → ⊥) }
    {
        let mut ahead = *cursor;
        if !may_end(self.before) || !ahead.take(b'-') || !ahead.take(b']') {
            return Ok(false);
        }
        *cursor = ahead;
        self.add('-', '-', Before::AfterHyphen)?;
        Ok(true)
    }

    /// Reads an item.
    fn item(
        &mut self,
        alloc: Global,
        cursor: &mut Cursor<'_>,
        flags: Flags,
    ) -> Result<(), Rejection>
        ensures read { OnOk result (Reads cursor.old cursor.new (Extends flags self.old.before
            (char_pairs self.old.ranges.items) self.new.before
            (char_pairs self.new.ranges.items))) }
        ensures progress { OnOk result (length (rest cursor.new) < length (rest cursor.old)) }
        ensures whole { (u : List ℕ) → Item flags u self.old.before (rest cursor.old)
            → knows_cases flags ≡ true
            → Unlimited result (λ r. Listing flags u self.new.before (rest cursor.new)) }
        ensures local { IfErr result (λ e. is_local e.kind ≡ true) }
    {
        let place = cursor.left();
        if cursor.take(b'-') {
            return self.hyphen(cursor, place, flags);
        }
        if cursor.take(b'\\') {
            return self.escaped(alloc, cursor, place, flags);
        }
        if cursor.take(b'[') {
            return self.name(alloc, cursor, place, flags);
        }
        self.plain(cursor, flags)
    }

    /// Reads a literal byte or character.
    fn plain(&mut self, cursor: &mut Cursor<'_>, flags: Flags) -> Result<(), Rejection>
        ensures read { OnOk result (Reads cursor.old cursor.new (Extends flags self.old.before
            (char_pairs self.old.ranges.items) self.new.before
            (char_pairs self.new.ranges.items))) }
        ensures progress { OnOk result (length (rest cursor.new) < length (rest cursor.old)) }
        ensures whole { (u : List ℕ) → Item flags u self.old.before (rest cursor.old)
            → ((c : ℕ) → slice_get (rest cursor.old) 0 ≡ Some c → (c ∈ "-\\[") ≡ false)
            → Unlimited result (λ r. Listing flags u self.new.before (rest cursor.new)) }
        ensures local { IfErr result (λ e. is_local e.kind ≡ true) }
    {
        let place = cursor.left();
        let Some(next) = cursor.peek() else {
            return Err(self.unclosed());
        };
        let ascii = next.is_ascii();
        let character = if ascii {
            if !stands(self.before, next) {
                let after = cursor.after_next();
                return Err(Rejection::new(ErrorKind::ClassOperation, self.last, after));
            }
            cursor.pass();
            char::from(next)
        } else {
            wide(cursor, flags)?
        };
        self.last = place;
        self.add(character, character, Before::AfterOne(!ascii, character))?;
        Ok(())
    }

    /// Reads an escape after its backslash, which is at `place`.
    fn escaped(
        &mut self,
        alloc: Global,
        cursor: &mut Cursor<'_>,
        place: usize,
        flags: Flags,
    ) -> Result<(), Rejection>
        ensures read { OnOk result (Reads cursor.old cursor.new (λ t. Extends flags
            self.old.before (char_pairs self.old.ranges.items) self.new.before
            (char_pairs self.new.ranges.items) (0x5C ∷ t))) }
        ensures whole { (u : List ℕ) → Item flags u self.old.before (0x5C ∷ rest cursor.old)
            → Unlimited result (λ r. Listing flags u self.new.before (rest cursor.new)) }
        ensures local { IfErr result (λ e. is_local e.kind ≡ true) }
    {
        let escape = read_escape(cursor, place)?;
        self.last = place;
        let character = match escape {
            Escape::Byte(byte) => char::from(byte),
            Escape::Wide(character) if flags.unicode => character,
            Escape::Wide(_) => {
                return Err(cursor.error_since(place, ErrorKind::UnicodeNotAllowed));
            }
            Escape::Class(..) if flags.unicode => {
                return Err(cursor.error_since(place, ErrorKind::UnicodePerlClassNotFound));
            }
            Escape::Class(kind, negated) => {
                self.add_class(alloc, kind, Flags::new(), negated, Before::AfterClass)?;
                return Ok(());
            }
            Escape::Look(_) => return Err(self.assertion_error(cursor, flags)),
        };
        self.add(character, character, Before::AfterOne(true, character))?;
        Ok(())
    }

    /// Reads the name of a class after its bracket, which is at `place`.
    fn name(
        &mut self,
        alloc: Global,
        cursor: &mut Cursor<'_>,
        place: usize,
        flags: Flags,
    ) -> Result<(), Rejection>
        ensures read { OnOk result (Reads cursor.old cursor.new (λ t. Extends flags
            self.old.before (char_pairs self.old.ranges.items) self.new.before
            (char_pairs self.new.ranges.items) (0x5B ∷ t))) }
        ensures whole { (u : List ℕ) → Item flags u self.old.before (0x5B ∷ rest cursor.old)
            → knows_cases flags ≡ true
            → Unlimited result (λ r. Listing flags u self.new.before (rest cursor.new)) }
        ensures local { IfErr result (λ e. is_local e.kind ≡ true) }
    {
        if !cursor.take(b':') {
            return Err(Rejection::at(ErrorKind::ClassNested, place));
        }
        let negated = cursor.take(b'^');
        let first = *cursor;
        pass_letters(cursor);
        let Some(kind) = ClassKind::from_name(cursor.since(first)) else {
            return Err(Rejection::at(ErrorKind::ClassNested, place));
        };
        if !cursor.take(b':') || !cursor.take(b']') {
            return Err(Rejection::at(ErrorKind::ClassNested, place));
        }
        if !flags.know_cases() {
            return Err(cursor.error_since(place, ErrorKind::UnicodeCaseUnavailable));
        }
        self.add_class(alloc, kind, flags, negated, Before::AfterRange)?;
        Ok(())
    }

    /// Reads what follows a hyphen, which is at `place`.
    fn hyphen(
        &mut self,
        cursor: &mut Cursor<'_>,
        place: usize,
        flags: Flags,
    ) -> Result<(), Rejection>
        ensures read { OnOk result (Reads cursor.old cursor.new (λ t. Extends flags
            self.old.before (char_pairs self.old.ranges.items) self.new.before
            (char_pairs self.new.ranges.items) (0x2D ∷ t))) }
        ensures whole { (u : List ℕ) → Item flags u self.old.before (0x2D ∷ rest cursor.old)
            → Unlimited result (λ r. Listing flags u self.new.before (rest cursor.new)) }
        ensures local { IfErr result (λ e. is_local e.kind ≡ true) }
    {
        match self.before {
            Before::First => {
                if cursor.peek().is_none() {
                    let start = self.start;
                    return Err(Rejection::new(ErrorKind::ClassUnclosed, start, start));
                }
                self.opened = cursor.left();
                self.add('-', '-', Before::First)?;
                Ok(())
            }
            Before::AfterRange => {
                self.last = place;
                self.add('-', '-', Before::AfterHyphen)?;
                Ok(())
            }
            Before::AfterHyphen => { Err(cursor.error_since(self.last, ErrorKind::ClassOperation)) }
            Before::AfterClass => Err(self.class_in_range(cursor, place, flags)),
            Before::AfterOne(_, low) => self.range(cursor, place, low, flags),
        }
    }

    /// Reads the end of a range after its hyphen, which is at `place`.
    fn range(
        &mut self,
        cursor: &mut Cursor<'_>,
        place: usize,
        low: char,
        flags: Flags,
    ) -> Result<(), Rejection>
        ensures read { (e : Bool) → OnOk result (Reads cursor.old cursor.new
            (λ t. Extends flags (AfterOne e low) (char_pairs self.old.ranges.items)
            self.new.before (char_pairs self.new.ranges.items) (0x2D ∷ t))) }
        ensures whole { (e : Bool) (u : List ℕ)
            → Item flags u (AfterOne e low) (0x2D ∷ rest cursor.old)
            → Unlimited result (λ r. Listing flags u self.new.before (rest cursor.new)) }
        ensures local { IfErr result (λ e. is_local e.kind ≡ true) }
    {
        let high = self.bound(cursor, place, flags)?;
        if high < low {
            return Err(cursor.error_since(self.last, ErrorKind::ClassRangeInvalid));
        }
        self.add(low, high, Before::AfterRange)?;
        Ok(())
    }

    /// Reads the end of a range, whose hyphen is at `place`.
    fn bound(&self, cursor: &mut Cursor<'_>, place: usize, flags: Flags) -> Result<char, Rejection>
        ensures read { IfOk result (λ h. Reads cursor.old cursor.new (Bound flags h)) }
        ensures whole { (h : ℕ) (u : List ℕ) → AtBound flags h u (rest cursor.old)
            → Unlimited result (λ g. (g ≡ h) × (rest cursor.new ≡ u)) }
        ensures local { IfErr result (λ e. is_local e.kind ≡ true) }
    {
        let first = cursor.left();
        let Some(next) = cursor.peek() else {
            return Err(self.unclosed());
        };
        if cursor.take(b'\\') {
            let escape = read_escape(cursor, first)?;
            return match escape {
                Escape::Byte(byte) => Ok(char::from(byte)),
                Escape::Wide(character) if flags.unicode => Ok(character),
                Escape::Wide(_) => Err(cursor.error_since(first, ErrorKind::UnicodeNotAllowed)),
                _ => Err(cursor.error_since(first, ErrorKind::ClassRangeLiteral)),
            };
        }
        if cursor.take(b'-') {
            return Err(cursor.error_since(place, ErrorKind::ClassOperation));
        }
        if !next.is_ascii() {
            return wide(cursor, flags);
        }
        if !may_end_range(next) {
            return Err(cursor.error_here(ErrorKind::UnicodeNotAllowed));
        }
        cursor.pass();
        Ok(char::from(next))
    }

    /// Returns the error of a class before a hyphen, which is at `place`.
    fn class_in_range(&self, cursor: &mut Cursor<'_>, place: usize, flags: Flags) -> Rejection
        ensures { is_local result.kind ≡ true }
    {
        match self.bound(cursor, place, flags) {
            Err(error) if error.kind != ErrorKind::ClassRangeLiteral => error,
            _ => Rejection::new(ErrorKind::ClassRangeLiteral, self.last, place),
        }
    }

    /// Returns the error of an assertion, which ends here.
    fn assertion_error(&self, cursor: &mut Cursor<'_>, flags: Flags) -> Rejection
        ensures { is_local result.kind ≡ true }
    {
        let place = cursor.left();
        match cursor.rest {
            [] | [b'-'] => self.unclosed(),
            [b'-', b']' | b'-', ..] => {
                cursor.error_since(self.last, ErrorKind::ClassEscapeInvalid)
            }
            [b'-', ..] => {
                let _ = cursor.take(b'-');
                self.class_in_range(cursor, place, flags)
            }
            _ => cursor.error_since(self.last, ErrorKind::ClassEscapeInvalid),
        }
    }

    /// Returns the error of brackets that are not closed.
    fn unclosed(&self) -> Rejection
        ensures { is_local result.kind ≡ true }
    {
        Rejection::new(ErrorKind::ClassUnclosed, self.start, self.opened)
    }
}

/// Reads a character beyond ASCII, which brackets have only where `u` holds.
fn wide(cursor: &mut Cursor<'_>, flags: Flags) -> Result<char, Rejection>
    ensures read { IfOk result (λ c. Reads cursor.old cursor.new
        (λ t. (flags.unicode ≡ true) × Wide c t)) }
    ensures progress { OnOk result (length (rest cursor.new) < length (rest cursor.old)) }
    ensures whole { (c : ℕ) (u : List ℕ) → flags.unicode ≡ true → IsWide c
        → rest cursor.old ≡ encode_utf8 c ++ u
        → Unlimited result (λ d. (d ≡ c) × (rest cursor.new ≡ u)) }
    ensures local { IfErr result (λ e. is_local e.kind ≡ true) }
{
    let error = cursor.error_here(ErrorKind::UnicodeNotAllowed);
    if !flags.unicode {
        return Err(error);
    }
    match cursor.take_wide() {
        Some(character) => Ok(character),
        None => Err(error),
    }
}

/// Returns whether a hyphen may be the last before the bracket closes.
fn may_end(before: Before) -> bool
    ensures { result ≡ spells.may_end before }
{
    matches!(before, Before::AfterClass | Before::AfterOne(..))
}

/// Returns whether the byte is literal.
fn stands(before: Before, byte: u8) -> bool
    ensures { result ≡ spells.stands before byte }
{
    match before {
        Before::AfterOne(false, last)
            if last == char::from(byte) && (byte == b'&' || byte == b'~') => { false }
        _ => byte.is_ascii() && !matches!(byte, b'[' | b']' | b'\\' | b'-'),
    }
}

/// Returns whether the byte may be the end of a range.
fn may_end_range(byte: u8) -> bool
    ensures { result ≡ (is_ascii byte && not (byte ∈ "]\\-")) }
{
    byte.is_ascii() && !matches!(byte, b']' | b'\\' | b'-')
}
