//! The levels of a pattern, from its choices down to its atoms.

ghost use Rattle.std.specs.Prelude.{◌≡◌, ◌+◌, ◌<◌, ◌≤◌, ◌∷◌, [], ℕ, Bool, IfErr, IfOk, List, MatchResult, OnOk, Some, cond, encode_utf8, false, length, map, not, slice_get, true};
ghost use Rattle.determinize_pattern.specs.Meaning.{Re};
ghost use Rattle.determinize_syntax.specs.Private.Following.{FromAtom, FromItem, FromOperator, IsBranchEnd, IsEnd, Unlimited};
ghost use Rattle.determinize_syntax.specs.declared.error.ErrorKind.TheVariants.{GroupNameDuplicate, NestLimitExceeded};
ghost use Rattle.determinize_syntax.specs.declared.flags.Flags.{Flags};
ghost use Rattle.determinize_syntax.specs.declared.parser.TheConstants.{NEST_LIMIT};
ghost use Rattle.determinize_pattern.specs.Meaning as meanings;
ghost use Rattle.determinize_pattern.specs.Characters.{IsCharClass};
ghost use Rattle.determinize_pattern.specs.Patterns.{IsClass, choice_of, literal, meaning, repeated};
ghost use Rattle.determinize_syntax.specs.Limits.{HasNameTwice, openings};
ghost use Rattle.determinize_syntax.specs.Places.{IsErrorIn};
ghost use Rattle.determinize_syntax.specs.Private.Names.{IsRight, Passes, is_local};
ghost use Rattle.determinize_syntax.specs.Private.Reading.{IsEscape, IsNotAt, Reads, is_available, rest};
ghost use Rattle.determinize_syntax.specs.Spells as spells;
ghost use Rattle.determinize_syntax.specs.Spells.{Atom, Choice, IsOneOf, Items, Repeated, Spells, SpellsUnder, is_limit};
ghost use Rattle.determinize_syntax.specs.Words.{◌∈◌, at_line, dot_set, folded, knows_cases, only};

use crate::bracket::bracket;
use crate::class::{class, of_class, one_of};
use crate::cursor::Cursor;
use crate::error::{ErrorKind, ParseError, Rejection};
use crate::escape::{Escape, read_escape};
use crate::flags::{Flags, setting};
use crate::group::{Context, read_opening};
use crate::repetition::{Bounds, operator};
use determinize_below::Look;
use determinize_pattern::{ClassBytesRange, ClassUnicodeRange, Pattern};
use std::alloc::{AllocError, Global};

/// How deep groups and operators may be.
pub const NEST_LIMIT: u8 = 250;

/// Returns the pattern that the text denotes.
///
/// Returns an error if it denotes none, and else only `OutOfMemory` if an allocation fails,
/// `NestLimitExceeded` if groups and operators are more than 250 deep, or `GroupNameDuplicate` if
/// two groups have the same name.
pub fn parse(alloc: Global, text: &str) -> Result<Pattern, ParseError>
    ensures spells { IfOk result (λ p. Spells (meaning p) text.now) }
    ensures complete { (re : Re) → Spells re text.now
        → IfErr result (λ e. is_limit e.kind ≡ true) }
    ensures nested { IfErr result (λ e. e.kind ≡ NestLimitExceeded
        → NEST_LIMIT < openings text.now) }
    ensures twice { IfErr result (λ e. e.kind ≡ GroupNameDuplicate → HasNameTwice text.now) }
    ensures range { IfErr result (IsErrorIn text.now) }
{
    parse_with(alloc, text, Flags::new())
}

/// Returns the pattern that the text denotes, with these flags at its beginning.
///
/// Returns an error if it denotes none, and else only `OutOfMemory` if an allocation fails,
/// `NestLimitExceeded` if groups and operators are more than 250 deep, or `GroupNameDuplicate` if
/// two groups have the same name.
pub fn parse_with(alloc: Global, text: &str, flags: Flags) -> Result<Pattern, ParseError>
    ensures spells { IfOk result (λ p. SpellsUnder flags (meaning p) text.now) }
    ensures complete { (re : Re) → SpellsUnder flags re text.now
        → IfErr result (λ e. is_limit e.kind ≡ true) }
    ensures nested { IfErr result (λ e. e.kind ≡ NestLimitExceeded
        → NEST_LIMIT < openings text.now) }
    ensures twice { IfErr result (λ e. e.kind ≡ GroupNameDuplicate → HasNameTwice text.now) }
    ensures range { IfErr result (IsErrorIn text.now) }
{
    let mut cursor = Cursor::new(text);
    let mut context = Context::new(alloc);
    let pattern = match choice(&mut context, &mut cursor, flags, NEST_LIMIT) {
        Ok(pattern) => pattern,
        Err(error) => return Err(error.in_text(text)),
    };
    if cursor.peek().is_some() {
        return Err(cursor.error_here(ErrorKind::GroupUnopened).in_text(text));
    }
    Ok(pattern)
}

/// Reads branches up to the end of a group or of the text.
#[cycle(parser)]
fn choice<'a>(
    context: &mut Context<'a>,
    cursor: &mut Cursor<'a>,
    flags: Flags,
    levels: u8,
) -> Result<Pattern, Rejection>
    ensures read { IfOk result (λ p. Reads cursor.old cursor.new
        (SpellsUnder flags (meaning p))) }
    ensures whole { (k : List Flags) → FromItem k flags (rest cursor.old)
        → Unlimited result (λ p. (g : Flags) × FromItem k g (rest cursor.new)
        × IsEnd (rest cursor.new)) }
    ensures limits { MatchResult result
        (λ _. Passes context.old (rest cursor.old) context.new.depth context.new (rest cursor.new))
        (IsRight levels context.old (rest cursor.old)) }
{
    let mut flags = flags;
    let mut depth = 0;
    let mut branches = Vec::new(context.alloc);
    loop {
        let items = items(context, cursor, &mut flags, levels)?;
        branches.push(sequence(items))?;
        depth = context.depth.max(depth);
        if !cursor.take(b'|') {
            break;
        }
    }
    context.depth = depth;
    Ok(alternatives(branches))
}

/// Reads the items of a branch, and sets the flags that they set.
#[cycle(parser)]
fn items<'a>(
    context: &mut Context<'a>,
    cursor: &mut Cursor<'a>,
    flags: &mut Flags,
    levels: u8,
) -> Result<Vec<Pattern>, Rejection>
    ensures read { IfOk result (λ ps. Reads cursor.old cursor.new
        (Items flags.old flags.new (map meaning ps.items))) }
    ensures whole { (k : List Flags) → FromItem k flags.old (rest cursor.old)
        → Unlimited result (λ ps. FromItem k flags.new (rest cursor.new)
        × IsBranchEnd (rest cursor.new)) }
    ensures limits { MatchResult result
        (λ _. Passes context.old (rest cursor.old) context.new.depth context.new (rest cursor.new))
        (IsRight levels context.old (rest cursor.old)) }
{
    let mut depth = 0;
    let mut items = Vec::new(context.alloc);
    loop {
        if is_branch_end(cursor) {
            break;
        }
        if let Some(set) = setting(cursor, *flags)? {
            *flags = set;
            continue;
        }
        let item = repeated(context, cursor, *flags, levels)?;
        items.push(item)?;
        depth = context.depth.max(depth);
    }
    context.depth = depth;
    Ok(items)
}

/// Returns whether a branch ends at the cursor.
fn is_branch_end(cursor: &Cursor<'_>) -> bool
    ensures end { result ≡ true → IsBranchEnd (rest cursor.now) }
    ensures other { result ≡ false → IsBranchEnd (rest cursor.now) → ⊥ }
{
    match cursor.peek() {
        None => true,
        Some(next) => ends_branch(next),
    }
}

/// Returns whether the byte ends a branch.
fn ends_branch(byte: u8) -> bool
    ensures { result ≡ (byte ∈ "|)") }
{
    matches!(byte, b'|' | b')')
}

/// Reads an atom and its operators.
#[cycle(parser)]
fn repeated<'a>(
    context: &mut Context<'a>,
    cursor: &mut Cursor<'a>,
    flags: Flags,
    levels: u8,
) -> Result<Pattern, Rejection>
    ensures read { IfOk result (λ p. Reads cursor.old cursor.new
        (λ t. (e : Bool) × Repeated flags e (meaning p) t)) }
    ensures progress { OnOk result (length (rest cursor.new) < length (rest cursor.old)) }
    ensures whole { (k : List Flags) → FromAtom k flags (rest cursor.old)
        → Unlimited result (λ p. FromItem k flags (rest cursor.new)) }
    ensures limits { MatchResult result
        (λ _. Passes context.old (rest cursor.old) context.new.depth context.new (rest cursor.new))
        (IsRight levels context.old (rest cursor.old)) }
{
    let mut pattern = atom(context, cursor, flags, levels)?;
    let mut start = cursor.left();
    while let Some(bounds) = operator(cursor)? {
        if context.depth >= NEST_LIMIT {
            return Err(Rejection::at(ErrorKind::NestLimitExceeded, start));
        }
        context.depth += 1;
        let greedy = is_greedy(cursor.take(b'?'), flags);
        pattern = repetition(context.alloc, bounds, greedy, pattern)?;
        start = cursor.left();
    }
    Ok(pattern)
}

/// Reads what can be repeated.
#[cycle(parser)]
fn atom<'a>(
    context: &mut Context<'a>,
    cursor: &mut Cursor<'a>,
    flags: Flags,
    levels: u8,
) -> Result<Pattern, Rejection>
    ensures read { IfOk result (λ p. Reads cursor.old cursor.new (Atom flags (meaning p))) }
    ensures progress { OnOk result (length (rest cursor.new) < length (rest cursor.old)) }
    ensures whole { (k : List Flags) → FromAtom k flags (rest cursor.old)
        → Unlimited result (λ p. FromOperator k flags false (rest cursor.new)) }
    ensures limits { MatchResult result
        (λ _. Passes context.old (rest cursor.old) context.new.depth context.new (rest cursor.new))
        (IsRight levels context.old (rest cursor.old)) }
{
    let start = cursor.left();
    if cursor.take(b'(') {
        return group(context, cursor, start, flags, levels);
    }
    context.depth = 0;
    single(context.alloc, cursor, start, flags)
}

/// Reads an atom that is no group, and begins at `start`.
fn single(
    alloc: Global,
    cursor: &mut Cursor<'_>,
    start: usize,
    flags: Flags,
) -> Result<Pattern, Rejection>
    ensures read { IfOk result (λ p. Reads cursor.old cursor.new (Atom flags (meaning p))) }
    ensures progress { OnOk result (length (rest cursor.new) < length (rest cursor.old)) }
    ensures whole { (k : List Flags) → FromAtom k flags (rest cursor.old) → IsNotAt 0x28 cursor.old
        → Unlimited result (λ p. FromOperator k flags false (rest cursor.new)) }
    ensures local { IfErr result (λ e. is_local e.kind ≡ true) }
{
    if cursor.take(b'\\') {
        return escaped_atom(alloc, cursor, start, flags);
    }
    if cursor.take(b'[') {
        return bracket(alloc, cursor, start, flags);
    }
    byte_atom(alloc, cursor, flags)
}

/// Reads an escape after its backslash, which is at `start`, where it can be repeated.
fn escaped_atom(
    alloc: Global,
    cursor: &mut Cursor<'_>,
    start: usize,
    flags: Flags,
) -> Result<Pattern, Rejection>
    ensures read { IfOk result (λ p. Reads cursor.old cursor.new
        (λ t. Atom flags (meaning p) (0x5C ∷ t))) }
    ensures whole { (k : List Flags) → FromAtom k flags (0x5C ∷ rest cursor.old)
        → Unlimited result (λ p. FromOperator k flags false (rest cursor.new)) }
    ensures local { IfErr result (λ e. is_local e.kind ≡ true) }
{
    let escape = read_escape(cursor, start)?;
    if let Some(kind) = escape.unavailable(flags) {
        return Err(cursor.error_since(start, kind));
    }
    Ok(of_escape(alloc, escape, flags)?)
}

/// Returns the pattern of an escape that needs no tables of Unicode under these flags.
fn of_escape(alloc: Global, escape: Escape, flags: Flags) -> Result<Pattern, AllocError>
    requires { is_available flags escape ≡ true }
    ensures { IfOk result (λ p. (t : List ℕ) → IsEscape escape t → Atom flags (meaning p) t) }
{
    match escape {
        Escape::Byte(escaped) => numbered(alloc, escaped, flags),
        Escape::Wide(character) => wide(alloc, character),
        Escape::Class(kind, negated) => Ok(of_class(kind.class(alloc, Flags::new(), negated)?)),
        Escape::Look(look) => Ok(assertion(look)),
    }
}

/// Reads `.`, `^` or `$`, or a literal character.
fn byte_atom(alloc: Global, cursor: &mut Cursor<'_>, flags: Flags) -> Result<Pattern, Rejection>
    ensures read { IfOk result (λ p. Reads cursor.old cursor.new (Atom flags (meaning p))) }
    ensures progress { OnOk result (length (rest cursor.new) < length (rest cursor.old)) }
    ensures whole { (k : List Flags) → FromAtom k flags (rest cursor.old)
        → ((c : ℕ) → slice_get (rest cursor.old) 0 ≡ Some c → (c ∈ "([\\") ≡ false)
        → Unlimited result (λ p. FromOperator k flags false (rest cursor.new)) }
    ensures local { IfErr result (λ e. is_local e.kind ≡ true) }
{
    let Some(next) = cursor.peek() else {
        return Err(cursor.error_before(ErrorKind::RepetitionMissing));
    };
    if is_sign(next) {
        cursor.pass();
        return Ok(sign(alloc, next, flags)?);
    }
    if is_special(next) {
        return Err(cursor.error_before(ErrorKind::RepetitionMissing));
    }
    if !flags.know_cases() {
        return Err(cursor.error_here(ErrorKind::UnicodeCaseUnavailable));
    }
    if !next.is_ascii() {
        let Some(character) = cursor.take_wide() else {
            return Err(cursor.error_here(ErrorKind::UnicodeNotAllowed));
        };
        return Ok(wide(alloc, character)?);
    }
    cursor.pass();
    Ok(byte(alloc, next, flags)?)
}

/// Returns whether the byte is `.`, `^` or `$`.
fn is_sign(byte: u8) -> bool
    ensures { result ≡ (byte ∈ ".^$") }
{
    matches!(byte, b'.' | b'^' | b'$')
}

/// Returns the pattern of `.`, `^` or `$`.
fn sign(alloc: Global, byte: u8, flags: Flags) -> Result<Pattern, AllocError>
    requires { byte ∈ ".^$" ≡ true }
    ensures { IfOk result (λ p. Atom flags (meaning p) (byte ∷ [])) }
{
    match byte {
        b'^' => Ok(line(flags, Look::Start, Look::StartLF, Look::StartCRLF)),
        b'$' => Ok(line(flags, Look::End, Look::EndLF, Look::EndCRLF)),
        _ if flags.unicode => dot_of_characters(alloc, flags),
        _ => dot_of_bytes(alloc, flags),
    }
}

/// Reads a group after its parenthesis, which is at `start`.
#[cycle(parser)]
fn group<'a>(
    context: &mut Context<'a>,
    cursor: &mut Cursor<'a>,
    start: usize,
    flags: Flags,
    levels: u8,
) -> Result<Pattern, Rejection>
    ensures read { IfOk result (λ p. Reads cursor.old cursor.new
        (λ t. Atom flags (meaning p) (0x28 ∷ t))) }
    ensures whole { (k : List Flags) → FromAtom k flags (0x28 ∷ rest cursor.old)
        → Unlimited result (λ p. FromOperator k flags false (rest cursor.new)) }
    ensures limits { MatchResult result
        (λ _. Passes context.old (0x28 ∷ rest cursor.old) context.new.depth context.new
        (rest cursor.new))
        (IsRight levels context.old (0x28 ∷ rest cursor.old)) }
{
    let opening = read_opening(context, cursor, start, flags)?;
    if levels == 0 {
        return Err(Rejection::at(ErrorKind::NestLimitExceeded, start));
    }
    let sub = choice(context, cursor, opening.flags, levels - 1)?;
    if !cursor.take(b')') {
        return Err(Rejection::at(ErrorKind::GroupUnclosed, start));
    }
    if context.depth >= NEST_LIMIT {
        return Err(Rejection::at(ErrorKind::NestLimitExceeded, start));
    }
    context.depth += 1;
    Ok(grouped(context.alloc, sub, opening.captures)?)
}

/// Returns the pattern, as a group that is kept for printing if `captures` is set.
fn grouped(alloc: Global, sub: Pattern, captures: bool) -> Result<Pattern, AllocError>
    ensures { IfOk result (λ p. meaning p ≡ meaning sub) }
{
    if captures {
        sub.capture(alloc)
    } else {
        Ok(sub)
    }
}

/// Returns the patterns one after the other, or the single one.
fn sequence(mut items: Vec<Pattern>) -> Pattern
    ensures { meaning result ≡ spells.sequence_of (map meaning items.items) }
{
    if items.len() == 1 {
        if let Some(item) = items.pop() {
            return item;
        }
    }
    Pattern::concat(items)
}

/// Returns a choice between the patterns, or the single one.
fn alternatives(mut branches: Vec<Pattern>) -> Pattern
    ensures { meaning result ≡ choice_of (map meaning branches.items) }
{
    if branches.len() == 1 {
        if let Some(branch) = branches.pop() {
            return branch;
        }
    }
    Pattern::alternation(branches)
}

/// Returns whether an operator is greedy that has a `?` if `marked` is set.
fn is_greedy(marked: bool, flags: Flags) -> bool
    ensures { result ≡ cond marked flags.swap_greed (not flags.swap_greed) }
{
    marked == flags.swap_greed
}

/// Returns the pattern repeated within the bounds.
fn repetition(
    alloc: Global,
    bounds: Bounds,
    greedy: bool,
    sub: Pattern,
) -> Result<Pattern, AllocError>
    ensures { IfOk result (λ p. meaning p ≡ repeated bounds.min bounds.max greedy (meaning sub)) }
{
    if greedy {
        sub.repeat(alloc, bounds.min, bounds.max)
    } else {
        sub.repeat_lazy(alloc, bounds.min, bounds.max)
    }
}

/// Returns the pattern of the assertion.
fn assertion(look: Look) -> Pattern
    ensures { meaning result ≡ meanings.Look look }
{
    Pattern::Look(look)
}

/// Returns the pattern of `^` or `$`, of which `whole` is the assertion without flags, and `lf` and
/// `crlf` are those of lines.
fn line(flags: Flags, whole: Look, lf: Look, crlf: Look) -> Pattern
    ensures { meaning result ≡ meanings.Look (at_line flags whole lf crlf) }
{
    assertion(match (flags.multi_line, flags.crlf) {
        (false, _) => whole,
        (true, false) => lf,
        (true, true) => crlf,
    })
}

/// Returns the pattern of `.` where `u` holds.
fn dot_of_characters(alloc: Global, flags: Flags) -> Result<Pattern, AllocError>
    ensures { IfOk result (λ p. IsCharClass (dot_set flags) (meaning p)) }
{
    let ends = [
        ClassUnicodeRange {
            start: '\n',
            end: '\n',
        },
        ClassUnicodeRange {
            start: '\r',
            end: '\r',
        },
    ];
    if flags.dot_matches_new_line {
        return Pattern::none_of_chars(alloc, &ends[..0]);
    }
    if !flags.crlf {
        return Pattern::none_of_chars(alloc, &ends[..1]);
    }
    Pattern::none_of_chars(alloc, &ends)
}

/// Returns the pattern of `.` where `u` does not hold.
fn dot_of_bytes(alloc: Global, flags: Flags) -> Result<Pattern, AllocError>
    ensures { IfOk result (λ p. IsClass (dot_set flags) (meaning p)) }
{
    if flags.dot_matches_new_line {
        return Pattern::any(alloc);
    }
    if !flags.crlf {
        return Pattern::dot(alloc);
    }
    let ends = [
        ClassBytesRange {
            start: b'\n',
            end: b'\n',
        },
        ClassBytesRange {
            start: b'\r',
            end: b'\r',
        },
    ];
    Pattern::none_of(alloc, &ends)
}

/// Returns the pattern of one byte by an escape, or where `u` holds of the character of its number.
fn numbered(alloc: Global, number: u8, flags: Flags) -> Result<Pattern, AllocError>
    requires { knows_cases flags ≡ true }
    ensures { IfOk result (λ p. IsOneOf flags.unicode (folded flags (only number)) (meaning p)) }
{
    if !flags.unicode {
        return byte(alloc, number, flags);
    }
    let character = char::from(number);
    let range = ClassUnicodeRange {
        start: character,
        end: character,
    };
    one_of(alloc, &[range], flags, false)
}

/// Returns the pattern of one byte, under `i` of both cases of a letter.
fn byte(alloc: Global, byte: u8, flags: Flags) -> Result<Pattern, AllocError>
    ensures { IfOk result (λ p. IsClass (folded flags (only byte)) (meaning p)) }
{
    if flags.case_insensitive && byte.is_ascii_alphabetic() {
        let range = ClassBytesRange {
            start: byte,
            end: byte,
        };
        return Ok(of_class(class(alloc, &[range], flags, false)?));
    }
    Pattern::range(alloc, byte, byte)
}

/// Returns the pattern of the bytes of a character.
fn wide(alloc: Global, character: char) -> Result<Pattern, AllocError>
    ensures { IfOk result (λ p. meaning p ≡ literal (encode_utf8 character)) }
{
    let mut bytes = [0; 4];
    let text = character.encode_utf8(&mut bytes);
    Pattern::literal(alloc, text.as_bytes())
}

/// Returns whether the byte is special outside brackets.
fn is_special(byte: u8) -> bool
    ensures { result ≡ (byte ∈ "\\.+*?()|[{^$") }
{
    matches!(
        byte,
        b'\\' | b'.' | b'+' | b'*' | b'?' | b'(' | b')' | b'|' | b'[' | b'{' | b'^' | b'$'
    )
}
