//! Look-behind: the assertions satisfied behind a position, and those that the next unit satisfies.
//!
//! An assertion depends on the byte before a position and on the unit after it. When a step enters
//! a state, only the byte before is known. So `after` (or `at_start`) returns the assertions that
//! hold for every next unit, and two flags that keep what else the next step needs of the byte:
//! whether it is a word byte, and whether it may be the first half of a CRLF. The next step then
//! passes the flags and its unit to `opened`, which returns the assertions that hold in addition.
//!
//! The look-behind has assertions and flags of a class only if the NFA has an assertion of that
//! class, so an NFA without word assertions has no state with from-word set. Within a class it may
//! have assertions that the NFA does not test. They have no effect on matches, but they are part of
//! the bytes of a state.

ghost use Rattle.std.specs.Prelude.{◌≡◌, true, false, not, ◌&&◌, ◌||◌};
ghost use Rattle.std.specs.Option.{is_none};
ghost use Rattle.determinize_below.specs.Look.{has, has_word};
ghost use Rattle.determinize_below.specs.Nfa.{IsAccepted};
ghost use Rattle.determinize_below.specs.Semantics.{crlf_first, crlf_second, is, is_word};
ghost use Rattle.determinize_below.specs.Unit.{byte_of};
ghost use Rattle.determinize_below.specs.declared.look.Look.{Look as Assertion};
ghost use Rattle.determinize_start.specs.LookTables as tables;
ghost use Rattle.determinize_start.specs.Private.LookSets as sets;
ghost use Rattle.determinize_start.specs.LookTables.{known_set, tables_of};

use crate::start::Start;
use determinize_below::alphabet::is_word_byte;
use determinize_below::{Look, LookSet, NFA, Unit};
use std::alloc::Allocator;
use std::marker::Model;

/// The look-behind of a new state: look-have and flags.
#[derive(Clone, Copy, Debug)]
pub struct LookBehind {
    /// The assertions that hold for every next unit.
    pub looks: LookSet,
    /// Whether the byte behind is a word byte and the NFA has word assertions.
    pub from_word: bool,
    /// Whether the byte behind may be the first half of a CRLF and the NFA has CRLF assertions.
    pub half_crlf: bool,
}

impl Model for LookBehind {
    ghost use Rattle.determinize_start.specs.LookTables.{LookBehindValue};

    ghost Value = { LookBehindValue };

    ghost view = { λ t.
        record { looks = t.looks; from_word = t.from_word; half_crlf = t.half_crlf } };

    ghost inverse = { λ t.
        record { looks = t.looks; from_word = t.from_word; half_crlf = t.half_crlf } };
}

impl LookBehind {
    /// Returns the empty look-behind.
    fn nothing() -> LookBehind
        ensures looks { result.looks ≡ 0 }
        ensures from_word { result.from_word ≡ false }
        ensures half_crlf { result.half_crlf ≡ false }
    {
        LookBehind {
            looks: LookSet::empty(),
            from_word: false,
            half_crlf: false,
        }
    }

    /// Returns the look-behind with the assertion added if `test` is true.
    fn with(self, test: bool, look: Look) -> LookBehind
        ensures { result ≡ record self { looks = tables.insert_where self.looks test look } }
    {
        LookBehind {
            looks: insert_where(self.looks, test, look),
            ..self
        }
    }
}

/// Returns the set with the assertion added if `test` is true.
#[tactic(auto, unfolding(crate::specs::LookTables::insert_where))]
fn insert_where(set: LookSet, test: bool, look: Look) -> LookSet
    ensures { result ≡ tables.insert_where set test look }
{
    if test { set.insert(look) } else { set }
}

/// The assertions that hold at a word boundary.
const BOUNDARY: u32 = Look::WordAscii as u32 | Look::WordUnicode as u32;

/// The assertions that hold where there is no word boundary.
const NO_BOUNDARY: u32 = Look::WordAsciiNegate as u32 | Look::WordUnicodeNegate as u32;

/// The assertions that hold at a word start.
const WORD_START: u32 = Look::WordStartAscii as u32 | Look::WordStartUnicode as u32;

/// The assertions that hold at a word end.
const WORD_END: u32 = Look::WordEndAscii as u32 | Look::WordEndUnicode as u32;

/// The assertions that hold where no word byte follows.
const HALF_END: u32 = Look::WordEndHalfAscii as u32 | Look::WordEndHalfUnicode as u32;

/// The word assertions that hold between two bytes, by whether the first is a word byte, and for
/// each by whether the second is.
const WORD_SETS: [u32; 4] = [
    NO_BOUNDARY | HALF_END,
    BOUNDARY | WORD_START,
    BOUNDARY | WORD_END | HALF_END,
    NO_BOUNDARY,
];

/// Whether each byte is a word byte. Each transition asks that twice, and here it is one load. The
/// test of a bit in `determinize_below::alphabet::is_word_byte` takes seven instructions more.
const WORD_BYTES: [bool; 256] = [
    false, false, false, false, false, false, false, false, false, false, false, false, false,
    false, false, false, false, false, false, false, false, false, false, false, false, false,
    false, false, false, false, false, false, false, false, false, false, false, false, false,
    false, false, false, false, false, false, false, false, false, true, true, true, true, true,
    true, true, true, true, true, false, false, false, false, false, false, false, true, true,
    true, true, true, true, true, true, true, true, true, true, true, true, true, true, true, true,
    true, true, true, true, true, true, true, true, false, false, false, false, true, false, true,
    true, true, true, true, true, true, true, true, true, true, true, true, true, true, true, true,
    true, true, true, true, true, true, true, true, true, false, false, false, false, false, false,
    false, false, false, false, false, false, false, false, false, false, false, false, false,
    false, false, false, false, false, false, false, false, false, false, false, false, false,
    false, false, false, false, false, false, false, false, false, false, false, false, false,
    false, false, false, false, false, false, false, false, false, false, false, false, false,
    false, false, false, false, false, false, false, false, false, false, false, false, false,
    false, false, false, false, false, false, false, false, false, false, false, false, false,
    false, false, false, false, false, false, false, false, false, false, false, false, false,
    false, false, false, false, false, false, false, false, false, false, false, false, false,
    false, false, false, false, false, false, false, false, false, false, false, false, false,
    false, false, false, false, false, false, false, false, false, false,
];

/// Returns whether the unit is a word byte, which is false for EOI.
#[inline(always)]
fn is_word_unit(unit: Unit) -> bool
    ensures { result ≡ is_word (byte_of unit) }
{
    match unit.as_u8() {
        Some(byte) => WORD_BYTES[byte as usize],
        None => false,
    }
}

/// Returns the word assertions that hold between two bytes, given whether each is a word byte,
/// except `WordStartHalfAscii` and `WordStartHalfUnicode`, which the look-behind satisfies.
fn word_set(from_word: bool, word: bool) -> LookSet
    ensures { result ≡ sets.word_set from_word word }
{
    LookSet::from_repr(WORD_SETS[2 * from_word as usize + word as usize])
}

/// Returns the word assertions that the unit satisfies, given whether the byte behind is a word
/// byte, in addition to those that the look-behind satisfies.
#[inline(always)]
pub fn words_opened(from_word: bool, unit: Unit) -> LookSet
    ensures { (look : Assertion)
        → has result look ≡ tables.word_opened from_word (is_word (byte_of unit)) look }
{
    word_set(from_word, is_word_unit(unit))
}

/// The facts of an NFA on which look-behind depends.
#[derive(Clone, Copy, Debug)]
pub struct LookTables {
    /// Whether the NFA scans in reverse.
    reverse: bool,
    /// The line terminator.
    terminator: u8,
    /// The assertions of the NFA.
    any: LookSet,
}

impl Model for LookTables {
    ghost use Rattle.determinize_start.specs.LookTables.{Tables};

    ghost Value = { Tables };

    ghost view = { λ t. record { reverse = t.reverse; terminator = t.terminator; any = t.any } };

    ghost inverse = { λ t. record { reverse = t.reverse; terminator = t.terminator; any = t.any } };
}

impl LookTables {
    /// Returns these facts of an NFA.
    pub fn of<N: Allocator>(nfa: &NFA<N>) -> LookTables
        ensures tables { result ≡ tables_of nfa.now }
        ensures accepted { IsAccepted nfa.now }
    {
        LookTables {
            reverse: nfa.is_reverse(),
            terminator: nfa.look_matcher().get_line_terminator(),
            any: nfa.look_set_any(),
        }
    }

    /// Returns the byte of a CRLF that is read first.
    fn crlf_first(self) -> u8
        ensures { result ≡ crlf_first self.reverse }
    {
        if self.reverse { b'\n' } else { b'\r' }
    }

    /// Returns the byte of a CRLF that is read second.
    fn crlf_second(self) -> u8
        ensures { result ≡ crlf_second self.reverse }
    {
        if self.reverse { b'\r' } else { b'\n' }
    }

    /// Returns the look-behind of word assertions, given whether the byte behind is a word byte.
    #[tactic(auto, unfolding(crate::specs::LookTables::known_set, crate::specs::LookTables::insert_where))]
    fn words(self, word_byte: bool) -> LookBehind
        ensures looks { result.looks
            ≡ known_set false false false (has_word self.any && not word_byte) }
        ensures from_word { result.from_word ≡ (has_word self.any && word_byte) }
        ensures half_crlf { result.half_crlf ≡ false }
    {
        let word = self.any.contains_word();
        let no_word_byte = word && !word_byte;
        let looks = insert_where(LookSet::empty(), no_word_byte, Look::WordStartHalfAscii);
        LookBehind {
            looks: insert_where(looks, no_word_byte, Look::WordStartHalfUnicode),
            from_word: word && word_byte,
            half_crlf: false,
        }
    }

    /// Returns the look-behind of the start state for a start kind.
    #[tactic(auto, unfolding(crate::specs::LookTables::known_set, crate::specs::LookTables::insert_where, crate::specs::LookTables::start_have, crate::specs::LookTables::start_from_word, crate::specs::LookTables::start_half_crlf))]
    pub fn at_start(self, kind: Start) -> LookBehind
        ensures looks { result.looks ≡ tables.start_have self kind }
        ensures from_word { result.from_word ≡ tables.start_from_word self kind }
        ensures half_crlf { result.half_crlf ≡ tables.start_half_crlf self kind }
    {
        let line = self.any.contains_anchor_line();
        let crlf = self.any.contains_anchor_crlf();
        // In reverse a CRLF is read from `\n` to `\r`, so the two kinds swap their roles. The
        // classes tested are those of the original, since look-have is part of a state's bytes.
        match kind {
            Start::NonWordByte => self.words(false),
            Start::WordByte => self.words(true),
            Start::Text => self
                .words(false)
                .with(line, Look::StartLF)
                .with(line, Look::StartCRLF)
                .with(self.any.contains_anchor_haystack(), Look::Start),
            Start::LineLF => LookBehind {
                half_crlf: crlf && self.reverse,
                ..self
                    .words(false)
                    .with(line && self.terminator == b'\n', Look::StartLF)
                    .with(line && !self.reverse, Look::StartCRLF)
            },
            Start::LineCR => LookBehind {
                half_crlf: crlf && !self.reverse,
                ..self
                    .words(false)
                    .with(line && self.terminator == b'\r', Look::StartLF)
                    .with(crlf && self.reverse, Look::StartCRLF)
            },
            Start::CustomLineTerminator => self
                .words(is_word_byte(self.terminator))
                .with(line, Look::StartLF),
        }
    }

    /// Returns the look-behind after a step over the unit, which is empty if the NFA has no
    /// assertions. The flags are to be set only if some state has a transition on the unit.
    #[tactic(auto, unfolding(crate::specs::LookTables::known_set, crate::specs::LookTables::insert_where, crate::specs::LookTables::have_after, crate::specs::LookTables::from_word_after, crate::specs::LookTables::half_crlf_after))]
    pub fn after(self, unit: Unit) -> LookBehind
        ensures looks { result.looks ≡ tables.have_after self (byte_of unit) }
        ensures from_word { result.from_word ≡ tables.from_word_after self (byte_of unit) }
        ensures half_crlf { result.half_crlf ≡ tables.half_crlf_after self (byte_of unit) }
    {
        // Only for speed: without assertions the code below returns the same.
        if self.any.is_empty() {
            return LookBehind::nothing();
        }
        let line = self.any.contains_anchor_line();
        let crlf = self.any.contains_anchor_crlf();
        let behind = self.words(is_word_unit(unit));
        // Likewise without line assertions, since the CRLF assertions are among them.
        if !line {
            return behind;
        }
        LookBehind {
            half_crlf: crlf && unit.is_byte(self.crlf_first()),
            ..behind
                .with(line && unit.is_byte(self.terminator), Look::StartLF)
                .with(crlf && unit.is_byte(self.crlf_second()), Look::StartCRLF)
        }
    }

    /// Returns true only if the unit satisfies no haystack or line assertion, as most units do.
    fn is_inside_line(self, half_crlf: bool, unit: Unit) -> bool
        ensures { result ≡ not (half_crlf || is_none (byte_of unit)
            || is (byte_of unit) self.terminator || is (byte_of unit) (crlf_first self.reverse)
            || is (byte_of unit) (crlf_second self.reverse)) }
    {
        !(half_crlf
            || unit.is_eoi()
            || unit.is_byte(self.terminator)
            || unit.is_byte(self.crlf_first())
            || unit.is_byte(self.crlf_second()))
    }

    /// Returns the haystack and line assertions that the unit satisfies, given whether the byte
    /// behind is the first half of a CRLF.
    fn line_set(self, half_crlf: bool, unit: Unit) -> LookSet
        ensures { result ≡ sets.line_set self half_crlf (byte_of unit) }
    {
        // Only for speed: for these units the code below returns the empty set, too.
        if self.is_inside_line(half_crlf, unit) {
            return LookSet::empty();
        }
        let end = unit.is_eoi();
        let first = unit.is_byte(self.crlf_first());
        let second = unit.is_byte(self.crlf_second());
        let set = insert_where(LookSet::empty(), end, Look::End);
        let set = insert_where(set, end || unit.is_byte(self.terminator), Look::EndLF);
        let set = insert_where(set, end || first || (second && !half_crlf), Look::EndCRLF);
        // After the first byte of a CRLF a line starts unless the second follows: known only now.
        insert_where(set, half_crlf && !second, Look::StartCRLF)
    }

    /// Returns the assertions that the unit satisfies for a state with these flags, in addition to
    /// those in its look-have.
    pub fn opened(self, from_word: bool, half_crlf: bool, unit: Unit) -> LookSet
        ensures { (look : Assertion)
            → has result look ≡ tables.opened self from_word half_crlf (byte_of unit) look }
    {
        words_opened(from_word, unit).union(self.line_set(half_crlf, unit))
    }
}
