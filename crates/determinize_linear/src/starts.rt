//! Where anchored walks by a DFA begin: in one row from all positions of a text, if no assertion
//! distinguishes what is before a match.

ghost use Rattle.std.specs.Prelude.{◌≡◌, None, cond, false, true};
ghost use Rattle.determinize_below.specs.Semantics.{before_at};
ghost use Rattle.determinize_below.specs.Truth.{IsUnit};
ghost use Rattle.determinize_dense.specs.Automaton.{first_row};
ghost use Rattle.determinize_linear.specs.Private.Starts.{BeginAlike};
ghost use Rattle.determinize_start.specs.StartKinds.{start_kind};
ghost use Rattle.determinize_start.specs.declared.start.Start.TheVariants.{NonWordByte, WordByte};

use crate::choices::byte_before;
use determinize_dense::Automaton;
use determinize_engine::text::Text;

/// In fewer bytes than this, few walks begin, and their rows are not compared.
const FEW: usize = 64;

/// Returns a word byte other than the line terminator.
fn word_byte(terminator: u8) -> u8
    ensures { start_kind terminator result ≡ WordByte }
{
    if terminator == b'a' { b'b' } else { b'a' }
}

/// Returns a byte that is no word byte, no line end and not the line terminator.
fn other_byte(terminator: u8) -> u8
    ensures { start_kind terminator result ≡ NonWordByte }
{
    if terminator == b' ' { b'!' } else { b' ' }
}

/// Returns the row where an anchored walk begins after this byte, or after none.
fn row_behind<D: Automaton>(dfa: &D, behind: Option<u8>) -> usize
    ensures row { result ≡ first_row (D.stored dfa.now) true behind }
    ensures unit { IsUnit behind }
{
    dfa.first_row(true, behind).as_usize()
}

/// Returns `true` only if anchored walks from all positions of a text begin in one row. For a text
/// of fewer than `FEW` bytes returns `false`.
pub(crate) fn begin_alike<D: Automaton>(dfa: &D, text: &Text<'_>) -> bool
    ensures { result ≡ true → BeginAlike (D.stored dfa.now) text.now }
{
    let terminator = dfa.line_terminator();
    let first = row_behind(dfa, text.behind());
    text.len() >= FEW
        && row_behind(dfa, None) == first
        && row_behind(dfa, Some(terminator)) == first
        && row_behind(dfa, Some(b'\n')) == first
        && row_behind(dfa, Some(b'\r')) == first
        && row_behind(dfa, Some(word_byte(terminator))) == first
        && row_behind(dfa, Some(other_byte(terminator))) == first
}

/// Returns the byte before the start of a walk from a position of a text, or `None` if all walks
/// begin alike.
#[inline(always)]
pub(crate) fn behind_start(text: &Text<'_>, from: usize, begin_alike: bool) -> Option<u8>
    ensures value { result ≡ cond begin_alike None (before_at text.now from) }
    ensures unit { begin_alike ≡ false → IsUnit (before_at text.now from) }
{
    if begin_alike {
        return None;
    }
    byte_before(text, from)
}
