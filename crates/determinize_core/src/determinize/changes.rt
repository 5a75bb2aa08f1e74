//! The bytes over which the steps from one state are the same.
//!
//! A step depends on its byte only through the targets of the NFA states that it reads, and the
//! assertions that the byte satisfies. The bytes where a target changes are marked once for a
//! state, and then many pairs of bytes are found over which one step serves both. A mark too many
//! costs only time.

ghost use Rattle.std.specs.Prelude.{◌≡◌, ℕ, ◌+◌, ◌<◌, ◌≤◌, IsTrue, Some, false};
ghost use Rattle.determinize_below.specs.ByteClasses.{is_marked};
ghost use Rattle.determinize_below.specs.Nfa.{AllResolve};
ghost use Rattle.determinize_below.specs.declared.search.MatchKind.{MatchKind as Kind};
ghost use Rattle.determinize_below.specs.Unit.{byte_of};
ghost use Rattle.determinize_core.specs.Alike.{AreChanges};
ghost use Rattle.determinize_core.specs.Private.Sharing.{HaveSameLookBehind};
ghost use Rattle.determinize_core.specs.Step.{is_reopened, step};

use crate::determinize::reopening::reopened_under;
use determinize_below::{NFA, Unit};
use determinize_start::look_tables::LookTables;
use determinize_state::state::State;
use std::alloc::Allocator;

/// Returns marks at the bytes on which some NFA state of the DFA state has another target than on
/// the byte before, and maybe at others.
pub fn changes<N: Allocator, A: Allocator>(nfa: &NFA<N>, state: &State<A>) -> [bool; 256]
    requires { AllResolve nfa.now state.now.states }
    ensures { AreChanges nfa.now state.now.states result }
{
    let mut marks = [false; 256];
    for id in state.iter_nfa_state_ids() {
        nfa.mark_changes(id, &mut marks);
    }
    marks
}

/// Returns whether no byte above `first`, up to `last`, has a mark.
fn is_unmarked(marks: &[bool; 256], first: u8, last: u8) -> bool
    ensures { IsTrue result → (b : ℕ) → first ≤ b → b < last → is_marked marks.now (b + 1) ≡ false }
{
    for byte in first..last {
        if marks[usize::from(byte) + 1] {
            return false;
        }
    }
    true
}

/// Returns whether the look-behind after both units is the same.
fn have_same_look_behind(tables: LookTables, first: Unit, second: Unit) -> bool
    ensures { IsTrue result → HaveSameLookBehind tables (byte_of first) (byte_of second) }
{
    let (first, second) = (tables.after(first), tables.after(second));
    first.looks == second.looks
        && first.from_word == second.from_word
        && first.half_crlf == second.half_crlf
}

/// Returns whether the unit satisfies no assertion that reopens the closure of the recorded states.
fn stays_closed<N: Allocator, A: Allocator>(nfa: &NFA<N>, state: &State<A>, unit: Unit) -> bool
    ensures { IsTrue result → is_reopened nfa.now state.now (byte_of unit) ≡ false }
{
    reopened_under(nfa, state, unit).is_none()
}

/// Returns true only if the steps from a state over two bytes give the same state. The first byte
/// must not be above the second. May return false although they do.
///
/// - `changes` are those of the state.
pub fn steps_alike<N: Allocator, A: Allocator>(
    nfa: &NFA<N>,
    state: &State<A>,
    changes: &[bool; 256],
    first: u8,
    second: u8,
) -> bool
    requires changes { AreChanges nfa.now state.now.states changes.now }
    requires order { first ≤ second }
    ensures { IsTrue result → (kind : Kind)
        → step nfa.now kind state.now (Some first) ≡ step nfa.now kind state.now (Some second) }
{
    if !is_unmarked(changes, first, second) {
        return false;
    }
    let (first, second) = (Unit::u8(first), Unit::u8(second));
    if !have_same_look_behind(LookTables::of(nfa), first, second) {
        return false;
    }
    stays_closed(nfa, state, first) && stays_closed(nfa, state, second)
}
