//! Whether a unit of input reopens the closure of the recorded states.
//!
//! The recorded states are closed under look-have. If the unit satisfies a further assertion of
//! look-need, their closure is reopened: computed again, with that assertion. Most units satisfy
//! none. A short test shows this if the assertions of look-need that are not in look-have are all
//! on words.

ghost use Rattle.std.specs.Prelude.{◌≡◌, Bool, IsTrue, false, IfNone, IfSome};
ghost use Rattle.determinize_below.specs.Look.{has};
ghost use Rattle.determinize_below.specs.Nfa.{IsAccepted};
ghost use Rattle.determinize_below.specs.Unit.{byte_of};
ghost use Rattle.determinize_start.specs.LookTables.{Tables, opened};
ghost use Rattle.determinize_core.specs.Private.Reading.{IsReopened};
ghost use Rattle.determinize_core.specs.Step.{is_redone, is_reopened};

use determinize_below::{Look, LookSet, NFA, Unit};
use determinize_start::look_tables::{LookTables, words_opened};
use determinize_state::state::State;
use std::alloc::Allocator;

/// Returns whether `found` has an assertion that is in look-need and not in look-have.
fn reopens(found: LookSet, have: LookSet, need: LookSet) -> bool
    ensures { result ≡ is_redone (has found) have need }
{
    !found.subtract(have).intersect(need).is_empty()
}

/// The haystack and line assertions.
const LINES: u32 = Look::Start as u32
    | Look::End as u32
    | Look::StartLF as u32
    | Look::EndLF as u32
    | Look::StartCRLF as u32
    | Look::EndCRLF as u32;

/// Returns true only if the unit satisfies no assertion of look-need that is not in look-have. May
/// return false although it satisfies none, since it assumes that the unit satisfies all of
/// `LINES`.
#[tactic(auto, using(crate::proofs::step::Reopening::words_decide))]
fn stays_closed(from_word: bool, unit: Unit, have: LookSet, need: LookSet) -> bool
    ensures { (tables : Tables) (half_crlf : Bool) → IsTrue result → is_redone
        (opened tables from_word half_crlf (byte_of unit)) have need ≡ false }
{
    let found = words_opened(from_word, unit).union(LookSet::from_repr(LINES));
    !reopens(found, have, need)
}

/// Returns the assertions under which the unit reopens the closure: look-have and those that the
/// unit satisfies. `None` if it satisfies no further assertion of look-need, so that the recorded
/// states are closed already.
pub(crate) fn reopened_under<N: Allocator, A: Allocator>(
    nfa: &NFA<N>,
    state: &State<A>,
    unit: Unit,
) -> Option<LookSet>
    ensures none { IfNone result (is_reopened nfa.now state.now (byte_of unit) ≡ false) }
    ensures some { IfSome result (IsReopened nfa.now state.now (byte_of unit)) }
    ensures accepted { IsAccepted nfa.now }
{
    let tables = LookTables::of(nfa);
    let need = state.look_need();
    if need.is_empty() {
        return None;
    }
    let have = state.look_have();
    let from_word = state.is_from_word();
    // Only for speed: the code below returns the same.
    if stays_closed(from_word, unit, have, need) {
        return None;
    }
    let found = tables.opened(from_word, state.is_half_crlf(), unit);
    reopens(found, have, need).then_some(have.union(found))
}
