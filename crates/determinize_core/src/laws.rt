//! Laws of walks, transitions and searches, as public functions with empty bodies.

ghost use Rattle.std.specs.Prelude.{◌≡◌, ℕ, Bool, true, false, ◌||◌, ◌⊎◌, List, Some};
ghost use Rattle.std.specs.Bool.{Decides};
ghost use Rattle.std.specs.List.{Any};
ghost use Rattle.determinize_below.specs.Edges.{assertion_of};
ghost use Rattle.determinize_below.specs.Look.{has};
ghost use Rattle.determinize_below.specs.Semantics.{Nfa};
ghost use Rattle.determinize_core.specs.WorkedRows as rows;
ghost use Rattle.determinize_core.specs.Alike.{EachClassSteps, EachNeedIsTested};
ghost use Rattle.determinize_core.specs.Laws.{AscendingCapturesHaveNoCycle, EachChainHasItsLists, EachChainIsTrue, EachChainReaches, EachByteAheadIsNext, EachAnswerIsOne, EachReachGoesOn, EachStateHasOneKind, NothingLeadsOverTheEnd, EachFutureFollows, EachFirstUnitUnrolls, EachLastIsFarthest, EachLastUnitUnrolls, EachUnitIsAByte, NoRunLeavesTheText, DeadStays, LeftmostGivesOne, NoNeedNoHave, TriesAreFew};
ghost use Rattle.determinize_core.specs.Step.{is_redone};
ghost use Rattle.determinize_start.specs.LookTables.{opened, tables};
ghost use Rattle.determinize_state.specs.Recording.{needs};

use determinize_below::{Look, LookSet};

/// The walk of a valid NFA over a text corresponds to its runs over the text. There are two
/// more values than bytes, and the first lists no pattern. Under `MatchKind::All`, each value lists
/// the patterns of the runs that accept before its unit, the most preferred run first. Under
/// `MatchKind::LeftmostFirst`, the last value with a pattern is at the end of the most preferred
/// accepting run, and if there is none, no run accepts. Except for captures, the values but the
/// last record the NFA states that runs reach by what is known there, or a prefix of this list
/// under `MatchKind::LeftmostFirst`.
#[tactic(auto, using(crate::proofs::walk::WalkOfRuns::walk_laws))]
pub fn walk_law()
    ensures runs { EachChainIsTrue }
    ensures lists { EachChainHasItsLists }
    ensures records { EachChainReaches }
{}

/// The values over a text with a byte ahead are those over the text with this byte appended,
/// without the last.
#[tactic(auto, using(crate::proofs::walk::UnitLists::each_byte_ahead_is_next))]
pub fn ahead_law()
    ensures { EachByteAheadIsNext }
{}

/// The runs determine one list of patterns at each position, one most preferred match, and, under
/// the assertions known at a position or under those that hold there, one list of the NFA states
/// that runs reach there, without captures.
pub fn answer_law()
    ensures { EachAnswerIsOne }
{}

/// A search of a valid NFA can be continued from one more root. A state has epsilon edges or
/// transitions on bytes, not both, and never a transition on EOI.
#[tactic(auto, using(crate::proofs::step::StepLaws::search_laws))]
pub fn search_law()
    ensures goes_on { EachReachGoesOn }
    ensures kinds { EachStateHasOneKind }
    ensures ends { NothingLeadsOverTheEnd }
{}

/// From each of its values a walk continues as a walk that starts there. A step from the dead value
/// gives the dead value. If no cycle of the NFA consists of captures only, so does each step that
/// gives no pattern and no NFA state. A recorded value with empty look-need has empty look-have.
/// Under `MatchKind::LeftmostFirst` a transition gives at most one pattern.
pub fn step_law()
    ensures future { EachFutureFollows }
    ensures dead { DeadStays }
    ensures settled { NoNeedNoHave }
    ensures leftmost { LeftmostGivesOne }
{}

/// A transition does not distinguish bytes of one class of `NFA::byte_classes`, from a state whose
/// look-need has only assertions of the NFA. Each state of a walk is such a state. Start states
/// behind alike bytes may differ, since they are made by start kind.
pub fn class_law()
    ensures steps { EachClassSteps }
    ensures needs { EachNeedIsTested }
{}

/// A transition from a value whose ids are states of the NFA tries to add a state to a set at most
/// twice for each state and each epsilon edge of the NFA.
#[tactic(auto, using(crate::proofs::step::StepBound::tries_are_few))]
pub fn tries_law()
    ensures { TriesAreFew }
{}

/// Gives eight examples of the program `rows`: the bytes of the states of each walk, and the
/// pattern and end of its last match. Their NFAs are valid.
pub fn walk_rows_law()
    ensures accepted { rows.AreAccepted }
    ensures row_4a { rows.Row4a }
    ensures row_4b { rows.Row4b }
    ensures row_5 { rows.Row5 }
    ensures row_8a { rows.Row8a }
    ensures row_9a { rows.Row9a }
    ensures row_11b { rows.Row11b }
    ensures row_18 { rows.Row18 }
    ensures row_31a { rows.Row31a }
{}

/// An example of a closure into a set that is not empty: no state of the set is followed.
pub fn search_row_law()
    ensures { rows.Row22 }
{}

/// If the closure is not reopened, the unit satisfies no further assertion of look-need.
#[tactic(auto, using(crate::proofs::step::Reopening::not_reopened))]
pub fn redo_law(
    reverse: bool,
    terminator: u8,
    any: LookSet,
    from_word: bool,
    half: bool,
    have: LookSet,
    need: LookSet,
    unit: Option<u8>,
    look: Look,
)
    requires kept { is_redone (opened (tables reverse terminator any) from_word half unit) have need
        ≡ false }
    requires needed { has need look ≡ true }
    ensures { (has have look || opened (tables reverse terminator any) from_word half unit look)
        ≡ has have look }
{}

/// An assertion is in a set to which the needs of a list of states were added if and only if it was
/// in the set or some state of the list tests it.
pub fn need_law(set: LookSet, look: Look)
    ensures { (nfa : Nfa) (xs : List ℕ)
        → Decides (has (needs nfa set xs) look)
        ((has set look ≡ true) ⊎ Any (λ s. assertion_of nfa s ≡ Some look) xs) }
{}

/// The last match of a walk under `MatchKind::All` ends at the last position at which a run
/// accepts, and its pattern is that of the best run that accepts there. It is `None` if and only if
/// no run accepts. No run ends past the end of its text.
pub fn farthest_law()
    ensures farthest { EachLastIsFarthest }
    ensures within { NoRunLeavesTheText }
{}

/// The units of a text are its bytes in order, and then the byte ahead of it or EOI.
#[tactic(auto, using(crate::proofs::walk::UnitLists::each_unit_is_a_byte))]
pub fn units_law()
    ensures { EachUnitIsAByte }
{}

/// Two recursions for the last match over a list of units: one takes off the first unit, the other
/// the last.
#[tactic(auto, using(crate::proofs::walk::LastMatches::last_match_laws))]
pub fn last_match_law()
    ensures first { EachFirstUnitUnrolls }
    ensures last { EachLastUnitUnrolls }
{}

/// If the next state of each capture has a greater id than the capture, no cycle consists of
/// captures only. The NFA of the rows `25` is an example. That of row `12` has a capture whose next
/// state is itself.
#[tactic(auto, using(crate::proofs::closure::CaptureCycles::capture_laws))]
pub fn capture_law()
    ensures ascending { AscendingCapturesHaveNoCycle }
    ensures rows { rows.AreCaptureRows }
{}
