//! The first pass of a transition: the patterns and the targets of a working list.
//!
//! The states are read in order, each once. The pattern of a `Match` state is added to the builder,
//! and the target of any other state over the unit is pushed. Under `MatchKind::LeftmostFirst` the
//! first match ends the pass.

ghost use Rattle.std.specs.Prelude.{◌≡◌, ℕ, ◌<◌, List, [], Option, Some, false, length, nat_eq, not, IfOk, OnOk, ◌&&◌};
ghost use Rattle.std.specs.Iterator.{IsFinite, YieldsFirst};
ghost use Rattle.std.specs.List.{list_any};
ghost use Rattle.determinize_below.specs.Edges.{is_match, pattern_of};
ghost use Rattle.determinize_below.specs.Semantics.{state_at, target_of};
ghost use Rattle.determinize_below.specs.Members.{has_id};
ghost use Rattle.determinize_below.specs.Nfa.{AllResolve, IsAccepted};
ghost use Rattle.determinize_below.specs.Search.{continues};
ghost use Rattle.determinize_below.specs.Transition.{matches_unit};
ghost use Rattle.determinize_below.specs.Unit.{byte_of};
ghost use Rattle.determinize_core.specs.Private.Reading.{byte_or_256, distinct, found_in, IsListRead, IsStateRead};

use determinize_below::nfa::Transition;
use determinize_below::{MatchKind, NFA, PatternID, SparseSet, SparseSetIter, StateID, Unit, nfa};
use determinize_state::state::{NfaStateIds, StateBuilderNFA};
use std::alloc::{AllocError, Allocator};

/// What the first pass finds in an NFA state.
#[derive(Clone, Copy)]
pub(crate) enum Reading {
    /// No pattern, and no transition on the unit.
    Nothing,
    /// The target of its transition on the unit.
    Target(StateID),
    /// The pattern that matches.
    Match(PatternID),
}

/// Returns the byte of a unit, or 256 for every EOI.
///
/// The range of a `ByteRange` state is compared with it, which needs no test for EOI at each such
/// state. 256 is in no range.
#[inline(always)]
pub(crate) fn byte_or_256(unit: Unit) -> usize
    ensures { result ≡ byte_or_256 (byte_of unit) }
{
    match unit.as_u8() {
        Some(byte) => usize::from(byte),
        None => 256,
    }
}

/// Returns whether a transition is on a unit. `number` is the byte of the unit, or 256 for EOI.
#[inline(always)]
#[tactic(auto, using(crate::proofs::step::FirstReading::on_byte_or_256))]
fn is_on(transition: &Transition, number: usize) -> bool
    ensures { (u : Option ℕ) → number ≡ byte_or_256 u
        → result ≡ matches_unit transition.now u }
{
    usize::from(transition.start) <= number && number <= usize::from(transition.end)
}

/// Returns the pattern of an NFA state, or its target over a unit, or `Nothing`. `number` is the
/// byte of the unit, or 256 for EOI.
#[inline(always)]
fn read<N: Allocator>(nfa: &NFA<N>, id: StateID, unit: Unit, number: usize) -> Reading
    requires resolve { id < length nfa.now.states }
    requires number { number ≡ byte_or_256 (byte_of unit) }
    ensures { result
        ≡ found_in (pattern_of nfa.now id) (target_of (byte_of unit) (state_at nfa.now id)) }
{
    let target = match nfa.state(id) {
        nfa::State::ByteRange { trans } => is_on(trans, number).then_some(trans.next),
        nfa::State::Sparse(sparse) => sparse.matches_unit(unit),
        nfa::State::Dense(dense) => dense.matches_unit(unit),
        nfa::State::Match { pattern_id } => return Reading::Match(*pattern_id),
        _ => None,
    };
    match target {
        Some(next) => Reading::Target(next),
        None => Reading::Nothing,
    }
}

/// Reads one state: adds its pattern, or pushes its target, unless the state was read before.
/// Returns whether the pass ends: at a match, under `MatchKind::LeftmostFirst`. `number` is the
/// byte of the unit, or 256 for EOI.
#[inline(always)]
fn read_state<N: Allocator, A: Allocator>(
    nfa: &NFA<N>,
    match_kind: MatchKind,
    id: StateID,
    unit: Unit,
    number: usize,
    kept: &mut SparseSet<A>,
    stack: &mut Vec<StateID, A>,
    builder: &mut StateBuilderNFA<A>,
) -> Result<bool, AllocError>
    requires resolve { id < length nfa.now.states }
    requires number { number ≡ byte_or_256 (byte_of unit) }
    requires capacity { kept.old.capacity ≡ length nfa.now.states }
    requires unrecorded { builder.old.states ≡ [] }
    requires new_pattern { (p : ℕ) → pattern_of nfa.now id ≡ Some p → has_id kept.old.ids id ≡ false
        → list_any (nat_eq p) builder.old.patterns ≡ false }
    ensures read { OnOk result (IsStateRead nfa.now (byte_of unit) id kept.old.ids kept.new.ids
        stack.old.items stack.new.items builder.old builder.new) }
    ensures stops { IfOk result
        (λ stops. stops ≡ (not (continues match_kind) && is_match nfa.now id)) }
    ensures capacity { kept.new.capacity ≡ kept.old.capacity }
{
    match read(nfa, id, unit, number) {
        Reading::Nothing => Ok(false),
        Reading::Target(next) => {
            if kept.insert(id) {
                stack.push(next)?;
            }
            Ok(false)
        }
        Reading::Match(pattern) => {
            if kept.insert(id) {
                builder.add_match_pattern_id(pattern)?;
            }
            Ok(!match_kind.continue_past_first_match())
        }
    }
}

/// An iterator over a list of ids, in order.
pub(crate) trait Ids: Iterator<Item = StateID> + Drop {
    ghost left: { Self → List ℕ };

    ghost gives: { (s t : Self) (id : Option ℕ)
        → Self.next_gives s id t → YieldsFirst left s id t };
}

impl<'a> Ids for NfaStateIds<'a> {
    ghost left = { λ ids. ids };

    ghost gives = { λ s t id h. h };
}

impl<'a> Ids for SparseSetIter<'a> {
    ghost left = { λ ids. ids };

    ghost gives = { λ s t id h. h };
}

/// Reads the states of a list: pushes the targets and adds the patterns, under
/// `MatchKind::LeftmostFirst` up to the first match. Repeats are skipped: `kept` has the states so
/// far that gave a pattern or a target. `number` is the byte of the unit, or 256 for EOI.
#[inline(always)]
pub(crate) fn read_states<N: Allocator, A: Allocator, I: Ids>(
    nfa: &NFA<N>,
    match_kind: MatchKind,
    ids: I,
    unit: Unit,
    number: usize,
    kept: &mut SparseSet<A>,
    stack: &mut Vec<StateID, A>,
    builder: &mut StateBuilderNFA<A>,
) -> Result<(), AllocError>
    requires number { number ≡ byte_or_256 (byte_of unit) }
    requires can { I.can_next ids }
    requires ends { IsFinite (I.remaining ids) }
    requires accepted { IsAccepted nfa.now }
    requires resolve { AllResolve nfa.now (I.left ids) }
    requires empty { kept.old.ids ≡ [] }
    requires capacity { kept.old.capacity ≡ length nfa.now.states }
    requires stack { stack.old.items ≡ [] }
    requires unread { builder.old.patterns ≡ [] }
    requires unrecorded { builder.old.states ≡ [] }
    ensures ok { OnOk result (IsListRead nfa.now match_kind (byte_of unit) (distinct (I.left ids))
        builder.old builder.new stack.new.items) }
    ensures capacity { kept.new.capacity ≡ kept.old.capacity }
{
    for id in ids {
        let stops = read_state(nfa, match_kind, id, unit, number, kept, stack, builder)?;
        if stops {
            return Ok(());
        }
    }
    Ok(())
}
