//! Facts about start configurations and look-behind, as contracts of public functions. All but the
//! first have empty bodies.

ghost use Rattle.std.specs.Prelude.{◌≡◌, ◌≤◌, Bool, true, false, ◌||◌, IfOk, IsOk, Option, Some};
ghost use Rattle.determinize_below.specs.Look.{has};
ghost use Rattle.determinize_below.specs.Semantics.{holds};
ghost use Rattle.determinize_below.specs.Truth as truth;
ghost use Rattle.determinize_start.specs.LookTables.{AreKnownAlone, IsFlagged, from_word_after, from_word_at_start, half_crlf_after, half_crlf_at_start, have_after, have_at_start, opened, tables};
ghost use Rattle.determinize_start.specs.StartKinds as kinds;
ghost use Rattle.determinize_start.specs.StartRows as rows;
ghost use Rattle.determinize_start.specs.StartSlots as slots;

use crate::start::{Config, Start, StartByteMap, StartSlot};
use determinize_below::{Look, LookSet};
use std::alloc::AllocError;

/// Returns clones of a configuration and of a start byte map. They are equal to the originals, and
/// nothing is allocated, so it never fails.
pub fn start_clone_law(
    config: &Config,
    map: &StartByteMap,
) -> Result<(Config, StartByteMap), AllocError>
    ensures succeeds { IsOk result }
    ensures config { IfOk result (λ r. r.0 ≡ config.now) }
    ensures map { IfOk result (λ r. r.1 ≡ map.now) }
{
    Ok((config.clone()?, map.clone()?))
}

/// States that a start kind is determined by its number, and that the numbers are below 6.
pub fn start_number_law(start: Start, number: usize)
    ensures back { kinds.start_of_number (kinds.number_of start) ≡ Some start }
    ensures past { 6 ≤ number → kinds.start_of_number number ≡ None }
{}

/// States that a slot is determined by its number, and that the numbers are below 12.
pub fn slot_number_law(slot: StartSlot, number: usize)
    ensures back { slots.slot_of_number (slots.slot_number slot) ≡ Some slot }
    ensures past { 12 ≤ number → slots.slot_of_number number ≡ None }
{}

/// Gives examples: the start kinds of small searches, and the look-behind of start kinds and of
/// single units. States that no byte has the kind `CustomLineTerminator` if the line terminator is
/// `\n` or `\r`, and that an NFA without assertions has an empty look-behind at the start.
pub fn start_rows_law(byte: u8)
    ensures forward { rows.ForwardRows }
    ensures reverse { rows.ReverseRows }
    ensures bytes { rows.ByteRows }
    ensures no_custom { (¬ (kinds.start_kind 10 byte ≡ Start.CustomLineTerminator))
        × (¬ (kinds.start_kind 13 byte ≡ Start.CustomLineTerminator)) }
    ensures look_behind { rows.LookBehindRows }
    ensures classes { rows.ClassRows }
    ensures steps { rows.StepRows }
    ensures nothing { rows.NoLookBehind }
{}

/// States that the look-have of a start kind is sound, since each of its assertions holds for every
/// next unit, and complete for the assertions of the NFA; and that the flags of a start are those
/// after a step over the byte behind it, or over EOI if there is none.
pub fn start_law(reverse: bool, terminator: u8, any: LookSet, before: Option<u8>, look: Look)
    ensures known { has (have_at_start (tables reverse terminator any) before) look ≡ true
        → truth.is_known reverse terminator before look ≡ true }
    ensures all { has any look ≡ true
        → has (have_at_start (tables reverse terminator any) before) look
        ≡ truth.is_known reverse terminator before look }
    ensures from_word { from_word_at_start (tables reverse terminator any) before
        ≡ from_word_after (tables reverse terminator any) before }
    ensures half_crlf { half_crlf_at_start (tables reverse terminator any) before
        ≡ half_crlf_after (tables reverse terminator any) before }
{}

/// States that the look-have after a step over a byte is sound, since each of its assertions holds
/// for every next unit, and complete for the assertions of the NFA.
pub fn look_behind_law(reverse: bool, terminator: u8, any: LookSet, byte: u8, look: Look)
    ensures known { has (have_after (tables reverse terminator any) (Some byte)) look ≡ true
        → truth.is_known reverse terminator (Some byte) look ≡ true }
    ensures all { has any look ≡ true
        → has (have_after (tables reverse terminator any) (Some byte)) look
        ≡ truth.is_known reverse terminator (Some byte) look }
{}

/// States that the flags after a step describe the byte that was read, or that there is none, if
/// the NFA has assertions that need them.
pub fn flags_law(reverse: bool, terminator: u8, any: LookSet, before: Option<u8>)
    ensures { IsFlagged (tables reverse terminator any) before
        (from_word_after (tables reverse terminator any) before)
        (half_crlf_after (tables reverse terminator any) before) }
{}

/// States that, for flags that describe the byte behind a position, an assertion of the NFA holds
/// there if and only if the look-behind or the next unit satisfies it; and that the next unit never
/// satisfies `Start`, `StartLF` or a `WordStartHalf` assertion, which depend on the look-behind
/// only.
pub fn opened_law(
    reverse: bool,
    terminator: u8,
    any: LookSet,
    before: Option<u8>,
    from_word: bool,
    half: bool,
    unit: Option<u8>,
    look: Look,
)
    requires flags { IsFlagged (tables reverse terminator any) before from_word half }
    requires there { has any look ≡ true }
    ensures truth { (truth.is_known reverse terminator before look
        || opened (tables reverse terminator any) from_word half unit look)
        ≡ holds reverse terminator before unit look }
    ensures known_alone { AreKnownAlone (tables reverse terminator any) from_word half unit }
{}
