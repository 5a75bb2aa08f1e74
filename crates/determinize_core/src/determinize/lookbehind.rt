//! The look-behind of a start state: its look-have and flags are set in the builder.

ghost use Rattle.std.specs.Prelude.{◌≡◌, ℕ, true, Option};
ghost use Rattle.determinize_below.specs.Look.{has};
ghost use Rattle.determinize_below.specs.Reached as reached;
ghost use Rattle.determinize_below.specs.declared.look.Look.{Look as Assertion};
ghost use Rattle.determinize_core.specs.Step.{with_start};
ghost use Rattle.determinize_start.specs.LookTables.{start_have, tables_of};
ghost use Rattle.determinize_start.specs.StartKinds.{start_kind_of};
ghost use Rattle.determinize_state.specs.Value.{with_flags};

use determinize_below::NFA;
use determinize_start::look_tables::{LookBehind, LookTables};
use determinize_start::start::Start;
use determinize_state::state::StateBuilderMatches;
use std::alloc::Allocator;

/// Sets the flags of the look-behind.
fn set_flags<A: Allocator>(look_behind: LookBehind, builder: &mut StateBuilderMatches<A>)
    ensures { builder.new ≡ with_flags builder.old look_behind.from_word look_behind.half_crlf }
{
    if look_behind.from_word {
        builder.set_is_from_word();
    }
    if look_behind.half_crlf {
        builder.set_is_half_crlf();
    }
}

/// Sets the look-behind of a start state, given its start kind: adds to look-have the assertions
/// that hold for any next unit, and sets flags. The rest of the builder is unchanged. Never fails.
pub fn set_lookbehind_from_start<N: Allocator, A: Allocator>(
    nfa: &NFA<N>,
    start: &Start,
    builder: &mut StateBuilderMatches<A>,
)
    ensures look_behind { builder.new ≡ with_start nfa.now start.now builder.old }
    ensures known { (p : Option ℕ) (look : Assertion)
        → start_kind_of nfa.now.terminator p ≡ start.now
        → has (start_have (tables_of nfa.now) start.now) look ≡ true
        → reached.known nfa.now p look ≡ true }
{
    let look_behind = LookTables::of(nfa).at_start(*start);
    builder.set_look_have(|have| have.union(look_behind.looks));
    set_flags(look_behind, builder);
}
