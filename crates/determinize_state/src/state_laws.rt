//! Facts about the encoding of states, as contracts of public functions. Each function but the last
//! makes the calls that its clauses relate. The clauses of the last one are example encodings.
#![tactic(auto, using(crate::proofs::encoding::EqualBytes::comparisons))]

ghost use Rattle.std.specs.Prelude.{◌≡◌, ◌↔◌, [], ◌∷◌, length, option_map, slice_get, IfOk, true};
ghost use Rattle.std.specs.Bool.{Decides};
ghost use Rattle.determinize_state.specs.Value.{dead, is_nonempty, listed};
ghost use Rattle.determinize_state.specs.Spelling.{spell};

use crate::state::{State, StateBuilderNFA};
use determinize_below::{PatternID, StateID};
use std::alloc::{AllocError, Allocator};

/// Returns whether two states have the same bytes, which is so if and only if their values are
/// equal.
pub fn same_bytes<A: Allocator, B: Allocator>(a: &State<A>, b: &State<B>) -> bool
    ensures answer { Decides result (a.now ≡ b.now) }
    ensures bytes { (spell a.now ≡ spell b.now) ↔ (a.now ≡ b.now) }
{
    a.as_bytes() == b.as_bytes()
}

/// Returns whether two builders have the same bytes, which is so if and only if their values are
/// equal.
pub fn same_built_bytes<A: Allocator, B: Allocator>(
    a: &StateBuilderNFA<A>,
    b: &StateBuilderNFA<B>,
) -> bool
    ensures answer { Decides result (a.now ≡ b.now) }
    ensures bytes { (spell a.now ≡ spell b.now) ↔ (a.now ≡ b.now) }
{
    a.as_bytes() == b.as_bytes()
}

/// Returns whether a builder has the bytes of a state, which is so if and only if their values are
/// equal.
pub fn is_built<A: Allocator, B: Allocator>(state: &State<A>, builder: &StateBuilderNFA<B>) -> bool
    ensures answer { Decides result (state.now ≡ builder.now) }
    ensures bytes { (spell state.now ≡ spell builder.now) ↔ (state.now ≡ builder.now) }
{
    state.as_bytes() == builder.as_bytes()
}

/// Returns whether two states are equal, which is so if and only if their values are equal.
pub fn are_equal<A: Allocator>(a: &State<A>, b: &State<A>) -> bool
    ensures { Decides result (a.now ≡ b.now) }
{
    a == b
}

/// Returns what the readers of patterns return: whether some pattern matches, the number of
/// patterns, all patterns (`None` if and only if there is none), and the pattern at the index if it
/// is below their number.
pub fn patterns_read<A: Allocator + Clone>(
    state: &State<A>,
    index: usize,
) -> Result<(bool, usize, Option<Vec<PatternID, A>>, Option<PatternID>), AllocError>
    ensures matches { IfOk result (λ r. r.0 ≡ is_nonempty state.now.patterns) }
    ensures len { IfOk result (λ r. r.1 ≡ length state.now.patterns) }
    ensures all { IfOk result (λ r.
        option_map (λ list. list.items) r.2 ≡ listed state.now.patterns) }
    ensures one { IfOk result (λ r. r.3 ≡ slice_get state.now.patterns index) }
{
    let ids = state.match_pattern_ids()?;
    let count = state.match_len();
    let one = if index < count {
        Some(state.match_pattern(index))
    } else {
        None
    };
    Ok((state.is_match(), count, ids, one))
}

/// Returns all NFA states of the state, in order, as its iterator yields them.
pub fn nfa_states_read<A: Allocator, B: Allocator>(
    state: &State<A>,
    alloc: B,
) -> Result<Vec<StateID, B>, AllocError>
    ensures { IfOk result (λ ids. ids.items ≡ state.now.states) }
{
    state.iter_nfa_state_ids().collect(alloc)
}

/// Gives the encodings of the dead value, of two with a flag and a set of assertions, of four with
/// patterns and of three with NFA states.
#[tactic(auto, unfolding(crate::specs::Spelling::spell, crate::specs::Varint::varint))]
pub fn worked_spellings()
    ensures dead { spell dead ≡ 0 ∷ 0 ∷ 0 ∷ 0 ∷ 0 ∷ 0 ∷ 0 ∷ 0 ∷ 0 ∷ [] }
    ensures from_word { spell (record dead { from_word = true; look_have = 0x14000 }) ≡
        4 ∷ 0 ∷ 0x40 ∷ 1 ∷ 0 ∷ 0 ∷ 0 ∷ 0 ∷ 0 ∷ [] }
    ensures half_crlf { spell (record dead { half_crlf = true; look_need = 0x40 }) ≡
        8 ∷ 0 ∷ 0 ∷ 0 ∷ 0 ∷ 0x40 ∷ 0 ∷ 0 ∷ 0 ∷ [] }
    ensures zero { spell (record dead { patterns = 0 ∷ [] }) ≡
        1 ∷ 0 ∷ 0 ∷ 0 ∷ 0 ∷ 0 ∷ 0 ∷ 0 ∷ 0 ∷ [] }
    ensures zero_two { spell (record dead { patterns = 0 ∷ 2 ∷ [] }) ≡
        3 ∷ 0 ∷ 0 ∷ 0 ∷ 0 ∷ 0 ∷ 0 ∷ 0 ∷ 0 ∷ 2 ∷ 0 ∷ 0 ∷ 0 ∷
        0 ∷ 0 ∷ 0 ∷ 0 ∷ 2 ∷ 0 ∷ 0 ∷ 0 ∷ [] }
    ensures one_zero { spell (record dead { patterns = 1 ∷ 0 ∷ [] }) ≡
        3 ∷ 0 ∷ 0 ∷ 0 ∷ 0 ∷ 0 ∷ 0 ∷ 0 ∷ 0 ∷ 2 ∷ 0 ∷ 0 ∷ 0 ∷
        1 ∷ 0 ∷ 0 ∷ 0 ∷ 0 ∷ 0 ∷ 0 ∷ 0 ∷ [] }
    ensures three { spell (record dead { patterns = 2 ∷ 0 ∷ 1 ∷ [] }) ≡
        3 ∷ 0 ∷ 0 ∷ 0 ∷ 0 ∷ 0 ∷ 0 ∷ 0 ∷ 0 ∷ 3 ∷ 0 ∷ 0 ∷ 0 ∷
        2 ∷ 0 ∷ 0 ∷ 0 ∷ 0 ∷ 0 ∷ 0 ∷ 0 ∷ 1 ∷ 0 ∷ 0 ∷ 0 ∷ [] }
    ensures far { spell (record dead { states = 2147483646 ∷ 0 ∷ [] }) ≡
        0 ∷ 0 ∷ 0 ∷ 0 ∷ 0 ∷ 0 ∷ 0 ∷ 0 ∷ 0 ∷
        0xfc ∷ 0xff ∷ 0xff ∷ 0xff ∷ 0x0f ∷ 0xfb ∷ 0xff ∷ 0xff ∷ 0xff ∷ 0x0f ∷ [] }
    ensures middle { spell (record dead { states = 300 ∷ [] }) ≡
        0 ∷ 0 ∷ 0 ∷ 0 ∷ 0 ∷ 0 ∷ 0 ∷ 0 ∷ 0 ∷ 0xd8 ∷ 4 ∷ [] }
    ensures near { spell (record dead { states = 1 ∷ 3 ∷ 2 ∷ [] }) ≡
        0 ∷ 0 ∷ 0 ∷ 0 ∷ 0 ∷ 0 ∷ 0 ∷ 0 ∷ 0 ∷ 2 ∷ 4 ∷ 1 ∷ [] }
{}
