//! DFA states as bytes, and the builders of them.
//!
//! During determinization a DFA state is identified by its value: two flags and two sets of
//! assertions about its position, the ids of the patterns that match, and an ordered list of NFA
//! states. Two states with the same value are the same state. A DFA builder looks up a state for
//! each transition that it computes, so a state is stored as bytes in a canonical encoding, in
//! which equal values have equal bytes, and is compared and hashed by its bytes.
//!
//! - The first byte has flags: 1 if some pattern matches, 2 if the pattern ids are explicit, 4 if
//!   the byte before the state is a word byte (from-word), 8 if it may be the first half of a CRLF
//!   (half-CRLF).
//! - Look-have and look-need follow, four bytes each, little-endian.
//! - The pattern ids follow if they are explicit: their number and then each id, four bytes each.
//!   They are implicit if there is none, or if `ZERO` is the only one, the common case of a single
//!   pattern.
//! - The NFA states follow, each as the difference `d` to the previous id, starting from 0. A
//!   difference is written as `2 * d`, or `-2 * d - 1` if it is negative, in a varint: groups of 7
//!   bits, the low group first, with 128 added to each byte but the last. The ids of one state are
//!   often close to each other, and then a difference needs one byte.
//!
//! Look-have are the assertions known to hold at the position of the state, and look-need those
//! that its NFA states test. If look-need is empty, look-have is cleared, so that states do not
//! differ in assertions that nothing tests.
//!
//! A state is built in three phases, and each phase has a type: `StateBuilderEmpty`, then
//! `StateBuilderMatches` for flags, look-have and pattern ids, then `StateBuilderNFA` for NFA
//! states and both sets. The last also takes flags and, before the first NFA state, pattern ids, so
//! that a transition needs one builder. So bytes are appended or overwritten, never inserted.

mod builders;
mod bytes;
mod comparison;
mod debug;
mod nfa_state_ids;
mod pattern_ids;
mod small_bytes;
mod varint;

ghost use Rattle.std.specs.Prelude.{◌≡◌, ◌+◌, ◌*◌, ◌<◌, ◌≤◌, [], length, slice_index, option_map, IfOk, IsOk, Ok, None};
ghost use Rattle.determinize_state.specs.Value.{IsValue, dead, is_nonempty, listed};
ghost use Rattle.determinize_state.specs.Spelling.{IsSpelled, spell};

pub use builders::{StateBuilderEmpty, StateBuilderMatches, StateBuilderNFA};
use determinize_below::{LookSet, PatternID};
pub use nfa_state_ids::NfaStateIds;
use small_bytes::SmallBytes;
use std::alloc::{AllocError, Allocator, Global};
use std::marker::Model;

/// A finished state of a DFA. It is immutable. A clone copies its bytes.
///
/// Up to 30 bytes are stored inline, and more in memory of the allocator. A state that `into_state`
/// of a builder made keeps the builder's memory, however short it is; its clone is stored like any
/// other. No clause says so.
pub struct State<A: Allocator = Global> {
    bytes: SmallBytes<A>,
}

// Derived code is proved again in each crate that drops a state.
impl<A: Allocator> Drop for State<A> {
    fn drop(self) {
        let State { bytes: _ } = self;
    }
}

impl<A: Allocator> Model for State<A> {
    ghost use Rattle.determinize_state.specs.Value.{Value as StateValue};
    ghost use Rattle.determinize_state.specs.Spelling.{value_of, IsSpelled};

    ghost Value = { StateValue };

    ghost view = { λ s. value_of s.bytes };

    ghost invariant = { λ s. IsSpelled s.bytes };
}

#[tactic(auto, using(crate::proofs::encoding::ReadBytes::reading))]
impl<A: Allocator> State<A> {
    /// Returns the dead state, with nothing set and no pattern or NFA state: nine zero bytes. Does
    /// not allocate, so it never fails.
    #[tactic(auto, using(crate::proofs::building::UnfinishedBytes::built_zeros))]
    pub fn dead(alloc: A) -> Result<State<A>, AllocError>
        ensures value { IfOk result (λ s. s ≡ dead) }
        ensures succeeds { IsOk result }
    {
        let bytes = SmallBytes::from_slice(alloc, &[0; bytes::COUNT])?;
        Ok(State { bytes })
    }

    /// Returns whether some pattern matches in this state. Matches are delayed by one unit: such a
    /// match ends before the unit over which the state was entered.
    pub fn is_match(&self) -> bool
        ensures { result ≡ is_nonempty self.now.patterns }
    {
        bytes::has_flag(self.bytes.as_slice(), bytes::MATCH)
    }

    /// Returns the flag from-word: the byte before the state is a word byte. Determinization sets
    /// it only if the NFA has word assertions.
    pub fn is_from_word(&self) -> bool
        ensures { result ≡ self.now.from_word }
    {
        bytes::has_flag(self.bytes.as_slice(), bytes::FROM_WORD)
    }

    /// Returns the flag half-CRLF: the byte before the state may be the first half of a CRLF.
    /// Determinization sets it only if the NFA has CRLF assertions.
    pub fn is_half_crlf(&self) -> bool
        ensures { result ≡ self.now.half_crlf }
    {
        bytes::has_flag(self.bytes.as_slice(), bytes::HALF_CRLF)
    }

    /// Returns look-have: the assertions known to hold at the state.
    pub fn look_have(&self) -> LookSet
        ensures { result ≡ self.now.look_have }
    {
        bytes::look_have(self.bytes.as_slice())
    }

    /// Returns look-need: the assertions that the NFA states of this state test.
    pub fn look_need(&self) -> LookSet
        ensures { result ≡ self.now.look_need }
    {
        bytes::look_need(self.bytes.as_slice())
    }

    /// Returns the number of patterns that match.
    #[tactic(auto, using(crate::proofs::encoding::ReadBytes::patterns))]
    pub fn match_len(&self) -> usize
        ensures { result ≡ length self.now.patterns }
    {
        bytes::pattern_words(self.bytes.as_slice()).len() / PatternID::SIZE
    }

    /// Returns the pattern at this index, which must be below `match_len`.
    #[tactic(auto, using(crate::proofs::encoding::ReadBytes::patterns))]
    pub fn match_pattern(&self, index: usize) -> PatternID
        requires { index < length self.now.patterns }
        ensures { result ≡ slice_index self.now.patterns index }
    {
        let words = bytes::pattern_words(self.bytes.as_slice());
        PatternID::must(bytes::number_at(words, PatternID::SIZE * index) as usize)
    }

    /// Returns the patterns that match, in order, in a vector of the state's allocator. Returns
    /// `Ok(None)` without allocating if no pattern matches.
    pub fn match_pattern_ids(&self) -> Result<Option<Vec<PatternID, A>>, AllocError>
    where
        A: Clone,
        ensures ids { IfOk result (λ ids.
            option_map (λ list. list.items) ids ≡ listed self.now.patterns) }
        ensures none { self.now.patterns ≡ [] → result ≡ Ok None }
    {
        if !self.is_match() {
            return Ok(None);
        }
        let alloc = self.bytes.allocator().clone()?;
        Ok(Some(bytes::pattern_ids(self.bytes.as_slice()).collect(alloc)?))
    }

    /// Returns an iterator that decodes the NFA states in order. Does not allocate.
    pub fn iter_nfa_state_ids(&self) -> NfaStateIds<'_>
        ensures { result ≡ self.now.states }
    {
        bytes::nfa_state_ids(self.bytes.as_slice())
    }

    /// Returns the number of bytes of the state: at most 13, plus 4 per pattern, plus 5 per NFA
    /// state.
    #[tactic(auto, using(crate::proofs::encoding::EncodedLength::spell_short))]
    pub fn memory_usage(&self) -> usize
        ensures bytes { result ≡ length (spell self.now) }
        ensures bound { result ≤ 13 + 4 * length self.now.patterns + 5 * length self.now.states }
    {
        self.as_bytes().len()
    }

    /// Returns the bytes of the state, the canonical encoding of its value.
    pub fn as_bytes(&self) -> &[u8]
        ensures bytes { result.now ≡ spell self.now }
        ensures valid { IsValue self.now }
    {
        self.bytes.as_slice()
    }

    /// Returns the memory of the bytes, or the allocator if they are inline.
    fn into_vec(self) -> Result<Vec<u8, A>, A>
        ensures { IfOk result (λ bytes. IsSpelled bytes.items) }
    {
        let State { bytes } = self;
        bytes.into_vec()
    }
}

/// Returns a clone with the same value.
impl<A: Allocator + Clone> Clone for State<A> {
    ghost is_clone = { λ a b. a ≡ b };

    fn clone(&self) -> Result<State<A>, AllocError> {
        let bytes = self.bytes.clone()?;
        Ok(State { bytes })
    }
}
