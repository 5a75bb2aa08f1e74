//! The three builders of a state.
//!
//! `StateBuilderEmpty` has an empty buffer, or the nine bytes of an empty header. From
//! `into_matches` on, the bytes encode the value of the builder: flags and sets are written in
//! place, patterns and NFA states are appended. `clear` keeps the buffer, so that a walk needs one
//! for all its states. `into_state` makes it the memory of a state, and `from_state` takes it back,
//! so that a state can be looked up without a copy.
//!
//! `clear` leaves an empty header, so `into_matches` writes one for the first state only: moving a
//! builder just after a write to it stalls until the write is done.
#![tactic(auto, using(crate::proofs::building::UnfinishedBytes::building))]

ghost use Rattle.std.specs.Prelude.{◌≡◌, ℕ, [], true, false, nat_eq, IfOk, OnOk, OnErr, IsOk};
ghost use Rattle.std.specs.List.{list_any};
ghost use Rattle.determinize_below.specs.Look.{insert};
ghost use Rattle.determinize_state.specs.Value.{Value as StateValue, IsValue, dead, with_pattern, with_state};
ghost use Rattle.determinize_state.specs.Recording.{settled, IsGrown};
ghost use Rattle.determinize_state.specs.Spelling.{spell};
ghost use Rattle.determinize_state.specs.Building.{header};
ghost use Rattle.determinize_state.specs.Private.Marking.{IsMarkOf};

use crate::state::small_bytes::SmallBytes;
use crate::state::{State, bytes, varint};
use determinize_below::{Look, LookSet, PatternID, StateID};
use std::alloc::{AllocError, Allocator, Global};
use std::marker::Model;

/// A builder of a state with nothing set yet. It may have memory left from an earlier state.
pub struct StateBuilderEmpty<A: Allocator = Global> {
    bytes: Vec<u8, A>,
}

// Derived code is proved again in each crate that drops a builder.
impl<A: Allocator> Drop for StateBuilderEmpty<A> {
    fn drop(self) {
        let StateBuilderEmpty { bytes: _ } = self;
    }
}

impl<A: Allocator> Model for StateBuilderEmpty<A> {
    ghost use Rattle.determinize_state.specs.Value.{Value as StateValue, dead};
    ghost use Rattle.determinize_state.specs.Building.{IsClear};

    ghost Value = { StateValue };

    ghost view = { λ s. dead };

    ghost invariant = { λ s. IsClear s.bytes.items };
}

impl<A: Allocator> StateBuilderEmpty<A> {
    /// Returns a builder without memory. Later calls allocate from `alloc`.
    pub fn new(alloc: A) -> StateBuilderEmpty<A>
        ensures { result ≡ dead }
    {
        let bytes = Vec::new(alloc);
        StateBuilderEmpty { bytes }
    }

    /// Returns a builder that may keep the memory of a state. Never fails.
    pub fn from_state(state: State<A>) -> StateBuilderEmpty<A>
        ensures { result ≡ dead }
    {
        match state.into_vec() {
            Ok(mut bytes) => {
                bytes::clear(&mut bytes);
                StateBuilderEmpty { bytes }
            }
            Err(alloc) => StateBuilderEmpty::new(alloc),
        }
    }

    /// Returns the builder of the next phase, with nothing set and no patterns. On error this
    /// builder is dropped.
    pub fn into_matches(self) -> Result<StateBuilderMatches<A>, AllocError>
        ensures { IfOk result (λ builder. builder ≡ dead) }
    {
        let StateBuilderEmpty { bytes } = self;
        let bytes = if bytes.is_empty() {
            first_bytes(bytes)?
        } else {
            bytes
        };
        let last = StateID::ZERO;
        let builder = StateBuilderNFA { bytes, last };
        Ok(StateBuilderMatches { builder })
    }

    /// Returns the number of bytes that fit without a further allocation. No clause says how many.
    pub fn capacity(&self) -> usize {
        self.bytes.capacity()
    }
}

/// Returns the bytes, which must be empty, with the header of a state with nothing set. On error
/// they are dropped.
///
/// They are passed by value: if their address were, `into_matches` would keep them in memory on
/// both paths.
#[cold]
#[inline(never)]
fn with_header<A: Allocator>(bytes: Vec<u8, A>) -> Result<Vec<u8, A>, AllocError>
    requires { bytes.items ≡ [] }
    ensures { IfOk result (λ bytes. bytes.items ≡ header) }
{
    let mut bytes = bytes;
    bytes.extend_from_slice(&[0; bytes::COUNT])?;
    Ok(bytes)
}

/// Returns the result of `with_header`. It is inlined, so only this path has one in memory.
#[inline(always)]
fn first_bytes<A: Allocator>(bytes: Vec<u8, A>) -> Result<Vec<u8, A>, AllocError>
    requires { bytes.items ≡ [] }
    ensures { IfOk result (λ bytes. bytes.items ≡ header) }
{
    let result = with_header(bytes);
    result
}

/// A builder that takes the flags of a state, its look-have and its patterns.
#[derive(Drop)]
pub struct StateBuilderMatches<A: Allocator = Global> {
    pub(crate) builder: StateBuilderNFA<A>,
}

impl<A: Allocator> Model for StateBuilderMatches<A> {
    ghost use Rattle.std.specs.Prelude.{◌≡◌, []};
    ghost use Rattle.determinize_state.specs.Value.{Value as StateValue};

    ghost Value = { StateValue };

    ghost view = { λ s. s.builder };

    ghost invariant = { λ s. s.builder.states ≡ [] };
}

impl<A: Allocator> StateBuilderMatches<A> {
    /// Sets the flag from-word: the byte before the state is a word byte.
    pub fn set_is_from_word(&mut self)
        ensures { self.new ≡ record self.old { from_word = true } }
    {
        self.builder.set_is_from_word();
    }

    /// Sets the flag half-CRLF: the byte before the state may be the first half of a CRLF.
    pub fn set_is_half_crlf(&mut self)
        ensures { self.new ≡ record self.old { half_crlf = true } }
    {
        self.builder.set_is_half_crlf();
    }

    /// Returns look-have: the assertions known to hold at the state.
    pub fn look_have(&self) -> LookSet
        ensures { result ≡ self.now.look_have }
    {
        self.builder.look_have()
    }

    /// Replaces look-have by the result of `set` for it. Calls `set` once.
    pub fn set_look_have<F: FnMut(LookSet) -> LookSet>(&mut self, set: F)
        requires { F.pre set self.old.look_have }
        ensures { (answer : ℕ) × F.post set self.old.look_have answer
            × (self.new ≡ record self.old { look_have = answer }) }
    {
        self.builder.set_look_have(set);
    }

    /// Adds a pattern, which must be new, after the others.
    ///
    /// On error the builder is unchanged. Adding `ZERO` as the first pattern never fails.
    pub fn add_match_pattern_id(&mut self, id: PatternID) -> Result<(), AllocError>
        requires { list_any (nat_eq id) self.old.patterns ≡ false }
        ensures ok { OnOk result (self.new ≡ with_pattern self.old id) }
        ensures err { OnErr result (self.new ≡ self.old) }
        ensures first { self.old.patterns ≡ [] → id ≡ 0 → IsOk result }
    {
        self.builder.add_match_pattern_id(id)
    }

    /// Returns the builder of the next phase, with the same value. Does not allocate.
    pub fn into_nfa(self) -> StateBuilderNFA<A>
        ensures { result ≡ self }
    {
        self.builder
    }
}

/// A builder that takes the NFA states of a state and its sets of assertions, its flags, and before
/// the first NFA state its patterns.
pub struct StateBuilderNFA<A: Allocator = Global> {
    pub(crate) bytes: Vec<u8, A>,
    last: StateID,
}

// See the drop of `StateBuilderEmpty`.
impl<A: Allocator> Drop for StateBuilderNFA<A> {
    fn drop(self) {
        let StateBuilderNFA { bytes: _, last: _ } = self;
    }
}

impl<A: Allocator> Model for StateBuilderNFA<A> {
    ghost use Rattle.determinize_state.specs.Value.{Value as StateValue};
    ghost use Rattle.determinize_state.specs.Spelling.{value_of};
    ghost use Rattle.determinize_state.specs.Building.{IsBuilding};

    ghost Value = { StateValue };

    ghost view = { λ s. value_of s.bytes.items };

    ghost invariant = { λ s. IsBuilding s.bytes.items s.last };
}

/// The part of a `StateBuilderNFA` that `restore` needs to undo later calls.
#[derive(Clone, Copy)]
pub(crate) struct Mark {
    bytes: usize,
    last: StateID,
    look_have: LookSet,
    look_need: LookSet,
}

impl<A: Allocator> StateBuilderNFA<A> {
    /// Returns look-have: the assertions known to hold at the state.
    pub fn look_have(&self) -> LookSet
        ensures { result ≡ self.now.look_have }
    {
        bytes::look_have(self.bytes.as_slice())
    }

    /// Returns look-need: the assertions that the NFA states test.
    pub fn look_need(&self) -> LookSet
        ensures { result ≡ self.now.look_need }
    {
        bytes::look_need(self.bytes.as_slice())
    }

    /// Replaces look-have by the result of `set` for it. Calls `set` once.
    pub fn set_look_have<F: FnMut(LookSet) -> LookSet>(&mut self, mut set: F)
        requires { F.pre set self.old.look_have }
        ensures { (answer : ℕ) × F.post set self.old.look_have answer
            × (self.new ≡ record self.old { look_have = answer }) }
    {
        let answer = set(self.look_have());
        self.put_look_have(answer);
    }

    /// Replaces look-need by the result of `set` for it. Calls `set` once.
    pub fn set_look_need<F: FnMut(LookSet) -> LookSet>(&mut self, mut set: F)
        requires { F.pre set self.old.look_need }
        ensures { (answer : ℕ) × F.post set self.old.look_need answer
            × (self.new ≡ record self.old { look_need = answer }) }
    {
        let answer = set(self.look_need());
        self.put_look_need(answer);
    }

    /// Sets the flag from-word: the byte before the state is a word byte.
    pub fn set_is_from_word(&mut self)
        ensures { self.new ≡ record self.old { from_word = true } }
    {
        bytes::set_flag(&mut self.bytes, bytes::FROM_WORD);
    }

    /// Sets the flag half-CRLF: the byte before the state may be the first half of a CRLF.
    pub fn set_is_half_crlf(&mut self)
        ensures { self.new ≡ record self.old { half_crlf = true } }
    {
        bytes::set_flag(&mut self.bytes, bytes::HALF_CRLF);
    }

    /// Adds a pattern, which must be new, after the others. No NFA state may have been added yet.
    ///
    /// On error the builder is unchanged. Adding `ZERO` as the first pattern never fails.
    #[tactic(auto, using(crate::proofs::building::AddedPatterns::adding))]
    pub fn add_match_pattern_id(&mut self, id: PatternID) -> Result<(), AllocError>
        requires unrecorded { self.old.states ≡ [] }
        requires new { list_any (nat_eq id) self.old.patterns ≡ false }
        ensures ok { OnOk result (self.new ≡ with_pattern self.old id) }
        ensures err { OnErr result (self.new ≡ self.old) }
        ensures first { self.old.patterns ≡ [] → id ≡ 0 → IsOk result }
    {
        bytes::add_pattern(&mut self.bytes, id.as_u32())
    }

    /// Adds an assertion to look-need, which may contain it already.
    #[inline(always)]
    pub(crate) fn add_look_need(&mut self, look: Look)
        ensures { self.new ≡ record self.old { look_need = insert self.old.look_need look } }
    {
        let look_need = bytes::look_need(self.bytes.as_slice());
        if !look_need.contains(look) {
            self.put_look_need(look_need.insert(look));
        }
    }

    /// Clears look-have if look-need is empty, so that states do not differ in assertions that
    /// nothing tests. Never fails.
    pub fn settle(&mut self)
        ensures { self.new ≡ settled self.old }
    {
        if self.look_need().is_empty() {
            self.put_look_have(LookSet::empty());
        }
    }

    /// Writes look-have.
    fn put_look_have(&mut self, look_have: LookSet)
        ensures { self.new ≡ record self.old { look_have = look_have } }
    {
        bytes::put_number(&mut self.bytes, bytes::LOOK_HAVE, look_have.as_repr());
    }

    /// Writes look-need.
    fn put_look_need(&mut self, look_need: LookSet)
        ensures { self.new ≡ record self.old { look_need = look_need } }
    {
        bytes::put_number(&mut self.bytes, bytes::LOOK_NEED, look_need.as_repr());
    }

    /// Adds an NFA state after the others. It may be present already.
    ///
    /// On error the builder is unchanged.
    #[tactic(auto, using(crate::proofs::building::UnfinishedBytes::adding))]
    #[inline(always)]
    pub fn add_nfa_state_id(&mut self, id: StateID) -> Result<(), AllocError>
        ensures ok { OnOk result (self.new ≡ with_state self.old id) }
        ensures err { OnErr result (self.new ≡ self.old) }
    {
        let difference = varint::zigzag(self.last, id);
        varint::write(&mut self.bytes, difference)?;
        self.last = id;
        Ok(())
    }

    /// Returns the bytes of the state, the canonical encoding of its value.
    pub fn as_bytes(&self) -> &[u8]
        ensures bytes { result.now ≡ spell self.now }
        ensures valid { IsValue self.now }
    {
        self.bytes.as_slice()
    }

    /// Returns a state with the value of the builder, which is unchanged.
    pub fn to_state(&self) -> Result<State<A>, AllocError>
    where
        A: Clone,
        ensures { IfOk result (λ state. state ≡ self.now) }
    {
        let alloc = self.bytes.allocator().clone()?;
        let bytes = SmallBytes::from_slice(alloc, self.bytes.as_slice())?;
        Ok(State { bytes })
    }

    /// Returns a state with the value of the builder, in its memory. Does not allocate.
    pub fn into_state(self) -> State<A>
        ensures { result ≡ self }
    {
        let StateBuilderNFA { bytes, last: _ } = self;
        let bytes = SmallBytes::from_vec(bytes);
        State { bytes }
    }

    /// Returns an empty builder, which may keep the memory of this one. Never fails.
    pub fn clear(self) -> StateBuilderEmpty<A>
        ensures { result ≡ dead }
    {
        let StateBuilderNFA { mut bytes, last: _ } = self;
        bytes::clear(&mut bytes);
        StateBuilderEmpty { bytes }
    }

    /// Returns a mark of the builder's value, for `restore`.
    pub(crate) fn mark(&self) -> Mark
        ensures { IsMarkOf result self.now }
    {
        Mark {
            bytes: self.bytes.len(),
            last: self.last,
            look_have: self.look_have(),
            look_need: self.look_need(),
        }
    }

    /// Restores the value that the builder had at the mark. Since then, only NFA states may have
    /// been added and sets replaced.
    pub(crate) fn restore(&mut self, mark: Mark)
        requires { (value : StateValue) × IsMarkOf mark value × IsGrown value self.old }
        ensures { (value : StateValue) → IsMarkOf mark value → IsGrown value self.old
            → self.new ≡ value }
    {
        self.bytes.truncate(mark.bytes);
        self.last = mark.last;
        self.put_look_have(mark.look_have);
        self.put_look_need(mark.look_need);
    }
}

/// Returns an empty builder with no memory yet.
impl<A: Allocator + Clone> Clone for StateBuilderEmpty<A> {
    ghost is_clone = { λ a b. a ≡ b };

    fn clone(&self) -> Result<StateBuilderEmpty<A>, AllocError> {
        Ok(StateBuilderEmpty::new(self.bytes.allocator().clone()?))
    }
}

/// Returns a clone with the same value.
impl<A: Allocator + Clone> Clone for StateBuilderMatches<A> {
    ghost is_clone = { λ a b. a ≡ b };

    fn clone(&self) -> Result<StateBuilderMatches<A>, AllocError> {
        let builder = self.builder.clone()?;
        Ok(StateBuilderMatches { builder })
    }
}

/// Returns a clone with the same value.
impl<A: Allocator + Clone> Clone for StateBuilderNFA<A> {
    ghost is_clone = { λ a b. a ≡ b };

    fn clone(&self) -> Result<StateBuilderNFA<A>, AllocError> {
        let (bytes, last) = (self.bytes.clone()?, self.last);
        Ok(StateBuilderNFA { bytes, last })
    }
}
