//! Sparse sets: sets of NFA state ids that iterate in insertion order.
//!
//! The NFA states of a DFA state are listed in order of preference, so the order is significant. A
//! set has its ids as a list, and a bit set for the membership test. `new` allocates both for the
//! whole capacity, so an insertion writes one bit and one id and never allocates. The cost of
//! `clear` depends on the number of ids in the list and not on the capacity, since the sets are
//! cleared for each transition.
//!
//! The original has two arrays of ids, `dense` and `sparse`, in place of list and bits. The bits
//! need 1/32 of the memory of the second array.

ghost use Rattle.std.specs.Prelude.{◌≡◌, ℕ, ◌*◌, ◌<◌, ◌≤◌, ◌↔◌, [], ◌∷◌, ◌++◌, length, not, All, IsTrue, IfOk, if◌then◌else◌, nat_eq, ◌&&◌, ◌||◌};
ghost use Rattle.std.specs.Iterator.{YieldsFirst, item_count};
ghost use Rattle.determinize_below.specs.Private.Clearing.{IsCleared};
ghost use Rattle.determinize_below.specs.Private.Sparse.{has_bit};
ghost use Rattle.determinize_below.specs.Members.{has_id};

use crate::primitives::{ID_LIMIT, StateID};
use std::alloc::{AllocError, Allocator, Global};
use std::marker::Model;

/// A set of state ids below a capacity, in insertion order.
#[derive_where(Debug)]
pub struct SparseSet<A: Allocator = Global> {
    ids: Vec<StateID, A>,
    bits: Vec<u64, A>,
    capacity: usize,
}

// Derived code is proved again in each crate that drops a set.
impl<A: Allocator> Drop for SparseSet<A> {
    fn drop(self) {
        let SparseSet {
            ids: _,
            bits: _,
            capacity: _,
        } = self;
    }
}

impl<A: Allocator> Model for SparseSet<A> {
    ghost use Rattle.std.specs.Prelude.{vec_capacity};
    ghost use Rattle.determinize_below.specs.Members.{Members};
    ghost use Rattle.determinize_below.specs.Private.Sparse.{IsSparse};

    ghost Value = { Members };

    ghost view = { λ s. record { ids = s.ids.items; capacity = s.capacity } };

    ghost invariant = { λ s. IsSparse s.ids.items s.bits.items s.capacity (vec_capacity s.ids) };
}

impl<A: Allocator + Clone> SparseSet<A> {
    /// Returns an empty set for ids below the capacity, which must be at most 2147483647. Allocates
    /// all memory that the set will ever need, and none is kept on error.
    pub fn new(alloc: A, capacity: usize) -> Result<SparseSet<A>, AllocError>
        requires { capacity ≤ ID_LIMIT }
        ensures { IfOk result (λ s. s ≡ record { ids = []; capacity = capacity }) }
    {
        let ids = Vec::with_capacity(alloc.clone()?, capacity)?;
        let bits = vec![in alloc; 0u64; capacity.div_ceil(64)]?;
        Ok(SparseSet {
            ids,
            bits,
            capacity,
        })
    }
}

impl<A: Allocator> SparseSet<A> {
    ghost use Rattle.determinize_below.specs.Members.{AreMembers};

    /// Returns the number of ids in the set.
    pub fn len(&self) -> usize
        ensures { result ≡ length self.now.ids }
    {
        self.ids.len()
    }

    /// Returns whether the set is empty.
    pub fn is_empty(&self) -> bool
        ensures { IsTrue result ↔ (self.now.ids ≡ []) }
    {
        self.ids.is_empty()
    }

    /// Returns the capacity: all ids in the set are below it.
    pub fn capacity(&self) -> usize
        ensures { result ≡ self.now.capacity }
    {
        self.capacity
    }

    /// Returns whether the set contains the id, which must be below the capacity.
    pub fn contains(&self, id: StateID) -> bool
        requires { id < self.now.capacity }
        ensures { result ≡ has_id self.now.ids id }
    {
        is_bit_set(&self.bits, id.as_usize())
    }

    /// Adds the id, which must be below the capacity, and returns whether it was new. A set that
    /// contains the id already is unchanged. Does not allocate.
    pub fn insert(&mut self, id: StateID) -> bool
        requires { id < self.old.capacity }
        ensures new { result ≡ not (has_id self.old.ids id) }
        ensures after { self.new ≡ record self.old {
          ids = (if result then self.old.ids ++ id ∷ [] else self.old.ids);
        } }
        ensures members { AreMembers self.new }
    {
        if set_bit(&mut self.bits, id) {
            return false;
        }
        // `new` has reserved room for every id below the capacity.
        self.ids.push_reserved(id);
        true
    }

    /// Removes all ids. The capacity is unchanged.
    pub fn clear(&mut self)
        ensures { self.new ≡ record self.old { ids = [] } }
    {
        clear_bits(&mut self.bits, &self.ids);
        self.ids.clear();
    }

    /// Returns the ids in insertion order.
    pub fn as_slice(&self) -> &[StateID]
        ensures ids { result.now ≡ self.now.ids }
        ensures members { AreMembers self.now }
    {
        self.ids.as_slice()
    }

    /// Returns an iterator over the ids in insertion order.
    pub fn iter(&self) -> SparseSetIter<'_>
        ensures ids { result ≡ self.now.ids }
        ensures members { AreMembers self.now }
    {
        SparseSetIter {
            ids: self.ids.as_slice(),
        }
    }
}

/// Returns whether the bit with this index is set in these words.
#[tactic(auto, using(crate::proofs::sets::Bits::one_bit))]
#[inline(always)]
pub(crate) fn is_bit_set(words: &[u64], index: usize) -> bool
    requires { index < 64 * length words.now }
    ensures { result ≡ has_bit words.now index }
{
    (words[index / 64] >> (index % 64)) & 1 == 1
}

/// Sets the bit of the id and returns whether it was set before. It writes the word in any case,
/// since compilers need three instructions fewer if no branch comes between reading and writing it.
#[tactic(auto, using(crate::proofs::sets::Bits::one_bit))]
#[inline(always)]
fn set_bit(words: &mut [u64], id: StateID) -> bool
    requires { id < 64 * length words.old }
    ensures before { result ≡ has_bit words.old id }
    ensures after { (other : ℕ)
        → has_bit words.new other ≡ (nat_eq other id || has_bit words.old other) }
{
    let index = id.as_usize();
    let was_set = is_bit_set(words, index);
    words[index / 64] |= 1 << (index % 64);
    was_set
}

/// Clears the bits of these ids, and maybe other bits, and sets none. For a short list it clears
/// the word of each id, for a long one, or if there is only one word, it is faster to fill all.
#[inline(always)]
fn clear_bits(words: &mut [u64], ids: &[StateID])
    requires { All (λ id. id < 64 * length words.old) ids.now }
    ensures { IsCleared words.old words.new ids.now }
{
    if words.len() == 1 {
        words.fill(0);
        return;
    }
    if ids.len() > 16 {
        return clear_many(words, ids);
    }
    clear_words(words, ids);
}

/// Clears the bits of many ids, and maybe other bits.
#[inline(never)]
fn clear_many(words: &mut [u64], ids: &[StateID])
    requires { All (λ id. id < 64 * length words.old) ids.now }
    ensures { IsCleared words.old words.new ids.now }
{
    if ids.len() >= words.len() / 8 {
        words.fill(0);
    } else {
        clear_words(words, ids);
    }
}

/// Clears the word of each id.
#[inline(always)]
fn clear_words(words: &mut [u64], ids: &[StateID])
    requires { All (λ id. id < 64 * length words.old) ids.now }
    ensures { IsCleared words.old words.new ids.now }
{
    for id in ids {
        // The other bits of the word are those of other ids in the list.
        words[id.as_usize() / 64] = 0;
    }
}

/// An iterator over the ids of a set in insertion order.
#[derive(Debug, Drop)]
pub struct SparseSetIter<'a> {
    ids: &'a [StateID],
}

impl<'a> Model for SparseSetIter<'a> {
    ghost use Rattle.std.specs.Prelude.{List, ℕ};

    ghost Value = { List ℕ };

    ghost view = { λ s. s.ids.now };
}

impl<'a> Iterator for SparseSetIter<'a> {
    type Item = StateID;

    ghost next_gives = { YieldsFirst (λ s. s) };

    ghost remaining = { item_count (λ s. s) };

    fn next(&mut self) -> Option<StateID> {
        let Some((id, after)) = self.ids.split_first() else {
            return None;
        };
        self.ids = after;
        Some(*id)
    }
}

/// Two sparse sets of the same capacity, the scratch of a transition: the NFA states that were read
/// and the epsilon closure that is computed.
#[derive(Drop)]
#[derive_where(Debug)]
pub struct SparseSets<A: Allocator = Global> {
    /// The first set.
    pub set1: SparseSet<A>,
    /// The second set.
    pub set2: SparseSet<A>,
}

impl<A: Allocator + Copy> SparseSets<A> {
    /// Returns two empty sets for ids below the capacity, which must be at most 2147483647. Nothing
    /// is kept on error.
    pub fn new(alloc: A, capacity: usize) -> Result<SparseSets<A>, AllocError>
        requires { capacity ≤ ID_LIMIT }
        ensures first { IfOk result (λ s. s.set1 ≡ record { ids = []; capacity = capacity }) }
        ensures second { IfOk result (λ s. s.set2 ≡ record { ids = []; capacity = capacity }) }
    {
        Ok(SparseSets {
            set1: SparseSet::new(alloc, capacity)?,
            set2: SparseSet::new(alloc, capacity)?,
        })
    }
}

impl<A: Allocator> SparseSets<A> {
    /// Removes all ids from both sets. Their capacities are unchanged.
    pub fn clear(&mut self)
        ensures { self.new ≡ record {
          set1 = record self.old.set1 { ids = [] };
          set2 = record self.old.set2 { ids = [] };
        } }
    {
        self.set1.clear();
        self.set2.clear();
    }

    /// Swaps the two sets, with their capacities.
    pub fn swap(&mut self)
        ensures { self.new ≡ record { set1 = self.old.set2; set2 = self.old.set1 } }
    {
        std::mem::swap(&mut self.set1, &mut self.set2);
    }
}
