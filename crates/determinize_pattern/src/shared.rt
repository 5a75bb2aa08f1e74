//! A table of the states with one transition that were added last.

ghost use Rattle.std.specs.Prelude.{◌≡◌, Some, slice_get};
ghost use Rattle.std.specs.Option.{IfSome};
ghost use Rattle.determinize_below.specs.Semantics as nodes;

use determinize_below::StateID;
use determinize_below::nfa::{State, Transition};
use determinize_nfa::Builder;
use std::alloc::{AllocError, Allocator};

/// The number of buckets of a table.
const BUCKETS: usize = 1024;

/// A table of ids of states, one in each bucket. What is in a bucket is a guess, which is compared
/// with the state before it is used.
#[derive(Drop)]
pub struct Shared<A: Allocator> {
    buckets: Vec<StateID, A>,
}

impl<A: Allocator + Copy> Shared<A> {
    /// Returns an empty table, which has no buckets until the first state is put into it.
    pub fn new(alloc: A) -> Shared<A> {
        Shared {
            buckets: Vec::new(alloc),
        }
    }

    /// Returns the state of the builder that is in the bucket, if it has this transition alone.
    pub fn get(&self, builder: &Builder<A>, bucket: usize, trans: &Transition) -> Option<StateID>
        ensures { IfSome result
            (λ id. slice_get builder.now.states id ≡ Some (nodes.ByteRange trans.now)) }
    {
        let id = *self.buckets.get(bucket)?;
        match builder.get(id) {
            Some(State::ByteRange { trans: known }) if known == trans => Some(id),
            _ => None,
        }
    }

    /// Puts a state into the bucket, in the place of an earlier one.
    pub fn put(&mut self, alloc: A, bucket: usize, id: StateID) -> Result<(), AllocError> {
        if self.buckets.is_empty() {
            self.buckets = vec![in alloc; StateID::ZERO; BUCKETS]?;
        }
        if bucket < self.buckets.len() {
            self.buckets[bucket] = id;
        }
        Ok(())
    }
}

/// Returns the bucket of a transition.
pub fn bucket_of(trans: &Transition) -> usize {
    let range = usize::from(trans.start) + 7 * usize::from(trans.end);
    (range + 61 * trans.next.as_usize()) % BUCKETS
}
