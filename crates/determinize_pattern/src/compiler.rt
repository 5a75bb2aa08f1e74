//! A builder under a limit, and what is done to each entry of a part of a pattern.

ghost use Rattle.std.specs.Prelude.{◌≡◌, ◌<◌, ◌+◌, IfErr, IfOk, OnErr, OnOk, [], ◌∷◌, length, replicate, slice_index, vec_len};
ghost use Rattle.determinize_below.specs.Semantics as nodes;
ghost use Rattle.determinize_nfa.specs.Builder.{closed, with_node};
ghost use Rattle.determinize_pattern.specs.Classes.{pairs};
ghost use Rattle.determinize_pattern.specs.Private.Compiling.{AddsEach, HasNode, IsJoined, Paid};
ghost use Rattle.determinize_pattern.specs.Private.Entries as entries;
ghost use Rattle.determinize_pattern.specs.Private.Entries.{leading};
ghost use Rattle.determinize_pattern.specs.declared.nfa.CompileError.TheVariants.{ExceededSizeLimit};

use crate::class::ClassBytesRange;
use crate::nfa::{CompileError, Config};
use crate::shared::{Shared, bucket_of};
use determinize_below::nfa::Transition;
use determinize_below::{Look, StateID};
use determinize_nfa::Builder;
use std::alloc::Allocator;

/// A builder of an NFA, how many states and calls may still be made, and states that are shared.
#[derive(Drop)]
pub struct Compiler<A: Allocator> {
    pub alloc: A,
    pub builder: Builder<A>,
    pub left: usize,
    pub shared: Shared<A>,
}

impl<A: Allocator + Copy> Compiler<A> {
    /// Returns a compiler that has added no state.
    pub fn new(alloc: A, config: Config) -> Compiler<A>
        ensures left { result.left ≡ config.state_limit }
        ensures builder { result.builder
            ≡ record { states = []; patterns = 0; terminator = config.look_matcher } }
    {
        let mut builder = Builder::new(alloc);
        builder.set_look_matcher(config.look_matcher);
        Compiler {
            alloc,
            builder,
            left: config.state_limit,
            shared: Shared::new(alloc),
        }
    }

    /// Returns a list of these ids.
    pub fn copy(&self, ids: &[StateID]) -> Result<Vec<StateID, A>, CompileError>
        ensures items { IfOk result (λ v. v.items ≡ ids.now) }
        ensures len { IfOk result (λ v. vec_len v ≡ length ids.now) }
    {
        Ok(Vec::from_slice(self.alloc, ids)?)
    }

    /// Returns a list of two ids and then the others.
    pub fn list(
        &self,
        first: StateID,
        second: StateID,
        rest: &[StateID],
    ) -> Result<Vec<StateID, A>, CompileError>
        ensures { IfOk result (λ v. v.items ≡ first ∷ second ∷ rest.now) }
    {
        let mut ids = vec![in self.alloc; first, second]?;
        ids.extend_from_slice(rest)?;
        Ok(ids)
    }

    /// Returns transitions on the ranges to a state.
    pub fn transitions(
        &self,
        ranges: &[ClassBytesRange],
        next: StateID,
    ) -> Result<Vec<Transition, A>, CompileError>
        ensures { IfOk result (λ v. v.items ≡ leading next (pairs ranges.now)) }
    {
        let mut transitions = Vec::new(self.alloc);
        for i in 0..ranges.len() {
            let (start, end) = (ranges[i].start, ranges[i].end);
            transitions.push(Transition { start, end, next })?;
        }
        Ok(transitions)
    }

    /// Subtracts a cost from what is left, or returns `ExceededSizeLimit` if less is left.
    pub fn spend(&mut self, cost: usize) -> Result<(), CompileError>
        ensures kept { self.new.builder ≡ self.old.builder }
        ensures spent { OnOk result (self.new.left + cost ≡ self.old.left) }
        ensures over { OnErr result (self.old.left < cost) }
        ensures err { IfErr result (λ error. error ≡ ExceededSizeLimit) }
    {
        if cost > self.left {
            return Err(CompileError::ExceededSizeLimit);
        }
        self.left -= cost;
        Ok(())
    }

    /// Returns the id of a state with one transition: one that was added before, if it is known, or
    /// a new one. So patterns that end alike before one state share what they end with.
    pub fn range(&mut self, trans: Transition) -> Result<StateID, CompileError>
        ensures node { IfOk result
            (HasNode self.old.builder self.new.builder (nodes.ByteRange trans)) }
        ensures paid { OnOk result
            (Paid self.old.builder self.old.left self.new.builder self.new.left) }
    {
        let bucket = bucket_of(&trans);
        if let Some(id) = self.shared.get(&self.builder, bucket, &trans) {
            return Ok(id);
        }
        self.spend(1)?;
        let id = self.builder.add_range(trans)?;
        self.shared.put(self.alloc, bucket, id)?;
        Ok(id)
    }

    /// Adds a union of these states, most preferred first, and returns its id.
    pub fn union(&mut self, alternates: &[StateID]) -> Result<StateID, CompileError>
        ensures id { IfOk result (λ id. id ≡ length self.old.builder.states) }
        ensures added { OnOk result
            (self.new.builder ≡ with_node self.old.builder (nodes.Union alternates.now)) }
        ensures paid { OnOk result
            (Paid self.old.builder self.old.left self.new.builder self.new.left) }
    {
        self.spend(1)?;
        Ok(self.builder.add_union(alternates)?)
    }

    /// Adds a state without transitions, and returns its id.
    pub fn fail(&mut self) -> Result<StateID, CompileError>
        ensures id { IfOk result (λ id. id ≡ length self.old.builder.states) }
        ensures added { OnOk result
            (self.new.builder ≡ with_node self.old.builder nodes.Fail) }
        ensures paid { OnOk result
            (Paid self.old.builder self.old.left self.new.builder self.new.left) }
    {
        self.spend(1)?;
        Ok(self.builder.add_fail()?)
    }

    /// Sets the alternates of the state of a loop, which was added without any.
    pub fn close(
        &mut self,
        again: StateID,
        greedy: bool,
        more: StateID,
        stop: StateID,
    ) -> Result<(), CompileError>
        requires { again < length self.old.builder.states }
        ensures closed { OnOk result
            (self.new.builder ≡ closed self.old.builder again (entries.in_order greedy more stop)) }
        ensures paid { OnOk result
            (Paid self.old.builder self.old.left self.new.builder self.new.left) }
    {
        let alternates = in_order(greedy, more, stop);
        Ok(self.builder.close(again, &alternates)?)
    }

    /// Adds a union of the starts, unless there is one, and returns where they begin.
    pub fn join(&mut self, starts: &[StateID]) -> Result<StateID, CompileError>
        ensures joined { IfOk result
            (λ s. IsJoined self.old.builder self.new.builder starts.now s) }
        ensures paid { OnOk result
            (Paid self.old.builder self.old.left self.new.builder self.new.left) }
    {
        match starts.len() {
            0 => self.fail(),
            1 => Ok(starts[0]),
            _ => self.union(starts),
        }
    }

    /// Puts an assertion in front of each entry from `first` on.
    pub fn look_each(
        &mut self,
        look: Look,
        first: usize,
        ids: &mut [StateID],
    ) -> Result<(), CompileError>
        ensures added { OnOk result (AddsEach first self.old.builder self.new.builder ids.old
            ids.new (λ k. nodes.Look look (slice_index ids.old k))) }
        ensures paid { OnOk result
            (Paid self.old.builder self.old.left self.new.builder self.new.left) }
    {
        for k in first..ids.len() {
            self.spend(1)?;
            ids[k] = self.builder.add_look(ids[k], look)?;
        }
        Ok(())
    }

    /// Makes each entry from `first` on a choice between itself and the state at its place in
    /// `others`.
    pub fn choose_each(
        &mut self,
        first_wins: bool,
        first: usize,
        ids: &mut [StateID],
        others: &[StateID],
    ) -> Result<(), CompileError>
        requires { length others.now ≡ length ids.old }
        ensures added { OnOk result (AddsEach first self.old.builder self.new.builder ids.old
            ids.new (λ k. nodes.Union
            (entries.in_order first_wins (slice_index ids.old k) (slice_index others.now k)))) }
        ensures paid { OnOk result
            (Paid self.old.builder self.old.left self.new.builder self.new.left) }
    {
        for k in first..ids.len() {
            let alternates = in_order(first_wins, ids[k], others[k]);
            ids[k] = self.union(&alternates)?;
        }
        Ok(())
    }
}

/// Makes each entry the same state.
pub fn set_each(ids: &mut [StateID], id: StateID)
    ensures { ids.new ≡ replicate (length ids.old) id }
{
    for k in 0..ids.len() {
        ids[k] = id;
    }
}

/// Returns one more round and the end of a loop in order of preference.
fn in_order(greedy: bool, more: StateID, stop: StateID) -> [StateID; 2]
    ensures { result ≡ entries.in_order greedy more stop }
{
    if greedy { [more, stop] } else { [stop, more] }
}
