//! The classes of bytes that an NFA does not distinguish.
//!
//! Two bytes are alike if every state has the same target on both, and if no assertion of the NFA
//! distinguishes them. A partition begins with the classes of bytes that no assertion
//! distinguishes. Then each state splits the classes on whose bytes it has several targets. A class
//! is known by its least byte.
//!
//! To see whether a class is to be split, a state with one range looks at the bytes of the range, a
//! sparse state at those from its first range to its last, and a dense state at all. Only where a
//! class is split are all bytes put into their classes again: at most 255 times in all, since there
//! is a class more each time.

ghost use Rattle.std.specs.Prelude.{◌≡◌, ◌≢◌, ℕ, ◌<◌, ◌≤◌, None, Some, false, length, true};
ghost use Rattle.std.specs.Prelude.{if◌then◌else◌, slice_index, slice_index_or};
ghost use Rattle.std.specs.Bool.{Decides};
ghost use Rattle.determinize_below.specs.ByteClasses.{AreAlike, AreClassesOf, AreTestedAlike};
ghost use Rattle.determinize_below.specs.ByteClasses.{is_marked};
ghost use Rattle.determinize_below.specs.Nfa.{IsAccepted, is_dense_sound, is_sparse_sound};
ghost use Rattle.determinize_below.specs.Node.{node_of};
ghost use Rattle.determinize_below.specs.Private.Partition.{AreLeast, ArePartition, AreSplit};
ghost use Rattle.determinize_below.specs.Private.Partition.{IsBound};
ghost use Rattle.determinize_below.specs.Semantics.{target_of, within};
ghost use Rattle.determinize_below.specs.Transition.{dense_target, is_ascending, matches};
ghost use Rattle.determinize_below.specs.Transition.{sparse_target};

use crate::alphabet::{ByteClasses, is_word_byte};
use crate::nfa::transitions::DenseTransitions;
use crate::nfa::{NFA, State, Transition};
use crate::primitives::StateID;
use std::alloc::Allocator;

/// Returns whether no assertion of the NFA distinguishes the bytes.
fn are_tested_alike<A: Allocator>(nfa: &NFA<A>, b: u8, c: u8) -> bool
    ensures { Decides result (AreTestedAlike nfa.now b c) }
{
    let looks = nfa.look_set_any();
    let terminator = nfa.look_matcher().get_line_terminator();
    if looks.contains_anchor_line() && (b == terminator) != (c == terminator) {
        return false;
    }
    if looks.contains_anchor_crlf()
        && ((b == b'\r') != (c == b'\r') || (b == b'\n') != (c == b'\n'))
    {
        return false;
    }
    !looks.contains_word() || is_word_byte(b) == is_word_byte(c)
}

/// Returns the least byte that no assertion of the NFA distinguishes from this one.
fn least_tested_alike<A: Allocator>(nfa: &NFA<A>, byte: u8) -> u8
    ensures alike { AreTestedAlike nfa.now result byte }
    ensures first { (c : ℕ) → c ≤ byte → AreTestedAlike nfa.now c byte → result ≤ c }
{
    for earlier in 0..byte {
        if are_tested_alike(nfa, earlier, byte) {
            return earlier;
        }
    }
    byte
}

/// Returns marks at the bytes from `start` to `end`, both included.
fn bytes_within(start: u8, end: u8) -> [bool; 256]
    ensures { (b : ℕ) → b < 256 → is_marked result b ≡ within start end b }
{
    let mut inside = [false; 256];
    for byte in usize::from(start)..usize::from(end) + 1 {
        inside[byte] = true;
    }
    inside
}

/// Returns marks at the bytes with this target.
fn bytes_to(targets: &[Option<StateID>; 256], target: Option<StateID>) -> [bool; 256]
    ensures { (b : ℕ) → b < 256
        → Decides (is_marked result b) (slice_index_or targets.now b None ≡ target) }
{
    let mut inside = [false; 256];
    for byte in 0..256 {
        inside[byte] = targets[byte] == target;
    }
    inside
}

/// Writes the target of a range to each of its bytes.
fn write_range(trans: &Transition, targets: &mut [Option<StateID>; 256])
    ensures { (b : ℕ) → b < 256 → slice_index_or targets.new b None
        ≡ (if matches trans.now b then Some trans.now.next else slice_index_or targets.old b None) }
{
    for byte in usize::from(trans.start)..usize::from(trans.end) + 1 {
        targets[byte] = Some(trans.next);
    }
}

/// Returns the targets of these sorted ranges on each byte.
fn sparse_targets(transitions: &[Transition]) -> [Option<StateID>; 256]
    requires { is_ascending transitions.now ≡ true }
    ensures { (b : ℕ) → b < 256
        → slice_index_or result b None ≡ sparse_target transitions.now b }
{
    let mut targets = [None; 256];
    for trans in transitions {
        write_range(trans, &mut targets);
    }
    targets
}

/// Returns the targets of this table on each byte.
fn dense_targets<A: Allocator>(dense: &DenseTransitions<A>) -> [Option<StateID>; 256]
    requires { length dense.now ≡ 256 }
    ensures { (b : ℕ) → b < 256 → slice_index_or result b None ≡ dense_target dense.now b }
{
    let mut targets = [None; 256];
    for byte in 0..256 {
        targets[byte] = dense.matches_byte(byte as u8);
    }
    targets
}

/// Splits each class that has bytes with a mark and without, given the least byte of the class of
/// each byte.
fn split_classes(inside: &[bool; 256], least: &mut [u8; 256])
    requires { ArePartition least.old }
    ensures { AreSplit (is_marked inside.now) least.old least.new }
{
    // For each class the first byte that is parted from the least one.
    let mut others = [None; 256];
    for byte in 0..256 {
        let first = usize::from(least[byte]);
        if inside[byte] != inside[first] {
            let other = others[first].unwrap_or(byte as u8);
            others[first] = Some(other);
            least[byte] = other;
        }
    }
}

/// Returns the greatest byte of each class at the index of its least one, given the least byte of
/// the class of each byte.
fn greatest_bytes(least: &[u8; 256]) -> [u8; 256]
    ensures { IsBound least.now result }
{
    let mut greatest = [0; 256];
    for byte in 0..256 {
        greatest[usize::from(least[byte])] = byte as u8;
    }
    greatest
}

/// Classes of bytes, each of which is known by its least byte.
#[derive(Drop)]
struct Partition {
    /// The least byte of the class of each byte.
    least: [u8; 256],
    /// The greatest byte of each class, at the index of its least one.
    greatest: [u8; 256],
    ghost classes: { ArePartition least },
    ghost bound: { IsBound least greatest },
}

impl Partition {
    /// Returns the classes of bytes that no assertion of the NFA distinguishes.
    fn new<A: Allocator>(nfa: &NFA<A>) -> Partition
        ensures { AreLeast (AreTestedAlike nfa.now) result.least }
    {
        let mut least = [0; 256];
        for byte in 1..256 {
            // Bytes next to each other are mostly alike, and then have the same least byte.
            least[byte] = if are_tested_alike(nfa, (byte - 1) as u8, byte as u8) {
                least[byte - 1]
            } else {
                least_tested_alike(nfa, byte as u8)
            };
        }
        let greatest = greatest_bytes(&least);
        Partition { least, greatest }
    }

    /// Returns whether a class may have bytes in the range and out of it.
    fn is_cut(&self, start: u8, end: u8) -> bool
        ensures { result ≡ false → AreSplit (within start end) self.now.least self.now.least }
    {
        for byte in usize::from(start)..usize::from(end) + 1 {
            let first = self.least[byte];
            if first < start || self.greatest[usize::from(first)] > end {
                return true;
            }
        }
        false
    }

    /// Splits each class that has bytes with a mark and without.
    fn split(&mut self, inside: &[bool; 256])
        ensures { AreSplit (is_marked inside.now) self.old.least self.new.least }
    {
        split_classes(inside, &mut self.least);
        self.greatest = greatest_bytes(&self.least);
    }

    /// Splits each class that has bytes in the range and out of it.
    fn split_range(&mut self, start: u8, end: u8)
        ensures { AreSplit (within start end) self.old.least self.new.least }
    {
        if self.is_cut(start, end) {
            self.split(&bytes_within(start, end));
        }
    }

    /// Returns whether the class of the byte has another target on its least byte, or, if the byte
    /// has a target, whether the class has a byte above `high`.
    fn is_mixed(&self, targets: &[Option<StateID>; 256], byte: usize, high: u8) -> bool
        requires { byte < 256 }
        ensures least { result ≡ false
            → slice_index_or targets.now (slice_index self.now.least byte) None
            ≡ slice_index_or targets.now byte None }
        ensures above { result ≡ false → slice_index_or targets.now byte None ≢ None
            → (c : ℕ) → high < c → c < 256
            → slice_index self.now.least c ≢ slice_index self.now.least byte }
    {
        let first = usize::from(self.least[byte]);
        if targets[first] != targets[byte] {
            return true;
        }
        targets[byte].is_some() && self.greatest[first] > high
    }

    /// Splits each class whose bytes have several targets. No byte below `low` or above `high` may
    /// have a target.
    fn split_targets(&mut self, targets: &[Option<StateID>; 256], low: u8, high: u8)
        requires { (b : ℕ) → b < 256 → within low high b ≡ false
            → slice_index_or targets.now b None ≡ None }
        ensures { AreSplit (λ b. slice_index_or targets.now b None) self.old.least self.new.least }
    {
        for byte in usize::from(low)..usize::from(high) + 1 {
            if self.is_mixed(targets, byte, high) {
                self.split(&bytes_to(targets, targets[byte]));
            }
        }
    }

    /// Splits each class whose bytes have several targets in these sorted ranges.
    fn split_ranges(&mut self, transitions: &[Transition])
        requires { is_ascending transitions.now ≡ true }
        ensures { AreSplit (sparse_target transitions.now) self.old.least self.new.least }
    {
        if let Some(last) = transitions.last() {
            let low = transitions[0].start;
            self.split_targets(&sparse_targets(transitions), low, last.end);
        }
    }

    /// Splits each class on whose bytes the state has several targets.
    fn split_state<A: Allocator>(&mut self, state: &State<A>)
        requires ascends { is_sparse_sound (node_of state.now) ≡ true }
        requires whole { is_dense_sound (node_of state.now) ≡ true }
        ensures { AreSplit (λ b. target_of (Some b) (node_of state.now))
            self.old.least self.new.least }
    {
        match state {
            State::ByteRange { trans } => self.split_range(trans.start, trans.end),
            State::Sparse(sparse) => self.split_ranges(sparse.transitions.as_slice()),
            State::Dense(dense) => self.split_targets(&dense_targets(dense), 0, u8::MAX),
            _ => {}
        }
    }
}

/// Returns the least byte of the class of each byte: the least that the NFA does not distinguish
/// from it.
fn least_bytes<A: Allocator>(nfa: &NFA<A>) -> [u8; 256]
    ensures least { AreLeast (AreAlike nfa.now) result }
    ensures accepted { IsAccepted nfa.now }
{
    let mut partition = Partition::new(nfa);
    for index in 0..nfa.len() {
        partition.split_state(nfa.state(StateID::must(index)));
    }
    partition.least
}

impl<A: Allocator> NFA<A> {
    /// Returns the classes of bytes that the NFA does not distinguish. Two bytes have one class
    /// exactly if every state has the same target on both, and no assertion of the NFA
    /// distinguishes them: one on words by whether they are word bytes, one on lines or CRLF by
    /// whether they are the line terminator, one on CRLF by whether they are `\r` or `\n`.
    ///
    /// The classes are computed anew by each call, in one pass over the states. The cost of a state
    /// is that of its ranges and of the bytes from the first range to the last, at most 256. Does
    /// not allocate.
    pub fn byte_classes(&self) -> ByteClasses
        ensures classes { AreClassesOf self.now result }
        ensures accepted { IsAccepted self.now }
    {
        let least = least_bytes(self);
        let mut classes = [0; 256];
        let mut firsts = [0; 256];
        let mut len = 0;
        for byte in 0..256 {
            let first = usize::from(least[byte]);
            if first < byte {
                classes[byte] = classes[first];
                continue;
            }
            classes[byte] = len as u8;
            firsts[len] = byte as u8;
            len += 1;
        }
        ByteClasses::from_parts(classes, firsts, len)
    }
}
