//! Marks at the bytes on which a state may have another target than on the byte before: the first
//! byte of a range, the byte after its last one, and a byte with another target in a dense state.
//! A byte without a mark has the target of the byte before it, so a mark too many costs only time.

ghost use Rattle.std.specs.Prelude.{◌≡◌, ◌<◌, Some, length, true};
ghost use Rattle.determinize_below.specs.ByteClasses.{MarksChanges};
ghost use Rattle.determinize_below.specs.Nfa.{is_dense_sound};
ghost use Rattle.determinize_below.specs.Node.{node_of};
ghost use Rattle.determinize_below.specs.Semantics.{state_at, target_of, within};
ghost use Rattle.determinize_below.specs.Transition.{dense_target, sparse_target};

use crate::nfa::{NFA, State, Transition};
use crate::primitives::StateID;
use std::alloc::Allocator;

/// Marks `start`, and the byte after `end` if there is one.
fn mark_between(start: u8, end: u8, marks: &mut [bool; 256])
    ensures { MarksChanges (within start end) marks.old marks.new }
{
    marks[usize::from(start)] = true;
    if end < u8::MAX {
        marks[usize::from(end) + 1] = true;
    }
}

/// Marks the first byte of each range, and the byte after its last.
fn mark_ranges(transitions: &[Transition], marks: &mut [bool; 256])
    ensures { MarksChanges (sparse_target transitions.now) marks.old marks.new }
{
    for trans in transitions {
        mark_between(trans.start, trans.end, marks);
    }
}

/// Marks the bytes whose target is not that of the byte before.
fn mark_targets(targets: &[StateID], marks: &mut [bool; 256])
    requires { length targets.now ≡ 256 }
    ensures { MarksChanges (dense_target targets.now) marks.old marks.new }
{
    for byte in 1..256 {
        if targets[byte] != targets[byte - 1] {
            marks[byte] = true;
        }
    }
}

/// Marks the bytes on which the state may have another target than on the byte before.
fn mark_state<A: Allocator>(state: &State<A>, marks: &mut [bool; 256])
    requires { is_dense_sound (node_of state.now) ≡ true }
    ensures { MarksChanges (λ b. target_of (Some b) (node_of state.now)) marks.old marks.new }
{
    match state {
        State::ByteRange { trans } => mark_between(trans.start, trans.end, marks),
        State::Sparse(sparse) => mark_ranges(sparse.transitions.as_slice(), marks),
        State::Dense(dense) => mark_targets(dense.transitions.as_slice(), marks),
        _ => {}
    }
}

impl<A: Allocator> NFA<A> {
    /// Marks each byte on which the state with this id has another target than on the byte before,
    /// and maybe others. Keeps all marks. The id must be below the number of states.
    pub fn mark_changes(&self, id: StateID, marks: &mut [bool; 256])
        requires { id < length self.now.states }
        ensures { MarksChanges (λ b. target_of (Some b) (state_at self.now id))
            marks.old marks.new }
    {
        mark_state(self.state(id), marks);
    }
}
