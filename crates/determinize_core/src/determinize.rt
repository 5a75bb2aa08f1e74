//! Powerset construction: the start state of a DFA, one transition, and a walk over a text.
//!
//! A DFA state is an ordered list of NFA states: those that the runs over the bytes read so far end
//! in, by preference. A transition computes the next list from a list and one unit of input: a byte
//! or the end of input (EOI). A caller that keys the states by their bytes builds a DFA from these
//! transitions, in advance or lazily.
//!
//! A transition has two parts:
//!
//! 1. It reads the NFA states of the DFA state in order, and collects the patterns of `Match`
//!    states and the targets: the states to which its other states have a transition on the unit.
//!    Under `MatchKind::LeftmostFirst` it stops at the first `Match` state, since every later
//!    state belongs to a less preferred run.
//! 2. It adds the epsilon closure of each target in turn. The states in order of discovery, except
//!    captures, are those of the next DFA state.
//!
//! An assertion such as `\b` depends on the byte before a position and on the unit after it, and a
//! state is computed when only the byte before is known. So a state also has look-have, the
//! assertions known to hold for any next unit, look-need, the assertions that its NFA states test,
//! and two flags about the byte before. Its closure is computed under look-have. Before a
//! transition over a unit that satisfies a further assertion of look-need, the closure is reopened:
//! computed again, from the recorded states and with that assertion.
//!
//! For the same reason matches are delayed by one unit: the patterns that match at a position are
//! listed by the state after it, once the unit after the position is known. So a walk
//! makes one more transition after the last byte: over EOI, or over the byte ahead of the text.

pub mod changes;
pub mod closure;
pub mod lookbehind;
mod reading;
mod recorder;
mod reopening;
pub mod scratch;
pub mod stepper;
pub mod steps;
pub mod transition;
pub mod walks;
mod working_list;

pub use crate::determinize::closure::epsilon_closure;
pub use crate::determinize::lookbehind::set_lookbehind_from_start;
pub use crate::determinize::scratch::Scratch;
pub use crate::determinize::stepper::Stepper;
pub use crate::determinize::steps::Steps;
pub use crate::determinize::transition::{next, next_counted};
pub use crate::determinize::walks::{last_match, start_state, walk, walk_between};
pub use determinize_state::recording::add_nfa_states;
