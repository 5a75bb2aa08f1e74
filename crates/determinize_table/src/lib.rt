//! The transition table of a lazy DFA: the cached states, the cached transitions between them, and
//! the rule of what is cached. `determinize_lazy` computes states and searches over the table.
//!
//! - A *row* is 258 numbers, one row for each cached state, all in one vector. In the column of a
//!   byte, or of the end of input (EOI), is the entry of the transition from the row's state over
//!   it: the offset of the row of the target, or 1 if the transition is not cached. In the last
//!   column is the tag of the state.
//! - The *id* of a state (`state_id`) is the offset of its row; contracts see it as the index of
//!   the state. So a search goes from one state to the next by one addition and one read.
//! - The *tag* (`tag`) is what a search needs to know of a state: its first pattern, and whether it
//!   is dead (records no NFA states, so that no match follows). So a search over cached transitions
//!   reads two numbers a byte, and no state.
//! - The *loop* (`looping`) is a cached state that has a transition to itself over many bytes, as
//!   the start of an unanchored search mostly has, with the set of the other bytes: a search passes
//!   those that are not in it many at once.
//! - A *cursor* is a place of a walk or a search: the id of a cached state, or a state that is not
//!   cached.
//!
//! `TransitionTable::keep` (`table`) caches a computed transition with its two states and, if it is
//! given classes of bytes (`spans`), the same over each byte of the class of its byte. If the table
//! would then have more than `limit` states, it is cleared first; if `limit` is less than the count
//! of these two states, it stays empty. It is also cleared if adding the target fails, since the
//! source may just have been added and would be in no transition. No single state or transition is
//! removed, so between two clears an id stays that of its state.
//!
//! Everything here is public for `determinize_lazy` only.
//!
//! A `Result` is `Err` if an allocation fails or more than 16647160 states would be cached.
#![tactic(auto)]

mod looping;
mod spans;
mod state_id;
mod table;
mod tag;

pub use crate::spans::ClassSpans;
pub use crate::state_id::LazyStateId;
pub use crate::table::{Cursor, TransitionTable};
pub use crate::tag::{LastMatch, StateTag};
