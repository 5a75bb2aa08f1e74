//! The debug texts of transitions, states and NFAs.

use crate::look::Look;
use crate::nfa::NFA;
use crate::nfa::state::State;
use crate::nfa::transitions::Transition;
use crate::primitives::{SmallIndex, StateID};
use std::alloc::Allocator;
use std::fmt;

/// Writes one state per line, and then the start states, the direction and the line terminator.
impl<A: Allocator> fmt::Debug for NFA<A> {
    fn fmt<W: fmt::Write>(&self, f: &mut fmt::Formatter<W>) -> fmt::Result {
        f.write_str("NFA(\n")?;
        write_states(f, self.states.as_slice())?;
        let (anchored, unanchored) = (self.start_anchored, self.start_unanchored);
        let line = self.look_matcher.get_line_terminator();
        write_settings(f, anchored, unanchored, self.reverse, line)
    }
}

fn write_states<A: Allocator, W: fmt::Write>(
    f: &mut fmt::Formatter<W>,
    states: &[State<A>],
) -> fmt::Result {
    for (index, state) in states.iter().enumerate() {
        write!(f, "{index}: {state:?}\n")?;
    }
    Ok(())
}

fn write_settings<W: fmt::Write>(
    f: &mut fmt::Formatter<W>,
    anchored: StateID,
    unanchored: StateID,
    reverse: bool,
    line: u8,
) -> fmt::Result {
    write!(
        f,
        "start_anchored: {anchored}, start_unanchored: {unanchored}, reverse: {reverse}, \
         line_terminator: {line:02x}\n)"
    )
}

/// Writes the kind of the state, unless it is a range of bytes, and what it has transitions to. The
/// targets of a dense state are in the order of their bytes, and 0 means no transition.
impl<A: Allocator> fmt::Debug for State<A> {
    fn fmt<W: fmt::Write>(&self, f: &mut fmt::Formatter<W>) -> fmt::Result {
        match self {
            State::ByteRange { trans } => trans.fmt(f),
            State::Sparse(sparse) => write_sparse(f, sparse.transitions.as_slice()),
            State::Dense(dense) => write_ids(f, "dense(", dense.transitions.as_slice()),
            State::Look { look, next } => write_look(f, *look, *next),
            State::Union { alternates } => write_ids(f, "union(", alternates.as_slice()),
            State::BinaryUnion { alt1, alt2 } => write_ids(f, "union(", &[*alt1, *alt2]),
            State::Capture { next } => write_capture(f, *next),
            State::Fail => f.write_str("fail"),
            State::Match { pattern_id } => write_ids(f, "match(", &[*pattern_id]),
        }
    }
}

/// Writes the bytes of the range in hexadecimal, and the target.
impl fmt::Debug for Transition {
    fn fmt<W: fmt::Write>(&self, f: &mut fmt::Formatter<W>) -> fmt::Result {
        let (start, end, next) = (self.start, self.end, self.next);
        write!(f, "{start:02x}-{end:02x} => {next}")
    }
}

fn write_look<W: fmt::Write>(f: &mut fmt::Formatter<W>, look: Look, next: StateID) -> fmt::Result {
    write!(f, "{look:?} => {next}")
}

fn write_capture<W: fmt::Write>(f: &mut fmt::Formatter<W>, next: StateID) -> fmt::Result {
    write!(f, "capture => {next}")
}

fn write_sparse<W: fmt::Write>(f: &mut fmt::Formatter<W>, ranges: &[Transition]) -> fmt::Result {
    let mut before = "sparse(";
    for range in ranges {
        write!(f, "{before}{range:?}")?;
        before = ", ";
    }
    f.write_str(")")
}

fn write_ids<K, W: fmt::Write>(
    f: &mut fmt::Formatter<W>,
    begin: &str,
    ids: &[SmallIndex<K>],
) -> fmt::Result {
    f.write_str(begin)?;
    f.write_joined(ids.iter(), ", ")?;
    f.write_str(")")
}
