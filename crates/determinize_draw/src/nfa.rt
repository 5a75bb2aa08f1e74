//! The graph of an NFA.

ghost use Rattle.std.specs.Prelude.{◌≡◌, true};
ghost use Rattle.determinize_below.specs.Nfa.{is_dense_sound, is_sparse_sound};
ghost use Rattle.determinize_below.specs.Node.{node_of};

use crate::targets::{Targets, UNITS, write_edges, write_head, write_range};
use determinize_below::nfa::{State, Transition};
use determinize_below::{NFA, StateID};
use std::alloc::{Allocator, Global};
use std::fmt;

/// The graph of an NFA, which `Display` writes.
///
/// Edges on bytes have solid lines, and epsilon edges dashed ones. The edges of a union have
/// numbers as labels, and 0 is preferred. The edge of an assertion has its name. A state that
/// matches has a double border and names its pattern. Edges from `anchored` and `unanchored` go
/// to the two start states.
#[derive(Clone, Copy)]
pub struct NfaGraph<'a, A: Allocator = Global> {
    nfa: &'a NFA<A>,
}

impl<'a, A: Allocator> NfaGraph<'a, A> {
    /// Returns the graph of an NFA.
    pub fn new(nfa: &'a NFA<A>) -> NfaGraph<'a, A> {
        NfaGraph { nfa }
    }
}

impl<'a, A: Allocator> fmt::Display for NfaGraph<'a, A> {
    fn fmt<W: fmt::Write>(&self, f: &mut fmt::Formatter<W>) -> fmt::Result {
        let nfa = self.nfa;
        let (anchored, unanchored) = (nfa.start_anchored(), nfa.start_unanchored());
        write_head(f, "nfa")?;
        write!(
            f,
            "  anchored [shape=plaintext];\n  anchored -> {anchored};\n"
        )?;
        write!(
            f,
            "  unanchored [shape=plaintext];\n  unanchored -> {unanchored};\n"
        )?;
        for index in 0..nfa.len() {
            let id = StateID::must(index);
            write_state(f, id, nfa.state(id))?;
        }
        write!(f, "}}\n")
    }
}

/// Writes the node of a state and the edges that leave it.
fn write_state<A: Allocator, W: fmt::Write>(
    f: &mut fmt::Formatter<W>,
    id: StateID,
    state: &State<A>,
) -> fmt::Result
    requires ascends { is_sparse_sound (node_of state.now) ≡ true }
    requires whole { is_dense_sound (node_of state.now) ≡ true }
{
    match state {
        State::ByteRange { trans } => write_transition(f, id, trans),
        State::Sparse(_) | State::Dense(_) => write_edges(f, &id, &targets(state), "", ""),
        State::Look { look, next } => {
            write!(f, "  {id} -> {next} [style=dashed, label=\"{look:?}\"];\n")
        }
        State::Union { alternates } => write_union(f, id, alternates.as_slice()),
        State::BinaryUnion { alt1, alt2 } => write_union(f, id, &[*alt1, *alt2]),
        State::Capture { next } => write!(f, "  {id} -> {next} [style=dashed];\n"),
        State::Fail => write!(f, "  {id} [label=\"{id}\\nfail\"];\n"),
        State::Match { pattern_id } => write!(
            f,
            "  {id} [shape=doublecircle, label=\"{id}\\nmatch {pattern_id}\"];\n"
        ),
    }
}

/// Writes the edge on a range of bytes, unless the range is empty.
fn write_transition<W: fmt::Write>(
    f: &mut fmt::Formatter<W>,
    id: StateID,
    trans: &Transition,
) -> fmt::Result {
    let Transition { start, end, next } = *trans;
    if start > end {
        return Ok(());
    }
    write!(f, "  {id} -> {next} [label=\"")?;
    write_range(f, start, end)?;
    write!(f, "\"];\n")
}

/// Writes the edges of a union, most preferred first.
fn write_union<W: fmt::Write>(
    f: &mut fmt::Formatter<W>,
    id: StateID,
    alternates: &[StateID],
) -> fmt::Result {
    for (index, next) in alternates.iter().enumerate() {
        write!(f, "  {id} -> {next} [style=dashed, label=\"{index}\"];\n")?;
    }
    Ok(())
}

/// Returns the target of a state over each byte.
fn targets<A: Allocator>(state: &State<A>) -> Targets
    requires ascends { is_sparse_sound (node_of state.now) ≡ true }
    requires whole { is_dense_sound (node_of state.now) ≡ true }
{
    let mut targets = [None; UNITS];
    for byte in 0..=u8::MAX {
        if let Some(next) = state.target(byte) {
            targets[usize::from(byte)] = Some(next.as_usize());
        }
    }
    targets
}
