//! The graph of a whole DFA.

use crate::targets::{NO_BYTE, Targets, UNITS, write_edges, write_head};
use determinize_dense::{Automaton, RowId, RowPatterns};
use std::fmt;

/// The graph of a whole DFA, which `Display` writes.
///
/// Rows that list patterns have a double border and name them. Matches are delayed by one unit, so
/// the patterns match before the byte of the edge to the row, or before the end of input, which is
/// `EOI`. The edges from `anchored` and `unanchored` go to the rows where searches start; if that
/// depends on the byte behind the start, their labels have the bytes. The dead row and the edges to
/// it are left out.
#[derive(Clone, Copy)]
pub struct DfaGraph<'d, D: Automaton> {
    dfa: &'d D,
}

impl<'d, D: Automaton> DfaGraph<'d, D> {
    /// Returns the graph of a DFA.
    pub fn new(dfa: &'d D) -> DfaGraph<'d, D> {
        DfaGraph { dfa }
    }
}

impl<'d, D: Automaton> fmt::Display for DfaGraph<'d, D> {
    fn fmt<W: fmt::Write>(&self, f: &mut fmt::Formatter<W>) -> fmt::Result {
        write_head(f, "dfa")?;
        write_starts(f, self.dfa, true)?;
        write_starts(f, self.dfa, false)?;
        for row in self.dfa.rows() {
            write_row(f, self.dfa, row)?;
        }
        write!(f, "}}\n")
    }
}

/// Returns the number of a row, or `None` for the dead row.
fn number<D: Automaton>(dfa: &D, row: RowId) -> Option<usize> {
    if dfa.is_dead_state(row) {
        None
    } else {
        Some(row.as_usize())
    }
}

/// Returns the rows after a row.
fn targets<D: Automaton>(dfa: &D, row: RowId) -> Targets {
    let mut targets = [None; UNITS];
    for byte in 0..=u8::MAX {
        targets[usize::from(byte)] = number(dfa, dfa.next_state(row, byte));
    }
    targets[NO_BYTE] = number(dfa, dfa.next_eoi_state(row));
    targets
}

/// Returns the rows where searches start, behind each byte and behind nothing.
fn starts<D: Automaton>(dfa: &D, is_anchored: bool) -> Targets {
    let mut targets = [None; UNITS];
    for byte in 0..=u8::MAX {
        targets[usize::from(byte)] = number(dfa, dfa.first_row(is_anchored, Some(byte)));
    }
    targets[NO_BYTE] = number(dfa, dfa.first_row(is_anchored, None));
    targets
}

/// Writes the edges to the rows where searches start, from the name of the anchored mode.
pub(crate) fn write_starts<D: Automaton, W: fmt::Write>(
    f: &mut fmt::Formatter<W>,
    dfa: &D,
    is_anchored: bool,
) -> fmt::Result {
    let name = if is_anchored {
        "anchored"
    } else {
        "unanchored"
    };
    write!(f, "  {name} [shape=plaintext];\n")?;
    let targets = starts(dfa, is_anchored);
    let first = targets[NO_BYTE];
    if targets != [first; UNITS] {
        return write_edges(f, &name, &targets, "after ", "nothing");
    }
    match first {
        Some(row) => write!(f, "  {name} -> {row};\n"),
        None => Ok(()),
    }
}

/// Writes a row and the edges that leave it, unless it is the dead row.
pub(crate) fn write_row<D: Automaton, W: fmt::Write>(
    f: &mut fmt::Formatter<W>,
    dfa: &D,
    row: RowId,
) -> fmt::Result {
    if dfa.is_dead_state(row) {
        return Ok(());
    }
    write_node(f, row, RowPatterns::new(dfa, row))?;
    write_edges(f, &row, &targets(dfa, row), "", "EOI")
}

/// Writes the node of a row, with the patterns that it lists.
fn write_node<D: Automaton, W: fmt::Write>(
    f: &mut fmt::Formatter<W>,
    row: RowId,
    mut patterns: RowPatterns<'_, D>,
) -> fmt::Result {
    let Some(first) = patterns.next() else {
        return write!(f, "  {row};\n");
    };
    write!(
        f,
        "  {row} [shape=doublecircle, label=\"{row}\\nmatch {first}"
    )?;
    for pattern in patterns {
        write!(f, ", {pattern}")?;
    }
    write!(f, "\"];\n")
}
