//! A DFA of patterns that is built, minimized, drawn, kept as bytes, read back, and stepped by
//! hand.

use crate::dfa::smallest;
use determinize_below::{Anchored, MatchKind, NFA, PatternID};
use determinize_core::start::Config as Start;
use determinize_dense::{Automaton, Dfa, DfaError};
use determinize_draw::DfaGraph;
use determinize_pattern::{CompileError, Config, Pattern, compile};
use determinize_stored::{FormatError, StoredDfa};
use std::alloc::{AllocError, Global};
use std::io::{self, Print};

/// An error of `store`.
#[derive(Debug, Drop)]
pub enum Error {
    /// The NFA of the patterns was not built.
    Compile(CompileError),
    /// The DFA was not built.
    Dfa(DfaError),
    /// An allocation failed.
    Alloc(AllocError),
    /// The output failed.
    Io(io::Error),
}

/// Prints the graph of a DFA, as text for Graphviz.
fn print_graph(dfa: &Dfa<&NFA>, output: &impl Print) -> io::Result<()> {
    let graph = DfaGraph::new(dfa);
    print!(output; "{graph}")
}

/// Prints the smallest DFA of patterns, and returns its bytes.
pub fn store(alloc: Global, patterns: &[Pattern], output: &impl Print) -> Result<Vec<u8>, Error> {
    let nfa = compile(alloc, patterns, Config::new()).map_err(Error::Compile)?;
    let dfa = smallest(alloc, &nfa, MatchKind::All, 1000).map_err(Error::Dfa)?;
    print_graph(&dfa, output).map_err(Error::Io)?;
    dfa.to_bytes(alloc).map_err(Error::Alloc)
}

/// Returns the preferred pattern that matches a whole text, by the bytes of a DFA.
pub fn pattern_of(bytes: &[u8], text: &[u8]) -> Result<Option<PatternID>, FormatError> {
    let dfa = StoredDfa::from_bytes(bytes)?;
    let mut row = dfa.start_state(&Start::new().anchored(Anchored::Yes));
    for byte in text {
        row = dfa.next_state(row, *byte);
    }
    Ok(dfa.match_pattern(dfa.next_eoi_state(row), 0))
}
