//! `draw GRAPH.. PATTERN..` prints graphs of patterns, as text for the program `dot` of Graphviz:
//! for `nfa` their NFA, for `dfa` their DFA with the fewest states, and for `search` the part of it
//! that unanchored searches enter.
#![tactic(auto)]

use determinize_below::{Anchored, MatchKind, NFA};
use determinize_dense::{Dfa, DfaError};
use determinize_draw::{DfaGraph, NfaGraph, SearchGraph};
use determinize_pattern::{CompileError, Config, Pattern, compile};
use determinize_syntax::{ParseError, parse};
use std::alloc::{AllocError, AllocFailed, Global};
use std::env::{self, Args};
use std::fmt;
use std::io::{self, Print, Write};
use std::process::ExitCode;

/// The greatest number of states of the DFA before it is minimized.
const LIMIT: usize = 1000;

/// The exit status after an error.
const FAILED: u8 = 2;

/// A graph of the patterns.
#[derive(Clone, Copy)]
enum Graph {
    Nfa,
    Dfa,
    Search,
}

impl Graph {
    /// Returns the graph with this name, if there is one.
    fn from_name(name: &str) -> Option<Graph> {
        match name {
            "nfa" => Some(Graph::Nfa),
            "dfa" => Some(Graph::Dfa),
            "search" => Some(Graph::Search),
            _ => None,
        }
    }
}

/// The graphs to print, and the texts of the patterns.
#[derive(Drop)]
struct Request {
    graphs: Vec<Graph>,
    texts: Vec<String>,
}

/// An error that ends the program.
#[derive(Drop)]
enum Error {
    /// There is no graph, or no pattern.
    NothingToDraw,
    /// A pattern was not understood.
    Parse { text: String, error: ParseError },
    /// The NFA of the patterns was not built.
    Compile(CompileError),
    /// Their DFA was not built.
    Dfa(DfaError),
    /// An allocation failed, or the arguments or the output.
    Io(io::Error),
}

impl fmt::Display for Error {
    fn fmt<W: fmt::Write>(&self, f: &mut fmt::Formatter<W>) -> fmt::Result {
        match self {
            Error::NothingToDraw => f.write_str("usage: draw (nfa | dfa | search).. PATTERN.."),
            Error::Parse { text, error } => {
                let marked = error.display(text.as_str());
                write!(f, "\n{marked}")
            }
            Error::Compile(error) => fmt::Display::fmt(error, f),
            Error::Dfa(error) => fmt::Display::fmt(error, f),
            Error::Io(error) => fmt::Display::fmt(error, f),
        }
    }
}

impl From<CompileError> for Error {
    fn from(error: CompileError) -> Error {
        Error::Compile(error)
    }
}

impl From<DfaError> for Error {
    fn from(error: DfaError) -> Error {
        Error::Dfa(error)
    }
}

impl From<AllocError> for Error {
    fn from(error: AllocError) -> Error {
        Error::Io(io::Error::from(error))
    }
}

impl<T: Drop> From<AllocFailed<T>> for Error {
    fn from(error: AllocFailed<T>) -> Error {
        Error::Io(io::Error::from(error))
    }
}

impl From<io::Error> for Error {
    fn from(error: io::Error) -> Error {
        Error::Io(error)
    }
}

/// Returns the graphs and patterns that the arguments name, the graphs first.
fn read_request(alloc: Global, args: Args) -> Result<Request, Error> {
    let mut graphs = Vec::new(alloc);
    let mut texts = Vec::new(alloc);
    for arg in args {
        match Graph::from_name(arg.as_str()) {
            Some(graph) if texts.is_empty() => graphs.push(graph)?,
            _ => texts.push(arg)?,
        }
    }
    if graphs.is_empty() || texts.is_empty() {
        return Err(Error::NothingToDraw);
    }
    Ok(Request { graphs, texts })
}

/// Returns the patterns of the texts.
fn parse_all(alloc: Global, texts: Vec<String>) -> Result<Vec<Pattern>, Error> {
    let mut patterns = Vec::new(alloc);
    for text in texts {
        match parse(alloc, text.as_str()) {
            Ok(pattern) => patterns.push(pattern)?,
            Err(error) => return Err(Error::Parse { text, error }),
        }
    }
    Ok(patterns)
}

/// Prints the graph of an NFA.
fn print_nfa(rt: &impl Print, nfa: &NFA) -> io::Result<()> {
    let graph = NfaGraph::new(nfa);
    print!(rt; "{graph}")
}

/// Prints the graph of a DFA.
fn print_dfa(rt: &impl Print, dfa: &Dfa<&NFA>) -> io::Result<()> {
    let graph = DfaGraph::new(dfa);
    print!(rt; "{graph}")
}

/// Prints the graph of the part of a DFA that unanchored searches enter.
fn print_search(rt: &impl Print, alloc: Global, dfa: &Dfa<&NFA>) -> io::Result<()> {
    let graph = SearchGraph::new(alloc, dfa, Anchored::No)?;
    print!(rt; "{graph}")
}

/// Returns the arguments, without the name of the program.
fn args(rt: &HostRuntime) -> io::Result<Args> {
    let mut args = env::args(rt)?;
    let _program = args.next();
    Ok(args)
}

/// Returns the DFA of an NFA with the fewest states.
fn smallest(alloc: Global, nfa: &NFA) -> Result<Dfa<&NFA>, Error> {
    let dfa = Dfa::build(alloc, nfa, MatchKind::LeftmostFirst, LIMIT)?;
    Ok(dfa.minimize(alloc)?)
}

/// Prints a graph of an NFA. The DFA is built only for a graph of it.
fn print_graph(rt: &HostRuntime, graph: Graph, nfa: &NFA) -> Result<(), Error> {
    match graph {
        Graph::Nfa => print_nfa(rt, nfa)?,
        Graph::Dfa => print_dfa(rt, &smallest(rt.alloc(), nfa)?)?,
        Graph::Search => print_search(rt, rt.alloc(), &smallest(rt.alloc(), nfa)?)?,
    }
    Ok(())
}

/// Prints the graphs that the arguments name.
fn run(rt: &HostRuntime) -> Result<(), Error> {
    let Request { graphs, texts } = read_request(rt.alloc(), args(rt)?)?;
    let patterns = parse_all(rt.alloc(), texts)?;
    let nfa = compile(rt.alloc(), patterns.as_slice(), Config::new())?;
    for graph in &graphs {
        print_graph(rt, *graph, &nfa)?;
    }
    Ok(())
}

fn main(rt: HostRuntime) -> ExitCode {
    match run(&rt) {
        Ok(()) => ExitCode::SUCCESS,
        Err(error) => {
            let _ = writeln!(rt.stderr(), "draw: {error}");
            ExitCode::from(FAILED)
        }
    }
}
