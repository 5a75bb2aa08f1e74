//! Tests of failing allocations, and of calls that do not allocate. Every public call that
//! allocates, and the program `rows`, runs with each of its allocations failing in turn.
//!
//! A trial is generic in its allocator, and makes its calls one after another. So each of their
//! allocations fails in turn, and the proof of a trial does not depend on the failing allocator,
//! which would take most of its time.

mod caches;
mod jobs;
mod patterns;
mod steps;
mod without;

use crate::tests::{same, same_at};
use determinize_below::{HalfMatch, MatchKind, NFA};
use determinize_core::state::State;
use determinize_pattern::Pattern;
use determinize_replay::automata::write_states;
use determinize_replay::job::Job;
use example_walks::examples::{Example, names};
use example_walks::values::{Hex, LastMatch};
use example_walks::walk::Place;
use failing_alloc::{FailingAllocator, Outcome, fail_each_allocation};
use std::alloc::{AllocError, Allocator, Global};
use std::process::Abort;

/// The allocator of a run.
pub type Heap = FailingAllocator<Global>;

/// What runs with an allocator that may fail, and compares what it finds.
#[derive(Clone, Copy)]
pub enum Trial<'r> {
    /// Runs a job, which has this output.
    Job(&'r Job<'r>, &'r str),
    /// Prints the example walk that the words name, in these lines.
    Print(&'r [String], &'r str),
    /// Compiles patterns to an NFA of this number of states.
    Compile(&'r [Pattern], usize),
    /// Makes the first step of a walk.
    Step(&'r Row),
    /// Records a state of this NFA.
    Record(&'r NFA),
    /// Makes a walk or a search through a cache of at most this many states.
    Cached(&'r Row, caches::Call, usize),
}

impl Trial<'_> {
    /// Makes the trial, and returns whether no allocation failed.
    fn run<R: Abort + AllocGlobal, A: Allocator + Copy>(&self, rt: &R, alloc: A) -> bool {
        match *self {
            Trial::Job(job, output) => jobs::is_output(rt, alloc, job, output),
            Trial::Print(words, lines) => jobs::print(rt, alloc, words, lines),
            Trial::Compile(patterns, states) => patterns::compile_all(rt, alloc, patterns, states),
            Trial::Step(row) => steps::step(rt, alloc, row).is_ok(),
            Trial::Record(nfa) => steps::record(rt, alloc, nfa).is_ok(),
            Trial::Cached(row, call, limit) => caches::make(rt, alloc, row, call, limit),
        }
    }
}

/// Repeats a trial with its first allocation failing, then its second, and so on, until there is no
/// failure. Each time it must find the known result or report the failed allocation, and all memory
/// must have been freed.
pub fn fail_each_in_turn<R: Abort + AllocGlobal>(rt: &R, trial: Trial<'_>) {
    let outcome = fail_each_allocation(rt.alloc(), |heap| {
        heap.begin();
        let is_answered = trial.run(rt, heap);
        heap.end();
        Ok::<bool, AllocError>(is_answered)
    });
    same(rt, outcome, Ok(Outcome::Sound));
}

/// An example walk. Its NFA starts where the walk does.
pub struct Row {
    nfa: NFA,
    kind: MatchKind,
    place: Place,
    /// The states and the last match, in lines.
    output: &'static str,
}

// Derived code is proved at each exit of each function that owns a row.
impl Drop for Row {
    fn drop(self) {
        let Row {
            nfa: _,
            kind: _,
            place: _,
            output: _,
        } = self;
    }
}

impl Row {
    /// Returns the example walk of this name.
    fn of<R: Abort + AllocGlobal>(rt: &R, name: &'static str) -> Row {
        let example = Example::of(name);
        let fields = example.fields();
        Row {
            nfa: fields.nfa(rt.alloc()).expect(rt, "an NFA"),
            kind: fields.match_kind().expect(rt, "a match kind"),
            place: Place::of(rt.alloc(), &fields).expect(rt, "a place"),
            output: example.output,
        }
    }

    /// Returns the byte after the state at this index, or `None` for EOI.
    fn unit(&self, index: usize) -> Option<u8> {
        self.place.text.get(index).copied().or(self.place.ahead)
    }

    /// Compares the bytes of the state at an index.
    fn expect<R: Abort + AllocGlobal>(&self, rt: &R, index: usize, bytes: &[u8]) {
        let line = self.output.lines().nth(index);
        let text = format!(in rt.alloc(); "{}", Hex(bytes)).expect(rt, "memory");
        same_at(rt, self.output, Some(text.as_str()), line);
    }

    /// Returns whether a call succeeded. Asserts that it then returned the last match.
    fn is_last<R: Abort + AllocGlobal>(
        &self,
        rt: &R,
        found: Result<Option<HalfMatch>, AllocError>,
    ) -> bool {
        let Ok(found) = found else {
            return false;
        };
        let text = format!(in rt.alloc(); "{}", LastMatch(found)).expect(rt, "memory");
        same_at(
            rt,
            self.output,
            Some(text.as_str()),
            self.output.lines().last(),
        );
        true
    }

    /// Returns whether a call succeeded. Asserts that it then returned the states of the walk.
    fn is_walk<R: Abort + AllocGlobal, A: Allocator>(
        &self,
        rt: &R,
        states: Result<Vec<State<A>, A>, AllocError>,
    ) -> bool {
        let Ok(states) = states else {
            return false;
        };
        let mut text = String::new(rt.alloc());
        write_states(&mut text, states.as_slice()).expect(rt, "memory");
        same(rt, text.as_str(), self.output);
        true
    }
}

/// Returns all example walks.
pub fn rows<R: Abort + AllocGlobal>(rt: &R) -> Vec<Row> {
    let mut rows = Vec::new(rt.alloc());
    for name in names() {
        rows.push(Row::of(rt, name)).expect(rt, "memory");
    }
    rows
}
