//! Replays jobs line by line, and counts those that differ.
//!
//! A job begins with a line `> JOB`, and the lines after it are its expected output. The end of
//! that output is known only at the next job or after the last line; the job is run and judged
//! then.

ghost use Rattle.std.specs.Prelude.{◌≡◌, ◌≤◌, ◌↔◌};

use crate::job::Job;
use crate::{automata, verbs};
use determinize_below::NFA;
use determinize_lazy::LazyDfa;
use example_walks::error::{ReadError, ReplayError, TextError};
use example_walks::fields::Fields;
use example_walks::walk::Place;
use std::alloc::{AllocError, Global};
use std::io::Write;
use std::{fmt, io};

/// The counts of a replay.
#[derive(Clone, Copy)]
pub struct Tally {
    /// The number of jobs.
    pub jobs: u64,
    /// The number of jobs whose output differs.
    pub differ: u64,
}

impl Tally {
    /// Returns the exit status of the counts: 0 if no job differs, otherwise 1.
    pub fn status(self) -> u8
        ensures agree { (result ≡ 0) ↔ (self.differ ≡ 0) }
        ensures most { result ≤ 1 }
    {
        if self.differ == 0 { 0 } else { 1 }
    }
}

/// Writes the counts in a line. No job is ever skipped, and the line says so.
impl fmt::Display for Tally {
    fn fmt<W: fmt::Write>(&self, f: &mut fmt::Formatter<W>) -> fmt::Result {
        let Tally { jobs, differ } = *self;
        write!(f, "{jobs} jobs, {differ} differ, 0 skipped")
    }
}

/// How walks are made.
#[derive(Clone, Copy)]
pub enum Mode {
    /// Each by itself.
    Alone,
    /// Through caches of at most this many states, one for each NFA and match kind.
    Cached(usize),
    /// By searches through such caches, which give only the last line of the output.
    Searched(usize),
}

/// A cache, and the fields of the first walk through it.
#[derive(Drop)]
struct Cache<'t> {
    fields: Fields<'t>,
    lazy: LazyDfa<NFA>,
}

impl Cache<'_> {
    /// Returns whether a walk with these fields has the NFA and the match kind of this cache.
    fn serves(&self, fields: &Fields<'_>) -> bool {
        for key in ["kind", "dir", "term", "start"] {
            if self.fields.value_or_none(key) != fields.value_or_none(key) {
                return false;
            }
        }
        self.fields.states.unwrap_or("") == fields.states.unwrap_or("")
    }

    /// Writes the output of a walk through the cache, or only its last line, by a search.
    fn write_walk(
        &mut self,
        place: &Place,
        is_search: bool,
        text: &mut String,
    ) -> Result<(), AllocError> {
        let (start, behind) = (self.lazy.nfa().start_anchored(), place.behind);
        let bytes = place.text.as_slice();
        if is_search {
            let found = self.lazy.search(start, behind, bytes, place.ahead)?;
            return automata::write_match(text, found);
        }
        let states = self.lazy.walk_between(start, behind, bytes, place.ahead)?;
        automata::write_states(text, states.as_slice())
    }
}

/// A replay in progress: its caches, the current job with the number of its line, the lines of its
/// expected output so far, and a place for its output.
#[derive(Drop)]
pub struct Replay<'t> {
    alloc: Global,
    mode: Mode,
    caches: Vec<Cache<'t>>,
    line: u64,
    job: Option<(u64, &'t str)>,
    expected: String,
    output: String,
    /// The counts so far.
    pub tally: Tally,
}

impl<'t> Replay<'t> {
    /// Returns a replay that has read no line.
    pub fn new(alloc: Global, mode: Mode) -> Replay<'t> {
        Replay {
            alloc,
            mode,
            caches: Vec::new(alloc),
            line: 1,
            job: None,
            expected: String::new(alloc),
            output: String::new(alloc),
            tally: Tally { jobs: 0, differ: 0 },
        }
    }

    /// Returns the error for the next line, which cannot be read for this reason, or is not UTF-8.
    pub fn unreadable(&self, end: &io::Result<usize>) -> ReplayError<'t> {
        let unread = ReplayError::of_line(self.line, ReadError::Line("can't be read"));
        match end {
            Ok(_) => unread,
            Err(error) => unread.because(error),
        }
    }

    /// Takes one more line: a job, a line of expected output, or a comment.
    ///
    /// A job ends the expected output of the previous job, which is run and judged then: if its
    /// output differs, the job and both outputs are written to `out`. Returns an error for a line
    /// of output before the first job, or if the previous job cannot be run. After an error the
    /// results of further calls are unspecified.
    pub fn take_line<W: Write>(
        &mut self,
        text: &'t str,
        out: &mut W,
    ) -> Result<(), ReplayError<'t>> {
        let line = self.line;
        self.line = line.saturating_add(1);
        if text.starts_with('#') {
            return Ok(());
        }
        if let Some(job) = text.strip_prefix("> ") {
            self.judge(out)?;
            self.job = Some((line, job));
            return Ok(());
        }
        if self.job.is_none() {
            let reason = ReadError::Line("an answer without a job");
            return Err(ReplayError::of_line(line, reason));
        }
        self.expected.push_str(text)?;
        self.expected.push('\n')?;
        Ok(())
    }

    /// Runs the current job, if there is one, compares its output with the expected one, and clears
    /// it.
    pub fn judge<W: Write>(&mut self, out: &mut W) -> Result<(), ReplayError<'t>> {
        if let Some((line, job)) = self.job.take() {
            self.tally.jobs = self.tally.jobs.saturating_add(1);
            match self.agrees(job) {
                Ok(true) => {}
                Ok(false) => self.write_difference(job, out)?,
                Err(error) => return Err(ReplayError::of_line(line, error)),
            }
        }
        self.expected.clear();
        self.output.clear();
        Ok(())
    }

    /// Counts and prints a job whose output differs.
    fn write_difference<W: Write>(&mut self, job: &str, out: &mut W) -> io::Result<()> {
        self.tally.differ = self.tally.differ.saturating_add(1);
        let (expected, output) = (self.expected.as_str(), self.output.as_str());
        write!(out, "> {job}\nexpected:\n{expected}got:\n{output}")
    }

    /// Runs a job. Returns whether its output is the expected one or, for a search, its last line.
    fn agrees(&mut self, text: &'t str) -> Result<bool, ReadError<'t>> {
        let job = Job::read(text)?;
        let (limit, is_search) = match self.mode {
            Mode::Cached(limit) if job.verb() == "walk" => (limit, false),
            Mode::Searched(limit) if job.verb() == "walk" => (limit, true),
            _ => {
                verbs::write_output(self.alloc, &job, &mut self.output)?;
                return Ok(self.output.as_str() == self.expected.as_str());
            }
        };
        self.write_walk(job.fields(), limit, is_search)?;
        let (output, expected) = (self.output.as_str(), self.expected.as_str());
        if is_search {
            return Ok(output.lines().last() == expected.lines().last());
        }
        Ok(output == expected)
    }

    /// Writes the output of a walk through its cache of at most `limit` states, or only its last
    /// line, by a search.
    fn write_walk(
        &mut self,
        fields: &Fields<'t>,
        limit: usize,
        is_search: bool,
    ) -> Result<(), TextError> {
        let place = Place::of(self.alloc, fields)?;
        for cache in &mut self.caches {
            if cache.serves(fields) {
                cache.write_walk(&place, is_search, &mut self.output)?;
                return Ok(());
            }
        }
        let mut cache = self.new_cache(fields, limit)?;
        cache.write_walk(&place, is_search, &mut self.output)?;
        self.caches.push(cache)?;
        Ok(())
    }

    /// Returns an empty cache for a walk.
    fn new_cache(&self, fields: &Fields<'t>, limit: usize) -> Result<Cache<'t>, TextError> {
        let kind = fields.match_kind()?;
        let nfa = fields.nfa(self.alloc)?;
        Ok(Cache {
            fields: *fields,
            lazy: LazyDfa::new(self.alloc, nfa, kind, limit),
        })
    }
}
