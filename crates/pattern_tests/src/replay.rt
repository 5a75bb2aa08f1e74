//! Takes the lines of the input one by one. Judges each row of a pattern string, and each job when
//! its last line is known.

use crate::counts::{Counts, count_if};
use crate::error::ReplayError;
use crate::judge::judge;
use crate::strings;
use std::alloc::Global;
use std::io::Write;

/// A replay in progress, with the lines of a job that are read so far.
#[derive(Drop)]
pub struct Replay {
    alloc: Global,
    /// How many lines were read.
    pub line: u64,
    /// The counts of what was judged.
    pub counts: Counts,
    // The number of the first line of the job.
    first: u64,
    // The first line of the job without its mark, or nothing before the first job.
    head: String,
    printed: Vec<String>,
    texts: Vec<String>,
    // What is not as expected of the job, a line for each difference.
    report: String,
}

impl Replay {
    /// Returns a replay that has read no line.
    pub fn new(alloc: Global) -> Replay {
        Replay {
            alloc,
            line: 0,
            counts: Counts::default(),
            first: 0,
            head: String::new(alloc),
            printed: Vec::new(alloc),
            texts: Vec::new(alloc),
            report: String::new(alloc),
        }
    }

    /// Takes one more line: the first one of a job, the expected text of a pattern of the job, a
    /// text that is searched, a row of a pattern string (any line with a tab), or a comment.
    ///
    /// The first line of a job ends the job before, which is judged then: what differs is written
    /// to `out`.
    pub fn take_line<W: Write>(&mut self, text: &str, out: &mut W) -> Result<(), ReplayError> {
        self.line = self.line.saturating_add(1);
        if text.starts_with('#') {
            return Ok(());
        }
        if text.contains('\t') {
            return strings::judge(self.alloc, text, &mut self.counts, out);
        }
        if let Some(head) = text.strip_prefix("> ") {
            self.judge(out)?;
            self.first = self.line;
            self.head.push_str(head)?;
            return Ok(());
        }
        if self.head.is_empty() {
            return Err(ReplayError::NoJob);
        }
        match text.strip_prefix("= ") {
            Some(printed) => self.printed.push(String::from_str(self.alloc, printed)?)?,
            None => self.texts.push(String::from_str(self.alloc, text)?)?,
        }
        Ok(())
    }

    /// Judges the current job, if there is one, and clears it.
    pub fn judge<W: Write>(&mut self, out: &mut W) -> Result<(), ReplayError> {
        if self.head.is_empty() {
            return Ok(());
        }
        let (head, report) = (self.head.as_str(), &mut self.report);
        judge(
            self.alloc,
            head,
            &self.printed,
            &self.texts,
            &mut self.counts,
            report,
        )?;
        count_if(true, &mut self.counts.jobs);
        count_if(!self.report.is_empty(), &mut self.counts.jobs_differ);
        if !self.report.is_empty() {
            write!(out, "job at line {}:\n{}", self.first, self.report)?;
        }
        self.head.clear();
        self.printed.clear();
        self.texts.clear();
        self.report.clear();
        Ok(())
    }
}
