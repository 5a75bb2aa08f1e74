//! The counts of a replay.

use std::fmt;

/// How many jobs, rows and texts there are, and how many of each are not as expected.
#[derive(Clone, Copy, Default)]
pub struct Counts {
    /// The number of jobs.
    pub jobs: u64,
    /// The number of texts of jobs, which were searched.
    pub texts: u64,
    /// The number of matches that were found in them.
    pub matches: u64,
    /// The number of jobs whose NFA or matches are not the expected ones.
    pub jobs_differ: u64,
    /// The number of rows.
    pub rows: u64,
    /// The number of rows whose text is in error.
    pub errors: u64,
    /// The number of rows that are not read as expected.
    pub rows_differ: u64,
    /// The number of random texts.
    pub random: u64,
    /// The number of long texts.
    pub long: u64,
    /// The number of texts made here that are not read as expected.
    pub made_differ: u64,
}

impl Counts {
    /// Returns whether all is as expected.
    pub fn agree(&self) -> bool {
        self.jobs_differ == 0 && self.rows_differ == 0 && self.made_differ == 0
    }
}

/// Increments a count if a condition holds, up to its maximum.
pub fn count_if(is_so: bool, count: &mut u64) {
    *count = count.saturating_add(u64::from(is_so));
}

impl fmt::Display for Counts {
    fn fmt<W: fmt::Write>(&self, f: &mut fmt::Formatter<W>) -> fmt::Result {
        let Counts {
            jobs,
            texts,
            matches,
            jobs_differ,
            rows,
            errors,
            rows_differ,
            random,
            long,
            made_differ,
        } = *self;
        write!(
            f,
            "{jobs} jobs, {texts} texts, {matches} matches, {jobs_differ} differ\n\
            {rows} texts, {errors} errors, {rows_differ} differ\n\
            {random} random texts, {long} long ones, {made_differ} differ"
        )
    }
}
