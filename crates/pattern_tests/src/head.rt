//! The first line of a job: what is said of its NFA, and its patterns.

use crate::error::ReplayError;
use crate::notation;
use determinize_pattern::Config;
use example_walks::values;

/// The first line of a job.
#[derive(Clone, Copy)]
pub struct Head<'a> {
    /// The number of states of the NFA without the prefix.
    pub states: Option<usize>,
    /// The greatest number of states of the NFA without the prefix.
    pub most: Option<usize>,
    /// The greatest number of states.
    pub limit: Option<usize>,
    /// The greatest depth of the patterns.
    pub nest: Option<u32>,
    /// The error that `compile` returns: `size` or `nest`.
    pub error: Option<&'a str>,
    /// The line terminator.
    pub terminator: u8,
    /// The patterns.
    pub words: &'a str,
}

impl<'a> Head<'a> {
    /// Parses a line without its mark `>`.
    pub fn read(line: &'a str) -> Result<Head<'a>, ReplayError> {
        let Some((keys, words)) = line.split_once("| ") else {
            return Err(ReplayError::Malformed("keys and patterns"));
        };
        let mut head = Head {
            states: None,
            most: None,
            limit: None,
            nest: None,
            error: None,
            terminator: b'\n',
            words,
        };
        for word in keys.split(' ') {
            if !word.is_empty() {
                head.set(word)?;
            }
        }
        Ok(head)
    }

    /// Sets the value of a word `key=value`.
    fn set(&mut self, word: &'a str) -> Result<(), ReplayError> {
        let Some((key, value)) = word.split_once('=') else {
            return Err(ReplayError::Malformed("a key with a value"));
        };
        match key {
            "states" => self.states = Some(values::number(value)?),
            "most" => self.most = Some(values::number(value)?),
            "limit" => self.limit = Some(values::number(value)?),
            "nest" => self.nest = Some(notation::count(value)?),
            "error" => self.error = Some(value),
            "term" => self.terminator = values::byte(value)?,
            _ => return Err(ReplayError::Malformed("a key with a value")),
        }
        Ok(())
    }

    /// Returns how the patterns are compiled.
    pub fn config(&self) -> Config {
        let mut config = Config::new();
        config.look_matcher.set_line_terminator(self.terminator);
        if let Some(limit) = self.limit {
            config.state_limit = limit;
        }
        if let Some(nest) = self.nest {
            config.nest_limit = nest;
        }
        config
    }
}
