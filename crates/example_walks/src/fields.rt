//! The fields of a job, and what those of a walk mean.

use crate::error::{Part, TextError};
use crate::states;
use crate::values::{self, Item};
use determinize_below::{BuildError, LookMatcher, MatchKind, NFA, StateID};
use std::alloc::Allocator;

/// The fields of a job: words `key=value`, and the states of an NFA.
#[derive(Clone, Copy)]
pub struct Fields<'t> {
    /// The words, joined by spaces, if there are any.
    pub words: Option<&'t str>,
    /// The states of the NFA, joined by spaces, if there are any.
    pub states: Option<&'t str>,
}

impl<'t> Fields<'t> {
    /// Returns the first word of a job, which is its verb, and its fields.
    pub fn split(job: &'t str) -> (&'t str, Fields<'t>) {
        let (line, states) = halves(job, " | ");
        let (verb, words) = halves(line, " ");
        (verb, Fields { words, states })
    }

    /// Returns the value of a key, or `None` if there is none.
    pub fn value(&self, key: &str) -> Option<&'t str> {
        for word in self.words.unwrap_or("").split(' ') {
            if let Some((name, value)) = word.split_once('=') {
                if name == key {
                    return Some(value);
                }
            }
        }
        None
    }

    /// Returns the value of a key, or `-` if there is none.
    pub fn value_or_none(&self, key: &str) -> &'t str {
        self.value(key).unwrap_or("-")
    }

    /// Returns the match kind, by default `All`.
    pub fn match_kind(&self) -> Result<MatchKind, TextError> {
        match self.value("kind").unwrap_or("all") {
            "all" => Ok(MatchKind::All),
            "leftmost-first" => Ok(MatchKind::LeftmostFirst),
            _ => Err(TextError::Malformed(Part::MatchKind)),
        }
    }

    /// Returns whether the direction is reverse; by default it is forward.
    pub fn is_reverse(&self) -> Result<bool, TextError> {
        match self.value("dir").unwrap_or("fwd") {
            "fwd" => Ok(false),
            "rev" => Ok(true),
            _ => Err(TextError::Malformed(Part::Direction)),
        }
    }

    /// Returns the matcher with the line terminator.
    pub fn matcher(&self) -> Result<LookMatcher, TextError> {
        let mut matcher = LookMatcher::new();
        if let Some(text) = self.value("term") {
            matcher.set_line_terminator(values::byte(text)?);
        }
        Ok(matcher)
    }

    /// Returns the id of the state that a walk starts from, by default 0.
    pub fn start(&self) -> Result<StateID, TextError> {
        StateID::read(self.value("start").unwrap_or("0"))
    }

    /// Returns the byte behind the text of a walk.
    pub fn look_behind(&self) -> Result<Option<u8>, TextError> {
        values::optional_byte(self.value_or_none("lb"))
    }

    /// Returns the text of a walk.
    pub fn text<A: Allocator>(&self, alloc: A) -> Result<Vec<u8, A>, TextError> {
        values::bytes(alloc, self.value_or_none("text"))
    }

    /// Returns the byte after the text of a walk.
    pub fn look_ahead(&self) -> Result<Option<u8>, TextError> {
        values::optional_byte(self.value_or_none("after"))
    }

    /// Returns the NFA, whose start states are where a walk starts.
    pub fn nfa<A: Allocator + Copy>(&self, alloc: A) -> Result<NFA<A>, TextError> {
        self.nfa_from(alloc, self.start()?)
    }

    /// Returns the NFA with this state as both start states. A state behind the first that the NFA
    /// does not have is malformed.
    pub fn nfa_from<A: Allocator + Copy>(
        &self,
        alloc: A,
        start: StateID,
    ) -> Result<NFA<A>, TextError> {
        let (is_reverse, matcher) = (self.is_reverse()?, self.matcher()?);
        let states = states::states(alloc, self.states.unwrap_or(""))?;
        match NFA::from_parts(alloc, states, start, start, is_reverse, matcher) {
            Ok(nfa) => Ok(nfa),
            Err(BuildError::UnresolvedStart) if start.as_usize() > 0 => {
                Err(TextError::Malformed(Part::Unresolved))
            }
            Err(error) => Err(TextError::from(error)),
        }
    }
}

/// Returns the text before the first mark and, if there is a mark, the text after it.
fn halves<'t>(text: &'t str, mark: &str) -> (&'t str, Option<&'t str>) {
    match text.split_once(mark) {
        Some((first, rest)) => (first, Some(rest)),
        None => (text, None),
    }
}
