//! A job: a verb, and its fields.

use crate::values;
use example_walks::error::{ReadError, TextError};
use example_walks::fields::Fields;
use example_walks::values::number;

/// The keys that each verb takes, in a line that begins with its name. The names of the verbs over
/// an NFA have a mark `|`. A job must have the keys with a mark `!`. Only [`keys`] names this text:
/// a proof reads all of it at each mention.
const KEYS: &str = "\
walk| id fix dir term kind start lb text after
readers| id fix dir term kind start lb text after at!
closure| id fix dir term from! look held
lookbehind| id fix dir term kind!
next| id fix dir term kind fw! half! have need pids ids unit! set1 set2
addstates| id fix dir term fw! half! have need pids ids set
start id fix dir term hay range!
bytemap id fix term byte
fromusize id fix n!
dead id fix
build id fix fw! half! have need pids ids
size id fix states! matches!";

/// Returns whether the verb of this name is over an NFA and the keys that it takes, or `None` if
/// there is no such verb.
fn keys(name: &str) -> Option<(bool, &'static str)> {
    for line in KEYS.lines() {
        if let Some((verb, keys)) = line.split_once(' ') {
            let stem = verb.strip_suffix('|');
            if stem.unwrap_or(verb) == name {
                return Some((stem.is_some(), keys));
            }
        }
    }
    None
}

/// A parsed job.
#[derive(Clone, Copy)]
pub struct Job<'a> {
    verb: &'a str,
    fields: Fields<'a>,
}

impl<'a> Job<'a> {
    /// Parses a job from a line without its mark `> `.
    ///
    /// Returns an error for an unknown verb, a word that is not `key=value`, a key that the verb
    /// does not take or that is repeated, a missing key that the verb needs, an `id` that is not a
    /// number, a `fix` that is not a flag, states if the verb takes none, or no states if it takes
    /// some.
    pub fn read(line: &'a str) -> Result<Job<'a>, ReadError<'a>> {
        let (verb, fields) = Fields::split(line);
        let Some((has_nfa, keys)) = keys(verb) else {
            return Err(ReadError::Word("unknown verb", verb));
        };
        check_words(fields.words, keys)?;
        check_needed(&fields, keys)?;
        check_marks(&fields)?;
        match (has_nfa, fields.states) {
            (true, None) => Err(ReadError::Line("the states of the NFA are missing")),
            (false, Some(_)) => Err(ReadError::Line("the verb takes no states")),
            _ => Ok(Job { verb, fields }),
        }
    }

    /// Returns the name of the verb, which is one of those in the description of jobs.
    pub fn verb(&self) -> &'a str {
        self.verb
    }

    /// Returns the fields.
    pub fn fields(&self) -> &Fields<'a> {
        &self.fields
    }
}

/// Checks that each word is `key=value` with one of these keys, each key once.
fn check_words<'a>(words: Option<&'a str>, keys: &str) -> Result<(), ReadError<'a>> {
    let Some(words) = words else {
        return Ok(());
    };
    for word in words.split(' ') {
        let Some((key, _)) = word.split_once('=') else {
            return Err(ReadError::Word("no key and value:", word));
        };
        if !takes(keys, key) {
            return Err(ReadError::Word("unknown key", key));
        }
        if count(words, key) > 1 {
            return Err(ReadError::Key(key, "stands twice"));
        }
    }
    Ok(())
}

/// Returns whether a key is among those of a verb.
fn takes(keys: &str, key: &str) -> bool {
    for taken in keys.split(' ') {
        if taken.strip_suffix('!').unwrap_or(taken) == key {
            return true;
        }
    }
    false
}

/// Returns the number of words with this key.
fn count(words: &str, key: &str) -> usize {
    let mut count = 0usize;
    for word in words.split(' ') {
        if let Some((name, _)) = word.split_once('=') {
            if name == key {
                count = count.saturating_add(1);
            }
        }
    }
    count
}

/// Checks that a job has each of these keys that has a mark `!`.
fn check_needed<'a>(fields: &Fields<'a>, keys: &'static str) -> Result<(), ReadError<'a>> {
    for key in keys.split(' ') {
        if let Some(needed) = key.strip_suffix('!') {
            if fields.value(needed).is_none() {
                return Err(ReadError::Key(needed, "is missing"));
            }
        }
    }
    Ok(())
}

/// Checks the values that say where a job comes from.
fn check_marks(fields: &Fields<'_>) -> Result<(), TextError> {
    if let Some(text) = fields.value("id") {
        number(text)?;
    }
    if let Some(text) = fields.value("fix") {
        values::flag(text)?;
    }
    Ok(())
}
