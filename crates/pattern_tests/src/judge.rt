//! Compiles the patterns of a job, searches its texts, and reports what is not as expected.

ghost use Rattle.std.specs.Prelude.{◌≡◌, false};
ghost use Rattle.determinize_nfa.specs.Prefix.{HasPrefix};

use crate::counts::Counts;
use crate::error::ReplayError;
use crate::head::Head;
use crate::notation;
use determinize_below::{BuildError, Input, NFA};
use determinize_find::{Match, Regex};
use determinize_lazy::LazyDfa;
use determinize_pattern::{CompileError, Pattern, compile};
use example_walks::values;
use std::alloc::{AllocError, Global};

/// The greatest number of states of a cache.
const CACHE_LIMIT: usize = 1000;

/// The number of states of the prefix, with which a match begins anywhere.
const PREFIX_STATES: usize = 2;

/// Judges a job: its first line without the mark, the expected text of each of its first patterns,
/// and the lines of its texts. Counts the texts and their matches, and adds a line to the report
/// for each difference.
pub fn judge(
    alloc: Global,
    head: &str,
    printed: &[String],
    texts: &[String],
    counts: &mut Counts,
    report: &mut String,
) -> Result<(), ReplayError> {
    let (head, mut patterns) = (Head::read(head)?, Vec::new(alloc));
    notation::push_patterns(alloc, head.words, &mut patterns)?;
    patterns.reverse();
    judge_printed(alloc, patterns.as_slice(), printed, report)?;
    match compile(alloc, patterns.as_slice(), head.config()) {
        Ok(nfa) => {
            judge_states(&head, nfa.len(), report)?;
            judge_texts(alloc, nfa, texts, counts, report)
        }
        Err(error) => judge_error(&head, error, report),
    }
}

/// Compares what `Display` and `Debug` write of the first patterns with the expected texts.
fn judge_printed(
    alloc: Global,
    patterns: &[Pattern],
    printed: &[String],
    report: &mut String,
) -> Result<(), AllocError> {
    for (pattern, wanted) in patterns.iter().zip(printed.iter()) {
        let text = format!(in alloc; "{pattern} {pattern:?}")?;
        let twice = format!(in alloc; "{wanted} {wanted}")?;
        if text != twice {
            writeln!(report, "{text}, and not {wanted}")?;
        }
    }
    Ok(())
}

/// Compares the error of `compile` with the expected one.
fn judge_error(
    head: &Head<'_>,
    error: CompileError,
    report: &mut String,
) -> Result<(), ReplayError> {
    let name = match error {
        CompileError::Build(BuildError::OutOfMemory) => return Err(ReplayError::OutOfMemory),
        CompileError::ExceededSizeLimit => "size",
        CompileError::NestLimitExceeded(limit) if limit == head.config().nest_limit => "nest",
        _ => "another error",
    };
    if head.error != Some(name) {
        writeln!(report, "{error}")?;
    }
    Ok(())
}

/// Compares the number of states with the one that is expected, and with the greatest ones. Reports
/// that patterns with an expected error were compiled.
fn judge_states(head: &Head<'_>, states: usize, report: &mut String) -> Result<(), AllocError> {
    let states = states.saturating_sub(PREFIX_STATES);
    if let Some(wanted) = head.error {
        writeln!(report, "an NFA, and not the error {wanted}")?;
    }
    let wanted = head.states.unwrap_or(states);
    if states != wanted {
        writeln!(report, "{states} states, and not {wanted}")?;
    }
    let most = head
        .most
        .unwrap_or(states)
        .min(head.limit.unwrap_or(states));
    if states > most {
        writeln!(report, "{states} states, and not at most {most}")?;
    }
    Ok(())
}

/// A search by an NFA and its reverse, which it owns.
type Owned = Regex<LazyDfa<NFA>, LazyDfa<NFA>>;

/// Finds all matches of each text, and compares them with the expected ones.
fn judge_texts(
    alloc: Global,
    nfa: NFA,
    texts: &[String],
    counts: &mut Counts,
    report: &mut String,
) -> Result<(), ReplayError>
    requires forward { nfa.reverse ≡ false }
    requires prefix { HasPrefix nfa }
{
    if texts.is_empty() {
        return Ok(());
    }
    let mut regex = Regex::from_nfa(alloc, nfa, CACHE_LIMIT)?;
    for line in texts {
        judge_line(alloc, &mut regex, line.as_str(), counts, report)?;
    }
    Ok(())
}

/// Finds all matches of the text of a line, and compares them with the expected ones.
fn judge_line(
    alloc: Global,
    regex: &mut Owned,
    line: &str,
    counts: &mut Counts,
    report: &mut String,
) -> Result<(), ReplayError> {
    let Some((text, wanted)) = line.split_once(' ') else {
        return Err(ReplayError::Malformed("a text and its matches"));
    };
    let bytes = values::bytes(alloc, text)?;
    let found = regex.find_all(alloc, &Input::new(bytes.as_slice()))?;
    counts.texts = counts.texts.saturating_add(1);
    counts.matches = counts.matches.saturating_add(found.len() as u64);
    let mut shown = String::new(alloc);
    write_matches(&mut shown, found.as_slice())?;
    if shown.as_str() != wanted {
        writeln!(report, "{text}: {shown}, and not {wanted}")?;
    }
    Ok(())
}

/// Writes the pattern, the start and the end of each match, as in `0:1-3,0:4-5`, or `-` if there is
/// none.
fn write_matches(text: &mut String, found: &[Match]) -> Result<(), AllocError> {
    if found.is_empty() {
        return text.push('-');
    }
    let mut comma = "";
    for found in found {
        let (pattern, start, end) = (found.pattern.as_usize(), found.start, found.end);
        write!(text, "{comma}{pattern}:{start}-{end}")?;
        comma = ",";
    }
    Ok(())
}
