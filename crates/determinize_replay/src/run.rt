//! The work of the program, over any reader and any two writers.

ghost use Rattle.std.specs.Prelude.{◌≡◌, ◌≤◌, ◌↔◌, IfOk, OnErr};

use crate::replay::{Mode, Replay, Tally};
use example_walks::error::ReplayError;
use example_walks::values::{number, text_of};
use std::alloc::Global;
use std::io::{self, Read, Write};

/// Replays the jobs of `input` and returns the exit status.
///
/// The whole input is read first. Without arguments in `words`, each walk is a separate call. With
/// `cache` and a limit, walks go through caches of at most that many states. There is one cache per
/// NFA and match kind, which its walks share in the order of the input. With `search` and a limit,
/// each walk is replaced by a search through such a cache, and only the last line of the expected
/// output is compared: the last match.
///
/// Writes each job whose output differs to `out`, with both outputs, and then the counts in a line.
/// Returns 0 if every job agrees and 1 if some differ. If there is no verdict, returns 2 and writes
/// the reason in a line to `err`: invalid arguments, an invalid line of input, no job, a failed
/// allocation, or a failed write to `out`. The counts are not written then, except if there was no
/// job. A failed write to `err` does not change the status.
pub fn run<R: Read + Drop, W: Write, E: Write>(
    alloc: Global,
    words: &[String],
    mut input: R,
    out: &mut W,
    err: &mut E,
) -> u8
    ensures { result ≤ 2 }
{
    let Some(mode) = mode(words) else {
        return report(Err(ReplayError::Arguments), err);
    };
    let mut bytes = Vec::new(alloc);
    let end = input.read_to_end(&mut bytes);
    report(replay(alloc, mode, bytes.as_slice(), &end, out), err)
}

/// Returns the exit status of a replay. If there is no verdict, writes the reason to `err`.
pub fn report<E: Write>(outcome: Result<Tally, ReplayError<'_>>, err: &mut E) -> u8
    ensures agree { IfOk outcome.entry (λ tally. (result ≡ 0) ↔ (tally.differ ≡ 0)) }
    ensures none { OnErr outcome.entry (result ≡ 2) }
    ensures most { result ≤ 2 }
{
    match outcome {
        Ok(tally) => tally.status(),
        Err(error) => {
            let _ = writeln!(err, "{error}");
            2
        }
    }
}

/// Reads the arguments: none, or `cache` or `search` and a limit. Returns `None` for any others.
fn mode(words: &[String]) -> Option<Mode> {
    match words {
        [] => Some(Mode::Alone),
        [word, limit] => match (word.as_str(), number(limit.as_str())) {
            ("cache", Ok(limit)) => Some(Mode::Cached(limit)),
            ("search", Ok(limit)) => Some(Mode::Searched(limit)),
            _ => None,
        },
        _ => None,
    }
}

/// Replays the lines of the input, of which these bytes were read before its end or an error, and
/// writes the counts. If it was not read to its end or is not UTF-8, replays the lines before the
/// one that cannot be read, of which the text may have the first part, and returns the error.
fn replay<'t, W: Write>(
    alloc: Global,
    mode: Mode,
    bytes: &'t [u8],
    end: &io::Result<usize>,
    out: &mut W,
) -> Result<Tally, ReplayError<'t>> {
    let (text, mut replay) = (text_of(bytes), Replay::new(alloc, mode));
    let is_whole = end.is_ok() && text.len() == bytes.len();
    let count = text.split('\n').count();
    let readable = if is_whole {
        count
    } else {
        count.saturating_sub(1)
    };
    for line in text.lines().take(readable) {
        replay.take_line(line, out)?;
    }
    if !is_whole {
        return Err(replay.unreadable(end));
    }
    replay.judge(out)?;
    let tally = replay.tally;
    writeln!(out, "{tally}")?;
    if tally.jobs == 0 {
        return Err(ReplayError::Nothing);
    }
    Ok(tally)
}
