//! The work of the program `rows`, over any two writers.

ghost use Rattle.std.specs.Prelude.{◌≡◌, ◌≤◌, ◌↔◌, ◌⊎◌, false, IfErr, IsErrOf, IsOk};
ghost use Rattle.example_walks.specs.Names.{are_name};

use crate::error::TextError;
use crate::examples::{Example, named};
use crate::values::{Hex, LastMatch};
use crate::walk;
use determinize_core::determinize;
use determinize_core::state::State;
use std::alloc::Allocator;
use std::io;
use std::io::Write;

/// The message for arguments that are not the name of an example.
const NO_SUCH_ROW: &str = "no such row";

/// The message for an example whose job cannot be run.
const NO_WALK: &str = "the example is no walk";

/// The message for a failed allocation.
const OUT_OF_MEMORY: &str = "out of memory";

/// An error from printing a walk.
#[derive(Drop)]
pub enum RowError {
    /// The arguments are not the name of an example.
    NoSuchRow,
    /// The job of the example cannot be run.
    NoWalk,
    /// An allocation failed.
    OutOfMemory,
    /// The output cannot be written.
    Output,
}

impl RowError {
    /// Returns the error for arguments that cannot be read.
    pub fn of_arguments(error: &io::Error) -> RowError {
        match error.kind() {
            io::ErrorKind::OutOfMemory => RowError::OutOfMemory,
            _ => RowError::NoSuchRow,
        }
    }
}

impl From<TextError> for RowError {
    ghost use Rattle.example_walks.specs.declared.rows.RowError.TheVariants.{
      NoWalk,
      OutOfMemory,
    };

    ghost from_gives = { λ _ e. (e ≡ OutOfMemory) ⊎ (e ≡ NoWalk) };

    fn from(error: TextError) -> RowError {
        match error {
            TextError::OutOfMemory => RowError::OutOfMemory,
            _ => RowError::NoWalk,
        }
    }
}

impl From<io::Error> for RowError {
    ghost use Rattle.example_walks.specs.declared.rows.RowError.TheVariants.{Output};

    ghost from_gives = { λ _ e. e ≡ Output };

    fn from(_: io::Error) -> RowError {
        RowError::Output
    }
}

/// Prints the example walk with the name in `words` to `out`, and returns the exit status.
///
/// Writes each state as a line of lower-case hexadecimal digits, and then the first pattern and the
/// end of the last match, as `match 0 1`, or `none`. Returns 0 then. Returns 2 and writes a message
/// to `err` if and only if `words` is not the name of an example. If an allocation fails, returns
/// 1, writes a message to `err`, and `out` has a prefix of the lines. If `out` fails, returns 1. A
/// failed write to `err` does not change the status.
pub fn run_rows<A: Allocator + Copy, W: Write, E: Write>(
    alloc: A,
    words: &[String],
    out: &mut W,
    err: &mut E,
) -> u8
    ensures no_row { (result ≡ 2) ↔ (are_name words.now ≡ false) }
    ensures most { result ≤ 2 }
{
    report(print_row(alloc, words, out), err)
}

/// Returns the exit status of a walk. If it was not printed, writes the reason to `err`, unless
/// `out` failed.
pub fn report<E: Write>(outcome: Result<(), RowError>, err: &mut E) -> u8
    ensures printed { (result ≡ 0) ↔ IsOk outcome }
    ensures no_row { (result ≡ 2) ↔ IsErrOf outcome RowError.NoSuchRow }
    ensures most { result ≤ 2 }
{
    match outcome {
        Ok(()) => 0,
        Err(RowError::NoSuchRow) => say(err, NO_SUCH_ROW, 2),
        Err(RowError::NoWalk) => say(err, NO_WALK, 1),
        Err(RowError::OutOfMemory) => say(err, OUT_OF_MEMORY, 1),
        Err(RowError::Output) => 1,
    }
}

/// Writes a line, and returns the status even if the write fails.
fn say<E: Write>(err: &mut E, line: &str, status: u8) -> u8
    ensures { result ≡ status }
{
    let _ = writeln!(err, "{line}");
    status
}

/// Finds the example with the name in `words`, makes its walk and prints it. Returns `NoSuchRow` if
/// and only if `words` is not the name of an example.
fn print_row<A: Allocator + Copy, W: Write>(
    alloc: A,
    words: &[String],
    out: &mut W,
) -> Result<(), RowError>
    ensures { IsErrOf result RowError.NoSuchRow ↔ (are_name words.now ≡ false) }
{
    let [word] = words else {
        return Err(RowError::NoSuchRow);
    };
    let Some(example) = named(word.as_str()) else {
        return Err(RowError::NoSuchRow);
    };
    print_walk(alloc, &example, out)
}

/// Prints the walk of an example.
fn print_walk<A: Allocator + Copy, W: Write>(
    alloc: A,
    example: &Example,
    out: &mut W,
) -> Result<(), RowError>
    ensures { IfErr result (λ error. ¬ (error ≡ RowError.NoSuchRow)) }
{
    let states = walk::walk(alloc, &example.fields())?;
    Ok(print_states(states.as_slice(), out)?)
}

/// Prints each state, and the last match.
fn print_states<A: Allocator, W: Write>(states: &[State<A>], out: &mut W) -> io::Result<()> {
    for state in states {
        let bytes = Hex(state.as_bytes());
        writeln!(out, "{bytes}")?;
    }
    let found = LastMatch(determinize::last_match(states));
    writeln!(out, "{found}")
}
