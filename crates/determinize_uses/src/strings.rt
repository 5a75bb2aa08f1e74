//! The strings in double quotes of an input that is read in pieces, of which one may lie in
//! several. The program `scan` prints those of standard input.

use determinize_regex::{Error as RegexError, Match, Regex, Stream};
use std::alloc::{AllocError, Global};
use std::fmt;
use std::io::{self, Print, Read};

/// The pattern of a string.
const STRING: &str = "\"[^\"]*\"";

/// An error that ends the search.
#[derive(Drop)]
pub enum Error {
    /// The pattern was not compiled.
    Regex(RegexError),
    /// An allocation failed, or the input or the output.
    Io(io::Error),
}

impl fmt::Debug for Error {
    fn fmt<W: fmt::Write>(&self, f: &mut fmt::Formatter<W>) -> fmt::Result {
        match self {
            Error::Regex(error) => write!(f, "{error}"),
            Error::Io(error) => write!(f, "{error}"),
        }
    }
}

impl From<RegexError> for Error {
    fn from(error: RegexError) -> Error {
        Error::Regex(error)
    }
}

impl From<AllocError> for Error {
    fn from(error: AllocError) -> Error {
        Error::Io(io::Error::from(error))
    }
}

impl From<io::Error> for Error {
    fn from(error: io::Error) -> Error {
        Error::Io(error)
    }
}

/// Prints the ends of a match and its bytes, and ends the line.
fn print(stream: &Stream<'_>, found: &Match, output: &impl Print) -> io::Result<()> {
    print!(output; "{}..{} ", found.start, found.end)?;
    if let Some(bytes) = stream.bytes_of(found) {
        output.write_all(bytes)?;
    }
    println!(output; "")
}

/// Reads a piece of the input, and prints each match that is certain.
fn print_piece(
    stream: &mut Stream<'_>,
    mut piece: &[u8],
    output: &impl Print,
) -> Result<(), Error> {
    while let Some(found) = stream.advance(&mut piece)? {
        print(stream, &found, output)?;
    }
    Ok(())
}

/// Prints the matches that are left where the input ends.
fn print_rest(
    stream: &mut Stream<'_>,
    rest: &mut Vec<Match>,
    output: &impl Print,
) -> Result<(), Error> {
    stream.finish(rest)?;
    for found in rest.as_slice() {
        print(stream, found, output)?;
    }
    Ok(())
}

/// Reads an input into a buffer, again and again, and prints each match as soon as it is certain.
fn print_matches(
    stream: &mut Stream<'_>,
    buffer: &mut [u8],
    input: &mut impl Read,
    output: &impl Print,
) -> Result<(), Error> {
    for _ in 0..u64::MAX {
        let count = input.read(buffer)?;
        if count == 0 {
            break;
        }
        print_piece(stream, &buffer[..count], output)?;
    }
    Ok(())
}

/// Prints where each string of an input begins and ends, and its bytes, as soon as its closing
/// quote is read. The input is read in pieces of at most 64 KB.
pub fn print_strings(
    alloc: Global,
    input: &mut impl Read,
    output: &impl Print,
) -> Result<(), Error> {
    let mut buffer = Vec::from_elem(alloc, 0u8, 65536)?;
    let regex = Regex::new(alloc, STRING)?;
    let mut stream = regex.stream(alloc, 1000);
    let mut rest = Vec::new(alloc);
    print_matches(&mut stream, buffer.as_mut_slice(), input, output)?;
    print_rest(&mut stream, &mut rest, output)
}
