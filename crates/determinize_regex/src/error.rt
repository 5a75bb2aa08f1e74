//! Errors of `Regex::new`.

ghost use Rattle.std.specs.IoError.{error_kind};
ghost use Rattle.std.specs.Prelude.{◌≡◌};
ghost use Rattle.determinize_below.specs.declared.nfa.BuildError.TheVariants.{OutOfMemory};
ghost use Rattle.determinize_pattern.specs.declared.nfa.CompileError.TheVariants.{Build};
ghost use Rattle.determinize_regex.specs.declared.error.Error.TheVariants.{Compile};
ghost use Rattle.determinize_regex.specs.Errors.{io_kind, is_out_of_memory};

use determinize_below::BuildError;
use determinize_pattern::CompileError;
use determinize_syntax::{ErrorKind, ParseError};
use std::alloc::{AllocError, AllocFailed};
use std::io::Write;
use std::{error, fmt, io};

/// An error from the patterns of a regex.
#[derive(Clone, Copy, Debug, PartialEq, Eq)]
pub enum Error {
    /// The text of the pattern with this index is rejected by `parse_with`.
    Parse { index: usize, error: ParseError },
    /// The patterns were not compiled.
    Compile(CompileError),
}

impl fmt::Display for Error {
    fn fmt<W: fmt::Write>(&self, f: &mut fmt::Formatter<W>) -> fmt::Result {
        match self {
            Error::Parse { index, error } => write!(f, "pattern {index}: {error}"),
            Error::Compile(error) => write!(f, "{error}"),
        }
    }
}

impl error::Error for Error {}

impl Error {
    /// Returns whether an allocation failed. If so, the patterns may be valid.
    pub fn is_out_of_memory(&self) -> bool
        ensures { result ≡ is_out_of_memory self.now }
    {
        match self {
            Error::Parse { error, .. } => matches!(error.kind, ErrorKind::OutOfMemory),
            Error::Compile(error) => matches!(error, CompileError::Build(BuildError::OutOfMemory)),
        }
    }
}

/// Returns an error of kind `OutOfMemory`, or else of kind `InvalidInput` with this text, cut to 80
/// bytes. So `?` works in a `main` that returns an `io::Result`.
impl From<Error> for io::Error {
    ghost from_gives = { λ error e. error_kind e ≡ io_kind error };

    fn from(error: Error) -> io::Error {
        if error.is_out_of_memory() {
            return io::Error::from(io::ErrorKind::OutOfMemory);
        }
        let mut bytes = [0u8; 80];
        let mut rest = bytes.as_mut_slice();
        let _ = write!(rest, "{error}");
        let left = rest.len();
        let written = bytes.get(..bytes.len().saturating_sub(left)).unwrap_or(&[]);
        let text = str::from_utf8(written).unwrap_or("the patterns are not valid");
        io::Error::new(io::ErrorKind::InvalidInput, text)
    }
}

impl From<CompileError> for Error {
    ghost from_gives = { λ error e. e ≡ Compile error };

    fn from(error: CompileError) -> Error {
        Error::Compile(error)
    }
}

impl From<AllocError> for Error {
    ghost from_gives = { λ _ e. e ≡ Compile (Build OutOfMemory) };

    fn from(error: AllocError) -> Error {
        Error::Compile(CompileError::from(error))
    }
}

impl<T: Drop> From<AllocFailed<T>> for Error {
    ghost from_gives = { λ _ e. e ≡ Compile (Build OutOfMemory) };

    fn from(error: AllocFailed<T>) -> Error {
        Error::Compile(CompileError::from(error))
    }
}
