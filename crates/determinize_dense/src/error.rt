//! Why a DFA was not built.

ghost use Rattle.std.specs.Prelude.{◌≡◌};
ghost use Rattle.determinize_dense.specs.declared.error.DfaError.TheVariants.{OutOfMemory};

use std::alloc::{AllocError, AllocFailed};
use std::error::Error;
use std::fmt;

/// An error from `Dfa::build`.
#[derive(Clone, Copy, Debug, PartialEq, Eq)]
pub enum DfaError {
    /// More states are reached than the limit, or than 16647160.
    TooManyStates,
    /// An allocation failed. More states than the limit may be reached, or not.
    OutOfMemory,
}

impl From<AllocError> for DfaError {
    ghost from_gives = { λ _ e. e ≡ OutOfMemory };

    fn from(_refused: AllocError) -> DfaError {
        DfaError::OutOfMemory
    }
}

impl<T: Drop> From<AllocFailed<T>> for DfaError {
    ghost from_gives = { λ _ e. e ≡ OutOfMemory };

    fn from(_refused: AllocFailed<T>) -> DfaError {
        DfaError::OutOfMemory
    }
}

impl fmt::Display for DfaError {
    fn fmt<W: fmt::Write>(&self, f: &mut fmt::Formatter<W>) -> fmt::Result {
        match self {
            DfaError::TooManyStates => write!(f, "more states than the limit"),
            DfaError::OutOfMemory => write!(f, "out of memory"),
        }
    }
}

impl Error for DfaError {}
