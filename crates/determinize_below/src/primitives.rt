//! Identifiers of NFA states and of patterns: small integers in 32 bits.
//!
//! Both kinds have the same limit, 2147483646. So the number of states of an NFA fits in 31 bits,
//! and the difference of two ids in an `i32`. Both are a `SmallIndex<K>`: `K` is a type without
//! values that keeps the kinds apart and takes no space.

ghost use Rattle.determinize_below.specs.declared.primitives.TheConstants.{MAX_ID};
ghost use Rattle.std.specs.Prelude.{◌≡◌, ℕ, ◌≤◌, IfErr};
ghost use Rattle.std.specs.Result.{OkIff};

use std::alloc::AllocError;
use std::error::Error;
use std::fmt;
use std::marker::{Model, PhantomData};

/// The greatest id, of a state or of a pattern: 2147483646.
pub const MAX_ID: usize = 2147483646;

/// The number of ids, and so the greatest number of states of an NFA: 2147483647.
pub const ID_LIMIT: usize = MAX_ID + 1;

/// The id of an NFA state, from 0 to 2147483646.
pub type StateID = SmallIndex<OfState>;

/// The id of a pattern, from 0 to 2147483646.
pub type PatternID = SmallIndex<OfPattern>;

/// An error from `StateID::new`: the number is above `StateID::MAX`.
pub type StateIDError = SmallIndexError<OfState>;

/// An error from `PatternID::new`: the number is above `PatternID::MAX`.
pub type PatternIDError = SmallIndexError<OfPattern>;

/// The kind of a `StateID`.
pub enum OfState {}

/// The kind of a `PatternID`.
pub enum OfPattern {}

/// An id of kind `K`, from 0 to 2147483646.
#[derive_where(Copy, PartialEq, Eq, PartialOrd, Ord, Hash)]
pub struct SmallIndex<K>(u32, #[derive_where(skip)] PhantomData<K>);

impl<K> Model for SmallIndex<K> {
    ghost Value = { ℕ };

    ghost view = { λ s. s.0 };

    ghost invariant = { λ s. s.0 ≤ MAX_ID };

    ghost inverse = { λ n. record { 0 = n; 1 = record {} } };
}

impl<K> SmallIndex<K> {
    /// Returns the id with this number, or an error that contains the number if it is above
    /// 2147483646.
    pub fn new(id: usize) -> Result<SmallIndex<K>, SmallIndexError<K>>
        ensures ok { OkIff result (id ≤ MAX_ID) id }
        ensures err { IfErr result (λ e. e ≡ id) }
    {
        if id <= MAX_ID {
            Ok(SmallIndex(id as u32, PhantomData))
        } else {
            Err(SmallIndexError(id as u64, PhantomData))
        }
    }

    /// Returns the id with this number, which must be at most 2147483646.
    pub fn must(id: usize) -> SmallIndex<K>
        requires { id ≤ MAX_ID }
        ensures { result ≡ id }
    {
        SmallIndex(id as u32, PhantomData)
    }

    /// Returns the id as a `u32`.
    pub fn as_u32(self) -> u32
        ensures value { result ≡ self }
        ensures small { self ≤ MAX_ID }
    {
        self.0
    }

    /// Returns the id as a `usize`, for indexing.
    pub fn as_usize(self) -> usize
        ensures value { result ≡ self }
        ensures small { self ≤ MAX_ID }
    {
        self.0 as usize
    }
}

impl<K> Clone for SmallIndex<K> {
    ghost is_clone = { λ a b. b ≡ a };

    fn clone(&self) -> Result<SmallIndex<K>, AllocError> {
        Ok(SmallIndex(self.0, PhantomData))
    }
}

/// Writes the id in decimal.
impl<K> fmt::Display for SmallIndex<K> {
    ghost use Rattle.std.specs.Prelude.{Some, decimal};

    ghost output = { λ n. Some (decimal n) };

    fn fmt<W: fmt::Write>(&self, f: &mut fmt::Formatter<W>) -> fmt::Result {
        let number = self.0;
        write!(f, "{number}")
    }
}

impl StateID {
    /// The smallest id, 0.
    pub const ZERO: StateID = SmallIndex(0, PhantomData);

    /// The greatest id, 2147483646.
    pub const MAX: StateID = SmallIndex(MAX_ID as u32, PhantomData);

    /// The size of an id in bytes, 4.
    pub const SIZE: usize = 4;
}

impl fmt::Debug for StateID {
    fn fmt<W: fmt::Write>(&self, f: &mut fmt::Formatter<W>) -> fmt::Result {
        f.debug_tuple("StateID").field(&self.0).finish()
    }
}

impl PatternID {
    /// The smallest id, 0.
    pub const ZERO: PatternID = SmallIndex(0, PhantomData);

    /// The greatest id, 2147483646.
    pub const MAX: PatternID = SmallIndex(MAX_ID as u32, PhantomData);

    /// The size of an encoded id in bytes, 4.
    pub const SIZE: usize = 4;
}

impl fmt::Debug for PatternID {
    fn fmt<W: fmt::Write>(&self, f: &mut fmt::Formatter<W>) -> fmt::Result {
        f.debug_tuple("PatternID").field(&self.0).finish()
    }
}

/// An error from `SmallIndex::new`: the number is above 2147483646.
#[derive_where(Copy, PartialEq, Eq)]
pub struct SmallIndexError<K>(u64, #[derive_where(skip)] PhantomData<K>);

impl<K> Model for SmallIndexError<K> {
    ghost Value = { ℕ };

    ghost view = { λ e. e.0 };

    ghost inverse = { λ n. record { 0 = n; 1 = record {} } };
}

impl<K> Clone for SmallIndexError<K> {
    ghost is_clone = { λ a b. b ≡ a };

    fn clone(&self) -> Result<SmallIndexError<K>, AllocError> {
        Ok(SmallIndexError(self.0, PhantomData))
    }
}

impl<K> SmallIndexError<K> {
    /// Returns the number that is out of range.
    pub fn attempted(&self) -> u64
        ensures { result ≡ self.now }
    {
        self.0
    }
}

impl fmt::Display for StateIDError {
    ghost use Rattle.determinize_below.specs.Messages.{state_id_message};
    ghost use Rattle.std.specs.Prelude.{Some};

    ghost output = { λ n. Some (state_id_message n) };

    fn fmt<W: fmt::Write>(&self, f: &mut fmt::Formatter<W>) -> fmt::Result {
        let attempted = self.0;
        write!(f, "{attempted} is too large for the id of a state")
    }
}

impl fmt::Debug for StateIDError {
    fn fmt<W: fmt::Write>(&self, f: &mut fmt::Formatter<W>) -> fmt::Result {
        f.debug_struct("StateIDError")
            .field("attempted", &self.0)
            .finish()
    }
}

impl Error for StateIDError {}

impl fmt::Display for PatternIDError {
    ghost use Rattle.determinize_below.specs.Messages.{pattern_id_message};
    ghost use Rattle.std.specs.Prelude.{Some};

    ghost output = { λ n. Some (pattern_id_message n) };

    fn fmt<W: fmt::Write>(&self, f: &mut fmt::Formatter<W>) -> fmt::Result {
        let attempted = self.0;
        write!(f, "{attempted} is too large for the id of a pattern")
    }
}

impl fmt::Debug for PatternIDError {
    fn fmt<W: fmt::Write>(&self, f: &mut fmt::Formatter<W>) -> fmt::Result {
        f.debug_struct("PatternIDError")
            .field("attempted", &self.0)
            .finish()
    }
}

impl Error for PatternIDError {}
