//! A list of bytes: a copy is stored inline if it is short.
//!
//! Most states of small NFAs have few bytes, and an inline state needs no allocation.

ghost use Rattle.std.specs.Prelude.{◌≡◌, ◌≤◌, length, IfOk, IsOk};

use std::alloc::{AllocError, Allocator};
use std::marker::Model;

/// The maximum number of inline bytes. With their length and the tag of the enum they fill 32
/// bytes, the size of a vector with its tag, if the allocator has size zero.
const SHORT: usize = 30;

/// The storage of the bytes.
#[derive(Drop)]
enum Form<A: Allocator> {
    /// The first `len` of the bytes, inline.
    Short {
        alloc: A,
        len: u8,
        bytes: [u8; SHORT],
    },
    /// More than `SHORT` bytes, or those of a vector that was handed over.
    Long(Vec<u8, A>),
}

/// An immutable list of bytes.
pub(crate) struct SmallBytes<A: Allocator> {
    form: Form<A>,
}

// Derived code is proved again in each crate that drops a state.
impl<A: Allocator> Drop for SmallBytes<A> {
    fn drop(self) {
        let SmallBytes { form: _ } = self;
    }
}

impl<A: Allocator> Model for SmallBytes<A> {
    ghost use Rattle.std.specs.Prelude.{List, ℕ};
    ghost use Rattle.determinize_state.specs.Private.SmallBytes.{bytes_in, IsWithin};

    ghost Value = { List ℕ };

    ghost view = { λ s. bytes_in s.form };

    ghost invariant = { λ s. IsWithin s.form };
}

impl<A: Allocator> SmallBytes<A> {
    /// Returns a copy of these bytes. Allocates only for more than `SHORT` bytes.
    #[inline]
    pub(crate) fn from_slice(alloc: A, bytes: &[u8]) -> Result<SmallBytes<A>, AllocError>
        ensures value { IfOk result (λ kept. kept ≡ bytes.now) }
        ensures short { length bytes.now ≤ 30 → IsOk result }
    {
        let len = bytes.len();
        if len > SHORT {
            let form = Form::Long(Vec::from_slice(alloc, bytes)?);
            return Ok(SmallBytes { form });
        }
        let mut kept = [0; SHORT];
        kept[..len].copy_from_slice(bytes);
        let form = Form::Short {
            alloc,
            len: len as u8,
            bytes: kept,
        };
        Ok(SmallBytes { form })
    }

    /// Returns a list of the bytes of a vector, in its memory.
    #[inline(always)]
    pub(crate) fn from_vec(bytes: Vec<u8, A>) -> SmallBytes<A>
        ensures { result ≡ bytes.items }
    {
        let form = Form::Long(bytes);
        SmallBytes { form }
    }

    /// Returns the vector of the bytes, or the allocator if they are inline.
    #[inline(always)]
    pub(crate) fn into_vec(self) -> Result<Vec<u8, A>, A>
        ensures { IfOk result (λ bytes. bytes.items ≡ self) }
    {
        let SmallBytes { form } = self;
        match form {
            Form::Short { alloc, .. } => Err(alloc),
            Form::Long(bytes) => Ok(bytes),
        }
    }

    /// Returns the bytes.
    #[inline(always)]
    pub(crate) fn as_slice(&self) -> &[u8]
        ensures { result.now ≡ self.now }
    {
        match &self.form {
            Form::Short { len, bytes, .. } => &bytes[..*len as usize],
            Form::Long(bytes) => bytes.as_slice(),
        }
    }

    /// Returns the allocator of the list.
    pub(crate) fn allocator(&self) -> &A {
        match &self.form {
            Form::Short { alloc, .. } => alloc,
            Form::Long(bytes) => bytes.allocator(),
        }
    }
}

/// Returns a clone with the same bytes.
impl<A: Allocator + Clone> Clone for SmallBytes<A> {
    ghost is_clone = { λ a b. a ≡ b };

    #[inline(always)]
    fn clone(&self) -> Result<SmallBytes<A>, AllocError> {
        match &self.form {
            Form::Short { alloc, len, bytes } => {
                let form = Form::Short {
                    alloc: alloc.clone()?,
                    len: *len,
                    bytes: *bytes,
                };
                Ok(SmallBytes { form })
            }
            Form::Long(bytes) => {
                SmallBytes::from_slice(bytes.allocator().clone()?, bytes.as_slice())
            }
        }
    }
}
