//! The iterator over the NFA states of a state.

ghost use Rattle.std.specs.Prelude.{◌≡◌, ℕ};
ghost use Rattle.std.specs.Iterator.{YieldsFirst, item_count};
ghost use Rattle.determinize_state.specs.Varint.{ids_from, IsDeltas};

use crate::state::varint;
use determinize_below::StateID;
use std::fmt;
use std::marker::Model;

/// An iterator over the NFA states of a state, in order.
///
/// It borrows the bytes of the state and decodes one id per call of `next`. It does not allocate.
#[derive(Drop)]
pub struct NfaStateIds<'a> {
    bytes: &'a [u8],
    from: u32,
}

impl<'a> Model for NfaStateIds<'a> {
    ghost use Rattle.std.specs.Prelude.{List, ℕ};
    ghost use Rattle.determinize_state.specs.Varint.{ids_from, IsDeltas};

    ghost Value = { List ℕ };

    ghost view = { λ s. ids_from s.from 0 1 s.bytes.now };

    ghost invariant = { λ s. IsDeltas s.from s.bytes.now };
}

impl<'a> NfaStateIds<'a> {
    /// Returns an iterator over the ids that these bytes encode after `from`.
    pub(crate) fn new(from: u32, bytes: &'a [u8]) -> NfaStateIds<'a>
        requires { IsDeltas from bytes.now }
        ensures { result ≡ ids_from from 0 1 bytes.now }
    {
        NfaStateIds { bytes, from }
    }
}

impl<'a> Iterator for NfaStateIds<'a> {
    type Item = StateID;

    ghost next_gives = { YieldsFirst (λ s. s) };

    ghost remaining = { item_count (λ s. s) };

    /// Returns the next id, or `None` at the end.
    #[tactic(auto, using(crate::proofs::encoding::Varints::first_read))]
    #[inline(always)]
    fn next(&mut self) -> Option<StateID> {
        let (number, after) = varint::read_number(self.bytes)?;
        let id = varint::id_after(self.from, number);
        self.bytes = after;
        self.from = id.as_u32();
        Some(id)
    }
}

/// Writes the list of the remaining ids.
impl<'a> fmt::Debug for NfaStateIds<'a> {
    fn fmt<W: fmt::Write>(&self, f: &mut fmt::Formatter<W>) -> fmt::Result {
        let rest = NfaStateIds::new(self.from, self.bytes);
        f.debug_list().entries(rest).finish()
    }
}
