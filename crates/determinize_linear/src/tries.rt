//! A zero-sized count of tries: of the pairs that a search takes from its stack, or of the steps of
//! a walk by a DFA.
//!
//! A search counts each try by a [`Counter`]: [`Tries`] in the calls whose names end in `_counted`,
//! and `()`, which counts nothing, in the others.

ghost use Rattle.std.specs.Prelude.{◌≡◌, ℕ, ◌+◌, ◌<◌, ◌≤◌, Bool, true, false, IsTrue};

use std::marker::Model;
use std::sync::ledger::{Blank, Book, Ledger, Share};

/// The number of pairs that searches have taken from their stack, also pairs that are skipped; of
/// searches by a DFA the number of steps.
///
/// It has size 0 and no program can read it: only contracts use it. The parameter is the ledger of
/// the count (`std::sync::ledger`), which a `Blank` opens.
#[derive(Drop)]
pub struct Tries<L: Ledger> {
    book: Book<L>,
    share: Share<L>,
}

impl<L: Ledger> Model for Tries<L> {
    ghost Value = { ℕ };

    ghost view = { λ t. t.book.total };

    ghost invariant = { λ t. 0 < t.share.parts };
}

impl<L: Ledger> Tries<L> {
    /// Returns a count of 0 in the ledger that the blank is for.
    pub fn new(blank: Blank) -> Tries<L>
        requires name { blank.name ≡ L.name }
        requires parts { blank.parts ≡ L.parts }
        requires some { 0 < L.parts }
        ensures { result ≡ 0 }
    {
        let (book, share) = blank.open::<L>();
        Tries { book, share }
    }
}

/// Counts tries, or ignores them if `counts` is false. `total` is the number so far.
pub(crate) trait Counter {
    ghost counts: { Bool };

    ghost total: { Self → ℕ };

    /// Counts one more try, if `counts`.
    fn count(&mut self)
        ensures most { total self.new ≤ total self.old + 1 }
        ensures counted { IsTrue counts → total self.new ≡ total self.old + 1 };
}

impl<L: Ledger> Counter for Tries<L> {
    ghost counts = { true };

    ghost total = { λ tries. tries };

    fn count(&mut self) {
        self.book.add(&mut self.share, 1);
    }
}

impl Counter for () {
    ghost counts = { false };

    ghost total = { λ nothing. 0 };

    #[inline(always)]
    fn count(&mut self) {}
}
