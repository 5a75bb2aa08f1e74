//! A zero-sized count of tries.
//!
//! The loop of a closure counts each try to add a state to a set, by a [`Counter`]: [`Steps`] in
//! `next_counted`, and `()`, which counts nothing, in all other calls.

ghost use Rattle.std.specs.Prelude.{◌≡◌, ℕ, ◌+◌, ◌<◌, Bool, true, false, IsTrue};

use std::marker::Model;
use std::sync::ledger::{Blank, Book, Ledger, Share};

/// The number of tries of epsilon closures to add a state to a set, also one that is in it.
///
/// It has size 0 and no program can read it: only contracts use it. Only the closures of this crate
/// increment it. The parameter is the ledger of the count (`std::sync::ledger`), which a `Blank`
/// opens.
#[derive(Drop)]
pub struct Steps<L: Ledger> {
    book: Book<L>,
    share: Share<L>,
}

impl<L: Ledger> Model for Steps<L> {
    ghost Value = { ℕ };

    ghost view = { λ s. s.book.total };

    ghost invariant = { λ s. 0 < s.share.parts };
}

impl<L: Ledger> Steps<L> {
    /// Returns a count of 0 in the ledger that the blank is for.
    pub fn new(blank: Blank) -> Steps<L>
        requires name { blank.name ≡ L.name }
        requires parts { blank.parts ≡ L.parts }
        requires some { 0 < L.parts }
        ensures { result ≡ 0 }
    {
        let (book, share) = blank.open::<L>();
        Steps { book, share }
    }
}

/// Counts tries, or ignores them if `counts` is false. `total` is the number so far.
pub(crate) trait Counter {
    ghost counts: { Bool };

    ghost total: { Self → ℕ };

    /// Counts one more try, if `counts`.
    fn count(&mut self)
        ensures { IsTrue counts → total self.new ≡ total self.old + 1 };
}

impl<L: Ledger> Counter for Steps<L> {
    ghost counts = { true };

    ghost total = { λ steps. steps };

    fn count(&mut self) {
        self.book.add(&mut self.share, 1);
    }
}

impl Counter for () {
    ghost counts = { false };

    ghost total = { λ nothing. 0 };

    #[inline(always)]
    fn count(&mut self) {}
}
