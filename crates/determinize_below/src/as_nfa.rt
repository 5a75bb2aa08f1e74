//! An NFA, owned or borrowed, for types that work over either.

ghost use Rattle.std.specs.Prelude.{◌≡◌};
ghost use Rattle.determinize_below.specs.Semantics as semantics;

use crate::nfa::NFA;
use std::alloc::Allocator;

/// An NFA, owned or borrowed.
///
/// A DFA over an `NFA` owns it, so a function can return it and a struct can hold it. Several DFAs
/// may borrow one NFA, each by a reference.
pub trait AsNfa: Drop {
    /// The allocator of the NFA.
    type N: Allocator;

    ghost nfa: { Self → semantics.Nfa };

    /// Returns the NFA.
    fn nfa(&self) -> &NFA<Self::N>
        ensures { result.now ≡ nfa self.now };
}

impl<A: Allocator> AsNfa for NFA<A> {
    type N = A;

    ghost nfa = { λ n. n };

    #[inline(always)]
    fn nfa(&self) -> &NFA<A> {
        self
    }
}

impl<'n, A: Allocator> AsNfa for &'n NFA<A> {
    type N = A;

    ghost nfa = { λ n. n.now };

    #[inline(always)]
    fn nfa(&self) -> &NFA<A> {
        *self
    }
}
