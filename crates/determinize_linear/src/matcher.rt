//! A search of one text from one position after another: after a match none begins before its end,
//! and else none before the last one began.

ghost use Rattle.std.specs.Prelude.{◌≡◌, ◌≤◌, ◌+◌, ℕ, IfOk, IsTrue, length, option_map};
ghost use Rattle.std.specs.Option.{IfNone, IfSome};
ghost use Rattle.determinize_below.specs.Semantics as semantics;
ghost use Rattle.determinize_find.specs.Private.BestAt.{IsBestAt, from_index};
ghost use Rattle.determinize_linear.specs.Private.Paid.{IsPaid, end_of};

use crate::tries::Counter;
use determinize_below::HalfMatch;
use determinize_engine::text::Text;

/// A search of one text from positions that never go back: after a match from where it ends on, and
/// else from where the search before it began on.
pub(crate) trait Matcher {
    /// The error of a search: `AllocError`, or `Infallible` if no search fails.
    type Error: Drop;

    /// What it searches by: an NFA or a DFA, which no search changes.
    ghost By: { Type 0 };

    ghost by: { Self → By };

    /// Whether it finds the matches of an NFA.
    ghost finds: { By → semantics.Nfa → Type 0 };

    /// Whether it may search a text from a position.
    ghost is_ready: { Self → semantics.Text → ℕ → Type 0 };

    /// The tries that are left to searches from a position on.
    ghost left: { Self → semantics.Text → ℕ → ℕ };

    /// How many tries at most a match restores at the position where it ends.
    ghost most: { By → ℕ };

    /// How many tries at most a search takes besides those that are left.
    ghost extra: { ℕ };

    /// Returns the pattern and the end of the most preferred match that begins at a position, if
    /// any.
    fn search_from<C: Counter>(
        &mut self,
        text: &Text<'_>,
        from: usize,
        counter: &mut C,
    ) -> Result<Option<HalfMatch>, Self::Error>
        requires within { from ≤ length text.now.bytes }
        requires ready { is_ready self.old text.now from }
        ensures by { by self.new ≡ by self.old }
        ensures best { IfOk result (λ found. (nfa : semantics.Nfa) → finds (by self.old) nfa
            → IsBestAt nfa text.now from (option_map (from_index from) found)) }
        ensures order { IfOk result (λ found. from ≤ end_of from found) }
        ensures within { IfOk result
            (λ found. IfSome found (λ m. m.offset ≤ length text.now.bytes)) }
        ensures ready { IfOk result (λ found. (k : ℕ) → end_of from found ≤ k
            → is_ready self.new text.now k) }
        ensures paid { IfOk result (λ found. IfSome found (λ m.
            IsPaid (left self.new text.now) (most (by self.old))
            (left self.old text.now from) from m.offset extra
            (C.total counter.old) (C.total counter.new))) }
        ensures unpaid { IfOk result (λ found. IfNone found ((k : ℕ) → from ≤ k
            → C.total counter.new + left self.new text.now k
            ≤ C.total counter.old + extra + left self.old text.now from)) }
        ensures bounded { C.total counter.new
            ≤ C.total counter.old + extra + left self.old text.now from }
        ensures counted { IsTrue C.counts → IfOk result
            (λ found. C.total counter.old + end_of from found + 1 ≤ C.total counter.new + from) };
}
