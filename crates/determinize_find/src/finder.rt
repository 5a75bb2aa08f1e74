//! The trait of a search for the leftmost match of an input.

ghost use Rattle.std.specs.Prelude.{◌≡◌, true, IfOk};
ghost use Rattle.std.specs.Option.{IfSome};
ghost use Rattle.determinize_below.specs.Semantics.{Nfa};
ghost use Rattle.determinize_engine.specs.Searches.{has_start};
ghost use Rattle.determinize_find.specs.LeftmostIn.{IsLeftmostIn, IsWithin};

use determinize_below::{Input, Match};

/// A search of inputs for the leftmost match, for one NFA.
///
/// It is implemented for `Regex`, and for `Plain`, which needs neither a prefix nor a second NFA. A
/// `Searcher` and `find_all` take any finder.
pub trait Finder {
    /// The error of a search: `AllocError`, or `Infallible` if no search fails.
    type Error: Drop;

    ghost nfa: { Self → Nfa };

    /// Returns the leftmost match of an input, if any: no match begins before it, and of those that
    /// begin at the same index it is the most preferred. Its ends are indices into the haystack.
    ///
    /// The bytes next to the range are seen by assertions. If the range starts past its end, the
    /// result is `Ok(None)`.
    fn find(&mut self, input: &Input<'_>) -> Result<Option<Match>, Self::Error>
        requires start { has_start input.now.anchored ≡ true }
        ensures leftmost { IfOk result (λ found. IsLeftmostIn (nfa self.old) input.now found) }
        ensures within { IfOk result (λ found. IfSome found (IsWithin input.now)) }
        ensures same { self.new ≡ self.old };
}
