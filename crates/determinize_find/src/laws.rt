//! What holds of every leftmost match, stated by the contracts of functions with empty bodies.

ghost use Rattle.std.specs.Prelude.{◌<◌, ◌≤◌, All, length};
ghost use Rattle.determinize_find.specs.Laws.{EachAnchoredIsLeftmost, EachBusyHasBegun, EachCertainIsPreferred, EachIdleIsFresh, EachInputHasMatches, EachLeftmostInIsOne, EachLeftmostIsOne, EachMatchesAreApart, EachMatchesAreOne, EachPreferredIsLeftmost, EachStartIsCovered};

use determinize_below::Input;
pub use determinize_nfa::laws::{mirror_law, shift_law};

/// The haystack of an input has bytes, and fewer than `usize::MAX`, and its range ends within it.
pub fn input_law(input: &Input<'_>)
    ensures bytes { All (λ b. b < 256) input.now.haystack }
    ensures size { length input.now.haystack < usize.MAX }
    ensures within { input.now.end ≤ length input.now.haystack }
{
    bytes_law(input.haystack());
    let _ = input.end();
}

/// The elements of a slice of bytes are less than 256.
#[tactic(auto, using(crate::proofs::leftmost::TwoSearches::all_bytes))]
fn bytes_law(bytes: &[u8])
    ensures { All (λ b. b < 256) bytes.now }
{}

/// A text has at most one leftmost match.
#[tactic(auto, using(crate::proofs::matches::OneList::each_leftmost_is_one))]
pub fn leftmost_law()
    ensures { EachLeftmostIsOne }
{}

/// The preferred match from the unanchored start of an NFA with the usual prefix has the pattern
/// and the end of the leftmost match; if there is no preferred match, there is no leftmost one.
/// From the anchored start, the same holds of the leftmost match that begins with the text.
#[tactic(auto, using(crate::proofs::leftmost::PreferredRun::each_preferred_is_leftmost, crate::proofs::leftmost::PreferredRun::each_anchored_is_leftmost))]
pub fn prefix_law()
    ensures unanchored { EachPreferredIsLeftmost }
    ensures anchored { EachAnchoredIsLeftmost }
{}

/// An input has at most one leftmost match, and its matches are exactly one list. They are in the
/// range, do not overlap, and each ends later than the one before. In an input that is not anchored
/// none is passed over: where a run begins that accepts, a match of the list contains the index, or
/// ends there and the leftmost match from there on is empty.
#[tactic(auto, using(crate::proofs::matches::OneList::each_leftmost_in_is_one, crate::proofs::matches::OneList::each_matches_are_one, crate::proofs::matches::OneList::each_matches_are_apart, crate::proofs::matches::InputMatches::each_input_has_matches, crate::proofs::matches::InputMatches::each_start_is_covered))]
pub fn matches_law()
    ensures leftmost { EachLeftmostInIsOne }
    ensures one { EachMatchesAreOne }
    ensures exists { EachInputHasMatches }
    ensures apart { EachMatchesAreApart }
    ensures covered { EachStartIsCovered }
{}

/// Where a scan is idle, no run that began before accepts, for any bytes that follow: a match
/// begins there or later. Where its first NFA state is not the unanchored start, some run that
/// began before is in that state. This holds of a scan for the preferred match from the unanchored
/// start.
pub fn idle_law()
    ensures fresh { EachIdleIsFresh }
    ensures busy { EachBusyHasBegun }
{}

/// Where the match of a scan is certain (`certain_match`), it is the preferred match of each text
/// that begins with the bytes that were scanned: nothing that follows changes its pattern or end.
pub fn certain_law()
    ensures { EachCertainIsPreferred }
{}
