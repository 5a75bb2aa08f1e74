//! Laws of searches over the NFA of patterns and of the parts of texts, as contracts of public
//! functions.

ghost use Rattle.determinize_regex.specs.Laws.{EachAnchoredListIsOf, EachBoundaryIsDecided, EachLeftmostInIsOf, EachListIsOf, EachMatchesAreOf, EachReplacedIsJoined, WorkedParts, WorkedReplaced};

/// States that over the NFA of patterns, with the usual prefix, the leftmost match of an input is
/// that of the patterns, and all its matches are those of the patterns.
pub fn matches_of_law()
    ensures leftmost { EachLeftmostInIsOf }
    ensures all { EachMatchesAreOf }
{}

/// States that over the NFA of patterns the list of a walk under `All` at a position, as of
/// `Dfa::patterns_after`, has the patterns with a match that ends there: from the anchored start
/// those that match from the start of the text, from the unanchored one those that match from any
/// position. The one whose match begins earliest is first, and of those that begin at one position
/// the earlier pattern.
pub fn patterns_at_law()
    ensures anchored { EachAnchoredListIsOf }
    ensures unanchored { EachListIsOf }
{}

/// States that `is_boundary` says whether a `str` of these bytes may be cut at the index.
#[tactic(auto, using(crate::proofs::Boundaries::decides_boundary))]
pub fn boundary_law()
    ensures { EachBoundaryIsDecided }
{}

/// States that a text with other bytes in place of its matches is its parts, joined by these bytes,
/// and what both are of `a,b,` and its commas.
#[tactic(auto, using(crate::proofs::Splitting::each_replaced_is_joined))]
pub fn parts_law()
    ensures joined { EachReplacedIsJoined }
    ensures parts { WorkedParts }
    ensures replaced { WorkedReplaced }
{}
