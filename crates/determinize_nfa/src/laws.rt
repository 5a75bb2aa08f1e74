//! Laws of runs, as public functions with empty bodies.

ghost use Rattle.determinize_nfa.specs.Laws.{EachReadingIsMirrored, EachRunMoves, EachRunReadsForward};

/// The runs of an NFA from a position of a text are its runs over the rest of the text, with the
/// same choices. A run does not accept before the position where it begins.
pub fn shift_law()
    ensures moves { EachRunMoves }
    ensures forward { EachRunReadsForward }
{}

/// A text up to a position, read in the other direction, has before and after each of its positions
/// what the text has after and before the same place.
#[tactic(auto, using(crate::proofs::runs::Mirrors::each_reading_is_mirrored))]
pub fn mirror_law()
    ensures { EachReadingIsMirrored }
{}
