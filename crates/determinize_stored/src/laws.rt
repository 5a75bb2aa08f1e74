//! Laws of stored DFAs, as public functions with empty bodies.

ghost use Rattle.determinize_dense.specs.Bytes.{IsWhole, Stored};
ghost use Rattle.determinize_dense.specs.Reading.{IsDead};
ghost use Rattle.determinize_stored.specs.Reading.{FindsAll, HasDeadRow};

/// A search of what is stored of a DFA returns what a search of the DFA does: the last match of the
/// walk over the text of the input.
pub fn search_law()
    ensures { FindsAll }
{}

/// If row 0 lists no pattern and follows itself, no match follows it.
pub fn dead_law()
    ensures { (s : Stored) → IsWhole s → HasDeadRow s.table → IsDead s.table 0 }
{}
