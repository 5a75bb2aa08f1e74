//! Two facts about the cache that no call states: example walks, and how much a walk computes.

ghost use Rattle.determinize_lazy.specs.Clauses.{AreWorkedRows, EachWalkComputesFew};

/// Walks and searches over one cache by the definitions: how many transitions are computed and how
/// many states are cached after each series of walks, with room for all, for two states, for one
/// and for none, and after searches; and the last match in ranges of a haystack, in both
/// directions.
#[tactic(auto, using(crate::proofs::WorkedRows::are_worked_rows))]
pub fn cache_rows_law()
    ensures { AreWorkedRows }
{}

/// A walk through a cache computes at most one transition for each of its units.
#[tactic(auto, using(crate::proofs::walking::CachedWalks::each_walk_computes_few))]
pub fn walk_count_law()
    ensures { EachWalkComputesFew }
{}
