//! Laws of depth-first search and of walks in a graph, as contracts of public functions.

ghost use Rattle.std.specs.Prelude.{◌≡◌, nat_eq, [], ◌∷◌};
ghost use Rattle.ordered_reach.specs.Laws.{EachFirstIsPreferred, EachLabelIsListed, EachReachIsInOrder, EachReachIsInTurn, EachReachIsOne, EachWalkIsPath, small_graph, small_order};
ghost use Rattle.ordered_reach.specs.Reach.{member, none_held, ordered};
ghost use Rattle.ordered_reach.specs.Walks.{labels_within};

/// States that the computed depth-first search of a graph on numbers, whose edges go below some
/// bound, returns the one list of the reachable nodes in the order of their least paths, and that
/// it can be computed root by root. Three small examples follow.
pub fn reach_law()
    ensures in_order { EachReachIsInOrder }
    ensures only { EachReachIsOne }
    ensures in_turn { EachReachIsInTurn }
    ensures row { ordered nat_eq small_graph 5 none_held (0 ∷ []) ≡ 0 ∷ 1 ∷ 2 ∷ 3 ∷ [] }
    ensures row_held { ordered nat_eq small_graph 5 (member nat_eq (1 ∷ [])) (0 ∷ []) ≡ 0 ∷ 3 ∷ [] }
    ensures row_roots { ordered nat_eq small_graph 5 none_held (2 ∷ 7 ∷ 1 ∷ [])
        ≡ 2 ∷ 0 ∷ 1 ∷ 3 ∷ 7 ∷ [] }
{}

/// States that where all walks from a node end, a search without a set of visited nodes lists the
/// labels at their ends in the order of the walks, and that the walks are the paths that meet no
/// node twice. In the small example each node is its own label.
pub fn walks_law()
    ensures listed { EachLabelIsListed }
    ensures preferred { EachFirstIsPreferred }
    ensures loop_free { EachWalkIsPath }
    ensures row { labels_within small_order (λ x. x ∷ []) 4 0
        ≡ 0 ∷ 2 ∷ 1 ∷ 3 ∷ 3 ∷ 1 ∷ 3 ∷ [] }
{}
