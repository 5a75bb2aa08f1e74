//! Laws of whole DFAs, as public functions with empty bodies.

ghost use Rattle.determinize_dense.specs.Dfa.{EachCountIsOne};
ghost use Rattle.determinize_dense.specs.Least.{LeastIsLeast};
ghost use Rattle.determinize_dense.specs.Meaning.{EachTextIsListed};

/// After the units of each text, a DFA of a valid NFA lists the patterns with a match that ends
/// where the text ends, most preferred first, under `MatchKind::All`. Under
/// `MatchKind::LeftmostFirst` it lists the pattern of the most preferred accepting run if this run
/// ends there, and else nothing.
pub fn means_law()
    ensures { EachTextIsListed }
{}

/// Of all tables that list the same patterns along all lists of units, none has fewer rows than one
/// whose rows are all reached, and any two of them apart.
///
/// A unit may follow the end of input there, but not in a text. So a table that lists the same
/// patterns after each text may have fewer rows.
pub fn least_law()
    ensures { LeastIsLeast }
{}

/// An NFA has one number of states under a match kind, and more than `m` states are reached only if
/// `m` is below it. So `Dfa::build` returns `TooManyStates` only if the states are more than the
/// limit, and a DFA only if they are not.
pub fn states_law()
    ensures { EachCountIsOne }
{}
