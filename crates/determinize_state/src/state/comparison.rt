//! Equality, order and hash of states, all by their bytes. Two states are equal if and only if
//! their values are.
#![tactic(auto, using(crate::proofs::encoding::EqualBytes::comparisons))]

ghost use Rattle.std.specs.Prelude.{◌++◌, ◌∷◌, [], length};
ghost use Rattle.std.specs.Ordering.{as_partial_cmp};
ghost use Rattle.std.specs.Cmp.{partial_order_from_own_ties};
ghost use Rattle.std.specs.Cmp.Rules.{comparing};
ghost use Rattle.std.specs.Hash as fed;
ghost use Rattle.std.proofs.Common.{ap, rules};
ghost use Rattle.determinize_state.specs.Equality.{by_bytes, Decides-same, same, same-ties};
ghost use Rattle.determinize_state.specs.Spelling.{spell};

use crate::state::State;
use std::alloc::Allocator;
use std::cmp::Ordering;
use std::hash::{Hash, Hasher};

/// Compares the bytes.
impl<A: Allocator> PartialEq for State<A> {
    ghost eq = { same };

    ghost laws = { Prim.search (comparing, rules) };

    fn eq(&self, other: &State<A>) -> bool {
        self.as_bytes() == other.as_bytes()
    }
}

impl<A: Allocator> Eq for State<A> {
    ghost laws = { Prim.search (comparing, rules) };
}

/// Compares the bytes lexicographically.
impl<A: Allocator> Ord for State<A> {
    ghost cmp = { by_bytes };

    ghost total = { Prim.search (comparing, rules) };

    ghost matches_partial_cmp = { Prim.search (comparing, rules) };

    ghost matches_eq = { same-ties };

    fn cmp(&self, other: &State<A>) -> Ordering {
        self.as_bytes().cmp(other.as_bytes())
    }
}

impl<A: Allocator> PartialOrd for State<A> {
    ghost partial_cmp = { as_partial_cmp by_bytes };

    ghost laws = { partial_order_from_own_ties (Prim.search (comparing, rules)) same-ties };

    fn partial_cmp(&self, other: &State<A>) -> Option<Ordering> {
        Some(self.cmp(other))
    }
}

/// Hashes the length of the bytes and then the bytes, as a slice does.
impl<A: Allocator> Hash for State<A> {
    ghost hash_input = { λ s. fed.usize (length (spell s)) ++ spell s ∷ [] };

    ghost respects_eq = { λ s t e.
        ap (λ v. fed.usize (length (spell v)) ++ spell v ∷ []) ((Decides-same s t).0 e) };

    fn hash<H: Hasher>(&self, state: &mut H) {
        let bytes = self.as_bytes();
        state.write_usize(bytes.len());
        state.write(bytes);
    }
}
