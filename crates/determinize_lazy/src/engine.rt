//! A lazy DFA as an engine. The clauses are those of the trait, and those of `Lazy` on the cache.

ghost use Rattle.std.specs.Prelude.{Decides, ◌≡◌, None, Ok, false, true, IfOk};
ghost use Rattle.determinize_lazy.specs.Clauses.{has_start, HasMatch, HasSearchedIn, is_done, IsSearchResult};

use crate::lazy::LazyDfa;
use determinize_below::{AsNfa, HalfMatch, Input};
use determinize_engine::engine::Engine;
use std::alloc::{AllocError, Allocator};

impl<R: AsNfa, A: Allocator + Copy> Engine for LazyDfa<R, A> {
    type Error = AllocError;

    ghost engine = { λ v. record { nfa = v.nfa; kind = v.kind; limit = v.limit } };

    fn search_input(&mut self, input: &Input<'_>) -> Result<Option<HalfMatch>, AllocError>
        requires { has_start input.now.anchored ≡ true }
        ensures search { IfOk result
            (λ found. IsSearchResult self.old.nfa self.old.kind input.now found) }
        ensures done { is_done input.now ≡ true → result ≡ Ok None }
        ensures cache { HasSearchedIn false self.old input.now result self.new }
    {
        self.search_input(input)
    }

    fn is_match(&mut self, input: &Input<'_>) -> Result<bool, AllocError>
        requires { has_start input.now.anchored ≡ true }
        ensures accepts { is_done input.now ≡ false → IfOk result
            (λ found. Decides found (HasMatch self.old.nfa input.now)) }
        ensures done { is_done input.now ≡ true → result ≡ Ok false }
        ensures cache { HasSearchedIn true self.old input.now result self.new }
    {
        self.is_match(input)
    }
}
