//! What a lazy DFA and a whole one have in common: searches of inputs.

ghost use Rattle.std.specs.Prelude.{Decides, ◌≡◌, Ok, None, false, true, IfOk};
ghost use Rattle.determinize_below.specs.Search.{is_done};
ghost use Rattle.determinize_engine.specs.Engines.{EngineValue};
ghost use Rattle.determinize_engine.specs.Searches.{HasMatch, IsSearchResult, has_start};

use determinize_below::{HalfMatch, Input};
use std::alloc::AllocError;
use std::convert::Infallible;

/// A DFA that searches inputs for the matches of one NFA under one match kind.
///
/// It is implemented for `Lazy` of `determinize_lazy`, and for a reference to a whole DFA of
/// `determinize_dense`, so that one whole DFA may serve several searches at once. A `&mut` to an
/// engine is an engine too, so that a search may borrow it.
pub trait Engine {
    /// The error of a search: `AllocError`, or `Infallible` if no search fails.
    type Error: Drop;

    ghost engine: { Self → EngineValue };

    /// Returns the last match of a search of an input, or `None` if no run accepts: as
    /// `Lazy::search_input`.
    fn search_input(&mut self, input: &Input<'_>) -> Result<Option<HalfMatch>, Self::Error>
        requires { has_start input.now.anchored ≡ true }
        ensures search { IfOk result
            (λ found. IsSearchResult (engine self.old).nfa (engine self.old).kind input.now found) }
        ensures done { is_done input.now ≡ true → result ≡ Ok None }
        ensures same { engine self.new ≡ engine self.old };

    /// Returns whether an input has a match, under both match kinds: as `Lazy::is_match`.
    fn is_match(&mut self, input: &Input<'_>) -> Result<bool, Self::Error>
        requires { has_start input.now.anchored ≡ true }
        ensures accepts { is_done input.now ≡ false → IfOk result
            (λ found. Decides found (HasMatch (engine self.old).nfa input.now)) }
        ensures done { is_done input.now ≡ true → result ≡ Ok false }
        ensures same { engine self.new ≡ engine self.old };
}

impl<E: Engine> Engine for &mut E {
    type Error = E::Error;

    ghost engine = { λ e. E.engine e.now };

    #[inline(always)]
    fn search_input(&mut self, input: &Input<'_>) -> Result<Option<HalfMatch>, E::Error> {
        (**self).search_input(input)
    }

    #[inline(always)]
    fn is_match(&mut self, input: &Input<'_>) -> Result<bool, E::Error> {
        (**self).is_match(input)
    }
}

/// An engine that cannot fail, as one whose error is `AllocError`: a whole DFA can then be paired
/// with a lazy one, as two engines of one error.
#[derive(Drop)]
pub struct WithAllocError<E>(pub E);

impl<E: Engine<Error = Infallible>> Engine for WithAllocError<E> {
    type Error = AllocError;

    ghost engine = { λ e. E.engine e.0 };

    #[inline(always)]
    fn search_input(&mut self, input: &Input<'_>) -> Result<Option<HalfMatch>, AllocError> {
        let Ok(found) = self.0.search_input(input);
        Ok(found)
    }

    #[inline(always)]
    fn is_match(&mut self, input: &Input<'_>) -> Result<bool, AllocError> {
        let Ok(found) = self.0.is_match(input);
        Ok(found)
    }
}
