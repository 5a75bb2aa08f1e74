//! The leftmost match by one anchored search after another.
//!
//! It takes any NFA that reads forward, with a prefix or without, and no second one. An input may
//! be read once from each index of its range, or only from its start if it is anchored.

ghost use Rattle.std.specs.Prelude.{◌≡◌, ◌≤◌, cond, false, None, IfOk};
ghost use Rattle.std.specs.Option.{IfSome};
ghost use Rattle.determinize_below.specs.declared.search.MatchKind.TheVariants as kinds;
ghost use Rattle.determinize_find.specs.LeftmostIn as inputs;
ghost use Rattle.determinize_find.specs.Private.BestAt.{IsBestIn};

use crate::finder::Finder;
use determinize_below::{Anchored, Input, Match, NFA};
use determinize_lazy::Engine;
use std::alloc::{Allocator, Global};
use std::marker::Model;

/// A search for the leftmost match by one engine, which searches from each index of a range in
/// turn. If the input is anchored, or the NFA has one start state for both modes, it searches only
/// from the start of the range.
#[derive(Drop)]
pub struct Plain<'n, E: Engine, N: Allocator = Global> {
    nfa: &'n NFA<N>,
    engine: E,
}

impl<'n, E: Engine, N: Allocator> Model for Plain<'n, E, N> {
    ghost use Rattle.determinize_engine.specs.Engines.{EngineValue};
    ghost use Rattle.determinize_find.specs.Private.Plains.{IsPlain};

    ghost Value = { EngineValue };

    ghost view = { λ p. E.engine p.engine };

    ghost invariant = { λ p. IsPlain p.nfa.now (E.engine p.engine) };
}

impl<'n, E: Engine, N: Allocator> Plain<'n, E, N> {
    /// Returns a search by an engine for this NFA under `MatchKind::LeftmostFirst`. The NFA must
    /// read forward, and needs no prefix. If its two starts are one state, each input is anchored.
    /// Does not allocate, and no search does if the engine does not.
    pub fn new(nfa: &'n NFA<N>, engine: E) -> Plain<'n, E, N>
        requires nfa { nfa.now ≡ (E.engine engine).nfa }
        requires kind { (E.engine engine).kind ≡ kinds.LeftmostFirst }
        requires forward { (E.engine engine).nfa.reverse ≡ false }
        ensures { result ≡ E.engine engine }
    {
        Plain { nfa, engine }
    }

    /// Returns the engine, with all that its cache holds.
    pub fn into_engine(self) -> E
        ensures { E.engine result ≡ self.entry }
    {
        self.engine
    }

    /// Returns the most preferred match that begins at this index of the range, if any.
    fn find_at(&mut self, input: &Input<'_>, at: usize) -> Result<Option<Match>, E::Error>
        requires start { input.now.start ≤ at }
        requires end { at ≤ input.now.end }
        ensures best { IfOk result (λ found. IsBestIn self.old.nfa input.now at found) }
        ensures within { IfOk result (λ found. IfSome found
            (λ m. (m.start ≡ at) × (at ≤ m.end) × (m.end ≤ input.now.end))) }
        ensures same { self.new ≡ self.old }
    {
        let from = input.from_index(at).anchored(Anchored::Yes);
        let Some(found) = self.engine.search_input(&from)? else {
            return Ok(None);
        };
        Ok(Some(Match {
            pattern: found.pattern,
            start: at,
            end: found.offset,
        }))
    }
}

impl<'n, E: Engine, N: Allocator> Finder for Plain<'n, E, N> {
    type Error = E::Error;

    ghost nfa = { λ p. p.nfa };

    fn find(&mut self, input: &Input<'_>) -> Result<Option<Match>, E::Error> {
        if input.is_done() {
            return Ok(None);
        }
        let latest = latest_start(self.nfa, input);
        for at in input.start()..latest {
            if let Some(found) = self.find_at(input, at)? {
                return Ok(Some(found));
            }
        }
        self.find_at(input, latest)
    }
}

/// Returns the last index of the range at which a match may begin.
fn latest_start<N: Allocator>(nfa: &NFA<N>, input: &Input<'_>) -> usize
    ensures { result ≡ cond (inputs.is_anchored nfa.now input.now.anchored)
        input.now.start input.now.end }
{
    let has_one_start = nfa.start_unanchored() == nfa.start_anchored();
    if has_one_start || input.get_anchored().is_anchored() {
        input.start()
    } else {
        input.end()
    }
}
