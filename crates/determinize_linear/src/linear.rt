//! All matches by one search over pairs of a position and a state.
//!
//! The search from a position goes depth first, the preferred choices first, so the first pair at a
//! `Match` state is the end of the most preferred match. A search that ends without one has been at
//! pairs from which no run accepts, wherever it began, so later searches skip them. After a
//! match this still holds of all pairs after it, since a run stays at its position or moves by
//! one: only the marks of the position where the match ends are removed. Matches begin and end in
//! order, so no search is at an earlier position again.

ghost use Rattle.std.specs.Prelude.{◌≡◌, ◌≤◌, ◌-◌, ◌+◌, All, IfOk, IsTrue, None, OnOk, false, length, option_map, true};
ghost use Rattle.std.specs.Option.{IfNone, IfSome};
ghost use Rattle.determinize_below.specs.Nfa.{IsAccepted};
ghost use Rattle.determinize_below.specs.Semantics as semantics;
ghost use Rattle.determinize_engine.specs.Searches.{has_start};
ghost use Rattle.determinize_find.specs.LeftmostIn as inputs;
ghost use Rattle.determinize_find.specs.Matches.{AreMatches};
ghost use Rattle.determinize_find.specs.Private.BestAt.{IsBestAt, from_index};
ghost use Rattle.determinize_linear.specs.Private.Paid.{IsPaid, end_of};
ghost use Rattle.determinize_linear.specs.Private.Left.{left, most_choices};
ghost use Rattle.determinize_linear.specs.Private.Spent.{HasPlaces, IsSpent};
ghost use Rattle.determinize_linear.specs.Tries.{most_tries};

use crate::choices::push_choices;
use crate::in_turn::{find_all_by, is_anchored};
use crate::matcher::Matcher;
use crate::tries::{Counter, Tries};
use crate::visited::Visited;
use determinize_below::nfa::State;
use determinize_below::{HalfMatch, Input, Match, NFA, StateID};
use determinize_engine::text::Text;
use std::alloc::{AllocError, Allocator};
use std::sync::ledger::Ledger;

/// Returns the pattern and the end of the most preferred match that begins at a position of a text,
/// if any.
fn search_from<N: Allocator, A: Allocator, C: Counter>(
    nfa: &NFA<N>,
    text: &Text<'_>,
    from: usize,
    visited: &mut Visited<A>,
    stack: &mut Vec<(usize, StateID), A>,
    counter: &mut C,
) -> Result<Option<HalfMatch>, AllocError>
    requires accepted { IsAccepted nfa.now }
    requires forward { nfa.now.reverse ≡ false }
    requires within { from ≤ length text.now.bytes }
    requires places { HasPlaces nfa.now text.now visited.old }
    requires spent { IsSpent nfa.now text.now from visited.old }
    ensures best { IfOk result
        (λ found. IsBestAt nfa.now text.now from (option_map (from_index from) found)) }
    ensures within { IfOk result
        (λ found. IfSome found (λ m. m.offset ≤ length text.now.bytes)) }
    ensures places { OnOk result (HasPlaces nfa.now text.now visited.new) }
    ensures spent { IfOk result
        (λ found. IsSpent nfa.now text.now (end_of from found) visited.new) }
    ensures paid { IfOk result (λ found. IfSome found (λ m.
        IsPaid (λ k. left nfa.now text.now k visited.new) (most_choices nfa.now)
        (left nfa.now text.now from visited.old) from m.offset 1
        (C.total counter.old) (C.total counter.new))) }
    ensures unpaid { IfOk result (λ found. IfNone found
        (C.total counter.new + left nfa.now text.now from visited.new
        ≤ C.total counter.old + 1 + left nfa.now text.now from visited.old)) }
    ensures bounded { C.total counter.new
        ≤ C.total counter.old + 1 + left nfa.now text.now from visited.old }
    ensures counted { IsTrue C.counts → IfOk result
        (λ found. C.total counter.old + end_of from found + 1 ≤ C.total counter.new + from) }
{
    stack.clear();
    stack.push((from, nfa.start_anchored()))?;
    while let Some((at, id)) = stack.pop() {
        counter.count();
        if let State::Match { pattern_id } = nfa.state(id) {
            visited.clear(at);
            return Ok(Some(HalfMatch::new(*pattern_id, at)));
        }
        if visited.insert(at, id) {
            push_choices(nfa, text, at, id, stack)?;
        }
    }
    Ok(None)
}

/// A search over the pairs of an NFA: those where it was, and those from which it continues.
#[derive(Drop)]
struct DepthFirst<'n, N: Allocator, A: Allocator> {
    nfa: &'n NFA<N>,
    visited: Visited<A>,
    stack: Vec<(usize, StateID), A>,
}

impl<'n, N: Allocator, A: Allocator> Matcher for DepthFirst<'n, N, A> {
    type Error = AllocError;

    ghost By = { semantics.Nfa };

    ghost by = { λ s. s.nfa.now };

    ghost finds = { λ nfa other. nfa ≡ other };

    ghost is_ready = { λ s text k. IsAccepted s.nfa.now × (s.nfa.now.reverse ≡ false)
        × HasPlaces s.nfa.now text s.visited × IsSpent s.nfa.now text k s.visited };

    ghost left = { λ s text k. left s.nfa.now text k s.visited };

    ghost most = { most_choices };

    ghost extra = { 1 };

    fn search_from<C: Counter>(
        &mut self,
        text: &Text<'_>,
        from: usize,
        counter: &mut C,
    ) -> Result<Option<HalfMatch>, AllocError> {
        let nfa = self.nfa;
        search_from(nfa, text, from, &mut self.visited, &mut self.stack, counter)
    }
}

/// Returns all matches of an input, counted or not.
fn find_all_with<N: Allocator, A: Allocator + Copy, C: Counter>(
    alloc: A,
    nfa: &NFA<N>,
    input: &Input<'_>,
    counter: &mut C,
) -> Result<Vec<Match, A>, AllocError>
    requires forward { nfa.now.reverse ≡ false }
    requires start { has_start input.now.anchored ≡ true }
    ensures all { IfOk result (λ found. AreMatches nfa.now input.now None found.items) }
    ensures linear { IsTrue C.counts → C.total counter.new ≤ C.total counter.old
        + most_tries nfa.now (input.now.end - input.now.start) }
    ensures counted { IsTrue C.counts → inputs.is_anchored nfa.now input.now.anchored ≡ false
        → IfOk result (λ _. C.total counter.old + (input.now.end + 1 - input.now.start)
        ≤ C.total counter.new) }
    ensures ends { IsTrue C.counts → IfOk result (λ found. All (λ m. C.total counter.old
        + (m.end + 1 - input.now.start) ≤ C.total counter.new) found.items) }
{
    if input.start() > input.end() {
        return Ok(Vec::new(alloc));
    }
    let text = Text::of_input(input, false);
    let mut search = DepthFirst {
        nfa,
        visited: Visited::new(alloc, text.len() + 1, nfa.len())?,
        stack: Vec::new(alloc),
    };
    find_all_by(alloc, &mut search, input, is_anchored(nfa, input), counter)
}

/// Returns all matches of an input, in their order, as `find_all` of `determinize_find`.
///
/// The NFA must read forward; it needs no prefix. If its two starts are one state, the input is
/// anchored. The bytes next to the range are seen by assertions. The number of tries is linear in
/// the length of the range, as [`find_all_counted`] says. The memory is, too: a list for each index
/// of the range, with a byte for each state of the NFA.
pub fn find_all<N: Allocator, A: Allocator + Copy>(
    alloc: A,
    nfa: &NFA<N>,
    input: &Input<'_>,
) -> Result<Vec<Match, A>, AllocError>
    requires forward { nfa.now.reverse ≡ false }
    requires start { has_start input.now.anchored ≡ true }
    ensures { IfOk result (λ found. AreMatches nfa.now input.now None found.items) }
{
    find_all_with(alloc, nfa, input, &mut ())
}

/// Returns the same as [`find_all`], and counts the tries: the pairs of a position and a state that
/// the search takes from its stack. On error too, they are at most `3 * (n + e + 1) * (bytes + 2)`,
/// for n states and e epsilon transitions of the NFA, and the bytes of the range. On success they
/// are at least one for each index from the start of the range to the end of each match and, if the
/// input is not anchored, to the end of the range.
pub fn find_all_counted<N: Allocator, A: Allocator + Copy, L: Ledger>(
    alloc: A,
    nfa: &NFA<N>,
    input: &Input<'_>,
    tries: &mut Tries<L>,
) -> Result<Vec<Match, A>, AllocError>
    requires forward { nfa.now.reverse ≡ false }
    requires start { has_start input.now.anchored ≡ true }
    ensures all { IfOk result (λ found. AreMatches nfa.now input.now None found.items) }
    ensures linear { tries.new ≤ tries.old
        + most_tries nfa.now (input.now.end - input.now.start) }
    ensures counted { inputs.is_anchored nfa.now input.now.anchored ≡ false → IfOk result
        (λ _. tries.old + (input.now.end + 1 - input.now.start) ≤ tries.new) }
    ensures ends { IfOk result (λ found. All (λ m. tries.old
        + (m.end + 1 - input.now.start) ≤ tries.new) found.items) }
{
    find_all_with(alloc, nfa, input, tries)
}
