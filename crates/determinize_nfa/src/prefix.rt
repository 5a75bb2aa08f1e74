//! The prefix `(?s-u:.)*?` of an unanchored NFA, after which a match may begin at any index.

ghost use Rattle.std.specs.Prelude.{◌≡◌, ℕ, true, nat_eq};
ghost use Rattle.std.specs.List.{list_any};
ghost use Rattle.std.specs.Bool.{Decides};
ghost use Rattle.determinize_below.specs.Semantics.{state_at};
ghost use Rattle.determinize_below.specs.Node.{node_of};
ghost use Rattle.determinize_nfa.specs.Prefix as prefixes;
ghost use Rattle.determinize_nfa.specs.Prefix.{HasPrefix, HasPrefixApart};
ghost use Rattle.determinize_nfa.specs.Private.AnyByte.{passes_any, second_or};

use determinize_below::nfa::{State, Transition};
use determinize_below::{NFA, StateID};
use std::alloc::Allocator;

/// Returns whether the id is one of these.
fn have_id(ids: &[StateID], id: StateID) -> bool
    ensures { result ≡ list_any (nat_eq id) ids.now }
{
    ids.contains(&id)
}

/// Returns whether some transition has the id as its target.
fn have_target(transitions: &[Transition], id: StateID) -> bool
    ensures { result ≡ list_any (λ t. nat_eq id t.next) transitions.now }
{
    for t in transitions {
        if id == t.next {
            return true;
        }
    }
    false
}

/// Returns whether the state has a transition to the id, over some byte or without input.
pub(crate) fn leads_to<A: Allocator>(state: &State<A>, id: StateID) -> bool
    ensures { result ≡ prefixes.leads_to id (node_of state.now) }
{
    match state {
        State::ByteRange { trans } => id == trans.next,
        State::Sparse(sparse) => have_target(sparse.transitions.as_slice(), id),
        State::Dense(dense) => id != StateID::ZERO && have_id(dense.transitions.as_slice(), id),
        State::Look { next, .. } | State::Capture { next } => id == *next,
        State::Union { alternates } => have_id(alternates.as_slice(), id),
        State::BinaryUnion { alt1, alt2 } => id == *alt1 || id == *alt2,
        State::Fail | State::Match { .. } => false,
    }
}

/// Returns whether the state is the transition over all bytes to the id.
fn is_any_byte<A: Allocator>(state: &State<A>, next: StateID) -> bool
    ensures { result ≡ passes_any next (node_of state.now) }
{
    match state {
        State::ByteRange { trans } => { trans.start == 0 && trans.end == 255 && trans.next == next }
        _ => false,
    }
}

/// Returns whether no state other than `from` has a transition to the id.
fn leads_alone<N: Allocator>(nfa: &NFA<N>, id: StateID, from: StateID) -> bool
    ensures { Decides result ((s : ℕ)
        → prefixes.leads_to id (state_at nfa.now s) ≡ true → s ≡ from) }
{
    for index in 0..nfa.len() {
        let other = StateID::must(index);
        if other != from && leads_to(nfa.state(other), id) {
            return false;
        }
    }
    true
}

/// Returns whether the unanchored start of the NFA is its anchored start after the usual prefix,
/// `(?s-u:.)*?`: a `BinaryUnion` of the anchored start, which is preferred, and of a `ByteRange` of
/// all bytes back to the union. No other state may have a transition to the union.
pub fn has_prefix<N: Allocator>(nfa: &NFA<N>) -> bool
    ensures { Decides result (HasPrefix nfa.now) }
{
    let start = nfa.start_unanchored();
    let State::BinaryUnion { alt1, alt2 } = nfa.state(start) else {
        return false;
    };
    let (first, skip) = (*alt1, *alt2);
    if first != nfa.start_anchored() {
        return false;
    }
    if !is_any_byte(nfa.state(skip), start) {
        return false;
    }
    leads_alone(nfa, start, skip)
}

/// Returns the second alternate of a `BinaryUnion`, or `other` for any other state.
fn second_alternate<A: Allocator>(state: &State<A>, other: StateID) -> StateID
    ensures { result ≡ second_or (node_of state.now) other }
{
    match state {
        State::BinaryUnion { alt2, .. } => *alt2,
        _ => other,
    }
}

/// Returns whether the NFA has the usual prefix (`has_prefix`), and no state but the union has a
/// transition to the state that reads any byte. So a run that has left the prefix does not return.
pub fn has_prefix_apart<N: Allocator>(nfa: &NFA<N>) -> bool
    ensures { Decides result (HasPrefixApart nfa.now) }
{
    let start = nfa.start_unanchored();
    let skip = second_alternate(nfa.state(start), start);
    has_prefix(nfa) && leads_alone(nfa, skip, start)
}
