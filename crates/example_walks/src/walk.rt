//! Makes the walk of a job.

use crate::error::TextError;
use crate::fields::Fields;
use determinize_below::{MatchKind, NFA};
use determinize_core::determinize;
use determinize_core::state::State;
use std::alloc::{AllocError, Allocator, Global};

/// The text of a walk, and the bytes around it.
#[derive(Drop)]
pub struct Place<A: Allocator = Global> {
    /// The byte behind the text.
    pub behind: Option<u8>,
    /// The text.
    pub text: Vec<u8, A>,
    /// The byte after the text.
    pub ahead: Option<u8>,
}

impl<A: Allocator> Place<A> {
    /// Returns the place of a walk.
    pub fn of(alloc: A, fields: &Fields<'_>) -> Result<Place<A>, TextError> {
        Ok(Place {
            behind: fields.look_behind()?,
            ahead: fields.look_ahead()?,
            text: fields.text(alloc)?,
        })
    }
}

/// Returns the states of a walk.
pub fn walk<A: Allocator + Copy>(
    alloc: A,
    fields: &Fields<'_>,
) -> Result<Vec<State<A>, A>, TextError> {
    let kind = fields.match_kind()?;
    let place = Place::of(alloc, fields)?;
    let states = walk_over(alloc, &fields.nfa(alloc)?, kind, &place)?;
    Ok(states)
}

/// Returns the states of a walk over an NFA, from its anchored start state.
pub fn walk_over<A: Allocator + Copy, B: Allocator>(
    alloc: A,
    nfa: &NFA<B>,
    kind: MatchKind,
    place: &Place<B>,
) -> Result<Vec<State<A>, A>, AllocError> {
    let (start, behind, text) = (nfa.start_anchored(), place.behind, place.text.as_slice());
    match place.ahead {
        None => determinize::walk(alloc, nfa, kind, start, behind, text),
        ahead => determinize::walk_between(alloc, nfa, kind, start, behind, text, ahead),
    }
}
