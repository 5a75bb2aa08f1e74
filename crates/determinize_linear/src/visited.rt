//! The pairs of a position and a state that a search has been at.

ghost use Rattle.std.specs.Prelude.{◌≡◌, ◌<◌, IfOk, [], false, length, not, replicate, slice_index_or, slice_set, true};
ghost use Rattle.determinize_linear.specs.Private.Marks.{is_marked, with_mark, without_marks};

use determinize_below::StateID;
use std::alloc::{AllocError, Allocator};
use std::marker::Model;

/// A mark for each pair of a position and a state.
#[derive(Drop)]
pub(crate) struct Visited<A: Allocator> {
    /// For each position, a mark for each state.
    rows: Vec<Vec<bool, A>, A>,
}

impl<A: Allocator> Model for Visited<A> {
    ghost use Rattle.std.specs.Prelude.{Bool, List, map};

    ghost Value = { List (List Bool) };

    ghost view = { λ v. map (λ row. row.items) v.rows.items };
}

/// Sets a mark, and returns whether it was not set.
fn set_mark(marks: &mut [bool], index: usize) -> bool
    requires { index < length marks.old }
    ensures new { result ≡ not (slice_index_or marks.old index false) }
    ensures after { marks.new ≡ slice_set marks.old index true }
{
    let is_new = !marks[index];
    marks[index] = true;
    is_new
}

impl<A: Allocator + Copy> Visited<A> {
    /// Returns a table without marks.
    pub(crate) fn new(alloc: A, positions: usize, states: usize) -> Result<Visited<A>, AllocError>
        ensures { IfOk result (λ v. v ≡ replicate positions (replicate states false)) }
    {
        let mut rows = Vec::new(alloc);
        for _ in 0..positions {
            rows.push(vec![in alloc; false; states]?)?;
        }
        Ok(Visited { rows })
    }
}

impl<A: Allocator> Visited<A> {
    /// Marks a pair, and returns whether it was not marked.
    pub(crate) fn insert(&mut self, at: usize, id: StateID) -> bool
        requires at { at < length self.old }
        requires id { id < length (slice_index_or self.old at []) }
        ensures new { result ≡ not (is_marked self.old (at, id)) }
        ensures after { self.new ≡ with_mark self.old at id }
    {
        set_mark(&mut self.rows[at], id.as_usize())
    }

    /// Removes the marks of a position.
    pub(crate) fn clear(&mut self, at: usize)
        requires { at < length self.old }
        ensures { self.new ≡ without_marks self.old at }
    {
        self.rows[at].fill(false);
    }
}
