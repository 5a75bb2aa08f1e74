//! The loop of a table: a cached state that has a transition to itself over many bytes, and the set
//! of the others. A search at that state passes bytes that are not in the set many at once.
//!
//! The table has no loop once a transition is added, since the set may then be too large, or once
//! it is cleared. A search that has followed cached transitions for some time finds it again.

ghost use Rattle.std.specs.Prelude.{◌≡◌, ◌<◌, ◌≤◌, IsTrue, length, slice_index_or};
ghost use Rattle.determinize_core.specs.Value.{dead};
ghost use Rattle.determinize_table.specs.Looping.{IsLoopOver, IsScanned, IsLoopOutside};
ghost use Rattle.determinize_table.specs.Rows.{table_of};

use crate::state_id::LazyStateId;
use crate::table::TransitionTable;
use byte_set::ByteSet;
use determinize_engine::scans;
use determinize_engine::text::Text;
use std::alloc::Allocator;

/// A cached state that has a transition to itself.
#[derive(Drop)]
pub(crate) struct Loop {
    /// The id of the state.
    pub(crate) id: LazyStateId,
    /// The bytes over which it may have a transition to another state, or none that is cached.
    pub(crate) leaving: ByteSet,
}

impl<A: Allocator + Copy> TransitionTable<A> {
    /// Returns the offset of the row of the loop's state, or `usize::MAX` if there is no loop.
    #[inline(always)]
    pub fn loop_row(&self) -> usize {
        match &self.looping {
            Some(looping) => looping.id.row(),
            None => usize::MAX,
        }
    }

    /// Returns whether a cached transition from a state over a byte has the state as its target.
    #[inline(always)]
    fn is_loop_over(&self, id: LazyStateId, byte: u8) -> bool
        requires { id < length self.now.states }
        ensures { IsTrue result → IsLoopOver (table_of self.now)
            (slice_index_or self.now.states id dead) byte }
    {
        match self.lookup(id, Some(byte)) {
            Some(next) => next.row() == id.row(),
            None => false,
        }
    }

    /// Returns the bytes over which a state may have a transition to another, or none cached.
    fn leaving(&self, id: LazyStateId) -> ByteSet
        requires { id < length self.now.states }
        ensures { IsLoopOutside (table_of self.now)
            (slice_index_or self.now.states id dead) result }
    {
        let mut leaving = [true; 256];
        for byte in 0..=u8::MAX {
            if self.is_loop_over(id, byte) {
                leaving[usize::from(byte)] = false;
            }
        }
        ByteSet::new(&leaving)
    }

    /// Makes a cached state the loop of the table, if it has a transition to itself over this byte
    /// and no search ends at it.
    pub fn learn(&mut self, id: LazyStateId, byte: u8)
        requires { id < length self.old.states }
        ensures { self.new ≡ self.old }
    {
        if id.row() == self.loop_row() || self.tag(id).is_last(true) {
            return;
        }
        if !self.is_loop_over(id, byte) {
            return;
        }
        let leaving = self.leaving(id);
        self.looping = Some(Loop { id, leaving });
    }

    /// Returns the number of bytes of a text that are read once a search at a state has passed
    /// those over which it has a transition to itself: `read` if the state is not that of the loop,
    /// or if one of the next sixteen bytes may be another.
    ///
    /// - `read` is the number of bytes read before.
    #[inline(always)]
    pub fn scan(&self, id: LazyStateId, text: &Text<'_>, read: usize) -> usize
        requires id { id < length self.now.states }
        requires read { read ≤ length text.now.bytes }
        ensures { IsScanned (table_of self.now) (slice_index_or self.now.states id dead)
            text.now.bytes read result }
    {
        let Some(looping) = &self.looping else {
            return read;
        };
        if looping.id.row() != id.row() {
            return read;
        }
        scans::scan(&looping.leaving, text, read)
    }
}
