//! The id of a cached state: the offset of its row in the transition table.

ghost use Rattle.std.specs.Prelude.{◌≡◌, ◌<◌, ◌≤◌, ◌*◌, ◌/◌};

use determinize_engine::state_table::MAX_STATES;
use std::marker::Model;

/// The number of units: the bytes, and the end of input (EOI).
pub(crate) const UNITS: usize = 257;

/// The number of columns of a row: a target for each unit, and the tag of the state.
pub(crate) const COLUMNS: usize = UNITS + 1;

/// The id of a cached state, seen as the state's index.
///
/// It is premultiplied: it stores the offset of the state's row, so that a search only adds the
/// column of a unit to it to find the next id.
#[derive(Clone, Copy)]
pub struct LazyStateId {
    row: usize,
}

impl Model for LazyStateId {
    ghost use Rattle.std.specs.Prelude.{◌≡◌, ℕ, ◌*◌, ◌/◌, ◌≤◌};
    ghost use Rattle.std.below.core.specs.declared.int.u32.TheConstants.{MAX};
    ghost use Rattle.determinize_table.specs.declared.state_id.TheConstants.{COLUMNS};

    ghost Value = { ℕ };

    ghost view = { λ id. id.row / COLUMNS };

    ghost invariant = { λ id. (id.row ≡ id.row / COLUMNS * COLUMNS) × (id.row ≤ MAX) };

    ghost inverse = { λ n. record { row = n * COLUMNS } };
}

impl LazyStateId {
    /// Returns the id of the state at an index.
    pub(crate) fn from_index(index: usize) -> LazyStateId
        requires { index < MAX_STATES }
        ensures { result ≡ index }
    {
        LazyStateId {
            row: index * COLUMNS,
        }
    }

    /// Returns the id of the state whose row has this offset.
    #[inline(always)]
    pub(crate) fn from_row(row: u32) -> LazyStateId
        requires { row ≡ row / COLUMNS * COLUMNS }
        ensures { result ≡ row / COLUMNS }
    {
        LazyStateId { row: row as usize }
    }

    /// Returns the index of the state.
    #[inline(always)]
    pub(crate) fn index(self) -> usize
        ensures value { result ≡ self }
        ensures limit { result ≤ MAX_STATES }
    {
        self.row / COLUMNS
    }

    /// Returns the offset of the state's row.
    #[inline(always)]
    pub fn row(self) -> usize
        ensures { result ≡ self * COLUMNS }
    {
        self.row
    }

    /// Returns the offset of the state's row as it is stored in a row.
    pub(crate) fn entry(self) -> u32
        ensures { result ≡ self * COLUMNS }
    {
        self.row as u32
    }
}
