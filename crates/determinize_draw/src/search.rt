//! The graph of the part of a whole DFA that searches in one anchored mode enter.

ghost use Rattle.std.specs.Prelude.{◌≡◌, true};
ghost use Rattle.determinize_engine.specs.Searches.{has_start};

use crate::dfa::{write_row, write_starts};
use crate::targets::write_head;
use determinize_below::Anchored;
use determinize_dense::{Automaton, RowId};
use std::alloc::{AllocError, Allocator, Global};
use std::fmt;

/// The graph of the rows that anchored searches enter, or unanchored ones, which `Display` writes
/// as a `DfaGraph` does.
#[derive(Drop)]
pub struct SearchGraph<'d, D: Automaton, A: Allocator = Global> {
    dfa: &'d D,
    is_anchored: bool,
    /// Whether searches enter each row.
    entered: Vec<bool, A>,
}

impl<'d, D: Automaton, A: Allocator + Copy> SearchGraph<'d, D, A> {
    /// Returns the graph of the rows that follow the starts of an anchored mode.
    /// `Anchored::Pattern` has no start state and is not accepted.
    pub fn new(
        alloc: A,
        dfa: &'d D,
        anchored: Anchored,
    ) -> Result<SearchGraph<'d, D, A>, AllocError>
        requires { has_start anchored ≡ true }
    {
        let is_anchored = anchored.is_anchored();
        let entered = entered(alloc, dfa, is_anchored)?;
        Ok(SearchGraph {
            dfa,
            is_anchored,
            entered,
        })
    }
}

impl<'d, D: Automaton, A: Allocator> fmt::Display for SearchGraph<'d, D, A> {
    fn fmt<W: fmt::Write>(&self, f: &mut fmt::Formatter<W>) -> fmt::Result {
        write_head(f, "dfa")?;
        write_starts(f, self.dfa, self.is_anchored)?;
        for (row, is_entered) in self.dfa.rows().zip(self.entered.iter()) {
            if *is_entered {
                write_row(f, self.dfa, row)?;
            }
        }
        write!(f, "}}\n")
    }
}

/// Marks a row, and adds it to the list of those to follow if it was not marked.
fn enter<A: Allocator>(
    entered: &mut [bool],
    left: &mut Vec<RowId, A>,
    row: RowId,
) -> Result<(), AllocError> {
    if let Some(is_entered) = entered.get_mut(row.as_usize()) {
        if !*is_entered {
            *is_entered = true;
            left.push(row)?;
        }
    }
    Ok(())
}

/// Returns whether searches enter each row.
fn entered<D: Automaton, A: Allocator + Copy>(
    alloc: A,
    dfa: &D,
    is_anchored: bool,
) -> Result<Vec<bool, A>, AllocError> {
    let mut entered = vec![in alloc; false; dfa.len()]?;
    let mut left = Vec::new(alloc);
    let first = dfa.first_row(is_anchored, None);
    enter(entered.as_mut_slice(), &mut left, first)?;
    for byte in 0..=u8::MAX {
        let row = dfa.first_row(is_anchored, Some(byte));
        enter(entered.as_mut_slice(), &mut left, row)?;
    }
    // Each row is added to the list once.
    for _ in 0..dfa.len() {
        let Some(row) = left.pop() else {
            break;
        };
        for byte in 0..=u8::MAX {
            let next = dfa.next_state(row, byte);
            enter(entered.as_mut_slice(), &mut left, next)?;
        }
        enter(entered.as_mut_slice(), &mut left, dfa.next_eoi_state(row))?;
    }
    Ok(entered)
}
