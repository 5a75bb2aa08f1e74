//! All matches of an input, in a number of steps linear in its length, for a given NFA or DFA.
//!
//! A search for the leftmost match may read far past its end, and the search for the next one reads
//! the same bytes again: by `find_all` of `determinize_find`, all matches of `[^z]*z|a` over
//! `aaa..` take quadratic time. Here the searches go from match to match, and stop where one before
//! has found that no match follows. [`dense`] walks by a whole DFA, and marks pairs of a position
//! and a row. [`linear`] goes depth first over pairs of a position and an NFA state, and needs no
//! DFA. [`lexer`] finds tokens by longest match, by the walks of [`dense`].
#![tactic(auto)]

mod assertions;
mod choices;
pub mod dense;
mod in_turn;
pub mod laws;
pub mod lexer;
pub mod linear;
mod matcher;
mod row_marks;
mod starts;
pub mod tries;
mod visited;

pub use linear::{find_all, find_all_counted};
pub use tries::Tries;
