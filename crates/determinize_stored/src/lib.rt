//! A whole DFA that is kept as bytes, and searched without its NFA.
//!
//! `Dfa::to_bytes` of `determinize_dense` writes a DFA, and [`StoredDfa::from_bytes`] reads it. It
//! takes any bytes, checks all of them, copies nothing and allocates nothing: a [`StoredDfa`]
//! borrows the bytes.
//!
//! - `stored`: the type, and reading by hand. `format`: what the bytes are. `search`: searches.
//!   `words`: numbers of four bytes. `error`: what is wrong with bytes. `laws`: what a search
//!   finds if the bytes are those of a DFA.
#![tactic(auto)]

pub mod error;
mod format;
pub mod laws;
pub mod search;
pub mod stored;
mod words;

pub use crate::error::{FormatError, FormatErrorKind};
pub use crate::stored::StoredDfa;
