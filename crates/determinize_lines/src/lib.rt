//! The lines of a text that have a match of patterns.
//!
//! [`Lines`] reads a text from any `Read`, and returns the lines that have a match, one by one: the
//! number of each, its offset in the text, its bytes and its matches. [`LineFinder`] finds the
//! first such line among lines that are in memory, and [`Blocks`] reads a text in blocks of whole
//! lines.
//!
//! A line has a match if its bytes have one as a text by themselves, without the byte that ends the
//! line: so `^` and `\A` hold at its start, and `$` and `\z` at its end.
#![tactic(auto)]

pub mod blocks;
pub mod finder;
pub mod lines;

pub use crate::blocks::Blocks;
pub use crate::finder::LineFinder;
pub use crate::lines::{Line, Lines};
pub use determinize_pattern::stay_in_lines;
