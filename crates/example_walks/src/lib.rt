//! The example walks, and the work of the program `rows`, which prints one of them.
//!
//! [`examples`] has the walks: a name and a job each, which is a text. [`fields`] and [`states`]
//! read the text, and [`walk`] makes the walk. [`rows`] prints it, over any two writers.
#![tactic(auto)]

pub mod arguments;
pub mod error;
pub mod examples;
pub mod fields;
pub mod rows;
pub mod states;
pub mod values;
pub mod walk;
