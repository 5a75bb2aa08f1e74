//! Reads the arguments of a program.

use std::alloc::Global;
use std::rt::Env;
use std::{env, io};

/// Returns the arguments without the name of the program.
pub fn arguments(rt: &(impl Env + Alloc<A = Global>)) -> io::Result<Vec<String>> {
    let words = env::args(rt)?.skip(1).collect::<Vec<String>>(rt.alloc())?;
    Ok(words)
}
