//! The arguments of the program, as bytes.

use std::alloc::AllocError;
use std::env::{Env, FillError};

/// Returns the arguments behind the name of the program. Unlike those of `env::args`, they need not
/// be UTF-8.
pub fn args(rt: &HostRuntime) -> Result<Vec<Vec<u8>>, AllocError> {
    let mut args = Vec::new(rt.alloc());
    for index in 1..usize::MAX {
        match read(rt, index)? {
            Some(arg) => args.push(arg)?,
            None => break,
        }
    }
    Ok(args)
}

/// Returns the argument at an index, if there is one.
fn read(rt: &HostRuntime, index: usize) -> Result<Option<Vec<u8>>, AllocError> {
    let mut arg = Vec::new(rt.alloc());
    let mut room = 256_usize;
    for _ in 0..usize::BITS {
        arg.resize(room, 0)?;
        match rt.arg(index, arg.as_mut_slice()) {
            Ok(length) => {
                arg.truncate(length);
                return Ok(Some(arg));
            }
            Err(FillError::NotPresent) => return Ok(None),
            Err(FillError::TooLong) => room = room.saturating_add(room),
        }
    }
    Err(AllocError)
}
