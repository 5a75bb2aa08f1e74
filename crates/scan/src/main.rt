//! Prints each string in double quotes in standard input, after where it begins and ends, as soon
//! as its closing quote is read. The input is read in pieces of at most 64 KB, and a string may lie
//! in several.
#![tactic(auto)]

use determinize_uses::strings::{Error, print_strings};

fn main(rt: HostRuntime) -> Result<(), Error> {
    print_strings(rt.alloc(), &mut rt.reader(), &rt)
}
