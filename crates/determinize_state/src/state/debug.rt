//! The debug texts of states and their builders.

ghost use Rattle.determinize_state.specs.Spelling.{IsSpelled};

use crate::state::{State, StateBuilderEmpty, StateBuilderMatches, StateBuilderNFA, bytes};
use std::alloc::Allocator;
use std::fmt;

impl<A: Allocator> fmt::Debug for State<A> {
    fn fmt<W: fmt::Write>(&self, f: &mut fmt::Formatter<W>) -> fmt::Result {
        write_value("State", self.bytes.as_slice(), f)
    }
}

impl<A: Allocator> fmt::Debug for StateBuilderEmpty<A> {
    fn fmt<W: fmt::Write>(&self, f: &mut fmt::Formatter<W>) -> fmt::Result {
        f.debug_struct("StateBuilderEmpty").finish_non_exhaustive()
    }
}

impl<A: Allocator> fmt::Debug for StateBuilderMatches<A> {
    fn fmt<W: fmt::Write>(&self, f: &mut fmt::Formatter<W>) -> fmt::Result {
        write_value("StateBuilderMatches", self.builder.bytes.as_slice(), f)
    }
}

impl<A: Allocator> fmt::Debug for StateBuilderNFA<A> {
    fn fmt<W: fmt::Write>(&self, f: &mut fmt::Formatter<W>) -> fmt::Result {
        write_value("StateBuilderNFA", self.bytes.as_slice(), f)
    }
}

/// Writes the parts of an encoded value as the fields of a struct with this name.
#[tactic(auto, using(crate::proofs::encoding::ReadBytes::laid_out_in))]
fn write_value<W: fmt::Write>(name: &str, bytes: &[u8], f: &mut fmt::Formatter<W>) -> fmt::Result
    requires { IsSpelled bytes.now }
{
    f.debug_struct(name)
        .field("is_match", &bytes::has_flag(bytes, bytes::MATCH))
        .field("is_from_word", &bytes::has_flag(bytes, bytes::FROM_WORD))
        .field("is_half_crlf", &bytes::has_flag(bytes, bytes::HALF_CRLF))
        .field("look_have", &bytes::look_have(bytes))
        .field("look_need", &bytes::look_need(bytes))
        .field("match_pattern_ids", &bytes::pattern_ids(bytes))
        .field("nfa_state_ids", &bytes::nfa_state_ids(bytes))
        .finish()
}
