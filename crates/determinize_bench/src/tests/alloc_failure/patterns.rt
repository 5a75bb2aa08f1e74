//! The compilation of patterns.

use crate::tests::alloc_failure::{Trial, fail_each_in_turn};
use crate::tests::same;
use determinize_below::{BuildError, Look};
use determinize_pattern::{CompileError, Config, Pattern, compile};
use std::alloc::Allocator;
use std::process::Abort;

/// Compiles patterns, and compares the number of states, or the error with that of a failed
/// allocation. Returns whether no allocation failed.
pub fn compile_all<R: Abort, A: Allocator + Copy>(
    rt: &R,
    alloc: A,
    patterns: &[Pattern],
    states: usize,
) -> bool {
    match compile(alloc, patterns, Config::new()) {
        Ok(nfa) => {
            same(rt, nfa.len(), states);
            true
        }
        Err(error) => {
            same(rt, error, CompileError::Build(BuildError::OutOfMemory));
            false
        }
    }
}

/// Returns the pattern of these bytes.
fn literal<R: Abort + AllocGlobal>(rt: &R, bytes: &[u8]) -> Pattern {
    Pattern::literal(rt.alloc(), bytes).expect(rt, "memory")
}

/// Returns `(?:a|b*|[0-9]{2,3}?)+`.
fn choice<R: Abort + AllocGlobal>(rt: &R) -> Pattern {
    let bs = literal(rt, b"b").star(rt.alloc()).expect(rt, "memory");
    let digit = Pattern::digit(rt.alloc()).expect(rt, "memory");
    let digits = digit.repeat_lazy(rt.alloc(), 2, Some(3));
    let digits = digits.expect(rt, "memory");
    let parts = vec![in rt.alloc(); literal(rt, b"a"), bs, digits].expect(rt, "memory");
    let choice = Pattern::alternation(parts).plus(rt.alloc());
    choice.expect(rt, "memory")
}

/// Returns `(\bcd|)`.
fn group<R: Abort + AllocGlobal>(rt: &R) -> Pattern {
    let look = Pattern::Look(Look::WordAscii);
    let word = vec![in rt.alloc(); look, literal(rt, b"cd")].expect(rt, "memory");
    let parts = vec![in rt.alloc(); Pattern::concat(word), Pattern::Empty].expect(rt, "memory");
    let group = Pattern::alternation(parts).capture(rt.alloc());
    group.expect(rt, "memory")
}

#[test]
fn patterns(rt: HostRuntime) {
    let patterns = vec![in rt.alloc(); choice(&rt), group(&rt)].expect(&rt, "memory");
    let nfa = compile(rt.alloc(), &patterns, Config::new()).expect(&rt, "an NFA");
    fail_each_in_turn(&rt, Trial::Compile(&patterns, nfa.len()));
}
