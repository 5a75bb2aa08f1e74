//! Tests of `determinize_find` and of the callers of `determinize_uses`: matches with both ends,
//! and a whole DFA. This library has nothing else.
#![tactic(auto)]

#[cfg(test)]
mod tests;
