//! The texts of two graphs, written by hand. That of a DFA is also that of its bytes.

use crate::tests::dense::nfa;
use crate::tests::expect_text;
use determinize_below::MatchKind;
use determinize_draw::{DfaGraph, NfaGraph};
use determinize_stored::StoredDfa;
use determinize_uses::dfa::smallest;

/// The states of `\b[0-9]`, with one for `[a-z]` that no match follows.
const DIGIT: &str = "L:WordAscii>1 S:30-39>2,61-7a>3 C:4 F M:0";

const NFA_TEXT: &str = r#"digraph nfa {
  rankdir=LR;
  node [shape=circle];
  anchored [shape=plaintext];
  anchored -> 0;
  unanchored [shape=plaintext];
  unanchored -> 0;
  0 -> 1 [style=dashed, label="WordAscii"];
  1 -> 2 [label="0-9"];
  1 -> 3 [label="a-z"];
  2 -> 4 [style=dashed];
  3 [label="3\nfail"];
  4 [shape=doublecircle, label="4\nmatch 0"];
}
"#;

/// A word may begin behind a byte that is no word byte, and behind nothing.
const DFA_TEXT: &str = r#"digraph dfa {
  rankdir=LR;
  node [shape=circle];
  anchored [shape=plaintext];
  anchored -> 2 [label="after \\x00-/, :-@, [-^, `, {-\\xff, nothing"];
  unanchored [shape=plaintext];
  unanchored -> 2 [label="after \\x00-/, :-@, [-^, `, {-\\xff, nothing"];
  1 [shape=doublecircle, label="1\nmatch 0"];
  2;
  2 -> 3 [label="0-9"];
  3;
  3 -> 1 [label="\\x00-\\xff, EOI"];
}
"#;

#[test]
fn graphs(rt: HostRuntime) {
    let nfa = nfa(&rt, DIGIT, 0);
    expect_text(&rt, &NfaGraph::new(&nfa), NFA_TEXT);
    let dfa = smallest(rt.alloc(), &nfa, MatchKind::All, 100);
    let dfa = dfa.expect(&rt, "few states");
    expect_text(&rt, &DfaGraph::new(&dfa), DFA_TEXT);
    let bytes = dfa.to_bytes(rt.alloc()).expect(&rt, "memory");
    let stored = StoredDfa::from_bytes(&bytes).expect(&rt, "a DFA");
    expect_text(&rt, &DfaGraph::new(&stored), DFA_TEXT);
}
