//! Whole DFAs that are read: steps by hand, rows, and all matches of a text.

use crate::tests::dense::{TOKENS, WORD, dfa, least, nfa};
use crate::tests::{expect_debug, expect_patterns, expect_text, same};
use determinize_below::{HalfMatch, MatchKind, PatternID};
use determinize_dense::{Automaton, RowId};
use determinize_uses::steps::{all_ends, patterns_of};

/// Texts, and the patterns that match each as a whole.
static WHOLE: [(&[u8], &[usize]); 4] = [(b"ab", &[0]), (b"12", &[1]), (b"a1", &[]), (b"", &[])];

/// Patterns of texts, and all matches of one.
#[test]
fn words_and_numbers(rt: HostRuntime) {
    let nfa = nfa(&rt, TOKENS, 2);
    let dfa = dfa(&rt, &nfa, MatchKind::All, 100);
    for &(text, wanted) in &WHOLE {
        expect_patterns(&rt, patterns_of(&dfa, text), wanted);
    }
    let ends = all_ends(rt.alloc(), &dfa, b"ab 1").expect(&rt, "memory");
    let (word, number) = (PatternID::ZERO, PatternID::must(1));
    let wanted = [
        HalfMatch::new(word, 1),
        HalfMatch::new(word, 2),
        HalfMatch::new(number, 4),
    ];
    same(&rt, ends.as_slice(), wanted.as_slice());
    let last = dfa.rows().last().unwrap_or(RowId::DEAD);
    expect_text(&rt, &last, "16");
    expect_debug(&rt, &last, "RowId(16)");
}

/// Of the four rows of the smallest DFA one lists a pattern: that after a word. It comes first
/// after the dead row. The id of a row that a DFA does not have lists nothing, and the dead row
/// follows it.
#[test]
fn rows(rt: HostRuntime) {
    let nfa = nfa(&rt, WORD, 0);
    let dfa = dfa(&rt, &nfa, MatchKind::All, 5);
    let least = least(&rt, &dfa);
    let mut count = 0usize;
    for row in least.rows() {
        same(&rt, row.as_usize(), count);
        same(&rt, least.is_match_state(row), count == 1);
        count = count.saturating_add(1);
    }
    same(&rt, count, 4);
    let row = dfa.rows().last().unwrap_or(RowId::DEAD);
    same(&rt, row.as_usize(), 4);
    same(&rt, least.match_len(row), 0);
    same(&rt, least.match_pattern(row, 0), None);
    same(&rt, least.next_state(row, b'a'), RowId::DEAD);
    same(&rt, least.next_eoi_state(row), RowId::DEAD);
    same(&rt, least.is_match_state(row), false);
    same(&rt, least.is_dead_state(row), false);
}
