//! The tokens of texts by longest match, in a linear number of steps.

use crate::tests::linear::Case;
use crate::tests::patterns::regex_of;
use crate::tests::{dense, expect_found, same};
use determinize_below::MatchKind;
use determinize_lexer::{Lexer, LexerConfig, rest};
use determinize_linear::lexer as linear;
use determinize_regex::Input;
use determinize_uses::tokens;

/// Tokens that were worked out by hand. Of the patterns that match up to the end of a token it has
/// the first one. The list ends where only an empty match begins. Assertions see the bytes next to
/// a range.
static TOKENS: [Case; 12] = [
    (
        &["if", "[a-z]+", " "],
        b"if iffy if",
        0,
        10,
        &[(0, 0, 2), (2, 2, 3), (1, 3, 7), (2, 7, 8), (0, 8, 10)],
    ),
    (
        &["[0-9]+", r"[0-9]+\.[0-9]+", r"\.\.", " "],
        b"1..2 3.4",
        0,
        8,
        &[(0, 0, 1), (2, 1, 3), (0, 3, 4), (3, 4, 5), (1, 5, 8)],
    ),
    (&["a|a*b"], b"aaab", 0, 4, &[(0, 0, 4)]),
    (
        &["a|a*b"],
        b"aaab",
        0,
        3,
        &[(0, 0, 1), (0, 1, 2), (0, 2, 3)],
    ),
    (&["a*", "b"], b"baac", 0, 4, &[(1, 0, 1), (0, 1, 3)]),
    (&["a??", "b"], b"ab", 0, 2, &[(0, 0, 1), (1, 1, 2)]),
    (&["a"], b"", 0, 0, &[]),
    (&["a"], b"ba", 0, 2, &[]),
    (&["a", "(?s:.)"], b"ba", 0, 2, &[(1, 0, 1), (0, 1, 2)]),
    (&[r"a\b", "a"], b"ab", 0, 1, &[(1, 0, 1)]),
    (&[r"a\b", "a"], b"a-", 0, 1, &[(0, 0, 1)]),
    (&[r"\Bb", "b"], b"abb", 1, 3, &[(0, 1, 2), (0, 2, 3)]),
];

/// Compares the tokens of each case.
#[test]
fn tokens_by_hand(rt: HostRuntime) {
    for &(patterns, haystack, start, end, wanted) in &TOKENS {
        assert!(rt; start <= end && end <= haystack.len());
        let regex = regex_of(&rt, patterns);
        let input = Input::new(haystack).range(start..end);
        let dfa = dense::dfa(&rt, regex.nfa(), MatchKind::All, 100);
        expect_found(&rt, linear::tokens(rt.alloc(), &dfa, &input), wanted);
    }
}

/// Cuts each whole text by a lexer, and compares what is left where no token begins.
#[test]
fn lexers_by_hand(rt: HostRuntime) {
    for &(patterns, text, start, end, wanted) in &TOKENS {
        if start == 0 && end == text.len() {
            let lexer = Lexer::new(rt.alloc(), patterns, LexerConfig::new());
            let lexer = lexer.expect(&rt, "few states");
            expect_found(&rt, lexer.tokens(rt.alloc(), text), wanted);
        }
    }
    let lexer = Lexer::new(rt.alloc(), &["[a-z]+"], LexerConfig::new()).expect(&rt, "few states");
    let tokens = lexer.tokens(rt.alloc(), b"ab-c").expect(&rt, "memory");
    assert!(rt; rest(b"ab-c", &tokens) == b"-c".as_slice());
}

/// Of bytes `a` each is a token, behind which the others are read: there may be a `b`.
#[test]
fn quadratic_by_other_lexers(rt: HostRuntime) {
    let regex = regex_of(&rt, &["a|a*b"]);
    let dfa = tokens::lexer_of(rt.alloc(), regex.nfa()).expect(&rt, "few states");
    let text = Vec::from_elem(rt.alloc(), b'a', 20_000).expect(&rt, "memory");
    let found = tokens::tokens(rt.alloc(), &dfa, &text).expect(&rt, "memory");
    same(&rt, found.len(), 20_000);
    for (at, token) in found.iter().enumerate() {
        let size = token.end.checked_sub(token.start);
        same(&rt, (token.start, size), (at, Some(1)));
    }
}
