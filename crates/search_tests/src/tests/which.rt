//! Which patterns match anywhere in a text.

use crate::tests::{dense, same};
use determinize_below::{Input, MatchKind};
use determinize_lazy::Lazy;

/// `ab`, `b` and `c`, after any bytes.
const PATTERNS: &str = "BU:2,1 B:00-ff>0 U:3,5,6 B:61>4 B:62>7 B:62>8 B:63>9 M:0 M:1 M:2";

/// The flags of two texts, as Python's `re.search` finds each pattern, and of fewer patterns.
#[test]
fn patterns_in_texts(rt: HostRuntime) {
    let nfa = dense::nfa(&rt, PATTERNS, 2);
    let mut lazy = Lazy::new(rt.alloc(), &nfa, MatchKind::All, 100);
    let (mut found, mut first) = ([false; 3], [false; 1]);
    same(
        &rt,
        lazy.which_patterns(&Input::new(b"xabx"), &mut found),
        Ok(()),
    );
    same(&rt, found.as_slice(), [true, true, false].as_slice());
    same(
        &rt,
        lazy.which_patterns(&Input::new(b"xc"), &mut found),
        Ok(()),
    );
    same(&rt, found.as_slice(), [true, true, true].as_slice());
    same(
        &rt,
        lazy.which_patterns(&Input::new(b"bc"), &mut first),
        Ok(()),
    );
    same(&rt, first.as_slice(), [false].as_slice());
}
