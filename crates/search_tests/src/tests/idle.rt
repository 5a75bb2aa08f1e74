//! Places of a text where a scan is idle.

use crate::tests::dense::nfa;
use crate::tests::find::WORDS;
use crate::tests::same;
use determinize_below::MatchKind;
use determinize_find::{has_prefix, has_prefix_apart, is_idle};
use determinize_lazy::Lazy;

/// `ab` and `a*`, with the usual prefix.
const AB: &str = "BU:2,1 B:00-ff>0 B:61>3 B:62>4 M:0";

const MANY: &str = "BU:2,1 B:00-ff>0 BU:3,4 B:61>2 M:0";

/// The states and the anchored start of an NFA with the usual prefix, whether the prefix is apart,
/// a text, and whether a scan is idle after it. The empty match before the first byte is reported
/// with that byte. Where another state has a transition to the one that reads any byte, a scan may
/// be idle after a match has begun: in the last NFA `yz` matches from the first byte on.
static PLACES: [(&str, u8, bool, &[u8], bool); 10] = [
    (AB, 2, true, b"", true),
    (AB, 2, true, b"a", false),
    (AB, 2, true, b"ac", true),
    (AB, 2, true, b"aca", false),
    (AB, 2, true, b"acab", false),
    (WORDS, 2, true, b" -", true),
    (WORDS, 2, true, b" - a", false),
    (MANY, 2, true, b"", true),
    (MANY, 2, true, b"b", false),
    ("BU:1,3 U:4,3 M:0 B:00-ff>0 B:7a>2", 1, false, b"y", true),
];

#[test]
fn idle_places(rt: HostRuntime) {
    for &(states, anchored, is_apart, text, is_idle_after) in &PLACES {
        let nfa = nfa(&rt, states, anchored);
        same(&rt, has_prefix(&nfa), true);
        same(&rt, has_prefix_apart(&nfa), is_apart);
        let mut lazy = Lazy::new(rt.alloc(), &nfa, MatchKind::LeftmostFirst, 100);
        let scan = lazy.scan_text(nfa.start_unanchored(), None, text);
        let scan = scan.expect(&rt, "memory");
        same(&rt, is_idle(&nfa, &scan), is_idle_after);
    }
}
