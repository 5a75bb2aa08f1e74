//! Building an NFA from parts.

use crate::tests::texts::text_of;
use crate::tests::{same, same_at};
use determinize_below::nfa::State;
use determinize_below::{BuildError, Look, LookMatcher, LookSet, NFA, StateID};
use example_walks::states;

#[test]
fn start_behind_the_last_state(rt: HostRuntime) {
    let (first, behind) = (StateID::ZERO, StateID::must(2));
    for (anchored, unanchored) in [(behind, first), (first, behind)] {
        let states = states::states(rt.alloc(), "B:61>1 M:0").expect(&rt, "states");
        let matcher = LookMatcher::new();
        let made = NFA::from_parts(rt.alloc(), states, anchored, unanchored, false, matcher);
        same(&rt, made.err(), Some(BuildError::UnresolvedStart));
    }
}

#[test]
fn readers_of_an_nfa(rt: HostRuntime) {
    let states = states::states(rt.alloc(), "L:WordAscii>1 M:7 L:End>1").expect(&rt, "states");
    let mut matcher = LookMatcher::new();
    matcher.set_line_terminator(b';');
    let first = StateID::must(1);
    let nfa = NFA::from_parts(rt.alloc(), states, first, StateID::ZERO, true, matcher);
    let nfa = nfa.expect(&rt, "an NFA");
    let end = nfa.look_matcher().get_line_terminator();
    let found = (nfa.len(), nfa.pattern_len(), nfa.is_reverse(), end);
    same(&rt, found, (3, 1, true, b';'));
    let wanted = LookSet::empty().insert(Look::End).insert(Look::WordAscii);
    let found = (
        nfa.start_anchored(),
        nfa.start_unanchored(),
        nfa.look_set_any(),
    );
    same(&rt, found, (first, StateID::ZERO, wanted));
    let state = nfa.state(nfa.start_unanchored());
    let text = text_of(&rt, state);
    let found = (state.is_epsilon(), text.contains("WordAscii"));
    same_at(&rt, text.as_str(), found, (true, true));
}
