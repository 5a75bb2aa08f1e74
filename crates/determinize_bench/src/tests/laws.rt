//! The results of the functions whose contracts are laws of states, which are generic, at one
//! allocator; and sizes of values.

use crate::tests::{built, same};
use determinize_below::{PatternID, StateID};
use determinize_core::determinize::Steps;
use determinize_core::state::State;
use determinize_core::state_laws::{
    are_equal, is_built, nfa_states_read, patterns_read, same_built_bytes, same_bytes,
};
use std::marker::Brand;

/// The results for a state with the patterns 2, 0 and 1 and the NFA states 1, 3 and 2, and for its
/// builder.
#[test]
fn laws_of_states(rt: HostRuntime) {
    let builder = built(&rt, "build fw=0 half=0 pids=2,0,1 ids=1,3,2");
    let state = builder.to_state().expect(&rt, "memory");
    for (index, wanted) in [(1, Some(PatternID::ZERO)), (3, None)] {
        let (is_match, count, _, one) = patterns_read(&state, index).expect(&rt, "memory");
        same(&rt, (is_match, count, one), (true, 3, wanted));
    }
    let ids = nfa_states_read(&state, rt.alloc()).expect(&rt, "memory");
    let wanted = [StateID::must(1), StateID::must(3), StateID::must(2)];
    same(&rt, ids.as_slice(), wanted.as_slice());
    let of_state = (same_bytes(&state, &state), are_equal(&state, &state));
    let of_both = (
        same_built_bytes(&builder, &builder),
        is_built(&state, &builder),
    );
    same(&rt, (of_state, of_both), ((true, true), (true, true)));
}

/// A step counter without a count has size zero, and a short state is stored inline.
#[test]
fn sizes(rt: HostRuntime) {
    same(
        &rt,
        (size_of::<Steps<Brand>>(), size_of::<State>()),
        (0, 32),
    );
}
