//! Ids and units: texts. Sparse sets of each size. Dense states with too few targets, and too many.
//! Ids and ranges that do not fit.

use crate::tests::texts::expect_text;
use crate::tests::{holds, joined, same, same_at};
use determinize_below::nfa::{DenseTransitions, State};
use determinize_below::{BuildError, Input, LookMatcher, NFA, PatternID, SparseSet, StateID, Unit};
use determinize_nfa::Builder;
use std::process::Abort;

/// The debug texts of a state id, a pattern id, a byte and the end of input.
const VALUES: &str = "\
((StateID(300000), PatternID(2147483646)), (Unit(U8(97)), Unit(Eoi(256))))";

/// The debug texts of the results for numbers that are no ids.
const ERRORS: &str = "\
(Err(StateIDError { attempted: 2147483647 }), Err(PatternIDError { attempted: 3000000000 }))";

#[test]
fn texts_of_ids_and_units(rt: HostRuntime) {
    let (state, pattern) = (StateID::must(300_000), PatternID::MAX);
    same(&rt, joined(&rt, "", state, "").as_str(), "300000");
    same(&rt, joined(&rt, "", pattern, "").as_str(), "2147483646");
    let units = (Unit::u8(b'a'), Unit::from(None));
    expect_text(&rt, &((state, pattern), units), VALUES);
}

#[test]
fn texts_of_numbers_that_are_no_ids(rt: HostRuntime) {
    let state = StateID::new(2_147_483_647);
    let pattern = PatternID::new(3_000_000_000);
    expect_text(&rt, &(state, pattern), ERRORS);
}

/// Inserts every id below the capacity of a set, from the greatest down. Each must be new, or each
/// must be in the set already.
fn insert_down<R: Abort>(rt: &R, set: &mut SparseSet, is_new: bool) {
    for number in (0..set.capacity()).rev() {
        let id = StateID::new(number).expect(rt, "an id");
        holds(rt, id.as_usize() < set.capacity());
        same_at(rt, number, set.insert(id), is_new);
    }
}

/// Fills a set from the greatest id down, reads it, clears it, and fills it again.
#[test]
fn sparse_sets(rt: HostRuntime) {
    for capacity in [0, 1, 63, 64, 65, 128] {
        holds(&rt, capacity <= 128);
        let mut set = SparseSet::new(rt.alloc(), capacity).expect(&rt, "memory");
        insert_down(&rt, &mut set, true);
        insert_down(&rt, &mut set, false);
        same(&rt, set.len(), capacity);
        for (id, number) in set.iter().zip((0..capacity).rev()) {
            same(&rt, id.as_usize(), number);
        }
        set.clear();
        insert_down(&rt, &mut set, true);
    }
}

#[test]
fn rejects_a_short_table(rt: HostRuntime) {
    let start = StateID::ZERO;
    for (count, error) in [
        (255, Some(BuildError::BadDense(0))),
        (256, None),
        (257, Some(BuildError::BadDense(0))),
    ] {
        let transitions = vec![in rt.alloc(); start; count].expect(&rt, "memory");
        let dense = State::Dense(DenseTransitions { transitions });
        let states = vec![in rt.alloc(); dense].expect(&rt, "memory");
        let made = NFA::from_parts(rt.alloc(), states, start, start, false, LookMatcher::new());
        same_at(&rt, count, made.err(), error);
    }
}

#[test]
fn rejects_ids_and_ranges_that_do_not_fit(rt: HostRuntime) {
    let mut builder = Builder::new(rt.alloc());
    same(&rt, builder.add_empty(), Ok(StateID::ZERO));
    let missing = StateID::must(7);
    let refused = Err(BuildError::NotPatchable(7));
    same(&rt, builder.patch(missing, StateID::ZERO), refused);
    same(&rt, builder.close(missing, &[]), refused);
    for (start, end, fits) in [
        (0, 11, true),
        (12, 11, true),
        (0, 12, false),
        (13, 11, false),
    ] {
        let input = Input::new(b"hello world").try_range(start..end);
        same_at(&rt, start, input.is_some(), fits);
    }
}
