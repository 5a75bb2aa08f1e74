//! Classes of bytes: those of `[0-9]+`, which are the digits and all other bytes, and those of an
//! NFA with every kind of transition.

use crate::tests::dense::nfa;
use crate::tests::{expect_debug, same};
use determinize_below::Unit;
use determinize_uses::nfa::digits;

/// The only ranges of the first NFA are the digits and all bytes. In the second one a sparse state
/// has transitions on `a` to `c` and on `x`, a dense one on `b`, and a range is the digits.
#[test]
fn classes_of_bytes(rt: HostRuntime) {
    let classes = digits(rt.alloc()).expect(&rt, "memory").byte_classes();
    same(&rt, classes.eoi(), Unit::eoi(2));
    same(&rt, classes.alphabet_len(), 3);
    same(&rt, classes.get(b'/'), 0);
    same(&rt, classes.get(b'9'), 1);
    same(&rt, classes.get(b':'), 0);
    same(&rt, classes.representatives(), b"\x000".as_slice());
    expect_debug(&rt, &classes, "ByteClasses(0.. => 0, 48.. => 1, 58.. => 0)");
    let states = "U:1,2,3 S:61-63>4,78-78>4 D:62-62>4 B:30-39>4 M:0";
    let classes = nfa(&rt, states, 0).byte_classes();
    expect_debug(
        &rt,
        &classes,
        "ByteClasses(0.. => 0, 48.. => 1, 58.. => 0, 97.. => 2, 98.. => 3, 99.. => 2, \
        100.. => 0, 120.. => 2, 121.. => 0)",
    );
}
