//! The work of the program `rows`: unknown names of examples, and writers that fail.

use crate::tests::runs::{Failing, words};
use crate::tests::same_at;
use example_walks::rows::run_rows;

/// Arguments that are not the name of an example, one per line, each list up to a bar.
const OTHER_WORDS: &str = "|3\n3|3\n4a|1|4|03|4A|15|21|28|-3|\n| 3|3 |3\t";

#[test]
fn rejects_other_arguments(rt: HostRuntime) {
    for line in OTHER_WORDS.split('|') {
        let words = words(&rt, line);
        let (mut out, mut err) = (Vec::new(rt.alloc()), Vec::new(rt.alloc()));
        let status = run_rows(rt.alloc(), words.as_slice(), &mut out, &mut err);
        let found = (status, out.as_slice(), err.as_slice());
        same_at(&rt, line, found, (2, [].as_slice(), b"no such row\n"));
    }
}

#[test]
fn tells_of_output_that_fails(rt: HostRuntime) {
    let words = words(&rt, "3");
    for left in (0u32..30).chain(1000..1001) {
        let (mut out, mut err) = (Failing { left }, Vec::new(rt.alloc()));
        let found = run_rows(rt.alloc(), words.as_slice(), &mut out, &mut err);
        same_at(&rt, left, found, u8::from(left < 1000));
    }
}
