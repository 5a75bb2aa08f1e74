//! Start configurations and look-behind: texts of their tables.

use crate::tests::map_text::MAP_OF_B;
use crate::tests::texts::expect_text;
use crate::tests::{caches, same};
use determinize_below::{Look, LookMatcher, Unit};
use determinize_core::look_tables::LookTables;
use determinize_core::start::{StartByteMap, start_kind_of};

#[test]
fn text_of_a_map(rt: HostRuntime) {
    let mut matcher = LookMatcher::new();
    matcher.set_line_terminator(b'b');
    let map = StartByteMap::new(&matcher).clone().expect(&rt, "memory");
    expect_text(&rt, &map, MAP_OF_B);
}

/// The start of a line, and after it the start or the end of a word.
const ASSERTIONS: &str = "L:StartLF>1 L:WordAscii>2 M:0";

/// The debug texts of the look-behind after a word byte, and of the tables.
const TABLES: &str = "\
(LookBehind { looks: LookSet { bits: 0 }, from_word: true, half_crlf: false }, \
LookTables { reverse: false, terminator: 10, any: LookSet { bits: 68 } })";

/// Compares the look-behind at the start of a line and after a word byte, the assertions that EOI
/// satisfies, and two debug texts.
#[test]
fn tables_of_assertions(rt: HostRuntime) {
    let tables = LookTables::of(&caches::nfa(&rt, ASSERTIONS, "dir=fwd"));
    let at_start = tables.at_start(start_kind_of(b'\n', Some(b'\n')));
    let after = tables.after(Unit::u8(b'a'));
    let opened = tables.opened(after.from_word, after.half_crlf, Unit::eoi(256));
    let starts_line = at_start.looks.contains(Look::StartLF);
    same(
        &rt,
        (starts_line, opened.contains(Look::WordAscii)),
        (true, true),
    );
    expect_text(&rt, &(after, tables), TABLES);
}
