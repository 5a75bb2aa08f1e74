//! The example walks: their names, their jobs, and their outputs, which were worked out by hand.
//! They are one text and not a table, since a proof would read a table text by text wherever it is
//! named.

ghost use Rattle.std.specs.Prelude.{◌≡◌, bytes_eq, is_some, map};
ghost use Rattle.std.specs.List.{list_any};
ghost use Rattle.example_walks.specs.Names.{is_name, names};

use crate::fields::Fields;

/// An example walk.
#[derive(Clone, Copy)]
pub struct Example {
    /// The name, for the program `rows`.
    pub name: &'static str,
    /// The job, whose verb is `walk`.
    pub job: &'static str,
    /// The output: a line for each state, and one for the last match.
    pub output: &'static str,
}

impl Example {
    /// Returns the example with this name, or one with an empty job if none has it.
    pub fn of(name: &'static str) -> Example {
        for part in examples().split("= ") {
            if let Some((first, rest)) = part.split_once('\n') {
                if first == name {
                    let (job, output) = rest.split_once('\n').unwrap_or((rest, ""));
                    return Example { name, job, output };
                }
            }
        }
        let (job, output) = ("", "");
        Example { name, job, output }
    }

    /// Returns the fields of the job.
    pub fn fields(&self) -> Fields<'static> {
        let (_, fields) = Fields::split(self.job);
        fields
    }
}

/// Returns the example with this name, or `None` if none has it.
pub fn named(name: &str) -> Option<Example>
    ensures { is_some result ≡ is_name name.now }
{
    find(names(), name)
}

/// Returns the example with this name if it is among these names, or `None` if it is not.
fn find(names: &'static [&'static str], name: &str) -> Option<Example>
    ensures { is_some result ≡ list_any (λ known. bytes_eq known.now name.now) names.now }
{
    for known in names {
        if *known == name {
            return Some(Example::of(known));
        }
    }
    None
}

/// Returns the names of the examples.
#[tactic(auto, unfolding(crate::specs::Names::names))]
pub fn names() -> &'static [&'static str]
    ensures { map (λ name. name.now) result.now ≡ names }
{
    NAMES.as_slice()
}

/// The names of the examples. Only [`names`] mentions them: a proof reads the whole table at each
/// mention.
static NAMES: [&str; 45] = [
    "2", "3", "4a", "4b", "5", "6", "7", "8a", "8b", "8c", "9a", "9b", "9c", "10a", "10b", "11a",
    "11b", "12", "13", "14", "18", "19", "20", "25a", "25b", "27a", "27b", "28a", "28b", "28c",
    "28d", "28e", "28f", "28g", "29a", "29b", "29c", "29d", "29e", "30a", "30b", "31a", "31b",
    "31c", "32",
];

/// Returns the examples.
fn examples() -> &'static str {
    EXAMPLES
}

/// The examples: for each a line with its name, one with its job, and its output. Only [`examples`]
/// names this text: a proof reads all of it at each mention.
const EXAMPLES: &str = "\
= 2
walk text=- | B:61>1 M:0
00000000000000000000
000000000000000000
none
= 3
walk text=61 | B:61>1 M:0
00000000000000000000
00000000000000000002
010000000000000000
match 0 1
= 4a
walk text=- | U:1,2,3 M:2 M:0 M:1
00000000000000000000020202
03000000000000000003000000020000000000000001000000
match 2 0
= 4b
walk kind=leftmost-first text=- | U:1,2,3 M:2 M:0 M:1
00000000000000000000020202
0300000000000000000100000002000000
match 2 0
= 5
walk kind=leftmost-first text=7a25 | BU:4,1 B:00-ff>0 L:WordAscii>5 B:25>5 BU:2,3 BU:4,6 M:0
0000400100400000000008030203
010000000000000000
000000000000000000
000000000000000000
match 0 0
= 6
walk kind=leftmost-first start=4 lb=7a text=25 | BU:4,1 B:00-ff>0 L:WordAscii>5 B:25>5 BU:2,3 BU:4,6 M:0
040000000040000000080302
010000000000000000
000000000000000000
match 0 0
= 7
walk start=4 lb=7a text=25 | BU:4,1 B:00-ff>0 L:WordAscii>5 B:25>5 BU:2,3 BU:4,6 M:0
040000000040000000080302
0100400100400000000a01030206
010000000000000000
match 0 1
= 8a
walk kind=leftmost-first text=71756172747a | L:WordAscii>1 S:30-39>2,41-5a>2,5f-5f>2,61-7a>2 BU:1,3 L:WordAscii>4 M:0
00004001004000000000
040000000040000000040104
040000000040000000040104
040000000040000000040104
040000000040000000040104
040000000040000000040104
040000000040000000040104
010000000000000000
match 0 6
= 8b
walk kind=leftmost-first lb=71 text=756172747a | L:WordAscii>1 S:30-39>2,41-5a>2,5f-5f>2,61-7a>2 BU:1,3 L:WordAscii>4 M:0
04000000004000000000
000000000000000000
000000000000000000
000000000000000000
000000000000000000
000000000000000000
000000000000000000
none
= 8c
walk kind=leftmost-first text=756172747a | L:WordAscii>1 S:30-39>2,41-5a>2,5f-5f>2,61-7a>2 BU:1,3 L:WordAscii>4 M:0
00004001004000000000
040000000040000000040104
040000000040000000040104
040000000040000000040104
040000000040000000040104
040000000040000000040104
010000000000000000
match 0 5
= 9a
walk text=0d0a | B:0d>1 L:StartCRLF>2 M:0
00000000000000000000
08000000001000000002
000000000000000000
000000000000000000
none
= 9b
walk text=0d | B:0d>1 L:StartCRLF>2 M:0
00000000000000000000
08000000001000000002
010000000000000000
match 0 1
= 9c
walk text=0d78 | B:0d>1 L:StartCRLF>2 M:0
00000000000000000000
08000000001000000002
010000000000000000
000000000000000000
match 0 1
= 10a
walk dir=rev text=0a0d | B:0a>1 L:StartCRLF>2 M:0
00000000000000000000
08040000001000000002
000000000000000000
000000000000000000
none
= 10b
walk dir=rev text=0a | B:0a>1 L:StartCRLF>2 M:0
00000000000000000000
08040000001000000002
010000000000000000
match 0 1
= 11a
walk dir=rev term=78 lb=0a text=- | L:StartLF>1 M:0
00000000000400000000
000000000000000000
none
= 11b
walk dir=rev term=78 lb=78 text=- | L:StartLF>1 M:0
0004000000040000000002
010000000000000000
match 0 0
= 12
walk text=61 | B:61>1 C:1 L:WordAscii>3 M:0
00000000000000000000
040000000000000000
000000000000000000
none
= 13
walk text=- | BU:0,1 M:0
0000000000000000000002
010000000000000000
match 0 0
= 14
walk term=61 lb=61 text=- | U:1,2 L:StartLF>3 L:WordStartHalfAscii>4 M:0 M:1
04040000000440000000020401
010000000000000000
match 0 0
= 18
walk kind=leftmost-first start=7 text=6361626163 | BU:1,5 BU:2,4 B:61>3 B:62>0 B:63>0 B:63>6 M:0 BU:0,8 B:00-ff>7
0000000000000000000e0d0202040206
0000000000000000000002020402020202
01000000000000000006
0000000000000000000002020402
00000000000000000006
000000000000000000
000000000000000000
match 0 1
= 19
walk kind=leftmost-first text=2061 | BU:2,1 B:00-ff>0 L:WordUnicode>3 M:0
000040010000010000000401
000040010000010000000401
010000000000000000
000000000000000000
match 0 1
= 20
walk kind=leftmost-first text=31323320666f6f6261722034353637 | BU:2,1 B:00-ff>0 U:3,6 B:61-7a>4 BU:3,5 M:0 B:30-39>7 BU:6,8 M:1
0000000000000000000004020609
0000000000000000000e01040f040203
03000000000000000001000000010000000e0104
03000000000000000001000000010000000e0104
0300000000000000000100000001000000
000000000000000000
000000000000000000
000000000000000000
000000000000000000
000000000000000000
000000000000000000
000000000000000000
000000000000000000
000000000000000000
000000000000000000
000000000000000000
000000000000000000
match 1 3
= 25a
walk text=62 | C:1 U:2,3,4 F S:61-63>5,78-78>5 D:62-62>5 M:0
00000000000000000002020202
0000000000000000000a
010000000000000000
match 0 1
= 25b
walk text=64 | C:1 U:2,3,4 F S:61-63>5,78-78>5 D:62-62>5 M:0
00000000000000000002020202
000000000000000000
000000000000000000
none
= 27a
walk text=0d0a | BU:2,1 B:00-ff>0 L:EndCRLF>3 M:0
001400000020000000000401
090000000020000000000401
001400000020000000000401
010000000000000000
match 0 2
= 27b
walk dir=rev text=0a0d | BU:2,1 B:00-ff>0 L:EndCRLF>3 M:0
001400000020000000000401
090400000020000000000401
001000000020000000000401
010000000000000000
match 0 2
= 28a
walk text=61 | B:61>1 C:1
00000000000000000000
000000000000000000
000000000000000000
none
= 28b
walk text=- | U:0,0,1,1,0 M:0
0000000000000000000002
010000000000000000
match 0 0
= 28c
walk text=- | BU:1,2 BU:0,3 M:0 M:1
00000000000000000000020401
030000000000000000020000000100000000000000
match 1 0
= 28d
walk kind=leftmost-first text=- | BU:1,2 BU:0,3 M:0 M:1
00000000000000000000020401
0300000000000000000100000001000000
match 1 0
= 28e
walk text=- | U:1,2 U: M:0
000000000000000000000202
010000000000000000
match 0 0
= 28f
walk text=6161 | BU:1,2 B:61>0 M:0
000000000000000000000202
010000000000000000000202
010000000000000000000202
010000000000000000
match 0 2
= 28g
walk kind=leftmost-first text=6161 | BU:2,1 B:61>0 M:0
000000000000000000000401
010000000000000000
000000000000000000
000000000000000000
match 0 0
= 29a
walk term=0d lb=0d text=- | L:StartLF>1 M:0
0004000000040000000002
010000000000000000
match 0 0
= 29b
walk term=0d lb=0a text=- | L:StartLF>1 M:0
00100000000400000000
000000000000000000
none
= 29c
walk term=ff text=ff | B:ff>1 L:StartLF>2 M:0
00000000000000000000
0004000000040000000202
010000000000000000
match 0 1
= 29d
walk term=ff text=ff | L:EndLF>1 M:0
00140000000800000000
010000000000000000
000000000000000000
match 0 0
= 29e
walk term=61 text=61 | B:61>1 U:2,3 L:StartLF>4 L:WordEndAscii>5 M:0 M:1
00000000000000000000
04040000000408000002020401
030000000000000000020000000000000001000000
match 0 1
= 30a
walk text=61 | B:61>1 M:0 L:WordAscii>1
00000000000000000000
04000000000000000002
010000000000000000
match 0 1
= 30b
walk text=- | M:2147483646
00000000000000000000
03000000000000000001000000feffff7f
match 2147483646 0
= 31a
walk kind=leftmost-first text=71756172 after=74 | L:WordAscii>1 S:30-39>2,41-5a>2,5f-5f>2,61-7a>2 BU:1,3 L:WordAscii>4 M:0
00004001004000000000
040000000040000000040104
040000000040000000040104
040000000040000000040104
040000000040000000040104
040000000040000000040104
none
= 31b
walk kind=leftmost-first text=71756172 after=20 | L:WordAscii>1 S:30-39>2,41-5a>2,5f-5f>2,61-7a>2 BU:1,3 L:WordAscii>4 M:0
00004001004000000000
040000000040000000040104
040000000040000000040104
040000000040000000040104
040000000040000000040104
010000000000000000
match 0 4
= 31c
walk kind=leftmost-first text=71756172 | L:WordAscii>1 S:30-39>2,41-5a>2,5f-5f>2,61-7a>2 BU:1,3 L:WordAscii>4 M:0
00004001004000000000
040000000040000000040104
040000000040000000040104
040000000040000000040104
040000000040000000040104
010000000000000000
match 0 4
= 32
walk text=0d after=0a | B:0d>1 L:StartCRLF>2 M:0
00000000000000000000
08000000001000000002
000000000000000000
none
";
