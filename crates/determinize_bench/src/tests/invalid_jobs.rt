//! Invalid jobs, each in a line with its error message after an arrow. They are a text and not a
//! table, since the prover would read a table entry by entry wherever it is named.

use crate::tests::runs::expect;
use crate::tests::{joined, parts_of};

/// The jobs, below comments that say what is wrong with them.
const JOBS: &str = "\
# Unknown verbs, and words that are not `key=value`.
Dead => unknown verb \"Dead\"
 => unknown verb \"\"
 dead => unknown verb \"\"
n=5 fromusize => unknown verb \"n=5\"
dead  => no key and value: \"\"
fromusize 5 => no key and value: \"5\"
walk text=61  start=0 | M:0 => no key and value: \"\"
walk text=61 | => no key and value: \"|\"
# Unknown keys.
walk texts=61 | M:0 => unknown key \"texts\"
walk Text=61 | M:0 => unknown key \"Text\"
walk =61 | M:0 => unknown key \"\"
walk at=0 | M:0 => unknown key \"at\"
readers at=0 from=0 | M:0 => unknown key \"from\"
closure from=0 kind=all | M:0 => unknown key \"kind\"
lookbehind kind=Text lb=61 | M:0 => unknown key \"lb\"
next fw=0 half=0 unit=61 set=0 | M:0 => unknown key \"set\"
addstates fw=0 half=0 kind=all | M:0 => unknown key \"kind\"
start range=0..0 kind=Text => unknown key \"kind\"
bytemap dir=rev => unknown key \"dir\"
fromusize n=5 term=0a => unknown key \"term\"
dead n=5 => unknown key \"n\"
build fw=0 half=0 unit=eoi => unknown key \"unit\"
size states=1 matches=1 n=1 => unknown key \"n\"
# Repeated keys.
walk text=61 text=61 | M:0 => key text stands twice
walk kind=all lb=61 kind=all | M:0 => key kind stands twice
fromusize n=5 n=5 => key n stands twice
dead id=1 id=2 => key id stands twice
dead fix=1 fix=1 => key fix stands twice
build fw=0 half=0 have=- have=- => key have stands twice
# Missing keys.
readers text=61 | M:0 => key at is missing
readers after=62 | M:0 => key at is missing
closure look=- | M:0 => key from is missing
lookbehind dir=fwd | M:0 => key kind is missing
next fw=0 half=0 | M:0 => key unit is missing
next half=0 unit=eoi | M:0 => key fw is missing
addstates fw=0 set=0 | M:0 => key half is missing
build half=0 => key fw is missing
build fw=0 => key half is missing
start hay=61 => key range is missing
fromusize => key n is missing
size states=1 => key matches is missing
size matches=1 => key states is missing
# States that `NFA::from_parts` rejects.
walk text=61 => the states of the NFA are missing
closure from=0 => the states of the NFA are missing
dead | M:0 => the verb takes no states
build fw=0 half=0 | M:0 => the verb takes no states
walk text=61 |  => the states make no NFA: no state has the start id
walk text=61 | B:61>5 M:0 => the states make no NFA: state 0 leads to no state
walk text=61 | M:0 F M:0 => the states make no NFA: state 2 repeats a pattern
walk text=61 | S:61-66>0,66-6b>0 => the states make no NFA: state 0 has a range out of order
walk text=61 | S:61-66>0,66-6b>9 => the states make no NFA: state 0 leads to no state
walk text=61 | C:1 => the states make no NFA: state 0 leads to no state
walk text=61 | M:0 M:0 => the states make no NFA: state 1 repeats a pattern
walk text=61 | S:7a-61>0 => the states make no NFA: state 0 has a range out of order
size states=0 matches=0 => the states make no NFA: no state has the start id
walk text=61 | D:7a-61>0 => not a range of bytes, the least first
walk text=61 | X:0 => not an NFA state
walk text=61 | B:61 => not a transition
walk text=61 | L:Middle>0 => not an assertion
walk text=61 | L:Start => not an assertion
walk text=61 | BU:0 => not a union of two states
walk text=61 | C:2147483647 => not the id of a state
walk text=61 | M:2147483647 => not the id of a pattern
# Malformed values.
fromusize n=+1 => not a decimal number
fromusize n=-1 => not a decimal number
fromusize n= => not a decimal number
fromusize n=1a => not a decimal number
fromusize n=18446744073709551616 => not a decimal number
dead id=+1 => not a decimal number
dead fix=yes => not a flag
build fw=2 half=0 => not a flag
build fw=0 half=0 ids=1,,2 => not a decimal number
build fw=0 half=0 ids=+1 => not a decimal number
build fw=0 half=0 pids=1,1 => a pattern stands twice
build fw=0 half=0 have=Middle => not an assertion
bytemap byte=6 => not two hexadecimal digits
bytemap byte=0A => not two hexadecimal digits
walk text=616 | M:0 => not two hexadecimal digits
walk after=6 | M:0 => not two hexadecimal digits
walk kind=first | M:0 => not a match kind
walk dir=back | M:0 => not a direction
walk start=1 | M:0 => not the id of a state of the NFA
lookbehind kind=text | M:0 => not a start kind
closure from=0 held=1 | M:0 => not the id of a state of the NFA
next fw=0 half=0 ids=1 unit=eoi | M:0 => not the id of a state of the NFA
readers at=3 text=61 | M:0 => not the number of a state of the walk
# Ranges of a haystack.
start hay=616263 range=2..0 => not a range of the haystack
start hay=616263 range=0..4 => not a range of the haystack
start hay=616263 range=5..3 => not a range of the haystack
start hay=616263 range=1 => not a range of the haystack
start hay=616263 range=+1..2 => not a decimal number
";

/// Each job is run separately.
#[test]
fn error_messages(rt: HostRuntime) {
    for line in JOBS.lines() {
        let (job, said) = parts_of(line, " => ");
        if !line.starts_with('#') {
            let text = joined(&rt, "# first\n> ", job, "\nnone\n");
            let said = joined(&rt, "line 2: ", said, "\n");
            expect(&rt, "", text.as_str().as_bytes(), 2, "", said.as_str());
        }
    }
}
