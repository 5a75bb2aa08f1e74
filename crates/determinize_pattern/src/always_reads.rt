//! Patterns each of whose matches reads a byte.

ghost use Rattle.std.specs.Prelude.{◌≡◌, map, true};
ghost use Rattle.determinize_pattern.specs.Patterns.{choice, meaning, sequence};
ghost use Rattle.determinize_pattern.specs.Private.Compiling.{AlwaysReads};

use crate::pattern::Pattern;

/// Returns whether the form of a pattern shows that each of its matches reads a byte.
#[cycle(always_reads)]
pub fn always_reads(pattern: &Pattern) -> bool
    ensures { result ≡ true → AlwaysReads (meaning pattern.now) }
{
    match pattern {
        Pattern::Empty | Pattern::Look(_) => false,
        Pattern::Literal(bytes) => !bytes.is_empty(),
        Pattern::Class(_) => true,
        Pattern::Repetition { min, sub, .. } => *min > 0 && always_reads(sub),
        Pattern::Capture(sub) => always_reads(sub),
        Pattern::Concat(subs) => some_reads(subs),
        Pattern::Alternation(subs) => each_reads(subs),
    }
}

#[cycle(always_reads)]
fn some_reads(subs: &[Pattern]) -> bool
    ensures { result ≡ true → AlwaysReads (sequence (map meaning subs.now)) }
{
    let mut reads = false;
    for i in (0..subs.len()).rev() {
        reads = always_reads(&subs[i]) || reads;
    }
    reads
}

#[cycle(always_reads)]
fn each_reads(subs: &[Pattern]) -> bool
    ensures { result ≡ true → AlwaysReads (choice (map meaning subs.now)) }
{
    let mut reads = true;
    for i in (0..subs.len()).rev() {
        reads = always_reads(&subs[i]) && reads;
    }
    reads
}
