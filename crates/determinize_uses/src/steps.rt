//! A whole DFA that is read: one step at a time, and all matches of a haystack.

ghost use Rattle.std.specs.Prelude.{◌≡◌, None, length};
ghost use Rattle.determinize_below.specs.Semantics.{between};
ghost use Rattle.determinize_below.specs.declared.search.MatchKind.TheVariants as kinds;
ghost use Rattle.determinize_core.specs.Walk.{ListsAccepted};

use determinize_below::{Anchored, AsNfa, HalfMatch, PatternID};
use determinize_core::start::Config;
use determinize_dense::{Automaton, Dfa, Overlapping};
use std::alloc::{AllocError, Allocator, Global};

/// Returns the patterns that match a whole text, most preferred first.
pub fn patterns_of<'d, R: AsNfa, A: Allocator + Copy>(
    dfa: &'d Dfa<R, A>,
    text: &[u8],
) -> &'d [PatternID]
    requires { dfa.now.kind ≡ kinds.All }
    ensures { ListsAccepted dfa.now.nfa (between None text.now None)
        dfa.now.nfa.start_anchored (length text.now) result.now }
{
    let mut row = dfa.start_state(&Config::new().anchored(Anchored::Yes));
    for byte in text {
        row = dfa.next_state(row, *byte);
    }
    dfa.match_patterns(dfa.next_eoi_state(row))
}

/// Returns the ends of all matches in a haystack, with their patterns, wherever they begin: by a
/// DFA in memory, or one in the bytes of a file.
pub fn all_ends<D: Automaton>(
    alloc: Global,
    dfa: &D,
    haystack: &[u8],
) -> Result<Vec<HalfMatch>, AllocError> {
    let mut ends = Vec::new(alloc);
    let mut offset: usize = 0;
    for patterns in Overlapping::new(dfa, Anchored::No, None, haystack, None) {
        for pattern in patterns {
            ends.push(HalfMatch::new(pattern, offset))?;
        }
        offset = offset.saturating_add(1);
    }
    Ok(ends)
}
