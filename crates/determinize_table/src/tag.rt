//! What a search reads of a state, in one number: the tag in the last column of the state's row.
//! And the last match that a search has found.

ghost use Rattle.std.specs.Prelude.{◌≡◌, None, is_some};
ghost use Rattle.std.specs.Option.{option_or};
ghost use Rattle.determinize_table.specs.Tags.{is_last_tag, match_of, match_reported, tag_in, tag_of};

use determinize_below::{HalfMatch, PatternID};
use determinize_core::state::State;
use std::alloc::Allocator;

/// The bit of a dead state.
const DEAD: u32 = 1 << 31;

/// The first pattern of a state, and whether the state is dead: it records no NFA states, so no
/// match follows it.
#[derive(Clone, Copy)]
pub struct StateTag {
    /// The highest bit is set if the state is dead. The others are one more than the pattern, or 0
    /// for none.
    pub bits: u32,
}

impl StateTag {
    /// Returns the tag of a state.
    pub fn of<A: Allocator>(state: &State<A>) -> StateTag
        ensures { tag_in result.bits ≡ tag_of state.now }
    {
        let pattern = if state.is_match() {
            state.match_pattern(0).as_u32() + 1
        } else {
            0
        };
        let dead = if state.iter_nfa_state_ids().next().is_none() {
            DEAD
        } else {
            0
        };
        StateTag {
            bits: pattern + dead,
        }
    }

    /// Returns whether the state lists a pattern.
    #[inline(always)]
    fn is_match(self) -> bool
        ensures { result ≡ is_some (tag_in self.bits).pattern }
    {
        self.bits % DEAD > 0
    }

    /// Returns whether a search ends at the state: at a dead state and, if `earliest`, at a match
    /// state.
    #[inline(always)]
    pub fn is_last(self, earliest: bool) -> bool
        ensures { result ≡ is_last_tag earliest (tag_in self.bits) }
    {
        earliest && self.is_match() || self.bits >= DEAD
    }
}

/// The last match that a search has found, if any.
#[derive(Clone, Copy)]
pub struct LastMatch {
    /// The tag of the match state, 0 if there is none.
    pub tag: StateTag,
    /// How many units were read when the state was entered. Matches are delayed by one unit, so
    /// the match ends before the last of them. If it is 0, there is no match: the state is where
    /// the search began.
    pub read: usize,
}

impl LastMatch {
    /// No match.
    pub const NONE: LastMatch = LastMatch {
        tag: StateTag { bits: 0 },
        read: 0,
    };

    /// Returns the match of a state that was entered after `read` units, or this one if the state
    /// is no match state. There is no match before the first unit.
    #[inline(always)]
    pub fn or_match(self, tag: StateTag, read: usize) -> LastMatch
        ensures { (read ≡ 0 → match_of self ≡ None) → match_of result
            ≡ option_or (match_reported read (tag_in tag.bits).pattern) (match_of self) }
    {
        if tag.is_match() {
            LastMatch { tag, read }
        } else {
            self
        }
    }

    /// Returns the match, if there is one. Its offset is the number of bytes before its end.
    pub fn get(self) -> Option<HalfMatch>
        ensures { result ≡ match_of self }
    {
        let pattern = (self.tag.bits % DEAD) as usize;
        if pattern == 0 || self.read == 0 {
            return None;
        }
        Some(HalfMatch {
            pattern: PatternID::must(pattern - 1),
            offset: self.read - 1,
        })
    }
}
