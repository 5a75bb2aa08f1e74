//! Which of several patterns match.

ghost use Rattle.std.specs.Prelude.{◌≡◌, ◌≤◌, ℕ, IfErr, IfOk, map, min, true};
ghost use Rattle.std.specs.Coded.{codes};
ghost use Rattle.determinize_engine.specs.Searches.{has_start};
ghost use Rattle.determinize_lazy.specs.MostBytes.{most_bytes};
ghost use Rattle.determinize_pattern.specs.contracts.pattern.Pattern as e;
ghost use Rattle.determinize_regex.specs.RegexBytes.{HasBytes};
ghost use Rattle.determinize_regex.specs.Private.Searched.{IsSet, value_of};
ghost use Rattle.determinize_regex.specs.Regexes.{HasOptions, IsNfaIn, meanings, RegexValue};
ghost use Rattle.determinize_regex.specs.Sets.{AreAtEnd, AreMatching};
ghost use Rattle.determinize_regex.specs.Spelled.{AreSpelled, IsRejected};

use crate::error::Error;
use crate::regex::{Regex, RegexConfig, parse_all};
use determinize_below::{AsNfa, Input, MatchKind, NFA, PatternID};
use determinize_find::laws::input_law;
use determinize_lazy::LazyDfa;
use determinize_pattern::{Pattern, compile};
use std::alloc::{AllocError, Allocator, Global};
use std::convert::AsSlice;
use std::marker::Model;

/// Several patterns, to find which of them match: all that do, not only the preferred one. The
/// first pattern is pattern 0.
///
/// It has one cache, which is kept from one search to the next. `P`, `R` and `A` are as for a
/// [`Regex`].
pub struct RegexSet<
    P: AsSlice<Pattern> + Drop = Vec<Pattern>,
    R: AsNfa = NFA,
    A: Allocator + Copy = Global,
> {
    patterns: P,
    lazy: LazyDfa<R, A>,
}

// Derived code is proved at each exit of each function that owns a set.
impl<P: AsSlice<Pattern> + Drop, R: AsNfa, A: Allocator + Copy> Drop for RegexSet<P, R, A> {
    fn drop(self) {
        let RegexSet {
            patterns: _,
            lazy: _,
        } = self;
    }
}

impl<P: AsSlice<Pattern> + Drop, R: AsNfa, A: Allocator + Copy> Model for RegexSet<P, R, A> {
    ghost Value = { RegexValue };

    ghost coded = { Prim.hlevel (codes, e.the_row.coded) };

    ghost view = { λ s. value_of (P.items s.patterns) s.lazy.nfa s.lazy.limit };

    ghost invariant = { λ s. IsSet (P.items s.patterns) s.lazy };
}

impl RegexSet {
    /// Returns the set of pattern strings. The errors are as in `Regex::new_many`.
    pub fn new(alloc: Global, patterns: &[&str], config: RegexConfig) -> Result<RegexSet, Error>
        ensures spelled { IfOk result (λ set.
            AreSpelled config.flags (meanings set) (map (λ t. t.now) patterns.now)) }
        ensures rejected { IfErr result
            (λ e. IsRejected config.flags (map (λ t. t.now) patterns.now) e) }
        ensures options { IfOk result (λ set. HasOptions config set) }
    {
        let parsed = parse_all(alloc, patterns, config.flags)?;
        let nfa = compile(alloc, &parsed, config.compile)?;
        Ok(RegexSet {
            patterns: parsed,
            lazy: LazyDfa::new_by_class(alloc, nfa, MatchKind::All, config.cache_limit),
        })
    }
}

impl Regex {
    /// Returns the set of these patterns, to find which of them match, with an empty cache of at
    /// most `limit` states. Does not allocate. Searches allocate from `alloc`.
    pub fn set<A: Allocator + Copy>(&self, alloc: A, limit: usize) -> RegexSet<&[Pattern], &NFA, A>
        ensures { result ≡ record self.now { limit = limit } }
    {
        RegexSet {
            patterns: self.patterns.as_slice(),
            lazy: self.search.forward().borrowed(alloc, MatchKind::All, limit),
        }
    }
}

impl<P: AsSlice<Pattern> + Drop, R: AsNfa, A: Allocator + Copy> RegexSet<P, R, A> {
    /// Returns the patterns.
    pub fn patterns(&self) -> &[Pattern]
        ensures { result.now ≡ self.now.patterns }
    {
        self.patterns.as_slice()
    }

    /// Returns the NFA of the patterns.
    pub fn nfa(&self) -> &NFA<R::N>
        ensures { IsNfaIn self.now result.now }
    {
        self.lazy.nfa()
    }

    /// Returns for each pattern whether it has a match in the range of an input: anywhere, or, if
    /// the input is anchored, from its start. The flag of a pattern is at its number. If the range
    /// starts past its end, no pattern has one. The list is allocated from `alloc`.
    pub fn matches<C: Allocator>(
        &mut self,
        alloc: C,
        input: &Input<'_>,
    ) -> Result<Vec<bool, C>, AllocError>
        requires start { has_start input.now.anchored ≡ true }
        ensures matching { IfOk result (λ flags. AreMatching self.old input.now flags.items) }
        ensures same { self.new ≡ self.old }
    {
        input_law(input);
        let mut flags = Vec::from_elem(alloc, false, self.patterns().len())?;
        self.lazy.which_patterns(input, &mut flags)?;
        Ok(flags)
    }

    /// Returns the patterns with a match that ends where the range of an input ends, the one whose
    /// match begins earliest first, and of those that begin at one index the one with the lower
    /// number. If the input is anchored, they match the whole range. If the range starts past its
    /// end, there are none. The list is allocated from the allocator of the set.
    pub fn matches_at_end(&mut self, input: &Input<'_>) -> Result<Vec<PatternID, A>, AllocError>
        requires start { has_start input.now.anchored ≡ true }
        ensures at_end { IfOk result (λ found. AreAtEnd self.old input.now found.items) }
        ensures same { self.new ≡ self.old }
    {
        input_law(input);
        self.lazy.patterns_after(input)
    }

    /// Returns the memory of the cached states, as `memory_usage` of a [`Regex`] does.
    pub fn memory_usage(&self) -> usize
        ensures cached { (bytes : ℕ) × HasBytes self.now.nfa self.now.limit bytes
            × (result ≡ min bytes usize.MAX) }
        ensures most { result ≤ most_bytes self.now.limit self.now.nfa }
    {
        self.lazy.cached_memory_usage()
    }

    /// Clears the cache, and keeps its memory. Later results are the same.
    pub fn clear(&mut self)
        ensures same { self.new ≡ self.old }
    {
        self.lazy.clear();
    }

    /// Clears the cache, and frees its memory and the working memory. Later results are the same.
    pub fn reset(&mut self)
        ensures same { self.new ≡ self.old }
    {
        self.lazy.reset();
    }
}
