//! Patterns that are compiled once, and searched for.

ghost use Rattle.std.specs.Prelude.{◌≡◌, ◌+◌, ◌-◌, ◌<◌, ◌≤◌, ◌∷◌, [], All, Decides, Err, IfErr, IfOk, IfSome, OnErr, false, length, map, true};
ghost use Rattle.std.specs.Coded.{codes};
ghost use Rattle.determinize_pattern.specs.Nesting.{deepest};
ghost use Rattle.determinize_pattern.specs.Patterns.{meaning};
ghost use Rattle.determinize_pattern.specs.declared.nfa.CompileError.TheVariants.{NestLimitExceeded};
ghost use Rattle.determinize_below.specs.Nfa.{IsAccepted};
ghost use Rattle.determinize_engine.specs.Searches.{has_start};
ghost use Rattle.determinize_find.specs.Cursors.{after_match};
ghost use Rattle.determinize_find.specs.LeftmostIn.{IsWithin, is_anchored};
ghost use Rattle.determinize_linear.specs.Tries.{most_tries};
ghost use Rattle.determinize_pattern.specs.contracts.pattern.Pattern as e;
ghost use Rattle.determinize_regex.specs.RegexBytes.{AreBytesOf, regex_bytes};
ghost use Rattle.determinize_regex.specs.Private.Searched.{IsSearchOf, value_of};
ghost use Rattle.determinize_regex.specs.Regexes.{AreAll, HasFirst, HasFull, HasOptions, IsFirst, IsFirstEnd, IsNextOf, IsNfaIn, IsRegex, meanings, RegexValue};
ghost use Rattle.determinize_regex.specs.Spelled.{AreSpelled, IsRejected};
ghost use Rattle.determinize_regex.specs.Streams.{IsStreamOf};
ghost use Rattle.determinize_syntax.specs.Words.{no_flags};

use crate::error::Error;
use crate::stream::Stream;
use determinize_below::{AsNfa, HalfMatch, Input, Match, NFA};
use determinize_find::{Finder, Pieces, Regex as Search, Searcher, cached_memory_usage};
use determinize_lazy::LazyDfa;
use determinize_linear::Tries;
use determinize_pattern::{CompileError, Config, Pattern, compile};
use determinize_syntax::{Flags, parse_with};
use std::alloc::{AllocError, Allocator, Global};
use std::convert::AsSlice;
use std::marker::Model;
use std::sync::ledger::Ledger;

/// The options of a regex: its limits, its line terminator, and the flags that hold where a pattern
/// begins.
#[derive(Debug, Drop)]
pub struct RegexConfig {
    /// The options of `compile`.
    pub compile: Config,
    /// The most states in each of its two caches.
    pub cache_limit: usize,
    /// The flags that hold where the text of a pattern begins.
    pub flags: Flags,
}

impl RegexConfig {
    /// Returns the usual options: those of `Config::new`, 10,000 states in each cache, and no flag.
    pub fn new() -> RegexConfig
        ensures state_limit { result.compile.state_limit ≡ 100000 }
        ensures nest_limit { result.compile.nest_limit ≡ 250 }
        ensures terminator { result.compile.look_matcher ≡ 10 }
        ensures cache_limit { result.cache_limit ≡ 10000 }
        ensures flags { result.flags ≡ no_flags }
    {
        RegexConfig {
            compile: Config::new(),
            cache_limit: 10_000,
            flags: Flags::new(),
        }
    }
}

/// Patterns that are compiled once, and searched for. The first pattern is pattern 0, and is
/// preferred.
///
/// With the default parameters a `Regex` owns all its parts, so a function can return it, and a
/// struct can hold it. Its caches and its working memory are kept from one search to the next. A
/// [`Matcher`] borrows the patterns and the NFAs of another regex, and has separate caches: one for
/// each thread or task. To search in a text that comes in pieces, make a [`Stream`].
///
/// `P` are the patterns, `R` are the NFA and its reverse, each owned or borrowed, and `A` is where
/// the caches are allocated.
pub struct Regex<
    P: AsSlice<Pattern> + Drop = Vec<Pattern>,
    R: AsNfa = NFA,
    A: Allocator + Copy = Global,
> {
    pub(crate) patterns: P,
    pub(crate) search: Search<LazyDfa<R, A>, LazyDfa<R, A>>,
}

/// A search for the patterns of a [`Regex`], with two separate caches.
pub type Matcher<'r, A = Global> = Regex<&'r [Pattern], &'r NFA, A>;

// Derived code is proved at each exit of each function that owns a regex.
impl<P: AsSlice<Pattern> + Drop, R: AsNfa, A: Allocator + Copy> Drop for Regex<P, R, A> {
    fn drop(self) {
        let Regex {
            patterns: _,
            search: _,
        } = self;
    }
}

impl<P: AsSlice<Pattern> + Drop, R: AsNfa, A: Allocator + Copy> Model for Regex<P, R, A> {
    ghost Value = { RegexValue };

    ghost coded = { Prim.hlevel (codes, e.the_row.coded) };

    ghost view = { λ r. value_of (P.items r.patterns) r.search.nfa r.search.limit };

    ghost invariant = { λ r. IsSearchOf (P.items r.patterns) r.search };
}

impl Regex {
    /// Returns the regex of a pattern string, with the usual options.
    ///
    /// Returns `Parse` with index 0 if `parse_with` rejects the text. Otherwise the errors are
    /// those of `from_patterns`.
    pub fn new(alloc: Global, pattern: &str) -> Result<Regex, Error>
        ensures spelled { IfOk result
            (λ regex. AreSpelled no_flags (meanings regex) (pattern.now ∷ [])) }
        ensures rejected { IfErr result (λ e. IsRejected no_flags (pattern.now ∷ []) e) }
        ensures terminator { IfOk result (λ regex. regex.terminator ≡ 10) }
        ensures limit { IfOk result (λ regex. regex.limit ≡ 10000) }
        ensures few { IfOk result (λ regex. length regex.nfa.states ≤ 100002) }
    {
        Regex::new_many(alloc, &[pattern], RegexConfig::new())
    }

    /// Returns the regex of pattern strings. The first is pattern 0, and is preferred.
    ///
    /// Returns `Parse` with the index of the first text that `parse_with` rejects. Otherwise the
    /// errors are those of `from_patterns`.
    pub fn new_many(alloc: Global, patterns: &[&str], config: RegexConfig) -> Result<Regex, Error>
        ensures spelled { IfOk result (λ regex.
            AreSpelled config.flags (meanings regex) (map (λ t. t.now) patterns.now)) }
        ensures rejected { IfErr result
            (λ e. IsRejected config.flags (map (λ t. t.now) patterns.now) e) }
        ensures options { IfOk result (λ regex. HasOptions config regex) }
    {
        let parsed = parse_all(alloc, patterns, config.flags)?;
        Ok(Regex::from_patterns(alloc, parsed, config)?)
    }

    /// Returns the patterns, compiled, with empty caches.
    ///
    /// Returns an error where `compile` does, or where `reversed` of `determinize_nfa` does.
    pub fn from_patterns(
        alloc: Global,
        patterns: Vec<Pattern>,
        config: RegexConfig,
    ) -> Result<Regex, CompileError>
        ensures patterns { IfOk result (λ regex. regex.patterns ≡ patterns.items) }
        ensures options { IfOk result (λ regex. HasOptions config regex) }
        ensures nested { config.compile.nest_limit < deepest patterns.items
            → result ≡ Err (NestLimitExceeded config.compile.nest_limit) }
    {
        let nfa = compile(alloc, &patterns, config.compile)?;
        let search = Search::from_nfa(alloc, nfa, config.cache_limit)?;
        Ok(Regex { patterns, search })
    }

    /// Returns a matcher of these patterns with two empty caches of at most `limit` states each.
    /// Does not allocate. Searches allocate from `alloc`.
    pub fn matcher<A: Allocator + Copy>(&self, alloc: A, limit: usize) -> Matcher<'_, A>
        ensures value { result ≡ record self.now { limit = limit } }
        ensures is { IsRegex result }
        ensures accepted { IsAccepted result.nfa }
    {
        Regex {
            patterns: self.patterns.as_slice(),
            search: self.search.borrowed(alloc, limit),
        }
    }

    /// Returns a search for these patterns in a text that comes in pieces, of which nothing is read
    /// yet, with two empty caches of at most `limit` states each. Does not allocate. The search
    /// allocates from `alloc`.
    pub fn stream<A: Allocator + Copy>(&self, alloc: A, limit: usize) -> Stream<'_, A>
        ensures value { result.regex ≡ record self.now { limit = limit } }
        ensures stream { IsStreamOf result [] [] }
    {
        Stream {
            patterns: self.patterns.as_slice(),
            search: self.search.borrowed(alloc, limit),
            pieces: Pieces::new(alloc),
        }
    }
}

impl<P: AsSlice<Pattern> + Drop, R: AsNfa, A: Allocator + Copy> Regex<P, R, A> {
    /// Returns the patterns.
    pub fn patterns(&self) -> &[Pattern]
        ensures { result.now ≡ self.now.patterns }
    {
        self.patterns.as_slice()
    }

    /// Returns the NFA of the patterns.
    pub fn nfa(&self) -> &NFA<R::N>
        ensures { IsNfaIn self.now result.now }
    {
        self.search.nfa()
    }

    /// Returns the leftmost match of an input, if any: no match begins before it, and of those that
    /// begin at the same index it is the preferred one. Its ends are indices into the haystack.
    ///
    /// The bytes next to the range are seen by assertions. If the range starts past its end, the
    /// result is `Ok(None)`.
    pub fn find(&mut self, input: &Input<'_>) -> Result<Option<Match>, AllocError>
        requires start { has_start input.now.anchored ≡ true }
        ensures leftmost { IfOk result (λ found. IsFirst self.old input.now found) }
        ensures within { IfOk result (λ found. IfSome found (IsWithin input.now)) }
        ensures same { self.new ≡ self.old }
    {
        self.search.find(input)
    }

    /// Returns the pattern and the end of the leftmost match of an input, if any, as `find` does,
    /// but searches for no start.
    pub fn search_half(&mut self, input: &Input<'_>) -> Result<Option<HalfMatch>, AllocError>
        requires start { has_start input.now.anchored ≡ true }
        ensures leftmost { IfOk result (λ found. IsFirstEnd self.old input.now found) }
        ensures within { IfOk result (λ found. IfSome found
            (λ m. (input.now.start ≤ m.offset) × (m.offset ≤ input.now.end))) }
        ensures same { self.new ≡ self.old }
    {
        self.search.search_half(input)
    }

    /// Returns whether an input has a match. Stops where the end of one is found.
    pub fn is_match(&mut self, input: &Input<'_>) -> Result<bool, AllocError>
        requires start { has_start input.now.anchored ≡ true }
        ensures found { IfOk result (λ found. Decides found (HasFirst self.old input.now)) }
        ensures same { self.new ≡ self.old }
    {
        self.search.is_match(input)
    }

    /// Returns all matches of an input, in their order: each is the leftmost one from the end of
    /// the one before on, but no empty match begins there. The list is allocated from `alloc`.
    pub fn find_all<C: Allocator>(
        &mut self,
        alloc: C,
        input: &Input<'_>,
    ) -> Result<Vec<Match, C>, AllocError>
        requires start { has_start input.now.anchored ≡ true }
        ensures all { IfOk result (λ found. AreAll self.old input.now found.items) }
        ensures same { self.new ≡ self.old }
    {
        self.search.find_all(alloc, input)
    }

    /// Returns all matches of an input, as `find_all` does, in a number of steps that is linear in
    /// its length, for any patterns (`find_all_counted` of `determinize_linear`). The list and the
    /// working memory are allocated from `alloc`: at most a byte for each NFA state and position,
    /// and a list for each position.
    ///
    /// Where no search reads far past the match that it finds, `find_all` is many times as fast.
    pub fn find_all_linear<C: Allocator + Copy>(
        &self,
        alloc: C,
        input: &Input<'_>,
    ) -> Result<Vec<Match, C>, AllocError>
        requires start { has_start input.now.anchored ≡ true }
        ensures all { IfOk result (λ found. AreAll self.now input.now found.items) }
    {
        determinize_linear::find_all(alloc, self.search.nfa(), input)
    }

    /// Returns the same as `find_all_linear`, and counts the tries of the search, as
    /// `find_all_counted` of `determinize_linear` does. On error too, they are linear in the length
    /// of the range.
    pub fn find_all_counted<C: Allocator + Copy, L: Ledger>(
        &self,
        alloc: C,
        input: &Input<'_>,
        tries: &mut Tries<L>,
    ) -> Result<Vec<Match, C>, AllocError>
        requires start { has_start input.now.anchored ≡ true }
        ensures all { IfOk result (λ found. AreAll self.now input.now found.items) }
        ensures linear { tries.new ≤ tries.old
            + most_tries self.now.nfa (input.now.end - input.now.start) }
        ensures counted { is_anchored self.now.nfa input.now.anchored ≡ false → IfOk result
            (λ _. tries.old + (input.now.end + 1 - input.now.start) ≤ tries.new) }
        ensures ends { IfOk result (λ found. All (λ m. tries.old
            + (m.end + 1 - input.now.start) ≤ tries.new) found.items) }
    {
        determinize_linear::find_all_counted(alloc, self.search.nfa(), input, tries)
    }

    /// Moves a cursor behind the next match of its input, and returns that match. After the last
    /// match the result is `Ok(None)`. If the result is `Ok(None)` or an error, the cursor does not
    /// move.
    ///
    /// The next match is the leftmost one from the end of the match before, but no empty match
    /// begins there. So the matches that follow one another are those of `find_all`.
    pub fn next_match(&mut self, searcher: &mut Searcher<'_>) -> Result<Option<Match>, AllocError>
        ensures next { IfOk result (λ found. IsNextOf self.old searcher.old found) }
        ensures after { IfOk result (λ found. searcher.new ≡ after_match searcher.old found) }
        ensures failed { OnErr result (searcher.new ≡ searcher.old) }
        ensures same { self.new ≡ self.old }
    {
        searcher.advance(&mut self.search)
    }

    /// Returns whether the whole range of an input is a match of some pattern, preferred or not. If
    /// the range starts past its end, the result is `Ok(false)`.
    pub fn is_full_match(&mut self, input: &Input<'_>) -> Result<bool, AllocError>
        ensures full { IfOk result (λ found. Decides found (HasFull self.old input.now)) }
        ensures same { self.new ≡ self.old }
    {
        self.search.is_full_match(input)
    }

    /// Returns the memory of the states of both caches, their rows and their entries in the maps,
    /// in bytes, without spare capacity and working memory. After `clear` it is 0, although the
    /// memory is kept; `reset` frees it.
    pub fn memory_usage(&self) -> usize
        ensures cached { AreBytesOf self.now result }
        ensures most { result ≤ regex_bytes self.now.limit self.now.nfa }
    {
        cached_memory_usage(self.search.forward(), self.search.backward())
    }

    /// Clears both caches. Their memory is kept for the states that come. Later results are the
    /// same.
    pub fn clear(&mut self)
        ensures same { self.new ≡ self.old }
    {
        self.search.clear();
    }

    /// Clears both caches, and frees their memory and the working memory of searches. Later results
    /// are the same.
    pub fn reset(&mut self)
        ensures same { self.new ≡ self.old }
    {
        self.search.reset();
    }
}

impl<P: AsSlice<Pattern> + Drop, R: AsNfa, A: Allocator + Copy> Finder for Regex<P, R, A> {
    type Error = AllocError;

    ghost nfa = { λ r. r.nfa };

    fn find(&mut self, input: &Input<'_>) -> Result<Option<Match>, AllocError> {
        self.search.find(input)
    }
}

/// Returns the patterns of texts, in their order. The flags hold where each begins.
///
/// Returns `Parse` with the index of the first text that `parse_with` rejects, and `Compile` if
/// there is no memory for the list.
pub fn parse_all(alloc: Global, texts: &[&str], flags: Flags) -> Result<Vec<Pattern>, Error>
    ensures spelled { IfOk result (λ patterns.
        AreSpelled flags (map meaning patterns.items) (map (λ t. t.now) texts.now)) }
    ensures rejected { IfErr result (λ e. IsRejected flags (map (λ t. t.now) texts.now) e) }
{
    let mut patterns = Vec::new(alloc);
    for i in 0..texts.len() {
        match parse_with(alloc, texts[i], flags) {
            Ok(pattern) => patterns.push(pattern)?,
            Err(error) => return Err(Error::Parse { index: i, error }),
        }
    }
    Ok(patterns)
}
