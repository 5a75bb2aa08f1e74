//! The leftmost match by two searches: one forward for its end, and one backward for its start.

ghost use Rattle.std.specs.Prelude.{◌≡◌, ◌+◌, ◌++◌, ◌-◌, ◌<◌, ◌≤◌, ℕ, List, None, Option, false};
ghost use Rattle.std.specs.Prelude.{length, min, true, IfErr, IfOk, Ok, OnErr, OnOk};
ghost use Rattle.std.specs.Bool.{Decides};
ghost use Rattle.std.specs.Option.{IfSome};
ghost use Rattle.determinize_below.specs.Edges.{pattern_count};
ghost use Rattle.determinize_below.specs.Nfa.{IsAccepted};
ghost use Rattle.determinize_below.specs.Search.{is_done};
ghost use Rattle.determinize_below.specs.declared.search.MatchKind.TheVariants as kinds;
ghost use Rattle.determinize_engine.specs.Searches.{HasMatch, has_start};
ghost use Rattle.determinize_find.specs.LeftmostIn.{IsLeftmostIn, IsWithin};
ghost use Rattle.determinize_find.specs.Matches.{AreMatches};
ghost use Rattle.determinize_nfa.specs.Prefix.{HasPrefix, HasPrefixApart};
ghost use Rattle.determinize_find.specs.Endings.{IsEnding};
ghost use Rattle.determinize_find.specs.FullMatches.{IsFullMatch};
ghost use Rattle.determinize_find.specs.Private.Begins.{IsBeginOf};
ghost use Rattle.determinize_nfa.specs.Reversal.{IsReverseOf, IsTooLarge, most_states};
ghost use Rattle.determinize_find.specs.Regexes.{IsBackward, IsForward, value_of, with_limit};
ghost use Rattle.determinize_find.specs.Streams.{IsEndScan, IsScanOf};
ghost use Rattle.determinize_lazy.specs.MostBytes.{most_bytes};
ghost use Rattle.determinize_table.specs.CacheBytes.{cache_bytes};

use crate::finder::Finder;
use crate::iter::find_all;
use crate::laws::input_law;
use crate::prefix::has_prefix_apart;
use crate::reversal::reversed;
use determinize_below::nfa::BuildError;
use determinize_below::{Anchored, AsNfa, HalfMatch, Input, Match, MatchKind, NFA};
use determinize_core::start::byte_before;
use determinize_lazy::{Engine, LazyDfa, Scan};
use std::alloc::{AllocError, Allocator};
use std::marker::Model;

/// A search for the leftmost match: a DFA that finds its end, and one that reads backward and finds
/// its start. Either may be lazy, or built in advance (`determinize_dense`).
///
/// Over two lazy DFAs that own their NFAs (`from_nfa`) a function can return it, and a struct can
/// hold it. Others may borrow the NFAs of that one (`borrowed`).
#[derive(Drop)]
pub struct Regex<F: Engine, B: Engine<Error = F::Error>> {
    forward: F,
    backward: B,
    // Set only if the prefix of the NFA is apart (`has_prefix_apart`), which is else not known.
    is_known_apart: bool,
}

impl<F: Engine, B: Engine<Error = F::Error>> Model for Regex<F, B> {
    ghost use Rattle.determinize_find.specs.Regexes.{RegexValue, value_of};
    ghost use Rattle.determinize_find.specs.Private.Pairs.{IsPair};

    ghost Value = { RegexValue };

    ghost view = { λ r. value_of (F.engine r.forward) (B.engine r.backward) };

    ghost invariant = { λ r. IsPair (F.engine r.forward) (B.engine r.backward) r.is_known_apart };
}

#[tactic(auto, using(crate::proofs::leftmost::TwoSearches::pair_kept))]
impl<F: Engine, B: Engine<Error = F::Error>> Regex<F, B> {
    /// Returns a search by two DFAs: `forward` finds the ends of matches, and `backward` their
    /// starts. Does not allocate, and no search does if neither DFA does.
    ///
    /// `forward` must be under `MatchKind::LeftmostFirst`, and `backward` under `MatchKind::All`.
    /// The NFA of `forward` must read forward and have the usual prefix (`has_prefix`), and that of
    /// `backward` must be its reverse, as `reversed` returns it.
    pub fn from_engines(forward: F, backward: B) -> Regex<F, B>
        requires kind { (F.engine forward).kind ≡ kinds.LeftmostFirst }
        requires kind_backward { (B.engine backward).kind ≡ kinds.All }
        requires forward { (F.engine forward).nfa.reverse ≡ false }
        requires prefix { HasPrefix (F.engine forward).nfa }
        requires reverse { IsReverseOf (B.engine backward).nfa (F.engine forward).nfa }
        ensures { result ≡ value_of (F.engine forward) (B.engine backward) }
    {
        Regex {
            forward,
            backward,
            is_known_apart: false,
        }
    }

    /// Returns the DFA that finds the ends of matches.
    pub fn forward(&self) -> &F
        ensures { IsForward self.now (F.engine result.now) }
    {
        &self.forward
    }

    /// Returns the DFA that reads backward and finds the starts of matches.
    pub fn backward(&self) -> &B
        ensures { IsBackward self.now (B.engine result.now) }
    {
        &self.backward
    }

    /// Returns both DFAs, the one that finds the ends of matches first.
    pub fn into_engines(self) -> (F, B)
        ensures forward { IsForward self (F.engine result.0) }
        ensures backward { IsBackward self (B.engine result.1) }
    {
        (self.forward, self.backward)
    }

    /// Returns the pattern and the end of the leftmost match of an input, if any, as `find` does,
    /// but searches for no start.
    pub fn search_half(&mut self, input: &Input<'_>) -> Result<Option<HalfMatch>, F::Error>
        requires start { has_start input.now.anchored ≡ true }
        ensures leftmost { IfOk result (λ found. IsEnding self.old.nfa input.now found) }
        ensures within { IfOk result (λ found. IfSome found
            (λ m. (input.now.start ≤ m.offset) × (m.offset ≤ input.now.end))) }
        ensures same { self.new ≡ self.old }
    {
        input_law(input);
        self.forward.search_input(input)
    }

    /// Returns the farthest index, not before `start`, at which a match begins that has this end,
    /// or the end if none has it.
    pub(crate) fn search_start(
        &mut self,
        haystack: &[u8],
        start: usize,
        end: usize,
    ) -> Result<usize, F::Error>
        requires order { start ≤ end }
        requires within { end ≤ length haystack.now }
        ensures start { IfOk result
            (λ begin. IsBeginOf self.old.nfa haystack.now start end begin) }
        ensures inside { IfOk result (λ begin. (start ≤ begin) × (begin ≤ end)) }
        ensures same { self.new ≡ self.old }
    {
        let before = Input::new(haystack)
            .range(start..end)
            .anchored(Anchored::Yes);
        let Some(begin) = self.backward.search_input(&before)? else {
            return Ok(end);
        };
        Ok(begin.offset)
    }

    /// Returns the leftmost match of an input, if any: no match begins before it, and of those that
    /// begin at the same index it is the most preferred. Its ends are indices into the haystack.
    ///
    /// The bytes next to the range are seen by assertions. If the range starts past its end, the
    /// result is `Ok(None)`. An input that is anchored needs no search backward.
    pub fn find(&mut self, input: &Input<'_>) -> Result<Option<Match>, F::Error>
        requires start { has_start input.now.anchored ≡ true }
        ensures leftmost { IfOk result (λ found. IsLeftmostIn self.old.nfa input.now found) }
        ensures within { IfOk result (λ found. IfSome found (IsWithin input.now)) }
        ensures same { self.new ≡ self.old }
    {
        input_law(input);
        let Some(found) = self.search_half(input)? else {
            return Ok(None);
        };
        let start = match input.get_anchored() {
            Anchored::No => self.search_start(input.haystack(), input.start(), found.offset)?,
            Anchored::Yes | Anchored::Pattern(_) => input.start(),
        };
        Ok(Some(Match {
            pattern: found.pattern,
            start,
            end: found.offset,
        }))
    }

    /// Returns whether an input has a match. Stops where the end of one is found, or a few bytes
    /// later by a whole DFA. If the range starts past its end, the result is `Ok(false)`.
    pub fn is_match(&mut self, input: &Input<'_>) -> Result<bool, F::Error>
        requires start { has_start input.now.anchored ≡ true }
        ensures found { IfOk result
            (λ found. Decides found (IsLeftmostIn self.old.nfa input.now None → ⊥)) }
        ensures accepts { is_done input.now ≡ false → IfOk result
            (λ found. Decides found (HasMatch self.old.nfa input.now)) }
        ensures done { is_done input.now ≡ true → result ≡ Ok false }
        ensures same { self.new ≡ self.old }
    {
        input_law(input);
        self.forward.is_match(input)
    }

    /// Returns whether the whole range of an input is a match of some pattern, preferred or not:
    /// some run from the anchored start reads all of it and accepts. This is so for any anchored
    /// mode of the input. If the range starts past its end, the result is `Ok(false)`.
    ///
    /// Reads the range once, backward.
    pub fn is_full_match(&mut self, input: &Input<'_>) -> Result<bool, F::Error>
        ensures found { IfOk result
            (λ found. Decides found (IsFullMatch self.old.nfa input.now)) }
        ensures same { self.new ≡ self.old }
    {
        input_law(input);
        let range = input.from_index(input.start()).anchored(Anchored::Yes);
        let Some(begin) = self.backward.search_input(&range)? else {
            return Ok(false);
        };
        Ok(begin.offset == input.start())
    }

    /// Returns all matches of an input, in their order. Only the list is allocated from `alloc`.
    /// Returns `AllocError` if that fails, or if a search does.
    pub fn find_all<C: Allocator>(
        &mut self,
        alloc: C,
        input: &Input<'_>,
    ) -> Result<Vec<Match, C>, AllocError>
        requires start { has_start input.now.anchored ≡ true }
        ensures all { IfOk result (λ found. AreMatches self.old.nfa input.now None found.items) }
        ensures same { self.new ≡ self.old }
    {
        find_all(alloc, self, input)
    }
}

impl<F: Engine, B: Engine<Error = F::Error>> Finder for Regex<F, B> {
    type Error = F::Error;

    ghost nfa = { λ r. r.nfa };

    fn find(&mut self, input: &Input<'_>) -> Result<Option<Match>, F::Error> {
        self.find(input)
    }
}

impl<R: AsNfa, Q: AsNfa, A: Allocator + Copy> Regex<LazyDfa<R, A>, LazyDfa<Q, A>> {
    /// Returns a search with two empty caches of at most `limit` states each, as
    /// `LazyDfa::new_by_class` makes them. Does not allocate. Searches allocate from `alloc`.
    ///
    /// The NFA must read forward and have the usual prefix (`has_prefix`), and `backward` must be
    /// its reverse, as `reversed` returns it. Each is an NFA or a reference to one.
    pub fn new(alloc: A, nfa: R, backward: Q, limit: usize) -> Regex<LazyDfa<R, A>, LazyDfa<Q, A>>
        requires forward { (R.nfa nfa).reverse ≡ false }
        requires prefix { HasPrefix (R.nfa nfa) }
        requires reverse { IsReverseOf (Q.nfa backward) (R.nfa nfa) }
        ensures { result ≡ with_limit (R.nfa nfa) (Q.nfa backward) limit }
    {
        let is_known_apart = has_prefix_apart(nfa.nfa());
        Regex {
            forward: LazyDfa::new_by_class(alloc, nfa, MatchKind::LeftmostFirst, limit),
            backward: LazyDfa::new_by_class(alloc, backward, MatchKind::All, limit),
            is_known_apart,
        }
    }

    /// Returns a search that borrows the NFAs of this one, with two empty caches of at most `limit`
    /// states each. Does not allocate. Takes the classes of bytes, and whether the prefix is apart,
    /// from this search. Searches allocate from `alloc`.
    pub fn borrowed<C: Allocator + Copy>(
        &self,
        alloc: C,
        limit: usize,
    ) -> Regex<LazyDfa<&NFA<R::N>, C>, LazyDfa<&NFA<Q::N>, C>>
        ensures value { result ≡ with_limit self.now.nfa self.now.backward limit }
        ensures accepted { IsAccepted self.now.nfa }
    {
        Regex {
            forward: self
                .forward
                .borrowed(alloc, MatchKind::LeftmostFirst, limit),
            backward: self.backward.borrowed(alloc, MatchKind::All, limit),
            is_known_apart: self.is_known_apart,
        }
    }

    /// Returns the NFA.
    pub fn nfa(&self) -> &NFA<R::N>
        ensures value { result.now ≡ self.now.nfa }
        ensures accepted { IsAccepted self.now.nfa }
        ensures forward { self.now.nfa.reverse ≡ false }
        ensures prefix { HasPrefix self.now.nfa }
    {
        self.forward.nfa()
    }

    /// Returns the reverse of the NFA.
    pub fn reverse(&self) -> &NFA<Q::N>
        ensures value { result.now ≡ self.now.backward }
        ensures reverse { IsReverseOf result.now self.now.nfa }
    {
        self.backward.nfa()
    }

    /// Returns the heap memory of the cached states of both DFAs, in bytes: the value of
    /// `cached_memory_usage`. It is at most what the limits and the NFAs give.
    pub fn memory_usage(&self) -> usize
        ensures { result ≤ most_bytes self.now.limit self.now.nfa
            + most_bytes self.now.limit_backward self.now.backward }
    {
        cached_memory_usage(&self.forward, &self.backward)
    }

    /// Clears both caches, and keeps their memory.
    pub fn clear(&mut self)
        ensures { self.new ≡ self.old }
    {
        self.forward.clear();
        self.backward.clear();
    }

    /// Clears both caches, and frees their memory and the working memory.
    pub fn reset(&mut self)
        ensures { self.new ≡ self.old }
    {
        self.forward.reset();
        self.backward.reset();
    }
}

impl<A: Allocator + Copy> Regex<LazyDfa<NFA<A>, A>, LazyDfa<NFA<A>, A>> {
    /// Returns a search that owns its NFAs, with two empty caches as `new` makes them. The NFA and
    /// its reverse, which is made here, are allocated from `alloc`, and so are the caches later.
    ///
    /// The NFA must read forward and have the usual prefix (`has_prefix`). The errors are those of
    /// `reversed`.
    pub fn from_nfa(
        alloc: A,
        nfa: NFA<A>,
        limit: usize,
    ) -> Result<Regex<LazyDfa<NFA<A>, A>, LazyDfa<NFA<A>, A>>, BuildError>
        requires forward { nfa.reverse ≡ false }
        requires prefix { HasPrefix nfa }
        ensures nfa { IfOk result (λ regex. regex.nfa ≡ nfa) }
        ensures reverse { IfOk result (λ regex. IsReverseOf regex.backward nfa) }
        ensures limit { IfOk result (λ regex. regex.limit ≡ limit) }
        ensures limit_backward { IfOk result (λ regex. regex.limit_backward ≡ limit) }
        ensures size { IfOk result (λ regex. length regex.backward.states ≤ most_states nfa) }
        ensures pattern { IfOk result (λ regex. pattern_count regex.backward ≡ 1) }
        ensures err { IfErr result (λ e. IsTooLarge (most_states nfa) e) }
    {
        let backward = reversed(alloc, &nfa)?;
        Ok(Regex::new(alloc, nfa, backward, limit))
    }
}

/// Returns the heap memory of the cached states of both DFAs of a `Regex`, in bytes: of
/// `regex.forward()` and `regex.backward()`.
pub fn cached_memory_usage<R: AsNfa, Q: AsNfa, A: Allocator + Copy>(
    forward: &LazyDfa<R, A>,
    backward: &LazyDfa<Q, A>,
) -> usize
    ensures value { result
        ≡ min (cache_bytes forward.now.states + cache_bytes backward.now.states) usize.MAX }
    ensures most { result ≤ most_bytes forward.now.limit forward.now.nfa
        + most_bytes backward.now.limit backward.now.nfa }
{
    let usage = forward.cached_memory_usage();
    usage.saturating_add(backward.cached_memory_usage())
}

impl<R: AsNfa, A: Allocator + Copy, B: Engine<Error = AllocError>> Regex<LazyDfa<R, A>, B> {
    /// Returns the search for the end of the leftmost match of a haystack from an index on, after
    /// all of its bytes. More pieces of the text may follow.
    #[inline(always)]
    pub(crate) fn scan(&mut self, haystack: &[u8], start: usize) -> Result<Scan<A>, AllocError>
        requires { start ≤ length haystack.now }
        ensures scan { IfOk result (IsScanOf self.old.nfa haystack.now start) }
        ensures read { IfOk result (λ scan. scan.read ≡ length haystack.now - start) }
        ensures same { self.new ≡ self.old }
    {
        let unanchored = self.forward.nfa().start_unanchored();
        let behind = byte_before(haystack, start);
        self.forward
            .scan_text(unanchored, behind, &haystack[start..])
    }

    /// Reads the next piece of the text of a search that `scan` began. After an error the search is
    /// unchanged.
    pub(crate) fn feed(&mut self, scan: &mut Scan<A>, piece: &[u8]) -> Result<(), AllocError>
        ensures fed { (behind : Option ℕ) (bytes : List ℕ)
            → IsEndScan self.old.nfa behind bytes scan.old
            → OnOk result (IsEndScan self.old.nfa behind (bytes ++ piece.now) scan.new) }
        ensures read { OnOk result (scan.new.read ≡ scan.old.read + length piece.now) }
        ensures failed { OnErr result (scan.new ≡ scan.old) }
        ensures same { self.new ≡ self.old }
    {
        self.forward.feed(scan, piece)
    }

    /// Returns whether the prefix of the NFA is apart (`has_prefix_apart`).
    pub(crate) fn is_apart(&self) -> bool
        ensures { Decides result (HasPrefixApart self.now.nfa) }
    {
        self.is_known_apart || has_prefix_apart(self.forward.nfa())
    }
}
