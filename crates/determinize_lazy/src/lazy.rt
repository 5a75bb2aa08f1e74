//! A bounded cache of transitions.
//!
//! The cache is cleared as a whole: by `clear` and `reset`, by a computed transition that does not
//! fit, and if the target of one that is added cannot be cached. No single state or transition is
//! ever removed, so between two clears the id of a cached state stays the same.

ghost use Rattle.std.specs.Prelude.{◌≡◌, ◌≤◌, ◌*◌, length, min, None, Some};
ghost use Rattle.std.specs.Option.{IfSome};
ghost use Rattle.determinize_lazy.specs.Clauses.{AreClassesOf, cache, cache_bytes, Classes, empty, empty_cache, Grows, IsAccepted, IsTable, most_bytes, step_of};
ghost use Rattle.determinize_engine.specs.declared.state_table.TheConstants.{MAX_STATES};

use determinize_below::{AsNfa, MatchKind, NFA};
use determinize_core::determinize::Scratch;
use determinize_table::{ClassSpans, TransitionTable};
use std::alloc::{Allocator, Global};
use std::fmt;
use std::marker::Model;

/// The credit of scans before any.
const CREDIT: u16 = 64;

/// A lazy DFA: an NFA with a bounded cache of the transitions of its DFA.
///
/// `LazyDfa<NFA<N>, A>` owns its NFA, so a function can return it and a struct can hold it.
/// `LazyDfa<&NFA<N>, A>`, or `Lazy`, borrows it.
///
/// A state is cached if it is the source or the target of a cached transition. A transition that
/// was computed is cached if the cached states, its source and its target are together at most
/// `limit` states. If they are more, the cache is cleared, and the transition is cached if its two
/// states alone are at most `limit`. If they are not, nothing is cached. In a cache of
/// `new_by_class` one computed step gives a transition over each byte of a class.
///
/// A walk or a search starts from the NFA state `start`, whose id must be below the number of
/// states. `look_behind` is the byte just before the text, and `look_ahead` the one just after it:
/// `None` if the input begins or ends there. A text is in reading order: for a reverse NFA from the
/// last byte on.
///
/// A walk or a search returns `AllocError` if an allocation fails, or if more than 16647160 states
/// would be cached, since rows have the offsets of rows in 32 bits. `feed`, `finish` and `next` do
/// so, too, if the state of the scan or the walker, which may be one of another NFA, has an id that
/// is not one of a state of this NFA, or lists more patterns or NFA states than it has. After an
/// error the cache is empty or as it was after some of the steps of the call, and `computed` is as
/// it was after these steps or after one more; the NFA, the match kind and the limit are unchanged.
pub struct LazyDfa<R: AsNfa, A: Allocator = Global> {
    pub(crate) nfa: R,
    pub(crate) match_kind: MatchKind,
    pub(crate) scratch: Scratch<A>,
    pub(crate) alloc: A,
    pub(crate) limit: usize,
    pub(crate) computed: u64,
    pub(crate) table: TransitionTable<A>,
    pub(crate) spans: Option<ClassSpans>,
    /// How many more scans may be too short to save time until searches scan late only.
    pub(crate) credit: u16,
}

/// A lazy DFA that borrows its NFA.
pub type Lazy<'n, N = Global, A = Global> = LazyDfa<&'n NFA<N>, A>;

// Derived code is proved at each exit of each function that owns a cache, and takes three times as
// long.
impl<R: AsNfa, A: Allocator> Drop for LazyDfa<R, A> {
    fn drop(self) {
        let LazyDfa {
            nfa: _,
            match_kind: _,
            scratch: _,
            alloc: _,
            limit: _,
            computed: _,
            table: _,
            spans: _,
            credit: _,
        } = self;
    }
}

impl<R: AsNfa, A: Allocator> Model for LazyDfa<R, A> {
    ghost use Rattle.determinize_lazy.specs.Cache.{LazyValue};
    ghost use Rattle.determinize_lazy.specs.Private.Invariant.{IsLazy};

    ghost Value = { LazyValue };

    ghost view = { λ a. record {
      nfa = R.nfa a.nfa;
      kind = a.match_kind;
      limit = a.limit;
      states = a.table.states;
      rows = a.table.rows;
      computed = a.computed;
      classes = a.spans;
    } };

    ghost invariant = { λ a. IsLazy (R.nfa a.nfa) a.match_kind a.limit a.computed a.spans
        a.table };
}

impl<R: AsNfa, A: Allocator + Copy> LazyDfa<R, A> {
    /// Returns an empty cache of at most `limit` states. Does not allocate. Walks and searches
    /// allocate from `alloc`.
    pub fn new(alloc: A, nfa: R, match_kind: MatchKind, limit: usize) -> LazyDfa<R, A>
        ensures cache { cache result ≡ empty_cache (R.nfa nfa) match_kind limit None }
        ensures nfa { result.nfa ≡ R.nfa nfa }
        ensures kind { result.kind ≡ match_kind }
    {
        // Only for the proof: the contract of `len` says that the NFA is valid.
        let _ = nfa.nfa().len();
        LazyDfa::with_spans(alloc, nfa, match_kind, limit, None)
    }

    /// Returns an empty cache of at most `limit` states, as `new` does, in which a computed step is
    /// cached over each byte of the class of its byte (`NFA::byte_classes`): these steps are equal.
    /// So fewer are computed. Does not allocate.
    ///
    /// Computes the classes, in one pass over the states of the NFA.
    ///
    /// Only the steps from a state whose look-need has an assertion that the NFA does not have are
    /// computed apart for each byte. No walk over this NFA has such a state.
    pub fn new_by_class(alloc: A, nfa: R, match_kind: MatchKind, limit: usize) -> LazyDfa<R, A>
        ensures cache { cache result ≡ empty_cache (R.nfa nfa) match_kind limit result.classes }
        ensures classes { (p : Classes) × (result.classes ≡ Some p) × AreClassesOf (R.nfa nfa) p }
        ensures nfa { result.nfa ≡ R.nfa nfa }
        ensures kind { result.kind ≡ match_kind }
    {
        let spans = Some(ClassSpans::new(nfa.nfa().byte_classes()));
        LazyDfa::with_spans(alloc, nfa, match_kind, limit, spans)
    }

    /// Returns an empty cache of at most `limit` states over the same NFA, which it borrows, for
    /// this match kind. It has the same classes of bytes, which are not found again. Does not
    /// allocate.
    pub fn borrowed<B: Allocator + Copy>(
        &self,
        alloc: B,
        match_kind: MatchKind,
        limit: usize,
    ) -> LazyDfa<&NFA<R::N>, B>
        ensures cache { cache result ≡ empty_cache self.now.nfa match_kind limit self.now.classes }
        ensures nfa { result.nfa ≡ self.now.nfa }
        ensures accepted { IsAccepted self.now.nfa }
        ensures kind { result.kind ≡ match_kind }
    {
        let spans = match &self.spans {
            Some(spans) => Some(spans.copied()),
            None => None,
        };
        LazyDfa::with_spans(alloc, self.nfa.nfa(), match_kind, limit, spans)
    }

    /// Returns an empty cache with these classes of bytes.
    fn with_spans(
        alloc: A,
        nfa: R,
        match_kind: MatchKind,
        limit: usize,
        spans: Option<ClassSpans>,
    ) -> LazyDfa<R, A>
        requires accepted { IsAccepted (R.nfa nfa) }
        requires classes { IfSome spans (λ p. AreClassesOf (R.nfa nfa) p) }
        ensures { cache result ≡ empty_cache (R.nfa nfa) match_kind limit spans }
    {
        LazyDfa {
            nfa,
            match_kind,
            scratch: Scratch::new(alloc),
            alloc,
            limit,
            computed: 0,
            table: TransitionTable::new(alloc),
            spans,
            credit: CREDIT,
        }
    }

    /// Returns the NFA.
    pub fn nfa(&self) -> &NFA<R::N>
        ensures value { result.now ≡ self.now.nfa }
        ensures accepted { IsAccepted self.now.nfa }
    {
        self.nfa.nfa()
    }

    /// Returns the match kind.
    pub fn match_kind(&self) -> MatchKind
        ensures { result ≡ self.now.kind }
    {
        self.match_kind
    }

    /// Returns the limit, the greatest number of cached states.
    pub fn limit(&self) -> usize
        ensures { result ≡ self.now.limit }
    {
        self.limit
    }

    /// Returns the number of cached states, at most `MAX_STATES`, which is 16647160.
    pub fn states_kept(&self) -> usize
        ensures value { result ≡ length self.now.states }
        ensures table { IsTable (step_of (cache self.now)) (cache self.now).table }
        ensures limit { result ≤ self.now.limit }
        ensures few { result ≤ MAX_STATES }
    {
        self.table.len()
    }

    /// Returns the number of steps that were computed since the cache was made. It stays at
    /// `u64::MAX` once it is there.
    pub fn computed(&self) -> u64
        ensures { result ≡ self.now.computed }
    {
        self.computed
    }

    /// Returns the heap memory that the cache uses now, in bytes.
    ///
    /// This counts the cached states, their rows, and the working memory of the steps with its
    /// spare capacity. It does not count the size of the `LazyDfa` itself, the NFA, free places of
    /// the map that finds a state by its bytes, or spare capacity for states and rows.
    pub fn memory_usage(&self) -> usize
        ensures rows { length self.now.states * 1032 ≤ result }
        ensures cached { min (cache_bytes self.now.states) usize.MAX ≤ result }
    {
        self.table
            .memory_usage()
            .saturating_add(self.scratch.memory_usage())
    }

    /// Returns the part of this memory that is of the cached states and of their rows: 1104 bytes
    /// for each, and twice the length of its encoding if that is more than 30.
    pub fn cached_memory_usage(&self) -> usize
        ensures rows { length self.now.states * 1032 ≤ result }
        ensures value { result ≡ min (cache_bytes self.now.states) usize.MAX }
        ensures most { result ≤ most_bytes self.now.limit self.now.nfa }
    {
        self.table.memory_usage()
    }

    /// Clears the cache, and keeps its memory for the states that come. Does not reset `computed`.
    pub fn clear(&mut self)
        ensures cache { cache self.new ≡ record (cache self.old) { table = empty } }
        ensures grows { Grows (cache self.old) (cache self.new) }
    {
        self.table.clear();
    }

    /// Clears the cache, as `clear` does, and frees its memory and that of the steps.
    pub fn reset(&mut self)
        ensures cache { cache self.new ≡ record (cache self.old) { table = empty } }
        ensures grows { Grows (cache self.old) (cache self.new) }
    {
        self.table = TransitionTable::new(self.alloc);
        self.scratch = Scratch::new(self.alloc);
    }
}

// `Debug` gives the sizes, without the NFA and the states.
impl<R: AsNfa, A: Allocator + Copy> fmt::Debug for LazyDfa<R, A> {
    fn fmt<W: fmt::Write>(&self, f: &mut fmt::Formatter<W>) -> fmt::Result {
        f.debug_struct("LazyDfa")
            .field("match_kind", &self.match_kind())
            .field("limit", &self.limit())
            .field("states_kept", &self.states_kept())
            .field("computed", &self.computed())
            .finish_non_exhaustive()
    }
}

impl<'n, N: Allocator, A: Allocator + Copy> Lazy<'n, N, A> {
    /// Returns the NFA, with the lifetime of the borrow.
    pub fn lent_nfa(&self) -> &'n NFA<N>
        ensures value { result.now ≡ self.now.nfa }
        ensures accepted { IsAccepted self.now.nfa }
    {
        self.nfa
    }
}
