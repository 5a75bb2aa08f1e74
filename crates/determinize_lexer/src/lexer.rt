//! The type of a lexer.

ghost use Rattle.std.specs.Prelude.{◌≡◌, ◌<◌, Err, IfErr, IfOk, drop, map};
ghost use Rattle.std.specs.Coded.{codes};
ghost use Rattle.determinize_below.specs.declared.search.MatchKind.TheVariants as kinds;
ghost use Rattle.determinize_dense.specs.Least.{IsLeast};
ghost use Rattle.determinize_find.specs.Streams.{whole};
ghost use Rattle.determinize_lexer.specs.Lexers.{IsDfaFor, IsLexerOf, LexerValue, OfPatterns, WasParsed, meanings};
ghost use Rattle.determinize_lexer.specs.Tokens.{AreTokensOf};
ghost use Rattle.determinize_lexer.specs.declared.error.Error.TheVariants.{Patterns};
ghost use Rattle.determinize_linear.specs.Tokens.{end_of_last};
ghost use Rattle.determinize_pattern.specs.Nesting.{deepest};
ghost use Rattle.determinize_pattern.specs.contracts.pattern.Pattern as e;
ghost use Rattle.determinize_pattern.specs.declared.nfa.CompileError.TheVariants.{NestLimitExceeded};
ghost use Rattle.determinize_regex.specs.Spelled.{AreSpelled, IsRejected};
ghost use Rattle.determinize_regex.specs.declared.error.Error.TheVariants.{Compile};
ghost use Rattle.determinize_syntax.specs.Words.{no_flags};

use crate::error::Error;
use determinize_below::{Input, Match, MatchKind, NFA};
use determinize_dense::{Dfa, DfaError};
use determinize_linear::lexer;
use determinize_pattern::{Config, Pattern, compile_anchored};
use determinize_regex::parse_all;
use determinize_syntax::Flags;
use std::alloc::{AllocError, Allocator, Global};
use std::marker::Model;

/// The options of a lexer: its limits, its line terminator, and the flags that hold where a pattern
/// begins.
#[derive(Debug, Drop)]
pub struct LexerConfig {
    /// The options of `compile_anchored`.
    pub compile: Config,
    /// The most states of the whole DFA before it is minimized.
    pub dfa_limit: usize,
    /// The flags that hold where the text of a pattern begins.
    pub flags: Flags,
}

impl LexerConfig {
    /// Returns the usual options: those of `Config::new`, 10,000 states of the whole DFA, and no
    /// flag.
    pub fn new() -> LexerConfig
        ensures state_limit { result.compile.state_limit ≡ 100000 }
        ensures nest_limit { result.compile.nest_limit ≡ 250 }
        ensures terminator { result.compile.look_matcher ≡ 10 }
        ensures dfa_limit { result.dfa_limit ≡ 10000 }
        ensures flags { result.flags ≡ no_flags }
    {
        LexerConfig {
            compile: Config::new(),
            dfa_limit: 10_000,
            flags: Flags::new(),
        }
    }
}

/// Patterns, one for each kind of token, and their smallest whole DFA. The first pattern is pattern
/// 0; of patterns that match the same bytes, the first is preferred.
///
/// It owns all its parts, so a function can return it, and a struct can hold it. Nothing in it
/// changes, so it may be shared.
pub struct Lexer {
    patterns: Vec<Pattern>,
    dfa: Dfa<NFA>,
}

// Derived code is proved at each exit of each function that owns a lexer.
impl Drop for Lexer {
    fn drop(self) {
        let Lexer {
            patterns: _,
            dfa: _,
        } = self;
    }
}

impl Model for Lexer {
    ghost Value = { LexerValue };

    ghost coded = { Prim.hlevel (codes, e.the_row.coded) };

    ghost view = { λ l. record { patterns = l.patterns.items; terminator = l.dfa.nfa.terminator } };

    ghost invariant = { λ l. IsLexerOf l.patterns.items l.dfa };
}

impl Lexer {
    /// Returns the lexer of pattern strings. The first is pattern 0.
    ///
    /// Returns `Patterns` if a text is rejected (the first such, with its index) or if
    /// `compile_anchored` returns an error, and `Dfa` if the whole DFA would have too many states
    /// or an allocation fails.
    pub fn new(alloc: Global, patterns: &[&str], config: LexerConfig) -> Result<Lexer, Error>
        ensures spelled { IfOk result (λ lexer.
            AreSpelled config.flags (meanings lexer) (map (λ t. t.now) patterns.now)) }
        ensures rejected { IfErr result (OfPatterns
            (IsRejected config.flags (map (λ t. t.now) patterns.now))) }
        ensures terminator { IfOk result (λ lexer.
            lexer.terminator ≡ config.compile.look_matcher) }
    {
        let parsed = parse_all(alloc, patterns, config.flags)?;
        Lexer::from_patterns(alloc, parsed, config)
    }

    /// Returns the lexer of patterns. The errors are as in `new`, but none is of a text.
    pub fn from_patterns(
        alloc: Global,
        patterns: Vec<Pattern>,
        config: LexerConfig,
    ) -> Result<Lexer, Error>
        ensures patterns { IfOk result (λ lexer. lexer.patterns ≡ patterns.items) }
        ensures parsed { IfErr result (OfPatterns WasParsed) }
        ensures nested { config.compile.nest_limit < deepest patterns.items → result
            ≡ Err (Patterns (Compile (NestLimitExceeded config.compile.nest_limit))) }
        ensures terminator { IfOk result (λ lexer.
            lexer.terminator ≡ config.compile.look_matcher) }
    {
        let nfa = compile_anchored(alloc, &patterns, config.compile)?;
        let dfa = smallest(alloc, nfa, config.dfa_limit)?;
        Ok(Lexer { patterns, dfa })
    }

    /// Returns the patterns.
    pub fn patterns(&self) -> &[Pattern]
        ensures { result.now ≡ self.now.patterns }
    {
        self.patterns.as_slice()
    }

    /// Returns the whole DFA, to be drawn or kept as bytes. Each search by it is anchored.
    pub fn dfa(&self) -> &Dfa<NFA>
        ensures { IsDfaFor self.now result.now }
    {
        &self.dfa
    }

    /// Returns the tokens of a text: each begins where the one before it ends, has one byte or
    /// more, and is the longest match there, of the first pattern that has it. The list ends with
    /// the text, or where no token begins: [`rest`] is what is left.
    ///
    /// The number of steps is linear in the length of the text, for any patterns
    /// (`lexer::tokens_counted` of `determinize_linear`). The list and a bit for each row of the
    /// DFA and each byte of the text are allocated from `alloc`.
    pub fn tokens<A: Allocator + Copy>(
        &self,
        alloc: A,
        text: &[u8],
    ) -> Result<Vec<Match, A>, AllocError>
        ensures { IfOk result (λ found. AreTokensOf self.now.terminator (meanings self.now)
            (whole text.now) found.items) }
    {
        self.tokens_in(alloc, &Input::new(text))
    }

    /// Returns the tokens of an input, as `tokens` does: the first begins where its range starts.
    /// The bytes next to the range are seen by assertions. The anchored mode makes no difference.
    pub fn tokens_in<A: Allocator + Copy>(
        &self,
        alloc: A,
        input: &Input<'_>,
    ) -> Result<Vec<Match, A>, AllocError>
        ensures { IfOk result (λ found. AreTokensOf self.now.terminator (meanings self.now)
            input.now found.items) }
    {
        lexer::tokens(alloc, &self.dfa, input)
    }
}

/// Returns the smallest whole DFA under `MatchKind::All`.
fn smallest(alloc: Global, nfa: NFA, limit: usize) -> Result<Dfa<NFA>, DfaError>
    ensures nfa { IfOk result (λ dfa. dfa.nfa ≡ nfa) }
    ensures kind { IfOk result (λ dfa. dfa.kind ≡ kinds.All) }
    ensures least { IfOk result (λ dfa. IsLeast dfa.nfa dfa.table) }
{
    let dfa = Dfa::build(alloc, nfa, MatchKind::All, limit)?;
    Ok(dfa.into_minimized(alloc)?)
}

/// Returns the bytes of a text behind the last of these tokens: none if the tokens cover the text.
/// After `Lexer::tokens` no token begins where they do.
pub fn rest<'t>(text: &'t [u8], tokens: &[Match]) -> &'t [u8]
    ensures { result.now ≡ drop (end_of_last 0 tokens.now) text.now }
{
    let end = match tokens.last() {
        Some(last) => last.end.min(text.len()),
        None => 0,
    };
    &text[end..]
}
