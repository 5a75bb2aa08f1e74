//! The NFA of several patterns.

ghost use Rattle.std.specs.Prelude.{◌≡◌, ◌+◌, ◌<◌, ◌≤◌, Err, IfOk, OnOk, false, length, map, vec_len};
ghost use Rattle.determinize_nfa.specs.Prefix.{HasPrefix, HasPrefixApart};
ghost use Rattle.determinize_pattern.specs.Compiled.{IsNfaOf};
ghost use Rattle.determinize_pattern.specs.Nesting.{deepest};
ghost use Rattle.determinize_pattern.specs.Patterns.{meaning};
ghost use Rattle.determinize_pattern.specs.Private.Compiling.{AddsMatches, BeginsAll, FindsAll, Paid};
ghost use Rattle.determinize_pattern.specs.declared.nfa.CompileError.TheVariants.{NestLimitExceeded};

use crate::compiler::Compiler;
use crate::nesting::are_within;
use crate::pattern::Pattern;
use determinize_below::{BuildError, LookMatcher, NFA, StateID};
use std::alloc::{AllocError, AllocFailed, Allocator};
use std::error::Error;
use std::fmt;

/// The options of `compile` and `compile_anchored`.
#[derive(Debug, Drop)]
pub struct Config {
    /// The budget of `compile`, for the patterns together: each state costs one, and so does each
    /// part of a pattern each time that it is compiled, once for each place where it may be
    /// entered. The bytes with which a pattern or a branch begins cost their states only, which
    /// others share. Where one state reads the first byte of all branches, their first classes cost
    /// only that state. The two states of the prefix are free.
    pub state_limit: usize,
    /// The greatest depth of a pattern. The recursion of `compile` is as deep.
    pub nest_limit: u32,
    /// The line terminator of `StartLF` and `EndLF`.
    pub look_matcher: LookMatcher,
}

impl Config {
    /// Returns the usual options: a budget of 100,000, a depth of at most 250, and `\n` as the line
    /// terminator.
    pub fn new() -> Config
        ensures limit { result.state_limit ≡ 100000 }
        ensures depth { result.nest_limit ≡ 250 }
        ensures terminator { result.look_matcher ≡ 10 }
    {
        Config {
            state_limit: 100_000,
            nest_limit: 250,
            look_matcher: LookMatcher::new(),
        }
    }
}

/// An error from `compile` or `compile_anchored`.
#[derive(Clone, Copy, Debug, PartialEq, Eq)]
pub enum CompileError {
    /// The patterns need more states, or more calls, than the limit allows.
    ExceededSizeLimit,
    /// A pattern is nested deeper than this limit of the options.
    NestLimitExceeded(u32),
    /// The NFA was not built. Of patterns only `OutOfMemory` and `TooManyStates` are expected, but
    /// no contract says so.
    Build(BuildError),
}

impl fmt::Display for CompileError {
    fn fmt<W: fmt::Write>(&self, f: &mut fmt::Formatter<W>) -> fmt::Result {
        match self {
            CompileError::ExceededSizeLimit => f.write_str("the patterns exceed the size limit"),
            CompileError::NestLimitExceeded(limit) => {
                write!(f, "a pattern is nested deeper than {limit} levels")
            }
            CompileError::Build(error) => fmt::Display::fmt(error, f),
        }
    }
}

impl Error for CompileError {}

impl From<BuildError> for CompileError {
    ghost use Rattle.determinize_pattern.specs.declared.nfa.CompileError.TheVariants.{Build};

    ghost from_gives = { λ error e. e ≡ Build error };

    fn from(error: BuildError) -> CompileError {
        CompileError::Build(error)
    }
}

impl From<AllocError> for CompileError {
    ghost use Rattle.determinize_below.specs.declared.nfa.BuildError.TheVariants.{OutOfMemory};
    ghost use Rattle.determinize_pattern.specs.declared.nfa.CompileError.TheVariants.{Build};

    ghost from_gives = { λ _ e. e ≡ Build OutOfMemory };

    fn from(_error: AllocError) -> CompileError {
        CompileError::Build(BuildError::OutOfMemory)
    }
}

impl<T: Drop> From<AllocFailed<T>> for CompileError {
    ghost use Rattle.determinize_below.specs.declared.nfa.BuildError.TheVariants.{OutOfMemory};
    ghost use Rattle.determinize_pattern.specs.declared.nfa.CompileError.TheVariants.{Build};

    ghost from_gives = { λ _ e. e ≡ Build OutOfMemory };

    fn from(_error: AllocFailed<T>) -> CompileError {
        CompileError::Build(BuildError::OutOfMemory)
    }
}

/// Returns the NFA of the patterns, with the usual prefix as its unanchored start. The first
/// pattern is pattern 0, and is preferred.
///
/// Returns `NestLimitExceeded` if a pattern is nested deeper than the limit of `config`,
/// `ExceededSizeLimit` if the budget does not suffice, and `Build` if an allocation fails or there
/// are too many states.
pub fn compile<A: Allocator + Copy>(
    alloc: A,
    patterns: &[Pattern],
    config: Config,
) -> Result<NFA<A>, CompileError>
    ensures means { IfOk result (λ nfa. IsNfaOf (map meaning patterns.now) nfa) }
    ensures prefix { IfOk result (λ nfa. HasPrefix nfa) }
    ensures separate { IfOk result (λ nfa. HasPrefixApart nfa) }
    ensures forward { IfOk result (λ nfa. nfa.reverse ≡ false) }
    ensures terminator { IfOk result (λ nfa. nfa.terminator ≡ config.look_matcher) }
    ensures few { IfOk result (λ nfa. length nfa.states ≤ config.state_limit + 2) }
    ensures nested { config.nest_limit < deepest patterns.now
        → result ≡ Err (NestLimitExceeded config.nest_limit) }
{
    if !are_within(patterns, config.nest_limit) {
        return Err(CompileError::NestLimitExceeded(config.nest_limit));
    }
    let mut compiler = Compiler::new(alloc, config);
    let start = compiler.all(patterns)?;
    Ok(compiler.builder.build_with_prefix(start)?)
}

/// Returns the NFA of the patterns, as `compile` does, but without the prefix: both starts are the
/// anchored one, so each search by it is anchored. So a whole DFA of it has fewer rows, and a lexer
/// needs no more.
///
/// The errors are those of `compile`.
pub fn compile_anchored<A: Allocator + Copy>(
    alloc: A,
    patterns: &[Pattern],
    config: Config,
) -> Result<NFA<A>, CompileError>
    ensures means { IfOk result (λ nfa. IsNfaOf (map meaning patterns.now) nfa) }
    ensures anchored { IfOk result (λ nfa. nfa.start_unanchored ≡ nfa.start_anchored) }
    ensures forward { IfOk result (λ nfa. nfa.reverse ≡ false) }
    ensures terminator { IfOk result (λ nfa. nfa.terminator ≡ config.look_matcher) }
    ensures few { IfOk result (λ nfa. length nfa.states ≤ config.state_limit) }
    ensures nested { config.nest_limit < deepest patterns.now
        → result ≡ Err (NestLimitExceeded config.nest_limit) }
{
    if !are_within(patterns, config.nest_limit) {
        return Err(CompileError::NestLimitExceeded(config.nest_limit));
    }
    let mut compiler = Compiler::new(alloc, config);
    let start = compiler.all(patterns)?;
    Ok(compiler.builder.build(start, start)?)
}

impl<A: Allocator + Copy> Compiler<A> {
    /// Adds the states of all patterns, and returns where they begin.
    fn all(&mut self, patterns: &[Pattern]) -> Result<StateID, CompileError>
        requires { self.old.builder.patterns ≡ 0 }
        ensures finds { IfOk result (λ s. FindsAll self.new.builder (map meaning patterns.now) s) }
        ensures terminator { OnOk result
            (self.new.builder.terminator ≡ self.old.builder.terminator) }
        ensures paid { OnOk result
            (Paid self.old.builder self.old.left self.new.builder self.new.left) }
    {
        let matches = self.matches(patterns.len())?;
        self.start(patterns, &matches)
    }

    /// Adds a match state for each pattern, and returns their ids.
    fn matches(&mut self, count: usize) -> Result<Vec<StateID, A>, CompileError>
        requires { self.old.builder.patterns ≡ 0 }
        ensures added { IfOk result
            (λ v. AddsMatches self.old.builder self.new.builder v.items) }
        ensures len { IfOk result (λ v. vec_len v ≡ count) }
        ensures paid { OnOk result
            (Paid self.old.builder self.old.left self.new.builder self.new.left) }
    {
        let mut ids = Vec::new(self.alloc);
        for n in 0..count {
            self.spend(1)?;
            let id = self.builder.add_match()?;
            ids.push(id)?;
        }
        Ok(ids)
    }

    /// Adds the states of the patterns, each in front of its match state, as words in front of what
    /// follows them, so that they share prefixes. Returns where they begin.
    fn start(&mut self, patterns: &[Pattern], matches: &[StateID]) -> Result<StateID, CompileError>
        requires { length matches.now ≡ length patterns.now }
        ensures begins { IfOk result (λ s. BeginsAll self.old.builder self.new.builder
            matches.now (map meaning patterns.now) s) }
        ensures terminator { OnOk result
            (self.new.builder.terminator ≡ self.old.builder.terminator) }
        ensures paid { OnOk result
            (Paid self.old.builder self.old.left self.new.builder self.new.left) }
    {
        let mut words = Vec::new(self.alloc);
        for i in 0..patterns.len() {
            let word = self.head(&patterns[i], matches[i])?;
            words.push(word)?;
        }
        self.words(&words)
    }
}
