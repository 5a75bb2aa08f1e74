//! The leftmost match of patterns, and the routes of a path, with contracts that speak of the
//! patterns only, and the part of a text that an error is about.

ghost use Rattle.std.specs.Prelude.{◌≡◌, IfOk, map, true};
ghost use Rattle.determinize_below.specs.declared.search.Anchored.TheVariants.{Yes};
ghost use Rattle.determinize_engine.specs.Searches.{has_start};
ghost use Rattle.determinize_find.specs.Streams.{whole};
ghost use Rattle.determinize_pattern.specs.Patterns.{meaning};
ghost use Rattle.determinize_regex.specs.PatternMatches.{IsLeftmostOfIn};
ghost use Rattle.determinize_regex.specs.Sets.{AreAtEnd};

use determinize_regex::{
    Anchored, CompileError, Error, Input, Match, Pattern, PatternID, Regex, RegexConfig, RegexSet,
};
use determinize_syntax::parse;
use std::alloc::{AllocError, Global};

/// Returns the leftmost match of the patterns in an input, of which the first is preferred. Line
/// assertions take `\n` as the line terminator.
pub fn leftmost(
    alloc: Global,
    patterns: Vec<Pattern>,
    input: &Input<'_>,
) -> Result<Option<Match>, CompileError>
    requires start { has_start input.now.anchored ≡ true }
    ensures { IfOk result (λ found.
        IsLeftmostOfIn 10 (map meaning patterns.items) input.now found) }
{
    let mut regex = Regex::from_patterns(alloc, patterns, RegexConfig::new())?;
    Ok(regex.find(input)?)
}

/// Returns the set of three routes.
pub fn routes(alloc: Global) -> Result<RegexSet, Error> {
    let routes = ["/[a-z]+", "/[a-z]+/[0-9]+", "[0-9]+"];
    RegexSet::new(alloc, &routes, RegexConfig::new())
}

/// Returns the routes that match a whole path.
pub fn routes_of(set: &mut RegexSet, path: &[u8]) -> Result<Vec<PatternID>, AllocError>
    ensures { IfOk result (λ found.
        AreAtEnd set.old record (whole path.now) { anchored = Yes } found.items) }
{
    set.matches_at_end(&Input::new(path).anchored(Anchored::Yes))
}

/// Returns the part of a text that its error is about, or `None` if the text denotes a pattern.
pub fn wrong_part(alloc: Global, text: &str) -> Option<&[u8]> {
    match parse(alloc, text) {
        Ok(_) => None,
        Err(error) => Some(&text.as_bytes()[error.start..error.end]),
    }
}
