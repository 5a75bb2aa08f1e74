//! The numbers and the names of a text.

ghost use Rattle.std.specs.Prelude.{IfOk, map};
ghost use Rattle.determinize_regex.specs.Parts.{AreParts};
ghost use Rattle.determinize_regex.specs.Regexes.{AreAllIn};

use determinize_regex::{Error, Input, Match, PatternID, Regex, RegexConfig, Searcher};
use std::alloc::{AllocError, Global};

/// Returns a search for numbers, which are matches of pattern 0, and names, pattern 1.
pub fn words(alloc: Global) -> Result<Regex, Error> {
    Regex::new_many(alloc, &["[0-9]+", "[A-Z][a-z]*"], RegexConfig::new())
}

/// Returns all matches of a regex in a text, in their order.
pub fn find_all(alloc: Global, regex: &mut Regex, text: &[u8]) -> Result<Vec<Match>, AllocError>
    ensures all { IfOk result (λ found. AreAllIn regex.old text.now found.items) }
{
    regex.find_all(alloc, &Input::new(text))
}

/// Returns the same by a second search, which borrows the patterns and has separate caches.
pub fn find_all_apart(alloc: Global, regex: &Regex, text: &[u8]) -> Result<Vec<Match>, AllocError>
    ensures all { IfOk result (λ found. AreAllIn regex.now text.now found.items) }
{
    let mut matcher = regex.matcher(alloc, 1000);
    matcher.find_all(alloc, &Input::new(text))
}

/// Returns the same in a number of steps that is linear in the length of the text.
pub fn find_all_linear(alloc: Global, regex: &Regex, text: &[u8]) -> Result<Vec<Match>, AllocError>
    ensures all { IfOk result (λ found. AreAllIn regex.now text.now found.items) }
{
    regex.find_all_linear(alloc, &Input::new(text))
}

/// Returns the first match of a text and the one after it, if there are any.
pub fn first_two(regex: &mut Regex, text: &[u8]) -> Result<[Option<Match>; 2], AllocError> {
    let mut searcher = Searcher::new(Input::new(text));
    let first = regex.next_match(&mut searcher)?;
    let second = regex.next_match(&mut searcher)?;
    Ok([first, second])
}

/// Returns the parts of a text between the matches.
pub fn parts<'t>(
    alloc: Global,
    regex: &mut Regex,
    text: &'t [u8],
) -> Result<Vec<&'t [u8]>, AllocError>
    ensures parts { IfOk result (λ cut. AreParts (AreAllIn regex.old text.now) text.now
        (map (λ part. part.now) cut.items)) }
{
    regex.split(alloc, text)
}

/// Returns a text with `#` in place of each number, and `A` in place of each name.
pub fn masked(alloc: Global, regex: &mut Regex, text: &[u8]) -> Result<Vec<u8>, AllocError> {
    regex.replace_with(alloc, text, |found| {
        if found.pattern == PatternID::ZERO {
            b"#"
        } else {
            b"A"
        }
    })
}
