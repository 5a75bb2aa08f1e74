//! Patterns as values: what a regular expression says, without its text.

ghost use Rattle.std.specs.Prelude.{◌≡◌, ◌∷◌, ◌<◌, ◌≤◌, None, Some, IfOk, IfSome, [], false, map, true};
ghost use Rattle.determinize_pattern.specs.Classes.{HasBytes, is_apart, is_chosen, pairs};
ghost use Rattle.determinize_pattern.specs.Meaning as meanings;
ghost use Rattle.determinize_pattern.specs.Patterns as patterns;
ghost use Rattle.determinize_pattern.specs.Patterns.{IsClass, at_least, choice, meaning, repeated, sequence};
ghost use Rattle.determinize_pattern.specs.Private.Dropping.{left_around, sizes, weight};

use crate::class::{ClassBytes, ClassBytesRange};
use determinize_below::Look;
use std::alloc::{AllocError, Global};

/// A pattern over bytes.
pub enum Pattern {
    /// The empty text.
    Empty,
    /// These bytes.
    Literal(Vec<u8>),
    /// One byte of the class.
    Class(ClassBytes),
    /// An assertion.
    Look(Look),
    /// The pattern `min` to `max` times in a row, or `min` times or more. If it is greedy, more
    /// rounds are preferred to fewer. A maximum below `min` counts as `min`. Without a maximum
    /// `a{3,}` is `aaa+`, and in the `a+` only the first round may read nothing, and is then the
    /// last.
    Repetition {
        min: u32,
        max: Option<u32>,
        greedy: bool,
        sub: Box<Pattern>,
    },
    /// The pattern itself: a group that is printed and has no effect on matches.
    Capture(Box<Pattern>),
    /// One after the other.
    Concat(Vec<Pattern>),
    /// One of these, the earlier preferred. An alternation without branches matches nothing.
    Alternation(Vec<Pattern>),
}

/// Frees the pattern by a loop, since a recursion as deep as the pattern could exhaust the stack,
/// and without an allocation: the list of the outer parts that are left takes the place of the part
/// that is taken from it.
impl Drop for Pattern {
    fn drop(self) {
        let Some(mut parts) = self.into_parts() else {
            return;
        };
        let mut around = Pattern::Empty;
        loop {
            match parts.pop() {
                Some(part) => {
                    if let Some(inner) = part.into_parts() {
                        parts.push_reserved(around);
                        around = Pattern::Concat(parts);
                        parts = inner;
                    }
                }
                None => {
                    parts.destroy_empty();
                    let Some(outer) = around.into_parts() else {
                        return;
                    };
                    parts = outer;
                    around = match parts.pop() {
                        Some(next) => next,
                        None => Pattern::Empty,
                    };
                }
            }
        }
    }
}

impl Pattern {
    /// Returns the list of the parts of a concatenation or an alternation, also if it is in groups
    /// and repetitions, and frees the rest.
    fn into_parts(mut self) -> Option<Vec<Pattern>>
        ensures size { IfSome result
            (λ parts. sizes (map weight parts.items) < (weight self).size) }
        ensures around { IfSome result
            (λ parts. left_around (map weight parts.items) < (weight self).around) }
    {
        loop {
            match self {
                Pattern::Empty | Pattern::Literal(_) | Pattern::Class(_) | Pattern::Look(_) => {
                    return None;
                }
                Pattern::Capture(sub)
                | Pattern::Repetition {
                    min: _,
                    max: _,
                    greedy: _,
                    sub,
                } => self = Box::into_inner(sub),
                Pattern::Concat(parts) | Pattern::Alternation(parts) => return Some(parts),
            }
        }
    }
}

#[tactic(auto, using(crate::proofs::compiled::Patterns::meanings))]
impl Pattern {
    /// Returns the pattern of these bytes in a row.
    pub fn literal(alloc: Global, bytes: &[u8]) -> Result<Pattern, AllocError>
        ensures { IfOk result (λ p. meaning p ≡ patterns.literal bytes.now) }
    {
        Ok(Pattern::Literal(Vec::from_slice(alloc, bytes)?))
    }

    /// Returns the pattern of a byte from `start` to `end`, of which `start` may not be above
    /// `end`.
    pub fn range(alloc: Global, start: u8, end: u8) -> Result<Pattern, AllocError>
        requires { start ≤ end }
        ensures { IfOk result (λ p. meaning p ≡ meanings.Byte ((start, end) ∷ [])) }
    {
        of_sorted(alloc, &[ClassBytesRange { start, end }])
    }

    /// Returns the pattern of a byte in one of the ranges, which may overlap and be in any order.
    pub fn class(alloc: Global, ranges: &[ClassBytesRange]) -> Result<Pattern, AllocError>
        ensures { IfOk result (λ p. IsClass (is_chosen (pairs ranges.now) false) (meaning p)) }
    {
        Ok(Pattern::Class(ClassBytes::new(alloc, ranges)?))
    }

    /// Returns the pattern of a byte in none of the ranges.
    pub fn none_of(alloc: Global, ranges: &[ClassBytesRange]) -> Result<Pattern, AllocError>
        ensures { IfOk result (λ p. IsClass (is_chosen (pairs ranges.now) true) (meaning p)) }
    {
        Ok(Pattern::Class(ClassBytes::none_of(alloc, ranges)?))
    }

    /// Returns the pattern of an ASCII digit, `[0-9]`.
    pub fn digit(alloc: Global) -> Result<Pattern, AllocError>
        ensures { IfOk result (λ p. meaning p ≡ meanings.Byte ((48, 57) ∷ [])) }
    {
        Pattern::range(alloc, 48, 57)
    }

    /// Returns the pattern of an ASCII word byte, `[0-9A-Z_a-z]`.
    pub fn word(alloc: Global) -> Result<Pattern, AllocError>
        ensures { IfOk result (λ p. meaning p
            ≡ meanings.Byte ((48, 57) ∷ (65, 90) ∷ (95, 95) ∷ (97, 122) ∷ [])) }
    {
        let ranges = [
            ClassBytesRange { start: 48, end: 57 },
            ClassBytesRange { start: 65, end: 90 },
            ClassBytesRange { start: 95, end: 95 },
            ClassBytesRange {
                start: 97,
                end: 122,
            },
        ];
        of_sorted(alloc, &ranges)
    }

    /// Returns the pattern of an ASCII white space byte, `[\t\n\v\f\r ]`.
    pub fn space(alloc: Global) -> Result<Pattern, AllocError>
        ensures { IfOk result (λ p. meaning p ≡ meanings.Byte ((9, 13) ∷ (32, 32) ∷ [])) }
    {
        let ranges = [
            ClassBytesRange { start: 9, end: 13 },
            ClassBytesRange { start: 32, end: 32 },
        ];
        of_sorted(alloc, &ranges)
    }

    /// Returns the pattern of any byte but `\n`, as `.`.
    pub fn dot(alloc: Global) -> Result<Pattern, AllocError>
        ensures { IfOk result (λ p. meaning p ≡ meanings.Byte ((0, 9) ∷ (11, 255) ∷ [])) }
    {
        let ranges = [
            ClassBytesRange { start: 0, end: 9 },
            ClassBytesRange {
                start: 11,
                end: 255,
            },
        ];
        of_sorted(alloc, &ranges)
    }

    /// Returns the pattern of any byte.
    pub fn any(alloc: Global) -> Result<Pattern, AllocError>
        ensures { IfOk result (λ p. meaning p ≡ meanings.Byte ((0, 255) ∷ [])) }
    {
        Pattern::range(alloc, 0, 255)
    }

    /// Returns the patterns one after the other.
    pub fn concat(subs: Vec<Pattern>) -> Pattern
        ensures { meaning result ≡ sequence (map meaning subs.items) }
    {
        Pattern::Concat(subs)
    }

    /// Returns a choice between the patterns, the earlier preferred.
    pub fn alternation(subs: Vec<Pattern>) -> Pattern
        ensures { meaning result ≡ choice (map meaning subs.items) }
    {
        Pattern::Alternation(subs)
    }

    /// Returns the pattern as a group, `(a)`.
    pub fn capture(self, alloc: Global) -> Result<Pattern, AllocError>
        ensures { IfOk result (λ p. meaning p ≡ meaning self) }
    {
        Ok(Pattern::Capture(Box::new(alloc, self)?))
    }

    /// Returns `a*`: the pattern any number of times, preferring more.
    pub fn star(self, alloc: Global) -> Result<Pattern, AllocError>
        ensures { IfOk result (λ p. meaning p ≡ at_least true 0 (meaning self)) }
    {
        self.repeated(alloc, 0, None, true)
    }

    /// Returns `a*?`: the pattern any number of times, preferring fewer.
    pub fn star_lazy(self, alloc: Global) -> Result<Pattern, AllocError>
        ensures { IfOk result (λ p. meaning p ≡ at_least false 0 (meaning self)) }
    {
        self.repeated(alloc, 0, None, false)
    }

    /// Returns `a+`: the pattern once or more, preferring more.
    pub fn plus(self, alloc: Global) -> Result<Pattern, AllocError>
        ensures { IfOk result (λ p. meaning p ≡ meanings.Plus true (meaning self)) }
    {
        self.repeated(alloc, 1, None, true)
    }

    /// Returns `a+?`: the pattern once or more, preferring fewer.
    pub fn plus_lazy(self, alloc: Global) -> Result<Pattern, AllocError>
        ensures { IfOk result (λ p. meaning p ≡ meanings.Plus false (meaning self)) }
    {
        self.repeated(alloc, 1, None, false)
    }

    /// Returns `a?`: the pattern or, less preferred, nothing.
    pub fn optional(self, alloc: Global) -> Result<Pattern, AllocError>
        ensures { IfOk result (λ p. meaning p ≡ repeated 0 (Some 1) true (meaning self)) }
    {
        self.repeated(alloc, 0, Some(1), true)
    }

    /// Returns `a??`: nothing or, less preferred, the pattern.
    pub fn optional_lazy(self, alloc: Global) -> Result<Pattern, AllocError>
        ensures { IfOk result (λ p. meaning p ≡ repeated 0 (Some 1) false (meaning self)) }
    {
        self.repeated(alloc, 0, Some(1), false)
    }

    /// Returns `a{min,max}`, or `a{min,}`: the pattern `min` to `max` times, preferring more.
    pub fn repeat(self, alloc: Global, min: u32, max: Option<u32>) -> Result<Pattern, AllocError>
        ensures { IfOk result (λ p. meaning p ≡ repeated min max true (meaning self)) }
    {
        self.repeated(alloc, min, max, true)
    }

    /// Returns `a{min,max}?`, or `a{min,}?`: the pattern `min` to `max` times, preferring fewer.
    pub fn repeat_lazy(
        self,
        alloc: Global,
        min: u32,
        max: Option<u32>,
    ) -> Result<Pattern, AllocError>
        ensures { IfOk result (λ p. meaning p ≡ repeated min max false (meaning self)) }
    {
        self.repeated(alloc, min, max, false)
    }

    fn repeated(
        self,
        alloc: Global,
        min: u32,
        max: Option<u32>,
        greedy: bool,
    ) -> Result<Pattern, AllocError>
        ensures { IfOk result (λ p. meaning p ≡ repeated min max greedy (meaning self)) }
    {
        let sub = Box::new(alloc, self)?;
        Ok(Pattern::Repetition {
            min,
            max,
            greedy,
            sub,
        })
    }
}

/// Returns the pattern of a byte in one of the ranges, which are sorted and not empty, with a byte
/// between any two.
#[tactic(auto, using(crate::proofs::compiled::Patterns::meanings))]
fn of_sorted(alloc: Global, ranges: &[ClassBytesRange]) -> Result<Pattern, AllocError>
    requires { is_apart 0 (pairs ranges.now) ≡ true }
    ensures { IfOk result (λ p. meaning p ≡ meanings.Byte (pairs ranges.now)) }
{
    Ok(Pattern::Class(ClassBytes::from_sorted(alloc, ranges)?))
}
