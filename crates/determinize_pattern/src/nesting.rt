//! The depth of patterns. The search for it goes no deeper than the limit.

ghost use Rattle.std.specs.Prelude.{◌≡◌, nat_le};
ghost use Rattle.determinize_pattern.specs.Nesting.{deepest, depth};

use crate::pattern::Pattern;

/// Returns whether the pattern is nested at most `limit` levels deep.
#[cycle(nesting)]
fn is_within(pattern: &Pattern, limit: u32) -> bool
    ensures { result ≡ nat_le (depth pattern.now) limit }
{
    match pattern {
        Pattern::Empty | Pattern::Literal(_) | Pattern::Class(_) | Pattern::Look(_) => true,
        Pattern::Repetition { sub, .. } | Pattern::Capture(sub) => {
            limit > 0 && is_within(sub, limit - 1)
        }
        Pattern::Concat(subs) | Pattern::Alternation(subs) => {
            limit > 0 && are_within(subs, limit - 1)
        }
    }
}

/// Returns whether each of the patterns is nested at most `limit` levels deep.
#[cycle(nesting)]
pub fn are_within(patterns: &[Pattern], limit: u32) -> bool
    ensures { result ≡ nat_le (deepest patterns.now) limit }
{
    for i in 0..patterns.len() {
        if !is_within(&patterns[i], limit) {
            return false;
        }
    }
    true
}
