//! The classes of bytes with which branches begin.

ghost use Rattle.std.specs.Prelude.{IfOk, IfSome};
ghost use Rattle.determinize_pattern.specs.Private.FirstClasses.{AreFirst, BeginsWith, IsBetween};

use crate::class::ClassBytes;
use crate::pattern::Pattern;
use std::alloc::{AllocError, Allocator};

/// Returns the classes with which the branches begin, if each begins with one, and its bytes are
/// above those of the one before.
pub fn first_classes<'p, A: Allocator>(
    alloc: A,
    subs: &'p [Pattern],
) -> Result<Option<Vec<&'p ClassBytes, A>>, AllocError>
    ensures { IfOk result (λ classes. IfSome classes (λ v. AreFirst 0 subs.now v.items)) }
{
    let mut classes = Vec::new(alloc);
    let mut low = 0;
    for i in 0..subs.len() {
        let Some(class) = first_class(&subs[i]) else {
            return Ok(None);
        };
        let Some(past) = past_class(class, low) else {
            return Ok(None);
        };
        classes.push(class)?;
        low = past;
    }
    Ok(Some(classes))
}

/// Returns the class of the first byte of a pattern that is a class, or begins with one.
fn first_class(pattern: &Pattern) -> Option<&ClassBytes>
    ensures { IfSome result (λ class. BeginsWith pattern.now class.now) }
{
    match pattern {
        Pattern::Class(class) => Some(class),
        Pattern::Concat(subs) => match subs.first() {
            Some(Pattern::Class(class)) => Some(class),
            _ => None,
        },
        _ => None,
    }
}

/// Returns a number above all bytes of a class, if it has some, and none is below `low`.
fn past_class(class: &ClassBytes, low: usize) -> Option<usize>
    ensures { IfSome result (λ past. IsBetween low past class.now) }
{
    let mut past = low;
    for range in class.ranges() {
        if (range.start as usize) < past {
            return None;
        }
        past = past.max(range.end as usize + 1);
    }
    if past > low { Some(past) } else { None }
}
