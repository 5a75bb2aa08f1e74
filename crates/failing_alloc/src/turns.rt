//! Runs in which each allocation fails in turn.

use crate::FailingAllocator;
use std::alloc::Allocator;

/// The limit on the number of runs, more than any test makes.
const MOST: u64 = 1_000_000;

/// The outcome of the runs. The number is that of the requests granted before the first that would
/// fail.
#[derive(Clone, Copy, Debug, PartialEq, Eq)]
pub enum Outcome {
    /// Each run returned a result or an error, and freed all its memory.
    Sound,
    /// A run failed although no allocation did.
    Unanswered(u64),
    /// A run did not free all its memory.
    Leak(u64),
    /// The limit on the number of runs was reached.
    Endless,
}

/// Repeats a run with its first allocation failing, then its second, and so on, until a run has no
/// failure. It does so twice: with all later allocations failing, too, and with only that one
/// failing.
///
/// The run receives the allocator to use, calls [`FailingAllocator::begin`] and
/// [`FailingAllocator::end`] around the part that may fail, and returns whether all of that part
/// succeeded.
pub fn fail_each_allocation<
    B: Allocator + Copy,
    E,
    F: FnMut(&FailingAllocator<B>) -> Result<bool, E>,
>(inner: B, mut run: F) -> Result<Outcome, E>
    requires { F.IsAlwaysCallable run }
{
    let mut is_alone = false;
    let mut passes = 0u64;
    for _ in 0..MOST {
        let heap = if is_alone {
            FailingAllocator::only(inner, passes)
        } else {
            FailingAllocator::after(inner, passes)
        };
        let is_answered = run(&heap)?;
        if heap.held() > 0 {
            return Ok(Outcome::Leak(passes));
        }
        if heap.has_failed() {
            passes = passes.saturating_add(1);
        } else if !is_answered {
            return Ok(Outcome::Unanswered(passes));
        } else if is_alone {
            return Ok(Outcome::Sound);
        } else {
            is_alone = true;
            passes = 0;
        }
    }
    Ok(Outcome::Endless)
}
