//! A failing allocator for tests, and a driver that makes each allocation of a run fail in turn.
//!
//! [`FailingAllocator`] wraps another allocator. It fails requests by their number, and counts the
//! requests and the blocks that have not been freed. [`fail_each_allocation`] repeats a run with it
//! until every allocation has failed once.
#![tactic(auto)]

pub mod turns;

pub use crate::turns::{Outcome, fail_each_allocation};
use std::alloc::{AllocError, Allocator};
use std::cell::Cell;

/// Counts requests and decides which of them fail: those with a number from `from` to `until`,
/// exclusive.
#[derive(Drop)]
pub struct Gate {
    begun: Cell<bool>,
    asked: Cell<u64>,
    failed: Cell<u64>,
    held: Cell<u64>,
    from: u64,
    until: u64,
}

/// Increments the counter, up to its maximum.
fn tick(count: &Cell<u64>) {
    count.set(count.get().saturating_add(1));
}

impl Gate {
    fn new(from: u64, until: u64) -> Gate {
        Gate {
            begun: Cell::new(false),
            asked: Cell::new(0),
            failed: Cell::new(0),
            held: Cell::new(0),
            from,
            until,
        }
    }

    /// Counts a request if counting has begun, and a block if it is granted. Returns whether the
    /// request fails.
    fn fails(&self) -> bool {
        if self.begun.get() {
            let before = self.asked.get();
            tick(&self.asked);
            if self.from <= before && before < self.until {
                tick(&self.failed);
                return true;
            }
        }
        tick(&self.held);
        false
    }

    /// Counts a freed block.
    fn take_back(&self) {
        self.held.set(self.held.get().saturating_sub(1));
    }
}

/// An allocator that passes each request on to another one, unless its gate fails the request.
///
/// No request fails or is counted before [`FailingAllocator::begin`] and after
/// [`FailingAllocator::end`]. The blocks in use are always counted.
#[derive(Drop)]
pub struct FailingAllocator<B: Allocator> {
    inner: B,
    gate: Gate,
}

impl<B: Allocator> FailingAllocator<B> {
    /// Returns an allocator that grants this number of requests and fails all later ones.
    pub fn after(inner: B, passes: u64) -> FailingAllocator<B> {
        FailingAllocator {
            inner,
            gate: Gate::new(passes, u64::MAX),
        }
    }

    /// Returns an allocator that fails exactly one request, the one after this number of others.
    pub fn only(inner: B, before: u64) -> FailingAllocator<B> {
        FailingAllocator {
            inner,
            gate: Gate::new(before, before.saturating_add(1)),
        }
    }

    /// Begins to count requests and to fail some. After `end` it may be called again, and the count
    /// continues.
    pub fn begin(&self) {
        self.gate.begun.set(true);
    }

    /// Stops counting and failing requests.
    pub fn end(&self) {
        self.gate.begun.set(false);
    }

    /// Returns the number of requests between `begin` and `end`.
    pub fn asked(&self) -> u64 {
        self.gate.asked.get()
    }

    /// Returns whether a request has failed.
    pub fn has_failed(&self) -> bool {
        self.gate.failed.get() > 0
    }

    /// Returns the number of blocks in use: allocated and not freed.
    pub fn held(&self) -> u64 {
        self.gate.held.get()
    }
}

unsafe impl<B: Allocator> Allocator for FailingAllocator<B> {
    ghost dealloc_token = { λ heap ty ptr. B.dealloc_token heap.inner ty ptr };

    fn allocate(&self, size: usize, align: usize) -> Result<*mut u8, AllocError> {
        if self.gate.fails() {
            return Err(AllocError);
        }
        self.inner.allocate(size, align)
    }

    unsafe fn deallocate(&self, ptr: *mut u8, size: usize, align: usize) {
        self.gate.take_back();
        self.inner.deallocate(ptr, size, align);
    }
}
