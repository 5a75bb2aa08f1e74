//! A search for two bytes that are some way apart in a text, by vectors.

ghost use Rattle.std.specs.Prelude.{◌≤◌, length};

use std::simd::prelude::*;

/// The number of places of a vector.
const LANES: usize = 64;

/// Two bytes of a text, and how far they are apart.
#[derive(Clone, Copy)]
pub struct Pair {
    first: u8,
    last: u8,
    distance: usize,
}

impl Pair {
    /// Returns two bytes, of which the last one is that far behind the first.
    pub fn new(first: u8, last: u8, distance: usize) -> Pair {
        Pair {
            first,
            last,
            distance,
        }
    }

    /// Returns the first index from `from` on at which both bytes are in their places, or `None` if
    /// there is none.
    pub fn find(&self, block: &[u8], from: usize) -> Option<usize> {
        let mut at = from;
        for _ in 0..block.len() {
            let firsts = block.get(at..).unwrap_or(&[]);
            let lasts = firsts.get(self.distance..).unwrap_or(&[]);
            if firsts.len() < 2 * LANES || lasts.len() < 2 * LANES {
                break;
            }
            let near = self.both(firsts, lasts);
            let far = self.both(&firsts[LANES..], &lasts[LANES..]);
            if (near | far).reduce_or() != 0 {
                return Some(at.saturating_add(first_of(near, far)));
            }
            at = at.saturating_add(2 * LANES);
        }
        self.find_by_bytes(block, at)
    }

    /// Returns the same, one byte after the other.
    fn find_by_bytes(&self, block: &[u8], from: usize) -> Option<usize> {
        for at in from..block.len() {
            let last = block.get(at.saturating_add(self.distance))?;
            if block[at] == self.first && *last == self.last {
                return Some(at);
            }
        }
        None
    }

    /// Returns a number for each of 64 places: 0 unless both bytes are in their places.
    #[inline(always)]
    fn both(&self, firsts: &[u8], lasts: &[u8]) -> u8x64
        requires firsts { LANES ≤ length firsts.now }
        requires lasts { LANES ≤ length lasts.now }
    {
        let (is, is_not) = (u8x64::splat(255), u8x64::splat(0));
        let firsts = u8x64::from_slice(firsts).simd_eq(u8x64::splat(self.first));
        let lasts = u8x64::from_slice(lasts).simd_eq(u8x64::splat(self.last));
        firsts.select(is, is_not) & lasts.select(is, is_not)
    }
}

/// Returns the index of the first number of two vectors that is not 0, or 128.
fn first_of(near: u8x64, far: u8x64) -> usize {
    let near = near.simd_ne(u8x64::splat(0)).to_bitmask();
    let far = far.simd_ne(u8x64::splat(0)).to_bitmask();
    if near != 0 {
        return near.trailing_zeros() as usize;
    }
    (far.trailing_zeros() as usize).saturating_add(LANES)
}
