//! Scans: a search passes the bytes of a text over which it stays at its state, many at once.
//! Pauses say when it does not scan; no match depends on them.

ghost use Rattle.std.specs.Prelude.{◌+◌, ◌≤◌, All, IsTrue, length};
ghost use Rattle.byte_set.specs.Sets.{HasNone, is_member};
ghost use Rattle.determinize_below.specs.Truth.{IsUnit};
ghost use Rattle.determinize_core.specs.Chain.{units};
ghost use Rattle.determinize_engine.specs.Passed.{IsPassed};

use crate::text::Text;
use byte_set::ByteSet;

/// The number of bytes that a scan looks up first, all at once.
const AT_ONCE: usize = 16;

/// How many times as long as the shortest pause the longest is.
const LONGEST: usize = 32;

/// The pauses between scans. After each scan that is too short to save time comes a pause, each
/// time twice as long, up to 32 times as long as the first. A longer scan sets it back.
#[derive(Clone, Copy)]
pub struct Pauses {
    /// The number of bytes that are read when the pause is over.
    pub end: usize,
    /// The length of the next pause.
    next: usize,
    /// The length of the shortest pause.
    shortest: usize,
    /// The number of bytes from which on a scan saves time.
    worthwhile: usize,
}

impl Pauses {
    /// Returns the pause before the first scan, which is over when `end` bytes are read.
    ///
    /// - `shortest` is the length of the shortest later one.
    /// - `worthwhile` is the number of bytes from which on a scan saves time.
    #[inline(always)]
    pub fn new(end: usize, shortest: usize, worthwhile: usize) -> Pauses {
        Pauses {
            end,
            next: shortest,
            shortest,
            worthwhile,
        }
    }

    /// Records a scan.
    ///
    /// - `from` and `to` are the numbers of bytes that are read before and after it.
    #[inline(always)]
    pub fn record(&mut self, from: usize, to: usize)
        requires { from ≤ to }
    {
        if to - from >= self.worthwhile {
            self.next = self.shortest;
            return;
        }
        self.end = to.saturating_add(self.next);
        self.next = self
            .next
            .saturating_mul(2)
            .min(self.shortest.saturating_mul(LONGEST));
    }
}

/// Returns whether none of the next sixteen bytes of a text is in a set.
///
/// - `read` is the number of bytes read before.
#[inline(always)]
fn has_none(set: &ByteSet, text: &Text<'_>, read: usize) -> bool
    requires { read + AT_ONCE ≤ length text.now.bytes }
    ensures { IsTrue result
        → HasNone (is_member set.now) text.now.bytes read (read + AT_ONCE) }
{
    let (bytes, is_backward) = text.haystack_bytes();
    if is_backward {
        return set.has_none(bytes, bytes.len() - read - AT_ONCE);
    }
    set.has_none(bytes, read)
}

/// Returns the index of the next byte of a text that is in a set, or the length of the text.
///
/// - `read` is the number of bytes read before.
#[inline(never)]
fn find(set: &ByteSet, text: &Text<'_>, read: usize) -> usize
    requires { read ≤ length text.now.bytes }
    ensures { IsPassed set.now text.now read result }
{
    let (bytes, is_backward) = text.haystack_bytes();
    let len = bytes.len();
    if is_backward {
        match set.rfind(bytes, 0, len - read) {
            Some(index) => len - 1 - index,
            None => len,
        }
    } else {
        match set.find(bytes, read, len) {
            Some(index) => index,
            None => len,
        }
    }
}

/// Returns the index of the next byte of a text that is in a set, or the length of the text, but
/// `read` where a scan would be over soon: fewer than sixteen bytes are left, or one of the next
/// sixteen is in the set.
///
/// - `read` is the number of bytes read before.
///
/// Most scans are over after a few bytes, and a loop over these would end at a jump that is hard to
/// predict.
#[inline(always)]
pub fn scan(set: &ByteSet, text: &Text<'_>, read: usize) -> usize
    requires { read ≤ length text.now.bytes }
    ensures passed { IsPassed set.now text.now read result }
    ensures units { All IsUnit (units text.now) }
{
    if text.len() - read < AT_ONCE || !has_none(set, text, read) {
        return read;
    }
    find(set, text, read + AT_ONCE)
}
