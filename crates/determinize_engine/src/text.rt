//! What a search reads: the bytes of a range, forward or backward, and the bytes around it.

ghost use Rattle.std.specs.Prelude.{◌≡◌, ◌<◌, ◌≤◌, ◌-◌, ◌^◌, All, Some, false, length, map, option_map, slice_get, slice_index};
ghost use Rattle.std.specs.Option.{IfSome};
ghost use Rattle.determinize_below.specs.Semantics.{between};
ghost use Rattle.determinize_below.specs.Search.{is_done};
ghost use Rattle.determinize_below.specs.Truth.{IsUnit};
ghost use Rattle.determinize_core.specs.Chain.{units};
ghost use Rattle.determinize_engine.specs.Searches.{in_haystack, in_order, text_of};

use determinize_below::{HalfMatch, Input};
use determinize_start::start::{look_ahead_forward, look_ahead_reverse};
use std::marker::Model;

/// A text in reading order, seen as its bytes with the byte behind and the byte ahead.
#[derive(Drop)]
pub struct Text<'h> {
    behind: Option<u8>,
    bytes: &'h [u8],
    is_backward: bool,
    ahead: Option<u8>,
}

impl<'h> Model for Text<'h> {
    ghost use Rattle.std.specs.Prelude.{All};
    ghost use Rattle.determinize_below.specs.Semantics as semantics;
    ghost use Rattle.determinize_below.specs.Truth.{IsUnit};
    ghost use Rattle.determinize_core.specs.Chain.{units};
    ghost use Rattle.determinize_engine.specs.Searches.{in_order};

    ghost Value = { semantics.Text };

    ghost view = { λ t. semantics.between t.behind (in_order t.is_backward t.bytes.now) t.ahead };

    ghost invariant = { λ t. All IsUnit
        (units (semantics.between t.behind (in_order t.is_backward t.bytes.now) t.ahead)) };
}

impl<'h> Text<'h> {
    /// Returns a text of these bytes in either order.
    #[inline(always)]
    fn with_order(
        behind: Option<u8>,
        bytes: &'h [u8],
        is_backward: bool,
        ahead: Option<u8>,
    ) -> Text<'h>
        ensures { result ≡ between behind (in_order is_backward bytes.now) ahead }
    {
        Text {
            behind,
            bytes,
            is_backward,
            ahead,
        }
    }

    /// Returns a text that is read forward.
    #[inline(always)]
    pub fn new(behind: Option<u8>, bytes: &'h [u8], ahead: Option<u8>) -> Text<'h>
        ensures { result ≡ between behind bytes.now ahead }
    {
        Text::with_order(behind, bytes, false, ahead)
    }

    /// Returns the range of an input, with the bytes before and after it in the haystack.
    #[inline(always)]
    pub fn of_input(input: &Input<'h>, is_backward: bool) -> Text<'h>
        requires { is_done input.now ≡ false }
        ensures { result ≡ text_of is_backward input.now }
    {
        let (before, after) = (look_ahead_reverse(input), look_ahead_forward(input));
        let bytes = &input.haystack()[input.start()..input.end()];
        let (behind, ahead) = if is_backward {
            (after, before)
        } else {
            (before, after)
        };
        Text::with_order(behind, bytes, is_backward, ahead)
    }

    /// Returns a copy.
    #[inline(always)]
    pub fn copied(&self) -> Text<'h>
        ensures { result ≡ self.now }
    {
        Text {
            behind: self.behind,
            bytes: self.bytes,
            is_backward: self.is_backward,
            ahead: self.ahead,
        }
    }

    /// Returns whether the text is read in reverse.
    #[inline(always)]
    pub fn is_backward(&self) -> bool {
        self.is_backward
    }

    /// Returns a copy, whose order is a constant where this argument is one.
    #[inline(always)]
    pub fn known(&self, is_backward: bool) -> Text<'h>
        ensures { result ≡ self.now }
    {
        if is_backward == self.is_backward {
            Text::with_order(self.behind, self.bytes, is_backward, self.ahead)
        } else {
            self.copied()
        }
    }

    /// Returns the byte before the first.
    #[inline(always)]
    pub fn behind(&self) -> Option<u8>
        ensures { result ≡ self.now.behind }
    {
        self.behind
    }

    /// Returns the byte ahead of the last, or `None` for the end of input (EOI).
    #[inline(always)]
    pub fn ahead(&self) -> Option<u8>
        ensures { result ≡ self.now.ahead }
    {
        self.ahead
    }

    /// Returns the number of bytes.
    #[inline(always)]
    pub fn len(&self) -> usize
        ensures value { result ≡ length self.now.bytes }
        ensures limit { result < 2 ^ 63 }
        ensures units { All IsUnit (units self.now) }
    {
        self.bytes.len()
    }

    /// Returns the bytes in the order of the haystack, and whether the text reads them in reverse.
    #[inline(always)]
    pub fn haystack_bytes(&self) -> (&'h [u8], bool)
        ensures { self.now.bytes ≡ in_order result.1 result.0.now }
    {
        (self.bytes, self.is_backward)
    }

    /// Returns the byte at an index.
    #[inline(always)]
    #[tactic(auto, using(crate::proofs::Texts::reading))]
    pub fn byte(&self, index: usize) -> u8
        requires { index < length self.now.bytes }
        ensures { slice_get (map Some self.now.bytes) index ≡ Some (Some result) }
    {
        if self.is_backward {
            self.bytes[self.bytes.len() - 1 - index]
        } else {
            self.bytes[index]
        }
    }

    /// Returns the unit at an index: a byte of the text; after the last one the byte ahead, or the
    /// end of input (EOI).
    #[inline(always)]
    #[tactic(auto, using(crate::proofs::Texts::reading))]
    pub fn unit(&self, index: usize) -> Option<u8>
        requires { index ≤ length self.now.bytes }
        ensures { slice_get (units self.now) index ≡ Some result }
    {
        if index == self.len() {
            self.ahead
        } else {
            Some(self.byte(index))
        }
    }
}

/// Returns a match in the range, with its offset in the haystack.
pub fn in_haystack(
    input: &Input<'_>,
    is_backward: bool,
    found: Option<HalfMatch>,
) -> Option<HalfMatch>
    requires order { input.now.start ≤ input.now.end }
    requires within { IfSome found (λ m. m.offset ≤ input.now.end - input.now.start) }
    ensures value { result ≡ option_map (in_haystack is_backward input.now) found }
    ensures within { IfSome result
        (λ m. (input.now.start ≤ m.offset) × (m.offset ≤ input.now.end)) }
{
    let HalfMatch { pattern, offset } = found?;
    let (start, end) = (input.start(), input.end());
    let offset = if is_backward {
        end - offset
    } else {
        start + offset
    };
    Some(HalfMatch { pattern, offset })
}
