//! The start configuration of a search, and start kinds.
//!
//! Given the NFA state to start from, the start state of a search depends on the byte before the
//! search in reading order. Bytes that satisfy the same assertions have the same start state, so
//! there are only six kinds of start, numbered from 0: a table of start states needs six entries
//! for each NFA state to start from, instead of 257. [`StartSlot`] numbers those of both starts of
//! an NFA.
//! `StartByteMap` maps a byte to its kind. No byte has the kind `Start::Text`.

ghost use Rattle.std.specs.Prelude.{Decides, ◌≡◌, ℕ, ◌<◌, get_or, length, slice_get};
ghost use Rattle.determinize_start.specs.StartKinds as kinds;
ghost use Rattle.determinize_start.specs.StartSlots as slots;
ghost use Rattle.determinize_start.specs.declared.start.TheConstants.StartSlot.{COUNT};

use determinize_below::alphabet::is_word_byte;
use determinize_below::{Anchored, Input, LookMatcher};
use std::fmt;
use std::marker::Model;

/// The start configuration of a search: the byte behind its start, if any, and the anchored mode.
#[derive(Clone, Copy, Debug)]
pub struct Config {
    look_behind: Option<u8>,
    anchored: Anchored,
}

impl Model for Config {
    ghost use Rattle.determinize_start.specs.StartKinds.{Setup};

    ghost Value = { Setup };

    ghost view = { λ c. record { look_behind = c.look_behind; anchored = c.anchored } };

    ghost inverse = { λ s. record { look_behind = s.look_behind; anchored = s.anchored } };
}

impl Config {
    /// Returns the configuration of an unanchored search with no byte behind its start.
    pub fn new() -> Config
        ensures { result ≡ record { look_behind = None; anchored = Anchored.No } }
    {
        Config {
            look_behind: None,
            anchored: Anchored::No,
        }
    }

    /// Returns the configuration of a forward search. The look-behind is the byte before the start
    /// of the input, or `None` at the start of the haystack.
    pub fn from_input_forward(input: &Input<'_>) -> Config
        ensures { result ≡ record {
          look_behind = kinds.byte_before input.now.haystack input.now.start;
          anchored = input.now.anchored;
        } }
    {
        // The byte behind a forward search is the one ahead of a reverse search.
        Config {
            look_behind: look_ahead_reverse(input),
            anchored: input.get_anchored(),
        }
    }

    /// Returns the configuration of a reverse search. The look-behind is the byte at the end of the
    /// input, or `None` at the end of the haystack.
    pub fn from_input_reverse(input: &Input<'_>) -> Config
        ensures { result ≡ record {
          look_behind = slice_get input.now.haystack input.now.end;
          anchored = input.now.anchored;
        } }
    {
        // The byte behind a reverse search is the one ahead of a forward search.
        Config {
            look_behind: look_ahead_forward(input),
            anchored: input.get_anchored(),
        }
    }

    /// Returns the configuration with this look-behind byte, or with `None`.
    pub fn look_behind(self, byte: Option<u8>) -> Config
        ensures { result ≡ record self { look_behind = byte } }
    {
        Config {
            look_behind: byte,
            ..self
        }
    }

    /// Returns the configuration with this anchored mode.
    pub fn anchored(self, anchored: Anchored) -> Config
        ensures { result ≡ record self { anchored = anchored } }
    {
        Config { anchored, ..self }
    }

    /// Returns the byte behind the start, or `None` if there is none.
    pub fn get_look_behind(&self) -> Option<u8>
        ensures { result ≡ self.now.look_behind }
    {
        self.look_behind
    }

    /// Returns the anchored mode.
    pub fn get_anchored(&self) -> Anchored
        ensures { result ≡ self.now.anchored }
    {
        self.anchored
    }
}

/// Returns the byte ahead of a forward search, which is the byte behind a reverse search: the byte
/// at index `end` of the haystack, or `None` at the end of the haystack.
pub fn look_ahead_forward(input: &Input<'_>) -> Option<u8>
    ensures { result ≡ slice_get input.now.haystack input.now.end }
{
    input.haystack().get(input.end()).copied()
}

/// Returns the byte ahead of a reverse search, which is the byte behind a forward search: the byte
/// before index `start` of the haystack, or `None` at the start of the haystack.
pub fn look_ahead_reverse(input: &Input<'_>) -> Option<u8>
    ensures { result ≡ kinds.byte_before input.now.haystack input.now.start }
{
    byte_before(input.haystack(), input.start())
}

/// Returns the byte before an index of a haystack, or `None` at the start of the haystack and where
/// the index is more than one past its end.
pub fn byte_before(haystack: &[u8], index: usize) -> Option<u8>
    ensures { result ≡ kinds.byte_before haystack.now index }
{
    match index {
        0 => None,
        index => haystack.get(index - 1).copied(),
    }
}

/// The kind of a start, by the byte behind it.
#[derive(Clone, Copy, Debug, PartialEq, Eq)]
pub enum Start {
    /// Any byte of no other kind.
    NonWordByte = 0,
    /// A word byte that is not the line terminator.
    WordByte = 1,
    /// No byte: the search starts at an end of the haystack.
    Text = 2,
    /// `\n`, whether or not it is the line terminator.
    LineLF = 3,
    /// `\r`, whether or not it is the line terminator.
    LineCR = 4,
    /// The line terminator, if it is neither `\n` nor `\r`.
    CustomLineTerminator = 5,
}

impl Start {
    /// The number of kinds.
    pub const COUNT: usize = 6;

    /// Returns the kind with this number, or `None` if the number is above 5.
    pub fn from_usize(number: usize) -> Option<Start>
        ensures { result ≡ kinds.start_of_number number }
    {
        match number {
            0 => Some(Start::NonWordByte),
            1 => Some(Start::WordByte),
            2 => Some(Start::Text),
            3 => Some(Start::LineLF),
            4 => Some(Start::LineCR),
            5 => Some(Start::CustomLineTerminator),
            _ => None,
        }
    }

    /// Returns the number of kinds, 6.
    pub fn len() -> usize
        ensures { result ≡ length kinds.each_start }
    {
        Start::COUNT
    }

    /// Returns the number of the kind, from 0 to 5.
    pub fn as_u8(self) -> u8
        ensures { result ≡ kinds.number_of self }
    {
        self as u8
    }

    /// Returns the number of the kind, from 0 to 5.
    pub fn as_usize(self) -> usize
        ensures { result ≡ kinds.number_of self }
    {
        usize::from(self.as_u8())
    }

    /// Returns whether a start can be of this kind, given the line terminator: no byte is a custom
    /// line terminator if the terminator is `\n` or `\r`.
    pub fn occurs(self, terminator: u8) -> bool
        ensures { Decides result (kinds.Occurs terminator self) }
    {
        match self {
            Start::CustomLineTerminator => terminator != b'\n' && terminator != b'\r',
            _ => true,
        }
    }
}

/// A slot of a table of start states. There are twelve, numbered from 0: one for each kind of start
/// from the anchored start, in the order of the kinds, and then the same from the unanchored start.
#[derive(Clone, Copy, Debug, PartialEq, Eq)]
pub struct StartSlot {
    /// Whether the search starts from the anchored start of the NFA.
    pub is_anchored: bool,
    /// The kind of the start.
    pub kind: Start,
}

impl StartSlot {
    /// The number of slots.
    pub const COUNT: usize = 2 * Start::COUNT;

    /// Returns the slot with this number, or `None` if the number is above 11.
    pub fn from_usize(number: usize) -> Option<StartSlot>
        ensures { result ≡ slots.slot_of_number number }
    {
        let is_anchored = number < Start::COUNT;
        let kind = if is_anchored {
            number
        } else {
            number - Start::COUNT
        };
        let kind = Start::from_usize(kind)?;
        Some(StartSlot { is_anchored, kind })
    }

    /// Returns the number of the slot, from 0 to 11.
    pub fn as_usize(self) -> usize
        ensures value { result ≡ slots.slot_number self }
        ensures limit { result < COUNT }
    {
        let first = if self.is_anchored { 0 } else { Start::COUNT };
        first + self.kind.as_usize()
    }
}

/// Returns the start kind of a byte, given the line terminator. The order of the tests is
/// significant: `\n` and `\r` keep their kinds if they are the line terminator.
fn start_kind(terminator: u8, byte: u8) -> Start
    ensures { result ≡ kinds.start_kind terminator byte }
{
    if byte == b'\n' {
        Start::LineLF
    } else if byte == b'\r' {
        Start::LineCR
    } else if byte == terminator {
        Start::CustomLineTerminator
    } else if is_word_byte(byte) {
        Start::WordByte
    } else {
        Start::NonWordByte
    }
}

/// Returns the start kind of an optional look-behind byte, given the line terminator.
pub fn start_kind_of(terminator: u8, look_behind: Option<u8>) -> Start
    ensures { result ≡ kinds.start_kind_of terminator look_behind }
{
    match look_behind {
        Some(byte) => start_kind(terminator, byte),
        None => Start::Text,
    }
}

/// The start kinds of all bytes.
#[derive(Clone, Drop)]
pub struct StartByteMap {
    kinds: [Start; 256],
}

impl Model for StartByteMap {
    ghost use Rattle.std.specs.Prelude.{List};
    ghost use Rattle.determinize_start.specs.declared.start.Start.{Start as Kind};

    ghost Value = { List Kind };

    ghost view = { λ m. m.kinds };
}

impl StartByteMap {
    /// Returns the start kinds of all bytes for the matcher's line terminator.
    pub fn new(matcher: &LookMatcher) -> StartByteMap
        ensures bytes { length result ≡ 256 }
        ensures kinds { (b : ℕ) → b < 256
            → get_or result b Start.Text ≡ kinds.start_kind matcher.now b }
    {
        let terminator = matcher.get_line_terminator();
        let mut kinds = [Start::NonWordByte; 256];
        for byte in 0..256 {
            kinds[byte] = start_kind(terminator, byte as u8);
        }
        StartByteMap { kinds }
    }

    /// Returns the start kind of the byte.
    pub fn get(&self, byte: u8) -> Start
        ensures { result ≡ get_or self.now byte Start.Text }
    {
        self.kinds[usize::from(byte)]
    }
}

impl fmt::Debug for StartByteMap {
    fn fmt<W: fmt::Write>(&self, f: &mut fmt::Formatter<W>) -> fmt::Result {
        write!(f, "StartByteMap{{")?;
        for byte in 0..256 {
            if byte > 0 {
                write!(f, ", ")?;
            }
            let kind = self.kinds[byte];
            write!(f, "{byte} => {kind:?}")?;
        }
        write!(f, "}}")
    }
}
