//! Texts that are read in blocks of whole lines.

ghost use Rattle.std.specs.Prelude.{◌≡◌, ◌≢◌, ◌++◌, ◌↔◌, IfOk, IsTrue, OnErr, OnOk, [], take};
ghost use Rattle.byte_set.specs.Sets.{IsOnly};
ghost use Rattle.determinize_lines.specs.Blocks.{AreWhole, BlocksValue, begun};

use byte_set::ByteSet;
use std::alloc::{AllocError, Global};
use std::io::{self, ErrorKind, Read};
use std::marker::Model;

/// The bytes that are read at once.
const BLOCK: usize = 1 << 16;

/// A text that is read in blocks of whole lines, into one buffer, which grows for a longer line.
#[derive(Drop)]
pub struct Blocks {
    /// The byte that ends a line.
    ends: ByteSet,
    /// The block, then what was read of the next line, then room.
    bytes: Vec<u8>,
    /// The length of the block.
    whole: usize,
    /// The length of all that was read and is still here.
    filled: usize,
    /// Whether the text was read to its end.
    has_ended: bool,
}

impl Model for Blocks {
    ghost use Rattle.std.specs.Prelude.{◌≤◌, length, slice_range, take};
    ghost use Rattle.determinize_lines.specs.Blocks.{BlocksValue};

    ghost Value = { BlocksValue };

    ghost view = { λ b. record {
      ends = b.ends;
      lines = take b.whole b.bytes.items;
      rest = slice_range b.bytes.items b.whole b.filled;
      has_ended = b.has_ended;
    } };

    ghost invariant = { λ b. (b.whole ≤ b.filled) × (b.filled ≤ length b.bytes.items) };
}

impl Blocks {
    /// Returns an empty buffer for texts whose lines end in this byte.
    pub fn new(alloc: Global, terminator: u8) -> Result<Blocks, AllocError>
        ensures begun { IfOk result (λ blocks. blocks ≡ begun blocks.ends) }
        ensures ends { IfOk result (λ blocks. IsOnly blocks.ends terminator) }
    {
        let mut bytes = Vec::new(alloc);
        bytes.resize(BLOCK, 0)?;
        Ok(Blocks {
            ends: set_of(terminator),
            bytes,
            whole: 0,
            filled: 0,
            has_ended: false,
        })
    }

    /// Begins a new text: drops all that was read, so that the block is empty.
    pub fn begin(&mut self)
        ensures { self.new ≡ begun self.old.ends }
    {
        self.whole = 0;
        self.filled = 0;
        self.has_ended = false;
        self.bytes.truncate(BLOCK);
    }

    /// Returns the block: whole lines, each with the byte that ends it unless the text ends there.
    pub fn lines(&self) -> &[u8]
        ensures { result.now ≡ self.now.lines }
    {
        &self.bytes[..self.whole]
    }

    /// Returns the first 64 KB of what was read and is still here: of the block and what follows.
    pub fn first_bytes(&self) -> &[u8]
        ensures { result.now ≡ take BLOCK (self.now.lines ++ self.now.rest) }
    {
        &self.bytes[..self.filled.min(BLOCK)]
    }

    /// Drops the block, and reads until another line is whole or the text ends. Returns whether
    /// there is a line. No clause says that the blocks are those of the text.
    ///
    /// Returns an error if a read fails, unless it was interrupted, or if there is no memory for a
    /// longer line, of kind `OutOfMemory`. The block is then empty, and it may be called again.
    pub fn advance<R: Read>(&mut self, input: &mut R) -> io::Result<bool>
        ensures whole { OnOk result (AreWhole self.new) }
        ensures any { IfOk result (λ any. IsTrue any ↔ (self.new.lines ≢ [])) }
        ensures empty { OnErr result (self.new.lines ≡ []) }
        ensures ends { self.new.ends ≡ self.old.ends }
    {
        self.bytes.copy_within(self.whole..self.filled, 0);
        self.filled -= self.whole;
        self.whole = 0;
        for _ in 0..u64::MAX {
            if self.has_ended {
                self.whole = self.filled;
                return Ok(self.filled > 0);
            }
            let count = self.read(input)?;
            let known = self.filled.saturating_sub(count);
            if let Some(last) = self.ends.rfind(&self.bytes, known, self.filled) {
                self.whole = last + 1;
                return Ok(true);
            }
        }
        Err(io::Error::from(ErrorKind::Interrupted))
    }

    /// Reads bytes of the next line, and maybe of others, and returns their number.
    fn read<R: Read>(&mut self, input: &mut R) -> io::Result<usize>
        requires { self.old.lines ≡ [] }
        ensures lines { self.new.lines ≡ [] }
        ensures ends { self.new.ends ≡ self.old.ends }
    {
        if self.filled == self.bytes.len() {
            let longer = self.filled.saturating_mul(2).max(BLOCK);
            self.bytes.resize(longer, 0)?;
        }
        match input.read(&mut self.bytes[self.filled..]) {
            Ok(count) => {
                self.has_ended = count == 0;
                self.filled += count;
                Ok(count)
            }
            Err(error) if error.kind() == ErrorKind::Interrupted => Ok(0),
            Err(error) => Err(error),
        }
    }
}

/// Returns the set of one byte.
pub fn set_of(byte: u8) -> ByteSet
    ensures { IsOnly result byte }
{
    let mut members = [false; 256];
    members[usize::from(byte)] = true;
    ByteSet::new(&members)
}
