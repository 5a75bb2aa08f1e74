//! A whole DFA as bytes, which `determinize_stored` reads without the NFA.
//!
//! All is written as numbers of four bytes, the lowest byte first.

ghost use Rattle.std.specs.Prelude.{All, ◌≡◌, ◌<◌, ◌≤◌, ◌++◌, ◌^◌, IfOk, OnOk, length, map};
ghost use Rattle.std.specs.Int.{to_le_bytes, w32};
ghost use Rattle.std.specs.List.{concat};
ghost use Rattle.determinize_below.specs.Nfa.{IsAccepted};
ghost use Rattle.determinize_below.specs.declared.primitives.TheConstants.{MAX_ID};
ghost use Rattle.determinize_dense.specs.Bytes.{IsWhole, bytes_of_words, ends_from, file_of, head_of, stored_of};
ghost use Rattle.determinize_dense.specs.Dfa.{IsDfaOf};
ghost use Rattle.determinize_dense.specs.Private.Rows.{rows_at};

use crate::dfa::Dfa;
use determinize_below::alphabet::ByteClasses;
use determinize_below::{AsNfa, MatchKind, PatternID};
use std::alloc::{AllocError, Allocator};

/// The first four bytes: `DFA` in ASCII, and a byte 0.
pub const MAGIC: u32 = 0x0041_4644;

/// The version of the format.
pub const VERSION: u32 = 1;

/// Adds a number at the end of bytes.
fn push_word<A: Allocator>(bytes: &mut Vec<u8, A>, word: u32) -> Result<(), AllocError>
    ensures { OnOk result (bytes.new.items ≡ bytes.old.items ++ to_le_bytes w32 word) }
{
    bytes.extend_from_slice(&word.to_le_bytes())
}

/// Adds numbers.
fn push_words<A: Allocator>(bytes: &mut Vec<u8, A>, words: &[u32]) -> Result<(), AllocError>
    ensures { OnOk result (bytes.new.items ≡ bytes.old.items ++ bytes_of_words words.now) }
{
    for word in words {
        push_word(bytes, *word)?;
    }
    Ok(())
}

/// Adds the class of each byte.
fn push_classes<A: Allocator>(
    bytes: &mut Vec<u8, A>,
    classes: &ByteClasses,
) -> Result<(), AllocError>
    requires { length classes.now.of_bytes ≡ 256 }
    ensures { OnOk result (bytes.new.items ≡ bytes.old.items
        ++ bytes_of_words classes.now.of_bytes) }
{
    for byte in 0..256usize {
        push_word(bytes, u32::from(classes.get(byte as u8)))?;
    }
    Ok(())
}

/// Adds the numbers of the rows at some offsets.
fn push_rows<A: Allocator>(
    bytes: &mut Vec<u8, A>,
    offsets: &[u32],
    columns: u32,
) -> Result<(), AllocError>
    requires { 0 < columns }
    ensures { OnOk result (bytes.new.items ≡ bytes.old.items
        ++ bytes_of_words (rows_at columns offsets.now)) }
{
    for offset in offsets {
        push_word(bytes, *offset / columns)?;
    }
    Ok(())
}

/// Adds where each list ends, one list after the other.
///
/// Returns an error if an allocation fails, or if a list ends past `u32::MAX`.
fn push_ends<A: Allocator>(
    bytes: &mut Vec<u8, A>,
    lists: &[Vec<PatternID, A>],
) -> Result<(), AllocError>
    ensures ends { OnOk result (bytes.new.items ≡ bytes.old.items
        ++ bytes_of_words (ends_from 0 (map (λ list. list.items) lists.now))) }
    ensures few { OnOk result (length (concat (map (λ list. list.items) lists.now)) < 2 ^ 32) }
{
    let mut end: usize = 0;
    for list in lists {
        end = end.saturating_add(list.len());
        if end > u32::MAX as usize {
            return Err(AllocError);
        }
        push_word(bytes, end as u32)?;
    }
    Ok(())
}

/// Adds the patterns of lists, one list after the other.
fn push_lists<A: Allocator>(
    bytes: &mut Vec<u8, A>,
    lists: &[Vec<PatternID, A>],
) -> Result<(), AllocError>
    ensures lists { OnOk result (bytes.new.items ≡ bytes.old.items
        ++ bytes_of_words (concat (map (λ list. list.items) lists.now))) }
    ensures ids { OnOk result
        (All (λ id. id ≤ MAX_ID) (concat (map (λ list. list.items) lists.now))) }
{
    for list in lists {
        for pattern in list.as_slice() {
            push_word(bytes, pattern.as_u32())?;
        }
    }
    Ok(())
}

impl<R: AsNfa, A: Allocator + Copy> Dfa<R, A> {
    /// Returns the numbers at the beginning: what the bytes are, what is known of the DFA besides
    /// its table, and how large the table is.
    fn head(&self) -> [u32; 7]
        ensures head { result ≡ head_of (stored_of self.now) }
        ensures terminator { self.now.nfa.terminator < 256 }
    {
        let nfa = self.nfa.nfa();
        let match_kind = match self.match_kind {
            MatchKind::All => 0,
            MatchKind::LeftmostFirst => 1,
        };
        let is_reverse = if nfa.is_reverse() { 1 } else { 0 };
        [
            MAGIC,
            VERSION,
            match_kind,
            is_reverse,
            u32::from(nfa.look_matcher().get_line_terminator()),
            self.classes.alphabet_len() as u32 - 1,
            self.patterns.len() as u32,
        ]
    }

    /// Returns the DFA as bytes, which `determinize_stored::StoredDfa::from_bytes` reads: its match
    /// kind, its table, and of its NFA the line terminator and whether it is a reverse one.
    ///
    /// Returns an error if an allocation fails, or if the rows list 2^32 patterns or more.
    pub fn to_bytes(&self, alloc: A) -> Result<Vec<u8, A>, AllocError>
        ensures file { IfOk result (λ bytes. bytes.items ≡ file_of (stored_of self.now)) }
        ensures whole { IfOk result (λ _. IsWhole (stored_of self.now)) }
        ensures means { IsDfaOf self.now.nfa self.now.kind self.now.table }
        ensures accepted { IsAccepted self.now.nfa }
    {
        let columns = self.classes.alphabet_len();
        let mut bytes = Vec::new(alloc);
        push_words(&mut bytes, &self.head())?;
        push_classes(&mut bytes, &self.classes)?;
        push_words(&mut bytes, &self.starts)?;
        push_rows(&mut bytes, self.next.as_slice(), columns as u32)?;
        push_ends(&mut bytes, self.patterns.as_slice())?;
        push_lists(&mut bytes, self.patterns.as_slice())?;
        Ok(bytes)
    }
}
