//! Partitions of the rows of a table into blocks, which are split by values of the rows.

ghost use Rattle.std.specs.Prelude.{◌≡◌, ◌<◌, ◌≤◌, All, IfOk, length, replicate, slice_index};
ghost use Rattle.std.specs.HashMap.{get};
ghost use Rattle.determinize_dense.specs.Private.Partition.{AreBlocks, Blocks, IsByRank, IsLastUpto, IsNumbered, IsSplit, same_pair};

use std::alloc::{AllocError, Allocator, Global};
use std::collections::HashMap;
use std::hash::{BuildHasherDefault, FoldHasher};
use std::marker::Model;

/// The blocks of rows: the number of the block of each row, and one row of each block.
#[derive(Drop)]
pub(crate) struct Partition<A: Allocator = Global> {
    blocks: Vec<usize, A>,
    members: Vec<usize, A>,
}

impl<A: Allocator> Model for Partition<A> {
    ghost Value = { Blocks };

    ghost view = { λ p. record { numbers = p.blocks.items; members = p.members.items } };

    ghost invariant = { λ p. AreBlocks record {
      numbers = p.blocks.items;
      members = p.members.items;
    } };
}

/// The number of ranks of rows.
const RANKS: usize = 4;

/// The numbers of blocks by pairs: a block of rows, and the value by which it is split.
type Numbers<A> = HashMap<(usize, usize), usize, BuildHasherDefault<FoldHasher>, A>;

/// Returns the number of a pair. A new pair has the next number, and the row becomes the member of
/// its block.
fn number_of<A: Allocator + Copy>(
    numbers: &mut Numbers<A>,
    members: &mut Vec<usize, A>,
    pair: (usize, usize),
    row: usize,
) -> Result<usize, AllocError>
    ensures { IfOk result (λ number. IsNumbered (get same_pair numbers.old)
        (get same_pair numbers.new) members.old.items members.new.items pair row number) }
{
    if let Some(number) = numbers.get(&pair) {
        return Ok(*number);
    }
    let number = members.len();
    numbers.insert(pair, number)?;
    members.push(row)?;
    Ok(number)
}

impl<A: Allocator + Copy> Partition<A> {
    /// Returns one block of all rows.
    pub(crate) fn whole(alloc: A, rows: usize) -> Result<Partition<A>, AllocError>
        requires { 0 < rows }
        ensures numbers { IfOk result (λ p. p.numbers ≡ replicate rows 0) }
    {
        Ok(Partition {
            blocks: vec![in alloc; 0; rows]?,
            members: vec![in alloc; 0]?,
        })
    }

    /// Returns a block for each row, in the order of their ranks.
    pub(crate) fn by_rank(alloc: A, ranks: &[usize]) -> Result<Partition<A>, AllocError>
        requires some { 0 < length ranks.now }
        requires first { slice_index ranks.now 0 ≡ 0 }
        requires few { All (λ rank. rank < RANKS) ranks.now }
        ensures { IfOk result (λ p. IsByRank ranks.now p) }
    {
        let rows = ranks.len();
        let mut blocks = vec![in alloc; 0; rows]?;
        let mut members = Vec::with_capacity(alloc, rows)?;
        for rank in 0..RANKS {
            for row in 0..rows {
                if ranks[row] == rank {
                    blocks[row] = members.len();
                    members.push(row)?;
                }
            }
        }
        Ok(Partition { blocks, members })
    }

    /// Returns the last block whose member has at most this rank.
    pub(crate) fn last_upto(&self, ranks: &[usize], rank: usize) -> usize
        requires ranks { IsByRank ranks.now self.now }
        requires first { slice_index ranks.now 0 ≤ rank }
        ensures last { IsLastUpto ranks.now self.now rank result }
    {
        let mut last = 0;
        while last + 1 < self.members.len() && ranks[self.members[last + 1]] <= rank {
            last += 1;
        }
        last
    }

    /// Returns the number of blocks.
    pub(crate) fn len(&self) -> usize
        ensures value { result ≡ length self.now.members }
        ensures few { result ≤ length self.now.numbers }
    {
        self.members.len()
    }

    /// Returns the block of a row.
    pub(crate) fn block(&self, row: usize) -> usize
        requires { row < length self.now.numbers }
        ensures value { result ≡ slice_index self.now.numbers row }
        ensures below { result < length self.now.members }
    {
        self.blocks[row]
    }

    /// Returns a row of each block: row 0 of block 0.
    pub(crate) fn members(&self) -> &[usize]
        ensures { result.now ≡ self.now.members }
    {
        self.members.as_slice()
    }

    /// Splits each block by the values of its rows. A block keeps its number and its member, and
    /// the rows with the value of the member.
    pub(crate) fn split(self, alloc: A, values: &[usize]) -> Result<Partition<A>, AllocError>
        requires { length values.now ≡ length self.numbers }
        ensures { IfOk result (λ p. IsSplit values.now self p) }
    {
        let Partition {
            mut blocks,
            mut members,
        } = self;
        let mut numbers = HashMap::new(alloc);
        for row in 0..blocks.len() {
            let (block, value) = (blocks[row], values[row]);
            if value != values[members[block]] {
                blocks[row] = number_of(&mut numbers, &mut members, (block, value), row)?;
            }
        }
        Ok(Partition { blocks, members })
    }
}
