//! The numbers of all code points, in blocks of 16.
ghost use Rattle.std.specs.Prelude.{◌≡◌, ◌≢◌, ℕ, ◌+◌, ◌-◌, ◌*◌, ◌/◌, ◌<◌, ◌≤◌, [], ◌∷◌, ◌++◌, false, true, replicate, slice_index, slice_index_or, length, IsTrue, OnOk, OnErr, IfOk};
ghost use Rattle.icu_zerovec.specs.CodePoints.{code_point_limit};
ghost use Rattle.icu_trie_core.specs.Blocks.{block, window};
ghost use Rattle.icu_trie_builder.specs.Inside.Map.NumberMap.{code_points};
ghost use Rattle.icu_trie_builder.specs.Inside.Map.Blocks.{IsBorder, IsOther, IsWritten, block_count, contents, is_mixed};

use icu_zerovec::CODE_POINT_LIMIT;
use std::alloc::{AllocError, Global};
use std::marker::Model;

/// The number of blocks of 16 code points.
const BLOCK_COUNT: usize = CODE_POINT_LIMIT as usize / 16;

/// The number of blocks that a search from the end looks at together. It divides `BLOCK_COUNT`.
const GROUP: usize = 64;

/// Below this block number, four blocks become mixed together.
const FIRST_SINGLE: usize = 0x1000;

/// The numbers of 16 code points.
#[derive(Clone, Copy)]
enum Block<'a> {
    /// All 16 have this number.
    One(u32),
    /// The block is mixed: each code point has its own number.
    Cells(&'a [u32; 16]),
}

/// The numbers of all code points, in blocks of 16.
#[derive(Debug, Drop)]
pub(crate) struct Blocks {
    /// For each block, whether it is mixed, that is, has cells.
    mixed: Vec<bool>,
    /// For each block, the number of all its code points, or the position of its cells if it is
    /// mixed.
    places: Vec<u32>,
    /// The numbers of the code points of each mixed block.
    cells: Vec<[u32; 16]>,
}

impl Model for Blocks {
    // Contracts see blocks as which of them are mixed, and the list of the numbers.
    ghost use Rattle.icu_trie_builder.specs.Inside.Map.Blocks.{AreBlocks, BlockMap, all_numbers, number_at};

    ghost Value = { BlockMap };

    ghost view = { λ b. record {
      mixed = b.mixed.items;
      numbers = all_numbers (number_at b.mixed.items b.places.items b.cells.items);
    } };

    ghost invariant = { λ b. AreBlocks b.mixed.items b.places.items b.cells.items };
}

/// Returns a list of `count` copies of a value.
fn copies<T: Copy>(alloc: Global, count: usize, value: T) -> Result<Vec<T>, AllocError>
    ensures len { IfOk result (λ v. length v.items ≡ count) }
    ensures items { IfOk result (λ v. (i : ℕ) (d : T) → i < count
        → slice_index_or v.items i d ≡ value) }
{
    let mut made = Vec::with_capacity(alloc, count)?;
    made.resize(count, value)?;
    Ok(made)
}

/// Appends the cells of a block that has this number throughout.
fn push_block(cells: &mut Vec<[u32; 16]>, number: u32) -> Result<(), AllocError>
    ensures ok { OnOk result (cells.new.items ≡ cells.old.items ++ replicate 16 number ∷ []) }
    ensures err { OnErr result (cells.new.items ≡ cells.old.items) }
{
    // Grow by a quarter instead of doubling: for most maps the cells would only partly fill the
    // doubled capacity.
    if cells.capacity() == cells.len() {
        cells.reserve_exact(cells.len() / 4 + 64)?;
    }
    cells.push([number; 16])?;
    Ok(())
}

/// Writes the number to the positions `start..end`.
fn fill_range(cells: &mut [u32; 16], start: usize, end: usize, number: u32)
    requires range { start ≤ end }
    requires end { end ≤ 16 }
    ensures { IsWritten cells.old cells.new start end number }
{
    for i in start..end {
        cells[i] = number;
    }
}

/// Returns true if none of these blocks is mixed and all have this number. No jump depends on the
/// blocks, so LLVM makes vector instructions of the loop.
#[inline(always)]
fn are_one(mixed: &[bool], places: &[u32], number: u32) -> bool
    requires { length places.now ≤ length mixed.now }
    ensures { IsTrue result → (i : ℕ) → i < length places.now
        → (is_mixed mixed.now i ≡ false) × (slice_index places.now i ≡ number) }
{
    let mut all = true;
    for i in 0..places.len() {
        all &= !mixed[i] & (places[i] == number);
    }
    all
}

impl Blocks {
    /// Makes blocks that have this number at every code point.
    pub(crate) fn new(alloc: Global, number: u32) -> Result<Blocks, AllocError>
        ensures { IfOk result (λ b. b.numbers ≡ replicate code_points number) }
    {
        let mixed = copies(alloc, BLOCK_COUNT, false)?;
        let places = copies(alloc, BLOCK_COUNT, number)?;
        let cells = Vec::new(alloc);
        Ok(Blocks {
            mixed,
            places,
            cells,
        })
    }

    /// Gives block number `number` cells if it has none.
    fn mix(&mut self, number: usize) -> Result<(), AllocError>
        requires { number < block_count }
        ensures same { self.new.numbers ≡ self.old.numbers }
        ensures kept { (i : ℕ) → is_mixed self.old.mixed i ≡ true
            → is_mixed self.new.mixed i ≡ true }
        ensures mixed { OnOk result (is_mixed self.new.mixed number ≡ true) }
    {
        if self.mixed[number] {
            return Ok(());
        }
        let Ok(place) = u32::try_from(self.cells.len()) else {
            return Err(AllocError);
        };
        push_block(&mut self.cells, self.places[number])?;
        self.places[number] = place;
        self.mixed[number] = true;
        Ok(())
    }

    /// Gives the block of the code point `c` cells, unless the block starts at `c` or has cells
    /// already.
    ///
    /// Below 0x10000, the other blocks of the same aligned 64 code points then get cells too, so
    /// that these are next to each other.
    fn mix_around(&mut self, c: usize) -> Result<(), AllocError>
        requires { c ≤ code_point_limit }
        ensures same { self.new.numbers ≡ self.old.numbers }
        ensures kept { (i : ℕ) → is_mixed self.old.mixed i ≡ true
            → is_mixed self.new.mixed i ≡ true }
        ensures border { OnOk result (IsBorder self.new c) }
    {
        let number = c / 16;
        if c % 16 == 0 || self.mixed[number] {
            return Ok(());
        }
        if number >= FIRST_SINGLE {
            return self.mix(number);
        }
        let first = number - number % 4;
        for other in first..first + 4 {
            self.mix(other)?;
        }
        Ok(())
    }

    /// Writes a number to code points of one block.
    fn write_in_block(&mut self, start: usize, end: usize, number: u32)
        requires range { start < end }
        requires within { end ≤ 16 * (start / 16) + 16 }
        requires all { end ≤ code_point_limit }
        requires first { IsBorder self.old start }
        requires last { IsBorder self.old end }
        ensures kept { self.new.mixed ≡ self.old.mixed }
        ensures written { IsWritten self.old.numbers self.new.numbers start end number }
    {
        let block = start / 16;
        if !self.mixed[block] {
            self.places[block] = number;
            return;
        }
        let place = self.places[block] as usize;
        fill_range(
            &mut self.cells[place],
            start - 16 * block,
            end - 16 * block,
            number,
        );
    }

    /// Writes a number to the code points `start..end`, block by block.
    fn write_blocks(&mut self, start: usize, end: usize, number: u32)
        requires range { start ≤ end }
        requires all { end ≤ code_point_limit }
        requires first { IsBorder self.old start }
        requires last { IsBorder self.old end }
        ensures { IsWritten self.old.numbers self.new.numbers start end number }
    {
        let mut from = start;
        while from < end {
            let to = (from - from % 16 + 16).min(end);
            self.write_in_block(from, to, number);
            from = to;
        }
    }

    /// Writes a number to the code points `start..end`. All allocations happen before anything is
    /// written.
    pub(crate) fn write(&mut self, start: usize, end: usize, number: u32) -> Result<(), AllocError>
        requires range { start ≤ end }
        requires all { end ≤ code_point_limit }
        ensures ok { OnOk result
            (IsWritten self.old.numbers self.new.numbers start end number) }
        ensures err { OnErr result (self.new.numbers ≡ self.old.numbers) }
    {
        self.mix_around(start)?;
        self.mix_around(end)?;
        self.write_blocks(start, end, number);
        Ok(())
    }

    /// Returns block number `number`.
    #[inline(always)]
    fn block(&self, number: usize) -> Block<'_>
        requires { number < block_count }
        ensures { contents result ≡ block 16 self.now.numbers number }
    {
        if self.mixed[number] {
            return Block::Cells(&self.cells[self.places[number] as usize]);
        }
        Block::One(self.places[number])
    }

    /// Returns the number of the code point `c`.
    pub(crate) fn number_of(&self, c: usize) -> u32
        requires { c < code_point_limit }
        ensures { result ≡ slice_index self.now.numbers c }
    {
        match self.block(c / 16) {
            Block::One(number) => number,
            Block::Cells(cells) => cells[c % 16],
        }
    }

    /// Returns the first position in `from..16` of block number `block` with another number than
    /// this, or 16 if there is none.
    #[inline(always)]
    fn other_in_block(&self, block: usize, from: usize, number: u32) -> usize
        requires there { block < block_count }
        requires within { from < 16 }
        ensures { IsOther self.now.numbers (16 * block + from) (16 * block + 16) number
            (16 * block + result) }
    {
        match self.block(block) {
            Block::One(held) => { if held == number { 16 } else { from } }
            Block::Cells(cells) => {
                for i in from..16 {
                    if cells[i] != number {
                        return i;
                    }
                }
                16
            }
        }
    }

    /// Returns the first code point from `start` on with another number than this, or 0x110000 if
    /// there is none. It goes block by block.
    pub(crate) fn find_other(&self, start: usize, number: u32) -> usize
        requires { start ≤ code_point_limit }
        ensures { IsOther self.now.numbers start code_point_limit number result }
    {
        let mut from = start;
        while from < CODE_POINT_LIMIT as usize {
            let first = from - from % 16;
            let other = self.other_in_block(from / 16, from % 16, number);
            if other < 16 {
                return first + other;
            }
            from = first + 16;
        }
        CODE_POINT_LIMIT as usize
    }

    /// Returns true if no block of a group is mixed and all have this number. The first of them is
    /// block number `first`.
    #[inline(always)]
    fn is_group_of(&self, first: usize, number: u32) -> bool
        requires { first + 64 ≤ block_count }
        ensures { IsTrue result → (c : ℕ) → 16 * first ≤ c → c < 16 * (first + 64)
            → slice_index self.now.numbers c ≡ number }
    {
        let end = first + GROUP;
        are_one(&self.mixed[first..end], &self.places[first..end], number)
    }

    /// Returns a number of blocks after which all have this number. It goes by groups of blocks.
    fn used_groups(&self, number: u32) -> usize
        ensures within { result ≤ block_count }
        ensures after { (c : ℕ) → 16 * result ≤ c → c < code_point_limit
            → slice_index self.now.numbers c ≡ number }
    {
        let mut count = BLOCK_COUNT;
        while count >= GROUP && self.is_group_of(count - GROUP, number) {
            count -= GROUP;
        }
        count
    }

    /// Returns the number of blocks up to and including the last one that does not have this number
    /// throughout.
    pub(crate) fn used(&self, number: u32) -> usize
        ensures within { result ≤ block_count }
        ensures after { (c : ℕ) → 16 * result ≤ c → c < code_point_limit
            → slice_index self.now.numbers c ≡ number }
        ensures last { 0 < result → (c : ℕ) × (16 * (result - 1) ≤ c) × (c < 16 * result)
            × (slice_index self.now.numbers c ≢ number) }
    {
        let mut count = self.used_groups(number);
        while count > 0 {
            if self.other_in_block(count - 1, 0, number) < 16 {
                return count;
            }
            count -= 1;
        }
        0
    }

    /// Returns how many of the `most` blocks from block number `first` on hold only the number of
    /// `first`. It reads no cells: a mixed block ends the run.
    pub(crate) fn run_of_one(&self, first: usize, most: usize) -> usize
        requires first { first < block_count }
        requires inside { first + most ≤ block_count }
        ensures within { result ≤ most }
        ensures same { (c : ℕ) → 16 * first ≤ c → c < 16 * (first + result)
            → slice_index self.now.numbers c ≡ slice_index self.now.numbers (16 * first) }
    {
        let (mixed, places) = (
            &self.mixed[first..first + most],
            &self.places[first..first + most],
        );
        let number = self.places[first];
        let end = mixed
            .iter()
            .zip(places)
            .position(|(is_mixed, place)| *is_mixed || *place != number);
        end.unwrap_or(most)
    }

    /// Appends the numbers of `count` blocks, from block number `first` on, to `room`.
    pub(crate) fn copy(
        &self,
        first: usize,
        count: usize,
        room: &mut Vec<u32>,
    ) -> Result<(), AllocError>
        requires { first + count ≤ block_count }
        ensures { OnOk result (room.new.items
            ≡ room.old.items ++ window (16 * count) (16 * first) self.now.numbers) }
    {
        for block in first..first + count {
            match self.block(block) {
                Block::One(number) => room.resize(room.len() + 16, number)?,
                Block::Cells(cells) => room.extend_from_slice(cells)?,
            }
        }
        Ok(())
    }
}
