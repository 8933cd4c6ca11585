//! The map from which a trie is built.
ghost use Rattle.std.specs.Prelude.{◌≡◌, ◌≢◌, ℕ, ◌+◌, ◌-◌, ◌*◌, ◌%◌, ◌<◌, ◌≤◌, length, slice_index, OnOk, OnErr, IsTrue};
ghost use Rattle.icu_zerovec.specs.CodePoints.{code_point_limit};
ghost use Rattle.icu_trie_core.specs.Blocks.{block};
ghost use Rattle.icu_trie_builder.specs.Inside.Map.NumberMap.{IsHighFrom};

use crate::map::blocks::Blocks;
use icu_zerovec::CODE_POINT_LIMIT;
use std::alloc::{AllocError, Global};
use std::marker::Model;

/// The number of each code point.
#[derive(Debug, Drop)]
enum Numbers {
    /// All code points have this number.
    One(u32),
    /// Each block of 16 has its own numbers, once some code points have been written.
    InBlocks(Blocks),
}

/// A map from code points to 32-bit numbers.
///
/// It stores a single number until the first write to only some code points, and then blocks of 16
/// code points. A block of one number stores only that number; a mixed block has 16 cells.
#[derive(Debug, Drop)]
pub(crate) struct NumberMap {
    numbers: Numbers,
    alloc: Global,
}

impl Model for NumberMap {
    // Contracts see a map as the list of its numbers, one for each code point.
    ghost use Rattle.std.specs.Prelude.{◌≡◌, ℕ, List, length};
    ghost use Rattle.icu_zerovec.specs.CodePoints.{code_point_limit};

    ghost Value = { List ℕ };

    ghost use Rattle.icu_trie_builder.specs.Inside.Map.Numbers.{numbers_of};

    ghost view = { λ m. numbers_of m.numbers };

    ghost invariant = { λ m. length (numbers_of m.numbers) ≡ code_point_limit };
}

impl NumberMap {
    /// Makes a map that has this number at every code point. It allocates nothing.
    pub(crate) fn new(alloc: Global, number: u32) -> NumberMap
        ensures len { length result ≡ code_point_limit }
        ensures all { (c : ℕ) → c < code_point_limit → slice_index result c ≡ number }
    {
        NumberMap {
            numbers: Numbers::One(number),
            alloc,
        }
    }

    /// Sets the number of each code point in `start..end`. If these are all code points, it
    /// allocates nothing, and the map stores a single number again.
    ///
    /// # Errors
    /// Returns `AllocError` if an allocation fails. The map is then unchanged.
    pub(crate) fn set_range(
        &mut self,
        start: usize,
        end: usize,
        number: u32,
    ) -> Result<(), AllocError>
        requires range { start ≤ end }
        requires within { end ≤ code_point_limit }
        ensures len { length self.new ≡ code_point_limit }
        ensures inside { OnOk result ((c : ℕ) → start ≤ c → c < end
            → slice_index self.new c ≡ number) }
        ensures before { (c : ℕ) → c < start → slice_index self.new c ≡ slice_index self.old c }
        ensures after { (c : ℕ) → end ≤ c → slice_index self.new c ≡ slice_index self.old c }
        ensures err { OnErr result (self.new ≡ self.old) }
    {
        let numbers = &mut self.numbers;
        if start == end {
            return Ok(());
        }
        if end - start == CODE_POINT_LIMIT as usize {
            *numbers = Numbers::One(number);
            return Ok(());
        }
        match numbers {
            Numbers::One(rest) => {
                let mut blocks = Blocks::new(self.alloc, *rest)?;
                blocks.write(start, end, number)?;
                *numbers = Numbers::InBlocks(blocks);
            }
            Numbers::InBlocks(blocks) => blocks.write(start, end, number)?,
        }
        Ok(())
    }

    /// Returns the number of the code point `c`.
    pub(crate) fn get(&self, c: usize) -> u32
        requires { c < code_point_limit }
        ensures { result ≡ slice_index self.now c }
    {
        match &self.numbers {
            Numbers::One(number) => *number,
            Numbers::InBlocks(blocks) => blocks.number_of(c),
        }
    }

    /// Returns the number of the last code point.
    pub(crate) fn last(&self) -> u32
        ensures { result ≡ slice_index self.now 0x10ffff }
    {
        self.get(CODE_POINT_LIMIT as usize - 1)
    }

    /// Returns the first code point from `start` on with another number than `number`, or 0x110000
    /// if there is none. It skips each block of one number in a single step.
    pub(crate) fn find_other(&self, start: usize, number: u32) -> usize
        requires { start ≤ code_point_limit }
        ensures from { start ≤ result }
        ensures within { result ≤ code_point_limit }
        ensures same { (c : ℕ) → start ≤ c → c < result → slice_index self.now c ≡ number }
        ensures other { result < code_point_limit → slice_index self.now result ≢ number }
    {
        match &self.numbers {
            Numbers::One(rest) if *rest == number => CODE_POINT_LIMIT as usize,
            Numbers::One(_) => start,
            Numbers::InBlocks(blocks) => blocks.find_other(start, number),
        }
    }

    /// Returns the least multiple of 512 from which on all code points have the number of the last
    /// one.
    pub(crate) fn high_start(&self) -> usize
        ensures len { length self.now ≡ code_point_limit }
        ensures aligned { result % 512 ≡ 0 }
        ensures within { result ≤ code_point_limit }
        ensures high { IsHighFrom self.now result }
        ensures least { (h : ℕ) → h % 512 ≡ 0 → IsHighFrom self.now h → result ≤ h }
    {
        let Numbers::InBlocks(blocks) = &self.numbers else {
            return 0;
        };
        blocks.used(self.last()).div_ceil(32) * 512
    }

    /// Returns the length of a run of equal blocks: how many of the `most` aligned blocks of `size`
    /// code points, from block number `number` on, are known to equal the first one. It is at least 1.
    ///
    /// It compares no cells. A block after the first one counts only if all code points of the run up
    /// to its end have one number and no block of 16 is mixed. So further blocks may be equal.
    pub(crate) fn repeats(&self, size: usize, number: usize, most: usize) -> usize
        requires some { 0 < size }
        requires multiple { size % 16 ≡ 0 }
        requires more { 0 < most }
        requires inside { size * (number + most) ≤ code_point_limit }
        ensures some { 0 < result }
        ensures within { result ≤ most }
        ensures same { (j : ℕ) → j < result
            → block size self.now (number + j) ≡ block size self.now number }
    {
        let Numbers::InBlocks(blocks) = &self.numbers else {
            return most;
        };
        let count = size / 16;
        (blocks.run_of_one(count * number, count * most) / count).max(1)
    }

    /// Replaces the contents of `room` by the numbers of the aligned block number `number` of
    /// `size` code points.
    ///
    /// # Errors
    /// Returns `AllocError` if an allocation fails.
    pub(crate) fn copy_block(
        &self,
        size: usize,
        number: usize,
        room: &mut Vec<u32>,
    ) -> Result<(), AllocError>
        requires multiple { size % 16 ≡ 0 }
        requires inside { size * number + size ≤ code_point_limit }
        ensures { OnOk result (room.new.items ≡ block size self.now number) }
    {
        room.clear();
        let count = size / 16;
        match &self.numbers {
            Numbers::One(rest) => room.resize(size, *rest)?,
            Numbers::InBlocks(blocks) => blocks.copy(count * number, count, room)?,
        }
        Ok(())
    }
}
