//! Filling the words of a frozen set, range by range.
ghost use Rattle.std.specs.Prelude.{◌≡◌, ℕ, ◌+◌, ◌*◌, ◌/◌, ◌%◌, ◌<◌, ◌≤◌, ◌||◌, not, false, IfOk, OnOk};
ghost use Rattle.icu_zerovec.specs.CodePoints.{code_point_limit};
ghost use Rattle.icu_invlist.specs.InversionList.{between};
ghost use Rattle.icu_frozen_sets.specs.FrozenWords.{bit_in, offset_words, place_in};
ghost use Rattle.icu_frozen_sets.specs.Inside.Filling.{AreTables, HasOffset, IsFilledBelow, IsFilling, filled, is_odd_at};

use crate::bits::{BLOCKS, FrozenWords, offsets_for};
use icu_zerovec::MemoryError;
use std::alloc::Global;

/// The bits of the ranges that were added so far, in ascending order.
///
/// The start and the end of a range both flip the bits from there on. In the current block, a
/// boundary flips only those in its word. One pass flips the words after it when the block is
/// complete. So a range takes no jump that depends on the words that it is in.
#[derive(Debug, Drop)]
pub(crate) struct Filling {
    /// The blocks below `at`. All others are empty here.
    bits: FrozenWords,
    /// The bits of block `at`, flipped only in the word of each boundary.
    block: [u64; 16],
    /// The number of the current block.
    at: u32,
}

/// Flips the bits from the code point `c` on, in the word of `c`.
#[inline(always)]
fn flip_from(block: &mut [u64; 16], c: u32)
    ensures before { (d : ℕ) → d % 1024 < c % 1024
        → is_odd_at block.new d ≡ is_odd_at block.old d }
    ensures from { (d : ℕ) → c % 1024 ≤ d % 1024
        → is_odd_at block.new d ≡ not (is_odd_at block.old d) }
{
    block[(c / 64 % 16) as usize] ^= u64::MAX << (c % 64);
}

impl Filling {
    /// Returns a filling without ranges, with capacity for a set of `ranges` ranges. `last` is the
    /// last boundary of the set that is not the end of the code space, or 0 if there is none.
    ///
    /// # Errors
    /// Returns `MemoryError` if an allocation fails.
    pub(crate) fn new(alloc: Global, last: u32, ranges: usize) -> Result<Filling, MemoryError>
        ensures own { IfOk result (λ f. (p : ℕ) → p ≤ last → HasOffset f.bits (p / 1024)) }
        ensures short { IfOk result (λ f. offset_words f.bits ≤ last / 1024 + 2) }
        ensures filling { IfOk result (λ f. IsFilling f.bits f.at) }
        ensures below { IfOk result (λ f. IsFilledBelow f.bits f.block f.at 0) }
    {
        Ok(Filling {
            bits: FrozenWords::new(alloc, offsets_for(last), ranges)?,
            block: [0; 16],
            at: 0,
        })
    }

    /// Writes the current block. Block `at`, which is empty, is then the current one.
    #[inline(always)]
    fn end_block(&mut self, at: u32) -> Result<(), MemoryError>
        requires filling { IsFilling self.old.bits self.old.at }
        requires order { self.old.at < at }
        requires within { at ≤ BLOCKS }
        requires own { HasOffset self.old.bits at }
        ensures offsets { OnOk result
            (offset_words self.new.bits ≡ offset_words self.old.bits) }
        ensures filling { OnOk result (IsFilling self.new.bits at) }
        ensures at { OnOk result (self.new.at ≡ at) }
        ensures none { OnOk result ((c : ℕ) → is_odd_at self.new.block c ≡ false) }
        ensures empty { OnOk result ((b : ℕ) → self.old.at < b → b < 1088
            → place_in self.new.bits b ≡ offset_words self.new.bits + 16) }
        ensures same { OnOk result ((c : ℕ) → c < code_point_limit
            → filled self.new.bits self.new.block at c
            ≡ filled self.old.bits self.old.block self.old.at c) }
    {
        self.bits.set_block(self.at as usize, &self.block)?;
        self.block = [0; 16];
        self.at = at;
        Ok(())
    }

    /// Makes `at` the current block. If that changes it, the block before is written.
    #[inline(always)]
    fn move_to(&mut self, at: u32) -> Result<(), MemoryError>
        requires filling { IsFilling self.old.bits self.old.at }
        requires order { self.old.at ≤ at }
        requires within { at ≤ BLOCKS }
        requires own { HasOffset self.old.bits at }
        ensures offsets { OnOk result
            (offset_words self.new.bits ≡ offset_words self.old.bits) }
        ensures filling { OnOk result (IsFilling self.new.bits at) }
        ensures at { OnOk result (self.new.at ≡ at) }
        ensures same { OnOk result ((c : ℕ) → c < code_point_limit
            → filled self.new.bits self.new.block at c
            ≡ filled self.old.bits self.old.block self.old.at c) }
    {
        if self.at == at {
            return Ok(());
        }
        self.end_block(at)
    }

    /// Writes the current block, and fills those after it up to block `at`, the new current one.
    ///
    /// This is not inlined: few ranges need it, and the loop over all ranges is faster without it.
    #[tactic(auto, using(crate::proofs::FillingLemmas::filled_to))]
    #[inline(never)]
    fn fill_later(&mut self, at: u32) -> Result<(), MemoryError>
        requires filling { IsFilling self.old.bits self.old.at }
        requires order { self.old.at < at }
        requires within { at ≤ BLOCKS }
        requires own { HasOffset self.old.bits at }
        ensures offsets { OnOk result
            (offset_words self.new.bits ≡ offset_words self.old.bits) }
        ensures filling { OnOk result (IsFilling self.new.bits at) }
        ensures at { OnOk result (self.new.at ≡ at) }
        ensures bits { OnOk result ((c : ℕ) → c < code_point_limit
            → filled self.new.bits self.new.block at c
            ≡ (filled self.old.bits self.old.block self.old.at c
            || between (self.old.at + 1) (at + 1) (c / 1024))) }
    {
        let next = self.at as usize + 1;
        self.end_block(at)?;
        self.bits.fill_blocks(next, at as usize);
        flip_from(&mut self.block, 0);
        Ok(())
    }

    /// Makes `at` the current block. If that changes it, the block before is written, and those
    /// after it are filled up to block `at`.
    #[tactic(auto, using(crate::proofs::FillingLemmas::filled_none))]
    #[inline(always)]
    fn fill_to(&mut self, at: u32) -> Result<(), MemoryError>
        requires filling { IsFilling self.old.bits self.old.at }
        requires order { self.old.at ≤ at }
        requires within { at ≤ BLOCKS }
        requires own { HasOffset self.old.bits at }
        ensures offsets { OnOk result
            (offset_words self.new.bits ≡ offset_words self.old.bits) }
        ensures filling { OnOk result (IsFilling self.new.bits at) }
        ensures at { OnOk result (self.new.at ≡ at) }
        ensures bits { OnOk result ((c : ℕ) → c < code_point_limit
            → filled self.new.bits self.new.block at c
            ≡ (filled self.old.bits self.old.block self.old.at c
            || between (self.old.at + 1) (at + 1) (c / 1024))) }
    {
        if self.at == at {
            return Ok(());
        }
        self.fill_later(at)
    }

    /// Adds the range `start..end`, which is above all ranges that were added.
    ///
    /// # Errors
    /// Returns `MemoryError` if an allocation fails. The filling must not be used after that.
    #[inline(always)]
    pub(crate) fn add(&mut self, start: u32, end: u32) -> Result<(), MemoryError>
        requires filling { IsFilling self.old.bits self.old.at }
        requires below { IsFilledBelow self.old.bits self.old.block self.old.at start }
        requires some { start < end }
        requires within { end ≤ code_point_limit }
        requires first { HasOffset self.old.bits (start / 1024) }
        requires last { HasOffset self.old.bits (end / 1024) }
        ensures offsets { OnOk result
            (offset_words self.new.bits ≡ offset_words self.old.bits) }
        ensures filling { OnOk result (IsFilling self.new.bits self.new.at) }
        ensures below { OnOk result
            (IsFilledBelow self.new.bits self.new.block self.new.at end) }
        ensures bits { OnOk result ((c : ℕ) → c < code_point_limit
            → filled self.new.bits self.new.block self.new.at c
            ≡ (filled self.old.bits self.old.block self.old.at c || between start end c)) }
    {
        self.move_to(start / 1024)?;
        flip_from(&mut self.block, start);
        self.fill_to(end / 1024)?;
        flip_from(&mut self.block, end);
        Ok(())
    }

    /// Returns the words of the frozen set.
    ///
    /// # Errors
    /// Returns `MemoryError` if an allocation fails.
    #[tactic(auto, using(crate::proofs::FillingLemmas::filled_else))]
    pub(crate) fn finish(mut self) -> Result<Vec<u64>, MemoryError>
        requires { IsFilling self.bits self.at }
        ensures tables { IfOk result (λ words. AreTables words.items) }
        ensures offsets { IfOk result (λ words. offset_words words.items
            ≡ offset_words self.bits) }
        ensures bits { IfOk result (λ words. (c : ℕ) → c < code_point_limit
            → bit_in words.items c ≡ filled self.bits self.block self.at c) }
    {
        self.move_to(BLOCKS)?;
        let Filling {
            bits,
            block: _,
            at: _,
        } = self;
        Ok(bits.into_words())
    }
}
