//! Writing the words of a frozen set: the offset of each block, and the words of each.
ghost use Rattle.std.specs.Prelude.{◌≡◌, ◌≢◌, ℕ, ◌+◌, ◌-◌, ◌/◌, ◌%◌, ◌<◌, ◌≤◌, ◌↔◌, ◌||◌, ◌==◌, Bool, true, length, slice_index, min, IfOk, OnOk, IsTrue, if◌then◌else◌};
ghost use Rattle.std.specs.Int.{bit_at};
ghost use Rattle.icu_zerovec.specs.CodePoints.{code_point_limit};
ghost use Rattle.icu_invlist.specs.InversionList.{between};
ghost use Rattle.icu_frozen_sets.specs.FrozenWords.{bit_in, offset_words, place_in};
ghost use Rattle.icu_frozen_sets.specs.Inside.Filling.{AreTables, HasOffset, IsFilling, IsOnly, SetsBlock, bit_among, block_bit, is_odd_at};

use crate::view::{FULL_BLOCK, offset_count};
use icu_zerovec::{CODE_POINT_LIMIT, MemoryError};
use std::alloc::Global;
use std::marker::Model;

/// The number of blocks of 1,024 code points.
pub(crate) const BLOCKS: u32 = CODE_POINT_LIMIT / 1024;

/// The number of words of a block.
const BLOCK_WORDS: usize = 16;

/// A word of the full block.
const ONES: u64 = u64::MAX;

/// The empty block starts this number of words after the offsets.
const EMPTY_BLOCK: usize = 16;

/// The greatest number of blocks for which capacity is reserved at first, besides that of U+0000 and
/// the two shared ones. The sets of letters, marks and unassigned code points have fewer blocks that
/// are neither empty nor full, and a set rarely has more such blocks than ranges.
const ROOM: usize = 60;

/// The words of a frozen set while it is filled. All empty blocks share their words, and so do all
/// full blocks. The block of U+0000 and each other block have sixteen words of their own.
#[derive(Debug, Drop)]
pub(crate) struct FrozenWords {
    words: Vec<u64>,
}

impl Model for FrozenWords {
    ghost use Rattle.std.specs.Prelude.{List, ℕ};

    ghost Value = { List ℕ };

    ghost view = { λ a. a.words.items };
}

/// Returns true if all words equal `word`.
fn is_all(words: &[u64], word: u64) -> bool
    ensures { IsTrue result ↔ ((k : ℕ) → k < length words.now → slice_index words.now k ≡ word) }
{
    words.iter().all(|own| *own == word)
}

/// Returns true if the first word of the marks is `first` and all others are 0.
#[inline(always)]
fn is_only(marks: &[u64; 16], first: u64) -> bool
    ensures { IsTrue result ↔ IsOnly marks.now first }
{
    if marks[0] != first {
        return false;
    }
    is_all(&marks[1..], 0)
}

/// Returns the number of offsets of a set. `last` is its last boundary that is not the end of the code
/// space. The last offset is that of a block after this boundary, unless all blocks have an offset.
pub(crate) fn offsets_for(last: u32) -> usize
    ensures some { 1 < result }
    ensures few { result ≤ 1088 }
    ensures enough { (p : ℕ) → p ≤ last → min (p / 1024 + 2) 1088 ≤ result }
    ensures short { result ≤ last / 1024 + 2 }
{
    (last / 1024 + 2).min(BLOCKS) as usize
}

/// Writes `word` from index `from` to before `to`.
fn fill(words: &mut [u64], from: usize, to: usize, word: u64)
    requires order { from ≤ to }
    requires there { to ≤ length words.old }
    ensures len { length words.new ≡ length words.old }
    ensures all { (k : ℕ) → slice_index words.new k
        ≡ (if between from to k then word else slice_index words.old k) }
{
    for k in from..to {
        words[k] = word;
    }
}

/// Writes the bits of a block. A word is flipped if an odd number of boundaries is before it.
#[inline(always)]
fn write_bits(out: &mut [u64], marks: &[u64; 16])
    requires { length out.old ≡ 16 }
    ensures len { length out.new ≡ 16 }
    ensures bits { (c : ℕ) → block_bit out.new c ≡ is_odd_at marks.now c }
{
    let mut flip = 0;
    for k in 0..16 {
        let word = marks[k] ^ flip;
        out[k] = word;
        // All bits of the next word flip if the last bit of this one is 1.
        flip = (word >> 63).wrapping_neg();
    }
}

/// Writes the bits of a block from index `at` on.
#[inline(always)]
fn write_block(words: &mut [u64], at: usize, marks: &[u64; 16])
    requires there { at + 16 ≤ length words.old }
    ensures len { length words.new ≡ length words.old }
    ensures set { (c : ℕ) → (bit_at (slice_index words.new (at + c / 64 % 16)) (c % 64) == 1)
        ≡ is_odd_at marks.now c }
    ensures before { (k : ℕ) → k < at → slice_index words.new k ≡ slice_index words.old k }
    ensures after { (k : ℕ) → at + 16 ≤ k → slice_index words.new k ≡ slice_index words.old k }
{
    write_bits(&mut words[at..at + BLOCK_WORDS], marks);
}

impl FrozenWords {
    /// Returns words in which all blocks are empty, with so many offsets and capacity for the blocks of
    /// a set of `ranges` ranges.
    ///
    /// # Errors
    /// Returns `MemoryError` if an allocation fails.
    pub(crate) fn new(
        alloc: Global,
        offsets: usize,
        ranges: usize,
    ) -> Result<FrozenWords, MemoryError>
        requires some { 1 < offsets }
        requires few { offsets ≤ 1088 }
        ensures filling { IfOk result (λ table. IsFilling table 0) }
        ensures offsets { IfOk result (λ table. offset_words table ≡ offsets) }
    {
        let blocks = offsets + FULL_BLOCK + BLOCK_WORDS;
        let room = blocks + BLOCK_WORDS * ranges.min(offsets).min(ROOM);
        let mut words = Vec::with_capacity(alloc, room)?;
        words.resize(offsets, (offsets + EMPTY_BLOCK) as u64)?;
        words.resize(offsets + FULL_BLOCK, 0)?;
        words.resize(blocks, ONES)?;
        words[0] = offsets as u64;
        Ok(FrozenWords { words })
    }

    /// Returns the words.
    pub(crate) fn into_words(self) -> Vec<u64>
        ensures { result.items ≡ self }
    {
        let FrozenWords { words } = self;
        words
    }

    /// Makes block `at` full. It is empty before.
    #[inline(always)]
    fn set_full(&mut self, at: usize)
        requires filling { IsFilling self.old at }
        requires some { 0 < at }
        requires there { at < BLOCKS }
        ensures sets { SetsBlock self.old self.new at (λ c. true) }
        ensures len { length self.new ≡ length self.old }
    {
        self.words[at] = (offset_count(&self.words) + FULL_BLOCK) as u64;
    }

    /// Gives block `at` sixteen words of its own. It is empty before.
    #[inline(always)]
    fn set_own(&mut self, at: usize, marks: &[u64; 16]) -> Result<(), MemoryError>
        requires filling { IsFilling self.old at }
        requires some { 0 < at }
        requires there { at < BLOCKS }
        ensures { OnOk result (SetsBlock self.old self.new at (is_odd_at marks.now)) }
    {
        let place = self.words.len();
        self.words.resize(place + BLOCK_WORDS, 0)?;
        write_block(&mut self.words, place, marks);
        self.words[at] = place as u64;
        Ok(())
    }

    /// Sets the words of the block of U+0000.
    fn set_first(&mut self, marks: &[u64; 16])
        requires { IsFilling self.old 0 }
        ensures sets { SetsBlock self.old self.new 0 (is_odd_at marks.now) }
        ensures len { length self.new ≡ length self.old }
    {
        let first = offset_count(&self.words);
        write_block(&mut self.words, first, marks);
    }

    /// Sets the words of block `at`, which is empty before. In `marks`, each boundary in the block
    /// has flipped the bits of its own word. A block whose bits are all 0 or all 1 shares its words
    /// with the others of its kind, unless it is the block of U+0000.
    ///
    /// # Errors
    /// Returns `MemoryError` if an allocation fails. The words must not be used after that.
    #[inline(always)]
    pub(crate) fn set_block(&mut self, at: usize, marks: &[u64; 16]) -> Result<(), MemoryError>
        requires filling { IsFilling self.old at }
        requires there { at < BLOCKS }
        ensures sets { OnOk result (SetsBlock self.old self.new at (is_odd_at marks.now)) }
        ensures shared { OnOk result ((value : Bool) → ((c : ℕ) → is_odd_at marks.now c ≡ value)
            → length self.new ≡ length self.old) }
    {
        if at == 0 {
            self.set_first(marks);
            return Ok(());
        }
        if is_only(marks, 0) {
            return Ok(());
        }
        if is_only(marks, ONES) {
            self.set_full(at);
            return Ok(());
        }
        self.set_own(at, marks)
    }

    /// Makes the blocks from `from` to before `to` full. They are empty before. If `to` is the end of
    /// all blocks, the last offset is that of the full block for all later blocks, too.
    pub(crate) fn fill_blocks(&mut self, from: usize, to: usize)
        requires tables { AreTables self.old }
        requires some { 0 < from }
        requires order { from ≤ to }
        requires there { to ≤ BLOCKS }
        requires before { HasOffset self.old (from - 1) }
        requires after { HasOffset self.old to }
        requires none { (b : ℕ) → from ≤ b → b < 1088
            → place_in self.old b ≡ offset_words self.old + 16 }
        ensures tables { AreTables self.new }
        ensures len { length self.new ≡ length self.old }
        ensures offsets { offset_words self.new ≡ offset_words self.old }
        ensures others { (b : ℕ) → to ≤ b → b < 1088 → place_in self.new b ≡ place_in self.old b }
        ensures bits { (c : ℕ) → c < code_point_limit
            → bit_in self.new c ≡ (bit_in self.old c || between from to (c / 1024)) }
    {
        let offsets = offset_count(&self.words);
        let last = to.min(offsets);
        fill(&mut self.words, from, last, (offsets + FULL_BLOCK) as u64);
    }
}
