//! The index of a trie. It starts with the offsets of the blocks of 64 below the fast limit. For
//! the code points from there on, index-1, the index-3 blocks and index-2 follow.
//!
//! - `index3`, `index2`: place the index-3 and the index-2 blocks
//! - `packing`: the 18-bit form of an index-3 block
ghost use Rattle.std.specs.Prelude.{◌≡◌, ◌↔◌, ℕ, ◌+◌, ◌-◌, ◌*◌, ◌/◌, ◌%◌, ◌<◌, ◌≤◌, length, slice_index, IsTrue, IfOk, OnOk, IfSome, None};
ghost use Rattle.icu_zerovec.specs.CodePoints.{code_point_limit};
ghost use Rattle.icu_trie_core.specs.Blocks.{block, count_different};
ghost use Rattle.icu_trie_core.specs.Format.{fast_limit};
ghost use Rattle.icu_trie_builder.specs.Inside.Index.Layout.{AllBelow, IsIndex, IsNullBlock, IsNullIndex, index3_cells, index3_start};
ghost use Rattle.icu_trie_builder.specs.Inside.Index.IndexParts.{IsGrown, IsNullCell, IsUpper};
ghost use Rattle.icu_trie_builder.specs.declared.error.BuildError.TheVariants.{TooLarge};

mod index2;
mod index3;
mod packing;

use crate::compaction::cell_store::CellStore;
use crate::error::BuildError;
use crate::index::index2::{place_index2, with_unread};
use crate::index::index3::{NO_INDEX3_NULL_OFFSET, place_index3};
use crate::lengths::INDEX_3_BLOCK;
use icu_trie_core::header::TrieType;
use icu_trie_core::impl_const::{CP_PER_INDEX_2_ENTRY, FAST_TYPE_DATA_BLOCK_LENGTH, SHIFT_1};
use std::alloc::{AllocError, Global};

/// The number of code points that one index-1 cell covers.
const CP_PER_INDEX_1_ENTRY: usize = 1 << SHIFT_1;

/// The index of a trie, and the index-2 cell by which a walk recognises blocks of 512 that are null
/// throughout.
#[derive(Drop)]
pub(crate) struct BuiltIndex {
    /// The fast index, followed by the cells for the code points from the fast limit on.
    pub(crate) cells: Vec<u16>,
    /// The index-2 cell, bit 15 included, of the blocks of 512 whose data offsets all are that of
    /// the null block, or 0x7fff if there is none.
    pub(crate) null_offset: u16,
}

/// Appends the fast index, which is the offsets of the blocks of 64, to `index`.
fn push_fast(index: &mut Vec<u16>, fast: &[u32]) -> Result<(), AllocError>
    requires { AllBelow 0x10000 fast.now }
    ensures { OnOk result (IsGrown (length fast.now) (slice_index fast.now)
        index.old.items index.new.items) }
{
    for offset in fast {
        index.push(*offset as u16)?;
    }
    Ok(())
}

/// Appends the index-1 cells to `index`. The index-2 blocks are at these positions, counted from
/// `start`.
fn push_index1(index: &mut Vec<u16>, start: usize, places: &[usize]) -> Result<(), AllocError>
    requires { (j : ℕ) → j < length places.now → start + slice_index places.now j < 0x10000 }
    ensures { OnOk result (IsGrown (length places.now) (λ j. start + slice_index places.now j)
        index.old.items index.new.items) }
{
    for place in places {
        index.push((start + *place) as u16)?;
    }
    Ok(())
}

/// Appends the cells of the index-3 and index-2 blocks to `index`.
fn push_stored(index: &mut Vec<u16>, cells: &[u32]) -> Result<(), AllocError>
    requires { AllBelow 0x10000 cells.now }
    ensures { OnOk result (IsGrown (length cells.now) (slice_index cells.now)
        index.old.items index.new.items) }
{
    for cell in cells {
        index.push(*cell as u16)?;
    }
    Ok(())
}

/// Returns the cells as 32-bit numbers.
fn widened(alloc: Global, cells: &[u16]) -> Result<Vec<u32>, AllocError>
    ensures { IfOk result (λ v. v.items ≡ cells.now) }
{
    let mut wide = Vec::with_capacity(alloc, cells.len())?;
    for cell in cells {
        wide.push(u32::from(*cell))?;
    }
    Ok(wide)
}

/// Returns true if all 32 offsets of block number `number` are `null`.
fn is_null(offsets: &[u32], null: usize, number: usize) -> bool
    requires inside { 32 * number + 32 ≤ length offsets.now }
    requires room { length offsets.now < code_point_limit }
    ensures { IsTrue result ↔ IsNullBlock null offsets.now number }
{
    for i in 0..INDEX_3_BLOCK {
        if offsets[INDEX_3_BLOCK * number + i] as usize != null {
            return false;
        }
    }
    true
}

/// Returns the number of a block whose 32 offsets all are `null`, or `None` if there is none.
fn null_block(offsets: &[u32], null: usize) -> Option<usize>
    requires room { length offsets.now < code_point_limit }
    ensures some { IfSome result (λ i. (i < length offsets.now / 32)
        × IsNullBlock null offsets.now i) }
    ensures none { result ≡ None → (i : ℕ) → i < length offsets.now / 32
        → IsNullBlock null offsets.now i → ⊥ }
{
    for number in 0..offsets.len() / INDEX_3_BLOCK {
        if is_null(offsets, null, number) {
            return Some(number);
        }
    }
    None
}

/// Returns the index-2 cell, from `cells`, of a block whose 32 offsets all are `null`, or 0x7fff if
/// there is none.
fn null_cell(small: &[u32], null: usize, cells: &[u32]) -> u16
    requires room { length small.now < code_point_limit }
    requires count { length cells.now ≡ length small.now / 32 }
    requires fit { AllBelow 0x10000 cells.now }
    ensures { IsNullCell null small.now (slice_index cells.now) result }
{
    match null_block(small, null) {
        Some(number) => cells[number] as u16,
        None => NO_INDEX3_NULL_OFFSET,
    }
}

/// Appends index-1, the index-3 blocks and index-2 to the fast index. Returns the index-2 cell of
/// the blocks of 512 whose offsets all are `null`, or 0x7fff if there is none.
///
/// `small` has the offsets of the blocks of 16 from the fast limit up to `high_start`.
fn push_upper(
    alloc: Global,
    index: &mut Vec<u16>,
    trie_type: TrieType,
    high_start: usize,
    small: &[u32],
    null: usize,
) -> Result<u16, BuildError>
    requires fast { length index.old.items ≡ fast_limit trie_type / 64 }
    requires aligned { high_start % 512 ≡ 0 }
    requires above { fast_limit trie_type < high_start }
    requires within { high_start ≤ code_point_limit }
    requires small_len { length small.now ≡ (high_start - fast_limit trie_type) / 16 }
    requires small_fit { AllBelow 0x40000 small.now }
    ensures upper { OnOk result
        (IsUpper trie_type high_start small.now index.old.items index.new.items) }
    ensures short { OnOk result (length index.new.items ≤ index3_cells small.now + 3200) }
    ensures tight { OnOk result (AllBelow 0x10000 small.now → length index.new.items
        ≤ 32 * count_different (block 32 small.now) 0 (length small.now / 32) + 3200) }
    ensures null { IfOk result (λ cell.
        IsNullIndex trie_type high_start null small.now index.new.items cell) }
    ensures too_large { result ≡ Err TooLarge
        → 0x7fff + 36 ≤ index3_start trie_type high_start + index3_cells small.now }
{
    let limit = trie_type.fast_limit() as usize;
    let start = limit / FAST_TYPE_DATA_BLOCK_LENGTH as usize
        + (high_start.div_ceil(CP_PER_INDEX_1_ENTRY) - limit / CP_PER_INDEX_1_ENTRY);
    let mut fast = CellStore::new(alloc, widened(alloc, index)?);
    let mut store = CellStore::new(alloc, Vec::new(alloc));
    let numbers = place_index3(alloc, &mut store, &mut fast, small, start)?;
    let unread = limit % CP_PER_INDEX_1_ENTRY / CP_PER_INDEX_2_ENTRY as usize;
    let cells = with_unread(alloc, &numbers, unread)?;
    let places = place_index2(alloc, &mut store, &cells)?;
    push_index1(index, start, &places)?;
    push_stored(index, store.cells())?;
    Ok(null_cell(small, null, &numbers))
}

/// Makes the index of a trie.
///
/// `fast` has the offsets of the blocks of 64 below the fast limit, and `small` those of the blocks
/// of 16 from there up to `high_start` (exclusive). `null` is the offset of the null block of the
/// data, or 0xfffff if there is none.
///
/// # Errors
///
/// - `TooLarge` at the first index-3 block that would be at position 0x7fff or above.
/// - `Memory` if an allocation fails.
pub(crate) fn build_index(
    alloc: Global,
    trie_type: TrieType,
    high_start: usize,
    fast: &[u32],
    small: &[u32],
    null: usize,
) -> Result<BuiltIndex, BuildError>
    requires fast_len { length fast.now ≡ fast_limit trie_type / 64 }
    requires fast_fit { AllBelow 0x10000 fast.now }
    requires aligned { high_start % 512 ≡ 0 }
    requires within { high_start ≤ code_point_limit }
    requires small_len { length small.now ≡ (high_start - fast_limit trie_type) / 16 }
    requires small_fit { AllBelow 0x40000 small.now }
    ensures index { IfOk result (λ v.
        IsIndex trie_type high_start fast.now small.now v.cells.items) }
    ensures short { IfOk result (λ v. length v.cells.items ≤ index3_cells small.now + 3200) }

    // If all offsets have 16 bits, no block needs the 18-bit form.
    ensures tight { IfOk result (λ v. AllBelow 0x10000 small.now → length v.cells.items
        ≤ 32 * count_different (block 32 small.now) 0 (length small.now / 32) + 3200) }
    ensures null { IfOk result (λ v.
        IsNullIndex trie_type high_start null small.now v.cells.items v.null_offset) }

    // After all the others, one more distinct index-3 block would be at position 0x7fff or above.
    ensures too_large { result ≡ Err TooLarge
        → 0x7fff + 36 ≤ index3_start trie_type high_start + index3_cells small.now }
{
    let mut cells = Vec::new(alloc);
    push_fast(&mut cells, fast)?;
    if high_start <= trie_type.fast_limit() as usize {
        return Ok(BuiltIndex {
            cells,
            null_offset: NO_INDEX3_NULL_OFFSET,
        });
    }
    let null_offset = push_upper(alloc, &mut cells, trie_type, high_start, small, null)?;
    Ok(BuiltIndex { cells, null_offset })
}
