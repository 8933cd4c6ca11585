//! Places the index-2 blocks: the index-2 cells of 32 blocks of 512 code points. Equal blocks are
//! stored once. A block may be anywhere among the index-3 and index-2 cells stored so far, and may
//! overlap their tail.
ghost use Rattle.std.specs.Prelude.{◌≡◌, ℕ, ◌+◌, ◌*◌, ◌/◌, ◌<◌, ◌≤◌, length, slice_index, IfOk, OnOk};
ghost use Rattle.icu_trie_core.specs.Blocks.{block};
ghost use Rattle.icu_trie_builder.specs.Inside.Index.Layout.{AllBelow};
ghost use Rattle.icu_trie_builder.specs.Inside.Index.IndexParts.{IsIndex2};
ghost use Rattle.icu_trie_builder.specs.Inside.Compaction.Placed.{IsPlaced};
ghost use Rattle.icu_trie_builder.specs.declared.error.BuildError.TheVariants.{TooLarge};

use crate::compaction::blocks::block_at;
use crate::compaction::cell_store::CellStore;
use crate::error::BuildError;
use crate::lengths::INDEX_2_BLOCK;
use std::alloc::{AllocError, Global};

/// A limit above every position of an index-2 block.
const MOST_CELLS: usize = 0x10000;

/// Returns the index-2 cells after `count` further cells that no look-up reads. These are copies of
/// the first cell, so that they can often share storage.
pub(crate) fn with_unread(
    alloc: Global,
    cells: &[u32],
    count: usize,
) -> Result<Vec<u32>, AllocError>
    requires some { 0 < length cells.now }
    ensures len { IfOk result (λ v. length v.items ≡ count + length cells.now) }
    ensures cells { IfOk result (λ v. (i : ℕ) → i < length cells.now
        → slice_index v.items (count + i) ≡ slice_index cells.now i) }
    ensures fit { IfOk result (λ v. AllBelow 0x10000 cells.now → AllBelow 0x10000 v.items) }
{
    let mut all = vec![in alloc; cells[0]; count]?;
    all.extend_from_slice(cells)?;
    Ok(all)
}

/// Places the whole blocks of 32 cells, and returns the position of each in `store`.
fn place_whole(
    alloc: Global,
    store: &mut CellStore,
    cells: &[u32],
) -> Result<Vec<usize>, BuildError>
    requires cells { length cells.now ≤ 2176 }
    requires store { length store.old ≤ 0x8100 }
    ensures count { IfOk result (λ places. length places.items ≡ length cells.now / 32) }
    ensures placed { IfOk result (λ places.
        IsPlaced 32 0 (block 32 cells.now) store.old store.new places.items) }
    ensures short { OnOk result
        (length store.new ≤ length store.old + 32 * (length cells.now / 32)) }
    ensures never { result ≡ Err TooLarge → ⊥ }
{
    let count = cells.len() / INDEX_2_BLOCK;
    let mut places = Vec::with_capacity(alloc, count + 1)?;
    for number in 0..count {
        let wanted = block_at(cells, INDEX_2_BLOCK, number);
        let at = store.place(alloc, wanted, MOST_CELLS)?;
        places.push(at)?;
    }
    Ok(places)
}

/// Places all blocks of 32 cells, and returns the position of each in `store`. The last block may
/// be shorter.
pub(crate) fn place_index2(
    alloc: Global,
    store: &mut CellStore,
    cells: &[u32],
) -> Result<Vec<usize>, BuildError>
    requires cells { length cells.now ≤ 2176 }
    requires store { length store.old ≤ 0x8100 }
    requires cells_fit { AllBelow 0x10000 cells.now }
    requires store_fit { AllBelow 0x10000 store.old }
    ensures placed { IfOk result (λ places. IsIndex2 cells.now store.old store.new places.items) }
    ensures never { result ≡ Err TooLarge → ⊥ }
{
    let mut places = place_whole(alloc, store, cells)?;
    let rest = cells.len() % INDEX_2_BLOCK;
    if rest > 0 {
        let tail = &cells[cells.len() - rest..];
        let last = store.place(alloc, tail, MOST_CELLS)?;
        places.push(last)?;
    }
    Ok(places)
}
