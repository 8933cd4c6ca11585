//! Places the index-3 blocks: the 32 data offsets of each block of 512 code points, in 16 bits if
//! all of them fit, otherwise in the 18-bit form. Equal blocks are stored once. A block may be
//! anywhere among the cells stored so far, and may overlap their tail. A 16-bit block may also be
//! in the fast index.
ghost use Rattle.std.specs.Prelude.{◌≡◌, ◌↔◌, ℕ, ◌+◌, ◌-◌, ◌*◌, ◌/◌, ◌<◌, ◌≤◌, [], length, IsTrue, IfOk, OnOk};
ghost use Rattle.icu_zerovec.specs.CodePoints.{code_point_limit};
ghost use Rattle.icu_trie_core.specs.Blocks.{block, count_different};
ghost use Rattle.icu_trie_builder.specs.Inside.Index.Index3Cells.{IsIndex3Store, IsIndexed, IsPlacedOffsets, IsUnplaced};
ghost use Rattle.icu_trie_builder.specs.Inside.Index.Layout.{AllBelow};
ghost use Rattle.icu_trie_builder.specs.declared.error.BuildError.TheVariants.{TooLarge};

use crate::compaction::blocks::block_at;
use crate::compaction::cell_store::CellStore;
use crate::error::BuildError;
use crate::index::packing::pack;
use crate::lengths::INDEX_3_BLOCK;
use std::alloc::Global;

/// The index-3 offset that stands for "no null block". No block has this offset.
pub(crate) const NO_INDEX3_NULL_OFFSET: u16 = 0x7fff;

/// Returns true if all offsets have 16 bits.
fn fit_16_bits(offsets: &[u32]) -> bool
    ensures { IsTrue result ↔ AllBelow 0x10000 offsets.now }
{
    for offset in offsets {
        if *offset >= 0x10000 {
            return false;
        }
    }
    true
}

/// Returns true if block number `number` of 512 has the same offsets as the block before it.
fn repeats(offsets: &[u32], number: usize) -> bool
    requires offsets { length offsets.now < code_point_limit }
    requires inside { 32 * number + 32 ≤ length offsets.now }
    ensures { IsTrue result → (0 < number)
        × (block 32 offsets.now number ≡ block 32 offsets.now (number - 1)) }
{
    number > 0
        && block_at(offsets, INDEX_3_BLOCK, number) == block_at(offsets, INDEX_3_BLOCK, number - 1)
}

/// Places the block of 512 with these 32 offsets, and returns its index-2 cell. `store` starts at
/// index position `start`.
///
/// # Errors
///
/// `TooLarge` if the block would be at position 0x7fff or above.
fn place_offsets(
    alloc: Global,
    store: &mut CellStore,
    fast: &mut CellStore,
    offsets: &[u32],
    start: usize,
) -> Result<usize, BuildError>
    requires start { start < 0x7fff }
    requires fast_len { length fast.old ≤ start }
    requires offsets { length offsets.now ≡ 32 }
    requires offsets_fit { AllBelow 0x40000 offsets.now }
    requires store { IsIndex3Store start store.old }
    ensures fast { OnOk result (fast.new ≡ fast.old) }
    ensures placed { IfOk result
        (IsPlacedOffsets start fast.old offsets.now store.old store.new) }
    ensures too_large { result ≡ Err TooLarge → (0x7fff ≤ start + length store.old)
        × IsUnplaced start fast.old store.old offsets.now }
{
    let greatest = usize::from(NO_INDEX3_NULL_OFFSET) - 1 - start;
    if !fit_16_bits(offsets) {
        let packed = pack(alloc, offsets)?;
        let at = store.place(alloc, &packed, greatest)?;
        return Ok(0x8000 + start + at);
    }
    if let Some(at) = fast.find(alloc, offsets)? {
        return Ok(at);
    }
    let at = store.place(alloc, offsets, greatest)?;
    if at > greatest {
        return Err(BuildError::TooLarge);
    }
    Ok(start + at)
}

/// Places all blocks of 512 in `store`, and returns their index-2 cells. `store` is empty at first
/// and starts at index position `start`. `fast` has the fast index.
///
/// # Errors
///
/// `TooLarge` at the first block that would be at position 0x7fff or above.
pub(crate) fn place_index3(
    alloc: Global,
    store: &mut CellStore,
    fast: &mut CellStore,
    offsets: &[u32],
    start: usize,
) -> Result<Vec<u32>, BuildError>
    requires start { start < 0x7fff }
    requires fast_len { length fast.old ≤ start }
    requires offsets { length offsets.now < code_point_limit }
    requires offsets_fit { AllBelow 0x40000 offsets.now }
    requires none { store.old ≡ [] }
    ensures indexed { IfOk result (λ cells.
        IsIndexed start fast.old offsets.now store.new cells.items) }
    ensures store { OnOk result (IsIndex3Store start store.new) }
    ensures short { OnOk result (length store.new
        ≤ 36 * count_different (block 32 offsets.now) 0 (length offsets.now / 32)) }
    ensures tight { OnOk result (AllBelow 0x10000 offsets.now → length store.new
        ≤ 32 * count_different (block 32 offsets.now) 0 (length offsets.now / 32)) }
    ensures too_large { result ≡ Err TooLarge
        → 0x7fff + 36
        ≤ start + 36 * count_different (block 32 offsets.now) 0 (length offsets.now / 32) }
{
    let count = offsets.len() / INDEX_3_BLOCK;
    let mut cells = Vec::with_capacity(alloc, count)?;
    for number in 0..count {
        if repeats(offsets, number) {
            cells.push(cells[number - 1])?;
            continue;
        }
        let wanted = block_at(offsets, INDEX_3_BLOCK, number);
        let cell = place_offsets(alloc, store, fast, wanted, start)?;
        cells.push(cell as u32)?;
    }
    Ok(cells)
}
