//! Places the blocks of a map in the data.
ghost use Rattle.std.specs.Prelude.{◌≡◌, ℕ, ◌+◌, ◌*◌, ◌^◌, ◌<◌, ◌≤◌, Bool, Err, List, length, max, IfOk, OnOk};
ghost use Rattle.icu_trie_core.specs.Blocks.{count_different};
ghost use Rattle.icu_trie_builder.specs.Inside.MapBlocks.{HasBlocks, numbers_of};
ghost use Rattle.icu_trie_builder.specs.Different.{count_different_but};
ghost use Rattle.icu_trie_builder.specs.Inside.Compaction.Placed.{AllStandIn, IsPlaced};
ghost use Rattle.icu_trie_builder.specs.declared.error.BuildError.TheVariants.{TooLarge};

use crate::compaction::cell_store::CellStore;
use crate::error::BuildError;
use crate::map::number_map::NumberMap;
use std::alloc::Global;

/// The greatest 18-bit offset of a block.
pub(crate) const MAX_DATA_OFFSET: usize = 0x3ffff;

/// The aligned blocks of a map that have this many code points.
#[derive(Clone, Copy)]
pub(crate) struct MapBlocks<'a> {
    /// The map.
    pub(crate) map: &'a NumberMap,
    /// The number of code points in a block.
    pub(crate) size: usize,
}

impl MapBlocks<'_> {
    /// Places `count` blocks in `store`, from block number `first` on, and returns their offsets.
    ///
    /// The offset of a block is the first position at which its numbers occur. If
    /// [`NumberMap::repeats`] reports a run of equal blocks, only the first one is read.
    ///
    /// # Errors
    ///
    /// `TooLarge` at the first block whose offset has more than 18 bits.
    pub(crate) fn place(
        &self,
        alloc: Global,
        store: &mut CellStore,
        first: usize,
        count: usize,
    ) -> Result<Vec<u32>, BuildError>
        requires blocks { HasBlocks self.now (first + count) }
        requires room { length store.old < 2 ^ 30 }
        ensures count { IfOk result (λ offsets. length offsets.items ≡ count) }
        ensures placed { IfOk result (λ offsets. IsPlaced self.now.size first
            (numbers_of self.now) store.old store.new offsets.items) }
        ensures capped { OnOk result
            (length store.new ≤ max (length store.old) (0x3ffff + self.now.size)) }
        ensures short { OnOk result (length store.new ≤ length store.old
            + self.now.size * count_different (numbers_of self.now) first count) }

        // Blocks that already occur in the cells add none.
        ensures shorter { OnOk result ((p : List ℕ → Bool) → AllStandIn self.now.size store.old p
            → length store.new ≤ length store.old
            + self.now.size * count_different_but p (numbers_of self.now) first count) }
        ensures too_large { result ≡ Err TooLarge → 0x3ffff + self.now.size < length store.old
            + self.now.size * count_different (numbers_of self.now) first count }
    {
        let mut room = Vec::with_capacity(alloc, self.size)?;
        let mut offsets = Vec::with_capacity(alloc, count)?;
        let mut j = 0;
        while j < count {
            self.map.copy_block(self.size, first + j, &mut room)?;
            let offset = store.place(alloc, &room, MAX_DATA_OFFSET)? as u32;
            j += self.map.repeats(self.size, first + j, count - j);
            offsets.resize(j, offset)?;
        }
        Ok(offsets)
    }
}
