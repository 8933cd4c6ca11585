//! Stores cells, finds blocks among them and appends blocks to them.
ghost use Rattle.std.specs.Prelude.{◌≡◌, ℕ, ◌+◌, ◌^◌, ◌<◌, List, length, slice_index_or, IfOk, IfSome, IfNone, OnOk};
ghost use Rattle.icu_trie_builder.specs.Inside.Compaction.Placed.{IsPlacedBlock, OccursNowhere};
ghost use Rattle.icu_trie_builder.specs.Inside.Compaction.Windows.{AreTables, IsLeast};
ghost use Rattle.icu_trie_builder.specs.declared.error.BuildError.TheVariants.{TooLarge};
ghost use Rattle.icu_trie_builder.specs.declared.compaction.window_table.WindowTable.{WindowTable};

use crate::compaction::blocks::overlap;
use crate::compaction::hashing::hash_of;
use crate::compaction::window_table::WindowTable;
use crate::error::BuildError;
use std::alloc::{AllocError, Global};
use std::marker::Model;

/// The cells stored so far, fewer than 2^30. A block can be found among them or appended.
#[derive(Drop)]
pub(crate) struct CellStore {
    /// The cells.
    cells: Vec<u32>,
    /// For each length of block that was looked for, a table of the windows of `cells`.
    tables: Vec<WindowTable>,
}

impl Model for CellStore {
    // Contracts see a store as the list of its cells.
    ghost use Rattle.std.specs.Prelude.{ℕ, List};
    ghost use Rattle.icu_trie_builder.specs.Inside.Compaction.Windows.{IsStore};

    ghost Value = { List ℕ };

    ghost view = { λ s. s.cells.items };

    ghost invariant = { λ s. IsStore s.cells.items s.tables.items };
}

/// Returns the index of the table for windows of `size` cells. If there is none, adds an empty one
/// with enough buckets for the windows of `cells` cells.
fn table_index(
    alloc: Global,
    tables: &mut Vec<WindowTable>,
    size: usize,
    cells: usize,
) -> Result<usize, AllocError>
    requires some { 0 < size }
    ensures tables { (cells : List ℕ) → AreTables cells tables.old.items
        → AreTables cells tables.new.items }
    ensures index { IfOk result (λ i. (i < length tables.new.items)
        × ((d : WindowTable) → (slice_index_or tables.new.items i d).size ≡ size)) }
{
    for i in 0..tables.len() {
        if tables[i].size() == size {
            return Ok(i);
        }
    }
    let table = WindowTable::for_cells(alloc, size, cells)?;
    tables.push(table)?;
    Ok(tables.len() - 1)
}

impl CellStore {
    /// Makes a store of these cells.
    pub(crate) fn new(alloc: Global, cells: Vec<u32>) -> CellStore
        requires { length cells.items < 2 ^ 30 }
        ensures { result ≡ cells.items }
    {
        CellStore {
            cells,
            tables: Vec::new(alloc),
        }
    }

    /// Returns the cells.
    pub(crate) fn cells(&self) -> &[u32]
        ensures { result.now ≡ self.now }
    {
        &self.cells
    }

    /// Returns the cells as a list of their own.
    pub(crate) fn into_cells(self) -> Vec<u32>
        ensures { result.items ≡ self }
    {
        self.cells
    }

    /// Returns the first position at which `wanted` occurs, or `None` if it does not occur.
    ///
    /// # Errors
    ///
    /// `AllocError` if an allocation fails.
    pub(crate) fn find(
        &mut self,
        alloc: Global,
        wanted: &[u32],
    ) -> Result<Option<usize>, AllocError>
        requires { 0 < length wanted.now }
        ensures kept { self.new ≡ self.old }
        ensures found { IfOk result (λ r. IfSome r (λ at.
            IsLeast (length wanted.now) at self.old wanted.now)) }
        ensures none { IfOk result (λ r. IfNone r (OccursNowhere wanted.now self.old)) }
    {
        let i = table_index(alloc, &mut self.tables, wanted.len(), self.cells.len())?;
        let table = &mut self.tables[i];
        table.complete(alloc, &self.cells)?;
        Ok(table.find(&self.cells, wanted, hash_of(wanted)))
    }

    /// Returns the first position at which `wanted` occurs. If it does not occur, appends it first,
    /// overlapping the longest tail of the cells that equals a prefix of it.
    ///
    /// # Errors
    ///
    /// - `TooLarge` if `wanted` does not occur and would start above `limit`.
    /// - `Memory` if an allocation fails.
    pub(crate) fn place(
        &mut self,
        alloc: Global,
        wanted: &[u32],
        limit: usize,
    ) -> Result<usize, BuildError>
        requires some { 0 < length wanted.now }
        requires limit { limit + length wanted.now < 2 ^ 30 }
        ensures placed { IfOk result (IsPlacedBlock limit wanted.now self.old self.new) }
        ensures too_large { result ≡ Err TooLarge
            → (limit < length self.old) × OccursNowhere wanted.now self.old }
    {
        if let Some(at) = self.find(alloc, wanted)? {
            return Ok(at);
        }
        let common = overlap(&self.cells, wanted);
        let at = self.cells.len() - common;
        if at > limit {
            return Err(BuildError::TooLarge);
        }
        self.cells.extend_from_slice(&wanted[common..])?;
        Ok(at)
    }
}
