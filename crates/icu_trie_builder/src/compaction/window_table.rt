//! A hash table of the windows of some cells. Of equal windows it has the first one. The hash makes
//! it unnecessary to compare a window with every other one.
ghost use Rattle.std.specs.Prelude.{◌≡◌, ◌≢◌, ℕ, ◌+◌, ◌-◌, ◌*◌, ◌/◌, ◌^◌, ◌<◌, ◌≤◌, List, length, slice_index, slice_set, IfOk, OnOk, IfSome, IfNone};
ghost use Rattle.icu_trie_core.specs.Blocks.{window};
ghost use Rattle.icu_trie_builder.specs.Inside.Compaction.Hashes.{bucket, cells_hash};
ghost use Rattle.icu_trie_builder.specs.Inside.Compaction.Windows.{HasAll, IsLeast, IsTable};

use crate::compaction::hashing::{hash_after, hash_of, leaving_factor_of};
use std::alloc::{AllocError, Global};

/// The number of buckets of a new table.
const FIRST_BUCKETS: usize = 256;

/// The number of buckets from which on a table does not grow.
const MOST_BUCKETS: usize = 0x100000;

/// The distinct windows of some cells, by their hash.
#[derive(Drop)]
pub(crate) struct WindowTable {
    /// The number of cells in a window.
    size: usize,
    /// The factor for a cell that leaves a window.
    leaving: u64,
    /// The table has the windows that start before this position.
    entered: usize,
    /// For each distinct window, the first position at which it occurs.
    starts: Vec<u32>,
    /// For each bucket, the number of its newest window plus one, or 0.
    heads: Vec<u32>,
    /// For each window, the number of the one before it in its bucket plus one, or 0.
    next: Vec<u32>,
}

impl WindowTable {
    /// Makes an empty table for windows of `size` cells, with enough buckets for the windows of
    /// `cells` cells.
    ///
    /// # Errors
    ///
    /// `AllocError` if the allocation fails.
    pub(crate) fn for_cells(
        alloc: Global,
        size: usize,
        cells: usize,
    ) -> Result<WindowTable, AllocError>
        requires { 0 < size }
        ensures size { IfOk result (λ t. t.size ≡ size) }
        ensures table { IfOk result (λ t. (cells : List ℕ) → IsTable cells t) }
    {
        let buckets = cells.clamp(FIRST_BUCKETS, MOST_BUCKETS);
        WindowTable::with_buckets(alloc, size, buckets)
    }

    /// Makes an empty table with `buckets` buckets.
    fn with_buckets(alloc: Global, size: usize, buckets: usize) -> Result<WindowTable, AllocError>
        requires some_cells { 0 < size }
        requires some_buckets { 0 < buckets }
        requires few_buckets { buckets ≤ 2 ^ 24 }
        ensures size { IfOk result (λ t. t.size ≡ size) }
        ensures table { IfOk result (λ t. (cells : List ℕ) → IsTable cells t) }
    {
        Ok(WindowTable {
            size,
            leaving: leaving_factor_of(size),
            entered: 0,
            starts: Vec::new(alloc),
            heads: zeros(alloc, buckets)?,
            next: Vec::new(alloc),
        })
    }

    /// Returns the number of cells in a window.
    pub(crate) fn size(&self) -> usize
        ensures { result ≡ self.now.size }
    {
        self.size
    }

    /// Returns the bucket of windows with this hash.
    fn bucket_of(&self, hash: u64) -> usize
        requires some { 0 < length self.now.heads.items }
        requires few { length self.now.heads.items ≤ 2 ^ 24 }
        ensures value { result ≡ hash / 2 ^ 32 * length self.now.heads.items / 2 ^ 32 }
        ensures below { result < length self.now.heads.items }
    {
        (hash / 0x1_0000_0000 * self.heads.len() as u64 / 0x1_0000_0000) as usize
    }

    /// Returns the first position at which `wanted` occurs in `cells`, or `None` if the table has
    /// no such window. `hash` is the hash of `wanted`.
    // Few searches go past the first test, and a call would take longer than that.
    #[inline(always)]
    pub(crate) fn find(&self, cells: &[u32], wanted: &[u32], hash: u64) -> Option<usize>
        requires size { length wanted.now ≡ self.now.size }
        requires hash { hash ≡ cells_hash wanted.now }
        requires table { IsTable cells.now self.now }
        ensures found { IfSome result (λ at. (at < self.now.entered)
            × IsLeast self.now.size at cells.now wanted.now) }
        ensures none { IfNone result ((q : ℕ) → q < self.now.entered
            → window self.now.size q cells.now ≢ wanted.now) }
    {
        let mut at = self.heads[self.bucket_of(hash)] as usize;
        while at > 0 {
            let start = self.starts[at - 1] as usize;
            if &cells[start..start + self.size] == wanted {
                return Some(start);
            }
            at = self.next[at - 1] as usize;
        }
        None
    }

    /// Adds the next window, whose hash this is, unless the table has an equal one.
    fn enter(&mut self, cells: &[u32], hash: u64) -> Result<(), AllocError>
        requires inside { self.old.entered + self.old.size ≤ length cells.now }
        requires room { length cells.now < 2 ^ 31 }
        requires hash { hash ≡ cells_hash (window self.old.size self.old.entered cells.now) }
        requires table { IsTable cells.now self.old }
        ensures size { OnOk result (self.new.size ≡ self.old.size) }
        ensures entered { OnOk result (self.new.entered ≡ self.old.entered + 1) }
        ensures table { IsTable cells.now self.new }
    {
        let at = self.entered;
        if let Some(_first) = self.find(cells, &cells[at..at + self.size], hash) {
            self.entered = at + 1;
            return Ok(());
        }
        let bucket = self.bucket_of(hash);
        let newest = self.heads[bucket];
        // With this, the second push succeeds if the first one does.
        self.next.reserve(1)?;
        self.starts.push(at as u32)?;
        self.next.push(newest)?;
        set_head(&mut self.heads, bucket, self.starts.len() as u32);
        self.entered = at + 1;
        Ok(())
    }

    /// Adds all windows of `cells`.
    fn enter_all(&mut self, cells: &[u32]) -> Result<(), AllocError>
        requires room { length cells.now < 2 ^ 31 }
        requires table { IsTable cells.now self.old }
        ensures size { OnOk result (self.new.size ≡ self.old.size) }
        ensures table { IsTable cells.now self.new }
        ensures whole { OnOk result (HasAll cells.now self.new) }
    {
        let size = self.size;
        let from = self.entered;
        let count = window_count(cells.len(), size);
        if from == count {
            return Ok(());
        }
        let mut hash = hash_of(&cells[from..from + size]);
        for at in from..count {
            self.enter(cells, hash)?;
            hash = hash_after(cells, at, size, self.leaving, hash);
        }
        Ok(())
    }

    /// Empties a full table and gives it more buckets.
    fn grow(&mut self, alloc: Global) -> Result<(), AllocError>
        requires some_cells { 0 < self.old.size }
        requires some_buckets { 0 < length self.old.heads.items }
        ensures size { self.new.size ≡ self.old.size }
        ensures table { (cells : List ℕ) → IsTable cells self.old → IsTable cells self.new }
    {
        let buckets = self.heads.len();
        if self.starts.len() > buckets && buckets < MOST_BUCKETS {
            *self = WindowTable::with_buckets(alloc, self.size, 4 * buckets)?;
        }
        Ok(())
    }

    /// Adds all windows of `cells`. Before that, a full table gets more buckets.
    ///
    /// # Errors
    ///
    /// `AllocError` if an allocation fails. The table then lacks windows.
    pub(crate) fn complete(&mut self, alloc: Global, cells: &[u32]) -> Result<(), AllocError>
        requires room { length cells.now < 2 ^ 31 }
        requires table { IsTable cells.now self.old }
        ensures size { OnOk result (self.new.size ≡ self.old.size) }
        ensures table { IsTable cells.now self.new }
        ensures whole { OnOk result (HasAll cells.now self.new) }
    {
        self.grow(alloc)?;
        self.enter_all(cells)
    }
}

/// Sets the head of a bucket.
fn set_head(heads: &mut [u32], bucket: usize, head: u32)
    requires { bucket < length heads.old }
    ensures { heads.new ≡ slice_set heads.old bucket head }
{
    heads[bucket] = head;
}

/// Returns a list of `count` zeros.
fn zeros(alloc: Global, count: usize) -> Result<Vec<u32>, AllocError>
    ensures len { IfOk result (λ v. length v.items ≡ count) }
    ensures zero { IfOk result (λ v. (i : ℕ) → slice_index v.items i ≡ 0) }
{
    vec![in alloc; 0; count]
}

/// Returns the number of windows of `size` cells in `len` cells.
fn window_count(len: usize, size: usize) -> usize
    requires { 0 < size }
    ensures { result ≡ len + 1 - size }
{
    if len < size {
        return 0;
    }
    len - size + 1
}
