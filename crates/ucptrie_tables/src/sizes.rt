//! How many cells a built trie has at most.
ghost use Rattle.std.specs.Prelude.{◌≡◌, ◌<◌, ◌≤◌, ℕ, IfOk, slice_index, vec_len};
ghost use Rattle.icu_trie.specs.Parts.{trie_value};
ghost use Rattle.ucptrie_tables.specs.Rebuilt.{AreValues};

use icu_trie::cptrie::CodePointTrie;
use icu_zerovec::CODE_POINT_LIMIT;
use std::alloc::{AllocError, Global};
use std::collections::BTreeSet;

/// The most cells that a built trie of some values has.
#[derive(Clone, Copy, Debug, PartialEq, Eq)]
pub struct Bounds {
    pub index: usize,
    pub data: usize,
}

/// Returns the number of code points before those that all have the high value.
pub(crate) fn stored_values(trie: &CodePointTrie<'_, u32>) -> u32
    ensures within { result ≤ 0x110000 }
    ensures high { (u : ℕ) → result ≤ u → u < 0x110000
        → trie_value trie.now u ≡ trie_value trie.now 0x10FFFF }
{
    let (header, _, _) = trie.parts();
    let start = header.high_start.max(header.trie_type.fast_limit());
    start.min(CODE_POINT_LIMIT)
}

/// Returns the value of each code point.
fn values_of(alloc: Global, trie: &CodePointTrie<'_, u32>) -> Result<Vec<u32>, AllocError>
    ensures len { IfOk result (λ values. vec_len values ≡ 0x110000) }
    ensures values { IfOk result (λ values. AreValues trie.now (slice_index values.items)) }
{
    let end = stored_values(trie);
    let mut values = Vec::with_capacity(alloc, CODE_POINT_LIMIT as usize)?;
    for c in 0..end {
        values.push(trie.get32(c))?;
    }
    values.resize(CODE_POINT_LIMIT as usize, trie.get32(CODE_POINT_LIMIT - 1))?;
    Ok(values)
}

/// Returns the lists of 16 neighbours in an aligned block of 64.
fn windows_of(alloc: Global, values: &[u32]) -> Result<BTreeSet<&[u32]>, AllocError> {
    let mut windows = BTreeSet::new(alloc);
    let mut before: &[u32] = &[];
    for block in values.chunks(64) {
        if block != before {
            for window in block.windows(16) {
                windows.insert(window)?;
            }
        }
        before = block;
    }
    Ok(windows)
}

/// Counts the different aligned blocks of `size` values that are not among the known ones.
fn count_different(
    alloc: Global,
    values: &[u32],
    size: usize,
    known: &BTreeSet<&[u32]>,
) -> Result<usize, AllocError>
    requires { 0 < size }
{
    let mut blocks = BTreeSet::new(alloc);
    let mut before: &[u32] = &[];
    for block in values.chunks(size) {
        // Most blocks are equal to the one before, and this is faster than to look them up.
        if block != before && !known.contains(block) {
            blocks.insert(block)?;
        }
        before = block;
    }
    Ok(blocks.len())
}

/// Returns the most cells that a trie of this type has if it is built of the values of this one.
///
/// The bounds count different aligned blocks. Data: 64 cells for each block of 64 code points below
/// the fast limit, 16 for each block of 16 above it that occurs in none of these, and 160. Index:
/// 36 cells for each block of 512 above the fast limit, or 32 if the bound on the data is at most
/// 0x10000, and 3,200.
///
/// # Errors
/// Returns [`AllocError`] if an allocation fails.
pub fn bounds_of(alloc: Global, trie: &CodePointTrie<'_, u32>) -> Result<Bounds, AllocError> {
    let (header, _, _) = trie.parts();
    let values = values_of(alloc, trie)?;
    let (fast, small) = values.split_at(header.trie_type.fast_limit() as usize);
    let (none, windows) = (BTreeSet::new(alloc), windows_of(alloc, fast)?);
    let fast_cells = count_different(alloc, fast, 64, &none)?.saturating_mul(64);
    let small_cells = count_different(alloc, small, 16, &windows)?.saturating_mul(16);
    let data = fast_cells.saturating_add(small_cells).saturating_add(160);
    let cells = if data <= 0x10000 { 32 } else { 36 };
    let index = count_different(alloc, small, 512, &none)?.saturating_mul(cells);
    Ok(Bounds {
        index: index.saturating_add(3200),
        data,
    })
}
