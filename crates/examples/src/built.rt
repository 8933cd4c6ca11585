//! What is known about a built trie besides its values: the number of its cells, the block that its
//! header names as null, how many cells a walk reads, and which maps are never rejected for their
//! size.
ghost use Rattle.std.specs.Prelude.{◌≡◌, ◌≢◌, ◌+◌, ◌*◌, ◌<◌, ◌≤◌, ◌⊎◌, ℕ, Err, Some, IfOk, IfSome};
ghost use Rattle.icu_collections.specs.CodePointTrie.{IsCoherentTrie, IsShared, LongestRun, answers, contents_of, fast_limit, fast_offset, last_of, small_offset};
ghost use Rattle.icu_collections.specs.CodePointTrieBuilder.{block_of, compact_data_bound, count_different, index_bound, short_index_bound, value_after};

use icu_collections::codepointtrie::{
    BuildError, Cells, CodePointMapRange, CodePointTrie, TrieType, TrieValue, Write,
    build_from_writes, walk,
};
use std::alloc::Global;

/// Returns the numbers of data cells and index cells in the trie of these writes.
///
/// The bounds count only the map's different blocks. No trie of real data reaches them.
pub fn cells_of<T: TrieValue>(
    alloc: Global,
    default: T,
    error: T,
    trie_type: TrieType,
    writes: &[Write<T>],
) -> Result<(usize, usize), BuildError>
    ensures data_cells { IfOk result
        (λ r. r.0 ≤ compact_data_bound trie_type
        (λ c. T.number (value_after writes.now default c))) }
    ensures index_cells { IfOk result
        (λ r. r.1 ≤ index_bound trie_type (λ c. T.number (value_after writes.now default c))) }
    ensures narrow { compact_data_bound trie_type (λ c. T.number (value_after writes.now default c))
        ≤ 0x10000 → IfOk result
        (λ r. r.1 ≤ short_index_bound trie_type
        (λ c. T.number (value_after writes.now default c))) }
{
    let trie = build_from_writes(alloc, default, error, trie_type, writes)?;
    let (_, index, data) = trie.parts();
    Ok((data.len(), index.len()))
}

/// Builds the trie of a map with few different blocks. The only possible error is a failed
/// allocation.
pub fn built_if_memory_lasts<T: TrieValue>(
    alloc: Global,
    default: T,
    error: T,
    trie_type: TrieType,
    writes: &[Write<T>],
) -> Result<CodePointTrie<'static, T>, BuildError>
    requires large_blocks { count_different
        (block_of 512 (λ c. T.number (value_after writes.now default c))) 0 2176 ≤ 800 }
    requires small_blocks { count_different
        (block_of 16 (λ c. T.number (value_after writes.now default c))) 0 69632 ≤ 12000 }
    ensures { result ≢ Err BuildError.TooLarge }
{
    build_from_writes(alloc, default, error, trie_type, writes)
}

/// Builds a trie whose header names a null block. The block `b` of 64 code points, which is below
/// the fast limit, has one value throughout.
///
/// The offset in the header is that of a block of 64 code points below the limit, or of 16 from it
/// on. A reader may skip such blocks without reading their cells.
pub fn with_null_block<T: TrieValue>(
    alloc: Global,
    default: T,
    error: T,
    trie_type: TrieType,
    writes: &[Write<T>],
    b: u32,
) -> Result<CodePointTrie<'static, T>, BuildError>
    requires below { b * 64 < fast_limit trie_type }
    requires one { (i : ℕ) → i < 64 → T.number (value_after writes.now default (b * 64 + i))
        ≡ T.number (value_after writes.now default (b * 64)) }
    ensures { IfOk result (λ trie.
        ((d : ℕ) × (d * 64 < fast_limit trie.header.trie_type)
        × (fast_offset trie.index (d * 64) ≡ Some trie.header.data_null_offset))
        ⊎ ((d : ℕ) × (fast_limit trie.header.trie_type ≤ d * 16)
        × (d * 16 < trie.header.high_start)
        × (small_offset trie.header.trie_type trie.index (d * 16)
        ≡ Some trie.header.data_null_offset))) }
{
    let trie = build_from_writes(alloc, default, error, trie_type, writes)?;
    Ok(trie)
}

/// Returns the range at a code point of a trie whose cells may be anywhere, with at most 6,000
/// reads.
pub fn walked<T: TrieValue, C: Cells<T>>(
    trie: &CodePointTrie<'_, T>,
    cells: &mut C,
    c: u32,
) -> Option<CodePointMapRange<T>>
    requires cells { C.contents cells.old ≡ contents_of trie.now.index trie.now.values }
    requires coherent { IsCoherentTrie T.of_number trie.now }
    requires shared { IsShared trie.now.header (contents_of trie.now.index trie.now.values) }
    ensures reads { C.reads cells.new ≤ C.reads cells.old + 6000 }
    ensures run { c < 0x110000
        → IfSome result (λ range. LongestRun (answers trie.now) c (last_of range)
        (Some range.value)) }
{
    let (header, _, _) = trie.parts();
    walk(&header, cells, c)
}
