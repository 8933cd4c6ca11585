//! Rolling hashes of windows of cells: the hash of a window is computed from that of the previous
//! one, in constant time for any length.
ghost use Rattle.std.specs.Prelude.{◌≡◌, ℕ, ◌+◌, ◌*◌, ◌%◌, ◌^◌, ◌<◌, ◌≤◌, length};
ghost use Rattle.icu_trie_core.specs.Blocks.{window};
ghost use Rattle.icu_trie_builder.specs.Inside.Compaction.Hashes.{cells_hash, leaving_factor, share};

/// The base of the hash: an odd number near 2^64 divided by the golden ratio.
const FACTOR: u64 = 0x9e37_79b9_7f4a_7c15;

/// Returns the share of a cell in a hash: its square.
#[tactic(auto, unfolding(crate::specs::Inside::Compaction::Hashes::share))]
fn share_of(cell: u32) -> u64
    ensures { result ≡ share cell }
{
    u64::from(cell).wrapping_mul(u64::from(cell))
}

/// Returns the hash of some cells.
#[tactic(auto, unfolding(crate::specs::Inside::Compaction::Hashes::cells_hash))]
pub(crate) fn hash_of(cells: &[u32]) -> u64
    ensures { result ≡ cells_hash cells.now }
{
    let mut hash = 0u64;
    for cell in cells {
        hash = hash.wrapping_add(share_of(*cell)).wrapping_mul(FACTOR);
    }
    hash
}

/// Returns the factor for a cell that leaves a window of `size` cells: adding the cell's share
/// times this factor removes the cell from the hash.
#[tactic(auto, unfolding(crate::specs::Inside::Compaction::Hashes::leaving_factor))]
pub(crate) fn leaving_factor_of(size: usize) -> u64
    ensures { result ≡ leaving_factor size }
{
    let mut factor = u64::MAX;
    for _ in 0..size {
        factor = factor.wrapping_mul(FACTOR);
    }
    factor
}

/// Returns the hash of the window after the one at `at`, given the hash of that one. If there is no
/// further window, returns `hash` unchanged.
pub(crate) fn hash_after(cells: &[u32], at: usize, size: usize, leaving: u64, hash: u64) -> u64
    requires inside { at + size ≤ length cells.now }
    requires some { 0 < size }
    requires factor { leaving ≡ leaving_factor size }
    requires hash { hash ≡ cells_hash (window size at cells.now) }
    ensures { at + size < length cells.now → result ≡ cells_hash (window size (at + 1) cells.now) }
{
    if at + size >= cells.len() {
        return hash;
    }
    let kept = hash.wrapping_add(share_of(cells[at]).wrapping_mul(leaving));
    kept.wrapping_add(share_of(cells[at + size]))
        .wrapping_mul(FACTOR)
}
