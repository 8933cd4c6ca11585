//! Blocks of cells, and how far a block overlaps the end of other cells.
ghost use Rattle.std.specs.Prelude.{◌≡◌, ◌≢◌, ℕ, ◌+◌, ◌-◌, ◌*◌, ◌^◌, ◌<◌, ◌≤◌, length, take, drop};
ghost use Rattle.icu_trie_core.specs.Blocks.{block};

/// Returns block number `number` of `size` cells.
pub(crate) fn block_at(cells: &[u32], size: usize, number: usize) -> &[u32]
    requires room { length cells.now < 2 ^ 31 }
    requires inside { size * number + size ≤ length cells.now }
    ensures { result.now ≡ block size cells.now number }
{
    &cells[size * number..size * number + size]
}

/// Returns the length of the longest tail of `stored`, shorter than `wanted`, that equals a prefix
/// of `wanted`.
pub(crate) fn overlap(stored: &[u32], wanted: &[u32]) -> usize
    requires { 0 < length wanted.now }
    ensures below { result < length wanted.now }
    ensures inside { result ≤ length stored.now }
    ensures tail { drop (length stored.now - result) stored.now ≡ take result wanted.now }
    ensures longest { (m : ℕ) → result < m → m < length wanted.now → m ≤ length stored.now
        → drop (length stored.now - m) stored.now ≢ take m wanted.now }
{
    let mut common = (wanted.len() - 1).min(stored.len());
    while common > 0 {
        if stored[stored.len() - common..] == wanted[..common] {
            return common;
        }
        common -= 1;
    }
    0
}
