//! The words by reads that a proof shows to be in bounds.
ghost use Rattle.std.specs.Prelude.{◌≡◌, ◌+◌, ◌*◌, ◌<◌, ◌≤◌, [], ◌∷◌, length, take, drop};
ghost use Rattle.std.specs.Int.{w32, from_le_bytes};
ghost use Rattle.icu_invlist.specs.Inside.PackedSets.{word_before};

/// Returns the number in the four bytes from index `at` on. It is a single read.
#[inline(always)]
fn word_from(bytes: &[u8], at: usize) -> u32
    requires { at + 4 ≤ length bytes.now }
    ensures { result ≡ from_le_bytes w32 (take 4 (drop at bytes.now)) }
{
    u32::from_le_bytes([bytes[at], bytes[at + 1], bytes[at + 2], bytes[at + 3]])
}

/// Returns the words of the last boundary of each of three steps from boundary `low` on, of `step`
/// boundaries each. Such a word is a boundary's three bytes after the byte before them. That byte is
/// the lowest, so comparisons do not depend on it.
#[inline(always)]
pub(crate) fn last_words(bytes: &[u8], low: usize, step: usize) -> [u32; 3]
    requires first { 0 < low }
    requires some { 0 < step }
    requires within { 3 * (low + 3 * step) ≤ length bytes.now }
    ensures { result
        ≡ word_before bytes.now (low + step) ∷ word_before bytes.now (low + 2 * step)
        ∷ word_before bytes.now (low + 3 * step) ∷ [] }
{
    let first = 3 * (low + step) - 4;
    [
        word_from(bytes, first),
        word_from(bytes, first + 3 * step),
        word_from(bytes, first + 6 * step),
    ]
}
