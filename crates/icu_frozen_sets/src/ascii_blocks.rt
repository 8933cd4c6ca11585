//! ASCII, eight bytes at a time: the table of a kind, and how many bytes are ASCII.
ghost use Rattle.std.specs.Prelude.{◌≡◌, ℕ, ◌+◌, ◌*◌, ◌/◌, ◌%◌, ◌<◌, ◌≤◌, ◌==◌, true, length, slice_index};
ghost use Rattle.std.specs.Int.{bit_at};

/// Writes eight bits to the table, each as a byte that is 0 if the bit is.
#[inline(always)]
fn write_bits(others: &mut [u8; 256], start: usize, bits: u8)
    requires { start + 8 ≤ 256 }
    ensures bits { (j : ℕ) → j < 8 → slice_index others.new (start + j) ≡ 0 → bit_at bits j ≡ 0 }
    ensures before { (i : ℕ) → i < start → slice_index others.new i ≡ slice_index others.old i }
{
    for j in 0..8 {
        others[start + j] = bits & (1 << j);
    }
}

/// Returns a table for the kind with these words. It has 0 for each ASCII character that is of the
/// kind, and not for the other ones. It has 0 for bytes that are not ASCII.
#[inline(always)]
pub(crate) fn others_of(words: &[u64; 36]) -> [u8; 256]
    ensures { (c : ℕ) → c < 128 → slice_index result c ≡ 0
        → (bit_at (slice_index words.now (c / 64)) (c % 64) == 1) ≡ true }
{
    let mut others = [0; 256];
    for k in 0..16 {
        let word = !words[k / 8];
        write_bits(&mut others, 8 * k, ((word >> (8 * (k % 8))) % 0x100) as u8);
    }
    others
}

/// Returns true if the table has 0 for each of eight bytes.
#[inline(always)]
fn are_plain(others: &[u8; 256], bytes: &[u8]) -> bool
    requires { length bytes.now ≡ 8 }
    ensures { result ≡ true → (k : ℕ) → k < 8
        → slice_index others.now (slice_index bytes.now k) ≡ 0 }
{
    let mut plain = true;
    for k in 0..8 {
        if others[usize::from(bytes[k])] != 0 {
            plain = false;
        }
    }
    plain
}

/// The highest bit of each of eight bytes.
const HIGH_BITS: u64 = 0x8080_8080_8080_8080;

/// Returns the highest bits of eight bytes, the first byte in the lowest bits.
#[tactic(auto, using(crate::proofs::AsciiBlockLemmas::high_of))]
#[inline(always)]
fn high_bits(bytes: &[u8]) -> u64
    requires { length bytes.now ≡ 8 }
    ensures { (k : ℕ) → k < 8 → bit_at result (8 * k + 7) ≡ 0 → slice_index bytes.now k < 128 }
{
    HIGH_BITS
        & u64::from_le_bytes([
            bytes[0], bytes[1], bytes[2], bytes[3], bytes[4], bytes[5], bytes[6], bytes[7],
        ])
}

/// Returns the index of the first of eight bytes that is not ASCII, from their highest bits.
#[inline(always)]
fn first_high(high: u64) -> usize
    requires { 0 < high }
    ensures most { result < 8 }
    ensures before { (k : ℕ) → k < result → bit_at high (8 * k + 7) ≡ 0 }
{
    (high.trailing_zeros() / 8) as usize
}

/// Passes ASCII for which the table has 0, eight bytes at a time, and returns the offset after it.
/// It stops at another character, or at the last seven bytes.
#[inline(always)]
pub(crate) fn skip_ascii_blocks(others: &[u8; 256], bytes: &[u8], start: usize) -> usize
    requires { start ≤ length bytes.now }
    ensures order { start ≤ result }
    ensures within { result ≤ length bytes.now }
    ensures ascii { (i : ℕ) → start ≤ i → i < result → slice_index bytes.now i < 128 }
    ensures passed { (i : ℕ) → start ≤ i → i < result
        → slice_index others.now (slice_index bytes.now i) ≡ 0 }
{
    let mut end = start;
    while bytes.len() - end >= 8 {
        let window = &bytes[end..end + 8];
        if !are_plain(others, window) {
            return end;
        }
        let high = high_bits(window);
        if high > 0 {
            return end + first_high(high);
        }
        end += 8;
    }
    end
}
