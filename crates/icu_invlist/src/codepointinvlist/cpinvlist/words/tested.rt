//! The words by reads with four tests of an index in place of six.
ghost use Rattle.std.specs.Prelude.{◌≡◌, ◌+◌, ◌*◌, ◌<◌, ◌≤◌, [], ◌∷◌, length, take, drop, Option, Some, None, nat_lt, if◌then◌else◌};
ghost use Rattle.std.specs.Int.{w32, from_le_bytes};
ghost use Rattle.icu_invlist.specs.Inside.PackedSets.{word_before};

/// Returns the word that starts at index `at`, of the first `starts` indices. It takes one test: each
/// of these indices has three more bytes after it.
#[inline(always)]
fn word_from(bytes: &[u8], starts: usize, at: usize) -> Option<u32>
    requires { starts + 3 ≡ length bytes.now }
    ensures { result
        ≡ (if nat_lt at starts then Some (from_le_bytes w32 (take 4 (drop at bytes.now))) else None) }
{
    if at >= starts {
        return None;
    }
    match bytes[at..].first_chunk::<4>() {
        Some(four) => Some(u32::from_le_bytes(*four)),
        None => unreachable!(),
    }
}

/// Returns the words of the last boundary of each of three steps from boundary `low` on, of `step`
/// boundaries each. Such a word is a boundary's three bytes after the byte before them. That byte is
/// the lowest, so comparisons do not depend on it.
#[inline(always)]
pub(crate) fn last_words(bytes: &[u8], low: usize, step: usize) -> [u32; 3]
    requires first { 0 < low }
    requires some { 0 < step }
    requires within { 3 * (low + 3 * step) ≤ length bytes.now }
    ensures { result
        ≡ word_before bytes.now (low + step) ∷ word_before bytes.now (low + 2 * step)
        ∷ word_before bytes.now (low + 3 * step) ∷ [] }
{
    let starts = bytes.len() - 3;
    let first = 3 * (low + step) - 4;
    let Some(one) = word_from(bytes, starts, first) else {
        unreachable!();
    };
    let Some(two) = word_from(bytes, starts, first + 3 * step) else {
        unreachable!();
    };
    let Some(three) = word_from(bytes, starts, first + 6 * step) else {
        unreachable!();
    };
    [one, two, three]
}
