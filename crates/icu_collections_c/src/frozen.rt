//! Frozen sets in the caller's 64-bit words, and look-ups in them.
ghost use Rattle.std.specs.Prelude.{◌≡◌, ℕ, ◌++◌, List, length};
ghost use Rattle.icu_invlist.specs.InversionList.{holds};
ghost use Rattle.icu_collections_c.specs.Building.{written_whole};
ghost use Rattle.icu_frozen_sets.specs.FrozenWords.{IsFrozenOf, is_held};
ghost use Rattle.icu_collections_c.specs.Frozen.{AnswersFrozen};

use crate::error::Error;
use crate::sets::bks_set_test;
use icu_frozen_sets::view::FrozenView;
use icu_frozen_sets::words::frozen_words;
use std::alloc::Global;

/// Writes words to the start of a buffer if all of them fit, and returns how many they are.
fn write_words(words: &[u64], buffer: &mut [u64]) -> usize
    ensures count { result ≡ length words.now }
    ensures buffer { buffer.new ≡ written_whole words.now buffer.old }
{
    if words.len() <= buffer.len() {
        buffer[..words.len()].copy_from_slice(words);
    }
    words.len()
}

/// Freezes the set with these boundaries and returns how many words the frozen set takes. The words
/// are in the buffer if all of them fit; otherwise the buffer is unchanged.
///
/// ICU: `uset_freeze`.
///
/// # Errors
/// Returns the number of [`Error::InvalidSet`] if the boundaries are not those of a set, and of
/// [`Error::NoMemory`] if an allocation fails. The buffer is then unchanged.
#[unsafe(no_mangle)]
pub extern "C" fn bks_set_freeze(alloc: Global, ends: &[u32], table: &mut [u64]) -> i64
    ensures { AnswersFrozen ends.now table.old table.new result }
{
    if !bks_set_test(ends) {
        return Error::InvalidSet.number();
    }
    match frozen_words(alloc, ends) {
        Ok(words) => write_words(&words, table) as i64,
        Err(_) => Error::NoMemory.number(),
    }
}

/// Returns whether the frozen set at the start of the words contains the code point `c`. No set
/// contains a number above 0x10FFFF.
///
/// Any words are accepted. Words that are missing count as 0.
#[unsafe(no_mangle)]
pub extern "C" fn bks_frozen_contains(table: &[u64], c: u32) -> bool
    ensures exact { result ≡ is_held table.now c }
    ensures set { (ends words rest : List ℕ) → IsFrozenOf ends words → table.now ≡ words ++ rest
        → result ≡ holds ends c }
{
    FrozenView::new(table).contains32(c)
}
