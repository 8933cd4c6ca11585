//! All keys of a unit trie that are prefixes of a text.
ghost use Rattle.std.specs.Prelude.{◌≡◌, ℕ, ℤ, ◌+◌, ◌<◌, ◌^◌, ◌++◌, List, length, take};
ghost use Rattle.icu_char16trie.specs.Grammar.{IsTrieOf};
ghost use Rattle.icu_char16trie.specs.Matches.{HasCharsStepped, HasCharsValue, HasFrontStepped, HasFrontValue, match_at};
ghost use Rattle.icu_char16trie.specs.UnitMap.{UnitMap};
ghost use Rattle.icu_collections_c.specs.UnitPrefixes.{AnswersPrefixes, GivesPrefixes, GivesTextPrefixes, HasFound};
ghost use Rattle.icu_collections_c.specs.UnitTries.{units_of};
ghost use Rattle.icu_collections_c.specs.declared.unit_prefixes.Prefix.{Prefix};
ghost use Rattle.icu_frozen_sets.specs.TextFronts.{IsTextUpTo};

use crate::buffers;
use crate::error::Error;
use crate::text_steps::{pass_character, starts_ill_formed};
use crate::units::trie_in;

/// The most prefixes that can be returned: `i64::MAX`.
const MOST: usize = 0x7FFF_FFFF_FFFF_FFFF;

/// A key that is a prefix of a text.
#[repr(C)]
#[derive(Clone, Copy)]
pub struct Prefix {
    /// How many units of the text it takes, or bytes if the text is UTF-8.
    pub length: usize,
    pub value: i32,
}

/// Writes a prefix to index `count` if it has a value and fits. Returns how many prefixes with a
/// value there are then.
#[inline(always)]
fn put(found: &mut [Prefix], count: usize, length: usize, value: Option<i32>) -> usize
    requires { count < 2 ^ 63 }
    ensures { (xs : List (ℕ × ℤ)) (all : List Prefix) → HasFound xs all found.old count
        → HasFound (xs ++ match_at length value) all found.new result }
{
    let Some(value) = value else {
        return count;
    };
    buffers::put(found, count, Prefix { length, value });
    count + 1
}

/// Writes all keys that are prefixes of a text to the start of a buffer, as many as fit, the
/// shortest first. Returns how many there are. The empty key is a prefix of every text.
///
/// Reads no more units of the text than some key continues with.
///
/// ICU: a loop over `UCharsTrie::next` and `getValue` that ends when `USTRINGTRIE_HAS_NEXT` is
/// false.
#[unsafe(no_mangle)]
pub extern "C" fn bks_units_prefixes(units: &[u8], text: &[u16], found: &mut [Prefix]) -> usize
    ensures keys { (m : UnitMap) → IsTrieOf (units_of units.now) m
        → GivesPrefixes (HasFrontValue m text.now) (λ k. k) (length text.now) found.old found.new
        result }

    // For any units: the prefixes to which the steps give a value.
    ensures exact { GivesPrefixes (HasFrontStepped (units_of units.now) text.now) (λ k. k)
        (length text.now) found.old found.new result }
{
    let trie = trie_in(units);
    let mut cursor = trie.cursor();
    let value = cursor.value();
    let mut count = put(found, 0, 0, value);
    for i in 0..text.len() {
        if cursor.is_empty() {
            return count;
        }
        cursor.step16(text[i]);
        let value = cursor.value();
        count = put(found, count, i + 1, value);
    }
    count
}

/// Writes all keys that consist of the first characters of bytes that may be ill-formed. The length
/// of each is in bytes.
#[inline(always)]
fn prefixes_in(units: &[u8], bytes: &[u8], found: &mut [Prefix]) -> usize
    ensures keys { (m : UnitMap) → IsTrieOf (units_of units.now) m
        → (n : ℕ) × IsTextUpTo bytes.now n
        × GivesTextPrefixes (HasCharsValue m) (take n bytes.now) found.old found.new result }
    ensures exact { (n : ℕ) × IsTextUpTo bytes.now n
        × GivesTextPrefixes (HasCharsStepped (units_of units.now)) (take n bytes.now) found.old
        found.new result }
{
    let trie = trie_in(units);
    let mut cursor = trie.cursor();
    let value = cursor.value();
    let mut count = put(found, 0, 0, value);
    let mut end = 0;
    while let Some(next) = pass_character(&mut cursor, bytes, end) {
        let value = cursor.value();
        count = put(found, count, next, value);
        end = next;
    }
    count
}

/// Writes all keys that are prefixes of a UTF-8 text to the start of a buffer, as many as fit, the
/// shortest first. Returns how many there are. The length of each is in bytes of the text, and ends
/// at a character boundary: only keys are found that are the UTF-16 form of the first characters of
/// the text.
///
/// Reads the first character, and no more of the text than some key continues with. An ill-formed
/// sequence ends the text.
///
/// # Errors
/// Returns the number of [`Error::InvalidUtf8`] if the text is not empty and does not start with a
/// character. The buffer is then unchanged.
#[unsafe(no_mangle)]
pub extern "C" fn bks_units_prefixes_utf8(units: &[u8], text: &[u8], found: &mut [Prefix]) -> i64
    ensures keys { (m : UnitMap) → IsTrieOf (units_of units.now) m
        → AnswersPrefixes (HasCharsValue m) text.now found.old found.new result }
    ensures exact { AnswersPrefixes (HasCharsStepped (units_of units.now)) text.now found.old
        found.new result }
{
    if starts_ill_formed(text) {
        return Error::InvalidUtf8.number();
    }
    prefixes_in(units, text, found).min(MOST) as i64
}
