//! Unit tries whose keys are texts in UTF-8: look-ups and building.
ghost use Rattle.std.specs.Prelude.{◌≡◌, ◌↔◌, ℕ, ◌+◌, ◌*◌, ◌≤◌, IsTrue, All, length, pos, sum};
ghost use Rattle.std.specs.Str.{IsUtf8};
ghost use Rattle.icu_char16trie.specs.Grammar.{IsTrieOf};
ghost use Rattle.icu_char16trie.specs.Matches.{text_units};
ghost use Rattle.icu_char16trie.specs.UnitMap.{UnitMap, value_of};
ghost use Rattle.icu_collections_c.specs.UnitTexts.{AnswersTextUnits, GivesIfText, keys_of};
ghost use Rattle.icu_collections_c.specs.UnitTries.{GivesValue, GivesValueAlong, units_of};

use crate::error::Error;
use crate::unit_building::{bks_units_build, has_units};
use crate::unit_keys::transcoded;
use crate::units::{give, trie_in};
use std::alloc::Global;

/// Looks up a key in UTF-8, by its UTF-16 units. Returns true and stores its value in `value`.
/// Returns false if the key is not UTF-8 or the trie does not have it; `value` is then unchanged.
///
/// ICU: `UCharsTrie::reset`, `nextForCodePoint` for each character, and `getValue`.
#[unsafe(no_mangle)]
pub extern "C" fn bks_units_get_utf8(units: &[u8], key: &[u8], value: &mut i32) -> bool
    ensures keys { (m : UnitMap) → IsTrieOf (units_of units.now) m
        → GivesIfText (IsUtf8 key.now)
        (GivesValue (value_of m (text_units key.now)) value.old result value.new) value.old result
        value.new }

    // For any units: the value at the position to which the steps of the key lead.
    ensures exact { GivesIfText (IsUtf8 key.now)
        (GivesValueAlong (units_of units.now) (text_units key.now) value.old result value.new)
        value.old result value.new }
{
    let Ok(text) = str::from_utf8(key) else {
        return false;
    };
    give(trie_in(units).get_str(text), value)
}

/// Returns whether each key is UTF-8. Each one is the next `length` of the bytes.
fn are_texts(keys: &[u8], lengths: &[usize]) -> bool
    requires { sum lengths.now ≤ length keys.now }
    ensures { IsTrue result ↔ All IsUtf8 (keys_of keys.now lengths.now) }
{
    let mut rest = keys;
    for length in lengths {
        let (key, after) = rest.split_at(*length);
        let Ok(_text) = str::from_utf8(key) else {
            return false;
        };
        rest = after;
    }
    true
}

/// Builds a unit trie from entries whose keys are texts in UTF-8, in any order, and returns how
/// many bytes its units take, two for each unit. The bytes are in the buffer if all of them fit;
/// otherwise the buffer is unchanged.
///
/// The key of entry `i` is the UTF-16 units of the next `lengths[i]` bytes of `keys`, which may be
/// none, and its value is `values[i]`. If the keys of E entries have B bytes, the unit trie takes
/// at most 4 B + 32 E bytes, and none if there is no entry.
///
/// ICU: `UCharsTrieBuilder::add` and `buildUnicodeString`, with `UnicodeString::fromUTF8`.
///
/// # Errors
/// Returns the number of the first of these that applies, and leaves the buffer unchanged:
///
/// - [`Error::InvalidEntries`] if `values` and `lengths` have different lengths, or the keys need more
///   bytes than `keys` has
/// - [`Error::InvalidUtf8`] if a key is not UTF-8 on its own
/// - [`Error::LongKey`] if a key has more than 65,535 units
/// - [`Error::SameKey`] if two entries have the same key
/// - [`Error::TooLarge`] if 2 U + 16 E is above 0x7FFFFFFF, for U units in all keys
/// - [`Error::NoMemory`] if an allocation fails, which may come before the last three
#[unsafe(no_mangle)]
pub extern "C" fn bks_units_build_utf8(
    alloc: Global,
    keys: &[u8],
    lengths: &[usize],
    values: &[i32],
    bytes: &mut [u8],
) -> i64
    ensures built { AnswersTextUnits keys.now lengths.now values.now bytes.old bytes.new result }
    ensures bound { (n : ℕ) → result ≡ pos n
        → n ≤ 4 * sum lengths.now + 32 * length lengths.now }
{
    if lengths.len() != values.len() || !has_units(keys.len(), lengths) {
        return Error::InvalidEntries.number();
    }
    if !are_texts(keys, lengths) {
        return Error::InvalidUtf8.number();
    }
    match transcoded(alloc, keys, lengths) {
        Ok(given) => bks_units_build(alloc, &given.units, &given.lengths, values, bytes),
        Err(_) => Error::NoMemory.number(),
    }
}
