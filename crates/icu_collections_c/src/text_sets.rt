//! Sets of code points and strings (ICU's `UnicodeSet` with strings): the words of a frozen set, and a
//! unit trie whose keys are the strings.
//!
//! A text of exactly one character is a member if the frozen set contains its code point. Any other
//! text is a member if it is a key of the unit trie. The values of the keys are not used, and keys of
//! exactly one character do not count. Any words and any units are accepted, as by
//! [`bks_frozen_contains`](crate::frozen::bks_frozen_contains) and
//! [`bks_units_get_utf8`](crate::unit_texts::bks_units_get_utf8).
ghost use Rattle.std.specs.Prelude.{◌≡◌, None, Some};
ghost use Rattle.std.specs.Option.{MatchOption};
ghost use Rattle.std.specs.Str.{IsUtf8};
ghost use Rattle.icu_char16trie.specs.Matches.{HasValueAlong};
ghost use Rattle.icu_frozen_sets.specs.FrozenWords.{is_held};
ghost use Rattle.icu_text_sets.specs.TextSet.{TextSet, only_char};
ghost use Rattle.icu_collections_c.specs.TextSets.{AnswersMember, IsLongestMember, IsMember, IsStored, IsTextOf};
ghost use Rattle.icu_collections_c.specs.UnitTries.{units_of};

use crate::error::Error;
use crate::frozen::bks_frozen_contains;
use crate::text_steps::starts_ill_formed;
use crate::unit_texts::bks_units_get_utf8;
use crate::unit_tries::longest_in;
use icu_utf::characters::first_character;

/// Returns the character of a text that has exactly one.
#[inline(always)]
fn only_character(text: &[u8]) -> Option<char>
    ensures { MatchOption result (IsUtf8 text.now → only_char text.now ≡ None)
        (λ c. IsUtf8 text.now × (only_char text.now ≡ Some c)) }
{
    match first_character(text) {
        Some((c, size)) if size == text.len() => Some(c),
        _ => None,
    }
}

/// Returns whether the set contains the text: as a code point if it has exactly one character, and
/// otherwise as a string. Returns false if the text is not UTF-8.
///
/// ICU: `uset_contains`, `uset_containsString`.
#[unsafe(no_mangle)]
pub extern "C" fn bks_text_set_contains(table: &[u64], units: &[u8], text: &[u8]) -> bool
    ensures set { (set : TextSet) → IsStored table.now (units_of units.now) set
        → IsTextOf set text.now result }

    // For any words and units: what their layouts say.
    ensures exact { IsMember (is_held table.now) (HasValueAlong (units_of units.now)) text.now
        result }
{
    match only_character(text) {
        Some(c) => bks_frozen_contains(table, u32::from(c)),
        None => bks_units_get_utf8(units, text, &mut 0),
    }
}

/// Returns the size of a match, or 0 if there is none.
#[inline(always)]
fn size_of(found: Option<(usize, i32)>) -> usize
    ensures { MatchOption found (result ≡ 0) (λ found. result ≡ found.0) }
{
    match found {
        Some((size, _)) => size,
        None => 0,
    }
}

/// Returns the size in bytes of the longest member that is a prefix of the bytes and is not empty, or
/// 0 if there is none.
#[inline(always)]
pub(crate) fn longest_member(table: &[u64], units: &[u8], bytes: &[u8]) -> usize
    ensures set { (set : TextSet) → IsStored table.now (units_of units.now) set
        → IsLongestMember (IsTextOf set) bytes.now result }
    ensures exact { IsLongestMember (IsMember (is_held table.now) (HasValueAlong (units_of units.now)))
        bytes.now result }
{
    let Some((c, size)) = first_character(bytes) else {
        return 0;
    };
    let longest = size_of(longest_in(units, bytes));
    if longest > size {
        return longest;
    }
    if bks_frozen_contains(table, u32::from(c)) {
        return size;
    }
    0
}

/// Finds the longest member of the set that is a prefix of a UTF-8 text, and returns how many bytes it
/// takes. Returns 0 if no member is a prefix of the text; the empty string does not count.
///
/// Reads the first character, and no more of the text than some string continues with. An ill-formed
/// sequence ends the text.
///
/// # Errors
/// Returns the number of [`Error::InvalidUtf8`] if the text is not empty and does not start with a
/// character.
#[unsafe(no_mangle)]
pub extern "C" fn bks_text_set_longest(table: &[u64], units: &[u8], text: &[u8]) -> i64
    ensures set { (set : TextSet) → IsStored table.now (units_of units.now) set
        → AnswersMember (IsTextOf set) text.now result }
    ensures exact { AnswersMember (IsMember (is_held table.now) (HasValueAlong (units_of units.now)))
        text.now result }
{
    if starts_ill_formed(text) {
        return Error::InvalidUtf8.number();
    }
    longest_member(table, units, text) as i64
}
