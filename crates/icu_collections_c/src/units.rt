//! Unit tries in bytes, and the results of their look-ups.
ghost use Rattle.std.specs.Prelude.{◌≡◌, ℕ, ◌<◌, ◌^◌, List, IfSome, not};
ghost use Rattle.icu_char16trie.specs.Matches.{match_at};
ghost use Rattle.icu_char16trie.specs.Passed.{answer_at, result_of};
ghost use Rattle.icu_char16trie.specs.UnitMap.{UnitMap, goes_on, value_of};
ghost use Rattle.icu_char16trie.specs.UnitPlaces.{HasPassed};
ghost use Rattle.icu_collections_c.specs.Inside.TextSteps.{last_of};
ghost use Rattle.icu_collections_c.specs.UnitTries.{GivesMatch, GivesValue, step_number, units_of};

use crate::error::Error;
use icu_char16trie::char16trie::{Char16Trie, Char16TrieCursor};
use icu_zerovec::ZeroVec;

/// Returns the trie of the units in the bytes. An odd last byte is left out.
#[inline(always)]
pub(crate) fn trie_in(bytes: &[u8]) -> Char16Trie<'_>
    ensures { result ≡ units_of bytes.now }
{
    match ZeroVec::parse_bytes(&bytes[..bytes.len() / 2 * 2]) {
        Ok(units) => Char16Trie::new(units),
        Err(_) => unreachable!(),
    }
}

/// Stores the value if there is one, and returns whether there is.
#[inline(always)]
pub(crate) fn give(found: Option<i32>, value: &mut i32) -> bool
    ensures { GivesValue found value.old result value.new }
{
    match found {
        Some(found) => {
            *value = found;
            true
        }
        None => false,
    }
}

/// Returns the match of the first `length` bytes if they have a value, and otherwise the earlier
/// match.
#[inline(always)]
pub(crate) fn later_match(
    length: usize,
    value: Option<i32>,
    found: Option<(usize, i32)>,
) -> Option<(usize, i32)>
    ensures { result ≡ last_of found (match_at length value) }
{
    match value {
        Some(value) => Some((length, value)),
        None => found,
    }
}

/// Stores the value of a match if there is one, and returns its length. Returns the number of
/// [`Error::NoKey`] if there is no match.
#[inline(always)]
pub(crate) fn give_match(found: Option<(usize, i32)>, value: &mut i32) -> i64
    requires { IfSome found (λ found. found.0 < 2 ^ 63) }
    ensures { GivesMatch found value.old result value.new }
{
    match found {
        Some((length, found)) => {
            *value = found;
            length as i64
        }
        None => Error::NoKey.number(),
    }
}

/// Returns the number for the result at the cursor's position (`UStringTrieResult`).
#[inline(always)]
pub(crate) fn step_number(cursor: &Char16TrieCursor<'_>) -> u32
    ensures keys { (m : UnitMap) (w : List ℕ) → HasPassed cursor.now m w
        → result ≡ step_number (result_of (value_of m w) (not (goes_on m w))) }
    ensures exact { result ≡ step_number (answer_at cursor.now) }
{
    match (cursor.value().is_some(), cursor.is_empty()) {
        (true, true) => 2,
        (true, false) => 3,
        (false, true) => 0,
        (false, false) => 1,
    }
}
