//! Finds the keys that a text starts with, as a dictionary finds words.
ghost use Rattle.icu_zerovec.specs.Slice.{slice_values};
ghost use Rattle.std.specs.Prelude.{◌≡◌, ◌↔◌, ℕ, ℤ, ◌^◌, ◌<◌, List, IsTrue};
ghost use Rattle.std.specs.Iterator.{Drains};
ghost use Rattle.icu_char16trie.specs.Constants.{min_value_lead};
ghost use Rattle.icu_char16trie.specs.Grammar.{IsTrieOf};
ghost use Rattle.icu_char16trie.specs.UnitMap.{UnitMap};
ghost use Rattle.icu_char16trie.specs.Matches.{IsLongestMatch, IsLongestStepped, matches_of};
ghost use Rattle.icu_char16trie.specs.MatchesLeft.{AreLeft, GivesMatch};
ghost use Rattle.icu_char16trie.specs.Inside.Fronts.{BeginsRun, PassesMatch, longer};

use crate::branch::child_in_branch;
use crate::encoded::{node_end, run_len, unit_at};
use crate::impl_const::{MIN_LINEAR_MATCH, MIN_VALUE_LEAD, VALUE_IS_FINAL};
use crate::matches::Matches;
use crate::step::value_by;
use crate::trie::Char16Trie;
use icu_zerovec::ZeroSlice;

/// Returns the match of the first `n` units if they have a value, and otherwise the earlier match.
#[inline(always)]
pub(crate) fn longer_match(
    n: usize,
    value: Option<i32>,
    found: Option<(usize, i32)>,
) -> Option<(usize, i32)>
    ensures { result ≡ longer n value found }
{
    match value {
        Some(v) => Some((n, v)),
        None => found,
    }
}

/// Returns true if `text` starts with the `count` units at `place`.
#[inline(always)]
fn begins_run(units: ZeroSlice<'_, u16>, place: usize, count: usize, text: &[u16]) -> bool
    requires { place < 2 ^ 63 }
    ensures { IsTrue result ↔ BeginsRun (slice_values units.entry) place count text.now }
{
    if text.len() < count {
        return false;
    }
    for i in 0..count {
        if unit_at(units, place + i) != Some(text[i]) {
            return false;
        }
    }
    true
}

/// Advances through `text` at a match node to the next node. Returns the index of that node and the
/// number of units consumed. `low` is the low six bits of the match node's lead unit, and `place`
/// is the index after the lead and its value.
#[inline(always)]
pub(crate) fn pass_match(
    units: ZeroSlice<'_, u16>,
    place: usize,
    low: u16,
    text: &[u16],
) -> Option<(usize, usize)>
    requires near { place < 2 ^ 63 }
    requires low { low < min_value_lead }
    ensures { PassesMatch (slice_values units.entry) text.now place low result }
{
    if low >= MIN_LINEAR_MATCH {
        let count = run_len(low);
        if !begins_run(units, place, count, text) {
            return None;
        }
        return Some((place + count, count));
    }
    if text.is_empty() {
        return None;
    }
    let child = child_in_branch(units, place, low, text[0])?;
    Some((child, 1))
}

impl<'data> Char16Trie<'data> {
    /// Returns the longest key that `text` starts with: its length in units and its value.
    ///
    /// Returns `None` if `text` starts with no key. The empty key matches at the start of every
    /// text. Reads no more units of `text` than some key continues with. In ICU this is a loop over
    /// `UCharsTrie::next` that ends when `USTRINGTRIE_HAS_NEXT` is false.
    ///
    /// ```
    /// // of the map of "a" to 1 and "ab" to 2
    /// // trie.longest_match(&[0x61, 0x62, 0x63]) is Some((2, 2)): "ab"
    /// // trie.longest_match(&[0x61, 0x63]) is Some((1, 1)): "a"
    /// // trie.longest_match(&[0x62]) is None
    /// ```
    pub fn longest_match(&self, text: &[u16]) -> Option<(usize, i32)>
        ensures longest { (m : UnitMap) → IsTrieOf self.now m → IsLongestMatch m text.now result }

        // On all units: the result of stepping through the units of the text.
        ensures exact { IsLongestStepped self.now text.now result }
    {
        let units = self.data.as_slice();
        let mut node = 0;
        let mut passed = 0;
        let mut found = None;
        while let Some(lead) = unit_at(units, node) {
            found = longer_match(passed, value_by(units, node + 1, lead), found);
            if lead >= VALUE_IS_FINAL {
                return found;
            }
            let place = node_end(node + 1, lead);
            let Some((next, count)) = pass_match(
                units,
                place,
                lead % MIN_VALUE_LEAD,
                &text[passed..],
            ) else {
                return found;
            };
            node = next;
            passed += count;
        }
        found
    }

    /// Returns all keys that `text` starts with, the shortest first: the length of each in units
    /// and its value.
    ///
    /// Allocates nothing, and reads no more units of `text` than some key continues with.
    ///
    /// ```
    /// // of the map of "a" to 1 and "ab" to 2
    /// for (length, value) in trie.matches(&[0x61, 0x62, 0x63]) {
    ///     // 1 and 1, then 2 and 2
    /// }
    /// ```
    #[inline]
    pub fn matches<'a>(&'a self, text: &'a [u16]) -> Matches<'a>
        ensures left { (m : UnitMap) → IsTrieOf self.now m
            → AreLeft result m (matches_of m text.now) }

        // If it is run to its end, the items are exactly the prefixes of the text that have a
        // value.
        ensures drained { (m : UnitMap) (xs : List (ℕ × ℤ)) → IsTrieOf self.now m
            → Drains GivesMatch result xs → xs ≡ matches_of m text.now }
    {
        Matches::new(self.cursor(), text)
    }
}
