//! The value of a key.
ghost use Rattle.std.specs.Prelude.{◌≡◌};
ghost use Rattle.icu_char16trie.specs.Grammar.{IsTrieOf};
ghost use Rattle.icu_char16trie.specs.Matches.{HasValueAlong};
ghost use Rattle.icu_char16trie.specs.UnitMap.{UnitMap, value_of};

use crate::dictionary::pass_match;
use crate::encoded::{node_end, unit_at};
use crate::impl_const::{MIN_VALUE_LEAD, VALUE_IS_FINAL};
use crate::step::value_by;
use crate::trie::Char16Trie;

impl<'data> Char16Trie<'data> {
    /// Returns the value of the key with these units, or `None` if the trie does not have it.
    ///
    /// ICU: `UCharsTrie::reset`, `next` for each unit, and `getValue`.
    ///
    /// ```
    /// // of the map of "a" to 1 and "ab" to 2
    /// // trie.get(&[0x61, 0x62]) is Some(2), and trie.get(&[0x62]) is None
    /// ```
    pub fn get(&self, key: &[u16]) -> Option<i32>
        ensures value { (m : UnitMap) → IsTrieOf self.now m → result ≡ value_of m key.now }

        // On all units: the value at the position to which the units of the key lead.
        ensures exact { HasValueAlong self.now key.now result }
    {
        let units = self.data.as_slice();
        let mut node = 0;
        let mut passed = 0;
        while passed < key.len() {
            let lead = unit_at(units, node)?;
            if lead >= VALUE_IS_FINAL {
                return None;
            }
            let place = node_end(node + 1, lead);
            let (next, count) = pass_match(units, place, lead % MIN_VALUE_LEAD, &key[passed..])?;
            node = next;
            passed += count;
        }
        let last = unit_at(units, node)?;
        value_by(units, node + 1, last)
    }
}
