//! The value of each code point of 16-bit units.
ghost use Rattle.std.specs.Prelude.{◌≡◌, ◌^◌, ◌<◌, ℕ, List, length};
ghost use Rattle.std.specs.Iterator.{Drains, item_count};
ghost use Rattle.std.specs.Iterator.Runs.{EveryRun, ItemsMapTo};
ghost use Rattle.icu_utf.specs.Utf16.{code_points_of};
ghost use Rattle.icu_trie_text.specs.Values.{AreValuesOf, GivesValue, value_item, with_values};

use icu_trie::cptrie::CodePointTrie;
use icu_trie_core::value::TrieValue;
use icu_utf::first_utf16::first_code_point;
use std::marker::Model;

/// An iterator over the code points of 16-bit units, each with its value in a trie.
///
/// Created by [`values_of_utf16`].
#[derive(Debug, Drop)]
pub struct ValuesOfUtf16<'a, T: TrieValue> {
    trie: &'a CodePointTrie<'a, T>,
    rest: &'a [u16],
}

impl<'a, T: TrieValue> Model for ValuesOfUtf16<'a, T> {
    ghost use Rattle.std.specs.Prelude.{ℕ, List, Option};
    ghost use Rattle.icu_utf.specs.Utf16.{code_points_of};
    ghost use Rattle.icu_trie_text.specs.Values.{with_values};

    ghost Value = { List (ℕ × Option T) };

    ghost view = { λ a. with_values a.trie.now (code_points_of a.rest.now) };
}

/// Returns an iterator over the code points of the units in order, each with its value in the trie.
///
/// The values are those that [`get32`](CodePointTrie::get32) returns. The units may be ill-formed:
/// a surrogate that is not part of a pair is a code point of its own, with the value that the trie
/// has for it. ICU: a loop over `U16_NEXT` and `ucptrie_get`. `UCPTRIE_FAST_U16_NEXT` gives such a
/// surrogate the error value.
///
/// ```
/// for (c, category) in values_of_utf16(&categories, &[0xD835, 0xDC00, 0x31, 0xD835]) {
///     // 0x1D400 with 1 (Lu), then 0x31 with 9 (Nd), then 0xD835 with 18 (Cs)
/// }
/// ```
#[inline]
pub fn values_of_utf16<'a, T: TrieValue>(
    trie: &'a CodePointTrie<'_, T>,
    units: &'a [u16],
) -> ValuesOfUtf16<'a, T>
    ensures gives { result ≡ with_values trie.now (code_points_of units.now) }
    ensures fits { length result < 2 ^ 64 }
    ensures values { (items : List (ℕ × T)) → Drains GivesValue result items
        → AreValuesOf trie.now (code_points_of units.now) items }
    ensures runs { EveryRun (GivesValue {T = T}) (λ p. ItemsMapTo p value_item p.from) }
{
    ValuesOfUtf16 { trie, rest: units }
}

impl<'a, T: TrieValue> Iterator for ValuesOfUtf16<'a, T> {
    type Item = (u32, T);

    ghost next_gives = { GivesValue };

    ghost remaining = { item_count (λ left. left) };

    #[inline(always)]
    fn next(&mut self) -> Option<(u32, T)> {
        let (first, rest) = first_code_point(self.rest)?;
        self.rest = rest;
        Some((first, self.trie.get32(first)))
    }
}
