//! The value of each character of a text.
ghost use Rattle.std.specs.Prelude.{◌≡◌, ◌^◌, ◌<◌, ℕ, List, length};
ghost use Rattle.std.specs.Iterator.{Drains, item_count};
ghost use Rattle.std.specs.Iterator.Runs.{EveryRun, ItemsMapTo};
ghost use Rattle.std.specs.Str.{chars};
ghost use Rattle.icu_trie_text.specs.Values.{AreValuesOf, GivesValue, value_item, with_values};

use crate::first::first_value;
use crate::lookup::TextLookup;
use icu_trie::cptrie::CodePointTrie;
use icu_trie_core::value::TrieValue;
use std::marker::Model;
use std::str::Chars;

/// An iterator over the characters of a text, each with its value in a trie.
///
/// Created by [`values_of`].
#[derive(Debug, Drop)]
pub struct ValuesOf<'a, T: TrieValue> {
    trie: TextLookup<'a, T>,
    rest: Chars<'a>,
}

impl<'a, T: TrieValue> Model for ValuesOf<'a, T> {
    ghost use Rattle.std.specs.Prelude.{ℕ, List, Option};
    ghost use Rattle.std.specs.Str.{IsUtf8, chars};
    ghost use Rattle.std.specs.Str.Iter.{chars_rest};
    ghost use Rattle.icu_trie_text.specs.Inside.Lookup.{lookup_parts};
    ghost use Rattle.icu_trie_text.specs.Values.{with_values};

    ghost Value = { List (ℕ × Option T) };

    ghost view = { λ a. with_values (lookup_parts a.trie) (chars (chars_rest a.rest)) };

    ghost invariant = { λ a. IsUtf8 (chars_rest a.rest) };
}

/// Returns an iterator over the characters of the text in order, each with its value in the trie.
///
/// The values are those that [`get`](CodePointTrie::get) returns. ICU: a loop over
/// `UCPTRIE_FAST_U8_NEXT` on well-formed text.
///
/// ```
/// for (c, category) in values_of(&categories, "aB1") {
///     // 'a' with 2 (Ll), then 'B' with 1 (Lu), then '1' with 9 (Nd)
/// }
/// ```
#[inline]
pub fn values_of<'a, T: TrieValue>(trie: &'a CodePointTrie<'_, T>, text: &'a str) -> ValuesOf<'a, T>
    ensures gives { result ≡ with_values trie.now (chars text.now) }
    ensures fits { length result < 2 ^ 64 }
    ensures values { (items : List (ℕ × T)) → Drains GivesValue result items
        → AreValuesOf trie.now (chars text.now) items }
    ensures runs { EveryRun (GivesValue {T = T}) (λ p. ItemsMapTo p value_item p.from) }
{
    ValuesOf {
        trie: TextLookup::new(trie),
        rest: text.chars(),
    }
}

impl<'a, T: TrieValue> Iterator for ValuesOf<'a, T> {
    type Item = (char, T);

    ghost next_gives = { GivesValue };

    ghost remaining = { item_count (λ left. left) };

    #[inline(always)]
    fn next(&mut self) -> Option<(char, T)> {
        first_value(&self.trie, &mut self.rest)
    }
}
