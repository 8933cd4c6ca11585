//! The value of each character of a text, with the character's byte offset.
ghost use Rattle.std.specs.Prelude.{◌≡◌, ◌^◌, ◌<◌, ℕ, List, length};
ghost use Rattle.std.specs.Iterator.{Drains, item_count};
ghost use Rattle.std.specs.Iterator.Runs.{EveryRun, ItemsMapTo};
ghost use Rattle.std.specs.Str.{chars};
ghost use Rattle.icu_trie_text.specs.Indices.{AreIndicesOf, GivesIndex, index_item, with_indices};

use crate::first::first_value;
use crate::lookup::TextLookup;
use icu_trie::cptrie::CodePointTrie;
use icu_trie_core::value::TrieValue;
use std::marker::Model;
use std::str::Chars;

/// An iterator over the characters of a text, each with its byte offset and its value in a trie.
///
/// Created by [`value_indices_of`].
#[derive(Debug, Drop)]
pub struct ValueIndicesOf<'a, T: TrieValue> {
    trie: TextLookup<'a, T>,
    rest: Chars<'a>,
    /// The length of the whole text in bytes.
    end: usize,
}

impl<'a, T: TrieValue> Model for ValueIndicesOf<'a, T> {
    ghost use Rattle.std.specs.Prelude.{ℕ, ◌-◌, ◌≤◌, List, Option, length};
    ghost use Rattle.std.specs.Str.{IsUtf8, chars};
    ghost use Rattle.std.specs.Str.Iter.{chars_rest};
    ghost use Rattle.icu_trie_text.specs.Indices.{with_indices};
    ghost use Rattle.icu_trie_text.specs.Inside.Lookup.{lookup_parts};

    ghost Value = { List (ℕ × ℕ × Option T) };

    ghost view = { λ a. with_indices (lookup_parts a.trie) (a.end - length (chars_rest a.rest))
        (chars (chars_rest a.rest)) };

    ghost invariant = { λ a. IsUtf8 (chars_rest a.rest) × (length (chars_rest a.rest) ≤ a.end) };
}

/// Returns an iterator over the characters of the text, each with its byte offset and its value in
/// the trie.
///
/// The characters and values are those of [`values_of`](crate::values::values_of), and the offsets
/// are those of [`char_indices`](str::char_indices).
///
/// ```
/// for (offset, c, category) in value_indices_of(&categories, "éB") {
///     // 0 and 'é' with 2 (Ll), then 2 and 'B' with 1 (Lu)
/// }
/// ```
#[inline]
pub fn value_indices_of<'a, T: TrieValue>(
    trie: &'a CodePointTrie<'_, T>,
    text: &'a str,
) -> ValueIndicesOf<'a, T>
    ensures gives { result ≡ with_indices trie.now 0 (chars text.now) }
    ensures fits { length result < 2 ^ 64 }
    ensures values { (items : List (ℕ × ℕ × T)) → Drains GivesIndex result items
        → AreIndicesOf trie.now (chars text.now) items }
    ensures runs { EveryRun (GivesIndex {T = T}) (λ p. ItemsMapTo p index_item p.from) }
{
    ValueIndicesOf {
        trie: TextLookup::new(trie),
        rest: text.chars(),
        end: text.len(),
    }
}

impl<'a, T: TrieValue> Iterator for ValueIndicesOf<'a, T> {
    type Item = (usize, char, T);

    ghost next_gives = { GivesIndex };

    ghost remaining = { item_count (λ left. left) };

    #[inline(always)]
    fn next(&mut self) -> Option<(usize, char, T)> {
        let offset = self.end - self.rest.as_str().len();
        let (c, value) = first_value(&self.trie, &mut self.rest)?;
        Some((offset, c, value))
    }
}
