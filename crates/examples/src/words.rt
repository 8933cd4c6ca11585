//! Word lists in unit tries.
ghost use Rattle.std.specs.Prelude.{◌≡◌, ◌<◌, ◌≤◌, List, [], ◌∷◌, IfSome, Ok, codes, length, map, not, pos};
ghost use Rattle.std.specs.Char.Escape.{encode_utf16};
ghost use Rattle.std.specs.List.{flat_map};
ghost use Rattle.std.specs.Str.{chars};
ghost use Rattle.icu_collections.specs.Char16Trie.{AreEntries, IsLongestMatch, IsTrieOf, UnitMap, after_all, goes_on, result_of, value_of};
ghost use Rattle.examples.specs.Listing.{bytes_and_number};
ghost use Rattle.examples.specs.Pieces.{AreWords, IsFirstWord};

use icu_collections::char16trie::{Char16Trie, Char16TrieBuilder, TrieResult};
use std::alloc::Global;
use std::fmt::Write;

/// Returns the number of a word, if the trie has the word.
pub fn number_of_word(trie: &Char16Trie<'_>, word: &str) -> Option<i32>
    ensures { (m : UnitMap) → IsTrieOf trie.now m
        → result ≡ value_of m (flat_map encode_utf16 (chars word.now)) }
{
    let mut cursor = trie.cursor();
    let _ = cursor.write_str(word);
    cursor.value()
}

/// Returns what the trie has for a word of one character: its number, whether longer words start
/// with it, or neither.
pub fn first_result(trie: &Char16Trie<'_>, c: char) -> TrieResult
    ensures { (m : UnitMap) → IsTrieOf trie.now m
        → result ≡ result_of (value_of m (encode_utf16 c)) (not (goes_on m (encode_utf16 c))) }
{
    let mut iterator = trie.iter();
    iterator.next(c)
}

/// Returns the entries of a trie, in unit order: each key as text, with its value. `None` if an
/// allocation fails.
pub fn list_of(alloc: Global, trie: &Char16Trie<'_>) -> Option<Vec<(String, i32)>>
    ensures { IfSome result
        (λ list. (m : UnitMap) → IsTrieOf trie.now m → AreEntries (map Ok list.items) m) }
{
    let mut list = Vec::new(alloc);
    for item in trie.iter2(alloc) {
        list.push(item.ok()?).ok()?;
    }
    Some(list)
}

/// Returns the words of a trie that start with a prefix, each without it, in unit order, with their
/// numbers. `None` if an allocation fails.
pub fn completions(alloc: Global, trie: &Char16Trie<'_>, prefix: &str) -> Option<Vec<(String, i32)>>
    ensures { IfSome result (λ list. (m : UnitMap) → IsTrieOf trie.now m
        → AreEntries (map Ok list.items)
        (after_all (flat_map encode_utf16 (chars prefix.now)) m)) }
{
    let mut cursor = trie.cursor();
    let _ = cursor.write_str(prefix);
    let mut entries = cursor.entries(alloc);
    let mut list = Vec::new(alloc);
    while entries.advance().ok()? {
        let text = String::from_str(alloc, entries.key()).ok()?;
        list.push((text, entries.value())).ok()?;
    }
    Some(list)
}

/// Returns how many words of a trie start with a prefix. `None` if an allocation fails, or if there
/// are more than a `usize` holds.
pub fn count_below(alloc: Global, trie: &Char16Trie<'_>, prefix: &str) -> Option<usize>
    ensures { IfSome result (λ count. (m : UnitMap) → IsTrieOf trie.now m
        → count ≡ length (after_all (flat_map encode_utf16 (chars prefix.now)) m)) }
{
    let mut cursor = trie.cursor();
    let _ = cursor.write_str(prefix);
    let mut words = cursor.entries(alloc);
    let mut count = 0usize;
    while words.advance().ok()? {
        count = count.checked_add(1)?;
    }
    Some(count)
}

/// Returns the entries of a trie of two words, in unit order rather than the order in which they
/// were added. `None` if an allocation fails.
pub fn two_words(alloc: Global) -> Option<Vec<(String, i32)>>
    ensures { IfSome result
        (λ list. map bytes_and_number list.items ≡ (codes "a", pos 1) ∷ (codes "ab", pos 2) ∷ []) }
{
    let mut builder = Char16TrieBuilder::new(alloc);
    builder.add(&[0x61, 0x62], 2).ok()?;
    builder.add(&[0x61], 1).ok()?;
    let trie = builder.build().ok()?;
    list_of(alloc, &trie)
}

/// Returns the longest word of a trie that a text starts with: its length in units, and its number.
pub fn longest_word(trie: &Char16Trie<'_>, text: &[u16]) -> Option<(usize, i32)>
    ensures { (m : UnitMap) → IsTrieOf trie.now m → IsLongestMatch m text.now result }
{
    trie.longest_match(text)
}

/// Returns the length in units of the first word of a text: that of the longest key of the
/// dictionary that the text starts with. It is 1 if there is no such key or only the empty one.
fn first_word(dictionary: &Char16Trie<'_>, text: &[u16]) -> usize
    requires { 0 < length text.now }
    ensures word { (m : UnitMap) → IsTrieOf dictionary.now m → IsFirstWord m text.now result }
    ensures some { 0 < result }
    ensures within { result ≤ length text.now }
{
    match dictionary.longest_match(text) {
        Some((units, _)) if units > 0 => units,
        _ => 1,
    }
}

/// Cuts a text into words. Returns the length of each in units, in their order, or `None` if an
/// allocation fails.
///
/// At each position the word is the longest key of the dictionary there. It is one unit if there is
/// no such key or only the empty one.
///
/// ```
/// // of "abxa" by the words "a" and "ab" it is 2, 1, 1
/// ```
pub fn cut_into_words(
    alloc: Global,
    dictionary: &Char16Trie<'_>,
    text: &[u16],
) -> Option<Vec<usize>>
    ensures { IfSome result (λ lengths. (m : UnitMap) → IsTrieOf dictionary.now m
        → AreWords m text.now lengths.items) }
{
    let mut lengths = Vec::new(alloc);
    let mut rest = text;
    while !rest.is_empty() {
        let length = first_word(dictionary, rest);
        lengths.push(length).ok()?;
        rest = &rest[length..];
    }
    Some(lengths)
}
