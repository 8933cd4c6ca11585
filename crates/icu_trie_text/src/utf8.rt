//! The value of each character of bytes that may be ill-formed UTF-8.
ghost use Rattle.std.specs.Prelude.{◌≡◌, ◌+◌, ◌*◌, ◌<◌, ℕ, List, Some, length};
ghost use Rattle.std.specs.Char.{IsScalar};
ghost use Rattle.std.specs.Iterator.{Drains, item_count};
ghost use Rattle.std.specs.Option.{MatchOption};
ghost use Rattle.std.specs.Str.{IsUtf8, StartsWithNoChar, chars};
ghost use Rattle.icu_trie.specs.Parts.{Parts, trie_value};
ghost use Rattle.icu_utf.specs.Utf8.{IsFirstPart};
ghost use Rattle.icu_trie_text.specs.Inside.Lookup.{lookup_parts};
ghost use Rattle.icu_trie_text.specs.Utf8Values.{AreValuesOfBytes, GivesPart, IsFirstItem};
ghost use Rattle.icu_trie_text.specs.Values.{AreValuesOf};

use crate::lookup::TextLookup;
use crate::part_values::PartValues;
use icu_trie::cptrie::CodePointTrie;
use icu_trie_core::value::TrieValue;
use icu_utf::first_utf8::{ill_formed_size, of_four, place_of_three, place_of_two};
use std::marker::Model;
use std::slice::Iter;

/// An iterator over the characters of bytes that may be ill-formed UTF-8, each with its value in a
/// trie.
///
/// Created by [`values_of_utf8`].
#[derive(Debug, Drop)]
pub struct ValuesOfUtf8<'a, T: TrieValue> {
    trie: TextLookup<'a, T>,
    rest: Iter<'a, u8>,
}

impl<'a, T: TrieValue> Model for ValuesOfUtf8<'a, T> {
    ghost use Rattle.std.specs.Slice.Iter.{iter_rest};
    ghost use Rattle.icu_trie_text.specs.Inside.Lookup.{lookup_parts};
    ghost use Rattle.icu_trie_text.specs.Utf8Values.{BytesToValue};

    ghost Value = { BytesToValue T };

    ghost view = { λ a. record { trie = lookup_parts a.trie; bytes = iter_rest a.rest } };
}

/// Returns an iterator over the characters of the bytes in order, each with its value in the trie.
///
/// The values are those that [`get`](CodePointTrie::get) returns. Each maximal subpart of an
/// ill-formed sequence is U+FFFD with the trie's error value ("U+FFFD Substitution of Maximal
/// Subparts" and table 3-7 in the Unicode Standard). A U+FFFD in the bytes has its own value. ICU:
/// a loop over `UCPTRIE_FAST_U8_NEXT`, which returns the error value too.
///
/// ```
/// for (c, category) in values_of_utf8(&categories, b"a\xF1\x80\x80b") {
///     // 'a' with 2 (Ll), then U+FFFD with the error value, then 'b' with 2
/// }
/// ```
#[inline]
pub fn values_of_utf8<'a, T: TrieValue>(
    trie: &'a CodePointTrie<'_, T>,
    bytes: &'a [u8],
) -> ValuesOfUtf8<'a, T>
    ensures gives { result ≡ record { trie = trie.now; bytes = bytes.now } }
    ensures values { (items : List (ℕ × T)) → Drains GivesPart result items
        → AreValuesOfBytes trie.now bytes.now items }
    ensures text { IsUtf8 bytes.now → (items : List (ℕ × T)) → Drains GivesPart result items
        → AreValuesOf trie.now (chars bytes.now) items }
{
    ValuesOfUtf8 {
        trie: TextLookup::new(trie),
        rest: bytes.iter(),
    }
}

/// Returns the item of the character with this number and this value, and its size in bytes.
#[inline(always)]
fn item_of<T>(number: u32, value: T, size: usize) -> ((char, T), usize)
    requires { IsScalar number }
    ensures { (trie : Parts T) (bytes : List ℕ) → IsFirstPart bytes (Some number) size
        → Some value ≡ trie_value trie number → IsFirstItem trie bytes result.0 result.1 }
{
    // Without a jump, so that the compiler removes the character if the caller drops it.
    let c = char::from_u32(number).unwrap_or(char::REPLACEMENT_CHARACTER);
    ((c, value), size)
}

/// Returns the item of the character at the start of the bytes, which are not empty, and its size.
/// `None` if they do not start with a character. Each size has its own look-up, because what is
/// known about its characters saves checks.
#[inline(always)]
fn character_item<T: TrieValue>(
    trie: &TextLookup<'_, T>,
    bytes: &[u8],
) -> Option<((char, T), usize)>
    requires { 0 < length bytes.now }
    ensures { MatchOption result (StartsWithNoChar bytes.now)
        (λ found. IsFirstItem (lookup_parts trie.now) bytes.now found.0 found.1) }
{
    let lead = bytes[0];
    if lead < 0xE0 {
        if lead < 0x80 {
            let c = u32::from(lead);
            return Some(item_of(c, trie.at(c / 64, c % 64), 1));
        }
        if lead < 0xC2 {
            return None;
        }
        let (block, place) = place_of_two(bytes)?;
        Some(item_of(block * 64 + place, trie.at_two(block, place), 2))
    } else if lead < 0xF0 {
        let (block, place) = place_of_three(bytes)?;
        Some(item_of(block * 64 + place, trie.at(block, place), 3))
    } else {
        let c = of_four(bytes)?;
        Some(((c, trie.get_four(c)), 4))
    }
}

/// Returns the item of the first part of the bytes, which are not empty, and the size of the part.
#[inline(always)]
fn first_item<T: TrieValue>(trie: &TextLookup<'_, T>, bytes: &[u8]) -> ((char, T), usize)
    requires { 0 < length bytes.now }
    ensures { IsFirstItem (lookup_parts trie.now) bytes.now result.0 result.1 }
{
    match character_item(trie, bytes) {
        Some(found) => found,
        None => (('\u{FFFD}', trie.error()), ill_formed_size(bytes)),
    }
}

impl<'a, T: TrieValue> Iterator for ValuesOfUtf8<'a, T> {
    type Item = (char, T);

    ghost next_gives = { GivesPart };

    ghost remaining = { item_count (λ left. left.bytes) };

    #[inline(always)]
    fn next(&mut self) -> Option<(char, T)> {
        let bytes = self.rest.as_slice();
        let lead = *bytes.first()?;
        if let Some(value) = self.trie.in_place(u32::from(lead)) {
            self.rest.next();
            return Some((char::from(lead), value));
        }
        let (item, size) = first_item(&self.trie, bytes);
        self.rest = bytes.get(size..).unwrap_or_default().iter();
        Some(item)
    }
}
