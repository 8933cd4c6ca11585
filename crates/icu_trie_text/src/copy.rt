//! The value of each character of bytes that may be ill-formed UTF-8, copied to a buffer.
ghost use Rattle.std.specs.Prelude.{◌≡◌, ◌≤◌, ℕ, ◌++◌, List, length, map, drop};
ghost use Rattle.std.specs.Str.{IsUtf8, chars};
ghost use Rattle.icu_trie_text.specs.Copied.{IsCopied};
ghost use Rattle.icu_trie_text.specs.Values.{AreValuesOf};

use crate::copy_parts::{Copied, copy_parts};
use crate::lookup::TextLookup;
use icu_trie::cptrie::CodePointTrie;
use icu_trie_core::value::TrieValue;

/// Writes the value of each character of the bytes to the start of a buffer, in order and as many
/// as fit.
///
/// The values are those of [`values_of_utf8`](crate::text::values_of_utf8): each maximal subpart of
/// an ill-formed sequence has the trie's error value. Returns how many values it wrote and how many
/// bytes these are for. The rest of the buffer is unchanged. It stops only if the buffer is full or
/// the bytes end, so call it again with the bytes that are left.
///
/// It takes less time than a loop over `values_of_utf8`. ICU: a loop over `UCPTRIE_FAST_U8_NEXT`.
///
/// ```
/// let mut buffer = [0; 4];
/// let copied = copy_values(&categories, b"a\xF1\x80\x80B1 ", &mut buffer);
/// // copied.values is 4, and copied.bytes is 6: the space did not fit.
/// // The buffer has 2 (Ll), the error value, 1 (Lu) and 9 (Nd).
/// ```
pub fn copy_values<T: TrieValue>(
    trie: &CodePointTrie<'_, T>,
    bytes: &[u8],
    values: &mut [T],
) -> Copied
    ensures values { IsCopied trie.now bytes.now values.old values.new result }
    ensures text { IsUtf8 bytes.now → length (chars bytes.now) ≤ length values.old
        → (items : List (ℕ × T)) × AreValuesOf trie.now (chars bytes.now) items
        × (result.bytes ≡ length bytes.now)
        × (values.new ≡ map (λ item. item.1) items ++ drop (length items) values.old) }
{
    copy_parts(&TextLookup::new(trie), bytes, values)
}
