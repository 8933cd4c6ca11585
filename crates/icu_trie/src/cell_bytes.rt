//! The packed bytes of a code point's cell.
ghost use Rattle.std.specs.Prelude.{◌≡◌, ◌≤◌, ℕ, ◌<◌, ◌+◌, ◌*◌, List, length, slice_get, Some, None, IsNone, IfSome, ◌↔◌};
ghost use Rattle.std.specs.Option.{option_and_then, option_map};
ghost use Rattle.icu_trie_core.specs.Format.{place_or_last};
ghost use Rattle.icu_zerovec.specs.Canonical.{IsCanonical};

use crate::cptrie::CodePointTrie;
use icu_trie_core::value::TrieValue;
use icu_zerovec::ZeroVec;

/// Returns the packed bytes of the value at index `i`, or `None` if `i` is past the end.
#[inline]
fn bytes_at<'a, T: TrieValue>(values: &'a ZeroVec<'_, T>, i: usize) -> Option<&'a [u8]>
    ensures value { option_and_then (λ b. T.unpack b.now) result ≡ slice_get values.now i }
    ensures none { IsNone result ↔ (length values.now ≤ i) }
    ensures width { IfSome result (λ b. length b.now ≡ T.WIDTH) }
    ensures canonical { IsCanonical T.pack T.unpack T.WIDTH
        → option_map (λ b. b.now) result ≡ option_map T.pack (slice_get values.now i) }
{
    if i >= values.len() {
        return None;
    }
    let start = i * T::WIDTH;
    Some(&values.as_bytes()[start..start + T::WIDTH])
}

impl<'trie, T: TrieValue> CodePointTrie<'trie, T> {
    /// Returns a reference to the packed bytes of the cell of the code point `c`, `T::WIDTH` bytes
    /// long.
    ///
    /// It is for values that are read in place. If `c` is above 0x10FFFF, or if a cell of the index
    /// is missing, it returns the bytes of the last cell, which is the error value. It returns
    /// `None` exactly if the index leads outside the data.
    ///
    /// If each value of the type has one encoding, as in all types of this crate, these are the
    /// bytes that the value packs to.
    pub fn get32_ule(&self, c: u32) -> Option<&[u8]>
        ensures value { option_and_then (λ b. T.unpack b.now) result
            ≡ option_and_then (slice_get self.now.values)
            (place_or_last self.now.header self.now.index (length self.now.values) c) }
        ensures none { IsNone result
            ↔ IfSome (place_or_last self.now.header self.now.index (length self.now.values) c)
            (λ i. length self.now.values ≤ i) }
        ensures width { IfSome result (λ b. length b.now ≡ T.WIDTH) }
        ensures canonical { IsCanonical T.pack T.unpack T.WIDTH
            → option_map (λ b. b.now) result ≡ option_map T.pack
            (option_and_then (slice_get self.now.values)
            (place_or_last self.now.header self.now.index (length self.now.values) c)) }
    {
        bytes_at(&self.data, self.as_view().place(c))
    }
}
