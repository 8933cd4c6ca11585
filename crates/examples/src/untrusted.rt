//! Untrusted tries: the parts are validated, and what is then used is proved.
ghost use Rattle.std.specs.Prelude.{◌≡◌, ◌<◌, ◌↔◌, ℕ, true, Some, IfOk, IfSome, map};
ghost use Rattle.icu_collections.specs.CodePointInversionList.{holds};
ghost use Rattle.icu_collections.specs.CodePointTrie.{AreMaximalRuns, LongestRun, answer, answers, last_of, run_of, trie_value};
ghost use Rattle.icu_collections.specs.ZeroVec.{values_of};

use icu_collections::codepointinvlist::CodePointInversionList;
use icu_collections::codepointtrie::{
    CodePointMapRange, CodePointTrie, CodePointTrieHeader, TrieValue,
};
use icu_collections::zerovec::ZeroVec;
use icu_collections::zerovec::ule::AsULE;
use std::alloc::Global;

/// Returns a trie that borrows packed bytes, or `None` if the bytes are not packed vectors or the
/// three parts do not form a trie.
pub fn trie_of_bytes<'a, T: TrieValue>(
    header: CodePointTrieHeader,
    index: &'a [u8],
    values: &'a [u8],
) -> Option<CodePointTrie<'a, T>>
    ensures header { IfSome result (λ trie. trie.header ≡ header) }
    ensures index { IfSome result
        (λ trie. trie.index ≡ values_of ⟦<u16 as AsULE>⟧.unpack 2 index.now) }
    ensures values { IfSome result (λ trie. trie.values ≡ values_of T.unpack T.WIDTH values.now) }
{
    let index = ZeroVec::<u16>::parse_bytes(index).ok()?;
    let values = ZeroVec::<T>::parse_bytes(values).ok()?;
    CodePointTrie::try_new(header, index, values).ok()
}

/// Returns the ranges of a trie, but only if it is coherent. They are then the maximal runs of its
/// values. Also returns `None` if an allocation fails.
pub fn trusted_runs<T: TrieValue>(
    alloc: Global,
    trie: &CodePointTrie<'_, T>,
) -> Option<Vec<CodePointMapRange<T>>>
    ensures { IfSome result (λ list. AreMaximalRuns (answers trie.now) (map run_of list.items)) }
{
    if !trie.is_coherent() {
        return None;
    }
    trie.iter_ranges().collect::<Vec<_>>(alloc).ok()
}

/// Returns the range of a character, but only if the trie is coherent. It is then the longest run
/// of one value from the character on.
pub fn trusted_range<T: TrieValue>(
    trie: &CodePointTrie<'_, T>,
    c: char,
) -> Option<CodePointMapRange<T>>
    ensures { IfSome result
        (λ range. LongestRun (answers trie.now) c (last_of range) (Some range.value)) }
{
    if !trie.is_coherent() {
        return None;
    }
    trie.get_range(u32::from(c))
}
