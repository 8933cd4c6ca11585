//! Entries that are already in unit order. They are checked, and no key is copied.
ghost use Rattle.std.specs.Prelude.{◌≡◌, ◌↔◌, ℕ, ◌+◌, ◌<◌, ◌≤◌, length, take, IsTrue, IfOk, MatchOption};
ghost use Rattle.icu_char16trie.specs.UnitMap.{KeyBelow};
ghost use Rattle.icu_char16trie_builder.specs.Entries.{most_units};
ghost use Rattle.icu_char16trie_builder.specs.Sorted.{pair_map, key_at, IsInOrder, IsFirstRefusedKey};
ghost use Rattle.icu_char16trie_builder.specs.Inside.Cuts.{cut};
ghost use Rattle.icu_char16trie_builder.specs.Inside.Refusals.{IsRefusal, IsTold};

use crate::builder::{LONGEST_KEY, total_with};
use crate::entry::Entry;
use crate::error::SortedError;
use std::alloc::{AllocError, Global};

/// Returns true if a key is before another in unit order.
fn is_before(a: &[u16], b: &[u16]) -> bool
    ensures { IsTrue result ↔ KeyBelow a.now b.now }
{
    a < b
}

/// Returns true if the entry at index `i` is valid after those before it, which are in order.
fn follows(entries: &[(&[u16], i32)], i: usize) -> bool
    requires within { i < length entries.now }
    requires front { IsInOrder (take i (pair_map entries.now)) }
    ensures { IsTrue result ↔ IsInOrder (take (i + 1) (pair_map entries.now)) }
{
    let key = entries[i].0;
    if key.len() > LONGEST_KEY {
        return false;
    }
    if i == 0 {
        return true;
    }
    is_before(entries[i - 1].0, key)
}

/// Returns the index of the first entry that is not valid, if there is one.
fn first_refused(entries: &[(&[u16], i32)]) -> Option<usize>
    ensures { MatchOption result (IsInOrder (pair_map entries.now))
        (IsFirstRefusedKey (pair_map entries.now)) }
{
    for i in 0..entries.len() {
        if !follows(entries, i) {
            return Some(i);
        }
    }
    None
}

/// Returns why the entry at index `i`, the first that is not valid, is rejected.
fn refusal_at(entries: &[(&[u16], i32)], i: usize) -> SortedError
    requires { IsFirstRefusedKey (pair_map entries.now) i }
    ensures { IsRefusal (pair_map entries.now) result }
{
    if entries[i].0.len() > LONGEST_KEY {
        return SortedError::KeyTooLong(i);
    }
    SortedError::NotAscending(i)
}

/// Returns true if no trie of the entries can need too many units.
fn fit(entries: &[(&[u16], i32)]) -> bool
    ensures { IsTrue result ↔ (most_units (pair_map entries.now) ≤ 0x7FFF_FFFF) }
{
    let mut total: u64 = 0;
    for i in 0..entries.len() {
        let Some(more) = total_with(total, entries[i].0.len()) else {
            return false;
        };
        total = more;
    }
    true
}

/// Returns why no trie can be built from the entries, apart from a failed allocation.
pub(crate) fn refusal(entries: &[(&[u16], i32)]) -> Option<SortedError>
    ensures { IsTold (pair_map entries.now) result }
{
    if let Some(i) = first_refused(entries) {
        return Some(refusal_at(entries, i));
    }
    if !fit(entries) {
        return Some(SortedError::TooLarge);
    }
    None
}

/// Returns the entries, in their order.
pub(crate) fn entries_of_pairs<'a>(
    alloc: Global,
    pairs: &[(&'a [u16], i32)],
) -> Result<Vec<Entry<'a>>, AllocError>
    ensures { IfOk result (λ list. cut 0 list.items ≡ pair_map pairs.now) }
{
    let mut list = Vec::with_capacity(alloc, pairs.len())?;
    for (key, value) in pairs {
        list.push(Entry { key, value: *value })?;
    }
    Ok(list)
}
