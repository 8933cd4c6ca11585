//! Counts the entries of a trie.
//!
//! Several nodes may lead to the same node, so a few units can have very many entries. A node comes
//! before the nodes that it leads to, and its entries are its own value and theirs. So the nodes
//! are counted from the last one back to the root.
ghost use Rattle.icu_zerovec.specs.Slice.{slice_values};
ghost use Rattle.std.specs.Prelude.{◌≡◌, ◌↔◌, ℕ, List, ◌+◌, ◌-◌, ◌^◌, ◌<◌, ◌≤◌, length, min, slice_index, IfOk, Some, None};
ghost use Rattle.icu_char16trie.specs.Constants.{max_branch_linear_sub_node_length, min_value_lead};
ghost use Rattle.icu_char16trie.specs.Grammar.{Arms, Holds, IsTrieOf, Part};
ghost use Rattle.icu_char16trie.specs.UnitMap.{UnitMap};
ghost use Rattle.icu_char16trie.specs.Inside.Soundness.{HasMap, IsOneWanted, IsWanted, places_of};
ghost use Rattle.icu_char16trie.specs.Inside.Counts.{IsClosed, IsCounted, MatchKids, NodeKids, capped, sum_at};

use crate::encoded::{
    delta_end, entry_child, lower_part, node_end, run_len, short_end, two_at, unit_at,
};
use crate::impl_const::{
    MAX_BRANCH_LINEAR_SUB_NODE_LENGTH, MIN_LINEAR_MATCH, MIN_VALUE_LEAD, VALUE_IS_FINAL,
};
use crate::soundness::has_all_wanted;
use crate::trie::Char16Trie;
use icu_zerovec::{MemoryError, ZeroSlice};
use std::alloc::Global;

/// Returns the count at `place`, or 0 past the end.
fn count_at(counts: &[u64], place: usize) -> u64
    ensures { result ≡ slice_index counts.now place }
{
    counts.get(place).copied().unwrap_or(0)
}

/// Returns the sum of two counts, or `u64::MAX` if it overflows.
fn both_counts(first: u64, second: u64) -> u64
    ensures { result ≡ capped (first + second) }
{
    first.saturating_add(second)
}

/// Returns the number of entries of the nodes of a row, which has at most five entries.
fn count_row(units: ZeroSlice<'_, u16>, counts: &[u64], row: usize, count: usize) -> Option<u64>
    requires near { row < 2 ^ 63 }
    requires short { count ≤ max_branch_linear_sub_node_length }
    ensures { (arms : Arms) → Part (slice_values units.entry) row count arms
        → result ≡ Some (capped (sum_at counts.now (places_of arms))) }
{
    let mut left = count;
    let mut place = row;
    let mut total = 0;
    while left > 1 {
        let (_unit, value) = two_at(units, place)?;
        let child = entry_child(units, place + 2, value)?;
        total = both_counts(total, count_at(counts, child));
        place = short_end(place + 2, value % VALUE_IS_FINAL);
        left -= 1;
    }
    let _last = unit_at(units, place)?;
    Some(both_counts(total, count_at(counts, place + 1)))
}

/// Returns the number of entries of the nodes of a part of a branch. The recursion is at most 16
/// deep.
fn count_part(units: ZeroSlice<'_, u16>, counts: &[u64], part: usize, count: usize) -> Option<u64>
    requires { part < 2 ^ 63 }
    ensures { (arms : Arms) → Part (slice_values units.entry) part count arms
        → result ≡ Some (capped (sum_at counts.now (places_of arms))) }
{
    if count <= MAX_BRANCH_LINEAR_SUB_NODE_LENGTH {
        return count_row(units, counts, part, count);
    }
    let (_split, delta) = two_at(units, part)?;
    let low = lower_part(units, part + 2, delta)?;
    let half = count / 2;
    let lower = count_part(units, counts, low, half)?;
    let high = delta_end(part + 2, delta);
    let upper = count_part(units, counts, high, count - half)?;
    Some(both_counts(lower, upper))
}

/// Returns the number of entries of the nodes that a match node leads to. `low` is the low six bits
/// of its lead unit, and `place` is the index after the lead and its value.
fn count_match(units: ZeroSlice<'_, u16>, counts: &[u64], place: usize, low: u16) -> Option<u64>
    requires near { place < 2 ^ 63 }
    requires low { low < min_value_lead }
    ensures { (kids : List ℕ) → MatchKids (slice_values units.entry) place low kids
        → result ≡ Some (capped (sum_at counts.now kids)) }
{
    if low >= MIN_LINEAR_MATCH {
        let after = count_at(counts, place + run_len(low));
        return Some(after);
    }
    if low > 0 {
        return count_part(units, counts, place, usize::from(low) + 1);
    }
    let length = unit_at(units, place)?;
    count_part(units, counts, place + 1, usize::from(length) + 1)
}

/// Returns the number of entries of a node, given the counts of the nodes that it leads to.
fn count_node(units: ZeroSlice<'_, u16>, counts: &[u64], place: usize) -> Option<u64>
    ensures { (own : ℕ) (kids : List ℕ) → NodeKids (slice_values units.entry) place own kids
        → result ≡ Some (capped (own + sum_at counts.now kids)) }
{
    let lead = unit_at(units, place)?;
    if lead >= VALUE_IS_FINAL {
        return Some(1);
    }
    if lead < MIN_VALUE_LEAD {
        return count_match(units, counts, place + 1, lead);
    }
    let end = node_end(place + 1, lead);
    let longer = count_match(units, counts, end, lead % MIN_VALUE_LEAD)?;
    Some(both_counts(1, longer))
}

/// Counts the entries of each node that is marked in `wanted`.
#[tactic(auto, using(crate::proofs::CountLemmas::count_here))]
fn count_wanted(units: ZeroSlice<'_, u16>, wanted: &[bool], counts: &mut [u64])
    requires wanted { length wanted.now ≡ length (slice_values units) }
    requires counts { length counts.old ≡ length (slice_values units) }
    requires closed { IsClosed (slice_values units) wanted.now (length (slice_values units)) }
    ensures { (q : ℕ) → IsWanted wanted.now q → IsCounted (slice_values units.entry) counts.new q }
{
    let mut place = units.len();
    while place > 0 {
        place -= 1;
        if wanted[place] {
            let count = count_node(units, counts, place).unwrap_or(0);
            counts[place] = count;
        }
    }
}

/// Returns the number of entries of the root, or `None` if the units are not a trie. Only the root
/// is marked in `wanted`.
fn count_at_root(units: ZeroSlice<'_, u16>, wanted: &mut [bool], counts: &mut [u64]) -> Option<u64>
    requires some { 0 < length (slice_values units) }
    requires wanted { length wanted.old ≡ length (slice_values units) }
    requires counts { length counts.old ≡ length (slice_values units) }
    requires root { IsOneWanted wanted.old }
    ensures some { (m : UnitMap) → Holds (slice_values units.entry) 0 m
        → result ≡ Some (capped (length m)) }
    ensures none { result ≡ None ↔ (HasMap (slice_values units.entry) 0 → ⊥) }
{
    if !has_all_wanted(units, wanted) {
        return None;
    }
    count_wanted(units, wanted, counts);
    Some(counts[0])
}

impl<'data> Char16Trie<'data> {
    /// Returns the number of entries of the trie, capped at `u64::MAX`, or `None` if the units are
    /// not a trie, which is when [`Char16Trie::is_trie`] returns false.
    ///
    /// Takes time linear in the number of units, however many entries there are, if no two branches
    /// share a part. In untrusted units they may, and a branch has up to 65,536 entries: then it
    /// takes up to 65,536 steps for each unit, of 10 to 15 ns each. Allocates nine bytes for each
    /// unit.
    ///
    /// ```
    /// // of the map of "a" to 1 and "ab" to 2: trie.count_entries(alloc)? is Some(2)
    /// // of 40 times [1, 0x61, 1, 0x62] and 0x8001: it is Some(1 << 40)
    /// ```
    ///
    /// # Errors
    /// Returns `MemoryError` if an allocation fails.
    pub fn count_entries(&self, alloc: Global) -> Result<Option<u64>, MemoryError>
        ensures some { IfOk result (λ told. (m : UnitMap) → IsTrieOf self.now m
            → told ≡ Some (min (length m) (2 ^ 64 - 1))) }
        ensures none { IfOk result
            (λ told. told ≡ None ↔ ((m : UnitMap) → IsTrieOf self.now m → ⊥)) }
    {
        let units = self.data.as_slice();
        if units.is_empty() {
            return Ok(Some(0));
        }
        let mut wanted = vec![in alloc; false; units.len()]?;
        wanted[0] = true;
        let mut counts = vec![in alloc; 0u64; units.len()]?;
        Ok(count_at_root(units, &mut wanted, &mut counts))
    }
}
