//! Whether units are a trie: there has to be a node at each index that the root leads to.
//!
//! Each node comes before those that it leads to, so one pass over the units is enough. A node that
//! is valid so far marks, in `wanted`, the indices at which other nodes are required.
ghost use Rattle.icu_zerovec.specs.Slice.{slice_values};
ghost use Rattle.std.specs.Prelude.{◌≡◌, ℕ, ◌↔◌, ◌^◌, ◌<◌, ◌≤◌, length, slice_set, MatchOption, IfOk, IsTrue, true};
ghost use Rattle.icu_char16trie.specs.Constants.{max_branch_linear_sub_node_length, min_value_lead};
ghost use Rattle.icu_char16trie.specs.Grammar.{IsTrieOf};
ghost use Rattle.icu_char16trie.specs.UnitMap.{UnitMap};
ghost use Rattle.icu_char16trie.specs.Inside.Counts.{IsClosed, MatchKids, NodeLeadsTo};
ghost use Rattle.icu_char16trie.specs.Inside.Soundness.{HasMap, HasMatch, AllWantedHave, IsWanted, PartWalked, IsNoPart, RestsOnWanted};

use crate::encoded::{
    delta_end, entry_child, lower_part, node_end, node_number, run_len, short_end, short_number,
    two_at, unit_at,
};
use crate::impl_const::{
    MAX_BRANCH_LINEAR_SUB_NODE_LENGTH, MIN_LINEAR_MATCH, MIN_VALUE_LEAD, VALUE_IS_FINAL,
};
use crate::trie::Char16Trie;
use icu_zerovec::{MemoryError, ZeroSlice};
use std::alloc::Global;

/// Marks `place` as the index of a required node. `None` if there is no unit.
fn want(wanted: &mut [bool], place: usize) -> Option<()>
    ensures { MatchOption result (length wanted.old ≤ place)
        (λ _. (place < length wanted.old) × (wanted.new ≡ slice_set wanted.old place true)) }
{
    if place >= wanted.len() {
        return None;
    }
    wanted[place] = true;
    Some(())
}

/// Checks a row of at most five entries and marks the nodes that it leads to. Its units must ascend
/// and be at least `from`. Returns one more than the last unit.
fn check_row(
    units: ZeroSlice<'_, u16>,
    wanted: &mut [bool],
    row: usize,
    count: usize,
    from: usize,
) -> Option<usize>
    requires near { row < 2 ^ 63 }
    requires some { 0 < count }
    requires short { count ≤ max_branch_linear_sub_node_length }
    requires wanted { length wanted.old ≡ length (slice_values units) }
    ensures { MatchOption result (IsNoPart (slice_values units.entry) row count from)
        (λ next. PartWalked (slice_values units.entry) row count from next wanted.old wanted.new) }
{
    let mut left = count;
    let mut place = row;
    let mut least = from;
    while left > 1 {
        let (unit, value) = two_at(units, place)?;
        let child = entry_child(units, place + 2, value)?;
        if usize::from(unit) < least {
            return None;
        }
        want(wanted, child)?;
        least = usize::from(unit) + 1;
        place = short_end(place + 2, value % VALUE_IS_FINAL);
        left -= 1;
    }
    let last = unit_at(units, place)?;
    if usize::from(last) < least {
        return None;
    }
    want(wanted, place + 1)?;
    Some(usize::from(last) + 1)
}

/// Checks a part of a branch and marks the nodes that it leads to. Its units must ascend and be at
/// least `from`. Returns one more than the last unit. The recursion is at most 16 deep.
fn check_part(
    units: ZeroSlice<'_, u16>,
    wanted: &mut [bool],
    part: usize,
    count: usize,
    from: usize,
) -> Option<usize>
    requires near { part < 2 ^ 63 }
    requires some { 0 < count }
    requires wanted { length wanted.old ≡ length (slice_values units) }
    ensures { MatchOption result (IsNoPart (slice_values units.entry) part count from)
        (λ next. PartWalked (slice_values units.entry) part count from next wanted.old wanted.new) }
{
    if count <= MAX_BRANCH_LINEAR_SUB_NODE_LENGTH {
        return check_row(units, wanted, part, count, from);
    }
    let (split, delta) = two_at(units, part)?;
    let low = lower_part(units, part + 2, delta)?;
    let half = count / 2;
    let next = check_part(units, wanted, low, half, from)?;
    if usize::from(split) < next {
        return None;
    }
    let high = delta_end(part + 2, delta);
    check_part(units, wanted, high, count - half, usize::from(split))
}

/// Checks the own units of a match node and marks the nodes that it leads to. `low` is the low six
/// bits of its lead unit, and `place` is the index after the lead and its value.
fn check_match(units: ZeroSlice<'_, u16>, wanted: &mut [bool], place: usize, low: u16) -> Option<()>
    requires near { place < 2 ^ 63 }
    requires low { low < min_value_lead }
    requires wanted { length wanted.old ≡ length (slice_values units) }
    ensures { let all = slice_values units.entry in
        MatchOption result (HasMatch all place low → ⊥)
        (λ _. RestsOnWanted all place (HasMatch all place low) (MatchKids all place low)
        wanted.old wanted.new) }
{
    if low >= MIN_LINEAR_MATCH {
        return want(wanted, place + run_len(low));
    }
    if low > 0 {
        check_part(units, wanted, place, usize::from(low) + 1, 0)?;
        return Some(());
    }
    let length = unit_at(units, place)?;
    if length == 0 {
        return None;
    }
    check_part(units, wanted, place + 1, usize::from(length) + 1, 0)?;
    Some(())
}

/// Checks the own units of a node and marks the nodes that it leads to.
pub(crate) fn check_node(units: ZeroSlice<'_, u16>, wanted: &mut [bool], place: usize) -> Option<()>
    requires wanted { length wanted.old ≡ length (slice_values units) }
    ensures { let all = slice_values units.entry in
        MatchOption result (HasMap all place → ⊥)
        (λ _. RestsOnWanted all place (HasMap all place) (NodeLeadsTo all place)
        wanted.old wanted.new) }
{
    let lead = unit_at(units, place)?;
    if lead >= VALUE_IS_FINAL {
        short_number(units, place + 1, lead - VALUE_IS_FINAL)?;
        return Some(());
    }
    if lead < MIN_VALUE_LEAD {
        return check_match(units, wanted, place + 1, lead);
    }
    node_number(units, place + 1, lead)?;
    let end = node_end(place + 1, lead);
    check_match(units, wanted, end, lead % MIN_VALUE_LEAD)
}

/// Returns true if there is a node at each marked index.
pub(crate) fn has_all_wanted(units: ZeroSlice<'_, u16>, wanted: &mut [bool]) -> bool
    requires { length wanted.old ≡ length (slice_values units) }
    ensures told { IsTrue result ↔ AllWantedHave (slice_values units.entry) wanted.old 0 }
    ensures closed { IsTrue result
        → IsClosed (slice_values units.entry) wanted.new (length (slice_values units.entry)) }
    ensures kept { IsTrue result → (q : ℕ) → IsWanted wanted.old q → IsWanted wanted.new q }
{
    for place in 0..units.len() {
        if wanted[place] && check_node(units, wanted, place).is_none() {
            return false;
        }
    }
    true
}

impl<'data> Char16Trie<'data> {
    /// Returns true if the units are the trie of some map. Then a listing of them, even if they are
    /// untrusted, gives exactly the entries of that map.
    ///
    /// [`Char16Trie::new`] does not check this, and the Rust crate and ICU have no such check.
    /// [`Char16Trie::count_entries`] returns the number of entries, and so how long a listing
    /// takes.
    ///
    /// The units are a trie if there is a valid node at each index that the root leads to. The
    /// lead, the value and the linear match or branch of a node must be complete. A branch must
    /// have at least two entries, and its units must strictly ascend, also relative to its split
    /// units. An empty list of units is the trie of the empty map. Units that no node leads to are
    /// ignored. Two nodes may lead to the same node, as in tries from ICU's builder.
    ///
    /// Takes time linear in the number of units if no two branches share a part. In untrusted units
    /// they may, and a branch has up to 65,536 entries: then it takes up to 65,536 steps for each
    /// unit, of about 5 ns each. The slowest 848 kB that we know take 2 s. Allocates one byte for
    /// each unit.
    ///
    /// ```
    /// // of [0x31, 0x61, 0x62, 0x8003], the map of "ab" to 3: trie.is_trie(alloc)? is true
    /// // of [0x31, 0x61, 0x62], which has no node after the linear match, it is false
    /// // of [1, 0x62, 0x8001, 0x61, 0x8002], whose units descend, it is false
    /// ```
    ///
    /// # Errors
    /// Returns `MemoryError` if an allocation fails.
    pub fn is_trie(&self, alloc: Global) -> Result<bool, MemoryError>
        ensures { IfOk result
            (λ told. IsTrue told ↔ ((m : UnitMap) × IsTrieOf self.now m)) }
    {
        let units = self.data.as_slice();
        if units.is_empty() {
            return Ok(true);
        }
        let mut wanted = vec![in alloc; false; units.len()]?;
        wanted[0] = true;
        Ok(has_all_wanted(units, &mut wanted))
    }
}
