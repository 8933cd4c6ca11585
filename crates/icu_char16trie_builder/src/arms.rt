//! The arms of a branch: its entries, grouped by their next unit. The first `depth` units of the
//! keys have been passed.
ghost use Rattle.std.specs.Prelude.{◌≡◌, ℕ, ◌+◌, ◌-◌, ◌*◌, ◌^◌, ◌<◌, ◌≤◌, List, [], ◌∷◌, ◌++◌, Some, None, length, take, drop, slice_get, OnOk, IfOk};
ghost use Rattle.icu_char16trie.specs.UnitMap.{IsAscendingKeys};
ghost use Rattle.icu_char16trie_builder.specs.Inside.Cuts.{cut, room, AllLonger, AllShare, IsGroup, unit_of, ArmsSoFar};

use crate::entry::{Arm, Entry};
use std::alloc::{AllocError, Global};

/// Returns the length of the longest common prefix of two lists.
fn common_len(a: &[u16], b: &[u16]) -> usize
    ensures within { result ≤ length a.now }
    ensures same { take result a.now ≡ take result b.now }
{
    let end = a.len().min(b.len());
    for i in 0..end {
        if a[i] != b[i] {
            return i;
        }
    }
    end
}

/// Returns the length of the common prefix of `units` and the first entry's key from `depth` on.
fn shared_by_first(units: &[u16], entries: &[Entry<'_>], depth: usize) -> usize
    ensures within { result ≤ length units.now }
    ensures share { AllShare depth result units.now (take 1 entries.now) }
{
    if let Some(entry) = entries.first() {
        if entry.key.len() < depth {
            return 0;
        }
        return common_len(units, entry.key.split_at(depth).1);
    }
    0
}

/// Returns the length, at most `most`, of a common prefix of `units` and all keys from `depth` on.
pub(crate) fn shared_len(units: &[u16], entries: &[Entry<'_>], depth: usize, most: usize) -> usize
    ensures within { result ≤ length units.now }
    ensures few { result ≤ most }
    ensures share { AllShare depth result units.now entries.now }
{
    let mut shared = units.len().min(most);
    for i in 0..entries.len() {
        shared = shared_by_first(units.split_at(shared).0, entries.split_at(i).1, depth);
    }
    shared
}

/// Returns the unit at `depth` of the first entry's key.
fn first_unit(entries: &[Entry<'_>], depth: usize) -> Option<u16>
    ensures { result ≡ unit_of entries.now depth }
{
    let first = entries.first()?;
    first.key.get(depth).copied()
}

/// Returns the number of leading entries that have `unit` at `depth`.
fn group_len(entries: &[Entry<'_>], depth: usize, unit: u16) -> usize
    ensures within { result ≤ length entries.now }
    ensures group { IsGroup depth unit (take result entries.now) }
    ensures next { unit_of (drop result entries.now) depth ≡ Some unit → ⊥ }
{
    for i in 0..entries.len() {
        if first_unit(entries.split_at(i).1, depth) != Some(unit) {
            return i;
        }
    }
    entries.len()
}

/// Returns the arms of a branch. Each key has more than `depth` units.
pub(crate) fn arms_of<'a>(
    alloc: Global,
    entries: &'a [Entry<'a>],
    depth: usize,
) -> Result<Vec<Arm<'a>>, AllocError>
    requires longer { AllLonger depth entries.now }
    requires ascends { IsAscendingKeys (cut depth entries.now) }
    ensures { IfOk result (λ arms. ArmsSoFar depth entries.now [] arms.items) }
{
    let mut arms = Vec::new(alloc);
    let mut start = 0;
    while start < entries.len() {
        let rest = entries.split_at(start).1;
        if let Some(unit) = first_unit(rest, depth) {
            let group = rest.split_at(group_len(rest, depth, unit)).0;
            start += group.len();
            arms.push(Arm {
                unit,
                entries: group,
            })?;
        } else {
            return Ok(arms);
        }
    }
    Ok(arms)
}
