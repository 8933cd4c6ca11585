//! The value that all keys ahead of a position have.
//!
//! Several nodes may lead to the same node, so a few units can have very many keys. Each node comes
//! before those that it leads to, so one pass visits each node once. It marks the indices of the
//! nodes that are still to come.
ghost use Rattle.icu_zerovec.specs.Slice.{slice_values};
ghost use Rattle.std.specs.Prelude.{◌≡◌, ◌↔◌, ℤ, ◌^◌, ◌<◌, length, Some, IsTrue, IfOk, MatchOption};
ghost use Rattle.icu_char16trie.specs.UnitPlaces.{IsNear};
ghost use Rattle.icu_char16trie.specs.OneValue.{StandsForOneValue};
ghost use Rattle.icu_char16trie.specs.Inside.Values.{Agrees, HasValue, IsNodeAhead, IsOnlyWanted, RestsOnOne};

use crate::place::Place;
use crate::soundness::check_node;
use crate::step::value_at;
use icu_zerovec::{MemoryError, ZeroSlice};
use std::alloc::Global;

/// Returns the index of the node that comes after the rest of a linear match. `None` if nothing
/// matched or there is no unit at that index.
fn node_ahead(units: ZeroSlice<'_, u16>, place: Place) -> Option<usize>
    requires { IsNear place }
    ensures { let all = slice_values units.entry in
        MatchOption result ((v : ℤ) → StandsForOneValue all place v → ⊥) (IsNodeAhead all place) }
{
    let node = match place {
        Place::Nowhere => return None,
        Place::Node(node) => node,
        Place::Run(next, left) => next + (usize::from(left) + 1),
    };
    if node >= units.len() {
        return None;
    }
    Some(node)
}

/// Returns true if no other value was found before.
fn agrees(found: Option<i32>, value: i32) -> bool
    ensures { IsTrue result ↔ Agrees found value }
{
    match found {
        None => true,
        Some(other) => other == value,
    }
}

/// Visits a node, marks the nodes that it leads to, and returns the value that was found so far.
/// `None` if the node is not valid or has another value.
fn pass_node(
    units: ZeroSlice<'_, u16>,
    wanted: &mut [bool],
    place: usize,
    found: Option<i32>,
) -> Option<Option<i32>>
    requires near { place < 2 ^ 63 }
    requires wanted { length wanted.old ≡ length (slice_values units) }
    ensures { let all = slice_values units.entry in
        MatchOption result ((v : ℤ) → Agrees found v → HasValue all v place → ⊥)
        (λ one. RestsOnOne all place found one wanted.old wanted.new) }
{
    check_node(units, wanted, place)?;
    let Some(value) = value_at(units, Place::Node(place)) else {
        return Some(found);
    };
    if !agrees(found, value) {
        return None;
    }
    Some(Some(value))
}

/// Returns the value of all entries of the node at `root`, the only index that is marked in
/// `wanted`. `None` if the values differ or the units are no trie from there on.
fn value_of_wanted(units: ZeroSlice<'_, u16>, wanted: &mut [bool], root: usize) -> Option<i32>
    requires wanted { length wanted.old ≡ length (slice_values units) }
    requires root { IsOnlyWanted wanted.old root }
    ensures { (v : ℤ) → (result ≡ Some v) ↔ HasValue (slice_values units.entry) v root }
{
    let mut found = None;
    for place in root..units.len() {
        if wanted[place] {
            found = pass_node(units, wanted, place, found)?;
        }
    }
    found
}

/// Returns the value of all keys ahead of a position. `None` if the values differ, if there is no
/// key, or if the units are no trie from there on.
pub(crate) fn unique_value_at(
    alloc: Global,
    units: ZeroSlice<'_, u16>,
    place: Place,
) -> Result<Option<i32>, MemoryError>
    requires { IsNear place }
    ensures { IfOk result (λ told. (v : ℤ) → (told ≡ Some v)
        ↔ StandsForOneValue (slice_values units.entry) place v) }
{
    let Some(node) = node_ahead(units, place) else {
        return Ok(None);
    };
    let mut wanted = vec![in alloc; false; units.len()]?;
    wanted[node] = true;
    Ok(value_of_wanted(units, &mut wanted, node))
}
