//! Steps of a cursor, and the value at a position.
ghost use Rattle.icu_zerovec.specs.Slice.{slice_values};
ghost use Rattle.std.specs.Prelude.{◌≡◌, ℕ, ℤ, ◌+◌, ◌*◌, ◌^◌, ◌<◌, ◌≤◌, slice_get, length, List, [], not, IfSome, Option, None};
ghost use Rattle.icu_char16trie.specs.Constants.{min_value_lead};
ghost use Rattle.icu_char16trie.specs.Grammar.{Arms, Holds, Matches, Part, IsAscending, Children};
ghost use Rattle.icu_char16trie.specs.UnitMap.{UnitMap, after, value_of, goes_on};
ghost use Rattle.icu_char16trie.specs.Steps.{StepsTo, InNode, InMatch, InPart, child_place, run_place};
ghost use Rattle.icu_char16trie.specs.UnitPlaces.{InRun, Stands, IsNear, value_at, value_by, is_empty_at};
ghost use Rattle.icu_char16trie.specs.declared.place.Place.TheVariants.{Nowhere};

use crate::branch::child_in_part;
use crate::encoded::{node_end, node_number, short_number, unit_at};
use crate::impl_const::{MIN_LINEAR_MATCH, MIN_VALUE_LEAD, VALUE_IS_FINAL};
use crate::place::Place;
use icu_zerovec::ZeroSlice;

/// Returns the position after the unit `unit` in a linear match that has `left + 1` units left.
#[inline(always)]
fn step_in_run(units: ZeroSlice<'_, u16>, place: usize, left: u8, unit: u16) -> Place
    requires { place < 2 ^ 63 }
    ensures stands { let all = slice_values units.entry in
        (m : UnitMap) → InRun all place (left + 1) m → Stands all result (after unit m) }
    ensures exact { result
        ≡ run_place place left unit (slice_get (slice_values units.entry) place) }
    ensures near { IsNear result }
{
    let Some(next) = unit_at(units, place) else {
        return Place::Nowhere;
    };
    if next != unit {
        return Place::Nowhere;
    }
    match left.checked_sub(1) {
        Some(left) => Place::Run(place + 1, left),
        None => Place::Node(place + 1),
    }
}

/// Returns the position after the unit `unit` at a branch with `length` entries.
#[tactic(auto, using(crate::proofs::NodeLemmas::children_found, crate::proofs::NodeLemmas::children_other, crate::proofs::PartLemmas::part_finds))]
#[inline(always)]
fn step_in_branch(units: ZeroSlice<'_, u16>, place: usize, length: usize, unit: u16) -> Place
    requires { place < 2 ^ 63 }
    ensures stands { let all = slice_values units.entry in
        (arms : Arms) (m : UnitMap) → Part all place length arms → IsAscending arms
        → Children all arms m
        → Stands all result (after unit m) }
    ensures exact { (r : Option ℕ) × InPart (slice_values units.entry) unit place length r
        × (result ≡ child_place r) }
    ensures near { IsNear result }
{
    match child_in_part(units, place, length, unit) {
        Some(child) => Place::Node(child),
        None => Place::Nowhere,
    }
}

/// Returns the position after the unit `unit` at a match node. `low` is the low six bits of its
/// lead unit, and `place` is the index after the lead and its value.
#[inline(always)]
fn step_in_match(units: ZeroSlice<'_, u16>, place: usize, low: u16, unit: u16) -> Place
    requires place { place < 2 ^ 63 }
    requires low { low < min_value_lead }
    ensures stands { let all = slice_values units.entry in
        (m : UnitMap) → Matches all place low m → Stands all result (after unit m) }
    ensures exact { InMatch (slice_values units.entry) unit place low result }
    ensures near { IsNear result }
{
    if low >= MIN_LINEAR_MATCH {
        return step_in_run(units, place, (low - MIN_LINEAR_MATCH) as u8, unit);
    }
    if low > 0 {
        return step_in_branch(units, place, usize::from(low) + 1, unit);
    }
    match unit_at(units, place) {
        Some(length) => step_in_branch(units, place + 1, usize::from(length) + 1, unit),
        None => Place::Nowhere,
    }
}

/// Returns the position after the unit `unit` at a node.
#[inline(always)]
fn step_in_node(units: ZeroSlice<'_, u16>, place: usize, unit: u16) -> Place
    requires { place < 2 ^ 63 }
    ensures stands { let all = slice_values units.entry in
        (m : UnitMap) → Holds all place m → Stands all result (after unit m) }
    ensures exact { InNode (slice_values units.entry) unit place result }
    ensures near { IsNear result }
    ensures absent { slice_get (slice_values units.entry) place ≡ None → result ≡ Nowhere }
{
    let Some(lead) = unit_at(units, place) else {
        return Place::Nowhere;
    };
    if lead >= VALUE_IS_FINAL {
        return Place::Nowhere;
    }
    if lead < MIN_VALUE_LEAD {
        return step_in_match(units, place + 1, lead, unit);
    }
    step_in_match(
        units,
        node_end(place + 1, lead),
        lead % MIN_VALUE_LEAD,
        unit,
    )
}

/// Returns the position after one more unit.
#[inline(always)]
pub(crate) fn step(units: ZeroSlice<'_, u16>, place: Place, unit: u16) -> Place
    requires { IsNear place }
    ensures stands { let all = slice_values units.entry in
        (m : UnitMap) → Stands all place m → Stands all result (after unit m) }
    ensures exact { StepsTo (slice_values units.entry) place unit result }
    ensures near { IsNear result }
    ensures nowhere { place ≡ Nowhere → result ≡ Nowhere }
{
    match place {
        Place::Nowhere => Place::Nowhere,
        Place::Node(node) => step_in_node(units, node, unit),
        Place::Run(next, left) => step_in_run(units, next, left, unit),
    }
}

/// Returns the value of the node whose lead unit is before `place`. It is 0 if some of its units
/// are missing.
#[inline(always)]
pub(crate) fn value_by(units: ZeroSlice<'_, u16>, place: usize, lead: u16) -> Option<i32>
    ensures { result ≡ value_by (slice_values units.entry) place lead }
{
    if lead < MIN_VALUE_LEAD {
        None
    } else if lead < VALUE_IS_FINAL {
        Some(node_number(units, place, lead).unwrap_or(0).cast_signed())
    } else {
        Some(
            short_number(units, place, lead - VALUE_IS_FINAL)
                .unwrap_or(0)
                .cast_signed(),
        )
    }
}

/// Returns the value at a position.
#[inline(always)]
pub(crate) fn value_at(units: ZeroSlice<'_, u16>, place: Place) -> Option<i32>
    requires { IsNear place }
    ensures { result ≡ value_at (slice_values units.entry) place }
{
    match place {
        Place::Node(node) => {
            let lead = unit_at(units, node)?;
            value_by(units, node + 1, lead)
        }
        Place::Nowhere | Place::Run(_, _) => None,
    }
}

/// Returns true if no unit can match at a position.
pub(crate) fn is_empty_at(units: ZeroSlice<'_, u16>, place: Place) -> bool
    ensures { result ≡ is_empty_at (slice_values units.entry) place }
{
    match place {
        Place::Nowhere => true,
        Place::Node(node) => unit_at(units, node).is_none_or(|lead| lead >= VALUE_IS_FINAL),
        Place::Run(_, _) => false,
    }
}
