//! The units that can come next in some key.
ghost use Rattle.icu_zerovec.specs.Slice.{slice_values};
ghost use Rattle.std.specs.Prelude.{◌≡◌, ℕ, List, ◌++◌, ◌^◌, ◌<◌, slice_get, OnOk};
ghost use Rattle.icu_char16trie.specs.NextUnits.{unit_list, RowUnits, PartUnits, MatchUnits, NodeUnits, GoesOnWith};
ghost use Rattle.icu_char16trie.specs.Inside.Adding.{Adds};

use crate::encoded::{delta_end, lower_part, node_end, short_end, two_at, unit_at};
use crate::impl_const::{
    MAX_BRANCH_LINEAR_SUB_NODE_LENGTH, MIN_LINEAR_MATCH, MIN_VALUE_LEAD, VALUE_IS_FINAL,
};
use crate::place::Place;
use icu_zerovec::ZeroSlice;
use std::alloc::AllocError;

/// Adds the unit at an index, if it is there.
fn add_unit(list: &mut Vec<u16>, units: ZeroSlice<'_, u16>, place: usize) -> Result<(), AllocError>
    ensures { OnOk result (list.new.items
        ≡ list.old.items ++ unit_list (slice_get (slice_values units.entry) place)) }
{
    if let Some(unit) = unit_at(units, place) {
        list.push(unit)?;
    }
    Ok(())
}

/// Adds the units of a row, which has at most five entries.
fn add_row(
    list: &mut Vec<u16>,
    units: ZeroSlice<'_, u16>,
    row: usize,
    count: usize,
) -> Result<(), AllocError>
    requires { row < 2 ^ 63 }
    ensures { OnOk result (Adds (RowUnits (slice_values units.entry) row count) list.old.items
        list.new.items) }
{
    let mut left = count;
    let mut place = row;
    while left > 1 {
        let Some((unit, value)) = two_at(units, place) else {
            return Ok(());
        };
        list.push(unit)?;
        place = short_end(place + 2, value % VALUE_IS_FINAL);
        left -= 1;
    }
    add_unit(list, units, place)?;
    Ok(())
}

/// Adds the units of a part of a branch.
fn add_part(
    list: &mut Vec<u16>,
    units: ZeroSlice<'_, u16>,
    part: usize,
    count: usize,
) -> Result<(), AllocError>
    requires { part < 2 ^ 63 }
    ensures { OnOk result (Adds (PartUnits (slice_values units.entry) part count) list.old.items
        list.new.items) }
{
    if count <= MAX_BRANCH_LINEAR_SUB_NODE_LENGTH {
        add_row(list, units, part, count)?;
        return Ok(());
    }
    let Some((_split, delta)) = two_at(units, part) else {
        return Ok(());
    };
    let half = count / 2;
    if let Some(low) = lower_part(units, part + 2, delta) {
        add_part(list, units, low, half)?;
    }
    add_part(list, units, delta_end(part + 2, delta), count - half)?;
    Ok(())
}

/// Adds the units that can come next at a match node. `low` is the low six bits of its lead unit,
/// and `place` is the index after the lead and its value.
fn add_match(
    list: &mut Vec<u16>,
    units: ZeroSlice<'_, u16>,
    place: usize,
    low: u16,
) -> Result<(), AllocError>
    requires { place < 2 ^ 63 }
    ensures { OnOk result (Adds (MatchUnits (slice_values units.entry) place low) list.old.items
        list.new.items) }
{
    if low >= MIN_LINEAR_MATCH {
        add_unit(list, units, place)?;
        return Ok(());
    }
    if low > 0 {
        add_part(list, units, place, low as usize + 1)?;
        return Ok(());
    }
    if let Some(length) = unit_at(units, place) {
        add_part(list, units, place + 1, length as usize + 1)?;
    }
    Ok(())
}

/// Adds the units that can come next at a node.
fn add_node(list: &mut Vec<u16>, units: ZeroSlice<'_, u16>, node: usize) -> Result<(), AllocError>
    ensures { OnOk result (Adds (NodeUnits (slice_values units.entry) node) list.old.items
        list.new.items) }
{
    let Some(lead) = unit_at(units, node) else {
        return Ok(());
    };
    if lead >= VALUE_IS_FINAL {
        return Ok(());
    }
    add_match(list, units, node_end(node + 1, lead), lead % MIN_VALUE_LEAD)?;
    Ok(())
}

/// Adds the units that can come next at a position.
pub(crate) fn add_units(
    list: &mut Vec<u16>,
    units: ZeroSlice<'_, u16>,
    place: Place,
) -> Result<(), AllocError>
    ensures { OnOk result (Adds (GoesOnWith (slice_values units.entry) place) list.old.items
        list.new.items) }
{
    match place {
        Place::Nowhere => {}
        Place::Node(node) => add_node(list, units, node)?,
        Place::Run(next, _left) => add_unit(list, units, next)?,
    }
    Ok(())
}
