//! Writes one level of a trie in front of what it leads to. Indices are counted from the end of the
//! units, so they stay the same while more units are written.
ghost use Rattle.std.specs.Prelude.{◌≡◌, ℕ, ℤ, ◌+◌, ◌-◌, ◌*◌, ◌/◌, ◌%◌, ◌^◌, ◌<◌, ◌≤◌, List, [], ◌∷◌, ◌++◌, length, reverse, OnOk, IfOk};
ghost use Rattle.icu_char16trie.specs.Constants.{max_branch_linear_sub_node_length, max_linear_match_length, min_value_lead};
ghost use Rattle.icu_char16trie.specs.Grammar.{Holds, Matches};
ghost use Rattle.icu_char16trie.specs.UnitMap.{UnitMap, under};
ghost use Rattle.icu_char16trie_builder.specs.Inside.Written.{PartAt, Below, From, Ascends, own_entry, Grew};
ghost use Rattle.icu_char16trie_builder.specs.Inside.Steps.{lead_cost};

use crate::write::{put_all, put_delta, put_final, put_one, put_short, put_value};
use icu_char16trie::impl_const::{MAX_LINEAR_MATCH_LENGTH, MIN_LINEAR_MATCH};
use std::alloc::AllocError;

/// Writes a node that has only a value.
fn write_final(out: &mut Vec<u16>, value: i32) -> Result<(), AllocError>
    ensures node { OnOk result (Holds (reverse out.new.items) 0 (([], value) ∷ [])) }
    ensures grew { OnOk result (Grew 3 (reverse out.old.items) (reverse out.new.items)) }
{
    put_final(out, value.cast_unsigned())?;
    Ok(())
}

/// Writes the unit of the last entry of a row, in front of its node.
pub(crate) fn write_last(out: &mut Vec<u16>, unit: u16) -> Result<(), AllocError>
    ensures part { OnOk result ((m : UnitMap) → Holds (reverse out.old.items) 0 m
        → PartAt (reverse out.new.items) 0 1 (unit ∷ []) (under (unit ∷ []) m)) }
    ensures grew { OnOk result (Grew 1 (reverse out.old.items) (reverse out.new.items)) }
{
    put_one(out, unit)?;
    Ok(())
}

/// Writes an entry of a row in front of the others: its unit, and a jump to its node, which is
/// `from_end` units before the end.
pub(crate) fn write_jump(out: &mut Vec<u16>, unit: u16, from_end: usize) -> Result<(), AllocError>
    requires { length out.old.items < 2 ^ 32 }
    ensures part { OnOk result ((n : ℕ) (us : List ℕ) (m1 m2 : UnitMap) → 1 < n
        → n ≤ max_branch_linear_sub_node_length
        → Holds (reverse out.old.items) (length out.old.items - from_end) m1
        → PartAt (reverse out.old.items) 0 (n - 1) us m2
        → PartAt (reverse out.new.items) 0 n (unit ∷ us) (under (unit ∷ []) m1 ++ m2)) }
    ensures grew { OnOk result (Grew 4 (reverse out.old.items) (reverse out.new.items)) }
{
    let jump = out.len().saturating_sub(from_end);
    put_short(out, jump as u32)?;
    put_one(out, unit)?;
    Ok(())
}

/// Writes an entry of a row in front of the others: its unit, and the value of the key that ends
/// there.
pub(crate) fn write_value(out: &mut Vec<u16>, unit: u16, value: i32) -> Result<(), AllocError>
    ensures part { OnOk result ((n : ℕ) (us : List ℕ) (m : UnitMap) → 1 < n
        → n ≤ max_branch_linear_sub_node_length
        → PartAt (reverse out.old.items) 0 (n - 1) us m
        → PartAt (reverse out.new.items) 0 n (unit ∷ us) ((unit ∷ [], value) ∷ m)) }
    ensures grew { OnOk result (Grew 4 (reverse out.old.items) (reverse out.new.items)) }
{
    put_final(out, value.cast_unsigned())?;
    put_one(out, unit)?;
    Ok(())
}

/// Writes a split in front of the part with the upper entries: a split unit, and a delta to the
/// part with the lower ones. The lower part is `from_end` units before the end.
pub(crate) fn write_split(out: &mut Vec<u16>, unit: u16, from_end: usize) -> Result<(), AllocError>
    requires { length out.old.items < 2 ^ 32 }
    ensures part { OnOk result ((n : ℕ) (us1 us2 : List ℕ) (m1 m2 : UnitMap)
        → max_branch_linear_sub_node_length < n
        → PartAt (reverse out.old.items) (length out.old.items - from_end) (n / 2) us1 m1
        → PartAt (reverse out.old.items) 0 (n - n / 2) us2 m2 → Below unit us1 → From unit us2
        → PartAt (reverse out.new.items) 0 n (us1 ++ us2) (m1 ++ m2)) }
    ensures grew { OnOk result (Grew 4 (reverse out.old.items) (reverse out.new.items)) }
{
    let delta = out.len().saturating_sub(from_end);
    put_delta(out, delta as u32)?;
    put_one(out, unit)?;
    Ok(())
}

/// Writes the lead of a match node with these low six bits, and the value of the empty key, if
/// there is one.
fn write_lead(out: &mut Vec<u16>, low: u16, value: Option<i32>) -> Result<(), AllocError>
    requires { low < min_value_lead }
    ensures node { OnOk result ((m : UnitMap) → Matches (reverse out.old.items) 0 low m
        → Holds (reverse out.new.items) 0 (own_entry value ++ m)) }
    ensures grew { OnOk result
        (Grew (lead_cost value) (reverse out.old.items) (reverse out.new.items)) }
{
    match value {
        Some(value) => put_value(out, value.cast_unsigned(), low)?,
        None => put_one(out, low)?,
    }
    Ok(())
}

/// Writes the length of a branch in front of its part, if it needs a unit of its own. Returns the
/// low six bits of the lead.
fn write_length(out: &mut Vec<u16>, count: usize) -> Result<u16, AllocError>
    requires some { 2 ≤ count }
    requires few { count ≤ 2 ^ 16 }
    ensures low { IfOk result (λ low. low < min_value_lead) }
    ensures node { IfOk result (λ low. (us : List ℕ) (m : UnitMap)
        → PartAt (reverse out.old.items) 0 count us m → Ascends us
        → Matches (reverse out.new.items) 0 low m) }
    ensures grew { OnOk result (Grew 1 (reverse out.old.items) (reverse out.new.items)) }
{
    if count <= MIN_LINEAR_MATCH as usize {
        return Ok((count - 1) as u16);
    }
    put_one(out, (count - 1) as u16)?;
    Ok(0)
}

/// Writes the beginning of a branch with `count` entries, in front of its part: its lead, the value
/// of the empty key, if there is one, and its length.
pub(crate) fn write_branch(
    out: &mut Vec<u16>,
    count: usize,
    value: Option<i32>,
) -> Result<(), AllocError>
    requires some { 2 ≤ count }
    requires few { count ≤ 2 ^ 16 }
    ensures node { OnOk result ((us : List ℕ) (m : UnitMap)
        → PartAt (reverse out.old.items) 0 count us m → Ascends us
        → Holds (reverse out.new.items) 0 (own_entry value ++ m)) }
    ensures grew { OnOk result
        (Grew (lead_cost value + 1) (reverse out.old.items) (reverse out.new.items)) }
{
    let low = write_length(out, count)?;
    write_lead(out, low, value)?;
    Ok(())
}

/// Writes a linear match in front of its node, and the value of the empty key, if there is one.
pub(crate) fn write_run(
    out: &mut Vec<u16>,
    units: &[u16],
    value: Option<i32>,
) -> Result<(), AllocError>
    requires some { 0 < length units.now }
    requires few { length units.now ≤ max_linear_match_length }
    ensures node { OnOk result ((m : UnitMap) → Holds (reverse out.old.items) 0 m
        → Holds (reverse out.new.items) 0 (own_entry value ++ under units.now m)) }
    ensures grew { OnOk result
        (Grew (lead_cost value + length units.now) (reverse out.old.items)
        (reverse out.new.items)) }
{
    put_all(out, units)?;
    write_lead(out, MIN_LINEAR_MATCH - 1 + units.len() as u16, value)?;
    Ok(())
}

/// Writes the node of a single entry whose key has these units: linear matches, and the value after
/// them.
pub(crate) fn write_tail(out: &mut Vec<u16>, units: &[u16], value: i32) -> Result<(), AllocError>
    ensures node { OnOk result (Holds (reverse out.new.items) 0 ((units.now, value) ∷ [])) }
    ensures grew { OnOk result
        (Grew (3 + 2 * length units.now) (reverse out.old.items) (reverse out.new.items)) }
{
    write_final(out, value)?;
    let mut left = units.len();
    while left > 0 {
        let start = left.saturating_sub(MAX_LINEAR_MATCH_LENGTH as usize);
        write_run(out, &units[start..left], None)?;
        left = start;
    }
    Ok(())
}
