//! Encodes the numbers of a trie as units. They are written from the end of the trie to its front:
//! a unit that is pushed later comes earlier.
ghost use Rattle.std.specs.Prelude.{◌≡◌, ℕ, ◌+◌, ◌-◌, ◌*◌, ◌/◌, ◌%◌, ◌^◌, ◌<◌, ◌≤◌, List, [], ◌∷◌, ◌++◌, length, reverse, OnOk, IfOk};
ghost use Rattle.icu_char16trie.specs.Constants.{min_value_lead};
ghost use Rattle.icu_char16trie_builder.specs.Inside.Encoding.{lead_by, tail_by, short_units, delta_units, node_units, final_units};

use icu_char16trie::impl_const::{
    MIN_TWO_UNIT_DELTA_LEAD, MIN_TWO_UNIT_NODE_LEAD, MIN_TWO_UNIT_VALUE_LEAD, MIN_VALUE_LEAD,
    THREE_UNIT_DELTA_LEAD, THREE_UNIT_NODE_LEAD, THREE_UNIT_VALUE_LEAD, VALUE_IS_FINAL,
};
use std::alloc::AllocError;

/// Writes one unit in front of the others.
pub(crate) fn put_one(out: &mut Vec<u16>, first: u16) -> Result<(), AllocError>
    ensures { OnOk result (reverse out.new.items ≡ first ∷ reverse out.old.items) }
{
    out.push(first)?;
    Ok(())
}

/// Writes the units that follow a number's lead, and returns the lead. A number below `two` is its
/// own lead. If its high half is below `three - two`, the lead is `two` plus the high half.
/// Otherwise the lead is `three`.
#[tactic(auto, unfolding(crate::specs::Inside::Encoding::lead_by, crate::specs::Inside::Encoding::tail_by))]
fn put_tail(out: &mut Vec<u16>, number: u32, two: u16, three: u16) -> Result<u16, AllocError>
    requires { two < three }
    ensures lead { IfOk result (λ lead. lead ≡ lead_by two three number) }
    ensures within { IfOk result (λ lead. lead ≤ three) }
    ensures tail { OnOk result
        (reverse out.new.items ≡ tail_by two three number ++ reverse out.old.items) }
{
    if number < u32::from(two) {
        return Ok(number as u16);
    }
    let high = (number >> 16) as u16;
    out.push((number & 0xffff) as u16)?;
    if number < u32::from(three - two) * 0x10000 {
        return Ok(two + high);
    }
    out.push(high)?;
    Ok(three)
}

/// Writes the jump of an entry: one unit below 0x4000, two below 0x3FFF_0000, and otherwise three.
pub(crate) fn put_short(out: &mut Vec<u16>, number: u32) -> Result<(), AllocError>
    ensures { OnOk result (reverse out.new.items ≡ short_units number ++ reverse out.old.items) }
{
    let lead = put_tail(out, number, MIN_TWO_UNIT_VALUE_LEAD, THREE_UNIT_VALUE_LEAD)?;
    put_one(out, lead)
}

/// Writes a final value: one unit below 0x4000, two below 0x3FFF_0000, and otherwise three.
pub(crate) fn put_final(out: &mut Vec<u16>, number: u32) -> Result<(), AllocError>
    ensures { OnOk result (reverse out.new.items ≡ final_units number ++ reverse out.old.items) }
{
    let lead = put_tail(out, number, MIN_TWO_UNIT_VALUE_LEAD, THREE_UNIT_VALUE_LEAD)?;
    put_one(out, VALUE_IS_FINAL + lead)
}

/// Writes the lead of a match node with these low six bits and a value: one unit below 0x100, two
/// below 0xFE_0000, and otherwise three.
pub(crate) fn put_value(out: &mut Vec<u16>, number: u32, low: u16) -> Result<(), AllocError>
    requires { low < min_value_lead }
    ensures { OnOk result (reverse out.new.items ≡ node_units number low ++ reverse out.old.items) }
{
    let lead = put_tail(out, number, MIN_TWO_UNIT_NODE_LEAD, THREE_UNIT_NODE_LEAD)?;
    put_one(out, (lead + 1) * MIN_VALUE_LEAD + low)
}

/// Writes the delta of a split: one unit below 0xFC00, two below 0x03FF_0000, and otherwise three.
pub(crate) fn put_delta(out: &mut Vec<u16>, number: u32) -> Result<(), AllocError>
    ensures { OnOk result (reverse out.new.items ≡ delta_units number ++ reverse out.old.items) }
{
    let lead = put_tail(out, number, MIN_TWO_UNIT_DELTA_LEAD, THREE_UNIT_DELTA_LEAD)?;
    put_one(out, lead)
}

/// Writes units in front of the others.
pub(crate) fn put_all(out: &mut Vec<u16>, units: &[u16]) -> Result<(), AllocError>
    ensures { OnOk result (reverse out.new.items ≡ units.now ++ reverse out.old.items) }
{
    let mut left = units.len();
    while left > 0 {
        left -= 1;
        put_one(out, units[left])?;
    }
    Ok(())
}
