//! Numbers encoded in the units of a trie.
ghost use Rattle.icu_zerovec.specs.Slice.{slice_values};
ghost use Rattle.std.specs.Prelude.{◌≡◌, ℕ, ◌+◌, ◌*◌, ◌^◌, ◌<◌, ◌≤◌, nat_lt, if◌then◌else◌, slice_get, length, bit_and, Some, None, IfSome, MatchOption};
ghost use Rattle.icu_char16trie.specs.Constants.{min_linear_match, min_value_lead, run_len};
ghost use Rattle.icu_char16trie.specs.Numbers.{number_by, end_by, short_number, short_end, node_number, node_end, delta_number, delta_end, low_half, both_halves, entry_child, lower_part};

use crate::impl_const::{
    MIN_LINEAR_MATCH, MIN_TWO_UNIT_DELTA_LEAD, MIN_TWO_UNIT_NODE_LEAD, MIN_TWO_UNIT_VALUE_LEAD,
    THREE_UNIT_DELTA_LEAD, THREE_UNIT_NODE_LEAD, THREE_UNIT_VALUE_LEAD, VALUE_IS_FINAL,
};
use icu_zerovec::ZeroSlice;

/// Returns the unit at an index, or `None` at or past the end.
#[inline(always)]
pub(crate) fn unit_at(units: ZeroSlice<'_, u16>, place: usize) -> Option<u16>
    ensures unit { result ≡ slice_get (slice_values units.entry) place }
    ensures within { IfSome result
        (λ _. (place < 2 ^ 62) × (place < length (slice_values units.entry))) }
{
    // A packed vector has fewer than 2^63 bytes, so adding to an index that was read never wraps.
    prove!(units.len() < 1 << 62);
    // One read of both bytes, also if only bits of the low one are used.
    let cells = units.as_bytes().as_chunks::<2>().0;
    Some(u16::from_le_bytes(*cells.get(place)?))
}

/// Returns the units at an index and at the one after it, with a single bounds check. `None` if
/// either is missing.
#[inline(always)]
pub(crate) fn two_at(units: ZeroSlice<'_, u16>, place: usize) -> Option<(u16, u16)>
    requires { place < 2 ^ 63 }
    ensures two { MatchOption result
        (slice_get (slice_values units.entry) (place + 1) ≡ None)
        (λ two. (slice_get (slice_values units.entry) place ≡ Some two.0)
        × (slice_get (slice_values units.entry) (place + 1) ≡ Some two.1)) }
    ensures within { IfSome result (λ _. place + 1 < 2 ^ 62) }
{
    let second = unit_at(units, place + 1)?;
    Some((units.at(place), second))
}

/// Returns the number with these two halves.
pub(crate) fn from_halves(high: u16, low: u16) -> u32
    ensures { result ≡ high * 0x10000 + low }
{
    (u32::from(high) << 16) | u32::from(low)
}

/// Returns the number with this high half, whose low half is at `place`.
fn low_half(units: ZeroSlice<'_, u16>, place: usize, high: u16) -> Option<u32>
    ensures { result ≡ low_half (slice_values units.entry) place high }
{
    let low = unit_at(units, place)?;
    Some(from_halves(high, low))
}

/// Returns the number in the two units at `place`, the high half first.
fn both_halves(units: ZeroSlice<'_, u16>, place: usize) -> Option<u32>
    ensures { result ≡ both_halves (slice_values units.entry) place }
{
    let high = unit_at(units, place)?;
    low_half(units, place + 1, high)
}

/// Returns the number with this lead. A lead below `two` is the number itself. A lead from there to
/// below `three` is `two` plus the high half. For any other lead both halves are at `place`.
#[inline(always)]
#[tactic(auto, unfolding(crate::specs::Numbers::number_by))]
fn number_by(
    units: ZeroSlice<'_, u16>,
    place: usize,
    lead: u16,
    two: u16,
    three: u16,
) -> Option<u32>
    ensures { result ≡ number_by two three (slice_values units.entry) place lead }
{
    if lead < two {
        Some(u32::from(lead))
    } else if lead < three {
        low_half(units, place, lead - two)
    } else {
        both_halves(units, place)
    }
}

/// Returns the index after a number that has more units than its lead. It is not inlined: nearly
/// all numbers are their leads, so a search that skips many of them can read ahead before it has
/// seen their values.
#[cold]
#[inline(never)]
fn far_end(place: usize, lead: u16, three: u16) -> usize
    requires { place < 2 ^ 63 }
    ensures { result ≡ (if nat_lt lead three then place + 1 else place + 2) }
{
    if lead < three { place + 1 } else { place + 2 }
}

/// Returns the index after a number with this lead.
#[inline(always)]
#[tactic(auto, unfolding(crate::specs::Numbers::end_by))]
fn end_by(place: usize, lead: u16, two: u16, three: u16) -> usize
    requires { place < 2 ^ 63 }
    ensures end { result ≡ end_by two three place lead }
    ensures near { result ≤ place + 2 }
    ensures above { place ≤ result }
{
    if lead < two {
        place
    } else {
        far_end(place, lead, three)
    }
}

/// Returns the number of units in a linear match with these low six bits.
#[inline(always)]
pub(crate) fn run_len(low: u16) -> usize
    requires { min_linear_match ≤ low }
    ensures { result ≡ run_len low }
{
    usize::from(low) - (MIN_LINEAR_MATCH as usize - 1)
}

/// Returns the number of a final value or a jump. `low_bits` is the low 15 bits of the unit before
/// `place`.
pub(crate) fn short_number(units: ZeroSlice<'_, u16>, place: usize, low_bits: u16) -> Option<u32>
    ensures { result ≡ short_number (slice_values units.entry) place low_bits }
{
    number_by(
        units,
        place,
        low_bits,
        MIN_TWO_UNIT_VALUE_LEAD,
        THREE_UNIT_VALUE_LEAD,
    )
}

/// Returns the index after the number of a final value or a jump.
pub(crate) fn short_end(place: usize, low_bits: u16) -> usize
    requires { place < 2 ^ 63 }
    ensures end { result ≡ short_end place low_bits }
    ensures near { result ≤ place + 2 }
    ensures above { place ≤ result }
{
    end_by(
        place,
        low_bits,
        MIN_TWO_UNIT_VALUE_LEAD,
        THREE_UNIT_VALUE_LEAD,
    )
}

/// Returns the number of an intermediate value. Its lead unit is before `place`.
pub(crate) fn node_number(units: ZeroSlice<'_, u16>, place: usize, lead: u16) -> Option<u32>
    requires lead { min_value_lead ≤ lead }
    ensures { result ≡ node_number (slice_values units.entry) place lead }
{
    number_by(
        units,
        place,
        (lead >> 6) - 1,
        MIN_TWO_UNIT_NODE_LEAD,
        THREE_UNIT_NODE_LEAD,
    )
}

/// Returns the index after an intermediate value, or `place` itself if the lead unit has no value.
pub(crate) fn node_end(place: usize, lead: u16) -> usize
    requires { place < 2 ^ 63 }
    ensures end { result ≡ node_end place lead }
    ensures near { result ≤ place + 2 }
    ensures above { place ≤ result }
{
    end_by(
        place,
        (lead >> 6).saturating_sub(1),
        MIN_TWO_UNIT_NODE_LEAD,
        THREE_UNIT_NODE_LEAD,
    )
}

/// Returns the delta of a split. `delta` is the unit before `place`.
pub(crate) fn delta_number(units: ZeroSlice<'_, u16>, place: usize, delta: u16) -> Option<u32>
    ensures { result ≡ delta_number (slice_values units.entry) place delta }
{
    number_by(
        units,
        place,
        delta,
        MIN_TWO_UNIT_DELTA_LEAD,
        THREE_UNIT_DELTA_LEAD,
    )
}

/// Returns the index after the delta of a split.
pub(crate) fn delta_end(place: usize, delta: u16) -> usize
    requires { place < 2 ^ 63 }
    ensures end { result ≡ delta_end place delta }
    ensures near { result ≤ place + 2 }
    ensures above { place ≤ result }
{
    end_by(place, delta, MIN_TWO_UNIT_DELTA_LEAD, THREE_UNIT_DELTA_LEAD)
}

/// Returns the index of the node of an entry whose value unit is before `place`.
#[tactic(auto, unfolding(crate::specs::Numbers::entry_child))]
pub(crate) fn entry_child(units: ZeroSlice<'_, u16>, place: usize, value: u16) -> Option<usize>
    requires positive { 0 < place }
    requires far { place < 2 ^ 63 }
    ensures child { result ≡ entry_child (slice_values units.entry) place value }
    ensures near { IfSome result (λ child. child < place + 2 ^ 33) }
    ensures above { IfSome result (λ child. place ≤ child + 1) }
{
    if value < VALUE_IS_FINAL {
        let jump = short_number(units, place, value)?;
        Some(short_end(place, value) + jump as usize)
    } else {
        Some(place - 1)
    }
}

/// Returns the index of the part with the lower entries of a branch. `delta` is the unit before
/// `place`.
#[tactic(auto, unfolding(crate::specs::Numbers::lower_part))]
pub(crate) fn lower_part(units: ZeroSlice<'_, u16>, place: usize, delta: u16) -> Option<usize>
    requires { place < 2 ^ 63 }
    ensures part { result ≡ lower_part (slice_values units.entry) place delta }
    ensures near { IfSome result (λ part. part < place + 2 ^ 33) }
    ensures above { IfSome result (λ part. place ≤ part) }
{
    let number = delta_number(units, place, delta)?;
    Some(delta_end(place, delta) + number as usize)
}
