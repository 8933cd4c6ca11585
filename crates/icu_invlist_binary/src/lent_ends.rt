//! The boundaries in serialized units, read in place.
ghost use Rattle.std.specs.Prelude.{◌≡◌, ◌<◌, ◌≤◌, ◌^◌, ◌↔◌, IsTrue, length, slice_index, Ok, Err, IfOk, MatchResult};
ghost use Rattle.icu_invlist.specs.InversionList.{IsValid};
ghost use Rattle.icu_invlist_binary.specs.SerializedSet.{closed, ends_in, ends_length, head_length, serialized_length, singles_length, units_of_ends_in};
ghost use Rattle.icu_invlist_binary.specs.Inside.LentEnds.{ends_lent};

use crate::error::SerializedSetError;
use icu_zerovec::{CODE_POINT_LIMIT, MemoryError};
use std::alloc::Global;

/// Returns the unit at index `i`, or 0 if there is none.
fn unit_at(units: &[u16], i: usize) -> usize
    ensures { result ≡ slice_index units.now i }
{
    match units.get(i) {
        Some(unit) => *unit as usize,
        None => 0,
    }
}

/// Returns the number of units before the units of the boundaries.
fn head_length(units: &[u16]) -> usize
    ensures { result ≡ head_length units.now }
{
    if unit_at(units, 0) >= 0x8000 { 2 } else { 1 }
}

/// Returns the number of units that the boundaries take.
fn ends_length(units: &[u16]) -> usize
    ensures { result ≡ ends_length units.now }
{
    unit_at(units, 0) % 0x8000
}

/// Returns the number of boundaries that take one unit.
fn singles_length(units: &[u16]) -> usize
    ensures { result ≡ singles_length units.now }
{
    if unit_at(units, 0) >= 0x8000 {
        unit_at(units, 1)
    } else {
        ends_length(units)
    }
}

/// Returns the number of units that the whole set takes.
pub(crate) fn serialized_length(units: &[u16]) -> usize
    ensures { result ≡ serialized_length units.now }
{
    head_length(units) + ends_length(units)
}

/// Returns the units of the boundaries.
fn units_of_ends(units: &[u16]) -> Result<&[u16], SerializedSetError>
    ensures { MatchResult result (λ s. units_of_ends_in units.now ≡ Ok s.now)
        (λ e. units_of_ends_in units.now ≡ Err e) }
{
    let len = serialized_length(units);
    if units.len() < len {
        return Err(SerializedSetError::Short);
    }
    let ends = &units[head_length(units)..];
    Ok(&ends[..ends_length(units)])
}

/// The boundaries of a set in serialized units: those of one unit, and those of two.
#[derive(Clone, Copy, Debug)]
pub(crate) struct LentEnds<'a> {
    pub(crate) singles: &'a [u16],
    pub(crate) pairs: &'a [u16],
}

/// Returns the boundaries in the units.
#[tactic(auto, unfolding(crate::specs::SerializedSet::ends_in))]
pub(crate) fn lent_ends(units: &[u16]) -> Result<LentEnds<'_>, SerializedSetError>
    ensures says { MatchResult result (λ s. ends_in units.now ≡ Ok (closed (ends_lent s)))
        (λ e. ends_in units.now ≡ Err e) }
    ensures within { IfOk result (λ _. serialized_length units.now ≤ length units.now) }
{
    let ends = units_of_ends(units)?;
    let singles = singles_length(units);
    if ends.len() < singles || (ends.len() - singles) % 2 == 1 {
        return Err(SerializedSetError::Count);
    }
    Ok(LentEnds {
        singles: &ends[..singles],
        pairs: &ends[singles..],
    })
}

impl<'a> LentEnds<'a> {
    /// Returns the number of boundaries.
    fn count(&self) -> usize
        ensures count { result ≡ length (ends_lent self.now) }
        ensures bound { result < 2 ^ 63 }
    {
        self.singles.len() + self.pairs.len() / 2
    }

    /// Returns the boundary at index `i`, counted from 0.
    fn end_at(&self, i: usize) -> u32
        requires { i < length (ends_lent self.now) }
        ensures { result ≡ slice_index (ends_lent self.now) i }
    {
        let singles = self.singles.len();
        if i < singles {
            return u32::from(self.singles[i]);
        }
        let pair = 2 * (i - singles);
        u32::from(self.pairs[pair]) * 0x1_0000 + u32::from(self.pairs[pair + 1])
    }

    /// Returns true if the boundaries are an inversion list, with 0x110000 appended if their number
    /// is odd.
    pub(crate) fn is_valid(&self) -> bool
        ensures { IsTrue result ↔ IsValid (closed (ends_lent self.now)) }
    {
        let count = self.count();
        let mut next = 0;
        for i in 0..count {
            let end = self.end_at(i);
            if end < next || end > CODE_POINT_LIMIT {
                return false;
            }
            next = end + 1;
        }
        count.is_multiple_of(2) || next <= CODE_POINT_LIMIT
    }

    /// Returns a copy of the boundaries, with 0x110000 appended if their number is odd.
    pub(crate) fn copied(&self, alloc: Global) -> Result<Vec<u32>, MemoryError>
        ensures { IfOk result (λ v. v.items ≡ closed (ends_lent self.now)) }
    {
        let count = self.count();
        let mut ends = Vec::with_capacity(alloc, count + count % 2)?;
        for i in 0..count {
            ends.push_reserved(self.end_at(i));
        }
        if count % 2 == 1 {
            ends.push_reserved(CODE_POINT_LIMIT);
        }
        Ok(ends)
    }
}
