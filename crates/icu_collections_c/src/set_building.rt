//! Sets made from ranges, from single code points or from another set.
ghost use Rattle.std.specs.Prelude.{◌≡◌, ◌≢◌, ◌⊎◌, ◌+◌, ◌*◌, [], ◌∷◌, ◌++◌, length, not, take, drop, IfOk, OnOk};
ghost use Rattle.std.specs.List.Sorted.{IsNonDecreasingBy};
ghost use Rattle.icu_zerovec.specs.CodePoints.{code_point_limit};
ghost use Rattle.icu_invlist.specs.InversionList.{IsValid, holds, toggle_back, toggle_front};
ghost use Rattle.icu_collections_c.specs.Answers.{AnswersEnds, GivesEnds};
ghost use Rattle.icu_zerovec.specs.Buffers.{written};
ghost use Rattle.icu_collections_c.specs.Inside.Joined.{IsJoined, StartsUpTo};
ghost use Rattle.icu_collections_c.specs.SetBuilding.{HoldsExactly, in_some, is_one_of};
ghost use Rattle.icu_collections_c.specs.Status.{error_number};
ghost use Rattle.icu_collections_c.specs.declared.error.Error.TheVariants.{NoMemory, InvalidSet};

use crate::buffers::write;
use crate::error::Error;
use crate::sets::bks_set_test;
use icu_zerovec::CODE_POINT_LIMIT;
use std::alloc::{AllocError, Global};

/// The code points from `first` to `last`, both included. There are none if `first` is above
/// `last`.
#[repr(C)]
#[derive(Clone, Copy)]
pub struct Interval {
    pub first: u32,
    pub last: u32,
}

/// Adds the code points of a range to the set with these boundaries. The last range of the set
/// starts at `range.first` or before.
fn join(ends: &mut Vec<u32>, range: Interval) -> Result<(), AllocError>
    requires { StartsUpTo range.first ends.old.items }
    ensures { OnOk result (IsJoined range ends.old.items ends.new.items) }
{
    let end = range.last.min(CODE_POINT_LIMIT - 1) + 1;
    let count = ends.len();
    if range.first >= end {
        Ok(())
    } else if count > 0 && range.first <= ends[count - 1] {
        ends[count - 1] = ends[count - 1].max(end);
        Ok(())
    } else {
        ends.push(range.first)?;
        ends.push(end)?;
        Ok(())
    }
}

/// Returns the boundaries of the set of all code points in the ranges, whose first numbers ascend.
fn joined(alloc: Global, ranges: &[Interval]) -> Result<Vec<u32>, AllocError>
    requires { IsNonDecreasingBy (λ range. range.first) ranges.now }
    ensures valid { IfOk result (λ ends. IsValid ends.items) }
    ensures set { IfOk result
        (λ ends. HoldsExactly (in_some ranges.now) (2 * length ranges.now) ends.items) }
{
    let mut ends = Vec::new(alloc);
    for range in ranges {
        join(&mut ends, *range)?;
    }
    Ok(ends)
}

/// Returns the boundaries of the set of all code points in the ranges.
fn ends_of_ranges(alloc: Global, ranges: &[Interval]) -> Result<Vec<u32>, AllocError>
    ensures valid { IfOk result (λ ends. IsValid ends.items) }
    ensures set { IfOk result
        (λ ends. HoldsExactly (in_some ranges.now) (2 * length ranges.now) ends.items) }
{
    if ranges.is_sorted_by(|before, after| before.first <= after.first) {
        return joined(alloc, ranges);
    }
    let mut sorted = Vec::from_slice(alloc, ranges)?;
    sorted.sort_unstable_by_key(|range| range.first);
    joined(alloc, &sorted)
}

/// Returns the boundaries of the set of these code points.
fn ends_of_points(alloc: Global, points: &[u32]) -> Result<Vec<u32>, AllocError>
    ensures valid { IfOk result (λ ends. IsValid ends.items) }
    ensures set { IfOk result
        (λ ends. HoldsExactly (is_one_of points.now) (2 * length points.now) ends.items) }
{
    let mut sorted = Vec::from_slice(alloc, points)?;
    sorted.sort_unstable();
    let mut ends = Vec::new(alloc);
    for point in &sorted {
        let range = Interval {
            first: *point,
            last: *point,
        };
        join(&mut ends, range)?;
    }
    Ok(ends)
}

/// Writes the boundaries of the set of all code points in the ranges into a buffer, as many as fit,
/// and returns how many there are: never more than two for each range.
///
/// The ranges may be in any order, and may overlap. A range is empty if its first number is above
/// its last one. Numbers above 0x10FFFF are ignored. Takes O(n log n) time.
///
/// ICU: `uset_addRange` for each range.
///
/// # Errors
/// Returns the number of [`Error::NoMemory`] if an allocation fails. The buffer is then
/// unchanged.
#[unsafe(no_mangle)]
pub extern "C" fn bks_set_from_ranges(alloc: Global, ranges: &[Interval], ends: &mut [u32]) -> i64
    ensures { GivesEnds (HoldsExactly (in_some ranges.now) (2 * length ranges.now)) ends.old
        ends.new result }
{
    match ends_of_ranges(alloc, ranges) {
        Ok(made) => {
            write(&made, ends);
            made.len() as i64
        }
        Err(_) => Error::NoMemory.number(),
    }
}

/// Writes the boundaries of the set of these code points into a buffer, as many as fit, and returns
/// how many there are: never more than two for each point.
///
/// The points may be in any order, and may repeat. Numbers above 0x10FFFF are ignored. Takes
/// O(n log n) time.
///
/// ICU: `uset_add` for each code point.
///
/// # Errors
/// Returns the number of [`Error::NoMemory`] if an allocation fails. The buffer is then
/// unchanged.
#[unsafe(no_mangle)]
pub extern "C" fn bks_set_from_points(alloc: Global, points: &[u32], ends: &mut [u32]) -> i64
    ensures { GivesEnds (HoldsExactly (is_one_of points.now) (2 * length points.now)) ends.old
        ends.new result }
{
    match ends_of_points(alloc, points) {
        Ok(made) => {
            write(&made, ends);
            made.len() as i64
        }
        Err(_) => Error::NoMemory.number(),
    }
}

/// Adds 0 at the start of a list of boundaries, or removes it if it is there. Returns what to add,
/// and the rest.
fn front_toggled(ends: &[u32]) -> (&'static [u32], &[u32])
    ensures { result.0.now ++ result.1.now ≡ toggle_front ends.now }
{
    if !ends.is_empty() && ends[0] == 0 {
        (&[], &ends[1..])
    } else {
        (&[0], ends)
    }
}

/// Adds 0x110000 at the end of a list of boundaries, or removes it if it is there. Returns the
/// rest, and what to add.
fn back_toggled(ends: &[u32]) -> (&[u32], &'static [u32])
    requires { IsValid ends.now }
    ensures parts { result.0.now ++ result.1.now ≡ toggle_back ends.now }
    ensures back { (result.1.now ≡ []) ⊎ (result.1.now ≡ code_point_limit ∷ []) }
{
    let count = ends.len();
    if count > 0 && ends[count - 1] == CODE_POINT_LIMIT {
        (&ends[..count - 1], &[])
    } else {
        (ends, &[CODE_POINT_LIMIT])
    }
}

/// Writes the items to a buffer from index `from` on, as many as fit. The rest of the buffer is
/// unchanged.
fn write_from(items: &[u32], from: usize, buffer: &mut [u32])
    ensures { buffer.new ≡ take from buffer.old ++ written items.now (drop from buffer.old) }
{
    if from < buffer.len() {
        write(items, &mut buffer[from..]);
    }
}

/// Writes the boundaries of the complement of a set into a buffer, as many as fit, and returns how
/// many there are: never more than two more than the set has. The complement has all code points
/// that are not in the set.
///
/// ICU: `uset_complement`.
///
/// # Errors
/// Returns the number of [`Error::InvalidSet`] if the list is not the boundaries of a set
/// ([`bks_set_test`]). The buffer is then unchanged.
#[unsafe(no_mangle)]
pub extern "C" fn bks_set_complement(ends: &[u32], complement: &mut [u32]) -> i64
    ensures set { AnswersEnds (IsValid ends.now) InvalidSet
        (HoldsExactly (λ c. not (holds ends.now c)) (length ends.now + 2)) complement.old
        complement.new result }
    ensures quiet { result ≢ error_number NoMemory }
{
    if !bks_set_test(ends) {
        return Error::InvalidSet.number();
    }
    let (rest, back) = back_toggled(ends);
    let (front, middle) = front_toggled(rest);
    write(front, complement);
    write_from(middle, front.len(), complement);
    write_from(back, front.len() + middle.len(), complement);
    (front.len() + middle.len() + back.len()) as i64
}
