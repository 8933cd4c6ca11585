//! The search that takes least time if a proof takes the place of the test of an index.
ghost use Rattle.std.specs.Prelude.{◌≡◌, ◌+◌, ◌*◌, ◌^◌, ◌<◌, ◌≤◌, length};
ghost use Rattle.std.specs.List.{HoldsAt};
ghost use Rattle.std.specs.List.Sorted.{IsSearchInRange, IsBinarySearchResult};
ghost use Rattle.std.specs.Ordering.{is_le};
ghost use Rattle.icu_zerovec.specs.Cells.{values_of, IsPacked};
ghost use Rattle.icu_zerovec.specs.Inside.Searches.{IsNarrowed, IsStepCount};

use crate::cells::{at, len};
use crate::ule::AsULE;
use std::cmp::Ordering;

/// Returns true if the value at index `i` is less than or equal to `x`.
#[inline(always)]
fn is_at_most<T: AsULE + Ord>(bytes: &[u8], i: usize, x: &T) -> bool
    requires packed { IsPacked T.unpack T.WIDTH bytes.now }
    requires within { i < length (values_of T.unpack T.WIDTH bytes.now) }
    ensures { HoldsAt (λ y. is_le (T.cmp y x.now) ≡ result)
        (values_of T.unpack T.WIDTH bytes.now) i }
{
    at::<T>(bytes, i).cmp(x).is_le()
}

/// Returns how many of the values at the indices `low + step`, `low + 2 * step` and `low + 3 *
/// step` are less than or equal to `x`.
#[inline(always)]
fn count_at_most<T: AsULE + Ord>(bytes: &[u8], low: usize, step: usize, x: &T) -> usize
    requires packed { IsPacked T.unpack T.WIDTH bytes.now }
    requires within { low + 3 * step < length (values_of T.unpack T.WIDTH bytes.now) }
    requires fits { low + 3 * step < 2 ^ 64 }
    ensures { IsStepCount (λ y. T.cmp y x.now)
        (values_of T.unpack T.WIDTH bytes.now) low step result }
{
    let first = is_at_most(bytes, low + step, x);
    let second = is_at_most(bytes, low + 2 * step, x);
    let third = is_at_most(bytes, low + 3 * step, x);
    usize::from(first) + usize::from(second) + usize::from(third)
}

/// Narrows a binary search for `x` to at most three values. Returns the index of the first of them
/// and their number.
///
/// Each step leaves a quarter. It adds up comparisons, so no branch depends on a value.
#[inline(always)]
fn narrowed<T: AsULE + Ord>(bytes: &[u8], x: &T) -> (usize, usize)
    requires packed { IsPacked T.unpack T.WIDTH bytes.now }
    requires some { 0 < length (values_of T.unpack T.WIDTH bytes.now) }
    ensures some { 0 < result.1 }
    ensures within { result.0 + result.1 ≤ length (values_of T.unpack T.WIDTH bytes.now) }
    ensures left { IsNarrowed (λ y. T.cmp y x.now) (values_of T.unpack T.WIDTH bytes.now)
        result.0 (result.0 + result.1) }
{
    let mut low = 0;
    let mut size = len::<T>(bytes);
    while size > 3 {
        let step = size / 4;
        low += step * count_at_most(bytes, low, step, x);
        size -= 3 * step;
    }
    (low, size)
}

/// Searches ascending packed bytes for `x`. Returns the index of an equal value as `Ok`, or as
/// `Err` the index at which `x` could be inserted.
pub(crate) fn binary_search<T: AsULE + Ord>(bytes: &[u8], x: &T) -> Result<usize, usize>
    requires { IsPacked T.unpack T.WIDTH bytes.now }
    ensures bound { IsSearchInRange result (length (values_of T.unpack T.WIDTH bytes.now)) }
    ensures position { IsBinarySearchResult (λ y. T.cmp y x.now)
        (values_of T.unpack T.WIDTH bytes.now) result }
{
    if len::<T>(bytes) == 0 {
        return Err(0);
    }
    let (mut low, mut size) = narrowed(bytes, x);
    while size > 1 {
        low += usize::from(is_at_most(bytes, low + 1, x));
        size -= 1;
    }
    match at::<T>(bytes, low).cmp(x) {
        Ordering::Less => Err(low + 1),
        Ordering::Equal => Ok(low),
        Ordering::Greater => Err(low),
    }
}
