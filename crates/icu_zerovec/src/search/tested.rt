//! The search by std's partition point of chunks, which rustc optimizes well.
ghost use Rattle.std.specs.Prelude.{◌≡◌, length};
ghost use Rattle.std.specs.List.Sorted.{IsSearchInRange, IsBinarySearchResult};
ghost use Rattle.std.specs.Ordering.{is_lt};
ghost use Rattle.icu_zerovec.specs.Cells.{values_of, IsPacked};
ghost use Rattle.icu_zerovec.specs.CellOrder.{cell_order};

use crate::ule::AsULE;
use std::cmp::Ordering;

/// Compares the value of a cell with `x`. The width is a constant, so rustc leaves no test of it.
#[inline(always)]
fn order_of<T: AsULE + Ord>(cell: &[u8], x: &T) -> Ordering
    ensures { result ≡ cell_order T.unpack T.WIDTH (λ y. T.cmp y x.now) cell.now }
{
    if cell.len() != T::WIDTH {
        return Ordering::Greater;
    }
    match T::from_unaligned(cell) {
        Some(value) => value.cmp(x),
        None => Ordering::Greater,
    }
}

/// Searches ascending cells by std's partition point.
///
/// Both results have the same index, so rustc needs no jump on equality. `binary_search_by` ends with
/// one, which processors often predict wrongly.
#[inline(always)]
fn search_chunks<const WIDTH: usize, T: AsULE + Ord>(bytes: &[u8], x: &T) -> Result<usize, usize>
    requires width { WIDTH ≡ T.WIDTH }
    requires packed { IsPacked T.unpack T.WIDTH bytes.now }
    ensures bound { IsSearchInRange result (length (values_of T.unpack T.WIDTH bytes.now)) }
    ensures position { IsBinarySearchResult (λ y. T.cmp y x.now)
        (values_of T.unpack T.WIDTH bytes.now) result }
{
    let cells = bytes.as_chunks::<WIDTH>().0;
    let low = cells.partition_point(
        |cell: &[u8; WIDTH]| -> bool
            ensures { result ≡ is_lt (cell_order T.unpack T.WIDTH (λ y. T.cmp y x.entry.now) cell.now) }
        { order_of::<T>(cell, x).is_lt() },
    );
    match cells.get(low) {
        Some(cell) if order_of::<T>(cell, x).is_eq() => Ok(low),
        _ => Err(low),
    }
}

/// Searches ascending packed bytes for `x`. Returns the index of an equal value as `Ok`, or as `Err`
/// the index at which `x` could be inserted.
pub(crate) fn binary_search<T: AsULE + Ord>(bytes: &[u8], x: &T) -> Result<usize, usize>
    requires { IsPacked T.unpack T.WIDTH bytes.now }
    ensures bound { IsSearchInRange result (length (values_of T.unpack T.WIDTH bytes.now)) }
    ensures position { IsBinarySearchResult (λ y. T.cmp y x.now)
        (values_of T.unpack T.WIDTH bytes.now) result }
{
    match T::WIDTH {
        1 => search_chunks::<1, T>(bytes, x),
        2 => search_chunks::<2, T>(bytes, x),
        3 => search_chunks::<3, T>(bytes, x),
        _ => search_chunks::<4, T>(bytes, x),
    }
}
