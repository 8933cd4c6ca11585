//! The work on packed bytes. A cell is the `WIDTH` bytes of one value.
ghost use Rattle.std.specs.Prelude.{◌≡◌, ◌+◌, ◌*◌, ◌/◌, ◌^◌, ◌<◌, ◌≤◌, List, [], ◌∷◌, length, slice_get, OnOk, IfErr, IfOk, IfSome, MatchOption, Some, None, IsTrue, fold, false, take, nat_lt, if◌then◌else◌};
ghost use Rattle.std.specs.Bool.{MatchBool};
ghost use Rattle.std.specs.Iterator.{Drains, IsFinite};
ghost use Rattle.std.specs.List.{All, flat_map};
ghost use Rattle.std.specs.Cmp.Lexicographic.{pointwise};
ghost use Rattle.std.specs.Hash as fed;
ghost use Rattle.icu_zerovec.specs.Cells.{cell, values_of, IsPacked, IsFault, same_bytes, one_write};

use crate::raw::{cell_at, cell_below, cell_known, likely_cell_below};
use crate::ule::{AsULE, UleError};
use std::alloc::{AllocError, Global};
use std::hash::Hasher;

/// Returns the number of whole cells.
#[inline(always)]
pub(crate) fn count<T: AsULE>(bytes: &[u8]) -> usize
    ensures count { result ≡ length bytes.now / T.WIDTH }
    ensures bound { result * T.WIDTH < 2 ^ 63 }
{
    bytes.len() / T::WIDTH
}

/// Returns the number of values in packed bytes.
#[inline(always)]
pub(crate) fn len<T: AsULE>(bytes: &[u8]) -> usize
    requires { IsPacked T.unpack T.WIDTH bytes.now }
    ensures len { result ≡ length (values_of T.unpack T.WIDTH bytes.now) }
    ensures bound { result * T.WIDTH < 2 ^ 63 }
{
    count::<T>(bytes)
}

/// Returns the value of the cell at index `i`, or `None` if the cell is not a value.
#[inline(always)]
pub(crate) fn read<T: AsULE>(bytes: &[u8], i: usize) -> Option<T>
    requires { i < length bytes.now / T.WIDTH }
    ensures { result ≡ T.unpack (cell T.WIDTH bytes.now i) }
{
    T::from_unaligned(cell_at(bytes, T::WIDTH, i))
}

/// Returns the value at index `i` of packed bytes, or `None` if `i` is not less than the length.
#[inline(always)]
pub(crate) fn get<T: AsULE>(bytes: &[u8], i: usize) -> Option<T>
    requires { IsPacked T.unpack T.WIDTH bytes.now }
    ensures { result ≡ slice_get (values_of T.unpack T.WIDTH bytes.now) i }
{
    if i < count::<T>(bytes) {
        read(bytes, i)
    } else {
        None
    }
}

/// Returns the value at index `i` of packed bytes if `i` is less than `end`, which is at most the
/// length, and otherwise `None`.
#[inline(always)]
pub(crate) fn get_below<T: AsULE>(bytes: &[u8], end: usize, i: usize) -> Option<T>
    requires packed { IsPacked T.unpack T.WIDTH bytes.now }
    requires within { end ≤ length (values_of T.unpack T.WIDTH bytes.now) }
    ensures { result ≡ (if nat_lt i end then slice_get (values_of T.unpack T.WIDTH bytes.now) i else None) }
{
    match cell_below(bytes, T::WIDTH, end, i) {
        Some(cell) => T::from_unaligned(cell),
        None => None,
    }
}

/// Returns what [`get_below`] returns, for an index that is usually less than `end`.
#[inline(always)]
pub(crate) fn get_likely_below<T: AsULE>(bytes: &[u8], end: usize, i: usize) -> Option<T>
    requires packed { IsPacked T.unpack T.WIDTH bytes.now }
    requires within { end ≤ length (values_of T.unpack T.WIDTH bytes.now) }
    ensures { result ≡ (if nat_lt i end then slice_get (values_of T.unpack T.WIDTH bytes.now) i else None) }
{
    match likely_cell_below(bytes, T::WIDTH, end, i) {
        Some(cell) => T::from_unaligned(cell),
        None => None,
    }
}

/// Returns the value at index `i` of packed bytes, or `None` if `i` is not less than the length. If
/// `is_inside` is true, `i` must be less.
#[inline(always)]
pub(crate) fn get_known<T: AsULE>(bytes: &[u8], i: usize, is_inside: bool) -> Option<T>
    requires packed { IsPacked T.unpack T.WIDTH bytes.now }
    requires inside { IsTrue is_inside → i < length (values_of T.unpack T.WIDTH bytes.now) }
    ensures { result ≡ slice_get (values_of T.unpack T.WIDTH bytes.now) i }
{
    match cell_known(bytes, T::WIDTH, i, is_inside) {
        Some(cell) => T::from_unaligned(cell),
        None => None,
    }
}

/// Returns the packed bytes of the first `end` values.
#[inline(always)]
pub(crate) fn prefix<T: AsULE>(bytes: &[u8], end: usize) -> &[u8]
    requires packed { IsPacked T.unpack T.WIDTH bytes.now }
    requires within { end ≤ length (values_of T.unpack T.WIDTH bytes.now) }
    ensures packed { IsPacked T.unpack T.WIDTH result.now }
    ensures values { values_of T.unpack T.WIDTH result.now
        ≡ take end (values_of T.unpack T.WIDTH bytes.now) }
{
    &bytes[..end * T::WIDTH]
}

/// Checks that bytes are packed values. The error is the length if it is not a multiple of the
/// width, and otherwise the first cell that is not a value.
pub(crate) fn test<T: AsULE>(bytes: &[u8]) -> Result<(), UleError>
    ensures ok { OnOk result (IsPacked T.unpack T.WIDTH bytes.now) }
    ensures err { IfErr result (IsFault T.unpack T.WIDTH bytes.now) }
{
    if bytes.len() % T::WIDTH != 0 {
        return Err(UleError::Length);
    }
    for i in 0..count::<T>(bytes) {
        if read::<T>(bytes, i).is_none() {
            return Err(UleError::Cell(i));
        }
    }
    Ok(())
}

/// Packs the values that an iterator yields. Allocates once if the iterator knows how many values
/// it has.
pub(crate) fn pack<T: AsULE, I: Iterator<Item = T> + Drop>(
    alloc: Global,
    values: I,
) -> Result<Vec<u8>, AllocError>
    requires can { I.can_next values }
    requires finite { IsFinite (I.remaining values) }
    ensures { IfOk result (λ v. (xs : List T) × Drains I.next_gives values xs × All T.is_value xs
        × (v.items ≡ flat_map T.pack xs)) }
{
    let least = values.size_hint().0;
    let mut bytes = Vec::with_capacity(alloc, least.saturating_mul(T::WIDTH))?;
    for value in values {
        value.shown();
        let cell = value.to_unaligned();
        bytes.extend_from_slice(&cell[..T::WIDTH])?;
    }
    Ok(bytes)
}

/// Returns the first value of packed bytes and the bytes of the others, or `None` if there are no
/// bytes.
#[inline(always)]
pub(crate) fn split_first<T: AsULE>(bytes: &[u8]) -> Option<(T, &[u8])>
    requires { IsPacked T.unpack T.WIDTH bytes.now }
    ensures rest { IfSome result (λ p. IsPacked T.unpack T.WIDTH p.1.now) }
    ensures first { MatchOption result (values_of T.unpack T.WIDTH bytes.now ≡ [])
        (λ p. values_of T.unpack T.WIDTH bytes.now ≡ p.0 ∷ values_of T.unpack T.WIDTH p.1.now) }
{
    if bytes.is_empty() {
        return None;
    }
    // One test ends a loop over the cells, so the compiler vectorises it.
    let (first, others) = bytes.split_at_checked(T::WIDTH)?;
    let value = T::from_unaligned(first)?;
    Some((value, others))
}

/// Returns the value at index `i` of packed bytes. The contract requires that `i` is less than the
/// length, so no code tests it.
#[inline(always)]
pub(crate) fn at<T: AsULE>(bytes: &[u8], i: usize) -> T
    requires packed { IsPacked T.unpack T.WIDTH bytes.now }
    requires within { i < length (values_of T.unpack T.WIDTH bytes.now) }
    ensures { slice_get (values_of T.unpack T.WIDTH bytes.now) i ≡ Some result }
{
    match read(bytes, i) {
        Some(value) => value,
        None => unreachable!(),
    }
}

/// Returns true if two values have the same bytes.
fn alike<T: AsULE>(x: T, y: T) -> bool
    ensures { MatchBool result (x ≡ y) (same_bytes T.pack x y ≡ false) }
{
    x.shown();
    y.shown();
    x.to_unaligned() == y.to_unaligned()
}

/// Returns how many bytes to compare next. Comparing a block of bytes is fast; only a block that
/// differs is compared value by value.
fn block(left: usize) -> usize
    requires { 0 < left }
    ensures some { 0 < result }
    ensures within { result ≤ left }
{
    if left < 1024 { left } else { 1024 }
}

/// Returns how many bytes at the start are equal, in whole blocks. If all bytes are equal, returns
/// their number.
fn same_blocks(a: &[u8], b: &[u8]) -> usize
    requires { length a.now ≡ length b.now }
    ensures { take result a.now ≡ take result b.now }
{
    let mut at = 0;
    while at < a.len() {
        let step = block(a.len() - at);
        if a[at..at + step] != b[at..at + step] {
            return at;
        }
        at += step;
    }
    at
}

/// Returns true if two lists of values are equal. Compares bytes, and values only from the first
/// block of bytes that differs.
pub(crate) fn same<T: AsULE>(a: &[u8], b: &[u8]) -> bool
    requires a_packed { IsPacked T.unpack T.WIDTH a.now }
    requires b_packed { IsPacked T.unpack T.WIDTH b.now }
    ensures { MatchBool result (values_of T.unpack T.WIDTH a.now ≡ values_of T.unpack T.WIDTH b.now)
        (pointwise (same_bytes T.pack) (values_of T.unpack T.WIDTH a.now)
        (values_of T.unpack T.WIDTH b.now) ≡ false) }
{
    let len = len::<T>(a);
    if len != self::len::<T>(b) {
        return false;
    }
    for i in same_blocks(a, b) / T::WIDTH..len {
        if !alike(at::<T>(a, i), at::<T>(b, i)) {
            return false;
        }
    }
    true
}

/// Feeds the bytes of a value to a hasher.
fn feed_one<T: AsULE, H: Hasher>(value: T, state: &mut H)
    ensures { state.new ≡ H.write state.old (T.pack value) }
{
    value.shown();
    let cell = value.to_unaligned();
    state.write(&cell[..T::WIDTH]);
}

/// Feeds the number of values and the bytes of each value to a hasher.
pub(crate) fn feed<T: AsULE, H: Hasher>(bytes: &[u8], state: &mut H)
    requires { IsPacked T.unpack T.WIDTH bytes.now }
    ensures { state.new
        ≡ fold H.write state.old
        (fed.slice (one_write T.pack) (values_of T.unpack T.WIDTH bytes.now)) }
{
    let len = len::<T>(bytes);
    state.write_usize(len);
    for i in 0..len {
        feed_one(at::<T>(bytes, i), state);
    }
}
