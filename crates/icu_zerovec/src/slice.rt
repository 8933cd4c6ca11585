//! Views of packed vectors, with the same queries.
ghost use Rattle.std.specs.Prelude.{◌≡◌, ◌-◌, ◌*◌, ◌^◌, ◌<◌, [], ◌∷◌, length, take, slice_get, Option, Some, None, IsTrue, ◌↔◌, ⊤, ◌≤◌, nat_lt, if◌then◌else◌};
ghost use Rattle.std.specs.Cmp.{on_equiv, on_per, partial_equiv_from_equiv};
ghost use Rattle.std.specs.Cmp.Lexicographic.{pointwise, lists_per, lists_equiv, nat_list_eq_equiv, bytes_decides};
ghost use Rattle.std.specs.Hash as fed;
ghost use Rattle.std.specs.Hash.{on_Alike, items_Alike, same_Alike};
ghost use Rattle.std.specs.List.Sorted.{IsSearchInRange, IsBinarySearchResult};
ghost use Rattle.std.specs.Ordering.{on};
ghost use Rattle.icu_zerovec.specs.Cells.{IsPacked, same_bytes, one_write};

use crate::iter::Iter;
use crate::ule::AsULE;
use crate::vec::ZeroVec;
use crate::{cells, search};
use std::alloc::AllocError;
use std::fmt;
use std::hash::{Hash, Hasher};
use std::marker::PhantomData;

/// A view of a packed vector, with the queries of [`ZeroVec`]. It is `Copy`, like `&[T]`.
///
/// ```
/// let numbers = ZeroVec::<u16>::parse_bytes(&[1, 0, 2, 0])?;
/// let view = numbers.as_slice();
/// // view.last() is Some(2), and view.as_zerovec() == numbers
/// ```
///
/// Two views are equal if and only if their lists of values are equal. Equal views have equal
/// hashes.
///
/// # Contract
/// In contracts, `slice_values` is the list of its values.
pub struct ZeroSlice<'a, T: AsULE> {
    bytes: &'a [u8],
    of: PhantomData<T>,
    ghost packed: { IsPacked T.unpack T.WIDTH bytes.now },
}

impl<'a, T: AsULE> Clone for ZeroSlice<'a, T> {
    ghost is_clone = { λ s r. r ≡ s };

    ghost is_infallible = { λ _. ⊤ };

    fn clone(&self) -> Result<ZeroSlice<'a, T>, AllocError> {
        Ok(*self)
    }
}

impl<'a, T: AsULE> Copy for ZeroSlice<'a, T> {}

impl<'a, T: AsULE> ZeroSlice<'a, T> {
    ghost use Rattle.icu_zerovec.specs.Slice.{slice_values};
    ghost use Rattle.icu_zerovec.specs.Cells.{values_of};
    ghost use Rattle.std.specs.List.{flat_map};
    ghost use Rattle.icu_zerovec.specs.Canonical.{IsCanonical};

    /// Returns a view of bytes that have been validated.
    #[inline]
    pub(crate) fn from_packed(bytes: &'a [u8]) -> Self
        requires { IsPacked T.unpack T.WIDTH bytes.now }
        ensures { slice_values result ≡ values_of T.unpack T.WIDTH bytes.now }
    {
        ZeroSlice {
            bytes,
            of: PhantomData,
        }
    }

    /// Returns the number of values.
    #[inline]
    pub fn len(&self) -> usize
        ensures len { result ≡ length (slice_values self.now) }
        ensures bound { length (slice_values self.now) * T.WIDTH < 2 ^ 63 }
    {
        cells::len::<T>(self.bytes)
    }

    /// Returns true if there are no values.
    #[inline]
    pub fn is_empty(&self) -> bool
        ensures { IsTrue result ↔ (slice_values self.now ≡ []) }
    {
        self.len() == 0
    }

    /// Returns the value at index `i`, counted from 0, or `None` if `i` is not less than the
    /// length.
    #[inline]
    pub fn get(&self, i: usize) -> Option<T>
        ensures { result ≡ slice_get (slice_values self.now) i }
    {
        cells::get(self.bytes, i)
    }

    /// Returns the value at index `i`, counted from 0, which must be less than the length. Use it
    /// if the caller has already tested the index.
    #[inline]
    pub fn at(&self, i: usize) -> T
        requires { i < length (slice_values self.now) }
        ensures { slice_get (slice_values self.now) i ≡ Some result }
    {
        cells::at(self.bytes, i)
    }

    /// Returns the value at index `i` if `i` is less than `end`, and otherwise `None`. `end` must be at
    /// most the length. One test finds out both whether `i` is below `end` and whether there is a value.
    #[inline(always)]
    pub fn get_below(&self, end: usize, i: usize) -> Option<T>
        requires { end ≤ length (slice_values self.now) }
        ensures { result ≡ (if nat_lt i end then slice_get (slice_values self.now) i else None) }
    {
        cells::get_below(self.bytes, end, i)
    }

    /// Returns what [`get_below`](Self::get_below) returns, for an index that is usually less than `end`:
    /// that path comes first in machine code.
    #[inline(always)]
    pub fn get_likely_below(&self, end: usize, i: usize) -> Option<T>
        requires { end ≤ length (slice_values self.now) }
        ensures { result ≡ (if nat_lt i end then slice_get (slice_values self.now) i else None) }
    {
        cells::get_likely_below(self.bytes, end, i)
    }

    /// Returns the value at index `i`, or `None` if `i` is not less than the length. If `is_inside` is
    /// true, `i` must be less than the length; where a proof takes the place of tests, none is made then.
    #[inline(always)]
    pub fn get_known(&self, i: usize, is_inside: bool) -> Option<T>
        requires { IsTrue is_inside → i < length (slice_values self.now) }
        ensures { result ≡ slice_get (slice_values self.now) i }
    {
        cells::get_known(self.bytes, i, is_inside)
    }

    /// Returns a view of the first `end` values. `end` must be at most the length.
    #[inline(always)]
    pub fn prefix(&self, end: usize) -> ZeroSlice<'a, T>
        requires { end ≤ length (slice_values self.now) }
        ensures { slice_values result ≡ take end (slice_values self.now) }
    {
        ZeroSlice::from_packed(cells::prefix::<T>(self.bytes, end))
    }

    /// Returns the first value, or `None` if there are no values.
    #[inline]
    pub fn first(&self) -> Option<T>
        ensures { result ≡ slice_get (slice_values self.now) 0 }
    {
        self.get(0)
    }

    /// Returns the last value, or `None` if there are no values.
    #[inline]
    pub fn last(&self) -> Option<T>
        ensures { result ≡ slice_get (slice_values self.now) (length (slice_values self.now) - 1) }
    {
        let len = self.len();
        if len == 0 { None } else { self.get(len - 1) }
    }

    /// Returns an iterator over the values. It borrows the bytes and not the view, so it may
    /// outlive the view.
    #[inline]
    pub fn iter(&self) -> Iter<'a, T>
        ensures items { result ≡ slice_values self.now }
        ensures bound { length result < 2 ^ 64 }
    {
        Iter::from_packed(self.bytes)
    }

    /// Searches for a value that is equal to `x` and returns its index. If several are equal, the
    /// index may be that of any of them.
    ///
    /// The values must be in ascending order. Otherwise the result is unspecified, but within the
    /// bounds of the view.
    ///
    /// # Errors
    /// Returns the index at which `x` could be inserted to keep the order if no value is equal to
    /// it.
    pub fn binary_search(&self, x: &T) -> Result<usize, usize>
    where
        T: Ord,
        ensures bound { IsSearchInRange result (length (slice_values self.now)) }
        ensures position { IsBinarySearchResult (λ y. T.cmp y x.now)
            (slice_values self.now) result }
    {
        search::binary_search(self.bytes, x)
    }

    /// Returns the packed bytes of the values, in order.
    ///
    /// If each value of the type has one encoding, as for all types of this crate, these are the
    /// bytes that the values pack to. Otherwise they are some bytes that unpack to the values.
    #[inline]
    pub fn as_bytes(&self) -> &'a [u8]
        ensures packed { IsPacked T.unpack T.WIDTH result.now }
        ensures values { slice_values self.now ≡ values_of T.unpack T.WIDTH result.now }
        ensures canonical { IsCanonical T.pack T.unpack T.WIDTH
            → result.now ≡ flat_map T.pack (slice_values self.now) }
    {
        self.bytes
    }

    /// Returns a vector with the same values that borrows the bytes.
    #[inline]
    pub fn as_zerovec(self) -> ZeroVec<'a, T>
        ensures { result ≡ slice_values self.entry }
    {
        ZeroVec::from_packed(self.bytes)
    }
}

impl<'a, T: AsULE> PartialEq for ZeroSlice<'a, T> {
    ghost use Rattle.icu_zerovec.specs.Slice.{slice_values};

    ghost eq = { on slice_values (pointwise (same_bytes T.pack)) };

    ghost laws = { on_per slice_values
        (lists_per (on_per T.pack (partial_equiv_from_equiv nat_list_eq_equiv))) };

    fn eq(&self, other: &Self) -> bool
        ensures value { result
            ≡ pointwise (same_bytes T.pack) (slice_values self.now) (slice_values other.now) }
        ensures same { IsTrue result ↔ (slice_values self.now ≡ slice_values other.now) }
    {
        cells::same::<T>(self.bytes, other.bytes)
    }
}

impl<'a, T: AsULE> Eq for ZeroSlice<'a, T> {
    ghost use Rattle.icu_zerovec.specs.Slice.{slice_values};

    ghost laws = { on_equiv slice_values (lists_equiv (on_equiv T.pack nat_list_eq_equiv)) };
}

impl<'a, T: AsULE> Hash for ZeroSlice<'a, T> {
    ghost use Rattle.icu_zerovec.specs.Slice.{slice_values};

    ghost hash_input = { λ s. fed.slice (one_write T.pack) (slice_values s) };

    ghost respects_eq = { (on_Alike slice_values
        (items_Alike (on_Alike T.pack (same_Alike (λ b. b ∷ []) bytes_decides)))).fed };

    fn hash<H: Hasher>(&self, state: &mut H) {
        cells::feed::<T, H>(self.bytes, state);
    }
}

/// Formats the values as a list, like a slice: `[1, 2]`.
impl<'a, T: AsULE + fmt::Debug> fmt::Debug for ZeroSlice<'a, T> {
    fn fmt<W: fmt::Write>(&self, f: &mut fmt::Formatter<W>) -> fmt::Result {
        f.debug_list().entries(self.iter()).finish()
    }
}
