//! Vectors of packed values that borrow or own their bytes.
ghost use Rattle.std.specs.Iterator.{Drains, IsFinite};
ghost use Rattle.std.specs.List.Sorted.{IsSearchInRange, IsBinarySearchResult};
ghost use Rattle.std.specs.Prelude.{◌≡◌, ◌-◌, ◌*◌, ◌^◌, ◌<◌, List, [], length, slice_get, Option, None, IfOk, IfErr, IsTrue, ◌↔◌};

use crate::iter::Iter;
use crate::memory::MemoryError;
use crate::slice::ZeroSlice;
use crate::ule::{AsULE, UleError};
use crate::{cells, search};
use std::alloc::Global;
use std::fmt;
use std::marker::{Model, PhantomData};

/// Bytes that are borrowed or owned. Both variants have the address and the length of the bytes at
/// the same offsets, so reading does not branch on the variant.
#[derive(Drop)]
enum Store<'a> {
    Borrowed(&'a [u8]),
    Owned(Vec<u8>),
}

impl<'a> Store<'a> {
    ghost use Rattle.icu_zerovec.specs.Store.{bytes_of};

    /// Returns the bytes.
    #[inline(always)]
    fn bytes(&self) -> &[u8]
        ensures { result.now ≡ bytes_of self.now }
    {
        match self {
            Store::Borrowed(bytes) => bytes,
            Store::Owned(bytes) => bytes.as_slice(),
        }
    }
}

/// A vector of values that are stored as bytes, which it borrows or owns.
///
/// ```
/// let points = ZeroVec::<char>::parse_bytes(&[0x41, 0, 0, 0, 0xf6, 1])?;
/// // points.first() is Some('A') and points.get(1) is Some('\u{1f600}')
/// // ZeroVec::<char>::parse_bytes(&[0x41, 0, 0, 0, 0xd8, 0]) is Err(UleError::Cell(1)), since 0xD800 is a surrogate
/// ```
///
/// Two vectors are equal if and only if their lists of values are equal. Equal vectors have equal
/// hashes. Whether a vector borrows or owns its bytes makes no difference.
///
/// # Contract
/// In contracts, a vector is the list of its values.
#[derive(Drop)]
pub struct ZeroVec<'a, T: AsULE> {
    store: Store<'a>,
    of: PhantomData<T>,
}

impl<'a, T: AsULE> Model for ZeroVec<'a, T> {
    ghost use Rattle.std.specs.Prelude.{List};
    ghost use Rattle.icu_zerovec.specs.Store.{bytes_of};
    ghost use Rattle.icu_zerovec.specs.Cells.{values_of, IsPacked};

    ghost Value = { List T };

    ghost view = { λ a. values_of T.unpack T.WIDTH (bytes_of a.store) };

    ghost invariant = { λ a. IsPacked T.unpack T.WIDTH (bytes_of a.store) };
}

/// Constructors and copies.
impl<'a, T: AsULE> ZeroVec<'a, T> {
    ghost use Rattle.icu_zerovec.specs.Cells.{values_of, IsPacked, IsFault};

    /// Returns the vector with these bytes, which it borrows: `ZeroVec::<u16>::parse_bytes(&[1,
    /// 2])` has the single value 0x0201.
    ///
    /// # Errors
    /// - `UleError::Length` if the number of bytes is not a multiple of the width of a value.
    /// - `UleError::Cell` otherwise, with the index of the first cell that is not a value.
    pub fn parse_bytes(bytes: &'a [u8]) -> Result<Self, UleError>
        ensures ok { IfOk result
            (λ v. IsPacked T.unpack T.WIDTH bytes.now
            × (v ≡ values_of T.unpack T.WIDTH bytes.now)) }
        ensures err { IfErr result (IsFault T.unpack T.WIDTH bytes.now) }
    {
        cells::test::<T>(bytes)?;
        Ok(ZeroVec::from_packed(bytes))
    }

    /// Returns the vector with these bytes, which it takes over without copying them.
    ///
    /// # Errors
    /// - `UleError::Length` if the number of bytes is not a multiple of the width of a value.
    /// - `UleError::Cell` otherwise, with the index of the first cell that is not a value.
    ///
    /// The bytes are dropped on error.
    pub fn parse_owned(bytes: Vec<u8>) -> Result<Self, UleError>
        ensures ok { IfOk result
            (λ v. IsPacked T.unpack T.WIDTH bytes.items
            × (v ≡ values_of T.unpack T.WIDTH bytes.items)) }
        ensures err { IfErr result (IsFault T.unpack T.WIDTH bytes.items) }
    {
        cells::test::<T>(bytes.as_slice())?;
        Ok(ZeroVec {
            store: Store::Owned(bytes),
            of: PhantomData,
        })
    }

    /// Returns the vector with bytes that have been validated, which it borrows.
    #[inline]
    pub fn from_packed(bytes: &'a [u8]) -> Self
        requires { IsPacked T.unpack T.WIDTH bytes.now }
        ensures { result ≡ values_of T.unpack T.WIDTH bytes.now }
    {
        ZeroVec {
            store: Store::Borrowed(bytes),
            of: PhantomData,
        }
    }

    /// Returns a vector with these values that owns its bytes.
    ///
    /// ```
    /// let numbers = ZeroVec::<u16>::alloc_from_slice(alloc, &[0x1234, 255])?;
    /// // numbers.as_bytes() is [0x34, 0x12, 0xff, 0]
    /// ```
    ///
    /// # Errors
    /// Returns `MemoryError` if an allocation fails.
    pub fn alloc_from_slice(alloc: Global, values: &[T]) -> Result<Self, MemoryError>
        ensures { IfOk result (λ v. v ≡ values.now) }
    {
        let vector = ZeroVec::alloc_from_iter(alloc, values.iter().copied())?;
        Ok(vector)
    }

    /// Returns a vector with the values that an iterator yields, in order, that owns its bytes.
    ///
    /// Each value is packed as it is yielded, so converting values needs no intermediate list. The
    /// iterator must be finite.
    ///
    /// ```
    /// let codes = ZeroVec::<u32>::alloc_from_iter(alloc, "AZ".chars().map(|c| u32::from(c)))?;
    /// // codes.as_bytes() is [0x41, 0, 0, 0, 0x5a, 0, 0, 0]
    /// ```
    ///
    /// # Errors
    /// Returns `MemoryError` if an allocation fails. The iterator is then dropped with its
    /// remaining items.
    pub fn alloc_from_iter<I: Iterator<Item = T> + Drop>(
        alloc: Global,
        values: I,
    ) -> Result<Self, MemoryError>
        requires can { I.can_next values }
        requires finite { IsFinite (I.remaining values) }
        ensures { IfOk result (λ v. Drains I.next_gives values v) }
    {
        let bytes = cells::pack(alloc, values)?;
        Ok(ZeroVec {
            store: Store::Owned(bytes),
            of: PhantomData,
        })
    }

    /// Returns an equal vector that owns a copy of the bytes.
    ///
    /// # Errors
    /// Returns `MemoryError` if an allocation fails.
    pub fn try_clone(&self, alloc: Global) -> Result<ZeroVec<'static, T>, MemoryError>
        ensures { IfOk result (λ v. v ≡ self.now) }
    {
        Ok(ZeroVec {
            store: Store::Owned(Vec::from_slice(alloc, self.bytes())?),
            of: PhantomData,
        })
    }

    /// Returns the same vector, which then owns its bytes. If the vector already owns them, nothing
    /// is allocated or copied.
    ///
    /// # Errors
    /// Returns `MemoryError` if an allocation fails. The vector is then dropped; bytes that it
    /// borrowed are unchanged.
    pub fn into_owned(self, alloc: Global) -> Result<ZeroVec<'static, T>, MemoryError>
        ensures { IfOk result (λ v. v ≡ self.entry) }
    {
        let ZeroVec { store, of: _ } = self;
        let bytes = match store {
            Store::Borrowed(bytes) => Vec::from_slice(alloc, bytes)?,
            Store::Owned(bytes) => bytes,
        };
        Ok(ZeroVec {
            store: Store::Owned(bytes),
            of: PhantomData,
        })
    }
}

/// Queries.
impl<'a, T: AsULE> ZeroVec<'a, T> {
    ghost use Rattle.icu_zerovec.specs.Canonical.{IsCanonical};
    ghost use Rattle.icu_zerovec.specs.Cells.{values_of, IsPacked};
    ghost use Rattle.icu_zerovec.specs.Slice.{slice_values};
    ghost use Rattle.std.specs.List.{flat_map};

    /// Returns the bytes.
    #[inline(always)]
    pub(crate) fn bytes(&self) -> &[u8]
        ensures packed { IsPacked T.unpack T.WIDTH result.now }
        ensures values { self.now ≡ values_of T.unpack T.WIDTH result.now }
    {
        self.store.bytes()
    }

    /// Returns the number of values.
    #[inline]
    pub fn len(&self) -> usize
        ensures len { result ≡ length self.now }
        ensures bound { length self.now * T.WIDTH < 2 ^ 63 }
    {
        cells::len::<T>(self.bytes())
    }

    /// Returns true if there are no values.
    #[inline]
    pub fn is_empty(&self) -> bool
        ensures { IsTrue result ↔ (self.now ≡ []) }
    {
        self.len() == 0
    }

    /// Returns the value at index `i`, counted from 0, or `None` if `i` is not less than the
    /// length.
    #[inline]
    pub fn get(&self, i: usize) -> Option<T>
        ensures { result ≡ slice_get self.now i }
    {
        cells::get(self.bytes(), i)
    }

    /// Returns the first value, or `None` if there are no values.
    #[inline]
    pub fn first(&self) -> Option<T>
        ensures { result ≡ slice_get self.now 0 }
    {
        self.get(0)
    }

    /// Returns the last value, or `None` if there are no values.
    #[inline]
    pub fn last(&self) -> Option<T>
        ensures { result ≡ slice_get self.now (length self.now - 1) }
    {
        let len = self.len();
        if len == 0 { None } else { self.get(len - 1) }
    }

    /// Returns an iterator over the values.
    #[inline]
    pub fn iter(&self) -> Iter<'_, T>
        ensures items { result ≡ self.now }
        ensures bound { length result < 2 ^ 64 }
    {
        Iter::from_packed(self.bytes())
    }

    /// Searches for a value that is equal to `x` and returns its index. If several are equal, the
    /// index may be that of any of them.
    ///
    /// The values must be in ascending order. Otherwise the result is unspecified, but within the
    /// bounds of the vector.
    ///
    /// ```
    /// let numbers = ZeroVec::<u32>::alloc_from_slice(alloc, &[10, 20, 30])?;
    /// // numbers.binary_search(&20) is Ok(1), and numbers.binary_search(&25) is Err(2)
    /// ```
    ///
    /// # Errors
    /// Returns the index at which `x` could be inserted to keep the order if no value is equal to
    /// it.
    pub fn binary_search(&self, x: &T) -> Result<usize, usize>
    where
        T: Ord,
        ensures bound { IsSearchInRange result (length self.now) }
        ensures position { IsBinarySearchResult (λ y. T.cmp y x.now) self.now result }
    {
        search::binary_search(self.bytes(), x)
    }

    /// Returns the packed bytes of the values, in order, as they are stored.
    ///
    /// If each value of the type has one encoding, as for all types of this crate, these are the
    /// bytes that the values pack to. Otherwise they are some bytes that unpack to the values.
    #[inline]
    pub fn as_bytes(&self) -> &[u8]
        ensures packed { IsPacked T.unpack T.WIDTH result.now }
        ensures values { self.now ≡ values_of T.unpack T.WIDTH result.now }
        ensures canonical { IsCanonical T.pack T.unpack T.WIDTH
            → result.now ≡ flat_map T.pack self.now }
    {
        self.store.bytes()
    }

    /// Returns a view of the vector.
    #[inline]
    pub fn as_slice(&self) -> ZeroSlice<'_, T>
        ensures { slice_values result ≡ self.now }
    {
        ZeroSlice::from_packed(self.bytes())
    }
}

/// Conversions.
impl<'a, T: AsULE> ZeroVec<'a, T> {
    ghost use Rattle.icu_zerovec.specs.Canonical.{IsCanonical};
    ghost use Rattle.icu_zerovec.specs.Cells.{values_of, IsFault, IsCell, IsConverted};
    ghost use Rattle.std.specs.List.{flat_map};

    /// Returns the same bytes as a vector of another type, which must have the same width. The
    /// bytes stay borrowed or owned, and none are copied.
    ///
    /// Converting `char` to `PotentialCodePoint` always succeeds; the other direction depends on
    /// the cells.
    ///
    /// # Errors
    /// Returns `UleError::Cell` with the index of the first cell that is not a value of the other
    /// type. The vector is then dropped.
    ///
    /// # Contract
    /// In contracts, the bytes of the result are determined by the values only if each value has
    /// one encoding, and it is not stated that nothing is copied.
    pub fn try_into_converted<P: AsULE>(self) -> Result<ZeroVec<'a, P>, UleError>
        requires { T.WIDTH ≡ P.WIDTH }
        ensures bytes { IsConverted T.unpack T.WIDTH P.unpack P.WIDTH self.entry result }
        ensures ok { IsCanonical T.pack T.unpack T.WIDTH →
            IfOk result (λ v. v ≡ values_of P.unpack P.WIDTH (flat_map T.pack self.entry)) }
        ensures keeps { IsCanonical T.pack T.unpack T.WIDTH → IsCanonical P.pack P.unpack P.WIDTH →
            IfOk result (λ v. flat_map P.pack v ≡ flat_map T.pack self.entry) }
        ensures err { IsCanonical T.pack T.unpack T.WIDTH
            → IfErr result (IsFault P.unpack P.WIDTH (flat_map T.pack self.entry)) }
        ensures cell { IfErr result IsCell }
    {
        let ZeroVec { store, of: _ } = self;
        cells::test::<P>(store.bytes())?;
        Ok(ZeroVec {
            store,
            of: PhantomData,
        })
    }
}

/// Formats the values as a list, like a slice: `[1, 2]`.
impl<'a, T: AsULE + fmt::Debug> fmt::Debug for ZeroVec<'a, T> {
    fn fmt<W: fmt::Write>(&self, f: &mut fmt::Formatter<W>) -> fmt::Result {
        f.debug_list().entries(self.iter()).finish()
    }
}
