//! The iterator over the values of a packed vector.
ghost use Rattle.std.specs.Prelude.{◌≡◌, ◌<◌, ◌^◌, length, IfSome, Some};
ghost use Rattle.std.specs.Iterator.{YieldsFirst, item_count, UpTo};
ghost use Rattle.std.specs.Iterator.SizeHint.{IsWithinCount};

use crate::cells;
use crate::ule::AsULE;
use std::fmt;
use std::marker::{Model, PhantomData};

/// An iterator over the values of a packed vector. `ZeroVec::iter` and `ZeroSlice::iter` return it.
///
/// It knows how many values are left.
///
/// # Contract
/// In contracts, it is the list of the values that are left.
#[derive(Drop)]
pub struct Iter<'a, T: AsULE> {
    bytes: &'a [u8],
    of: PhantomData<T>,
}

impl<'a, T: AsULE> Model for Iter<'a, T> {
    ghost use Rattle.std.specs.Prelude.{List};
    ghost use Rattle.icu_zerovec.specs.Cells.{values_of, IsPacked};

    ghost Value = { List T };

    ghost view = { λ a. values_of T.unpack T.WIDTH a.bytes.now };

    ghost invariant = { λ a. IsPacked T.unpack T.WIDTH a.bytes.now };
}

impl<'a, T: AsULE> Iter<'a, T> {
    ghost use Rattle.icu_zerovec.specs.Cells.{values_of, IsPacked};

    /// Returns an iterator over bytes that have been validated.
    #[inline]
    pub(crate) fn from_packed(bytes: &'a [u8]) -> Self
        requires { IsPacked T.unpack T.WIDTH bytes.now }
        ensures items { result ≡ values_of T.unpack T.WIDTH bytes.now }
        ensures bound { length result < 2 ^ 64 }
    {
        Iter {
            bytes,
            of: PhantomData,
        }
    }
}

impl<'a, T: AsULE> Iterator for Iter<'a, T> {
    type Item = T;

    ghost next_gives = { YieldsFirst (λ s. s) };

    ghost remaining = { item_count (λ s. s) };

    #[inline]
    fn next(&mut self) -> Option<T> {
        let (value, others) = cells::split_first(self.bytes)?;
        self.bytes = others;
        Some(value)
    }

    #[inline]
    fn size_hint(&self) -> (usize, Option<usize>)
        ensures lower { IsWithinCount result.0 (item_count (λ s. s) self.now) }
        ensures upper { IfSome result.1 (UpTo (item_count (λ s. s) self.now)) }
        ensures exact { (result.0 ≡ length self.now) × (result.1 ≡ Some (length self.now)) }
    {
        let len = cells::len::<T>(self.bytes);
        (len, Some(len))
    }
}

impl<'a, T: AsULE> ExactSizeIterator for Iter<'a, T> {
    #[inline]
    fn len(&self) -> usize {
        cells::len::<T>(self.bytes)
    }
}

/// Formats the values that are left as a list, like a slice: `[1, 2]`.
impl<'a, T: AsULE + fmt::Debug> fmt::Debug for Iter<'a, T> {
    fn fmt<W: fmt::Write>(&self, f: &mut fmt::Formatter<W>) -> fmt::Result {
        f.debug_list()
            .entries(Iter::<T>::from_packed(self.bytes))
            .finish()
    }
}
