//! Sets made from ranges.
ghost use Rattle.std.specs.Prelude.{◌≡◌, ◌<◌, ℕ, List, [], ◌∷◌, IfOk, IfErr};
ghost use Rattle.std.specs.Iterator.{Drains, IsFinite};
ghost use Rattle.std.specs.declared.ops.RangeInclusive.{RangeInclusive};
ghost use Rattle.icu_invlist.specs.NamedCodePoints.{IsUnionOf};
ghost use Rattle.icu_invlist.specs.Refusals.{IsRefusedRange};

use crate::codepointinvlist::builder::CodePointInversionListBuilder;
use crate::codepointinvlist::cpinvlist::CodePointInversionList;
use crate::codepointinvlist::error::{RangeError, TryRangeError};
use crate::codepointinvlist::range_of::RangeOf;
use icu_zerovec::MemoryError;
use std::alloc::Global;
use std::ops::RangeInclusive;

impl<'data> CodePointInversionList<'data> {
    /// Returns the set of all code points in a range of characters: `'A'..='Z'` gives `[0x41,
    /// 0x5B]`. Surrogates between the start and the end are included.
    ///
    /// # Errors
    /// - `TryRangeError::Invalid` if and only if the range is empty or reversed. The error contains
    ///   its start and its exclusive end: `'B'..'A'` gives `RangeError(0x42, 0x41)`.
    /// - `TryRangeError::Memory` if an allocation fails.
    pub fn try_from<R: RangeOf<char>>(
        alloc: Global,
        range: R,
    ) -> Result<CodePointInversionList<'static>, TryRangeError>
        ensures ok { IfOk result
            (λ s. (s ≡ R.start range ∷ R.end range ∷ []) × (R.start range < R.end range)) }
        ensures err { IfErr result (IsRefusedRange (R.start range) (R.end range)) }
    {
        let (start, end) = range.deconstruct();
        if start >= end {
            return Err(TryRangeError::Invalid(RangeError(start, end)));
        }
        Ok(CodePointInversionList::from_valid_slice(alloc, &[start, end])?)
    }

    /// Returns the union of all ranges that `iter` yields.
    ///
    /// A range whose last number is above 0x10FFFF is ignored as a whole, as in
    /// [`add_range32`](CodePointInversionListBuilder::add_range32). The iterator must be finite.
    ///
    /// # Errors
    /// Returns `MemoryError` if an allocation fails. The iterator is then dropped with its
    /// remaining items.
    pub fn from_iter<I: Iterator<Item = RangeInclusive<u32>> + Drop>(
        alloc: Global,
        iter: I,
    ) -> Result<CodePointInversionList<'static>, MemoryError>
        requires can { I.can_next iter }
        requires finite { IsFinite (I.remaining iter) }
        ensures ok { IfOk result
            (λ s. (ranges : List (RangeInclusive ℕ)) × Drains I.next_gives iter ranges
            × IsUnionOf ranges s) }
    {
        let mut builder = CodePointInversionListBuilder::new(alloc);
        for range in iter {
            builder.add_range32(range)?;
        }
        builder.build()
    }
}
