//! The immutable set of code points, stored as an inversion list.
ghost use Rattle.std.specs.Prelude.{◌≡◌, ℕ, ◌+◌, ◌^◌, ◌<◌, ◌≤◌, List, [], ◌∷◌, length, slice_index, slice_get, min, not, Some, None, if◌then◌else◌, IfOk, OnOk, OnErr, IfErr, IfSome, IsTrue, ◌++◌, drop, true, false, ◌↔◌};
ghost use Rattle.std.specs.List.{take_while, All, Contains};
ghost use Rattle.std.specs.List.Sorted.{IsStrictlyIncreasing};
ghost use Rattle.std.proofs.Math.Utf8.{scalar};
ghost use Rattle.std.specs.Str.{IsCharBoundary, chars, encode_utf8_all};
ghost use mathlib.Core.Bool.{beq};
ghost use mathlib.Core.List.{reverse};
ghost use Rattle.icu_zerovec.specs.CodePoints.{code_point_limit};
ghost use Rattle.icu_zerovec.specs.Slice.{slice_values};
ghost use Rattle.icu_invlist.specs.InversionList.{AreApart, IsOfCodePoints, IsValid, holds, in_ranges, HoldsAll, IsSubset, ranges_of, members_below, characters, complement_of};
ghost use Rattle.icu_invlist.specs.Refusals.{IsRefusedList, IsRefusedSlice};

mod places;
mod stretches;
mod subsets;
mod words;

use crate::codepointinvlist::error::{InvalidSetError, SetError};
use crate::codepointinvlist::iter::{IterChars, IterRanges, IterRangesComplemented, start_of_gap};
use crate::codepointinvlist::range_of::RangeOf;
use crate::codepointinvlist::sizes::{size_of, valid_size};
use crate::codepointinvlist::utils::is_valid_slice;
use crate::packing::{cut_to_points, pack, sum_of_sizes, unpack, unpacked};
use icu_zerovec::ule::AsULE;
use icu_zerovec::{CODE_POINT_LIMIT, MemoryError, PotentialCodePoint, ZeroSlice, ZeroVec};
use std::alloc::Global;
use std::marker::Model;
use std::ops::RangeInclusive;
use stretches::Stretch;

/// An immutable set of code points, which may include surrogates. It borrows or owns the list of
/// its boundaries.
///
/// ```
/// let letters = CodePointInversionList::try_from_u32_inversion_list_slice(alloc, &[0x41, 0x5B, 0x61, 0x7B])?;
/// // letters.contains32(0x5A) is true, and letters.contains32(0x5B) is false
/// ```
///
/// # Contract
/// In contracts, a set is the list of its boundaries.
#[derive(Debug, Drop)]
pub struct CodePointInversionList<'data> {
    pub(crate) ends: ZeroVec<'data, PotentialCodePoint>,
    pub(crate) size: u32,
}

impl<'data> Model for CodePointInversionList<'data> {
    ghost use Rattle.std.specs.Prelude.{◌≡◌, List, ℕ};
    ghost use Rattle.icu_zerovec.specs.CodePoints.{code_point_limit};
    ghost use Rattle.icu_invlist.specs.InversionList.{IsValid, members_below};

    ghost Value = { List ℕ };

    ghost view = { λ a. a.ends };

    ghost invariant = { λ a. IsValid a.ends
        × (a.size ≡ members_below a.ends code_point_limit) };
}

/// Constructors and copies.
impl<'data> CodePointInversionList<'data> {
    /// Returns the set with this list of boundaries, and takes over the list without copying it.
    ///
    /// # Errors
    /// - `SetError::Invalid` if and only if `ends` is not an inversion list. The error contains a
    ///   copy of the list.
    /// - `SetError::Memory` if `ends` is not an inversion list and allocating that copy fails. A
    ///   valid list needs no allocation.
    pub fn try_from_inversion_list(
        alloc: Global,
        ends: ZeroVec<'data, PotentialCodePoint>,
    ) -> Result<Self, SetError>
        ensures ok { IfOk result (λ s. (s ≡ ends.entry) × IsValid ends.entry) }
        ensures err { IfErr result (IsRefusedList ends.entry) }
    {
        if let Some(size) = valid_size(&ends) {
            return Ok(CodePointInversionList { ends, size });
        }
        Err(SetError::Invalid(InvalidSetError(unpacked(alloc, &ends)?)))
    }

    /// Returns the set with these boundaries, and copies them.
    ///
    /// # Errors
    /// - `SetError::Invalid` if and only if `ends` is not an inversion list. The error contains the
    ///   numbers, with 0xFFFFFF in place of any number above it.
    /// - `SetError::Memory` if an allocation fails.
    pub fn try_from_u32_inversion_list_slice(alloc: Global, ends: &[u32]) -> Result<Self, SetError>
        ensures ok { IfOk result (λ s. (s ≡ ends.now) × IsValid ends.now) }
        ensures err { IfErr result (IsRefusedSlice ends.now) }
    {
        if !is_valid_slice(ends) {
            return Err(SetError::Invalid(InvalidSetError(cut_to_points(alloc, ends)?)));
        }
        Ok(CodePointInversionList::from_valid_slice(alloc, ends)?)
    }

    /// Returns the set with these boundaries, and copies them.
    ///
    /// `ends` must be an inversion list: of even length, strictly ascending, and with no number
    /// above 0x110000. If that is not known, use
    /// [`try_from_u32_inversion_list_slice`](Self::try_from_u32_inversion_list_slice), which checks
    /// it.
    ///
    /// # Errors
    /// Returns `MemoryError` if an allocation fails.
    // Out of line, so that callers with an empty set inline the rest.
    #[inline(never)]
    pub fn from_valid_slice(
        alloc: Global,
        ends: &[u32],
    ) -> Result<CodePointInversionList<'static>, MemoryError>
        requires { IsValid ends.now }
        ensures { IfOk result (λ s. s ≡ ends.now) }
    {
        let size = size_of(ends);
        if !ends.len().is_multiple_of(2) {
            unreachable!();
        }
        let bytes = pack(alloc, ends)?;
        match ZeroVec::parse_owned(bytes) {
            Ok(ends) => Ok(CodePointInversionList { ends, size }),
            Err(_) => unreachable!(),
        }
    }

    /// Returns the empty set. This does not allocate.
    pub(crate) fn none() -> CodePointInversionList<'static>
        ensures { result ≡ [] }
    {
        CodePointInversionList {
            ends: ZeroVec::from_packed(&[]),
            size: 0,
        }
    }

    /// Returns the set of all code points, 0 to 0x10FFFF inclusive, with surrogates. This does not
    /// allocate.
    pub fn all() -> CodePointInversionList<'static>
        ensures { result ≡ 0 ∷ code_point_limit ∷ [] }
    {
        CodePointInversionList {
            ends: ZeroVec::from_packed(&[0, 0, 0, 0, 0, 0x11]),
            size: CODE_POINT_LIMIT,
        }
    }

    /// Returns the set of all code points of the Basic Multilingual Plane, 0 to 0xFFFF inclusive,
    /// with surrogates. This does not allocate.
    pub fn bmp() -> CodePointInversionList<'static>
        ensures { result ≡ 0 ∷ 0x10000 ∷ [] }
    {
        CodePointInversionList {
            ends: ZeroVec::from_packed(&[0, 0, 0, 0, 0, 0x1]),
            size: 0x10000,
        }
    }

    /// Returns the same set, which then owns its boundaries. If the set already owns them, nothing
    /// is allocated or copied.
    ///
    /// # Errors
    /// Returns `MemoryError` if an allocation fails. The set is then dropped; boundaries that it
    /// borrowed are unchanged.
    pub fn into_owned(self, alloc: Global) -> Result<CodePointInversionList<'static>, MemoryError>
        ensures ok { IfOk result (λ s. s ≡ self.entry) }
    {
        let CodePointInversionList { ends, size } = self;
        Ok(CodePointInversionList {
            ends: ends.into_owned(alloc)?,
            size,
        })
    }

    /// Returns an equal set that owns its boundaries.
    ///
    /// # Errors
    /// Returns `MemoryError` if an allocation fails.
    pub fn try_clone(&self, alloc: Global) -> Result<CodePointInversionList<'static>, MemoryError>
        ensures ok { IfOk result (λ s. s ≡ self.now) }
    {
        Ok(CodePointInversionList {
            ends: self.ends.try_clone(alloc)?,
            size: self.size,
        })
    }
}

/// Queries.
impl<'data> CodePointInversionList<'data> {
    /// Returns the number of boundaries.
    pub(crate) fn count(&self) -> usize
        ensures count { result ≡ length self.now }
        ensures valid { IsValid self.now }
    {
        self.ends.len()
    }

    /// Returns the boundary at index `i`, counted from 0.
    pub(crate) fn end_at(&self, i: usize) -> u32
        requires { i < length self.now }
        ensures end { result ≡ slice_index self.now i }
        ensures within { result ≤ code_point_limit }
    {
        u32::from(self.ends.as_slice().at(i))
    }

    /// Returns a reference to the packed boundaries.
    pub(crate) fn packed(&self) -> &ZeroVec<'data, PotentialCodePoint>
        ensures ends { result.now ≡ self.now }
        ensures valid { IsValid self.now }
    {
        &self.ends
    }

    /// Returns a view of the boundaries as they are stored, packed in three bytes each. This does
    /// not allocate.
    ///
    /// [`try_from_inversion_list`](Self::try_from_inversion_list) turns such a view back into an
    /// equal set.
    ///
    /// ```
    /// let ends = letters.as_inversion_list();
    /// let same = CodePointInversionList::try_from_inversion_list(alloc, ends.as_zerovec())?;
    /// // same == letters, and ends.as_bytes() is what a file keeps of it
    /// ```
    pub fn as_inversion_list(&self) -> ZeroSlice<'_, PotentialCodePoint>
        ensures ends { slice_values result ≡ self.now }
        ensures valid { IsValid self.now }
    {
        self.ends.as_slice()
    }

    /// Returns a copy of the boundaries as a vector of numbers.
    ///
    /// # Errors
    /// Returns `MemoryError` if an allocation fails.
    pub fn get_inversion_list_vec(&self, alloc: Global) -> Result<Vec<u32>, MemoryError>
        ensures ok { IfOk result (λ v. v.items ≡ self.now) }
    {
        let mut ends = Vec::with_capacity(alloc, self.count())?;
        self.push_ends(&mut ends, 0)?;
        Ok(ends)
    }

    /// Appends the boundaries from index `from` on to `ends`, which is unchanged if an allocation
    /// fails.
    pub(crate) fn push_ends(&self, ends: &mut Vec<u32>, from: usize) -> Result<(), MemoryError>
        requires { from ≤ length self.now }
        ensures ok { OnOk result (ends.new.items ≡ ends.old.items ++ drop from self.now) }
        ensures err { OnErr result (ends.new.items ≡ ends.old.items) }
    {
        unpack(&self.ends.as_bytes()[3 * from..], ends)
    }

    /// Returns true if the set contains the code point `c`. Returns false for any number above
    /// 0x10FFFF.
    pub fn contains32(&self, c: u32) -> bool
        ensures held { result ≡ holds self.now c }
        ensures far { code_point_limit ≤ c → result ≡ false }
    {
        self.place_of(c) % 2 == 1
    }

    /// Returns true if the set contains the character `c`.
    pub fn contains(&self, c: char) -> bool
        ensures { result ≡ holds self.now c }
    {
        self.contains32(u32::from(c))
    }

    /// Returns true if `range` is not empty and the set contains all code points in it, including
    /// any surrogates between its start and its end.
    pub fn contains_range<R: RangeOf<char>>(&self, range: R) -> bool
        ensures { IsTrue result
            ↔ (R.start range < min (R.end range) code_point_limit)
            × HoldsAll self.now (R.start range) (min (R.end range) code_point_limit) }
    {
        let (start, end) = range.deconstruct();
        let end = end.min(CODE_POINT_LIMIT);
        start < end && self.reaches(self.place_of(start), end)
    }

    /// Returns true if `other` is a subset of this set. The empty set is a subset of every set.
    ///
    /// If `other` contains more code points than this set, this returns false at once.
    #[inline]
    pub fn contains_set(&self, other: &CodePointInversionList<'_>) -> bool
        ensures subset { IsTrue result ↔ IsSubset other.now self.now }
        ensures valid { IsValid self.now × IsValid other.now }
    {
        if other.size > self.size {
            return false;
        }
        if other.size == 0 {
            return true;
        }
        if other.size == self.size {
            return *self == *other;
        }
        self.holds_some(other)
    }

    /// Returns the index of `c` among the set's code points in ascending order, or `None` if the
    /// set does not contain `c`.
    ///
    /// The index is the number of smaller code points in the set, and is less than
    /// [`size`](Self::size).
    pub fn position(&self, c: char) -> Option<usize>
        ensures place { result
            ≡ (if holds self.now c then Some (members_below self.now c) else None) }
        ensures below { IfSome result (λ place. place < members_below self.now code_point_limit) }
        ensures valid { IsValid self.now }
    {
        self.position32(u32::from(c))
    }

    /// Returns the index of `c` among the set's code points in ascending order, or `None` if the
    /// set does not contain `c`.
    ///
    /// The index is the number of smaller code points in the set, and is less than
    /// [`size`](Self::size). For any number above 0x10FFFF the result is `None`.
    pub fn position32(&self, c: u32) -> Option<usize>
        ensures place { result
            ≡ (if holds self.now c then Some (members_below self.now c) else None) }
        ensures far { code_point_limit ≤ c → result ≡ None }
        ensures below { IfSome result (λ place. place < members_below self.now code_point_limit) }
        ensures valid { IsValid self.now }
    {
        let place = self.place_of(c);
        if place.is_multiple_of(2) {
            return None;
        }
        let start = place - 1;
        let before = sum_of_sizes(&self.ends.as_bytes()[..3 * start]);
        Some(before + (c - self.end_at(start)) as usize)
    }

    /// Returns the number of code points in the set, including surrogates. The number is stored, so
    /// this takes constant time.
    pub fn size(&self) -> usize
        ensures size { result ≡ members_below self.now code_point_limit }
        ensures valid { IsValid self.now }
    {
        self.size as usize
    }

    /// Returns true if the set contains no code points.
    pub fn is_empty(&self) -> bool
        ensures empty { IsTrue result ↔ (self.now ≡ []) }
        ensures valid { IsValid self.now }
    {
        self.ends.is_empty()
    }
}

/// Ranges and characters.
impl<'data> CodePointInversionList<'data> {
    /// Returns the number of ranges in the set. Two ranges never touch.
    pub fn get_range_count(&self) -> usize
        ensures count { result ≡ length (ranges_of self.now) }
        ensures valid { IsValid self.now }
    {
        self.ends.len() / 2
    }

    /// Returns the range at `index`, counted from 0, or `None` if there are not that many ranges.
    /// The range includes its last code point.
    pub fn get_nth_range(&self, index: usize) -> Option<RangeInclusive<u32>>
        ensures nth { result ≡ slice_get (ranges_of self.now) index }
        ensures within { IfSome result IsOfCodePoints }
        ensures valid { IsValid self.now }
    {
        if index >= self.count() / 2 {
            return None;
        }
        Some(RangeInclusive::new(self.end_at(2 * index), self.end_at(2 * index + 1) - 1))
    }

    /// Returns an iterator over the ranges of the set, in ascending order: for `[0x41, 0x44, 0x61,
    /// 0x62]` it yields 0x41..=0x43 and 0x61..=0x61.
    pub fn iter_ranges(&self) -> IterRanges<'_>
        ensures gives { result ≡ self.now }
        ensures bound { length (ranges_of result) < 2 ^ 64 }
        ensures valid { IsValid self.now }
        ensures within { All IsOfCodePoints (ranges_of self.now) }
        ensures apart { AreApart (ranges_of self.now) }
        ensures held { (c : ℕ) → in_ranges (ranges_of self.now) c ≡ holds self.now c }
    {
        IterRanges::from_bytes(self.ends.as_bytes())
    }

    /// Returns an iterator over the ranges of code points that are not in the set, in ascending
    /// order: for the empty set it yields 0..=0x10FFFF.
    pub fn iter_ranges_complemented(&self) -> IterRangesComplemented<'_>
        ensures gives { result ≡ complement_of self.now }
        ensures complement { (c : ℕ) → c < code_point_limit
            → holds (complement_of self.now) c ≡ not (holds self.now c) }
        ensures valid { IsValid (complement_of self.now) }
        ensures within { All IsOfCodePoints (ranges_of (complement_of self.now)) }
        ensures apart { AreApart (ranges_of (complement_of self.now)) }
        ensures held { (c : ℕ) → c < code_point_limit
            → in_ranges (ranges_of (complement_of self.now)) c ≡ not (holds self.now c) }
    {
        let mut ends = self.ends.iter();
        if self.contains32(0) {
            let _ = ends.next();
            let start = start_of_gap(ends.next());
            return IterRangesComplemented::from_gap(start, ends);
        }
        IterRangesComplemented::from_gap(Some(0), ends)
    }

    /// Returns an iterator over the characters in the set, in ascending order. It skips surrogates.
    pub fn iter_chars(&self) -> IterChars<'_>
        ensures gives { result ≡ characters self.now }
        ensures held { (c : ℕ)
            → Contains (characters self.now) c ↔ (scalar c ≡ true) × (holds self.now c ≡ true) }
        ensures ascending { IsStrictlyIncreasing (characters self.now) }
        ensures valid { IsValid self.now }
    {
        IterChars::from_ends(self.ends.iter())
    }
}

/// Spans of text.
impl<'data> CodePointInversionList<'data> {
    /// Returns the length in bytes of the longest prefix of `text` whose characters are all in the
    /// set, or all outside it if `held` is false.
    ///
    /// The result is a character boundary, so `&text[set.span(text, true)..]` is the rest of the
    /// text. A character in the same range as the one before it takes no search.
    pub fn span(&self, text: &str, held: bool) -> usize
        ensures place { result
            ≡ length (encode_utf8_all
            (take_while (λ c. beq (holds self.now c) held) (chars text.now))) }
        ensures boundary { IsCharBoundary text.now result }
    {
        let mut stretch = Stretch::none();
        let mut length = 0;
        for c in text.chars() {
            if !stretch.has(c) {
                let Some(found) = self.stretch_at(c, held) else {
                    return length;
                };
                stretch = found;
            }
            length += c.len_utf8();
        }
        length
    }

    /// Returns the byte offset at which the longest suffix starts whose characters are all in the
    /// set, or all outside it if `held` is false.
    ///
    /// The result is a character boundary, so `&text[..set.span_back(text, true)]` is the text
    /// before that suffix.
    pub fn span_back(&self, text: &str, held: bool) -> usize
        ensures place { result + length
            (encode_utf8_all
            (take_while (λ c. beq (holds self.now c) held) (reverse (chars text.now))))
            ≡ length text.now }
        ensures boundary { IsCharBoundary text.now result }
    {
        let mut stretch = Stretch::none();
        let mut start = text.len();
        for c in text.chars().rev() {
            c.shown();
            if !stretch.has(c) {
                let Some(found) = self.stretch_at(c, held) else {
                    return start;
                };
                stretch = found;
            }
            start -= c.len_utf8();
        }
        start
    }
}
