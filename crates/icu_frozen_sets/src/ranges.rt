//! Whether a frozen set contains a range.
ghost use Rattle.std.specs.Prelude.{◌≡◌, ℕ, ◌+◌, ◌-◌, ◌^◌, ◌<◌, ◌≤◌, ◌++◌, ◌↔◌, List, true, false, min, slice_index, IfNone, IfSome, IsTrue};
ghost use Rattle.std.specs.Int.{bit_at};
ghost use Rattle.std.specs.Range.{range_inclusive_start};
ghost use Rattle.icu_zerovec.specs.CodePoints.{code_point_limit};
ghost use Rattle.icu_invlist.specs.InversionList.{HoldsAll};
ghost use Rattle.icu_invlist.specs.NamedCodePoints.{end_of_inclusive};
ghost use Rattle.icu_frozen_sets.specs.FrozenView.{view_words};
ghost use Rattle.icu_frozen_sets.specs.FrozenWords.{IsFrozenOf, bit_in, is_held, offset_words};

use crate::frozen::FrozenCodePointSet;
use crate::view::{FULL_BLOCK, FrozenView, last_offset, offset_count, place_by, word};
use icu_invlist::codepointinvlist::RangeOf;
use icu_zerovec::CODE_POINT_LIMIT;
use std::ops::RangeInclusive;

/// Ranges from this number of code points on are long: their bits take more time than a search.
const LONG: u32 = 4096;

/// Returns the range `start..end` if it is long. Returns `None` if it is short, or if its first or
/// last code point is a surrogate.
#[inline(always)]
fn long_range(start: u32, end: u32) -> Option<RangeInclusive<char>>
    requires order { start < end }
    requires within { end ≤ code_point_limit }
    ensures start { IfSome result (λ range. range_inclusive_start range ≡ start) }
    ensures end { IfSome result (λ range. end_of_inclusive range ≡ end) }
{
    if end - start < LONG {
        return None;
    }
    Some(RangeInclusive::new(char::from_u32(start)?, char::from_u32(end - 1)?))
}

/// Returns the number of consecutive ones in the word from bit `place` on.
#[inline(always)]
fn ones_from(word: u64, place: u32) -> u32
    requires within { place < 64 }
    ensures ones { (i : ℕ) → i < result
        → (place + i < 64) × (bit_at word (place + i) ≡ 1) }
    ensures stops { place + result < 64 → bit_at word (place + result) ≡ 0 }
{
    (word >> place).trailing_ones()
}

/// Returns true if the block at this offset is full and has the offset that blocks that are full
/// have.
#[inline(always)]
fn is_full(table: &[u64], place: usize) -> bool
    requires { place < 2 ^ 32 }
    ensures { result ≡ true → (k : ℕ) → k < 16
        → slice_index table.now (place + k) ≡ 2 ^ 64 - 1 }
{
    if place != offset_count(table) + FULL_BLOCK {
        return false;
    }
    for k in 0..16 {
        if word(table, place + k) != u64::MAX {
            return false;
        }
    }
    true
}

/// Returns the end of the word of the code point `c`, or `end` if that comes first, if the bits from `c`
/// up to there are 1. If the range `c..end` goes on and the block is full, returns the end of the block.
/// Returns `None` if one of these bits is 0. The last offset is at index `last`.
#[inline(always)]
fn past_ones(table: &[u64], last: usize, c: u32, end: u32) -> Option<u32>
    requires last { last ≡ offset_words table.now - 1 }
    requires order { c < end }
    requires within { end ≤ CODE_POINT_LIMIT }
    ensures some { IfSome result (λ past. (c < past)
        × ((k : ℕ) → c ≤ k → k < past → bit_in table.now k ≡ true)) }
    ensures none { IfNone result ((k : ℕ) × (c ≤ k) × (k < end) × (bit_in table.now k ≡ false)) }
{
    let place = place_by(table, last, c / 1024);
    let bits = word(table, place + (c / 64 % 16) as usize);
    let past = end.min((c / 64 + 1) * 64);
    if ones_from(bits, c % 64) < past - c {
        return None;
    }
    if past < end && is_full(table, place) {
        return Some((c / 1024 + 1) * 1024);
    }
    Some(past)
}

/// Returns true if the bits of all code points in `start..end` are 1.
fn contains_all(table: &[u64], start: u32, end: u32) -> bool
    requires { end ≤ CODE_POINT_LIMIT }
    ensures { IsTrue result ↔ ((c : ℕ) → start ≤ c → c < end → bit_in table.now c ≡ true) }
{
    let last = last_offset(table);
    let mut next = start;
    while next < end {
        match past_ones(table, last, next, end) {
            Some(past) => next = past,
            None => return false,
        }
    }
    true
}

/// Ranges in a view of a frozen set.
impl<'a> FrozenView<'a> {
    /// Returns true if `range` is not empty and the set contains all code points in it, including
    /// any surrogates between its start and its end.
    ///
    /// This tests 64 bits at a time, and 1,024 in a full block.
    pub fn contains_range<R: RangeOf<char>>(self, range: R) -> bool
        ensures exact { IsTrue result ↔ (R.start range < min (R.end range) code_point_limit)
            × ((c : ℕ) → R.start range ≤ c → c < min (R.end range) code_point_limit
            → is_held (view_words self.entry) c ≡ true) }
        ensures set { (ends words rest : List ℕ) → IsFrozenOf ends words → view_words self.entry ≡ words ++ rest
            → IsTrue result ↔ (R.start range < min (R.end range) code_point_limit)
            × HoldsAll ends (R.start range) (min (R.end range) code_point_limit) }
    {
        let (start, end) = range.deconstruct();
        let end = end.min(CODE_POINT_LIMIT);
        if start >= end {
            return false;
        }
        contains_all(self.words(), start, end)
    }
}

/// Ranges in a frozen set.
impl FrozenCodePointSet {
    /// Returns true if `range` is not empty and the set contains all code points in it, including
    /// any surrogates between its start and its end.
    ///
    /// This tests 64 bits at a time, and 1,024 in a full block. For a range of 4,096 code points or
    /// more it searches the boundaries of the set.
    pub fn contains_range<R: RangeOf<char>>(&self, range: R) -> bool
        ensures { IsTrue result
            ↔ (R.start range < min (R.end range) code_point_limit)
            × HoldsAll self.now (R.start range) (min (R.end range) code_point_limit) }
    {
        let (start, end) = range.deconstruct();
        let end = end.min(CODE_POINT_LIMIT);
        if start >= end {
            return false;
        }
        match long_range(start, end) {
            Some(range) => self.as_set().contains_range(range),
            None => contains_all(self.as_words(), start, end),
        }
    }
}
