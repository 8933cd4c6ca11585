//! Iterators over the ranges and the characters of a set.
ghost use Rattle.std.specs.Prelude.{◌≡◌, ◌<◌, ◌≤◌, ◌-◌, ◌^◌, ◌∷◌, [], length, Some, IfSome};
ghost use Rattle.std.specs.Char.{OutOfScalarRange};
ghost use Rattle.std.specs.Iterator.{YieldsFirst, item_count, at_most, UpTo};
ghost use Rattle.std.specs.Iterator.SizeHint.{IsWithinCount};
ghost use Rattle.std.specs.List.{filter, range_with_len};
ghost use Rattle.std.specs.Option.{MatchOption};
ghost use Rattle.std.proofs.Math.Utf8.{scalar};
ghost use Rattle.icu_zerovec.specs.CodePoints.{code_point_limit};
ghost use Rattle.icu_invlist.specs.InversionList.{IsValid, characters, ranges_of};
ghost use Rattle.icu_invlist.specs.Inside.StillGiven.{ends_in, ArePackedEnds, gaps_left, start_at};

use icu_zerovec::iter::Iter;
use icu_zerovec::ule::AsULE;
use icu_zerovec::{CODE_POINT_LIMIT, PotentialCodePoint, ZeroVec};
use std::fmt;
use std::marker::Model;
use std::mem::take;
use std::ops::RangeInclusive;

/// An iterator over the ranges of a set, in ascending order.
/// [`iter_ranges`](crate::codepointinvlist::CodePointInversionList::iter_ranges) returns it.
///
/// It knows how many ranges are left.
///
/// # Contract
/// In contracts, it is the list of the boundaries of the ranges that are left.
#[derive(Drop)]
pub struct IterRanges<'a> {
    /// The packed boundaries that are left: six bytes for each range.
    bytes: &'a [u8],
}

impl<'a> Model for IterRanges<'a> {
    ghost use Rattle.std.specs.Prelude.{List, ℕ};
    ghost use Rattle.icu_invlist.specs.Inside.StillGiven.{ends_in, ArePackedEnds};

    ghost Value = { List ℕ };

    ghost view = { λ a. ends_in a.bytes.now };

    ghost invariant = { λ a. ArePackedEnds a.bytes.now };
}

impl<'a> IterRanges<'a> {
    /// Returns an iterator over the ranges with these packed boundaries.
    pub(crate) fn from_bytes(bytes: &'a [u8]) -> Self
        requires { ArePackedEnds bytes.now }
        ensures { result ≡ ends_in bytes.now }
    {
        IterRanges { bytes }
    }
}

/// Formats the boundaries that are left as a list.
impl<'a> fmt::Debug for IterRanges<'a> {
    fn fmt<W: fmt::Write>(&self, f: &mut fmt::Formatter<W>) -> fmt::Result {
        match ZeroVec::<PotentialCodePoint>::parse_bytes(self.bytes) {
            Ok(ends) => f.debug_struct("IterRanges").field("ends", &ends).finish(),
            Err(_) => unreachable!(),
        }
    }
}

impl<'a> Iterator for IterRanges<'a> {
    type Item = RangeInclusive<u32>;

    ghost next_gives = { YieldsFirst ranges_of };

    ghost remaining = { item_count ranges_of };

    fn next(&mut self) -> Option<RangeInclusive<u32>> {
        if self.bytes.is_empty() {
            return None;
        }
        // Each range has six bytes, so at least six are left.
        let (range, others) = self.bytes.split_at(6);
        self.bytes = others;
        let start = PotentialCodePoint::from_unaligned(&range[..3])?;
        let end = PotentialCodePoint::from_unaligned(&range[3..6])?;
        Some(RangeInclusive::new(u32::from(start), u32::from(end) - 1))
    }

    #[tactic(auto, using(crate::proofs::PackedEnds::count_ranges))]
    fn size_hint(&self) -> (usize, Option<usize>)
        ensures lower { IsWithinCount result.0 (at_most (length (ranges_of self.now))) }
        ensures upper { IfSome result.1 (UpTo (at_most (length (ranges_of self.now)))) }
        ensures exact { (result.0 ≡ length (ranges_of self.now))
            × (result.1 ≡ Some (length (ranges_of self.now))) }
    {
        let len = self.bytes.len() / 6;
        (len, Some(len))
    }
}

impl<'a> ExactSizeIterator for IterRanges<'a> {
    #[tactic(auto, using(crate::proofs::PackedEnds::count_ranges))]
    fn len(&self) -> usize {
        self.bytes.len() / 6
    }
}

/// An iterator over the ranges of code points that are not in a set, in ascending order.
/// [`iter_ranges_complemented`](crate::codepointinvlist::CodePointInversionList::iter_ranges_complemented)
/// returns it.
///
/// # Contract
/// In contracts, it is the list of the boundaries of the ranges that are left.
#[derive(Debug, Drop)]
pub struct IterRangesComplemented<'a> {
    start: Option<u32>,
    ends: Iter<'a, PotentialCodePoint>,
}

impl<'a> Model for IterRangesComplemented<'a> {
    ghost use Rattle.std.specs.Prelude.{List, ℕ};
    ghost use Rattle.icu_invlist.specs.InversionList.{IsValid};
    ghost use Rattle.icu_invlist.specs.Inside.StillGiven.{gaps_left};

    ghost Value = { List ℕ };

    ghost view = { λ a. gaps_left a.start a.ends };

    ghost invariant = { λ a. IsValid (gaps_left a.start a.ends) };
}

/// Returns the start of the next gap, given the exclusive end of the set's range before it. There
/// is no gap if that end is the end of the code space.
pub(crate) fn start_of_gap(end: Option<PotentialCodePoint>) -> Option<u32>
    ensures { result ≡ start_at end }
{
    let end = u32::from(end?);
    if end < CODE_POINT_LIMIT {
        Some(end)
    } else {
        None
    }
}

impl<'a> IterRangesComplemented<'a> {
    /// Returns an iterator over the gaps from `start` on. `ends` are the set's boundaries after
    /// that start.
    pub(crate) fn from_gap(start: Option<u32>, ends: Iter<'a, PotentialCodePoint>) -> Self
        requires { IsValid (gaps_left start ends) }
        ensures { result ≡ gaps_left start ends.entry }
    {
        IterRangesComplemented { start, ends }
    }
}

impl<'a> Iterator for IterRangesComplemented<'a> {
    type Item = RangeInclusive<u32>;

    ghost next_gives = { YieldsFirst ranges_of };

    ghost remaining = { item_count ranges_of };

    fn next(&mut self) -> Option<RangeInclusive<u32>> {
        let start = self.start?;
        match self.ends.next() {
            None => {
                self.start = None;
                Some(RangeInclusive::new(start, CODE_POINT_LIMIT - 1))
            }
            Some(end) => {
                self.start = start_of_gap(self.ends.next());
                Some(RangeInclusive::new(start, u32::from(end) - 1))
            }
        }
    }
}

/// An iterator over the characters in a set, in ascending order.
/// [`iter_chars`](crate::codepointinvlist::CodePointInversionList::iter_chars) returns it.
///
/// # Contract
/// In contracts, it is the list of the characters that are left.
#[derive(Debug, Drop)]
pub struct IterChars<'a> {
    next: u32,
    end: u32,
    /// What `next_back`, which only the Rust edition has, left of the last range: inclusive start,
    /// exclusive end. `next` yields it after the ranges of `ends`.
    last: (u32, u32),
    ends: Iter<'a, PotentialCodePoint>,
}

impl<'a> Model for IterChars<'a> {
    ghost use Rattle.std.specs.Prelude.{List, ℕ};
    ghost use Rattle.icu_invlist.specs.Inside.StillGiven.{characters_left};

    ghost Value = { List ℕ };

    ghost view = { λ a. characters_left a.next a.end a.ends a.last.0 a.last.1 };
}

impl<'a> IterChars<'a> {
    /// Returns an iterator over the characters in the ranges with these boundaries.
    pub(crate) fn from_ends(ends: Iter<'a, PotentialCodePoint>) -> Self
        ensures { result ≡ characters ends.entry }
    {
        IterChars {
            next: 0,
            end: 0,
            last: (0, 0),
            ends,
        }
    }
}

/// Does what [`take_char`] does if `next` is no character: passes all surrogates in one step.
#[tactic(auto, using(crate::proofs::CharacterLemmas::char_or_none, crate::proofs::CharacterLemmas::moved_past, crate::proofs::CharacterLemmas::none_left))]
#[cold]
fn take_past_surrogates(next: &mut u32, end: u32) -> Option<char>
    requires { OutOfScalarRange next.old }
    ensures { MatchOption result
        ((filter scalar (range_with_len next.old (end - next.old)) ≡ [])
        × (filter scalar (range_with_len next.new (end - next.new)) ≡ []))
        (λ c. filter scalar (range_with_len next.old (end - next.old))
        ≡ c ∷ filter scalar (range_with_len next.new (end - next.new))) }
{
    if *next < 0xE000 {
        *next = 0xE000;
    }
    if end <= *next {
        return None;
    }
    let c = char::from_u32(*next);
    *next += 1;
    c
}

/// Returns the first character from `next` to `end` exclusive and moves `next` past it. Skips
/// surrogates.
///
/// There is no loop here: LLVM vectorises one, as if it had far to search for each character.
#[tactic(auto, using(crate::proofs::CharacterLemmas::char_found, crate::proofs::CharacterLemmas::none_left, crate::proofs::CharacterLemmas::none_read))]
#[inline(always)]
fn take_char(next: &mut u32, end: u32) -> Option<char>
    ensures { MatchOption result
        ((filter scalar (range_with_len next.old (end - next.old)) ≡ [])
        × (filter scalar (range_with_len next.new (end - next.new)) ≡ []))
        (λ c. filter scalar (range_with_len next.old (end - next.old))
        ≡ c ∷ filter scalar (range_with_len next.new (end - next.new))) }
{
    if *next >= end {
        return None;
    }
    let c = char::from_u32(*next);
    if c.is_none() {
        return take_past_surrogates(next, end);
    }
    *next += 1;
    c
}

impl<'a> Iterator for IterChars<'a> {
    type Item = char;

    ghost next_gives = { YieldsFirst (λ s. s) };

    ghost remaining = { item_count (λ s. s) };

    #[inline]
    fn next(&mut self) -> Option<char> {
        loop {
            let found = take_char(&mut self.next, self.end);
            if found.is_some() {
                return found;
            }
            let (Some(start), Some(end)) = (self.ends.next(), self.ends.next()) else {
                if self.last.0 >= self.last.1 {
                    return None;
                }
                (self.next, self.end) = take(&mut self.last);
                continue;
            };
            self.next = u32::from(start);
            self.end = u32::from(end);
        }
    }
}
