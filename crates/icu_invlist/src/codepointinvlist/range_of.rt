//! Types that are ranges of numbers: `a..b`, `a..=b`, `a..`, `..b`, `..=b` and `..`, over `char` or `u32`.
ghost use Rattle.std.specs.Prelude.{◌≡◌, ◌≤◌, ℕ, ◌-◌, ◌^◌};
ghost use Rattle.std.specs.Range.{range_inclusive_start};
ghost use Rattle.std.proofs.Common.{lit≤};
ghost use Rattle.icu_zerovec.specs.CodePoints.{code_point_limit};
ghost use Rattle.icu_invlist.specs.NamedCodePoints.{open_start, open_end, end_of_included, end_of_inclusive, is_used_up, range_of_numbers};

use icu_zerovec::CODE_POINT_LIMIT;
use std::ops::{Range, RangeFrom, RangeFull, RangeInclusive, RangeTo, RangeToInclusive};

/// A type that ranges can be made of: `char` or `u32`.
pub trait RangePoint: Copy {
    /// The greatest exclusive end that a range of this type can have.
    ghost last_end: { ℕ };

    /// The number of a value; for a character, its code point.
    ghost number: { Self → ℕ };

    /// Returns the number of the value; for a character, its code point.
    fn number(self) -> u32
        ensures number { result ≡ number self }
        ensures within { end_of_included result ≤ last_end };

    /// Returns true if `range` was iterated to its end: it is empty, although its start is not
    /// above its end.
    fn is_used_up(range: &RangeInclusive<Self>) -> bool
        ensures { result ≡ is_used_up (range_of_numbers number range.now) };

    /// The end of the code space, which is the end of an unbounded range, is not above the greatest
    /// end.
    ghost open_end_fits: { code_point_limit ≤ last_end };
}

impl RangePoint for char {
    ghost last_end = { code_point_limit };

    ghost number = { λ c. c };

    ghost open_end_fits = { lit≤ tt };

    fn number(self) -> u32 {
        u32::from(self)
    }

    fn is_used_up(range: &RangeInclusive<char>) -> bool {
        *range.start() <= *range.end() && range.is_empty()
    }
}

impl RangePoint for u32 {
    ghost last_end = { 2 ^ 32 - 1 };

    ghost number = { λ n. n };

    ghost open_end_fits = { lit≤ tt };

    fn number(self) -> u32 {
        self
    }

    fn is_used_up(range: &RangeInclusive<u32>) -> bool {
        *range.start() <= *range.end() && range.is_empty()
    }
}

/// A range of `char` or of `u32`: `a..b`, `a..=b`, `a..`, `..b`, `..=b` or `..`.
///
/// It contains all numbers from its start to its end, so a range of characters includes the
/// surrogates between them.
pub trait RangeOf<X: RangePoint> {
    /// The inclusive start.
    ghost start: { Self → ℕ };

    /// The exclusive end.
    ghost end: { Self → ℕ };

    /// Returns the inclusive start and the exclusive end.
    fn deconstruct(self) -> (u32, u32)
        ensures start { result.0 ≡ start self }
        ensures end { result.1 ≡ end self }
        ensures within { result.1 ≤ X.last_end };
}

impl<X: RangePoint> RangeOf<X> for Range<X> {
    ghost start = { λ r. X.number r.start };

    ghost end = { λ r. X.number r.end };

    fn deconstruct(self) -> (u32, u32) {
        (self.start.number(), self.end.number())
    }
}

impl<X: RangePoint> RangeOf<X> for RangeInclusive<X> {
    ghost start = { λ r. X.number (range_inclusive_start r) };

    ghost end = { λ r. end_of_inclusive (range_of_numbers X.number r) };

    fn deconstruct(self) -> (u32, u32) {
        let start = (*self.start()).number();
        let end = (*self.end()).number();
        if X::is_used_up(&self) {
            (start, end)
        } else {
            (start, end.saturating_add(1))
        }
    }
}

impl<X: RangePoint> RangeOf<X> for RangeFrom<X> {
    ghost start = { λ r. X.number r.start };

    ghost end = { λ _. open_end };

    fn deconstruct(self) -> (u32, u32) {
        (self.start.number(), CODE_POINT_LIMIT)
    }
}

impl<X: RangePoint> RangeOf<X> for RangeTo<X> {
    ghost start = { λ _. open_start };

    ghost end = { λ r. X.number r.end };

    fn deconstruct(self) -> (u32, u32) {
        (0, self.end.number())
    }
}

impl<X: RangePoint> RangeOf<X> for RangeToInclusive<X> {
    ghost start = { λ _. open_start };

    ghost end = { λ r. end_of_included (X.number r.end) };

    fn deconstruct(self) -> (u32, u32) {
        (0, self.end.number().saturating_add(1))
    }
}

impl<X: RangePoint> RangeOf<X> for RangeFull {
    ghost start = { λ _. open_start };

    ghost end = { λ _. open_end };

    fn deconstruct(self) -> (u32, u32) {
        (0, CODE_POINT_LIMIT)
    }
}
