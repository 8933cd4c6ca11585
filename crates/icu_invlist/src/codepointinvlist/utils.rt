//! The numbers in a range, and the validity of an inversion list.
ghost use Rattle.std.specs.Prelude.{◌≡◌, ◌↔◌, IsTrue};
ghost use Rattle.std.specs.List.Sorted.{IsStrictlyIncreasing};
ghost use Rattle.icu_invlist.specs.InversionList.{IsValid};

pub use crate::codepointinvlist::range_of::{RangeOf, RangePoint};
use crate::codepointinvlist::sizes::valid_size;
use icu_zerovec::{CODE_POINT_LIMIT, PotentialCodePoint, ZeroVec};

/// Returns the inclusive start and the exclusive end of a range.
///
/// A missing start is 0, and a missing end is 0x110000. An included end of `u32::MAX` has no
/// successor and becomes the exclusive end itself: `0..=u32::MAX` gives `(0, u32::MAX)`.
pub fn deconstruct_range<X: RangePoint, R: RangeOf<X>>(range: R) -> (u32, u32)
    ensures start { result.0 ≡ R.start range }
    ensures end { result.1 ≡ R.end range }
{
    range.deconstruct()
}

/// Returns true if `ends` is an inversion list: its length is even, it is strictly ascending, and
/// no number is above 0x110000.
///
/// `[0x41, 0x5B]` and the empty list are inversion lists, and `[1, 2, 2, 3]` is not.
pub fn is_valid_zv(ends: &ZeroVec<'_, PotentialCodePoint>) -> bool
    ensures { IsTrue result ↔ IsValid ends.now }
{
    valid_size(ends).is_some()
}

/// Returns true if the numbers ascend strictly. The loop looks at all of them, so LLVM vectorises it.
#[tactic(auto, using(std::proofs::lemmas::Bool::cases_lt, crate::proofs::AscendLemmas::false_if_not, crate::proofs::AscendLemmas::not_if_false))]
fn ascend(ends: &[u32]) -> bool
    ensures { IsTrue result ↔ IsStrictlyIncreasing ends.now }
{
    let mut falls = false;
    for i in 1..ends.len() {
        falls |= ends[i] <= ends[i - 1];
    }
    !falls
}

/// Returns true if `ends` is an inversion list. The same test as `is_valid_zv`, for numbers that
/// are not packed yet.
pub fn is_valid_slice(ends: &[u32]) -> bool
    ensures { IsTrue result ↔ IsValid ends.now }
{
    if !ends.len().is_multiple_of(2) {
        return false;
    }
    match ends.last() {
        Some(last) => *last <= CODE_POINT_LIMIT && ascend(ends),
        None => true,
    }
}
