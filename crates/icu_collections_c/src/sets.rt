//! Sets of code points as lists of their boundaries.
ghost use Rattle.std.specs.Prelude.{◌≡◌, ◌↔◌, ◌≤◌, IsTrue, length};
ghost use Rattle.std.specs.List.Sorted.{IsStrictlyIncreasing};
ghost use Rattle.icu_zerovec.specs.CodePoints.{code_point_limit};
ghost use Rattle.icu_invlist.specs.InversionList.{IsValid, holds, members_below};
ghost use Rattle.icu_collections_c.specs.Answers.{CountsMembers};
ghost use Rattle.icu_collections_c.specs.Inside.SetPlaces.{IsPlaceFrom};

use crate::error::Error;
use icu_invlist::codepointinvlist::sizes::size_of;
use icu_invlist::codepointinvlist::utils::is_valid_slice;

/// Returns whether the numbers are the boundaries of a set (an inversion list): an even count of
/// them, strictly ascending, and none above 0x110000. The set contains the code points from the
/// first number up to but not including the second, from the third up to but not including the
/// fourth, and so on.
#[unsafe(no_mangle)]
pub extern "C" fn bks_set_test(ends: &[u32]) -> bool
    ensures { IsTrue result ↔ IsValid ends.now }
{
    is_valid_slice(ends)
}

/// Returns how many of the boundaries are at most `c`. A number below the first boundary, or above
/// the last one, takes no search.
#[inline(always)]
pub(crate) fn place_of(ends: &[u32], c: u32) -> usize
    ensures within { result ≤ length ends.now }
    ensures place { IsStrictlyIncreasing ends.now → IsPlaceFrom ends.now 0 c result }
{
    let count = ends.len();
    if count == 0 || c < ends[0] {
        0
    } else if ends[count - 1] <= c {
        count
    } else {
        ends.partition_point(|end| *end <= c)
    }
}

/// Returns whether the set with these boundaries contains the code point `c`. No set contains a
/// number above 0x10FFFF. The result is unspecified (but memory-safe) if [`bks_set_test`] returns
/// false.
///
/// ICU: `uset_contains`.
#[unsafe(no_mangle)]
pub extern "C" fn bks_set_contains(ends: &[u32], c: u32) -> bool
    ensures { IsValid ends.now → result ≡ holds ends.now c }
{
    place_of(ends, c) % 2 == 1
}

/// Returns how many code points the set with these boundaries contains, surrogates included.
///
/// ICU: `uset_size`.
///
/// # Errors
/// Returns the number of [`Error::InvalidSet`] if the numbers are not the boundaries of a set.
#[unsafe(no_mangle)]
pub extern "C" fn bks_set_size(ends: &[u32]) -> i64
    ensures { CountsMembers (IsValid ends.now) (members_below ends.now code_point_limit) result }
{
    if !bks_set_test(ends) {
        return Error::InvalidSet.number();
    }
    i64::from(size_of(ends))
}
