//! Writing units into a caller's slice.
ghost use Rattle.std.specs.Prelude.{◌≡◌, ◌+◌, ◌<◌, ◌≤◌, [], ◌∷◌, length};
ghost use Rattle.icu_zerovec.specs.Slice.{slice_values};
ghost use Rattle.icu_invlist_binary.specs.SerializedSet.{units_of_ends};
ghost use Rattle.icu_invlist_binary.specs.Inside.Target.{IsPut};

use icu_zerovec::{CODE_POINT_LIMIT, PotentialCodePoint, ZeroSlice};

/// Writes the unit at index `at`, and returns the index after it.
pub(crate) fn put_unit(target: &mut [u16], at: usize, unit: u16) -> usize
    requires { at < length target.old }
    ensures place { result ≡ at + 1 }
    ensures put { IsPut target.old at (unit ∷ []) target.new }
{
    target[at] = unit;
    at + 1
}

/// Writes the units of the boundaries from index `at` on. `target` must be long enough.
pub(crate) fn put_ends(target: &mut [u16], at: usize, ends: ZeroSlice<'_, PotentialCodePoint>)
    requires { at + length (units_of_ends (slice_values ends)) ≤ length target.old }
    ensures { IsPut target.old at (units_of_ends (slice_values ends.entry)) target.new }
{
    let mut next = at;
    for i in 0..ends.len() {
        let end = u32::from(ends.at(i));
        if end < 0x1_0000 {
            next = put_unit(target, next, end as u16);
        } else if end < CODE_POINT_LIMIT {
            let lower = put_unit(target, next, (end / 0x1_0000) as u16);
            next = put_unit(target, lower, (end % 0x1_0000) as u16);
        }
    }
}
