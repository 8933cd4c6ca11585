//! Sets made from two sets.
ghost use Rattle.std.specs.Prelude.{◌≡◌, ◌↔◌, IsTrue};
ghost use Rattle.icu_invlist.specs.InversionList.{IsValid, either, both, without, one_of};
ghost use Rattle.icu_collections_c.specs.Answers.{CountsEnds};
ghost use Rattle.icu_collections_c.specs.SetOperations.{IsSetOf};
ghost use Rattle.icu_collections_c.specs.declared.error.Error.TheVariants.{InvalidSet};

use crate::error::Error;
use crate::sets::bks_set_test;
use icu_invlist::merge::{
    Difference, Intersection, SetOperation, SymmetricDifference, Union, merge,
};

/// Returns whether both lists are the boundaries of sets.
fn are_sets(a: &[u32], b: &[u32]) -> bool
    ensures { IsTrue result ↔ (IsValid a.now × IsValid b.now) }
{
    bks_set_test(a) && bks_set_test(b)
}

/// Writes the boundaries of the result of an operation on two sets into a buffer, as many as fit,
/// and returns how many there are, or the number of an error.
#[inline(always)]
fn write_set<O: SetOperation>(a: &[u32], b: &[u32], ends: &mut [u32]) -> i64
    ensures { CountsEnds (IsValid a.now × IsValid b.now) InvalidSet
        (IsSetOf O.gives a.now b.now) ends.old ends.new result }
{
    if !are_sets(a, b) {
        return Error::InvalidSet.number();
    }
    merge::<O, &[u32], &[u32]>(a, b, ends) as i64
}

/// Writes the boundaries of the union of two sets into a buffer, as many as fit, and returns how
/// many there are.
///
/// ICU: `uset_addAll`.
///
/// # Errors
/// Returns the number of [`Error::InvalidSet`] if one of the lists is not the boundaries of a set
/// ([`bks_set_test`]). The buffer is then unchanged.
#[unsafe(no_mangle)]
pub extern "C" fn bks_set_union(a: &[u32], b: &[u32], ends: &mut [u32]) -> i64
    ensures { CountsEnds (IsValid a.now × IsValid b.now) InvalidSet
        (IsSetOf either a.now b.now) ends.old ends.new result }
{
    write_set::<Union>(a, b, ends)
}

/// Writes the boundaries of the intersection of two sets into a buffer, as many as fit, and returns
/// how many there are.
///
/// ICU: `uset_retainAll`.
///
/// # Errors
/// Returns the number of [`Error::InvalidSet`] if one of the lists is not the boundaries of a set
/// ([`bks_set_test`]). The buffer is then unchanged.
#[unsafe(no_mangle)]
pub extern "C" fn bks_set_intersection(a: &[u32], b: &[u32], ends: &mut [u32]) -> i64
    ensures { CountsEnds (IsValid a.now × IsValid b.now) InvalidSet
        (IsSetOf both a.now b.now) ends.old ends.new result }
{
    write_set::<Intersection>(a, b, ends)
}

/// Writes the boundaries of the difference of two sets into a buffer, as many as fit, and returns
/// how many there are. The difference has the code points in `a` that are not in `b`.
///
/// ICU: `uset_removeAll`.
///
/// # Errors
/// Returns the number of [`Error::InvalidSet`] if one of the lists is not the boundaries of a set
/// ([`bks_set_test`]). The buffer is then unchanged.
#[unsafe(no_mangle)]
pub extern "C" fn bks_set_difference(a: &[u32], b: &[u32], ends: &mut [u32]) -> i64
    ensures { CountsEnds (IsValid a.now × IsValid b.now) InvalidSet
        (IsSetOf without a.now b.now) ends.old ends.new result }
{
    write_set::<Difference>(a, b, ends)
}

/// Writes the boundaries of the symmetric difference of two sets into a buffer, as many as fit, and
/// returns how many there are. The symmetric difference has the code points in exactly one of the
/// sets.
///
/// ICU: `uset_complementAll`.
///
/// # Errors
/// Returns the number of [`Error::InvalidSet`] if one of the lists is not the boundaries of a set
/// ([`bks_set_test`]). The buffer is then unchanged.
#[unsafe(no_mangle)]
pub extern "C" fn bks_set_symmetric_difference(a: &[u32], b: &[u32], ends: &mut [u32]) -> i64
    ensures { CountsEnds (IsValid a.now × IsValid b.now) InvalidSet
        (IsSetOf one_of a.now b.now) ends.old ends.new result }
{
    write_set::<SymmetricDifference>(a, b, ends)
}
