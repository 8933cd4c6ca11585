//! The words of a frozen set, made of the boundaries of a set.
ghost use Rattle.std.specs.Prelude.{◌≡◌, ◌⊎◌, ℕ, ◌<◌, ◌≤◌, IfOk, length, slice_index};
ghost use Rattle.icu_zerovec.specs.CodePoints.{code_point_limit};
ghost use Rattle.icu_invlist.specs.InversionList.{IsValid};
ghost use Rattle.icu_frozen_sets.specs.FrozenWords.{IsFrozenOf};

use crate::filling::Filling;
use icu_invlist::boundaries::Boundaries;
use icu_zerovec::{CODE_POINT_LIMIT, MemoryError};
use std::alloc::Global;

/// Returns the last boundary that is not the end of the code space, or 0 if there is none.
fn last_boundary<B: Boundaries>(ends: B) -> u32
    requires { IsValid (B.list ends) }
    ensures last { (i : ℕ) → i < length (B.list ends)
        → (slice_index (B.list ends) i ≤ result) ⊎ (slice_index (B.list ends) i ≡ code_point_limit) }
    ensures least { (p : ℕ)
        → ((i : ℕ) → i < length (B.list ends)
        → (slice_index (B.list ends) i < p) ⊎ (slice_index (B.list ends) i ≡ code_point_limit))
        → result ≤ p }
{
    let count = ends.count();
    if count < 2 {
        return 0;
    }
    let last = ends.at(count - 1);
    if last < CODE_POINT_LIMIT {
        last
    } else {
        ends.at(count - 2)
    }
}

/// Returns the words of the frozen set with these boundaries, in the form that
/// [`FrozenView`](crate::view::FrozenView) reads.
///
/// # Errors
/// Returns `MemoryError` if an allocation fails.
pub fn frozen_words<B: Boundaries>(alloc: Global, ends: B) -> Result<Vec<u64>, MemoryError>
    requires { IsValid (B.list ends) }
    ensures { IfOk result (λ words. IsFrozenOf (B.list ends) words.items) }
{
    let ranges = ends.count() / 2;
    let mut filling = Filling::new(alloc, last_boundary(ends), ranges)?;
    for i in 0..ranges {
        filling.add(ends.at(2 * i), ends.at(2 * i + 1))?;
    }
    let words = filling.finish()?;
    Ok(words)
}
