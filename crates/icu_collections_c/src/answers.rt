//! The boundaries of a set, in the caller's buffer.
ghost use Rattle.std.specs.Prelude.{◌≡◌};
ghost use Rattle.icu_collections_c.specs.Answers.{GivesEnds};

use crate::buffers::write;
use crate::error::Error;
use icu_invlist::codepointinvlist::CodePointInversionList;
use std::alloc::Global;

/// Writes the boundaries of a set into a buffer, as many as fit, and returns how many there are.
/// Returns the number of [`Error::NoMemory`] if an allocation fails; the buffer is then
/// unchanged.
pub(crate) fn ends_answered(
    alloc: Global,
    set: &CodePointInversionList<'_>,
    buffer: &mut [u32],
) -> i64
    ensures { GivesEnds (λ ends. ends ≡ set.now) buffer.old buffer.new result }
{
    let Ok(ends) = set.get_inversion_list_vec(alloc) else {
        return Error::NoMemory.number();
    };
    write(&ends, buffer);
    set.as_inversion_list().len() as i64
}
