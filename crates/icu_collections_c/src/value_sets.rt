//! The set of the code points that have a value in a trie over bytes.
ghost use Rattle.std.specs.Prelude.{◌≡◌, IfOk, MatchOption};
ghost use Rattle.icu_collections_c.specs.Answers.{AnswersEnds};
ghost use Rattle.icu_collections_c.specs.BytesTrie.{IsSound, IsSoundOf, fitting_in, parts_in, parts_of, value_width};
ghost use Rattle.icu_collections_c.specs.Ranges.{IsSetOf};
ghost use Rattle.icu_collections_c.specs.declared.error.Error.TheVariants.{InvalidTrie};

use crate::answers::ends_answered;
use crate::cells::UnsignedValue;
use crate::error::Error;
use crate::tries::{Trie, header_of};
use icu_invlist::codepointinvlist::{CodePointInversionList, CodePointInversionListBuilder};
use icu_trie::cptrie::CodePointTrie;
use icu_zerovec::{MemoryError, ZeroVec};
use std::alloc::Global;

/// Returns the trie of these cells. `None` if they are not a trie.
fn trie_of<'a, T: UnsignedValue>(trie: &Trie<'a>) -> Option<CodePointTrie<'a, T>>
    ensures { MatchOption result (¬ (IsSound T.of_number T.unpack T.WIDTH trie.now))
        (λ t. IsSound T.of_number T.unpack T.WIDTH trie.now
        × (t ≡ parts_in T.unpack T.WIDTH trie.now)) }
{
    let index = ZeroVec::parse_bytes(trie.index).ok()?;
    let values = ZeroVec::parse_bytes(trie.values).ok()?;
    CodePointTrie::try_new(header_of(trie), index, values).ok()
}

/// Returns the set of the value with this number, or the empty set if no value has this number.
fn set_of<T: UnsignedValue>(
    alloc: Global,
    trie: &CodePointTrie<'_, T>,
    number: u32,
) -> Result<CodePointInversionList<'static>, MemoryError>
    ensures { IfOk result (IsSetOf T.of_number trie.now number) }
{
    let Some(value) = T::try_from_u32(number).ok() else {
        return CodePointInversionListBuilder::new(alloc).build();
    };
    trie.get_set_for_value(alloc, value)
}

/// `bks_trie_set` for values of type `T`.
fn set_answered<T: UnsignedValue>(
    alloc: Global,
    trie: &Trie<'_>,
    number: u32,
    ends: &mut [u32],
) -> i64
    ensures { AnswersEnds (IsSound T.of_number T.unpack T.WIDTH trie.now) InvalidTrie
        (IsSetOf T.of_number (parts_in T.unpack T.WIDTH trie.now) number) ends.old ends.new
        result }
{
    let Some(trie) = trie_of::<T>(trie) else {
        return Error::InvalidTrie.number();
    };
    match set_of(alloc, &trie, number) {
        Ok(set) => ends_answered(alloc, &set, ends),
        Err(_) => Error::NoMemory.number(),
    }
}

/// Writes the boundaries of the set of the code points in ranges of this value into a buffer, as
/// many as fit, and returns how many there are. In a coherent trie these are the code points that
/// have the value.
///
/// # Errors
/// Returns the number of [`Error::InvalidTrie`] if the fields of `trie` do not describe a trie, as
/// those of one that [`bks_trie_open`](crate::opening::bks_trie_open) made do, and of
/// [`Error::NoMemory`] if an allocation fails. The buffer is then unchanged.
#[unsafe(no_mangle)]
pub extern "C" fn bks_trie_set(alloc: Global, trie: &Trie<'_>, value: u32, ends: &mut [u32]) -> i64
    ensures { let width = value_width trie.now.width in
        AnswersEnds (IsSoundOf width trie.now) InvalidTrie
        (IsSetOf (fitting_in width) (parts_of width trie.now) value) ends.old ends.new result }
{
    match trie.width {
        1 => set_answered::<u8>(alloc, trie, value, ends),
        2 => set_answered::<u16>(alloc, trie, value, ends),
        _ => set_answered::<u32>(alloc, trie, value, ends),
    }
}
