//! Builds a whole trie of numbers.
ghost use Rattle.std.specs.Prelude.{◌≡◌, ℕ, Bool, true, slice_index, IfOk};
ghost use Rattle.std.specs.List.{AllPass};
ghost use Rattle.icu_trie_builder.specs.Bounds.{IsTooLarge};
ghost use Rattle.icu_trie_builder.specs.Inside.NumberTrie.{IsNumberTrie};
ghost use Rattle.icu_trie_builder.specs.NullBlock.{HasDefaultNull};
ghost use Rattle.icu_trie_builder.specs.declared.error.BuildError.TheVariants.{TooLarge};

use crate::data::{PlacedData, place_data};
use crate::error::BuildError;
use crate::index::build_index;
use crate::map::number_map::NumberMap;
use icu_trie::header::{CodePointTrieHeader, TrieType};
use std::alloc::Global;

/// The parts of a trie whose values are numbers.
#[derive(Drop)]
pub(crate) struct NumberTrie {
    /// The header of the trie.
    pub(crate) header: CodePointTrieHeader,
    /// The index cells, which lead from a code point to its position in `values`.
    pub(crate) index: Vec<u16>,
    /// The data. The last two cells are the high value and the error value.
    pub(crate) values: Vec<u32>,
}

/// Builds the trie of a map, given the number of each code point. `error` is the number for
/// everything above 0x10FFFF. The null value in the header is that of the null block, or `default`
/// if there is none.
///
/// # Errors
///
/// `TooLarge` at the first offset that does not fit its cell, and `Memory` if an allocation fails.
pub(crate) fn build_numbers(
    alloc: Global,
    numbers: &NumberMap,
    error: u32,
    default: u32,
    trie_type: TrieType,
) -> Result<NumberTrie, BuildError>
    ensures built { IfOk result (λ t.
        IsNumberTrie (λ c. slice_index numbers.now c) error t.header t.index.items t.values.items) }
    ensures trie_type { IfOk result (λ t. t.header.trie_type ≡ trie_type) }
    ensures null_default { IfOk result (λ t.
        HasDefaultNull default t.header (λ c. slice_index numbers.now c)) }
    ensures null_value { IfOk result (λ t. (p : ℕ → Bool) → AllPass p numbers.now → p default ≡ true
        → p t.header.null_value ≡ true) }

    // Each cell is a number of the map or the error value.
    ensures drawn { IfOk result (λ t. (p : ℕ → Bool) → AllPass p numbers.now → p error ≡ true
        → AllPass p t.values.items) }
    ensures too_large { result ≡ Err TooLarge → IsTooLarge (λ c. slice_index numbers.now c) }
{
    let high_start = numbers.high_start();
    let PlacedData {
        values,
        fast,
        small,
        null,
    } = place_data(alloc, numbers, error, default, trie_type, high_start)?;
    let built = build_index(
        alloc,
        trie_type,
        high_start,
        &fast,
        &small,
        null.offset as usize,
    )?;
    let header = CodePointTrieHeader {
        high_start: high_start as u32,
        shifted12_high_start: high_start.div_ceil(0x1000) as u16,
        index3_null_offset: built.null_offset,
        data_null_offset: null.offset,
        null_value: null.value,
        trie_type,
    };
    Ok(NumberTrie {
        header,
        index: built.cells,
        values,
    })
}
