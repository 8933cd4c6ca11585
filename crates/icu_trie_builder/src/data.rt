//! The data of a trie: the first 128 cells, the distinct blocks of 64 and of 16, the high value and
//! the error value.
//!
//! - `map_blocks`: places the blocks of the map
//! - `filled_blocks`: shares blocks of 16 with a block of 64 if both have one number throughout
//! - `null_block`: the null block, which a walk knows by its offset; `used_numbers` suggests a
//!   frequent number for it
ghost use Rattle.std.specs.Prelude.{◌≡◌, ℕ, ◌+◌, ◌-◌, ◌*◌, ◌/◌, ◌%◌, ◌^◌, ◌<◌, ◌≤◌, ◌∷◌, Bool, true, length, slice_index, take, Some, IfOk, OnOk, MatchOption};
ghost use Rattle.std.specs.List.{AllPass};
ghost use Rattle.icu_zerovec.specs.CodePoints.{code_point_limit};
ghost use Rattle.icu_trie_core.specs.Format.{fast_limit, high_value};
ghost use Rattle.icu_trie.specs.Parts.{last_cell};
ghost use Rattle.icu_trie_builder.specs.Bounds.{compact_data_bound, IsTooLarge};
ghost use Rattle.icu_trie_builder.specs.Inside.Data.{IsData};
ghost use Rattle.icu_trie_builder.specs.NullBlock.{SomeHoldsOne};
ghost use Rattle.icu_trie_builder.specs.Inside.Map.NumberMap.{IsHighFrom};
ghost use Rattle.icu_trie_builder.specs.declared.error.BuildError.TheVariants.{TooLarge};

use crate::data::map_blocks::{MAX_DATA_OFFSET, MapBlocks};
use crate::data::null_block::{NullBlock, place_null};
use crate::error::BuildError;
use crate::lengths::{FAST_BLOCK, SMALL_BLOCK};
use icu_trie::header::TrieType;

mod filled_blocks;
mod map_blocks;
mod null_block;
mod used_numbers;

use crate::compaction::cell_store::CellStore;
use crate::map::number_map::NumberMap;
use icu_zerovec::CODE_POINT_LIMIT;
use std::alloc::{AllocError, Global};

/// The data offset that stands for "no null block". No block can have it.
const NO_DATA_NULL_OFFSET: u32 = 0xfffff;

/// The cells of the data, and the offsets of the blocks in them.
#[derive(Drop)]
pub(crate) struct PlacedData {
    /// The cells. The last two are the high value and the error value.
    pub(crate) values: Vec<u32>,
    /// The offset of each block of 64 below the fast limit.
    pub(crate) fast: Vec<u32>,
    /// The offset of each block of 16 from the fast limit up to the high start.
    pub(crate) small: Vec<u32>,
    /// The null block.
    pub(crate) null: NullBlock,
}

/// Returns the offsets of all blocks of 64. `rest` has those from the third block on.
fn with_first_offsets(alloc: Global, rest: &[u32]) -> Result<Vec<u32>, AllocError>
    ensures { IfOk result (λ v. v.items ≡ 0 ∷ 64 ∷ rest.now) }
{
    let mut fast = Vec::with_capacity(alloc, rest.len() + 2)?;
    fast.push(0)?;
    fast.push(FAST_BLOCK as u32)?;
    fast.extend_from_slice(rest)?;
    Ok(fast)
}

/// Appends the high value to the data, unless it is already the last cell.
fn push_high(values: &mut Vec<u32>, high: u32) -> Result<(), AllocError>
    requires { 0 < length values.old.items }
    ensures kept { OnOk result (take (length values.old.items) values.new.items
        ≡ values.old.items) }
    ensures short { OnOk result (length values.new.items ≤ length values.old.items + 1) }
    ensures last { OnOk result (slice_index values.new.items (length values.new.items - 1) ≡ high) }
    ensures drawn { OnOk result ((p : ℕ → Bool) → AllPass p values.old.items → p high ≡ true
        → AllPass p values.new.items) }
{
    if values[values.len() - 1] == high {
        return Ok(());
    }
    values.push(high)?;
    Ok(())
}

/// Appends the high value and the error value to the data, unless they are already the last two
/// cells.
fn push_end(values: &mut Vec<u32>, high: u32, error: u32) -> Result<(), AllocError>
    requires { 2 ≤ length values.old.items }
    ensures kept { OnOk result (take (length values.old.items) values.new.items
        ≡ values.old.items) }
    ensures short { OnOk result (length values.new.items ≤ length values.old.items + 2) }
    ensures high { OnOk result (high_value values.new.items ≡ Some high) }
    ensures error { OnOk result (last_cell values.new.items ≡ Some error) }
    ensures drawn { OnOk result ((p : ℕ → Bool) → AllPass p values.old.items → p high ≡ true
        → p error ≡ true → AllPass p values.new.items) }
{
    let len = values.len();
    if values[len - 2] == high && values[len - 1] == error {
        return Ok(());
    }
    push_high(values, high)?;
    values.push(error)?;
    Ok(())
}

/// Returns the high value, which is the number of the last code point. If the high start is
/// 0x110000, no look-up reads the high value, and it is a cell that the data already has.
fn high_for(values: &[u32], high_start: usize, last: u32, error: u32) -> u32
    requires { 2 ≤ length values.now }
    ensures high { high_start < code_point_limit → result ≡ last }
    ensures drawn { (p : ℕ → Bool) → AllPass p values.now → p last ≡ true → p result ≡ true }
{
    let len = values.len();
    if high_start < CODE_POINT_LIMIT as usize {
        last
    } else if values[len - 1] == error {
        values[len - 2]
    } else {
        values[len - 1]
    }
}

/// Appends the high value and the error value to the data, as far as they are not already its last
/// cells. `last` is the number of the last code point.
fn finish(values: &mut Vec<u32>, high_start: usize, last: u32, error: u32) -> Result<(), AllocError>
    requires { 2 ≤ length values.old.items }
    ensures kept { OnOk result (take (length values.old.items) values.new.items
        ≡ values.old.items) }
    ensures short { OnOk result (length values.new.items ≤ length values.old.items + 2) }
    ensures high { OnOk result (high_start < code_point_limit
        → high_value values.new.items ≡ Some last) }
    ensures error { OnOk result (last_cell values.new.items ≡ Some error) }
    ensures drawn { OnOk result ((p : ℕ → Bool) → AllPass p values.old.items → p last ≡ true
        → p error ≡ true → AllPass p values.new.items) }
{
    let high = high_for(values, high_start, last, error);
    push_end(values, high, error)?;
    Ok(())
}

/// Returns the null block. If there is none, the result has an offset that no block has.
fn null_or(null: Option<NullBlock>, default: u32) -> NullBlock
    ensures { MatchOption null
        ((result.offset ≡ 0xfffff) × (result.value ≡ default)) (λ n. result ≡ n) }
{
    match null {
        Some(null) => null,
        None => NullBlock {
            offset: NO_DATA_NULL_OFFSET,
            value: default,
        },
    }
}

/// Makes the data of a map, given the number of each code point. From `high_start` on all code
/// points must have the number of the last one. If no block has one number throughout, the null
/// value is `default`.
///
/// # Errors
///
/// `TooLarge` at the first block of 16 whose offset has more than 18 bits.
pub(crate) fn place_data(
    alloc: Global,
    numbers: &NumberMap,
    error: u32,
    default: u32,
    trie_type: TrieType,
    high_start: usize,
) -> Result<PlacedData, BuildError>
    requires all { length numbers.now ≡ code_point_limit }
    requires aligned { high_start % 512 ≡ 0 }
    requires within { high_start ≤ code_point_limit }
    requires high { IsHighFrom numbers.now high_start }
    ensures placed { IfOk result (λ d.
        IsData trie_type high_start d.null.offset d.null.value (slice_index numbers.now)
        d.fast.items d.small.items d.values.items) }
    ensures null_fit { IfOk result (λ d. d.null.offset ≤ 0xfffff) }
    ensures null_default { IfOk result (λ d. (SomeHoldsOne trie_type high_start
        (slice_index numbers.now) (λ _. Unit {0}) (λ _. Unit {0}) → ⊥)
        → d.null.value ≡ default) }
    ensures null_drawn { IfOk result (λ d. (p : ℕ → Bool) → AllPass p numbers.now → p default ≡ true
        → p d.null.value ≡ true) }
    ensures error_value { IfOk result (λ d. last_cell d.values.items ≡ Some error) }
    ensures short { IfOk result (λ d.
        length d.values.items ≤ compact_data_bound trie_type (slice_index numbers.now)) }
    ensures drawn { IfOk result (λ d. (p : ℕ → Bool) → AllPass p numbers.now → p error ≡ true
        → AllPass p d.values.items) }
    ensures too_large { result ≡ Err TooLarge → IsTooLarge (slice_index numbers.now) }
{
    let limit = trie_type.fast_limit() as usize;
    let small_len = high_start.saturating_sub(limit) / SMALL_BLOCK;
    let mut first = Vec::new(alloc);
    numbers.copy_block(2 * FAST_BLOCK, 0, &mut first)?;
    let mut store = CellStore::new(alloc, first);
    let blocks = MapBlocks {
        map: numbers,
        size: FAST_BLOCK,
    };
    let rest = blocks.place(alloc, &mut store, 2, limit / FAST_BLOCK - 2)?;
    let fast = with_first_offsets(alloc, &rest)?;
    let blocks = MapBlocks {
        map: numbers,
        size: SMALL_BLOCK,
    };
    let mut small = blocks.place(alloc, &mut store, limit / SMALL_BLOCK, small_len)?;
    let mut values = store.into_cells();
    let null = place_null(alloc, &mut values, &fast, &mut small, MAX_DATA_OFFSET)?;
    finish(&mut values, high_start, numbers.last(), error)?;
    Ok(PlacedData {
        values,
        fast,
        small,
        null: null_or(null, default),
    })
}
