//! Estimates which number fills the most blocks. This is a heuristic: any result is correct, and no
//! contract says which number it is.
ghost use Rattle.std.specs.Prelude.{◌≡◌, ℕ, ◌+◌, ◌^◌, ◌<◌, ◌≤◌, length, slice_index};
ghost use Rattle.icu_trie_builder.specs.Inside.FilledBlocks.{LieIn};

use crate::data::null_block::is_filled;
use crate::lengths::{FAST_BLOCK, SMALL_BLOCK};
use std::alloc::{AllocError, Global};

/// How many numbers are counted at the same time. Beyond that, a new number replaces the least used
/// one.
const MOST_USES: usize = 32;

/// How many blocks of 16 a number fills.
#[derive(Clone, Copy)]
struct Use {
    value: u32,
    blocks: usize,
}

/// Returns the index of a least used number.
fn least_used(uses: &[Use]) -> usize
    requires { 0 < length uses.now }
    ensures { result < length uses.now }
{
    let mut least = 0;
    for i in 0..uses.len() {
        if uses[i].blocks < uses[least].blocks {
            least = i;
        }
    }
    least
}

/// Adds `blocks` blocks to the count of a number.
fn add_use(uses: &mut Vec<Use>, value: u32, blocks: usize) -> Result<(), AllocError> {
    for i in 0..uses.len() {
        if uses[i].value == value {
            uses[i].blocks = uses[i].blocks.saturating_add(blocks);
            return Ok(());
        }
    }
    if uses.len() < MOST_USES {
        uses.push(Use { value, blocks })?;
    } else {
        let least = least_used(uses);
        uses[least] = Use { value, blocks };
    }
    Ok(())
}

/// Counts `count` blocks of `size` cells at one offset, if they have one number throughout.
fn add_blocks(
    uses: &mut Vec<Use>,
    cells: &[u32],
    at: usize,
    size: usize,
    count: usize,
) -> Result<(), AllocError>
    requires room { length cells.now < 2 ^ 31 }
    requires some { 0 < size }
    requires inside { 0 < count → at + size ≤ length cells.now }
{
    if count > 0 && is_filled(cells, at, size) {
        add_use(uses, cells[at], count.saturating_mul(size / SMALL_BLOCK))?;
    }
    Ok(())
}

/// Counts the blocks of `size` cells at these offsets.
fn add_offsets(
    uses: &mut Vec<Use>,
    cells: &[u32],
    offsets: &[u32],
    size: usize,
) -> Result<(), AllocError>
    requires room { length cells.now < 2 ^ 31 }
    requires some { 0 < size }
    requires inside { (j : ℕ) → j < length offsets.now
        → slice_index offsets.now j + size ≤ length cells.now }
{
    let mut last = 0;
    let mut count = 0;
    for offset in offsets {
        if *offset != last {
            add_blocks(uses, cells, last as usize, size, count)?;
            count = 0;
        }
        last = *offset;
        count += 1;
    }
    add_blocks(uses, cells, last as usize, size, count)
}

/// Returns a number that fills many of these blocks, weighted by their length, or `None` if no
/// block has one number throughout.
pub(crate) fn most_used(
    alloc: Global,
    cells: &[u32],
    fast: &[u32],
    small: &[u32],
) -> Result<Option<u32>, AllocError>
    requires room { length cells.now < 2 ^ 31 }
    requires fast { LieIn 64 fast.now cells.now }
    requires small { LieIn 16 small.now cells.now }
{
    let mut uses = Vec::new(alloc);
    add_offsets(&mut uses, cells, fast, FAST_BLOCK)?;
    add_offsets(&mut uses, cells, small, SMALL_BLOCK)?;
    let mut most = Use {
        value: 0,
        blocks: 0,
    };
    for used in &uses {
        if used.blocks > most.blocks {
            most = *used;
        }
    }
    if most.blocks == 0 {
        return Ok(None);
    }
    Ok(Some(most.value))
}
