//! The null block: a data block of one number, which a walk recognises by its offset and does not
//! read.
ghost use Rattle.std.specs.Prelude.{◌≡◌, ◌≢◌, ℕ, ◌+◌, ◌-◌, ◌*◌, ◌/◌, ◌^◌, ◌<◌, ◌≤◌, Bool, true, false, length, max, take, slice_index, Some, None, IfOk, OnOk, IfSome, IfNone};
ghost use Rattle.std.specs.List.{AllPass};
ghost use Rattle.icu_trie_builder.specs.Inside.FilledBlocks.{HasNoNull, IsApart, IsFilled, IsMoved, IsNull, IsOneOf, LieIn};
ghost use Rattle.icu_trie_builder.specs.declared.error.BuildError.TheVariants.{TooLarge};

use crate::data::filled_blocks::{filled_places, share_filled};
use crate::data::used_numbers::most_used;
use crate::error::BuildError;
use crate::lengths::{FAST_BLOCK, SMALL_BLOCK};
use std::alloc::{AllocError, Global};

/// The offset of the null block, and its number.
#[derive(Clone, Copy)]
pub(crate) struct NullBlock {
    /// The offset of the null block.
    pub(crate) offset: u32,
    /// The number of all its cells.
    pub(crate) value: u32,
}

/// A block that has one number throughout, identified by its index among the blocks of its length.
#[derive(Clone, Copy)]
pub(crate) enum FilledBlock {
    /// A block of 64.
    Fast(usize),
    /// A block of 16.
    Small(usize),
}

/// Returns true if the `size` cells from position `at` on all equal `value`.
fn is_filled_with(cells: &[u32], at: usize, size: usize, value: u32) -> bool
    requires room { length cells.now < 2 ^ 31 }
    requires inside { at + size ≤ length cells.now }
    ensures yes { result ≡ true → IsFilled value size at cells.now }
    ensures no { result ≡ false → IsFilled value size at cells.now → ⊥ }
{
    for i in 0..size {
        if cells[at + i] != value {
            return false;
        }
    }
    true
}

/// Returns true if the `size` cells from position `at` on are equal.
pub(crate) fn is_filled(cells: &[u32], at: usize, size: usize) -> bool
    requires room { length cells.now < 2 ^ 31 }
    requires inside { at + size ≤ length cells.now }
    requires some { 0 < size }
    ensures yes { result ≡ true → IsFilled (slice_index cells.now at) size at cells.now }
    ensures no { result ≡ false → (value : ℕ) → IsFilled value size at cells.now → ⊥ }
{
    is_filled_with(cells, at, size, cells[at])
}

/// Returns true if `value` is the wanted number, or if no number is wanted.
fn is_wanted(wanted: Option<u32>, value: u32) -> bool
    ensures any { wanted ≡ None → result ≡ true }
    ensures only { (v : ℕ) → wanted ≡ Some v → result ≡ true → value ≡ v }
{
    match wanted {
        None => true,
        Some(wanted) => wanted == value,
    }
}

/// Returns the index of the last of the blocks of `size` cells at these offsets that has one number
/// throughout. If `wanted` is some number, only blocks of that number count.
fn find_filled(cells: &[u32], offsets: &[u32], size: usize, wanted: Option<u32>) -> Option<usize>
    requires room { length cells.now < 2 ^ 31 }
    requires some { 0 < size }
    requires inside { (j : ℕ) → j < length offsets.now
        → slice_index offsets.now j + size ≤ length cells.now }
    ensures found { IfSome result (λ n. let at = slice_index offsets.now n in
        (n < length offsets.now) × IsFilled (slice_index cells.now at) size at cells.now) }
    ensures wanted { (v : ℕ) → wanted ≡ Some v
        → IfSome result (λ n. slice_index cells.now (slice_index offsets.now n) ≡ v) }
    ensures none { wanted ≡ None → IfNone result ((j value : ℕ) → j < length offsets.now
        → IsFilled value size (slice_index offsets.now j) cells.now → ⊥) }
{
    for number in (0..offsets.len()).rev() {
        let at = offsets[number] as usize;
        if is_wanted(wanted, cells[at]) && is_filled(cells, at, size) {
            return Some(number);
        }
    }
    None
}

/// Returns the last block that has one number throughout: a block of 64, or a block of 16 if there
/// is none. If `wanted` is some number, only blocks of that number count.
fn find_either(
    cells: &[u32],
    fast: &[u32],
    small: &[u32],
    wanted: Option<u32>,
) -> Option<FilledBlock>
    requires room { length cells.now < 2 ^ 31 }
    requires fast { LieIn 64 fast.now cells.now }
    requires small { LieIn 16 small.now cells.now }
    ensures found { IfSome result (IsOneOf fast.now small.now cells.now) }
    ensures none { wanted ≡ None → IfNone result (HasNoNull fast.now small.now cells.now) }
{
    if let Some(number) = find_filled(cells, fast, FAST_BLOCK, wanted) {
        return Some(FilledBlock::Fast(number));
    }
    if let Some(number) = find_filled(cells, small, SMALL_BLOCK, wanted) {
        return Some(FilledBlock::Small(number));
    }
    None
}

/// Returns a block that has one number throughout, if there is one. It prefers a number that fills
/// many blocks, and a block of 64 of that number.
fn choose(
    alloc: Global,
    cells: &[u32],
    fast: &[u32],
    small: &[u32],
) -> Result<Option<FilledBlock>, AllocError>
    requires room { length cells.now < 2 ^ 31 }
    requires fast { LieIn 64 fast.now cells.now }
    requires small { LieIn 16 small.now cells.now }
    ensures found { IfOk result (λ r. IfSome r (IsOneOf fast.now small.now cells.now)) }
    ensures none { IfOk result (λ r. IfNone r (HasNoNull fast.now small.now cells.now)) }
{
    let used = most_used(alloc, cells, fast, small)?;
    match find_either(cells, fast, small, used) {
        Some(block) => Ok(Some(block)),
        None => Ok(find_either(cells, fast, small, None)),
    }
}

/// Returns true if `at` is one of the offsets.
fn is_taken(taken: &[u32], at: usize) -> bool
    ensures { result ≡ false → IsApart at taken.now }
{
    for offset in taken {
        if *offset as usize == at {
            return true;
        }
    }
    false
}

/// Returns the first position from `from` on at which 16 cells equal `value`, and which is none of
/// `taken`.
fn find_apart(cells: &[u32], value: u32, from: usize, taken: &[u32]) -> Option<usize>
    requires room { length cells.now < 2 ^ 31 }
    ensures inside { IfSome result (λ at. at + 16 ≤ length cells.now) }
    ensures filled { IfSome result (λ at. IsFilled value 16 at cells.now) }
    ensures apart { IfSome result (λ at. IsApart at taken.now) }
{
    for at in from..cells.len().saturating_sub(SMALL_BLOCK - 1) {
        if is_filled_with(cells, at, SMALL_BLOCK, value) && !is_taken(taken, at) {
            return Some(at);
        }
    }
    None
}

/// Returns how many cells at the end equal `value`, up to 15.
fn filled_tail(cells: &[u32], value: u32) -> usize
    ensures most { result ≤ 15 }
    ensures inside { result ≤ length cells.now }
    ensures filled { IsFilled value result (length cells.now - result) cells.now }
{
    let most = cells.len().min(SMALL_BLOCK - 1);
    let mut count = 0;
    while count < most && cells[cells.len() - 1 - count] == value {
        count += 1;
    }
    count
}

/// Returns a position at which 16 cells equal `value` and no block of 64 starts. `taken` has the
/// offsets of the blocks of 64.
///
/// It searches from `from` on. If there is no such position, it appends the missing cells.
fn settle(
    stored: &mut Vec<u32>,
    value: u32,
    from: usize,
    taken: &[u32],
    limit: usize,
) -> Result<usize, BuildError>
    requires room { length stored.old.items < 2 ^ 31 }
    requires taken { LieIn 64 taken.now stored.old.items }
    ensures inside { IfOk result (λ at. at + 16 ≤ length stored.new.items) }
    ensures filled { IfOk result (λ at. IsFilled value 16 at stored.new.items) }
    ensures apart { IfOk result (λ at. IsApart at taken.now) }
    ensures kept { OnOk result (take (length stored.old.items) stored.new.items
        ≡ stored.old.items) }
    ensures short { OnOk result (length stored.new.items ≤ length stored.old.items + 16) }
    ensures capped { OnOk result
        (length stored.new.items ≤ max (length stored.old.items) (limit + 16)) }
    ensures drawn { OnOk result ((p : ℕ → Bool) → AllPass p stored.old.items → p value ≡ true
        → AllPass p stored.new.items) }
    ensures too_large { result ≡ Err TooLarge → limit < length stored.old.items }
{
    if let Some(at) = find_apart(stored, value, from, taken) {
        return Ok(at);
    }
    let at = stored.len() - filled_tail(stored, value);
    if at > limit {
        return Err(BuildError::TooLarge);
    }
    stored.resize(at + SMALL_BLOCK, value)?;
    Ok(at)
}

/// Replaces each offset `from` by `to`.
fn rename(offsets: &mut [u32], from: u32, to: u32)
    ensures renamed { (j : ℕ) → j < length offsets.old → slice_index offsets.old j ≡ from
        → slice_index offsets.new j ≡ to }
    ensures others { (j : ℕ) → slice_index offsets.old j ≢ from
        → slice_index offsets.new j ≡ slice_index offsets.old j }
{
    for offset in offsets.iter_mut() {
        if *offset == from {
            *offset = to;
        }
    }
}

/// Makes block number `number` of 64, which has one number throughout, the null block. The blocks
/// of 16 of the same number get its offset too.
fn null_of_fast(cells: &[u32], fast: &[u32], small: &mut [u32], number: usize) -> NullBlock
    requires room { length cells.now < 2 ^ 31 }
    requires fast { LieIn 64 fast.now cells.now }
    requires small { LieIn 16 small.old cells.now }
    requires number { number < length fast.now }
    requires filled { let at = slice_index fast.now number in
        IsFilled (slice_index cells.now at) 64 at cells.now }
    ensures moved { IsMoved cells.now cells.now small.old small.new }
    ensures null { IsNull fast.now small.new cells.now result.offset result.value }
{
    let offset = fast[number];
    let value = cells[offset as usize];
    if let Some(same) = find_filled(cells, small, SMALL_BLOCK, Some(value)) {
        let from = small[same];
        rename(small, from, offset);
    }
    NullBlock { offset, value }
}

/// Makes block number `number` of 16, which has one number throughout, the null block. This block
/// and its equals move to a position at which no block of 64 starts.
fn null_of_small(
    stored: &mut Vec<u32>,
    fast: &[u32],
    small: &mut [u32],
    number: usize,
    limit: usize,
) -> Result<NullBlock, BuildError>
    requires room { length stored.old.items < 2 ^ 31 }
    requires fast { LieIn 64 fast.now stored.old.items }
    requires small { LieIn 16 small.old stored.old.items }
    requires number { number < length small.old }
    requires filled { let at = slice_index small.old number in
        IsFilled (slice_index stored.old.items at) 16 at stored.old.items }
    ensures moved { OnOk result (IsMoved stored.old.items stored.new.items small.old small.new) }
    ensures null { IfOk result (λ n. IsNull fast.now small.new stored.new.items n.offset n.value) }
    ensures kept { OnOk result (take (length stored.old.items) stored.new.items
        ≡ stored.old.items) }
    ensures short { OnOk result (length stored.new.items ≤ length stored.old.items + 16) }
    ensures capped { OnOk result
        (length stored.new.items ≤ max (length stored.old.items) (limit + 16)) }
    ensures drawn { OnOk result ((p : ℕ → Bool) → AllPass p stored.old.items
        → AllPass p stored.new.items) }
    ensures too_large { result ≡ Err TooLarge → limit < length stored.old.items }
{
    let from = small[number];
    let value = stored[from as usize];
    let at = settle(stored, value, from as usize, fast, limit)?;
    let offset = at as u32;
    rename(small, from, offset);
    Ok(NullBlock { offset, value })
}

/// Chooses the null block among the blocks of 64 (offsets `fast`) and of 16 (offsets `small`): a
/// block that has one number throughout. Returns `None` if there is no such block.
///
/// First, each block of 16 moves to a block of 64 if both have the same number throughout. If the
/// null block is then one of 16, it moves to a position at which no block of 64 starts. Otherwise a
/// walk could take a block of 64 for the null block, because both start at the same offset.
///
/// # Errors
///
/// `TooLarge` if the null block would start above `limit`.
pub(crate) fn place_null(
    alloc: Global,
    stored: &mut Vec<u32>,
    fast: &[u32],
    small: &mut [u32],
    limit: usize,
) -> Result<Option<NullBlock>, BuildError>
    requires room { length stored.old.items < 2 ^ 31 }
    requires fast { LieIn 64 fast.now stored.old.items }
    requires small { LieIn 16 small.old stored.old.items }
    ensures moved { OnOk result (IsMoved stored.old.items stored.new.items small.old small.new) }
    ensures null { IfOk result (λ r. IfSome r (λ n.
        IsNull fast.now small.new stored.new.items n.offset n.value)) }
    ensures none { IfOk result (λ r. IfNone r (HasNoNull fast.now small.new stored.new.items)) }
    ensures kept { OnOk result (take (length stored.old.items) stored.new.items
        ≡ stored.old.items) }
    ensures short { OnOk result (length stored.new.items ≤ length stored.old.items + 16) }
    ensures capped { OnOk result
        (length stored.new.items ≤ max (length stored.old.items) (limit + 16)) }
    ensures drawn { OnOk result ((p : ℕ → Bool) → AllPass p stored.old.items
        → AllPass p stored.new.items) }
    ensures too_large { result ≡ Err TooLarge → limit < length stored.old.items }
{
    let places = filled_places(alloc, stored, fast)?;
    share_filled(stored, &places, small);
    match choose(alloc, stored, fast, small)? {
        None => Ok(None),
        Some(FilledBlock::Fast(number)) => Ok(Some(null_of_fast(stored, fast, small, number))),
        Some(FilledBlock::Small(number)) => {
            Ok(Some(null_of_small(stored, fast, small, number, limit)?))
        }
    }
}
