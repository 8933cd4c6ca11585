//! Look-ups in a trie.
ghost use Rattle.std.specs.Prelude.{◌≡◌, ℕ, ◌+◌, ◌^◌, ◌<◌, ◌≤◌, ◌/◌, ◌%◌, ◌-◌, List, Some, None, length, IfSome, false};
ghost use Rattle.std.specs.Option.{option_and_then};
ghost use Rattle.icu_trie_core.specs.Format.{answer, fast_limit, high_cell, index2_cell, offset_in_block, long_offset, small_offset};
ghost use Rattle.icu_trie_core.specs.FastIndex.{IsWhole};

use crate::cells::Cells;
use crate::header::{CodePointTrieHeader, TrieType};
use crate::impl_const::{
    BMP_INDEX_LENGTH, CODE_POINT_MAX, FAST_TYPE_DATA_MASK, FAST_TYPE_SHIFT,
    HIGH_VALUE_NEG_DATA_OFFSET, INDEX_2_MASK, INDEX_3_MASK, OMITTED_BMP_INDEX_1_LENGTH, SHIFT_1,
    SHIFT_2, SHIFT_3, SMALL_DATA_MASK, SMALL_INDEX_LENGTH,
};

/// Returns the index-2 cell of a code point, in at most two reads.
#[inline]
pub(crate) fn index2_cell_of<T, C: Cells<T>>(
    trie_type: TrieType,
    cells: &mut C,
    c: u32,
) -> Option<u16>
    ensures cell { result ≡ index2_cell trie_type (C.contents cells.old).index c }
    ensures reads { C.reads cells.new ≤ C.reads cells.old + 2 }
    ensures kept { C.contents cells.new ≡ C.contents cells.old }
{
    let index1_start = match trie_type {
        TrieType::Fast => BMP_INDEX_LENGTH - OMITTED_BMP_INDEX_1_LENGTH,
        TrieType::Small => SMALL_INDEX_LENGTH,
    };
    let block = cells.index_cell(((c >> SHIFT_1) + index1_start) as usize)?;
    cells.index_cell(block as usize + ((c >> SHIFT_2) & INDEX_2_MASK) as usize)
}

/// Returns the 18-bit offset number `place` of a group of eight. `high` is the cell with bits 16
/// and 17 of all eight offsets, and `low` is the offset's own cell.
///
/// Public for the crates that build on this one.
#[inline]
pub fn long_offset_of(high: u16, low: u16, place: u32) -> u32
    requires { place < 8 }
    ensures { result ≡ long_offset high low place }
{
    (((high as u32) << (2 + 2 * place)) & 0x30000) | low as u32
}

/// Returns data offset number `place`, one of 32, of the index-3 block that an index-2 cell names.
/// Takes at most two reads.
#[inline]
pub(crate) fn offset_of<T, C: Cells<T>>(cells: &mut C, index2_cell: u16, place: u32) -> Option<u32>
    requires { place < 32 }
    ensures offset { result ≡ offset_in_block (C.contents cells.old).index index2_cell place }
    ensures bound { IfSome result (λ offset. offset < 2 ^ 18) }
    ensures reads { C.reads cells.new ≤ C.reads cells.old + 2 }
    ensures kept { C.contents cells.new ≡ C.contents cells.old }
{
    if index2_cell & 0x8000 == 0 {
        let offset = cells.index_cell(index2_cell as usize + place as usize)?;
        return Some(offset as u32);
    }
    let group = (index2_cell & 0x7fff) as usize + ((place & !7) + (place >> 3)) as usize;
    let place_in_group = place & 7;
    let high = cells.index_cell(group)?;
    let low = cells.index_cell(group + 1 + place_in_group as usize)?;
    Some(long_offset_of(high, low, place_in_group))
}

/// Returns the data position of a code point from the fast limit on and below the high start,
/// through the three stages of the index. Returns `None` if a cell of the index is missing.
///
/// Takes at most four reads.
#[inline(always)]
#[tactic(auto, unfolding(crate::specs::Format::small_offset))]
fn small_place_of<T, C: Cells<T>>(trie_type: TrieType, cells: &mut C, c: u32) -> Option<usize>
    ensures place { result
        ≡ option_and_then (λ offset. Some (offset + c % 16))
        (small_offset trie_type (C.contents cells.old).index c) }
    ensures reads { C.reads cells.new ≤ C.reads cells.old + 4 }
    ensures kept { C.contents cells.new ≡ C.contents cells.old }
{
    let index2_cell = index2_cell_of(trie_type, cells, c)?;
    let offset = offset_of(cells, index2_cell, (c >> SHIFT_3) & INDEX_3_MASK)?;
    Some(offset as usize + (c & SMALL_DATA_MASK) as usize)
}

/// Returns the position of the high value in data of length `len`, or `None` if `len` is less than
/// 2.
#[inline(always)]
pub(crate) fn high_cell_of(len: usize) -> Option<usize>
    ensures { result ≡ high_cell len }
{
    len.checked_sub(HIGH_VALUE_NEG_DATA_OFFSET as usize)
}

/// Returns the cell of `c`, or `None` for the error value.
///
/// `c` can be any 32-bit number. The result is `None` if `c` is above 0x10FFFF, or if a cell of the
/// index or the data is missing. Takes at most five reads, and at most two if `c` is below the fast
/// limit. The format is ICU's `UCPTrie`.
#[inline(always)]
#[tactic(auto, unfolding(crate::specs::Format::answer))]
pub fn look_up<T, C: Cells<T>>(header: &CodePointTrieHeader, cells: &mut C, c: u32) -> Option<T>
    ensures answer { result ≡ answer header.now (C.contents cells.old) c }
    ensures reads { C.reads cells.new ≤ C.reads cells.old + 5 }
    ensures fast { c < fast_limit header.now.trie_type → C.reads cells.new ≤ C.reads cells.old + 2 }
    ensures kept { C.contents cells.new ≡ C.contents cells.old }
{
    if c < header.trie_type.fast_limit() {
        let offset = cells.index_cell((c >> FAST_TYPE_SHIFT) as usize)?;
        return cells.data_cell(offset as usize + (c & FAST_TYPE_DATA_MASK) as usize);
    }
    look_up_slow(header, cells, c)
}

/// Returns what [`look_up`] returns for `c`, which is at or above the fast limit.
///
/// Each case reads its own data cell, since one shared read at the end would cost each case an
/// extra test and jump.
#[inline(always)]
#[tactic(auto, unfolding(crate::specs::Format::answer))]
fn look_up_slow<T, C: Cells<T>>(header: &CodePointTrieHeader, cells: &mut C, c: u32) -> Option<T>
    requires { fast_limit header.now.trie_type ≤ c }
    ensures answer { result ≡ answer header.now (C.contents cells.old) c }
    ensures reads { C.reads cells.new ≤ C.reads cells.old + 5 }
    ensures kept { C.contents cells.new ≡ C.contents cells.old }
{
    if c > CODE_POINT_MAX {
        return None;
    }
    if c >= header.high_start {
        let high_cell = high_cell_of(cells.data_len())?;
        return cells.data_cell(high_cell);
    }
    look_up_small(header, cells, c)
}

/// Returns what [`look_up`] returns for `c`, which is at or above the fast limit and below the high
/// start. Reads through the three stages of the index.
#[inline(always)]
#[tactic(auto, unfolding(crate::specs::Format::answer))]
fn look_up_small<T, C: Cells<T>>(header: &CodePointTrieHeader, cells: &mut C, c: u32) -> Option<T>
    requires from { fast_limit header.now.trie_type ≤ c }
    requires below { c < header.now.high_start }
    requires within { c < 0x110000 }
    ensures answer { result ≡ answer header.now (C.contents cells.old) c }
    ensures reads { C.reads cells.new ≤ C.reads cells.old + 5 }
    ensures kept { C.contents cells.new ≡ C.contents cells.old }
{
    let place = small_place_of(header.trie_type, cells, c)?;
    cells.data_cell(place)
}

/// Returns what [`look_up`] returns for `c`, in as many reads. The fast index must be whole, so that
/// the fast path needs no bounds checks.
///
/// The fast index is whole if it has a cell for each block of 64 below the fast limit, and all
/// these blocks are inside the data. Every trie whose parts were checked when it was made has a
/// whole fast index.
#[allow(dead_code)]
#[inline(always)]
#[tactic(auto, unfolding(crate::specs::Format::answer))]
pub fn look_up_whole<T, C: Cells<T>>(
    header: &CodePointTrieHeader,
    cells: &mut C,
    c: u32,
) -> Option<T>
    requires whole { IsWhole header.now.trie_type (C.contents cells.old) }
    ensures answer { result ≡ answer header.now (C.contents cells.old) c }
    ensures reads { C.reads cells.new ≤ C.reads cells.old + 5 }
    ensures fast { c < fast_limit header.now.trie_type → C.reads cells.new ≤ C.reads cells.old + 2 }
    ensures kept { C.contents cells.new ≡ C.contents cells.old }
{
    if c < header.trie_type.fast_limit() {
        let offset = cells.index_at((c >> FAST_TYPE_SHIFT) as usize);
        return Some(cells.data_at(offset as usize + (c & FAST_TYPE_DATA_MASK) as usize));
    }
    look_up_slow(header, cells, c)
}
