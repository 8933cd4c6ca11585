//! A trie as C sees it, and look-ups in it.
ghost use Rattle.std.specs.Prelude.{◌≡◌, length, map, min, unwrap_or};
ghost use Rattle.std.specs.Option.{option_or};
ghost use Rattle.icu_zerovec.specs.Cells.{values_of};
ghost use Rattle.icu_trie_core.specs.Contents.{contents_of};
ghost use Rattle.icu_trie_core.specs.Format.{answer};
ghost use Rattle.icu_trie.specs.Parts.{last_cell, trie_value};
ghost use Rattle.icu_zerovec.specs.Buffers.{written};
ghost use Rattle.icu_collections_c.specs.BytesTrie.{cells_of, header_of, parts_in, value_at};

use crate::cells::{UnsignedValue, cold, last_value, look_up_in};
use icu_trie_core::header::{CodePointTrieHeader, TrieType};

/// A trie as C sees it, passed by value (`UCPTrie`). Its cells stay in the caller's bytes, which
/// must not change while the trie is used.
///
/// A trie that [`bks_trie_open`](crate::opening::bks_trie_open) made is used as it is. Any other
/// field values are safe too, but they make a trie with other values.
#[repr(C)]
#[derive(Clone, Copy)]
pub struct Trie<'a> {
    /// The bytes of the index, two for each cell, at any address.
    pub index: &'a [u8],
    /// The bytes of the data, `width` for each cell, at any address.
    pub values: &'a [u8],
    /// How many bytes the trie takes in all, header included.
    pub size: usize,
    /// The first code point that the fast index does not cover: 0x10000 for a fast trie, 0x1000 for
    /// a small one, and 0 if there is no trie.
    pub fast_limit: u32,
    /// The first code point from which on all code points have one value.
    pub high_start: u32,
    /// The value of the blocks that the header names as null.
    pub null_value: u32,
    /// The offset of the null block in the data, in cells.
    pub data_null_offset: u32,
    /// How many bytes a value takes: 1, 2 or 4.
    pub width: u32,
    /// The index-2 cell of the blocks of 512 code points that have the null value.
    pub index3_null_offset: u16,
    /// The high start divided by 0x1000, rounded up.
    pub shifted12_high_start: u16,
}

/// Returns the header that the fields describe.
#[inline(always)]
pub(crate) fn header_of(trie: &Trie<'_>) -> CodePointTrieHeader
    ensures { result ≡ header_of trie.now }
{
    CodePointTrieHeader {
        high_start: trie.high_start,
        shifted12_high_start: trie.shifted12_high_start,
        index3_null_offset: trie.index3_null_offset,
        data_null_offset: trie.data_null_offset,
        null_value: trie.null_value,
        trie_type: if trie.fast_limit == TrieType::Small.fast_limit() {
            TrieType::Small
        } else {
            TrieType::Fast
        },
    }
}

/// Returns the value of `c` in bytes: the one that the format gives it, or else the last cell.
/// `None` if there is no cell at all.
#[inline(always)]
pub(crate) fn value_of<T: UnsignedValue>(
    header: &CodePointTrieHeader,
    index: &[u8],
    values: &[u8],
    c: u32,
) -> Option<T>
    ensures { result
        ≡ option_or
        (answer header.now (contents_of (cells_of 2 index.now)
        (values_of T.unpack T.WIDTH values.now)) c)
        (last_cell (values_of T.unpack T.WIDTH values.now)) }
{
    match look_up_in(header, index, values, c) {
        Some(value) => Some(value),
        None => {
            cold();
            last_value(values)
        }
    }
}

/// Returns the value of `c` in a trie with values of type `T`. `None` if there is no cell at all.
#[inline(always)]
fn value_in<T: UnsignedValue>(trie: &Trie<'_>, c: u32) -> Option<T>
    ensures { result ≡ trie_value (parts_in T.unpack T.WIDTH trie.now) c }
{
    value_of(&header_of(trie), trie.index, trie.values, c)
}

/// Writes the values of code points to the start of a buffer, as many as fit, and returns how many
/// it wrote. The value is `none` if the trie has no cell at all.
#[inline(always)]
fn write_values<T: UnsignedValue>(
    trie: &Trie<'_>,
    points: &[u32],
    values: &mut [T],
    none: T,
) -> usize
    ensures count { result ≡ min (length points.now) (length values.old) }
    ensures values { values.new
        ≡ written
        (map (λ c. unwrap_or (trie_value (parts_in T.unpack T.WIDTH trie.now) c) none) points.now)
        values.old }
{
    let count = points.len().min(values.len());
    let (header, index, cells) = (header_of(trie), trie.index, trie.values);
    for i in 0..count {
        values[i] = value_of(&header, index, cells, points[i]).unwrap_or(none);
    }
    count
}

/// Returns the value of the code point `c` in a trie of 8-bit values. Above 0x10FFFF, and if the
/// trie lacks a cell, it returns the error value, which is the last cell. It returns 0 if there is
/// no trie.
///
/// ICU: `ucptrie_get`.
#[unsafe(no_mangle)]
pub extern "C" fn bks_trie8_get(trie: &Trie<'_>, c: u32) -> u8
    ensures { result ≡ value_at 1 trie.now c }
{
    value_in(trie, c).unwrap_or(0)
}

/// Returns the value of the code point `c` in a trie of 16-bit values. Above 0x10FFFF, and if the
/// trie lacks a cell, it returns the error value, which is the last cell. It returns 0 if there is
/// no trie.
///
/// ICU: `ucptrie_get`.
#[unsafe(no_mangle)]
pub extern "C" fn bks_trie16_get(trie: &Trie<'_>, c: u32) -> u16
    ensures { result ≡ value_at 2 trie.now c }
{
    value_in(trie, c).unwrap_or(0)
}

/// Returns the value of the code point `c` in a trie of 32-bit values. Above 0x10FFFF, and if the
/// trie lacks a cell, it returns the error value, which is the last cell. It returns 0 if there is
/// no trie.
///
/// ICU: `ucptrie_get`.
#[unsafe(no_mangle)]
pub extern "C" fn bks_trie32_get(trie: &Trie<'_>, c: u32) -> u32
    ensures { result ≡ value_at 4 trie.now c }
{
    value_in(trie, c).unwrap_or(0)
}

/// Writes the values of code points in a trie of 8-bit values: `values[i]` becomes the value of
/// `points[i]`, for each index that both slices have. Returns how many values it wrote. The rest of
/// `values` is unchanged.
#[unsafe(no_mangle)]
pub extern "C" fn bks_trie8_get_many(trie: &Trie<'_>, points: &[u32], values: &mut [u8]) -> usize
    ensures count { result ≡ min (length points.now) (length values.old) }
    ensures values { values.new ≡ written (map (value_at 1 trie.now) points.now) values.old }
{
    write_values(trie, points, values, 0)
}

/// Writes the values of code points in a trie of 16-bit values: `values[i]` becomes the value of
/// `points[i]`, for each index that both slices have. Returns how many values it wrote. The rest of
/// `values` is unchanged.
#[unsafe(no_mangle)]
pub extern "C" fn bks_trie16_get_many(trie: &Trie<'_>, points: &[u32], values: &mut [u16]) -> usize
    ensures count { result ≡ min (length points.now) (length values.old) }
    ensures values { values.new ≡ written (map (value_at 2 trie.now) points.now) values.old }
{
    write_values(trie, points, values, 0)
}

/// Writes the values of code points in a trie of 32-bit values: `values[i]` becomes the value of
/// `points[i]`, for each index that both slices have. Returns how many values it wrote. The rest of
/// `values` is unchanged.
#[unsafe(no_mangle)]
pub extern "C" fn bks_trie32_get_many(trie: &Trie<'_>, points: &[u32], values: &mut [u32]) -> usize
    ensures count { result ≡ min (length points.now) (length values.old) }
    ensures values { values.new ≡ written (map (value_at 4 trie.now) points.now) values.old }
{
    write_values(trie, points, values, 0)
}
