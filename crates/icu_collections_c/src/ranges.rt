//! The ranges of a trie over bytes, and whether the trie is coherent.
ghost use Rattle.std.specs.Prelude.{◌≡◌, ◌↔◌, IsTrue, Some};
ghost use Rattle.icu_trie.specs.Ranges.{IsCoherentTrie};
ghost use Rattle.icu_collections_c.specs.BytesTrie.{parts_in, parts_of, value_width, fitting_in};
ghost use Rattle.icu_collections_c.specs.Ranges.{GivesRange, GivesRanges, range_of};

use crate::cells::{UnsignedValue, is_coherent_in, walk_in};
use crate::tries::{Trie, header_of};
use icu_trie_core::range::CodePointMapRange;

/// The code points from `first` to `last`, both included, and their value.
#[repr(C)]
#[derive(Clone, Copy)]
pub struct Range {
    /// The first code point.
    pub first: u32,
    /// The last code point, which is in the range.
    pub last: u32,
    /// The value of the code points.
    pub value: u32,
    /// Whether there is a range. If there is none, the other fields are 0.
    pub found: bool,
}

/// Converts a range to the struct that C sees.
#[inline(always)]
fn told<T: UnsignedValue>(range: &CodePointMapRange<T>) -> Range
    ensures { result ≡ range_of T.number (Some range.now) }
{
    Range {
        first: *range.range.start(),
        last: *range.range.end(),
        value: range.value.to_u32(),
        found: true,
    }
}

/// Returns the range that starts at `c` in a trie with values of type `T`.
#[inline(always)]
fn range_in<T: UnsignedValue>(trie: &Trie<'_>, c: u32) -> Range
    ensures { GivesRange T.of_number T.number (parts_in T.unpack T.WIDTH trie.now) c result }
{
    match walk_in::<T>(&header_of(trie), trie.index, trie.values, c) {
        Some(range) => told(&range),
        None => Range {
            first: 0,
            last: 0,
            value: 0,
            found: false,
        },
    }
}

/// Writes the ranges from `c` on in a trie with values of type `T` to the start of a buffer, as
/// many as there are and as fit. Returns how many it wrote.
#[inline(always)]
fn write_ranges<T: UnsignedValue>(trie: &Trie<'_>, c: u32, ranges: &mut [Range]) -> usize
    ensures { GivesRanges T.of_number T.number (parts_in T.unpack T.WIDTH trie.now) c ranges.old
        ranges.new result }
{
    let header = header_of(trie);
    let (index, values) = (trie.index, trie.values);
    let mut next = c;
    for i in 0..ranges.len() {
        let Some(range) = walk_in::<T>(&header, index, values, next) else {
            return i;
        };
        ranges[i] = told(&range);
        next = *range.range.end() + 1;
    }
    ranges.len()
}

/// Returns the range of one value that starts at the code point `c`. In a coherent trie it is the
/// longest run of equal values. There is none above 0x10FFFF, or if the trie lacks a cell.
///
/// ICU: `ucptrie_getRange`.
#[unsafe(no_mangle)]
pub extern "C" fn bks_trie_range(trie: &Trie<'_>, c: u32) -> Range
    ensures { let width = value_width trie.now.width in
        GivesRange (fitting_in width) (λ n. n) (parts_of width trie.now) c result }
{
    match trie.width {
        1 => range_in::<u8>(trie, c),
        2 => range_in::<u16>(trie, c),
        _ => range_in::<u32>(trie, c),
    }
}

/// Writes consecutive ranges of one value from the code point `c` on, as many as fit, and returns
/// how many it wrote. If that is less than the length of `ranges`, there is no range after the last
/// one. Otherwise continue from its last code point + 1. The rest of `ranges` is unchanged.
///
/// ICU: `ucptrie_getRange` in a loop.
#[unsafe(no_mangle)]
pub extern "C" fn bks_trie_ranges(trie: &Trie<'_>, c: u32, ranges: &mut [Range]) -> usize
    ensures { let width = value_width trie.now.width in
        GivesRanges (fitting_in width) (λ n. n) (parts_of width trie.now) c ranges.old ranges.new
        result }
{
    match trie.width {
        1 => write_ranges::<u8>(trie, c, ranges),
        2 => write_ranges::<u16>(trie, c, ranges),
        _ => write_ranges::<u32>(trie, c, ranges),
    }
}

/// Returns whether the header is right about the high value and the null blocks, as in every trie
/// that was built. The ranges of such a trie are the longest runs of equal values. Look-ups do not
/// depend on it.
#[unsafe(no_mangle)]
pub extern "C" fn bks_trie_is_coherent(trie: &Trie<'_>) -> bool
    ensures { let width = value_width trie.now.width in
        IsTrue result ↔ IsCoherentTrie (fitting_in width) (parts_of width trie.now) }
{
    let header = header_of(trie);
    match trie.width {
        1 => is_coherent_in::<u8>(&header, trie.index, trie.values),
        2 => is_coherent_in::<u16>(&header, trie.index, trie.values),
        _ => is_coherent_in::<u32>(&header, trie.index, trie.values),
    }
}
