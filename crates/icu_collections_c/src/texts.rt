//! The values of the characters of a UTF-8 text, and of the code points of 16-bit units.
ghost use Rattle.std.specs.Prelude.{◌≡◌, ℕ, pos, ◌<◌, ◌≤◌, length, map, slice_get, Some, unwrap_or, ⊤};
ghost use Rattle.std.specs.Str.{IsUtf8, chars};
ghost use Rattle.icu_zerovec.specs.Cells.{values_of};
ghost use Rattle.icu_trie_core.specs.FastIndex.{fast_index_len};
ghost use Rattle.icu_trie.specs.Parts.{trie_value};
ghost use Rattle.icu_trie_text.specs.InPlace.{HasAsciiInPlace};
ghost use Rattle.icu_utf.specs.Utf16.{code_points_of};
ghost use Rattle.icu_collections_c.specs.Answers.{AnswersText};
ghost use Rattle.icu_zerovec.specs.Buffers.{written};
ghost use Rattle.icu_collections_c.specs.BytesTrie.{cells_of, header_of, parts_in, value_at};
ghost use Rattle.icu_collections_c.specs.CopiedText.{IsCopiedText, number_of_part};
ghost use Rattle.icu_collections_c.specs.Inside.TextCells.{parts_from};

use crate::buffers::put;
use crate::cells::{UnsignedValue, count_of, last_value, value_at, value_there};
use crate::error::Error;
use crate::tries::{Trie, header_of, value_of};
use crate::well_formed::{count_of_characters, is_utf8};
use icu_trie_core::header::CodePointTrieHeader;
use icu_trie_text::copy_parts::{Copied, copy_characters, copy_parts};
use icu_trie_text::part_values::PartValues;
use icu_utf::first_utf16::first_code_point;
use icu_zerovec::CODE_POINT_LIMIT;
use std::alloc::AllocError;

/// The values of a trie in bytes, for the parts of a text.
struct TextValues<'a, T: UnsignedValue> {
    header: CodePointTrieHeader,
    index: &'a [u8],
    cells: &'a [u8],
    /// The value of each part if the trie has no cell at all.
    none: T,
    /// 0x80 if the data start with the values of ASCII, and otherwise 0.
    ascii_end: u8,
    /// The number of blocks of 64 code points that have a cell in the fast index.
    blocks: u32,
    ghost ascii: { HasAsciiInPlace
        (parts_from T.unpack T.WIDTH header index.now cells.now)
        (values_of T.unpack T.WIDTH cells.now) ascii_end },
    ghost there: { blocks ≤ length (cells_of 2 index.now) },
    ghost fast: { blocks ≤ fast_index_len header.trie_type },
}

impl<'a, T: UnsignedValue> Clone for TextValues<'a, T> {
    ghost is_clone = { λ s r. (r.header ≡ s.header) × (r.index ≡ s.index) × (r.cells ≡ s.cells)
        × (r.none ≡ s.none) × (r.ascii_end ≡ s.ascii_end) × (r.blocks ≡ s.blocks) };

    ghost is_infallible = { λ _. ⊤ };

    #[inline(always)]
    fn clone(&self) -> Result<TextValues<'a, T>, AllocError> {
        Ok(TextValues {
            header: self.header,
            index: self.index,
            cells: self.cells,
            none: self.none,
            ascii_end: self.ascii_end,
            blocks: self.blocks,
        })
    }
}

impl<'a, T: UnsignedValue> Copy for TextValues<'a, T> {}

/// Returns 0x80 if the first two blocks of the trie are the first two blocks of the data, and
/// otherwise 0. The code points below the result have their values at their own index in the data.
fn ascii_end<T: UnsignedValue>(index: &[u8], cells: &[u8]) -> u8
    ensures bound { result ≤ 0x80 }
    ensures first { 0 < result → slice_get (cells_of 2 index.now) 0 ≡ Some 0 }
    ensures second { 0 < result → slice_get (cells_of 2 index.now) 1 ≡ Some 64 }
    ensures there { 0 < result → 0x80 ≤ length (values_of T.unpack T.WIDTH cells.now) }
{
    if count_of::<T>(cells) < 0x80 {
        return 0;
    }
    if value_at::<u16>(index, 0) != Some(0) {
        return 0;
    }
    if value_at::<u16>(index, 1) != Some(64) {
        return 0;
    }
    0x80
}

impl<'a, T: UnsignedValue> TextValues<'a, T> {
    /// Returns the value of any code point. It is a call, for tries that are not coherent.
    #[cold]
    #[inline(never)]
    fn outlined_value(&self, c: u32) -> T
        ensures { result ≡ unwrap_or (trie_value
            (parts_from T.unpack T.WIDTH self.now.header self.now.index.now self.now.cells.now) c)
            self.now.none }
    {
        let found = value_of(&self.header, self.index, self.cells, c);
        found.unwrap_or(self.none)
    }
}

impl<'a, T: UnsignedValue> PartValues<T> for TextValues<'a, T> {
    ghost gives = { λ values part. Some (unwrap_or
        (trie_value (parts_from T.unpack T.WIDTH values.header values.index.now values.cells.now)
        (number_of_part part)) values.none) };

    ghost end_of_ascii = { λ values. values.ascii_end };

    ghost fast_blocks = { λ values. values.blocks };

    #[inline(always)]
    fn ascii_end(&self) -> u8 {
        self.ascii_end
    }

    #[inline(always)]
    fn blocks(&self) -> u32 {
        self.blocks
    }

    #[inline(always)]
    fn ascii(&self, c: u8) -> T {
        value_there(self.cells, c as usize)
    }

    #[inline(always)]
    fn value_in_fast_block(&self, block: u32, place: u32) -> T {
        let offset = value_there::<u16>(self.index, block as usize);
        match value_at(self.cells, offset as usize + place as usize) {
            Some(value) => value,
            None => self.outlined_value(block * 64 + place),
        }
    }

    #[inline(always)]
    fn value(&self, c: u32) -> T {
        value_of(&self.header, self.index, self.cells, c).unwrap_or(self.none)
    }

    #[inline(always)]
    fn error(&self) -> T {
        self.value(CODE_POINT_LIMIT)
    }
}

/// Returns what gives the values of a trie for the parts of a text. They are `none` if the trie has
/// no cell at all.
#[inline(always)]
fn text_values<'a, T: UnsignedValue>(trie: &Trie<'a>, none: T) -> TextValues<'a, T>
    ensures header { result.header ≡ header_of trie.now }
    ensures index { result.index.now ≡ trie.now.index.now }
    ensures cells { result.cells.now ≡ trie.now.values.now }
    ensures none { result.none ≡ none }
{
    let header = header_of(trie);
    let blocks = header.trie_type.fast_index_len();
    TextValues {
        header,
        index: trie.index,
        cells: trie.values,
        none,
        ascii_end: ascii_end::<T>(trie.index, trie.values),
        blocks: blocks.min(count_of::<u16>(trie.index)) as u32,
    }
}

/// Writes the values of the parts of a text to the start of a buffer, as many as fit. The value is
/// `none` if the trie has no cell at all.
#[inline(never)]
fn copy_text<T: UnsignedValue>(trie: &Trie<'_>, text: &[u8], values: &mut [T], none: T) -> Copied
    ensures { IsCopiedText
        (λ c. unwrap_or (trie_value (parts_in T.unpack T.WIDTH trie.now) c) none)
        text.now values.old values.new result.values result.bytes }
{
    let parts = text_values(trie, none);
    copy_parts(&parts, text, values)
}

/// Writes the values of the parts of a text to the start of a buffer, as many as fit. Returns how
/// many it wrote, and stores in `taken` how many bytes of the text these are for.
#[inline(always)]
fn copy_to<T: UnsignedValue>(
    trie: &Trie<'_>,
    text: &[u8],
    values: &mut [T],
    none: T,
    taken: &mut usize,
) -> usize
    ensures { IsCopiedText
        (λ c. unwrap_or (trie_value (parts_in T.unpack T.WIDTH trie.now) c) none)
        text.now values.old values.new result taken.new }
{
    let copied = copy_text(trie, text, values, none);
    *taken = copied.bytes;
    copied.values
}

/// Writes the values of the characters of UTF-8 to the start of a buffer, as many as fit. The value
/// is `none` if the trie has no cell at all.
#[inline(never)]
fn copy_utf8<T: UnsignedValue>(trie: &Trie<'_>, text: &[u8], values: &mut [T], none: T) -> Copied
    requires { IsUtf8 text.now }
    ensures { IsCopiedText
        (λ c. unwrap_or (trie_value (parts_in T.unpack T.WIDTH trie.now) c) none)
        text.now values.old values.new result.values result.bytes }
{
    let parts = text_values(trie, none);
    copy_characters(&parts, text, values)
}

/// Writes the values of the characters of a text to the start of a buffer, as many as fit, and
/// returns how many characters there are. The value is `none` if the trie has no cell at all.
#[inline(always)]
fn write_text<T: UnsignedValue>(trie: &Trie<'_>, text: &[u8], values: &mut [T], none: T) -> usize
    requires { IsUtf8 text.now }
    ensures count { result ≡ length (chars text.now) }
    ensures bound { result ≤ length text.now }
    ensures values { values.new
        ≡ written
        (map (λ c. unwrap_or (trie_value (parts_in T.unpack T.WIDTH trie.now) c) none)
        (chars text.now)) values.old }
{
    let copied = copy_utf8(trie, text, values, none);
    if copied.bytes < text.len() {
        return count_of_characters(text);
    }
    copied.values
}

/// Writes the values of the code points of 16-bit units to the start of a buffer, as many as fit,
/// and returns how many code points there are. The value is `none` if the trie has no cell at all.
#[inline(always)]
fn write_units<T: UnsignedValue>(trie: &Trie<'_>, units: &[u16], values: &mut [T], none: T) -> usize
    ensures count { result ≡ length (code_points_of units.now) }
    ensures bound { result ≤ length units.now }
    ensures values { values.new
        ≡ written
        (map (λ c. unwrap_or (trie_value (parts_in T.unpack T.WIDTH trie.now) c) none)
        (code_points_of units.now)) values.old }
{
    let (header, index, cells) = (header_of(trie), trie.index, trie.values);
    let mut rest = units;
    let mut count = 0;
    while let Some((c, after)) = first_code_point(rest) {
        let found = value_of(&header, index, cells, c).unwrap_or(none);
        put(values, count, found);
        count += 1;
        rest = after;
    }
    count
}

/// Writes the values of the characters of a UTF-8 text, in a trie of 8-bit values, to the start of
/// a buffer, as many as fit. Returns how many characters there are, which is never above the size
/// of the text in bytes.
///
/// # Errors
/// Returns the number of [`Error::InvalidUtf8`] if the text is not UTF-8. The buffer is then
/// unchanged.
#[unsafe(no_mangle)]
pub extern "C" fn bks_trie8_get_utf8(trie: &Trie<'_>, text: &[u8], values: &mut [u8]) -> i64
    ensures values { AnswersText (IsUtf8 text.now) (map (value_at 1 trie.now) (chars text.now))
        values.old values.new result }
    ensures bound { (n : ℕ) → result ≡ pos n → n ≤ length text.now }
{
    if !is_utf8(text) {
        return Error::InvalidUtf8.number();
    }
    write_text(trie, text, values, 0) as i64
}

/// Writes the values of the characters of a UTF-8 text, in a trie of 16-bit values, to the start of
/// a buffer, as many as fit. Returns how many characters there are, which is never above the size
/// of the text in bytes.
///
/// # Errors
/// Returns the number of [`Error::InvalidUtf8`] if the text is not UTF-8. The buffer is then
/// unchanged.
#[unsafe(no_mangle)]
pub extern "C" fn bks_trie16_get_utf8(trie: &Trie<'_>, text: &[u8], values: &mut [u16]) -> i64
    ensures values { AnswersText (IsUtf8 text.now) (map (value_at 2 trie.now) (chars text.now))
        values.old values.new result }
    ensures bound { (n : ℕ) → result ≡ pos n → n ≤ length text.now }
{
    if !is_utf8(text) {
        return Error::InvalidUtf8.number();
    }
    write_text(trie, text, values, 0) as i64
}

/// Writes the values of the characters of a UTF-8 text, in a trie of 32-bit values, to the start of
/// a buffer, as many as fit. Returns how many characters there are, which is never above the size
/// of the text in bytes.
///
/// # Errors
/// Returns the number of [`Error::InvalidUtf8`] if the text is not UTF-8. The buffer is then
/// unchanged.
#[unsafe(no_mangle)]
pub extern "C" fn bks_trie32_get_utf8(trie: &Trie<'_>, text: &[u8], values: &mut [u32]) -> i64
    ensures values { AnswersText (IsUtf8 text.now) (map (value_at 4 trie.now) (chars text.now))
        values.old values.new result }
    ensures bound { (n : ℕ) → result ≡ pos n → n ≤ length text.now }
{
    if !is_utf8(text) {
        return Error::InvalidUtf8.number();
    }
    write_text(trie, text, values, 0) as i64
}

/// Writes the values of the characters of a text that may be ill-formed UTF-8, in a trie of 8-bit
/// values, to the start of a buffer, as many as fit. Each maximal subpart of an ill-formed sequence
/// has the error value. Returns how many values it wrote, and stores in `taken` how many bytes of
/// the text these are for. It stops only if the buffer is full or the text ends.
///
/// ICU: `UCPTRIE_FAST_U8_NEXT` in a loop.
#[unsafe(no_mangle)]
pub extern "C" fn bks_trie8_copy_utf8(
    trie: &Trie<'_>,
    text: &[u8],
    values: &mut [u8],
    taken: &mut usize,
) -> usize
    ensures { IsCopiedText (value_at 1 trie.now) text.now values.old values.new result taken.new }
{
    copy_to(trie, text, values, 0, taken)
}

/// Writes the values of the code points of 16-bit units, in a trie of 8-bit values, to the start of
/// a buffer, as many as fit. Returns how many code points there are, which is never above the
/// number of units.
///
/// A high surrogate and the low surrogate after it are one code point. Each other unit is a code
/// point of its own, even an unpaired surrogate.
///
/// ICU: `U16_NEXT` and `ucptrie_get` in a loop.
#[unsafe(no_mangle)]
pub extern "C" fn bks_trie8_get_utf16(trie: &Trie<'_>, text: &[u16], values: &mut [u8]) -> usize
    ensures count { result ≡ length (code_points_of text.now) }
    ensures bound { result ≤ length text.now }
    ensures values { values.new
        ≡ written (map (value_at 1 trie.now) (code_points_of text.now)) values.old }
{
    write_units(trie, text, values, 0)
}

/// Writes the values of the characters of a text that may be ill-formed UTF-8, in a trie of 16-bit
/// values, to the start of a buffer, as many as fit. Each maximal subpart of an ill-formed sequence
/// has the error value. Returns how many values it wrote, and stores in `taken` how many bytes of
/// the text these are for. It stops only if the buffer is full or the text ends.
///
/// ICU: `UCPTRIE_FAST_U8_NEXT` in a loop.
#[unsafe(no_mangle)]
pub extern "C" fn bks_trie16_copy_utf8(
    trie: &Trie<'_>,
    text: &[u8],
    values: &mut [u16],
    taken: &mut usize,
) -> usize
    ensures { IsCopiedText (value_at 2 trie.now) text.now values.old values.new result taken.new }
{
    copy_to(trie, text, values, 0, taken)
}

/// Writes the values of the code points of 16-bit units, in a trie of 16-bit values, to the start
/// of a buffer, as many as fit. Returns how many code points there are, which is never above the
/// number of units.
///
/// A high surrogate and the low surrogate after it are one code point. Each other unit is a code
/// point of its own, even an unpaired surrogate.
///
/// ICU: `U16_NEXT` and `ucptrie_get` in a loop.
#[unsafe(no_mangle)]
pub extern "C" fn bks_trie16_get_utf16(trie: &Trie<'_>, text: &[u16], values: &mut [u16]) -> usize
    ensures count { result ≡ length (code_points_of text.now) }
    ensures bound { result ≤ length text.now }
    ensures values { values.new
        ≡ written (map (value_at 2 trie.now) (code_points_of text.now)) values.old }
{
    write_units(trie, text, values, 0)
}

/// Writes the values of the characters of a text that may be ill-formed UTF-8, in a trie of 32-bit
/// values, to the start of a buffer, as many as fit. Each maximal subpart of an ill-formed sequence
/// has the error value. Returns how many values it wrote, and stores in `taken` how many bytes of
/// the text these are for. It stops only if the buffer is full or the text ends.
///
/// ICU: `UCPTRIE_FAST_U8_NEXT` in a loop.
#[unsafe(no_mangle)]
pub extern "C" fn bks_trie32_copy_utf8(
    trie: &Trie<'_>,
    text: &[u8],
    values: &mut [u32],
    taken: &mut usize,
) -> usize
    ensures { IsCopiedText (value_at 4 trie.now) text.now values.old values.new result taken.new }
{
    copy_to(trie, text, values, 0, taken)
}

/// Writes the values of the code points of 16-bit units, in a trie of 32-bit values, to the start
/// of a buffer, as many as fit. Returns how many code points there are, which is never above the
/// number of units.
///
/// A high surrogate and the low surrogate after it are one code point. Each other unit is a code
/// point of its own, even an unpaired surrogate.
///
/// ICU: `U16_NEXT` and `ucptrie_get` in a loop.
#[unsafe(no_mangle)]
pub extern "C" fn bks_trie32_get_utf16(trie: &Trie<'_>, text: &[u16], values: &mut [u32]) -> usize
    ensures count { result ≡ length (code_points_of text.now) }
    ensures bound { result ≤ length text.now }
    ensures values { values.new
        ≡ written (map (value_at 4 trie.now) (code_points_of text.now)) values.old }
{
    write_units(trie, text, values, 0)
}
