//! A trie wherever its cells are stored, and the look-up of a value.
ghost use Rattle.std.specs.Prelude.{◌≡◌, ℕ, ◌+◌, ◌*◌, ◌-◌, ◌%◌, ◌<◌, ◌≤◌, length, nat_lt, slice_get, Some, None, IfOk, IfErr, IfSome, IsTrue, MatchOption, is_some, if◌then◌else◌, ⊤};
ghost use Rattle.std.specs.Option.{option_and_then, option_map, option_or};
ghost use Rattle.icu_trie_core.specs.Format.{fast_limit, index2_cell, offset_in_block, small_offset};
ghost use Rattle.icu_trie_core.specs.FastIndex.{passes_data, fast_index_len};
ghost use Rattle.icu_trie.specs.Parts.{parts_fault, last_cell};
ghost use Rattle.icu_zerovec.specs.Slice.{slice_values};

use icu_trie_core::error::CodePointTrieError;
use icu_trie_core::header::{CodePointTrieHeader, TrieType};
use icu_trie_core::impl_const::{
    BMP_INDEX_LENGTH, CODE_POINT_MAX, FAST_TYPE_DATA_BLOCK_LENGTH, FAST_TYPE_SHIFT,
    HIGH_VALUE_NEG_DATA_OFFSET, INDEX_2_MASK, INDEX_3_MASK, OMITTED_BMP_INDEX_1_LENGTH, SHIFT_1,
    SHIFT_2, SHIFT_3, SMALL_DATA_MASK, SMALL_INDEX_LENGTH,
};
use icu_trie_core::lookup::long_offset_of;
use icu_trie_core::value::TrieValue;
use icu_zerovec::ZeroSlice;
use std::alloc::AllocError;

/// Returns true if the fast index names a block of 64 that ends outside data of length `len`. The
/// index must have all cells of the fast index.
// The greatest cell decides. LLVM vectorises a maximum but no test for each cell, and it uses more
// registers for two halves.
#[inline]
fn fast_block_passes(trie_type: TrieType, index: ZeroSlice<'_, u16>, len: usize) -> bool
    requires { fast_index_len trie_type ≤ length (slice_values index) }
    ensures { result ≡ passes_data trie_type (slice_values index.entry) len }
{
    let half = trie_type.fast_index_len() / 2;
    // One bounds check for all cells.
    let cells = index.prefix(2 * half);
    let (mut lower, mut upper) = (0, 0);
    for i in 0..half {
        lower = cells.at(i).max(lower);
        upper = cells.at(half + i).max(upper);
    }
    len < lower.max(upper) as usize + FAST_TYPE_DATA_BLOCK_LENGTH as usize
}

/// Returns true if a number is the number of a value.
fn is_number_of_value<T: TrieValue>(number: u32) -> bool
    ensures { result ≡ is_some (T.of_number number) }
{
    T::try_from_u32(number).is_ok()
}

/// Returns the index-2 cell of a code point.
#[inline(always)]
fn index2_cell_of(trie_type: TrieType, index: ZeroSlice<'_, u16>, c: u32) -> Option<u16>
    ensures { result ≡ index2_cell trie_type (slice_values index.entry) c }
{
    let index1_start = match trie_type {
        TrieType::Fast => BMP_INDEX_LENGTH - OMITTED_BMP_INDEX_1_LENGTH,
        TrieType::Small => SMALL_INDEX_LENGTH,
    };
    let block = index.get(((c >> SHIFT_1) + index1_start) as usize)?;
    index.get(block as usize + ((c >> SHIFT_2) & INDEX_2_MASK) as usize)
}

/// Returns data offset number `place`, one of 32, of the index-3 block that an index-2 cell names.
#[inline(always)]
fn offset_of(index: ZeroSlice<'_, u16>, index2_cell: u16, place: u32) -> Option<u32>
    requires { place < 32 }
    ensures { result ≡ offset_in_block (slice_values index.entry) index2_cell place }
{
    if index2_cell & 0x8000 == 0 {
        let offset = index.get(index2_cell as usize + place as usize)?;
        return Some(offset as u32);
    }
    let group = (index2_cell & 0x7fff) as usize + ((place & !7) + (place >> 3)) as usize;
    let place_in_group = place & 7;
    let high = index.get(group)?;
    let low = index.get(group + 1 + place_in_group as usize)?;
    Some(long_offset_of(high, low, place_in_group))
}

/// Returns the data position of a code point from the fast limit on and below the high start,
/// through the three stages of the index. Returns `None` if a cell of the index is missing.
#[inline(always)]
#[tactic(auto, unfolding(icu_trie_core::specs::Format::small_offset))]
fn small_place_of(trie_type: TrieType, index: ZeroSlice<'_, u16>, c: u32) -> Option<usize>
    ensures { result
        ≡ option_and_then (λ offset. Some (offset + c % 16))
        (small_offset trie_type (slice_values index.entry) c) }
{
    let index2_cell = index2_cell_of(trie_type, index, c)?;
    let offset = offset_of(index, index2_cell, (c >> SHIFT_3) & INDEX_3_MASK)?;
    Some(offset as usize + (c & SMALL_DATA_MASK) as usize)
}

/// A code point trie wherever its cells are stored: a header and two borrowed slices of packed
/// cells. It is `Copy`, and has no memory of its own.
///
/// Its parts were checked as [`CodePointTrie::try_new`](crate::cptrie::CodePointTrie::try_new)
/// checks them.
///
/// # Contract
/// In contracts, `view_parts` is its header, its index and its data.
#[derive(Debug)]
pub struct TrieView<'a, T: TrieValue> {
    header: CodePointTrieHeader,
    index: ZeroSlice<'a, u16>,
    data: ZeroSlice<'a, T>,
    ghost sound: { parts_fault T.of_number header (slice_values index) (slice_values «data»)
        ≡ None },
}

impl<'a, T: TrieValue> Clone for TrieView<'a, T> {
    ghost is_clone = { λ s r. r ≡ s };

    ghost is_infallible = { λ _. ⊤ };

    #[inline(always)]
    fn clone(&self) -> Result<TrieView<'a, T>, AllocError> {
        Ok(*self)
    }
}

impl<'a, T: TrieValue> Copy for TrieView<'a, T> {}

/// Views and their parts.
impl<'a, T: TrieValue> TrieView<'a, T> {
    ghost use Rattle.icu_trie.specs.View.{view_parts};

    /// Makes a view of these parts.
    ///
    /// # Errors
    /// Returns the error that [`CodePointTrie::try_new`](crate::cptrie::CodePointTrie::try_new)
    /// returns for them.
    #[inline(always)]
    pub fn try_new(
        header: CodePointTrieHeader,
        index: ZeroSlice<'a, u16>,
        data: ZeroSlice<'a, T>,
    ) -> Result<Self, CodePointTrieError>
        ensures view { IfOk result
            (λ v. view_parts v ≡ record
            { header = header; index = slice_values index.entry; values = slice_values «data».entry }) }
        ensures ok { IfOk result
            (λ _. parts_fault T.of_number header (slice_values index.entry)
            (slice_values «data».entry) ≡ None) }
        ensures err { IfErr result
            (λ e. parts_fault T.of_number header (slice_values index.entry)
            (slice_values «data».entry) ≡ Some e) }
    {
        if data.is_empty() {
            return Err(CodePointTrieError::EmptyDataVector);
        }
        if !is_number_of_value::<T>(header.null_value) {
            return Err(CodePointTrieError::InvalidNullValue);
        }
        if index.len() < header.trie_type.fast_index_len() {
            return Err(CodePointTrieError::IndexTooShortForFastAccess);
        }
        if fast_block_passes(header.trie_type, index, data.len()) {
            return Err(CodePointTrieError::DataTooShortForFastAccess);
        }
        Ok(TrieView {
            header,
            index,
            data,
        })
    }

    /// Makes a view of the parts of a trie.
    #[inline(always)]
    pub(crate) fn of_trie(
        header: CodePointTrieHeader,
        index: ZeroSlice<'a, u16>,
        data: ZeroSlice<'a, T>,
    ) -> Self
        requires { parts_fault T.of_number header (slice_values index) (slice_values «data») ≡ None }
        ensures { view_parts result ≡ record
            { header = header; index = slice_values index.entry; values = slice_values «data».entry } }
    {
        TrieView {
            header,
            index,
            data,
        }
    }

    /// Returns the header, the index and the data. [`try_new`](Self::try_new) accepts them again.
    #[inline(always)]
    pub fn parts(&self) -> (CodePointTrieHeader, ZeroSlice<'a, u16>, ZeroSlice<'a, T>)
        ensures header { result.0 ≡ (view_parts self.now).header }
        ensures index { slice_values result.1 ≡ (view_parts self.now).index }
        ensures values { slice_values result.2 ≡ (view_parts self.now).values }
        ensures whole { parts_fault T.of_number (view_parts self.now).header
            (view_parts self.now).index
            (view_parts self.now).values ≡ None }
    {
        (self.header, self.index, self.data)
    }

    /// Returns the number of blocks of 64 code points in the fast index: 1,024 if the type is
    /// `Fast`, and 64 if it is `Small`.
    #[inline(always)]
    pub fn fast_blocks(&self) -> usize
        ensures { result ≡ fast_index_len (view_parts self.now).header.trie_type }
    {
        self.header.trie_type.fast_index_len()
    }
}

/// The position of a value.
impl<'a, T: TrieValue> TrieView<'a, T> {
    ghost use Rattle.icu_trie.specs.Parts.{place_of};
    ghost use Rattle.icu_trie.specs.View.{view_parts};

    /// Returns the position of the last of `cells` cells, the error value. It takes the number by
    /// value, so that a view on the stack need not be stored for the call.
    #[cold]
    #[inline(never)]
    fn outside_place(cells: usize) -> usize
        requires { 0 < cells }
        ensures { result ≡ cells - 1 }
    {
        cells - 1
    }

    /// Returns the position of the value of code point number `place` in a block of 64 of the fast
    /// index, in one read of the index and with one test. Returns `None` if it has no such block.
    #[inline(always)]
    fn block_place(&self, blocks: usize, block: usize, place: u32) -> Option<usize>
        requires blocks { blocks ≡ fast_index_len (view_parts self.now).header.trie_type }
        requires place { place < 64 }
        ensures past { MatchOption result (blocks ≤ block) (λ _. block < blocks) }
        ensures inside { IfSome result (λ at. at < length (view_parts self.now).values) }
        ensures place { IfSome result
            (λ at. place_of (view_parts self.now) (block * 64 + place) ≡ Some at) }
    {
        match self.index.get_likely_below(blocks, block) {
            Some(offset) => Some(offset as usize + place as usize),
            None => None,
        }
    }

    /// Returns the position of the value of a code point below the fast limit of this type. Returns
    /// `None` from the fast limit on.
    #[inline(always)]
    fn fast_place(&self, trie_type: TrieType, c: u32) -> Option<usize>
        requires same { (view_parts self.now).header.trie_type ≡ trie_type }
        ensures limit { MatchOption result (fast_limit trie_type ≤ c) (λ _. c < fast_limit trie_type) }
        ensures inside { IfSome result (λ place. place < length (view_parts self.now).values) }
        ensures place { IfSome result (λ place. place_of (view_parts self.now) c ≡ Some place) }
    {
        let block = (c >> FAST_TYPE_SHIFT) as usize;
        self.block_place(
            trie_type.fast_index_len(),
            block,
            c % FAST_TYPE_DATA_BLOCK_LENGTH,
        )
    }

    /// Returns the position of the value of `c` through the three stages of the index, with a
    /// bounds check for each read. An untrusted index may lead outside the data.
    ///
    /// A call would cost a loop over code points above the fast limit half as much time again.
    #[inline(always)]
    fn small_place(&self, c: u32) -> usize
        requires from { fast_limit (view_parts self.now).header.trie_type ≤ c }
        requires below { c < (view_parts self.now).header.high_start }
        requires within { c < 0x110000 }
        ensures { place_of (view_parts self.now) c ≡ Some result }
    {
        match small_place_of(self.header.trie_type, self.index, c) {
            Some(place) => place,
            None => self.data.len() - 1,
        }
    }

    /// Returns the position of the value of a code point from the fast limit on, and whether it is
    /// known to be inside the data.
    #[inline(always)]
    fn slow_place(&self, c: u32) -> (usize, bool)
        requires from { fast_limit (view_parts self.now).header.trie_type ≤ c }
        requires within { c < 0x110000 }
        ensures inside { IsTrue result.1 → result.0 < length (view_parts self.now).values }
        ensures place { place_of (view_parts self.now) c ≡ Some result.0 }
    {
        if c >= self.header.high_start {
            return (self.data.len() - HIGH_VALUE_NEG_DATA_OFFSET as usize, true);
        }
        (self.small_place(c), false)
    }

    /// Returns the position of the value of `c` in a trie of this type, and whether it is known to
    /// be inside the data. All cases share the read of the value that follows, so that the compiler
    /// keeps the address of the data in a register.
    #[inline(always)]
    fn place_by_type(&self, trie_type: TrieType, c: u32) -> (usize, bool)
        requires { (view_parts self.now).header.trie_type ≡ trie_type }
        ensures inside { IsTrue result.1 → result.0 < length (view_parts self.now).values }
        ensures place { place_of (view_parts self.now) c ≡ Some result.0 }
    {
        if let Some(place) = self.fast_place(trie_type, c) {
            return (place, true);
        }
        if c > CODE_POINT_MAX {
            return (Self::outside_place(self.data.len()), true);
        }
        self.slow_place(c)
    }

    /// Returns the position of the value of `c`. An untrusted index may lead outside the data.
    #[inline]
    pub(crate) fn place(&self, c: u32) -> usize
        ensures { place_of (view_parts self.now) c ≡ Some result }
    {
        self.place_by_type(self.header.trie_type, c).0
    }

    /// Returns the position of the value of the character `c` in a trie of this type, and whether it
    /// is known to be inside the data. No character is above 0x10FFFF.
    #[inline(always)]
    fn character_place(&self, trie_type: TrieType, c: char) -> (usize, bool)
        requires { (view_parts self.now).header.trie_type ≡ trie_type }
        ensures inside { IsTrue result.1 → result.0 < length (view_parts self.now).values }
        ensures place { place_of (view_parts self.now) c ≡ Some result.0 }
    {
        let c = c as u32;
        if let Some(place) = self.fast_place(trie_type, c) {
            return (place, true);
        }
        self.slow_place(c)
    }

    /// Returns the value at a position, or the error value if it is outside the data. A position
    /// that is known to be inside needs no test.
    #[inline(always)]
    fn value_at(&self, place: (usize, bool)) -> T
        requires { IsTrue place.1 → place.0 < length (view_parts self.now).values }
        ensures { Some result
            ≡ option_or (slice_get (view_parts self.now).values place.0)
            (last_cell (view_parts self.now).values) }
    {
        if let Some(value) = self.data.get_known(place.0, place.1) {
            return value;
        }
        self.data.at(Self::outside_place(self.data.len()))
    }
}

/// Values by the block of 64 or the type of the trie, for callers that know more than a number.
impl<'a, T: TrieValue> TrieView<'a, T> {
    ghost use Rattle.icu_trie.specs.Parts.{trie_value};
    ghost use Rattle.icu_trie.specs.View.{view_parts};

    /// Returns the value of code point number `place` in a block of 64 of the fast index, in two
    /// reads and with one test. Returns `None` if it has no such block.
    ///
    /// `blocks` must be [`fast_blocks`](Self::fast_blocks), which a loop keeps in a register.
    #[inline(always)]
    pub fn value_in_block(&self, blocks: usize, block: usize, place: u32) -> Option<T>
        requires blocks { blocks ≡ fast_index_len (view_parts self.now).header.trie_type }
        requires place { place < 64 }
        ensures { MatchOption result (blocks ≤ block)
            (λ x. trie_value (view_parts self.now) (block * 64 + place) ≡ Some x) }
    {
        match self.block_place(blocks, block, place) {
            Some(at) => Some(self.data.at(at)),
            None => None,
        }
    }

    /// Returns the value of code point number `place` in a block of 64 that the fast index has, in
    /// two reads.
    #[inline(always)]
    pub fn value_in_fast_block(&self, block: usize, place: u32) -> T
        requires block { block < fast_index_len (view_parts self.now).header.trie_type }
        requires place { place < 64 }
        ensures { Some result ≡ trie_value (view_parts self.now) (block * 64 + place) }
    {
        let offset = self.index.at(block);
        self.data.at(offset as usize + place as usize)
    }

    /// Returns the value of a code point below the fast limit, in two reads.
    #[inline(always)]
    fn fast_value(&self, c: u32) -> T
        requires { c < fast_limit (view_parts self.now).header.trie_type }
        ensures { Some result ≡ trie_value (view_parts self.now) c }
    {
        let block = (c >> FAST_TYPE_SHIFT) as usize;
        self.value_in_fast_block(block, c % FAST_TYPE_DATA_BLOCK_LENGTH)
    }

    /// Returns the value of `c` in a trie of this type if `c` is below the fast limit, in two reads.
    #[inline(always)]
    pub(crate) fn fast_value_by_type(&self, trie_type: TrieType, c: u32) -> Option<T>
        requires { (view_parts self.now).header.trie_type ≡ trie_type }
        ensures { result
            ≡ (if nat_lt c (fast_limit trie_type) then trie_value (view_parts self.now) c else None) }
    {
        match self.fast_place(trie_type, c) {
            Some(place) => Some(self.data.at(place)),
            None => None,
        }
    }

    /// Returns the value of `c` in a trie of this type.
    #[inline(always)]
    pub(crate) fn value_by_type(&self, trie_type: TrieType, c: u32) -> T
        requires { (view_parts self.now).header.trie_type ≡ trie_type }
        ensures { Some result ≡ trie_value (view_parts self.now) c }
    {
        self.value_at(self.place_by_type(trie_type, c))
    }

    /// Returns the value of the character `c` in a trie of this type.
    #[inline(always)]
    pub(crate) fn character_by_type(&self, trie_type: TrieType, c: char) -> T
        requires { (view_parts self.now).header.trie_type ≡ trie_type }
        ensures { Some result ≡ trie_value (view_parts self.now) c }
    {
        self.value_at(self.character_place(trie_type, c))
    }
}

/// The getters of a trie.
impl<'a, T: TrieValue> TrieView<'a, T> {
    ghost use Rattle.icu_trie.specs.Parts.{trie_value};
    ghost use Rattle.icu_trie.specs.View.{view_parts};

    /// Returns the value of the code point `c`, or the error value if `c` is above 0x10FFFF or if
    /// the trie lacks a cell for it.
    #[inline(always)]
    pub fn get32(&self, c: u32) -> T
        ensures { Some result ≡ trie_value (view_parts self.now) c }
    {
        self.value_by_type(self.header.trie_type, c)
    }

    /// Returns the value of the character `c`.
    #[inline(always)]
    pub fn get(&self, c: char) -> T
        ensures { Some result ≡ trie_value (view_parts self.now) c }
    {
        self.character_by_type(self.header.trie_type, c)
    }

    /// Returns the value of a code point in the Basic Multilingual Plane (0..=0xFFFF), which may be
    /// a surrogate.
    #[inline(always)]
    pub fn get16(&self, bmp: u16) -> T
        ensures { Some result ≡ trie_value (view_parts self.now) bmp }
    {
        let c = u32::from(bmp);
        match self.header.trie_type {
            TrieType::Fast => self.fast_value(c),
            TrieType::Small => self.value_by_type(TrieType::Small, c),
        }
    }

    /// Returns the number of the value of the code point `c`: the `to_u32` of what
    /// [`get32`](Self::get32) returns.
    #[inline(always)]
    pub fn get32_u32(&self, c: u32) -> u32
        ensures { Some result ≡ option_map T.number (trie_value (view_parts self.now) c) }
    {
        self.get32(c).to_u32()
    }

    /// Returns the error value, which is the value of all numbers above 0x10FFFF: the last cell of
    /// the data.
    #[inline(always)]
    pub fn error_value(&self) -> T
        ensures { Some result ≡ last_cell (view_parts self.now).values }
    {
        self.data.at(self.data.len() - 1)
    }
}
