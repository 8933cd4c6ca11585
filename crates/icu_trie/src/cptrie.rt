//! The trie over packed vectors.
ghost use Rattle.std.specs.Prelude.{◌≡◌, ℕ, ◌-◌, ◌<◌, ◌≤◌, length, nat_lt, slice_get, Some, None, IfOk, IfErr, IfSome, IsTrue, MatchOption, is_some, if◌then◌else◌};
ghost use Rattle.std.specs.Option.{option_map, option_or};
ghost use Rattle.icu_trie_core.specs.Format.{fast_limit};
ghost use Rattle.icu_trie_core.specs.FastIndex.{passes_data, fast_index_len};
ghost use Rattle.icu_trie.specs.Parts.{parts_fault, last_cell, IsWhyNoTrie};
ghost use Rattle.icu_zerovec.specs.Slice.{slice_values};

use crate::error::PartsError;
use crate::view::TrieView;
use icu_trie_core::error::CodePointTrieError;
use icu_trie_core::header::CodePointTrieHeader;
use icu_trie_core::value::TrieValue;
use icu_zerovec::{MemoryError, ZeroSlice, ZeroVec};
use std::alloc::Global;
use std::marker::Model;

/// A map from all code points to values, stored in two packed vectors in the format of ICU's code
/// point tries (`UCPTrie`).
///
/// The parts of a trie are checked when it is made, so every look-up returns a value and reads
/// nothing outside the trie. An untrusted trie may have wrong values.
///
/// ```
/// let letters = build_from_writes(alloc, 0u8, 9, TrieType::Small, &[Write::Range(0x41..=0x5A, 1)])?;
/// // letters.get32(0x41) is 1, letters.get32(0x5B) is 0, and letters.get32(0x110000) is 9
/// ```
#[derive(Debug, Drop)]
pub struct CodePointTrie<'trie, T: TrieValue> {
    pub(crate) header: CodePointTrieHeader,
    pub(crate) index: ZeroVec<'trie, u16>,
    pub(crate) data: ZeroVec<'trie, T>,
}

impl<'trie, T: TrieValue> Model for CodePointTrie<'trie, T> {
    // Contracts see a trie as its header, its index and its data.
    ghost use Rattle.std.specs.Prelude.{◌≡◌, Some, None};
    ghost use Rattle.icu_trie.specs.Parts.{Parts, parts_fault};

    ghost Value = { Parts T };

    ghost view = { λ t. record { header = t.header; index = t.index; values = t.«data» } };

    ghost invariant = { λ t. parts_fault T.of_number t.header t.index t.«data» ≡ None };
}

impl<'trie, T: TrieValue> CodePointTrie<'trie, T> {
    ghost use Rattle.icu_trie.specs.Parts.{trie_value};
    ghost use Rattle.icu_trie.specs.View.{view_parts};

    /// Makes a trie of these parts.
    ///
    /// The header is checked only for its null value and its trie type. If it is wrong in other
    /// ways, look-ups still return values.
    ///
    /// # Errors
    /// Returns the first of these that applies:
    /// - `EmptyDataVector` if `data` is empty;
    /// - `InvalidNullValue` if the header's null value is not the number of any `T`;
    /// - `IndexTooShortForFastAccess` if `index` has fewer than 1,024 cells (`Fast`) or 64
    ///   (`Small`);
    /// - `DataTooShortForFastAccess` if `data` has fewer cells than the greatest offset in the fast
    ///   index plus 64.
    ///
    /// ```
    /// // index has 64 zeros and data has 64 values; the header says `Small`, and 0x1000 as the high start
    /// let trie = CodePointTrie::try_new(header, index, data)?;
    /// // trie.get32(0x41) is value 1, trie.get32(0x1000) is value 62, and trie.get32(0x110000) is value 63
    /// ```
    #[inline(always)]
    pub fn try_new(
        header: CodePointTrieHeader,
        index: ZeroVec<'trie, u16>,
        data: ZeroVec<'trie, T>,
    ) -> Result<Self, CodePointTrieError>
        ensures trie { IfOk result
            (λ trie. trie ≡ record
            { header = header; index = index.entry; values = «data».entry }) }
        ensures ok { IfOk result
            (λ _. parts_fault T.of_number header index.entry «data».entry ≡ None) }
        ensures err { IfErr result
            (λ e. parts_fault T.of_number header index.entry «data».entry ≡ Some e) }
    {
        TrieView::try_new(header, index.as_slice(), data.as_slice())?;
        Ok(CodePointTrie {
            header,
            index,
            data,
        })
    }

    /// Makes a trie of copies of these parts.
    ///
    /// It packs the index and the values, with one allocation for each.
    ///
    /// # Errors
    /// Returns `Memory` if an allocation fails, and `Trie` with the error of
    /// [`try_new`](Self::try_new) for these parts.
    pub fn alloc_from_slices(
        alloc: Global,
        header: CodePointTrieHeader,
        index: &[u16],
        values: &[T],
    ) -> Result<CodePointTrie<'static, T>, PartsError>
        ensures trie { IfOk result
            (λ trie. trie ≡ record { header = header; index = index.now; values = values.now }) }
        ensures ok { IfOk result (λ _. parts_fault T.of_number header index.now values.now ≡ None) }
        ensures err { IfErr result
            (IsWhyNoTrie (parts_fault T.of_number header index.now values.now)) }
    {
        let index = ZeroVec::alloc_from_slice(alloc, index)?;
        let data = ZeroVec::alloc_from_slice(alloc, values)?;
        let trie = CodePointTrie::try_new(header, index, data)?;
        Ok(trie)
    }

    /// Returns a view of the trie. It borrows the index and the data.
    #[inline(always)]
    pub fn as_view(&self) -> TrieView<'_, T>
        ensures { view_parts result ≡ self.now }
    {
        TrieView::of_trie(self.header, self.index.as_slice(), self.data.as_slice())
    }

    /// Returns the value of the code point `c`, or the error value if `c` is above 0x10FFFF or if
    /// the trie lacks a cell for it.
    ///
    /// ```
    /// let builder = CodePointTrieBuilder::new(alloc, 0u8, 9, TrieType::Fast);
    /// let trie = builder.build()?;
    /// // trie.get32(0x10FFFF) is 0, the default, and trie.get32(u32::MAX) is 9, the error value
    /// ```
    #[inline(always)]
    pub fn get32(&self, c: u32) -> T
        ensures { Some result ≡ trie_value self.now c }
    {
        self.as_view().get32(c)
    }

    /// Returns the value of the character `c`.
    #[inline(always)]
    pub fn get(&self, c: char) -> T
        ensures { Some result ≡ trie_value self.now c }
    {
        self.as_view().get(c)
    }

    /// Returns the value of a code point in the Basic Multilingual Plane (0..=0xFFFF), which may be
    /// a surrogate.
    #[inline(always)]
    pub fn get16(&self, bmp: u16) -> T
        ensures { Some result ≡ trie_value self.now bmp }
    {
        self.as_view().get16(bmp)
    }

    /// Returns the value of a supplementary code point (0x10000..=0x10FFFF). For any other argument
    /// it returns what [`get32`](Self::get32) returns.
    #[inline]
    pub fn get32_supplementary(&self, supplementary: u32) -> T
        ensures { Some result ≡ trie_value self.now supplementary }
    {
        self.get32(supplementary)
    }

    /// Returns the number of the value of the code point `c`: the `to_u32` of what
    /// [`get32`](Self::get32) returns.
    #[inline]
    pub fn get32_u32(&self, c: u32) -> u32
        ensures { Some result ≡ option_map T.number (trie_value self.now c) }
    {
        self.as_view().get32_u32(c)
    }

    /// Returns the header, and references to the index and the data. [`try_new`](Self::try_new)
    /// accepts them again.
    pub fn parts(&self) -> (CodePointTrieHeader, ZeroSlice<'_, u16>, ZeroSlice<'_, T>)
        ensures header { result.0 ≡ self.now.header }
        ensures index { slice_values result.1 ≡ self.now.index }
        ensures values { slice_values result.2 ≡ self.now.values }
        ensures whole { parts_fault T.of_number self.now.header self.now.index self.now.values
            ≡ None }
    {
        self.as_view().parts()
    }

    /// Returns an equal trie that owns its index and its data.
    ///
    /// # Errors
    /// Returns `MemoryError` if an allocation fails.
    pub fn try_clone(&self, alloc: Global) -> Result<CodePointTrie<'static, T>, MemoryError>
        ensures { IfOk result (λ trie. trie ≡ self.now) }
    {
        Ok(CodePointTrie {
            header: self.header,
            index: self.index.try_clone(alloc)?,
            data: self.data.try_clone(alloc)?,
        })
    }

    /// Returns the error value, which is the value of all numbers above 0x10FFFF: the last cell of
    /// the data.
    #[inline]
    pub fn error_value(&self) -> T
        ensures { Some result ≡ last_cell self.now.values }
    {
        self.as_view().error_value()
    }

    /// Returns the null value: the value whose number is in the header. For a built trie it is
    /// unspecified which value that is.
    pub fn null_value(&self) -> T
        ensures { T.of_number self.now.header.null_value ≡ Some result }
    {
        match T::try_from_u32(self.header.null_value) {
            Ok(value) => value,
            Err(_) => unreachable!(),
        }
    }
}
