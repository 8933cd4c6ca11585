//! Reads a trie from TOML in the form that ICU4C exports: a table with the header, the index, and
//! the data in one of three widths.
ghost use Rattle.std.specs.Prelude.{◌≡◌, Ok, IfOk, IfErr, map};
ghost use Rattle.icu_trie_formats.specs.TrieToml.{GivesData, GivesHeader, values_of, typed_data, trie_with, IsRefusedTrie, GivesTrie};

mod tables;

use icu_trie::cptrie::CodePointTrie;
use icu_trie::error::{CodePointTrieError, PartsError};
use icu_trie::header::{CodePointTrieHeader, TrieType};
use icu_trie::value::TrieValue;
use icu_zerovec::MemoryError;
use std::alloc::Global;
use std::marker::Model;
use thiserror::Error;

/// Why a table is rejected.
#[derive(Clone, Copy, Debug, PartialEq, Eq, Error)]
pub enum TomlError {
    /// The value at this required key is missing.
    #[error("no value at the key `{0}`")]
    Missing(&'static str),
    /// The value at this key, or an item of its array, is of another kind or out of range.
    #[error("the value at the key `{0}` is of another kind or out of its range")]
    OutOfRange(&'static str),
    /// An allocation failed.
    #[error("no memory")]
    Memory,
}

impl From<MemoryError> for TomlError {
    ghost use Rattle.icu_trie_formats.specs.declared.trie_toml.TomlError.TheVariants.{Memory};

    ghost from_gives = { λ _ e. e ≡ Memory };

    fn from(_error: MemoryError) -> TomlError {
        TomlError::Memory
    }
}

/// Why the contents of a table are not a trie.
#[derive(Clone, Copy, Debug, PartialEq, Error)]
pub enum TrieFromTomlError {
    /// The parts do not form a trie.
    #[error("{0}")]
    Trie(CodePointTrieError),
    /// The table itself was rejected. The conversion never returns this: it is for `?` in a
    /// function that both reads a table and converts it to a trie.
    #[error("{0}")]
    Table(TomlError),
    /// An allocation failed.
    #[error("no memory")]
    Memory,
}

impl From<CodePointTrieError> for TrieFromTomlError {
    ghost use Rattle.icu_trie_formats.specs.declared.trie_toml.TrieFromTomlError.TheVariants.{Trie};

    ghost from_gives = { λ x e. e ≡ Trie x };

    fn from(error: CodePointTrieError) -> TrieFromTomlError {
        TrieFromTomlError::Trie(error)
    }
}

impl From<MemoryError> for TrieFromTomlError {
    ghost use Rattle.icu_trie_formats.specs.declared.trie_toml.TrieFromTomlError.TheVariants.{Memory};

    ghost from_gives = { λ _ e. e ≡ Memory };

    fn from(_error: MemoryError) -> TrieFromTomlError {
        TrieFromTomlError::Memory
    }
}

/// For `?` after reading a table. `Memory` stays `Memory`.
impl From<TomlError> for TrieFromTomlError {
    ghost use Rattle.icu_trie_formats.specs.TrieToml.{table_refusal};

    ghost from_gives = { λ x e. e ≡ table_refusal x };

    fn from(error: TomlError) -> TrieFromTomlError {
        match error {
            TomlError::Memory => TrieFromTomlError::Memory,
            TomlError::Missing(_) | TomlError::OutOfRange(_) => TrieFromTomlError::Table(error),
        }
    }
}

/// The data cells of a trie in a table, in their width there.
#[derive(Clone, Copy, Debug)]
pub enum CodePointDataSlice<'a> {
    /// 8-bit cells.
    U8(&'a [u8]),
    /// 16-bit cells.
    U16(&'a [u16]),
    /// 32-bit cells.
    U32(&'a [u32]),
}

/// The numbers of a table besides its arrays.
#[derive(Clone, Copy, Debug)]
pub(crate) struct TomlFields {
    pub(crate) high_start: u32,
    pub(crate) shifted12_high_start: u16,
    pub(crate) trie_type: u8,
    // Not read again: which data array the table has decides the width.
    #[allow(dead_code)]
    pub(crate) value_width: u8,
    pub(crate) index3_null_offset: u16,
    pub(crate) data_null_offset: u32,
    pub(crate) null_value: u32,
}

/// The contents of a TOML table with a trie, as ICU4C exports it.
#[derive(Debug, Drop)]
pub struct CodePointTrieToml {
    pub(crate) index: Vec<u16>,
    pub(crate) data_8: Option<Vec<u8>>,
    pub(crate) data_16: Option<Vec<u16>>,
    pub(crate) data_32: Option<Vec<u32>>,
    pub(crate) fields: TomlFields,
    // The allocator for the cells of a trie that is made from the table.
    alloc: Global,
}

impl Model for CodePointTrieToml {
    ghost use Rattle.std.specs.Prelude.{option_map};
    ghost use Rattle.icu_trie_formats.specs.TrieToml.{TomlParts};

    ghost Value = { TomlParts };

    ghost view = { λ t. record {
      index = t.index.items;
      data_8 = option_map (λ v. v.items) t.data_8;
      data_16 = option_map (λ v. v.items) t.data_16;
      data_32 = option_map (λ v. v.items) t.data_32;
      fields = t.fields;
    } };
}

/// Returns the values whose numbers are in the cells.
fn values_of<N: TrieValue, T: TrieValue>(
    alloc: Global,
    cells: &[N],
) -> Result<Vec<T>, TrieFromTomlError>
    ensures ok { IfOk result (λ v. values_of T.of_number (map N.number cells.now) ≡ Ok v.items) }
    ensures err { IfErr result (IsRefusedTrie (values_of T.of_number (map N.number cells.now))) }
{
    let Ok(mut values) = Vec::with_capacity(alloc, cells.len()) else {
        return Err(TrieFromTomlError::Memory);
    };
    for cell in cells {
        let Ok(value) = T::try_from_u32(cell.to_u32()) else {
            return Err(TrieFromTomlError::Trie(CodePointTrieError::FromDeserialized {
                reason: "Could not parse data array to typed array",
            }));
        };
        let Ok(()) = values.push(value) else {
            return Err(TrieFromTomlError::Memory);
        };
    }
    Ok(values)
}

impl CodePointTrieToml {
    /// Returns the cells of the index.
    pub fn index_slice(&self) -> &[u16]
        ensures { result.now ≡ self.now.index }
    {
        self.index.as_slice()
    }

    /// Returns the cells of the data: the first array among `data_8`, `data_16` and `data_32` in
    /// the table.
    ///
    /// # Errors
    /// Returns `FromDeserialized` if the table has none of them.
    pub fn data_slice(&self) -> Result<CodePointDataSlice<'_>, CodePointTrieError>
        ensures { GivesData self.now result }
    {
        if let Some(cells) = &self.data_8 {
            Ok(CodePointDataSlice::U8(cells.as_slice()))
        } else if let Some(cells) = &self.data_16 {
            Ok(CodePointDataSlice::U16(cells.as_slice()))
        } else if let Some(cells) = &self.data_32 {
            Ok(CodePointDataSlice::U32(cells.as_slice()))
        } else {
            Err(CodePointTrieError::FromDeserialized {
                reason: "Did not find data array for CodePointTrie in TOML",
            })
        }
    }
}

/// Reads the header of the table.
///
/// # Errors
/// Returns `FromDeserialized` if the number at `type` is not the number of a trie type.
impl TryFrom<&CodePointTrieToml> for CodePointTrieHeader {
    type Error = CodePointTrieError;

    ghost try_from_gives = { λ t r. GivesHeader t.now r };

    fn try_from(toml: &CodePointTrieToml) -> Result<CodePointTrieHeader, CodePointTrieError> {
        let fields = &toml.fields;
        Ok(CodePointTrieHeader {
            high_start: fields.high_start,
            shifted12_high_start: fields.shifted12_high_start,
            index3_null_offset: fields.index3_null_offset,
            data_null_offset: fields.data_null_offset,
            null_value: fields.null_value,
            trie_type: TrieType::try_from(fields.trie_type)?,
        })
    }
}

/// Returns the values of the data of a table.
fn typed_data<T: TrieValue>(toml: &CodePointTrieToml) -> Result<Vec<T>, TrieFromTomlError>
    ensures ok { IfOk result (λ v. typed_data T.of_number toml.now ≡ Ok v.items) }
    ensures err { IfErr result (IsRefusedTrie (typed_data T.of_number toml.now)) }
{
    match toml.data_slice()? {
        CodePointDataSlice::U8(cells) => values_of(toml.alloc, cells),
        CodePointDataSlice::U16(cells) => values_of(toml.alloc, cells),
        CodePointDataSlice::U32(cells) => values_of(toml.alloc, cells),
    }
}

/// Returns the trie of these parts. It owns its cells.
fn trie_with<T: TrieValue>(
    alloc: Global,
    header: CodePointTrieHeader,
    index: &[u16],
    values: &[T],
) -> Result<CodePointTrie<'static, T>, TrieFromTomlError>
    ensures ok { IfOk result (λ t. trie_with T.of_number header index.now values.now ≡ Ok t) }
    ensures err { IfErr result (IsRefusedTrie (trie_with T.of_number header index.now values.now)) }
{
    match CodePointTrie::alloc_from_slices(alloc, header, index, values) {
        Ok(trie) => Ok(trie),
        Err(PartsError::Trie(error)) => Err(TrieFromTomlError::Trie(error)),
        Err(PartsError::Memory) => Err(TrieFromTomlError::Memory),
    }
}

/// Creates the trie of the table. It owns its cells.
///
/// # Errors
/// Returns `Trie` with the first error in this order:
///
/// - `FromDeserialized` if the number at `type` is not the number of a trie type, if the table has
///   no data, or if a data cell is not the number of a value.
/// - The errors of `CodePointTrie::try_new`.
///
/// Returns `Memory` if an allocation fails.
impl<T: TrieValue> TryFrom<&CodePointTrieToml> for CodePointTrie<'static, T> {
    type Error = TrieFromTomlError;

    ghost try_from_gives = { λ t r. GivesTrie T.of_number t.now r };

    fn try_from(toml: &CodePointTrieToml) -> Result<CodePointTrie<'static, T>, TrieFromTomlError> {
        let header = CodePointTrieHeader::try_from(toml)?;
        let values = typed_data(toml)?;
        trie_with(toml.alloc, header, toml.index_slice(), &values)
    }
}
