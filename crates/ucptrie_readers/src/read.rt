//! The table that a file has.
ghost use Rattle.std.specs.Prelude.{◌≡◌, ◌^◌, ◌<◌, ℕ, Some, true, false, option_map, Err, IfErr, IfNone, IfOk, IfSome, MatchResult};
ghost use Rattle.toml.specs.Data.{get_member};
ghost use Rattle.toml.specs.Parse.{parse_document};
ghost use Rattle.toml.specs.View.{table_view, view};
ghost use Rattle.icu_trie_core.specs.ValueNumbers.{fitting};
ghost use Rattle.ucptrie_readers.specs.Files.{HasNoForm, HasSignature, HasSwappedSignature, IsBinaryOf, IsJsonOf, IsSwappedOf, IsTakenForJson, IsTakenForToml, IsTomlOf, IsTomlTrieOf, IsWhyNoBinary, IsWhyNoJson, IsWhyNoSwapped, IsWhyNoToml, IsWhyNoTomlTrie, IsWhyNotToml, starts_object};
ghost use Rattle.ucptrie_tables.specs.Numbers.{HasNumbersOf};
ghost use Rattle.ucptrie_readers.specs.TomlFiles.{first_property, trie_of_property, trie_of_table, trie_table, width_of};
ghost use Rattle.ucptrie_readers.specs.declared.error.ReadError.TheVariants.{Memory, Text};

use crate::error::{ReadError, TomlFileError};
use icu_trie::cptrie::CodePointTrie;
use icu_trie::map_value::MapError;
use icu_trie::value::TrieValue;
use icu_trie_binary::binary::{
    AnyWidthTrie, BinaryError, SwappedError, from_binary_any, from_binary_swapped,
};
use icu_trie_formats::json::from_json;
use icu_trie_formats::trie_toml::{CodePointDataSlice, CodePointTrieToml};
use serde_json::Value;
use std::alloc::Global;
use std::str;
use ucptrie_tables::table::Table;
use ucptrie_tables::values::with_values_of;
use ucptrie_tables::width::ValueWidth;

/// Returns the table of a trie over values of a narrower type.
fn widened<T: TrieValue>(
    alloc: Global,
    trie: &CodePointTrie<'_, T>,
    width: ValueWidth,
) -> Result<Table, ReadError>
    ensures trie { IfOk result (λ t. HasNumbersOf T.number T.of_number (λ n. n) (fitting (2 ^ 32))
        trie.now t.trie) }
    ensures width { IfOk result (λ t. t.width ≡ width) }
    ensures memory { IfErr result (λ e. e ≡ Memory) }
{
    match with_values_of(alloc, trie) {
        Ok(trie) => Ok(Table { trie, width }),
        // The number of each value has at most 32 bits.
        Err(MapError::Closure(_)) => unreachable!(),
        Err(MapError::Memory) => Err(ReadError::Memory),
    }
}

/// Reads a table in ICU's binary form.
fn table_of_binary(alloc: Global, file: &[u8]) -> Result<Table, ReadError>
    ensures ok { IfOk result (IsBinaryOf file.now) }
    ensures err { IfErr result (IsWhyNoBinary file.now) }
{
    let (read, _) = from_binary_any(file)?;
    match read {
        AnyWidthTrie::Bits8(trie) => widened(alloc, &trie, ValueWidth::Bits8),
        AnyWidthTrie::Bits16(trie) => widened(alloc, &trie, ValueWidth::Bits16),
        AnyWidthTrie::Bits32(trie) => widened(alloc, &trie, ValueWidth::Bits32),
    }
}

/// Reads a table in ICU's binary form as a machine with the other byte order writes it. Tries each
/// width in turn.
fn table_of_swapped(alloc: Global, file: &[u8]) -> Result<Table, ReadError>
    ensures ok { IfOk result (IsSwappedOf file.now) }
    ensures err { IfErr result (IsWhyNoSwapped file.now) }
{
    match from_binary_swapped::<u8>(alloc, file) {
        Ok((trie, _)) => return widened(alloc, &trie, ValueWidth::Bits8),
        Err(SwappedError::Binary(BinaryError::OtherWidth)) => {}
        Err(error) => return Err(ReadError::from(error)),
    }
    match from_binary_swapped::<u16>(alloc, file) {
        Ok((trie, _)) => return widened(alloc, &trie, ValueWidth::Bits16),
        Err(SwappedError::Binary(BinaryError::OtherWidth)) => {}
        Err(error) => return Err(ReadError::from(error)),
    }
    let (trie, _) = from_binary_swapped::<u32>(alloc, file)?;
    Ok(Table {
        trie,
        width: ValueWidth::Bits32,
    })
}

/// Reads a table in JSON, which has no width: its numbers have 32 bits.
fn table_of_json(alloc: Global, text: &str) -> Result<Table, ReadError>
    ensures ok { IfOk result (IsJsonOf text.now) }
    ensures err { IfErr result (IsWhyNoJson text.now) }
{
    let value = Value::from_str(alloc, text)?;
    Ok(Table {
        trie: from_json(alloc, &value)?,
        width: ValueWidth::Bits32,
    })
}

/// Returns the value at a key.
pub(crate) fn value_at<'a>(table: &'a toml::Table, key: &str) -> Option<&'a toml::Value>
    ensures { option_map (λ v. view v.now) result ≡ get_member key.now (table_view table.now) }
{
    table.get(key)
}

/// Returns the first of the properties at a key. icuexportdata writes an array of them.
fn first_property(property: &toml::Value) -> Option<&toml::Value>
    ensures { option_map (λ v. view v.now) result ≡ first_property (view property.now) }
{
    match property.as_array() {
        Some(properties) => properties.first(),
        None => Some(property),
    }
}

/// Returns the trie of a property's table. For normalization, icuexportdata writes a trie in its
/// place.
pub(crate) fn trie_of_table(property: &toml::Table) -> Option<&toml::Table>
    ensures { option_map (λ t. table_view t.now) result ≡ trie_of_table (table_view property.now) }
{
    match value_at(property, "code_point_trie") {
        Some(trie) => trie.as_table(),
        None => value_at(property, "index").map(|_index| property),
    }
}

/// Returns the trie of the properties at a key.
fn trie_of_property(property: &toml::Value) -> Option<&toml::Table>
    ensures { option_map (λ t. table_view t.now) result ≡ trie_of_property (view property.now) }
{
    let first = first_property(property)?;
    let table = first.as_table()?;
    trie_of_table(table)
}

/// Returns the trie of the first property that has one, or the whole file if none has.
fn trie_table(file: &toml::Table) -> &toml::Table
    ensures { table_view result.now ≡ trie_table (table_view file.now) }
{
    for property in file.values() {
        if let Some(table) = trie_of_property(property) {
            return table;
        }
    }
    file
}

/// Returns the width of the first array of data that a TOML table has.
fn width_of(read: &CodePointTrieToml) -> ValueWidth
    ensures { result ≡ width_of read.now }
{
    match read.data_slice() {
        Ok(CodePointDataSlice::U8(_)) => ValueWidth::Bits8,
        Ok(CodePointDataSlice::U16(_)) => ValueWidth::Bits16,
        Ok(CodePointDataSlice::U32(_)) | Err(_) => ValueWidth::Bits32,
    }
}

/// Reads a TOML file.
pub(crate) fn file_of_toml(alloc: Global, text: &str) -> Result<toml::Table, ReadError>
    ensures ok { IfOk result (λ file. parse_document text.now ≡ Some (table_view file)) }
    ensures err { IfErr result (IsWhyNotToml text.now) }
{
    match toml::table_from_str(alloc, text) {
        Ok(file) => Ok(file),
        Err(error) if error.is_memory() => Err(ReadError::Memory),
        Err(error) => Err(ReadError::Toml(TomlFileError::new(text, error))),
    }
}

/// Returns the table of a trie in TOML.
pub(crate) fn table_of_members(alloc: Global, table: &toml::Table) -> Result<Table, ReadError>
    ensures ok { IfOk result (IsTomlTrieOf (table_view table.now)) }
    ensures err { IfErr result (IsWhyNoTomlTrie (table_view table.now)) }
{
    let read = CodePointTrieToml::from_table(alloc, table)?;
    let trie = CodePointTrie::try_from(&read)?;
    let width = width_of(&read);
    Ok(Table { trie, width })
}

/// Reads a table in TOML.
fn table_of_toml(alloc: Global, text: &str) -> Result<Table, ReadError>
    ensures ok { IfOk result (IsTomlOf text.now) }
    ensures err { IfErr result (IsWhyNoToml text.now) }
{
    let file = file_of_toml(alloc, text)?;
    table_of_members(alloc, trie_table(&file))
}

/// Returns whether a text is taken for JSON: whether its first byte after white space is `{`.
fn is_object(text: &str) -> bool
    ensures { result ≡ starts_object text.now }
{
    text.trim_start().starts_with('{')
}

/// Reads a table in JSON or in TOML.
fn table_of_text(alloc: Global, text: &str) -> Result<Table, ReadError>
    ensures json { starts_object text.now ≡ true
        → MatchResult result (IsJsonOf text.now) (IsWhyNoJson text.now) }
    ensures toml { starts_object text.now ≡ false
        → MatchResult result (IsTomlOf text.now) (IsWhyNoToml text.now) }
{
    if is_object(text) {
        table_of_json(alloc, text)
    } else {
        table_of_toml(alloc, text)
    }
}

/// Returns the text of a file that is taken for TOML, or `None` for any other file.
pub(crate) fn toml_text(file: &[u8]) -> Option<&str>
    ensures some { IfSome result (λ text. IsTakenForToml file.now × (text.now ≡ file.now)) }
    ensures none { IfNone result (¬ IsTakenForToml file.now) }
{
    if let [b'3', b'i', b'r', b'T', ..] | [b'T', b'r', b'i', b'3', ..] = file {
        return None;
    }
    let text = str::from_utf8(file).ok()?;
    if !is_object(text) { Some(text) } else { None }
}

/// Reads the table that a file has.
///
/// The first bytes decide which form the file is taken for: ICU's binary form, in either byte
/// order, by its signature; JSON by `{` after white space; and TOML otherwise. In TOML the trie is
/// that of the first property that has one, as ICU's icuexportdata writes it, or the whole file. In
/// the binary form, what follows the trie is not read.
///
/// # Errors
/// Returns [`ReadError::Binary`] for the first fault of a file with a signature. Returns
/// [`ReadError::Text`] if the file has no signature and is not a text in UTF-8. Returns
/// [`ReadError::Json`] if a text that starts with `{` is not JSON, and [`ReadError::TrieJson`] for
/// the first fault of its JSON as a trie. Returns [`ReadError::Toml`] if any other text is not
/// TOML, and [`ReadError::TrieToml`] for the first fault of its TOML as a trie. Returns
/// [`ReadError::Memory`] if an allocation fails.
pub fn read_table(alloc: Global, file: &[u8]) -> Result<Table, ReadError>
    ensures binary { HasSignature file.now
        → MatchResult result (IsBinaryOf file.now) (IsWhyNoBinary file.now) }
    ensures swapped { HasSwappedSignature file.now
        → MatchResult result (IsSwappedOf file.now) (IsWhyNoSwapped file.now) }
    ensures json { IsTakenForJson file.now
        → MatchResult result (IsJsonOf file.now) (IsWhyNoJson file.now) }
    ensures toml { IsTakenForToml file.now
        → MatchResult result (IsTomlOf file.now) (IsWhyNoToml file.now) }
    ensures text { HasNoForm file.now → result ≡ Err Text }
{
    match file {
        [b'3', b'i', b'r', b'T', ..] => return table_of_binary(alloc, file),
        [b'T', b'r', b'i', b'3', ..] => return table_of_swapped(alloc, file),
        _ => {}
    }
    let Ok(text) = str::from_utf8(file) else {
        return Err(ReadError::Text);
    };
    table_of_text(alloc, text)
}
