//! Reads the contents of a TOML table with a trie.
ghost use Rattle.std.specs.Prelude.{◌≡◌, Ok, IfOk, IfErr, map, option_map};
ghost use Rattle.toml.specs.Data.{get_member};
ghost use Rattle.toml.specs.View.{view, table_view};
ghost use Rattle.icu_trie_formats.specs.TrieToml.{number_of, items_in, numbers_of, number_at, numbers_at, optional_numbers_at, toml_of, IsRefused, fields_of};

use super::{CodePointTrieToml, TomlError, TomlFields};
use icu_trie::value::TrieValue;
use std::alloc::Global;
use toml::{Table, Value};

/// Returns the number of a TOML value if it is a whole number of a value of this type.
fn number_of<N: TrieValue>(value: &Value) -> Option<N>
    ensures { result ≡ number_of N.of_number (view value.now) }
{
    let number = u32::try_from(value.as_integer()?).ok()?;
    N::try_from_u32(number).ok()
}

/// Returns the value at a key.
fn value_at<'a>(table: &'a Table, key: &str) -> Option<&'a Value>
    ensures { option_map (λ v. view v.now) result ≡ get_member key.now (table_view table.now) }
{
    table.get(key)
}

/// Returns the number at a required key.
fn number_at<N: TrieValue>(table: &Table, key: &'static str) -> Result<N, TomlError>
    ensures ok { IfOk result (λ n. number_at N.of_number key.now (table_view table.now) ≡ Ok n) }
    ensures err { IfErr result (IsRefused (number_at N.of_number key.now (table_view table.now))) }
{
    let Some(value) = value_at(table, key) else {
        return Err(TomlError::Missing(key));
    };
    let Some(number) = number_of(value) else {
        return Err(TomlError::OutOfRange(key));
    };
    Ok(number)
}

/// Returns the items of an array.
fn items_of(value: &Value) -> Option<&[Value]>
    ensures { option_map (λ items. map view items.now) result ≡ items_in (view value.now) }
{
    match value.as_array() {
        Some(items) => Some(items.as_slice()),
        None => None,
    }
}

/// Returns the numbers of the items of an array, in their order.
fn numbers_of_items<N: TrieValue>(
    alloc: Global,
    items: &[Value],
    key: &'static str,
) -> Result<Vec<N>, TomlError>
    ensures ok { IfOk result
        (λ v. numbers_of N.of_number key.now (map view items.now) ≡ Ok v.items) }
    ensures err { IfErr result (IsRefused (numbers_of N.of_number key.now (map view items.now))) }
{
    let Ok(mut numbers) = Vec::with_capacity(alloc, items.len()) else {
        return Err(TomlError::Memory);
    };
    for item in items {
        let Some(number) = number_of(item) else {
            return Err(TomlError::OutOfRange(key));
        };
        let Ok(()) = numbers.push(number) else {
            return Err(TomlError::Memory);
        };
    }
    Ok(numbers)
}

/// Returns the numbers of the array at a key, or `None` if the key is missing.
fn optional_numbers_at<N: TrieValue>(
    alloc: Global,
    table: &Table,
    key: &'static str,
) -> Result<Option<Vec<N>>, TomlError>
    ensures ok { IfOk result
        (λ o. optional_numbers_at N.of_number key.now (table_view table.now)
        ≡ Ok (option_map (λ v. v.items) o)) }
    ensures err { IfErr result
        (IsRefused (optional_numbers_at N.of_number key.now (table_view table.now))) }
{
    let Some(value) = value_at(table, key) else {
        return Ok(None);
    };
    let Some(items) = items_of(value) else {
        return Err(TomlError::OutOfRange(key));
    };
    let numbers = numbers_of_items(alloc, items, key)?;
    Ok(Some(numbers))
}

/// Returns the numbers of the array at a required key.
fn numbers_at<N: TrieValue>(
    alloc: Global,
    table: &Table,
    key: &'static str,
) -> Result<Vec<N>, TomlError>
    ensures ok { IfOk result
        (λ v. numbers_at N.of_number key.now (table_view table.now) ≡ Ok v.items) }
    ensures err { IfErr result (IsRefused (numbers_at N.of_number key.now (table_view table.now))) }
{
    let Some(numbers) = optional_numbers_at(alloc, table, key)? else {
        return Err(TomlError::Missing(key));
    };
    Ok(numbers)
}

/// Returns the numbers of a table besides its arrays.
fn fields_of(table: &Table) -> Result<TomlFields, TomlError>
    ensures ok { IfOk result (λ f. fields_of (table_view table.now) ≡ Ok f) }
    ensures err { IfErr result (IsRefused (fields_of (table_view table.now))) }
{
    Ok(TomlFields {
        high_start: number_at(table, "highStart")?,
        shifted12_high_start: number_at(table, "shifted12HighStart")?,
        trie_type: number_at(table, "type")?,
        value_width: number_at(table, "valueWidth")?,
        index3_null_offset: number_at(table, "index3NullOffset")?,
        data_null_offset: number_at(table, "dataNullOffset")?,
        null_value: number_at(table, "nullValue")?,
    })
}

impl CodePointTrieToml {
    /// Reads the contents of a table with a trie.
    ///
    /// The keys of the table are:
    ///
    /// - `index`, an array of 16-bit numbers
    /// - `data_8`, `data_16` or `data_32`, an array of numbers of that many bits: the data
    /// - the numbers `highStart` (32 bits), `shifted12HighStart` (16), `type` (8), `valueWidth` (8,
    ///   stored but not used), `index3NullOffset` (16), `dataNullOffset` (32) and `nullValue` (32)
    ///
    /// Other keys are ignored.
    ///
    /// ```
    /// let read = CodePointTrieToml::from_table(alloc, &toml::table_from_str(alloc, text)?)?;
    /// let trie = CodePointTrie::<u8>::try_from(&read)?;
    /// ```
    ///
    /// # Errors
    /// Returns the first error in the order of the keys above:
    ///
    /// - `Missing` with the key if a required one is missing. The three keys of the data are
    ///   optional here.
    /// - `OutOfRange` with the key if its value is of another kind, or a number is out of range.
    ///
    /// Returns `Memory` if an allocation fails.
    pub fn from_table(alloc: Global, table: &Table) -> Result<CodePointTrieToml, TomlError>
        ensures ok { IfOk result (λ t. toml_of (table_view table.now) ≡ Ok t) }
        ensures err { IfErr result (IsRefused (toml_of (table_view table.now))) }
    {
        Ok(CodePointTrieToml {
            index: numbers_at(alloc, table, "index")?,
            data_8: optional_numbers_at(alloc, table, "data_8")?,
            data_16: optional_numbers_at(alloc, table, "data_16")?,
            data_32: optional_numbers_at(alloc, table, "data_32")?,
            fields: fields_of(table)?,
            alloc,
        })
    }
}
