//! Reads and writes a trie as JSON: an object with a header, an index and data.
ghost use Rattle.std.specs.Prelude.{◌≡◌, Ok, None, IfOk, IfErr, All, map, option_map};
ghost use Rattle.icu_zerovec.specs.Slice.{slice_values};
ghost use Rattle.serde_json.specs.View.{view};
ghost use Rattle.icu_trie_formats.specs.TrieJson.{number_of, number_at, member_at, object_or, type_at, header_of, header_at, items_in, items_at, cells_of, values_of, trie_with, trie_of_json, IsRefusedJson, type_name, header_json, numbers_json, trie_object, json_of};
ghost use Rattle.icu_trie_formats.specs.Inside.Numbers.{IsGivenBack};

use icu_trie::cptrie::CodePointTrie;
use icu_trie::error::{CodePointTrieError, PartsError};
use icu_trie::header::{CodePointTrieHeader, TrieType};
use icu_trie::value::TrieValue;
use icu_zerovec::{MemoryError, ZeroSlice};
use serde_json::{Value, json};
use std::alloc::Global;
use thiserror::Error;

/// Why a JSON value is not a trie.
#[derive(Clone, Copy, Debug, PartialEq, Error)]
pub enum TrieJsonError {
    /// The member at this key is missing, or is not the required object, array or name of a trie
    /// type. The key is empty if the value itself is not an object.
    #[error("no value of the right kind at the key `{0}`")]
    Shape(&'static str),
    /// The member at this key, or an item of its array, is not a whole number in its range.
    #[error("no whole number in its range at the key `{0}`")]
    Number(&'static str),
    /// The data cell at this index, counted from 0, is the first that is not the number of a value.
    #[error("cell {0} of the data is the number of no value")]
    Value(usize),
    /// The parts do not form a trie.
    #[error("{0}")]
    Trie(CodePointTrieError),
    /// An allocation failed.
    #[error("no memory")]
    Memory,
}

impl From<CodePointTrieError> for TrieJsonError {
    ghost use Rattle.icu_trie_formats.specs.declared.json.TrieJsonError.TheVariants.{Trie};

    ghost from_gives = { λ x e. e ≡ Trie x };

    fn from(error: CodePointTrieError) -> TrieJsonError {
        TrieJsonError::Trie(error)
    }
}

impl From<MemoryError> for TrieJsonError {
    ghost use Rattle.icu_trie_formats.specs.declared.json.TrieJsonError.TheVariants.{Memory};

    ghost from_gives = { λ _ e. e ≡ Memory };

    fn from(_error: MemoryError) -> TrieJsonError {
        TrieJsonError::Memory
    }
}

/// Returns the number of a JSON value if it is a whole number that fits in 32 bits.
fn number_of(value: &Value) -> Option<u32>
    ensures { result ≡ number_of (view value.now) }
{
    u32::try_from(value.as_u64()?).ok()
}

/// Returns the member at a key.
fn member_at<'a>(value: &'a Value, key: &'static str) -> Result<&'a Value, TrieJsonError>
    ensures ok { IfOk result (λ v. member_at key.now (view value.now) ≡ Ok (view v.now)) }
    ensures err { IfErr result (IsRefusedJson (member_at key.now (view value.now))) }
{
    match value.get(key) {
        Some(member) => Ok(member),
        None => Err(TrieJsonError::Shape(key)),
    }
}

/// Returns the number at a key if it is in the range of its type.
fn number_at<N: TrieValue>(value: &Value, key: &'static str) -> Result<N, TrieJsonError>
    ensures ok { IfOk result (λ n. number_at N.of_number key.now (view value.now) ≡ Ok n) }
    ensures err { IfErr result (IsRefusedJson (number_at N.of_number key.now (view value.now))) }
{
    let member = member_at(value, key)?;
    let Some(number) = number_of(member) else {
        return Err(TrieJsonError::Number(key));
    };
    let Ok(number) = N::try_from_u32(number) else {
        return Err(TrieJsonError::Number(key));
    };
    Ok(number)
}

/// Returns the trie type at its key.
fn type_at(value: &Value) -> Result<TrieType, TrieJsonError>
    ensures ok { IfOk result (λ t. type_at (view value.now) ≡ Ok t) }
    ensures err { IfErr result (IsRefusedJson (type_at (view value.now))) }
{
    let Some(name) = member_at(value, "trie_type")?.as_str() else {
        return Err(TrieJsonError::Shape("trie_type"));
    };
    match name {
        "Fast" => Ok(TrieType::Fast),
        "Small" => Ok(TrieType::Small),
        _ => Err(TrieJsonError::Shape("trie_type")),
    }
}

/// Returns the header that an object encodes.
fn header_of(value: &Value) -> Result<CodePointTrieHeader, TrieJsonError>
    ensures ok { IfOk result (λ h. header_of (view value.now) ≡ Ok h) }
    ensures err { IfErr result (IsRefusedJson (header_of (view value.now))) }
{
    Ok(CodePointTrieHeader {
        high_start: number_at(value, "high_start")?,
        shifted12_high_start: number_at(value, "shifted12_high_start")?,
        index3_null_offset: number_at(value, "index3_null_offset")?,
        data_null_offset: number_at(value, "data_null_offset")?,
        null_value: number_at(value, "null_value")?,
        trie_type: type_at(value)?,
    })
}

/// Returns the header at its key.
fn header_at(value: &Value) -> Result<CodePointTrieHeader, TrieJsonError>
    ensures ok { IfOk result (λ h. header_at (view value.now) ≡ Ok h) }
    ensures err { IfErr result (IsRefusedJson (header_at (view value.now))) }
{
    let header = member_at(value, "header")?;
    if !header.is_object() {
        return Err(TrieJsonError::Shape("header"));
    }
    let header = header_of(header)?;
    Ok(header)
}

/// Returns the items of an array.
fn items_of(value: &Value) -> Option<&[Value]>
    ensures { option_map (λ items. map view items.now) result ≡ items_in (view value.now) }
{
    match value.as_array() {
        Some(items) => Some(items.as_slice()),
        None => None,
    }
}

/// Returns the items of the array at a key.
fn items_at<'a>(value: &'a Value, key: &'static str) -> Result<&'a [Value], TrieJsonError>
    ensures ok { IfOk result (λ vs. items_at key.now (view value.now) ≡ Ok (map view vs.now)) }
    ensures err { IfErr result (IsRefusedJson (items_at key.now (view value.now))) }
{
    let Some(items) = items_of(member_at(value, key)?) else {
        return Err(TrieJsonError::Shape(key));
    };
    Ok(items)
}

/// Returns the cells of an index.
fn cells_of(alloc: Global, items: &[Value]) -> Result<Vec<u16>, TrieJsonError>
    ensures ok { IfOk result (λ v. cells_of (map view items.now) ≡ Ok v.items) }
    ensures err { IfErr result (IsRefusedJson (cells_of (map view items.now))) }
{
    let Ok(mut cells) = Vec::with_capacity(alloc, items.len()) else {
        return Err(TrieJsonError::Memory);
    };
    for item in items {
        let Some(number) = number_of(item) else {
            return Err(TrieJsonError::Number("index"));
        };
        let Ok(cell) = u16::try_from_u32(number) else {
            return Err(TrieJsonError::Number("index"));
        };
        let Ok(()) = cells.push(cell) else {
            return Err(TrieJsonError::Memory);
        };
    }
    Ok(cells)
}

/// Returns the values of the data.
fn values_of<T: TrieValue>(alloc: Global, items: &[Value]) -> Result<Vec<T>, TrieJsonError>
    ensures ok { IfOk result (λ v. values_of T.of_number (map view items.now) ≡ Ok v.items) }
    ensures err { IfErr result (IsRefusedJson (values_of T.of_number (map view items.now))) }
{
    let Ok(mut values) = Vec::with_capacity(alloc, items.len()) else {
        return Err(TrieJsonError::Memory);
    };
    for (i, item) in items.iter().enumerate() {
        let Some(number) = number_of(item) else {
            return Err(TrieJsonError::Number("data"));
        };
        let Ok(value) = T::try_from_u32(number) else {
            return Err(TrieJsonError::Value(i));
        };
        let Ok(()) = values.push(value) else {
            return Err(TrieJsonError::Memory);
        };
    }
    Ok(values)
}

/// Returns the trie of these parts. It owns its cells.
fn trie_with<T: TrieValue>(
    alloc: Global,
    header: CodePointTrieHeader,
    index: &[u16],
    values: &[T],
) -> Result<CodePointTrie<'static, T>, TrieJsonError>
    ensures ok { IfOk result (λ t. trie_with T.of_number header index.now values.now ≡ Ok t) }
    ensures err { IfErr result (IsRefusedJson (trie_with T.of_number header index.now values.now)) }
{
    match CodePointTrie::alloc_from_slices(alloc, header, index, values) {
        Ok(trie) => Ok(trie),
        Err(PartsError::Trie(error)) => Err(TrieJsonError::Trie(error)),
        Err(PartsError::Memory) => Err(TrieJsonError::Memory),
    }
}

/// Returns the numbers of these values as JSON.
fn numbers_json<T: TrieValue>(alloc: Global, values: ZeroSlice<'_, T>) -> Result<Value, MemoryError>
    ensures json { IfOk result
        (λ v. view v ≡ numbers_json (map T.number (slice_values values.entry))) }
    ensures back { IfOk result
        (λ _. All (IsGivenBack T.number T.of_number) (slice_values values.entry)) }
{
    let mut items = Vec::with_capacity(alloc, values.len())?;
    for value in values.iter() {
        value.shown();
        items.push(Value::from(value.to_u32()))?;
    }
    Ok(Value::Array(items))
}

/// Returns the name of a trie type.
fn type_name(trie_type: TrieType) -> &'static str
    ensures { result.now ≡ type_name trie_type }
{
    match trie_type {
        TrieType::Fast => "Fast",
        TrieType::Small => "Small",
    }
}

/// Returns a header as JSON.
fn header_json(alloc: Global, header: CodePointTrieHeader) -> Result<Value, MemoryError>
    ensures json { IfOk result (λ v. view v ≡ header_json header) }
    ensures back { IfOk result (λ _. header_of (header_json header) ≡ Ok header) }
{
    let value = json!(in alloc; {
        "high_start": header.high_start,
        "shifted12_high_start": header.shifted12_high_start,
        "index3_null_offset": header.index3_null_offset,
        "data_null_offset": header.data_null_offset,
        "null_value": header.null_value,
        "trie_type": type_name(header.trie_type),
    })?;
    Ok(value)
}

/// Returns the object of a header, an index and data.
fn object_of(alloc: Global, header: Value, index: Value, data: Value) -> Result<Value, MemoryError>
    ensures { IfOk result (λ v. view v ≡ trie_object (view header) (view index) (view «data»)) }
{
    Ok(json!(in alloc; { "header": header, "index": index, "data": data })?)
}

/// Reads a trie from a JSON value: an object with a header, an index and data.
///
/// `header` is an object with the whole numbers `high_start`, `data_null_offset` and `null_value`
/// (32 bits), `shifted12_high_start` and `index3_null_offset` (16 bits), and `trie_type`, the
/// string `Fast` or `Small`. `index` is an array of whole numbers up to 65535, and `data` is an
/// array of the numbers of the values. Other keys are ignored.
///
/// ```
/// let value = to_json(alloc, &get_planes_trie())?;
/// let trie = from_json::<u8>(alloc, &value)?;
/// // trie.get32(0x1F600) is 1
/// ```
///
/// # Errors
/// Returns the first error in this order:
///
/// - `Shape("")` if the value is not an object.
/// - An error in the header. Its keys are checked in the order `high_start`,
///   `shifted12_high_start`, `index3_null_offset`, `data_null_offset`, `null_value`, `trie_type`.
/// - An error in the index, then one in the data, cell by cell.
/// - `Trie` if `CodePointTrie::try_new` rejects the parts.
///
/// An error at a key is one of these:
///
/// - `Shape` with the key if it is missing, or is not the required object, array or name of a trie
///   type.
/// - `Number` with the key if the number, or an item of the array, is not a whole number in its
///   range.
/// - `Value` with the index of a data cell if the cell is not the number of a value.
///
/// Returns `Memory` if an allocation fails.
pub fn from_json<T: TrieValue>(
    alloc: Global,
    value: &Value,
) -> Result<CodePointTrie<'static, T>, TrieJsonError>
    ensures ok { IfOk result (λ t. trie_of_json T.of_number (view value.now) ≡ Ok t) }
    ensures err { IfErr result (IsRefusedJson (trie_of_json T.of_number (view value.now))) }
{
    if !value.is_object() {
        return Err(TrieJsonError::Shape(""));
    }
    let header = header_at(value)?;
    let index = cells_of(alloc, items_at(value, "index")?)?;
    let values = values_of(alloc, items_at(value, "data")?)?;
    let trie = trie_with(alloc, header, &index, &values)?;
    Ok(trie)
}

/// Writes the trie as a JSON value that [`from_json`] can read: an object with the keys `header`,
/// `index` and `data`.
///
/// ```
/// let value = to_json(alloc, &get_planes_trie())?;
/// // value["header"]["trie_type"] is "Small"
/// ```
///
/// # Errors
/// Returns `MemoryError` if an allocation fails.
pub fn to_json<T: TrieValue>(
    alloc: Global,
    trie: &CodePointTrie<'_, T>,
) -> Result<Value, MemoryError>
    ensures json { IfOk result (λ v. view v ≡ json_of T.number trie.now) }
    ensures read_back { IfOk result (λ v. trie_of_json T.of_number (view v) ≡ Ok trie.now) }
{
    let (header, index, values) = trie.parts();
    let header = header_json(alloc, header)?;
    let index = numbers_json(alloc, index)?;
    let data = numbers_json(alloc, values)?;
    let value = object_of(alloc, header, index, data)?;
    Ok(value)
}
