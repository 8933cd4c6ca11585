//! Reads and writes a trie as JSON: an object whose key `data` has the units as an array of
//! numbers.
ghost use Rattle.std.specs.Prelude.{◌≡◌, ◌^◌, ◌<◌, ◌⊎◌, Ok, Err, IfOk, IfErr, All};
ghost use Rattle.icu_zerovec.specs.Slice.{slice_values};
ghost use Rattle.icu_zerovec.specs.FirstFault.{read_from};
ghost use Rattle.serde_json.specs.View.{view, items_view};
ghost use Rattle.icu_char16trie.specs.Char16Json.{unit_of, unit_or, list_of, units_of, json_of};

use crate::trie::Char16Trie;
use icu_zerovec::{MemoryError, ZeroSlice, ZeroVec};
use serde_json::{Value, json};
use std::alloc::Global;
use thiserror::Error;

/// Why a JSON value is not a trie.
#[derive(Clone, Copy, Debug, PartialEq, Eq, Error)]
pub enum Char16JsonError {
    /// It is not an object, it has neither or both of the keys `data` and `trie_data`, or the key's
    /// value is not an array.
    #[error("no object with one array `data` or `trie_data`")]
    Shape,
    /// The item at this index, counted from 0, is the first that is not a whole number up to 65535.
    #[error("item {0} is no whole number up to 65535")]
    Number(usize),
    /// An allocation failed.
    #[error("no memory")]
    Memory,
}

impl From<MemoryError> for Char16JsonError {
    ghost use Rattle.icu_char16trie.specs.declared.json.Char16JsonError.TheVariants.{Memory};

    ghost from_gives = { λ _ e. e ≡ Memory };

    fn from(_error: MemoryError) -> Char16JsonError {
        Char16JsonError::Memory
    }
}

/// Returns the unit of an item, or `None` if the item is not a whole number up to 65535.
fn unit_of(item: &Value) -> Option<u16>
    ensures { result ≡ unit_of (view item.now) }
{
    u16::try_from(item.as_u64()?).ok()
}

/// Returns the units of the items, in their order.
fn units_of_items(alloc: Global, items: &[Value]) -> Result<Vec<u16>, Char16JsonError>
    ensures ok { IfOk result (λ units.
        read_from unit_or 0 (list_of (items_view items.now)) ≡ Ok units.items) }
    ensures err { IfErr result (λ e. (e ≡ Char16JsonError.Memory)
        ⊎ (read_from unit_or 0 (list_of (items_view items.now)) ≡ Err e)) }
{
    let Ok(mut units) = Vec::with_capacity(alloc, items.len()) else {
        return Err(Char16JsonError::Memory);
    };
    for (i, item) in items.iter().enumerate() {
        let Some(unit) = unit_of(item) else {
            return Err(Char16JsonError::Number(i));
        };
        let Ok(()) = units.push(unit) else {
            return Err(Char16JsonError::Memory);
        };
    }
    Ok(units)
}

/// Returns the JSON object of a trie with these units.
fn object_of(alloc: Global, units: ZeroSlice<'_, u16>) -> Result<Value, MemoryError>
    ensures json { IfOk result (λ value. view value ≡ json_of (slice_values units.entry)) }
    ensures small { IfOk result (λ _. All (λ u. u < 2 ^ 16) (slice_values units.entry)) }
{
    let mut items = Vec::with_capacity(alloc, units.len())?;
    for unit in units.iter() {
        items.push(Value::from(unit))?;
    }
    Ok(json!(in alloc; { "data": Value::Array(items) })?)
}

impl<'data> Char16Trie<'data> {
    /// Reads a trie from a JSON value: an object whose key `data` or `trie_data` has an array of
    /// whole numbers up to 65535.
    ///
    /// Other keys are ignored. The units are not validated; [`Char16Trie::is_trie`] does that.
    ///
    /// ```
    /// let trie = Char16Trie::from_json(alloc, &Value::from_str(alloc, r#"{"data":[49,97,98,32771]}"#)?)?;
    /// // the map of "ab" to 3
    /// ```
    ///
    /// # Errors
    /// In this order:
    ///
    /// - `Shape` if the value is not an object, has neither or both of the keys, or the key's value
    ///   is not an array.
    /// - `Number` with the index of the first item that is not a whole number up to 65535.
    ///
    /// `Memory` if an allocation fails.
    pub fn from_json(alloc: Global, value: &Value) -> Result<Char16Trie<'static>, Char16JsonError>
        ensures ok { IfOk result (λ trie. units_of (view value.now) ≡ Ok trie) }
        ensures err { IfErr result
            (λ e. (e ≡ Char16JsonError.Memory) ⊎ (units_of (view value.now) ≡ Err e)) }
    {
        let items = match (value.get("data"), value.get("trie_data")) {
            (Some(items), None) | (None, Some(items)) => items,
            (None, None) | (Some(_), Some(_)) => return Err(Char16JsonError::Shape),
        };
        let Some(items) = items.as_array() else {
            return Err(Char16JsonError::Shape);
        };
        let units = units_of_items(alloc, items)?;
        Ok(Char16Trie::new(ZeroVec::alloc_from_slice(alloc, &units)?))
    }

    /// Writes the trie as a JSON value: an object with the single key `data`, which has the units
    /// as an array of numbers.
    ///
    /// # Errors
    /// Returns `MemoryError` if an allocation fails.
    pub fn to_json(&self, alloc: Global) -> Result<Value, MemoryError>
        ensures json { IfOk result (λ value. view value ≡ json_of self.now) }
        ensures read_back { IfOk result (λ value. units_of (view value) ≡ Ok self.now) }
    {
        let value = object_of(alloc, self.data.as_slice())?;
        Ok(value)
    }
}
