//! Conversion of sets of code points and strings to and from JSON.
ghost use Rattle.std.specs.Prelude.{◌≡◌, ℕ, ◌+◌, List, [], ◌∷◌, Ok, Err, IfOk, IfErr, map};
ghost use Rattle.serde_json.specs.Data.{string};
ghost use Rattle.serde_json.specs.View.{view, items_view};
ghost use Rattle.icu_text_sets.specs.TextSet.{TextSet, texts_of};
ghost use Rattle.icu_text_sets.specs.TextSetJson.{json_of, object_of, json_fault_of, texts_in, texts_said, IsRead, IsRefusedAs};
ghost use Rattle.icu_text_sets.specs.Inside.JsonParts.{set_fault_of, GivesTexts};

use crate::codepointinvliststringlist::error::StringListJsonError;
use crate::codepointinvliststringlist::set::CodePointInversionListAndStringList;
use icu_invlist::codepointinvlist::{CodePointInversionList, SetJsonError};
use icu_zerovec::MemoryError;
use serde_json::{Value, json};
use std::alloc::Global;

/// Returns the strings as JSON strings, in order.
fn items_of(alloc: Global, strings: &[String]) -> Result<Vec<Value>, MemoryError>
    ensures { IfOk result (λ v. map view v.items ≡ map (λ t. string t) (texts_of strings.now)) }
{
    let mut items = Vec::with_capacity(alloc, strings.len())?;
    for text in strings {
        items.push(Value::String(String::from_str(alloc, text.as_str())?))?;
    }
    Ok(items)
}

/// Returns the JSON object of a set, from its code points and strings in JSON.
fn object_of(alloc: Global, code_points: Value, strings: Vec<Value>) -> Result<Value, MemoryError>
    ensures { IfOk result (λ v. view v ≡ object_of (view code_points) (map view strings.items)) }
{
    Ok(json!(in alloc; { "cp_inv_list": code_points, "str_list": Value::Array(strings) })?)
}

/// Returns the strings in the items, in order.
fn strings_of_items(alloc: Global, items: &[Value]) -> Result<Vec<String>, StringListJsonError>
    ensures ok { IfOk result (λ v. texts_in (items_view items.now) ≡ Ok (texts_of v.items)) }
    ensures err { IfErr result
        (λ e. GivesTexts (texts_in (items_view items.now)) (json_fault_of e)) }
{
    let Ok(mut strings) = Vec::with_capacity(alloc, items.len()) else {
        return Err(StringListJsonError::Memory);
    };
    for (i, item) in items.iter().enumerate() {
        let Some(text) = item.as_str() else {
            return Err(StringListJsonError::NotAString(i));
        };
        let Ok(string) = String::from_str(alloc, text) else {
            return Err(StringListJsonError::Memory);
        };
        let Ok(()) = strings.push(string) else {
            return Err(StringListJsonError::Memory);
        };
    }
    Ok(strings)
}

/// Returns the strings in the array at the key `str_list`.
fn strings_of(alloc: Global, value: &Value) -> Result<Vec<String>, StringListJsonError>
    ensures ok { IfOk result (λ v. texts_said (view value.now) ≡ Ok (texts_of v.items)) }
    ensures err { IfErr result (λ e. GivesTexts (texts_said (view value.now)) (json_fault_of e)) }
{
    let Some(strings) = value.get("str_list") else {
        return Err(StringListJsonError::Shape("str_list"));
    };
    let Some(items) = strings.as_array() else {
        return Err(StringListJsonError::Shape("str_list"));
    };
    strings_of_items(alloc, items)
}

/// Converts the error of reading the set of code points.
fn set_error(error: SetJsonError) -> StringListJsonError
    ensures { json_fault_of result ≡ set_fault_of error }
{
    StringListJsonError::from(error)
}

impl<'data> CodePointInversionListAndStringList<'data> {
    /// Returns the set as a JSON object. The key `cp_inv_list` has the code points as
    /// [`CodePointInversionList::to_json`] writes them, and `str_list` has the array of the
    /// strings, in order.
    ///
    /// ```
    /// // the set of "a" and "abc": {"cp_inv_list":["a"],"str_list":["abc"]}
    /// ```
    ///
    /// # Errors
    /// Returns `MemoryError` if an allocation fails.
    pub fn to_json(&self, alloc: Global) -> Result<Value, MemoryError>
        ensures ok { IfOk result (λ v. view v ≡ json_of self.now) }
        ensures read_back { IfOk result (λ v. IsRead (view v) (Ok self.now)) }
    {
        let code_points = self.cp_inv_list.to_json(alloc)?;
        let strings = items_of(alloc, &self.str_list)?;
        let value = object_of(alloc, code_points, strings)?;
        Ok(value)
    }

    /// Returns the set in a JSON object of the form that [`to_json`](Self::to_json) writes. Other
    /// keys are ignored.
    ///
    /// ```
    /// let value = Value::from_str(alloc, r#"{"cp_inv_list":["a"],"str_list":["abc"]}"#)?;
    /// let set = CodePointInversionListAndStringList::from_json(alloc, &value)?;
    /// // set.contains('a') and set.contains_str("abc") are true
    /// ```
    ///
    /// # Errors
    /// Returns the first error in this order:
    /// - `Shape("")` if `value` is not an object,
    /// - `Shape("cp_inv_list")` if it does not have this key,
    /// - `Set` if [`CodePointInversionList::from_json`] rejects the value at that key,
    /// - `Shape("str_list")` if it does not have this key, or the value at that key is not an
    ///   array,
    /// - `NotAString` with the index of the first item that is not a string,
    /// - `Strings` if [`try_from`](Self::try_from) rejects the strings.
    ///
    /// Returns `Memory` if an allocation fails, whatever the value is.
    pub fn from_json(
        alloc: Global,
        value: &Value,
    ) -> Result<CodePointInversionListAndStringList<'static>, StringListJsonError>
        ensures ok { IfOk result (λ s. IsRead (view value.now) (Ok s)) }
        ensures err { IfErr result (λ e. IsRefusedAs (view value.now) (json_fault_of e)) }
    {
        if value.as_object().is_none() {
            return Err(StringListJsonError::Shape(""));
        }
        let Some(code_points) = value.get("cp_inv_list") else {
            return Err(StringListJsonError::Shape("cp_inv_list"));
        };
        let cp_inv_list = match CodePointInversionList::from_json(alloc, code_points) {
            Ok(set) => set,
            Err(error) => return Err(set_error(error)),
        };
        let str_list = strings_of(alloc, value)?;
        match CodePointInversionListAndStringList::try_from(cp_inv_list, str_list) {
            Ok(set) => Ok(set),
            Err(error) => Err(StringListJsonError::Strings(error)),
        }
    }
}
