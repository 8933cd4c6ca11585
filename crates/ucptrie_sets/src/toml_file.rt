//! The set of a property in a TOML file, as ICU's icuexportdata writes it: tables
//! `[[binary_property]]` with `long_name`, `short_name` and `ranges = [[0x41, 0x5a], ..]`, whose
//! bounds are inclusive.
ghost use Rattle.std.specs.Prelude.{◌≡◌, ℕ, ◌+◌, ◌<◌, ◌||◌, List, [], ◌∷◌, Some, Ok, Err, IfNone, IfOk, IfErr, IfSome, OnOk, MatchResult, map, option_map, option_and_then};
ghost use Rattle.std.specs.List.{filter};
ghost use Rattle.std.specs.Option.{option_map_or};
ghost use Rattle.toml.specs.Data.{get_member};
ghost use Rattle.toml.specs.Parse.{parse_document};
ghost use Rattle.toml.specs.View.{table_view, view};
ghost use Rattle.icu_zerovec.specs.CodePoints.{code_point_limit};
ghost use Rattle.icu_invlist.specs.InversionList.{between, holds};
ghost use Rattle.ucptrie_sets.specs.TomlSets.{asked_among, code_point_of, file_ranges, has_text, is_asked, items_at, items_in, pair_in, range_of, ranges_in, ranges_of, strings_in, strings_of_file, IsRefused, IsSetOfFile, IsSetOfRanges, IsWhyNoSetInFile};

use crate::error::SetFileError;
use icu_invlist::codepointinvlist::{CodePointInversionList, CodePointInversionListBuilder};
use icu_zerovec::{CODE_POINT_LIMIT, MemoryError};
use std::alloc::{AllocError, Global};
use toml::{Table, Value};

/// Returns the code point that a number is.
fn code_point_of(value: &Value) -> Option<u32>
    ensures exact { result ≡ code_point_of (view value.now) }
    ensures within { IfSome result (λ n. n < code_point_limit) }
{
    let number = u32::try_from(value.as_integer()?).ok()?;
    if number < CODE_POINT_LIMIT {
        Some(number)
    } else {
        None
    }
}

/// Returns the code points of an array of two.
fn pair_in(items: &[Value]) -> Option<(u32, u32)>
    ensures exact { result ≡ pair_in (map view items.now) }
    ensures within { IfSome result (λ r. r.1 < code_point_limit) }
{
    let [start, end] = items else {
        return None;
    };
    Some((code_point_of(start)?, code_point_of(end)?))
}

/// Returns the items of an array.
fn items_in(value: &Value) -> Option<&[Value]>
    ensures { option_map (λ items. map view items.now) result ≡ items_in (view value.now) }
{
    match value.as_array() {
        Some(items) => Some(items.as_slice()),
        None => None,
    }
}

/// Returns the code points of an array of two.
fn pair_of(value: &Value) -> Option<(u32, u32)>
    ensures exact { result ≡ option_and_then pair_in (items_in (view value.now)) }
    ensures within { IfSome result (λ r. r.1 < code_point_limit) }
{
    match items_in(value) {
        Some(items) => pair_in(items),
        None => None,
    }
}

/// Returns the inclusive bounds of item `i` of `ranges`.
fn range_of(value: &Value, i: usize) -> Result<(u32, u32), SetFileError>
    ensures exact { result ≡ range_of i (view value.now) }
    ensures within { IfOk result (λ r. r.1 < code_point_limit) }
{
    let Some((start, end)) = pair_of(value) else {
        return Err(SetFileError::NotAPair(i));
    };
    if end < start {
        return Err(SetFileError::Reversed(i));
    }
    Ok((start, end))
}

/// Adds the code points of a range, whose bounds are inclusive.
fn add_range(
    builder: &mut CodePointInversionListBuilder,
    range: (u32, u32),
) -> Result<(), MemoryError>
    requires { range.1 < code_point_limit }
    ensures { OnOk result ((c : ℕ) → c < code_point_limit → holds builder.new c
        ≡ holds builder.old c || between range.0 (range.1 + 1) c) }
{
    let (start, end) = range;
    builder.add_range32(start..end + 1)
}

/// Returns the set of the ranges, which may overlap and come in any order.
fn set_of_items(
    alloc: Global,
    items: &[Value],
) -> Result<CodePointInversionList<'static>, SetFileError>
    ensures ok { IfOk result (λ set. (ranges : List (ℕ × ℕ))
        × (ranges_in (map view items.now) ≡ Ok ranges) × IsSetOfRanges ranges set) }
    ensures err { IfErr result (IsRefused (ranges_in (map view items.now))) }
{
    let mut builder = CodePointInversionListBuilder::new(alloc);
    for (i, item) in items.iter().enumerate() {
        let range = range_of(item, i)?;
        add_range(&mut builder, range)?;
    }
    let set = builder.build()?;
    Ok(set)
}

/// Returns the value at a key.
fn value_at<'a>(table: &'a Table, key: &str) -> Option<&'a Value>
    ensures { option_map (λ v. view v.now) result ≡ get_member key.now (table_view table.now) }
{
    table.get(key)
}

/// Returns whether the value at a key is this text.
fn has_text(table: &Table, key: &str, text: &str) -> bool
    ensures { result ≡ has_text key.now text.now (table_view table.now) }
{
    let Some(value) = value_at(table, key) else {
        return false;
    };
    match value.as_str() {
        Some(found) => found == text,
        None => false,
    }
}

/// Returns whether a property is asked for: it has the name, or none is asked.
fn is_asked(property: &Value, name: Option<&str>) -> bool
    ensures { result ≡ is_asked (option_map (λ n. n.now) name.entry) (view property.now) }
{
    let Some(name) = name else {
        return true;
    };
    match property.as_table() {
        Some(table) => has_text(table, "long_name", name) || has_text(table, "short_name", name),
        None => false,
    }
}

/// Returns the first of the properties that is asked for, and those after it.
fn first_asked<'a>(properties: &'a [Value], name: Option<&str>) -> Option<(&'a Value, &'a [Value])>
    ensures none { IfNone result (filter (is_asked (option_map (λ n. n.now) name.entry))
        (map view properties.now) ≡ []) }
    ensures some { IfSome result (λ r. filter (is_asked (option_map (λ n. n.now) name.entry))
        (map view properties.now) ≡ view r.0.now
        ∷ filter (is_asked (option_map (λ n. n.now) name.entry)) (map view r.1.now)) }
{
    let mut rest = properties;
    while let [property, after @ ..] = rest {
        if is_asked(property, name) {
            return Some((property, after));
        }
        rest = after;
    }
    None
}

/// Returns the only one of the properties that is asked for.
fn asked_among<'a>(properties: &'a [Value], name: Option<&str>) -> Result<&'a Value, SetFileError>
    ensures { MatchResult result
        (λ v. asked_among (option_map (λ n. n.now) name.entry) (map view properties.now)
        ≡ Ok (view v.now))
        (λ e. asked_among (option_map (λ n. n.now) name.entry) (map view properties.now) ≡ Err e) }
{
    let Some((property, others)) = first_asked(properties, name) else {
        return Err(SetFileError::Missing);
    };
    match first_asked(others, name) {
        Some(_) => Err(SetFileError::Several),
        None => Ok(property),
    }
}

/// Returns the items of the array at a key.
fn items_at<'a>(table: &'a Table, key: &str) -> Option<&'a [Value]>
    ensures { option_map (λ items. map view items.now) result
        ≡ items_at key.now (table_view table.now) }
{
    match value_at(table, key) {
        Some(value) => items_in(value),
        None => None,
    }
}

/// Returns the items of the array `ranges` of a property.
fn ranges_of(property: &Value) -> Option<&[Value]>
    ensures { option_map (λ items. map view items.now) result ≡ ranges_of (view property.now) }
{
    match property.as_table() {
        Some(table) => items_at(table, "ranges"),
        None => None,
    }
}

/// Returns the set of the property that is asked for in a table.
fn set_of_table(
    alloc: Global,
    file: &Table,
    name: Option<&str>,
) -> Result<CodePointInversionList<'static>, SetFileError>
    ensures ok { IfOk result (λ set. (ranges : List (ℕ × ℕ))
        × (file_ranges (option_map (λ n. n.now) name.entry) (table_view file.now) ≡ Ok ranges)
        × IsSetOfRanges ranges set) }
    ensures err { IfErr result
        (IsRefused (file_ranges (option_map (λ n. n.now) name.entry) (table_view file.now))) }
{
    let Some(properties) = items_at(file, "binary_property") else {
        return Err(SetFileError::NoSets);
    };
    let property = asked_among(properties, name)?;
    let Some(items) = ranges_of(property) else {
        return Err(SetFileError::NoRanges);
    };
    set_of_items(alloc, items)
}

/// Reads the set of a property in a TOML file: that with this long or short name, or the only one
/// if no name is asked.
///
/// The ranges may overlap and come in any order. Strings, which some properties have too, are not
/// read.
///
/// # Errors
/// Returns the first variant of [`SetFileError`] that applies. The items of `ranges` are tested in
/// order. `Memory` is returned if an allocation fails.
pub fn set_of_file(
    alloc: Global,
    text: &str,
    name: Option<&str>,
) -> Result<CodePointInversionList<'static>, SetFileError>
    ensures ok { IfOk result (IsSetOfFile text.now (option_map (λ n. n.now) name.entry)) }
    ensures err { IfErr result (IsWhyNoSetInFile text.now (option_map (λ n. n.now) name.entry)) }
{
    match toml::table_from_str(alloc, text) {
        Ok(file) => set_of_table(alloc, &file, name),
        Err(error) if error.is_memory() => Err(SetFileError::Memory),
        Err(_) => Err(SetFileError::NotToml),
    }
}

/// Returns how many items the array `strings` of a property has, or 0 if it has no such array.
fn strings_in(property: &Value) -> usize
    ensures { result ≡ strings_in (view property.now) }
{
    let Some(table) = property.as_table() else {
        return 0;
    };
    match items_at(table, "strings") {
        Some(items) => items.len(),
        None => 0,
    }
}

/// Returns how many strings the property that is asked for has in a table.
fn strings_of_table(file: &Table, name: Option<&str>) -> usize
    ensures { result ≡ strings_of_file (option_map (λ n. n.now) name.entry) (table_view file.now) }
{
    match items_at(file, "binary_property") {
        Some(properties) => match asked_among(properties, name) {
            Ok(property) => strings_in(property),
            Err(_) => 0,
        },
        None => 0,
    }
}

/// Returns how many strings a property in a TOML file has besides code points, as Basic_Emoji does:
/// that with this long or short name, or the only one if no name is asked. Returns 0 if the text is
/// not TOML, if there is no such property or if it has no array `strings`.
///
/// # Errors
/// Returns [`AllocError`] if an allocation fails.
pub fn count_strings(alloc: Global, text: &str, name: Option<&str>) -> Result<usize, AllocError>
    ensures { IfOk result (λ count. count
        ≡ option_map_or (strings_of_file (option_map (λ n. n.now) name.entry))
        (parse_document text.now) 0) }
{
    match toml::table_from_str(alloc, text) {
        Ok(file) => Ok(strings_of_table(&file, name)),
        Err(error) if error.is_memory() => Err(AllocError),
        Err(_) => Ok(0),
    }
}
