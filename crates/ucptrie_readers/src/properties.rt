//! The properties of a TOML file that have a trie, and the table of one of them.
ghost use Rattle.std.specs.Prelude.{◌≡◌, ◌∷◌, [], ◌++◌, true, false, is_some, filter, filter_map, map, option_map, string_bytes, Some, Ok, Err, Result, IfErr, IfOk, IsOkAnd, MatchResult};
ghost use Rattle.toml.specs.Data.{Members};
ghost use Rattle.toml.specs.Parse.{parse_document};
ghost use Rattle.toml.specs.View.{table_view, view};
ghost use Rattle.ucd_files.specs.Names.{pairs_of};
ghost use Rattle.ucptrie_readers.specs.Files.{IsTakenForToml};
ghost use Rattle.ucptrie_readers.specs.Inside.ReadProperties.{as_read};
ghost use Rattle.ucptrie_readers.specs.Properties.{asked_of, chosen_names, chosen_trie, is_asked, is_named, is_text, listed, name_of, of_property, properties_at, property_of, text_at, IsAskedTable, IsReadOf, IsWhyNoneAsked, IsWhyNotAsked};
ghost use Rattle.ucptrie_readers.specs.TomlNames.{IsWhyNoNames};
ghost use Rattle.ucptrie_readers.specs.declared.error.ReadError.{ReadError};
ghost use Rattle.ucptrie_readers.specs.declared.properties.PropertyError.TheVariants.{NotToml};
ghost use Rattle.ucptrie_tables.specs.declared.table.Table.{Table};

use crate::error::ReadError;
use crate::parsed::ParsedFile;
use crate::read::{read_table, table_of_members, trie_of_table, value_at};
use crate::toml_names::{NamesError, items_in, names_of};
use std::alloc::{AllocError, Global};
use ucd_files::value_names::ValueNames;
use ucptrie_tables::table::Table;

/// A property that has a trie.
#[derive(Clone, Copy, Drop)]
struct Property<'a> {
    /// The key of the file at which it is.
    key: &'a str,
    /// Its own table.
    table: &'a toml::Table,
    /// The table of its trie.
    trie: &'a toml::Table,
}

/// Why a file has no table of a property.
#[derive(Debug, Drop)]
pub enum PropertyError {
    /// The file has no table, or that of the property is not one.
    Read(ReadError),
    /// The file is not TOML, so its table is that of no property.
    NotToml,
    /// No property has this name and a trie. These have a trie.
    Missing(String),
    /// These properties have a trie, and the name is not that of exactly one.
    Several(String),
}

impl From<ReadError> for PropertyError {
    ghost use Rattle.ucptrie_readers.specs.declared.properties.PropertyError.TheVariants.{Read};

    ghost from_gives = { λ x e. e ≡ Read x };

    fn from(fault: ReadError) -> PropertyError {
        PropertyError::Read(fault)
    }
}

impl From<AllocError> for PropertyError {
    ghost use Rattle.ucptrie_readers.specs.declared.error.ReadError.TheVariants.{Memory};
    ghost use Rattle.ucptrie_readers.specs.declared.properties.PropertyError.TheVariants.{Read};

    ghost from_gives = { λ _ e. e ≡ Read Memory };

    fn from(_error: AllocError) -> PropertyError {
        PropertyError::Read(ReadError::Memory)
    }
}

/// Returns the text at a key of a property, as icuexportdata writes its names.
fn text_at<'a>(table: &'a toml::Table, key: &str) -> Option<&'a str>
    ensures { option_map (λ text. text.now) result ≡ text_at key.now (table_view table.now) }
{
    value_at(table, key)?.as_str()
}

/// Returns whether the text at a key of a property is this one.
fn has_text(table: &toml::Table, key: &str, text: &str) -> bool
    ensures { result ≡ is_text text.now (text_at key.now (table_view table.now)) }
{
    match text_at(table, key) {
        Some(found) => found == text,
        None => false,
    }
}

/// Returns the name by which messages call the property.
fn name_of<'a>(property: &Property<'a>) -> &'a str
    ensures { result.now ≡ name_of (as_read property.now) }
{
    text_at(property.table, "long_name").unwrap_or(property.key)
}

/// Returns whether the property has this name: its key, its long name or its short one.
fn is_named(property: &Property<'_>, name: &str) -> bool
    ensures { result ≡ is_named name.now (as_read property.now) }
{
    property.key == name
        || has_text(property.table, "long_name", name)
        || has_text(property.table, "short_name", name)
}

/// Returns whether a property is asked for: it has the name, or none is asked.
fn is_asked(property: &Property<'_>, name: Option<&str>) -> bool
    ensures { result
        ≡ is_asked (option_map (λ name. name.now) name.entry) (as_read property.now) }
{
    match name {
        Some(name) => is_named(property, name),
        None => true,
    }
}

/// Returns the property that a value at a key is, if the value is a table with a trie.
fn property_of<'a>(key: &'a str, value: &'a toml::Value) -> Option<Property<'a>>
    ensures { option_map as_read result ≡ property_of key.now (view value.now) }
{
    let table = value.as_table()?;
    let trie = trie_of_table(table)?;
    Some(Property { key, table, trie })
}

/// Appends the property of a value, if it has a trie and is asked for.
fn push_property<'a>(
    found: &mut Vec<Property<'a>>,
    key: &'a str,
    value: &'a toml::Value,
    name: Option<&str>,
) -> Result<(), AllocError>
    ensures { IfOk result (λ _. map as_read found.new.items ≡ map as_read found.old.items
        ++ filter (is_asked (option_map (λ name. name.now) name.entry))
        (filter_map (property_of key.now) (view value.now ∷ []))) }
{
    if let Some(property) = property_of(key, value) {
        if is_asked(&property, name) {
            found.push(property)?;
        }
    }
    Ok(())
}

/// Appends those of the properties at a key that are asked for.
fn push_items<'a>(
    found: &mut Vec<Property<'a>>,
    key: &'a str,
    values: &'a [toml::Value],
    name: Option<&str>,
) -> Result<(), AllocError>
    ensures { IfOk result (λ _. map as_read found.new.items ≡ map as_read found.old.items
        ++ filter (is_asked (option_map (λ name. name.now) name.entry))
        (filter_map (property_of key.now) (map view values.now))) }
{
    let mut rest = values;
    while let [value, after @ ..] = rest {
        push_property(found, key, value, name)?;
        rest = after;
    }
    Ok(())
}

/// Appends those of the properties at a key that are asked for: the items of an array, or the one
/// that the value is.
fn push_properties<'a>(
    found: &mut Vec<Property<'a>>,
    key: &'a str,
    value: &'a toml::Value,
    name: Option<&str>,
) -> Result<(), AllocError>
    ensures { IfOk result (λ _. map as_read found.new.items ≡ map as_read found.old.items
        ++ filter (is_asked (option_map (λ name. name.now) name.entry))
        (properties_at key.now (view value.now))) }
{
    match items_in(value) {
        Some(values) => push_items(found, key, values, name),
        None => push_property(found, key, value, name),
    }
}

/// Returns the properties with a trie that are asked for, in order of their keys.
fn properties_of<'a>(
    alloc: Global,
    file: &'a toml::Table,
    name: Option<&str>,
) -> Result<Vec<Property<'a>>, AllocError>
    ensures { IfOk result (λ found. map as_read found.items
        ≡ asked_of (option_map (λ name. name.now) name.entry) (table_view file.now)) }
{
    let mut found = Vec::new(alloc);
    for (key, value) in file.iter() {
        push_properties(&mut found, key.as_str(), value, name)?;
    }
    Ok(found)
}

/// Returns the names of properties, with commas between them.
fn listed(alloc: Global, properties: &[Property<'_>]) -> Result<String, AllocError>
    ensures { IfOk result (λ names. string_bytes names ≡ listed (map as_read properties.now)) }
{
    let mut names = String::new(alloc);
    let [first, others @ ..] = properties else {
        return Ok(names);
    };
    names.push_str(name_of(first))?;
    let mut rest = others;
    while let [property, after @ ..] = rest {
        names.push_str(", ")?;
        names.push_str(name_of(property))?;
        rest = after;
    }
    Ok(names)
}

/// Returns the table of the trie that is asked for: that of the only property with a trie and the
/// name, or the whole file if no property has a trie and no name is asked.
fn asked_trie<'a>(
    alloc: Global,
    file: &'a toml::Table,
    name: Option<&str>,
) -> Result<&'a toml::Table, PropertyError>
    ensures ok { IfOk result (λ trie. chosen_trie (option_map (λ name. name.now) name.entry)
        (table_view file.now) ≡ Some (table_view trie.now)) }
    ensures err { IfErr result (IsWhyNoneAsked (option_map (λ name. name.now) name.entry)
        (table_view file.now)) }
{
    let found = properties_of(alloc, file, name)?;
    match (found.as_slice(), name) {
        ([property], _) => Ok(property.trie),
        ([], None) => Ok(file),
        ([], Some(_)) => {
            let all = properties_of(alloc, file, None)?;
            Err(PropertyError::Missing(listed(alloc, &all)?))
        }
        (several, _) => Err(PropertyError::Several(listed(alloc, several)?)),
    }
}

/// Returns the names of the values of the property whose table [`read_property`] reads from a file,
/// as [`names_of`] does. Returns none if no property is chosen, or the file is not taken for TOML.
///
/// # Errors
/// Returns those of [`names_of`].
pub fn property_names<'a>(
    alloc: Global,
    file: &'a ParsedFile<'_>,
    name: Option<&str>,
) -> Result<ValueNames<'a>, NamesError>
    ensures toml { IsTakenForToml file.now → (toml : Members)
        × (parse_document file.now ≡ Some toml)
        × MatchResult result (λ names. chosen_names (option_map (λ name. name.now) name.entry) toml
        ≡ Ok (pairs_of names))
        (IsWhyNoNames (chosen_names (option_map (λ name. name.now) name.entry) toml)) }
    ensures other { ¬ IsTakenForToml file.now → IsOkAnd result (λ names. pairs_of names ≡ []) }
{
    let Some(toml) = file.toml() else {
        return Ok(ValueNames::new(alloc));
    };
    let found = properties_of(alloc, toml, name)?;
    match found.as_slice() {
        [property] => names_of(alloc, property.table),
        _ => Ok(ValueNames::new(alloc)),
    }
}

/// Reads the table that a file has, as [`read_table`] does, but in TOML only that of the property
/// with this name, or of the only property with a trie if no name is asked.
///
/// A name is the key of a property in the file, or its `long_name` or `short_name`.
///
/// # Errors
/// Returns [`PropertyError::Several`] if several properties have a trie, and the name, if one is
/// asked, and [`PropertyError::Missing`] if none has that name. Returns [`PropertyError::NotToml`]
/// if a name is asked of a file in another form. Other errors are those of [`read_table`].
pub fn read_property(
    alloc: Global,
    file: &ParsedFile<'_>,
    name: Option<&str>,
) -> Result<Table, PropertyError>
    ensures toml { IsTakenForToml file.now → MatchResult result
        (IsAskedTable file.now (option_map (λ name. name.now) name.entry))
        (IsWhyNotAsked file.now (option_map (λ name. name.now) name.entry)) }
    ensures named { is_some name.entry ≡ true → ¬ IsTakenForToml file.now → result ≡ Err NotToml }
    ensures other { is_some name.entry ≡ false → ¬ IsTakenForToml file.now
        → (read : Result Table ReadError)
        × (IsReadOf file.now read × (result ≡ of_property read)) }
{
    if let Some(toml) = file.toml() {
        let trie = asked_trie(alloc, toml, name)?;
        return Ok(table_of_members(alloc, trie)?);
    }
    if name.is_some() {
        return Err(PropertyError::NotToml);
    }
    Ok(read_table(alloc, file.bytes())?)
}
