//! The names of the values of a property in a TOML file, as ICU's icuexportdata writes them: in an
//! array `values` of tables with `discr`, `long`, `short` and `aliases`; or, before ICU 73, in the
//! tables of the array `ranges`, whose value `v` has a `name`.
ghost use Rattle.std.specs.Prelude.{◌≡◌, [], Ok, IfErr, IfOk, map, option_map};
ghost use Rattle.toml.specs.View.{table_view, view};
ghost use Rattle.ucd_files.specs.Names.{pairs_of};
ghost use Rattle.icu_trie_formats.specs.TrieToml.{items_in};
ghost use Rattle.ucptrie_readers.specs.TomlNames.{is_name_of, items_at, names_of, number_at, with_array, with_item, with_items, with_name, with_name_at, with_names_at, with_text, with_texts, with_value, AreNamesOr, IsWhyNoNames};

use crate::read::value_at;
use std::alloc::{AllocError, Global};
use std::fmt;
use thiserror::Error;
use toml::{Table, Value};
use ucd_files::names::Matching;
use ucd_files::value_names::ValueNames;

/// An array with names of values.
#[derive(Clone, Copy, Debug, PartialEq, Eq)]
pub enum NameArray {
    /// `values`: each item has the number `discr`.
    Values,
    /// `ranges`: each item has the number `v`.
    Ranges,
}

impl NameArray {
    ghost use Rattle.std.specs.Prelude.{◌≡◌};
    ghost use Rattle.ucptrie_readers.specs.TomlNames.{array_key, number_key};

    /// Returns the key of the array in a property.
    fn key(self) -> &'static str
        ensures { result.now ≡ array_key self }
    {
        match self {
            NameArray::Values => "values",
            NameArray::Ranges => "ranges",
        }
    }

    /// Returns the key of the number in an item.
    fn number_key(self) -> &'static str
        ensures { result.now ≡ number_key self }
    {
        match self {
            NameArray::Values => "discr",
            NameArray::Ranges => "v",
        }
    }
}

/// Writes the key of the array.
impl fmt::Display for NameArray {
    fn fmt<W: fmt::Write>(&self, f: &mut fmt::Formatter<W>) -> fmt::Result {
        f.write_str(self.key())
    }
}

/// Why the names of a property's values can't be read.
#[derive(Clone, Copy, Debug, PartialEq, Eq, Error)]
pub enum NamesError {
    /// This item of the array, counted from 0, has no number of at most 32 bits, or a name that is
    /// no text.
    #[error("{0}[{1}] is no table with a number up to 4294967295 and texts as names")]
    Item(NameArray, usize),
    /// An allocation failed.
    #[error("no memory")]
    Memory,
}

impl From<AllocError> for NamesError {
    ghost use Rattle.ucptrie_readers.specs.declared.toml_names.NamesError.TheVariants.{Memory};

    ghost from_gives = { λ _ e. e ≡ Memory };

    fn from(_error: AllocError) -> NamesError {
        NamesError::Memory
    }
}

/// Returns the items of an array.
pub(crate) fn items_in(value: &Value) -> Option<&[Value]>
    ensures { option_map (λ items. map view items.now) result ≡ items_in (view value.now) }
{
    match value.as_array() {
        Some(items) => Some(items.as_slice()),
        None => None,
    }
}

/// Returns the number of at most 32 bits at a key.
fn number_at(table: &Table, key: &str) -> Option<u32>
    ensures { result ≡ number_at key.now (table_view table.now) }
{
    u32::try_from(value_at(table, key)?.as_integer()?).ok()
}

/// Returns whether a text is a name of this number: the first one that is the text has it.
#[tactic(auto, using(crate::proofs::TomlNameLemmas::number_in_pairs))]
fn is_name_of(names: &ValueNames<'_>, number: usize, text: &[u8]) -> bool
    ensures { result ≡ is_name_of number (pairs_of names.now) text.now }
{
    match names.number_named(Matching::Exact, text) {
        Some(found) => found == number,
        None => false,
    }
}

/// Appends a text as a name of a number, unless it is one already.
fn push_name<'a>(
    names: &mut ValueNames<'a>,
    number: usize,
    text: &'a [u8],
) -> Result<(), AllocError>
    ensures { IfOk result
        (λ _. pairs_of names.new ≡ with_name number (pairs_of names.old) text.now) }
{
    if is_name_of(names, number, text) {
        return Ok(());
    }
    names.push(number, text)
}

/// Appends a value as a name of a number. Returns whether it is a text.
fn push_text<'a>(
    names: &mut ValueNames<'a>,
    number: u32,
    value: &'a Value,
) -> Result<bool, AllocError>
    ensures { IfOk result (λ is. AreNamesOr
        (with_text number (pairs_of names.old) (view value.now)) is (pairs_of names.new)) }
{
    let Some(text) = value.as_str() else {
        return Ok(false);
    };
    push_name(names, number as usize, text.as_bytes())?;
    Ok(true)
}

/// Appends values as names of a number. Returns whether all of them are texts.
fn push_texts<'a>(
    names: &mut ValueNames<'a>,
    number: u32,
    values: &'a [Value],
) -> Result<bool, AllocError>
    ensures { IfOk result (λ is. AreNamesOr
        (with_texts number (pairs_of names.old) (map view values.now)) is (pairs_of names.new)) }
{
    let mut rest = values;
    while let [value, after @ ..] = rest {
        if !push_text(names, number, value)? {
            return Ok(false);
        }
        rest = after;
    }
    Ok(true)
}

/// Appends the text at a key as a name of a number, if there is a value at it. Returns whether it
/// is a text.
fn push_name_at<'a>(
    names: &mut ValueNames<'a>,
    number: u32,
    table: &'a Table,
    key: &str,
) -> Result<bool, AllocError>
    ensures { IfOk result (λ is. AreNamesOr
        (with_name_at key.now number (pairs_of names.old) (table_view table.now)) is
        (pairs_of names.new)) }
{
    match value_at(table, key) {
        Some(value) => push_text(names, number, value),
        None => Ok(true),
    }
}

/// Appends a value as an array with names of a number. Returns whether it is an array of texts.
fn push_array<'a>(
    names: &mut ValueNames<'a>,
    number: u32,
    value: &'a Value,
) -> Result<bool, AllocError>
    ensures { IfOk result (λ is. AreNamesOr
        (with_array number (pairs_of names.old) (view value.now)) is (pairs_of names.new)) }
{
    match items_in(value) {
        Some(items) => push_texts(names, number, items),
        None => Ok(false),
    }
}

/// Appends the texts of the array at a key as names of a number, if there is a value at it. Returns
/// whether it is an array of texts.
fn push_names_at<'a>(
    names: &mut ValueNames<'a>,
    number: u32,
    table: &'a Table,
    key: &str,
) -> Result<bool, AllocError>
    ensures { IfOk result (λ is. AreNamesOr
        (with_names_at key.now number (pairs_of names.old) (table_view table.now)) is
        (pairs_of names.new)) }
{
    match value_at(table, key) {
        Some(value) => push_array(names, number, value),
        None => Ok(true),
    }
}

/// Appends the names in the table of a value, whose number is known. Returns whether all are texts.
fn push_value<'a>(
    names: &mut ValueNames<'a>,
    number: u32,
    table: &'a Table,
) -> Result<bool, AllocError>
    ensures { IfOk result (λ is. AreNamesOr
        (with_value number (pairs_of names.old) (table_view table.now)) is (pairs_of names.new)) }
{
    let are_texts = push_name_at(names, number, table, "long")?
        && push_name_at(names, number, table, "short")?
        && push_name_at(names, number, table, "name")?
        && push_names_at(names, number, table, "aliases")?;
    Ok(are_texts)
}

/// Appends the names in an item of an array. Returns whether it is a table with a number, and its
/// names are texts.
fn push_item<'a>(
    names: &mut ValueNames<'a>,
    array: NameArray,
    item: &'a Value,
) -> Result<bool, AllocError>
    ensures { IfOk result (λ is. AreNamesOr
        (with_item array (pairs_of names.old) (view item.now)) is (pairs_of names.new)) }
{
    let Some(table) = item.as_table() else {
        return Ok(false);
    };
    match number_at(table, array.number_key()) {
        Some(number) => push_value(names, number, table),
        None => Ok(false),
    }
}

/// Returns the names in the items of an array.
fn names_in<'a>(
    alloc: Global,
    array: NameArray,
    items: &'a [Value],
) -> Result<ValueNames<'a>, NamesError>
    ensures ok { IfOk result (λ names.
        with_items array 0 [] (map view items.now) ≡ Ok (pairs_of names)) }
    ensures err { IfErr result
        (IsWhyNoNames (with_items array 0 [] (map view items.now))) }
{
    let mut names = ValueNames::new(alloc);
    let mut i = 0usize;
    let mut rest = items;
    while let [item, after @ ..] = rest {
        if !push_item(&mut names, array, item)? {
            return Err(NamesError::Item(array, i));
        }
        i += 1;
        rest = after;
    }
    Ok(names)
}

/// Returns the items of the array at a key.
pub(crate) fn items_at<'a>(table: &'a Table, key: &str) -> Option<&'a [Value]>
    ensures { option_map (λ items. map view items.now) result
        ≡ items_at key.now (table_view table.now) }
{
    match value_at(table, key) {
        Some(value) => items_in(value),
        None => None,
    }
}

/// Returns the names and numbers of the values of a property: those in its array `values`, or else
/// those in its array `ranges`, or none if it has neither.
///
/// An item has the number `discr`, or `v` in `ranges`. Its names are the texts at `long`, `short`
/// and `name`, as far as there are such keys, and those in the array `aliases`. A name is listed
/// once for its number.
///
/// # Errors
/// Returns [`NamesError::Item`] for the first item that is no table, that has no number of at most
/// 32 bits, or of which a name is no text. Returns [`NamesError::Memory`] if an allocation fails.
pub fn names_of<'a>(alloc: Global, property: &'a Table) -> Result<ValueNames<'a>, NamesError>
    ensures ok { IfOk result (λ names. names_of (table_view property.now) ≡ Ok (pairs_of names)) }
    ensures err { IfErr result (IsWhyNoNames (names_of (table_view property.now))) }
{
    if let Some(items) = items_at(property, NameArray::Values.key()) {
        return names_in(alloc, NameArray::Values, items);
    }
    match items_at(property, NameArray::Ranges.key()) {
        Some(items) => names_in(alloc, NameArray::Ranges, items),
        None => Ok(ValueNames::new(alloc)),
    }
}
