//! The names of the functions of a joined table's properties.
use crate::columns::Column;
use crate::names::{is_reserved, name_in};
use clap::ArgMatches;
use std::alloc::{AllocError, Global};
use ucptrie_inputs::error::{Error, said};
use ucptrie_names::value_names::enum_name;

/// What source defines itself, beside the functions of the properties.
static DEFINED_BY_SOURCE: [&str; 9] = [
    "from_name",
    "get",
    "index1",
    "name",
    "of",
    "open",
    "table",
    "trie",
    "value",
];

/// Appends a byte of a name in lower case. `_` precedes a capital letter after a small one or after
/// a digit, and stands for a byte that is no letter or digit.
fn push_byte(text: &mut String, previous: u8, byte: u8) -> Result<(), AllocError> {
    if !byte.is_ascii_alphanumeric() {
        return text.push('_');
    }
    let starts_word = previous.is_ascii_lowercase() || previous.is_ascii_digit();
    if byte.is_ascii_uppercase() && starts_word {
        text.push('_')?;
    }
    text.push(char::from(byte.to_ascii_lowercase()))
}

/// Returns the name of the function of a property: its words in lower case, with `_` between them.
pub fn function_name(alloc: Global, property: &str) -> Result<String, AllocError> {
    let mut name = String::new(alloc);
    let mut previous = b'_';
    for byte in property.as_bytes() {
        if name.is_empty() && byte.is_ascii_digit() {
            name.push('v')?;
        }
        push_byte(&mut name, previous, *byte)?;
        previous = *byte;
    }
    if is_reserved(name.as_str()) || DEFINED_BY_SOURCE.contains(&name.as_str()) {
        name.push_str("_value")?;
    }
    Ok(name)
}

/// Returns the fault of two properties whose functions or types would have the same name.
fn same_names(alloc: Global, first: &str, second: &str) -> Error {
    said(same_line(alloc, first, second))
}

/// Returns the line about two names that are the same in source.
fn same_line(alloc: Global, first: &str, second: &str) -> Result<String, AllocError> {
    let mut line = String::new(alloc);
    line.push_str(first)?;
    line.push_str(" and ")?;
    line.push_str(second)?;
    line.push_str(": the same name in source: choose another --name")?;
    Ok(line)
}

/// Tests that the type of a property and that of the joined values have different names.
fn test_name_of_table(alloc: Global, name: &str, column: &Column) -> Result<(), Error> {
    let title = enum_name(alloc, name)?;
    if enum_name(alloc, column.function.as_str())?.as_str() == title.as_str() {
        return Err(same_names(alloc, name, column.label.as_str()));
    }
    Ok(())
}

/// Tests that the types of two properties have different names, as then their functions have.
fn test_pair(alloc: Global, first: &Column, second: &Column) -> Result<(), Error> {
    let title = enum_name(alloc, first.function.as_str())?;
    if enum_name(alloc, second.function.as_str())?.as_str() == title.as_str() {
        return Err(same_names(alloc, first.label.as_str(), second.label.as_str()));
    }
    Ok(())
}

/// Tests that the type of a column has another name than those of the columns before it.
fn test_before(alloc: Global, before: &[Column], column: &Column) -> Result<(), Error> {
    for other in before {
        test_pair(alloc, other, column)?;
    }
    Ok(())
}

/// Tests that all functions and types of a joined table have different names.
pub fn test_functions(
    alloc: Global,
    matches: &ArgMatches<'_>,
    columns: &[Column],
) -> Result<(), Error> {
    for (i, column) in columns.iter().enumerate() {
        test_name_of_table(alloc, name_in(matches), column)?;
        let (before, _) = columns.split_at(i);
        test_before(alloc, before, column)?;
    }
    Ok(())
}
