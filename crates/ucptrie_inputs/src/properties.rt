//! Files in which no line has the property or the field that is asked for.
use crate::error::{Error, said};
use crate::number;
use clap::ArgMatches;
use std::alloc::{AllocError, Global};
use ucd_files::fields::{column, field, has_field, missing_of};
use ucd_files::names::{Matching, Name, is_same_name};
use ucd_files::statement::Columns;
use ucd_files::value_names::ValueNames;
use ucptab_table::input::lines;
use ucptab_table::rows::content_of;

/// How many properties a message lists at most.
const LISTED: usize = 10;

/// Returns the property in a line of a file of several.
fn property_of<'f>(columns: Columns<'_>, line: &'f [u8]) -> &'f [u8] {
    let content = content_of(line);
    match columns {
        Columns::Unihan(_) => column(1, content),
        _ => field(1, content),
    }
}

/// Returns whether a line of a file of Unihan has this property.
pub fn has_unihan_property(file: &[u8], property: &[u8]) -> bool {
    for line in lines(file) {
        if is_same_name(column(1, content_of(line)), property) {
            return true;
        }
    }
    false
}

/// Appends a name with the next number, unless it is empty or known.
pub fn push_new<'f>(names: &mut ValueNames<'f>, text: &'f [u8]) -> Result<(), AllocError> {
    if !text.is_empty() && names.number_named(Matching::Exact, text).is_none() {
        let number = names.as_slice().len();
        names.push(number, text)?;
    }
    Ok(())
}

/// Returns the properties in the lines of a file, in order of first appearance.
pub fn properties_in<'f>(
    alloc: Global,
    columns: Columns<'_>,
    file: &'f [u8],
) -> Result<ValueNames<'f>, AllocError> {
    let mut names = ValueNames::new(alloc);
    for line in lines(file) {
        push_new(&mut names, property_of(columns, line))?;
    }
    Ok(names)
}

/// Appends a text, with `?` for each byte that is no printing ASCII character.
pub fn push_text(line: &mut String, text: &[u8]) -> Result<(), AllocError> {
    for byte in text {
        let is_printing = (0x20..=0x7e).contains(byte);
        line.push(if is_printing { char::from(*byte) } else { '?' })?;
    }
    Ok(())
}

/// Appends the first of some names, and `..` if there are more.
pub fn push_listed(line: &mut String, names: &[Name<'_>]) -> Result<(), AllocError> {
    let mut mark = "; the file has ";
    for name in names.get(..LISTED).unwrap_or(names) {
        line.push_str(mark)?;
        push_text(line, name.text)?;
        mark = ", ";
    }
    if names.len() > LISTED {
        line.push_str(", ..")?;
    }
    Ok(())
}

/// Returns the line about a file in which no line has a property.
fn missing_line(
    alloc: Global,
    columns: Columns<'_>,
    property: &str,
    name: &str,
    file: &[u8],
) -> Result<String, AllocError> {
    let names = properties_in(alloc, columns, file)?;
    let mut line = String::new(alloc);
    write!(line, "{name}: no line has the property {property}")?;
    push_listed(&mut line, names.as_slice())?;
    Ok(line)
}

/// Returns the fault of a file in which no line has a property. `name` is what it was read from,
/// and `columns` are where its lines have their property.
pub fn missing_property(
    alloc: Global,
    columns: Columns<'_>,
    property: &str,
    name: &str,
    file: &[u8],
) -> Error {
    said(missing_line(alloc, columns, property, name, file))
}

/// Returns whether a line has field `n`, or is an `@missing` line with one.
fn has_field_in(n: usize, line: &[u8]) -> bool {
    match missing_of(line) {
        Some(content) => has_field(n, content),
        None => has_field(n, content_of(line)),
    }
}

/// Returns whether a line of a file has field `n`.
pub fn is_field_of(n: usize, file: &[u8]) -> bool {
    for line in lines(file) {
        if has_field_in(n, line) {
            return true;
        }
    }
    false
}

/// Returns the field of which the arguments ask, by its number or as a property of UnicodeData.txt.
fn asked_field(matches: &ArgMatches<'_>, columns: Columns<'_>) -> Option<usize> {
    match columns {
        Columns::UnicodeData(n) => Some(n),
        Columns::Field(n) if number(matches, "field").is_some() => Some(n),
        _ => None,
    }
}

/// Returns the line about a file in which no line has field `n`.
fn no_field_line(alloc: Global, name: &str, n: usize) -> Result<String, AllocError> {
    let mut line = String::new(alloc);
    write!(line, "{name}: no line has field {n}, counted from 0")?;
    Ok(line)
}

/// Tests whether a line has the field of which the arguments ask. `name` is what the file was read
/// from.
pub fn expect_field(
    alloc: Global,
    matches: &ArgMatches<'_>,
    columns: Columns<'_>,
    name: &str,
    file: &[u8],
) -> Result<(), Error> {
    match asked_field(matches, columns) {
        Some(n) if !is_field_of(n, file) => Err(said(no_field_line(alloc, name, n))),
        _ => Ok(()),
    }
}
