//! The command `convert`: a table in another form, or of another type, width or error value.
use crate::build::unbuilt;
use crate::names::{expect_names, is_list, say_many};
use crate::tables::{file_in, form, table_of_property, trie_type, width};
use crate::unicode_tables::with_names;
use crate::wide::too_wide_in;
use clap::ArgMatches;
use std::alloc::Global;
use ucptrie_forms::written::written;
use ucptrie_inputs::error::{Error, about};
use ucptrie_inputs::number;
use ucptrie_inputs::offsets::start_of;
use ucptrie_readers::parsed::ParsedFile;
use ucptrie_readers::properties::property_names;
use ucptrie_readers::toml_names::NamesError;
use ucptrie_tables::error::TableBuildError;
use ucptrie_tables::form::Form;
use ucptrie_tables::rebuild::rebuilt;
use ucptrie_tables::table::Table;
use ucptrie_tables::width::ValueWidth;

/// Returns the table as the arguments want it: as it is, or built again of its values. `name` is
/// what it was read from.
fn changed(
    alloc: Global,
    matches: &ArgMatches<'_>,
    name: &str,
    table: Table,
) -> Result<Table, Error> {
    let (kind, bits) = (trie_type(matches), width(matches));
    let error = number(matches, "error");
    if kind.is_none() && bits.is_none() && error.is_none() {
        return Ok(table);
    }
    let (header, _, _) = table.trie.parts();
    let kind = kind.unwrap_or(header.trie_type);
    let bits = bits.unwrap_or(table.width);
    let error = error.unwrap_or(table.trie.error_value());
    match rebuilt(alloc, &table, kind, bits, error) {
        Ok(table) => Ok(table),
        Err(TableBuildError::Width(value, width)) => {
            Err(too_wide_in(alloc, matches, name, &table, value, width))
        }
        Err(fault) => Err(unbuilt(alloc, name, &[], fault)),
    }
}

/// Returns a table in a form. `name` is what it was read from.
///
/// Rows are ranges. The ranges of a table that is not coherent may differ from its values, so its
/// rows would make another table and are not written.
fn converted(alloc: Global, name: &str, table: &Table, form: Form<'_>) -> Result<Vec<u8>, Error> {
    if matches!(form, Form::Rows) && !table.trie.is_coherent() {
        let why = "not coherent, so its ranges may differ from its look-ups: no rows are written";
        return Err(about(alloc, name, why));
    }
    match written(alloc, table, form) {
        Ok(bytes) => Ok(bytes),
        Err(fault) => Err(unbuilt(alloc, name, &[], fault)),
    }
}

/// Returns a table in a form, followed by the source of the names that its file has for its values
/// if the form is source, or only the list of these names. `name` is what the file was read from.
fn with_names_of_file(
    rt: &HostRuntime,
    matches: &ArgMatches<'_>,
    name: &str,
    file: &ParsedFile<'_>,
    bytes: Vec<u8>,
    width: ValueWidth,
) -> Result<Vec<u8>, Error> {
    let form = form(matches);
    if !matches!(form, Form::C(_) | Form::Bks(_) | Form::Rust(_)) && !is_list(matches) {
        return Ok(with_names(rt.alloc(), matches, bytes, form, width, &[])?);
    }
    let names = match property_names(rt.alloc(), file, matches.get_str("property")) {
        Ok(names) => names,
        Err(NamesError::Memory) => return Err(Error::Memory),
        Err(fault) => return Err(about(rt.alloc(), name, fault)),
    };
    say_many(rt, matches, name, names.as_slice())?;
    Ok(with_names(rt.alloc(), matches, bytes, form, width, names.as_slice())?)
}

/// Returns the table of a file in the form that the arguments name. `name` is what the file was
/// read from.
pub fn convert(
    rt: &HostRuntime,
    matches: &ArgMatches<'_>,
    name: &str,
    bytes: &[u8],
) -> Result<Vec<u8>, Error> {
    let file = file_in(rt.alloc(), name, bytes, start_of(matches))?;
    let table = table_of_property(rt.alloc(), matches, name, &file)?;
    let table = changed(rt.alloc(), matches, name, table)?;
    let bytes = if is_list(matches) {
        Vec::new(rt.alloc())
    } else {
        converted(rt.alloc(), name, &table, form(matches))?
    };
    let whole = with_names_of_file(rt, matches, name, &file, bytes, table.width)?;
    expect_names(rt.alloc(), matches, name, &whole)?;
    Ok(whole)
}
