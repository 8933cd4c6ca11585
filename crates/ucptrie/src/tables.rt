//! The tables of files, and how a table is to be written.
use crate::names::name_in;
use clap::ArgMatches;
use icu_trie_core::header::TrieType;
use std::alloc::{AllocError, Global};
use std::str;
use ucptrie_inputs::compressed::expect_text;
use ucptrie_inputs::error::{Error, about, said};
use ucptrie_inputs::file_forms::is_toml;
use ucptrie_inputs::offsets::{Start, from_trie, starts_trie};
use ucptrie_inputs::streams::{bytes_at, input_name, without_mark};
use ucptrie_readers::error::{ReadError, TomlFileError};
use ucptrie_readers::other_toml::{OtherToml, other_toml};
use ucptrie_readers::parsed::ParsedFile;
use ucptrie_readers::properties::{PropertyError, read_property};
use ucptrie_sets::error::SetFileError;
use ucptrie_sets::toml_file::set_of_file;
use ucptrie_tables::form::Form;
use ucptrie_tables::table::Table;
use ucptrie_tables::width::ValueWidth;

/// Returns the trie type that the arguments name.
pub fn trie_type(matches: &ArgMatches<'_>) -> Option<TrieType> {
    match matches.get_str("type") {
        Some("fast") => Some(TrieType::Fast),
        Some("small") => Some(TrieType::Small),
        _ => None,
    }
}

/// Returns the width that the arguments name.
pub fn width(matches: &ArgMatches<'_>) -> Option<ValueWidth> {
    match matches.get_str("width") {
        Some("8") => Some(ValueWidth::Bits8),
        Some("16") => Some(ValueWidth::Bits16),
        Some("32") => Some(ValueWidth::Bits32),
        _ => None,
    }
}

/// Returns the form that the arguments name.
pub fn form<'a>(matches: &ArgMatches<'a>) -> Form<'a> {
    let name = name_in(matches);
    match matches.get_str("as") {
        Some("icu") => Form::Icu,
        Some("toml") => Form::Toml,
        Some("json") => Form::Json,
        Some("c") => Form::C(name),
        Some("bks") => Form::Bks(name),
        Some("rust" | "rust-static") => Form::Rust(name),
        _ => Form::Rows,
    }
}

/// Returns the line about a text in no known form.
fn toml_line(alloc: Global, name: &str, fault: &TomlFileError) -> Result<String, AllocError> {
    let (number, why) = (fault.line(), fault.message());
    let mut line = String::new(alloc);
    write!(
        line,
        "{name}:{number}: not TOML, JSON or ICU's binary form: {why}"
    )?;
    Ok(line)
}

/// Returns the fault of a file that has no table. `name` is what it was read from.
fn unread(alloc: Global, name: &str, fault: ReadError) -> Error {
    match fault {
        ReadError::Memory => Error::Memory,
        ReadError::Toml(fault) => said(toml_line(alloc, name, &fault)),
        _ => about(alloc, name, fault),
    }
}

/// Returns the line about a property with no trie in a file.
fn missing_line(
    alloc: Global,
    name: &str,
    property: &str,
    found: &str,
) -> Result<String, AllocError> {
    let mut line = String::new(alloc);
    write!(
        line,
        "{name}: expected the property {property} with a trie, found "
    )?;
    line.push_str(if found.is_empty() { "none" } else { found })?;
    Ok(line)
}

/// Returns the line about properties of which one has to be chosen.
fn several_line(alloc: Global, name: &str, found: &str) -> Result<String, AllocError> {
    let mut line = String::new(alloc);
    write!(
        line,
        "{name}: several properties have a trie, choose one by --property: {found}"
    )?;
    Ok(line)
}

/// Returns the fault of a file that has no table of the property. `name` is what it was read from.
fn unchosen(alloc: Global, name: &str, property: &str, fault: PropertyError) -> Error {
    match fault {
        PropertyError::Read(fault) => unread(alloc, name, fault),
        PropertyError::NotToml => about(alloc, name, "not TOML, so it has no properties"),
        PropertyError::Missing(found) => said(missing_line(alloc, name, property, &found)),
        PropertyError::Several(found) => said(several_line(alloc, name, &found)),
    }
}

/// Returns whether TOML is at fault in which a trie is missing.
fn lacks_trie(fault: &PropertyError) -> bool {
    matches!(
        fault,
        PropertyError::Read(ReadError::TrieToml(_)) | PropertyError::Missing(_)
    )
}

/// Returns whether a file has sets of code points in TOML.
fn has_sets(alloc: Global, file: &[u8]) -> Result<bool, Error> {
    let Ok(text) = str::from_utf8(file) else {
        return Ok(false);
    };
    match set_of_file(alloc, text, None) {
        Err(SetFileError::Memory) => Err(Error::Memory),
        Err(SetFileError::NotToml | SetFileError::NoSets) => Ok(false),
        _ => Ok(true),
    }
}

/// Returns what a TOML file has that has no trie, if it is known.
fn other_in(file: &ParsedFile<'_>) -> Option<OtherToml> {
    other_toml(file.toml()?)
}

/// Returns the fault of a TOML file in which the trie is missing, or of the property that is asked
/// for. `name` is what the file was read from.
fn without_trie(
    alloc: Global,
    name: &str,
    file: &ParsedFile<'_>,
    property: &str,
    fault: PropertyError,
) -> Result<Error, Error> {
    if has_sets(alloc, file.bytes())? {
        let why = "a set of code points, and no table: use ucptrie set";
        return Ok(about(alloc, name, why));
    }
    match other_in(file) {
        Some(other) => Ok(about(alloc, name, other)),
        None => Ok(unchosen(alloc, name, property, fault)),
    }
}

/// What is said of a text that is no table, as rows and the files that Unicode publishes.
const NO_TABLE: &str =
    "expected a table in ICU's binary form, JSON or TOML; ucptrie build makes one of lines";

/// Returns a file with its TOML. `name` is what it was read from.
fn parsed<'f>(alloc: Global, name: &str, bytes: &'f [u8]) -> Result<ParsedFile<'f>, Error> {
    match ParsedFile::new(alloc, bytes) {
        Ok(file) => Ok(file),
        Err(ReadError::Toml(_)) if !is_toml(bytes) => Err(about(alloc, name, NO_TABLE)),
        Err(fault) => Err(unread(alloc, name, fault)),
    }
}

/// Returns the table of a file: in TOML that of the property that the arguments name, and in
/// another file that of the trie at its start. `name` is what the file was read from.
pub fn table_of_property(
    alloc: Global,
    matches: &ArgMatches<'_>,
    name: &str,
    file: &ParsedFile<'_>,
) -> Result<Table, Error> {
    let property = matches.get_str("property");
    match read_property(alloc, file, property) {
        Ok(table) => Ok(table),
        Err(fault) => {
            let property = property.unwrap_or("");
            if lacks_trie(&fault) {
                return Err(without_trie(alloc, name, file, property, fault)?);
            }
            Err(unchosen(alloc, name, property, fault))
        }
    }
}

/// Returns the file with these bytes, from the start of its trie on, with its TOML. `name` is what
/// the bytes were read from.
pub fn file_in<'f>(
    alloc: Global,
    name: &str,
    bytes: &'f [u8],
    start: Start,
) -> Result<ParsedFile<'f>, Error> {
    if bytes.is_empty() {
        return Err(about(alloc, name, "the file is empty"));
    }
    let part = from_trie(alloc, name, bytes, start)?;
    if !matches!(start, Start::At(_)) && !starts_trie(part) {
        expect_text(alloc, name, part)?;
    }
    parsed(alloc, name, part)
}

/// Returns the table of a file with these bytes, as [`table_of_property`] does.
pub fn table_in(
    alloc: Global,
    matches: &ArgMatches<'_>,
    name: &str,
    bytes: &[u8],
    start: Start,
) -> Result<Table, Error> {
    let file = file_in(alloc, name, bytes, start)?;
    table_of_property(alloc, matches, name, &file)
}

/// Reads the table of the file that the argument `id` names, or of standard input if its name is
/// `-`. `start` is where the trie starts.
pub fn table_at(
    rt: &HostRuntime,
    matches: &ArgMatches<'_>,
    id: &str,
    start: Start,
) -> Result<Table, Error> {
    let path = matches.get_str(id).unwrap_or("-");
    let bytes = bytes_at(rt, path)?;
    let file = match start {
        Start::At(_) => bytes.as_slice(),
        Start::Found | Start::Only => without_mark(&bytes),
    };
    table_in(rt.alloc(), matches, input_name(path), file, start)
}
