//! The command `build`: a table of rows, or of a file of the Unicode Character Database.
use crate::names::expect_names;
use crate::tables::{form, trie_type, width};
use crate::unicode_tables::{build_file, with_names};
use crate::wide::{row_with, too_wide};
use clap::ArgMatches;
use icu_trie_core::header::TrieType;
use std::alloc::{AllocError, Global};
use ucd_files::kind::{FileKind, kind_of};
use ucptab_table::error::{RowError, TableError};
use ucptab_table::input::line_at;
use ucptab_table::message::row_message;
use ucptab_table::rows::{after, before, code_points_of, content_of, trimmed};
use ucptrie_forms::built;
use ucptrie_forms::stated::stated_values;
use ucptrie_inputs::compressed::expect_lines;
use ucptrie_inputs::error::{Error, about, said};
use ucptrie_inputs::file_forms::is_made;
use ucptrie_inputs::number;
use ucptrie_inputs::unicode_files::{column_option, named_kind, not_of_rows};
use ucptrie_tables::error::TableBuildError;
use ucptrie_tables::table::TableOptions;
use ucptrie_tables::width::ValueWidth;

/// Returns what a table is to be, apart from its rows.
pub fn options(matches: &ArgMatches<'_>) -> TableOptions {
    TableOptions {
        trie_type: trie_type(matches).unwrap_or(TrieType::Fast),
        width: width(matches).unwrap_or(ValueWidth::Bits32),
        default: number(matches, "default").unwrap_or(0),
        error: number(matches, "error").unwrap_or(0),
    }
}

/// Returns what a table of rows is to be. Comments among the rows may state the values that the
/// arguments do not give.
pub fn options_of_rows(matches: &ArgMatches<'_>, rows: &[u8]) -> TableOptions {
    let stated = stated_values(rows);
    TableOptions {
        default: number(matches, "default").or(stated.null).unwrap_or(0),
        error: number(matches, "error").or(stated.error).unwrap_or(0),
        ..options(matches)
    }
}

/// Returns whether a line would be a row if its value were a number, and not a name.
fn has_name(line: &[u8]) -> bool {
    let content = content_of(line);
    match trimmed(after(b';', content)) {
        [first, ..] if first.is_ascii_alphabetic() => {
            code_points_of(trimmed(before(b';', content))).is_some()
        }
        _ => false,
    }
}

/// Returns the line about the fault of a row.
fn row_line(
    alloc: Global,
    name: &str,
    rows: &[u8],
    number: u64,
    fault: RowError,
) -> Result<String, AllocError> {
    let mut line = row_message(alloc, name, rows, number, fault)?;
    if matches!(fault, RowError::NotARow) && has_name(line_at(rows, number).unwrap_or(&[])) {
        line.push_str("; for names give --format properties")?;
    }
    Ok(line)
}

/// Returns the fault of rows that make no table, or of a table that is not written. `name` is what
/// they were read from.
pub fn unbuilt(alloc: Global, name: &str, rows: &[u8], fault: TableBuildError) -> Error {
    match fault {
        TableBuildError::Table(TableError::Memory) => Error::Memory,
        TableBuildError::Table(TableError::TooLarge) => {
            let why = "too large: more different blocks of values than fit into a trie";
            about(alloc, name, why)
        }
        TableBuildError::Table(TableError::Row(number, fault)) => {
            said(row_line(alloc, name, rows, number, fault))
        }
        _ => about(alloc, name, fault),
    }
}

/// Builds a table of rows, in the form that the arguments name. `name` is what they were read from.
fn build_rows(
    alloc: Global,
    matches: &ArgMatches<'_>,
    name: &str,
    rows: &[u8],
) -> Result<Vec<u8>, Error> {
    let options = options_of_rows(matches, rows);
    let form = form(matches);
    match built(alloc, rows, options, form) {
        Ok(bytes) => Ok(with_names(alloc, matches, bytes, form, options.width, &[])?),
        Err(TableBuildError::Width(value, width)) => {
            let place = row_with(rows, value);
            Err(too_wide(alloc, matches, name, place, value, width))
        }
        Err(fault) => Err(unbuilt(alloc, name, rows, fault)),
    }
}

/// Returns an option of the arguments that rows have no use for.
fn option_of_files(matches: &ArgMatches<'_>) -> Option<&'static str> {
    match column_option(matches) {
        None if matches.get_str("values").is_some() => Some("--values"),
        option => option,
    }
}

/// Builds a table of lines. `name` is what they were read from.
fn build_lines(
    rt: &HostRuntime,
    matches: &ArgMatches<'_>,
    name: &str,
    file: &[u8],
) -> Result<Vec<u8>, Error> {
    let option = option_of_files(matches);
    let kind = match named_kind(matches) {
        Some(kind) => kind,
        None => kind_of(file, option.is_some()),
    };
    match (kind, option) {
        (FileKind::Rows, None) => build_rows(rt.alloc(), matches, name, file),
        (FileKind::Rows, Some(option)) => Err(not_of_rows(rt.alloc(), option)),
        (kind, _) => build_file(rt, matches, name, file, kind),
    }
}

/// Builds a table of a file in the form that the arguments name. `name` is what the file was read
/// from.
pub fn build(
    rt: &HostRuntime,
    matches: &ArgMatches<'_>,
    name: &str,
    file: &[u8],
) -> Result<Vec<u8>, Error> {
    expect_lines(rt.alloc(), name, file)?;
    match build_lines(rt, matches, name, file) {
        Err(Error::Said(_)) if named_kind(matches).is_none() && is_made(file) => {
            let why = "expected lines: ucptrie convert reads tables, and ucptrie set reads sets";
            Err(about(rt.alloc(), name, why))
        }
        Ok(bytes) => {
            expect_names(rt.alloc(), matches, name, &bytes)?;
            Ok(bytes)
        }
        Err(fault) => Err(fault),
    }
}
