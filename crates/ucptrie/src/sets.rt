//! The command `set`: the set of the code points with a value, or of a file of sets, in a form.
use crate::build::unbuilt;
use crate::names::name_in;
use crate::tables::table_in;
use crate::unicode_tables::unread;
use clap::ArgMatches;
use icu_invlist::codepointinvlist::{CodePointInversionList, CodePointInversionListBuilder};
use icu_invlist_binary::serialized::SerializedSetError;
use icu_trie_core::header::TrieType;
use std::alloc::{AllocError, Global};
use std::str;
use ucd_files::choice::{Choice, ValueKind, by_names};
use ucd_files::kind::{FileKind, kind_of};
use ucd_files::names::{Matching, Numbering, is_same_name, number_of};
use ucd_files::statement::Columns;
use ucd_files::title::title_of;
use ucd_files::value_names::ValueNames;
use ucptrie_inputs::compressed::expect_lines;
use ucptrie_inputs::error::{Error, about, about_arguments};
use ucptrie_inputs::file_forms::{is_json, is_toml};
use ucptrie_inputs::groups::numbers_in_group;
use ucptrie_inputs::missing::{default_of, test_numbers, test_own_names};
use ucptrie_inputs::number;
use ucptrie_inputs::numbering::UnicodeFile;
use ucptrie_inputs::offsets::{has_tries, start_of, starts_trie};
use ucptrie_inputs::streams::say;
use ucptrie_inputs::unicode_files::{
    choice_of_file, column_option, is_named, named_kind, not_of_rows, test_conflicts, unicode_file,
    why_no_default,
};
use ucptrie_readers::unicode_file::table_of_file;
use ucptrie_sets::error::{SetFileError, SetWriteError, ValueSetError};
use ucptrie_sets::of_value::set_of_value;
use ucptrie_sets::serialized::set_of_bytes;
use ucptrie_sets::toml_file::{count_strings, set_of_file};
use ucptrie_sets::written::{SetForm, written};
use ucptrie_tables::table::{Table, TableOptions, table_of_rows};
use ucptrie_tables::width::ValueWidth;

/// What is said of a file that says too little of code points without a line.
const NO_DEFAULT: &str =
    "no line says which value the other code points have: make a table by build --default NUMBER";

/// The number of the code points without a line, if the file gives them none: no value has it.
const UNLISTED: u32 = u32::MAX;

/// What a file is.
#[derive(Clone, Copy)]
enum Source {
    /// Lines: rows, or a file of the Unicode Character Database.
    Lines(FileKind),
    /// A table, as `convert` reads it.
    Table,
    /// TOML: a set of icuexportdata, or a table.
    Toml,
    /// A set in ICU's serialized form.
    Serialized,
}

/// Returns what a file is: what the arguments say, or what its first bytes say.
fn source_of(matches: &ArgMatches<'_>, file: &[u8]) -> Source {
    if let Some(kind) = named_kind(matches) {
        return Source::Lines(kind);
    }
    match matches.get_str("format") {
        Some("table") => Source::Table,
        Some("toml") => Source::Toml,
        Some("serialized") => Source::Serialized,
        _ if starts_trie(file) || is_json(file) => Source::Table,
        _ if is_toml(file) => Source::Toml,
        _ if number(matches, "offset").is_some() || has_tries(file) => Source::Table,
        _ => Source::Lines(kind_of(file, column_option(matches).is_some())),
    }
}

/// Returns what a table is to be of which only the set of one value is wanted.
fn options(default: u32) -> TableOptions {
    TableOptions {
        trie_type: TrieType::Fast,
        width: ValueWidth::Bits32,
        default,
        error: 0,
    }
}

/// Returns the set of a value in a table. `name` is what it was read from.
fn set_in_table(
    alloc: Global,
    name: &str,
    table: &Table,
    value: u32,
) -> Result<CodePointInversionList<'static>, Error> {
    match set_of_value(alloc, &table.trie, value) {
        Ok(set) => Ok(set),
        Err(ValueSetError::Memory) => Err(Error::Memory),
        Err(fault) => Err(about(alloc, name, fault)),
    }
}

/// Returns the set of several values in a table. `name` is what the table was read from.
fn union_in_table(
    alloc: Global,
    name: &str,
    table: &Table,
    values: &[u32],
) -> Result<CodePointInversionList<'static>, Error> {
    let mut union = CodePointInversionListBuilder::new(alloc);
    for value in values {
        let set = set_in_table(alloc, name, table, *value)?;
        if union.add_set(&set).is_err() {
            return Err(Error::Memory);
        }
    }
    match union.build() {
        Ok(set) => Ok(set),
        Err(_) => Err(Error::Memory),
    }
}

/// Returns the value that the arguments ask for as a number, which is 1 if they ask for none.
fn asked_number(alloc: Global, matches: &ArgMatches<'_>) -> Result<u32, Error> {
    let Some(text) = matches.get_str("value") else {
        return Ok(1);
    };
    match number_of(Numbering::Decimal, text.as_bytes()) {
        Some(value) => Ok(value),
        None => Err(about(alloc, text, "expected a decimal number up to 4294967295")),
    }
}

/// Returns the number of the value with this name: of the one that is written so, or else of the
/// first one that is the same apart from case, spaces, `_` and `-`. No value has an empty name.
fn number_named(names: &ValueNames<'_>, text: &str) -> Option<u32> {
    if is_same_name(&[], text.as_bytes()) {
        return None;
    }
    let exact = number_of(Numbering::Names(names, Matching::Exact), text.as_bytes());
    exact.or(number_of(Numbering::Names(names, Matching::Loose), text.as_bytes()))
}

/// Returns whether the values of a file are general categories.
fn has_categories(matches: &ArgMatches<'_>, file: &UnicodeFile<'_>) -> bool {
    if matches!(file.columns, Columns::UnicodeData(2)) {
        return true;
    }
    match (matches.get_str("property"), title_of(file.bytes)) {
        (Some(property), _) => is_named("gc", "General_Category", property.as_bytes()),
        (None, Some(title)) => title.starts_with(b"DerivedGeneralCategory".as_slice()),
        (None, None) => false,
    }
}

/// Returns the number of the value with this name, or the numbers of the general categories in the
/// group with this name.
fn numbers_named(
    alloc: Global,
    matches: &ArgMatches<'_>,
    file: &UnicodeFile<'_>,
    names: &ValueNames<'_>,
    text: &str,
) -> Result<Vec<u32>, Error> {
    let mut numbers = Vec::new(alloc);
    if let Some(number) = number_named(names, text) {
        numbers.push(number)?;
    } else if has_categories(matches, file) {
        numbers = numbers_in_group(alloc, names.as_slice(), text, UNLISTED)?;
    }
    if numbers.is_empty() {
        return Err(about(alloc, text, "no value of the property has this name"));
    }
    Ok(numbers)
}

/// Returns a list of the one value that means true, or of the lines of a set.
fn only_one(alloc: Global) -> Result<Vec<u32>, AllocError> {
    let mut numbers = Vec::new(alloc);
    numbers.push(1)?;
    Ok(numbers)
}

/// Returns how the values of a file become numbers, and the numbers whose set is asked for.
fn asked_values<'n>(
    alloc: Global,
    matches: &ArgMatches<'_>,
    file: &UnicodeFile<'_>,
    choice: &'n Choice<'n>,
) -> Result<(Numbering<'n>, Vec<u32>), Error> {
    match (matches.get_str("value"), choice.kind) {
        (Some(text), _) => {
            let numbers = numbers_named(alloc, matches, file, &choice.names, text)?;
            Ok((by_names(choice), numbers))
        }
        (None, ValueKind::Set) => Ok((Numbering::One, only_one(alloc)?)),
        (None, ValueKind::Binary) => Ok((by_names(choice), only_one(alloc)?)),
        _ => {
            let why = "expected --value, or by --property a property that is true or false";
            Err(about(alloc, file.name, why))
        }
    }
}

/// Returns the number of the value that code points have without a line and without an `@missing`
/// line: false, or what the file of aliases says, or none of the file's values.
fn default_in_set(
    alloc: Global,
    matches: &ArgMatches<'_>,
    file: &UnicodeFile<'_>,
    choice: &Choice<'_>,
    numbering: Numbering<'_>,
) -> Result<u32, Error> {
    match choice.kind {
        ValueKind::Binary => Ok(0),
        ValueKind::Aliases => {
            let how = why_no_default(file.columns, NO_DEFAULT);
            default_of(alloc, matches, file, numbering, UNLISTED, how)
        }
        ValueKind::Set | ValueKind::Own => Ok(UNLISTED),
    }
}

/// Returns the set of a value in lines whose values have these names.
fn set_of_lines(
    alloc: Global,
    matches: &ArgMatches<'_>,
    file: &UnicodeFile<'_>,
    choice: &Choice<'_>,
) -> Result<CodePointInversionList<'static>, Error> {
    let (numbering, values) = asked_values(alloc, matches, file, choice)?;
    test_conflicts(alloc, file, numbering)?;
    test_own_names(alloc, file, choice)?;
    test_numbers(alloc, file, choice)?;
    let default = default_in_set(alloc, matches, file, choice, numbering)?;
    match table_of_file(alloc, file.bytes, file.columns, numbering, options(default)) {
        Ok(table) => union_in_table(alloc, file.name, &table, &values),
        Err(fault) => Err(unread(alloc, file.name, file.bytes, numbering, fault)),
    }
}

/// Returns the set of a value in a file of the Unicode Character Database.
fn set_of_unicode_file(
    rt: &HostRuntime,
    matches: &ArgMatches<'_>,
    name: &str,
    bytes: &[u8],
    kind: FileKind,
) -> Result<CodePointInversionList<'static>, Error> {
    let file = unicode_file(rt, matches, name, bytes, kind)?;
    let choice = choice_of_file(rt, matches, &file)?;
    set_of_lines(rt.alloc(), matches, &file, &choice)
}

/// Returns the set of a value in rows.
fn set_of_rows(
    alloc: Global,
    matches: &ArgMatches<'_>,
    name: &str,
    rows: &[u8],
) -> Result<CodePointInversionList<'static>, Error> {
    if let Some(option) = column_option(matches) {
        return Err(not_of_rows(alloc, option));
    }
    let value = asked_number(alloc, matches)?;
    match table_of_rows(alloc, rows, options(0)) {
        Ok(table) => set_in_table(alloc, name, &table, value),
        Err(fault) => Err(unbuilt(alloc, name, rows, fault)),
    }
}

/// Returns the set of a value in a file with a table.
fn set_of_table(
    alloc: Global,
    matches: &ArgMatches<'_>,
    name: &str,
    file: &[u8],
) -> Result<CodePointInversionList<'static>, Error> {
    let value = asked_number(alloc, matches)?;
    let table = table_in(alloc, matches, name, file, start_of(matches))?;
    set_in_table(alloc, name, &table, value)
}

/// Returns the line about strings that are left out.
fn strings_line(alloc: Global, name: &str, count: usize) -> Result<String, AllocError> {
    let mut line = String::new(alloc);
    write!(
        line,
        "{name}: left out {count} strings: the set has code points only"
    )?;
    Ok(line)
}

/// Says on standard error how many strings a property in TOML has besides code points, if it has
/// any.
fn say_strings(
    rt: &HostRuntime,
    name: &str,
    text: &str,
    property: Option<&str>,
) -> Result<(), AllocError> {
    let count = count_strings(rt.alloc(), text, property)?;
    if count != 0 {
        say(rt, &strings_line(rt.alloc(), name, count)?);
    }
    Ok(())
}

/// Returns the set of a TOML file: that of a property, or else that of a value in a table.
fn set_of_toml(
    rt: &HostRuntime,
    matches: &ArgMatches<'_>,
    name: &str,
    file: &[u8],
) -> Result<CodePointInversionList<'static>, Error> {
    let Ok(text) = str::from_utf8(file) else {
        return set_of_table(rt.alloc(), matches, name, file);
    };
    let property = matches.get_str("property");
    match set_of_file(rt.alloc(), text, property) {
        Ok(_) if matches.get_str("value").is_some() => {
            let why = "the file has sets, and no table with values for --value";
            Err(about(rt.alloc(), name, why))
        }
        Ok(set) => {
            say_strings(rt, name, text, property)?;
            Ok(set)
        }
        Err(SetFileError::Memory) => Err(Error::Memory),
        Err(SetFileError::NotToml | SetFileError::NoSets) => {
            set_of_table(rt.alloc(), matches, name, file)
        }
        Err(fault) => Err(about(rt.alloc(), name, fault)),
    }
}

/// Returns an option of the arguments for which a file of this kind has no use.
fn unused_option(matches: &ArgMatches<'_>, source: Source) -> Option<&'static str> {
    match source {
        Source::Lines(_) => None,
        _ if number(matches, "field").is_some() => Some("--field"),
        _ if matches.get_str("aliases").is_some() => Some("--aliases"),
        Source::Serialized if matches.get_str("property").is_some() => Some("--property"),
        Source::Serialized if matches.get_str("value").is_some() => Some("--value"),
        _ => None,
    }
}

/// Returns the set of a file in ICU's serialized form.
fn set_of_serialized(
    alloc: Global,
    name: &str,
    file: &[u8],
) -> Result<CodePointInversionList<'static>, Error> {
    match set_of_bytes(alloc, file) {
        Ok(set) => Ok(set),
        Err(SerializedSetError::Memory) => Err(Error::Memory),
        Err(fault) => Err(about(alloc, name, fault)),
    }
}

/// Returns the set that the arguments ask for.
fn asked_set(
    rt: &HostRuntime,
    matches: &ArgMatches<'_>,
    name: &str,
    file: &[u8],
) -> Result<CodePointInversionList<'static>, Error> {
    let source = source_of(matches, file);
    if let Some(option) = unused_option(matches, source) {
        return Err(about_arguments(rt.alloc(), option, "not for such a file: leave it out"));
    }
    if matches!(source, Source::Lines(_)) {
        expect_lines(rt.alloc(), name, file)?;
    }
    match source {
        Source::Lines(FileKind::Rows) => set_of_rows(rt.alloc(), matches, name, file),
        Source::Lines(kind) => set_of_unicode_file(rt, matches, name, file, kind),
        Source::Table => set_of_table(rt.alloc(), matches, name, file),
        Source::Toml => set_of_toml(rt, matches, name, file),
        Source::Serialized => set_of_serialized(rt.alloc(), name, file),
    }
}

/// Says on standard error that no code point is in the set.
fn say_empty(rt: &HostRuntime, name: &str) -> Result<(), AllocError> {
    let mut line = String::new(rt.alloc());
    write!(
        line,
        "{name}: the set is empty: no code point has the value"
    )?;
    say(rt, &line);
    Ok(())
}

/// Returns the form that the arguments name.
fn set_form<'a>(matches: &ArgMatches<'a>) -> SetForm<'a> {
    let name = name_in(matches);
    match matches.get_str("as") {
        Some("icu") => SetForm::Icu,
        Some("toml") => SetForm::Toml(name),
        Some("json") => SetForm::Json,
        Some("c") => SetForm::C(name),
        Some("c-frozen") => SetForm::FrozenC(name),
        Some("rust") => SetForm::Rust(name),
        Some("rust-static") => SetForm::RustStatic(name),
        Some("rust-frozen") => SetForm::FrozenRust(name),
        _ => SetForm::Rows,
    }
}

/// Returns the set that the arguments ask for, in the form that they name. `name` is what the file
/// was read from.
pub fn set(
    rt: &HostRuntime,
    matches: &ArgMatches<'_>,
    name: &str,
    file: &[u8],
) -> Result<Vec<u8>, Error> {
    let set = asked_set(rt, matches, name, file)?;
    if set.is_empty() {
        say_empty(rt, name)?;
    }
    match written(rt.alloc(), &set, set_form(matches)) {
        Ok(bytes) => Ok(bytes),
        Err(SetWriteError::Memory) => Err(Error::Memory),
        Err(fault) => Err(about(rt.alloc(), name, fault)),
    }
}
