//! The columns of a joined table: the properties of files, each read as `build` reads it.
use crate::arguments::program_words;
use crate::build::{options_of_rows, unbuilt};
use crate::functions::function_name;
use crate::unicode_tables::{tested, unread};
use clap::ArgMatches;
use std::alloc::{AllocError, Global};
use ucd_files::choice::{Choice, ValueKind, own_choice};
use ucd_files::kind::{FileKind, kind_of};
use ucd_files::names::{Name, Numbering, is_same_name};
use ucptrie_inputs::compressed::expect_lines;
use ucptrie_inputs::error::Error;
use ucptrie_inputs::fractions::{say_fractions, say_reading};
use ucptrie_inputs::numbering::UnicodeFile;
use ucptrie_inputs::unicode_files::{choice_of_file, column_option, not_of_rows, unicode_file};
use ucptrie_readers::unicode_file::table_of_file;
use ucptrie_tables::table::{Table, table_of_rows};

/// A file whose properties are joined.
#[derive(Drop)]
pub struct Input<'a> {
    /// What it is read from.
    pub path: &'a str,
    /// Its properties, with commas between them, or `None` if it has only one.
    pub properties: Option<&'a str>,
    /// Its bytes.
    pub bytes: Vec<u8>,
}

/// A name of a value.
#[derive(Drop)]
pub struct ValueName {
    /// The number of the value.
    pub number: usize,
    /// The name, byte for byte. It is empty for code points without a line.
    pub text: Vec<u8>,
}

/// What the values of a column are.
#[derive(Drop)]
pub enum ColumnValues {
    /// True and false, which are 1 and 0.
    Binary,
    /// Values with these names.
    Names(Vec<ValueName>),
    /// Numbers.
    Numbers,
}

/// A column of a joined table: a property of a file.
#[derive(Drop)]
pub struct Column {
    /// The property, or the file's name if it has only one.
    pub label: String,
    /// The name of its function in source.
    pub function: String,
    /// What its values are.
    pub values: ColumnValues,
}

/// The columns of a joined table, and the table of each.
#[derive(Drop)]
pub struct Columns {
    pub columns: Vec<Column>,
    pub tables: Vec<Table>,
}

/// Returns the words of the command `build` that reads a property of a file. A file without
/// properties is read without the aliases, since these are of properties.
fn build_words(
    alloc: Global,
    matches: &ArgMatches<'_>,
    path: &str,
    property: Option<&str>,
) -> Result<Vec<String>, AllocError> {
    let mut words = Vec::new(alloc);
    for word in ["ucptrie", "build", "--as=rows"] {
        words.push(String::from_str(alloc, word)?)?;
    }
    if let Some(property) = property {
        words.push(option_word(alloc, "property", property)?)?;
        for aliases in matches.get_strs("aliases").unwrap_or(&[]) {
            words.push(option_word(alloc, "aliases", aliases)?)?;
        }
    }
    words.push(String::from_str(alloc, "--")?)?;
    words.push(String::from_str(alloc, path)?)?;
    Ok(words)
}

/// Returns an option with its value as one word.
fn option_word(alloc: Global, id: &str, value: &str) -> Result<String, AllocError> {
    let mut word = String::new(alloc);
    word.push_str("--")?;
    word.push_str(id)?;
    word.push('=')?;
    word.push_str(value)?;
    Ok(word)
}

/// Returns whether a name is one of these, as names of values are compared.
fn is_one_of(name: &Name<'_>, texts: [&[u8]; 4]) -> bool {
    for text in texts {
        if is_same_name(text, name.text) {
            return true;
        }
    }
    false
}

/// Returns whether a name is that of false, with the number 0, or that of true, with the number 1.
fn is_true_or_false(name: &Name<'_>) -> bool {
    match name.number {
        0 => is_one_of(name, [b"N", b"No", b"F", b"False"]),
        1 => is_one_of(name, [b"Y", b"Yes", b"T", b"True"]),
        _ => false,
    }
}

/// Returns whether all names are those of true and false, with the numbers 1 and 0.
fn are_true_and_false(names: &[Name<'_>]) -> bool {
    for name in names {
        if !is_true_or_false(name) {
            return false;
        }
    }
    !names.is_empty()
}

/// Returns a copy of names.
fn copied(alloc: Global, names: &[Name<'_>]) -> Result<Vec<ValueName>, AllocError> {
    let mut copies = Vec::new(alloc);
    for name in names {
        let mut text = Vec::new(alloc);
        text.extend_from_slice(name.text)?;
        copies.push(ValueName {
            number: name.number,
            text,
        })?;
    }
    Ok(copies)
}

/// Returns what the values of a column are.
fn values_of(
    alloc: Global,
    choice: &Choice<'_>,
    numbering: Numbering<'_>,
) -> Result<ColumnValues, AllocError> {
    let names = choice.names.as_slice();
    match numbering {
        Numbering::One => Ok(ColumnValues::Binary),
        Numbering::Decimal | Numbering::Hexadecimal => Ok(ColumnValues::Numbers),
        Numbering::Names(_, _) => {
            if matches!(choice.kind, ValueKind::Set | ValueKind::Binary)
                || are_true_and_false(names)
            {
                return Ok(ColumnValues::Binary);
            }
            Ok(ColumnValues::Names(copied(alloc, names)?))
        }
    }
}

/// What is said of a file that says too little of code points without a line.
const NO_DEFAULT: &str =
    "no line says which value the other code points have: join a file whose @missing lines say it";

/// Returns the table of a file of the Unicode Character Database, and what its values are.
fn file_column(
    alloc: Global,
    matches: &ArgMatches<'_>,
    file: &UnicodeFile<'_>,
    choice: &Choice<'_>,
) -> Result<(Table, ColumnValues), Error> {
    let (numbering, options) = tested(alloc, matches, file, choice, NO_DEFAULT)?;
    match table_of_file(alloc, file.bytes, file.columns, numbering, options) {
        Ok(table) => Ok((table, values_of(alloc, choice, numbering)?)),
        Err(fault) => Err(unread(alloc, file.name, file.bytes, numbering, fault)),
    }
}

/// Returns the table of rows, whose values are numbers.
fn row_column(
    alloc: Global,
    matches: &ArgMatches<'_>,
    name: &str,
    rows: &[u8],
) -> Result<(Table, ColumnValues), Error> {
    if let Some(option) = column_option(matches) {
        return Err(not_of_rows(alloc, option));
    }
    match table_of_rows(alloc, rows, options_of_rows(matches, rows)) {
        Ok(table) => Ok((table, ColumnValues::Numbers)),
        Err(fault) => Err(unbuilt(alloc, name, rows, fault)),
    }
}

/// Returns the table of a file and what its values are. `matches` are the arguments of `build` that
/// name its property, and `name` is what it was read from. The files of aliases are not needed for
/// a property that is true or false.
fn read_column(
    rt: &HostRuntime,
    matches: &ArgMatches<'_>,
    name: &str,
    bytes: &[u8],
) -> Result<(Table, ColumnValues), Error> {
    let kind = kind_of(bytes, column_option(matches).is_some());
    if matches!(kind, FileKind::Rows) {
        return row_column(rt.alloc(), matches, name, bytes);
    }
    let file = unicode_file(rt, matches, name, bytes, kind)?;
    let own = own_choice(rt.alloc(), file.bytes, file.columns)?;
    if matches!(own.kind, ValueKind::Set | ValueKind::Binary) {
        return file_column(rt.alloc(), matches, &file, &own);
    }
    let choice = choice_of_file(rt, matches, &file)?;
    say_fractions(rt, matches, &file, &choice)?;
    say_reading(rt, matches, &file, &choice)?;
    file_column(rt.alloc(), matches, &file, &choice)
}

/// Returns the table of a property of a file as the command with these words reads it, and what its
/// values are.
fn column_by_words(
    rt: &HostRuntime,
    words: &[String],
    name: &str,
    bytes: &[u8],
) -> Result<(Table, ColumnValues), Error> {
    let matches = match program_words(rt.alloc())?.try_get_matches_from(words) {
        Ok(matches) => matches,
        Err(_) => return Err(Error::Memory),
    };
    match matches.subcommand() {
        Some((_, matches)) => read_column(rt, matches, name, bytes),
        None => Err(Error::Memory),
    }
}

/// Returns the name of a file without its folders and what follows the first `.` or `-`.
fn stem(path: &str) -> &str {
    let name = path.rsplit(['/', '\\']).next().unwrap_or(path);
    name.split(['.', '-']).next().unwrap_or(name)
}

/// Appends the column of a property of a file, or of its only property.
fn push_column(
    rt: &HostRuntime,
    matches: &ArgMatches<'_>,
    columns: &mut Columns,
    input: &Input<'_>,
    property: Option<&str>,
) -> Result<(), Error> {
    let label = property.unwrap_or(stem(input.path));
    let words = build_words(rt.alloc(), matches, input.path, property)?;
    let (table, values) = column_by_words(rt, &words, input.path, &input.bytes)?;
    columns.tables.push(table)?;
    columns.columns.push(Column {
        label: String::from_str(rt.alloc(), label)?,
        function: function_name(rt.alloc(), label)?,
        values,
    })?;
    Ok(())
}

/// Appends the columns of a file: one for each of its properties.
fn push_columns(
    rt: &HostRuntime,
    matches: &ArgMatches<'_>,
    columns: &mut Columns,
    input: &Input<'_>,
) -> Result<(), Error> {
    let Some(properties) = input.properties else {
        return push_column(rt, matches, columns, input, None);
    };
    for property in properties.split(',') {
        push_column(rt, matches, columns, input, Some(property))?;
    }
    Ok(())
}

/// Returns the columns of files, in order.
pub fn columns_of(
    rt: &HostRuntime,
    matches: &ArgMatches<'_>,
    inputs: &[Input<'_>],
) -> Result<Columns, Error> {
    let mut columns = Columns {
        columns: Vec::new(rt.alloc()),
        tables: Vec::new(rt.alloc()),
    };
    for input in inputs {
        expect_lines(rt.alloc(), input.path, &input.bytes)?;
        push_columns(rt, matches, &mut columns, input)?;
    }
    Ok(columns)
}
