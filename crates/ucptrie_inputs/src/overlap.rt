//! Which code point has two values in a file, as in files of several properties.
use icu_trie_builder::writes::Write;
use std::alloc::{AllocError, Global};
use ucd_files::aliases::alias_names;
use ucd_files::choice::{Choice, by_names, own_choice};
use ucd_files::fields::{ends_in_first, field};
use ucd_files::names::{Matching, Numbering};
use ucd_files::statement::{Columns, Statement, statement_of};
use ucd_files::value_names::ValueNames;
use ucptab_table::input::{line_at, lines};
use ucptab_table::rows::content_of;

/// Two lines that give a code point different values.
#[derive(Clone, Copy)]
pub struct Conflict {
    /// The code point.
    pub code_point: u32,
    /// The number of the earlier line, counted from 1.
    pub first: u64,
    /// The number of the later line.
    pub second: u64,
}

/// What a line says: the value of the code points from the first to the last one, both inclusive.
#[derive(Clone, Copy)]
struct LineValue {
    first: u32,
    last: u32,
    value: u32,
    /// The number of the line, counted from 1.
    line: u64,
}

/// Returns what a write says in a line with this number.
fn line_value(write: &Write<u32>, line: u64) -> LineValue {
    let (first, last, value) = match write {
        Write::One(code_point, value) => (*code_point, *code_point, *value),
        Write::Range(range, value) => (*range.start(), *range.end(), *value),
    };
    LineValue {
        first,
        last,
        value,
        line,
    }
}

/// Returns whether a line has the first code point of a range in two lines. The second one has all
/// of the range.
fn is_first_of_range(columns: Columns<'_>, line: &[u8]) -> bool {
    matches!(columns, Columns::UnicodeData(_)) && ends_in_first(line)
}

/// Returns what the lines of a file say, apart from `@missing` lines. Stops at the first faulty
/// line, which the builder of the table reports.
fn line_values(
    alloc: Global,
    file: &[u8],
    columns: Columns<'_>,
    numbering: Numbering<'_>,
) -> Result<Vec<LineValue>, AllocError> {
    let mut all = Vec::new(alloc);
    let mut number = 0u64;
    let mut previous: &[u8] = &[];
    for line in lines(file) {
        number = number.saturating_add(1);
        match statement_of(columns, numbering, previous, line) {
            Ok(Some(Statement::Explicit(write))) if !is_first_of_range(columns, line) => {
                all.push(line_value(&write, number))?;
            }
            Ok(_) => {}
            Err(_) => return Ok(all),
        }
        previous = line;
    }
    Ok(all)
}

/// Returns the two lines if a code point of the second one has another value by the first one.
fn conflict_of(before: LineValue, after: LineValue) -> Option<Conflict> {
    if after.first > before.last || after.value == before.value {
        return None;
    }
    Some(Conflict {
        code_point: after.first,
        first: before.line.min(after.line),
        second: before.line.max(after.line),
    })
}

/// Returns the first code point that has two different values, and their lines. In order of their
/// first code points, each line is compared with the one before it that ends last. That is enough,
/// since all lines before it that cover its first code point have the same value.
pub fn find_conflict(
    alloc: Global,
    file: &[u8],
    columns: Columns<'_>,
    numbering: Numbering<'_>,
) -> Result<Option<Conflict>, AllocError> {
    let mut all = line_values(alloc, file, columns, numbering)?;
    all.sort_unstable_by_key(|line| (line.first, line.line));
    let mut longest: Option<LineValue> = None;
    for line in all {
        match longest {
            Some(before) => {
                if let Some(conflict) = conflict_of(before, line) {
                    return Ok(Some(conflict));
                }
                if line.last > before.last {
                    longest = Some(line);
                }
            }
            None => longest = Some(line),
        }
    }
    Ok(None)
}

/// Returns the first code point that has two different values by these names, and their lines.
fn conflict_of_names(
    alloc: Global,
    file: &[u8],
    columns: Columns<'_>,
    choice: &Choice<'_>,
) -> Result<Option<Conflict>, AllocError> {
    find_conflict(alloc, file, columns, by_names(choice))
}

/// Returns the first code point that has two different texts in field 1, and their lines.
pub fn conflict_of_texts(alloc: Global, file: &[u8]) -> Result<Option<Conflict>, AllocError> {
    let columns = Columns::Field(1);
    let choice = own_choice(alloc, file, columns)?;
    conflict_of_names(alloc, file, columns, &choice)
}

/// Returns whether the line with this number has one of these names in field 1.
fn has_name(names: &ValueNames<'_>, file: &[u8], number: u64) -> bool {
    let text = field(1, content_of(line_at(file, number).unwrap_or(&[])));
    names.number_named(Matching::Loose, text).is_some()
}

/// Returns whether the two different texts of a conflict are names of this property's values in a
/// file of aliases. The lines then have that property, and the names may be those of one value.
pub fn has_values_of(
    alloc: Global,
    aliases: &[u8],
    property: &[u8],
    file: &[u8],
    conflict: Conflict,
) -> Result<bool, AllocError> {
    let names = alias_names(alloc, aliases, property)?;
    Ok(has_name(&names, file, conflict.first) && has_name(&names, file, conflict.second))
}
