//! What is said of a line at fault in a file of the Unicode Character Database.
use crate::error::{Error, about, said};
use std::alloc::{AllocError, Global};
use ucd_files::error::{FileError, LineError};
use ucd_files::fields::missing_of;
use ucd_files::names::Numbering;
use ucptab_table::input::line_at;
use ucptab_table::message::line_message;

/// Returns what was expected of a line whose values become numbers in this way.
fn expected(fault: LineError, numbering: Numbering<'_>) -> &'static str {
    match (fault, numbering) {
        (LineError::UnknownValue, Numbering::Decimal) => "a decimal number of at most 32 bits",
        (LineError::UnknownValue, Numbering::Hexadecimal) => {
            "a hexadecimal number of at most 32 bits"
        }
        (LineError::UnknownValue, _) => "a value that the file of aliases names",
        _ => fault.expected(),
    }
}

/// Returns how a line is read whose value is no number.
fn advice(fault: LineError, numbering: Numbering<'_>, line: &[u8]) -> &'static str {
    match (fault, numbering) {
        (LineError::UnknownValue, Numbering::Decimal | Numbering::Hexadecimal) => {
            if missing_of(line).is_some() {
                ": give --property and --aliases PropertyValueAliases.txt, which has its number"
            } else {
                ": --values names takes each value as a name"
            }
        }
        _ => "",
    }
}

/// Returns the message about the fault of a line, by its number, counted from 1.
fn fault_line(
    alloc: Global,
    name: &str,
    file: &[u8],
    number: u64,
    fault: LineError,
    numbering: Numbering<'_>,
) -> Result<String, AllocError> {
    let line = line_at(file, number).unwrap_or(&[]);
    let mut text = line_message(alloc, name, number, expected(fault, numbering), line)?;
    text.push_str(advice(fault, numbering, line))?;
    Ok(text)
}

/// Returns the fault of a file of the Unicode Character Database. `name` is what it was read from.
/// `numbering` is how its values become numbers.
pub fn file_fault(
    alloc: Global,
    name: &str,
    file: &[u8],
    numbering: Numbering<'_>,
    fault: FileError,
) -> Error {
    match fault {
        FileError::Memory => Error::Memory,
        FileError::Unfinished => about(alloc, name, FileError::Unfinished),
        FileError::Line(number, fault) => {
            said(fault_line(alloc, name, file, number, fault, numbering))
        }
    }
}
