//! Why the program fails: the line that it prints, and the status that it ends with.
use std::alloc::{AllocError, AllocFailed, Global};
use std::fmt;
use ucd_files::compression::Compression;

/// An input that is compressed.
#[derive(Drop)]
pub struct CompressedInput {
    /// What it was read from.
    pub name: String,
    /// How it is compressed.
    pub how: Compression,
    /// The option that names it, with a space, or nothing.
    pub option: &'static str,
}

/// Why the program fails.
#[derive(Drop)]
pub enum Error {
    /// The arguments are at fault, as this line says.
    Arguments(String),
    /// Something else is, as this line says.
    Said(String),
    /// An input is compressed. The line names the command, so its caller makes it.
    Compressed(CompressedInput),
    /// An allocation failed.
    Memory,
    /// The reader of standard output has closed the pipe.
    ClosedPipe,
}

impl From<AllocError> for Error {
    fn from(_error: AllocError) -> Error {
        Error::Memory
    }
}

impl<T: Drop> From<AllocFailed<T>> for Error {
    fn from(_error: AllocFailed<T>) -> Error {
        Error::Memory
    }
}

impl Error {
    /// Returns the line that is printed, or `None` if none is.
    pub fn line(&self) -> Option<&str> {
        match self {
            Error::Arguments(line) | Error::Said(line) => Some(line.as_str()),
            Error::Memory => Some("no memory"),
            Error::Compressed(_) | Error::ClosedPipe => None,
        }
    }

    /// Returns the status of `diff` if `is_diff`, for which 1 means a difference, and otherwise
    /// that of the other commands.
    pub fn status(&self, is_diff: bool) -> u8 {
        match self {
            Error::Arguments(_) => 2,
            Error::Said(_) | Error::Compressed(_) | Error::Memory if is_diff => 2,
            Error::Said(_) | Error::Compressed(_) | Error::Memory | Error::ClosedPipe => 1,
        }
    }
}

/// Returns the line about an input, an output or a word: `NAME: WHY`.
fn line_about<W: fmt::Display + Drop>(
    alloc: Global,
    name: &str,
    why: W,
) -> Result<String, AllocError> {
    let mut line = String::new(alloc);
    write!(line, "{name}: {why}")?;
    Ok(line)
}

/// Returns the fault with this line, or that of the allocation that failed.
pub fn said(line: Result<String, AllocError>) -> Error {
    match line {
        Ok(line) => Error::Said(line),
        Err(error) => Error::from(error),
    }
}

/// Returns the fault of an input, an output or a word.
pub fn about<W: fmt::Display + Drop>(alloc: Global, name: &str, why: W) -> Error {
    said(line_about(alloc, name, why))
}

/// Returns the fault of the arguments of a command.
pub fn about_arguments<W: fmt::Display + Drop>(alloc: Global, command: &str, why: W) -> Error {
    match line_about(alloc, command, why) {
        Ok(line) => Error::Arguments(line),
        Err(error) => Error::from(error),
    }
}
