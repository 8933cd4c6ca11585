//! The numbers that the arguments of `get` ask for.
use clap::ArgMatches;
use std::alloc::Global;
use ucptab_table::input::line_at;
use ucptab_table::message::line_message;
use ucptrie_inputs::error::{Error, about, about_arguments, said};
use ucptrie_inputs::streams::{input_name, text_at, without_mark};
use ucptrie_tables::asked::{AskedError, push_asked, push_asked_lines};

/// What a word or a line has to be.
const FORM: &str = "HEX, or HEX..HEX up to 10FFFF";

/// Returns the fault of a line that asks for no number.
fn unasked(alloc: Global, name: &str, text: &[u8], number: u64) -> Error {
    let line = line_at(text, number).unwrap_or(&[]);
    said(line_message(alloc, name, number, FORM, line))
}

/// Appends the numbers that the lines of a file ask for.
fn push_file(rt: &HostRuntime, asked: &mut Vec<u32>, path: &str) -> Result<(), Error> {
    let bytes = text_at(rt, path, "--from ")?;
    let text = without_mark(&bytes);
    match push_asked_lines(asked, text) {
        Ok(()) => Ok(()),
        Err(AskedError::Memory) => Err(Error::Memory),
        Err(AskedError::Line(number)) => {
            Err(unasked(rt.alloc(), input_name(path), text, number))
        }
    }
}

/// Appends the numbers that a word asks for.
fn push_word(rt: &HostRuntime, asked: &mut Vec<u32>, word: &str) -> Result<(), Error> {
    if push_asked(asked, word.as_bytes())? {
        return Ok(());
    }
    let why = "expected HEX, or HEX..HEX up to 10FFFF";
    Err(about(rt.alloc(), word, why))
}

/// Appends the numbers that words ask for.
fn push_words(rt: &HostRuntime, asked: &mut Vec<u32>, words: &[&str]) -> Result<(), Error> {
    for word in words {
        push_word(rt, asked, word)?;
    }
    Ok(())
}

/// Appends the numbers that the arguments ask for: those of the words, then those of the file.
fn push_all(rt: &HostRuntime, asked: &mut Vec<u32>, matches: &ArgMatches<'_>) -> Result<(), Error> {
    push_words(rt, asked, matches.get_strs("asked").unwrap_or(&[]))?;
    match matches.get_str("from") {
        Some(path) => push_file(rt, asked, path),
        None if asked.is_empty() => {
            let why = "expected HEX, HEX..HEX or --from FILE";
            Err(about_arguments(rt.alloc(), "arguments", why))
        }
        None => Ok(()),
    }
}

/// Returns the numbers that the arguments ask for.
pub fn asked(rt: &HostRuntime, matches: &ArgMatches<'_>) -> Result<Vec<u32>, Error> {
    let mut asked = Vec::new(rt.alloc());
    push_all(rt, &mut asked, matches)?;
    Ok(asked)
}
