//! Makes code point tries from tables of rows, writes them in the forms that other programs read,
//! and reads and shows them.
#![tactic(auto)]

mod arguments;
mod build;
mod columns;
mod combinations;
mod convert;
mod functions;
mod get_arguments;
mod heading;
mod join;
mod names;
mod output;
mod sets;
mod static_trie;
mod tables;
mod unicode_tables;
mod wide;
mod word_lists;

use crate::arguments::program_words;
use crate::build::build;
use crate::convert::convert;
use crate::get_arguments::asked;
use crate::heading::with_heading;
use crate::join::join;
use crate::names::test_name;
use crate::output::{deliver, target_of};
use crate::sets::set;
use crate::tables::table_at;
use crate::word_lists::word_list;
use clap::ArgMatches;
use clap::error::ErrorKind;
use std::alloc::{AllocError, Global};
use std::process::ExitCode;
use std::{env, io};
use ucptrie_inputs::compressed::compressed_line;
use ucptrie_inputs::error::{Error, about, about_arguments, said};
use ucptrie_inputs::list::list;
use ucptrie_inputs::number;
use ucptrie_inputs::offsets::{Start, start_of};
use ucptrie_inputs::progress::{report, started};
use ucptrie_inputs::streams::{bytes_at, input_name, put, read_twice, say, without_mark};
use ucptrie_tables::diff::differences_text;
use ucptrie_tables::explain::explained;
use ucptrie_tables::shown::{answered, shown};
use ucptrie_tables::table::Table;

/// Returns whether an input is standard input.
fn is_input(path: &str) -> bool {
    path == "-"
}

/// Tests that not both of two inputs are standard input, all of which the first one reads.
fn test_once(alloc: Global, first: &str, second: Option<&str>) -> Result<(), Error> {
    match second {
        Some(second) if is_input(first) && is_input(second) => Err(read_twice(alloc)),
        _ => Ok(()),
    }
}

/// Tests that not two of an input and the files of aliases are standard input.
fn test_inputs(alloc: Global, matches: &ArgMatches<'_>, path: &str) -> Result<(), Error> {
    let mut is_read = is_input(path);
    for name in matches.get_strs("aliases").unwrap_or(&[]) {
        if is_read && is_input(name) {
            return Err(read_twice(alloc));
        }
        is_read = is_read || is_input(name);
    }
    Ok(())
}

/// Returns the table that `build` or `convert` makes of a file, the set that `set` makes of it, or
/// the trie that `words` does. `name` is what the file was read from.
fn made(
    rt: &HostRuntime,
    command: &str,
    matches: &ArgMatches<'_>,
    name: &str,
    file: &[u8],
) -> Result<Vec<u8>, Error> {
    match command {
        "build" | "set" | "words" if file.is_empty() => {
            Err(about(rt.alloc(), name, "the input is empty"))
        }
        "build" => build(rt, matches, name, file),
        "set" => set(rt, matches, name, file),
        "words" => word_list(rt.alloc(), matches, name, file),
        _ => convert(rt, matches, name, file),
    }
}

/// Returns whether the input of a command may be binary and start with any bytes: the arguments say
/// that it is a serialized set or units, or give the offset of its trie.
fn may_be_binary(command: &str, matches: &ArgMatches<'_>) -> bool {
    match (command, matches.get_str("format")) {
        ("set", Some("serialized")) | ("words", Some("icu")) => true,
        ("set" | "convert", _) => number(matches, "offset").is_some(),
        _ => false,
    }
}

/// Returns the input of a command, in a text without a byte order mark at its start.
fn input_of<'f>(command: &str, matches: &ArgMatches<'_>, file: &'f [u8]) -> &'f [u8] {
    if may_be_binary(command, matches) {
        file
    } else {
        without_mark(file)
    }
}

/// Sends what a command makes of a file, or of standard input, to its target.
fn make(rt: &HostRuntime, command: &str, matches: &ArgMatches<'_>) -> Result<(), Error> {
    let start = started(rt);
    let target = target_of(rt.alloc(), matches)?;
    test_name(rt.alloc(), matches)?;
    let path = matches.get_str("file").unwrap_or("-");
    test_inputs(rt.alloc(), matches, path)?;
    let file = bytes_at(rt, path)?;
    report(rt, start, "read", file.len());
    let input = input_of(command, matches, &file);
    let bytes = made(rt, command, matches, input_name(path), input)?;
    report(rt, start, "made", bytes.len());
    let whole = with_heading(rt.alloc(), command, matches, path, input, bytes)?;
    let is_binary = matches.get_str("as") == Some("icu");
    deliver(rt, target, &whole, is_binary)
}

/// Prints a text.
fn put_text(rt: &HostRuntime, text: Result<String, AllocError>) -> Result<(), Error> {
    let text = text?;
    put(rt, text.as_bytes())
}

/// Prints what a table is, in lines.
fn show(rt: &HostRuntime, matches: &ArgMatches<'_>) -> Result<(), Error> {
    let table = table_at(rt, matches, "file", start_of(matches))?;
    put_text(rt, shown(rt.alloc(), &table))
}

/// Prints by `get` the value of each asked number in a table, or by `explain` how its look-up goes,
/// in lines.
fn print_values(
    rt: &HostRuntime,
    command: &str,
    table: &Table,
    asked: &[u32],
) -> Result<(), Error> {
    match command {
        "get" => put_text(rt, answered(rt.alloc(), table, asked)),
        _ => put_text(rt, explained(rt.alloc(), table, asked)),
    }
}

/// Prints by `get` or `explain` what the arguments ask for.
fn get(rt: &HostRuntime, command: &str, matches: &ArgMatches<'_>) -> Result<(), Error> {
    let path = matches.get_str("file").unwrap_or("-");
    test_once(rt.alloc(), path, matches.get_str("from"))?;
    let asked = asked(rt, matches)?;
    let table = table_at(rt, matches, "file", start_of(matches))?;
    print_values(rt, command, &table, &asked)
}

/// Prints the ranges in which two tables differ, in lines. Returns 1 if there is a line, and 0 if
/// there is none.
fn print_differences(rt: &HostRuntime, first: &Table, second: &Table) -> Result<u8, Error> {
    let text = differences_text(rt.alloc(), &first.trie, &second.trie)?;
    put(rt, text.as_bytes())?;
    Ok(if text.is_empty() { 0 } else { 1 })
}

/// Prints the ranges in which a table and that of the second file differ, and returns the status.
fn diff_from(rt: &HostRuntime, matches: &ArgMatches<'_>, first: &Table) -> Result<u8, Error> {
    let second = table_at(rt, matches, "second", Start::Only)?;
    print_differences(rt, first, &second)
}

/// Prints the ranges in which the tables of two files differ, and returns the status.
fn diff(rt: &HostRuntime, matches: &ArgMatches<'_>) -> Result<u8, Error> {
    test_once(
        rt.alloc(),
        matches.get_str("first").unwrap_or("-"),
        matches.get_str("second"),
    )?;
    let first = table_at(rt, matches, "first", Start::Only)?;
    diff_from(rt, matches, &first)
}

/// Does what a command asks for, and returns the status.
fn run(rt: &HostRuntime, name: &str, matches: &ArgMatches<'_>) -> Result<u8, Error> {
    match name {
        "build" | "convert" | "set" | "words" => make(rt, name, matches)?,
        "join" => join(rt, matches)?,
        "list" => list(rt, matches)?,
        "show" => show(rt, matches)?,
        "get" | "explain" => get(rt, name, matches)?,
        _ => return diff(rt, matches),
    }
    Ok(0)
}

/// Prints a fault, and returns its status.
fn failed(rt: &HostRuntime, fault: &Error, is_diff: bool) -> u8 {
    if let Some(line) = fault.line() {
        say(rt, line);
    }
    fault.status(is_diff)
}

/// Prints help or the version, or why the arguments are rejected, and returns the status. A failed
/// allocation is not a fault of the arguments.
fn not_taken(rt: &HostRuntime, error: &clap::Error) -> u8 {
    if matches!(error.kind(), ErrorKind::OutOfMemory) {
        return failed(rt, &Error::Memory, false);
    }
    match error.print(rt) {
        Ok(()) => error.exit_code() as u8,
        Err(error) => failed(rt, &about(rt.alloc(), "standard output", error), false),
    }
}

/// Returns the words of the command line.
fn given_words(rt: &HostRuntime) -> Result<Vec<String>, Error> {
    match env::args(rt) {
        Ok(words) => Ok(words.collect(rt.alloc())?),
        Err(error) if matches!(error.kind(), io::ErrorKind::OutOfMemory) => Err(Error::Memory),
        Err(_) => Err(about_arguments(rt.alloc(), "arguments", "expected UTF-8")),
    }
}

/// Does what the command asks for, and returns the status.
fn status_of(rt: &HostRuntime, matches: &ArgMatches<'_>) -> u8 {
    let Some((name, matches)) = matches.subcommand() else {
        return 2;
    };
    match run(rt, name, matches) {
        Ok(status) => status,
        Err(Error::Compressed(input)) => {
            let fault = said(compressed_line(rt.alloc(), name, &input));
            failed(rt, &fault, name == "diff")
        }
        Err(fault) => failed(rt, &fault, name == "diff"),
    }
}

/// Does what the words ask for, and returns the status.
fn status(rt: &HostRuntime, words: &[String]) -> u8 {
    let Ok(command) = program_words(rt.alloc()) else {
        return failed(rt, &Error::Memory, false);
    };
    match command.try_get_matches_from(words) {
        Ok(matches) => status_of(rt, &matches),
        Err(error) => not_taken(rt, &error),
    }
}

fn main(rt: HostRuntime) -> ExitCode {
    ExitCode::from(match given_words(&rt) {
        Ok(words) => status(&rt, &words),
        Err(fault) => failed(&rt, &fault, false),
    })
}
