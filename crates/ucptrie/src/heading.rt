//! The first lines of source: the command that makes it, and what its input says of itself.
use crate::arguments::{Argument, arguments_of};
use crate::columns::Input;
use clap::ArgMatches;
use clap::builder::ValueParser;
use std::alloc::{AllocError, Global};
use ucd_files::title::{note_of, title_of};
use ucptab_table::input::lines;
use ucptrie_inputs::number;
use ucptrie_inputs::words::{push_in_line, push_word};

/// Returns the name of a file without its folders. `-` is standard input.
fn base_name(path: &str) -> &str {
    path.rsplit(['/', '\\']).next().unwrap_or(path)
}

/// Appends an option of the command with its value.
fn push_option(text: &mut String, id: &str, value: &str) -> Result<(), AllocError> {
    text.push_str(" --")?;
    text.push_str(id)?;
    text.push(' ')?;
    push_word(text, value)
}

/// Appends the options that name the files of aliases, without their folders.
fn push_aliases(text: &mut String, matches: &ArgMatches<'_>) -> Result<(), AllocError> {
    for path in matches.get_strs("aliases").unwrap_or(&[]) {
        push_option(text, "aliases", base_name(path))?;
    }
    Ok(())
}

/// Appends the files of a join, without their folders, and their properties.
fn push_files(text: &mut String, matches: &ArgMatches<'_>) -> Result<(), AllocError> {
    for path in matches.get_strs("files").unwrap_or(&[]) {
        text.push(' ')?;
        push_word(text, base_name(path))?;
    }
    Ok(())
}

/// Appends an option with a number, if it is given.
fn push_number(text: &mut String, matches: &ArgMatches<'_>, id: &str) -> Result<(), AllocError> {
    match number(matches, id) {
        Some(number) => write!(text, " --{id} {number}"),
        None => Ok(()),
    }
}

/// Appends an option, if it is given and its value is not the default.
fn push_text(
    text: &mut String,
    matches: &ArgMatches<'_>,
    id: &str,
    default: &[&str],
) -> Result<(), AllocError> {
    match matches.get_str(id) {
        Some(value) if !default.contains(&value) => push_option(text, id, value),
        _ => Ok(()),
    }
}

/// Appends an argument of the command, unless it only says where the output goes.
fn push_argument(
    text: &mut String,
    matches: &ArgMatches<'_>,
    argument: &Argument,
) -> Result<(), AllocError> {
    match (argument.id, argument.values) {
        ("output" | "check", _) => Ok(()),
        ("file", _) => {
            text.push(' ')?;
            push_word(text, base_name(matches.get_str("file").unwrap_or("-")))
        }
        ("files", _) => push_files(text, matches),
        ("aliases", _) => push_aliases(text, matches),
        (id, ValueParser::Signed(_, _)) => push_number(text, matches, id),
        (id, _) => push_text(text, matches, id, argument.default),
    }
}

/// Appends the line with the command. It depends on what the command makes, and not on how it was
/// typed: it has the input's name without folders, then the options in the order of the help, each
/// as `--NAME VALUE`, without defaults and without those that name the output. So `--check` expects
/// what `--output` wrote, in whichever folder.
fn push_command(
    text: &mut String,
    command: &str,
    matches: &ArgMatches<'_>,
) -> Result<(), AllocError> {
    text.push_str("// ucptrie ")?;
    text.push_str(command)?;
    for argument in arguments_of(command) {
        push_argument(text, matches, argument)?;
    }
    text.push('\n')
}

/// Appends what the input says, if it is text.
fn push_note(text: &mut String, mark: &str, note: &[u8]) -> Result<(), AllocError> {
    let Ok(note) = str::from_utf8(note) else {
        return Ok(());
    };
    text.push_str(mark)?;
    for c in note.chars() {
        push_in_line(text, c)?;
    }
    Ok(())
}

/// Appends the date or the versions that an input says.
fn push_notes(text: &mut String, input: &[u8]) -> Result<(), AllocError> {
    for line in lines(input) {
        if let Some(note) = note_of(line) {
            push_note(text, ", ", note)?;
        }
    }
    Ok(())
}

/// Appends what an input says of itself, as a list in one line: its title, or else the file's name,
/// and its date or its versions. Appends nothing about standard input without a title.
fn push_origin(text: &mut String, path: &str, input: &[u8]) -> Result<(), AllocError> {
    let name = match title_of(input) {
        Some(title) => title,
        None if path == "-" => return Ok(()),
        None => base_name(path).as_bytes(),
    };
    push_note(text, "// From ", name)?;
    push_notes(text, input)?;
    // A `\` at the end of a line would continue the comment in C.
    text.push_str(".\n")
}

/// Returns whether the arguments ask for source.
fn is_source(matches: &ArgMatches<'_>) -> bool {
    matches!(
        matches.get_str("as"),
        Some("bks" | "c" | "rust" | "c-frozen" | "rust-frozen" | "rust-static")
    )
}

/// Returns the first lines of source that a command makes. `path` is what its input was read from.
fn heading(
    alloc: Global,
    command: &str,
    matches: &ArgMatches<'_>,
    path: &str,
    input: &[u8],
) -> Result<String, AllocError> {
    let mut text = String::new(alloc);
    push_command(&mut text, command, matches)?;
    push_origin(&mut text, path, input)?;
    Ok(text)
}

/// Returns what a command writes, with the first lines before it if it is source.
pub fn with_heading(
    alloc: Global,
    command: &str,
    matches: &ArgMatches<'_>,
    path: &str,
    input: &[u8],
    bytes: Vec<u8>,
) -> Result<Vec<u8>, AllocError> {
    if !is_source(matches) {
        return Ok(bytes);
    }
    let mut whole = heading(alloc, command, matches, path, input)?.into_bytes();
    whole.extend_from_slice(&bytes)?;
    Ok(whole)
}

/// Returns the first lines of source that `join` makes of these inputs.
fn headings(
    alloc: Global,
    matches: &ArgMatches<'_>,
    inputs: &[Input<'_>],
) -> Result<String, AllocError> {
    let mut text = String::new(alloc);
    push_command(&mut text, "join", matches)?;
    for input in inputs {
        push_origin(&mut text, input.path, &input.bytes)?;
    }
    Ok(text)
}

/// Returns what `join` writes, with the first lines before it if it is source.
pub fn with_headings(
    alloc: Global,
    matches: &ArgMatches<'_>,
    inputs: &[Input<'_>],
    bytes: Vec<u8>,
) -> Result<Vec<u8>, AllocError> {
    if !is_source(matches) {
        return Ok(bytes);
    }
    let mut whole = headings(alloc, matches, inputs)?.into_bytes();
    whole.extend_from_slice(&bytes)?;
    Ok(whole)
}
