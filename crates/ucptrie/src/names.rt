//! Names in source, and lists of the names of values.
use clap::ArgMatches;
use std::alloc::{AllocError, Global};
use ucd_files::choice::{Choice, ValueKind};
use ucd_files::names::{Name, Numbering};
use ucptrie_inputs::error::{Error, about};
use ucptrie_inputs::numbering::{UnicodeFile, numbering};
use ucptrie_inputs::streams::say;
use ucptrie_names::value_names::MOST;
use ucptrie_tables::source::is_name;

/// The words that cannot name a module in Rust: its keywords, including the reserved ones, and `_`.
static RESERVED_BY_RUST: [&str; 53] = [
    "_", "abstract", "as", "async", "await", "become", "box", "break", "const", "continue",
    "crate", "do", "dyn", "else", "enum", "extern", "false", "final", "fn", "for", "gen", "if",
    "impl", "in", "let", "loop", "macro", "match", "mod", "move", "mut", "override", "priv", "pub",
    "ref", "return", "self", "Self", "static", "struct", "super", "trait", "true", "try", "type",
    "typeof", "unsafe", "unsized", "use", "virtual", "where", "while", "yield",
];

/// What the source in Rust uses and a module of the same name would hide: two names of the standard
/// library, and the `rustfmt` of `#[rustfmt::skip]`.
static USED_BY_SOURCE: [&str; 5] = ["bekstaudi", "core", "Option", "Result", "rustfmt"];

/// Returns why a name can't be that of a module in Rust, or `None` if it can.
fn why_no_module(name: &str) -> Option<&'static str> {
    if RESERVED_BY_RUST.contains(&name) {
        return Some("a reserved word of Rust");
    }
    if USED_BY_SOURCE.contains(&name) {
        return Some("a name that the source in Rust uses");
    }
    None
}

/// Returns whether a name can't be that of a function in Rust.
pub fn is_reserved(name: &str) -> bool {
    RESERVED_BY_RUST.contains(&name)
}

/// Returns whether `bekstaudi.h` may have a name that starts with this one and `_`.
fn is_of_header(name: &str) -> bool {
    name == "bks" || name.starts_with("bks_")
}

/// Returns the name in source that the arguments give.
pub fn name_in<'a>(matches: &ArgMatches<'a>) -> &'a str {
    matches.get_str("name").unwrap_or("table")
}

/// Tests whether each name in source can start with that of the arguments, and whether in Rust it
/// can be that of a module.
pub fn test_name(alloc: Global, matches: &ArgMatches<'_>) -> Result<(), Error> {
    let name = name_in(matches);
    if !is_name(name) {
        let why = "expected letters, digits and _, not starting with a digit";
        return Err(about(alloc, name, why));
    }
    if matches.get_str("as") == Some("bks") && is_of_header(name) {
        return Err(about(alloc, name, "a name that bekstaudi.h may use"));
    }
    if !matches!(
        matches.get_str("as"),
        Some("rust" | "rust-frozen" | "rust-static")
    ) {
        return Ok(());
    }
    match why_no_module(name) {
        Some(why) => Err(about(alloc, name, why)),
        None => Ok(()),
    }
}

/// Returns whether the arguments ask for the list of the names of values.
pub fn is_list(matches: &ArgMatches<'_>) -> bool {
    matches.get_str("as") == Some("names")
}

/// Tests whether a list of names has any, if the arguments ask for one. `name` is what the values
/// were read from.
pub fn expect_names(
    alloc: Global,
    matches: &ArgMatches<'_>,
    name: &str,
    bytes: &[u8],
) -> Result<(), Error> {
    if is_list(matches) && bytes.is_empty() {
        let why = "expected values with names for --as names, found only numbers";
        return Err(about(alloc, name, why));
    }
    Ok(())
}

/// Returns the line about names of which source has no enum.
fn many_line(alloc: Global, name: &str, count: usize) -> Result<String, AllocError> {
    let mut line = String::new(alloc);
    write!(
        line,
        "{name}: {count} names of values, and an enum has at most {MOST}: "
    )?;
    line.push_str("the source has no names; --as names writes them")?;
    Ok(line)
}

/// Says on standard error that source has no enum, if the arguments ask for source and the values
/// have too many names. `name` is what they were read from.
pub fn say_many(
    rt: &HostRuntime,
    matches: &ArgMatches<'_>,
    name: &str,
    names: &[Name<'_>],
) -> Result<(), AllocError> {
    let is_source = matches!(
        matches.get_str("as"),
        Some("bks" | "c" | "rust" | "rust-static")
    );
    if is_source && names.len() > MOST {
        say(rt, &many_line(rt.alloc(), name, names.len())?);
    }
    Ok(())
}

/// Says on standard error that source has no enum of the values of a file, as [`say_many`] does.
pub fn say_many_in(
    rt: &HostRuntime,
    matches: &ArgMatches<'_>,
    file: &UnicodeFile<'_>,
    choice: &Choice<'_>,
) -> Result<(), AllocError> {
    let is_binary = matches!(choice.kind, ValueKind::Binary);
    if matches!(numbering(matches, file, choice), Numbering::Names(_, _)) && !is_binary {
        return say_many(rt, matches, file.name, choice.names.as_slice());
    }
    Ok(())
}
