//! The files of aliases: the names of properties and of their values.
use crate::error::{Error, said};
use crate::properties::{push_listed, push_new};
use crate::streams::{text_at, without_mark};
use crate::unicode_files::are_names_of_one;
use clap::ArgMatches;
use std::alloc::{AllocError, Global};
use ucd_files::fields::field;
use ucd_files::names::is_same_name;
use ucd_files::title::title_of;
use ucd_files::value_names::ValueNames;
use ucptab_table::input::lines;
use ucptab_table::rows::content_of;

/// The files of aliases that the arguments name.
#[derive(Drop)]
pub struct Aliases {
    /// The lines of PropertyValueAliases.txt, or none.
    pub values: Vec<u8>,
    /// The lines of PropertyAliases.txt, or none.
    pub properties: Vec<u8>,
}

/// Returns whether a file of aliases names properties, and not their values.
fn names_properties(text: &[u8]) -> bool {
    match title_of(text) {
        Some(title) => title.starts_with(b"PropertyAliases".as_slice()),
        None => false,
    }
}

/// Appends the lines of a file of aliases, of which the last one may lack its end.
fn push_lines(lines: &mut Vec<u8>, text: &[u8]) -> Result<(), AllocError> {
    lines.extend_from_slice(text)?;
    lines.push(b'\n')?;
    Ok(())
}

/// Appends the lines of a file of aliases to those of its kind.
fn push_file(aliases: &mut Aliases, text: &[u8]) -> Result<(), AllocError> {
    if names_properties(text) {
        push_lines(&mut aliases.properties, text)
    } else {
        push_lines(&mut aliases.values, text)
    }
}

/// Reads the files of aliases that the arguments name.
pub fn named_aliases(rt: &HostRuntime, matches: &ArgMatches<'_>) -> Result<Aliases, Error> {
    let mut aliases = Aliases {
        values: Vec::new(rt.alloc()),
        properties: Vec::new(rt.alloc()),
    };
    for path in matches.get_strs("aliases").unwrap_or(&[]) {
        let text = text_at(rt, path, "--aliases ")?;
        push_file(&mut aliases, without_mark(&text))?;
    }
    Ok(aliases)
}

/// Returns whether one of the fields of a line is this name.
fn has_name(content: &[u8], name: &[u8]) -> bool {
    let last = content.iter().filter(|byte| **byte == b';').count();
    for n in 0..=last {
        if is_same_name(field(n, content), name) {
            return true;
        }
    }
    false
}

/// Returns the content of the first line of PropertyAliases.txt that has this name, or nothing.
fn line_of<'a>(aliases: &'a Aliases, property: &[u8]) -> &'a [u8] {
    for line in lines(&aliases.properties) {
        let content = content_of(line);
        if !content.is_empty() && has_name(content, property) {
            return content;
        }
    }
    &[]
}

/// Returns field `n` of the first line of a file that has a name of the property there, or `None` if
/// no line has one.
fn name_in<'f>(aliases: &Aliases, n: usize, file: &'f [u8], property: &[u8]) -> Option<&'f [u8]> {
    let all_names = line_of(aliases, property);
    for line in lines(file) {
        let name = field(n, content_of(line));
        let is_known = has_name(all_names, name) || are_names_of_one(property, name);
        if !name.is_empty() && is_known {
            return Some(name);
        }
    }
    None
}

/// Returns the name that the lines of a file have for a property, in field 1.
pub fn name_in_lines<'f>(aliases: &Aliases, file: &'f [u8], property: &[u8]) -> Option<&'f [u8]> {
    name_in(aliases, 1, file, property)
}

/// Returns the name that PropertyValueAliases.txt has for a property, or its name as it is given.
pub fn name_in_values<'a>(aliases: &'a Aliases, property: &'a [u8]) -> &'a [u8] {
    name_in(aliases, 0, aliases.values.as_slice(), property).unwrap_or(property)
}

/// Returns the properties in PropertyValueAliases.txt, in order.
fn properties_in(alloc: Global, aliases: &Aliases) -> Result<ValueNames<'_>, AllocError> {
    let mut names = ValueNames::new(alloc);
    for line in lines(&aliases.values) {
        push_new(&mut names, field(0, content_of(line)))?;
    }
    Ok(names)
}

/// Returns the line about a property of which no file of aliases has values.
fn unknown_line(alloc: Global, aliases: &Aliases, property: &str) -> Result<String, AllocError> {
    let names = properties_in(alloc, aliases)?;
    let mut line = String::new(alloc);
    write!(
        line,
        "{property}: the file of aliases has no value of this property"
    )?;
    if aliases.properties.is_empty() {
        line.push_str("; for long names give --aliases PropertyAliases.txt too")?;
    }
    push_listed(&mut line, names.as_slice())?;
    Ok(line)
}

/// Returns the fault of a property of which no file of aliases has values.
pub fn unknown_property(alloc: Global, aliases: &Aliases, property: &str) -> Error {
    said(unknown_line(alloc, aliases, property))
}
