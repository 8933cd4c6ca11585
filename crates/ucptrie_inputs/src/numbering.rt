//! How the values of a file become numbers, by the arguments.
use crate::aliases::{Aliases, name_in_values, unknown_property};
use crate::error::{Error, about};
use clap::ArgMatches;
use std::alloc::Global;
use ucd_files::choice::{Choice, NumberingKind, alias_choice, numbering_of, own_choice};
use ucd_files::names::Numbering;
use ucd_files::statement::Columns;

/// A file of the Unicode Character Database.
#[derive(Drop)]
pub struct UnicodeFile<'f> {
    /// What it was read from.
    pub name: &'f str,
    /// Its bytes.
    pub bytes: &'f [u8],
    /// Where its lines have their values.
    pub columns: Columns<'f>,
    /// The files of aliases that the arguments name.
    pub aliases: Aliases,
}

/// Returns the names of the property's values in the file of aliases, and what they are.
fn choice_of_aliases<'f>(
    alloc: Global,
    matches: &ArgMatches<'_>,
    file: &'f UnicodeFile<'f>,
) -> Result<Choice<'f>, Error> {
    let Some(property) = matches.get_str("property") else {
        let why = "--aliases needs --property, the property whose values are named";
        return Err(about(alloc, "arguments", why));
    };
    let aliases = &file.aliases;
    let name = name_in_values(aliases, property.as_bytes());
    let choice = alias_choice(alloc, &aliases.values, name, file.columns)?;
    if choice.names.as_slice().is_empty() {
        return Err(unknown_property(alloc, aliases, property));
    }
    Ok(choice)
}

/// Returns the names of the values of a file, and what they are: those in the file of aliases, if
/// the arguments name one, and else those in the file itself.
pub fn choice_of<'f>(
    alloc: Global,
    matches: &ArgMatches<'_>,
    file: &'f UnicodeFile<'f>,
) -> Result<Choice<'f>, Error> {
    if file.aliases.values.is_empty() {
        return Ok(own_choice(alloc, file.bytes, file.columns)?);
    }
    choice_of_aliases(alloc, matches, file)
}

/// Returns the kind of numbering that the arguments ask for.
fn asked_numbering(matches: &ArgMatches<'_>) -> Option<NumberingKind> {
    match matches.get_str("values") {
        Some("decimal") => Some(NumberingKind::Decimal),
        Some("hexadecimal") => Some(NumberingKind::Hexadecimal),
        Some("set") => Some(NumberingKind::One),
        Some(_) => Some(NumberingKind::Names),
        None => None,
    }
}

/// Returns how the values of a file become numbers.
pub fn numbering<'n>(
    matches: &ArgMatches<'_>,
    file: &UnicodeFile<'_>,
    choice: &'n Choice<'n>,
) -> Numbering<'n> {
    numbering_of(asked_numbering(matches), file.bytes, file.columns, choice)
}
