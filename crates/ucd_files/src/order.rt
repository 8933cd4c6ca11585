//! Names in order of first appearance.
ghost use Rattle.std.specs.Prelude.{◌≡◌, IfOk};
ghost use Rattle.std.specs.List.{filter_map};
ghost use Rattle.std.specs.Option.{option_map};
ghost use Rattle.std.specs.Str.Lines.{lines};
ghost use Rattle.ucd_files.specs.ValueNames.{names_after, text_of_line, with_name};
ghost use Rattle.ucd_files.specs.Names.{pairs_of};

use crate::fields::missing_of;
use crate::names::Matching;
use crate::statement::{Columns, content_in, missing_text, value_text};
use crate::value_names::ValueNames;
use std::alloc::AllocError;
use ucptab_table::input::first_line;

/// Returns the text of a line's value, if it has one that is not empty.
#[tactic(auto, unfolding(crate::specs::ValueNames::text_of_line))]
pub fn text_of_line<'t>(columns: Columns<'_>, line: &'t [u8]) -> Option<&'t [u8]>
    ensures { option_map (λ text. text.now) result ≡ text_of_line columns.entry line.now }
{
    let text = match missing_of(line) {
        Some(content) => missing_text(columns, content)?,
        None => value_text(columns, content_in(columns, line))?,
    };
    if text.is_empty() {
        return None;
    }
    Some(text)
}

/// Appends a name with the next number, unless it is known.
#[tactic(auto, using(crate::proofs::KnownNames::with_new, crate::proofs::KnownNames::with_known))]
pub(crate) fn push_new<'a>(names: &mut ValueNames<'a>, text: &'a [u8]) -> Result<(), AllocError>
    ensures { IfOk result
        (λ _. pairs_of names.new ≡ with_name (pairs_of names.old) text.now) }
{
    if names.number_named(Matching::Exact, text).is_none() {
        let number = names.as_slice().len();
        names.push(number, text)?;
    }
    Ok(())
}

/// Appends the names of the values in a file, `@missing` lines included, in order of first
/// appearance. The number of each is how many names come before it.
///
/// Lines are not tested: [`read_statements`](crate::read::read_statements) does that.
///
/// # Errors
/// Returns [`AllocError`] if an allocation fails.
pub fn names_in_order<'a>(
    input: &'a [u8],
    columns: Columns<'_>,
    names: ValueNames<'a>,
) -> Result<ValueNames<'a>, AllocError>
    ensures { IfOk result (λ all. pairs_of all ≡ names_after (pairs_of names.entry)
        (filter_map (text_of_line columns.entry) (lines input.now))) }
{
    let mut names = names;
    let mut rest = input;
    while let Some((line, after)) = first_line(rest) {
        rest = after;
        if let Some(text) = text_of_line(columns, line) {
            push_new(&mut names, text)?;
        }
    }
    Ok(names)
}
