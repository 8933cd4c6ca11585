//! Names and numbers of values from `PropertyValueAliases.txt`.
ghost use Rattle.std.specs.Prelude.{◌≡◌, ◌++◌, IfOk};
ghost use Rattle.std.specs.Option.{option_map};
ghost use Rattle.ucd_files.specs.ValueNames.{alias_names, follows_values, is_value_line, missing_alias, named, names_in, value_number};
ghost use Rattle.ucd_files.specs.Names.{pairs_of};

use crate::fields::{field, missing_of};
use crate::names::{is_same_name, short_decimal};
use crate::statement::{later_field, untagged};
use crate::value_names::ValueNames;
use std::alloc::{AllocError, Global};
use ucptab_table::input::first_line;
use ucptab_table::rows::{after, content_of};

/// Returns whether a line has names of one value of the property. A line with `|` in its comment
/// names a group of values.
#[tactic(auto, unfolding(crate::specs::ValueNames::is_value_line))]
fn is_value_line(property: &[u8], line: &[u8]) -> bool
    ensures { result ≡ is_value_line property.now line.now }
{
    is_same_name(field(0, content_of(line)), property) && !after(b'#', line).contains(&b'|')
}

/// Returns the number of the `k`-th value of a property, counted from 0: `k`, or the number in
/// field 1 if it is one.
#[tactic(auto, unfolding(crate::specs::ValueNames::value_number))]
fn value_number(k: usize, content: &[u8]) -> usize
    ensures { result ≡ value_number k content.now }
{
    match short_decimal(field(1, content)) {
        Some(number) => number as usize,
        None => k,
    }
}

/// Appends a name if it is not empty.
fn push_named<'a>(
    names: &mut ValueNames<'a>,
    number: usize,
    text: &'a [u8],
) -> Result<(), AllocError>
    ensures { IfOk result (λ _. pairs_of names.new
        ≡ pairs_of names.old ++ named number text.now) }
{
    if !text.is_empty() {
        names.push(number, text)?;
    }
    Ok(())
}

/// Appends the names in fields 1 to 4.
#[tactic(auto, unfolding(crate::specs::ValueNames::names_in))]
fn push_names<'a>(
    names: &mut ValueNames<'a>,
    number: usize,
    content: &'a [u8],
) -> Result<(), AllocError>
    ensures { IfOk result (λ _. pairs_of names.new
        ≡ pairs_of names.old ++ names_in number content.now) }
{
    push_named(names, number, field(1, content))?;
    push_named(names, number, field(2, content))?;
    push_named(names, number, field(3, content))?;
    push_named(names, number, field(4, content))
}

/// Returns the names and numbers of the values of a property, by the lines
/// `PROPERTY ; NAME ; ..` of `PropertyValueAliases.txt`. All names of a line have the same number:
/// how many values of the property come before it in the file, or the number in field 1 if it is
/// one, as for Canonical_Combining_Class. Lines for groups of values, as `L` of `gc`, are left out.
///
/// # Errors
/// Returns [`AllocError`] if an allocation fails.
pub fn alias_names<'a>(
    alloc: Global,
    input: &'a [u8],
    property: &[u8],
) -> Result<ValueNames<'a>, AllocError>
    ensures { IfOk result (λ names. pairs_of names ≡ alias_names property.now input.now) }
{
    let mut names = ValueNames::new(alloc);
    let mut k = 0usize;
    let mut rest = input;
    while let Some((line, after)) = first_line(rest) {
        rest = after;
        if is_value_line(property, line) {
            let content = content_of(line);
            push_names(&mut names, value_number(k, content), content)?;
            k += 1;
        }
    }
    Ok(names)
}

/// Returns whether the last line with content is one of the property, for the lines up to this one.
/// `follows` is the same for the lines before it.
#[tactic(auto, unfolding(crate::specs::ValueNames::follows_values))]
fn follows_values(property: &[u8], follows: bool, line: &[u8]) -> bool
    ensures { result ≡ follows_values property.now follows line.now }
{
    let content = content_of(line);
    if content.is_empty() {
        follows
    } else {
        is_same_name(field(0, content), property)
    }
}

/// Returns the value of the code points without a line, by `PropertyValueAliases.txt`: that in the
/// first `@missing` line that follows the lines of the property, with only lines without content
/// between them. Returns `None` if there is no such line, or if its value is not written as text,
/// as in `<none>`.
pub fn missing_alias<'a>(input: &'a [u8], property: &[u8]) -> Option<&'a [u8]>
    ensures { option_map (λ value. value.now) result ≡ missing_alias property.now input.now }
{
    let mut follows = false;
    let mut rest = input;
    while let Some((line, after)) = first_line(rest) {
        match missing_of(line) {
            Some(content) if follows => return untagged(later_field(content)),
            _ => follows = follows_values(property, follows, line),
        }
        rest = after;
    }
    None
}
