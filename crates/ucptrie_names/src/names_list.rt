//! The names of values as lines `NUMBER;NAME`, for users of a table in a form without names.
ghost use Rattle.std.specs.Prelude.{◌≡◌, ◌++◌, [], IfOk, OnOk};
ghost use Rattle.std.specs.List.{fold};
ghost use Rattle.ucptrie_names.specs.NamesList.{named_line, names_list, with_longest};

use crate::value_names::name_length;
use std::alloc::{AllocError, Global};
use std::collections::BTreeMap;
use ucd_files::names::Name;
use ucptab_table::pattern::Number::Decimal;
use ucptab_table::pattern::push_number;

/// Sets the name of its number, unless the number has a name that is as long.
fn set_longest<'a>(
    longest: &mut BTreeMap<usize, &'a [u8]>,
    name: &Name<'a>,
) -> Result<(), AllocError>
    ensures { OnOk result (longest.new.entries ≡ with_longest longest.old.entries name.now) }
{
    if let Some(text) = longest.get(&name.number)
        && name_length(name.text) <= name_length(text)
    {
        return Ok(());
    }
    longest.insert(name.number, name.text)?;
    Ok(())
}

/// Returns the longest name of each number, in ascending order of the numbers.
fn longest_names<'a>(
    alloc: Global,
    names: &[Name<'a>],
) -> Result<BTreeMap<usize, &'a [u8]>, AllocError>
    ensures { IfOk result (λ longest. longest.entries ≡ fold with_longest [] names.now) }
{
    let mut longest = BTreeMap::new(alloc);
    let mut rest = names;
    while let [name, after @ ..] = rest {
        set_longest(&mut longest, name)?;
        rest = after;
    }
    Ok(longest)
}

/// Appends the line of a number.
fn push_line(
    alloc: Global,
    lines: &mut Vec<u8>,
    number: usize,
    name: &[u8],
) -> Result<(), AllocError>
    ensures { OnOk result
        (lines.new.items ≡ lines.old.items ++ named_line number name.now) }
{
    let mut start = String::new(alloc);
    push_number(&mut start, Decimal(number))?;
    start.push(';')?;
    lines.extend_from_slice(start.as_bytes())?;
    lines.extend_from_slice(name)?;
    lines.push(b'\n')?;
    Ok(())
}

/// Returns a line `NUMBER;NAME` for each number that has a name, in ascending order of the numbers,
/// as the bytes of a file. There are as many as there are numbers with a name.
///
/// Of several names of a number it is the longest, and of several of these the first, as in
/// [`enum_values`](crate::value_names::enum_values). It is written byte for byte. The empty name is
/// that of code points without a line.
///
/// # Errors
/// Returns [`AllocError`] if an allocation fails.
pub fn names_list(alloc: Global, names: &[Name<'_>]) -> Result<Vec<u8>, AllocError>
    ensures { IfOk result (λ lines. lines.items ≡ names_list names.now) }
{
    let longest = longest_names(alloc, names)?;
    let mut lines = Vec::new(alloc);
    for (number, name) in &longest {
        push_line(alloc, &mut lines, *number, name)?;
    }
    Ok(lines)
}
