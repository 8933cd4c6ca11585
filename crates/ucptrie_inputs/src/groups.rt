//! Groups of general categories, as `L`, each of which is the union of several values.
use std::alloc::{AllocError, Global};
use ucd_files::names::{Name, is_same_name};

/// The values of General_Category: the short and the long name.
static CATEGORIES: [(&str, &str); 30] = [
    ("Lu", "Uppercase_Letter"),
    ("Ll", "Lowercase_Letter"),
    ("Lt", "Titlecase_Letter"),
    ("Lm", "Modifier_Letter"),
    ("Lo", "Other_Letter"),
    ("Mn", "Nonspacing_Mark"),
    ("Mc", "Spacing_Mark"),
    ("Me", "Enclosing_Mark"),
    ("Nd", "Decimal_Number"),
    ("Nl", "Letter_Number"),
    ("No", "Other_Number"),
    ("Pc", "Connector_Punctuation"),
    ("Pd", "Dash_Punctuation"),
    ("Ps", "Open_Punctuation"),
    ("Pe", "Close_Punctuation"),
    ("Pi", "Initial_Punctuation"),
    ("Pf", "Final_Punctuation"),
    ("Po", "Other_Punctuation"),
    ("Sm", "Math_Symbol"),
    ("Sc", "Currency_Symbol"),
    ("Sk", "Modifier_Symbol"),
    ("So", "Other_Symbol"),
    ("Zs", "Space_Separator"),
    ("Zl", "Line_Separator"),
    ("Zp", "Paragraph_Separator"),
    ("Cc", "Control"),
    ("Cf", "Format"),
    ("Cs", "Surrogate"),
    ("Co", "Private_Use"),
    ("Cn", "Unassigned"),
];

/// The groups in table 12 of UAX #44: the short name, and each long name.
static GROUPS: [(&str, &str); 10] = [
    ("LC", "Cased_Letter"),
    ("L", "Letter"),
    ("M", "Mark"),
    ("M", "Combining_Mark"),
    ("N", "Number"),
    ("P", "Punctuation"),
    ("P", "punct"),
    ("S", "Symbol"),
    ("Z", "Separator"),
    ("C", "Other"),
];

/// Returns the short name of the group with this name, if there is one.
fn group_named(text: &str) -> Option<&'static str> {
    for (short, long) in GROUPS.iter() {
        if is_same_name(short.as_bytes(), text.as_bytes())
            || is_same_name(long.as_bytes(), text.as_bytes())
        {
            return Some(*short);
        }
    }
    None
}

/// Returns whether the value with this short name is in a group: `LC` has `Lu`, `Ll` and `Lt`, and
/// each other group has the values that start with its letter.
fn is_member(group: &str, short: &str) -> bool {
    match group {
        "LC" => matches!(short, "Lu" | "Ll" | "Lt"),
        _ => short.starts_with(group),
    }
}

/// Returns whether a name is that of a value in a group.
fn is_in_group(group: &str, name: &[u8]) -> bool {
    for (short, long) in CATEGORIES.iter() {
        let is_it = is_same_name(short.as_bytes(), name) || is_same_name(long.as_bytes(), name);
        if is_it && is_member(group, short) {
            return true;
        }
    }
    false
}

/// Returns whether a value has one of the names of the unassigned code points.
fn has_unassigned(names: &[Name<'_>]) -> bool {
    for name in names {
        if is_same_name(name.text, b"Cn") || is_same_name(name.text, b"Unassigned") {
            return true;
        }
    }
    false
}

/// Returns the numbers of the values in the group with this name, or none if no group has it.
/// `unlisted` is the number of code points without a line: they are unassigned, if no value has
/// that name.
pub fn numbers_in_group(
    alloc: Global,
    names: &[Name<'_>],
    text: &str,
    unlisted: u32,
) -> Result<Vec<u32>, AllocError> {
    let mut numbers = Vec::new(alloc);
    let Some(group) = group_named(text) else {
        return Ok(numbers);
    };
    for name in names {
        let Ok(number) = u32::try_from(name.number) else {
            continue;
        };
        if is_in_group(group, name.text) && !numbers.contains(&number) {
            numbers.push(number)?;
        }
    }
    if group == "C" && !has_unassigned(names) {
        numbers.push(unlisted)?;
    }
    Ok(numbers)
}
