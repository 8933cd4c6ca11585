//! What the values of a file are, and how they become numbers.
ghost use Rattle.std.specs.Prelude.{◌≡◌, ◌++◌, ℕ, List, IfOk, map, true};
ghost use Rattle.ucd_files.specs.Choices.{alias_kind, are_marked, are_yes_or_no, binary_names, is_binary, is_names, is_no, is_pair_file, is_pair_title, is_set, is_yes_or_no, matching_of, names_of_kind, number_by, numbering_kind, own_kind, own_names, shown_numbering, with_number};
ghost use Rattle.ucd_files.specs.Names.{is_by_names, number_of, pairs_of};
ghost use Rattle.ucd_files.specs.ValueNames.{alias_names};

use crate::aliases::alias_names;
use crate::kind::{are_code_points, are_decimal, has_missing_lines, have_leading_zero};
use crate::names::{Matching, Name, Numbering, is_same_name};
use crate::order::names_in_order;
use crate::statement::Columns;
use crate::title::title_of;
use crate::value_names::ValueNames;
use std::alloc::{AllocError, Global};

/// What the values of a file are.
#[derive(Clone, Copy, Debug, PartialEq, Eq)]
pub enum ValueKind {
    /// The lines are a set, and have no other value.
    Set,
    /// True and false, which are 1 and 0.
    Binary,
    /// Values that the file of aliases names.
    Aliases,
    /// Values that only the file itself names.
    Own,
}

/// The names of values, with their numbers, and what the values are.
#[derive(Debug, Drop)]
pub struct Choice<'f> {
    pub names: ValueNames<'f>,
    pub kind: ValueKind,
}

/// How the texts of values become numbers, without the names: the kinds of [`Numbering`].
#[derive(Clone, Copy, Debug, PartialEq, Eq)]
pub enum NumberingKind {
    /// Each value is a decimal number: [`Numbering::Decimal`].
    Decimal,
    /// Each value is a hexadecimal number: [`Numbering::Hexadecimal`].
    Hexadecimal,
    /// Each value is 1, whatever its text is: [`Numbering::One`].
    One,
    /// Each value is a name: [`Numbering::Names`].
    Names,
}

/// Returns whether a name means false.
#[tactic(auto, unfolding(crate::specs::Choices::is_no))]
fn is_no(name: &[u8]) -> bool
    ensures { result ≡ is_no name.now }
{
    is_same_name(name, b"N")
        || is_same_name(name, b"No")
        || is_same_name(name, b"F")
        || is_same_name(name, b"False")
}

/// Returns whether a name is `Y` or `N`.
#[tactic(auto, unfolding(crate::specs::Choices::is_yes_or_no))]
fn is_yes_or_no(name: &[u8]) -> bool
    ensures { result ≡ is_yes_or_no name.now }
{
    is_same_name(name, b"Y") || is_same_name(name, b"N")
}

/// Returns whether the lines have only code points, or the only value of a property is the property
/// itself, as in `PropList.txt`.
#[tactic(auto, unfolding(crate::specs::Choices::is_set))]
fn is_set(columns: Columns<'_>, names: &[Name<'_>]) -> bool
    ensures { result ≡ is_set columns.entry (pairs_of names.now) }
{
    match (columns, names) {
        (Columns::Field(0), _) => true,
        (Columns::Property(property), [value]) => is_same_name(value.text, property),
        (Columns::Property(property), [none, value]) => {
            none.text.is_empty() && is_same_name(value.text, property)
        }
        _ => false,
    }
}

/// Returns whether each name is `Y` or `N`, and there is one.
#[tactic(auto, using(crate::proofs::ChoiceLemmas::all_yes_or_no))]
fn are_yes_or_no(names: &[Name<'_>]) -> bool
    ensures { result ≡ are_yes_or_no (pairs_of names.now) }
{
    for name in names {
        if !is_yes_or_no(name.text) {
            return false;
        }
    }
    !names.is_empty()
}

/// Returns whether the values are true and false: those of Bidi_Mirrored in `UnicodeData.txt` are
/// `Y` and `N`; those of a property in a file of several can be the property itself and, in an
/// `@missing` line, `No`.
#[tactic(auto, unfolding(crate::specs::Choices::is_binary))]
fn is_binary(columns: Columns<'_>, names: &[Name<'_>]) -> bool
    ensures { result ≡ is_binary columns.entry (pairs_of names.now) }
{
    match (columns, names) {
        (Columns::UnicodeData(_), [_, values @ ..]) => are_yes_or_no(values),
        (Columns::Property(property), [first, second]) => {
            is_no(first.text) && is_same_name(second.text, property)
                || is_no(second.text) && is_same_name(first.text, property)
        }
        _ => false,
    }
}

/// Returns what values are that only the file itself names.
#[tactic(auto, unfolding(crate::specs::Choices::own_kind))]
fn own_kind(columns: Columns<'_>, names: &[Name<'_>]) -> ValueKind
    ensures { result ≡ own_kind columns.entry (pairs_of names.now) }
{
    if is_set(columns, names) {
        ValueKind::Set
    } else if is_binary(columns, names) {
        ValueKind::Binary
    } else {
        ValueKind::Own
    }
}

/// Returns what values are that the file of aliases names.
#[tactic(auto, unfolding(crate::specs::Choices::alias_kind))]
fn alias_kind(columns: Columns<'_>, names: &[Name<'_>]) -> ValueKind
    ensures { result ≡ alias_kind columns.entry (pairs_of names.now) }
{
    if is_set(columns, names) {
        ValueKind::Set
    } else {
        ValueKind::Aliases
    }
}

/// Returns the names of the values in a file, in order of first appearance. The first number is 0
/// if the file says which value code points without a line have. Otherwise it is 1, and 0 is for
/// these.
#[tactic(auto, unfolding(crate::specs::Choices::missing_name))]
fn own_names<'f>(
    alloc: Global,
    input: &'f [u8],
    columns: Columns<'_>,
) -> Result<ValueNames<'f>, AllocError>
    ensures { IfOk result (λ names. pairs_of names ≡ own_names columns.entry input.now) }
{
    let mut names = ValueNames::new(alloc);
    if !has_missing_lines(input, columns) {
        names.push(0, b"")?;
    }
    names_in_order(input, columns, names)
}

/// Appends names with this number.
fn push_all<'f>(
    names: &mut ValueNames<'f>,
    number: usize,
    texts: &[&'f [u8]],
) -> Result<(), AllocError>
    ensures { IfOk result (λ _. pairs_of names.new
        ≡ pairs_of names.old ++ with_number number (map (λ text. text.now) texts.now)) }
{
    for text in texts {
        names.push(number, text)?;
    }
    Ok(())
}

/// Returns the names of true and false, of which the property itself is one of true.
fn binary_names<'f>(alloc: Global, columns: Columns<'f>) -> Result<ValueNames<'f>, AllocError>
    ensures { IfOk result (λ names. pairs_of names ≡ binary_names columns.entry) }
{
    let mut names = ValueNames::new(alloc);
    if let Columns::Property(property) = columns {
        names.push(1, property)?;
    }
    push_all(&mut names, 0, &[b"N", b"No", b"F", b"False"])?;
    push_all(&mut names, 1, &[b"Y", b"Yes", b"T", b"True"])?;
    Ok(names)
}

/// Returns what the values of a file are that only the file itself names, and their names in order
/// of first appearance. The first number is 0 if the file says which value code points without a
/// line have. Otherwise it is 1, and 0 is for these. True and false have all their names, not only
/// those in the file.
///
/// # Errors
/// Returns [`AllocError`] if an allocation fails.
pub fn own_choice<'f>(
    alloc: Global,
    input: &'f [u8],
    columns: Columns<'f>,
) -> Result<Choice<'f>, AllocError>
    ensures kind { IfOk result (λ choice. choice.kind
        ≡ own_kind columns.entry (own_names columns.entry input.now)) }
    ensures names { IfOk result (λ choice. pairs_of choice.names
        ≡ names_of_kind choice.kind columns.entry (own_names columns.entry input.now)) }
{
    let names = own_names(alloc, input, columns)?;
    let kind = own_kind(columns, names.as_slice());
    let names = match kind {
        ValueKind::Binary => binary_names(alloc, columns)?,
        _ => names,
    };
    Ok(Choice { names, kind })
}

/// Returns what the values of a file are that a file of aliases names, and their names there. There
/// are none if the file of aliases has no such property.
///
/// # Errors
/// Returns [`AllocError`] if an allocation fails.
pub fn alias_choice<'f>(
    alloc: Global,
    aliases: &'f [u8],
    property: &[u8],
    columns: Columns<'_>,
) -> Result<Choice<'f>, AllocError>
    ensures kind { IfOk result (λ choice. choice.kind
        ≡ alias_kind columns.entry (alias_names property.now aliases.now)) }
    ensures names { IfOk result (λ choice. pairs_of choice.names
        ≡ alias_names property.now aliases.now) }
{
    let names = alias_names(alloc, aliases, property)?;
    let kind = alias_kind(columns, names.as_slice());
    Ok(Choice { names, kind })
}

/// Returns how names are compared. The texts of a file itself are different values if they are not
/// equal; names in a file of aliases are written in several ways.
fn matching_of(kind: ValueKind) -> Matching
    ensures { result ≡ matching_of kind }
{
    match kind {
        ValueKind::Own => Matching::Exact,
        ValueKind::Set | ValueKind::Binary | ValueKind::Aliases => Matching::Loose,
    }
}

/// Returns the numbering by names.
#[tactic(auto, unfolding(crate::specs::Choices::number_by, crate::specs::Names::number_of))]
pub fn by_names<'n>(choice: &'n Choice<'n>) -> Numbering<'n>
    ensures numbers { (text : List ℕ) → number_of result text
        ≡ number_by NumberingKind.Names choice.now.kind choice.now.names text }
    ensures by_names { is_by_names result ≡ true }
{
    Numbering::Names(&choice.names, matching_of(choice.kind))
}

/// Returns whether the title is that of a file in which field 1 of each line is a code point.
#[tactic(auto, unfolding(crate::specs::Choices::is_pair_title))]
fn is_pair_title(title: &[u8]) -> bool
    ensures { result ≡ is_pair_title title.now }
{
    title.starts_with(b"BidiMirroring".as_slice())
        || title.starts_with(b"BidiBrackets".as_slice())
        || title.starts_with(b"EquivalentUnifiedIdeograph".as_slice())
}

/// Returns whether the values are code points by the title of the file.
#[tactic(auto, unfolding(crate::specs::Choices::is_pair_file))]
pub fn is_pair_file(input: &[u8], columns: Columns<'_>) -> bool
    ensures { result ≡ is_pair_file columns.entry input.now }
{
    match (columns, title_of(input)) {
        (Columns::Field(1), Some(title)) => is_pair_title(title),
        _ => false,
    }
}

/// Returns whether the values look as code points do, and not as decimal numbers: all have 4 to 6
/// hexadecimal digits, and one starts with `0`. Values of Unihan are no code points without `U+`.
#[tactic(auto, unfolding(crate::specs::Choices::are_marked))]
fn are_marked(input: &[u8], columns: Columns<'_>) -> bool
    ensures { result ≡ are_marked columns.entry input.now }
{
    match columns {
        Columns::Unihan(_) => false,
        _ => are_code_points(input, columns) && have_leading_zero(input, columns),
    }
}

/// Returns the kind of numbering that a file shows, whose values are of this kind.
#[tactic(auto, unfolding(crate::specs::Choices::shown_numbering))]
fn shown_numbering(input: &[u8], columns: Columns<'_>, kind: ValueKind) -> NumberingKind
    ensures { result ≡ shown_numbering columns.entry kind input.now }
{
    match (columns, kind) {
        (Columns::SimpleFolding | Columns::UnicodeData(12..=14), _) => NumberingKind::Hexadecimal,
        (_, ValueKind::Set) => NumberingKind::One,
        (_, ValueKind::Binary | ValueKind::Aliases) => NumberingKind::Names,
        _ if is_pair_file(input, columns) => NumberingKind::Hexadecimal,
        _ if are_marked(input, columns) => NumberingKind::Hexadecimal,
        _ if are_decimal(input, columns) => NumberingKind::Decimal,
        _ if are_code_points(input, columns) => NumberingKind::Hexadecimal,
        _ => NumberingKind::Names,
    }
}

/// Returns how the values of a file become numbers: as is asked for, or else as the file shows.
#[tactic(auto, unfolding(crate::specs::Choices::number_by, crate::specs::Names::number_of))]
pub fn numbering_of<'n>(
    asked: Option<NumberingKind>,
    input: &[u8],
    columns: Columns<'_>,
    choice: &'n Choice<'n>,
) -> Numbering<'n>
    ensures numbers { (text : List ℕ) → number_of result text
        ≡ number_by (numbering_kind asked columns.entry choice.now.kind input.now)
        choice.now.kind choice.now.names text }
    ensures by_names { is_by_names result
        ≡ is_names (numbering_kind asked columns.entry choice.now.kind input.now) }
{
    let kind = match asked {
        Some(kind) => kind,
        None => shown_numbering(input, columns, choice.kind),
    };
    match kind {
        NumberingKind::Decimal => Numbering::Decimal,
        NumberingKind::Hexadecimal => Numbering::Hexadecimal,
        NumberingKind::One => Numbering::One,
        NumberingKind::Names => by_names(choice),
    }
}
