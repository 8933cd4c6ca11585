//! What one line says.
ghost use Rattle.std.specs.Prelude.{◌≡◌};
ghost use Rattle.std.specs.Option.{option_and_then, option_map};
ghost use Rattle.ucd_files.specs.Fields.{after_mark};
ghost use Rattle.ucptab_table.specs.TableText.{code_points_of, write_at};
ghost use Rattle.ucd_files.specs.Statements.{checked_points, content_in, explicit_statement, field_text, is_paired, is_same_range, is_simple, is_split, joined, later_field, missing_statement, missing_text, points_of, property_value, some_text, statement_of, text_of_missing, untagged, value_text, write_of};

use crate::error::LineError;
use crate::fields::{
    after_mark, column, ends_in_first, ends_in_last, field, has_field, marks_range, missing_of,
};
use crate::names::{Matching, Numbering, is_match, is_same_name, number_of};
use icu_trie_builder::writes::Write;
use icu_zerovec::CODE_POINT_LIMIT;
use ucptab_table::rows::{CodePoints, after, before, code_points_of, content_of, trimmed};

/// Where a line has its value. Field 0 has the code points.
#[derive(Clone, Copy, Debug)]
pub enum Columns<'a> {
    /// In this field, counted from 0. An empty field says nothing.
    Field(usize),
    /// Field 1 has a property, and only lines of this property count. The value is in field 2, or
    /// is the property itself if there is no field 2. If field 2 is empty, as in a mapping to
    /// nothing, the value is `<empty>`.
    Property(&'a [u8]),
    /// In this field of `UnicodeData.txt`. Two lines can give one range: the name of the first one
    /// ends in `, First>`, and that of the second one in `, Last>`. An empty field says nothing.
    UnicodeData(usize),
    /// In column 2 of the lines of this property in a file of Unihan: `U+HEX`, the property and the
    /// value, with tabs between them. Only a line that starts with `#` is a comment.
    Unihan(&'a [u8]),
    /// In field 2 of the lines of `CaseFolding.txt` that have the status `C` or `S` in field 1: the
    /// simple case folding.
    SimpleFolding,
}

/// What a line says: the value of code points.
#[derive(Clone, Debug, Drop)]
pub enum Statement {
    /// The value of those of the code points that have no line of their own: `# @missing: ..`.
    Missing(Write<u32>),
    /// The value of the code points.
    Explicit(Write<u32>),
}

/// Returns the content of a line: what comes before `#`, without blanks around it. In a file of
/// Unihan, `#` starts a comment only at the start of the line.
#[tactic(auto, unfolding(crate::specs::Statements::content_in))]
pub(crate) fn content_in<'t>(columns: Columns<'_>, line: &'t [u8]) -> &'t [u8]
    ensures { result.now ≡ content_in columns.entry line.now }
{
    match columns {
        Columns::Unihan(_) if line.starts_with(b"#".as_slice()) => &[],
        Columns::Unihan(_) => trimmed(line),
        _ => content_of(line),
    }
}

/// Returns field 2, or field 1 if field 2 is empty.
#[tactic(auto, unfolding(crate::specs::Statements::later_field))]
pub(crate) fn later_field(content: &[u8]) -> &[u8]
    ensures { result.now ≡ later_field content.now }
{
    let later = field(2, content);
    if later.is_empty() {
        field(1, content)
    } else {
        later
    }
}

/// Returns a text if it is not empty.
fn some_text(text: &[u8]) -> Option<&[u8]>
    ensures { option_map (λ text. text.now) result ≡ some_text text.now }
{
    if text.is_empty() { None } else { Some(text) }
}

/// Returns a field if it is not empty. A line that does not have the field has an empty text there.
fn field_text(n: usize, content: &[u8]) -> Option<&[u8]>
    ensures { option_map (λ text. text.now) result ≡ field_text n content.now }
{
    if has_field(n, content) {
        some_text(field(n, content))
    } else {
        Some(&[])
    }
}

/// Returns the value of the property in field 1: field 2, or the property itself if the line has no
/// field 2, or `<empty>` if field 2 is empty.
#[tactic(auto, unfolding(crate::specs::Statements::property_value))]
fn property_value(content: &[u8]) -> &[u8]
    ensures { result.now ≡ property_value content.now }
{
    if !has_field(2, content) {
        return field(1, content);
    }
    let value = field(2, content);
    if value.is_empty() {
        b"<empty>".as_slice()
    } else {
        value
    }
}

/// Returns whether a mapping with this status in `CaseFolding.txt` is one of the simple case
/// folding: `C` (common) or `S` (simple).
#[tactic(auto, unfolding(crate::specs::Statements::is_simple))]
fn is_simple(status: &[u8]) -> bool
    ensures { result ≡ is_simple status.now }
{
    matches!(status, [b'C' | b'S'])
}

/// Returns the text of the value in a line. Returns `None` if the line is about another property,
/// or if the field is there and empty, so that the code points have the default.
#[tactic(auto, unfolding(crate::specs::Statements::value_text))]
pub(crate) fn value_text<'t>(columns: Columns<'_>, content: &'t [u8]) -> Option<&'t [u8]>
    ensures { option_map (λ text. text.now) result ≡ value_text columns.entry content.now }
{
    match columns {
        Columns::Field(n) | Columns::UnicodeData(n) => field_text(n, content),
        Columns::Property(name) => {
            if is_same_name(field(1, content), name) {
                Some(property_value(content))
            } else {
                None
            }
        }
        Columns::Unihan(name) => {
            if is_same_name(column(1, content), name) {
                Some(column(2, content))
            } else {
                None
            }
        }
        Columns::SimpleFolding => {
            if is_simple(field(1, content)) {
                Some(field(2, content))
            } else {
                None
            }
        }
    }
}

/// Returns a text that is not `<none>`, `<code point>` or `<script>`.
#[tactic(auto, unfolding(crate::specs::Statements::untagged))]
pub(crate) fn untagged(text: &[u8]) -> Option<&[u8]>
    ensures { option_map (λ text. text.now) result ≡ untagged text.now }
{
    if text.starts_with(b"<".as_slice()) {
        None
    } else {
        Some(text)
    }
}

/// Returns the text of the value in an `@missing` line, or `None` if the line is about another
/// property or its value is not written as text.
#[tactic(auto, unfolding(crate::specs::Statements::missing_text))]
pub(crate) fn missing_text<'t>(columns: Columns<'_>, content: &'t [u8]) -> Option<&'t [u8]>
    ensures { option_map (λ text. text.now) result ≡ missing_text columns.entry content.now }
{
    match columns {
        Columns::Property(name) => untagged(value_text(columns, content)?),
        Columns::Field(n) | Columns::UnicodeData(n) => untagged(later_field(content)),
        Columns::Unihan(_) | Columns::SimpleFolding => None,
    }
}

/// Returns the code points if they are code points and in order.
#[tactic(auto, unfolding(crate::specs::Statements::checked_points))]
fn checked_points(points: Option<CodePoints>) -> Result<CodePoints, LineError>
    ensures { result ≡ checked_points points }
{
    let Some(points) = points else {
        return Err(LineError::NotCodePoints);
    };
    let (start, end) = match points {
        CodePoints::Single(code_point) => (code_point, code_point),
        CodePoints::Span(start, end) => (start, end),
    };
    if start >= CODE_POINT_LIMIT || end >= CODE_POINT_LIMIT {
        return Err(LineError::CodePoint);
    }
    if start > end {
        return Err(LineError::Reversed);
    }
    Ok(points)
}

/// Returns whether two lines of `UnicodeData.txt` name one range, and have the same value in field
/// `n`. Of the names in field 1 only what comes before the comma is the same. Fields 0 and 1, the
/// code point and the name, differ.
#[tactic(auto, unfolding(crate::specs::Statements::is_same_range, crate::specs::Names::is_match))]
fn is_same_range(n: usize, previous: &[u8], content: &[u8]) -> bool
    ensures { result ≡ is_same_range n previous.now content.now }
{
    let name = before(b',', field(1, content));
    is_match(Matching::Exact, before(b',', field(1, previous)), name)
        && (n <= 1 || is_match(Matching::Exact, field(n, previous), field(n, content)))
}

/// Returns whether a line of `UnicodeData.txt` gives the last code point of a range exactly if the
/// line before it gives the first one of the same range. Lines of other files need no partner.
#[tactic(auto, unfolding(crate::specs::Statements::is_paired))]
pub(crate) fn is_paired(columns: Columns<'_>, previous: &[u8], content: &[u8]) -> bool
    ensures { result ≡ is_paired columns.entry previous.now content.now }
{
    match columns {
        Columns::UnicodeData(n) if ends_in_last(content) => {
            ends_in_first(previous) && is_same_range(n, content_of(previous), content)
        }
        Columns::UnicodeData(_) => !ends_in_first(previous),
        _ => true,
    }
}

/// Returns whether a line with this content gives one of the two code points of a range, as lines
/// of `UnicodeData.txt` do: it has one code point, and a name or a comment that ends in `, First>`
/// or `, Last>`. In `UnicodeData.txt` and Unihan no line is one of these.
#[tactic(auto, unfolding(crate::specs::Statements::is_split))]
fn is_split(columns: Columns<'_>, line: &[u8]) -> bool
    ensures { result ≡ is_split columns.entry line.now }
{
    let content = content_of(line);
    match (columns, code_points_of(field(0, content))) {
        (Columns::UnicodeData(_) | Columns::Unihan(_), _) => false,
        (_, Some(CodePoints::Single(_))) => {
            marks_range(field(1, content))
                || marks_range(field(2, content))
                || marks_range(trimmed(after(b'#', line)))
        }
        _ => false,
    }
}

/// Returns one range from two lines, which have one code point each.
fn joined(start: Option<CodePoints>, end: Option<CodePoints>) -> Option<CodePoints>
    ensures { result ≡ joined start end }
{
    match (start, end) {
        (Some(CodePoints::Single(start)), Some(CodePoints::Single(end))) => {
            Some(CodePoints::Span(start, end))
        }
        _ => None,
    }
}

/// Returns the code points that a text has after `U+`, or `None` for any other text.
fn marked_points(text: &[u8]) -> Option<CodePoints>
    ensures { result ≡ option_and_then code_points_of (after_mark text.now) }
{
    code_points_of(after_mark(text)?)
}

/// Returns the code points of a line after the line `previous`.
#[tactic(auto, unfolding(crate::specs::Statements::points_of))]
fn points_of(columns: Columns<'_>, previous: &[u8], content: &[u8]) -> Result<CodePoints, LineError>
    ensures { result ≡ points_of columns.entry previous.now content.now }
{
    let own = code_points_of(field(0, content));
    match columns {
        Columns::UnicodeData(_) if ends_in_last(content) => {
            checked_points(joined(code_points_of(field(0, previous)), own))
        }
        Columns::Unihan(_) => checked_points(marked_points(column(0, content))),
        _ => checked_points(own),
    }
}

/// Returns the write of a number at code points.
fn write_at(points: CodePoints, number: u32) -> Write<u32>
    ensures { result ≡ write_at points number }
{
    match points {
        CodePoints::Single(code_point) => Write::One(code_point, number),
        CodePoints::Span(start, end) => Write::Range(start..=end, number),
    }
}

/// Returns the write of a value at code points.
#[tactic(auto, unfolding(crate::specs::Statements::write_of))]
fn write_of(
    numbering: Numbering<'_>,
    points: CodePoints,
    text: &[u8],
) -> Result<Write<u32>, LineError>
    ensures { result ≡ write_of numbering.entry points text.now }
{
    if text.is_empty() {
        return Err(LineError::NoValue);
    }
    match number_of(numbering, text) {
        Some(number) => Ok(write_at(points, number)),
        None => Err(LineError::UnknownValue),
    }
}

/// Returns what a line says that is neither an `@missing` line nor without content.
#[tactic(auto, unfolding(crate::specs::Statements::explicit_statement))]
fn explicit_statement(
    columns: Columns<'_>,
    numbering: Numbering<'_>,
    previous: &[u8],
    content: &[u8],
) -> Result<Option<Statement>, LineError>
    ensures { result ≡ explicit_statement columns.entry numbering.entry previous.now content.now }
{
    let points = points_of(columns, previous, content)?;
    let Some(text) = value_text(columns, content) else {
        return Ok(None);
    };
    let write = write_of(numbering, points, text)?;
    Ok(Some(Statement::Explicit(write)))
}

/// Returns the text of the value in an `@missing` line, or `None` if the numbering is that of a
/// set, since only the other lines of a set name its code points.
fn text_of_missing<'t>(
    columns: Columns<'_>,
    numbering: Numbering<'_>,
    content: &'t [u8],
) -> Option<&'t [u8]>
    ensures { option_map (λ text. text.now) result
        ≡ text_of_missing columns.entry numbering.entry content.now }
{
    match numbering {
        Numbering::One => None,
        _ => missing_text(columns, content),
    }
}

/// Returns what an `@missing` line says.
#[tactic(auto, unfolding(crate::specs::Statements::missing_statement))]
fn missing_statement(
    columns: Columns<'_>,
    numbering: Numbering<'_>,
    content: &[u8],
) -> Result<Option<Statement>, LineError>
    ensures { result ≡ missing_statement columns.entry numbering.entry content.now }
{
    let points = checked_points(code_points_of(field(0, content)))?;
    let Some(text) = text_of_missing(columns, numbering, content) else {
        return Ok(None);
    };
    let write = write_of(numbering, points, text)?;
    Ok(Some(Statement::Missing(write)))
}

/// Returns what a line says after the line `previous`, or `None` if it is blank, a comment or about
/// another property.
///
/// # Errors
/// Returns what is wrong with the line, by the first of the tests in [`LineError`].
#[tactic(auto, unfolding(crate::specs::Statements::statement_of))]
pub fn statement_of(
    columns: Columns<'_>,
    numbering: Numbering<'_>,
    previous: &[u8],
    line: &[u8],
) -> Result<Option<Statement>, LineError>
    ensures { result ≡ statement_of columns.entry numbering.entry previous.now line.now }
{
    let content = content_in(columns, line);
    if !is_paired(columns, previous, content) {
        return Err(LineError::Unpaired);
    }
    if let Some(missing) = missing_of(line) {
        return missing_statement(columns, numbering, missing);
    }
    if content.is_empty() {
        return Ok(None);
    }
    if is_split(columns, line) {
        return Err(LineError::SplitRange);
    }
    explicit_statement(columns, numbering, previous, content)
}
