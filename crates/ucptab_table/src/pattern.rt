//! Texts with a name and numbers in them.
ghost use Rattle.std.specs.Prelude.{◌≡◌, ◌++◌, drop, IfOk, OnOk, string_bytes};
ghost use Rattle.ucptab_table.specs.Patterns.{cell_number, filled, first_text, gap, named, number_text};

use std::alloc::AllocError;

/// How many cells a line has.
const CELLS_IN_LINE: usize = 16;

/// A number, and its digits.
#[derive(Clone, Copy)]
pub enum Number {
    /// Decimal digits.
    Decimal(usize),
    /// Hexadecimal digits in lower case, behind `0x`.
    Hexadecimal(u32),
}

/// Appends a number.
///
/// # Errors
/// Returns [`AllocError`] if an allocation fails.
#[tactic(auto, using(crate::proofs::PatternLemmas::hexadecimal_written))]
pub fn push_number(text: &mut String, number: Number) -> Result<(), AllocError>
    ensures { OnOk result (string_bytes text.new ≡ string_bytes text.old ++ number_text number) }
{
    match number {
        Number::Decimal(n) => write!(text, "{n}"),
        Number::Hexadecimal(n) => write!(text, "0x{n:x}"),
    }
}

/// Appends a text in which each `@` is replaced by the name.
///
/// # Errors
/// Returns [`AllocError`] if an allocation fails.
pub fn push_named(text: &mut String, pattern: &str, name: &str) -> Result<(), AllocError>
    ensures { OnOk result (string_bytes text.new
        ≡ string_bytes text.old ++ named name.now pattern.now) }
{
    let mut rest = pattern;
    while let Some((piece, others)) = rest.split_once('@') {
        text.push_str(piece)?;
        text.push_str(name)?;
        rest = others;
    }
    text.push_str(rest)
}

/// Appends the first of some numbers, if there is one, and returns the others.
fn push_first<'n>(text: &mut String, numbers: &'n [Number]) -> Result<&'n [Number], AllocError>
    ensures added { OnOk result
        (string_bytes text.new ≡ string_bytes text.old ++ first_text numbers.now) }
    ensures others { IfOk result (λ others. others.now ≡ drop 1 numbers.now) }
{
    let [number, others @ ..] = numbers else {
        return Ok(numbers);
    };
    push_number(text, *number)?;
    Ok(others)
}

/// Appends a text in which each `@` is replaced by the name, and each `%` by the next number. If no
/// number is left, nothing replaces it.
///
/// # Errors
/// Returns [`AllocError`] if an allocation fails.
pub fn push_pattern(
    text: &mut String,
    pattern: &str,
    name: &str,
    numbers: &[Number],
) -> Result<(), AllocError>
    ensures { OnOk result (string_bytes text.new
        ≡ string_bytes text.old ++ filled name.now numbers.now pattern.now) }
{
    let mut left = numbers;
    let mut rest = pattern;
    while let Some((piece, others)) = rest.split_once('%') {
        push_named(text, piece, name)?;
        left = push_first(text, left)?;
        rest = others;
    }
    push_named(text, rest, name)
}

/// Returns a number as ICU's tools write it: in decimal up to 9, and in hexadecimal above.
fn number_of(cell: u32) -> Number
    ensures { result ≡ cell_number cell }
{
    if cell <= 9 {
        Number::Decimal(cell as usize)
    } else {
        Number::Hexadecimal(cell)
    }
}

/// Appends what precedes the cell `i` of an array: nothing, a comma, or a comma and a new line.
fn push_gap(text: &mut String, i: usize, indent: &str) -> Result<(), AllocError>
    ensures { OnOk result (string_bytes text.new ≡ string_bytes text.old ++ gap indent.now i) }
{
    if i == 0 {
        return Ok(());
    }
    if !i.is_multiple_of(CELLS_IN_LINE) {
        return text.push(',');
    }
    text.push_str(",\n")?;
    text.push_str(indent)
}

/// Appends the cell `i` of an array, as ICU's tools write it (usrc_writeArray): sixteen cells to a
/// line, with commas between them, in decimal up to 9 and in hexadecimal above. Every line but the
/// first starts with the indent.
///
/// # Errors
/// Returns [`AllocError`] if an allocation fails.
pub fn push_cell(text: &mut String, i: usize, cell: u32, indent: &str) -> Result<(), AllocError>
    ensures { OnOk result (string_bytes text.new
        ≡ string_bytes text.old ++ (gap indent.now i ++ number_text (cell_number cell))) }
{
    push_gap(text, i, indent)?;
    push_number(text, number_of(cell))
}
