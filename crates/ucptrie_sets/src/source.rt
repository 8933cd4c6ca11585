//! What the sources in C and in Rust have in common.
ghost use Rattle.std.specs.Prelude.{◌≡◌, ◌+◌, ◌*◌, ◌^◌, ◌<◌, ◌≤◌, ◌++◌, IfOk, OnOk, length, string_bytes};
ghost use Rattle.ucptab_table.specs.Patterns.{number_text};
ghost use Rattle.ucptab_table.specs.declared.pattern.Number.TheVariants.{Hexadecimal};
ghost use Rattle.ucptrie_sets.specs.SetSource.{cells_from, gap, last_block, title};

use icu_frozen_sets::frozen::FrozenCodePointSet;
use icu_invlist::codepointinvlist::CodePointInversionList;
use std::alloc::{AllocError, Global};
use ucptab_table::pattern::Number::Decimal;
use ucptab_table::pattern::push_pattern;

/// How many cells a line has.
const CELLS_IN_LINE: usize = 8;

/// The first line of source. Each `%` is replaced by a number.
const TITLE: &str = "// Made by ucptrie: a set of % code points in % ranges.\n";

/// Returns the first line of source, a comment with the number of ranges.
pub(crate) fn title_of(
    alloc: Global,
    set: &CodePointInversionList<'_>,
) -> Result<String, AllocError>
    ensures { IfOk result (λ text. string_bytes text ≡ title set.now) }
{
    let sizes = [Decimal(set.size()), Decimal(set.get_range_count())];
    let mut text = String::new(alloc);
    push_pattern(&mut text, TITLE, "", &sizes)?;
    Ok(text)
}

/// Returns the frozen set.
pub(crate) fn frozen_of(
    alloc: Global,
    set: &CodePointInversionList<'_>,
) -> Result<FrozenCodePointSet, AllocError>
    ensures { IfOk result (λ frozen. frozen ≡ set.now) }
{
    let Ok(frozen) = FrozenCodePointSet::freeze(alloc, set) else {
        return Err(AllocError);
    };
    Ok(frozen)
}

/// Returns the last block that has an offset in the words of a frozen set. Their first word has the
/// number of offsets.
pub(crate) fn last_block_of(words: &[u64]) -> usize
    ensures { result ≡ last_block words.now }
{
    let Some(first) = words.first() else {
        return 0;
    };
    ((*first % 0x1_0000_0000) as usize).saturating_sub(1)
}

/// Appends what precedes the cell `i` of an array: nothing, a comma and a space, or a comma and a
/// new line.
fn push_gap(text: &mut String, i: usize) -> Result<(), AllocError>
    ensures { OnOk result (string_bytes text.new ≡ string_bytes text.old ++ gap i) }
{
    if i == 0 {
        return Ok(());
    }
    text.push_str(if i % CELLS_IN_LINE == 0 { ",\n" } else { ", " })
}

/// Appends a number in hexadecimal digits in lower case, behind `0x`.
#[tactic(auto, using(crate::proofs::CellLemmas::hexadecimal_written))]
fn push_number(text: &mut String, number: u64) -> Result<(), AllocError>
    ensures { OnOk result (string_bytes text.new
        ≡ string_bytes text.old ++ number_text (Hexadecimal number)) }
{
    write!(text, "0x{number:x}")
}

/// Appends a cell of an array: eight to a line, with commas between them. `i` is its index.
fn push_cell(text: &mut String, i: usize, cell: u64) -> Result<(), AllocError>
    ensures { OnOk result (string_bytes text.new
        ≡ string_bytes text.old ++ (gap i ++ number_text (Hexadecimal cell))) }
{
    push_gap(text, i)?;
    push_number(text, cell)
}

/// Appends the boundaries of a set.
pub(crate) fn push_boundaries(
    text: &mut String,
    set: &CodePointInversionList<'_>,
) -> Result<(), AllocError>
    ensures { OnOk result (string_bytes text.new
        ≡ string_bytes text.old ++ cells_from 0 set.now) }
{
    let boundaries = set.as_inversion_list();
    for (i, boundary) in boundaries.iter().enumerate() {
        push_cell(text, i, u64::from(u32::from(boundary)))?;
    }
    Ok(())
}

/// Appends words of 64 bits.
pub(crate) fn push_words(text: &mut String, words: &[u64]) -> Result<(), AllocError>
    ensures { OnOk result (string_bytes text.new
        ≡ string_bytes text.old ++ cells_from 0 words.now) }
{
    for (i, word) in words.iter().enumerate() {
        push_cell(text, i, *word)?;
    }
    Ok(())
}
