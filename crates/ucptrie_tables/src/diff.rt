//! The ranges in which two tables differ.
ghost use Rattle.std.specs.Prelude.{◌≡◌, ◌≢◌, ℕ, ◌<◌, ◌≤◌, ◌++◌, Some, IfOk, string_bytes};
ghost use Rattle.ucptab_table.specs.TableText.{hex_text};
ghost use Rattle.ucptrie_tables.specs.Differences.{both_values, difference_line, error_line, values_text, AreDifferencesFrom, IsDifferenceText};

use crate::sizes::stored_values;
use icu_trie::cptrie::CodePointTrie;
use icu_trie_core::range::CodePointMapRange;
use icu_zerovec::CODE_POINT_LIMIT;
use std::alloc::{AllocError, Global};
use ucptab_table::text::push_dotted;

/// Returns the values of the number `c` in two tries.
fn values_at(first: &CodePointTrie<'_, u32>, second: &CodePointTrie<'_, u32>, c: u32) -> (u32, u32)
    ensures { both_values first.now second.now c ≡ (Some result.0, Some result.1) }
{
    (first.get32(c), second.get32(c))
}

/// Returns the number of code points before those at which both tries have their high value.
fn stored_in_both(first: &CodePointTrie<'_, u32>, second: &CodePointTrie<'_, u32>) -> u32
    ensures within { result ≤ 0x110000 }
    ensures high { (u : ℕ) → result ≤ u → u < 0x110000
        → both_values first.now second.now u ≡ both_values first.now second.now 0x10FFFF }
{
    stored_values(first).max(stored_values(second))
}

/// Returns the exclusive end of the code points from `c` on that have these two values. From
/// `stored` on, each code point has the two values of the last one.
fn end_of_values(
    first: &CodePointTrie<'_, u32>,
    second: &CodePointTrie<'_, u32>,
    stored: u32,
    c: u32,
    values: (u32, u32),
) -> u32
    requires stored { stored ≤ 0x110000 }
    requires high { (u : ℕ) → stored ≤ u → u < 0x110000
        → both_values first.now second.now u ≡ both_values first.now second.now 0x10FFFF }
    requires within { c < 0x110000 }
    requires values { both_values first.now second.now c ≡ (Some values.0, Some values.1) }
    ensures after { c < result }
    ensures within { result ≤ 0x110000 }
    ensures equal { (u : ℕ) → c ≤ u → u < result
        → both_values first.now second.now u ≡ (Some values.0, Some values.1) }
    ensures ends { result < 0x110000
        → both_values first.now second.now result ≢ (Some values.0, Some values.1) }
{
    if stored <= c {
        return CODE_POINT_LIMIT;
    }
    for next in c + 1..stored {
        if values_at(first, second, next) != values {
            return next;
        }
    }
    if values_at(first, second, CODE_POINT_LIMIT - 1) == values {
        CODE_POINT_LIMIT
    } else {
        stored
    }
}

/// Returns the ranges of code points whose values differ in two tries, in ascending order.
///
/// Each range has the two values of its code points and is as long as possible.
///
/// # Errors
/// Returns [`AllocError`] if an allocation fails.
pub fn differences(
    alloc: Global,
    first: &CodePointTrie<'_, u32>,
    second: &CodePointTrie<'_, u32>,
) -> Result<Vec<CodePointMapRange<(u32, u32)>>, AllocError>
    ensures { IfOk result (λ found. AreDifferencesFrom first.now second.now 0 found.items) }
{
    let stored = stored_in_both(first, second);
    let mut found = Vec::new(alloc);
    let mut start = 0;
    while start < CODE_POINT_LIMIT {
        let values = values_at(first, second, start);
        let end = end_of_values(first, second, stored, start, values);
        if values.0 != values.1 {
            found.push(CodePointMapRange {
                range: start..=end - 1,
                value: values,
            })?;
        }
        start = end;
    }
    Ok(found)
}

/// Appends the end of a line: a number in at least four hexadecimal digits, and two values.
#[tactic(auto, using(ucptab_table::proofs::CallerLemmas::hex_written))]
fn push_values(text: &mut String, n: u32, values: (u32, u32)) -> Result<(), AllocError>
    ensures { IfOk result (λ _. string_bytes text.new
        ≡ string_bytes text.old ++ (hex_text n ++ values_text values)) }
{
    let (first, second) = values;
    writeln!(text, "{n:04X};{first};{second}")
}

/// Appends the line of a range, `HEX..HEX;A;B`, or `HEX;A;B` if it is one code point.
fn push_difference(
    text: &mut String,
    difference: &CodePointMapRange<(u32, u32)>,
) -> Result<(), AllocError>
    ensures { IfOk result (λ _. string_bytes text.new
        ≡ string_bytes text.old ++ difference_line difference.now) }
{
    let (start, end) = (*difference.range.start(), *difference.range.end());
    if start < end {
        push_dotted(text, start)?;
        push_values(text, end, difference.value)
    } else {
        push_values(text, end, difference.value)
    }
}

/// Appends the line of the two error values if they differ: a comment, as in `ucptab`'s form.
#[tactic(auto, unfolding(crate::specs::Differences::error_line))]
fn push_errors(text: &mut String, first: u32, second: u32) -> Result<(), AllocError>
    ensures { IfOk result (λ _. string_bytes text.new
        ≡ string_bytes text.old ++ error_line first second) }
{
    if first != second {
        writeln!(text, "# above 10FFFF;{first};{second}")?;
    }
    Ok(())
}

/// Returns the lines of the ranges in which two tries differ, in order, and then, as a comment, the
/// two error values if they differ.
///
/// # Errors
/// Returns [`AllocError`] if an allocation fails.
pub fn differences_text(
    alloc: Global,
    first: &CodePointTrie<'_, u32>,
    second: &CodePointTrie<'_, u32>,
) -> Result<String, AllocError>
    ensures { IfOk result (λ text. IsDifferenceText first.now second.now (string_bytes text)) }
{
    let mut text = String::new(alloc);
    let found = differences(alloc, first, second)?;
    for difference in &found {
        push_difference(&mut text, difference)?;
    }
    push_errors(&mut text, first.error_value(), second.error_value())?;
    Ok(text)
}
