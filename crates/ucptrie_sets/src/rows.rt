//! A set as rows, as `ucptab` and `ucptrie build` read them.
ghost use Rattle.std.specs.Prelude.{◌≡◌, ◌++◌, IfOk, string_bytes};
ghost use Rattle.ucptrie_sets.specs.Rows.{point_row, range_row, rows_of};

use icu_invlist::codepointinvlist::CodePointInversionList;
use std::alloc::{AllocError, Global};
use std::ops::RangeInclusive;
use ucptab_table::text::push_dotted;

/// Appends the row of a code point: the code point, in at least four hexadecimal digits, and 1.
#[tactic(auto, using(ucptab_table::proofs::CallerLemmas::hex_written))]
fn push_point(text: &mut String, c: u32) -> Result<(), AllocError>
    ensures { IfOk result (λ _. string_bytes text.new ≡ string_bytes text.old ++ point_row c) }
{
    writeln!(text, "{c:04X};1")
}

/// Appends the row of a range, or of its one code point.
fn push_range(text: &mut String, range: &RangeInclusive<u32>) -> Result<(), AllocError>
    ensures { IfOk result (λ _. string_bytes text.new
        ≡ string_bytes text.old ++ range_row range.now) }
{
    let (first, last) = (*range.start(), *range.end());
    if first < last {
        push_dotted(text, first)?;
        push_point(text, last)
    } else {
        push_point(text, last)
    }
}

/// Returns a row with the value 1 for each range of the set, in ascending order.
///
/// # Errors
/// Returns [`AllocError`] if an allocation fails.
pub(crate) fn rows_text(
    alloc: Global,
    set: &CodePointInversionList<'_>,
) -> Result<String, AllocError>
    ensures { IfOk result (λ text. string_bytes text ≡ rows_of set.now) }
{
    let mut text = String::new(alloc);
    for range in set.iter_ranges() {
        push_range(&mut text, &range)?;
    }
    Ok(text)
}
