//! The null value and the error value of a table, stated in comments among its rows.
ghost use Rattle.std.specs.Prelude.{◌≡◌, ◌^◌, ◌<◌, ◌++◌, ℕ, List, Some, IfOk, codes, string_bytes};
ghost use Rattle.icu_zerovec.specs.CodePoints.{code_point_limit};
ghost use Rattle.icu_trie_core.specs.Runs.{Run, AreMaximalRuns};
ghost use Rattle.icu_trie_core.specs.ValueNumbers.{fitting};
ghost use Rattle.icu_trie.specs.Ranges.{answers, IsCoherentTrie};
ghost use Rattle.ucptab_table.specs.TableText.{runs_text};
ghost use Rattle.ucptrie_forms.specs.Stated.{number_after, stated, stating_line, stating_lines, StatesValues};

use icu_trie::cptrie::CodePointTrie;
use std::alloc::{AllocError, Global};
use ucd_files::names::short_decimal;
use ucptab_table::input::first_line;
use ucptab_table::text::ranges_text;

/// The values that comments among rows state. A value is `None` if no comment states it.
#[derive(Clone, Copy, Debug, PartialEq, Eq)]
pub struct StatedValues {
    /// The null value.
    pub null: Option<u32>,
    /// The value of each number above 0x10FFFF.
    pub error: Option<u32>,
}

/// Returns the number after a mark at the start of a line, in 1 to 10 decimal digits and of at most
/// 32 bits, or `None` for any other line.
#[tactic(auto, unfolding(crate::specs::Stated::number_after))]
fn number_after(mark: &[u8], line: &[u8]) -> Option<u32>
    ensures { result ≡ number_after mark.now line.now }
{
    short_decimal(line.strip_prefix(mark)?)
}

/// Returns the values that comments among rows state: the null value by `# null value: N`, and the
/// error value by `# error value: N`, with N in 1 to 10 decimal digits and of at most 32 bits. The
/// first comment that states a value counts.
pub fn stated_values(rows: &[u8]) -> StatedValues
    ensures null { result.null ≡ stated (codes "null value") rows.now }
    ensures error { result.error ≡ stated (codes "error value") rows.now }
{
    let mut null = None;
    let mut error = None;
    let mut rest = rows;
    while let Some((line, after)) = first_line(rest) {
        null = null.or(number_after(b"# null value: ".as_slice(), line));
        error = error.or(number_after(b"# error value: ".as_slice(), line));
        rest = after;
    }
    StatedValues { null, error }
}

/// Appends the comment that states a number under a name.
fn push_stating_line(text: &mut String, name: &str, number: u32) -> Result<(), AllocError>
    ensures line { IfOk result (λ _. string_bytes text.new
        ≡ string_bytes text.old ++ stating_line name.now number) }
    ensures below { number < 2 ^ 32 }
{
    writeln!(text, "# {name}: {number}")
}

/// Returns the comments that state the null value and the error value of a trie.
fn stating_text(alloc: Global, trie: &CodePointTrie<'_, u32>) -> Result<String, AllocError>
    ensures lines { IfOk result (λ text. string_bytes text ≡ stating_lines trie.now) }
    ensures stated { IfOk result (λ text. (rest : List ℕ)
        → StatesValues trie.now (string_bytes text ++ rest)) }
{
    let (header, _, _) = trie.parts();
    let mut text = String::new(alloc);
    push_stating_line(&mut text, "null value", header.null_value)?;
    push_stating_line(&mut text, "error value", trie.error_value())?;
    Ok(text)
}

/// Returns the rows of a trie, one for each of its ranges, after the comments that state its null
/// value and its error value.
pub(crate) fn rows_text(alloc: Global, trie: &CodePointTrie<'_, u32>) -> Result<String, AllocError>
    ensures rows { IsCoherentTrie (fitting (2 ^ 32)) trie.now → (value : ℕ → ℕ)
        → ((u : ℕ) → u < code_point_limit → answers trie.now u ≡ Some (value u))
        → IfOk result (λ text. (runs : List (Run ℕ)) × (AreMaximalRuns value runs
        × (string_bytes text ≡ stating_lines trie.now ++ runs_text runs))) }
    ensures stated { IfOk result (λ text. StatesValues trie.now (string_bytes text)) }
{
    let mut text = stating_text(alloc, trie)?;
    let ranges = ranges_text(alloc, trie)?;
    text.push_str(&ranges)?;
    Ok(text)
}
