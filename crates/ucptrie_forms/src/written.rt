//! A table as the bytes of a file.
ghost use Rattle.std.specs.Prelude.{◌≡◌, ◌^◌, ◌<◌, ◌++◌, ℕ, List, [], ◌∷◌, None, Some, true, IfErr, IfOk, OnOk, string_bytes};
ghost use Rattle.std.specs.Borrow.{Bor};
ghost use Rattle.serde_json.specs.Written.{compact_text};
ghost use Rattle.icu_zerovec.specs.CodePoints.{code_point_limit};
ghost use Rattle.icu_zerovec.specs.Canonical.{IsCanonical};
ghost use Rattle.icu_trie_core.specs.Runs.{Run, AreMaximalRuns};
ghost use Rattle.icu_trie_core.specs.ValueNumbers.{fitting};
ghost use Rattle.icu_trie.specs.Parts.{Parts};
ghost use Rattle.icu_trie.specs.Ranges.{answers, IsCoherentTrie};
ghost use Rattle.icu_trie_binary.specs.WrittenTrie.{binary_of, why_not_written};
ghost use Rattle.icu_trie_formats.specs.TrieJson.{json_of};
ghost use Rattle.ucptab_table.specs.TableText.{runs_text};
ghost use Rattle.ucptrie_tables.specs.Numbers.{HasNumbersOf, IsWhyNotNarrowed};
ghost use Rattle.ucptrie_forms.specs.Stated.{stating_lines, StatesValues};
ghost use Rattle.ucptrie_forms.specs.TableSource.{bks_text, c_text, rust_text, toml_text};
ghost use Rattle.ucptrie_tables.specs.Tables.{binary_bytes, has_binary, HasBinaryForm, IsWhyNotWritten};

use crate::bks_source::bks_source;
use crate::c_source::c_text;
use crate::rust_source::rust_text;
use crate::stated::rows_text;
use crate::toml_text::toml_text;
use icu_trie::cptrie::CodePointTrie;
use icu_trie::map_value::MapError;
use icu_trie::value::TrieValue;
use icu_trie_binary::binary::to_binary;
use icu_trie_formats::json::to_json;
use icu_zerovec::MemoryError;
use std::alloc::Global;
use ucptab_table::error::TableError;
use ucptrie_tables::error::TableBuildError;
use ucptrie_tables::form::Form;
use ucptrie_tables::table::Table;
use ucptrie_tables::values::with_values_of;
use ucptrie_tables::width::ValueWidth;

/// Returns the table in ICU's binary form with values of another type.
fn binary_over<P: TrieValue>(alloc: Global, table: &Table) -> Result<Vec<u8>, TableBuildError>
    ensures ok { IfOk result (λ bytes. (t : Parts _)
        × HasNumbersOf (λ n. n) (fitting (2 ^ 32)) P.number P.of_number table.now.trie t
        × (why_not_written P.WIDTH P.number t ≡ None)
        × (IsCanonical P.pack P.unpack P.WIDTH
        → bytes.items ≡ binary_of P.WIDTH P.number P.pack t)) }
    ensures err { IfErr result (IsWhyNotNarrowed P.WIDTH P.number P.of_number table.now) }
{
    let narrowed: CodePointTrie<'static, P> = match with_values_of(alloc, &table.trie) {
        Ok(narrowed) => narrowed,
        Err(MapError::Closure(value)) => return Err(TableBuildError::Width(value, table.width)),
        Err(MapError::Memory) => return Err(TableBuildError::Table(TableError::Memory)),
    };
    Ok(to_binary(alloc, &narrowed)?)
}

/// Returns the table in ICU's binary form with values of its width.
fn binary(alloc: Global, table: &Table) -> Result<Vec<u8>, TableBuildError>
    ensures ok { IfOk result (λ bytes. bytes.items ≡ binary_bytes table.now) }
    ensures room { OnOk result (HasBinaryForm table.now) }
    ensures err { IfErr result (IsWhyNotWritten Form.Icu table.now) }
{
    match table.width {
        ValueWidth::Bits8 => binary_over::<u8>(alloc, table),
        ValueWidth::Bits16 => binary_over::<u16>(alloc, table),
        ValueWidth::Bits32 => Ok(to_binary(alloc, &table.trie)?),
    }
}

/// Returns the table in C for `bekstaudi.h`.
fn bks_text(alloc: Global, table: &Table, name: &str) -> Result<String, TableBuildError>
    ensures ok { IfOk result (λ text. string_bytes text ≡ bks_text name.now table.now) }
    ensures room { OnOk result (HasBinaryForm table.now) }
    ensures err { IfErr result (IsWhyNotWritten Form.Icu table.now) }
{
    let bytes = binary(alloc, table)?;
    Ok(bks_source(alloc, table, &bytes, name)?)
}

/// Returns the table in JSON, in one line.
fn json_text(alloc: Global, table: &Table) -> Result<String, MemoryError>
    ensures { IfOk result (λ text. string_bytes text
        ≡ compact_text (json_of (λ n. n) table.now.trie) ++ 10 ∷ []) }
{
    let mut text = to_json(alloc, &table.trie)?.to_string(alloc)?;
    text.push('\n')?;
    Ok(text)
}

/// Returns the table in a form, as the bytes of a file.
///
/// # Errors
/// Returns [`TableBuildError::Width`] in ICU's binary form, in a file or in C, for the first value that has more bits than
/// the table's width: the error value, the null value, or a cell of the data, in this order.
/// Returns [`TableBuildError::Binary`] if ICU's binary form has no room for the trie. Returns
/// [`TableBuildError::Table`] if an allocation fails.
pub fn written(alloc: Global, table: &Table, form: Form<'_>) -> Result<Vec<u8>, TableBuildError>
    ensures icu { form.entry ≡ Form.Icu
        → IfOk result (λ bytes. bytes.items ≡ binary_bytes table.now) }
    ensures json { form.entry ≡ Form.Json → IfOk result (λ bytes. bytes.items
        ≡ compact_text (json_of (λ n. n) table.now.trie) ++ 10 ∷ []) }
    ensures toml { form.entry ≡ Form.Toml
        → IfOk result (λ bytes. bytes.items ≡ toml_text table.now) }
    ensures c { (name : Bor (List ℕ)) → form.entry ≡ Form.C name
        → IfOk result (λ bytes. bytes.items ≡ c_text name.now table.now) }
    ensures bks { (name : Bor (List ℕ)) → form.entry ≡ Form.Bks name
        → IfOk result (λ bytes. bytes.items ≡ bks_text name.now table.now) }
    ensures rust { (name : Bor (List ℕ)) → form.entry ≡ Form.Rust name
        → IfOk result (λ bytes. bytes.items ≡ rust_text name.now table.now) }
    ensures rows { form.entry ≡ Form.Rows → IsCoherentTrie (fitting (2 ^ 32)) table.now.trie
        → (value : ℕ → ℕ)
        → ((u : ℕ) → u < code_point_limit → answers table.now.trie u ≡ Some (value u))
        → IfOk result (λ bytes. (runs : List (Run ℕ)) × (AreMaximalRuns value runs
        × (bytes.items ≡ stating_lines table.now.trie ++ runs_text runs))) }
    ensures stated { form.entry ≡ Form.Rows
        → IfOk result (λ bytes. StatesValues table.now.trie bytes.items) }
    ensures room { has_binary form.entry ≡ true → OnOk result (HasBinaryForm table.now) }
    ensures err { IfErr result (IsWhyNotWritten form.entry table.now) }
{
    let text = match form {
        Form::Icu => return binary(alloc, table),
        Form::Toml => toml_text(alloc, table)?,
        Form::Json => json_text(alloc, table)?,
        Form::C(name) => c_text(alloc, table, name)?,
        Form::Bks(name) => bks_text(alloc, table, name)?,
        Form::Rust(name) => rust_text(alloc, table, name)?,
        Form::Rows => rows_text(alloc, &table.trie)?,
    };
    Ok(text.into_bytes())
}
