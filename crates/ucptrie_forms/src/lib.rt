//! The tables of the program `ucptrie` in the forms that other programs read.
//!
//! - `written`: a table in one of the forms, as the bytes of a file
//! - `stated`: the null value and the error value in comments among rows
//! - `c_source` and `rust_source` write source; `bks_source` writes C for `bekstaudi.h`; `header`:
//!   what it says of the trie; `cells`: the cells of a trie as numbers in a text
//! - `toml_text`: a table in TOML
#![tactic(auto)]

ghost use Rattle.std.specs.Prelude.{◌≡◌, ◌++◌, ℕ, List, [], ◌∷◌, Err, IfErr, IfOk};
ghost use Rattle.std.specs.Borrow.{Bor};
ghost use Rattle.serde_json.specs.Written.{compact_text};
ghost use Rattle.icu_trie_formats.specs.TrieJson.{json_of};
ghost use Rattle.ucptab_table.specs.TableText.{IsFirstFault, IsTableText, IsTooLargeInput};
ghost use Rattle.ucptab_table.specs.declared.error.RowError.{RowError};
ghost use Rattle.ucptab_table.specs.declared.error.TableError.TheVariants.{Row, TooLarge};
ghost use Rattle.ucptrie_tables.specs.Tables.{binary_bytes, IsTableOf, IsWhyNotBuilt};
ghost use Rattle.ucptrie_tables.specs.declared.error.TableBuildError.TheVariants.{Table as TableFailed};
ghost use Rattle.ucptrie_tables.specs.declared.table.Table.{Table};
ghost use Rattle.ucptrie_forms.specs.Stated.{stating_lines};
ghost use Rattle.ucptrie_forms.specs.TableSource.{bks_text, c_text, rust_text, toml_text};

mod bks_source;
mod c_source;
mod cells;
mod header;
mod rust_source;
pub mod stated;
mod toml_text;
pub mod written;

use crate::written::written;
use std::alloc::Global;
use ucptrie_tables::error::TableBuildError;
use ucptrie_tables::form::Form;
use ucptrie_tables::table::{TableOptions, table_of_rows};

/// Builds the table of the rows, and returns it in a form, as the bytes of a file.
///
/// In the form `Rows` this is the text that `ucptab` prints if no number is asked, after comments
/// that state the null value and the error value.
///
/// # Errors
/// Returns [`TableBuildError::Table`] for the first line that is not a row, for a map that is too large
/// for a trie, and if an allocation fails. Returns [`TableBuildError::Width`] for a value of a code
/// point, or the error value, that has more bits than the asked width; in ICU's binary form also
/// for the null value. Returns [`TableBuildError::Binary`] if ICU's binary form has no room for the
/// trie.
pub fn built(
    alloc: Global,
    rows: &[u8],
    options: TableOptions,
    form: Form<'_>,
) -> Result<Vec<u8>, TableBuildError>
    ensures rows { form.entry ≡ Form.Rows → IfOk result
        (λ bytes. (t : Table) × (IsTableOf rows.now options t × ((text : List ℕ)
        × (IsTableText rows.now options.default options.error [] text
        × (bytes.items ≡ stating_lines t.trie ++ text))))) }
    ensures icu { form.entry ≡ Form.Icu → IfOk result
        (λ bytes. (t : Table) × (IsTableOf rows.now options t × (bytes.items ≡ binary_bytes t))) }
    ensures json { form.entry ≡ Form.Json → IfOk result
        (λ bytes. (t : Table) × (IsTableOf rows.now options t
        × (bytes.items ≡ compact_text (json_of (λ n. n) t.trie) ++ 10 ∷ []))) }
    ensures toml { form.entry ≡ Form.Toml → IfOk result
        (λ bytes. (t : Table) × (IsTableOf rows.now options t × (bytes.items ≡ toml_text t))) }
    ensures c { (name : Bor (List ℕ)) → form.entry ≡ Form.C name → IfOk result
        (λ bytes. (t : Table)
        × (IsTableOf rows.now options t × (bytes.items ≡ c_text name.now t))) }
    ensures bks { (name : Bor (List ℕ)) → form.entry ≡ Form.Bks name → IfOk result
        (λ bytes. (t : Table)
        × (IsTableOf rows.now options t × (bytes.items ≡ bks_text name.now t))) }
    ensures rust { (name : Bor (List ℕ)) → form.entry ≡ Form.Rust name → IfOk result
        (λ bytes. (t : Table)
        × (IsTableOf rows.now options t × (bytes.items ≡ rust_text name.now t))) }
    ensures err { IfErr result (IsWhyNotBuilt rows.now options form.entry) }
    ensures row { (k : ℕ) (f : RowError) → result ≡ Err (TableFailed (Row k f))
        → IsFirstFault rows.now k f }
    ensures too_large { result ≡ Err (TableFailed TooLarge)
        → IsTooLargeInput options.default rows.now }
{
    let table = table_of_rows(alloc, rows, options)?;
    written(alloc, &table, form)
}
