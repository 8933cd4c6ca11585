//! A set as the bytes of a file.
ghost use Rattle.std.specs.Prelude.{◌≡◌, ◌++◌, ℕ, List, [], ◌∷◌, IfErr, IfOk, OnOk, string_bytes};
ghost use Rattle.std.specs.Borrow.{Bor};
ghost use Rattle.serde_json.specs.Written.{compact_text};
ghost use Rattle.icu_invlist.specs.SetJson.{written_of};
ghost use Rattle.icu_invlist_binary.specs.SerializedSet.{HasForm, units_of};
ghost use Rattle.ucptrie_sets.specs.Rows.{rows_of};
ghost use Rattle.ucptrie_sets.specs.SetSource.{c_text, IsFrozenC, IsFrozenRust, rust_text, static_text};
ghost use Rattle.ucptrie_sets.specs.SetToml.{toml_text};
ghost use Rattle.ucptrie_sets.specs.Sets.{bytes_of_units};
ghost use Rattle.ucptrie_sets.specs.WrittenSets.{IsWhyNotWritten};

use crate::c_source::{c_text, frozen_c_text};
use crate::error::SetWriteError;
use crate::rows::rows_text;
use crate::rust_source::{frozen_rust_text, rust_text};
use crate::serialized::serialized_bytes;
use crate::static_source::static_text;
use crate::toml_text::toml_text;
use icu_invlist::codepointinvlist::CodePointInversionList;
use icu_zerovec::MemoryError;
use std::alloc::Global;

/// The forms in which a set is written.
#[derive(Clone, Copy, Debug, PartialEq, Eq)]
pub enum SetForm<'a> {
    /// The rows of `ucptab`: a line with the value 1 for each range.
    Rows,
    /// ICU's serialized form, which `uset_getSerializedSet` reads, with the low byte of each unit
    /// first.
    Icu,
    /// JSON, as the Rust crate has it.
    Json,
    /// TOML, as ICU's icuexportdata writes it: a property with this name.
    Toml(&'a str),
    /// Source in C: the boundaries and a search in them. Each of its names starts with this one.
    C(&'a str),
    /// Source in Rust: a module of this name with the boundaries and a search in them.
    Rust(&'a str),
    /// Source in Rust: a static set of the crate `bekstaudi`, whose name is this one in capitals.
    RustStatic(&'a str),
    /// Source in C: the words of a frozen set. Each of its names starts with this one.
    FrozenC(&'a str),
    /// Source in Rust: a module of this name with the tables of a frozen set.
    FrozenRust(&'a str),
}

/// Returns the set in JSON, in one line.
fn json_text(alloc: Global, set: &CodePointInversionList<'_>) -> Result<String, MemoryError>
    ensures { IfOk result (λ text. string_bytes text
        ≡ compact_text (written_of set.now) ++ 10 ∷ []) }
{
    let mut text = set.to_json(alloc)?.to_string(alloc)?;
    text.push('\n')?;
    Ok(text)
}

/// Returns the set in a form, as the bytes of a file.
///
/// # Errors
/// - `SetWriteError::TooLong` in ICU's serialized form, if and only if the boundaries take more
///   than 0x7FFF units.
/// - `SetWriteError::Memory` if an allocation fails.
pub fn written(
    alloc: Global,
    set: &CodePointInversionList<'_>,
    form: SetForm<'_>,
) -> Result<Vec<u8>, SetWriteError>
    ensures rows { form.entry ≡ SetForm.Rows
        → IfOk result (λ bytes. bytes.items ≡ rows_of set.now) }
    ensures icu { form.entry ≡ SetForm.Icu
        → IfOk result (λ bytes. bytes.items ≡ bytes_of_units (units_of set.now)) }
    ensures json { form.entry ≡ SetForm.Json → IfOk result
        (λ bytes. bytes.items ≡ compact_text (written_of set.now) ++ 10 ∷ []) }
    ensures toml { (name : Bor (List ℕ)) → form.entry ≡ SetForm.Toml name
        → IfOk result (λ bytes. bytes.items ≡ toml_text name.now set.now) }
    ensures c { (name : Bor (List ℕ)) → form.entry ≡ SetForm.C name
        → IfOk result (λ bytes. bytes.items ≡ c_text name.now set.now) }
    ensures rust { (name : Bor (List ℕ)) → form.entry ≡ SetForm.Rust name
        → IfOk result (λ bytes. bytes.items ≡ rust_text name.now set.now) }
    ensures rust_static { (name : Bor (List ℕ)) → form.entry ≡ SetForm.RustStatic name
        → IfOk result (λ bytes. bytes.items ≡ static_text name.now set.now) }
    ensures frozen_c { (name : Bor (List ℕ)) → form.entry ≡ SetForm.FrozenC name
        → IfOk result (λ bytes. IsFrozenC name.now set.now bytes.items) }
    ensures frozen_rust { (name : Bor (List ℕ)) → form.entry ≡ SetForm.FrozenRust name
        → IfOk result (λ bytes. IsFrozenRust name.now set.now bytes.items) }
    ensures room { form.entry ≡ SetForm.Icu → OnOk result (HasForm set.now) }
    ensures err { IfErr result (IsWhyNotWritten form.entry set.now) }
{
    let text = match form {
        SetForm::Icu => return serialized_bytes(alloc, set),
        SetForm::Rows => rows_text(alloc, set)?,
        SetForm::Json => json_text(alloc, set)?,
        SetForm::Toml(name) => toml_text(alloc, set, name)?,
        SetForm::C(name) => c_text(alloc, set, name)?,
        SetForm::Rust(name) => rust_text(alloc, set, name)?,
        SetForm::RustStatic(name) => static_text(alloc, set, name)?,
        SetForm::FrozenC(name) => frozen_c_text(alloc, set, name)?,
        SetForm::FrozenRust(name) => frozen_rust_text(alloc, set, name)?,
    };
    Ok(text.into_bytes())
}
