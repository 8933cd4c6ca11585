//! A trie as the bytes of a file.
ghost use Rattle.std.specs.Prelude.{◌≡◌, ℕ, List, IfErr, IfOk, Some, String, string_bytes};
ghost use Rattle.std.specs.Borrow.{Bor};
ghost use Rattle.std.specs.Global.{Global};
ghost use Rattle.std.specs.List.{flat_map};
ghost use Rattle.icu_zerovec.specs.PackedBytes.{low_bytes};
ghost use Rattle.icu_char16trie.specs.Grammar.{IsTrieOf};
ghost use Rattle.icu_char16trie.specs.UnitMap.{UnitMap};
ghost use Rattle.ucptrie_words.specs.Rows.{AreRowsOf, first_without_row};
ghost use Rattle.ucptrie_words.specs.StaticSource.{static_text};
ghost use Rattle.ucptrie_words.specs.declared.error.RowsError.TheVariants.{Key};

use crate::error::RowsError;
use crate::rows::rows_text;
use crate::source::{c_text, rust_text};
use crate::static_source::static_text;
use icu_char16trie::char16trie::Char16Trie;
use std::alloc::{AllocError, Global};

/// The forms in which a trie is written.
#[derive(Clone, Copy, Debug, PartialEq, Eq)]
pub enum Form<'a> {
    /// The units, two bytes each, the low byte first.
    Icu,
    /// Source in C: an array whose name starts with this one.
    C(&'a str),
    /// Source in Rust: a module of this name.
    Rust(&'a str),
    /// Source in Rust: a static trie of the crate `bekstaudi`, whose name is this one in capitals.
    RustStatic(&'a str),
    /// The lines `KEY;VALUE` of the entries, in unit order of the keys.
    Rows,
}

/// Returns the units of a trie, two bytes each, the low byte first.
fn units_bytes(alloc: Global, trie: &Char16Trie<'_>) -> Result<Vec<u8>, AllocError>
    ensures { IfOk result (λ bytes. bytes.items ≡ flat_map (low_bytes 2) trie.now) }
{
    Vec::from_slice(alloc, trie.data.as_bytes())
}

/// Returns a trie in a form, as the bytes of a file.
///
/// # Errors
/// Returns [`RowsError::Key`] in the form [`Form::Rows`] for the first key that no line can have.
/// Returns [`RowsError::Memory`] if an allocation fails.
pub fn written(alloc: Global, trie: &Char16Trie<'_>, form: Form<'_>) -> Result<Vec<u8>, RowsError>
    ensures icu { form.entry ≡ Form.Icu
        → IfOk result (λ bytes. bytes.items ≡ flat_map (low_bytes 2) trie.now) }
    ensures rust_static { (name : Bor (List ℕ)) → form.entry ≡ Form.RustStatic name
        → IfOk result (λ bytes. bytes.items ≡ static_text name.now (flat_map (low_bytes 2) trie.now)) }
    ensures rows { form.entry ≡ Form.Rows → (m : UnitMap) → IsTrieOf trie.now m
        → IfOk result (λ bytes. AreRowsOf m bytes.items) }
    ensures key { (m : UnitMap) (key : String Global) → IsTrieOf trie.now m
        → IfErr result (λ e. e ≡ Key key → first_without_row m ≡ Some (string_bytes key)) }
    ensures only_rows { (key : String Global)
        → IfErr result (λ e. e ≡ Key key → form.entry ≡ Form.Rows) }
{
    let text = match form {
        Form::Icu => return Ok(units_bytes(alloc, trie)?),
        Form::C(name) => c_text(alloc, trie.data.as_slice(), name)?,
        Form::Rust(name) => rust_text(alloc, trie.data.as_slice(), name)?,
        Form::RustStatic(name) => static_text(alloc, trie.data.as_bytes(), name)?,
        Form::Rows => rows_text(alloc, trie)?,
    };
    Ok(text.into_bytes())
}
