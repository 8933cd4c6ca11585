//! What a TOML file of ICU's icuexportdata has if it has neither a trie of code points nor a set.
ghost use Rattle.std.specs.Prelude.{◌≡◌, codes, is_some};
ghost use Rattle.toml.specs.Data.{get_member};
ghost use Rattle.toml.specs.View.{table_view};
ghost use Rattle.ucptrie_readers.specs.OtherToml.{has_files, has_key, other_toml};

use crate::read::value_at;
use crate::toml_names::items_at;
use thiserror::Error;

/// What a TOML file has in place of a trie of code points.
#[derive(Clone, Copy, Debug, PartialEq, Eq, Error)]
pub enum OtherToml {
    /// The units of a trie over pairs of characters, as in `compositions.toml`.
    #[error("has compositions of characters, in a trie of units, and no table of code points")]
    Compositions,
    /// The characters of decompositions, as in `nfdex.toml` and `nfkdex.toml`.
    #[error("has the characters of decompositions, to which the values in another file point, and no table")]
    Scalars,
    /// Names of files, as in `_index.toml`.
    #[error("has names of files, and no table")]
    Files,
    /// Names of masks of values, as in `gcm.toml`.
    #[error("has names of masks for the values of another property, and no table")]
    Masks,
}

/// Returns whether a table has a key.
fn has_key(table: &toml::Table, key: &str) -> bool
    ensures { result ≡ has_key key.now (table_view table.now) }
{
    value_at(table, key).is_some()
}

/// Returns whether the first item of the array `index` has the name of a file.
fn has_files(file: &toml::Table) -> bool
    ensures { result ≡ has_files (table_view file.now) }
{
    let Some([first, ..]) = items_at(file, "index") else {
        return false;
    };
    match first.as_table() {
        Some(table) => has_key(table, "filename"),
        None => false,
    }
}

/// Returns what a file has, by its keys, or `None` if it has none of these.
pub fn other_toml(file: &toml::Table) -> Option<OtherToml>
    ensures { result ≡ other_toml (table_view file.now) }
{
    if has_key(file, "compositions") {
        Some(OtherToml::Compositions)
    } else if has_key(file, "scalars16") || has_key(file, "scalars32") {
        Some(OtherToml::Scalars)
    } else if has_key(file, "mask_property") {
        Some(OtherToml::Masks)
    } else if has_files(file) {
        Some(OtherToml::Files)
    } else {
        None
    }
}
