//! The same values in a trie of another type, with another width or another error value.
ghost use Rattle.std.specs.Prelude.{◌≡◌, ◌<◌, ℕ, IfOk, IfErr, OnOk};
ghost use Rattle.icu_trie_builder.specs.CodePointMap.{map_value};
ghost use Rattle.ucptrie_tables.specs.Rebuilt.{AreValues, IsRebuilt, IsWhyNotRebuilt};

use crate::error::TableBuildError;
use crate::table::{Table, first_wider};
use crate::width::ValueWidth;
use icu_trie::cptrie::CodePointTrie;
use icu_trie::header::TrieType;
use icu_trie_builder::builder::CodePointTrieBuilder;
use icu_zerovec::{CODE_POINT_LIMIT, MemoryError};
use std::alloc::Global;

/// Sets the value of each code point to that of another map.
fn copy_values(
    from: &CodePointTrieBuilder<u32>,
    to: &mut CodePointTrieBuilder<u32>,
) -> Result<(), MemoryError>
    ensures values { OnOk result ((c : ℕ) → c < 0x110000
        → map_value to.new c ≡ map_value from.now c) }
    ensures default { OnOk result (to.new.default ≡ to.old.default) }
    ensures error { OnOk result (to.new.error ≡ to.old.error) }
    ensures trie_type { OnOk result (to.new.trie_type ≡ to.old.trie_type) }
{
    let mut next = 0;
    while let Some(run) = from.get_range(next) {
        next = *run.range.end() + 1;
        to.set_range_value(run.range, run.value)?;
    }
    Ok(())
}

/// Returns a builder of this type and error value that has the value of each code point in a trie.
/// Its default is the value of U+10FFFF.
fn copied(
    alloc: Global,
    trie: &CodePointTrie<'_, u32>,
    trie_type: TrieType,
    error: u32,
) -> Result<CodePointTrieBuilder<u32>, MemoryError>
    ensures values { IfOk result (λ builder. AreValues trie.now (map_value builder)) }
    ensures default { IfOk result (λ builder. builder.default ≡ map_value builder 0x10FFFF) }
    ensures error { IfOk result (λ builder. builder.error ≡ error) }
    ensures trie_type { IfOk result (λ builder. builder.trie_type ≡ trie_type) }
{
    let values = CodePointTrieBuilder::from_trie(alloc, trie)?;
    let default = trie.get32(CODE_POINT_LIMIT - 1);
    let mut builder = CodePointTrieBuilder::new(alloc, default, error, trie_type);
    copy_values(&values, &mut builder)?;
    Ok(builder)
}

/// Builds a table with the value of each code point in another table, which need not be coherent.
/// Its type, its width and its error value are the given ones. Its null value is that of the null
/// block, or the value of U+10FFFF if there is none.
///
/// # Errors
/// Returns [`TableBuildError::Width`] for a value of a code point, or the error value, that has more
/// bits than the width: the first one in the new trie's data. Returns [`TableBuildError::Table`] if the
/// values are too many for a trie, and if an allocation fails.
pub fn rebuilt(
    alloc: Global,
    table: &Table,
    trie_type: TrieType,
    width: ValueWidth,
    error: u32,
) -> Result<Table, TableBuildError>
    ensures ok { IfOk result (IsRebuilt table.now.trie trie_type width error) }
    ensures err { IfErr result (IsWhyNotRebuilt table.now.trie trie_type width error) }
{
    let builder = copied(alloc, &table.trie, trie_type, error)?;
    let trie = builder.build()?;
    match first_wider(&trie, width) {
        Some(value) => Err(TableBuildError::Width(value, width)),
        None => Ok(Table { trie, width }),
    }
}
