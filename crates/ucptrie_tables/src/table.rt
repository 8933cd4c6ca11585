//! A trie with the width of its values, and the table of some rows.
ghost use Rattle.std.specs.Prelude.{◌≡◌, ◌^◌, ◌<◌, ℕ, All, Err, IfOk, IfErr, IfNone};
ghost use Rattle.ucptab_table.specs.TableText.{IsFirstFault, IsTooLargeInput};
ghost use Rattle.ucptab_table.specs.declared.error.RowError.{RowError};
ghost use Rattle.ucptab_table.specs.declared.error.TableError.TheVariants.{Row, TooLarge};
ghost use Rattle.ucptrie_tables.specs.Tables.{IsTableOf, IsTableOfWrites, IsWhyNoTable, IsWhyNoTableOfWrites};
ghost use Rattle.ucptrie_tables.specs.ValueWidth.{bits_of, first_wider};
ghost use Rattle.ucptrie_tables.specs.declared.error.TableBuildError.TheVariants.{Table as TableFailed};

use crate::error::TableBuildError;
use crate::width::ValueWidth;
use icu_trie::cptrie::CodePointTrie;
use icu_trie::header::TrieType;
use icu_trie_builder::build_from_writes;
use icu_trie_builder::writes::Write;
use std::alloc::Global;
use ucptab_table::input::read_rows;

/// A trie over numbers, and how many bits a value has in a file.
#[derive(Debug, Drop)]
pub struct Table {
    pub trie: CodePointTrie<'static, u32>,
    pub width: ValueWidth,
}

/// What a table is to be, apart from its rows.
#[derive(Clone, Copy, Debug)]
pub struct TableOptions {
    /// The type of the trie.
    pub trie_type: TrieType,
    /// How many bits a value has.
    pub width: ValueWidth,
    /// The value of each code point that no row covers.
    pub default: u32,
    /// The value of each number above 0x10FFFF.
    pub error: u32,
}

/// Returns the first value in the trie's data that has more bits.
pub(crate) fn first_wider(trie: &CodePointTrie<'_, u32>, width: ValueWidth) -> Option<u32>
    ensures none { IfNone result (All (λ v. v < 2 ^ bits_of width) trie.now.values) }
    ensures first { result ≡ first_wider width trie.now.values }
{
    let (_, _, values) = trie.parts();
    values.iter().find(|value| !width.fits(*value))
}

/// Builds the table of writes, which apply in order.
///
/// # Errors
/// Returns [`TableBuildError::Table`] for a map that is too large for a trie, and if an allocation
/// fails. Returns [`TableBuildError::Width`] for a value of a code point, or the error value, that has
/// more bits than the asked width: the first one in the trie's data.
pub fn table_of_writes(
    alloc: Global,
    writes: &[Write<u32>],
    options: TableOptions,
) -> Result<Table, TableBuildError>
    ensures ok { IfOk result (IsTableOfWrites writes.now options) }
    ensures err { IfErr result (IsWhyNoTableOfWrites writes.now options) }
{
    let trie = build_from_writes(
        alloc,
        options.default,
        options.error,
        options.trie_type,
        writes,
    )?;
    match first_wider(&trie, options.width) {
        Some(value) => Err(TableBuildError::Width(value, options.width)),
        None => Ok(Table {
            trie,
            width: options.width,
        }),
    }
}

/// Builds the table of the rows that the bytes have, in `ucptab`'s form.
///
/// # Errors
/// Returns [`TableBuildError::Table`] for the first line that is not a row, for a map that is too large
/// for a trie, and if an allocation fails. Returns [`TableBuildError::Width`] for a value of a code
/// point, or the error value, that has more bits than the asked width: the first one in the trie's
/// data.
pub fn table_of_rows(
    alloc: Global,
    rows: &[u8],
    options: TableOptions,
) -> Result<Table, TableBuildError>
    ensures ok { IfOk result (IsTableOf rows.now options) }
    ensures err { IfErr result (IsWhyNoTable rows.now options) }
    ensures row { (k : ℕ) (f : RowError) → result ≡ Err (TableFailed (Row k f))
        → IsFirstFault rows.now k f }
    ensures too_large { result ≡ Err (TableFailed TooLarge)
        → IsTooLargeInput options.default rows.now }
{
    let writes = read_rows(alloc, rows)?;
    table_of_writes(alloc, &writes, options)
}
