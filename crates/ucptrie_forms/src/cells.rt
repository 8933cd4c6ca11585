//! The cells of a trie as numbers in a text.
ghost use Rattle.std.specs.Prelude.{◌≡◌, ◌++◌, map, OnOk, string_bytes};
ghost use Rattle.icu_zerovec.specs.Slice.{slice_values};
ghost use Rattle.ucptrie_tables.specs.Source.{cells_from};

use icu_trie::value::TrieValue;
use icu_zerovec::ZeroSlice;
use std::alloc::AllocError;
use ucptab_table::pattern::push_cell;
use ucptrie_tables::table::Table;

/// Appends the cells' numbers, sixteen to a line. Every line but the first starts with the indent
/// (usrc_writeArray).
fn push_cells<T: TrieValue>(
    text: &mut String,
    cells: ZeroSlice<'_, T>,
    indent: &str,
) -> Result<(), AllocError>
    ensures { OnOk result (string_bytes text.new ≡ string_bytes text.old
        ++ cells_from indent.now 0 (map T.number (slice_values cells.entry))) }
{
    for (i, cell) in cells.iter().enumerate() {
        push_cell(text, i, cell.to_u32(), indent)?;
    }
    Ok(())
}

/// Appends the cells of a table's index.
pub(crate) fn push_index(text: &mut String, table: &Table, indent: &str) -> Result<(), AllocError>
    ensures { OnOk result (string_bytes text.new
        ≡ string_bytes text.old ++ cells_from indent.now 0 table.now.trie.index) }
{
    let (_, index, _) = table.trie.parts();
    push_cells(text, index, indent)
}

/// Appends the cells of a table's data.
pub(crate) fn push_data(text: &mut String, table: &Table, indent: &str) -> Result<(), AllocError>
    ensures { OnOk result (string_bytes text.new
        ≡ string_bytes text.old ++ cells_from indent.now 0 table.now.trie.values) }
{
    let (_, _, values) = table.trie.parts();
    push_cells(text, values, indent)
}
