//! The table of a file of the Unicode Character Database.
ghost use Rattle.std.specs.Prelude.{IfErr, IfOk};
ghost use Rattle.ucptrie_readers.specs.UnicodeFiles.{IsTableOfFile, IsWhyNoTableOfFile};

use crate::error::UnicodeFileError;
use std::alloc::Global;
use ucd_files::names::Numbering;
use ucd_files::read::read_writes;
use ucd_files::statement::Columns;
use ucptrie_tables::table::{Table, TableOptions, table_of_writes};

/// Builds the table of a file of the Unicode Character Database. Each code point has the value of
/// the last line that covers it. If none does, it has the value of the last `@missing` line that
/// covers it, or else the default.
///
/// # Errors
/// Returns [`UnicodeFileError::File`] for the first line that has a fault, and if the file ends in
/// the middle of a range. Returns [`UnicodeFileError::Build`] for a map that is too large for a
/// trie, for a value of a code point, or the error value, that has more bits than the asked width,
/// and if an allocation fails.
pub fn table_of_file(
    alloc: Global,
    file: &[u8],
    columns: Columns<'_>,
    numbering: Numbering<'_>,
    options: TableOptions,
) -> Result<Table, UnicodeFileError>
    ensures ok { IfOk result (IsTableOfFile columns.entry numbering.entry file.now options) }
    ensures err { IfErr result (IsWhyNoTableOfFile columns.entry numbering.entry file.now options) }
{
    let writes = read_writes(alloc, file, columns, numbering)?;
    let table = table_of_writes(alloc, &writes, options)?;
    Ok(table)
}
