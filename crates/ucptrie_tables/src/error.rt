//! Why a table can't be made of rows, or written.
ghost use Rattle.std.specs.Prelude.{◌≡◌, ◌⊎◌};

use crate::width::ValueWidth;
use icu_trie_binary::binary::WriteError;
use icu_trie_builder::error::BuildError;
use icu_zerovec::MemoryError;
use std::alloc::AllocError;
use thiserror::Error;
use ucptab_table::error::TableError;

/// Why rows make no table, or why a table is not written.
#[derive(Clone, Copy, Debug, PartialEq, Eq, Error)]
pub enum TableBuildError {
    /// A row has a fault, the map is too large for a trie, or an allocation failed.
    #[error("{0}")]
    Table(TableError),
    /// A value of a code point, or the error value, that has more bits than this width. From
    /// `ucptrie_forms::written` it may also be the null value.
    #[error("value {0} has more than {1}")]
    Width(u32, ValueWidth),
    /// ICU's binary form has no room for the trie.
    #[error("{0}")]
    Binary(WriteError),
}

impl From<TableError> for TableBuildError {
    ghost use Rattle.ucptrie_tables.specs.declared.error.TableBuildError.TheVariants.{Table};

    ghost from_gives = { λ x e. e ≡ Table x };

    fn from(fault: TableError) -> TableBuildError {
        TableBuildError::Table(fault)
    }
}

impl From<BuildError> for TableBuildError {
    ghost use Rattle.icu_trie_builder.specs.declared.error.BuildError.TheVariants.{TooLarge as BuildTooLarge};
    ghost use Rattle.ucptab_table.specs.declared.error.TableError.TheVariants.{TooLarge, Memory};
    ghost use Rattle.ucptrie_tables.specs.declared.error.TableBuildError.TheVariants.{Table};

    ghost from_gives = { λ x e. (e ≡ Table TooLarge → x ≡ BuildTooLarge)
        × ((e ≡ Table TooLarge) ⊎ (e ≡ Table Memory)) };

    fn from(error: BuildError) -> TableBuildError {
        TableBuildError::Table(TableError::from(error))
    }
}

impl From<WriteError> for TableBuildError {
    ghost use Rattle.ucptrie_tables.specs.Tables.{refusal_of_write};

    ghost from_gives = { λ x e. e ≡ refusal_of_write x };

    fn from(error: WriteError) -> TableBuildError {
        match error {
            WriteError::Memory => TableBuildError::Table(TableError::Memory),
            _ => TableBuildError::Binary(error),
        }
    }
}

impl From<AllocError> for TableBuildError {
    ghost use Rattle.ucptab_table.specs.declared.error.TableError.TheVariants.{Memory};
    ghost use Rattle.ucptrie_tables.specs.declared.error.TableBuildError.TheVariants.{Table};

    ghost from_gives = { λ _ e. e ≡ Table Memory };

    fn from(_error: AllocError) -> TableBuildError {
        TableBuildError::Table(TableError::Memory)
    }
}

impl From<MemoryError> for TableBuildError {
    ghost use Rattle.ucptab_table.specs.declared.error.TableError.TheVariants.{Memory};
    ghost use Rattle.ucptrie_tables.specs.declared.error.TableBuildError.TheVariants.{Table};

    ghost from_gives = { λ _ e. e ≡ Table Memory };

    fn from(_error: MemoryError) -> TableBuildError {
        TableBuildError::Table(TableError::Memory)
    }
}
