//! Tables in the form of ICU's files.
ghost use Rattle.std.specs.Prelude.{◌≡◌, ℕ, drop, Some, IfOk};
ghost use Rattle.icu_collections.specs.BinaryTrie.{IsUnsignedStored};
ghost use Rattle.icu_collections.specs.CodePointTrie.{answers};

use icu_collections::codepointtrie::CodePointTrie;
use icu_collections::codepointtrie::binary::{BinaryError, WriteError, from_binary, to_binary};
use icu_collections::zerovec::MemoryError;
use std::alloc::Global;
use thiserror::Error;

/// Why a table cannot pass through a file.
#[derive(Clone, Copy, Debug, PartialEq, Error)]
pub enum FileError {
    /// It cannot be written.
    #[error("{0}")]
    Write(#[from] WriteError),
    /// It cannot be read.
    #[error("{0}")]
    Read(#[from] BinaryError),
    /// An allocation for what was read failed.
    #[error("{0}")]
    Memory(#[from] MemoryError),
}

/// Passes a trie through a file between two programs. If the trie has a value for a code point, the
/// copy has the same value.
pub fn through_a_file(
    alloc: Global,
    trie: &CodePointTrie<'_, u8>,
) -> Result<CodePointTrie<'static, u8>, FileError>
    ensures { IfOk result (λ copy. (c x : ℕ)
        → answers trie.now c ≡ Some x → answers copy c ≡ Some x) }
{
    let bytes = to_binary(alloc, trie)?;
    let (read, _) = from_binary::<u8>(&bytes)?;
    let copy = read.try_clone(alloc)?;
    Ok(copy)
}

/// Reads two tables in a file, one after the other: 8-bit values, and 16-bit values.
pub fn two_tables(
    bytes: &[u8],
) -> Result<(CodePointTrie<'_, u8>, CodePointTrie<'_, u16>), BinaryError>
    ensures { IfOk result (λ tables. (first second : ℕ)
        × (IsUnsignedStored 1 bytes.now tables.0 first
        × IsUnsignedStored 2 (drop first bytes.now) tables.1 second)) }
{
    let (first, len) = from_binary(bytes)?;
    let (second, _) = from_binary(&bytes[len..])?;
    Ok((first, second))
}
