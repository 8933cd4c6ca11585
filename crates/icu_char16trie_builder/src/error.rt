//! Why an entry was rejected, or a trie could not be built.
ghost use Rattle.std.specs.Prelude.{◌≡◌};
ghost use Rattle.icu_char16trie_builder.specs.declared.error.BuildError.TheVariants.{Memory};
ghost use Rattle.icu_char16trie_builder.specs.declared.error.AddError.TheVariants.{Memory as AddMemory};
ghost use Rattle.icu_char16trie_builder.specs.declared.error.SortedError.TheVariants.{Memory as SortedMemory};

use icu_zerovec::MemoryError;
use std::alloc::{AllocError, AllocFailed};
use thiserror::Error;

/// Why an entry was rejected. The entries are then unchanged.
#[derive(Clone, Copy, Debug, PartialEq, Eq, Error)]
pub enum AddError {
    /// The key has more than 65,535 units.
    #[error("key too long")]
    KeyTooLong,
    /// There is already an entry with this key.
    #[error("duplicate key")]
    Duplicate,
    /// An allocation failed.
    #[error("no memory")]
    Memory,
}

impl From<MemoryError> for AddError {
    ghost from_gives = { λ _ e. e ≡ AddMemory };

    fn from(_error: MemoryError) -> AddError {
        AddError::Memory
    }
}

/// Why a trie could not be built.
#[derive(Clone, Copy, Debug, PartialEq, Eq, Error)]
pub enum BuildError {
    /// The entries may need more than `0x7FFF_FFFF` units.
    #[error("too large")]
    TooLarge,
    /// An entry was rejected. The builder never returns this: it is for `?` in a function that both
    /// adds entries and builds.
    #[error("{0}")]
    Entry(AddError),
    /// An allocation failed.
    #[error("no memory")]
    Memory,
}

impl From<AllocError> for BuildError {
    ghost from_gives = { λ _ e. e ≡ Memory };

    fn from(_error: AllocError) -> BuildError {
        BuildError::Memory
    }
}

impl<T: Drop> From<AllocFailed<T>> for BuildError {
    ghost from_gives = { λ _ e. e ≡ Memory };

    fn from(_error: AllocFailed<T>) -> BuildError {
        BuildError::Memory
    }
}

impl From<MemoryError> for BuildError {
    ghost from_gives = { λ _ e. e ≡ Memory };

    fn from(_error: MemoryError) -> BuildError {
        BuildError::Memory
    }
}

/// For `?` after adding an entry. `Memory` stays `Memory`.
impl From<AddError> for BuildError {
    ghost use Rattle.icu_char16trie_builder.specs.Errors.{entry_refusal};

    ghost from_gives = { λ x e. e ≡ entry_refusal x };

    fn from(error: AddError) -> BuildError {
        match error {
            AddError::Memory => BuildError::Memory,
            AddError::KeyTooLong | AddError::Duplicate => BuildError::Entry(error),
        }
    }
}

/// Why no trie was built from a slice of entries. An index is that of an entry in the slice.
#[derive(Clone, Copy, Debug, PartialEq, Eq, Error)]
pub enum SortedError {
    /// The key at this index has more than 65,535 units. It is the first entry that is not valid.
    #[error("key {0} too long")]
    KeyTooLong(usize),
    /// The key at this index is not greater than the one before. It is the first entry that is not
    /// valid.
    #[error("key {0} not ascending")]
    NotAscending(usize),
    /// The entries may need more than `0x7FFF_FFFF` units.
    #[error("too large")]
    TooLarge,
    /// An allocation failed.
    #[error("no memory")]
    Memory,
}

impl From<AllocError> for SortedError {
    ghost from_gives = { λ _ e. e ≡ SortedMemory };

    fn from(_error: AllocError) -> SortedError {
        SortedError::Memory
    }
}

impl<T: Drop> From<AllocFailed<T>> for SortedError {
    ghost from_gives = { λ _ e. e ≡ SortedMemory };

    fn from(_error: AllocFailed<T>) -> SortedError {
        SortedError::Memory
    }
}

impl From<MemoryError> for SortedError {
    ghost from_gives = { λ _ e. e ≡ SortedMemory };

    fn from(_error: MemoryError) -> SortedError {
        SortedError::Memory
    }
}
