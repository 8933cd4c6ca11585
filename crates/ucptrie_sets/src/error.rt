//! Why there is no set, or why a set is not written.
ghost use Rattle.std.specs.Prelude.{◌≡◌};

use icu_invlist_binary::serialized::SerializeError;
use icu_zerovec::MemoryError;
use std::alloc::AllocError;
use thiserror::Error;

/// Why a table has no set of the code points with a value.
#[derive(Clone, Copy, Debug, PartialEq, Eq, Error)]
pub enum ValueSetError {
    /// The table's trie is not coherent, so its ranges may differ from its look-ups.
    #[error("not coherent, so its ranges may differ from its look-ups: it has no sets")]
    NotCoherent,
    /// An allocation failed.
    #[error("no memory")]
    Memory,
}

impl From<MemoryError> for ValueSetError {
    ghost use Rattle.ucptrie_sets.specs.declared.error.ValueSetError.TheVariants.{Memory};

    ghost from_gives = { λ _ e. e ≡ Memory };

    fn from(_error: MemoryError) -> ValueSetError {
        ValueSetError::Memory
    }
}

/// Why a set is not written.
#[derive(Clone, Copy, Debug, PartialEq, Eq, Error)]
pub enum SetWriteError {
    /// ICU's serialized form has no room for the boundaries.
    #[error("too many ranges for ICU's serialized form")]
    TooLong,
    /// An allocation failed.
    #[error("no memory")]
    Memory,
}

impl From<AllocError> for SetWriteError {
    ghost use Rattle.ucptrie_sets.specs.declared.error.SetWriteError.TheVariants.{Memory};

    ghost from_gives = { λ _ e. e ≡ Memory };

    fn from(_error: AllocError) -> SetWriteError {
        SetWriteError::Memory
    }
}

impl From<MemoryError> for SetWriteError {
    ghost use Rattle.ucptrie_sets.specs.declared.error.SetWriteError.TheVariants.{Memory};

    ghost from_gives = { λ _ e. e ≡ Memory };

    fn from(_error: MemoryError) -> SetWriteError {
        SetWriteError::Memory
    }
}

impl From<SerializeError> for SetWriteError {
    ghost use Rattle.ucptrie_sets.specs.Sets.{refusal_of_serialize};

    ghost from_gives = { λ x e. e ≡ refusal_of_serialize x };

    fn from(error: SerializeError) -> SetWriteError {
        match error {
            SerializeError::TooLong => SetWriteError::TooLong,
            SerializeError::Memory => SetWriteError::Memory,
        }
    }
}

/// Why a TOML file has no set. The first variant that applies is returned.
#[derive(Clone, Copy, Debug, PartialEq, Eq, Error)]
pub enum SetFileError {
    /// The text is not TOML.
    #[error("not TOML")]
    NotToml,
    /// The file has no array `binary_property`.
    #[error("no [[binary_property]]")]
    NoSets,
    /// No property of the array has the name.
    #[error("no such property")]
    Missing,
    /// Several properties of the array have the name, or no name is asked and there are several.
    #[error("several properties")]
    Several,
    /// The property is no table with an array `ranges`.
    #[error("the property has no array `ranges`")]
    NoRanges,
    /// This item of `ranges`, counted from 0, is no array of two numbers up to 10FFFF.
    #[error("ranges[{0}] is no pair of code points")]
    NotAPair(usize),
    /// The end of this item of `ranges` is below its start.
    #[error("ranges[{0}] is reversed")]
    Reversed(usize),
    /// An allocation failed.
    #[error("no memory")]
    Memory,
}

impl From<MemoryError> for SetFileError {
    ghost use Rattle.ucptrie_sets.specs.declared.error.SetFileError.TheVariants.{Memory};

    ghost from_gives = { λ _ e. e ≡ Memory };

    fn from(_error: MemoryError) -> SetFileError {
        SetFileError::Memory
    }
}
