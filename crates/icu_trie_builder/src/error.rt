//! Why a trie could not be built.
ghost use Rattle.std.specs.Prelude.{◌≡◌};
ghost use Rattle.icu_trie_builder.specs.declared.error.BuildError.TheVariants.{Memory};

use icu_zerovec::MemoryError;
use icu_zerovec::memory::ApplyRefused;
use std::alloc::{AllocError, AllocFailed};
use thiserror::Error;

/// The reasons why a trie could not be built.
#[derive(Clone, Copy, Debug, PartialEq, Eq, Error)]
pub enum BuildError {
    /// The map has so many different blocks that an offset does not fit its cell.
    #[error("too large")]
    TooLarge,
    /// An allocation failed.
    #[error("no memory")]
    Memory,
}

impl From<AllocError> for BuildError {
    ghost from_gives = { λ _ e. e ≡ Memory };

    fn from(_error: AllocError) -> BuildError {
        BuildError::Memory
    }
}

impl<T: Drop> From<AllocFailed<T>> for BuildError {
    ghost from_gives = { λ _ e. e ≡ Memory };

    fn from(_error: AllocFailed<T>) -> BuildError {
        BuildError::Memory
    }
}

impl From<MemoryError> for BuildError {
    ghost from_gives = { λ _ e. e ≡ Memory };

    fn from(_error: MemoryError) -> BuildError {
        BuildError::Memory
    }
}

impl From<ApplyRefused> for BuildError {
    ghost from_gives = { λ _ e. e ≡ Memory };

    fn from(_error: ApplyRefused) -> BuildError {
        BuildError::Memory
    }
}
