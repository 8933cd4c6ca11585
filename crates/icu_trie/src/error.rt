//! Why the parts of a trie are rejected, and why a trie cannot be converted to another type.
ghost use Rattle.std.specs.Prelude.{◌≡◌};

pub use icu_trie_core::error::CodePointTrieError;
use icu_zerovec::MemoryError;
use thiserror::Error;

/// The error of a function that makes a trie of copied parts.
#[derive(Clone, Copy, Debug, PartialEq, Error)]
pub enum PartsError {
    /// The parts do not form a trie.
    #[error("{0}")]
    Trie(CodePointTrieError),
    /// An allocation failed.
    #[error("no memory")]
    Memory,
}

impl From<CodePointTrieError> for PartsError {
    ghost use Rattle.icu_trie.specs.declared.error.PartsError.TheVariants.{Trie};

    ghost from_gives = { λ x e. e ≡ Trie x };

    fn from(error: CodePointTrieError) -> PartsError {
        PartsError::Trie(error)
    }
}

impl From<MemoryError> for PartsError {
    ghost use Rattle.icu_trie.specs.declared.error.PartsError.TheVariants.{Memory};

    ghost from_gives = { λ _ e. e ≡ Memory };

    fn from(_error: MemoryError) -> PartsError {
        PartsError::Memory
    }
}

/// The reasons why a trie cannot be read as a trie of another type.
#[derive(Clone, Copy, Debug, PartialEq, Eq, Error)]
pub enum ConvertError {
    /// Values of the two types take different numbers of bytes.
    #[error("the values of the two types have different widths")]
    Width,
    /// The first data cell, at this position, that is not a value of the other type.
    #[error("cell {0} is no value of the other type")]
    Cell(usize),
    /// The null value is not a value of the other type. The error value is a cell, so it is
    /// reported as `Cell`.
    #[error("the error value or the null value is no value of the other type")]
    ErrorOrNull,
}
