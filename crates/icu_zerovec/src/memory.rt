//! The error of every function that may fail to allocate, and the error of a function that makes a
//! list of changes.
ghost use Rattle.std.specs.Prelude.{◌≡◌};

use std::alloc::{AllocError, AllocFailed};
use thiserror::Error;

/// An allocation failed. Values passed by reference are unchanged unless the function says
/// otherwise.
#[derive(Clone, Copy, Debug, PartialEq, Eq, Hash, Error)]
#[error("no memory")]
pub struct MemoryError;

/// Converts the error of an allocation, so that `?` works.
impl From<AllocError> for MemoryError {
    ghost from_gives = { λ _ e. e ≡ record {} };

    fn from(_error: AllocError) -> MemoryError {
        MemoryError
    }
}

/// Converts the error of a function such as `Vec::push`, which returns the value that did not fit.
/// The value is dropped.
impl<T: Drop> From<AllocFailed<T>> for MemoryError {
    ghost from_gives = { λ _ e. e ≡ record {} };

    fn from(_failed: AllocFailed<T>) -> MemoryError {
        MemoryError
    }
}

/// An allocation failed for the write at this index of a list, counted from 0. All writes before it
/// were made, and no others.
///
/// It is defined here, next to [`MemoryError`], so that `?` converts it in every function that
/// returns `MemoryError`.
#[derive(Clone, Copy, Debug, PartialEq, Eq, Error)]
#[error("no memory for write {0}")]
pub struct ApplyRefused(pub usize);

/// Converts the error and drops the index.
impl From<ApplyRefused> for MemoryError {
    ghost from_gives = { λ _ e. e ≡ record {} };

    fn from(_refused: ApplyRefused) -> MemoryError {
        MemoryError
    }
}
