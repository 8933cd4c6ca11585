//! Errors for invalid lists, ranges and JSON values.
ghost use Rattle.std.specs.Prelude.{◌≡◌};
ghost use Rattle.icu_invlist.specs.declared.codepointinvlist.error.SetError.TheVariants.{Memory};
ghost use Rattle.icu_invlist.specs.declared.codepointinvlist.error.TryRangeError.TheVariants.{Memory as RangeMemory};
ghost use Rattle.icu_invlist.specs.declared.codepointinvlist.error.SetJsonError.TheVariants.{Memory as JsonMemory};

use icu_zerovec::{MemoryError, PotentialCodePoint};
use thiserror::Error;

/// The list that was rejected because it is not an inversion list: its length is odd, it is not
/// strictly ascending, or it has a number above 0x110000.
#[derive(Debug, Drop, PartialEq, Error)]
#[error("Invalid set")]
pub struct InvalidSetError(pub Vec<PotentialCodePoint>);

/// The error of the constructors that take a list of boundaries.
#[derive(Debug, Drop, PartialEq, Error)]
pub enum SetError {
    /// The list is not an inversion list.
    #[error(transparent)]
    Invalid(#[from] InvalidSetError),
    /// An allocation failed.
    #[error("no memory")]
    Memory,
}

impl From<MemoryError> for SetError {
    ghost from_gives = { λ _ e. e ≡ Memory };

    fn from(_error: MemoryError) -> SetError {
        SetError::Memory
    }
}

/// The inclusive start and the exclusive end of a range that is empty or reversed.
#[derive(Clone, Copy, Debug, PartialEq, Eq, Error)]
#[error("Invalid range: {0}..{1}")]
pub struct RangeError(pub u32, pub u32);

/// The error of the conversion from a range to a set.
#[derive(Clone, Copy, Debug, PartialEq, Eq, Error)]
pub enum TryRangeError {
    /// The range is empty or reversed.
    #[error(transparent)]
    Invalid(#[from] RangeError),
    /// An allocation failed.
    #[error("no memory")]
    Memory,
}

impl From<MemoryError> for TryRangeError {
    ghost from_gives = { λ _ e. e ≡ RangeMemory };

    fn from(_error: MemoryError) -> TryRangeError {
        TryRangeError::Memory
    }
}

/// The error of the conversion from JSON to a set.
#[derive(Clone, Copy, Debug, PartialEq, Eq, Error)]
pub enum SetJsonError {
    /// The value is not an array.
    #[error("no array")]
    NotAnArray,
    /// The item at this index, counted from 0, is not a string.
    #[error("item {0} is no string")]
    NotAString(usize),
    /// The item at this index, counted from 0, is a string that does not spell a range.
    #[error("item {0} is no range")]
    NotARange(usize),
    /// A range is reversed, or the ranges are not ascending with gaps between them.
    #[error("the ranges are no set")]
    InvalidSet,
    /// An allocation failed.
    #[error("no memory")]
    Memory,
}

impl From<MemoryError> for SetJsonError {
    ghost from_gives = { λ _ e. e ≡ JsonMemory };

    fn from(_error: MemoryError) -> SetJsonError {
        SetJsonError::Memory
    }
}
