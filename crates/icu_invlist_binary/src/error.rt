//! Errors of writing and reading the serialized form.
ghost use Rattle.std.specs.Prelude.{◌≡◌};
ghost use Rattle.icu_invlist_binary.specs.declared.error.SerializeError.TheVariants.{Memory};
ghost use Rattle.icu_invlist_binary.specs.declared.error.SerializedSetError.TheVariants.{Memory as ReadMemory};

use icu_zerovec::MemoryError;
use std::alloc::AllocError;
use thiserror::Error;

/// The error of [`to_serialized`](crate::serialized::to_serialized).
#[derive(Clone, Copy, Debug, PartialEq, Eq, Error)]
pub enum SerializeError {
    /// The boundaries take more than 0x7FFF units (ICU: `U_INDEX_OUTOFBOUNDS_ERROR`).
    #[error("the set has too many ends")]
    TooLong,
    /// An allocation failed.
    #[error("no memory")]
    Memory,
}

impl From<AllocError> for SerializeError {
    ghost from_gives = { λ _ e. e ≡ Memory };

    fn from(_error: AllocError) -> SerializeError {
        SerializeError::Memory
    }
}

/// The error of [`write_serialized`](crate::serialized::write_serialized). If both variants apply,
/// the first is returned.
#[derive(Clone, Copy, Debug, PartialEq, Eq, Error)]
pub enum WriteError {
    /// The boundaries take more than 0x7FFF units (ICU: `U_INDEX_OUTOFBOUNDS_ERROR`).
    #[error("the set has too many ends")]
    TooLong,
    /// The slice is shorter than the serialized form (ICU: `U_BUFFER_OVERFLOW_ERROR`).
    #[error("the slice is too short")]
    Short,
}

/// The error of [`from_serialized`](crate::serialized::from_serialized). If several variants apply,
/// the first is returned.
#[derive(Clone, Copy, Debug, PartialEq, Eq, Error)]
pub enum SerializedSetError {
    /// There is no unit, or there are fewer units than the first one says.
    #[error("the set is cut off")]
    Short,
    /// There are fewer units of boundaries than boundaries of one unit, or an odd number of units
    /// is left for boundaries of two units.
    #[error("the counts of the ends do not fit")]
    Count,
    /// The boundaries are not strictly ascending, or one is above 0x110000.
    #[error("the ends are no set")]
    Invalid,
    /// An allocation failed.
    #[error("no memory")]
    Memory,
}

impl From<MemoryError> for SerializedSetError {
    ghost from_gives = { λ _ e. e ≡ ReadMemory };

    fn from(_error: MemoryError) -> SerializedSetError {
        SerializedSetError::Memory
    }
}
