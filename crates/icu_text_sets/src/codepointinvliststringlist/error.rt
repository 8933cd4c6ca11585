//! Errors for invalid lists of strings and JSON values.
ghost use Rattle.std.specs.Prelude.{◌≡◌};

use icu_invlist::codepointinvlist::SetJsonError;
use icu_zerovec::MemoryError;
use thiserror::Error;

/// The error for a list that cannot be the strings of a set. Each variant contains the strings at
/// fault.
#[derive(Debug, Drop, PartialEq, Error)]
pub enum InvalidStringList {
    /// The string has exactly one code point, so it belongs among the code points.
    #[error("Invalid string length for string: {0}")]
    InvalidStringLength(String),
    /// The next string is equal to this one.
    #[error("String list has duplicate: {0}")]
    StringListNotUnique(String),
    /// The second string follows the first but is less than it, compared by bytes.
    #[error("Strings in string list not in sorted order: ({0}, {1})")]
    StringListNotSorted(String, String),
}

/// The error of the conversion from JSON to a set.
#[derive(Debug, Drop, PartialEq, Error)]
pub enum StringListJsonError {
    /// The value is not an object, if the text is empty. Otherwise the object does not have this
    /// key, or the value at `str_list` is not an array.
    #[error("no object with arrays `cp_inv_list` and `str_list`, at the key `{0}`")]
    Shape(&'static str),
    /// The value at `cp_inv_list` is not a set of code points.
    #[error("code points: {0}")]
    Set(SetJsonError),
    /// The item of `str_list` at this index, counted from 0, is not a string.
    #[error("item {0} of the strings is no string")]
    NotAString(usize),
    /// The strings cannot be the strings of a set.
    #[error(transparent)]
    Strings(#[from] InvalidStringList),
    /// An allocation failed.
    #[error("no memory")]
    Memory,
}

/// Converts the error of a set of code points, so that `?` works. A failed allocation becomes
/// `Memory`.
impl From<SetJsonError> for StringListJsonError {
    ghost use Rattle.icu_text_sets.specs.TextSetJson.{set_refusal};

    ghost from_gives = { λ x e. e ≡ set_refusal x };

    fn from(error: SetJsonError) -> StringListJsonError {
        match error {
            SetJsonError::Memory => StringListJsonError::Memory,
            error => StringListJsonError::Set(error),
        }
    }
}

impl From<MemoryError> for StringListJsonError {
    ghost use Rattle.icu_text_sets.specs.declared.codepointinvliststringlist.error.StringListJsonError.TheVariants.{Memory};

    ghost from_gives = { λ _ e. e ≡ Memory };

    fn from(_error: MemoryError) -> StringListJsonError {
        StringListJsonError::Memory
    }
}
