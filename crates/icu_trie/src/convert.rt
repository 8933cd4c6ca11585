//! Reading the data of a trie as values of another type.
ghost use Rattle.std.specs.Prelude.{◌≡◌, ◌≢◌, ℕ, List, length, slice_get, Some, None, Ok, Err, Result, IfOk};
ghost use Rattle.icu_trie.specs.Conversion.{Becomes, same_packed, with_null_value};
ghost use Rattle.icu_trie.specs.Parts.{parts_fault};
ghost use Rattle.icu_trie.specs.declared.error.ConvertError.TheVariants.{Width, Cell};
ghost use Rattle.icu_zerovec.specs.Canonical.{IsCanonical};
ghost use Rattle.icu_zerovec.specs.Cells.{IsConverted, IsFirstRefusedCell};
ghost use Rattle.icu_zerovec.specs.declared.ule.UleError.{UleError};
ghost use Rattle.icu_zerovec.specs.declared.ule.UleError.TheVariants as bytes;

use crate::cptrie::CodePointTrie;
use crate::error::ConvertError;
use icu_trie_core::header::CodePointTrieHeader;
use icu_trie_core::value::TrieValue;
use icu_zerovec::ZeroVec;
use icu_zerovec::ule::{AsULE, UleError};

/// Returns the value of the other type that has the same packed bytes, or `None` if there is none.
fn same_packed<T: AsULE, P: AsULE>(value: T) -> Option<P>
    requires { T.WIDTH ≡ P.WIDTH }
    ensures { result ≡ same_packed T.pack P.unpack (Some value) }
{
    value.shown();
    P::from_unaligned(&value.to_unaligned()[..P::WIDTH])
}

impl<'trie, T: TrieValue> CodePointTrie<'trie, T> {
    /// Converts the trie to values of another type of the same width, without copying.
    ///
    /// The index and the bytes of the data are unchanged, and borrowed or owned as before. The
    /// header's null value becomes the other type's number for the same packed bytes.
    ///
    /// # Errors
    /// The trie is dropped, and the first of these that applies is returned:
    /// - `Width` if values of the two types take different numbers of bytes;
    /// - `Cell` with the position of the first data cell that is not a value of the other type,
    ///   which may be the error value;
    /// - `ErrorOrNull` if the packed bytes of the null value are not a value of the other type.
    pub fn try_into_converted<P: TrieValue>(self) -> Result<CodePointTrie<'trie, P>, ConvertError>
        ensures width { T.WIDTH ≢ P.WIDTH → result ≡ Err Width }
        // `IsConverted` speaks of the packed bytes, which are not part of what contracts see. The
        // values determine them only if each value has one encoding, as in `ok` and `err`.
        ensures becomes { T.WIDTH ≡ P.WIDTH → (values : Result (List P) UleError)
            × (IsConverted T.unpack T.WIDTH P.unpack P.WIDTH self.entry.values values
            × Becomes P.number self.entry values
            (same_packed T.pack P.unpack (T.of_number self.entry.header.null_value)) result) }
        ensures ok { IsCanonical T.pack T.unpack T.WIDTH → IfOk result (λ t. (i : ℕ)
            → slice_get t.values i ≡ same_packed T.pack P.unpack (slice_get self.entry.values i)) }
        ensures err { IsCanonical T.pack T.unpack T.WIDTH → (i : ℕ) → result ≡ Err (Cell i)
            → IsFirstRefusedCell T.pack P.unpack self.entry.values (bytes.Cell i) }
    {
        if T::WIDTH != P::WIDTH {
            return Err(ConvertError::Width);
        }
        let null = self.null_value();
        let CodePointTrie {
            header,
            index,
            data,
        } = self;
        let data = match data.try_into_converted::<P>() {
            Ok(data) => data,
            Err(UleError::Cell(i)) => return Err(ConvertError::Cell(i)),
            Err(UleError::Length) => unreachable!(),
        };
        let Some(null) = same_packed::<T, P>(null) else {
            return Err(ConvertError::ErrorOrNull);
        };
        null.shown();
        Ok(CodePointTrie::with_data(header, index, data, null))
    }

    /// Returns the trie of parts that were already checked, with this null value.
    pub(crate) fn with_data(
        header: CodePointTrieHeader,
        index: ZeroVec<'trie, u16>,
        data: ZeroVec<'trie, T>,
        null: T,
    ) -> Self
        requires { parts_fault T.of_number (with_null_value header (T.number null)) index «data»
            ≡ None }
        ensures { result
            ≡ record {
              header = with_null_value header (T.number null);
              index =
                  index.entry;
              values = «data».entry;
            } }
    {
        CodePointTrie {
            header: CodePointTrieHeader {
                null_value: null.to_u32(),
                ..header
            },
            index,
            data,
        }
    }
}
