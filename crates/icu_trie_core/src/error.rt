//! Why the parts of a trie are rejected.

use thiserror::Error;

/// The reasons why parts do not form a trie.
#[derive(Clone, Copy, Debug, PartialEq, Error)]
pub enum CodePointTrieError {
    /// The contents of a file do not form a trie.
    #[error("Could not construct CodePointTrie from deserialized values: {reason}")]
    FromDeserialized {
        /// What is wrong with the contents.
        reason: &'static str,
    },
    /// The data are empty, so there is no error value.
    #[error("CodePointTrie must be constructed from data vector with at least one element")]
    EmptyDataVector,
    /// The index has fewer cells than there are blocks of 64 below the fast limit.
    #[error("CodePointTrie must be constructed from index vector long enough to accommodate fast-path access")]
    IndexTooShortForFastAccess,
    /// The fast index names a block of 64 that ends outside the data.
    #[error("CodePointTrie must be constructed from data vector long enough to accommodate fast-path access")]
    DataTooShortForFastAccess,
    /// The null value in the header is not the number of any value of the type.
    #[error("The null value is not a valid `T`")]
    InvalidNullValue,
}
