//! The errors of the functions that return a count.
ghost use Rattle.std.specs.Prelude.{◌≡◌};
ghost use Rattle.icu_collections_c.specs.Status.{error_number};

/// Why a function returns no count: `enum bks_error` of `c/bekstaudi.h`, which has the same names
/// and numbers. An error in place of a count leaves the caller's buffers unchanged.
#[derive(Clone, Copy)]
pub enum Error {
    /// An allocation failed.
    NoMemory = -1,
    /// The trie was not made by `bks_trie_open`, or the units are not a trie.
    InvalidTrie = -2,
    /// The text is not UTF-8.
    InvalidUtf8 = -3,
    /// No key of a unit trie is a prefix of the text.
    NoKey = -4,
    /// The type or the width does not exist.
    InvalidFormat = -5,
    /// A value has more bits than the width.
    WideValue = -6,
    /// The trie would be too large, or a listing has 2^63 entries or bytes.
    TooLarge = -7,
    /// The numbers of keys and of values differ, or the keys need more units than there are.
    InvalidEntries = -8,
    /// A key has more than 65,535 units.
    LongKey = -9,
    /// Two entries have the same key.
    SameKey = -10,
    /// `bks_set_test` returns false for a list of boundaries.
    InvalidSet = -11,
}

impl Error {
    /// Returns the number that a function for C returns.
    #[inline(always)]
    pub fn number(self) -> i64
        ensures { result ≡ error_number self }
    {
        self as i64
    }
}
