//! Maps from keys of 16-bit units to numbers, read in place (ICU's unit tries).
//!
//! - [`Char16TrieBuilder`] builds a trie, and [`Char16TrieBuilder::build_sorted`] builds one
//!   directly from sorted entries.
//! - [`Char16Trie::cursor`] and [`Char16Trie::iter`] look up a key unit by unit.
//! - [`Char16Trie::longest_match`] and [`Char16Trie::matches`] find the keys that a text starts
//!   with.
//! - [`Char16Trie::iter2`] and [`Char16Trie::entries`] list the entries, and
//!   [`Char16TrieCursor::entries`] those ahead of a cursor.

pub use icu_char16trie::char16trie::{
    Char16JsonError, Char16Trie, Char16TrieCursor, Char16TrieIterator, CursorPlace, Entries, Iter2,
    Matches, TrieResult,
};
pub use icu_char16trie_builder::builder::Char16TrieBuilder;
pub use icu_char16trie_builder::error::{AddError, BuildError, SortedError};
