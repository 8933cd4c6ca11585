//! Maps from code points to values, read in place (ICU's code point tries).
//!
//! - [`CodePointTrieBuilder`] or [`build_from_writes`] builds a trie, and [`CodePointTrie::get32`]
//!   looks up a value.
//! - [`binary::from_binary`] reads in place a trie that ICU wrote, and [`binary::to_binary`] writes
//!   one for ICU.
//! - [`CodePointTrie::try_new`] makes a trie from the parts in another file, and borrows them.
//! - [`text::values_of`] returns the values along a text.

pub use icu_trie::cells::{Cells, Steps};
pub use icu_trie::coherent::is_coherent;
pub use icu_trie::cptrie::CodePointTrie;
pub use icu_trie::error::{CodePointTrieError, ConvertError, PartsError};
pub use icu_trie::header::{CodePointTrieHeader, TrieType};
pub use icu_trie::impl_const;
pub use icu_trie::lookup::{look_up, look_up_whole};
pub use icu_trie::map_value::MapError;
pub use icu_trie::mapped_ranges::IterRangesMapped;
pub use icu_trie::ranges::{CodePointMapRange, CodePointMapRangeIterator};
pub use icu_trie::ranges_of_value::IterRangesForValue;
pub use icu_trie::typed::{
    FastCodePointTrie, SmallCodePointTrie, Typed, TypedCodePointTrie, TypedCodePointTrieError,
    Untyped,
};
pub use icu_trie::value::{NotAValue, TrieValue};
pub use icu_trie::view::TrieView;
pub use icu_trie::walk::walk;
pub use icu_trie_binary::binary;
pub use icu_trie_builder::build_from_writes;
pub use icu_trie_builder::builder::CodePointTrieBuilder;
pub use icu_trie_builder::error::BuildError;
pub use icu_trie_builder::writes::{ApplyRefused, Write};
pub use icu_trie_formats::{json, planes, trie_toml};
pub use icu_trie_text::text;
