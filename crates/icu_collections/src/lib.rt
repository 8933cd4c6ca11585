//! Collections for Unicode data: the crate `icu_collections` of ICU4X, with contracts.
//!
//! | Data | Module |
//! |---|---|
//! | a value for each code point, such as a property of characters | [`codepointtrie`] |
//! | a set of code points | [`codepointinvlist`] |
//! | a set of code points and longer texts | [`codepointinvliststringlist`] |
//! | a number for each word of a list | [`char16trie`] |
//! | a list of numbers or characters, packed and read in place | [`zerovec`] |
//! | ranges with values, joined if adjacent and equal in value | [`iterator_utils`] |
//!
//! # Values
//!
//! A trie is built from rows of ranges. It returns a value for every 32-bit number in at most five
//! reads:
//!
//! ```
//! let writes = [Write::Range(0x41..=0x5A, 1u8), Write::One(0x1F600, 2)];
//! let trie = build_from_writes(alloc, 0, 255, TrieType::Fast, &writes)?;
//! Ok(trie.get32(0x41)) // 1: the last write that covers it
//! ```
//!
//! The code points with one value are a set: `trie.get_set_for_value(alloc, category)?`.
//!
//! # Sets
//!
//! A builder combines characters, ranges and sets by union, difference, intersection and symmetric
//! difference:
//!
//! ```
//! let mut builder = CodePointInversionListBuilder::new(alloc);
//! builder.add_set(set)?;
//! builder.complement_range('a'..='z')?;
//! let changed = builder.build()?;
//! ```
//!
//! # Words
//!
//! Keys are lists of 16-bit units and may be added in any order. The trie looks up a key unit by
//! unit, or lists its entries in unit order:
//!
//! ```
//! let mut builder = Char16TrieBuilder::new(alloc);
//! builder.add(&[0x61, 0x62], 2).ok()?;
//! builder.add(&[0x61], 1).ok()?;
//! let trie = builder.build().ok()?;
//! ```
//!
//! ```
//! let mut cursor = trie.cursor();
//! let _ = cursor.write_str(word);
//! cursor.value()
//! ```
//!
//! These lines are proved and run in the crate `examples`. This crate has no code of its own: it
//! re-exports the items of the crates below, one for each layer, under the Rust crate's paths.
#![tactic(auto)]

pub mod char16trie;
pub mod codepointinvlist;
pub mod codepointtrie;

pub use icu_text_sets::codepointinvliststringlist;
pub use icu_trie::iterator_utils;
pub use icu_zerovec as zerovec;
