//! Maps from code points to values that are read in place: ICU's code point tries.
//!
//! - `cptrie`: [`CodePointTrie`](cptrie::CodePointTrie), the trie over packed vectors
//! - `view`: [`TrieView`](view::TrieView), a trie wherever its cells are stored, with the look-up
//! - `coherence`: the check whether a trie is coherent
//! - `ranges`: its ranges of equal values, and the set of code points with a value
//! - `ranges_of_value`: the ranges with a certain value
//! - `iterator_utils`: joining adjacent ranges with equal values
//! - `mapped_ranges`: the joined ranges of mapped values
//! - `map_value`: a trie with mapped values
//! - `packed_cells`, `cell_bytes`: access to the cells, and to the bytes of one cell
//! - `equality`: comparing tries, whether they borrow or own their cells
//! - `convert`, `typed`: conversion to another type of values, and tries of a known trie type
//! - `error`: why parts are rejected, and why a trie cannot be converted
//!
//! The modules `cells`, `coherent`, `header`, `impl_const`, `lookup`, `value` and `walk` are from
//! the crate `icu_trie_core`, which has the format for any index and data.
#![tactic(auto)]

mod cell_bytes;
mod coherence;
mod convert;
pub mod cptrie;
mod equality;
pub mod error;
pub mod iterator_utils;
pub mod map_value;
pub mod mapped_ranges;
mod packed_cells;
pub mod ranges;
pub mod ranges_of_value;
pub mod typed;
pub mod view;

#[allow(unused_imports)]
pub use icu_trie_core::{cells, coherent, header, impl_const, lookup, value, walk};
