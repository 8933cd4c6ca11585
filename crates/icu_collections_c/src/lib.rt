//! The functions of the C library: tries, sets and unit tries, over the caller's memory.
//!
//! A slice is passed as a pointer and a length. Nothing is stored between calls, and nothing has to
//! be freed: results go into the caller's buffers, as far as they fit. A function that takes a
//! [`Global`](std::alloc::Global), which is no argument in C, allocates with the program's `malloc`
//! while it runs. `c/bekstaudi.h` has each function as C sees it.
//!
//! - `opening`: opens a trie in ICU's binary form
//! - `building`: builds a trie from rows, in ICU's binary form
//! - `tries`: a trie as C sees it, and its values
//! - `texts`: the values of the characters of a text; `well_formed`: whether it is UTF-8
//! - `ranges`: the ranges of a trie, and whether it is coherent
//! - `value_sets`: the set of the code points with a value
//! - `sets`: sets as lists of their boundaries, and queries of them
//! - `set_operations`: sets made from two sets
//! - `set_building`: sets made from ranges, from single code points or from another set
//! - `set_queries`: subsets, and the code points of a set by their index
//! - `frozen`: frozen sets in words, and look-ups in them
//! - `spans`: the spans of a text
//! - `unit_tries`: look-ups in unit tries; `units`: helpers of them
//! - `text_sets`: sets of code points and strings; `text_spans`: their spans of a text
//! - `text_steps`: steps of a cursor along a text in UTF-8
//! - `unit_texts`: unit tries whose keys are texts in UTF-8; `unit_keys`: transcodes them
//! - `unit_prefixes`: the keys that are prefixes of a text
//! - `unit_nodes`: the units that can come next, and the one value of all keys from there on
//! - `unit_building`: builds unit tries from entries; `listing`: lists the entries of a unit trie
//! - `unit_pages`: lists the entries below a prefix, page by page
//! - `cells`: the cells of tries, in bytes at any address
//! - `error`: the errors of functions that return a count
//! - `version`: the version of the library
//! - `answers`, `buffers`: writes into the caller's buffers
#![tactic(auto)]

mod answers;
mod buffers;
pub mod building;
mod cells;
pub mod error;
pub mod frozen;
pub mod listing;
pub mod opening;
pub mod ranges;
pub mod set_building;
pub mod set_operations;
pub mod set_queries;
pub mod sets;
pub mod spans;
pub mod text_sets;
pub mod text_spans;
mod text_steps;
pub mod texts;
pub mod tries;
pub mod unit_building;
mod unit_keys;
pub mod unit_nodes;
pub mod unit_pages;
pub mod unit_prefixes;
pub mod unit_texts;
pub mod unit_tries;
mod units;
pub mod value_sets;
pub mod version;
pub mod well_formed;
