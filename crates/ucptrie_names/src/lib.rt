//! The names of values in the source that the program `ucptrie` writes.
//!
//! - `value_names`: an enum in C or in Rust; `static_source`: a static trie in Rust, and its enum
//! - `join_source`: the properties of a joined table in C and in Rust
//! - `names_list`: names of values as lines `NUMBER;NAME`
#![tactic(auto)]

pub mod join_source;
pub mod names_list;
pub mod static_source;
pub mod value_names;
