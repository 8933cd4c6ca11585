//! The tables of the program `ucptrie` that files have.
//!
//! - `read`: the table that a file has in ICU's binary form, in JSON or in TOML
//! - `parsed`: a file with its TOML
//! - `properties`: the table of one of the properties in a TOML file
//! - `toml_names`: the names of the values of such a property; `other_toml`: what a TOML file has
//!   in place of a trie
//! - `unicode_file`: the table of a file of the Unicode Character Database
//! - `error`: why a file has no table
#![tactic(auto)]

pub mod error;
pub mod other_toml;
pub mod parsed;
pub mod properties;
pub mod read;
pub mod toml_names;
pub mod unicode_file;
