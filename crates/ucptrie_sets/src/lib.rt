//! Sets of code points for the program `ucptrie`: the set of a value in a table, and sets in the
//! forms that other programs read.
//!
//! - `of_value`: the set of the code points that have a value in a table
//! - `toml_file`: the set of a property in a TOML file of ICU's icuexportdata
//! - `serialized`: a set in ICU's serialized form, as bytes
//! - `written`: a set in one of the forms, as the bytes of a file
//! - `rows`: a row for each range; `toml_text`: TOML as icuexportdata writes it
//! - `source`: what the sources have in common; `c_source` and `rust_source` write these, and
//!   `static_source` a static set in Rust
//! - `error`: why there is no set, or why it is not written
#![tactic(auto)]

mod c_source;
pub mod error;
pub mod of_value;
mod rows;
mod rust_source;
pub mod serialized;
mod source;
mod static_source;
pub mod toml_file;
mod toml_text;
pub mod written;
