//! The tables of the program `ucptrie`: tries over numbers with the width of their values, made of
//! rows or of other tables, shown and compared.
//!
//! - `table`: a trie with the width of its values, built from rows
//! - `width`: how many bits a value has in a file; `values`: the same numbers as values of another
//!   type
//! - `form`: the forms in which a table is written
//! - `join`: several tables in one, whose values are the combinations that occur
//! - `rebuild`: the same values in a trie of another type, with another width or error value
//! - `shown`: what a table is, in lines, and its ranges; `sizes`: the bounds on its cells
//! - `explain`: how a look-up goes, cell by cell
//! - `diff`: the ranges in which two tables differ; `compare`: the first difference of
//!   two files
//! - `asked`: the numbers that words and texts ask for
//! - `source`: names in C and in Rust
//! - `error`: why a table can't be made or written
#![tactic(auto)]

pub mod asked;
pub mod compare;
pub mod diff;
pub mod error;
pub mod explain;
pub mod form;
pub mod join;
pub mod rebuild;
pub mod shown;
pub mod sizes;
pub mod source;
pub mod table;
pub mod values;
pub mod width;
