//! What the files of the Unicode Character Database say: which value each code point has.
//!
//! - `fields`: the fields of a line, and `@missing` lines
//! - `kind`: which kind of file some lines are
//! - `names`: when two names are the same, and how a value is written
//! - `value_names`: names of values and their numbers
//! - `statement`: what one line says
//! - `read`: what all lines say, as the writes of a map
//! - `aliases`: names and numbers from `PropertyValueAliases.txt` or a list
//! - `order`: names in order of first appearance
//! - `choice`: what the values of a file are, and how they become numbers
//! - `coverage`: which code points have a value
//! - `missing_values`: the values of code points without a line
//! - `title`: what a file says of itself
//! - `compression`: how a file is compressed
//! - `error`: what is wrong with a line or a file
#![tactic(auto)]

pub mod aliases;
pub mod choice;
pub mod compression;
mod coverage;
pub mod error;
pub mod fields;
pub mod kind;
pub mod missing_values;
pub mod names;
pub mod order;
pub mod read;
pub mod statement;
pub mod title;
pub mod value_names;
