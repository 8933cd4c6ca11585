//! The inputs of the program `ucptrie`: files and streams, and what the program finds out about a file
//! of the Unicode Character Database before it makes a table of it.
//!
//! - `error`: why the program fails; `streams`: files and streams; `progress`: what a slow command
//!   has done; `words`: words of a command
//! - `compressed`: input that has to be converted first; `file_forms`: in which form a file is;
//!   `offsets`: tries inside other files
//! - `unicode_files`: where lines have the values of a property; `aliases`: the names of properties
//!   and of values; `properties`: properties and fields that no line has; `overlap`: code points with
//!   two values; `line_errors`: what is said of a faulty line
//! - `numbering`: how values become numbers; `missing`: the values of code points without a line;
//!   `fractions`: values that can be read in two ways; `groups`: groups of general categories
//! - `list`: the command of this name
#![tactic(auto)]

pub mod aliases;
pub mod compressed;
pub mod error;
pub mod file_forms;
pub mod fractions;
pub mod groups;
pub mod line_errors;
pub mod list;
pub mod missing;
pub mod numbering;
pub mod offsets;
pub mod overlap;
pub mod progress;
pub mod properties;
pub mod streams;
pub mod unicode_files;
pub mod words;

use clap::ArgMatches;

/// Returns the number that the argument `id` gives.
pub fn number(matches: &ArgMatches<'_>, id: &str) -> Option<u32> {
    matches.get_one(id)
}
