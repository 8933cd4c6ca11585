//! What callers of `icu_collections` prove about their own code, from the contracts of that crate
//! alone: the examples of the README, and one caller for each guarantee that others rely on.
//!
//! - `tables`: properties of characters in tries that are built, stored and read
//! - `sets`: sets of code points
//! - `words`: word lists in unit tries
//! - `texts`: a quick check of a text, as in a normalizer
//! - `pages`: the values of bytes that may be ill-formed, page by page
//! - `own_cells`: a look-up over user-defined cells, which counts its reads
//! - `categories`: a user-defined enum as the value of a trie
//! - `built`: what is known about a built trie besides its values
//! - `untrusted`: tries of untrusted parts
//! - `stored`: tries in ICU's binary form
//! - `errors`: what a function that returns one of the errors may call with `?`
#![tactic(auto)]

pub mod built;
pub mod categories;
pub mod errors;
pub mod own_cells;
pub mod pages;
pub mod sets;
pub mod stored;
pub mod tables;
pub mod texts;
pub mod untrusted;
pub mod words;
