//! The words of three steps of a search among packed boundaries.
mod proved;

pub(super) use proved::last_words;

mod tested;
