//! Maps from lists of 16-bit units to numbers, under the Rust crate's names.

pub use crate::cursor::Char16TrieCursor;
pub use crate::entries::Iter2;
pub use crate::iterator::{Char16TrieIterator, TrieResult};
pub use crate::json::Char16JsonError;
pub use crate::listing::Entries;
pub use crate::matches::Matches;
pub use crate::place::CursorPlace;
pub use crate::trie::Char16Trie;
