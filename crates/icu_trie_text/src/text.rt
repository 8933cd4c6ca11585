//! Values of a trie along texts in UTF-8 and UTF-16.

pub use crate::copy::copy_values;
pub use crate::copy_parts::Copied;
pub use crate::find::{find_value, span_of_values};
pub use crate::found::Found;
pub use crate::indices::{ValueIndicesOf, value_indices_of};
pub use crate::utf8::{ValuesOfUtf8, values_of_utf8};
pub use crate::utf16::{ValuesOfUtf16, values_of_utf16};
pub use crate::values::{ValuesOf, values_of};
