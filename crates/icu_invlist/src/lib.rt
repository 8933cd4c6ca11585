//! Sets of code points, like ICU's UnicodeSet.
//!
//! - `codepointinvlist`: sets of code points as inversion lists, which are ascending lists of
//!   boundaries
//!   - `cpinvlist`: [`CodePointInversionList`](codepointinvlist::CodePointInversionList), the
//!     immutable set, and its queries
//!     - `places`: searches for a code point among the boundaries
//!     - `subsets`: the subset test
//!   - `equality`: equality and hashing
//!   - `range_of`: types that are ranges
//!   - `utils`: the numbers in a range, and the validity of a list
//!   - `iter`: iterators over the ranges, the ranges of the complement, and the characters
//!   - `builder`:
//!     [`CodePointInversionListBuilder`](codepointinvlist::CodePointInversionListBuilder), the
//!     mutable set
//!   - `conversions`: sets made from ranges
//!   - `json`: conversion to and from JSON
//!   - `error`: errors for invalid lists, ranges and JSON values
//! - `boundaries`: a list of boundaries, wherever it is stored; `packing`: packs and unpacks them
//! - `fill`, `merge`: changes of a list of boundaries, by a range and by another set
//! - `spelling`: how ranges are spelled in JSON
#![tactic(auto)]

pub mod boundaries;
pub mod codepointinvlist;
mod fill;
pub mod merge;
mod packing;
pub(crate) mod spelling;
