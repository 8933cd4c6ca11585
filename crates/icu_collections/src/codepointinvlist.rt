//! Sets of code points as inversion lists, as in ICU's UnicodeSet.
//!
//! - [`CodePointInversionListBuilder`] builds a [`CodePointInversionList`].
//! - [`FrozenCodePointSet::freeze`] adds a bit for each code point, for many look-ups.
//!   [`FrozenCodePointSetAndStrings::freeze`] does so for a set with strings, and [`FrozenView`]
//!   reads the words of a frozen set, for example from a file.
//! - [`FrozenCodePointSet::spans`] splits a text into spans inside and outside the set.
//! - [`serialized`] reads and writes sets in ICU's serialized form.

pub use icu_frozen_sets::frozen::FrozenCodePointSet;
pub use icu_frozen_sets::spans::{Span, Spans};
pub use icu_frozen_sets::text_sets::FrozenCodePointSetAndStrings;
pub use icu_frozen_sets::view::FrozenView;
pub use icu_invlist::codepointinvlist::{
    CodePointInversionList, CodePointInversionListBuilder, InvalidSetError, IterChars, IterRanges,
    IterRangesComplemented, RangeError, RangeOf, RangePoint, SetError, SetJsonError, TryRangeError,
    deconstruct_range, is_valid_zv, utils,
};
pub use icu_invlist_binary::serialized;
