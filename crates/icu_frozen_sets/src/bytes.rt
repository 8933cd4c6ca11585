//! Spans of bytes that may not be valid UTF-8, and of 16-bit units.
ghost use Rattle.std.specs.Prelude.{◌≡◌, ℕ, ◌≤◌, length, take};
ghost use Rattle.std.specs.List.{take_while};
ghost use Rattle.std.specs.Str.{IsUtf8, chars, encode_utf8_all};
ghost use mathlib.Core.Bool.{beq};
ghost use Rattle.icu_invlist.specs.InversionList.{holds};
ghost use Rattle.icu_frozen_sets.specs.LongestSpans.{IsSpan, IsSpanBack, unit_span};
ghost use Rattle.icu_frozen_sets.specs.TextFronts.{IsTextUpTo};

use crate::frozen::FrozenCodePointSet;

/// Spans of bytes and units.
impl FrozenCodePointSet {
    /// Returns the length in bytes of the longest prefix of `bytes` whose characters are all in the
    /// set, or all outside it if `held` is false. `bytes` may be ill-formed UTF-8.
    ///
    /// An ill-formed sequence ends the span for both values of `held`; ICU's `UnicodeSet::spanUTF8`
    /// treats it as U+FFFD instead. So the result is that of [`span`](FrozenCodePointSet::span) for
    /// the text before the first ill-formed sequence, and the prefix is valid UTF-8. Reads at most
    /// the nine bytes after the span.
    ///
    /// ```
    /// // letters.span_utf8(b"ab\xFFc", true) is 2, and letters.span_utf8(b"\xFFab", false) is 0
    /// ```
    #[inline]
    pub fn span_utf8(&self, bytes: &[u8], held: bool) -> usize
        ensures exact { IsSpan (holds self.now) held bytes.now result }
        ensures place { (end : ℕ) × IsTextUpTo bytes.now end × (result
            ≡ length (encode_utf8_all
            (take_while (λ c. beq (holds self.now c) held) (chars (take end bytes.now))))) }
        ensures text { IsUtf8 bytes.now → result
            ≡ length (encode_utf8_all
            (take_while (λ c. beq (holds self.now c) held) (chars bytes.now))) }
        ensures within { result ≤ length bytes.now }
        ensures front { IsUtf8 (take result bytes.now) }
    {
        self.as_view().span_utf8(bytes, held)
    }

    /// Returns the byte offset at which the longest suffix of `bytes` starts whose characters are
    /// all in the set, or all outside it if `held` is false. `bytes` may be ill-formed UTF-8.
    ///
    /// An ill-formed sequence ends the span for both values of `held`; ICU's
    /// `UnicodeSet::spanBackUTF8` treats it as U+FFFD instead. Reads at most the four bytes before
    /// the span.
    ///
    /// ```
    /// // letters.span_back_utf8(b"a\xFFbc", true) is 2
    /// ```
    #[inline]
    pub fn span_back_utf8(&self, bytes: &[u8], held: bool) -> usize
        ensures { IsSpanBack (holds self.now) held bytes.now result }
    {
        self.as_view().span_back_utf8(bytes, held)
    }

    /// Returns the number of units of the longest prefix of 16-bit units whose code points are all
    /// in the set, or all outside it if `held` is false (ICU: `UnicodeSet::span`).
    ///
    /// A high surrogate and the low surrogate after it are one code point. Each other unit is a code
    /// point of its own, even an unpaired surrogate.
    #[inline]
    pub fn span_utf16(&self, units: &[u16], held: bool) -> usize
        ensures { result ≡ unit_span (holds self.now) held units.now }
    {
        self.as_view().span_utf16(units, held)
    }
}
