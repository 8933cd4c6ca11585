//! Spans of bytes whose ill-formed sequences count as U+FFFD.
ghost use Rattle.std.specs.Prelude.{◌≡◌, ◌<◌, ◌≤◌, ◌++◌, ℕ, List, Some, drop, length, take};
ghost use Rattle.std.specs.Str.{StartsWithNoChar};
ghost use Rattle.icu_invlist.specs.InversionList.{holds};
ghost use Rattle.icu_utf.specs.Utf8.{EndsWithNoChar, IsFirstPart, IsLastCharacter};
ghost use Rattle.icu_frozen_sets.specs.FrozenView.{view_words};
ghost use Rattle.icu_frozen_sets.specs.FrozenWords.{IsFrozenOf, is_held};
ghost use Rattle.icu_frozen_sets.specs.LongestSpans.{IsLossySpan, IsLossySpanBack};

use crate::frozen::FrozenCodePointSet;
use crate::longest_span::{frozen_span, span_back};
use crate::span_condition::FrozenKind;
use crate::view::{FrozenView, contains};
use icu_utf::characters::{first_character, last_character};

/// What an ill-formed sequence counts as.
const REPLACEMENT_CHARACTER: u32 = 0xFFFD;

/// Returns the first offset from `start` on at which a character starts. If there is none, returns
/// the length.
fn skip_ill_formed(bytes: &[u8], start: usize) -> usize
    requires { start ≤ length bytes.now }
    ensures order { start ≤ result }
    ensures within { result ≤ length bytes.now }
    ensures none { (i : ℕ) → start ≤ i → i < result → StartsWithNoChar (drop i bytes.now) }
    ensures character { result < length bytes.now
        → (c : ℕ) × (size : ℕ) × IsFirstPart (drop result bytes.now) (Some c) size }
{
    let mut end = start;
    while end < bytes.len() {
        if first_character(&bytes[end..]).is_some() {
            return end;
        }
        end += 1;
    }
    end
}

/// Returns the last offset up to `end` at which a character ends. If there is none, returns 0.
fn skip_ill_formed_back(bytes: &[u8], end: usize) -> usize
    requires { end ≤ length bytes.now }
    ensures order { result ≤ end }
    ensures none { (i : ℕ) → result < i → i ≤ end → EndsWithNoChar (take i bytes.now) }
    ensures character { 0 < result
        → (c : ℕ) × (size : ℕ) × IsLastCharacter (take result bytes.now) c size }
{
    let mut start = end;
    while start > 0 {
        if last_character(&bytes[..start]).is_some() {
            return start;
        }
        start -= 1;
    }
    0
}

/// Returns the length of the longest prefix whose characters are all in the frozen set, or all
/// outside it. Ill-formed bytes count as U+FFFD.
fn lossy_span(table: &[u64], held: bool, bytes: &[u8]) -> usize
    ensures { IsLossySpan (is_held table.now) held bytes.now result }
{
    let mut passed = frozen_span(table, held, bytes);
    if contains(table, REPLACEMENT_CHARACTER) != held {
        return passed;
    }
    while passed < bytes.len() {
        let next = skip_ill_formed(bytes, passed);
        if next == passed {
            return passed;
        }
        passed = next + frozen_span(table, held, &bytes[next..]);
    }
    passed
}

/// Returns the offset of the longest suffix whose characters are all in the frozen set, or all
/// outside it. Ill-formed bytes count as U+FFFD.
fn lossy_span_back(table: &[u64], held: bool, bytes: &[u8]) -> usize
    ensures { IsLossySpanBack (is_held table.now) held bytes.now result }
{
    let mut start = span_back(&mut FrozenKind::new(table, held), bytes);
    if contains(table, REPLACEMENT_CHARACTER) != held {
        return start;
    }
    while start > 0 {
        let next = skip_ill_formed_back(bytes, start);
        if next == start {
            return start;
        }
        start = span_back(&mut FrozenKind::new(table, held), &bytes[..next]);
    }
    0
}

/// Spans of bytes whose ill-formed sequences count as U+FFFD.
impl<'a> FrozenView<'a> {
    /// Returns the length in bytes of the longest prefix of `bytes` whose characters are all in the
    /// set, or all outside it if `held` is false (ICU: `UnicodeSet::spanUTF8`).
    ///
    /// `bytes` may be ill-formed UTF-8. An ill-formed sequence counts as U+FFFD, so it ends the span
    /// only if `contains('\u{FFFD}') != held`;
    /// [`span_utf8`](FrozenView::span_utf8) always ends there.
    #[inline]
    pub fn span_utf8_lossy(self, bytes: &[u8], held: bool) -> usize
        ensures exact { IsLossySpan (is_held (view_words self.entry)) held bytes.now result }
        ensures set { (ends words rest : List ℕ) → IsFrozenOf ends words → view_words self.entry ≡ words ++ rest
            → IsLossySpan (holds ends) held bytes.now result }
    {
        lossy_span(self.words(), held, bytes)
    }

    /// Returns the byte offset at which the longest suffix of `bytes` starts whose characters are
    /// all in the set, or all outside it if `held` is false (ICU: `UnicodeSet::spanBackUTF8`).
    ///
    /// `bytes` may be ill-formed UTF-8. An ill-formed sequence counts as U+FFFD, so it ends the span
    /// only if `contains('\u{FFFD}') != held`;
    /// [`span_back_utf8`](FrozenView::span_back_utf8) always ends there.
    #[inline]
    pub fn span_back_utf8_lossy(self, bytes: &[u8], held: bool) -> usize
        ensures exact { IsLossySpanBack (is_held (view_words self.entry)) held bytes.now result }
        ensures set { (ends words rest : List ℕ) → IsFrozenOf ends words → view_words self.entry ≡ words ++ rest
            → IsLossySpanBack (holds ends) held bytes.now result }
    {
        lossy_span_back(self.words(), held, bytes)
    }
}

/// Spans of bytes whose ill-formed sequences count as U+FFFD.
impl FrozenCodePointSet {
    /// Returns the length in bytes of the longest prefix of `bytes` whose characters are all in the
    /// set, or all outside it if `held` is false (ICU: `UnicodeSet::spanUTF8`).
    ///
    /// `bytes` may be ill-formed UTF-8. An ill-formed sequence counts as U+FFFD, so it ends the span
    /// only if `contains('\u{FFFD}') != held`;
    /// [`span_utf8`](FrozenCodePointSet::span_utf8) always ends there.
    ///
    /// ```
    /// // letters.span_utf8_lossy(b"ab\xFFc", true) is 2, and letters.span_utf8_lossy(b"\xFF1a", false)
    /// // is 2
    /// ```
    #[inline]
    pub fn span_utf8_lossy(&self, bytes: &[u8], held: bool) -> usize
        ensures { IsLossySpan (holds self.now) held bytes.now result }
    {
        self.as_view().span_utf8_lossy(bytes, held)
    }

    /// Returns the byte offset at which the longest suffix of `bytes` starts whose characters are
    /// all in the set, or all outside it if `held` is false (ICU: `UnicodeSet::spanBackUTF8`).
    ///
    /// `bytes` may be ill-formed UTF-8. An ill-formed sequence counts as U+FFFD, so it ends the span
    /// only if `contains('\u{FFFD}') != held`;
    /// [`span_back_utf8`](FrozenCodePointSet::span_back_utf8) always ends there.
    ///
    /// ```
    /// // letters.span_back_utf8_lossy(b"a1\xFF", false) is 1
    /// ```
    #[inline]
    pub fn span_back_utf8_lossy(&self, bytes: &[u8], held: bool) -> usize
        ensures { IsLossySpanBack (holds self.now) held bytes.now result }
    {
        self.as_view().span_back_utf8_lossy(bytes, held)
    }
}
