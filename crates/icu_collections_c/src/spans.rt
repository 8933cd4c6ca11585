//! The spans of a text: its longest prefix or suffix of characters that are all in a set, or all
//! outside it.
ghost use Rattle.std.specs.Prelude.{◌≡◌, ◌<◌, ◌≤◌, ◌++◌, ℕ, Bool, List, true, false, length};
ghost use Rattle.std.specs.Str.{StartsWithNoChar};
ghost use Rattle.icu_utf.specs.Utf8.{EndsWithNoChar};
ghost use Rattle.icu_invlist.specs.InversionList.{IsValid, holds};
ghost use Rattle.icu_frozen_sets.specs.FrozenWords.{IsFrozenOf, is_held};
ghost use Rattle.icu_frozen_sets.specs.LongestSpans.{IsLossySpan, IsLossySpanBack, IsSpan, IsSpanBack, unit_span};
ghost use Rattle.icu_collections_c.specs.Spans.{AnswersSpan, AnswersSpanBack, AnswersTextSpan, AnswersTextSpanBack};

use crate::error::Error;
use icu_frozen_sets::boundary_spans;
use icu_frozen_sets::view::FrozenView;
use icu_utf::characters::{first_character, last_character};

/// Returns true if the text is not empty and does not start with a character.
#[cold]
#[inline(never)]
fn lacks_first(text: &[u8]) -> bool
    ensures yes { result ≡ true → (0 < length text.now) × StartsWithNoChar text.now }
    ensures no { result ≡ false → 0 < length text.now → ¬ (StartsWithNoChar text.now) }
{
    match first_character(text) {
        Some(_) => false,
        None => !text.is_empty(),
    }
}

/// Returns true if the text is not empty and does not end with a character.
#[cold]
#[inline(never)]
fn lacks_last(text: &[u8]) -> bool
    ensures yes { result ≡ true → (0 < length text.now) × EndsWithNoChar text.now }
    ensures no { result ≡ false → 0 < length text.now → ¬ (EndsWithNoChar text.now) }
{
    match last_character(text) {
        Some(_) => false,
        None => !text.is_empty(),
    }
}

/// Returns true if the text is empty or starts with ASCII.
#[inline(always)]
fn starts_plainly(text: &[u8]) -> bool
    ensures { result ≡ true → 0 < length text.now → ¬ (StartsWithNoChar text.now) }
{
    text.is_empty() || text[0] < 0x80
}

/// Returns the length of a span, or the number of [`Error::InvalidUtf8`] if the text is not empty and
/// does not start with a character.
#[inline(always)]
fn length_or_no_text(text: &[u8], span: usize) -> i64
    requires { span ≤ length text.now }
    ensures { (is_in : ℕ → Bool) (held : Bool) → IsSpan is_in held text.now span
        → AnswersSpan is_in held text.now result }
{
    if span > 0 {
        return span as i64;
    }
    if lacks_first(text) {
        return Error::InvalidUtf8.number();
    }
    0
}

/// Returns the offset of a span from the end, or the number of [`Error::InvalidUtf8`] if the text is
/// not empty and does not end with a character.
#[inline(always)]
fn start_or_no_text(text: &[u8], start: usize) -> i64
    requires { start ≤ length text.now }
    ensures { (is_in : ℕ → Bool) (held : Bool) → IsSpanBack is_in held text.now start
        → AnswersSpanBack is_in held text.now result }
{
    if start < text.len() {
        return start as i64;
    }
    if lacks_last(text) {
        return Error::InvalidUtf8.number();
    }
    start as i64
}

/// Returns the length in bytes of the longest prefix of the text that is UTF-8 and whose characters
/// are all in the frozen set at the start of the words or, if `held` is false, all outside it.
/// Reads at most the nine bytes after the span, and none outside the text: a long span is tested
/// eight bytes at a time. Any words are accepted, as by
/// [`bks_frozen_contains`](crate::frozen::bks_frozen_contains).
///
/// ICU: `uset_spanUTF8`, which takes an ill-formed sequence for U+FFFD instead, as
/// [`bks_frozen_span_lossy`] does.
///
/// # Errors
/// Returns the number of [`Error::InvalidUtf8`] if the text is not empty and does not start with a
/// character.
#[unsafe(no_mangle)]
pub extern "C" fn bks_frozen_span(table: &[u64], text: &[u8], held: bool) -> i64
    ensures exact { AnswersSpan (is_held table.now) held text.now result }
    ensures text { AnswersTextSpan (is_held table.now) held text.now result }
    ensures set { (ends words rest : List ℕ) → IsFrozenOf ends words → table.now ≡ words ++ rest
        → AnswersSpan (holds ends) held text.now result }
    ensures text_set { (ends words rest : List ℕ) → IsFrozenOf ends words
        → table.now ≡ words ++ rest → AnswersTextSpan (holds ends) held text.now result }
{
    let set = FrozenView::new(table);
    // Most spans start with ASCII, and then nothing is left to do after the call.
    if starts_plainly(text) {
        return set.span_utf8(text, held) as i64;
    }
    length_or_no_text(text, set.span_utf8(text, held))
}

/// Returns the offset in bytes of the longest suffix of the text that is UTF-8 and whose characters
/// are all in the frozen set at the start of the words or, if `held` is false, all outside it.
/// Reads at most the four bytes before the span, and none outside the text. Any words are accepted.
///
/// ICU: `uset_spanBackUTF8`, which takes an ill-formed sequence for U+FFFD instead.
///
/// # Errors
/// Returns the number of [`Error::InvalidUtf8`] if the text is not empty and does not end with a
/// character.
#[unsafe(no_mangle)]
pub extern "C" fn bks_frozen_span_back(table: &[u64], text: &[u8], held: bool) -> i64
    ensures exact { AnswersSpanBack (is_held table.now) held text.now result }
    ensures text { AnswersTextSpanBack text.now result }
    ensures set { (ends words rest : List ℕ) → IsFrozenOf ends words → table.now ≡ words ++ rest
        → AnswersSpanBack (holds ends) held text.now result }
{
    start_or_no_text(text, FrozenView::new(table).span_back_utf8(text, held))
}

/// Returns the length in bytes of the longest prefix of the text whose characters are all in the
/// frozen set at the start of the words or, if `held` is false, all outside it. The text may be
/// ill-formed UTF-8: an ill-formed sequence counts as U+FFFD. Any words are accepted.
///
/// ICU: `uset_spanUTF8`.
#[unsafe(no_mangle)]
pub extern "C" fn bks_frozen_span_lossy(table: &[u64], text: &[u8], held: bool) -> usize
    ensures exact { IsLossySpan (is_held table.now) held text.now result }
    ensures set { (ends words rest : List ℕ) → IsFrozenOf ends words → table.now ≡ words ++ rest
        → IsLossySpan (holds ends) held text.now result }
{
    FrozenView::new(table).span_utf8_lossy(text, held)
}

/// Returns the offset in bytes of the longest suffix of the text whose characters are all in the
/// frozen set at the start of the words or, if `held` is false, all outside it. The text may be
/// ill-formed UTF-8: an ill-formed sequence counts as U+FFFD. Any words are accepted.
///
/// ICU: `uset_spanBackUTF8`.
#[unsafe(no_mangle)]
pub extern "C" fn bks_frozen_span_back_lossy(table: &[u64], text: &[u8], held: bool) -> usize
    ensures exact { IsLossySpanBack (is_held table.now) held text.now result }
    ensures set { (ends words rest : List ℕ) → IsFrozenOf ends words → table.now ≡ words ++ rest
        → IsLossySpanBack (holds ends) held text.now result }
{
    FrozenView::new(table).span_back_utf8_lossy(text, held)
}

/// Returns the number of units of the longest prefix of 16-bit units whose code points are all in
/// the frozen set at the start of the words or, if `held` is false, all outside it. A high
/// surrogate and the low surrogate after it are one code point. Each other unit is a code point of
/// its own, even an unpaired surrogate. Any words are accepted.
///
/// ICU: `uset_span`.
#[unsafe(no_mangle)]
pub extern "C" fn bks_frozen_span_utf16(table: &[u64], text: &[u16], held: bool) -> usize
    ensures exact { result ≡ unit_span (is_held table.now) held text.now }
    ensures set { (ends words rest : List ℕ) → IsFrozenOf ends words → table.now ≡ words ++ rest
        → result ≡ unit_span (holds ends) held text.now }
{
    FrozenView::new(table).span_utf16(text, held)
}

/// Returns the length in bytes of the longest prefix of the text that is UTF-8 and whose characters
/// are all in the set with these boundaries or, if `held` is false, all outside it. Reads at most
/// the four bytes after the span, and none outside the text. The result is unspecified (but
/// memory-safe) if [`bks_set_test`](crate::sets::bks_set_test) returns false.
///
/// ICU: `uset_spanUTF8`, which takes an ill-formed sequence for U+FFFD instead.
///
/// # Errors
/// Returns the number of [`Error::InvalidUtf8`] if the text is not empty and does not start with a
/// character.
#[unsafe(no_mangle)]
pub extern "C" fn bks_set_span(ends: &[u32], text: &[u8], held: bool) -> i64
    ensures exact { IsValid ends.now → AnswersSpan (holds ends.now) held text.now result }
    ensures text { IsValid ends.now → AnswersTextSpan (holds ends.now) held text.now result }
{
    length_or_no_text(text, boundary_spans::span_utf8(ends, text, held))
}

/// Returns the offset in bytes of the longest suffix of the text that is UTF-8 and whose characters
/// are all in the set with these boundaries or, if `held` is false, all outside it. Reads at most
/// the four bytes before the span, and none outside the text. The result is unspecified (but
/// memory-safe) if [`bks_set_test`](crate::sets::bks_set_test) returns false.
///
/// ICU: `uset_spanBackUTF8`, which takes an ill-formed sequence for U+FFFD instead.
///
/// # Errors
/// Returns the number of [`Error::InvalidUtf8`] if the text is not empty and does not end with a
/// character.
#[unsafe(no_mangle)]
pub extern "C" fn bks_set_span_back(ends: &[u32], text: &[u8], held: bool) -> i64
    ensures exact { IsValid ends.now → AnswersSpanBack (holds ends.now) held text.now result }
    ensures text { IsValid ends.now → AnswersTextSpanBack text.now result }
{
    start_or_no_text(text, boundary_spans::span_back_utf8(ends, text, held))
}

/// Returns the number of units of the longest prefix of 16-bit units whose code points are all in
/// the set with these boundaries or, if `held` is false, all outside it. A high surrogate and the
/// low surrogate after it are one code point. Each other unit is a code point of its own, even an
/// unpaired surrogate. The result is unspecified (but memory-safe) if
/// [`bks_set_test`](crate::sets::bks_set_test) returns false.
///
/// ICU: `uset_span`.
#[unsafe(no_mangle)]
pub extern "C" fn bks_set_span_utf16(ends: &[u32], text: &[u16], held: bool) -> usize
    ensures { IsValid ends.now → result ≡ unit_span (holds ends.now) held text.now }
{
    boundary_spans::span_utf16(ends, text, held)
}
