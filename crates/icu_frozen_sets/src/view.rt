//! A view of a frozen set in 64-bit words: look-ups, and spans of texts.
ghost use Rattle.std.specs.Prelude.{◌≡◌, ℕ, ◌+◌, ◌-◌, ◌*◌, ◌/◌, ◌<◌, ◌++◌, List, length, slice_index};
ghost use Rattle.std.specs.List.{take_while};
ghost use Rattle.std.specs.Str.{IsCharBoundary, chars, encode_utf8_all};
ghost use mathlib.Core.Bool.{beq};
ghost use Rattle.icu_invlist.specs.InversionList.{holds};
ghost use Rattle.icu_frozen_sets.specs.FrozenView.{view_words};
ghost use Rattle.icu_frozen_sets.specs.FrozenWords.{IsFrozenOf, bit_in, is_held, offset_words, place_in};
ghost use Rattle.icu_frozen_sets.specs.Inside.Filling.{bit_among};
ghost use Rattle.icu_frozen_sets.specs.LongestSpans.{IsSpan, IsSpanBack, unit_span};

use crate::longest_span::{frozen_span, span_back, span_units};
use crate::span_condition::FrozenKind;
use icu_zerovec::CODE_POINT_LIMIT;

/// In the words that are made here, the full block starts this number of words after the offsets.
/// The words of the block of U+0000 and of the empty block are between them.
pub(crate) const FULL_BLOCK: usize = 32;

/// Tells the compiler that the path on which it is called is rare.
#[cold]
#[inline(always)]
fn rare() {}

/// Returns the word at this index, or 0 if there is none, which is rare.
#[inline(always)]
pub(crate) fn word(table: &[u64], place: usize) -> u64
    ensures { result ≡ slice_index table.now place }
{
    if place < table.len() {
        table[place]
    } else {
        rare();
        0
    }
}

/// Returns the number of words of offsets.
#[inline(always)]
pub(crate) fn offset_count(table: &[u64]) -> usize
    ensures { result ≡ offset_words table.now }
{
    (word(table, 0) % 0x1_0000_0000) as usize
}

/// Returns the index of the last offset, or 0 if there is none.
#[inline(always)]
pub(crate) fn last_offset(table: &[u64]) -> usize
    ensures { result ≡ offset_words table.now - 1 }
{
    offset_count(table).max(1) - 1
}

/// Returns the index of the first of the block's words. The last offset, which is at index `last`, is
/// that of all later blocks, too.
#[inline(always)]
pub(crate) fn place_by(table: &[u64], last: usize, block: u32) -> usize
    requires { last ≡ offset_words table.now - 1 }
    ensures { result ≡ place_in table.now block }
{
    (word(table, (block as usize).min(last)) % 0x1_0000_0000) as usize
}

/// Returns the index of the first of the block's words.
#[inline(always)]
pub(crate) fn place_of(table: &[u64], block: u32) -> usize
    ensures { result ≡ place_in table.now block }
{
    place_by(table, last_offset(table), block)
}

/// Returns the bits of the first 2,048 code points, 64 in each word.
#[inline(always)]
pub(crate) fn first_words(table: &[u64]) -> [u64; 32]
    ensures { (c : ℕ) → c < 2048 → bit_among result c ≡ bit_in table.now c }
{
    let first = place_of(table, 0);
    let second = place_of(table, 1);
    let mut words = [0; 32];
    for k in 0..16 {
        words[k] = word(table, first + k);
        words[k + 16] = word(table, second + k);
    }
    words
}

/// Returns the offsets of the 64 blocks of the Basic Multilingual Plane.
#[inline]
pub(crate) fn bmp_offsets(table: &[u64]) -> [u32; 64]
    ensures { (b : ℕ) → b < 64 → slice_index result b ≡ place_in table.now b }
{
    let last = last_offset(table);
    let mut offsets = [place_by(table, last, 64) as u32; 64];
    for b in 0..last.min(64) {
        offsets[b] = place_by(table, last, b as u32) as u32;
    }
    offsets
}

/// Returns the bit of the code point `64 * upper + lower`. Its block's words start at index `place`.
#[tactic(auto, using(crate::proofs::BitLemmas::bit_tested, crate::proofs::FrozenWordLemmas::bit_read))]
#[inline(always)]
pub(crate) fn bit_from(table: &[u64], place: usize, upper: u32, lower: u32) -> bool
    requires place { place ≡ place_in table.now (upper / 16) }
    requires within { lower < 64 }
    ensures { result ≡ bit_in table.now (64 * upper + lower) }
{
    let bits = word(table, place + (upper % 16) as usize);
    (bits >> lower) & 1 == 1
}

/// Returns the bit of the code point `64 * upper + lower`. The last offset is at index `last`.
#[inline(always)]
fn bit_of_parts(table: &[u64], last: usize, upper: u32, lower: u32) -> bool
    requires last { last ≡ offset_words table.now - 1 }
    requires within { lower < 64 }
    ensures { result ≡ bit_in table.now (64 * upper + lower) }
{
    bit_from(table, place_by(table, last, upper / 16), upper, lower)
}

/// Returns whether the frozen set contains the code point. The last offset is at index `last`.
#[inline(always)]
pub(crate) fn contains_by(table: &[u64], last: usize, c: u32) -> bool
    requires { last ≡ offset_words table.now - 1 }
    ensures { result ≡ is_held table.now c }
{
    if c >= CODE_POINT_LIMIT {
        rare();
        return false;
    }
    bit_of_parts(table, last, c / 64, c % 64)
}

/// Returns whether the frozen set contains the code point.
#[inline(always)]
pub(crate) fn contains(table: &[u64], c: u32) -> bool
    ensures { result ≡ is_held table.now c }
{
    contains_by(table, last_offset(table), c)
}

/// A frozen set in 64-bit words, borrowed, for example from a file. It is `Copy`, like `&[u64]`.
///
/// First come offsets, one word for each block of 1,024 code points. A block's offset is the index of
/// the first of its sixteen words, each of which has the bits of 64 code points, lowest first. The
/// words of the block of U+0000 follow the offsets, so its offset is also the number of words of
/// offsets. The last offset is that of all later blocks, too.
///
/// Any words are accepted. Of an offset only the low 32 bits count. Words that are missing count as 0,
/// and words after the set are ignored.
/// [`FrozenCodePointSet::as_words`](crate::frozen::FrozenCodePointSet::as_words) returns the words of
/// a set.
///
/// ```
/// let letters = FrozenView::new(words);
/// // letters.span_utf8(b"ab\xFF", true) is 2
/// ```
///
/// # Contract
/// In contracts, `view_words` is the list of its words. `is_held` says which code points they
/// contain, and `IsFrozenOf` that they are a given set.
#[derive(Clone, Copy, Debug)]
pub struct FrozenView<'a> {
    words: &'a [u64],
}

/// Queries.
impl<'a> FrozenView<'a> {
    /// Returns a view of the frozen set at the start of the words.
    #[inline(always)]
    pub fn new(words: &'a [u64]) -> FrozenView<'a>
        ensures { view_words result ≡ words.now }
    {
        FrozenView { words }
    }

    /// Returns the words of the view.
    #[inline(always)]
    pub(crate) fn words(self) -> &'a [u64]
        ensures { result.now ≡ view_words self.entry }
    {
        self.words
    }

    /// Returns true if the set contains the code point `c`. Returns false for any number above
    /// 0x10FFFF.
    #[inline(always)]
    pub fn contains32(self, c: u32) -> bool
        ensures exact { result ≡ is_held (view_words self.entry) c }
        ensures set { (ends words rest : List ℕ) → IsFrozenOf ends words → view_words self.entry ≡ words ++ rest
            → result ≡ holds ends c }
    {
        contains(self.words, c)
    }

    /// Returns true if the set contains the character `c`.
    #[inline(always)]
    pub fn contains(self, c: char) -> bool
        ensures exact { result ≡ is_held (view_words self.entry) c }
        ensures set { (ends words rest : List ℕ) → IsFrozenOf ends words → view_words self.entry ≡ words ++ rest
            → result ≡ holds ends c }
    {
        self.contains32(u32::from(c))
    }
}

/// Spans of texts.
impl<'a> FrozenView<'a> {
    /// Returns the length in bytes of the longest prefix of `text` whose characters are all in the
    /// set, or all outside it if `held` is false (ICU: `UnicodeSet::spanUTF8`).
    ///
    /// The result is a character boundary, so `&text[set.span(text, true)..]` is the rest of the
    /// text.
    #[inline(always)]
    pub fn span(self, text: &str, held: bool) -> usize
        ensures exact { result
            ≡ length (encode_utf8_all
            (take_while (λ c. beq (is_held (view_words self.entry) c) held) (chars text.now))) }
        ensures set { (ends words rest : List ℕ) → IsFrozenOf ends words → view_words self.entry ≡ words ++ rest
            → result
            ≡ length (encode_utf8_all
            (take_while (λ c. beq (holds ends c) held) (chars text.now))) }
        ensures boundary { IsCharBoundary text.now result }
    {
        self.span_utf8(text.as_bytes(), held)
    }

    /// Returns the length in bytes of the longest prefix of `bytes` whose characters are all in the
    /// set, or all outside it if `held` is false. `bytes` may be ill-formed UTF-8.
    ///
    /// An ill-formed sequence ends the span for both values of `held`; ICU's `UnicodeSet::spanUTF8`
    /// treats it as U+FFFD instead. Reads at most the nine bytes after the span: a long span is
    /// tested eight bytes at a time.
    #[inline(always)]
    pub fn span_utf8(self, bytes: &[u8], held: bool) -> usize
        ensures exact { IsSpan (is_held (view_words self.entry)) held bytes.now result }
        ensures set { (ends words rest : List ℕ) → IsFrozenOf ends words → view_words self.entry ≡ words ++ rest
            → IsSpan (holds ends) held bytes.now result }
    {
        frozen_span(self.words, held, bytes)
    }

    /// Returns the byte offset at which the longest suffix starts whose characters are all in the
    /// set, or all outside it if `held` is false (ICU: `UnicodeSet::spanBackUTF8`).
    ///
    /// The result is a character boundary, so `&text[..set.span_back(text, true)]` is the text
    /// before that suffix.
    #[inline]
    pub fn span_back(self, text: &str, held: bool) -> usize
        ensures exact { IsSpanBack (is_held (view_words self.entry)) held text.now result }
        ensures set { (ends words rest : List ℕ) → IsFrozenOf ends words → view_words self.entry ≡ words ++ rest
            → IsSpanBack (holds ends) held text.now result }
        ensures boundary { IsCharBoundary text.now result }
    {
        self.span_back_utf8(text.as_bytes(), held)
    }

    /// Returns the byte offset at which the longest suffix of `bytes` starts whose characters are
    /// all in the set, or all outside it if `held` is false. `bytes` may be ill-formed UTF-8.
    ///
    /// An ill-formed sequence ends the span for both values of `held`; ICU's
    /// `UnicodeSet::spanBackUTF8` treats it as U+FFFD instead. Reads at most the four bytes before
    /// the span.
    #[inline]
    pub fn span_back_utf8(self, bytes: &[u8], held: bool) -> usize
        ensures exact { IsSpanBack (is_held (view_words self.entry)) held bytes.now result }
        ensures set { (ends words rest : List ℕ) → IsFrozenOf ends words → view_words self.entry ≡ words ++ rest
            → IsSpanBack (holds ends) held bytes.now result }
    {
        span_back(&mut FrozenKind::new(self.words, held), bytes)
    }

    /// Returns the number of units of the longest prefix of 16-bit units whose code points are all
    /// in the set, or all outside it if `held` is false (ICU: `UnicodeSet::span`).
    ///
    /// A high surrogate and the low surrogate after it are one code point. Each other unit is a code
    /// point of its own, even an unpaired surrogate.
    #[inline]
    pub fn span_utf16(self, units: &[u16], held: bool) -> usize
        ensures exact { result ≡ unit_span (is_held (view_words self.entry)) held units.now }
        ensures set { (ends words rest : List ℕ) → IsFrozenOf ends words → view_words self.entry ≡ words ++ rest
            → result ≡ unit_span (holds ends) held units.now }
    {
        span_units(&mut FrozenKind::new(self.words, held), units)
    }
}
