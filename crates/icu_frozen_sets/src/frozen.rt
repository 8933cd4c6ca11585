//! Frozen sets of code points, for many look-ups: a bit for each code point.
ghost use Rattle.std.specs.Prelude.{◌≡◌, ℕ, ◌+◌, ◌*◌, ◌^◌, ◌<◌, ◌≤◌, ◌↔◌, false, drop, length, slice_index, IfOk, IsTrue, nat_eq};
ghost use Rattle.std.specs.List.{take_while};
ghost use Rattle.std.specs.Str.{IsCharBoundary, IsUtf8, chars, encode_utf8_all};
ghost use Rattle.std.specs.Cmp.{partial_equiv_from_equiv};
ghost use Rattle.std.specs.Cmp.Lexicographic.{pointwise, nat_list_eq_equiv};
ghost use mathlib.Core.Bool.{beq};
ghost use mathlib.Core.List.{reverse};
ghost use Rattle.icu_zerovec.specs.CodePoints.{code_point_limit};
ghost use Rattle.icu_invlist.specs.InversionList.{IsValid, holds};
ghost use Rattle.icu_frozen_sets.specs.FrozenView.{view_words};
ghost use Rattle.icu_frozen_sets.specs.FrozenWords.{IsFrozenOf};
ghost use Rattle.icu_frozen_sets.specs.Inside.Characters.{IsAsked};

use crate::ascii::ascii_of;
use crate::view::{FrozenView, bit_from, bmp_offsets, contains_by, first_words, last_offset};
use crate::words::frozen_words;
use icu_invlist::codepointinvlist::CodePointInversionList;
use icu_utf::places::{number_of_four, place_of_three, place_of_two};
use icu_zerovec::MemoryError;
use icu_zerovec::ule::AsULE;
use std::alloc::Global;
use std::marker::Model;

/// A set of code points for many look-ups, each of which reads an offset and a word and searches
/// nothing (ICU: a frozen UnicodeSet).
///
/// It stores the set and, in 64-bit words, a bit for each code point, in blocks of 1,024. The words
/// take 8 bytes for each block up to that of the last boundary below 0x110000, at most 392 bytes more,
/// and 128 bytes for each range, up to 60 ranges and not more than such blocks. If more blocks than that
/// are neither empty nor full, they take at most 256 bytes for each such block.
///
/// ```
/// let letters = FrozenCodePointSet::freeze(alloc, &set)?;
/// // letters.contains('a') is set.contains('a'), and so at every other code point
/// ```
///
/// # Contract
/// In contracts, a frozen set is the list of the set's boundaries.
#[derive(Debug, Drop)]
pub struct FrozenCodePointSet {
    set: CodePointInversionList<'static>,
    /// For each ASCII character, whether the set contains it. Repeats the bits so that a look-up
    /// takes one load.
    ascii: [bool; 128],
    /// The bits of the code points below 0x800, which have at most two bytes in UTF-8: one word for
    /// each lead byte. Repeats the bits so that a look-up in a text takes one load.
    two_bytes: [u64; 32],
    /// The offsets of the 64 blocks of the Basic Multilingual Plane. Repeats them so that a look-up
    /// does not compare the block with the last offset's.
    bmp_offsets: [u32; 64],
    /// The offsets of the blocks, and then the words of the blocks.
    words: Vec<u64>,
    /// The index of the last offset.
    last: usize,
}

impl Model for FrozenCodePointSet {
    ghost use Rattle.std.specs.Prelude.{List, ℕ};
    ghost use Rattle.icu_frozen_sets.specs.Inside.Filling.{IsFrozen};

    ghost Value = { List ℕ };

    ghost view = { λ a. a.set };

    ghost invariant = { λ a. IsFrozen a.set a.ascii a.two_bytes a.bmp_offsets a.words.items a.last };
}

/// Constructors and copies.
impl FrozenCodePointSet {
    /// Returns a frozen set with the code points of `set` (ICU: `UnicodeSet::freeze`). It has its
    /// own copy of the boundaries, and `set` is unchanged.
    ///
    /// # Errors
    /// Returns `MemoryError` if an allocation fails.
    #[tactic(auto, using(crate::proofs::FreezeLemmas::frozen_owned))]
    pub fn freeze(
        alloc: Global,
        set: &CodePointInversionList<'_>,
    ) -> Result<FrozenCodePointSet, MemoryError>
        ensures ok { IfOk result (λ s. s ≡ set.now) }
    {
        let words = frozen_words(alloc, set.as_inversion_list())?;
        Ok(FrozenCodePointSet {
            set: set.try_clone(alloc)?,
            ascii: ascii_of(set),
            two_bytes: first_words(&words),
            bmp_offsets: bmp_offsets(&words),
            last: last_offset(&words),
            words,
        })
    }

    /// Returns an equal frozen set. This copies the bits and does not compute them again.
    ///
    /// # Errors
    /// Returns `MemoryError` if an allocation fails.
    pub fn try_clone(&self, alloc: Global) -> Result<FrozenCodePointSet, MemoryError>
        ensures ok { IfOk result (λ s. s ≡ self.now) }
    {
        Ok(FrozenCodePointSet {
            set: self.set.try_clone(alloc)?,
            ascii: self.ascii,
            two_bytes: self.two_bytes,
            bmp_offsets: self.bmp_offsets,
            words: Vec::from_slice(alloc, &self.words)?,
            last: self.last,
        })
    }
}

/// Queries.
impl FrozenCodePointSet {
    /// Returns a reference to the set that was frozen, with its boundaries.
    pub fn as_set(&self) -> &CodePointInversionList<'static>
        ensures ends { result.now ≡ self.now }
        ensures valid { IsValid self.now }
    {
        &self.set
    }

    /// Returns the words of the frozen set, for example to write them to a file. [`FrozenView`] says
    /// what is in them.
    ///
    /// A small set takes few words: one for each block of 1,024 code points up to that of the last
    /// boundary below 0x110000, at most 49 more, and sixteen for each block but the first that is
    /// neither empty nor full. White_Space takes 110 words.
    ///
    /// [`FrozenView::new`] makes them a frozen set again, without a copy.
    ///
    /// ```
    /// let words = letters.as_words();
    /// // FrozenView::new(words).contains('A') is letters.contains('A')
    /// ```
    pub fn as_words(&self) -> &[u64]
        ensures { IsFrozenOf self.now result.now }
    {
        &self.words
    }

    /// Returns a view of the words of the frozen set.
    #[inline(always)]
    pub fn as_view(&self) -> FrozenView<'_>
        ensures { IsFrozenOf self.now (view_words result) }
    {
        FrozenView::new(&self.words)
    }

    /// Returns true if the set contains the code point `c`. Returns false for any number above
    /// 0x10FFFF.
    #[inline(always)]
    pub fn contains32(&self, c: u32) -> bool
        ensures held { result ≡ holds self.now c }
        ensures far { code_point_limit ≤ c → result ≡ false }
    {
        if c < 0x10000 {
            return self.contains_bmp(c / 64, c % 64);
        }
        contains_by(&self.words, self.last, c)
    }

    /// Returns true if the set contains the character `c`.
    #[inline(always)]
    pub fn contains(&self, c: char) -> bool
        ensures { result ≡ holds self.now c }
    {
        self.contains32(u32::from(c))
    }
}

/// Spans of text.
impl FrozenCodePointSet {
    /// Returns true if the set contains the code point `64 * word + place`, which is below 0x800.
    /// In UTF-8 of two bytes, `word` comes from the lead byte and `place` from the trail byte.
    #[inline(always)]
    fn contains_short(&self, word: u32, place: u32) -> bool
        requires short { word < 32 }
        requires within { place < 64 }
        ensures { result ≡ holds self.now (64 * word + place) }
    {
        let bits = self.two_bytes[word as usize];
        (bits >> place) & 1 == 1
    }

    /// Returns true if the set contains the code point `64 * upper + lower`, which is below 0x10000.
    #[inline(always)]
    fn contains_bmp(&self, upper: u32, lower: u32) -> bool
        requires plane { upper < 1024 }
        requires within { lower < 64 }
        ensures { result ≡ holds self.now (64 * upper + lower) }
    {
        // The remainder is the block itself. It shows rustc that the index is in bounds.
        let place = self.bmp_offsets[(upper / 16 % 64) as usize];
        bit_from(&self.words, place as usize, upper, lower)
    }

    /// Returns whether the set contains the first character of the bytes, and its length in bytes.
    #[inline(always)]
    fn ask_first(&self, bytes: &[u8]) -> (bool, usize)
        requires utf8 { IsUtf8 bytes.now }
        requires more { 0 < length bytes.now }
        ensures { IsAsked self.now bytes.now 0 result.0 result.1 }
    {
        let lead = bytes[0];
        if lead < 0x80 {
            return (self.ascii[lead as usize], 1);
        }
        if lead < 0xE0 {
            let (upper, lower) = place_of_two(bytes);
            return (self.contains_short(upper, lower), 2);
        }
        if lead < 0xF0 {
            let (upper, lower) = place_of_three(bytes);
            return (self.contains_bmp(upper, lower), 3);
        }
        (self.contains32(number_of_four(bytes)), 4)
    }

    /// Returns whether the set contains the character that starts at offset `start`, and the offset
    /// of its end.
    #[tactic(auto, using(std::proofs::lemmas::Slice::between_to_end, crate::proofs::CharacterLemmas::asked_on))]
    #[inline(always)]
    fn ask_character(&self, bytes: &[u8], start: usize) -> (bool, usize)
        requires utf8 { IsUtf8 (drop start bytes.now) }
        requires more { start < length bytes.now }
        ensures { IsAsked self.now bytes.now start result.0 result.1 }
    {
        let (is_held, len) = self.ask_first(&bytes[start..]);
        (is_held, start + len)
    }

    /// Returns the offset of the first byte from `start` on that is not ASCII, or whose membership
    /// in the set is not `held`, or of the end of the text.
    #[inline(always)]
    fn past_ascii(&self, text: &str, start: usize, held: bool) -> usize
        requires { IsCharBoundary text.now start }
        ensures so_far { result
            + length (encode_utf8_all
            (take_while (λ c. beq (holds self.now c) held) (chars (drop result text.now))))
            ≡ start + length (encode_utf8_all
            (take_while (λ c. beq (holds self.now c) held) (chars (drop start text.now)))) }
        ensures order { start ≤ result }
        ensures stops { result < length text.now → slice_index text.now result < 128
            → beq (holds self.now (slice_index text.now result)) held ≡ false }
        ensures boundary { IsCharBoundary text.now result }
    {
        let bytes = text.as_bytes();
        let mut end = start;
        while end < bytes.len() {
            let byte = bytes[end];
            if byte >= 0x80 {
                return end;
            }
            if self.ascii[byte as usize] != held {
                return end;
            }
            end += 1;
        }
        end
    }

    /// Returns the length in bytes of the longest prefix of `text` whose characters are all in the
    /// set, or all outside it if `held` is false (ICU: `UnicodeSet::spanUTF8`).
    ///
    /// The result is a character boundary, so `&text[set.span(text, true)..]` is the rest of the
    /// text.
    #[inline(never)]
    pub fn span(&self, text: &str, held: bool) -> usize
        ensures place { result
            ≡ length (encode_utf8_all
            (take_while (λ c. beq (holds self.now c) held) (chars text.now))) }
        ensures boundary { IsCharBoundary text.now result }
    {
        let bytes = text.as_bytes();
        let mut passed = 0;
        loop {
            let start = self.past_ascii(text, passed, held);
            if start >= bytes.len() {
                return start;
            }
            let (is_held, end) = self.ask_character(bytes, start);
            if is_held != held {
                return start;
            }
            passed = end;
        }
    }

    /// Returns the byte offset at which the longest suffix starts whose characters are all in the
    /// set, or all outside it if `held` is false (ICU: `UnicodeSet::spanBackUTF8`).
    ///
    /// The result is a character boundary, so `&text[..set.span_back(text, true)]` is the text
    /// before that suffix.
    pub fn span_back(&self, text: &str, held: bool) -> usize
        ensures place { result + length
            (encode_utf8_all
            (take_while (λ c. beq (holds self.now c) held) (reverse (chars text.now))))
            ≡ length text.now }
        ensures boundary { IsCharBoundary text.now result }
    {
        let mut start = text.len();
        for c in text.chars().rev() {
            c.shown();
            if self.contains(c) != held {
                return start;
            }
            start -= c.len_utf8();
        }
        start
    }
}

/// Compares the sets, because the set determines the bits.
impl PartialEq for FrozenCodePointSet {
    ghost eq = { pointwise nat_eq };

    ghost laws = { partial_equiv_from_equiv nat_list_eq_equiv };

    fn eq(&self, other: &Self) -> bool
        ensures value { result ≡ pointwise nat_eq self.now other.now }
        ensures same { IsTrue result ↔ (self.now ≡ other.now) }
        ensures members { IsTrue result
            ↔ ((c : ℕ) → c < code_point_limit → holds self.now c ≡ holds other.now c) }
    {
        self.set == other.set
    }
}

impl Eq for FrozenCodePointSet {
    ghost laws = { nat_list_eq_equiv };
}
