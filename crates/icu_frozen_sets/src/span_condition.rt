//! What a span tests characters for: that they are in a set, or that they are outside it.
ghost use Rattle.std.specs.Prelude.{◌≡◌, ◌-◌, ◌/◌, ◌%◌, ◌<◌, ◌≤◌, ◌==◌, ℕ, true, length, slice_index};
ghost use Rattle.std.specs.Int.{bit_at};
ghost use mathlib.Core.Bool.{beq};
ghost use Rattle.icu_invlist.specs.InversionList.{IsValid, holds};
ghost use Rattle.icu_frozen_sets.specs.FrozenWords.{is_held};
ghost use Rattle.icu_frozen_sets.specs.Inside.SpanConditions.{IsRangeOfKind};
ghost use Rattle.icu_frozen_sets.specs.Inside.TwoByte.{AreShortWords};
ghost use Rattle.icu_frozen_sets.specs.Inside.ThreeByte.{wide_place};

use crate::ascii_blocks::skip_ascii_blocks;
use crate::longest_span::long_span;
use crate::three_byte::{Passed, skip_three_byte};
use crate::two_byte::has_short;
use crate::view::{contains, place_of, word};
use icu_zerovec::CODE_POINT_LIMIT;
use std::marker::Model;

/// After so many bytes a span goes on by tables. Making them takes about as long as passing these.
pub(crate) const LONG: usize = 64;

/// The code points in a set, or those outside it.
pub(crate) trait Kind {
    ghost use Rattle.std.specs.Prelude.{◌≡◌, ◌<◌, ◌≤◌, ℕ, Bool, true, Some, length, slice_index, take};
    ghost use mathlib.Core.Bool.{beq};
    ghost use Rattle.icu_frozen_sets.specs.LongestSpans.{AllHeld, IsSpan};
    ghost use Rattle.icu_frozen_sets.specs.Inside.ThreeByte.{IsPassed};

    /// There is such a set.
    ghost is_sound: { Self → Type 0 };

    /// Whether the set contains a code point.
    ghost is_in: { Self → ℕ → Bool };

    /// Whether the code points in the set are meant, or those outside it.
    ghost held: { Self → Bool };

    /// Returns true if the code point is of this kind.
    fn has(&mut self, c: u32) -> bool
        ensures same { self.new ≡ self.old }
        ensures is { is_sound self.old → result ≡ beq (is_in self.old c) (held self.old) };

    /// Returns true if the ASCII character is of this kind.
    fn has_ascii(&mut self, c: u32) -> bool
        requires { c < 128 }
        ensures same { self.new ≡ self.old }
        ensures is { is_sound self.old → result ≡ beq (is_in self.old c) (held self.old) };

    /// Passes some ASCII characters of this kind, if that is faster than one by one, and returns
    /// the offset after them.
    fn skip_ascii_blocks(&mut self, bytes: &[u8], start: usize) -> usize
        requires { start ≤ length bytes.now }
        ensures same { self.new ≡ self.old }
        ensures order { start ≤ result }
        ensures within { result ≤ length bytes.now }
        ensures ascii { (i : ℕ) → start ≤ i → i < result → slice_index bytes.now i < 128 }
        ensures passed { is_sound self.old → (i : ℕ) → start ≤ i → i < result
            → beq (is_in self.old (slice_index bytes.now i)) (held self.old) ≡ true };

    /// Returns the result of the span, if it is found faster in another way from here on. The first
    /// `passed` bytes are characters of this kind.
    fn rest(&mut self, bytes: &[u8], passed: usize) -> Option<usize>
        requires { passed ≤ length bytes.now }
        ensures same { self.new ≡ self.old }
        ensures within { (n : ℕ) → result ≡ Some n → n ≤ length bytes.now }
        ensures found { (n : ℕ) → result ≡ Some n → is_sound self.old
            → AllHeld (is_in self.old) (held self.old) (take passed bytes.now)
            → IsSpan (is_in self.old) (held self.old) bytes.now n };

    /// Passes some characters of three bytes, if that is faster than one by one.
    fn skip_three_byte(&mut self, bytes: &[u8], start: usize) -> Passed
        requires { start ≤ length bytes.now }
        ensures same { self.new ≡ self.old }
        ensures passed { IsPassed (is_sound self.old) (is_in self.old) (held self.old) bytes.now
            start result };
}

/// A kind by the words of a frozen set.
#[derive(Drop)]
pub(crate) struct FrozenKind<'a> {
    table: &'a [u64],
    held: bool,
    /// A bit for each ASCII character: whether it is of this kind.
    ascii: [u64; 2],
}

impl<'a> Model for FrozenKind<'a> {
    ghost use Rattle.icu_frozen_sets.specs.Inside.SpanConditions.{HasAscii, NumbersAndHeld};

    ghost Value = { NumbersAndHeld };

    ghost view = { λ a. record { numbers = a.table.now; held = a.held } };

    ghost invariant = { λ a. HasAscii a.table.now a.held a.ascii };
}

/// Returns the word if `held` is true, and otherwise the word with each bit the other way.
#[tactic(auto, using(crate::proofs::SpanConditionLemmas::turned_word))]
#[inline(always)]
pub(crate) fn turned(word: u64, held: bool) -> u64
    ensures { (i : ℕ) → i < 64 → (bit_at result i == 1) ≡ beq (bit_at word i == 1) held }
{
    if held { word } else { !word }
}

/// Returns the word with the bit of an ASCII character. Without an index, both words are in
/// registers.
#[inline(always)]
fn ascii_word(words: &[u64; 2], c: u32) -> u64
    requires { c < 128 }
    ensures { result ≡ slice_index words.now (c / 64) }
{
    if c < 64 { words[0] } else { words[1] }
}

impl<'a> FrozenKind<'a> {
    /// Returns the kind by the frozen set at the start of the words.
    #[tactic(auto, using(crate::proofs::SpanConditionLemmas::has_ascii))]
    #[inline(always)]
    pub(crate) fn new(table: &'a [u64], held: bool) -> FrozenKind<'a>
        ensures { result ≡ record { numbers = table.now; held = held } }
    {
        let first = place_of(table, 0);
        let ascii = [
            turned(word(table, first), held),
            turned(word(table, first + 1), held),
        ];
        FrozenKind { table, held, ascii }
    }
}

impl<'a> Kind for FrozenKind<'a> {
    ghost is_sound = { λ kind. Unit {0} };

    ghost is_in = { λ kind. is_held kind.numbers };

    ghost held = { λ kind. kind.held };

    #[inline(always)]
    fn has(&mut self, c: u32) -> bool {
        contains(self.table, c) == self.held
    }

    #[inline(always)]
    fn has_ascii(&mut self, c: u32) -> bool {
        (ascii_word(&self.ascii, c) >> (c % 64)) & 1 == 1
    }

    #[inline(always)]
    fn skip_ascii_blocks(&mut self, _bytes: &[u8], start: usize) -> usize {
        start
    }

    #[inline(always)]
    fn rest(&mut self, bytes: &[u8], passed: usize) -> Option<usize> {
        if passed < LONG {
            return None;
        }
        Some(long_span(self.table, self.held, bytes, passed))
    }

    #[inline(always)]
    fn skip_three_byte(&mut self, _bytes: &[u8], start: usize) -> Passed {
        Passed {
            end: start,
            is_end: false,
        }
    }
}

/// A kind by tables that are made of a frozen set.
#[derive(Drop)]
pub(crate) struct LongKind<'a> {
    table: &'a [u64],
    held: bool,
    /// The words of characters of one and two bytes.
    words: &'a [u64; 36],
    /// The offsets of blocks of characters of three bytes.
    places: &'a [u32; 64],
    /// 0 only for ASCII characters of this kind, and bytes that are not ASCII.
    others: &'a [u8; 256],
}

impl<'a> Model for LongKind<'a> {
    ghost use Rattle.icu_frozen_sets.specs.Inside.SpanConditions.{NumbersAndHeld};
    ghost use Rattle.icu_frozen_sets.specs.Inside.ThreeByte.{AreWideTables};

    ghost Value = { NumbersAndHeld };

    ghost view = { λ a. record { numbers = a.table.now; held = a.held } };

    ghost invariant = { λ a. AreWideTables a.table.now a.held a.words.now a.others.now
        a.places.now };
}

impl<'a> LongKind<'a> {
    /// Returns the kind by the frozen set at the start of the table, with the tables made of it.
    #[inline(always)]
    pub(crate) fn new(
        table: &'a [u64],
        held: bool,
        words: &'a [u64; 36],
        places: &'a [u32; 64],
        others: &'a [u8; 256],
    ) -> LongKind<'a>
        requires short { AreShortWords table.now held words.now }
        requires wide { (b : ℕ) → b < 64 → slice_index places.now b ≡ wide_place table.now b }
        requires plain { (c : ℕ) → c < 128 → slice_index others.now c ≡ 0
            → (bit_at (slice_index words.now (c / 64)) (c % 64) == 1) ≡ true }
        ensures { result ≡ record { numbers = table.now; held = held } }
    {
        LongKind {
            table,
            held,
            words,
            places,
            others,
        }
    }
}

impl<'a> Kind for LongKind<'a> {
    ghost is_sound = { λ kind. Unit {0} };

    ghost is_in = { λ kind. is_held kind.numbers };

    ghost held = { λ kind. kind.held };

    #[inline(always)]
    fn has(&mut self, c: u32) -> bool {
        if c < 0x800 {
            return has_short(self.words, c);
        }
        contains(self.table, c) == self.held
    }

    #[inline(always)]
    fn has_ascii(&mut self, c: u32) -> bool {
        has_short(self.words, c)
    }

    #[inline(always)]
    fn skip_ascii_blocks(&mut self, bytes: &[u8], start: usize) -> usize {
        skip_ascii_blocks(self.others, bytes, start)
    }

    #[inline(always)]
    fn rest(&mut self, _bytes: &[u8], _passed: usize) -> Option<usize> {
        None
    }

    #[inline(always)]
    fn skip_three_byte(&mut self, bytes: &[u8], start: usize) -> Passed {
        skip_three_byte(self.table, self.held, self.words, self.places, bytes, start)
    }
}

/// The code points between two boundaries of a set that follow one another, and whether they are of
/// a kind.
#[derive(Clone, Copy)]
pub(crate) struct RangeOfKind {
    /// The first code point.
    from: u32,
    /// The code point after the last one.
    to: u32,
    /// Whether they are of the kind.
    is_of_kind: bool,
}

/// Returns the boundary before index `i`, or 0 if there is none.
#[inline(always)]
fn boundary_before(ends: &[u32], i: usize) -> u32
    requires { i ≤ length ends.now }
    ensures { 0 < i → result ≡ slice_index ends.now (i - 1) }
{
    if i > 0 { ends[i - 1] } else { 0 }
}

/// Returns the boundary at index `i`, or the end of the code space if there is none.
#[inline(always)]
fn boundary_at(ends: &[u32], i: usize) -> u32
    ensures { i < length ends.now → result ≡ slice_index ends.now i }
{
    if i < ends.len() {
        ends[i]
    } else {
        CODE_POINT_LIMIT
    }
}

/// Returns the range that contains the code point. As the boundaries ascend, at most `c + 1` of
/// them are not above `c`.
#[inline(never)]
fn range_at(ends: &[u32], held: bool, c: u32) -> RangeOfKind
    ensures range { IsRangeOfKind ends.now held result.from result.to result.is_of_kind }
    ensures here { IsValid ends.now → result.is_of_kind ≡ beq (holds ends.now c) held }
{
    let most = ends.len().min(c as usize + 1);
    let before = ends[..most].partition_point(|end| *end <= c);
    RangeOfKind {
        from: boundary_before(ends, before),
        to: boundary_at(ends, before),
        is_of_kind: (before % 2 == 1) == held,
    }
}

/// A kind by the boundaries of a set. It remembers the range that it searched last.
#[derive(Drop)]
pub(crate) struct EndsKind<'a> {
    ends: &'a [u32],
    held: bool,
    range: RangeOfKind,
}

impl<'a> Model for EndsKind<'a> {
    ghost use Rattle.icu_frozen_sets.specs.Inside.SpanConditions.{IsRangeOfKind, NumbersAndHeld};

    ghost Value = { NumbersAndHeld };

    ghost view = { λ a. record { numbers = a.ends.now; held = a.held } };

    ghost invariant = { λ a. IsRangeOfKind a.ends.now a.held a.range.from a.range.to
        a.range.is_of_kind };
}

impl<'a> EndsKind<'a> {
    /// Returns the kind by the set with these boundaries. No range is known yet.
    #[inline(always)]
    pub(crate) fn new(ends: &'a [u32], held: bool) -> EndsKind<'a>
        ensures { result ≡ record { numbers = ends.now; held = held } }
    {
        let range = RangeOfKind {
            from: 0,
            to: 0,
            is_of_kind: false,
        };
        EndsKind { ends, held, range }
    }
}

impl<'a> Kind for EndsKind<'a> {
    ghost is_sound = { λ kind. IsValid kind.numbers };

    ghost is_in = { λ kind. holds kind.numbers };

    ghost held = { λ kind. kind.held };

    #[inline(always)]
    fn has(&mut self, c: u32) -> bool {
        if c < self.range.from || c >= self.range.to {
            self.range = range_at(self.ends, self.held, c);
        }
        self.range.is_of_kind
    }

    #[inline(always)]
    fn has_ascii(&mut self, c: u32) -> bool {
        self.has(c)
    }

    #[inline(always)]
    fn skip_ascii_blocks(&mut self, _bytes: &[u8], start: usize) -> usize {
        start
    }

    #[inline(always)]
    fn rest(&mut self, _bytes: &[u8], _passed: usize) -> Option<usize> {
        None
    }

    #[inline(always)]
    fn skip_three_byte(&mut self, _bytes: &[u8], start: usize) -> Passed {
        Passed {
            end: start,
            is_end: false,
        }
    }
}
