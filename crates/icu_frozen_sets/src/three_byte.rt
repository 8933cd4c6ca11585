//! Characters of three bytes that follow one another. One ASCII character may come before each of
//! them, as a space between words does.
ghost use Rattle.std.specs.Prelude.{◌≡◌, ℕ, ◌+◌, ◌*◌, ◌/◌, ◌%◌, ◌^◌, ◌<◌, ◌≤◌, ◌==◌, Some, true, length, slice_index};
ghost use Rattle.std.specs.Int.{bit_at};
ghost use Rattle.icu_frozen_sets.specs.FrozenWords.{is_held};
ghost use Rattle.icu_frozen_sets.specs.Inside.TwoByte.{AreShortWords};
ghost use Rattle.icu_frozen_sets.specs.Inside.ThreeByte.{AreBitsOf, AreOfThree, IsPassed, IsThree, wide_place};

use crate::two_byte::has_short;
use crate::view::place_of;

/// In the table of block offsets: the block has no character of three bytes.
const NO_PLACE: u32 = u32::MAX;

/// How far a span has passed characters.
#[derive(Clone, Copy)]
pub(crate) struct Passed {
    /// The offset after the characters.
    pub(crate) end: usize,
    /// Whether the span ends there, as the next character is not of the kind.
    pub(crate) is_end: bool,
}

/// Returns the offset of a block, or [`NO_PLACE`] if it has shorter characters, or surrogates.
#[inline(always)]
fn wide_place_of(table: &[u64], block: u32) -> u32
    ensures { result ≡ wide_place table.now block }
{
    if block / 2 == 0 || block / 2 == 27 {
        return NO_PLACE;
    }
    place_of(table, block) as u32
}

/// Returns the offsets of the first 64 blocks. Blocks of shorter characters, and of surrogates, have
/// [`NO_PLACE`].
#[tactic(auto, using(crate::proofs::ThreeByteLemmas::wide_more))]
#[inline(always)]
pub(crate) fn wide_places(table: &[u64]) -> [u32; 64]
    ensures { (b : ℕ) → b < 64 → slice_index result b ≡ wide_place table.now b }
{
    let mut places = [0; 64];
    for block in 0..64 {
        places[block] = wide_place_of(table, block as u32);
    }
    places
}

/// Returns whether the bit of a byte's lowest six bits is 1.
#[inline(always)]
fn has_bit_of(bits: u64, byte: u8) -> bool
    ensures { result ≡ (bit_at bits (byte % 64) == 1) }
{
    (bits >> (byte % 64)) & 1 == 1
}

/// Returns true if the first byte is ASCII and the second one is not.
#[inline(always)]
fn is_lone_ascii(bytes: &[u8]) -> bool
    requires { 2 ≤ length bytes.now }
    ensures { result ≡ true → slice_index bytes.now 0 < 128 }
{
    bytes[0] < 0x80 && bytes[1] >= 0x80
}

/// Returns the upper ten bits of the code point that three bytes encode, or `None` if they are not
/// a lead byte and two trail bytes.
#[inline(always)]
fn high_of_three(bytes: &[u8]) -> Option<u32>
    requires { 3 ≤ length bytes.now }
    ensures { (high : ℕ) → result ≡ Some high → IsThree bytes.now high }
{
    if bytes[1] / 64 != 2 || bytes[2] / 64 != 2 {
        return None;
    }
    let both = 64 * u32::from(bytes[0]) + u32::from(bytes[1]);
    if both < 0x3880 || both >= 0x3C80 {
        return None;
    }
    Some(both - 0x3880)
}

/// Returns the bits of the 64 code points with these upper bits: whether they are in the set.
/// `None` if they are not characters of three bytes, or if the word is missing.
#[inline(always)]
fn three_bits(table: &[u64], places: &[u32; 64], high: u32) -> Option<u64>
    requires most { high < 1024 }
    requires wide { (b : ℕ) → b < 64 → slice_index places.now b ≡ wide_place table.now b }
    ensures three { (bits : ℕ) → result ≡ Some bits → AreOfThree high }
    ensures bits { (bits : ℕ) → result ≡ Some bits → AreBitsOf (is_held table.now) high bits }
{
    let place = places[(high / 16) as usize];
    let index = place as usize + (high % 16) as usize;
    if place == NO_PLACE || index >= table.len() {
        return None;
    }
    Some(table[index])
}

/// Passes characters of three bytes that are of the kind of these tables, and single ASCII
/// characters of the kind before them. It may stop before the last of them.
#[inline(always)]
pub(crate) fn skip_three_byte(
    table: &[u64],
    held: bool,
    words: &[u64; 36],
    places: &[u32; 64],
    bytes: &[u8],
    start: usize,
) -> Passed
    requires order { start ≤ length bytes.now }
    requires short { AreShortWords table.now held words.now }
    requires wide { (b : ℕ) → b < 64 → slice_index places.now b ≡ wide_place table.now b }
    ensures { IsPassed (Unit {0}) (is_held table.now) held bytes.now start result }
{
    let mut rest = &bytes[start..];
    while rest.len() >= 3 {
        let end = bytes.len() - rest.len();
        if let Some(high) = high_of_three(rest) {
            let Some(bits) = three_bits(table, places, high) else {
                return Passed { end, is_end: false };
            };
            if has_bit_of(bits, rest[2]) != held {
                return Passed { end, is_end: true };
            }
            rest = &rest[3..];
        } else {
            if !is_lone_ascii(rest) {
                return Passed { end, is_end: false };
            }
            if !has_short(words, u32::from(rest[0])) {
                return Passed { end, is_end: true };
            }
            rest = &rest[1..];
        }
    }
    Passed {
        end: bytes.len() - rest.len(),
        is_end: false,
    }
}
