//! Characters of one and two bytes in any order. Eight bytes are tested at once, without a jump
//! that depends on which of them are ASCII.
ghost use Rattle.std.specs.Prelude.{◌≡◌, ℕ, ◌+◌, ◌-◌, ◌/◌, ◌%◌, ◌<◌, ◌≤◌, ◌==◌, Bool, List, true, false, length, take, slice_index};
ghost use Rattle.std.specs.Int.{bit_at};
ghost use Rattle.icu_frozen_sets.specs.FrozenWords.{is_held};
ghost use Rattle.icu_frozen_sets.specs.LongestSpans.{AllHeld};
ghost use Rattle.icu_frozen_sets.specs.Inside.TwoByte.{AreShortWords, OfEach, has_bit, is_paired, word_of};

use crate::span_condition::turned;
use crate::view::first_words;

/// The bits of the bytes from 0xC0 on: whether they start a character of two bytes.
const LEADS: u64 = 0xFFFF_FFFC;

/// Returns the words of a kind: one for each byte that starts a character of two bytes, and those
/// of the bytes that start a character.
#[tactic(auto, using(crate::proofs::TwoByteLemmas::short_more))]
#[inline(always)]
pub(crate) fn short_words(table: &[u64], held: bool) -> [u64; 36]
    ensures { AreShortWords table.now held result }
{
    let first = first_words(table);
    let mut words = [0; 36];
    for k in 0..32 {
        words[k] = turned(first[k], held);
    }
    words[32] = words[0];
    words[33] = words[1];
    words[35] = LEADS;
    words
}

/// Returns true if each of eight bytes is a trail byte exactly if the byte before it is a lead
/// byte. The byte before the first of them comes first.
#[inline(always)]
fn are_paired(window: &[u8]) -> bool
    requires { length window.now ≡ 9 }
    ensures { result ≡ true → OfEach is_paired window.now 1 9 }
{
    let mut paired = true;
    for k in 0..8 {
        if (window[k + 1] / 64 == 2) != (window[k] >= 0xC0) {
            paired = false;
        }
    }
    paired
}

/// Returns the index of the word with the bit of a byte.
#[inline(always)]
fn word_for(before: u8, byte: u8) -> usize
    ensures index { result ≡ word_of before byte }
    ensures within { result < 36 }
{
    if byte / 64 == 2 {
        usize::from(before % 32)
    } else {
        usize::from(32 + byte / 64)
    }
}

/// Returns true if the bits of eight bytes are 1. The byte before the first of them comes first.
#[inline(always)]
fn have_bits(words: &[u64; 36], window: &[u8]) -> bool
    requires { length window.now ≡ 9 }
    ensures { result ≡ true → OfEach (has_bit words.now) window.now 1 9 }
{
    for k in 0..8 {
        let byte = window[k + 1];
        let bits = words[word_for(window[k], byte)];
        if (bits >> (byte % 64)) & 1 != 1 {
            return false;
        }
    }
    true
}

/// Returns true if eight more bytes follow, and each of them is ASCII of the kind, or part of a
/// character of two bytes that is of the kind as far as it is seen.
#[inline(always)]
fn are_next_short(words: &[u64; 36], bytes: &[u8], end: usize) -> bool
    requires some { 0 < end }
    requires within { end ≤ length bytes.now }
    ensures room { result ≡ true → end + 8 ≤ length bytes.now }
    ensures paired { result ≡ true → OfEach is_paired bytes.now end (end + 8) }
    ensures bits { result ≡ true → OfEach (has_bit words.now) bytes.now end (end + 8) }
{
    if bytes.len() - end < 8 {
        return false;
    }
    let window = &bytes[end - 1..end + 8];
    are_paired(window) && have_bits(words, window)
}

/// Returns true if one of the eight bytes is not ASCII.
#[inline(always)]
fn are_mixed(bytes: &[u8]) -> bool
    requires { length bytes.now ≡ 8 }
    ensures yes { result ≡ true → (k : ℕ) × (k < 8) × (128 ≤ slice_index bytes.now k) }
    ensures no { result ≡ false → (k : ℕ) → k < 8 → slice_index bytes.now k < 128 }
{
    let mut mixed = false;
    for k in 0..8 {
        if bytes[k] >= 0x80 {
            mixed = true;
        }
    }
    mixed
}

/// Returns true if one of 16 bytes is ASCII.
#[inline(always)]
fn have_ascii(bytes: &[u8]) -> bool
    requires { length bytes.now ≡ 16 }
    ensures yes { result ≡ true → (k : ℕ) × (k < 16) × (slice_index bytes.now k < 128) }
    ensures no { result ≡ false → (k : ℕ) → k < 16 → 128 ≤ slice_index bytes.now k }
{
    let mut ascii = false;
    for k in 0..16 {
        if bytes[k] < 0x80 {
            ascii = true;
        }
    }
    ascii
}

/// Returns whether a character of at most two bytes is of the kind.
#[inline(always)]
pub(crate) fn has_short(words: &[u64; 36], c: u32) -> bool
    requires { c < 2048 }
    ensures { result ≡ (bit_at (slice_index words.now (c / 64)) (c % 64) == 1) }
{
    (words[(c / 64) as usize] >> (c % 64)) & 1 == 1
}

/// Passes characters of at most two bytes that are of the kind, as long as each eight bytes have
/// one of two, and returns the offset after them. It may stop before the last of them. It passes
/// none after 16 bytes without ASCII: one by one, characters of two bytes alone are faster.
#[inline(never)]
pub(crate) fn skip_two_byte(words: &[u64; 36], bytes: &[u8], start: usize) -> usize
    requires { start ≤ length bytes.now }
    ensures order { start ≤ result }
    ensures within { result ≤ length bytes.now }
    ensures passed { (table : List ℕ) (held : Bool) → AreShortWords table held words.now
        → AllHeld (is_held table) held (take start bytes.now)
        → AllHeld (is_held table) held (take result bytes.now) }
{
    if start < 16 {
        return start;
    }
    if !have_ascii(&bytes[start - 16..start]) {
        return start;
    }
    if bytes[start - 1] >= 0xC0 {
        return start;
    }
    let mut end = start;
    while are_next_short(words, bytes, end) && are_mixed(&bytes[end..end + 8]) {
        end += 8;
    }
    if bytes[end - 1] >= 0xC0 { end - 1 } else { end }
}
