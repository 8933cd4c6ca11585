//! The value of the first part of bytes that may be ill-formed UTF-8.
ghost use Rattle.std.specs.Prelude.{◌≡◌, ◌+◌, ◌*◌, ◌<◌, ◌≤◌, length, slice_index, IfSome, false};
ghost use Rattle.icu_trie_text.specs.CopiedParts.{HasFirstValue};

use crate::part_values::{PartValues, Reading};
use icu_utf::characters::first_character;
use icu_utf::first_utf8::{ill_formed_size, is_high_of_four, is_high_of_three, trail_of};

/// Returns the value of the first part of the bytes, which are not empty, and its size in bytes. It
/// is a call, for the parts that `inlined_first_value` leaves.
#[inline(never)]
pub(crate) fn outlined_first_value<T, V: PartValues<T>>(trie: &V, bytes: &[u8]) -> (T, usize)
    requires { 0 < length bytes.now }
    ensures { HasFirstValue (V.gives trie.now) bytes.now result.0 result.1 }
{
    match first_character(bytes) {
        Some((c, size)) => (trie.value(u32::from(c)), size),
        None => (trie.error(), ill_formed_size(bytes)),
    }
}

/// Returns the value of the two-byte character at the start of the bytes. `None` if there is none.
#[inline(always)]
fn two_byte_value<T, V: PartValues<T>>(trie: &V, bytes: &[u8]) -> Option<T>
    requires bytes { 2 ≤ length bytes.now }
    requires from { 0xC2 ≤ slice_index bytes.now 0 }
    requires to { slice_index bytes.now 0 < 0xE0 }
    requires blocks { 0x20 ≤ V.fast_blocks trie.now }
    ensures { IfSome result (λ x. HasFirstValue (V.gives trie.now) bytes.now x 2) }
{
    let second = trail_of(bytes[1]);
    if second >= 0x40 {
        return None;
    }
    Some(trie.value_in_fast_block(u32::from(bytes[0]) - 0xC0, second))
}

/// Returns the value of the three-byte character at the start of the bytes, in two reads.
/// `None` if there is none, or if its value takes more reads.
#[inline(always)]
fn three_byte_value<T, V: PartValues<T>>(trie: &V, bytes: &[u8]) -> Option<T>
    requires bytes { 3 ≤ length bytes.now }
    requires from { 0xE0 ≤ slice_index bytes.now 0 }
    requires to { slice_index bytes.now 0 < 0xF0 }
    ensures { IfSome result (λ x. HasFirstValue (V.gives trie.now) bytes.now x 3) }
{
    let second = trail_of(bytes[1]);
    let third = trail_of(bytes[2]);
    if second | third >= 0x40 {
        return None;
    }
    let block = (u32::from(bytes[0]) - 0xE0) * 64 + second;
    if !is_high_of_three(block) {
        return None;
    }
    trie.value_in_block(block, third)
}

/// Returns the value of the four-byte character at the start of the bytes. `None` if there is none.
#[inline(always)]
fn four_byte_value<T, V: PartValues<T>>(trie: &V, bytes: &[u8]) -> Option<T>
    requires bytes { 4 ≤ length bytes.now }
    requires from { 0xF0 ≤ slice_index bytes.now 0 }
    ensures { IfSome result (λ x. HasFirstValue (V.gives trie.now) bytes.now x 4) }
{
    let second = trail_of(bytes[1]);
    let third = trail_of(bytes[2]);
    let fourth = trail_of(bytes[3]);
    if second | third | fourth >= 0x40 {
        return None;
    }
    let high = (u32::from(bytes[0]) - 0xF0) * 64 + second;
    if !is_high_of_four(high) {
        return None;
    }
    Some(trie.value(high * 4096 + third * 64 + fourth))
}

/// Returns the value of the character at the start of the bytes, and its size in bytes. `None` if
/// there is none, or if its value takes a call. There are at least four bytes.
#[inline(always)]
fn inlined_first_value<T, V: PartValues<T>>(trie: &V, bytes: &[u8]) -> Option<(T, usize)>
    requires bytes { 4 ≤ length bytes.now }
    requires ascii { V.end_of_ascii trie.now ≡ 0x80 }
    requires two { 0x20 ≤ V.fast_blocks trie.now }
    ensures { IfSome result (λ found. HasFirstValue (V.gives trie.now) bytes.now found.0 found.1) }
{
    let lead = bytes[0];
    if lead < 0xE0 {
        if lead < 0x80 {
            return Some((trie.ascii(lead), 1));
        }
        if lead < 0xC2 {
            return None;
        }
        Some((two_byte_value(trie, bytes)?, 2))
    } else if lead < 0xF0 {
        Some((three_byte_value(trie, bytes)?, 3))
    } else {
        Some((four_byte_value(trie, bytes)?, 4))
    }
}

/// Bytes that may be ill-formed.
pub(crate) struct AnyBytes;

impl<T, V: PartValues<T>> Reading<T, V> for AnyBytes {
    ghost trusts = { false };

    ghost least_blocks = { 0 };

    #[inline(always)]
    fn first_value(trie: &V, bytes: &[u8]) -> (T, usize) {
        match inlined_first_value(trie, bytes) {
            Some(found) => found,
            None => outlined_first_value(trie, bytes),
        }
    }
}
