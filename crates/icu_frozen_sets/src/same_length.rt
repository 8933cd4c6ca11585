//! The characters of a span as long as it is short, without tables. Those of each size have a loop
//! of their own: in a text, a character mostly has the size of the one before it.
ghost use Rattle.std.specs.Prelude.{◌≡◌, ℕ, ◌+◌, ◌<◌, ◌≤◌, Some, false, length, drop, slice_index};
ghost use Rattle.icu_utf.specs.Utf8.{IsFirstPart};
ghost use Rattle.icu_frozen_sets.specs.FrozenWords.{is_held};
ghost use Rattle.icu_frozen_sets.specs.Inside.ThreeByte.{IsPassed, size_by_lead};

use crate::three_byte::Passed;
use crate::view::contains;

/// Returns the character of one byte at the start of the bytes, or `None` if there is none.
#[inline(always)]
fn of_one(bytes: &[u8]) -> Option<u32>
    requires { 1 ≤ length bytes.now }
    ensures found { (c : ℕ) → result ≡ Some c → IsFirstPart bytes.now (Some c) 1 }
    ensures all { (c : ℕ) → IsFirstPart bytes.now (Some c) 1 → result ≡ Some c }
{
    if bytes[0] >= 0x80 {
        return None;
    }
    Some(u32::from(bytes[0]))
}

/// Returns the character of two bytes at the start of the bytes, or `None` if there is none.
#[inline(always)]
fn of_two(bytes: &[u8]) -> Option<u32>
    requires { 2 ≤ length bytes.now }
    ensures found { (c : ℕ) → result ≡ Some c → IsFirstPart bytes.now (Some c) 2 }
    ensures all { (c : ℕ) → IsFirstPart bytes.now (Some c) 2 → result ≡ Some c }
{
    if bytes[0] < 0xC2 || bytes[0] >= 0xE0 || bytes[1] / 64 != 2 {
        return None;
    }
    Some(64 * u32::from(bytes[0] % 32) + u32::from(bytes[1] % 64))
}

/// Returns the character of three bytes at the start of the bytes, or `None` if there is none.
#[inline(always)]
fn of_three(bytes: &[u8]) -> Option<u32>
    requires { 3 ≤ length bytes.now }
    ensures found { (c : ℕ) → result ≡ Some c → IsFirstPart bytes.now (Some c) 3 }
    ensures all { (c : ℕ) → IsFirstPart bytes.now (Some c) 3 → result ≡ Some c }
{
    if bytes[1] / 64 != 2 || bytes[2] / 64 != 2 {
        return None;
    }
    let both = 64 * u32::from(bytes[0]) + u32::from(bytes[1]);
    if both < 0x38A0 || both >= 0x3C80 || both / 32 == 0x1DF {
        return None;
    }
    Some(64 * (both - 0x3880) + u32::from(bytes[2] % 64))
}

/// Returns the character of four bytes at the start of the bytes, or `None` if there is none.
#[inline(always)]
fn of_four(bytes: &[u8]) -> Option<u32>
    requires { 4 ≤ length bytes.now }
    ensures found { (c : ℕ) → result ≡ Some c → IsFirstPart bytes.now (Some c) 4 }
    ensures all { (c : ℕ) → IsFirstPart bytes.now (Some c) 4 → result ≡ Some c }
{
    if bytes[1] / 64 != 2 || bytes[2] / 64 != 2 || bytes[3] / 64 != 2 {
        return None;
    }
    let lead = u32::from(bytes[0]);
    let both = 64 * lead + u32::from(bytes[1]);
    if both < 0x3C90 || both >= 0x3D90 {
        return None;
    }
    let last = 64 * u32::from(bytes[2] % 64) + u32::from(bytes[3] % 64);
    Some(4096 * (both - 0x3C80) + last)
}

/// Returns the character of `SIZE` bytes at the start of the bytes, or `None` if there is none.
#[inline(always)]
fn character<const SIZE: usize>(bytes: &[u8]) -> Option<u32>
    requires some { 1 ≤ SIZE }
    requires most { SIZE ≤ 4 }
    requires there { SIZE ≤ length bytes.now }
    ensures found { (c : ℕ) → result ≡ Some c → IsFirstPart bytes.now (Some c) SIZE }
    ensures all { (c : ℕ) → IsFirstPart bytes.now (Some c) SIZE → result ≡ Some c }
{
    match SIZE {
        1 => of_one(bytes),
        2 => of_two(bytes),
        3 => of_three(bytes),
        _ => of_four(bytes),
    }
}

/// Passes characters of `SIZE` bytes that are of the kind and before the last `far` bytes.
#[inline(always)]
fn skip_of_size<const SIZE: usize>(
    table: &[u64],
    held: bool,
    bytes: &[u8],
    start: usize,
    far: usize,
) -> Passed
    requires some { 1 ≤ SIZE }
    requires most { SIZE ≤ 4 }
    requires far { far ≤ length bytes.now }
    requires order { start ≤ length bytes.now }
    ensures passed { IsPassed (Unit {0}) (is_held table.now) held bytes.now start result }
    ensures far { start + far ≤ length bytes.now → result.end + far ≤ length bytes.now }
    ensures stops { result.is_end ≡ false → result.end + far + SIZE ≤ length bytes.now
        → (c : ℕ) → ¬ (IsFirstPart (drop result.end bytes.now) (Some c) SIZE) }
{
    let mut rest = &bytes[start..];
    while rest.len() >= far + SIZE {
        let end = bytes.len() - rest.len();
        let Some(c) = character::<SIZE>(rest) else {
            return Passed { end, is_end: false };
        };
        if contains(table, c) != held {
            return Passed { end, is_end: true };
        }
        rest = &rest[SIZE..];
    }
    Passed {
        end: bytes.len() - rest.len(),
        is_end: false,
    }
}

/// Passes characters of the kind that have the size of the first one and are before the last `far`
/// bytes.
#[inline(always)]
pub(crate) fn skip_same_length(
    table: &[u64],
    held: bool,
    bytes: &[u8],
    start: usize,
    far: usize,
) -> Passed
    requires far { far ≤ length bytes.now }
    requires order { start < length bytes.now }
    ensures passed { IsPassed (Unit {0}) (is_held table.now) held bytes.now start result }
    ensures far { start + far ≤ length bytes.now → result.end + far ≤ length bytes.now }
    ensures stops { let size = size_by_lead (slice_index bytes.now start) in
        result.is_end ≡ false → result.end + far + size ≤ length bytes.now
        → (c : ℕ) → ¬ (IsFirstPart (drop result.end bytes.now) (Some c) size) }
{
    if bytes[start] < 0x80 {
        return skip_of_size::<1>(table, held, bytes, start, far);
    }
    if bytes[start] < 0xE0 {
        return skip_of_size::<2>(table, held, bytes, start, far);
    }
    if bytes[start] < 0xF0 {
        return skip_of_size::<3>(table, held, bytes, start, far);
    }
    skip_of_size::<4>(table, held, bytes, start, far)
}
