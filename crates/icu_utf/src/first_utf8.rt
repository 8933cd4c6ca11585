//! The first part of bytes that may be ill-formed UTF-8.
ghost use Rattle.std.specs.Prelude.{◌≡◌, ◌+◌, ◌*◌, ◌/◌, ◌^◌, ◌<◌, ◌≤◌, ◌↔◌, ◌⊎◌, Some, IsTrue, length, slice_index};
ghost use Rattle.std.specs.Option.{MatchOption};
ghost use Rattle.std.specs.Str.{StartsWithNoChar};
ghost use Rattle.icu_utf.specs.Trails.{IsHighOfFour, IsHighOfThree, IsNoTrail, IsTrail, LacksTrail, LacksTrailOfThree};
ghost use Rattle.icu_utf.specs.Utf8.{IsFirstPart, IsIllFormedPart};

/// Returns the six bits of a trail byte. For any other byte it returns 64 or more.
#[inline(always)]
pub fn trail_of(byte: u8) -> u32
    ensures bound { result < 0x100 }
    ensures byte { result < 64 → byte ≡ 0x80 + result }
    ensures other { 64 ≤ result → (byte < 0x80) ⊎ (0xC0 ≤ byte) }
{
    u32::from(byte.wrapping_sub(0x80))
}

/// Returns the six bits of the trail byte at `place`, or `None` if there is no trail byte.
#[inline(always)]
fn trail_bits(bytes: &[u8], place: usize) -> Option<u32>
    ensures { MatchOption result (IsNoTrail bytes.now place) (IsTrail bytes.now place) }
{
    let bits = trail_of(*bytes.get(place)?);
    if bits >= 0x40 {
        return None;
    }
    Some(bits)
}

/// Returns the block of 64 code points and the index in it of the character at the start of the
/// bytes, or `None` if there is none. The first byte is the lead byte of two.
#[inline(always)]
pub fn place_of_two(bytes: &[u8]) -> Option<(u32, u32)>
    requires some { 0 < length bytes.now }
    requires from { 0xC2 ≤ slice_index bytes.now 0 }
    requires to { slice_index bytes.now 0 < 0xE0 }
    ensures { MatchOption result (StartsWithNoChar bytes.now)
        (λ found. (found.1 < 64) × IsFirstPart bytes.now (Some (found.0 * 64 + found.1)) 2
        × (found.0 < 0x20)) }
{
    let first = u32::from(bytes[0]) - 0xC0;
    let second = trail_bits(bytes, 1)?;
    Some((first, second))
}

/// Returns the character at the start of the bytes, or `None` if there is none. The first byte is
/// the lead byte of two.
#[inline(always)]
pub fn of_two(bytes: &[u8]) -> Option<char>
    requires some { 0 < length bytes.now }
    requires from { 0xC2 ≤ slice_index bytes.now 0 }
    requires to { slice_index bytes.now 0 < 0xE0 }
    ensures { MatchOption result (StartsWithNoChar bytes.now)
        (λ c. IsFirstPart bytes.now (Some c) 2) }
{
    let (block, place) = place_of_two(bytes)?;
    char::from_u32(block * 64 + place)
}

/// Returns the six bits of each of the two bytes after the first, or `None` if one of them is no
/// trail byte. It takes one test.
#[inline(always)]
fn two_trails(bytes: &[u8]) -> Option<(u32, u32)>
    requires { 3 ≤ length bytes.now }
    ensures { MatchOption result (LacksTrail bytes.now)
        (λ found. IsTrail bytes.now 1 found.0 × IsTrail bytes.now 2 found.1) }
{
    let second = trail_of(bytes[1]);
    let third = trail_of(bytes[2]);
    if second | third >= 0x40 {
        return None;
    }
    Some((second, third))
}

/// Returns the block of 64 code points and the index in it of the character at the start of the
/// bytes, or `None` if there is none. The first byte is the lead byte of three. Overlong sequences
/// and surrogates are not characters. The length is checked once, for all reads.
#[inline(always)]
pub fn place_of_three(bytes: &[u8]) -> Option<(u32, u32)>
    requires some { 0 < length bytes.now }
    requires from { 0xE0 ≤ slice_index bytes.now 0 }
    requires to { slice_index bytes.now 0 < 0xF0 }
    ensures { MatchOption result (StartsWithNoChar bytes.now)
        (λ found. (found.1 < 64) × IsFirstPart bytes.now (Some (found.0 * 64 + found.1)) 3) }
{
    if bytes.len() < 3 {
        return None;
    }
    let (second, third) = two_trails(bytes)?;
    let first = u32::from(bytes[0]) - 0xE0;
    let block = first * 64 + second;
    if !is_high_after(first, block) {
        return None;
    }
    Some((block, third))
}

/// Returns the character at the start of the bytes, or `None` if there is none. The first byte is
/// the lead byte of three.
#[inline(always)]
pub fn of_three(bytes: &[u8]) -> Option<char>
    requires some { 0 < length bytes.now }
    requires from { 0xE0 ≤ slice_index bytes.now 0 }
    requires to { slice_index bytes.now 0 < 0xF0 }
    ensures { MatchOption result (StartsWithNoChar bytes.now)
        (λ c. IsFirstPart bytes.now (Some c) 3) }
{
    let (block, place) = place_of_three(bytes)?;
    char::from_u32(block * 64 + place)
}

/// Returns the six bits of each of the three bytes after the first, or `None` if one of them is no
/// trail byte. It takes one test.
#[inline(always)]
fn three_trails(bytes: &[u8]) -> Option<(u32, u32, u32)>
    requires { 4 ≤ length bytes.now }
    ensures { MatchOption result (LacksTrailOfThree bytes.now)
        (λ found. IsTrail bytes.now 1 found.0 × IsTrail bytes.now 2 found.1
        × IsTrail bytes.now 3 found.2) }
{
    let second = trail_of(bytes[1]);
    let third = trail_of(bytes[2]);
    let fourth = trail_of(bytes[3]);
    if second | third | fourth >= 0x40 {
        return None;
    }
    Some((second, third, fourth))
}

/// Returns the character at the start of the bytes, or `None` if there is none. The first byte is
/// the lead byte of four, or greater. Overlong sequences and numbers above 0x10FFFF are not
/// characters. The length is checked once, for all reads.
#[inline(always)]
pub fn of_four(bytes: &[u8]) -> Option<char>
    requires some { 0 < length bytes.now }
    requires from { 0xF0 ≤ slice_index bytes.now 0 }
    ensures { MatchOption result (StartsWithNoChar bytes.now)
        (λ c. IsFirstPart bytes.now (Some c) 4) }
{
    if bytes.len() < 4 {
        return None;
    }
    let (second, third, fourth) = three_trails(bytes)?;
    let high = (u32::from(bytes[0]) - 0xF0) * 64 + second;
    if !is_high_of_four(high) {
        return None;
    }
    char::from_u32(high * 4096 + third * 64 + fourth)
}

/// The upper five bits of three-byte characters: bit `n` is 1 if they cannot be `n`. Those of
/// overlong sequences are 0, those of surrogates 27.
const NO_UPPER_FIVE: u32 = 1 | 1 << 27;

/// Returns true if these can be the upper ten bits of a three-byte character, which its first two
/// bytes contain: they are not those of an overlong sequence or a surrogate. It takes one test.
#[inline(always)]
pub fn is_high_of_three(high: u32) -> bool
    requires { high < 0x400 }
    ensures { IsTrue result ↔ IsHighOfThree high }
{
    (NO_UPPER_FIVE >> (high / 32)) & 1 == 0
}

/// The lead bytes of three after which not every trail byte can follow, 0xE0 and 0xED: bit `n` is
/// that of `0xE0 + n`.
const PARTIAL_LEADS: u32 = 0x2001;

/// Returns the same as `is_high_of_three` of ten bits whose upper four are `first`. For most lead
/// bytes the second byte is not needed.
#[inline(always)]
fn is_high_after(first: u32, high: u32) -> bool
    requires lead { first < 16 }
    requires high { high / 64 ≡ first }
    ensures { IsTrue result ↔ IsHighOfThree high }
{
    if (PARTIAL_LEADS >> first) & 1 == 0 {
        return true;
    }
    is_high_of_three(high)
}

/// Returns true if these can be the upper nine bits of a four-byte character, which its first two
/// bytes contain: they are not those of an overlong sequence or a number above 0x10FFFF.
#[inline(always)]
pub fn is_high_of_four(high: u32) -> bool
    ensures { IsTrue result ↔ IsHighOfFour high }
{
    0x10 <= high && high < 0x110
}

/// Returns the length of the ill-formed part if the first byte is the lead byte of three.
fn size_of_three(bytes: &[u8]) -> usize
    requires none { StartsWithNoChar bytes.now }
    requires some { 0 < length bytes.now }
    requires from { 0xE0 ≤ slice_index bytes.now 0 }
    requires to { slice_index bytes.now 0 < 0xF0 }
    ensures { IsIllFormedPart bytes.now result }
{
    let first = u32::from(bytes[0]) - 0xE0;
    let Some(second) = trail_bits(bytes, 1) else {
        return 1;
    };
    if !is_high_of_three(first * 64 + second) {
        return 1;
    }
    2
}

/// Returns the length of the ill-formed part if the first byte is the lead byte of four, or
/// greater.
fn size_of_four(bytes: &[u8]) -> usize
    requires none { StartsWithNoChar bytes.now }
    requires some { 0 < length bytes.now }
    requires from { 0xF0 ≤ slice_index bytes.now 0 }
    ensures { IsIllFormedPart bytes.now result }
{
    let first = u32::from(bytes[0]) - 0xF0;
    let Some(second) = trail_bits(bytes, 1) else {
        return 1;
    };
    if !is_high_of_four(first * 64 + second) {
        return 1;
    }
    let Some(_) = trail_bits(bytes, 2) else {
        return 2;
    };
    3
}

/// Returns the length of the ill-formed part at the start of the bytes (table 3-7 of the Unicode
/// Standard). The bytes are not empty and do not start with a character.
#[cold]
#[inline(never)]
pub fn ill_formed_size(bytes: &[u8]) -> usize
    requires none { StartsWithNoChar bytes.now }
    requires some { 0 < length bytes.now }
    ensures { IsIllFormedPart bytes.now result }
{
    let lead = bytes[0];
    if lead < 0xE0 {
        1
    } else if lead < 0xF0 {
        size_of_three(bytes)
    } else {
        size_of_four(bytes)
    }
}
