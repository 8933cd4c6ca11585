//! The block of 64 code points of a character, and the index in it. The bytes are well-formed
//! UTF-8, so no trail byte is tested: each is 0x80 plus six bits of the number.
ghost use Rattle.std.specs.Prelude.{◌≡◌, ◌+◌, ◌*◌, ◌<◌, ◌≤◌, Some, length, slice_index};
ghost use Rattle.std.specs.Str.{IsUtf8};
ghost use Rattle.icu_utf.specs.Utf8.{IsFirstPart};

/// Returns the block of 64 code points and the index in it of the first character of a text. The
/// first byte starts a character of two bytes.
#[inline(always)]
pub fn place_of_two(text: &[u8]) -> (u32, u32)
    requires text { IsUtf8 text.now }
    requires some { 0 < length text.now }
    requires from { 0x80 ≤ slice_index text.now 0 }
    requires to { slice_index text.now 0 < 0xE0 }
    ensures block { result.0 < 0x20 }
    ensures place { result.1 < 64 }
    ensures part { IsFirstPart text.now (Some (result.0 * 64 + result.1)) 2 }
{
    let first = u32::from(text[0]) - 0xC0;
    let second = u32::from(text[1]) - 0x80;
    (first, second)
}

/// Returns the block of 64 code points that has the first character of a text, and its index in that
/// block. The first byte starts a character of three bytes.
#[inline(always)]
pub fn place_of_three(text: &[u8]) -> (u32, u32)
    requires text { IsUtf8 text.now }
    requires some { 0 < length text.now }
    requires from { 0xE0 ≤ slice_index text.now 0 }
    requires to { slice_index text.now 0 < 0xF0 }
    ensures block { result.0 < 0x400 }
    ensures place { result.1 < 64 }
    ensures part { IsFirstPart text.now (Some (result.0 * 64 + result.1)) 3 }
{
    let first = u32::from(text[0]) - 0xE0;
    let second = u32::from(text[1]) - 0x80;
    let third = u32::from(text[2]) - 0x80;
    (first * 64 + second, third)
}

/// Returns the number of the first character of a text. The first byte is the lead byte of four.
#[inline(always)]
pub fn number_of_four(text: &[u8]) -> u32
    requires text { IsUtf8 text.now }
    requires some { 0 < length text.now }
    requires from { 0xF0 ≤ slice_index text.now 0 }
    ensures { IsFirstPart text.now (Some result) 4 }
{
    let first = u32::from(text[0]) - 0xF0;
    let second = u32::from(text[1]) - 0x80;
    let third = u32::from(text[2]) - 0x80;
    let fourth = u32::from(text[3]) - 0x80;
    (first * 64 + second) * 4096 + third * 64 + fourth
}
