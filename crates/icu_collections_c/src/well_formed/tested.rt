//! The body for rustc: each byte is compared with the three before it, in loops of which compilers make
//! vector instructions.
ghost use Rattle.std.specs.Prelude.{◌≡◌, ℕ, ◌+◌, ◌-◌, ◌<◌, ◌≤◌, ◌↔◌, length, slice_index, take, IsTrue, false};
ghost use Rattle.std.specs.Str.{IsAscii, IsUtf8};
ghost use Rattle.simdutf8.specs.Steps.{IsClosed, IsContinuation, Step, least_after, most_after};

use crate::well_formed::is_trail;

/// Returns true if no character starts with the lead byte `lead` and then has the trail byte
/// `trail`.
#[inline(always)]
fn is_no_start(lead: u8, trail: u8) -> bool
    ensures { 0xC0 ≤ lead → IsContinuation trail
        → (result ≡ false)
        ↔ (0xC2 ≤ lead) × (lead ≤ 0xF4)
        × (least_after lead ≤ trail) × (trail ≤ most_after lead) }
{
    (lead < 0xC2)
        | (lead > 0xF4)
        | (lead == 0xE0) & (trail < 0xA0)
        | (lead == 0xED) & (trail > 0x9F)
        | (lead == 0xF0) & (trail < 0x90)
        | (lead == 0xF4) & (trail > 0x8F)
}

/// Returns true if the byte `d` may not follow the bytes `a`, `b` and `c` in UTF-8.
#[inline(always)]
fn is_fault(a: u8, b: u8, c: u8, d: u8) -> bool
    ensures { (result ≡ false) ↔ Step a b c d }
{
    let is_late = (a >= 0xF0) | (b >= 0xE0);
    let is_second = c >= 0xC0;
    (is_trail(d) != (is_late | is_second)) | is_late & !is_trail(c) | is_second & is_no_start(c, d)
}

/// Returns true if a byte from the fourth on may not follow the three before it.
fn has_fault(bytes: &[u8]) -> bool
    requires { 3 ≤ length bytes.now }
    ensures { (result ≡ false)
        ↔ ((i : ℕ) → i + 3 < length bytes.now
        → Step (slice_index bytes.now i) (slice_index bytes.now (i + 1))
        (slice_index bytes.now (i + 2)) (slice_index bytes.now (i + 3))) }
{
    let mut found = false;
    for i in 3..bytes.len() {
        found |= is_fault(bytes[i - 3], bytes[i - 2], bytes[i - 1], bytes[i]);
    }
    found
}

/// Returns how many bytes the blocks of 64 ASCII characters at the start have.
fn ascii_blocks(bytes: &[u8]) -> usize
    ensures within { result ≤ length bytes.now }
    ensures ascii { IsAscii (take result bytes.now) }
{
    let mut end = 0;
    while bytes.len() - end >= 64 {
        if !bytes[end..end + 64].is_ascii() {
            return end;
        }
        end += 64;
    }
    end
}

/// Returns true if one of the first three bytes may not follow those before it.
fn starts_with_fault(bytes: &[u8]) -> bool
    requires { 3 ≤ length bytes.now }
    ensures { (result ≡ false)
        ↔ Step 0 0 0 (slice_index bytes.now 0)
        × Step 0 0 (slice_index bytes.now 0) (slice_index bytes.now 1)
        × Step 0 (slice_index bytes.now 0) (slice_index bytes.now 1) (slice_index bytes.now 2) }
{
    is_fault(0, 0, 0, bytes[0])
        | is_fault(0, 0, bytes[0], bytes[1])
        | is_fault(0, bytes[0], bytes[1], bytes[2])
}

/// Returns true if a character that starts with one of the last three bytes goes on after them.
fn ends_in_character(bytes: &[u8]) -> bool
    requires { 3 ≤ length bytes.now }
    ensures { (result ≡ false)
        ↔ IsClosed (slice_index bytes.now (length bytes.now - 3))
        (slice_index bytes.now (length bytes.now - 2))
        (slice_index bytes.now (length bytes.now - 1)) }
{
    let count = bytes.len();
    (bytes[count - 3] >= 0xF0) | (bytes[count - 2] >= 0xE0) | (bytes[count - 1] >= 0xC0)
}

/// Returns true if the bytes are UTF-8.
fn are_characters(bytes: &[u8]) -> bool
    ensures { IsTrue result ↔ IsUtf8 bytes.now }
{
    if bytes.len() < 3 {
        return str::from_utf8(bytes).is_ok();
    }
    !(starts_with_fault(bytes) | ends_in_character(bytes) | has_fault(bytes))
}

/// Returns true if the bytes are UTF-8. Passes the ASCII characters at their start 64 at a time.
pub(crate) fn is_utf8(bytes: &[u8]) -> bool
    ensures { IsTrue result ↔ IsUtf8 bytes.now }
{
    are_characters(&bytes[ascii_blocks(bytes)..])
}
