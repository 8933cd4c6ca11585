//! Spans of texts by the boundaries of a set, without a frozen set.
ghost use Rattle.std.specs.Prelude.{◌≡◌, ◌≤◌, length};
ghost use Rattle.icu_invlist.specs.InversionList.{IsValid, holds};
ghost use Rattle.icu_frozen_sets.specs.LongestSpans.{IsSpan, IsSpanBack, unit_span};

use crate::longest_span::{span, span_back, span_units};
use crate::span_condition::EndsKind;

/// Returns the length in bytes of the longest prefix of `bytes` whose characters are all in the set
/// with these boundaries, or all outside it if `held` is false. `bytes` may be ill-formed UTF-8; an
/// ill-formed sequence ends the span. The result is unspecified (but memory-safe) if the numbers are
/// not the boundaries of a set.
#[inline(always)]
pub fn span_utf8(ends: &[u32], bytes: &[u8], held: bool) -> usize
    ensures within { result ≤ length bytes.now }
    ensures exact { IsValid ends.now → IsSpan (holds ends.now) held bytes.now result }
{
    span(&mut EndsKind::new(ends, held), bytes)
}

/// Returns the byte offset at which the longest suffix of `bytes` starts whose characters are all in
/// the set with these boundaries, or all outside it if `held` is false. `bytes` may be ill-formed
/// UTF-8; an ill-formed sequence ends the span. The result is unspecified (but memory-safe) if the
/// numbers are not the boundaries of a set.
#[inline(always)]
pub fn span_back_utf8(ends: &[u32], bytes: &[u8], held: bool) -> usize
    ensures within { result ≤ length bytes.now }
    ensures exact { IsValid ends.now → IsSpanBack (holds ends.now) held bytes.now result }
{
    span_back(&mut EndsKind::new(ends, held), bytes)
}

/// Returns the number of units of the longest prefix of 16-bit units whose code points are all in the
/// set with these boundaries, or all outside it if `held` is false. Surrogate pairs are one code
/// point, and each other unit is a code point of its own. The result is unspecified (but
/// memory-safe) if the numbers are not the boundaries of a set.
#[inline(always)]
pub fn span_utf16(ends: &[u32], units: &[u16], held: bool) -> usize
    ensures { IsValid ends.now → result ≡ unit_span (holds ends.now) held units.now }
{
    span_units(&mut EndsKind::new(ends, held), units)
}
