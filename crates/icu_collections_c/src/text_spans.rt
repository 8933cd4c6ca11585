//! The spans of a text over a set of code points and strings.
ghost use Rattle.std.specs.Prelude.{◌≤◌, drop, length};
ghost use Rattle.icu_char16trie.specs.Matches.{HasValueAlong};
ghost use Rattle.icu_frozen_sets.specs.FrozenWords.{is_held};
ghost use Rattle.icu_text_sets.specs.TextSet.{TextSet};
ghost use Rattle.icu_collections_c.specs.TextSets.{IsMember, IsStored, IsTextOf};
ghost use Rattle.icu_collections_c.specs.TextSpans.{AnswersTextSetSpan, IsFirstSize, IsSpanBy, IsStep};
ghost use Rattle.icu_collections_c.specs.UnitTries.{units_of};

use crate::error::Error;
use crate::text_sets::longest_member;
use crate::text_steps::starts_ill_formed;
use icu_utf::characters::first_character;

/// Returns the size of the character at the start of the bytes, or 0 if they start with none.
#[inline(always)]
fn first_size(bytes: &[u8]) -> usize
    ensures { IsFirstSize bytes.now result }
{
    match first_character(bytes) {
        Some((_, size)) => size,
        None => 0,
    }
}

/// Returns how many bytes the next step of a span takes, or 0 at its end.
fn step_size(table: &[u64], units: &[u8], bytes: &[u8], held: bool) -> usize
    ensures set { (set : TextSet) → IsStored table.now (units_of units.now) set
        → IsStep (IsTextOf set) held bytes.now result }
    ensures exact { IsStep (IsMember (is_held table.now) (HasValueAlong (units_of units.now))) held
        bytes.now result }
{
    let longest = longest_member(table, units, bytes);
    if held {
        return longest;
    }
    if longest > 0 {
        return 0;
    }
    first_size(bytes)
}

/// Returns how many bytes the step from offset `end` on takes, or 0 at the end of the span.
#[inline(always)]
fn step_at(table: &[u64], units: &[u8], bytes: &[u8], end: usize, held: bool) -> usize
    requires { end ≤ length bytes.now }
    ensures set { (set : TextSet) → IsStored table.now (units_of units.now) set
        → IsStep (IsTextOf set) held (drop end bytes.now) result }
    ensures exact { IsStep (IsMember (is_held table.now) (HasValueAlong (units_of units.now))) held
        (drop end bytes.now) result }
{
    step_size(table, units, &bytes[end..], held)
}

/// Returns how many bytes a span at the start of the bytes has.
fn span_size(table: &[u64], units: &[u8], bytes: &[u8], held: bool) -> usize
    ensures set { (set : TextSet) → IsStored table.now (units_of units.now) set
        → IsSpanBy (IsStep (IsTextOf set) held) bytes.now result }
    ensures exact { IsSpanBy
        (IsStep (IsMember (is_held table.now) (HasValueAlong (units_of units.now))) held) bytes.now
        result }
    ensures within { result ≤ length bytes.now }
{
    let mut end = 0;
    let mut size = step_at(table, units, bytes, end, held);
    while size > 0 {
        end += size;
        size = step_at(table, units, bytes, end, held);
    }
    end
}

/// Returns how many bytes the span at the start of a UTF-8 text has. If `held` is true, the span goes
/// on by the longest member at each position, until there is none. If `held` is false, it goes on by
/// one character at each position, until a member starts there. The empty string does not count.
///
/// A longer sequence of members may exist: with the members "a", "ab" and "bc", the span of "abc" is
/// "ab". An ill-formed sequence ends a span.
///
/// ICU: `uset_spanUTF8` with `USET_SPAN_SIMPLE` and `USET_SPAN_NOT_CONTAINED`, which takes an
/// ill-formed sequence for U+FFFD instead.
///
/// # Errors
/// Returns the number of [`Error::InvalidUtf8`] if the text is not empty and does not start with a
/// character.
#[unsafe(no_mangle)]
pub extern "C" fn bks_text_set_span(table: &[u64], units: &[u8], text: &[u8], held: bool) -> i64
    ensures set { (set : TextSet) → IsStored table.now (units_of units.now) set
        → AnswersTextSetSpan (IsStep (IsTextOf set) held) text.now result }
    ensures exact { AnswersTextSetSpan
        (IsStep (IsMember (is_held table.now) (HasValueAlong (units_of units.now))) held) text.now
        result }
{
    if starts_ill_formed(text) {
        return Error::InvalidUtf8.number();
    }
    span_size(table, units, text, held) as i64
}
