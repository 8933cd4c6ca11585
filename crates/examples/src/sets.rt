//! Sets of code points.
ghost use Rattle.std.specs.Prelude.{◌≡◌, ◌≢◌, ◌+◌, ◌<◌, ◌≤◌, ◌++◌, ℕ, [], Bool, true, false, None, if◌then◌else◌, length, map, not, slice_get, IfErr, IfOk, IfSome, OnOk};
ghost use Rattle.std.specs.Char.{encode_utf8};
ghost use Rattle.std.specs.List.{All, filter};
ghost use Rattle.std.specs.Str.{chars, encode_utf8_all};
ghost use Rattle.std.specs.String.{string_bytes};
ghost use Rattle.icu_collections.specs.CodePointInversionList.{Acts, AreApart, IsOfCodePoints, IsValid, between, both, code_point_limit, either, holds, in_ranges, members_below, one_of, ranges_of, IsUnionOf};
ghost use Rattle.icu_collections.specs.CodePointInversionListAndStringList.{HoldsTexts};
ghost use Rattle.icu_collections.specs.SetJson.{ends_of};

use icu_collections::codepointinvlist::{
    CodePointInversionList, CodePointInversionListBuilder, FrozenCodePointSet, SetJsonError,
};
use icu_collections::codepointinvliststringlist::CodePointInversionListAndStringList;
use icu_collections::zerovec::MemoryError;
use std::alloc::Global;
use std::ops::RangeInclusive;

/// Returns true if a set contains 0x110000. It never does: no set contains a number above 0x10FFFF,
/// whatever its source.
pub fn holds_a_far_number(set: &CodePointInversionList<'_>) -> bool
    ensures { result ≡ false }
{
    set.contains32(0x11_0000)
}

/// Returns the first range, if there is one. It is not empty, and is within the code points.
pub fn first_range(set: &CodePointInversionList<'_>) -> Option<RangeInclusive<u32>>
    ensures first { result ≡ slice_get (ranges_of set.now) 0 }
    ensures within { IfSome result IsOfCodePoints }
{
    set.get_nth_range(0)
}

/// Returns the number of ranges. Each range is not empty and is within the code points, the ranges
/// ascend, and a code point is in one of them exactly if the set contains it.
pub fn count_ranges(set: &CodePointInversionList<'_>) -> usize
    ensures count { result ≡ length (ranges_of set.now) }
    ensures within { All IsOfCodePoints (ranges_of set.now) }
    ensures apart { AreApart (ranges_of set.now) }
    ensures held { (c : ℕ) → in_ranges (ranges_of set.now) c ≡ holds set.now c }
{
    set.iter_ranges().count()
}

/// Writes a set to JSON and reads it back. The result is the same set, and the only error is a
/// failed allocation.
pub fn stored(
    alloc: Global,
    set: &CodePointInversionList<'_>,
) -> Result<CodePointInversionList<'static>, SetJsonError>
    ensures same { IfOk result (λ s. s ≡ set.now) }
    ensures err { IfErr result (λ e. e ≡ SetJsonError.Memory) }
{
    let value = set.to_json(alloc)?;
    let read = CodePointInversionList::from_json(alloc, &value)?;
    Ok(read)
}

/// The letters `a` to `z`, and what else is held by exactly one of the two.
pub fn changed_letters(
    alloc: Global,
    set: &CodePointInversionList<'_>,
) -> Result<CodePointInversionList<'static>, MemoryError>
    ensures { IfOk result (λ s. Acts one_of set.now (between 0x61 0x7B) s) }
{
    let mut builder = CodePointInversionListBuilder::new(alloc);
    builder.add_set(set)?;
    builder.complement_range('a'..='z')?;
    let changed = builder.build()?;
    Ok(changed)
}

/// Adds a code point. Returns false if an allocation fails, and the set is then unchanged.
pub fn try_to_add(builder: &mut CodePointInversionListBuilder, c: u32) -> bool
    ensures refused { result ≡ false → builder.new ≡ builder.old }
    ensures added { result ≡ true → Acts either builder.old (between c (c + 1)) builder.new }
{
    builder.add32(c).is_ok()
}

/// Returns what follows the longest prefix of a text whose characters are all in the set.
pub fn behind_its_front<'a>(set: &CodePointInversionList<'_>, text: &'a str) -> &'a str {
    &text[set.span(text, true)..]
}

/// Returns what precedes the longest suffix of a text whose characters are all in the set.
pub fn before_its_tail<'a>(set: &CodePointInversionList<'_>, text: &'a str) -> &'a str {
    &text[..set.span_back(text, true)]
}

/// Returns the value of a code point in a table that has one value for each member of a set, in
/// their order. Returns `None` if the table has another length.
pub fn value_beside(set: &CodePointInversionList<'_>, values: &[u16], c: u32) -> Option<u16>
    ensures beside { length values.now ≡ members_below set.now code_point_limit → result
        ≡ (if holds set.now c then slice_get values.now (members_below set.now c) else None) }
    ensures other { length values.now ≢ members_below set.now code_point_limit → result ≡ None }
{
    if values.len() != set.size() {
        return None;
    }
    let place = set.position32(c)?;
    Some(values[place])
}

/// Returns the code points that are in neither of two sets.
pub fn neither(
    alloc: Global,
    first: &CodePointInversionList<'_>,
    second: &CodePointInversionList<'_>,
) -> Result<CodePointInversionList<'static>, MemoryError>
    ensures { IfOk result (λ s. (c : ℕ) → c < code_point_limit
        → holds s c ≡ not (either (holds first.now c) (holds second.now c))) }
{
    let mut builder = CodePointInversionListBuilder::new(alloc);
    builder.add_set(first)?;
    builder.add_set(second)?;
    builder.complement()?;
    let made = builder.build()?;
    Ok(made)
}

/// Returns the code points that are not in a set.
pub fn outside(
    alloc: Global,
    set: &CodePointInversionList<'_>,
) -> Result<CodePointInversionList<'static>, MemoryError>
    ensures { IfOk result (λ s. (c : ℕ) → c < code_point_limit
        → holds s c ≡ not (holds set.now c)) }
{
    let mut builder = CodePointInversionListBuilder::new(alloc);
    builder.add_set(set)?;
    builder.complement()?;
    let made = builder.build()?;
    Ok(made)
}

/// Returns the code points that are outside both sets. By De Morgan's law these are those of
/// [`neither`].
pub fn outside_both(
    alloc: Global,
    first: &CodePointInversionList<'_>,
    second: &CodePointInversionList<'_>,
) -> Result<CodePointInversionList<'static>, MemoryError>
    ensures { IfOk result (λ s. (c : ℕ) → c < code_point_limit
        → holds s c ≡ both (not (holds first.now c)) (not (holds second.now c))) }
{
    let one = outside(alloc, first)?;
    let other = outside(alloc, second)?;
    let mut builder = CodePointInversionListBuilder::new(alloc);
    builder.add_set(&one)?;
    builder.retain_set(&other)?;
    let made = builder.build()?;
    Ok(made)
}

/// Returns true if [`neither`] and [`outside_both`] give the same set. They always do.
pub fn are_one_set(
    alloc: Global,
    first: &CodePointInversionList<'_>,
    second: &CodePointInversionList<'_>,
) -> Result<bool, MemoryError>
    ensures { IfOk result (λ same. same ≡ true) }
{
    let left = neither(alloc, first, second)?;
    let right = outside_both(alloc, first, second)?;
    Ok(left == right)
}

/// Appends a character if `is_kept` is true.
fn push_if(kept: &mut String, c: char, is_kept: bool) -> Result<(), MemoryError>
    ensures { OnOk result
        (string_bytes kept.new
        ≡ string_bytes kept.old ++ (if is_kept then encode_utf8 c else [])) }
{
    if is_kept {
        kept.push(c)?;
    }
    Ok(())
}

/// Returns the characters of a text that are in a frozen set, in their order.
pub fn kept_characters(
    alloc: Global,
    set: &FrozenCodePointSet,
    text: &str,
) -> Result<String, MemoryError>
    ensures { IfOk result (λ kept. string_bytes kept
        ≡ encode_utf8_all (filter (holds set.now) (chars text.now))) }
{
    let mut kept = String::new(alloc);
    for c in text.chars() {
        push_if(&mut kept, c, set.contains(c))?;
    }
    Ok(kept)
}

/// Returns the union of ranges, or `None` if an allocation fails.
pub fn collected(
    alloc: Global,
    ranges: Vec<RangeInclusive<u32>>,
) -> Option<CodePointInversionList<'static>>
    ensures { IfSome result (λ set. IsUnionOf ranges.items set) }
{
    CodePointInversionList::from_iter(alloc, ranges.into_iter()).ok()
}

/// Returns the set of texts, or `None` if an allocation fails.
pub fn collected_texts(
    alloc: Global,
    texts: &[&str],
) -> Option<CodePointInversionListAndStringList<'static>>
    ensures { IfSome result (λ set. HoldsTexts (map (λ text. text.now) texts.now) set) }
{
    CodePointInversionListAndStringList::from_iter(alloc, texts.iter().copied()).ok()
}
