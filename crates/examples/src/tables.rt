//! Properties of characters in tries that are built, stored and read.
ghost use Rattle.std.specs.Prelude.{◌≡◌, ◌+◌, ◌<◌, ◌≤◌, ◌==◌, ◌↔◌, ℕ, [], ◌∷◌, true, false, Some, Err, IfOk, IfSome, List, ◌++◌, map, slice_get, ◌≢◌, ◌⊎◌};
ghost use Rattle.std.specs.List.{count_by};
ghost use Rattle.std.specs.Option.{option_map};
ghost use Rattle.std.specs.Range.{range_inclusive_start, range_inclusive_end};
ghost use Rattle.icu_collections.specs.CodePointInversionList.{holds};
ghost use Rattle.icu_collections.specs.CodePointTrie.{AreMappedRunsFrom, AreMaximalRuns, AreRunsOfValue, IsCoherentTrie, answers, same_packed, trie_value, value_run};
ghost use Rattle.icu_collections.specs.CodePointTrieBuilder.{IsAfter, answer_after, is_accepted, value_after};

use icu_collections::codepointinvlist::CodePointInversionList;
use icu_collections::codepointtrie::{
    BuildError, CodePointMapRange, CodePointTrie, CodePointTrieBuilder, ConvertError, TrieType,
    TrieValue, Typed, TypedCodePointTrie, Write, build_from_writes, json,
};
use icu_collections::zerovec::MemoryError;
use icu_collections::zerovec::ule::AsULE;
use std::alloc::Global;
use std::ops::RangeInclusive;

/// Returns the value of `A` if `A` to `Z` have 1.
pub fn value_of_a(alloc: Global) -> Result<u8, BuildError>
    ensures { IfOk result (λ v. v ≡ 1) }
{
    let writes = [Write::Range(0x41..=0x5A, 1u8), Write::One(0x1F600, 2)];
    let trie = build_from_writes(alloc, 0, 255, TrieType::Fast, &writes)?;
    Ok(trie.get32(0x41)) // 1: the last write that covers it
}

/// The general category of a character by the rows of a table: that of the last row that covers it,
/// else 0.
pub fn general_category(alloc: Global, rows: &[Write<u8>], c: char) -> Result<u8, BuildError>
    ensures { IfOk result (λ v. v ≡ value_after rows.now 0 c) }
{
    let trie = build_from_writes(alloc, 0, 255, TrieType::Fast, rows)?;
    Ok(trie.get(c))
}

/// Returns the value of a number after two calls of a builder, for any type of values.
pub fn written_twice<T: TrieValue>(
    alloc: Global,
    default: T,
    error: T,
    first: (u32, T),
    second: (u32, T),
    c: u32,
) -> Result<T, BuildError>
    ensures { IfOk result
        (λ v. v ≡ answer_after default error
        (Write.One first.0 first.1 ∷ Write.One second.0 second.1 ∷ []) c) }
{
    let mut builder = CodePointTrieBuilder::new(alloc, default, error, TrieType::Small);
    builder.set_value(first.0, first.1)?;
    builder.set_value(second.0, second.1)?;
    let trie = builder.build()?;
    Ok(trie.get32(c))
}

/// Returns the value of a code point in two tables, the second one on top of the first. A rejected
/// table is reported as `Memory` by `?`.
pub fn amended_value(
    alloc: Global,
    first: &[Write<u8>],
    second: &[Write<u8>],
    c: u32,
) -> Result<u8, BuildError>
    ensures { IfOk result (λ v. v ≡ answer_after 0 255 (first.now ++ second.now) c) }
{
    let mut builder = CodePointTrieBuilder::new(alloc, 0, 255, TrieType::Fast);
    builder.apply(first)?;
    builder.apply(second)?;
    let trie = builder.build()?;
    Ok(trie.get32(c))
}

/// Returns a table with another value in one range. All other numbers have the same value as
/// before, whatever is in the table's header.
pub fn with_range_changed(
    alloc: Global,
    table: &CodePointTrie<'_, u8>,
    range: RangeInclusive<u32>,
    value: u8,
) -> Result<CodePointTrie<'static, u8>, BuildError>
    ensures inside { IfOk result (λ t. (u : ℕ) → u ≤ 0x10FFFF → range_inclusive_start range ≤ u
        → u ≤ range_inclusive_end range → trie_value t u ≡ Some value) }
    ensures outside { IfOk result (λ t. (u : ℕ)
        → (u < range_inclusive_start range) ⊎ ((range_inclusive_end range < u) ⊎ (0x10FFFF < u))
        → trie_value t u ≡ trie_value table.now u) }
{
    let mut builder = CodePointTrieBuilder::from_trie(alloc, table)?;
    builder.set_range_value(range, value)?;
    builder.build()
}

/// Writes a value. Returns false if an allocation fails, and the map is then unchanged.
pub fn try_to_write<T: TrieValue>(builder: &mut CodePointTrieBuilder<T>, c: u32, value: T) -> bool
    ensures refused { result ≡ false → builder.new ≡ builder.old }
    ensures written { result ≡ true → IsAfter (Write.One c value ∷ []) builder.old builder.new }
{
    builder.set_value(c, value).is_ok()
}

/// Writes a trie to JSON, reads it back, and returns the value of `c`, which is unchanged.
pub fn stored_value<T: TrieValue>(
    alloc: Global,
    trie: &CodePointTrie<'_, T>,
    c: u32,
) -> Result<T, MemoryError>
    ensures { IfOk result (λ v. Some v ≡ trie_value trie.now c) }
{
    let text = json::to_json(alloc, trie)?;
    match json::from_json::<T>(alloc, &text) {
        Ok(read) => Ok(read.get32(c)),
        Err(_) => Err(MemoryError),
    }
}

/// Returns the set of the characters that have a category.
pub fn set_of_category(
    alloc: Global,
    rows: &[Write<u8>],
    category: u8,
) -> Result<CodePointInversionList<'static>, BuildError>
    ensures { IfOk result (λ s. (c : ℕ) → c < 0x110000
        → (holds s c ≡ true) ↔ (value_after rows.now 0 c ≡ category)) }
{
    let trie = build_from_writes(alloc, 0, 255, TrieType::Fast, rows)?;
    let set = trie.get_set_for_value(alloc, category)?;
    Ok(set)
}

/// Returns the ranges of a table. They are the maximal runs of the values in its rows. A table of a
/// few rows is never too large.
pub fn runs_of_rows(
    alloc: Global,
    rows: &[Write<u8>],
) -> Result<Vec<CodePointMapRange<u8>>, BuildError>
    ensures runs { IfOk result
        (λ v. AreMaximalRuns (value_after rows.now 0) (map value_run v.items)) }
    ensures fits { count_by is_accepted rows.now ≤ 256 → result ≢ Err BuildError.TooLarge }
{
    let trie = build_from_writes(alloc, 0, 255, TrieType::Fast, rows)?;
    let ranges = trie.iter_ranges().collect::<Vec<_>>(alloc)?;
    Ok(ranges)
}

/// Returns the set of the code points with a value in an untrusted table. `None` if the table is
/// not coherent or an allocation fails.
pub fn trusted_set(
    alloc: Global,
    trie: &CodePointTrie<'_, u8>,
    value: u8,
) -> Option<CodePointInversionList<'static>>
    ensures { IfSome result
        (λ s. (c : ℕ) → c < 0x110000 → (holds s c ≡ true) ↔ (answers trie.now c ≡ Some value)) }
{
    if !trie.is_coherent() {
        return None;
    }
    let set = trie.get_set_for_value(alloc, value).ok()?;
    Some(set)
}

/// Returns the ranges of the code points that have a value, and of those that do not, alternating.
pub fn runs_of_having(
    alloc: Global,
    trie: &CodePointTrie<'_, u8>,
    value: u8,
) -> Result<Vec<CodePointMapRange<bool>>, MemoryError>
    ensures { IsCoherentTrie ⟦<u8 as TrieValue>⟧.of_number trie.now → IfOk result
        (λ v. AreMappedRunsFrom ⟦<bool as PartialEq>⟧.eq (λ x. x == value) (answers trie.now) 0
        v.items) }
{
    let ranges = trie
        .iter_ranges_mapped(
            |x: u8|
                ensures { result ≡ (x == value) }
            { x == value },
        )
        .collect::<Vec<_>>(alloc)?;
    Ok(ranges)
}

/// Returns the ranges of the code points that have a value in an untrusted table. `None` if the
/// table is not coherent or an allocation fails.
pub fn trusted_ranges_of(
    alloc: Global,
    trie: &CodePointTrie<'_, u8>,
    value: u8,
) -> Option<Vec<RangeInclusive<u32>>>
    ensures { IfSome result
        (λ v. AreRunsOfValue ⟦<u8 as PartialEq>⟧.eq trie.now value v.items) }
{
    if !trie.is_coherent() {
        return None;
    }
    trie.iter_ranges_for_value(value)
        .collect::<Vec<_>>(alloc)
        .ok()
}

/// Returns a trie of numbers as one of differences, which are signed, over the same bytes.
pub fn as_differences(trie: CodePointTrie<'_, u16>) -> Result<CodePointTrie<'_, i16>, ConvertError>
    ensures { IfOk result (λ t. (i : ℕ) → slice_get t.values i
        ≡ same_packed ⟦<u16 as AsULE>⟧.pack ⟦<i16 as AsULE>⟧.unpack
        (slice_get trie.entry.values i)) }
{
    trie.try_into_converted::<i16>()
}

/// Returns the value of a code point in a table, plus one, from a trie whose values are mapped
/// once.
pub fn next_value(alloc: Global, rows: &[Write<u8>], c: u32) -> Result<u16, BuildError>
    ensures { IfOk result (λ v. v ≡ answer_after 0 9 rows.now c + 1) }
{
    let trie = build_from_writes(alloc, 0, 9, TrieType::Small, rows)?;
    match trie.try_alloc_map_value(alloc, |v: u8| Ok::<u16, u8>(u16::from(v) + 1)) {
        Ok(next) => Ok(next.get32(c)),
        Err(_) => Err(BuildError::Memory),
    }
}

/// Returns the value of a character, with the look-up for the trie's type.
pub fn value_by_type(trie: &CodePointTrie<'_, u8>, c: char) -> u8
    ensures { Some result ≡ trie_value trie.now c }
{
    match trie.as_typed_ref() {
        Typed::Fast(trie) => trie.get(c),
        Typed::Small(trie) => trie.get(c),
    }
}
