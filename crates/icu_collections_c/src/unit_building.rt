//! Building unit tries from entries.
ghost use Rattle.std.specs.Prelude.{◌≡◌, ◌↔◌, ◌≤◌, IsTrue, IfOk, IfErr, OnOk, All, [], length, sum};
ghost use Rattle.icu_char16trie.specs.Grammar.{IsTrieOf};
ghost use Rattle.icu_char16trie_builder.specs.Entries.{most_units};
ghost use Rattle.icu_collections_c.specs.UnitBuilding.{AnswersUnits, AreAllNew, HasEntries, IsWhyNotAdded, IsWhyNotBuilt, entries_of, map_of, with_entries};

use crate::building::write_whole;
use crate::error::Error;
use icu_char16trie::char16trie::Char16Trie;
use icu_char16trie_builder::builder::Char16TrieBuilder;
use icu_char16trie_builder::error::{AddError, BuildError};
use std::alloc::Global;

/// The most units that a key may have.
const LONGEST_KEY: usize = 65_535;

impl From<AddError> for Error {
    ghost use Rattle.icu_collections_c.specs.UnitBuilding.{of_add};

    ghost from_gives = { λ x e. e ≡ of_add x };

    fn from(error: AddError) -> Error {
        match error {
            AddError::KeyTooLong => Error::LongKey,
            AddError::Duplicate => Error::SameKey,
            AddError::Memory => Error::NoMemory,
        }
    }
}

impl From<BuildError> for Error {
    ghost use Rattle.icu_collections_c.specs.UnitBuilding.{of_build};

    ghost from_gives = { λ x e. e ≡ of_build x };

    fn from(error: BuildError) -> Error {
        match error {
            BuildError::TooLarge => Error::TooLarge,
            BuildError::Entry(error) => Error::from(error),
            BuildError::Memory => Error::NoMemory,
        }
    }
}

/// Returns whether `count` units are enough for keys of these lengths.
#[tactic(auto, using(crate::proofs::UnitBuildingLemmas::sum_drop_more))]
pub(crate) fn has_units(count: usize, lengths: &[usize]) -> bool
    ensures { IsTrue result ↔ (sum lengths.now ≤ count) }
{
    let mut left = count;
    for length in lengths {
        if *length > left {
            return false;
        }
        left -= *length;
    }
    true
}

/// Returns whether no key is too long.
fn are_short(lengths: &[usize]) -> bool
    ensures { IsTrue result ↔ All (λ n. n ≤ 65535) lengths.now }
{
    lengths.iter().all(|length| *length <= LONGEST_KEY)
}

/// Adds the entries in their order. The key of each entry is the next `length` units of `keys`.
fn add_entries(
    builder: &mut Char16TrieBuilder,
    keys: &[u16],
    lengths: &[usize],
    values: &[i32],
) -> Result<(), Error>
    requires given { HasEntries keys.now lengths.now values.now }
    requires short { All (λ n. n ≤ 65535) lengths.now }
    ensures added { OnOk result (builder.new
        ≡ with_entries (entries_of keys.now lengths.now values.now) builder.old) }
    ensures fresh { OnOk result (AreAllNew (entries_of keys.now lengths.now values.now)
        builder.old) }
    ensures err { IfErr result
        (IsWhyNotAdded (AreAllNew (entries_of keys.now lengths.now values.now) builder.old)) }
{
    let mut rest = keys;
    for (i, length) in lengths.iter().enumerate() {
        let (key, after) = rest.split_at(*length);
        builder.add(key, values[i])?;
        rest = after;
    }
    Ok(())
}

/// Builds a unit trie from the entries.
fn built(
    alloc: Global,
    keys: &[u16],
    lengths: &[usize],
    values: &[i32],
) -> Result<Char16Trie<'static>, Error>
    ensures given { IfOk result (λ _. HasEntries keys.now lengths.now values.now) }
    ensures short { IfOk result (λ _. All (λ n. n ≤ 65535) lengths.now) }
    ensures fresh { IfOk result (λ _. AreAllNew (entries_of keys.now lengths.now values.now) []) }
    ensures trie { IfOk result
        (λ trie. IsTrieOf trie (map_of (entries_of keys.now lengths.now values.now))) }
    ensures bound { IfOk result
        (λ trie. length trie ≤ most_units (map_of (entries_of keys.now lengths.now values.now))) }
    ensures fits { OnOk result
        (most_units (map_of (entries_of keys.now lengths.now values.now)) ≤ 0x7FFF_FFFF) }
    ensures room { IfOk result (λ trie. length trie ≤ 0x7FFF_FFFF) }
    ensures err { IfErr result (IsWhyNotBuilt keys.now lengths.now values.now) }
{
    if lengths.len() != values.len() || !has_units(keys.len(), lengths) {
        return Err(Error::InvalidEntries);
    }
    if !are_short(lengths) {
        return Err(Error::LongKey);
    }
    let mut builder = Char16TrieBuilder::new(alloc);
    add_entries(&mut builder, keys, lengths, values)?;
    Ok(builder.build()?)
}

/// Builds a unit trie from entries, in any order, and returns how many bytes its units take, two
/// for each unit. The bytes are in the buffer if all of them fit; otherwise the buffer is
/// unchanged.
///
/// The key of entry `i` is the next `lengths[i]` units of `keys`, which may be none, and its value
/// is `values[i]`. If the keys of E entries have U units, the unit trie takes at most 4 U + 32 E
/// bytes, and none if there is no entry.
///
/// ICU: `UCharsTrieBuilder::add` and `buildUnicodeString`.
///
/// # Errors
/// Returns the number of the first of these that applies, and leaves the buffer unchanged:
///
/// - [`Error::InvalidEntries`] if `values` and `lengths` have different lengths, or the keys need more
///   units than `keys` has
/// - [`Error::LongKey`] if a key has more than 65,535 units
/// - [`Error::SameKey`] if two entries have the same key
/// - [`Error::TooLarge`] if 2 U + 16 E is above 0x7FFFFFFF
/// - [`Error::NoMemory`] if an allocation fails, which may come before `SameKey` and `TooLarge`
#[unsafe(no_mangle)]
pub extern "C" fn bks_units_build(
    alloc: Global,
    keys: &[u16],
    lengths: &[usize],
    values: &[i32],
    bytes: &mut [u8],
) -> i64
    ensures { AnswersUnits keys.now lengths.now values.now bytes.old bytes.new result }
{
    match built(alloc, keys, lengths, values) {
        Ok(trie) => {
            let units = trie.data.as_bytes();
            write_whole(units, bytes);
            units.len() as i64
        }
        Err(error) => error.number(),
    }
}
