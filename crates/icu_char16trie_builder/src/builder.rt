//! Collects entries and builds a trie.
ghost use Rattle.std.specs.Prelude.{◌≡◌, ◌≢◌, ◌↔◌, ℕ, ℤ, ◌+◌, ◌*◌, ◌<◌, ◌≤◌, ◌⊎◌, List, [], ◌∷◌, length, take, IsTrue, IsSome, IsNone, IfOk, IfErr, OnOk, OnErr, Err, Option, MatchOption};
ghost use Rattle.icu_char16trie.specs.Grammar.{IsTrieOf};
ghost use Rattle.icu_char16trie.specs.Matches.{text_units};
ghost use Rattle.icu_char16trie.specs.UnitMap.{UnitMap, value_of, IsAscendingKeys};
ghost use Rattle.icu_char16trie_builder.specs.Entries.{with_entry, entry_map, most_units};
ghost use Rattle.icu_char16trie_builder.specs.Sorted.{pair_map, key_at, IsInOrder, IsFirstRefusedKey};
ghost use Rattle.icu_char16trie_builder.specs.Inside.Cuts.{cut, room};
ghost use Rattle.icu_char16trie_builder.specs.declared.error.AddError.TheVariants.{KeyTooLong, Duplicate};
ghost use Rattle.icu_char16trie_builder.specs.declared.error.BuildError.TheVariants.{TooLarge, Memory};
ghost use Rattle.icu_char16trie_builder.specs.declared.error.SortedError.TheVariants as sorted;

use crate::entry::Entry;
use crate::error::{AddError, BuildError, SortedError};
use crate::sorted::{entries_of_pairs, refusal};
use crate::text::{is_too_long, units_of_text};
use crate::units::units_of;
use icu_char16trie::char16trie::Char16Trie;
use icu_zerovec::{MemoryError, ZeroVec};
use std::alloc::{AllocError, Global};
use std::collections::{BTreeMap, btree_map};
use std::marker::Model;

/// The largest number of units in a key.
pub(crate) const LONGEST_KEY: usize = 65_535;

/// The largest number of units that a trie may need: it is a number that a jump can encode.
const MOST_UNITS: u64 = 0x7FFF_FFFF;

/// A builder of a trie from entries: keys of 16-bit units, each with a value.
///
/// ICU: `UCharsTrieBuilder`.
///
/// ```
/// let mut builder = Char16TrieBuilder::new(alloc);
/// builder.add(&[0x61, 0x62], 2)?;
/// builder.add(&[0x61], 1)?;
/// builder.add(&[0x61], 3); // Err(AddError::Duplicate)
/// let trie = builder.build()?; // the trie of "a" to 1 and "ab" to 2
/// ```
#[derive(Debug, Drop)]
pub struct Char16TrieBuilder {
    alloc: Global,
    entries: BTreeMap<Vec<u16>, i32>,
}

impl Model for Char16TrieBuilder {
    ghost use Rattle.icu_char16trie.specs.UnitMap.{UnitMap, IsAscendingKeys};
    ghost use Rattle.icu_char16trie_builder.specs.Entries.{entry_map};

    ghost Value = { UnitMap };

    ghost view = { λ b. entry_map b.entries.entries };

    ghost invariant = { λ b. IsAscendingKeys (entry_map b.entries.entries) };
}

/// Returns why a key cannot be added if there is no memory for a copy of it.
#[cold]
fn without_memory(entries: &BTreeMap<Vec<u16>, i32>, key: &[u16]) -> AddError
    ensures duplicate { (result ≡ Duplicate)
        ↔ IsSome (value_of (entry_map entries.now.entries) key.now) }
    ensures short { result ≢ KeyTooLong }
{
    if entries.contains_key(key) {
        return AddError::Duplicate;
    }
    AddError::Memory
}

/// Adds an entry to a map, which takes ownership of the key and is searched once. On an error the
/// map is unchanged.
fn insert(entries: &mut BTreeMap<Vec<u16>, i32>, key: Vec<u16>, value: i32) -> Result<(), AddError>
    ensures added { OnOk result
        (entry_map entries.new.entries
        ≡ with_entry key.items value (entry_map entries.old.entries)) }
    ensures same { OnErr result (entry_map entries.new.entries ≡ entry_map entries.old.entries) }
    ensures duplicate { (result ≡ Err Duplicate)
        ↔ IsSome (value_of (entry_map entries.old.entries) key.items) }
    ensures short { result ≢ Err KeyTooLong }
{
    let Ok(entry) = entries.entry(key) else {
        return Err(AddError::Memory);
    };
    match entry {
        btree_map::Entry::Vacant(entry) => {
            entry.insert_entry(value);
            Ok(())
        }
        btree_map::Entry::Occupied(_) => Err(AddError::Duplicate),
    }
}

/// Returns the entries of a map, in their order.
fn entries_of<'a>(
    alloc: Global,
    entries: &'a BTreeMap<Vec<u16>, i32>,
) -> Result<Vec<Entry<'a>>, AllocError>
    ensures { IfOk result (λ list. cut 0 list.items ≡ entry_map entries.now.entries) }
{
    let mut list = Vec::new(alloc);
    for (key, value) in entries {
        list.push(Entry {
            key: key.as_slice(),
            value: *value,
        })?;
    }
    Ok(list)
}

/// Returns the number of units in the first entry's key.
fn first_len(entries: &[Entry<'_>]) -> usize
    requires { 0 < length entries.now }
    ensures { room 0 (take 1 entries.now) ≡ 2 * result + 16 }
{
    entries[0].key.len()
}

/// Returns the bound for entries whose bound is `total` and one more whose key has `len` units, or
/// `None` if it is too large.
pub(crate) fn total_with(total: u64, len: usize) -> Option<u64>
    requires { total ≤ 0x7FFF_FFFF }
    ensures { let more = total + 2 * len + 16 in MatchOption result (0x7FFF_FFFF < more)
        (λ sum. (sum ≡ more) × (more ≤ 0x7FFF_FFFF)) }
{
    let len = len as u64;
    if len > MOST_UNITS {
        return None;
    }
    let more = total + 2 * len + 16;
    if more > MOST_UNITS {
        return None;
    }
    Some(more)
}

/// Returns true if no trie of the entries can need too many units.
fn fits(entries: &[Entry<'_>]) -> bool
    ensures { IsTrue result ↔ (room 0 entries.now ≤ 0x7FFF_FFFF) }
{
    let mut total: u64 = 0;
    for i in 0..entries.len() {
        let Some(more) = total_with(total, first_len(entries.split_at(i).1)) else {
            return false;
        };
        total = more;
    }
    true
}

/// Returns the units of a trie of the entries. Without entries there are no units.
fn trie_units(alloc: Global, entries: &[Entry<'_>]) -> Result<Vec<u16>, AllocError>
    requires ascends { IsAscendingKeys (cut 0 entries.now) }
    requires few { room 0 entries.now ≤ 0x7FFF_FFFF }
    ensures trie { IfOk result (λ units. IsTrieOf units.items (cut 0 entries.now)) }
    ensures bound { IfOk result (λ units. length units.items ≤ room 0 entries.now) }
{
    if entries.is_empty() {
        return Ok(Vec::new(alloc));
    }
    units_of(alloc, entries)
}

/// Returns the trie of the entries.
fn trie_of(alloc: Global, entries: &[Entry<'_>]) -> Result<Char16Trie<'static>, MemoryError>
    requires ascends { IsAscendingKeys (cut 0 entries.now) }
    requires few { room 0 entries.now ≤ 0x7FFF_FFFF }
    ensures trie { IfOk result (λ trie. IsTrieOf trie (cut 0 entries.now)) }
    ensures bound { IfOk result (λ trie. length trie ≤ room 0 entries.now) }
{
    let units = trie_units(alloc, entries)?;
    let trie = Char16Trie::new(ZeroVec::alloc_from_slice(alloc, units.as_slice())?);
    Ok(trie)
}

impl Char16TrieBuilder {
    /// Creates a builder without entries. Allocates nothing.
    pub fn new(alloc: Global) -> Self
        ensures { result ≡ [] }
    {
        Char16TrieBuilder {
            alloc,
            entries: BTreeMap::new(alloc),
        }
    }

    /// Adds an entry. Keys may be added in any order. A key may be empty, and may be a prefix of
    /// another.
    ///
    /// # Errors
    /// - `KeyTooLong` if and only if the key has more than 65,535 units.
    /// - Otherwise `Duplicate` if and only if there is already an entry with this key.
    /// - Otherwise `Memory` if an allocation fails.
    ///
    /// On an error the entries are unchanged.
    pub fn add(&mut self, key: &[u16], value: i32) -> Result<(), AddError>
        ensures added { OnOk result (self.new ≡ with_entry key.now value self.old) }
        ensures short { OnOk result (length key.now ≤ 65535) }
        ensures fresh { OnOk result (IsNone (value_of self.old key.now)) }

        // If several errors apply, the first one is returned.
        ensures long { 65535 < length key.now ↔ (result ≡ Err KeyTooLong) }
        ensures duplicate { length key.now ≤ 65535
            → (IsSome (value_of self.old key.now) ↔ (result ≡ Err Duplicate)) }
        ensures same { OnErr result (self.new ≡ self.old) }
    {
        if key.len() > LONGEST_KEY {
            return Err(AddError::KeyTooLong);
        }
        let Ok(units) = Vec::from_slice(self.alloc, key) else {
            return Err(without_memory(&self.entries, key));
        };
        insert(&mut self.entries, units, value)
    }

    /// Adds an entry whose key is a text, as its units in UTF-16.
    ///
    /// ```
    /// builder.add_str("ab", 2)?; // as builder.add(&[0x61, 0x62], 2)?
    /// builder.add_str("\u{1f600}", 3)?; // as builder.add(&[0xD83D, 0xDE00], 3)?
    /// ```
    ///
    /// # Errors
    /// - `KeyTooLong` if and only if the text has more than 65,535 units in UTF-16.
    /// - Otherwise `Duplicate` if there is already an entry with this key.
    /// - `Memory` if an allocation fails. The units of the key are allocated first, so this may
    ///   also happen for a duplicate key.
    ///
    /// On an error the entries are unchanged.
    pub fn add_str(&mut self, key: &str, value: i32) -> Result<(), AddError>
        ensures added { OnOk result (self.new ≡ with_entry (text_units key.now) value self.old) }
        ensures short { OnOk result (length (text_units key.now) ≤ 65535) }
        ensures fresh { OnOk result (IsNone (value_of self.old (text_units key.now))) }
        ensures long { 65535 < length (text_units key.now) ↔ (result ≡ Err KeyTooLong) }
        ensures duplicate { result ≡ Err Duplicate
            → IsSome (value_of self.old (text_units key.now)) }
        ensures same { OnErr result (self.new ≡ self.old) }
    {
        if is_too_long(key) {
            return Err(AddError::KeyTooLong);
        }
        let Ok(units) = units_of_text(self.alloc, key) else {
            return Err(AddError::Memory);
        };
        insert(&mut self.entries, units, value)
    }

    /// Returns the number of entries.
    pub fn len(&self) -> usize
        ensures { result ≡ length self.now }
    {
        self.entries.len()
    }

    /// Returns true if there are no entries.
    pub fn is_empty(&self) -> bool
        ensures { IsTrue result ↔ (self.now ≡ []) }
    {
        self.entries.is_empty()
    }

    /// Builds the trie of the entries. Without entries it has no units.
    ///
    /// If E entries have keys with U units in all, the trie has at most 2 U + 16 E units. Equal
    /// nodes that are reached by a jump are written once.
    ///
    /// # Errors
    /// Both errors drop the entries.
    ///
    /// - `TooLarge` if 2 U + 16 E is more than `0x7FFF_FFFF`.
    /// - `Memory` if an allocation fails. This can happen before the size is checked.
    pub fn build(self) -> Result<Char16Trie<'static>, BuildError>
        ensures trie { IfOk result (λ trie. IsTrieOf trie self) }
        ensures bound { IfOk result (λ trie. length trie ≤ most_units self) }
        ensures empty { self ≡ [] → IfOk result (λ trie. trie ≡ []) }
        ensures refusals { IfErr result (λ e. (e ≡ TooLarge) ⊎ (e ≡ Memory)) }
        ensures too_large { result ≡ Err TooLarge → 0x7FFF_FFFF < most_units self }
        ensures fits { OnOk result (most_units self ≤ 0x7FFF_FFFF) }
    {
        let entries = entries_of(self.alloc, &self.entries)?;
        if !fits(entries.as_slice()) {
            return Err(BuildError::TooLarge);
        }
        let trie = trie_of(self.alloc, entries.as_slice())?;
        Ok(trie)
    }

    /// Builds the trie of entries whose keys already strictly ascend in unit order. Without entries
    /// it has no units.
    ///
    /// The trie is the one that a builder builds from these entries, but no key is copied.
    ///
    /// ```
    /// let entries: [(&[u16], i32); 2] = [(&[0x61], 1), (&[0x61, 0x62], 2)];
    /// let trie = Char16TrieBuilder::build_sorted(alloc, &entries)?;
    /// // the trie of "a" to 1 and "ab" to 2
    /// ```
    ///
    /// # Errors
    /// The first two carry the index, counted from 0, of the first entry that is not valid:
    ///
    /// - `KeyTooLong` if and only if its key has more than 65,535 units.
    /// - `NotAscending` otherwise: its key is equal to the key before it, or less.
    /// - `TooLarge` if and only if all entries are valid and 2 U + 16 E is more than `0x7FFF_FFFF`,
    ///   for E entries with U units in their keys.
    /// - `Memory` if an allocation fails. The other errors are found without allocating.
    pub fn build_sorted(
        alloc: Global,
        entries: &[(&[u16], i32)],
    ) -> Result<Char16Trie<'static>, SortedError>
        ensures trie { IfOk result (λ trie. IsTrieOf trie (pair_map entries.now)) }
        ensures bound { IfOk result (λ trie. length trie ≤ most_units (pair_map entries.now)) }
        ensures in_order { OnOk result (IsInOrder (pair_map entries.now)) }
        ensures too_long { let m = pair_map entries.now in
            (i : ℕ) → (result ≡ Err (sorted.KeyTooLong i))
            ↔ (IsFirstRefusedKey m i × (65535 < length (key_at m i))) }
        ensures not_ascending { let m = pair_map entries.now in
            (i : ℕ) → (result ≡ Err (sorted.NotAscending i))
            ↔ (IsFirstRefusedKey m i × (length (key_at m i) ≤ 65535)) }
        ensures too_large { let m = pair_map entries.now in
            (result ≡ Err sorted.TooLarge) ↔ (IsInOrder m × (0x7FFF_FFFF < most_units m)) }
    {
        if let Some(error) = refusal(entries) {
            return Err(error);
        }
        let list = entries_of_pairs(alloc, entries)?;
        let trie = trie_of(alloc, list.as_slice())?;
        Ok(trie)
    }
}
