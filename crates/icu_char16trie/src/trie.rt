//! The trie, stored in a packed vector of units.
ghost use Rattle.std.specs.Prelude.{◌≡◌, ◌↔◌, ◌⊎◌, ℕ, ℤ, pos, List, [], Result, IfOk, IsTrue, String};
ghost use Rattle.std.specs.Iterator.{Drains};
ghost use Rattle.std.specs.Global.{Global};
ghost use Rattle.std.specs.Cmp.{on_equiv, on_per, partial_equiv_from_equiv};
ghost use Rattle.std.specs.Cmp.Lexicographic.{pointwise, lists_equiv, lists_per, nat_list_eq_equiv};
ghost use Rattle.icu_zerovec.specs.declared.memory.MemoryError.{MemoryError};
ghost use Rattle.icu_zerovec.specs.PackedBytes.{low_bytes};
ghost use Rattle.icu_zerovec.specs.Cells.{same_bytes};
ghost use Rattle.icu_char16trie.specs.Grammar.{IsTrieOf};
ghost use Rattle.icu_char16trie.specs.UnitMap.{UnitMap, IsAscendingKeys};
ghost use Rattle.icu_char16trie.specs.Entries.{IsLeft, GivesNext, AreEntries, AreCutShort};
ghost use Rattle.icu_char16trie.specs.Listing.{AreToCome, entry_text, entry_value, listed_units};
ghost use Rattle.icu_char16trie.specs.UnitPlaces.{HasPassed};
ghost use Rattle.icu_char16trie.specs.declared.place.Place.TheVariants.{Node};

use crate::cursor::Char16TrieCursor;
use crate::entries::Iter2;
use crate::iterator::Char16TrieIterator;
use crate::listing::Entries;
use icu_zerovec::{MemoryError, ZeroVec};
use std::alloc::Global;
use std::marker::Model;

/// A map from lists of 16-bit units, mostly texts in UTF-16, to signed 32-bit numbers, in the
/// format of ICU's `UCharsTrie`.
///
/// ```
/// let trie = Char16Trie::new(ZeroVec::alloc_from_slice(alloc, &[0x31, 0x61, 0x62, 0x8003])?);
/// // the map of "ab" to 3
/// let mut cursor = trie.cursor();
/// cursor.step('a'); // cursor.value() is None
/// cursor.step('b'); // cursor.value() is Some(3)
/// ```
///
/// Two tries are equal exactly if their units are, whether they own or borrow them.
#[derive(Debug, Drop)]
pub struct Char16Trie<'data> {
    /// The units.
    pub data: ZeroVec<'data, u16>,
}

impl<'data> Model for Char16Trie<'data> {
    ghost use Rattle.std.specs.Prelude.{ℕ, List};

    ghost Value = { List ℕ };

    ghost view = { λ t. t.«data» };
}

impl<'data> Char16Trie<'data> {
    /// Creates the trie of these units. They are not validated: look-ups return on all units.
    #[inline]
    pub fn new(data: ZeroVec<'data, u16>) -> Self
        ensures { result ≡ «data».entry }
    {
        Char16Trie { data }
    }

    /// Returns a cursor at the root, for looking up keys unit by unit.
    ///
    /// ```
    /// // of the map of "ab" to 3
    /// let mut cursor = trie.cursor();
    /// cursor.step('a'); // cursor.value() is None
    /// cursor.step('b'); // cursor.value() is Some(3)
    /// ```
    #[inline]
    pub fn cursor(&self) -> Char16TrieCursor<'_>
        ensures units { result.units ≡ self.now }
        ensures place { result.place ≡ Node 0 }
        ensures root { (m : UnitMap) → IsTrieOf self.now m → HasPassed result m [] }
    {
        Char16TrieCursor::new(self.data.as_slice())
    }

    /// Returns an iterator at the root: a cursor that returns a result for each step.
    ///
    /// ```
    /// // of the map of "ab" to 3
    /// let mut iterator = trie.iter();
    /// // iterator.next('a') is TrieResult::NoValue, and then iterator.next('b') is TrieResult::FinalValue(3)
    /// ```
    #[inline]
    pub fn iter(&self) -> Char16TrieIterator<'_>
        ensures units { result.units ≡ self.now }
        ensures place { result.place ≡ Node 0 }
        ensures root { (m : UnitMap) → IsTrieOf self.now m → HasPassed result m [] }
    {
        Char16TrieIterator::new(self.data.as_slice())
    }

    /// Returns an iterator over the entries, in unit order: each key as text, with its value.
    ///
    /// Allocates nothing before the first item, and then the text of each item, of exactly its
    /// length. That and its release take 25 ns of an item's 55 to 90:
    /// [`entries`](Self::entries) reuses one buffer, and is the fast form. An item is an `Err` if an
    /// allocation fails, and then the iterator ends.
    ///
    /// One item opens at most as many nodes as there are units. A whole run takes time proportional
    /// to the number of entries. Nodes may be shared, so a few units can have very many entries:
    /// [`Char16Trie::count_entries`] returns how many.
    ///
    /// It is not named `iter` because in the Rust crate `iter` returns a look-up, not a listing.
    ///
    /// ```
    /// // of the map of "a" to 1 and "ab" to 2
    /// for entry in trie.iter2(alloc) {
    ///     let (text, value) = entry?; // "a" and 1, then "ab" and 2
    /// }
    /// ```
    #[inline]
    pub fn iter2(&self, alloc: Global) -> Iter2<'_>
        ensures left { (m : UnitMap) → IsTrieOf self.now m → IsLeft result m }
        ensures map { (m : UnitMap) → IsTrieOf self.now m → IsAscendingKeys m }
        ensures one { (m m' : UnitMap) → IsTrieOf self.now m → IsTrieOf self.now m' → m ≡ m' }

        // Up to a failed allocation, if there is one, the items are the entries. Only then are they
        // cut short.
        ensures drained { (m : UnitMap) (xs : List (Result (String Global × ℤ) MemoryError))
            → IsTrieOf self.now m
            → Drains GivesNext result xs → AreEntries xs m ⊎ AreCutShort xs m }
    {
        Iter2::new(alloc, self.data.as_slice())
    }

    /// Returns the entries, in unit order, with one buffer for the text of their keys.
    ///
    /// Use this to list entries without storing the keys; [`iter2`](Self::iter2) returns each key
    /// as a text of its own. Allocates nothing before the first entry. As with `iter2`, one call
    /// opens at most as many nodes as there are units, and there may be very many entries.
    ///
    /// ```
    /// // of the map of "a" to 1 and "ab" to 2
    /// let mut entries = trie.entries(alloc);
    /// // entries.advance()? is true: entries.key() is "a" and entries.value() is 1
    /// // entries.advance()? is true: entries.key() is "ab" and entries.value() is 2
    /// // entries.advance()? is false
    /// ```
    #[inline]
    pub fn entries(&self, alloc: Global) -> Entries<'_>
        ensures to_come { (m : UnitMap) → IsTrieOf self.now m → AreToCome result m }
        ensures map { (m : UnitMap) → IsTrieOf self.now m → IsAscendingKeys m }
        ensures one { (m m' : UnitMap) → IsTrieOf self.now m → IsTrieOf self.now m' → m ≡ m' }
        ensures text { entry_text result ≡ [] }
        ensures value { entry_value result ≡ pos 0 }
        ensures units { listed_units result ≡ self.now }
    {
        self.cursor().entries(alloc)
    }

    /// Returns an equal trie that owns its units.
    ///
    /// # Errors
    /// Returns `MemoryError` if an allocation fails.
    pub fn try_clone(&self, alloc: Global) -> Result<Char16Trie<'static>, MemoryError>
        ensures ok { IfOk result (λ trie. trie ≡ self.now) }
    {
        Ok(Char16Trie::new(self.data.try_clone(alloc)?))
    }
}

impl<'data> PartialEq for Char16Trie<'data> {
    ghost eq = { pointwise (same_bytes (low_bytes 2)) };

    ghost laws = { lists_per (on_per (low_bytes 2) (partial_equiv_from_equiv nat_list_eq_equiv)) };

    fn eq(&self, other: &Self) -> bool
        ensures value { result ≡ pointwise (same_bytes (low_bytes 2)) self.now other.now }
        ensures same { IsTrue result ↔ (self.now ≡ other.now) }
    {
        self.data == other.data
    }
}

impl<'data> Eq for Char16Trie<'data> {
    ghost laws = { lists_equiv (on_equiv (low_bytes 2) nat_list_eq_equiv) };
}
