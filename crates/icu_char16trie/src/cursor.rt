//! A cursor over the units of a trie.
ghost use Rattle.std.specs.Prelude.{◌≡◌, ◌↔◌, ℕ, ℤ, pos, List, [], ◌∷◌, ◌++◌, ◌<◌, ◌≤◌, Some, IfOk, not};
ghost use Rattle.icu_zerovec.specs.Slice.{slice_values};
ghost use Rattle.icu_char16trie.specs.Grammar.{IsTrieOf};
ghost use Rattle.icu_char16trie.specs.UnitMap.{UnitMap, after_all, value_of, goes_on};
ghost use Rattle.icu_char16trie.specs.Listing.{AreToCome, entry_text, entry_value, listed_units};
ghost use Rattle.icu_char16trie.specs.CursorPlaces.{place_of};
ghost use Rattle.icu_char16trie.specs.UnitPlaces.{HasPassed, value_at, is_empty_at};
ghost use Rattle.icu_char16trie.specs.NextUnits.{AreAscending, GoesOnWith, first_units};
ghost use Rattle.icu_char16trie.specs.OneValue.{HaveOneValue, StandsForOneValue};
ghost use Rattle.icu_char16trie.specs.Steps.{StepsTo, StepsAlong};
ghost use Rattle.icu_char16trie.specs.Passed.{Passes};
ghost use Rattle.std.specs.Char.Escape.{encode_utf16};
ghost use Rattle.icu_char16trie.specs.declared.place.Place.{Place};
ghost use Rattle.icu_char16trie.specs.declared.place.Place.TheVariants.{Nowhere, Node};

use crate::listing::Entries;
use crate::next_units::add_units;
use crate::place::{CursorPlace, Place, numbers_of, place_of};
use crate::step::{is_empty_at, step, value_at};
use crate::unique::unique_value_at;
use icu_zerovec::{MemoryError, ZeroSlice};
use std::alloc::Global;
use std::marker::Model;

/// A cursor over the units of a trie, for looking up keys unit by unit.
///
/// After the units of a key its value is the key's value. It is empty if no key continues after the
/// units so far. The units may be anything: if one that is needed is missing, nothing matches.
#[derive(Clone, Debug, Drop)]
pub struct Char16TrieCursor<'a> {
    units: ZeroSlice<'a, u16>,
    place: Place,
}

impl<'a> Model for Char16TrieCursor<'a> {
    ghost use Rattle.icu_zerovec.specs.Slice.{slice_values};
    ghost use Rattle.icu_char16trie.specs.UnitPlaces.{At, IsNear};

    ghost Value = { At };

    ghost view = { λ c. record { units = slice_values c.units; place = c.place } };

    ghost invariant = { λ c. IsNear c.place };
}

impl<'a> Char16TrieCursor<'a> {
    /// Creates a cursor at the root of the trie with these units.
    #[tactic(auto, using(crate::proofs::PlaceLemmas::root_stands), unfolding(crate::specs::UnitMap::after_all))]
    #[inline]
    pub fn new<S: Into<ZeroSlice<'a, u16>>>(trie: S) -> Self
        ensures units { (s : _) × S.converts trie s × (result.units ≡ slice_values s) }
        ensures place { result.place ≡ Node 0 }
        ensures root { (m : UnitMap) → IsTrieOf result.units m → HasPassed result m [] }
    {
        Char16TrieCursor {
            units: trie.into(),
            place: Place::Node(0),
        }
    }

    /// Creates a cursor at `place` in the trie with these units.
    ///
    /// `place` may come from another trie or from untrusted input. ICU: `resetToState`.
    ///
    /// ```
    /// let place = cursor.place();
    /// let same = Char16TrieCursor::resume(trie.data.as_slice(), place); // at the position of cursor
    /// ```
    #[inline]
    pub fn resume(trie: ZeroSlice<'a, u16>, place: CursorPlace) -> Self
        ensures units { result.units ≡ slice_values trie.entry }
        ensures place { result.place ≡ place_of place }
    {
        Char16TrieCursor {
            units: trie,
            place: place_of(place),
        }
    }

    /// Returns the position of the cursor, from which [`resume`](Self::resume) continues.
    ///
    /// ICU: `saveState`.
    #[inline]
    pub fn place(&self) -> CursorPlace
        ensures { place_of result ≡ self.now.place }
    {
        numbers_of(self.place)
    }

    /// Advances by one unit. If nothing matched before, nothing matches now.
    #[tactic(auto, using(crate::proofs::StepLemmas::steps_one, crate::proofs::PlaceLemmas::step_is_after))]
    #[inline(always)]
    pub fn step16(&mut self, unit: u16)
        ensures units { self.new.units ≡ self.old.units }
        ensures exact { StepsTo self.old.units self.old.place unit self.new.place }
        ensures only { (q : Place) → StepsTo self.old.units self.old.place unit q
            → q ≡ self.new.place }
        ensures after { (m : UnitMap) (w : List ℕ) → HasPassed self.old m w
            → HasPassed self.new m (w ++ unit ∷ []) }
        ensures nowhere { self.old.place ≡ Nowhere → self.new.place ≡ Nowhere }
    {
        self.place = step(self.units, self.place, unit);
    }

    /// Advances by the UTF-16 units of the code point `c`: one unit below 0x10000, surrogates
    /// included, and two from there to 0x10FFFF. Above 0x10FFFF nothing matches. If nothing matched
    /// before, nothing matches now.
    #[inline(always)]
    pub fn step32(&mut self, c: u32)
        ensures units { self.new.units ≡ self.old.units }
        ensures within { c ≤ 0x10FFFF → Passes self.old (encode_utf16 c) self.new }
        ensures only { c ≤ 0x10FFFF
            → (q : Place) → StepsAlong self.old.units self.old.place (encode_utf16 c) q
            → q ≡ self.new.place }
        ensures above { 0x10FFFF < c → self.new.place ≡ Nowhere }
        ensures nowhere { self.old.place ≡ Nowhere → self.new.place ≡ Nowhere }
    {
        if let Ok(unit) = u16::try_from(c) {
            self.step16(unit);
        } else if c <= 0x10_FFFF {
            let supplementary = c - 0x1_0000;
            self.step16((0xD800 + supplementary / 0x400) as u16);
            self.step16((0xDC00 + supplementary % 0x400) as u16);
        } else {
            self.place = Place::Nowhere;
        }
    }

    /// Advances by the UTF-16 units of the character `c`: one below U+10000, and two from there on. If
    /// nothing matched before, nothing matches now.
    #[inline(always)]
    pub fn step(&mut self, c: char)
        ensures passes { Passes self.old (encode_utf16 c) self.new }
        ensures only { (q : Place) → StepsAlong self.old.units self.old.place (encode_utf16 c) q
            → q ≡ self.new.place }
        ensures nowhere { self.old.place ≡ Nowhere → self.new.place ≡ Nowhere }
    {
        self.step32(c as u32);
    }

    /// Returns the value of the units so far if they are a key. The value is 0 if some of its own
    /// units are missing.
    #[tactic(auto, using(crate::proofs::PlaceLemmas::value_is_after))]
    #[inline]
    pub fn value(&self) -> Option<i32>
        ensures value { (m : UnitMap) (w : List ℕ) → HasPassed self.now m w
            → result ≡ value_of m w }
        ensures exact { result ≡ value_at self.now.units self.now.place }
    {
        value_at(self.units, self.place)
    }

    /// Returns true if no key continues after the units so far: if they match nothing, if they end
    /// in a final value, or if the lead unit of their node is missing.
    #[tactic(auto, using(crate::proofs::PlaceLemmas::empty_is_after))]
    #[inline]
    pub fn is_empty(&self) -> bool
        ensures empty { (m : UnitMap) (w : List ℕ) → HasPassed self.now m w
            → result ≡ not (goes_on m w) }
        ensures exact { result ≡ is_empty_at self.now.units self.now.place }
    {
        is_empty_at(self.units, self.place)
    }

    /// Returns the entries whose keys start with the units so far, in unit order, each key without
    /// those units.
    ///
    /// A dictionary completes typed text this way. If the units so far are a key, the first entry
    /// has the empty text. In the middle of a linear match each text starts with the rest of it. If
    /// nothing matched, there are no entries. ICU: `UCharsTrie::Iterator` of a trie that is not at
    /// its root.
    ///
    /// ```
    /// // of the map of "a" to 1, "ab" to 2 and "b" to 3
    /// let mut cursor = trie.cursor();
    /// cursor.step('a');
    /// let mut entries = cursor.entries(alloc); // "" and 1, then "b" and 2
    /// ```
    #[inline]
    pub fn entries(&self, alloc: Global) -> Entries<'a>
        ensures to_come { (m : UnitMap) (w : List ℕ) → HasPassed self.now m w
            → AreToCome result (after_all w m) }
        ensures text { entry_text result ≡ [] }
        ensures value { entry_value result ≡ pos 0 }
        ensures units { listed_units result ≡ self.now.units }
    {
        Entries::new(alloc, self.units, self.place)
    }

    /// Returns the units that can come next in some key, in ascending order and each once.
    ///
    /// There are none if [`is_empty`](Self::is_empty) returns true. ICU: `getNextUChars`.
    ///
    /// # Errors
    /// Returns `MemoryError` if an allocation fails.
    ///
    /// ```
    /// // of the map of "a" to 1, "ab" to 2 and "b" to 3
    /// let units = trie.cursor().next_units(alloc)?; // 0x61 and 0x62: "a" and "b"
    /// ```
    pub fn next_units(&self, alloc: Global) -> Result<Vec<u16>, MemoryError>
        ensures units { IfOk result (λ list. (m : UnitMap) (w : List ℕ) → HasPassed self.now m w
            → list.items ≡ first_units (after_all w m)) }
        ensures ascending { IfOk result (λ list. (m : UnitMap) (w : List ℕ)
            → HasPassed self.now m w → AreAscending list.items) }

        // On all units: the units of the branch's entries, as far as the entries are there.
        ensures exact { IfOk result
            (λ list. GoesOnWith self.now.units self.now.place list.items) }
    {
        let mut list = Vec::new(alloc);
        add_units(&mut list, self.units, self.place)?;
        Ok(list)
    }

    /// Returns the value that all keys have that start with the units so far, or `None` if their
    /// values differ or there is no such key.
    ///
    /// If the units so far are a key, it counts too. A program that completes typed text can use
    /// this to see whether the rest still matters. If the units are no trie from this position on,
    /// the result is `None`. ICU: `hasUniqueValue`.
    ///
    /// Visits each node ahead once and stops at the second value; ICU visits a node once for each
    /// way that leads to it. Allocates one byte for each unit of the trie.
    ///
    /// # Errors
    /// Returns `MemoryError` if an allocation fails.
    ///
    /// ```
    /// // of the map of "a" to 1, "ab" to 1 and "b" to 3
    /// let mut cursor = trie.cursor(); // cursor.unique_value(alloc)? is None
    /// cursor.step('a'); // cursor.unique_value(alloc)? is Some(1)
    /// ```
    pub fn unique_value(&self, alloc: Global) -> Result<Option<i32>, MemoryError>
        ensures value { IfOk result (λ told. (m : UnitMap) (w : List ℕ) (v : ℤ)
            → HasPassed self.now m w → (told ≡ Some v) ↔ HaveOneValue (after_all w m) v) }

        // On all units: a value is returned only if there is a node at each index that is led to.
        ensures exact { IfOk result (λ told. (v : ℤ) → (told ≡ Some v)
            ↔ StandsForOneValue self.now.units self.now.place v) }
    {
        unique_value_at(alloc, self.units, self.place)
    }
}
