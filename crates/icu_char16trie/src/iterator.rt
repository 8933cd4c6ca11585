//! Look-up with a result for each step, the interface from before the Rust crate had a cursor.
ghost use Rattle.std.specs.Prelude.{◌≡◌, ℕ, ℤ, List, [], ◌∷◌, ◌++◌, ◌<◌, ◌≤◌, Option, Bool, not};
ghost use Rattle.icu_zerovec.specs.Slice.{slice_values};
ghost use Rattle.icu_char16trie.specs.UnitMap.{UnitMap, goes_on, value_of};
ghost use Rattle.icu_char16trie.specs.declared.place.Place.{Place};
ghost use Rattle.icu_char16trie.specs.declared.place.Place.TheVariants.{Nowhere, Node};

use crate::cursor::Char16TrieCursor;
use icu_zerovec::ZeroSlice;
use std::marker::Model;

/// The result of a step: what the units so far are.
#[derive(Clone, Copy, Debug, PartialEq)]
pub enum TrieResult {
    /// They match nothing, or lead to a node that is missing. More units match nothing either.
    NoMatch,
    /// They are not a key, and some key continues after them.
    NoValue,
    /// They are a key with this value, and no key continues after them.
    FinalValue(i32),
    /// They are a key with this value, and some key continues after them.
    Intermediate(i32),
}

/// A cursor that returns a result for each step.
#[derive(Clone, Debug, Drop)]
pub struct Char16TrieIterator<'a> {
    cursor: Char16TrieCursor<'a>,
}

impl<'a> Model for Char16TrieIterator<'a> {
    ghost use Rattle.icu_char16trie.specs.UnitPlaces.{At};

    ghost Value = { At };

    ghost view = { λ i. i.cursor };
}

impl<'a> Char16TrieIterator<'a> {
    ghost use Rattle.std.specs.Char.Escape.{encode_utf16};
    ghost use Rattle.icu_char16trie.specs.Grammar.{IsTrieOf};
    ghost use Rattle.icu_char16trie.specs.UnitPlaces.{HasPassed};
    ghost use Rattle.icu_char16trie.specs.Steps.{StepsTo, StepsAlong};
    ghost use Rattle.icu_char16trie.specs.Passed.{Passes, answer_at, result_of, result_of};
    ghost use Rattle.icu_char16trie.specs.declared.iterator.TrieResult.TheVariants.{NoMatch};

    /// Creates an iterator at the root of the trie with these units.
    #[inline]
    pub fn new<S: Into<ZeroSlice<'a, u16>>>(trie: S) -> Self
        ensures units { (s : _) × S.converts trie s × (result.units ≡ slice_values s) }
        ensures place { result.place ≡ Node 0 }
        ensures root { (m : UnitMap) → IsTrieOf result.units m → HasPassed result m [] }
    {
        Char16TrieIterator {
            cursor: Char16TrieCursor::new(trie),
        }
    }

    /// Advances by the UTF-16 units of the character `c` and returns the result.
    ///
    /// ```
    /// // of the map of "a" to 1 and "ab" to 2
    /// let mut iterator = trie.iter();
    /// // iterator.next('a') is TrieResult::Intermediate(1), then iterator.next('b') is TrieResult::FinalValue(2),
    /// // and from then on iterator.next('b') is TrieResult::NoMatch
    /// ```
    #[inline]
    pub fn next(&mut self, c: char) -> TrieResult
        ensures passes { Passes self.old (encode_utf16 c) self.new }
        ensures only { (q : Place) → StepsAlong self.old.units self.old.place (encode_utf16 c) q
            → q ≡ self.new.place }
        ensures nowhere { self.old.place ≡ Nowhere → self.new.place ≡ Nowhere }
        ensures answer { result ≡ answer_at self.new }
        ensures told { (m : UnitMap) (w : List ℕ) → HasPassed self.new m w
            → result ≡ result_of (value_of m w) (not (goes_on m w)) }
        ensures stays { answer_at self.old ≡ NoMatch → result ≡ NoMatch }
    {
        self.next32(c as u32)
    }

    /// Advances by the UTF-16 units of the code point `c` and returns the result. Surrogates are
    /// one unit each. Above 0x10FFFF the result is [`TrieResult::NoMatch`].
    #[tactic(auto, using(crate::proofs::PlaceLemmas::answer_is_after))]
    pub fn next32(&mut self, c: u32) -> TrieResult
        ensures units { self.new.units ≡ self.old.units }
        ensures within { c ≤ 0x10FFFF → Passes self.old (encode_utf16 c) self.new }
        ensures only { c ≤ 0x10FFFF
            → (q : Place) → StepsAlong self.old.units self.old.place (encode_utf16 c) q
            → q ≡ self.new.place }
        ensures above { 0x10FFFF < c → self.new.place ≡ Nowhere }
        ensures nowhere { self.old.place ≡ Nowhere → self.new.place ≡ Nowhere }
        ensures answer { result ≡ answer_at self.new }
        ensures told { (m : UnitMap) (w : List ℕ) → HasPassed self.new m w
            → result ≡ result_of (value_of m w) (not (goes_on m w)) }
        ensures stays { answer_at self.old ≡ NoMatch → result ≡ NoMatch }
    {
        self.cursor.step32(c);
        self.result()
    }

    /// Advances by the unit `c` and returns the result.
    #[inline]
    #[tactic(auto, using(crate::proofs::PlaceLemmas::answer_is_after))]
    pub fn next16(&mut self, c: u16) -> TrieResult
        ensures units { self.new.units ≡ self.old.units }
        ensures exact { StepsTo self.old.units self.old.place c self.new.place }
        ensures only { (q : Place) → StepsTo self.old.units self.old.place c q
            → q ≡ self.new.place }
        ensures after { (m : UnitMap) (w : List ℕ) → HasPassed self.old m w
            → HasPassed self.new m (w ++ c ∷ []) }
        ensures nowhere { self.old.place ≡ Nowhere → self.new.place ≡ Nowhere }
        ensures answer { result ≡ answer_at self.new }
        ensures told { (m : UnitMap) (w : List ℕ) → HasPassed self.new m w
            → result ≡ result_of (value_of m w) (not (goes_on m w)) }
        ensures stays { answer_at self.old ≡ NoMatch → result ≡ NoMatch }
    {
        self.cursor.step16(c);
        self.result()
    }

    /// Returns what the units so far are.
    fn result(&self) -> TrieResult
        ensures { result ≡ answer_at self.now }
    {
        match (self.cursor.value(), self.cursor.is_empty()) {
            (Some(value), true) => TrieResult::FinalValue(value),
            (Some(value), false) => TrieResult::Intermediate(value),
            (None, true) => TrieResult::NoMatch,
            (None, false) => TrieResult::NoValue,
        }
    }
}
