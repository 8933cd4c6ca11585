//! The entries of a trie through one buffer.
ghost use Rattle.icu_char16trie.specs.Inside.Walking.{IsSound, IsSound-prop};

use crate::place::Place;
use crate::walk::Walk;
use icu_zerovec::{MemoryError, ZeroSlice};
use std::alloc::Global;

/// The entries of a trie in unit order, one at a time.
///
/// [`advance`](Self::advance) moves to the next entry, and [`key`](Self::key) and
/// [`value`](Self::value) return it. The text of the key is stored in one buffer, which grows if a
/// key is longer than all before it. A key that ends in a lead surrogate is written to a second
/// buffer. ICU: `UCharsTrie::Iterator`.
///
/// Created by [`Char16Trie::entries`](crate::trie::Char16Trie::entries), and by
/// [`Char16TrieCursor::entries`](crate::cursor::Char16TrieCursor::entries) for the keys ahead of a
/// cursor.
///
/// One call of `advance` opens at most as many nodes as there are units. A trie never has more of
/// them before an entry. If the units are not a trie, the entries are what their nodes contain, as
/// far as the units go. They end when one call has opened that many nodes without finding an entry.
#[derive(Debug, Drop)]
pub struct Entries<'a> {
    walk: Walk<'a>,
    ghost sound: { IsSound walk } by { IsSound-prop walk },
}

impl<'a> Entries<'a> {
    ghost use Rattle.icu_zerovec.specs.Slice.{slice_values};
    ghost use Rattle.std.specs.Prelude.{◌≡◌, ◌<◌, pos, Ok, IfOk, [], true, false};
    ghost use Rattle.icu_char16trie.specs.UnitMap.{UnitMap};
    ghost use Rattle.icu_char16trie.specs.UnitPlaces.{IsNear, Stands};
    ghost use Rattle.icu_char16trie.specs.Listing.{AreToCome, Advances, EndsUnlessReached, IsAtEnd, IsSomeValue, entry_text, entry_value, entries_work, listed_units};

    /// Creates the listing of the entries from a position in these units.
    pub(crate) fn new(alloc: Global, units: ZeroSlice<'a, u16>, place: Place) -> Self
        requires { IsNear place }
        ensures to_come { (m : UnitMap) → Stands (slice_values units.entry) place m
            → AreToCome result m }
        ensures text { entry_text result ≡ [] }
        ensures value { entry_value result ≡ pos 0 }
        ensures units { listed_units result ≡ slice_values units.entry }
    {
        Entries {
            walk: Walk::new(alloc, units, place),
        }
    }

    /// Moves to the next entry and returns true, or returns false if none is left.
    ///
    /// After it has returned false or an `Err`, no entry is left. Allocates only if the key is
    /// longer than all before it, or nested below more branches.
    ///
    /// # Errors
    /// Returns `MemoryError` if an allocation fails.
    ///
    /// ```
    /// // of the map of "a" to 1 and "ab" to 2
    /// let mut entries = trie.entries(alloc);
    /// while entries.advance()? {
    ///     // entries.key() and entries.value() are "a" and 1, then "ab" and 2
    /// }
    /// ```
    pub fn advance(&mut self) -> Result<bool, MemoryError>
        ensures tells { (m : UnitMap) → AreToCome self.old m → Advances m result self.new }
        ensures ended { EndsUnlessReached result self.new }
        ensures done { IsAtEnd self.old → result ≡ Ok false }

        // On all units: a value is that of a node, and the listing ends.
        ensures value { result ≡ Ok true → IsSomeValue self.new }
        ensures units { IfOk result (λ found. listed_units self.new ≡ listed_units self.old) }
        ensures work { result ≡ Ok true → entries_work self.new < entries_work self.old }
    {
        self.walk.next_entry()
    }

    /// Returns the text of the current entry's key. Each lone surrogate is U+FFFD.
    ///
    /// The text is empty before the first [`advance`](Self::advance), and after one that reached no
    /// entry.
    #[inline]
    pub fn key(&self) -> &str
        ensures { result.now ≡ entry_text self.now }
    {
        self.walk.text()
    }

    /// Returns the value of the current entry.
    ///
    /// The value is 0 before the first [`advance`](Self::advance), after one that reached no entry,
    /// and if some units of the value are missing.
    #[inline]
    pub fn value(&self) -> i32
        ensures { result ≡ entry_value self.now }
    {
        self.walk.value
    }
}
