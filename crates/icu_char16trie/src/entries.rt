//! The entries of a trie, in unit order.
ghost use Rattle.icu_char16trie.specs.Inside.Walking.{IsSound, IsSound-prop};

use crate::place::Place;
use crate::walk::Walk;
use icu_zerovec::{MemoryError, ZeroSlice};
use std::alloc::Global;

/// An iterator over the entries of a trie in unit order: each key as text, with its value. A lone
/// surrogate becomes U+FFFD.
///
/// The iterator ends after an `Err` and after the last entry. One call of `next` opens at most as
/// many nodes as there are units. A trie never has more of them before an entry. If the units are
/// not a trie, the items are what their nodes contain, as far as the units go. The iterator then
/// ends when one call has opened that many nodes without finding an entry.
#[derive(Debug, Drop)]
pub struct Iter2<'a> {
    alloc: Global,
    walk: Walk<'a>,
    ghost sound: { IsSound walk } by { IsSound-prop walk },
}

impl<'a> Iter2<'a> {
    ghost use Rattle.std.specs.Prelude.{◌≡◌, ℕ, ℤ, List};
    ghost use Rattle.icu_zerovec.specs.Slice.{slice_values};
    ghost use Rattle.icu_char16trie.specs.Grammar.{IsTrieOf};
    ghost use Rattle.icu_char16trie.specs.UnitMap.{UnitMap};
    ghost use Rattle.icu_char16trie.specs.Entries.{IsLeft};

    /// Creates an iterator over the entries of the trie with these units.
    #[tactic(auto, using(crate::proofs::PlaceLemmas::root_stands))]
    pub(crate) fn new(alloc: Global, units: ZeroSlice<'a, u16>) -> Self
        ensures left { (m : UnitMap) → IsTrieOf (slice_values units.entry) m → IsLeft result m }
        ensures units { slice_values result.walk.pending.units ≡ slice_values units.entry }
    {
        Iter2 {
            alloc,
            walk: Walk::new(alloc, units, Place::Node(0)),
        }
    }
}

impl<'a> Iterator for Iter2<'a> {
    ghost use Rattle.std.specs.Iterator.{at_most};
    ghost use Rattle.icu_char16trie.specs.Walk.{walk_work};
    ghost use Rattle.icu_char16trie.specs.Entries.{GivesNext};

    type Item = Result<(String, i32), MemoryError>;

    ghost next_gives = { GivesNext };

    ghost remaining = { λ s. at_most (walk_work s.walk) };

    fn next(&mut self) -> Option<Result<(String, i32), MemoryError>> {
        self.walk.next_item(self.alloc)
    }
}
