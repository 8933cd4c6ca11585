//! The ranges of a trie that have a certain value.
use crate::cptrie::CodePointTrie;
use crate::ranges::CodePointMapRangeIterator;
use icu_trie_core::value::TrieValue;
use std::ops::RangeInclusive;

impl<'trie, T: TrieValue> CodePointTrie<'trie, T> {
    ghost use Rattle.std.specs.Prelude.{List};
    ghost use Rattle.std.specs.List.{All};
    ghost use Rattle.std.specs.Iterator.{Drains};
    ghost use Rattle.icu_trie.specs.Ranges.{HasCodePoints, IsCoherentTrie};
    ghost use Rattle.icu_trie.specs.RangesOfValue.{GivesNextOfValue, AreRangesOfValue, AreRunsOfValue};

    /// Returns an iterator over the ranges that have the value: those ranges of
    /// [`iter_ranges`](Self::iter_ranges), in order, whose value equals it.
    ///
    /// If the trie is coherent, as every built one is, these are the maximal runs of the value. If
    /// no code point has the value, there are none.
    pub fn iter_ranges_for_value(&self, value: T) -> IterRangesForValue<'_, T>
        ensures ranges { (xs : List _)
            → Drains (GivesNextOfValue T.of_number T.PartialEq.eq) result xs
            → AreRangesOfValue T.PartialEq.eq T.of_number self.now value xs }
        ensures shape { (xs : List _)
            → Drains (GivesNextOfValue T.of_number T.PartialEq.eq) result xs
            → All HasCodePoints xs }
        ensures runs { IsCoherentTrie T.of_number self.now → (xs : List _)
            → Drains (GivesNextOfValue T.of_number T.PartialEq.eq) result xs
            → AreRunsOfValue T.PartialEq.eq self.now value xs }
    {
        IterRangesForValue {
            ranges: self.iter_ranges(),
            value,
        }
    }
}

/// An iterator over the ranges of a trie that have a certain value. See
/// [`CodePointTrie::iter_ranges_for_value`].
///
/// Once `next` returns `None`, it returns `None` forever.
#[derive(Debug, Drop)]
pub struct IterRangesForValue<'a, T: TrieValue> {
    ranges: CodePointMapRangeIterator<'a, T>,
    value: T,
}

impl<'a, T: TrieValue> Iterator for IterRangesForValue<'a, T> {
    ghost use Rattle.std.specs.Prelude.{◌-◌};
    ghost use Rattle.std.specs.Iterator.{at_most};
    ghost use Rattle.icu_trie.specs.Iterators.{iterator_next};
    ghost use Rattle.icu_trie.specs.RangesOfValue.{GivesNextOfValue, value_iterator_source};

    type Item = RangeInclusive<u32>;

    ghost next_gives = { GivesNextOfValue T.of_number T.PartialEq.eq };

    ghost remaining = { λ s. at_most (0x110000 - iterator_next (value_iterator_source s)) };

    fn next(&mut self) -> Option<RangeInclusive<u32>> {
        while let Some(range) = self.ranges.next() {
            if range.value == self.value {
                return Some(range.range);
            }
        }
        None
    }
}
