//! The ranges of a trie whose values are mapped.
use crate::cptrie::CodePointTrie;
use crate::iterator_utils::RangeListIteratorCoalescer;
use crate::ranges::CodePointMapRangeIterator;
use icu_trie_core::range::CodePointMapRange;
use icu_trie_core::value::TrieValue;

impl<'trie, T: TrieValue> CodePointTrie<'trie, T> {
    ghost use Rattle.std.specs.Prelude.{List};
    ghost use Rattle.std.specs.List.{All};
    ghost use Rattle.std.specs.Iterator.{Drains};
    ghost use Rattle.icu_trie.specs.Ranges.{IsCoherentTrie, IsRangeOfCodePoints, answers};
    ghost use Rattle.icu_trie.specs.MappedRanges.{Answers, AreMappedRangesOf, AreMappedRunsFrom, CanFuse, iter_mapped_steps};

    /// Returns an iterator over the ranges whose values are equal under `map`. It replaces the
    /// value of each range of [`iter_ranges`](Self::iter_ranges) by the result of `map`, and joins
    /// adjacent ranges with equal results.
    ///
    /// The iterator is lazy: it calls `map` once for each range that it reaches. If the result of
    /// `map` depends only on its argument and the trie is coherent, as every built one is, the
    /// ranges are the maximal runs.
    ///
    /// ```
    /// for range in trie.iter_ranges_mapped(|x| x != 0) {
    ///     // the code points that have the value 0, and those that don't, in turn
    /// }
    /// ```
    pub fn iter_ranges_mapped<U: Eq + Drop, F: Fn(T) -> U>(
        &self,
        map: F,
    ) -> IterRangesMapped<'_, T, U, F>
        requires { F.IsAlwaysCallable map }
        ensures can { CanFuse F.IsAlwaysCallable result }
        ensures ranges { (xs : List _)
            → Drains (iter_mapped_steps T.of_number F.post U.PartialEq.eq) result xs
            → AreMappedRangesOf T.of_number F.post U.PartialEq.eq map self.now xs }
        ensures shape { (xs : List _)
            → Drains (iter_mapped_steps T.of_number F.post U.PartialEq.eq) result xs
            → All IsRangeOfCodePoints xs }
        ensures runs { (h : T → U) → Answers F.post map h → IsCoherentTrie T.of_number self.now
            → (xs : List _)
            → Drains (iter_mapped_steps T.of_number F.post U.PartialEq.eq) result xs
            → AreMappedRunsFrom U.PartialEq.eq h (answers self.now) 0 xs }
    {
        IterRangesMapped {
            ranges: RangeListIteratorCoalescer::new(MappedRanges {
                ranges: self.iter_ranges(),
                map,
            }),
        }
    }
}

/// An iterator over the ranges of a trie, each with the result of a closure for its value. It does
/// not join ranges of equal results; [`IterRangesMapped`] contains it and joins them.
#[derive(Debug, Drop)]
pub struct MappedRanges<'a, T: TrieValue, F> {
    ranges: CodePointMapRangeIterator<'a, T>,
    map: F,
}

impl<'a, T: TrieValue, U, F: Fn(T) -> U> Iterator for MappedRanges<'a, T, F> {
    ghost use Rattle.std.specs.Prelude.{◌-◌};
    ghost use Rattle.std.specs.Iterator.{at_most};
    ghost use Rattle.icu_trie.specs.Iterators.{iterator_next};
    ghost use Rattle.icu_trie.specs.MappedRanges.{GivesMapped, mapped_source, mapped_callee};

    type Item = CodePointMapRange<U>;

    ghost can_next = { λ s. F.IsAlwaysCallable (mapped_callee s) };

    ghost next_gives = { GivesMapped T.of_number F.post };

    ghost remaining = { λ s. at_most (0x110000 - iterator_next (mapped_source s)) };

    fn next(&mut self) -> Option<CodePointMapRange<U>> {
        let range = self.ranges.next()?;
        Some(CodePointMapRange {
            range: range.range,
            value: (self.map)(range.value),
        })
    }
}

/// An iterator over the ranges of a trie with mapped values, in which adjacent ranges of equal
/// values are joined. See [`CodePointTrie::iter_ranges_mapped`].
///
/// Once `next` returns `None`, it returns `None` forever.
#[derive(Debug, Drop)]
pub struct IterRangesMapped<'a, T: TrieValue, U, F> {
    ranges: RangeListIteratorCoalescer<MappedRanges<'a, T, F>, U>,
}

impl<'a, T: TrieValue, U: Eq + Drop, F: Fn(T) -> U> Iterator for IterRangesMapped<'a, T, U, F> {
    ghost use Rattle.std.specs.Prelude.{◌+◌, ◌-◌};
    ghost use Rattle.std.specs.Iterator.{at_most, count_map};
    ghost use Rattle.std.specs.Option.{option_len};
    ghost use Rattle.itertools.specs.Adaptor.{fuse_left};
    ghost use Rattle.icu_trie.specs.Coalescer.{coalescer_source, coalescer_peek};
    ghost use Rattle.icu_trie.specs.Iterators.{iterator_next};
    ghost use Rattle.icu_trie.specs.MappedRanges.{CanFuse, mapped_source, iter_mapped_source, iter_mapped_steps};

    type Item = CodePointMapRange<U>;

    ghost can_next = { λ s. CanFuse F.IsAlwaysCallable s };

    ghost next_gives = { iter_mapped_steps T.of_number F.post U.PartialEq.eq };

    ghost remaining = { λ s. count_map (λ n. n + option_len (coalescer_peek (iter_mapped_source s)))
        (fuse_left (λ m. at_most (0x110000 - iterator_next (mapped_source m)))
        (coalescer_source (iter_mapped_source s))) };

    fn next(&mut self) -> Option<CodePointMapRange<U>> {
        self.ranges.next()
    }
}
