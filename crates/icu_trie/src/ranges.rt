//! The ranges of a trie.
ghost use Rattle.std.specs.Prelude.{◌≡◌, ◌≢◌, ℕ, ◌+◌, ◌-◌, ◌<◌, ◌≤◌, List, Some, None, MatchOption, IfOk, map, true, ◌↔◌};
ghost use Rattle.icu_invlist.specs.InversionList.{IsValid, holds};

use crate::cptrie::CodePointTrie;
use crate::packed_cells::walk_in;
use crate::view::TrieView;
use icu_invlist::codepointinvlist::CodePointInversionList;
pub use icu_trie_core::range::CodePointMapRange;
use icu_trie_core::value::TrieValue;
use icu_trie_core::walk::is_same;
use icu_zerovec::{CODE_POINT_LIMIT, MemoryError};
use std::alloc::Global;

impl<'a, T: TrieValue> TrieView<'a, T> {
    ghost use Rattle.icu_trie_core.specs.Contents.{contents_of};
    ghost use Rattle.icu_trie_core.specs.Runs.{LongestRun};
    ghost use Rattle.icu_trie_core.specs.Range.{GivesWalk, last_of};
    ghost use Rattle.icu_trie.specs.Ranges.{IsCoherentTrie, answers};
    ghost use Rattle.icu_trie.specs.View.{view_parts};

    /// Returns the range of code points from `c` on that have the same value as `c`, as
    /// [`CodePointTrie::get_range`] does.
    #[inline(always)]
    pub fn get_range(&self, c: u32) -> Option<CodePointMapRange<T>>
        ensures gives { GivesWalk T.of_number (view_parts self.now).header
            (contents_of (view_parts self.now).index (view_parts self.now).values) c
            result }
        ensures longest { IsCoherentTrie T.of_number (view_parts self.now)
            → MatchOption result (0x110000 ≤ c)
            (λ x. LongestRun (answers (view_parts self.now)) c (last_of x) (Some x.value)) }
    {
        let (header, index, data) = self.parts();
        walk_in(&header, index, data, c)
    }
}

impl<'trie, T: TrieValue> CodePointTrie<'trie, T> {
    ghost use Rattle.std.specs.List.{All};
    ghost use Rattle.std.specs.Iterator.{Drains};
    ghost use Rattle.icu_trie_core.specs.Contents.{contents_of};
    ghost use Rattle.icu_trie_core.specs.Runs.{LongestRun, AreMaximalRuns};
    ghost use Rattle.icu_trie_core.specs.Range.{GivesWalk, last_of, run_of};
    ghost use Rattle.icu_trie.specs.Ranges.{AreRangesFrom, IsInRangeOf, IsCoherentTrie, IsRangeOfCodePoints, answers};
    ghost use Rattle.icu_trie.specs.Iterators.{GivesNextRange, iterator_trie, iterator_next};

    /// Returns the range of code points from `c` on that have the same value as `c`.
    ///
    /// If the trie is coherent, as every built one is, this is the longest run of equal values from
    /// `c` on. Otherwise the range is the one that [`walk`](icu_trie_core::walk::walk) returns.
    ///
    /// Returns `None` if `c` is above 0x10FFFF, or if the walk reaches a cell that the trie lacks.
    #[inline(always)]
    pub fn get_range(&self, c: u32) -> Option<CodePointMapRange<T>>
        ensures gives { GivesWalk T.of_number self.now.header
            (contents_of self.now.index self.now.values) c
            result }
        ensures longest { IsCoherentTrie T.of_number self.now
            → MatchOption result (0x110000 ≤ c)
            (λ x. LongestRun (answers self.now) c (last_of x) (Some x.value)) }
    {
        self.as_view().get_range(c)
    }

    /// Returns an iterator over the ranges of equal values, in order from 0 on. Each range starts
    /// right after the one before it.
    ///
    /// If the trie is coherent, as every built one is, these are the maximal runs of its values.
    ///
    /// ```
    /// let trie = build_from_writes(alloc, 0u8, 9, TrieType::Small, &[Write::Range(0x41..=0x5A, 1)])?;
    /// for range in trie.iter_ranges() {
    ///     // 0..=0x40 with 0, then 0x41..=0x5A with 1, then 0x5B..=0x10FFFF with 0
    /// }
    /// ```
    pub fn iter_ranges(&self) -> CodePointMapRangeIterator<'_, T>
        ensures of { iterator_trie result ≡ self.now }
        ensures start { iterator_next result ≡ 0 }
        ensures ranges { (xs : List _) → Drains (GivesNextRange T.of_number) result xs
            → AreRangesFrom T.of_number self.now 0 xs }
        ensures shape { (xs : List _) → Drains (GivesNextRange T.of_number) result xs
            → All IsRangeOfCodePoints xs }
        ensures runs { IsCoherentTrie T.of_number self.now → (xs : List _)
            → Drains (GivesNextRange T.of_number) result xs
            → AreMaximalRuns (answers self.now) (map run_of xs) }
        ensures only { IsCoherentTrie T.of_number self.now → (xs : List _)
            → Drains (GivesNextRange T.of_number) result xs
            → (runs : List _) → AreMaximalRuns (answers self.now) runs → runs ≡ map run_of xs }
    {
        CodePointMapRangeIterator {
            trie: self,
            next: 0,
        }
    }

    /// Returns the boundaries of the ranges with the value, alternating inclusive starts and
    /// exclusive ends. Adjacent ranges with the value are joined.
    fn ends_of_value(&self, alloc: Global, value: T) -> Result<Vec<u32>, MemoryError>
        ensures valid { IfOk result (λ v. IsValid v.items) }
        ensures set { IfOk result (λ v. (xs : List _) × AreRangesFrom T.of_number self.now 0 xs
            × ((c : ℕ) → c < 0x110000 → (holds v.items c ≡ true) ↔ IsInRangeOf value xs c)) }
    {
        // If the number of boundaries is odd, the last range had the value.
        let mut ends = Vec::new(alloc);
        let mut next = 0;
        for run in self.iter_ranges() {
            let is_inside = ends.len() % 2 == 1;
            if is_same(run.value, value) != is_inside {
                ends.push(*run.range.start())?;
            }
            next = *run.range.end() + 1;
        }
        if ends.len() % 2 == 1 {
            ends.push(next)?;
        }
        Ok(ends)
    }

    /// Returns the set of code points whose range in [`iter_ranges`](Self::iter_ranges) has the
    /// value.
    ///
    /// If the trie is coherent, as every built one is, these are exactly the code points that have
    /// the value.
    ///
    /// # Errors
    /// Returns `MemoryError` if an allocation fails.
    ///
    /// ```
    /// let trie = build_from_writes(alloc, 0u8, 9, TrieType::Small, &[Write::Range(0x41..=0x5A, 1)])?;
    /// let letters = trie.get_set_for_value(alloc, 1)?;
    /// // letters.contains32(0x5A) is true, and letters.contains32(0x5B) is false
    /// ```
    pub fn get_set_for_value(
        &self,
        alloc: Global,
        value: T,
    ) -> Result<CodePointInversionList<'static>, MemoryError>
        ensures valid { IfOk result IsValid }
        ensures set { IfOk result (λ s. (xs : List _) × AreRangesFrom T.of_number self.now 0 xs
            × ((c : ℕ) → c < 0x110000 → (holds s c ≡ true) ↔ IsInRangeOf value xs c)) }
        ensures preimage { IsCoherentTrie T.of_number self.now
            → IfOk result (λ s. (c : ℕ) → c < 0x110000
            → (holds s c ≡ true) ↔ (answers self.now c ≡ Some value)) }
    {
        let ends = self.ends_of_value(alloc, value)?;
        let set = CodePointInversionList::from_valid_slice(alloc, &ends)?;
        Ok(set)
    }
}

/// An iterator over the ranges of a trie, from 0 on. See [`CodePointTrie::iter_ranges`].
///
/// It returns what [`get_range`](CodePointTrie::get_range) returns at 0, and then at the code point
/// after each range. Once it returns `None`, it returns `None` forever.
#[derive(Debug, Drop)]
pub struct CodePointMapRangeIterator<'a, T: TrieValue> {
    trie: &'a CodePointTrie<'a, T>,
    next: u32,
}

impl<'a, T: TrieValue> Iterator for CodePointMapRangeIterator<'a, T> {
    ghost use Rattle.std.specs.Iterator.{at_most};
    ghost use Rattle.icu_trie.specs.Iterators.{GivesNextRange, iterator_next};

    type Item = CodePointMapRange<T>;

    ghost next_gives = { GivesNextRange T.of_number };

    ghost remaining = { λ s. at_most (0x110000 - iterator_next s) };

    #[inline(always)]
    fn next(&mut self) -> Option<CodePointMapRange<T>> {
        let range = self.trie.get_range(self.next);
        self.next = match &range {
            Some(x) => *x.range.end() + 1,
            None => CODE_POINT_LIMIT,
        };
        range
    }
}
