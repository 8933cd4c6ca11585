//! Iterators over ranges with values.
ghost use Rattle.std.specs.Prelude.{◌≡◌, ◌+◌, None};
ghost use Rattle.std.specs.Iterator.{IsFinite, count_map};
ghost use Rattle.std.specs.Option.{option_len};
ghost use Rattle.itertools.specs.Adaptor.{fuse_can, fuse_left, IsFresh, EachRunBehind, Gives};
ghost use Rattle.icu_trie.specs.JoinedRanges.{joined_ranges, continues};
ghost use Rattle.icu_trie.specs.Coalescer.{coalescer_source, coalescer_peek, coalescer_steps};

use icu_trie_core::range::CodePointMapRange;
use std::iter::Fuse;

/// An iterator over ranges with values that joins adjacent ranges with equal values.
///
/// A range is joined to the one before it if it starts right after the last code point of that one
/// and has an equal value. A joined range has the value of its first range, and each further value
/// is compared with that one. Nothing is joined to a range that ends at `u32::MAX`. Ranges that are
/// not adjacent, or that overlap, stay as they are.
///
/// Over (0..=3, 1), (4..=6, 1), (8..=9, 1) it gives (0..=6, 1), (8..=9, 1).
#[derive(Debug, Drop)]
pub struct RangeListIteratorCoalescer<I, U> {
    iter: Fuse<I>,
    peek: Option<CodePointMapRange<U>>,
}

impl<I: Iterator<Item = CodePointMapRange<U>>, U: Eq> RangeListIteratorCoalescer<I, U> {
    /// Joins the ranges of `iter`. Once `iter` has returned `None`, it is not called again.
    pub fn new(iter: I) -> Self
        ensures source { IsFresh (coalescer_source result) iter }
        ensures peek { coalescer_peek result ≡ None }
        ensures runs { EachRunBehind
            (coalescer_steps I.next_gives U.PartialEq.eq) result I.next_gives iter
            (λ p q. Gives p q (joined_ranges U.PartialEq.eq)) }
    {
        Self {
            iter: iter.fuse(),
            peek: None,
        }
    }
}

/// Returns true if `next` starts right after `range` and has an equal value.
fn is_continued<U: Eq>(range: &CodePointMapRange<U>, next: &CodePointMapRange<U>) -> bool
    ensures { result ≡ continues U.PartialEq.eq range.now next.now }
{
    let last = *range.range.end();
    last < u32::MAX && *next.range.start() == last + 1 && next.value == range.value
}

impl<I: Iterator<Item = CodePointMapRange<U>>, U: Eq + Drop> Iterator
    for RangeListIteratorCoalescer<I, U> {
    type Item = CodePointMapRange<U>;

    ghost can_next = { λ s. fuse_can I.can_next (coalescer_source s)
        × IsFinite (fuse_left I.remaining (coalescer_source s)) };

    ghost next_gives = { coalescer_steps I.next_gives U.PartialEq.eq };

    ghost remaining = { λ s. count_map (λ n. n + option_len (coalescer_peek s))
        (fuse_left I.remaining (coalescer_source s)) };

    fn next(&mut self) -> Option<CodePointMapRange<U>> {
        let mut range = match self.peek.take() {
            Some(range) => range,
            None => self.iter.next()?,
        };
        while let Some(next) = self.iter.next() {
            if is_continued(&range, &next) {
                range.range = *range.range.start()..=*next.range.end();
            } else {
                self.peek = Some(next);
                return Some(range);
            }
        }
        Some(range)
    }
}
