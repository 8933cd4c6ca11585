//! The cells of two packed vectors, and the functions of the format that read only these.
ghost use Rattle.std.specs.Prelude.{◌≡◌, ◌<◌, ◌≤◌, ◌↔◌, IsTrue, Some, IsSomeAnd};
ghost use Rattle.icu_trie_core.specs.Coherence.{IsCoherent};
ghost use Rattle.icu_trie_core.specs.Format.{answer};
ghost use Rattle.icu_trie_core.specs.Range.{GivesWalk, last_of};
ghost use Rattle.icu_trie_core.specs.Runs.{LongestRun};
ghost use Rattle.icu_trie.specs.Parts.{cells_in};

use icu_trie_core::cells::{Cells, Steps};
use icu_trie_core::coherent::is_coherent;
use icu_trie_core::header::CodePointTrieHeader;
use icu_trie_core::range::CodePointMapRange;
use icu_trie_core::value::TrieValue;
use icu_trie_core::walk::walk;
use icu_zerovec::ZeroSlice;
use std::marker::Brand;
use std::sync::ledger::{Blank, Ledger};

/// The cells of two packed vectors.
#[derive(Drop)]
pub(crate) struct PackedCells<'a, T: TrieValue, L: Ledger> {
    pub(crate) index: ZeroSlice<'a, u16>,
    pub(crate) values: ZeroSlice<'a, T>,
    pub(crate) reads: Steps<L>,
}

impl<'a, T: TrieValue, L: Ledger> Cells<T> for PackedCells<'a, T, L> {
    ghost contents = { λ cells. cells_in cells.index cells.values };

    ghost reads = { λ cells. cells.reads };

    #[inline(always)]
    fn index_len(&self) -> usize {
        self.index.len()
    }

    #[inline(always)]
    fn data_len(&self) -> usize {
        self.values.len()
    }

    #[inline(always)]
    fn index_cell(&mut self, i: usize) -> Option<u16> {
        self.reads.tick();
        self.index.get(i)
    }

    #[inline(always)]
    fn data_cell(&mut self, i: usize) -> Option<T> {
        self.reads.tick();
        self.values.get(i)
    }

    #[inline(always)]
    fn index_at(&mut self, i: usize) -> u16 {
        self.reads.tick();
        self.index.at(i)
    }

    #[inline(always)]
    fn data_at(&mut self, i: usize) -> T {
        self.reads.tick();
        self.values.at(i)
    }
}

/// `walk` over packed vectors.
///
/// # Contract
/// It counts in the ledger of `blank`.
#[inline(always)]
fn walk_counted<T: TrieValue, L: Ledger>(
    header: &CodePointTrieHeader,
    index: ZeroSlice<'_, u16>,
    values: ZeroSlice<'_, T>,
    c: u32,
    blank: Blank,
) -> Option<CodePointMapRange<T>>
    requires name { blank.name ≡ L.name }
    requires parts { blank.parts ≡ L.parts }
    requires some { 0 < blank.parts }
    ensures gives { GivesWalk T.of_number header.now (cells_in index.entry values.entry) c result }
    ensures longest { IsCoherent T.of_number header.now (cells_in index.entry values.entry)
        → c < 0x110000 → IsSomeAnd result (λ r.
        LongestRun (answer header.now (cells_in index.entry values.entry)) c (last_of r)
        (Some r.value)) }
{
    let mut cells = PackedCells {
        index,
        values,
        reads: Steps::<L>::new(blank),
    };
    walk(header, &mut cells, c)
}

/// `walk` over packed vectors.
///
/// # Contract
/// It counts in its own ledger, which it then drops.
#[inline(always)]
pub(crate) fn walk_in<T: TrieValue>(
    header: &CodePointTrieHeader,
    index: ZeroSlice<'_, u16>,
    values: ZeroSlice<'_, T>,
    c: u32,
) -> Option<CodePointMapRange<T>>
    ensures gives { GivesWalk T.of_number header.now (cells_in index.entry values.entry) c result }
    ensures longest { IsCoherent T.of_number header.now (cells_in index.entry values.entry)
        → c < 0x110000 → IsSomeAnd result (λ r.
        LongestRun (answer header.now (cells_in index.entry values.entry)) c (last_of r)
        (Some r.value)) }
{
    walk_counted::<T, Brand>(header, index, values, c, Blank::new(1))
}

/// `is_coherent` over packed vectors.
///
/// # Contract
/// It counts in the ledger of `blank`.
fn is_coherent_counted<T: TrieValue, L: Ledger>(
    header: &CodePointTrieHeader,
    index: ZeroSlice<'_, u16>,
    values: ZeroSlice<'_, T>,
    blank: Blank,
) -> bool
    requires name { blank.name ≡ L.name }
    requires parts { blank.parts ≡ L.parts }
    requires some { 0 < blank.parts }
    ensures { IsTrue result
        ↔ IsCoherent T.of_number header.now (cells_in index.entry values.entry) }
{
    let mut cells = PackedCells {
        index,
        values,
        reads: Steps::<L>::new(blank),
    };
    is_coherent(header, &mut cells)
}

/// `is_coherent` over packed vectors.
///
/// # Contract
/// It counts in its own ledger, which it then drops.
pub(crate) fn is_coherent_in<T: TrieValue>(
    header: &CodePointTrieHeader,
    index: ZeroSlice<'_, u16>,
    values: ZeroSlice<'_, T>,
) -> bool
    ensures { IsTrue result
        ↔ IsCoherent T.of_number header.now (cells_in index.entry values.entry) }
{
    is_coherent_counted::<T, Brand>(header, index, values, Blank::new(1))
}
