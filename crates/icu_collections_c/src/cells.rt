//! The cells of a trie in bytes, at any address, and what is read through them.
ghost use Rattle.std.specs.Prelude.{◌≡◌, ℕ, ◌/◌, ◌^◌, ◌<◌, ◌≤◌, ◌↔◌, List, length, slice_get, Some, IsSome, IsTrue, MatchOption, refl};
ghost use Rattle.icu_zerovec.specs.Cells.{values_of};
ghost use Rattle.icu_zerovec.specs.PackedBytes.{number_of};
ghost use Rattle.icu_trie_core.specs.Contents.{contents_of};
ghost use Rattle.icu_trie_core.specs.Coherence.{IsCoherent};
ghost use Rattle.icu_trie_core.specs.Format.{answer};
ghost use Rattle.icu_trie_core.specs.Range.{GivesWalk, last_of};
ghost use Rattle.icu_trie_core.specs.Runs.{LongestRun};
ghost use Rattle.icu_trie.specs.Parts.{last_cell};
ghost use Rattle.icu_collections_c.specs.BytesTrie.{cells_of};
ghost use Rattle.icu_collections_c.specs.Inside.NumberLaws.{fitting-number};

use icu_trie_core::cells::{Cells, Steps};
use icu_trie_core::coherent::is_coherent;
use icu_trie_core::header::CodePointTrieHeader;
use icu_trie_core::lookup::look_up;
use icu_trie_core::range::CodePointMapRange;
use icu_trie_core::value::TrieValue;
use icu_trie_core::walk::walk;
use icu_zerovec::raw::cell_at;
use icu_zerovec::ule::AsULE;
use std::marker::{Brand, PhantomData};
use std::sync::ledger::{Blank, Ledger};

/// A value of 8, 16 or 32 bits. Any bytes of a cell are such a value.
pub(crate) trait UnsignedValue: TrieValue {
    /// Any bytes of a cell are a value.
    ghost every_cell: { (cell : List ℕ) → IsSome (Self.unpack cell) };

    /// A value that was made from a number has that number.
    ghost number_is: { (n : ℕ) (x : Self) → Self.of_number n ≡ Some x → Self.number x ≡ n };
}

impl UnsignedValue for u8 {
    ghost every_cell = { λ _. refl };

    ghost number_is = { fitting-number (2 ^ 8) };
}

impl UnsignedValue for u16 {
    ghost every_cell = { λ _. refl };

    ghost number_is = { fitting-number (2 ^ 16) };
}

impl UnsignedValue for u32 {
    ghost every_cell = { λ _. refl };

    ghost number_is = { fitting-number (2 ^ 32) };
}

/// Tells the compiler that the path on which it is called is rare.
#[cold]
#[inline(always)]
pub(crate) fn cold() {}

/// Returns how many whole cells the bytes have.
#[inline(always)]
pub(crate) fn count_of<T: UnsignedValue>(bytes: &[u8]) -> usize
    ensures { result ≡ length (values_of T.unpack T.WIDTH bytes.now) }
{
    bytes.len() / T::WIDTH
}

/// Returns the value of the cell at index `i`, which has to exist. Any bytes of a cell are a value.
#[inline(always)]
pub(crate) fn value_there<T: UnsignedValue>(bytes: &[u8], i: usize) -> T
    requires { i < length bytes.now / T.WIDTH }
    ensures { slice_get (values_of T.unpack T.WIDTH bytes.now) i ≡ Some result }
{
    match T::from_unaligned(cell_at(bytes, T::WIDTH, i)) {
        Some(value) => value,
        None => unreachable!(),
    }
}

/// Returns the value of the cell at index `i`. `None` if `i` is past the last whole cell.
#[inline(always)]
pub(crate) fn value_at<T: UnsignedValue>(bytes: &[u8], i: usize) -> Option<T>
    ensures { result ≡ slice_get (values_of T.unpack T.WIDTH bytes.now) i }
{
    if i >= bytes.len() / T::WIDTH {
        return None;
    }
    Some(value_there(bytes, i))
}

/// Returns the value of the last whole cell. `None` if there is none.
#[inline(always)]
pub(crate) fn last_value<T: UnsignedValue>(bytes: &[u8]) -> Option<T>
    ensures { result ≡ last_cell (values_of T.unpack T.WIDTH bytes.now) }
{
    value_at(bytes, count_of::<T>(bytes).checked_sub(1)?)
}

/// The index and the data of a trie, read in place from bytes.
#[derive(Drop)]
pub(crate) struct ByteCells<'a, T: UnsignedValue, L: Ledger> {
    pub(crate) index: &'a [u8],
    pub(crate) values: &'a [u8],
    pub(crate) of: PhantomData<T>,
    pub(crate) reads: Steps<L>,
}

impl<'a, T: UnsignedValue, L: Ledger> Cells<T> for ByteCells<'a, T, L> {
    ghost contents = { λ cells. contents_of
        (values_of (λ cell. Some (number_of 2 cell)) 2 cells.index.now)
        (values_of T.unpack T.WIDTH cells.values.now) };

    ghost reads = { λ cells. cells.reads };

    #[inline(always)]
    fn index_len(&self) -> usize {
        count_of::<u16>(self.index)
    }

    #[inline(always)]
    fn data_len(&self) -> usize {
        count_of::<T>(self.values)
    }

    #[inline(always)]
    fn index_cell(&mut self, i: usize) -> Option<u16> {
        self.reads.tick();
        value_at(self.index, i)
    }

    #[inline(always)]
    fn data_cell(&mut self, i: usize) -> Option<T> {
        self.reads.tick();
        value_at(self.values, i)
    }

    #[inline(always)]
    fn index_at(&mut self, i: usize) -> u16 {
        self.reads.tick();
        value_there(self.index, i)
    }

    #[inline(always)]
    fn data_at(&mut self, i: usize) -> T {
        self.reads.tick();
        value_there(self.values, i)
    }
}

/// `look_up` in bytes.
///
/// # Contract
/// It counts in the ledger of `blank`.
#[inline(always)]
fn look_up_counted<T: UnsignedValue, L: Ledger>(
    header: &CodePointTrieHeader,
    index: &[u8],
    values: &[u8],
    c: u32,
    blank: Blank,
) -> Option<T>
    requires name { blank.name ≡ L.name }
    requires parts { blank.parts ≡ L.parts }
    requires some { 0 < blank.parts }
    ensures { result
        ≡ answer header.now (contents_of (cells_of 2 index.now)
        (values_of T.unpack T.WIDTH values.now)) c }
{
    let mut cells = ByteCells {
        index,
        values,
        of: PhantomData,
        reads: Steps::<L>::new(blank),
    };
    look_up(header, &mut cells, c)
}

/// Returns the value that the format gives `c`, in bytes.
#[inline(always)]
pub(crate) fn look_up_in<T: UnsignedValue>(
    header: &CodePointTrieHeader,
    index: &[u8],
    values: &[u8],
    c: u32,
) -> Option<T>
    ensures { result
        ≡ answer header.now (contents_of (cells_of 2 index.now)
        (values_of T.unpack T.WIDTH values.now)) c }
{
    look_up_counted::<T, Brand>(header, index, values, c, Blank::new(1))
}

/// `walk` in bytes.
///
/// # Contract
/// It counts in the ledger of `blank`.
#[inline(always)]
fn walk_counted<T: UnsignedValue, L: Ledger>(
    header: &CodePointTrieHeader,
    index: &[u8],
    values: &[u8],
    c: u32,
    blank: Blank,
) -> Option<CodePointMapRange<T>>
    requires name { blank.name ≡ L.name }
    requires parts { blank.parts ≡ L.parts }
    requires some { 0 < blank.parts }
    ensures gives { GivesWalk T.of_number header.now
        (contents_of (cells_of 2 index.now) (values_of T.unpack T.WIDTH values.now)) c result }
    ensures longest { IsCoherent T.of_number header.now
        (contents_of (cells_of 2 index.now) (values_of T.unpack T.WIDTH values.now))
        → MatchOption result (0x110000 ≤ c)
        (λ r. LongestRun
        (answer header.now (contents_of (cells_of 2 index.now)
        (values_of T.unpack T.WIDTH values.now))) c
        (last_of r) (Some r.value)) }
{
    let mut cells = ByteCells {
        index,
        values,
        of: PhantomData,
        reads: Steps::<L>::new(blank),
    };
    walk(header, &mut cells, c)
}

/// Returns the range of one value that starts at `c`, in bytes.
#[inline(always)]
pub(crate) fn walk_in<T: UnsignedValue>(
    header: &CodePointTrieHeader,
    index: &[u8],
    values: &[u8],
    c: u32,
) -> Option<CodePointMapRange<T>>
    ensures gives { GivesWalk T.of_number header.now
        (contents_of (cells_of 2 index.now) (values_of T.unpack T.WIDTH values.now)) c result }
    ensures longest { IsCoherent T.of_number header.now
        (contents_of (cells_of 2 index.now) (values_of T.unpack T.WIDTH values.now))
        → MatchOption result (0x110000 ≤ c)
        (λ r. LongestRun
        (answer header.now (contents_of (cells_of 2 index.now)
        (values_of T.unpack T.WIDTH values.now))) c
        (last_of r) (Some r.value)) }
{
    walk_counted::<T, Brand>(header, index, values, c, Blank::new(1))
}

/// `is_coherent` in bytes.
///
/// # Contract
/// It counts in the ledger of `blank`.
fn is_coherent_counted<T: UnsignedValue, L: Ledger>(
    header: &CodePointTrieHeader,
    index: &[u8],
    values: &[u8],
    blank: Blank,
) -> bool
    requires name { blank.name ≡ L.name }
    requires parts { blank.parts ≡ L.parts }
    requires some { 0 < blank.parts }
    ensures { IsTrue result
        ↔ IsCoherent T.of_number header.now
        (contents_of (cells_of 2 index.now) (values_of T.unpack T.WIDTH values.now)) }
{
    let mut cells = ByteCells {
        index,
        values,
        of: PhantomData,
        reads: Steps::<L>::new(blank),
    };
    is_coherent::<T, _>(header, &mut cells)
}

/// Returns whether a trie in bytes is coherent.
pub(crate) fn is_coherent_in<T: UnsignedValue>(
    header: &CodePointTrieHeader,
    index: &[u8],
    values: &[u8],
) -> bool
    ensures { IsTrue result
        ↔ IsCoherent T.of_number header.now
        (contents_of (cells_of 2 index.now) (values_of T.unpack T.WIDTH values.now)) }
{
    is_coherent_counted::<T, Brand>(header, index, values, Blank::new(1))
}
