//! The index and the data of a trie, cell by cell, with a count of the reads.
ghost use Rattle.std.specs.Prelude.{◌≡◌, ℕ, ◌+◌, ◌<◌, length, slice_get, Some};
ghost use Rattle.icu_trie_core.specs.Contents.{Contents};

use std::marker::Model;
use std::sync::ledger::{Blank, Book, Ledger, Share};

/// The index and the data of a trie, wherever they are stored.
///
/// [`look_up`](crate::lookup::look_up) reads a trie only through these methods, so their count is
/// the number of cells that it read. The count exists only in proofs: it has no upper bound and
/// costs no bytes and no time. [`Steps`] implements it.
pub trait Cells<T> {
    /// The cells of the index and of the data.
    ghost contents: { Self → Contents T };

    /// The number of cells read so far.
    ghost reads: { Self → ℕ };

    /// Returns the number of cells in the index. Does not count as a read.
    #[allow(dead_code)]
    fn index_len(&self) -> usize
        ensures { result ≡ length (contents self.now).index };

    /// Returns the number of cells in the data. Does not count as a read.
    fn data_len(&self) -> usize
        ensures { result ≡ length (contents self.now).values };

    /// Returns the index cell at position `i`, or `None` if `i` is past the end. Counts as one read
    /// in both cases.
    fn index_cell(&mut self, i: usize) -> Option<u16>
        ensures cell { result ≡ slice_get (contents self.old).index i }
        ensures counted { reads self.new ≡ reads self.old + 1 }
        ensures kept { contents self.new ≡ contents self.old };

    /// Returns the data cell at position `i`, or `None` if `i` is past the end. Counts as one read
    /// in both cases.
    fn data_cell(&mut self, i: usize) -> Option<T>
        ensures cell { result ≡ slice_get (contents self.old).values i }
        ensures counted { reads self.new ≡ reads self.old + 1 }
        ensures kept { contents self.new ≡ contents self.old };

    /// Returns the index cell at position `i`, which must exist. Counts as one read.
    ///
    /// An implementation can override this to read without a bounds check.
    fn index_at(&mut self, i: usize) -> u16
        requires { i < length (contents self.old).index }
        ensures cell { slice_get (contents self.old).index i ≡ Some result }
        ensures counted { reads self.new ≡ reads self.old + 1 }
        ensures kept { contents self.new ≡ contents self.old }
    {
        match self.index_cell(i) {
            Some(cell) => cell,
            None => unreachable!(),
        }
    }

    /// Returns the data cell at position `i`, which must exist. Counts as one read.
    ///
    /// An implementation can override this to read without a bounds check.
    fn data_at(&mut self, i: usize) -> T
        requires { i < length (contents self.old).values }
        ensures cell { slice_get (contents self.old).values i ≡ Some result }
        ensures counted { reads self.new ≡ reads self.old + 1 }
        ensures kept { contents self.new ≡ contents self.old }
    {
        match self.data_cell(i) {
            Some(cell) => cell,
            None => unreachable!(),
        }
    }
}

/// A counter of steps that exists only in proofs and takes no bytes. Only [`tick`](Steps::tick)
/// changes it.
#[derive(Drop)]
pub struct Steps<L: Ledger> {
    book: Book<L>,
    share: Share<L>,
}

impl<L: Ledger> Model for Steps<L> {
    // Contracts see a counter as the number of steps.
    ghost Value = { ℕ };

    ghost view = { λ s. s.book.total };

    ghost invariant = { λ s. 0 < s.share.parts };
}

impl<L: Ledger> Steps<L> {
    /// Creates a counter at zero.
    ///
    /// `blank` is the unused counter of the ledger `L`, made by `Blank::new(1)`.
    #[inline(always)]
    pub fn new(blank: Blank) -> Self
        requires name { blank.name ≡ L.name }
        requires parts { blank.parts ≡ L.parts }
        requires some { 0 < blank.parts }
        ensures { result ≡ 0 }
    {
        let (book, share) = blank.open::<L>();
        Steps { book, share }
    }

    /// Adds one to the count.
    #[inline(always)]
    pub fn tick(&mut self)
        ensures { self.new ≡ self.old + 1 }
    {
        self.book.add(&mut self.share, 1);
    }
}
