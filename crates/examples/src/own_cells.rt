//! A look-up over user-defined cells. A trie's index and data may be anywhere, here in slices. A
//! type that returns their cells implements [`Cells`], and [`Steps`] counts the reads for the
//! proof. The counter has no bytes at run time.
ghost use Rattle.std.specs.Prelude.{◌≡◌, ◌+◌, ◌<◌, ◌≤◌};
ghost use Rattle.icu_collections.specs.CodePointTrie.{IsWhole, answer, contents_of, fast_limit};

use icu_collections::codepointtrie::{Cells, CodePointTrieHeader, Steps, look_up, look_up_whole};
use std::marker::Brand;
use std::sync::ledger::{Blank, Ledger};

/// Index and values in slices. The four functions below are all that a look-up needs.
#[derive(Drop)]
pub struct SliceCells<'a, L: Ledger> {
    index: &'a [u16],
    values: &'a [u32],
    reads: Steps<L>,
}

impl<'a, L: Ledger> Cells<u32> for SliceCells<'a, L> {
    ghost contents = { λ cells. contents_of cells.index.now cells.values.now };

    ghost reads = { λ cells. cells.reads };

    fn index_len(&self) -> usize {
        self.index.len()
    }

    fn data_len(&self) -> usize {
        self.values.len()
    }

    fn index_cell(&mut self, i: usize) -> Option<u16> {
        self.reads.tick();
        self.index.get(i).copied()
    }

    fn data_cell(&mut self, i: usize) -> Option<u32> {
        self.reads.tick();
        self.values.get(i).copied()
    }
}

/// Returns the value of `c`, counted in the ledger of `blank`.
fn look_up_counted<L: Ledger>(
    header: &CodePointTrieHeader,
    index: &[u16],
    values: &[u32],
    c: u32,
    blank: Blank,
) -> Option<u32>
    requires name { blank.name ≡ L.name }
    requires parts { blank.parts ≡ L.parts }
    requires some { 0 < blank.parts }
    ensures { result ≡ answer header.now (contents_of index.now values.now) c }
{
    let mut cells = SliceCells {
        index,
        values,
        reads: Steps::<L>::new(blank),
    };
    look_up(header, &mut cells, c)
}

/// Returns the value of `c` in a trie of these parts, whatever they are, or `None` if `c` has the
/// error value. The counter is made for this one call.
pub fn look_up_in_slices(
    header: &CodePointTrieHeader,
    index: &[u16],
    values: &[u32],
    c: u32,
) -> Option<u32>
    ensures { result ≡ answer header.now (contents_of index.now values.now) c }
{
    look_up_counted::<Brand>(header, index, values, c, Blank::new(1))
}

/// Looks up `c` in two ways. If the fast index is whole, `look_up_whole` returns what `look_up`
/// returns, and both return the value of the format, over any cells. Together they make at most ten
/// reads, and at most four below the fast limit.
pub fn both_look_ups<C: Cells<u32>>(
    header: &CodePointTrieHeader,
    cells: &mut C,
    c: u32,
) -> (Option<u32>, Option<u32>)
    requires whole { IsWhole header.now.trie_type (C.contents cells.old) }
    ensures answer { result.0 ≡ answer header.now (C.contents cells.old) c }
    ensures same { result.0 ≡ result.1 }
    ensures reads { C.reads cells.new ≤ C.reads cells.old + 10 }
    ensures fast { c < fast_limit header.now.trie_type → C.reads cells.new ≤ C.reads cells.old + 4 }
{
    let any = look_up(header, cells, c);
    let whole = look_up_whole(header, cells, c);
    (any, whole)
}
