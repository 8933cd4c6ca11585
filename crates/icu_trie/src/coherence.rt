//! The check whether a trie is coherent.
ghost use Rattle.std.specs.Prelude.{◌≡◌, ◌↔◌, IsTrue};

use crate::cptrie::CodePointTrie;
use crate::packed_cells::is_coherent_in;
use crate::view::TrieView;
use icu_trie_core::value::TrieValue;

impl<'a, T: TrieValue> TrieView<'a, T> {
    ghost use Rattle.icu_trie.specs.Ranges.{IsCoherentTrie};
    ghost use Rattle.icu_trie.specs.View.{view_parts};

    /// Returns true if the trie is coherent, as [`CodePointTrie::is_coherent`] does.
    pub fn is_coherent(&self) -> bool
        ensures { IsTrue result ↔ IsCoherentTrie T.of_number (view_parts self.now) }
    {
        let (header, index, data) = self.parts();
        is_coherent_in(&header, index, data)
    }
}

impl<'trie, T: TrieValue> CodePointTrie<'trie, T> {
    ghost use Rattle.icu_trie.specs.Ranges.{IsCoherentTrie};

    /// Returns true if the trie is coherent: what its header says about the high value and about
    /// null blocks is true.
    ///
    /// `try_new` accepts headers that are wrong about this, since look-ups return a value for any
    /// header. Ranges trust the header: they skip each block that it names as null, by
    /// `data_null_offset` or `index3_null_offset`, and all code points from `high_start` on. In a
    /// coherent trie the skipped code points have the value that look-ups return. So `get_range`,
    /// `iter_ranges` and `get_set_for_value` are exact.
    ///
    /// Every built trie is coherent. A trie from a file can be checked once:
    ///
    /// ```text
    /// let trie = CodePointTrie::try_new(header, index, data)?;
    /// if trie.is_coherent() {
    ///     // exactly the code points for which get32 returns 1
    ///     let letters = trie.get_set_for_value(alloc, 1)?;
    /// }
    /// ```
    ///
    /// A trie (ICU: `UCPTrie`) is coherent exactly if all of these hold:
    /// - `high_start` is a multiple of 512 and at most 0x110000;
    /// - look-ups of all code points from `high_start` on return the last data cell but one;
    /// - look-ups of code points below `high_start` read no cell outside the index or the data;
    /// - blocks of 64, of 16 and of 512 that the header names as null have the null value
    ///   throughout.
    ///
    /// The check allocates nothing. For any trie it reads a few cells for each aligned block.
    pub fn is_coherent(&self) -> bool
        ensures { IsTrue result ↔ IsCoherentTrie T.of_number self.now }
    {
        self.as_view().is_coherent()
    }
}
