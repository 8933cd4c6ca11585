//! Two tries are equal if their headers, indices and data are, whether they borrow or own them.
ghost use Rattle.std.specs.Prelude.{◌≡◌, ◌↔◌, IsTrue};
ghost use Rattle.std.specs.Cmp.{and_equiv, and_per, on_equiv, on_per, partial_equiv_from_equiv};
ghost use Rattle.std.specs.Cmp.Lexicographic.{lists_equiv, lists_per, nat_list_eq_equiv};
ghost use Rattle.icu_zerovec.specs.PackedBytes.{low_bytes};
ghost use Rattle.icu_trie.specs.Parts.{same_trie};
ghost use Rattle.icu_trie_core.specs.contracts.header.CodePointTrieHeaderPartialEq.TheImpl.Laws as header;
ghost use Rattle.icu_trie_core.specs.contracts.header.CodePointTrieHeaderEq.TheImpl.Laws as whole_header;

use crate::cptrie::CodePointTrie;
use icu_trie_core::header::CodePointTrieHeader;
use icu_trie_core::value::TrieValue;

impl<'trie, T: TrieValue> PartialEq for CodePointTrie<'trie, T> {
    ghost eq = { same_trie ⟦<CodePointTrieHeader as PartialEq>⟧.eq T.pack };

    ghost laws = { and_per (on_per (λ t. t.header) header.laws-law)
        (and_per (on_per (λ t. t.index)
        (lists_per (on_per (low_bytes 2) (partial_equiv_from_equiv nat_list_eq_equiv))))
        (on_per (λ t. t.values)
        (lists_per (on_per T.pack (partial_equiv_from_equiv nat_list_eq_equiv))))) };

    fn eq(&self, other: &Self) -> bool
        ensures value { result
            ≡ same_trie ⟦<CodePointTrieHeader as PartialEq>⟧.eq T.pack self.now other.now }
        ensures same { IsTrue result ↔ (self.now ≡ other.now) }
    {
        self.header == other.header && self.index == other.index && self.data == other.data
    }
}

impl<'trie, T: TrieValue> Eq for CodePointTrie<'trie, T> {
    ghost laws = { and_equiv (on_equiv (λ t. t.header) whole_header.laws-law)
        (and_equiv (on_equiv (λ t. t.index)
        (lists_equiv (on_equiv (low_bytes 2) nat_list_eq_equiv)))
        (on_equiv (λ t. t.values) (lists_equiv (on_equiv T.pack nat_list_eq_equiv)))) };
}
