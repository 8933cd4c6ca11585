//! The set of the code points that have a value in a trie.
ghost use Rattle.std.specs.Prelude.{IfErr, IfOk};
ghost use Rattle.ucptrie_sets.specs.Sets.{IsSetOfValue, IsWhyNoSet};

use crate::error::ValueSetError;
use icu_invlist::codepointinvlist::CodePointInversionList;
use icu_trie::cptrie::CodePointTrie;
use std::alloc::Global;

/// Returns the set of the code points that have the value in the trie.
///
/// # Errors
/// - `ValueSetError::NotCoherent` if and only if the trie is not coherent. Tries that are
///   built are coherent; a trie from a file may not be.
/// - `ValueSetError::Memory` if an allocation fails.
pub fn set_of_value(
    alloc: Global,
    trie: &CodePointTrie<'_, u32>,
    value: u32,
) -> Result<CodePointInversionList<'static>, ValueSetError>
    ensures ok { IfOk result (IsSetOfValue trie.now value) }
    ensures err { IfErr result (IsWhyNoSet trie.now) }
{
    if !trie.is_coherent() {
        return Err(ValueSetError::NotCoherent);
    }
    let set = trie.get_set_for_value(alloc, value)?;
    Ok(set)
}
