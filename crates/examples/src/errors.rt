//! `?` among the errors of the collections: what a function that returns one of them may call. A
//! failed allocation stays one, whichever error reports it.
ghost use Rattle.std.specs.Prelude.{◌≡◌, ◌==◌, List, [], ◌∷◌, ◌++◌, IfOk, OnErr, OnOk};
ghost use Rattle.icu_collections.specs.Char16Trie.{IsTrieOf, with_entry};
ghost use Rattle.icu_collections.specs.CodePointInversionList.{Acts, either};
ghost use Rattle.icu_collections.specs.CodePointInversionListAndStringList.{texts_of};
ghost use Rattle.icu_collections.specs.CodePointTrieBuilder.{IsAfter};
ghost use Rattle.icu_collections.specs.ZeroVec.{values_of};

use icu_collections::char16trie::{
    AddError, BuildError, Char16JsonError, Char16Trie, Char16TrieBuilder,
};
use icu_collections::codepointinvlist::{
    CodePointInversionList, CodePointInversionListBuilder, RangeOf, SetError, TryRangeError,
};
use icu_collections::codepointinvliststringlist::{
    CodePointInversionListAndStringList, StringListJsonError,
};
use icu_collections::codepointtrie::json::{self, TrieJsonError};
use icu_collections::codepointtrie::{
    CodePointTrie, CodePointTrieBuilder, CodePointTrieError, CodePointTrieHeader, MapError,
    PartsError, TrieValue, Write,
};
use icu_collections::zerovec::ule::{AsULE, UleError};
use icu_collections::zerovec::{MemoryError, PotentialCodePoint, ZeroVec};
use std::alloc::Global;
use std::convert::Infallible;
use thiserror::Error;

/// Writes a table, and one value over it. The index of a rejected row is not needed here.
pub fn write_over(
    builder: &mut CodePointTrieBuilder<u8>,
    rows: &[Write<u8>],
    c: u32,
    value: u8,
) -> Result<(), MemoryError>
    ensures { OnOk result
        (IsAfter (rows.now ++ Write.One c value ∷ []) builder.old builder.new) }
{
    builder.apply(rows)?;
    builder.set_value(c, value)?;
    Ok(())
}

/// Adds a word to a list that becomes a trie, and its first unit to a set. On an error the list is
/// unchanged.
pub fn add_word(
    words: &mut Char16TrieBuilder,
    firsts: &mut CodePointInversionListBuilder,
    word: &[u16],
    number: i32,
) -> Result<(), AddError>
    ensures added { OnOk result (words.new ≡ with_entry word.now number words.old) }
    ensures same { OnErr result (words.new ≡ words.old) }
{
    if let Some(first) = word.first() {
        firsts.add32(u32::from(*first))?;
    }
    words.add(word, number)?;
    Ok(())
}

/// Builds the trie of one word. A word that is too long is reported as such.
pub fn trie_of_word(
    alloc: Global,
    word: &[u16],
    number: i32,
) -> Result<Char16Trie<'static>, BuildError>
    ensures { IfOk result (λ trie. IsTrieOf trie (with_entry word.now number [])) }
{
    let mut builder = Char16TrieBuilder::new(alloc);
    builder.add(word, number)?;
    let trie = builder.build()?;
    Ok(trie)
}

/// Writes a trie to JSON and reads it back. The result is the same trie.
pub fn words_read_back(
    alloc: Global,
    trie: &Char16Trie<'_>,
) -> Result<Char16Trie<'static>, Char16JsonError>
    ensures { IfOk result (λ read. read ≡ trie.now) }
{
    let value = trie.to_json(alloc)?;
    let read = Char16Trie::from_json(alloc, &value)?;
    Ok(read)
}

/// Returns the set with these boundaries and one more code point. Boundaries that are not an
/// inversion list are reported with the error.
pub fn ends_and_one(
    alloc: Global,
    ends: ZeroVec<'_, PotentialCodePoint>,
    c: u32,
) -> Result<CodePointInversionList<'static>, SetError>
    ensures { IfOk result (λ set. Acts either ends.entry (λ n. n == c) set) }
{
    let set = CodePointInversionList::try_from_inversion_list(alloc, ends)?;
    let mut builder = CodePointInversionListBuilder::new(alloc);
    builder.add_set(&set)?;
    builder.add32(c)?;
    let made = builder.build()?;
    Ok(made)
}

/// Returns a copy of the set of a range. An empty or reversed range is reported with its ends.
pub fn copied_range<R: RangeOf<char>>(
    alloc: Global,
    range: R,
) -> Result<CodePointInversionList<'static>, TryRangeError>
    ensures { IfOk result (λ set. set ≡ R.start range ∷ R.end range ∷ []) }
{
    let set = CodePointInversionList::try_from(alloc, range)?;
    let copy = set.try_clone(alloc)?;
    Ok(copy)
}

/// Writes a set to JSON, reads it back, and adds strings to it.
pub fn read_with_strings(
    alloc: Global,
    set: &CodePointInversionList<'_>,
    strings: Vec<String>,
) -> Result<CodePointInversionListAndStringList<'static>, StringListJsonError>
    ensures code_points { IfOk result (λ whole. whole.code_points ≡ set.now) }
    ensures strings { IfOk result (λ whole. whole.strings ≡ texts_of strings.items) }
{
    let value = set.to_json(alloc)?;
    let read = CodePointInversionList::from_json(alloc, &value)?;
    let whole = CodePointInversionListAndStringList::try_from(read, strings)?;
    Ok(whole)
}

/// Writes a trie to JSON and reads it back. The result is the same trie.
pub fn table_read_back<T: TrieValue>(
    alloc: Global,
    trie: &CodePointTrie<'_, T>,
) -> Result<CodePointTrie<'static, T>, TrieJsonError>
    ensures { IfOk result (λ read. read ≡ trie.now) }
{
    let value = json::to_json(alloc, trie)?;
    let read = json::from_json::<T>(alloc, &value)?;
    Ok(read)
}

/// Returns the trie of these cells. Its values are copied, and its index is borrowed.
pub fn trie_of_cells<'a>(
    alloc: Global,
    header: CodePointTrieHeader,
    index: ZeroVec<'a, u16>,
    values: &[u8],
) -> Result<CodePointTrie<'a, u8>, PartsError>
    ensures { IfOk result
        (λ trie. trie ≡ record { header = header; index = index.entry; values = values.now }) }
{
    let values = ZeroVec::alloc_from_slice(alloc, values)?;
    let trie = CodePointTrie::try_new(header, index, values)?;
    Ok(trie)
}

/// Returns a copy of a trie with each of its values halved.
pub fn halved_copy(
    alloc: Global,
    trie: &CodePointTrie<'_, u8>,
) -> Result<CodePointTrie<'static, u8>, MapError<Infallible>> {
    let copy = trie.try_clone(alloc)?;
    let halved = copy.try_alloc_map_value(alloc, |v: u8| Ok::<u8, Infallible>(v / 2))?;
    Ok(halved)
}

/// Why bytes are not a table: a user-defined error with a variant for each error of the functions
/// called.
#[derive(Clone, Copy, Debug, PartialEq, Error)]
pub enum TableError {
    /// The bytes of the index or of the values are not a packed vector.
    #[error("{0}")]
    Bytes(#[from] UleError),
    /// The three parts do not form a trie.
    #[error("{0}")]
    Parts(#[from] CodePointTrieError),
}

/// Returns a trie that borrows packed bytes.
pub fn table_of_bytes<'a>(
    header: CodePointTrieHeader,
    index: &'a [u8],
    values: &'a [u8],
) -> Result<CodePointTrie<'a, u8>, TableError>
    ensures index { IfOk result
        (λ trie. trie.index ≡ values_of ⟦<u16 as AsULE>⟧.unpack 2 index.now) }
    ensures values { IfOk result
        (λ trie. trie.values ≡ values_of ⟦<u8 as AsULE>⟧.unpack 1 values.now) }
{
    let index = ZeroVec::<u16>::parse_bytes(index)?;
    let values = ZeroVec::<u8>::parse_bytes(values)?;
    let trie = CodePointTrie::try_new(header, index, values)?;
    Ok(trie)
}
