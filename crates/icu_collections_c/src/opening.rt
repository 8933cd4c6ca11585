//! Opening tries in ICU's binary form.
ghost use Rattle.std.specs.Prelude.{◌≡◌, ◌≢◌, ◌-◌, ◌≤◌, IfOk, IfErr, drop, length, take};
ghost use Rattle.icu_trie_core.specs.Format.{fast_limit};
ghost use Rattle.icu_trie_binary.specs.BinaryTrie.{IsStored, IsWhyNoneStored};
ghost use Rattle.icu_collections_c.specs.BytesTrie.{IsNoTrie, IsSound, parts_in};
ghost use Rattle.icu_collections_c.specs.Opening.{IsOpened, IsRefused, parts_status, status_of};

use crate::cells::UnsignedValue;
use crate::tries::Trie;
use icu_trie::cptrie::CodePointTrie;
use icu_trie_binary::binary::{AnyWidthTrie, BinaryError, from_binary_any};
use icu_trie_core::error::CodePointTrieError;

/// Returns the status number of a fault in the parts of a trie.
fn parts_status(error: CodePointTrieError) -> u32
    ensures { result ≡ parts_status error }
{
    match error {
        CodePointTrieError::EmptyDataVector => 10,
        CodePointTrieError::InvalidNullValue => 11,
        CodePointTrieError::IndexTooShortForFastAccess => 12,
        CodePointTrieError::DataTooShortForFastAccess => 13,
        CodePointTrieError::FromDeserialized { reason: _ } => 14,
    }
}

/// Returns the status number of a fault in the bytes.
fn status_of(error: BinaryError) -> u32
    ensures { result ≡ status_of error }
{
    match error {
        BinaryError::Short => 1,
        BinaryError::Signature => 2,
        BinaryError::Swapped => 3,
        BinaryError::UnknownType => 4,
        BinaryError::UnknownWidth => 5,
        BinaryError::Reserved => 6,
        BinaryError::OtherWidth => 7,
        BinaryError::CutOff => 8,
        BinaryError::Cell(_) => 9,
        BinaryError::Trie(error) => parts_status(error),
    }
}

/// Returns a trie without cells, whose numbers are all 0. Each of its values is 0.
fn no_trie<'a>(bytes: &'a [u8]) -> Trie<'a>
    ensures { IsNoTrie result }
{
    Trie {
        index: &bytes[..0],
        values: &bytes[..0],
        size: 0,
        fast_limit: 0,
        high_start: 0,
        null_value: 0,
        data_null_offset: 0,
        width: 0,
        index3_null_offset: 0,
        shifted12_high_start: 0,
    }
}

/// Splits the bytes after a header into those before `start` and those from there to `end`.
#[inline(always)]
fn parts_between(bytes: &[u8], start: usize, end: usize) -> (&[u8], &[u8])
    requires from { 16 ≤ start }
    requires within { start ≤ end }
    requires fits { end ≤ length bytes.now }
    ensures index { result.0.now ≡ take (start - 16) (drop 16 bytes.now) }
    ensures values { result.1.now ≡ take (end - start) (drop start bytes.now) }
{
    (&bytes[16..start], &bytes[start..end])
}

/// Returns the trie that was found at the start of the bytes, as C sees it.
fn kept<'a, T: UnsignedValue>(
    bytes: &'a [u8],
    trie: &CodePointTrie<'_, T>,
    width: u32,
    size: usize,
) -> Trie<'a>
    requires { IsStored T.unpack T.WIDTH T.number T.of_number bytes.now trie.now size }
    ensures parts { parts_in T.unpack T.WIDTH result ≡ trie.now }
    ensures sound { IsSound T.of_number T.unpack T.WIDTH result }
    ensures limit { result.fast_limit ≡ fast_limit trie.now.header.trie_type }
    ensures width { result.width ≡ width }
    ensures size { result.size ≡ size }
{
    let (header, index, _) = trie.parts();
    let (index, values) = parts_between(bytes, 16 + 2 * index.len(), size);
    Trie {
        index,
        values,
        size,
        fast_limit: header.trie_type.fast_limit(),
        high_start: header.high_start,
        null_value: header.null_value,
        data_null_offset: header.data_null_offset,
        width,
        index3_null_offset: header.index3_null_offset,
        shifted12_high_start: header.shifted12_high_start,
    }
}

/// Opens the trie at the start of the bytes.
fn opened(bytes: &[u8]) -> Result<Trie<'_>, BinaryError>
    ensures ok { IfOk result (IsOpened bytes.now) }
    ensures err { IfErr result (IsWhyNoneStored bytes.now) }
{
    let (trie, size) = from_binary_any(bytes)?;
    Ok(match &trie {
        AnyWidthTrie::Bits8(trie) => kept(bytes, trie, 1, size),
        AnyWidthTrie::Bits16(trie) => kept(bytes, trie, 2, size),
        AnyWidthTrie::Bits32(trie) => kept(bytes, trie, 4, size),
    })
}

/// Opens the trie at the start of the bytes, of either type and any width. Returns 0 and stores the
/// trie in `trie`. If there is none, returns the number of the first fault and stores a trie
/// without cells.
///
/// ICU: `ucptrie_openFromBinary`.
#[unsafe(no_mangle)]
pub extern "C" fn bks_trie_open<'a>(bytes: &'a [u8], trie: &mut Trie<'a>) -> u32
    ensures ok { result ≡ 0 → IsOpened bytes.now trie.new }
    ensures err { result ≢ 0 → IsRefused bytes.now result }
    ensures none { result ≢ 0 → IsNoTrie trie.new }
{
    match opened(bytes) {
        Ok(found) => {
            *trie = found;
            0
        }
        Err(error) => {
            *trie = no_trie(bytes);
            status_of(error)
        }
    }
}
