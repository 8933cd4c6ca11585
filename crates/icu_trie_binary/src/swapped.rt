//! Reads tries in the binary form of a big-endian machine.
ghost use Rattle.std.specs.Prelude.{◌≡◌, ◌+◌, ◌*◌, ◌/◌, ◌^◌, ◌<◌, ◌≤◌, ◌++◌, length, take, drop, IfOk, IfErr, OnOk};
ghost use Rattle.icu_trie_binary.specs.BinaryHeader.{options_of, u16_at};
ghost use Rattle.icu_trie_binary.specs.BinaryTrie.{IsStored};
ghost use Rattle.icu_trie_binary.specs.SwappedTrie.{swap_units, swapped_header, index_said, data_said, in_other_order, IsWhyNotSwapped};

use crate::binary::from_binary;
use crate::error::SwappedError;
use crate::header::{HEADER_SIZE, u16_at};
use icu_trie::cptrie::CodePointTrie;
use icu_trie::value::TrieValue;
use std::alloc::{AllocError, Global};

/// Appends each whole group of `width` bytes, with its bytes reversed.
fn append_swapped(into: &mut Vec<u8>, bytes: &[u8], width: usize) -> Result<(), AllocError>
    requires some { 0 < width }
    requires few { width ≤ 4 }
    ensures { OnOk result (into.new.items ≡ into.old.items ++ swap_units width bytes.now) }
{
    for i in 0..bytes.len() / width {
        let mut group = [0; 4];
        let group = &mut group[..width];
        group.copy_from_slice(&bytes[i * width..i * width + width]);
        group.reverse();
        into.extend_from_slice(group)?;
    }
    Ok(())
}

/// Returns the first `len` bytes, or all if there are fewer.
fn front(bytes: &[u8], len: usize) -> &[u8]
    ensures { result.now ≡ take len bytes.now }
{
    if len < bytes.len() {
        &bytes[..len]
    } else {
        bytes
    }
}

/// Returns the bytes after the first `len`, or none if there are no more.
fn behind(bytes: &[u8], len: usize) -> &[u8]
    ensures { result.now ≡ drop len bytes.now }
{
    if len < bytes.len() {
        &bytes[len..]
    } else {
        &[]
    }
}

/// Appends the header, with the bytes of each of its numbers reversed.
#[tactic(auto, unfolding(crate::specs::SwappedTrie::swapped_header))]
fn append_header(into: &mut Vec<u8>, bytes: &[u8]) -> Result<(), AllocError>
    ensures { OnOk result (into.new.items ≡ into.old.items ++ swapped_header bytes.now) }
{
    append_swapped(into, front(bytes, 4), 4)?;
    append_swapped(into, front(behind(bytes, 4), 12), 2)
}

/// Returns the number of bytes of the index and of the data, according to the header.
fn said_by(header: &[u8], width: usize) -> (usize, usize)
    requires header { 16 ≤ length header.now }
    requires few { width ≤ 4 }
    ensures index { result.0 ≡ index_said header.now }
    ensures cells { result.1 ≡ data_said width header.now }
{
    let cells = u16_at(header, 4) as usize / 0x1000 * 0x1_0000 + u16_at(header, 8) as usize;
    (2 * u16_at(header, 6) as usize, width * cells)
}

/// Returns the trie at the start of the bytes in the other byte order.
fn in_other_order(alloc: Global, bytes: &[u8], width: usize) -> Result<Vec<u8>, AllocError>
    requires some { 0 < width }
    requires few { width ≤ 4 }
    ensures { IfOk result (λ v. v.items ≡ in_other_order width bytes.now) }
{
    if bytes.len() < HEADER_SIZE {
        return Vec::from_slice(alloc, bytes);
    }
    let mut swapped = Vec::new(alloc);
    append_header(&mut swapped, bytes)?;
    let (index, cells) = said_by(swapped.as_slice(), width);
    let rest = behind(bytes, HEADER_SIZE);
    append_swapped(&mut swapped, front(rest, index), 2)?;
    append_swapped(&mut swapped, front(behind(rest, index), cells), width)?;
    Ok(swapped)
}

/// Reads the trie at the start of bytes that a big-endian machine wrote. Returns it and the number
/// of bytes that it takes.
///
/// The bytes are copied into this machine's order, and the trie is the one that `from_binary` reads
/// from the copy.
///
/// ```
/// let (trie, len) = from_binary_swapped::<u8>(alloc, bytes)?;
/// // trie.get32(0x41) is what ucptrie_get returns, and bytes[len..] is what follows the trie
/// ```
///
/// # Errors
/// - `Binary` with the first error that `from_binary` returns for the bytes in this machine's
///   order. It is `Swapped` if they already were in this order.
/// - `Memory` if an allocation fails.
pub fn from_binary_swapped<T: TrieValue>(
    alloc: Global,
    bytes: &[u8],
) -> Result<(CodePointTrie<'static, T>, usize), SwappedError>
    ensures ok { IfOk result (λ r. IsStored T.unpack T.WIDTH T.number T.of_number
        (in_other_order T.WIDTH bytes.now) r.0 r.1) }
    ensures len { IfOk result (λ r. r.1 ≤ length bytes.now) }
    ensures err { IfErr result
        (IsWhyNotSwapped T.unpack T.WIDTH T.number T.of_number bytes.now) }
{
    let swapped = in_other_order(alloc, bytes, T::WIDTH)?;
    let (trie, len) = from_binary::<T>(swapped.as_slice())?;
    let owned = trie.try_clone(alloc)?;
    Ok((owned, len))
}
