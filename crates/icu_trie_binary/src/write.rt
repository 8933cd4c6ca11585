//! Writes tries in ICU's binary form, as `ucptrie_toBinary` does.
ghost use Rattle.std.specs.Prelude.{◌≡◌, ℕ, ◌+◌, ◌*◌, ◌^◌, ◌<◌, ◌≤◌, ◌++◌, ◌⊎◌, List, length, take, drop, Option, Some, None, IfOk, IfErr, OnErr, OnOk, [], is_none, false};
ghost use Rattle.std.specs.List.{flat_map};
ghost use Rattle.icu_zerovec.specs.Canonical.{IsCanonical};
ghost use Rattle.icu_zerovec.specs.PackedBytes.{low_bytes};
ghost use Rattle.icu_trie.specs.Parts.{Parts};
ghost use Rattle.icu_trie.specs.Ranges.{answers};
ghost use Rattle.icu_trie_binary.specs.BinaryHeader.{width_bytes};
ghost use Rattle.icu_trie_binary.specs.BinaryTrie.{IsStored};
ghost use Rattle.icu_trie_binary.specs.WrittenTrie.{padding, width_for, header_for, null_number, stored_form, written_length, why_not_written, front_bytes, binary_of};
ghost use Rattle.icu_trie_binary.specs.Inside.Written.{joined, joined_length};
ghost use Rattle.icu_trie_binary.specs.declared.error.WriteError.TheVariants.{Short, Memory};

use crate::binary::null_number;
use crate::error::WriteError;
use crate::header::{BinaryHeader, HEADER_SIZE, stored_length};
use crate::write_header::{header_bytes, width_for};
use icu_trie::cptrie::CodePointTrie;
use icu_trie::value::TrieValue;
use std::alloc::{AllocError, Global};

/// Returns the bytes after an index of `cells` cells if values of `width` bytes follow it.
fn padding(width: usize, cells: usize) -> &'static [u8]
    ensures bytes { result.now ≡ flat_map (low_bytes 2) (padding width cells) }
    ensures len { length result.now ≡ 2 * length (padding width cells) }
{
    if width == 4 && cells % 2 == 1 {
        &[0xee, 0xff]
    } else {
        &[]
    }
}

/// Returns the header to be written for a trie, or why the form cannot store the trie.
fn header_for<T: TrieValue>(trie: &CodePointTrie<'_, T>) -> Result<BinaryHeader, WriteError>
    ensures header { IfOk result (λ h. h ≡ header_for T.WIDTH T.number trie.now) }
    ensures room { IfOk result (λ _. why_not_written T.WIDTH T.number trie.now ≡ None) }
    ensures err { IfErr result (λ e. why_not_written T.WIDTH T.number trie.now ≡ Some e) }
    ensures null { IfOk result
        (λ _. is_none (T.of_number (null_number T.WIDTH T.number trie.now)) ≡ false) }
    ensures small { IfOk result (λ _. trie.now.header.index3_null_offset < 2 ^ 16) }
{
    let (header, index, values) = trie.parts();
    let value_width = width_for(T::WIDTH);
    if value_width.bytes() != T::WIDTH {
        return Err(WriteError::UnknownWidth);
    }
    let index_length = index.len() + padding(T::WIDTH, index.len()).len() / 2;
    if index_length > 0xFFFF {
        return Err(WriteError::LongIndex);
    }
    if values.len() > 0xF_FFFF {
        return Err(WriteError::LongData);
    }
    if header.data_null_offset > 0xF_FFFF {
        return Err(WriteError::NullOffset);
    }
    if !header.high_start.is_multiple_of(0x200) || header.high_start > 0x1FF_FFFF {
        return Err(WriteError::HighStart);
    }
    let written = BinaryHeader {
        trie_type: header.trie_type,
        value_width,
        index_length: index_length as u16,
        data_length: values.len() as u32,
        index3_null_offset: header.index3_null_offset,
        data_null_offset: header.data_null_offset,
        shifted_high_start: (header.high_start / 0x200) as u16,
    };
    let null_number = null_number(&written, values);
    let names_block = written.data_null_offset < written.data_length;
    if names_block && header.null_value != null_number {
        return Err(WriteError::NullValue);
    }
    Ok(written)
}

/// The parts of the binary form of a trie, which are written one after another.
#[derive(Drop)]
struct WrittenParts<'a> {
    header: [u8; HEADER_SIZE],
    index: &'a [u8],
    padding: &'a [u8],
    values: &'a [u8],
    /// The number of bytes of all parts.
    len: usize,
}

impl<'a> WrittenParts<'a> {
    /// Writes the parts at the start of the bytes.
    fn write(&self, bytes: &mut [u8])
        requires { joined_length self.now ≤ length bytes.old }
        ensures { bytes.new ≡ joined self.now (drop (joined_length self.now) bytes.old) }
    {
        let (header, rest) = bytes.split_at_mut(HEADER_SIZE);
        header.copy_from_slice(&self.header);
        let (index, rest) = rest.split_at_mut(self.index.len());
        index.copy_from_slice(self.index);
        let (padding, rest) = rest.split_at_mut(self.padding.len());
        padding.copy_from_slice(self.padding);
        let (values, _) = rest.split_at_mut(self.values.len());
        values.copy_from_slice(self.values);
    }

    /// Appends the parts to bytes.
    fn append(&self, bytes: &mut Vec<u8>) -> Result<(), AllocError>
        ensures { OnOk result (bytes.new.items ≡ bytes.old.items ++ joined self.now []) }
    {
        bytes.extend_from_slice(&self.header)?;
        bytes.extend_from_slice(self.index)?;
        bytes.extend_from_slice(self.padding)?;
        bytes.extend_from_slice(self.values)
    }
}

/// Returns the parts of the binary form of a trie, or why the form cannot store the trie.
fn written_parts<'a, T: TrieValue>(
    trie: &'a CodePointTrie<'_, T>,
) -> Result<WrittenParts<'a>, WriteError>
    ensures stored { IfOk result (λ p. (rest : List ℕ)
        → IsStored T.unpack T.WIDTH T.number T.of_number (joined p rest)
        (stored_form T.WIDTH T.number trie.now) (joined_length p)) }
    ensures header { IfOk result (λ p. length p.header ≡ 16) }
    ensures len { IfOk result (λ p. p.len ≡ joined_length p) }
    ensures written { IfOk result (λ p. p.len ≡ written_length T.WIDTH T.number trie.now) }
    ensures front { IfOk result (λ p. p.header ++ (p.index.now ++ p.padding.now)
        ≡ front_bytes T.WIDTH T.number trie.now) }
    ensures values { IsCanonical T.pack T.unpack T.WIDTH
        → IfOk result (λ p. p.values.now ≡ flat_map T.pack trie.now.values) }
    ensures room { IfOk result (λ _. why_not_written T.WIDTH T.number trie.now ≡ None) }
    ensures err { IfErr result (λ e. why_not_written T.WIDTH T.number trie.now ≡ Some e) }
{
    let header = header_for(trie)?;
    let (_, index, values) = trie.parts();
    Ok(WrittenParts {
        header: header_bytes(&header),
        index: index.as_bytes(),
        padding: padding(T::WIDTH, index.len()),
        values: values.as_bytes(),
        len: stored_length(&header),
    })
}

/// Returns the number of bytes that [`to_binary`] and [`write_binary`] write for a trie.
///
/// These are 16 bytes for the header, two for each cell of the index, and the bytes of each value.
/// If values have four bytes, an index of an odd length is written with one more cell.
///
/// # Errors
/// Returns the first variant of [`WriteError`] that says why the form cannot store the trie.
/// `Short` and `Memory` are never returned.
pub fn binary_len<T: TrieValue>(trie: &CodePointTrie<'_, T>) -> Result<usize, WriteError>
    ensures ok { IfOk result (λ n. n ≡ written_length T.WIDTH T.number trie.now) }
    ensures room { IfOk result (λ _. why_not_written T.WIDTH T.number trie.now ≡ None) }
    ensures err { IfErr result (λ e. why_not_written T.WIDTH T.number trie.now ≡ Some e) }
{
    Ok(written_parts(trie)?.len)
}

/// Returns the bytes of a trie in ICU's binary form, as `ucptrie_toBinary` writes them on a
/// little-endian machine.
///
/// `from_binary` reads these bytes as the trie's stored form. For every code point whose cells the
/// trie has, the stored form has the same value. A coherent trie has the cells of every code point,
/// and every built trie is coherent. A trie that is not coherent may lack some: there a look-up in
/// the trie returns the error value, and a look-up in its stored form may return another value.
///
/// The bytes are the header of 16 bytes, the index, and the data. If the index has an odd length
/// and values take four bytes, a cell 0xFFEE follows the index, as in ICU's builder, so that the
/// offset of the data is a multiple of four.
///
/// ```
/// let bytes = to_binary(alloc, &trie)?;
/// let (read, len) = from_binary::<u8>(&bytes)?;
/// // len is bytes.len(), and read.get32(c) is trie.get32(c) for each c if the trie is coherent
/// ```
///
/// # Errors
/// Returns the first of these that applies:
///
/// - `UnknownWidth`, `LongIndex`, `LongData`, `NullOffset`, `HighStart` or `NullValue` if the form
///   cannot store the trie.
/// - `Memory` if the one allocation fails.
///
/// `Short` is never returned.
pub fn to_binary<T: TrieValue>(
    alloc: Global,
    trie: &CodePointTrie<'_, T>,
) -> Result<Vec<u8>, WriteError>
    ensures read { IfOk result (λ v. IsStored T.unpack T.WIDTH T.number T.of_number v.items
        (stored_form T.WIDTH T.number trie.now) (length v.items)) }
    ensures answers { IfOk result (λ v. (t : Parts T) (n : ℕ)
        → IsStored T.unpack T.WIDTH T.number T.of_number v.items t n → (c : ℕ) (x : T)
        → answers trie.now c ≡ Some x → answers t c ≡ Some x) }
    ensures len { IfOk result (λ v. length v.items ≡ written_length T.WIDTH T.number trie.now) }
    ensures front { IfOk result (λ v. take (length (front_bytes T.WIDTH T.number trie.now)) v.items
        ≡ front_bytes T.WIDTH T.number trie.now) }
    ensures bytes { IsCanonical T.pack T.unpack T.WIDTH
        → IfOk result (λ v. v.items ≡ binary_of T.WIDTH T.number T.pack trie.now) }
    ensures room { IfOk result (λ _. why_not_written T.WIDTH T.number trie.now ≡ None) }
    ensures err { IfErr result (λ e. (why_not_written T.WIDTH T.number trie.now ≡ Some e)
        ⊎ ((e ≡ Memory) × (why_not_written T.WIDTH T.number trie.now ≡ None))) }
{
    let parts = written_parts(trie)?;
    let mut bytes = Vec::with_capacity(alloc, parts.len)?;
    parts.append(&mut bytes)?;
    Ok(bytes)
}

/// Writes a trie at the start of the bytes, as [`to_binary`] does. Returns the number of bytes
/// written.
///
/// The bytes after it are unchanged. Nothing is allocated.
///
/// # Errors
/// Returns the first of these that applies, and leaves the slice unchanged:
///
/// - A variant of [`WriteError`] that says why the form cannot store the trie.
/// - `Short` if the slice has fewer bytes than [`binary_len`] returns.
///
/// `Memory` is never returned.
pub fn write_binary<T: TrieValue>(
    trie: &CodePointTrie<'_, T>,
    bytes: &mut [u8],
) -> Result<usize, WriteError>
    ensures len { IfOk result (λ n. (n ≡ written_length T.WIDTH T.number trie.now)
        × (n ≤ length bytes.old)) }
    ensures read { IfOk result (λ n. IsStored T.unpack T.WIDTH T.number T.of_number bytes.new
        (stored_form T.WIDTH T.number trie.now) n) }
    ensures answers { IfOk result (λ _. (t : Parts T) (n : ℕ)
        → IsStored T.unpack T.WIDTH T.number T.of_number bytes.new t n → (c : ℕ) (x : T)
        → answers trie.now c ≡ Some x → answers t c ≡ Some x) }
    ensures bytes { IsCanonical T.pack T.unpack T.WIDTH
        → IfOk result (λ n. bytes.new
        ≡ binary_of T.WIDTH T.number T.pack trie.now ++ drop n bytes.old) }
    ensures front { IfOk result
        (λ _. take (length (front_bytes T.WIDTH T.number trie.now)) bytes.new
        ≡ front_bytes T.WIDTH T.number trie.now) }
    ensures rest { IfOk result (λ n. drop n bytes.new ≡ drop n bytes.old) }
    ensures room { IfOk result (λ _. why_not_written T.WIDTH T.number trie.now ≡ None) }
    ensures unchanged { OnErr result (bytes.new ≡ bytes.old) }
    ensures err { IfErr result (λ e. (why_not_written T.WIDTH T.number trie.now ≡ Some e)
        ⊎ ((e ≡ Short) × (why_not_written T.WIDTH T.number trie.now ≡ None)
        × (length bytes.old < written_length T.WIDTH T.number trie.now))) }
{
    let parts = written_parts(trie)?;
    let len = parts.len;
    if bytes.len() < len {
        return Err(WriteError::Short);
    }
    parts.write(bytes);
    Ok(len)
}
