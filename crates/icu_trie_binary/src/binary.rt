//! Reads tries from ICU's binary form, which `ucptrie_toBinary` writes, in place; and writes tries
//! in this form.
ghost use Rattle.std.specs.Prelude.{◌≡◌, ℕ, ◌+◌, ◌*◌, ◌<◌, ◌≤◌, length, slice_get, option_map, is_none, false, IfOk, IfErr};
ghost use Rattle.icu_zerovec.specs.Slice.{slice_values};
ghost use Rattle.icu_trie_binary.specs.BinaryHeader.{data_size, stored_length};
ghost use Rattle.icu_trie_binary.specs.BinaryTrie.{index_of, data_bytes, null_place, number_or_zero, trie_header, IsStored, IsWhyNotStored, IsAnyStored, IsWhyNoneStored};

pub use crate::error::{BinaryError, SwappedError, WriteError};
use crate::header::{BinaryHeader, HEADER_SIZE, ValueWidth, header_of, stored_header};
pub use crate::swapped::from_binary_swapped;
pub use crate::write::{binary_len, to_binary, write_binary};
use icu_trie::cptrie::CodePointTrie;
use icu_trie::header::CodePointTrieHeader;
use icu_trie::value::TrieValue;
use icu_zerovec::ule::UleError;
use icu_zerovec::{ZeroSlice, ZeroVec};

/// Returns the index, read in place.
fn index_of<'a>(bytes: &'a [u8], header: &BinaryHeader) -> ZeroVec<'a, u16>
    requires { stored_length header.now ≤ length bytes.now }
    ensures { result ≡ index_of header.now bytes.now }
{
    let index = &bytes[HEADER_SIZE..HEADER_SIZE + 2 * header.index_length as usize];
    match ZeroVec::parse_bytes(index) {
        Ok(index) => index,
        Err(_) => unreachable!(),
    }
}

/// Returns the bytes of the data.
fn data_bytes<'a>(bytes: &'a [u8], header: &BinaryHeader) -> &'a [u8]
    requires { stored_length header.now ≤ length bytes.now }
    ensures bytes { result.now ≡ data_bytes header.now bytes.now }
    ensures len { length result.now ≡ data_size header.now }
{
    let cells = &bytes[HEADER_SIZE..];
    let data = &cells[2 * header.index_length as usize..];
    &data[..header.value_width.bytes() * header.data_length as usize]
}

/// Returns the number of the null value: that of the cell at the offset of the data null block, or
/// of the high value if there is no such block.
pub(crate) fn null_number<T: TrieValue>(header: &BinaryHeader, values: ZeroSlice<'_, T>) -> u32
    ensures number { result ≡ number_or_zero
        (option_map T.number (slice_get (slice_values values.entry) (null_place header.now))) }
    ensures value { header.now.data_length ≡ length (slice_values values.entry)
        → 0 < header.now.data_length → is_none (T.of_number result) ≡ false }
{
    let place = if header.data_null_offset < header.data_length {
        header.data_null_offset
    } else {
        header.data_length.saturating_sub(2)
    };
    let Some(value) = values.get(place as usize) else {
        return 0;
    };
    value.shown();
    value.to_u32()
}

/// Returns the header of a trie with these values.
fn trie_header<T: TrieValue>(header: &BinaryHeader, values: ZeroSlice<'_, T>) -> CodePointTrieHeader
    ensures { result
        ≡ trie_header T.unpack T.WIDTH T.number T.of_number header.now (slice_values values.entry) }
{
    let high_start = u32::from(header.shifted_high_start) * 0x200;
    CodePointTrieHeader {
        high_start,
        shifted12_high_start: high_start.div_ceil(0x1000) as u16,
        index3_null_offset: header.index3_null_offset,
        data_null_offset: header.data_null_offset,
        null_value: null_number(header, values),
        trie_type: header.trie_type,
    }
}

/// Reads the trie at the start of the bytes. Returns it and the number of bytes that it takes.
///
/// The trie borrows its index and its data. Bytes after it are not read. The bytes may be at any
/// address.
///
/// The form is the one that `ucptrie_toBinary` writes on a little-endian machine, for 8-bit, 16-bit
/// and 32-bit values and both trie types. ICU: `ucptrie_openFromBinary` with `UCPTRIE_TYPE_ANY` and
/// the width of `T`.
///
/// ```
/// let (trie, len) = from_binary::<u8>(bytes)?;
/// // trie.get32(0x41) is what ucptrie_get returns, and bytes[len..] is what follows the trie
/// ```
///
/// # Errors
/// Returns the first of these that applies:
///
/// - `Short`, `Signature` or `Swapped` if the bytes do not start with the header of a little-endian
///   trie.
/// - `UnknownType`, `UnknownWidth` or `Reserved` if an option of the header has an unknown value.
/// - `OtherWidth` if the values have another width than `T`.
/// - `CutOff` if the index or the data are cut off.
/// - `Cell` with the index of the first data cell that is not a value of `T`.
/// - `Trie` if `CodePointTrie::try_new` rejects the parts.
pub fn from_binary<'a, T: TrieValue>(
    bytes: &'a [u8],
) -> Result<(CodePointTrie<'a, T>, usize), BinaryError>
    ensures ok { IfOk result
        (λ r. IsStored T.unpack T.WIDTH T.number T.of_number bytes.now r.0 r.1) }
    ensures len { IfOk result (λ r. r.1 ≤ length bytes.now) }
    ensures err { IfErr result
        (IsWhyNotStored T.unpack T.WIDTH T.number T.of_number bytes.now) }
{
    let (header, len) = stored_header(bytes, T::WIDTH)?;
    let index = index_of(bytes, &header);
    let data = match ZeroVec::<T>::parse_bytes(data_bytes(bytes, &header)) {
        Ok(data) => data,
        Err(UleError::Cell(i)) => return Err(BinaryError::Cell(i)),
        Err(UleError::Length) => unreachable!(),
    };
    let trie = CodePointTrie::try_new(trie_header(&header, data.as_slice()), index, data)?;
    Ok((trie, len))
}

/// A trie of the width in its header. Its values are unsigned numbers.
#[derive(Debug, Drop)]
pub enum AnyWidthTrie<'a> {
    /// 8-bit values (`UCPTRIE_VALUE_BITS_8`).
    Bits8(CodePointTrie<'a, u8>),
    /// 16-bit values (`UCPTRIE_VALUE_BITS_16`).
    Bits16(CodePointTrie<'a, u16>),
    /// 32-bit values (`UCPTRIE_VALUE_BITS_32`).
    Bits32(CodePointTrie<'a, u32>),
}

/// Reads the trie at the start of the bytes, of any width. Returns it and the number of bytes that
/// it takes.
///
/// This is [`from_binary`] with the width in the header.
///
/// ```
/// let (trie, len) = from_binary_any(bytes)?;
/// if let AnyWidthTrie::Bits16(trie) = trie {
///     // trie.get32(0x41) is a number of 16 bits
/// }
/// ```
///
/// # Errors
/// Returns the errors of [`from_binary`], in the same order, but never `OtherWidth` or `Cell`:
/// there is a type for each width, and any bytes are a value of it.
pub fn from_binary_any(bytes: &[u8]) -> Result<(AnyWidthTrie<'_>, usize), BinaryError>
    ensures ok { IfOk result (λ r. IsAnyStored bytes.now r.0 r.1) }
    ensures len { IfOk result (λ r. r.1 ≤ length bytes.now) }
    ensures err { IfErr result (IsWhyNoneStored bytes.now) }
{
    match header_of(bytes)?.value_width {
        ValueWidth::Bits8 => {
            let (trie, len) = from_binary(bytes)?;
            Ok((AnyWidthTrie::Bits8(trie), len))
        }
        ValueWidth::Bits16 => {
            let (trie, len) = from_binary(bytes)?;
            Ok((AnyWidthTrie::Bits16(trie), len))
        }
        ValueWidth::Bits32 => {
            let (trie, len) = from_binary(bytes)?;
            Ok((AnyWidthTrie::Bits32(trie), len))
        }
    }
}
