//! Writes the header of the binary form.
ghost use Rattle.std.specs.Prelude.{◌≡◌, ◌+◌, ◌*◌, ◌/◌, ◌%◌, ◌^◌, ◌<◌};
ghost use Rattle.icu_trie_binary.specs.WrittenTrie.{type_code, width_code, width_for, options_for, header_bytes};

use crate::header::{BinaryHeader, HEADER_SIZE, SIGNATURE, ValueWidth};
use icu_trie::header::TrieType;

/// Returns the code of a type in the options.
fn type_code(trie_type: TrieType) -> u32
    ensures code { result ≡ type_code trie_type }
    ensures low { result < 2 }
{
    match trie_type {
        TrieType::Fast => 0,
        TrieType::Small => 1,
    }
}

/// Returns the code of a width in the options.
fn width_code(width: ValueWidth) -> u32
    ensures code { result ≡ width_code width }
    ensures low { result < 3 }
{
    match width {
        ValueWidth::Bits16 => 0,
        ValueWidth::Bits32 => 1,
        ValueWidth::Bits8 => 2,
    }
}

/// Returns the width of values of `width` bytes, which is 1, 2 or 4.
pub(crate) fn width_for(width: usize) -> ValueWidth
    ensures { result ≡ width_for width }
{
    match width {
        2 => ValueWidth::Bits16,
        4 => ValueWidth::Bits32,
        _ => ValueWidth::Bits8,
    }
}

/// Returns the options of a header.
fn options_for(header: &BinaryHeader) -> u16
    requires data_length { header.now.data_length < 2 ^ 20 }
    requires null_offset { header.now.data_null_offset < 2 ^ 20 }
    ensures { result ≡ options_for header.now }
{
    let upper = header.data_length / 0x1_0000 * 0x1000 + header.data_null_offset / 0x1_0000 * 0x100;
    (upper + type_code(header.trie_type) * 0x40 + width_code(header.value_width)) as u16
}

/// Returns the bytes of a header.
#[tactic(auto, unfolding(crate::specs::WrittenTrie::header_bytes))]
pub(crate) fn header_bytes(header: &BinaryHeader) -> [u8; HEADER_SIZE]
    requires data_length { header.now.data_length < 2 ^ 20 }
    requires null_offset { header.now.data_null_offset < 2 ^ 20 }
    ensures { result ≡ header_bytes header.now }
{
    let [s0, s1, s2, s3] = SIGNATURE.to_le_bytes();
    let [o0, o1] = options_for(header).to_le_bytes();
    let [i0, i1] = header.index_length.to_le_bytes();
    let [d0, d1] = ((header.data_length % 0x1_0000) as u16).to_le_bytes();
    let [b0, b1] = header.index3_null_offset.to_le_bytes();
    let [n0, n1] = ((header.data_null_offset % 0x1_0000) as u16).to_le_bytes();
    let [h0, h1] = header.shifted_high_start.to_le_bytes();
    [
        s0, s1, s2, s3, o0, o1, i0, i1, d0, d1, b0, b1, n0, n1, h0, h1,
    ]
}
