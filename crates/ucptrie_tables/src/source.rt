//! Source in C and in Rust: its names, and what it says of a trie's type.
ghost use Rattle.std.specs.Prelude.{◌≡◌};
ghost use Rattle.icu_trie_core.specs.Format.{index1_start};
ghost use Rattle.ucptrie_tables.specs.Source.{is_name, is_name_byte, type_name};

use icu_trie::header::TrieType;

/// Returns whether a name in C and in Rust can have a byte: an ASCII letter or digit, or `_`.
fn is_name_byte(byte: u8) -> bool
    ensures { result ≡ is_name_byte byte }
{
    byte.is_ascii_alphanumeric() || byte == b'_'
}

/// Returns whether a text can be a name in C and in Rust: ASCII letters, digits and `_`, and not a
/// digit first. Keywords of the two languages are not excluded.
pub fn is_name(text: &str) -> bool
    ensures { result ≡ is_name text.now }
{
    let bytes = text.as_bytes();
    match bytes {
        [] => false,
        [first, ..] if first.is_ascii_digit() => false,
        _ => bytes.iter().all(|byte| is_name_byte(*byte)),
    }
}

/// Returns the name of a type, as in `ucptab`'s arguments.
pub fn type_name(trie_type: TrieType) -> &'static str
    ensures { result.now ≡ type_name trie_type }
{
    match trie_type {
        TrieType::Fast => "fast",
        TrieType::Small => "small",
    }
}

/// Returns what is added to `c >> 14` for the index of the index-1 cell of `c`. The cells follow
/// the fast index, and a fast trie leaves out the four of the BMP.
pub fn index1_offset(trie_type: TrieType) -> u32
    ensures { result ≡ index1_start trie_type }
{
    match trie_type {
        TrieType::Fast => 1024 - 4,
        TrieType::Small => 64,
    }
}
