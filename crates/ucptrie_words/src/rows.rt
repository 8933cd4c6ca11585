//! The entries of a trie, in lines.
ghost use Rattle.std.specs.Prelude.{◌≡◌, ◌==◌, ◌++◌, ◌⊎◌, ℕ, Some, String, false, true, IfErr, IfOk, OnOk, string_bytes};
ghost use Rattle.std.specs.Global.{Global};
ghost use Rattle.std.specs.List.{list_any};
ghost use Rattle.std.specs.Str.{chars};
ghost use Rattle.icu_char16trie.specs.Grammar.{IsTrieOf};
ghost use Rattle.icu_char16trie.specs.UnitMap.{UnitMap};
ghost use Rattle.ucptrie_words.specs.Rows.{AreRowsOf, can_be_key, first_without_row, line_of};
ghost use Rattle.ucptrie_words.specs.declared.error.RowsError.TheVariants.{Key, Memory};

use crate::error::RowsError;
use crate::line::is_silent;
use icu_char16trie::char16trie::Char16Trie;
use std::alloc::{AllocError, Global};
use ucptab_table::rows::trimmed;

/// Returns whether a text has the character U+FFFD.
fn has_replacement(text: &str) -> bool
    ensures { result ≡ list_any (λ c. c == 0xFFFD) (chars text.now) }
{
    text.chars().any(|c| c == '\u{fffd}')
}

/// Returns whether the bytes have a line feed.
fn has_line_feed(bytes: &[u8]) -> bool
    ensures { result ≡ list_any (λ b. b == 10) bytes.now }
{
    bytes.iter().any(|byte| *byte == b'\n')
}

/// Returns whether a line can have the text as its key.
#[tactic(auto, unfolding(crate::specs::Rows::can_be_key))]
fn can_be_key(text: &str) -> bool
    ensures { result ≡ can_be_key text.now }
{
    let bytes = text.as_bytes();
    if trimmed(bytes).len() != bytes.len() || is_silent(bytes) {
        return false;
    }
    !has_line_feed(bytes) && !has_replacement(text)
}

/// Appends the line of a key and a value.
fn push_line(text: &mut String, key: &str, value: i32) -> Result<(), AllocError>
    ensures { OnOk result (string_bytes text.new ≡ string_bytes text.old ++ line_of key.now value) }
{
    writeln!(text, "{key};{value}")
}

/// Appends the line of a key and a value, if a line can have the key.
fn push_row(alloc: Global, text: &mut String, key: &str, value: i32) -> Result<(), RowsError>
    ensures row { OnOk result (string_bytes text.new
        ≡ string_bytes text.old ++ line_of key.now value) }
    ensures can_be { OnOk result (can_be_key key.now ≡ true) }
    ensures err { IfErr result (λ e. (e ≡ Memory) ⊎ ((given : String Global)
        × (e ≡ Key given) × (string_bytes given ≡ key.now) × (can_be_key key.now ≡ false))) }
{
    if !can_be_key(key) {
        return Err(RowsError::Key(String::from_str(alloc, key)?));
    }
    Ok(push_line(text, key, value)?)
}

/// Returns the lines of the entries of a trie, in its order.
pub(crate) fn rows_text(alloc: Global, trie: &Char16Trie<'_>) -> Result<String, RowsError>
    ensures rows { (m : UnitMap) → IsTrieOf trie.now m
        → IfOk result (λ text. AreRowsOf m (string_bytes text)) }
    ensures key { (m : UnitMap) (key : String Global) → IsTrieOf trie.now m
        → IfErr result (λ e. e ≡ Key key → first_without_row m ≡ Some (string_bytes key)) }
{
    let mut text = String::new(alloc);
    let mut entries = trie.entries(alloc);
    while entries.advance()? {
        push_row(alloc, &mut text, entries.key(), entries.value())?;
    }
    Ok(text)
}
