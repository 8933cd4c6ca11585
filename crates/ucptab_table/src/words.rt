//! The arguments of the program.
ghost use Rattle.std.specs.Prelude.{◌≡◌, ◌++◌, length, OnOk, map, IfOk, IfSome, is_some, string_bytes};
ghost use Rattle.std.specs.List.{list_all, filter_map};
ghost use Rattle.std.specs.Option.{option_map, option_to_list};
ghost use Rattle.ucptab_table.specs.TableText.{hexadecimal};
ghost use Rattle.ucptab_table.specs.Words.{trie_type_of, value_of, arguments_of};

use crate::digits::{decimal_number, hexadecimal};
use icu_trie_core::header::TrieType;
use std::alloc::{AllocError, Global};

/// What the arguments ask for.
#[derive(Clone, Copy)]
pub struct Request<'a> {
    /// The type of the trie.
    pub trie_type: TrieType,
    /// The value of each code point that no row covers.
    pub default: u32,
    /// The value of each number above 0x10FFFF.
    pub error: u32,
    /// The words of the asked numbers, each of 1 to 8 hexadecimal digits.
    pub asked: &'a [String],
}

/// Returns the trie type with the name `fast` or `small`, or `None` for any other word.
#[tactic(auto, unfolding(crate::specs::Words::trie_type_of))]
fn trie_type_of(word: &[u8]) -> Option<TrieType>
    ensures { result ≡ trie_type_of word.now }
{
    if word == b"fast".as_slice() {
        Some(TrieType::Fast)
    } else if word == b"small".as_slice() {
        Some(TrieType::Small)
    } else {
        None
    }
}

/// Returns the value that 1 to 10 decimal digits write, or `None` for any other word and above
/// 4294967295.
#[tactic(auto, unfolding(crate::specs::Words::value_of))]
fn value_of(word: &[u8]) -> Option<u32>
    ensures { result ≡ value_of word.now }
{
    let number = decimal_number(word)?;
    u32::try_from(number).ok()
}

/// Returns whether each word is 1 to 8 hexadecimal digits.
fn are_hexadecimal(words: &[String]) -> bool
    ensures { result ≡ list_all (λ word. is_some (hexadecimal (string_bytes word))) words.now }
{
    words
        .iter()
        .all(|word| hexadecimal(word.as_bytes()).is_some())
}

/// Returns what the words after the program's name ask for, KIND DEFAULT ERROR [HEX ..], or `None`
/// if they can't be read.
///
/// Allocates nothing, so that all words are tested before any is used.
#[tactic(auto, unfolding(crate::specs::Words::arguments_of))]
pub fn request_of(words: &[String]) -> Option<Request<'_>>
    ensures value { arguments_of (map string_bytes words.now) ≡ option_map (λ request. record {
      trie_type = request.trie_type;
      default = request.default;
      error = request.error;
      asked = filter_map (λ word. hexadecimal (string_bytes word)) request.asked.now;
    }) result }
    ensures all { IfSome result (λ request.
        length (filter_map (λ word. hexadecimal (string_bytes word)) request.asked.now)
        ≡ length request.asked.now) }
{
    let [kind, default, error, asked @ ..] = words else {
        return None;
    };
    let trie_type = trie_type_of(kind.as_bytes())?;
    let default = value_of(default.as_bytes())?;
    let error = value_of(error.as_bytes())?;
    if !are_hexadecimal(asked) {
        return None;
    }
    Some(Request {
        trie_type,
        default,
        error,
        asked,
    })
}

/// Appends the number that a word writes in hexadecimal digits, if it writes one.
fn push_number(asked: &mut Vec<u32>, word: &[u8]) -> Result<(), AllocError>
    ensures { OnOk result
        (asked.new.items ≡ asked.old.items ++ option_to_list (hexadecimal word.now)) }
{
    if let Some(number) = hexadecimal(word) {
        asked.push(number)?;
    }
    Ok(())
}

/// Returns the numbers that the words write in hexadecimal digits, in order.
pub fn asked_numbers(alloc: Global, words: &[String]) -> Result<Vec<u32>, AllocError>
    ensures { IfOk result
        (λ asked. asked.items ≡ filter_map (λ word. hexadecimal (string_bytes word)) words.now) }
{
    // One by one: `collect` would go on after its first allocation fails.
    let mut asked = Vec::new(alloc);
    for word in words {
        push_number(&mut asked, word.as_bytes())?;
    }
    Ok(asked)
}
