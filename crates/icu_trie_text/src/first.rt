//! The first of the characters that are left of a text, with its value.
ghost use Rattle.std.specs.Prelude.{◌≡◌, ◌≤◌, [], length};
ghost use Rattle.std.specs.Option.{MatchOption};
ghost use Rattle.std.specs.Str.{IsUtf8, chars};
ghost use Rattle.std.specs.Str.Iter.{chars_rest};
ghost use Rattle.icu_trie_text.specs.FirstCharacter.{IsFirstValue};
ghost use Rattle.icu_trie_text.specs.Inside.Lookup.{lookup_parts};

use crate::lookup::TextLookup;
use icu_trie_core::value::TrieValue;
use std::str::Chars;

/// Returns the first of the characters with its value, and removes it from them. `None` if and only
/// if none are left.
#[inline(always)]
pub(crate) fn first_value<T: TrieValue>(
    trie: &TextLookup<'_, T>,
    text: &mut Chars<'_>,
) -> Option<(char, T)>
    requires { IsUtf8 (chars_rest text.old) }
    ensures first { MatchOption result
        ((chars (chars_rest text.old) ≡ []) × (chars (chars_rest text.new) ≡ []))
        (λ item. IsFirstValue (lookup_parts trie.now) (chars_rest text.old) item (chars_rest text.new)) }
    ensures rest { IsUtf8 (chars_rest text.new) }
    ensures fewer { length (chars_rest text.new) ≤ length (chars_rest text.old) }
{
    let first = text.next()?;
    match trie.in_place(u32::from(first)) {
        Some(value) => Some((first, value)),
        None => Some((first, trie.get(first))),
    }
}
