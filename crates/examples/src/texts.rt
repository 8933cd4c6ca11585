//! What a normalizer checks in a text before it copies it.
ghost use Rattle.std.specs.Prelude.{◌≡◌, ◌↔◌, IsTrue, Some};
ghost use Rattle.std.specs.List.{All};
ghost use Rattle.std.specs.Str.{IsCharBoundary, chars};
ghost use Rattle.icu_collections.specs.CodePointTrie.{trie_value};
ghost use Rattle.examples.specs.Fronts.{IsLongestWithValue};

use icu_collections::codepointtrie::CodePointTrie;
use icu_collections::codepointtrie::text::{find_value, span_of_values};

/// The value of the characters that no step of normalization changes.
const YES: u8 = 1;

/// Returns true if each character of the text has the value 1 in the table. These are the
/// characters that are normalized in any context, so a text of only such characters is normalized.
///
/// ```
/// // is_surely_normal(&table, "ab") is true if 'a' and 'b' have 1
/// ```
pub fn is_surely_normal(table: &CodePointTrie<'_, u8>, text: &str) -> bool
    ensures { IsTrue result ↔ All (λ c. trie_value table.now c ≡ Some 1) (chars text.now) }
{
    find_value(table, text, |value| value != YES).is_none()
}

/// Returns how many bytes of the text come before the first character without the value 1 in the
/// table. They are normalized in any context, and end with a whole character.
pub fn normal_front(table: &CodePointTrie<'_, u8>, text: &str) -> usize
    ensures front { IsLongestWithValue table.now 1 text.now result }
    ensures boundary { IsCharBoundary text.now result }
{
    span_of_values(table, text, |value| value == YES)
}
