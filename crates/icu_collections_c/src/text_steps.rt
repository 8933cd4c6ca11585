//! Steps of a cursor along the characters of bytes that may be ill-formed UTF-8.
ghost use Rattle.std.specs.Prelude.{◌↔◌, ◌≤◌, IsTrue, drop, length};
ghost use Rattle.std.specs.Option.{MatchOption};
ghost use Rattle.icu_collections_c.specs.Inside.TextSteps.{PassesCharacter, Stops};
ghost use Rattle.icu_collections_c.specs.UnitTries.{StartsIllFormed};

use icu_char16trie::char16trie::Char16TrieCursor;
use icu_utf::characters::first_character;

/// Returns true if the bytes are not empty and do not start with a character.
#[inline(always)]
pub(crate) fn starts_ill_formed(bytes: &[u8]) -> bool
    ensures { IsTrue result ↔ StartsIllFormed bytes.now }
{
    !bytes.is_empty() && first_character(bytes).is_none()
}

/// Advances the cursor past the character at offset `end`, and returns the offset after it. Returns
/// `None` if no key continues, or if no character starts there.
#[inline(always)]
pub(crate) fn pass_character(
    cursor: &mut Char16TrieCursor<'_>,
    bytes: &[u8],
    end: usize,
) -> Option<usize>
    requires { end ≤ length bytes.now }
    ensures { MatchOption result (Stops cursor.old (drop end bytes.now))
        (λ next. PassesCharacter bytes.now end next cursor.old cursor.new) }
{
    if cursor.is_empty() {
        return None;
    }
    let (c, size) = first_character(&bytes[end..])?;
    cursor.step(c);
    Some(end + size)
}
