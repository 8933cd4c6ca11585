//! The trie of a word list, and the trie that a file of units has.
ghost use Rattle.std.specs.Prelude.{◌≡◌, ◌<◌, ◌≤◌, ◌%◌, ℕ, length, Err, IfErr, IfOk, OnOk};
ghost use Rattle.std.specs.Str.Lines.{lines};
ghost use Rattle.icu_char16trie.specs.Grammar.{IsTrieOf};
ghost use Rattle.icu_char16trie.specs.UnitMap.{UnitMap};
ghost use Rattle.icu_char16trie_builder.specs.Entries.{most_units};
ghost use Rattle.ucptrie_words.specs.Words.{AreWords, IsFirstFault};
ghost use Rattle.ucptrie_words.specs.Units.{units_of};
ghost use Rattle.ucptrie_words.specs.declared.error.LineError.{LineError};
ghost use Rattle.ucptrie_words.specs.declared.error.UnitsError.TheVariants.{HalfUnit, NotATrie};
ghost use Rattle.ucptrie_words.specs.declared.error.WordsError.TheVariants.{Line, TooLarge};

use crate::error::{UnitsError, WordsError};
use crate::read::read_words;
use icu_char16trie::char16trie::Char16Trie;
use icu_char16trie_builder::error::BuildError;
use icu_zerovec::ZeroVec;
use std::alloc::Global;

/// Returns the trie of a word list, which has exactly its entries. Without words it has no units.
///
/// # Errors
/// Returns [`WordsError::Line`] for the first line that has a fault or repeats a key, counted from
/// 1, [`WordsError::TooLarge`] if and only if no line has a fault and the entries may need more than
/// `0x7FFF_FFFF` units (two for each unit of a key, and sixteen for each entry), and
/// [`WordsError::Memory`] if an allocation fails, even if the entries are too many.
pub fn trie_of_words(alloc: Global, input: &[u8]) -> Result<Char16Trie<'static>, WordsError>
    ensures ok { IfOk result (λ trie. (m : UnitMap)
        × (IsTrieOf trie m × AreWords (lines input.now) m × (most_units m ≤ 0x7FFF_FFFF))) }
    ensures line { (k : ℕ) (f : LineError) → IfErr result (λ e. e ≡ Line k f
        → IsFirstFault input.now k f) }
    ensures too_large { IfErr result (λ e. e ≡ TooLarge
        → (m : UnitMap) × (AreWords (lines input.now) m × (0x7FFF_FFFF < most_units m))) }
{
    let builder = read_words(alloc, input)?;
    match builder.build() {
        Ok(trie) => Ok(trie),
        Err(BuildError::TooLarge) => Err(WordsError::TooLarge),
        // Building returns no other error.
        Err(_) => Err(WordsError::Memory),
    }
}

/// Returns the trie with these units, two bytes each, the low byte first. It borrows them.
///
/// # Errors
/// Returns [`UnitsError::HalfUnit`] if the number of bytes is odd, [`UnitsError::NotATrie`] if the
/// units are no trie, and [`UnitsError::Memory`] if an allocation fails.
pub fn trie_of_units(alloc: Global, bytes: &[u8]) -> Result<Char16Trie<'_>, UnitsError>
    ensures ok { IfOk result (λ trie. (trie ≡ units_of bytes.now)
        × ((m : UnitMap) × IsTrieOf trie m)) }
    ensures whole { OnOk result (length bytes.now % 2 ≡ 0) }
    ensures half { IfErr result (λ e. e ≡ HalfUnit → length bytes.now % 2 ≡ 1) }
    ensures no_trie { IfErr result (λ e. e ≡ NotATrie
        → (m : UnitMap) → IsTrieOf (units_of bytes.now) m → ⊥) }
{
    let Ok(units) = ZeroVec::parse_bytes(bytes) else {
        return Err(UnitsError::HalfUnit);
    };
    let trie = Char16Trie::new(units);
    match trie.is_trie(alloc) {
        Ok(true) => Ok(trie),
        Ok(false) => Err(UnitsError::NotATrie),
        Err(_) => Err(UnitsError::Memory),
    }
}
