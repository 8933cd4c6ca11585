//! What all lines say.
ghost use Rattle.std.specs.Prelude.{◌≡◌, ◌⊎◌, ◌<◌, ◌≤◌, ℕ, length, IfErr, IfOk, IsNone, IsSome, OnOk};
ghost use Rattle.std.specs.Str.Lines.{lines};
ghost use Rattle.icu_char16trie.specs.Matches.{text_units};
ghost use Rattle.icu_char16trie.specs.UnitMap.{value_of};
ghost use Rattle.icu_char16trie_builder.specs.Entries.{with_entry};
ghost use Rattle.ucptrie_words.specs.Words.{AreWords, HasFault, IsAdded, IsFirstFault};
ghost use Rattle.ucptrie_words.specs.declared.error.LineError.{LineError};
ghost use Rattle.ucptrie_words.specs.declared.error.LineError.TheVariants.{LongKey, Repeated};
ghost use Rattle.ucptrie_words.specs.declared.error.WordsError.TheVariants.{Line, Memory};

use crate::error::{LineError, WordsError};
use crate::line::{Word, word_of};
use icu_char16trie_builder::builder::Char16TrieBuilder;
use icu_char16trie_builder::error::AddError;
use std::alloc::Global;
use ucptab_table::input::first_line;

/// Adds the word of line `number`.
fn add_word(builder: &mut Char16TrieBuilder, number: u64, word: Word<'_>) -> Result<(), WordsError>
    ensures added { let units = text_units word.entry.key.now in
        OnOk result ((length units ≤ 65535) × IsNone (value_of builder.old units)
        × (builder.new ≡ with_entry units word.entry.value builder.old)) }
    ensures err { let units = text_units word.entry.key.now in
        IfErr result (λ e. (e ≡ Memory) ⊎ ((e ≡ Line number LongKey) × (65535 < length units))
        ⊎ ((e ≡ Line number Repeated) × IsSome (value_of builder.old units))) }
{
    match builder.add_str(word.key, word.value) {
        Ok(()) => Ok(()),
        Err(AddError::KeyTooLong) => Err(WordsError::Line(number, LineError::LongKey)),
        Err(AddError::Duplicate) => Err(WordsError::Line(number, LineError::Repeated)),
        Err(AddError::Memory) => Err(WordsError::Memory),
    }
}

/// Adds the word of a line, if it has one. The line has this number.
fn add_line(builder: &mut Char16TrieBuilder, number: u64, line: &[u8]) -> Result<(), WordsError>
    ensures added { OnOk result (IsAdded builder.old line.now builder.new) }
    ensures err { IfErr result (λ e. (e ≡ Memory) ⊎ ((f : LineError) × (e ≡ Line number f)
        × HasFault builder.old line.now f)) }
{
    match word_of(line) {
        Ok(None) => Ok(()),
        Ok(Some(word)) => add_word(builder, number, word),
        Err(fault) => Err(WordsError::Line(number, fault)),
    }
}

/// Reads a word list, and returns a builder with exactly its entries. A key becomes its units in
/// UTF-16.
///
/// Lines end in LF or CR LF. The words may be in any order.
///
/// # Errors
/// Returns [`WordsError::Line`] for the first line that has a fault or repeats a key, counted from
/// 1, and [`WordsError::Memory`] if an allocation fails.
pub fn read_words(alloc: Global, input: &[u8]) -> Result<Char16TrieBuilder, WordsError>
    ensures ok { IfOk result (λ builder. AreWords (lines input.now) builder) }
    ensures line { (k : ℕ) (f : LineError) → IfErr result (λ e. e ≡ Line k f
        → IsFirstFault input.now k f) }
    ensures no_other { IfErr result (λ e. (e ≡ Memory) ⊎ ((k : ℕ) × ((f : LineError)
        × (e ≡ Line k f)))) }
{
    let mut builder = Char16TrieBuilder::new(alloc);
    let mut number = 0u64;
    let mut rest = input;
    while let Some((line, after)) = first_line(rest) {
        number += 1;
        rest = after;
        add_line(&mut builder, number, line)?;
    }
    Ok(builder)
}
