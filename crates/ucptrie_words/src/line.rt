//! What one line says.
ghost use Rattle.std.specs.Prelude.{◌≡◌, ◌≤◌, false, length, MatchOption, true};
ghost use Rattle.std.specs.Option.{option_map};
ghost use Rattle.std.specs.Str.{is_utf8};
ghost use Rattle.ucptrie_words.specs.Lines.{cut_at_last, is_silent, shown, shown_word, signed, signed_number, word_in, word_of};

use crate::error::LineError;
use std::str;
use ucptab_table::digits::decimal_number;
use ucptab_table::rows::trimmed;

/// A word of a list.
#[derive(Clone, Copy, Debug)]
pub struct Word<'a> {
    /// The key, which is not empty and has no blank at an end.
    pub key: &'a str,
    /// The value.
    pub value: i32,
}

/// Returns the bytes as text if they are UTF-8.
fn text_of(bytes: &[u8]) -> Option<&str>
    ensures { MatchOption result (is_utf8 bytes.now ≡ false)
        (λ text. (text.now ≡ bytes.now) × (is_utf8 bytes.now ≡ true)) }
{
    match str::from_utf8(bytes) {
        Ok(text) => Some(text),
        Err(_) => None,
    }
}

/// Returns the number, or its negative, if it has 32 bits with the sign.
fn signed(is_negative: bool, number: u64) -> Option<i32>
    ensures { result ≡ signed is_negative number }
{
    if is_negative {
        if number <= 0x8000_0000 {
            return Some(-(number as i64) as i32);
        }
        return None;
    }
    if number < 0x8000_0000 {
        Some(number as i32)
    } else {
        None
    }
}

/// Returns the number that 1 to 10 decimal digits write, with or without a minus sign before them,
/// if it has 32 bits with the sign.
#[tactic(auto, unfolding(crate::specs::Lines::signed_number))]
fn signed_number(bytes: &[u8]) -> Option<i32>
    ensures { result ≡ signed_number bytes.now }
{
    if let [b'-', digits @ ..] = bytes {
        let number = decimal_number(digits)?;
        return signed(true, number);
    }
    let number = decimal_number(bytes)?;
    signed(false, number)
}

/// Returns the bytes before and after the last byte that is `mark`, or `None` if there is none.
#[tactic(auto, unfolding(crate::specs::Lines::cut_at_last))]
fn cut_at_last(mark: u8, bytes: &[u8]) -> Option<(&[u8], &[u8])>
    ensures { option_map (λ cut. (cut.0.now, cut.1.now)) result ≡ cut_at_last mark bytes.now }
{
    let mut place = bytes.len();
    while place > 0 {
        if bytes[place - 1] == mark {
            return Some((&bytes[..place - 1], &bytes[place..]));
        }
        place -= 1;
    }
    None
}

/// Returns whether a line says nothing: it is empty or a comment.
pub(crate) fn is_silent(content: &[u8]) -> bool
    ensures { result ≡ is_silent content.now }
{
    match content.first() {
        Some(byte) => *byte == b'#',
        None => true,
    }
}

/// Returns the word of this key and this value.
#[tactic(auto, unfolding(crate::specs::Lines::word_in))]
fn word_in<'a>(key: &'a [u8], value: &[u8]) -> Result<Word<'a>, LineError>
    ensures { shown_word result ≡ word_in key.now value.now }
{
    if key.is_empty() {
        return Err(LineError::NoKey);
    }
    let Some(key) = text_of(key) else {
        return Err(LineError::NotUtf8);
    };
    if value.is_empty() {
        return Err(LineError::NoValue);
    }
    match signed_number(value) {
        Some(value) => Ok(Word { key, value }),
        None => Err(LineError::NotNumber),
    }
}

/// Returns the word of a line `KEY;VALUE`, or `None` if the line is blank or a comment.
///
/// The key is what is before the last `;`, and the value is what is after it, both without blanks
/// around them. A comment starts with `#`, after blanks or none.
///
/// # Errors
/// Returns what is wrong with the line, by the first of the tests in [`LineError`]. Never returns
/// [`LineError::LongKey`] or [`LineError::Repeated`].
#[tactic(auto, unfolding(crate::specs::Lines::word_of))]
pub fn word_of(line: &[u8]) -> Result<Option<Word<'_>>, LineError>
    ensures { shown result ≡ word_of line.now }
{
    let content = trimmed(line);
    if is_silent(content) {
        return Ok(None);
    }
    let Some((key, value)) = cut_at_last(b';', content) else {
        return Err(LineError::NoSeparator);
    };
    let word = word_in(trimmed(key), trimmed(value))?;
    Ok(Some(word))
}
