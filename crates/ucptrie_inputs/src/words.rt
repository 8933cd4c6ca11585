//! Words of a command, as a shell reads them.
use std::alloc::AllocError;

/// Returns whether a shell reads the word as it is.
fn is_bare(word: &str) -> bool {
    for byte in word.as_bytes() {
        if !(byte.is_ascii_alphanumeric() || b"-_./:=,+@%".contains(byte)) {
            return false;
        }
    }
    !word.is_empty()
}

/// Returns whether a comment's line may have the character: it does not end the line, and does not
/// show it in another order, of which compilers warn.
fn fits_comment(c: char) -> bool {
    !c.is_control() && !matches!(c, '\u{202A}'..='\u{202E}' | '\u{2066}'..='\u{2069}')
}

/// Appends a character of a comment's line, or `?` if it may not have it.
pub fn push_in_line(text: &mut String, c: char) -> Result<(), AllocError> {
    text.push(if fits_comment(c) { c } else { '?' })
}

/// Appends a word of a command, between quotes if a shell would not read it as it is.
pub fn push_word(text: &mut String, word: &str) -> Result<(), AllocError> {
    if is_bare(word) {
        return text.push_str(word);
    }
    text.push('\'')?;
    for c in word.chars() {
        if c == '\'' {
            text.push_str("'\\''")?;
        } else {
            push_in_line(text, c)?;
        }
    }
    text.push('\'')
}
