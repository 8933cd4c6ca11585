//! Messages about lines: where a line is, what was expected of it, and the line itself.
ghost use Rattle.std.specs.Prelude.{◌≡◌, ◌<◌, ◌≤◌, ◌-◌, ◌++◌, [], length, take, IfOk, IsTrue, unwrap_or, slice_get, string_bytes};
ghost use Rattle.std.specs.List.{flat_map};
ghost use Rattle.std.specs.Str.Lines.{lines};
ghost use Rattle.ucptab_table.specs.Messages.{is_plain, line_message_text, quoted, row_message_text, shown_byte};

use crate::error::RowError;
use crate::hint::hint;
use crate::input::line_at;
use std::alloc::{AllocError, Global};

/// How many bytes of a line a message shows.
const SHOWN: usize = 60;

/// Returns whether a byte is shown as itself: whether it is a printing ASCII character other than
/// `"` and `\`.
#[tactic(auto, unfolding(crate::specs::Messages::is_plain))]
fn is_plain(byte: u8) -> bool
    ensures value { result ≡ is_plain byte }
    ensures ascii { IsTrue result → byte < 128 }
{
    (0x20..=0x7e).contains(&byte) && byte != b'"' && byte != b'\\'
}

/// Appends a byte: itself, or `\x` and two hexadecimal digits.
#[tactic(auto, using(crate::proofs::Printed::byte_written), unfolding(crate::specs::Messages::shown_byte))]
fn push_shown(text: &mut String, byte: u8) -> Result<(), AllocError>
    ensures { IfOk result (λ _. string_bytes text.new
        ≡ string_bytes text.old ++ shown_byte byte) }
{
    if is_plain(byte) {
        text.push(char::from(byte))
    } else {
        write!(text, "\\x{byte:02x}")
    }
}

/// Appends the bytes as they are shown.
fn push_bytes(text: &mut String, bytes: &[u8]) -> Result<(), AllocError>
    ensures { IfOk result (λ _. string_bytes text.new
        ≡ string_bytes text.old ++ flat_map shown_byte bytes.now) }
{
    for byte in bytes {
        push_shown(text, *byte)?;
    }
    Ok(())
}

/// Returns the first bytes of a line that has so many.
fn start_of(line: &[u8], count: usize) -> &[u8]
    requires { count ≤ length line.now }
    ensures { result.now ≡ take count line.now }
{
    &line[..count]
}

/// Appends a line between quotes: its first 60 bytes, and `..` after the quote if it has more.
///
/// # Errors
/// Returns [`AllocError`] if an allocation fails.
#[tactic(auto, unfolding(crate::specs::Messages::quoted))]
pub fn push_quoted(text: &mut String, line: &[u8]) -> Result<(), AllocError>
    ensures { IfOk result (λ _. string_bytes text.new ≡ string_bytes text.old ++ quoted line.now) }
{
    text.push('"')?;
    if line.len() > SHOWN {
        push_bytes(text, start_of(line, SHOWN))?;
        text.push_str("\"..")
    } else {
        push_bytes(text, line)?;
        text.push('"')
    }
}

/// Returns the message about a line: `INPUT:NUMBER: expected EXPECTED, found "LINE"`.
///
/// # Errors
/// Returns [`AllocError`] if an allocation fails.
pub fn line_message(
    alloc: Global,
    input: &str,
    number: u64,
    expected: &str,
    line: &[u8],
) -> Result<String, AllocError>
    ensures { IfOk result (λ text. string_bytes text
        ≡ line_message_text input.now number expected.now line.now) }
{
    let mut text = String::new(alloc);
    write!(text, "{input}:{number}: expected {expected}, found ")?;
    push_quoted(&mut text, line)?;
    Ok(text)
}

/// Returns the message about a line that has this fault as a row: [`line_message`] of what is
/// expected. If the line does not have the form of a row, the message ends with `: HINT`.
///
/// # Errors
/// Returns [`AllocError`] if an allocation fails.
pub fn row_line_message(
    alloc: Global,
    input: &str,
    number: u64,
    fault: RowError,
    line: &[u8],
) -> Result<String, AllocError>
    ensures { IfOk result (λ text. string_bytes text
        ≡ row_message_text input.now number fault line.now) }
{
    let mut text = line_message(alloc, input, number, fault.expected(), line)?;
    if matches!(fault, RowError::NotARow) {
        text.push_str(": ")?;
        text.push_str(hint(line))?;
    }
    Ok(text)
}

/// Returns the message about the fault of the row with this number, counted from 1.
///
/// # Errors
/// Returns [`AllocError`] if an allocation fails.
pub fn row_message(
    alloc: Global,
    input: &str,
    bytes: &[u8],
    number: u64,
    fault: RowError,
) -> Result<String, AllocError>
    ensures { 0 < number → IfOk result (λ text. string_bytes text
        ≡ row_message_text input.now number fault
        (unwrap_or (slice_get (lines bytes.now) (number - 1)) [])) }
{
    let line = line_at(bytes, number).unwrap_or(&[]);
    row_line_message(alloc, input, number, fault, line)
}
