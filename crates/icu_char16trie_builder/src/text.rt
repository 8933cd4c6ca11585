//! The units of a text in UTF-16.
ghost use Rattle.std.specs.Prelude.{◌≡◌, ◌↔◌, ◌<◌, ◌++◌, length, IsTrue, IfOk, OnOk};
ghost use Rattle.std.specs.Char.Escape.{encode_utf16};
ghost use Rattle.icu_char16trie.specs.Matches.{text_units};

use crate::builder::LONGEST_KEY;
use std::alloc::{AllocError, Global};

/// Returns true if a text has more units than a key may have.
pub(crate) fn is_too_long(text: &str) -> bool
    ensures { IsTrue result ↔ (65535 < length (text_units text.now)) }
{
    let mut count = 0;
    for c in text.chars() {
        count += c.len_utf16();
        if count > LONGEST_KEY {
            return true;
        }
    }
    false
}

/// Appends the units of a character.
fn push_char(units: &mut Vec<u16>, c: char) -> Result<(), AllocError>
    ensures { OnOk result (units.new.items ≡ units.old.items ++ encode_utf16 c) }
{
    let number = c as u32;
    if let Ok(unit) = u16::try_from(number) {
        units.push(unit)?;
        return Ok(());
    }
    let supplementary = number - 0x1_0000;
    units.push((0xD800 + supplementary / 0x400) as u16)?;
    units.push((0xDC00 + supplementary % 0x400) as u16)?;
    Ok(())
}

/// Returns the units of a text.
pub(crate) fn units_of_text(alloc: Global, text: &str) -> Result<Vec<u16>, AllocError>
    ensures { IfOk result (λ units. units.items ≡ text_units text.now) }
{
    let mut units = Vec::with_capacity(alloc, text.len())?;
    for c in text.chars() {
        push_char(&mut units, c)?;
    }
    Ok(units)
}
