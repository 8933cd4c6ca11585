//! Keys in UTF-8, transcoded to UTF-16.
ghost use Rattle.std.specs.Prelude.{◌≡◌, ◌++◌, ◌∷◌, [], ◌≤◌, All, IfOk, OnOk, length, sum};
ghost use Rattle.std.specs.Char.Escape.{encode_utf16};
ghost use Rattle.std.specs.Str.{IsUtf8};
ghost use Rattle.icu_char16trie.specs.Matches.{text_units};
ghost use Rattle.icu_collections_c.specs.UnitTexts.{key_lengths, key_units, keys_of};

use std::alloc::{AllocError, Global};

/// Keys in UTF-16: their units, one after another, and how many units each key has.
#[derive(Drop)]
pub(crate) struct UnitKeys {
    pub units: Vec<u16>,
    pub lengths: Vec<usize>,
}

/// Appends the units of a character.
fn push_char(units: &mut Vec<u16>, c: char) -> Result<(), AllocError>
    ensures { OnOk result (units.new.items ≡ units.old.items ++ encode_utf16 c) }
{
    let number = c as u32;
    if let Ok(unit) = u16::try_from(number) {
        units.push(unit)?;
        return Ok(());
    }
    let supplementary = number - 0x1_0000;
    units.push((0xD800 + supplementary / 0x400) as u16)?;
    units.push((0xDC00 + supplementary % 0x400) as u16)?;
    Ok(())
}

/// Appends the units of a text.
fn push_text(units: &mut Vec<u16>, text: &str) -> Result<(), AllocError>
    ensures { OnOk result (units.new.items ≡ units.old.items ++ text_units text.now) }
{
    for c in text.chars() {
        push_char(units, c)?;
    }
    Ok(())
}

impl UnitKeys {
    /// Appends a key.
    fn push(&mut self, key: &[u8]) -> Result<(), AllocError>
        requires { IsUtf8 key.now }
        ensures units { OnOk result
            (self.new.units.items ≡ self.old.units.items ++ text_units key.now) }
        ensures lengths { OnOk result (self.new.lengths.items
            ≡ self.old.lengths.items ++ length (text_units key.now) ∷ []) }
    {
        let Ok(text) = str::from_utf8(key) else {
            unreachable!();
        };
        let before = self.units.len();
        push_text(&mut self.units, text)?;
        self.lengths.push(self.units.len() - before)?;
        Ok(())
    }
}

/// Transcodes the keys, which are UTF-8. Each one is the next `length` of the bytes.
pub(crate) fn transcoded(
    alloc: Global,
    keys: &[u8],
    lengths: &[usize],
) -> Result<UnitKeys, AllocError>
    requires given { sum lengths.now ≤ length keys.now }
    requires texts { All IsUtf8 (keys_of keys.now lengths.now) }
    ensures units { IfOk result
        (λ given. given.units.items ≡ key_units (keys_of keys.now lengths.now)) }
    ensures lengths { IfOk result
        (λ given. given.lengths.items ≡ key_lengths (keys_of keys.now lengths.now)) }
{
    let mut given = UnitKeys {
        units: Vec::new(alloc),
        lengths: Vec::new(alloc),
    };
    let mut rest = keys;
    for length in lengths {
        let (key, after) = rest.split_at(*length);
        given.push(key)?;
        rest = after;
    }
    Ok(given)
}
