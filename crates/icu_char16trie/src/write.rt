//! Looks up text that is written to a cursor.
ghost use Rattle.std.specs.Prelude.{◌≡◌, Ok, IsOk};
ghost use Rattle.std.specs.Char.Escape.{encode_utf16};
ghost use Rattle.std.specs.List.{flat_map};
ghost use Rattle.std.specs.Str.{chars};
ghost use Rattle.icu_char16trie.specs.Passed.{Passes};

use crate::cursor::Char16TrieCursor;
use std::fmt;

/// Advances the cursor by the UTF-16 units of the written text. Every write returns `Ok`.
impl<'a> fmt::Write for Char16TrieCursor<'a> {
    ghost write_str_gives = { λ old bytes new. Passes old
        (flat_map encode_utf16 (chars bytes)) new };

    fn write_str(&mut self, s: &str) -> fmt::Result
        ensures ok { IsOk result → Passes self.old (flat_map encode_utf16 (chars s.now)) self.new }
        ensures always { result ≡ Ok tt }
    {
        for c in s.chars() {
            self.step(c);
        }
        Ok(())
    }
}
