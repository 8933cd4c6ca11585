//! Which ASCII characters a set contains.
ghost use Rattle.std.specs.Prelude.{◌≡◌, ℕ, ◌<◌, ◌≤◌, ◌||◌, false, slice_index_or};
ghost use Rattle.icu_invlist.specs.InversionList.{between, holds};

use icu_invlist::codepointinvlist::CodePointInversionList;

/// Records that the set contains the characters `from..to`.
#[inline(always)]
fn mark(ascii: &mut [bool; 128], from: u32, to: u32)
    requires order { from ≤ to }
    requires within { to ≤ 128 }
    ensures { (c : ℕ) → c < 128 → slice_index_or ascii.new c false
        ≡ (slice_index_or ascii.old c false || between from to c) }
{
    for c in from..to {
        ascii[c as usize] = true;
    }
}

/// Returns whether the set contains each ASCII character.
pub(crate) fn ascii_of(set: &CodePointInversionList<'_>) -> [bool; 128]
    ensures { (c : ℕ) → c < 128 → slice_index_or result c false ≡ holds set.now c }
{
    let mut ascii = [false; 128];
    for range in set.iter_ranges() {
        if *range.start() >= 128 {
            return ascii;
        }
        mark(&mut ascii, *range.start(), (*range.end() + 1).min(128));
    }
    ascii
}
