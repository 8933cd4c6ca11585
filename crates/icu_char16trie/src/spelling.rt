//! The key of an entry as text, while it grows.
ghost use Rattle.icu_zerovec.specs.Slice.{slice_values};
ghost use Rattle.std.specs.Prelude.{◌≡◌, ℕ, ◌+◌, ◌^◌, ◌<◌, ◌≤◌, ◌⊎◌, ◌++◌, List, [], ◌∷◌, take, drop, length, string_bytes, unwrap_or, MatchOption, OnOk, Some, None};
ghost use Rattle.std.specs.Char.{encode_utf8};
ghost use Rattle.std.specs.Char.Utf16.{lone_unit_char, surrogate_pair_char};
ghost use Rattle.std.specs.Str.{IsCharBoundary};

use icu_zerovec::ZeroSlice;
use std::alloc::{AllocError, Global};

/// A lead surrogate, the first unit of a surrogate pair.
#[derive(Clone, Copy, Debug)]
pub(crate) struct LeadSurrogate {
    pub unit: u16,
    ghost in_range: { (0xD800 ≤ unit) × (unit < 0xDC00) },
}

/// A point to which a spelling can be cut back.
#[derive(Clone, Copy, Debug)]
pub(crate) struct Mark {
    /// The length of the text at that point, in bytes.
    pub len: usize,
    /// The lead surrogate that was held at that point.
    pub held: Option<LeadSurrogate>,
}

/// The text of a key whose units come one by one. A lead surrogate is held until the next unit
/// shows whether the two are a pair.
#[derive(Debug, Drop)]
pub(crate) struct Spelling {
    pub text: String,
    pub held: Option<LeadSurrogate>,
}

/// Returns the unit if it is a lead surrogate.
#[inline(always)]
fn lead_surrogate(unit: u16) -> Option<LeadSurrogate>
    ensures { MatchOption result (unit < 0xD800 ⊎ 0xDC00 ≤ unit) (λ lead. lead.unit ≡ unit) }
{
    if !(0xD800..0xDC00).contains(&unit) {
        return None;
    }
    Some(LeadSurrogate { unit })
}

/// Returns the character of a unit that is in no pair: U+FFFD for a surrogate.
#[inline(always)]
fn lone_char(unit: u16) -> char
    ensures { result ≡ unwrap_or (lone_unit_char unit) 0xFFFD }
{
    char::from_u32(u32::from(unit)).unwrap_or(char::REPLACEMENT_CHARACTER)
}

/// Returns the character of a lead surrogate and the unit after it, if they are a pair.
#[inline(always)]
fn pair_char(lead: LeadSurrogate, unit: u16) -> Option<char>
    ensures { MatchOption result (unit < 0xDC00 ⊎ 0xE000 ≤ unit)
        (λ c. (0xDC00 ≤ unit) × (unit < 0xE000) × (c ≡ surrogate_pair_char lead.unit unit)) }
{
    if !(0xDC00..0xE000).contains(&unit) {
        return None;
    }
    char::from_u32(0x1_0000 + (u32::from(lead.unit - 0xD800) << 10) + u32::from(unit - 0xDC00))
}

impl Spelling {
    ghost use Rattle.icu_char16trie.specs.Inside.Opening.{SpellsOn};

    /// Creates the spelling of the empty key.
    pub(crate) fn new(alloc: Global) -> Self
        ensures text { string_bytes result.text ≡ [] }
        ensures held { result.held ≡ None }
    {
        Spelling {
            text: String::new(alloc),
            held: None,
        }
    }

    /// Appends a unit when no lead surrogate is held.
    #[inline(always)]
    fn push_next(&mut self, unit: u16) -> Result<(), AllocError>
        requires { self.old.held ≡ None }
        ensures { OnOk result (SpellsOn self.old (unit ∷ []) self.new) }
    {
        if unit < 0x80 {
            self.text.push(char::from(unit as u8))?;
            return Ok(());
        }
        if let Some(lead) = lead_surrogate(unit) {
            self.held = Some(lead);
            return Ok(());
        }
        self.text.push(lone_char(unit))?;
        Ok(())
    }

    /// Appends a unit after a held lead surrogate with which it is no pair.
    #[tactic(auto, using(crate::proofs::SpellingLemmas::on_apart))]
    #[cold]
    #[inline(never)]
    fn push_apart(&mut self, _lead: LeadSurrogate, unit: u16) -> Result<(), AllocError>
        requires held { self.old.held ≡ Some _lead }
        requires apart { unit < 0xDC00 ⊎ 0xE000 ≤ unit }
        ensures { OnOk result (SpellsOn self.old (unit ∷ []) self.new) }
    {
        self.held = None;
        self.text.push(char::REPLACEMENT_CHARACTER)?;
        self.push_next(unit)?;
        Ok(())
    }

    /// Appends a unit after a held lead surrogate.
    #[inline(always)]
    fn push_after(&mut self, lead: LeadSurrogate, unit: u16) -> Result<(), AllocError>
        requires { self.old.held ≡ Some lead }
        ensures { OnOk result (SpellsOn self.old (unit ∷ []) self.new) }
    {
        if let Some(c) = pair_char(lead, unit) {
            self.held = None;
            self.text.push(c)?;
            return Ok(());
        }
        self.push_apart(lead, unit)?;
        Ok(())
    }

    /// Appends a unit.
    #[inline(always)]
    pub(crate) fn push(&mut self, unit: u16) -> Result<(), AllocError>
        ensures { OnOk result (SpellsOn self.old (unit ∷ []) self.new) }
    {
        let Some(lead) = self.held else {
            self.push_next(unit)?;
            return Ok(());
        };
        self.push_after(lead, unit)?;
        Ok(())
    }

    /// Appends the `count` units at `place`.
    pub(crate) fn push_run(
        &mut self,
        units: ZeroSlice<'_, u16>,
        place: usize,
        count: usize,
    ) -> Result<(), AllocError>
        requires far { place < 2 ^ 63 }
        requires short { count ≤ 0x100 }
        requires within { place + count ≤ length (slice_values units) }
        ensures { OnOk result
            (SpellsOn self.old (take count (drop place (slice_values units.entry))) self.new) }
    {
        for i in 0..count {
            self.push(units.at(place + i))?;
        }
        Ok(())
    }

    /// Returns a mark of the current state.
    pub(crate) fn mark(&self) -> Mark
        ensures len { result.len ≡ length (string_bytes self.now.text) }
        ensures held { result.held ≡ self.now.held }
    {
        Mark {
            len: self.text.len(),
            held: self.held,
        }
    }

    /// Cuts the spelling back to what it was at the mark.
    pub(crate) fn cut_to(&mut self, mark: Mark)
        requires { IsCharBoundary (string_bytes self.old.text) mark.len }
        ensures text { string_bytes self.new.text ≡ take mark.len (string_bytes self.old.text) }
        ensures held { self.new.held ≡ mark.held }
    {
        self.text.truncate(mark.len);
        self.held = mark.held;
    }
}
