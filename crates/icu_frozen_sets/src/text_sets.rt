//! Frozen sets of code points and strings.
ghost use Rattle.std.specs.Prelude.{◌≡◌, ℕ, ◌<◌, ◌≤◌, ◌↔◌, List, IfOk, IsTrue, false};
ghost use Rattle.std.specs.Cmp.{partial_equiv_from_equiv};
ghost use Rattle.icu_zerovec.specs.CodePoints.{code_point_limit};
ghost use Rattle.icu_invlist.specs.InversionList.{holds};
ghost use Rattle.icu_text_sets.specs.TextSet.{is_among, member, same_set};
ghost use Rattle.icu_text_sets.specs.TextSetLaws.{same_set_equiv};

use crate::frozen::FrozenCodePointSet;
use icu_text_sets::codepointinvliststringlist::CodePointInversionListAndStringList;
use icu_zerovec::MemoryError;
use std::alloc::Global;
use std::marker::Model;

/// A set of code points and strings for many look-ups (ICU: a frozen UnicodeSet with strings). It
/// stores the set and a frozen set of its code points.
///
/// ```
/// let words = FrozenCodePointSetAndStrings::freeze(alloc, &set)?;
/// // words.contains_str("abc") is set.contains_str("abc"), and so of every other text
/// ```
///
/// # Contract
/// In contracts, a frozen set is the boundaries and the strings of the set.
#[derive(Debug, Drop)]
pub struct FrozenCodePointSetAndStrings {
    set: CodePointInversionListAndStringList<'static>,
    code_points: FrozenCodePointSet,
}

impl Model for FrozenCodePointSetAndStrings {
    ghost use Rattle.std.specs.Prelude.{◌≡◌};
    ghost use Rattle.icu_text_sets.specs.TextSet.{TextSet};

    ghost Value = { TextSet };

    ghost view = { λ a. a.set };

    ghost invariant = { λ a. a.code_points ≡ a.set.code_points };
}

/// Constructors and copies.
impl FrozenCodePointSetAndStrings {
    /// Returns a frozen set with the code points and the strings of `set` (ICU:
    /// `UnicodeSet::freeze`). It has its own copy of both, and `set` is unchanged.
    ///
    /// # Errors
    /// Returns `MemoryError` if an allocation fails.
    pub fn freeze(
        alloc: Global,
        set: &CodePointInversionListAndStringList<'_>,
    ) -> Result<FrozenCodePointSetAndStrings, MemoryError>
        ensures ok { IfOk result (λ s. s ≡ set.now) }
    {
        let code_points = FrozenCodePointSet::freeze(alloc, set.code_points())?;
        Ok(FrozenCodePointSetAndStrings {
            set: set.try_clone(alloc)?,
            code_points,
        })
    }

    /// Returns an equal frozen set. This copies the bits and does not compute them again.
    ///
    /// # Errors
    /// Returns `MemoryError` if an allocation fails.
    pub fn try_clone(&self, alloc: Global) -> Result<FrozenCodePointSetAndStrings, MemoryError>
        ensures ok { IfOk result (λ s. s ≡ self.now) }
    {
        let code_points = self.code_points.try_clone(alloc)?;
        Ok(FrozenCodePointSetAndStrings {
            set: self.set.try_clone(alloc)?,
            code_points,
        })
    }
}

/// Queries.
impl FrozenCodePointSetAndStrings {
    /// Returns a reference to the set that was frozen.
    pub fn as_set(&self) -> &CodePointInversionListAndStringList<'static>
        ensures set { result.now ≡ self.now }
    {
        &self.set
    }

    /// Returns true if the set contains the text: as a code point if it has exactly one character,
    /// and otherwise as a string.
    ///
    /// A text of one character takes no search.
    pub fn contains_str(&self, text: &str) -> bool
        ensures { result ≡ member self.now text.now }
    {
        let mut chars = text.chars();
        match (chars.next(), chars.next()) {
            (Some(c), None) => self.code_points.contains(c),
            _ => self.set.contains_str(text),
        }
    }

    /// Returns true if the set contains the code point `cp`. Returns false for any number above
    /// 0x10FFFF.
    #[inline(always)]
    pub fn contains32(&self, cp: u32) -> bool
        ensures held { result ≡ holds self.now.code_points cp }
        ensures far { code_point_limit ≤ cp → result ≡ false }
    {
        self.code_points.contains32(cp)
    }

    /// Returns true if the set contains the character `ch`.
    #[inline(always)]
    pub fn contains(&self, ch: char) -> bool
        ensures { result ≡ holds self.now.code_points ch }
    {
        self.code_points.contains(ch)
    }
}

/// Compares the sets, because the set determines the bits.
impl PartialEq for FrozenCodePointSetAndStrings {
    ghost eq = { same_set };

    ghost laws = { partial_equiv_from_equiv same_set_equiv };

    fn eq(&self, other: &Self) -> bool
        ensures value { result ≡ same_set self.now other.now }
        ensures same { IsTrue result ↔ (self.now ≡ other.now) }
        ensures members { IsTrue result
            ↔ (((c : ℕ) → c < code_point_limit
            → holds self.now.code_points c ≡ holds other.now.code_points c)
            × ((text : List ℕ)
            → is_among self.now.strings text ≡ is_among other.now.strings text)) }
    {
        self.set == other.set
    }
}

impl Eq for FrozenCodePointSetAndStrings {
    ghost laws = { same_set_equiv };
}
