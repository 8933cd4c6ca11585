//! Conversion of sets to and from JSON.
ghost use Rattle.std.specs.Prelude.{◌≡◌, ℕ, ◌+◌, ◌++◌, List, [], ◌∷◌, Ok, IfOk, IfErr, OnOk, MatchResult};
ghost use Rattle.serde_json.specs.View.{view, items_view};
ghost use Rattle.serde_json.specs.Data.{Items, array};
ghost use Rattle.icu_invlist.specs.InversionList.{IsValid};
ghost use Rattle.icu_invlist.specs.SetJson.{SayEnds, IsSaid, IsRefusedJson, SaysNone, ends_in, ends_of, written_of};
ghost use Rattle.icu_invlist.specs.Inside.GivenEnds.{GivesEnds};
ghost use Rattle.icu_invlist.specs.declared.codepointinvlist.error.SetJsonError.TheVariants.{Memory};

use crate::codepointinvlist::cpinvlist::CodePointInversionList;
use crate::codepointinvlist::error::SetJsonError;
use crate::codepointinvlist::utils::is_valid_slice;
use crate::spelling::{range_of, text_of_range};
use icu_zerovec::MemoryError;
use serde_json::Value;
use std::alloc::Global;

/// Appends the two boundaries of a range.
fn push_two(ends: &mut Vec<u32>, start: u32, end: u32) -> Result<(), MemoryError>
    ensures { OnOk result (ends.new.items ≡ (ends.old.items ++ start ∷ []) ++ end ∷ []) }
{
    ends.push(start)?;
    ends.push(end)?;
    Ok(())
}

/// Returns the boundaries of the ranges that the items spell, in the order of the items.
fn ends_of_items(alloc: Global, items: &[Value]) -> Result<Vec<u32>, SetJsonError>
    ensures { GivesEnds result (ends_in (items_view items.now)) }
{
    let mut ends = Vec::new(alloc);
    for (i, item) in items.iter().enumerate() {
        let Some(text) = item.as_str() else {
            return Err(SetJsonError::NotAString(i));
        };
        let Some((first, last)) = range_of(text) else {
            return Err(SetJsonError::NotARange(i));
        };
        let Ok(()) = push_two(&mut ends, first, last + 1) else {
            return Err(SetJsonError::Memory);
        };
    }
    Ok(ends)
}

/// Returns the boundaries of the ranges that a JSON value spells.
fn ends_of_value(alloc: Global, value: &Value) -> Result<Vec<u32>, SetJsonError>
    ensures { GivesEnds result (ends_of (view value.now)) }
{
    let Some(items) = value.as_array() else {
        return Err(SetJsonError::NotAnArray);
    };
    let ends = ends_of_items(alloc, items)?;
    Ok(ends)
}

impl<'data> CodePointInversionList<'data> {
    /// Returns the set as a JSON array with one string for each range, in ascending order: `["A-Z",
    /// "_"]`.
    ///
    /// A range of one code point is that character; a longer one is its first and its last
    /// character with `-` between them. A surrogate is written as `U+` and four upper-case
    /// hexadecimal digits.
    ///
    /// # Errors
    /// Returns `MemoryError` if an allocation fails.
    pub fn to_json(&self, alloc: Global) -> Result<Value, MemoryError>
        ensures ok { IfOk result (λ v. view v ≡ written_of self.now) }
        ensures read_back { IfOk result (λ v. ends_of (view v) ≡ Ok self.now) }
        ensures valid { IsValid self.now }
    {
        let count = self.count();
        let mut items = Vec::with_capacity(alloc, count / 2)?;
        let mut i = 0;
        while i < count {
            let text = text_of_range(alloc, self.end_at(i), self.end_at(i + 1) - 1)?;
            items.push(Value::String(text))?;
            i += 2;
        }
        Ok(Value::Array(items))
    }

    /// Returns the set that a JSON array of strings spells. Each string is a range as
    /// [`to_json`](Self::to_json) writes it: `["A-Z", "_"]`.
    ///
    /// Any code point that fits may also be spelled as `U+` and exactly four hexadecimal digits of
    /// either case.
    ///
    /// # Errors
    /// - `SetJsonError::NotAnArray` if `value` is not an array.
    /// - `SetJsonError::NotAString` if the first bad item is not a string, with the index of that
    ///   item.
    /// - `SetJsonError::NotARange` if the first bad item is a string that does not spell a range,
    ///   with the index of that item.
    /// - `SetJsonError::InvalidSet` if a range is reversed, or if the ranges are not ascending with
    ///   gaps between them.
    /// - `SetJsonError::Memory` if an allocation fails.
    pub fn from_json(
        alloc: Global,
        value: &Value,
    ) -> Result<CodePointInversionList<'static>, SetJsonError>
        ensures ok { IfOk result
            (λ s. (ends_of (view value.now) ≡ Ok s) × IsSaid (view value.now) s × IsValid s) }
        ensures only { (items : Items) (ends : List ℕ) → view value.now ≡ array items
            → SayEnds items ends → IsValid ends
            → MatchResult result (λ s. s ≡ ends) (λ e. e ≡ Memory) }
        ensures err { IfErr result (IsRefusedJson (view value.now)) }
        ensures says_none { IfErr result (SaysNone (view value.now)) }
    {
        let ends = ends_of_value(alloc, value)?;
        if !is_valid_slice(&ends) {
            return Err(SetJsonError::InvalidSet);
        }
        let Ok(set) = CodePointInversionList::from_valid_slice(alloc, &ends) else {
            return Err(SetJsonError::Memory);
        };
        Ok(set)
    }
}
