//! The mutable set of code points.
ghost use Rattle.std.specs.Prelude.{◌≡◌, ℕ, ◌+◌, ◌<◌, ◌≤◌, List, [], ◌∷◌, length, IfOk, OnOk, OnErr, IsTrue, ◌↔◌, nat_le, ◌==◌, if◌then◌else◌, false, not};
ghost use Rattle.icu_invlist.specs.Changes.{Changes};
ghost use Rattle.icu_zerovec.specs.CodePoints.{code_point_limit};
ghost use Rattle.icu_invlist.specs.InversionList.{IsValid, holds, between, Acts, either, without, both, one_of};

use crate::codepointinvlist::cpinvlist::CodePointInversionList;
use crate::codepointinvlist::range_of::RangeOf;
use crate::fill;
use crate::merge::{Difference, Intersection, SymmetricDifference, Union, change};
use icu_zerovec::{CODE_POINT_LIMIT, MemoryError};
use std::alloc::Global;
use std::marker::Model;

/// A mutable set of code points. [`build`](CodePointInversionListBuilder::build) turns it into a
/// [`CodePointInversionList`].
///
/// Changing a range edits the list of boundaries in place: the builder searches for the two borders
/// of the range and replaces the boundaries between them. Combining with another set merges both
/// lists into a new one.
///
/// If an allocation fails, the method returns `MemoryError` and leaves the set unchanged.
///
/// ```
/// let mut builder = CodePointInversionListBuilder::new(alloc);
/// builder.add_range('A'..='Z')?;
/// builder.remove_char('Q')?;
/// let set = builder.build()?;
/// // set.contains('P') is true, set.contains('Q') is false, and set.size() is 25
/// ```
///
/// # Contract
/// In contracts, a builder is the list of the set's boundaries.
#[derive(Debug, Drop)]
pub struct CodePointInversionListBuilder {
    alloc: Global,
    ends: Vec<u32>,
}

impl Model for CodePointInversionListBuilder {
    ghost use Rattle.std.specs.Prelude.{List, ℕ};
    ghost use Rattle.icu_invlist.specs.InversionList.{IsValid};

    ghost Value = { List ℕ };

    ghost view = { λ a. a.ends.items };

    ghost invariant = { λ a. IsValid a.ends.items };
}

impl CodePointInversionListBuilder {
    /// Returns a builder that holds the empty set, whose changes take their memory from `alloc`.
    /// This does not allocate.
    pub fn new(alloc: Global) -> Self
        ensures { result ≡ [] }
    {
        CodePointInversionListBuilder {
            alloc,
            ends: Vec::new(alloc),
        }
    }

    /// Returns true if the set contains no code points.
    pub fn is_empty(&self) -> bool
        ensures empty { IsTrue result ↔ (self.now ≡ []) }
        ensures valid { IsValid self.now }
    {
        self.ends.is_empty()
    }

    /// Returns the set as an inversion list, with its boundaries packed in three bytes each.
    ///
    /// # Errors
    /// Returns `MemoryError` if an allocation fails. The builder is dropped in any case.
    pub fn build(self) -> Result<CodePointInversionList<'static>, MemoryError>
        ensures ok { IfOk result (λ s. s ≡ self) }
    {
        if self.is_empty() {
            return Ok(CodePointInversionList::none());
        }
        CodePointInversionList::from_valid_slice(self.alloc, &self.ends)
    }

    /// Returns a copy of the builder, which holds an equal set.
    ///
    /// # Errors
    /// Returns `MemoryError` if an allocation fails.
    pub fn try_clone(&self) -> Result<Self, MemoryError>
        ensures ok { IfOk result (λ b. b ≡ self.now) }
    {
        Ok(CodePointInversionListBuilder {
            alloc: self.alloc,
            ends: Vec::from_slice(self.alloc, &self.ends)?,
        })
    }
}

/// Union: methods that add code points.
impl CodePointInversionListBuilder {
    /// Adds the character `c`.
    ///
    /// # Errors
    /// Returns `MemoryError` if an allocation fails. The set is then unchanged.
    pub fn add_char(&mut self, c: char) -> Result<(), MemoryError>
        ensures { Changes either self.old (λ n. n == c) self.new result }
    {
        let number = u32::from(c);
        fill::add(&mut self.ends, number, number + 1)
    }

    /// Adds the code point `c`. A number above 0x10FFFF is ignored.
    ///
    /// # Errors
    /// Returns `MemoryError` if an allocation fails. The set is then unchanged.
    pub fn add32(&mut self, c: u32) -> Result<(), MemoryError>
        ensures { Changes either self.old (λ n. n == c) self.new result }
    {
        fill::add(&mut self.ends, c, c.saturating_add(1))
    }

    /// Adds all code points in `range`: `'A'..='Z'` adds 26 letters. Surrogates between the start
    /// and the end are added too.
    ///
    /// `range` may be empty or reversed; it then adds nothing.
    ///
    /// # Errors
    /// Returns `MemoryError` if an allocation fails. The set is then unchanged.
    pub fn add_range<R: RangeOf<char>>(&mut self, range: R) -> Result<(), MemoryError>
        ensures { Changes either self.old (between (R.start range) (R.end range)) self.new result }
    {
        let (from, till) = range.deconstruct();
        fill::add(&mut self.ends, from, till)
    }

    /// Adds all code points in `range`.
    ///
    /// `range` may be empty or reversed; it then adds nothing. If its exclusive end is above
    /// 0x110000, the whole range is ignored: 0x50..=0x110000 adds nothing.
    ///
    /// # Errors
    /// Returns `MemoryError` if an allocation fails. The set is then unchanged.
    pub fn add_range32<R: RangeOf<u32>>(&mut self, range: R) -> Result<(), MemoryError>
        ensures { Changes either self.old
            (if nat_le (R.end range) code_point_limit then between (R.start range) (R.end range)
            else (λ _. false)) self.new result }
    {
        // Reading the field gives the proof the invariant: the set is valid.
        let _ = &self.ends;
        let (start, end) = range.deconstruct();
        if end > CODE_POINT_LIMIT {
            return Ok(());
        }
        fill::add(&mut self.ends, start, end)
    }

    /// Adds all code points in `set`.
    ///
    /// # Errors
    /// Returns `MemoryError` if an allocation fails. The builder is then unchanged.
    #[inline]
    pub fn add_set(&mut self, set: &CodePointInversionList<'_>) -> Result<(), MemoryError>
        ensures { Changes either self.old (holds set.now) self.new result }
    {
        // Reading the field gives the proof the invariant: the set is valid.
        let _ = &self.ends;
        if set.is_empty() {
            return Ok(());
        }
        change::<Union>(self.alloc, &mut self.ends, set)
    }
}

/// Difference: methods that remove code points.
impl CodePointInversionListBuilder {
    /// Removes the character `c`.
    ///
    /// # Errors
    /// Returns `MemoryError` if an allocation fails. The set is then unchanged.
    pub fn remove_char(&mut self, c: char) -> Result<(), MemoryError>
        ensures { Changes without self.old (λ n. n == c) self.new result }
    {
        let number = u32::from(c);
        fill::remove(&mut self.ends, number, number + 1)
    }

    /// Removes the code point `c`. A number above 0x10FFFF is ignored.
    ///
    /// # Errors
    /// Returns `MemoryError` if an allocation fails. The set is then unchanged.
    pub fn remove32(&mut self, c: u32) -> Result<(), MemoryError>
        ensures { Changes without self.old (λ n. n == c) self.new result }
    {
        fill::remove(&mut self.ends, c, c.saturating_add(1))
    }

    /// Removes all code points in `range`, including surrogates between its start and its end.
    ///
    /// `range` may be empty or reversed; it then removes nothing.
    ///
    /// # Errors
    /// Returns `MemoryError` if an allocation fails. The set is then unchanged. This allocates only
    /// if it splits a range of the set in two.
    pub fn remove_range<R: RangeOf<char>>(&mut self, range: R) -> Result<(), MemoryError>
        ensures { Changes without self.old (between (R.start range) (R.end range)) self.new result }
    {
        let (from, till) = range.deconstruct();
        fill::remove(&mut self.ends, from, till)
    }

    /// Removes all code points in `range`: `0..=u32::MAX` removes all.
    ///
    /// `range` may be empty or reversed; it then removes nothing.
    ///
    /// # Errors
    /// Returns `MemoryError` if an allocation fails. The set is then unchanged.
    pub fn remove_range32<R: RangeOf<u32>>(&mut self, range: R) -> Result<(), MemoryError>
        ensures { Changes without self.old (between (R.start range) (R.end range)) self.new result }
    {
        let (start, end) = range.deconstruct();
        fill::remove(&mut self.ends, start, end)
    }

    /// Removes all code points in `set`.
    ///
    /// # Errors
    /// Returns `MemoryError` if an allocation fails. The builder is then unchanged.
    #[inline]
    pub fn remove_set(&mut self, set: &CodePointInversionList<'_>) -> Result<(), MemoryError>
        ensures { Changes without self.old (holds set.now) self.new result }
    {
        // Reading the field gives the proof the invariant: the set is valid.
        let _ = &self.ends;
        if set.is_empty() {
            return Ok(());
        }
        change::<Difference>(self.alloc, &mut self.ends, set)
    }
}

/// Intersection: methods that remove all other code points.
impl CodePointInversionListBuilder {
    /// Removes all code points except the character `c`. This does not allocate.
    pub fn retain_char(&mut self, c: char)
        ensures set { Acts both self.old (λ n. n == c) self.new }
        ensures valid { IsValid self.new × IsValid self.old }
    {
        let number = u32::from(c);
        fill::retain(&mut self.ends, number, number + 1);
    }

    /// Removes all code points except `c`. If `c` is above 0x10FFFF, the set becomes empty. This
    /// does not allocate.
    pub fn retain32(&mut self, c: u32)
        ensures set { Acts both self.old (λ n. n == c) self.new }
        ensures valid { IsValid self.new × IsValid self.old }
    {
        fill::retain(&mut self.ends, c, c.saturating_add(1));
    }

    /// Removes all code points outside `range`. If `range` is empty or reversed, the set becomes
    /// empty. This does not allocate.
    pub fn retain_range<R: RangeOf<char>>(&mut self, range: R)
        ensures set { Acts both self.old (between (R.start range) (R.end range)) self.new }
        ensures valid { IsValid self.new × IsValid self.old }
    {
        let (from, till) = range.deconstruct();
        fill::retain(&mut self.ends, from, till);
    }

    /// Removes all code points outside `range`. If `range` is empty or reversed, the set becomes
    /// empty. A range that ends above 0x110000 retains all code points from its start on. This does
    /// not allocate.
    pub fn retain_range32<R: RangeOf<u32>>(&mut self, range: R)
        ensures set { Acts both self.old (between (R.start range) (R.end range)) self.new }
        ensures valid { IsValid self.new × IsValid self.old }
    {
        let (start, end) = range.deconstruct();
        fill::retain(&mut self.ends, start, end);
    }

    /// Removes all code points that are not in `set`.
    ///
    /// # Errors
    /// Returns `MemoryError` if an allocation fails. The builder is then unchanged.
    #[inline]
    pub fn retain_set(&mut self, set: &CodePointInversionList<'_>) -> Result<(), MemoryError>
        ensures { Changes both self.old (holds set.now) self.new result }
    {
        change::<Intersection>(self.alloc, &mut self.ends, set)
    }
}

/// Complement and symmetric difference: methods that flip code points. Flipping removes a code
/// point that is in the set and adds one that is not.
impl CodePointInversionListBuilder {
    /// Flips all code points: the set becomes its complement. Doing it twice restores the set.
    ///
    /// # Errors
    /// Returns `MemoryError` if an allocation fails. The set is then unchanged.
    #[tactic(auto, using(std::proofs::lemmas::Result::on_ok_weaker, crate::proofs::Splices::in_range, crate::proofs::EqualSets::same_sets))]
    pub fn complement(&mut self) -> Result<(), MemoryError>
        ensures ok { OnOk result
            ((c : ℕ) → c < code_point_limit → holds self.new c ≡ not (holds self.old c)) }
        ensures err { OnErr result (self.new ≡ self.old) }
        ensures valid { IsValid self.new × IsValid self.old }
        ensures twice { OnOk result ((ends : List ℕ) → IsValid ends
            → ((c : ℕ) → c < code_point_limit → holds ends c ≡ not (holds self.new c))
            → ends ≡ self.old) }
    {
        fill::flip(&mut self.ends, 0, CODE_POINT_LIMIT)
    }

    /// Flips the character `c`: removes it if it is in the set, and adds it otherwise.
    ///
    /// # Errors
    /// Returns `MemoryError` if an allocation fails. The set is then unchanged.
    pub fn complement_char(&mut self, c: char) -> Result<(), MemoryError>
        ensures { Changes one_of self.old (λ n. n == c) self.new result }
    {
        let number = u32::from(c);
        fill::flip(&mut self.ends, number, number + 1)
    }

    /// Flips the code point `c`: removes it if it is in the set, and adds it otherwise. A number
    /// above 0x10FFFF is ignored.
    ///
    /// # Errors
    /// Returns `MemoryError` if an allocation fails. The set is then unchanged.
    pub fn complement32(&mut self, c: u32) -> Result<(), MemoryError>
        ensures { Changes one_of self.old (λ n. n == c) self.new result }
    {
        fill::flip(&mut self.ends, c, c.saturating_add(1))
    }

    /// Flips all code points in `range`, including surrogates between its start and its end.
    ///
    /// `range` may be empty or reversed; it then changes nothing.
    ///
    /// # Errors
    /// Returns `MemoryError` if an allocation fails. The set is then unchanged.
    pub fn complement_range<R: RangeOf<char>>(&mut self, range: R) -> Result<(), MemoryError>
        ensures { Changes one_of self.old (between (R.start range) (R.end range)) self.new result }
    {
        let (from, till) = range.deconstruct();
        fill::flip(&mut self.ends, from, till)
    }

    /// Flips all code points in `range`. Numbers above 0x10FFFF are ignored.
    ///
    /// `range` may be empty or reversed; it then changes nothing.
    ///
    /// # Errors
    /// Returns `MemoryError` if an allocation fails. The set is then unchanged.
    pub fn complement_range32<R: RangeOf<u32>>(&mut self, range: R) -> Result<(), MemoryError>
        ensures { Changes one_of self.old (between (R.start range) (R.end range)) self.new result }
    {
        let (start, end) = range.deconstruct();
        fill::flip(&mut self.ends, start, end)
    }

    /// Flips all code points in `set`, so that the result is the symmetric difference. Doing it
    /// twice restores the set.
    ///
    /// # Errors
    /// Returns `MemoryError` if an allocation fails. The builder is then unchanged.
    #[inline]
    pub fn complement_set(&mut self, set: &CodePointInversionList<'_>) -> Result<(), MemoryError>
        ensures changes { Changes one_of self.old (holds set.now) self.new result }
        ensures twice { OnOk result
            ((ends : List ℕ) → IsValid ends → Acts one_of self.new (holds set.now) ends
            → ends ≡ self.old) }
    {
        // Reading the field gives the proof the invariant: the set is valid.
        let _ = &self.ends;
        if set.is_empty() {
            return Ok(());
        }
        change::<SymmetricDifference>(self.alloc, &mut self.ends, set)
    }
}
