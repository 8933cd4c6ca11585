//! Reading a builder's map, and making one from a trie. So a table can be amended: read its values
//! into a builder, write to it, and build it again.
ghost use Rattle.std.specs.Prelude.{◌≡◌, ℕ, ◌<◌, ◌≤◌, ◌⊎◌, Some, is_some, IfSome, IfNone, IfOk, OnOk, IsNone, true, false, IsTrue};
ghost use Rattle.std.specs.Range.{range_inclusive_exhausted};
ghost use Rattle.icu_trie_builder.specs.CodePointMap.{map_answer, map_value};
ghost use Rattle.icu_trie_core.specs.Range.{first_of, last_of};
ghost use Rattle.icu_trie_core.specs.Runs.{LongestRun};
ghost use Rattle.icu_trie.specs.Parts.{last_cell, trie_value};
ghost use Rattle.icu_trie.specs.Ranges.{IsCoherentTrie};

use crate::builder::CodePointTrieBuilder;
use icu_trie::cptrie::CodePointTrie;
use icu_trie::ranges::CodePointMapRange;
use icu_trie::value::TrieValue;
use icu_trie_core::walk::is_same;
use icu_zerovec::{CODE_POINT_LIMIT, MemoryError};
use std::alloc::Global;

/// Returns the value with this number, which must exist.
fn value_of_number<T: TrieValue>(number: u32) -> T
    requires { is_some (T.of_number number) ≡ true }
    ensures { T.of_number number ≡ Some result }
{
    match T::try_from_u32(number) {
        Ok(value) => value,
        Err(_) => unreachable!(),
    }
}

/// Returns the exclusive end of the run of this value from `c` on, by looking up each code point.
fn end_by_look_ups<T: TrieValue>(trie: &CodePointTrie<'_, T>, c: u32, value: T) -> u32
    requires within { c < 0x110000 }
    requires value { trie_value trie.now c ≡ Some value }
    ensures after { c < result }
    ensures within { result ≤ 0x110000 }
    ensures equal { (u : ℕ) → c ≤ u → u < result → trie_value trie.now u ≡ Some value }
{
    for next in c + 1..CODE_POINT_LIMIT {
        if !is_same(trie.get32(next), value) {
            return next;
        }
    }
    CODE_POINT_LIMIT
}

/// Returns a range of code points from `c` on that have the value of `c`. In a coherent trie it is
/// the trie's range, which is exact; in any other trie, look-ups find its end.
fn run_from<T: TrieValue>(
    trie: &CodePointTrie<'_, T>,
    is_coherent: bool,
    c: u32,
) -> CodePointMapRange<T>
    requires coherent { IsTrue is_coherent → IsCoherentTrie T.of_number trie.now }
    requires within { c < 0x110000 }
    ensures first { first_of result ≡ c }
    ensures ordered { c ≤ last_of result }
    ensures within { last_of result < 0x110000 }
    ensures equal { (u : ℕ) → c ≤ u → u ≤ last_of result
        → trie_value trie.now u ≡ Some result.value }
{
    if is_coherent {
        return match trie.get_range(c) {
            Some(range) => range,
            None => unreachable!(),
        };
    }
    let value = trie.get32(c);
    let end = end_by_look_ups(trie, c, value);
    CodePointMapRange {
        range: c..=end - 1,
        value,
    }
}

impl<T: TrieValue> CodePointTrieBuilder<T> {
    /// Returns the value of the code point `c`, or the error value if `c` is above 0x10FFFF.
    ///
    /// ICU: `umutablecptrie_get`.
    ///
    /// ```
    /// let mut builder = CodePointTrieBuilder::new(alloc, 0u8, 9, TrieType::Fast);
    /// builder.set_range_value(0x41..=0x5A, 1)?;
    /// // builder.get(0x41) is 1, builder.get(0x5B) is 0, and builder.get(0x110000) is 9
    /// ```
    pub fn get(&self, c: u32) -> T
        ensures { result ≡ map_answer self.now c }
    {
        if c >= CODE_POINT_LIMIT {
            return self.error;
        }
        value_of_number(self.numbers.get(c as usize))
    }

    /// Returns the longest range of code points from `start` on that have the same value as
    /// `start`, or `None` if `start` is above 0x10FFFF.
    ///
    /// ICU: `umutablecptrie_getRange`.
    ///
    /// ```
    /// let mut builder = CodePointTrieBuilder::new(alloc, 0u8, 9, TrieType::Fast);
    /// builder.set_range_value(0x41..=0x5A, 1)?;
    /// // builder.get_range(0x50) is the range 0x50..=0x5A with 1, then 0x5B..=0x10FFFF has 0
    /// ```
    pub fn get_range(&self, start: u32) -> Option<CodePointMapRange<T>>
        ensures first { IfSome result (λ r. first_of r ≡ start) }
        ensures run { IfSome result
            (λ r. LongestRun (map_value self.now) start (last_of r) r.value) }
        ensures fresh { IfSome result (λ r. range_inclusive_exhausted r.range ≡ false) }
        ensures none { IfNone result (0x110000 ≤ start) }
        ensures outside { 0x110000 ≤ start → IsNone result }
    {
        if start >= CODE_POINT_LIMIT {
            return None;
        }
        let number = self.numbers.get(start as usize);
        let end = self.numbers.find_other(start as usize, number);
        Some(CodePointMapRange {
            range: start..=end as u32 - 1,
            value: value_of_number(number),
        })
    }

    /// Sets the value of a range of code points that have the default, unless the value is the
    /// default.
    fn fill(&mut self, run: CodePointMapRange<T>) -> Result<(), MemoryError>
        requires ordered { first_of run ≤ last_of run }
        requires within { last_of run < 0x110000 }
        requires blank { (c : ℕ) → first_of run ≤ c → c ≤ last_of run
            → map_value self.old c ≡ self.old.default }
        ensures inside { OnOk result ((c : ℕ) → first_of run ≤ c → c ≤ last_of run
            → map_value self.new c ≡ run.value) }
        ensures outside { OnOk result ((c : ℕ) → c < 0x110000
            → (c < first_of run) ⊎ (last_of run < c)
            → map_value self.new c ≡ map_value self.old c) }
        ensures default { OnOk result (self.new.default ≡ self.old.default) }
        ensures error { OnOk result (self.new.error ≡ self.old.error) }
        ensures trie_type { OnOk result (self.new.trie_type ≡ self.old.trie_type) }
    {
        if is_same(run.value, self.default) {
            return Ok(());
        }
        self.set_range_value(run.range, run.value)
    }

    /// Sets the value of each code point to that of a trie, range by range. All code points must
    /// have the default.
    fn fill_from(&mut self, trie: &CodePointTrie<'_, T>) -> Result<(), MemoryError>
        requires { (c : ℕ) → c < 0x110000 → map_value self.old c ≡ self.old.default }
        ensures values { OnOk result ((c : ℕ) → c < 0x110000
            → trie_value trie.now c ≡ Some (map_value self.new c)) }
        ensures default { OnOk result (self.new.default ≡ self.old.default) }
        ensures error { OnOk result (self.new.error ≡ self.old.error) }
        ensures trie_type { OnOk result (self.new.trie_type ≡ self.old.trie_type) }
    {
        let is_coherent = trie.is_coherent();
        let mut next = 0;
        while next < CODE_POINT_LIMIT {
            let run = run_from(trie, is_coherent, next);
            next = *run.range.end() + 1;
            self.fill(run)?;
        }
        Ok(())
    }

    /// Makes a builder with the values of a trie, which can then be changed and built again. It has
    /// the trie's type and its error value.
    ///
    /// At every number it returns what the trie returns, even if the trie's header is wrong: it
    /// reads a coherent trie range by range, and any other one by look-ups. Code points for which
    /// the trie lacks a cell get the error value.
    ///
    /// The default is the value of 0x10FFFF, so that most code points need no memory.
    ///
    /// ICU: `umutablecptrie_fromUCPTrie`.
    ///
    /// ```
    /// let mut builder = CodePointTrieBuilder::from_trie(alloc, &trie)?;
    /// builder.set_value(0x41, 7)?;
    /// let amended = builder.build()?;
    /// // amended.get32(0x41) is 7, and amended.get32(0x42) is trie.get32(0x42)
    /// ```
    ///
    /// # Errors
    /// Returns `MemoryError` if an allocation fails.
    pub fn from_trie(
        alloc: Global,
        trie: &CodePointTrie<'_, T>,
    ) -> Result<CodePointTrieBuilder<T>, MemoryError>
        ensures values { IfOk result
            (λ b. (u : ℕ) → Some (map_answer b u) ≡ trie_value trie.now u) }
        ensures default { IfOk result (λ b. Some b.default ≡ trie_value trie.now 0x10FFFF) }
        ensures error { IfOk result (λ b. Some b.error ≡ last_cell trie.now.values) }
        ensures trie_type { IfOk result (λ b. b.trie_type ≡ trie.now.header.trie_type) }
    {
        let (header, _, _) = trie.parts();
        let default = trie.get32(CODE_POINT_LIMIT - 1);
        let error = trie.error_value();
        let mut builder = CodePointTrieBuilder::new(alloc, default, error, header.trie_type);
        builder.fill_from(trie)?;
        Ok(builder)
    }
}
