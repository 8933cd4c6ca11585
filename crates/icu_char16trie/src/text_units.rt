//! The UTF-16 units of a text, one after another: the value of a key that is a text, and the longest
//! key that a text starts with.
ghost use Rattle.icu_zerovec.specs.Slice.{slice_values};
ghost use Rattle.std.specs.Prelude.{◌≡◌, ◌↔◌, ◌-◌, ◌^◌, ◌<◌, ◌≤◌, [], ◌∷◌, drop, length, IfSome, IsTrue, MatchOption};
ghost use Rattle.std.specs.Str.{IsCharBoundary};
ghost use Rattle.icu_char16trie.specs.Constants.{min_value_lead};
ghost use Rattle.icu_char16trie.specs.Grammar.{IsTrieOf};
ghost use Rattle.icu_char16trie.specs.Matches.{HasValueAlong, IsLongestInText, IsLongestSteppedInText, text_units};
ghost use Rattle.icu_char16trie.specs.UnitMap.{UnitMap, value_of};
ghost use Rattle.icu_char16trie.specs.Inside.Fronts.{BeginsRun};
ghost use Rattle.icu_char16trie.specs.Inside.Texts.{AreLast, AreTextUnits, PassesUnits, longer_after, units_left};

use crate::branch::child_in_branch;
use crate::dictionary::longer_match;
use crate::encoded::{node_end, run_len, unit_at};
use crate::impl_const::{MIN_LINEAR_MATCH, MIN_VALUE_LEAD, VALUE_IS_FINAL};
use crate::step::value_by;
use crate::trie::Char16Trie;
use icu_zerovec::ZeroSlice;

/// The units of a text that are still to be read.
#[derive(Drop)]
struct TextUnits<'a> {
    /// The characters that are still to be read.
    rest: &'a str,
    /// The second unit of the last character that was read, if only its first unit was.
    second: Option<u16>,
}

impl<'a> TextUnits<'a> {
    /// Reads the next unit. Returns `None` at the end of the text.
    #[inline(always)]
    fn next_unit(&mut self) -> Option<u16>
        requires { AreTextUnits self.old }
        ensures unit { MatchOption result (units_left self.old ≡ [])
            (λ unit. units_left self.old ≡ unit ∷ units_left self.new) }
        ensures last { AreLast self.new self.old }
        ensures units { AreTextUnits self.new }
    {
        if let Some(second) = self.second.take() {
            return Some(second);
        }
        let mut chars = self.rest.chars();
        let c = u32::from(chars.next()?);
        self.rest = chars.as_str();
        if c < 0x1_0000 {
            return Some(c as u16);
        }
        let supplementary = c - 0x1_0000;
        self.second = Some((0xDC00 + supplementary % 0x400) as u16);
        Some((0xD800 + supplementary / 0x400) as u16)
    }

    /// Returns the match of the units that were read of `text` if they are whole characters and have
    /// a value, and otherwise the earlier match. Its length is in bytes.
    #[inline(always)]
    fn longer_match(
        &self,
        text: &str,
        value: Option<i32>,
        found: Option<(usize, i32)>,
    ) -> Option<(usize, i32)>
        requires { length self.now.rest.now ≤ length text.now }
        ensures { result ≡ longer_after self.now.second
            (length text.now - length self.now.rest.now) value found }
    {
        if self.second.is_some() {
            return found;
        }
        longer_match(text.len() - self.rest.len(), value, found)
    }
}

/// Returns true if the next `count` units of the text are those at `place`, which it then reads.
#[inline(always)]
fn reads_run(
    units: ZeroSlice<'_, u16>,
    place: usize,
    count: usize,
    text: &mut TextUnits<'_>,
) -> bool
    requires near { place < 2 ^ 63 }
    requires units { AreTextUnits text.old }
    ensures begins { IsTrue result
        ↔ BeginsRun (slice_values units.entry) place count (units_left text.old) }
    ensures left { IsTrue result → units_left text.new ≡ drop count (units_left text.old) }
    ensures last { AreLast text.new text.old }
    ensures units { AreTextUnits text.new }
{
    for i in 0..count {
        let Some(unit) = text.next_unit() else {
            return false;
        };
        if unit_at(units, place + i) != Some(unit) {
            return false;
        }
    }
    true
}

/// Reads on through a text at a match node. Returns the index of the next node.
///
/// `unit` is the unit of the text that was read last, the first one to match. `low` is the low six
/// bits of the match node's lead unit, and `place` is the index after the lead and its value.
#[inline(always)]
fn pass_units(
    units: ZeroSlice<'_, u16>,
    place: usize,
    low: u16,
    unit: u16,
    text: &mut TextUnits<'_>,
) -> Option<usize>
    requires near { place < 2 ^ 63 }
    requires low { low < min_value_lead }
    requires units { AreTextUnits text.old }
    ensures passes { PassesUnits (slice_values units.entry) (unit ∷ units_left text.old) place low result
        (units_left text.new) }
    ensures last { AreLast text.new text.old }
    ensures units { AreTextUnits text.new }
{
    if low < MIN_LINEAR_MATCH {
        return child_in_branch(units, place, low, unit);
    }
    if unit_at(units, place) != Some(unit) {
        return None;
    }
    let count = run_len(low);
    if !reads_run(units, place + 1, count - 1, text) {
        return None;
    }
    Some(place + count)
}

impl<'data> Char16Trie<'data> {
    /// Returns the value of the key that is the UTF-16 form of `key`, or `None` if the trie does
    /// not have it.
    ///
    /// ICU: `UCharsTrie::reset`, `nextForCodePoint` for each character, and `getValue`.
    ///
    /// ```
    /// // of the map of "a" to 1 and "ab" to 2
    /// // trie.get_str("ab") is Some(2), and trie.get_str("b") is None
    /// ```
    pub fn get_str(&self, key: &str) -> Option<i32>
        ensures value { (m : UnitMap) → IsTrieOf self.now m
            → result ≡ value_of m (text_units key.now) }
        ensures exact { HasValueAlong self.now (text_units key.now) result }
    {
        let units = self.data.as_slice();
        let mut text = TextUnits {
            rest: key,
            second: None,
        };
        let mut node = 0;
        while let Some(unit) = text.next_unit() {
            let lead = unit_at(units, node)?;
            if lead >= VALUE_IS_FINAL {
                return None;
            }
            let place = node_end(node + 1, lead);
            node = pass_units(units, place, lead % MIN_VALUE_LEAD, unit, &mut text)?;
        }
        let last = unit_at(units, node)?;
        value_by(units, node + 1, last)
    }

    /// Returns the longest key that `text` starts with: its length in bytes of `text` and its
    /// value.
    ///
    /// Returns `None` if `text` starts with no key. Only keys that are whole characters in UTF-16
    /// count: a key that ends between the two units of a character does not. So `&text[length..]`
    /// is what follows the key.
    ///
    /// ```
    /// // of the map of "\u{e9}" to 1 and "\u{e9}t\u{e9}" to 2
    /// // trie.longest_match_str("\u{e9}t\u{e9}s") is Some((5, 2)), and before "s" there are 5 bytes
    /// // trie.longest_match_str("\u{e9}t") is Some((2, 1))
    /// ```
    pub fn longest_match_str(&self, text: &str) -> Option<(usize, i32)>
        ensures longest { (m : UnitMap) → IsTrieOf self.now m
            → IsLongestInText m text.now result }
        ensures exact { IsLongestSteppedInText self.now text.now result }
        ensures boundary { IfSome result (λ found. IsCharBoundary text.now found.0) }
    {
        let units = self.data.as_slice();
        let mut left = TextUnits {
            rest: text,
            second: None,
        };
        let mut node = 0;
        let mut found = None;
        while let Some(lead) = unit_at(units, node) {
            found = left.longer_match(text, value_by(units, node + 1, lead), found);
            if lead >= VALUE_IS_FINAL {
                return found;
            }
            let Some(unit) = left.next_unit() else {
                return found;
            };
            let place = node_end(node + 1, lead);
            let Some(next) = pass_units(units, place, lead % MIN_VALUE_LEAD, unit, &mut left) else {
                return found;
            };
            node = next;
        }
        found
    }
}
