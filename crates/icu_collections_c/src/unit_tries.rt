//! Look-ups in unit tries over bytes: maps from keys of 16-bit units to numbers (`UCharsTrie`).
//!
//! Two bytes are a unit, the low byte first, at any address. An odd last byte is not part of any
//! unit. Any bytes are accepted: if a unit is needed and missing, nothing matches, and if the units
//! of a value are cut off, the value is 0.
ghost use Rattle.std.specs.Prelude.{◌≡◌, ℕ, pos, List, [], ◌∷◌, ◌++◌, IfSome, not, take};
ghost use Rattle.icu_char16trie.specs.Grammar.{IsTrieOf};
ghost use Rattle.icu_char16trie.specs.Matches.{IsLongestInText, IsLongestMatch, IsLongestStepped, IsLongestSteppedInText};
ghost use Rattle.icu_char16trie.specs.Passed.{answer_at, result_of};
ghost use Rattle.icu_char16trie.specs.Steps.{StepsTo};
ghost use Rattle.icu_char16trie.specs.UnitMap.{UnitMap, goes_on, value_of};
ghost use Rattle.icu_char16trie.specs.UnitPlaces.{HasPassed, value_at};
ghost use Rattle.icu_char16trie.specs.declared.place.Place.{Place};
ghost use Rattle.icu_collections_c.specs.UnitTries.{AnswersMatchInText, EndsAtBoundary, GivesMatchThat, GivesValue, GivesValueAlong, at, place_of, root, step_number, units_of};
ghost use Rattle.icu_frozen_sets.specs.TextFronts.{IsTextUpTo};

use crate::error::Error;
use crate::text_steps::{pass_character, starts_ill_formed};
use crate::units::{give, give_match, later_match, step_number, trie_in};
use icu_char16trie::char16trie::{Char16TrieCursor, CursorPlace};

/// The position of a cursor in a unit trie, passed by value (`UCharsTrie::State`). All zeros is the
/// root, before any unit. Any numbers are a position: from one that no cursor had, steps lead to
/// where the units say.
#[repr(C)]
#[derive(Clone, Copy)]
pub struct Cursor {
    /// The index of the next unit among the units of the trie.
    pub position: usize,
    /// 0 at a node. In a linear match, how many of its units are left, 1 to 256. Above 256 after no
    /// match.
    pub left: u16,
}

/// Converts the cursor to the position that the library uses.
#[inline(always)]
pub(crate) fn place_of(cursor: &Cursor) -> CursorPlace
    ensures { result ≡ record { position = cursor.now.position; left = cursor.now.left } }
{
    CursorPlace {
        position: cursor.position,
        left: cursor.left,
    }
}

/// Looks up a key. Returns true and stores its value in `value`. Returns false if the trie does not
/// have the key; `value` is then unchanged.
///
/// ICU: `UCharsTrie::reset`, `next` for each unit, and `getValue`.
#[unsafe(no_mangle)]
pub extern "C" fn bks_units_get(units: &[u8], key: &[u16], value: &mut i32) -> bool
    ensures keys { (m : UnitMap) → IsTrieOf (units_of units.now) m
        → GivesValue (value_of m key.now) value.old result value.new }

    // For any units: the value at the position to which the steps of the key lead.
    ensures exact { GivesValueAlong (units_of units.now) key.now value.old result value.new }
{
    give(trie_in(units).get(key), value)
}

/// Finds the longest key that is a prefix of a text. Returns how many units it has and stores its
/// value in `value`. The empty key is a prefix of every text.
///
/// # Errors
/// Returns the number of [`Error::NoKey`] if no key is a prefix of the text. `value` is then
/// unchanged.
#[unsafe(no_mangle)]
pub extern "C" fn bks_units_longest(units: &[u8], text: &[u16], value: &mut i32) -> i64
    ensures keys { (m : UnitMap) → IsTrieOf (units_of units.now) m
        → GivesMatchThat (IsLongestMatch m text.now) value.old result value.new }
    ensures exact { GivesMatchThat (IsLongestStepped (units_of units.now) text.now) value.old result
        value.new }
{
    give_match(trie_in(units).longest_match(text), value)
}

/// Finds the longest key that consists of the first characters of bytes that may be ill-formed.
/// Returns how many bytes it takes, and its value.
#[inline(always)]
pub(crate) fn longest_in(units: &[u8], bytes: &[u8]) -> Option<(usize, i32)>
    ensures keys { (m : UnitMap) → IsTrieOf (units_of units.now) m
        → (n : ℕ) × IsTextUpTo bytes.now n × IsLongestInText m (take n bytes.now) result }
    ensures exact { (n : ℕ) × IsTextUpTo bytes.now n
        × IsLongestSteppedInText (units_of units.now) (take n bytes.now) result }
    ensures boundary { IfSome result (λ found. EndsAtBoundary bytes.now found.0) }
{
    let trie = trie_in(units);
    let mut cursor = trie.cursor();
    let value = cursor.value();
    let mut found = later_match(0, value, None);
    let mut end = 0;
    while let Some(next) = pass_character(&mut cursor, bytes, end) {
        let value = cursor.value();
        found = later_match(next, value, found);
        end = next;
    }
    found
}

/// Finds the longest key that is a prefix of a UTF-8 text. Returns how many bytes of the text it
/// takes and stores its value in `value`. The prefix ends at a character boundary: only keys are
/// found that are the UTF-16 form of the first characters of the text.
///
/// Reads the first character, and no more of the text than some key continues with. An ill-formed
/// sequence ends the text.
///
/// # Errors
/// Returns the number of [`Error::InvalidUtf8`] if the text is not empty and does not start with a
/// character, and of [`Error::NoKey`] if no key is a prefix of it. `value` is then unchanged.
#[unsafe(no_mangle)]
pub extern "C" fn bks_units_longest_utf8(units: &[u8], text: &[u8], value: &mut i32) -> i64
    ensures keys { (m : UnitMap) → IsTrieOf (units_of units.now) m
        → AnswersMatchInText (IsLongestInText m) text.now value.old result value.new }
    ensures exact { AnswersMatchInText (IsLongestSteppedInText (units_of units.now)) text.now
        value.old result value.new }
    ensures boundary { (n : ℕ) → result ≡ pos n → EndsAtBoundary text.now n }
{
    if starts_ill_formed(text) {
        return Error::InvalidUtf8.number();
    }
    give_match(longest_in(units, text), value)
}

/// Moves the cursor by one more unit, and returns whether a key ends there and whether a key
/// continues (`UStringTrieResult`):
///
/// - 0: no match; from here no unit matches
/// - 1: the units so far are not a key, but some key continues
/// - 2: the units so far are a key, and no key continues
/// - 3: the units so far are a key, and some key continues
///
/// ICU: `UCharsTrie::next`.
#[unsafe(no_mangle)]
pub extern "C" fn bks_units_step(units: &[u8], cursor: &mut Cursor, unit: u16) -> u32
    ensures root { (m : UnitMap) → IsTrieOf (units_of units.now) m
        → HasPassed (at units.now root) m [] }
    ensures after { (m : UnitMap) (w : List ℕ) → HasPassed (at units.now cursor.old) m w
        → HasPassed (at units.now cursor.new) m (w ++ unit ∷ []) }
    ensures keys { (m : UnitMap) (w : List ℕ) → HasPassed (at units.now cursor.new) m w
        → result ≡ step_number (result_of (value_of m w) (not (goes_on m w))) }

    // For any units: the one position to which the unit leads.
    ensures exact { StepsTo (units_of units.now) (place_of cursor.old) unit (place_of cursor.new) }
    ensures only { (q : Place) → StepsTo (units_of units.now) (place_of cursor.old) unit q
        → q ≡ place_of cursor.new }
    ensures told { result ≡ step_number (answer_at (at units.now cursor.new)) }
{
    let trie = trie_in(units);
    let mut going = Char16TrieCursor::resume(trie.data.as_slice(), place_of(cursor));
    going.step16(unit);
    let place = going.place();
    *cursor = Cursor {
        position: place.position,
        left: place.left,
    };
    step_number(&going)
}

/// Returns the value of the units so far: true, and the value is stored in `value`. Returns false
/// if they are not a key; `value` is then unchanged.
///
/// ICU: `UCharsTrie::getValue`.
#[unsafe(no_mangle)]
pub extern "C" fn bks_units_value(units: &[u8], cursor: &Cursor, value: &mut i32) -> bool
    ensures root { (m : UnitMap) → IsTrieOf (units_of units.now) m
        → HasPassed (at units.now root) m [] }
    ensures keys { (m : UnitMap) (w : List ℕ) → HasPassed (at units.now cursor.now) m w
        → GivesValue (value_of m w) value.old result value.new }
    ensures exact { GivesValue (value_at (units_of units.now) (place_of cursor.now)) value.old
        result value.new }
{
    let trie = trie_in(units);
    let here = Char16TrieCursor::resume(trie.data.as_slice(), place_of(cursor));
    give(here.value(), value)
}
