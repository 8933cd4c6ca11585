//! What comes after a cursor's position in a unit trie: the next units, and the one value of all
//! keys.
ghost use Rattle.std.specs.Prelude.{◌≡◌, ℕ, ℤ, List};
ghost use Rattle.icu_char16trie.specs.NextUnits.{AreAscending, GoesOnWith, first_units};
ghost use Rattle.icu_char16trie.specs.OneValue.{HaveOneValue, StandsForOneValue};
ghost use Rattle.icu_char16trie.specs.UnitMap.{UnitMap, after_all};
ghost use Rattle.icu_char16trie.specs.UnitPlaces.{HasPassed};
ghost use Rattle.icu_collections_c.specs.UnitNodes.{AnswersOneValue, AnswersUnitList};
ghost use Rattle.icu_collections_c.specs.UnitTries.{at, place_of, units_of};

use crate::buffers::write;
use crate::error::Error;
use crate::unit_tries::{Cursor, place_of};
use crate::units::trie_in;
use icu_char16trie::char16trie::Char16TrieCursor;
use std::alloc::Global;

/// Writes the units that can come next in some key to the start of a buffer, as many as fit.
/// Returns how many there are, at most 65,536. If the units are a trie, they ascend, each once. If
/// not, they are those of the entries of a branch, as far as the entries are there.
///
/// ICU: `UCharsTrie::getNextUChars`.
///
/// # Errors
/// Returns the number of [`Error::NoMemory`] if an allocation fails. The buffer is then
/// unchanged.
#[unsafe(no_mangle)]
pub extern "C" fn bks_units_next(
    alloc: Global,
    units: &[u8],
    cursor: &Cursor,
    next: &mut [u16],
) -> i64
    ensures keys { (m : UnitMap) (w : List ℕ) → HasPassed (at units.now cursor.now) m w
        → AnswersUnitList (λ us. (us ≡ first_units (after_all w m)) × AreAscending us) next.old
        next.new result }

    // For any units: the units of the branch's entries, as far as the entries are there.
    ensures exact { AnswersUnitList (GoesOnWith (units_of units.now) (place_of cursor.now)) next.old
        next.new result }
{
    let trie = trie_in(units);
    let here = Char16TrieCursor::resume(trie.data.as_slice(), place_of(cursor));
    match here.next_units(alloc) {
        Ok(list) => {
            write(&list, next);
            list.len() as i64
        }
        Err(_) => Error::NoMemory.number(),
    }
}

/// Returns 1 if all keys that start with the units so far have one value, and stores it in `value`.
/// Returns 0 if their values differ or there is no such key; `value` is then unchanged. If the
/// units so far are a key, it counts too.
///
/// Visits each node ahead once, however many keys there are. If the units are not a trie from this
/// position on, the result is 0.
///
/// ICU: `UCharsTrie::hasUniqueValue`.
///
/// # Errors
/// Returns the number of [`Error::NoMemory`] if an allocation fails. `value` is then unchanged.
#[unsafe(no_mangle)]
pub extern "C" fn bks_units_unique(
    alloc: Global,
    units: &[u8],
    cursor: &Cursor,
    value: &mut i32,
) -> i64
    ensures keys { (m : UnitMap) (w : List ℕ) → HasPassed (at units.now cursor.now) m w
        → AnswersOneValue (HaveOneValue (after_all w m)) value.old value.new result }

    // For any units: the same for the map whose trie they are from the position on, if there is
    // one.
    ensures exact { AnswersOneValue (StandsForOneValue (units_of units.now) (place_of cursor.now))
        value.old value.new result }
{
    let trie = trie_in(units);
    let here = Char16TrieCursor::resume(trie.data.as_slice(), place_of(cursor));
    match here.unique_value(alloc) {
        Ok(Some(found)) => {
            *value = found;
            1
        }
        Ok(None) => 0,
        Err(_) => Error::NoMemory.number(),
    }
}
