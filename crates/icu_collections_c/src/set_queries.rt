//! Subsets, and the code points of a set by their index.
ghost use Rattle.std.specs.Prelude.{◌≡◌, ◌<◌, ◌≤◌, ◌*◌, ◌%◌, ◌↔◌, IsTrue, length, slice_index};
ghost use Rattle.icu_invlist.specs.InversionList.{IsSubset, IsValid};
ghost use Rattle.icu_collections_c.specs.Inside.SetPlaces.{Gap, IsPlaceFrom};
ghost use Rattle.icu_collections_c.specs.SetQueries.{GivesIndex, GivesNth};

use crate::sets::place_of;

/// Returns the index of the first boundary from index `from` on that is above `c`, or the number of
/// boundaries if there is none. Doubles its steps, the first of which passes `step` boundaries,
/// until one passes `c`.
fn place_from(ends: &[u32], from: usize, step: usize, c: u32) -> usize
    requires from { from ≤ length ends.now }
    requires step { step ≤ length ends.now }
    ensures within { result ≤ length ends.now }
    ensures place { IsValid ends.now → IsPlaceFrom ends.now from c result }
{
    let mut low = from;
    let mut size = step;
    while low + size < ends.len() && ends[low + size] <= c {
        low += size + 1;
        size = 2 * size + 1;
    }
    let high = ends.len().min(low + size);
    low + place_of(&ends[low..high], c)
}

/// Returns whether the boundary at this index ends a range of the set, and is `end` or above.
fn reaches(ends: &[u32], place: usize, end: u32) -> bool
    ensures { IsTrue result
        ↔ ((place % 2 ≡ 1) × (place < length ends.now) × (end ≤ slice_index ends.now place)) }
{
    place % 2 == 1 && place < ends.len() && end <= ends[place]
}

/// Returns whether the set with the boundaries `a` contains all code points of the one with the
/// boundaries `b`. The result is unspecified (but memory-safe) if
/// [`bks_set_test`](crate::sets::bks_set_test) returns false for one of the lists. Takes linear
/// time, and allocates nothing.
///
/// ICU: `uset_containsAll`.
#[unsafe(no_mangle)]
pub extern "C" fn bks_set_contains_all(a: &[u32], b: &[u32]) -> bool
    ensures { IsValid a.now × IsValid b.now → (IsTrue result ↔ IsSubset b.now a.now) }
{
    let step = a.len() / (b.len() + 1);
    let mut place = 0;
    let mut i = 0;
    while i + 1 < b.len() {
        place = place_from(a, place, step, b[i]);
        if !reaches(a, place, b[i + 1]) {
            return false;
        }
        i += 2;
    }
    true
}

/// Returns how many code points the first `ranges` ranges of the set have. LLVM vectorises the sum.
fn members_before(ends: &[u32], ranges: usize) -> u32
    ensures { IsValid ends.now → 2 * ranges ≤ length ends.now → Gap ends.now (2 * ranges) result }
{
    let mut before: u32 = 0;
    for i in 0..ranges.min(ends.len() / 2) {
        before = before.wrapping_add(ends[2 * i + 1].wrapping_sub(ends[2 * i]));
    }
    before
}

/// Finds the index of a code point among those of the set, in ascending order from 0 on. Returns
/// true and stores it in `index`. Returns false if the set does not contain `c`; `index` is then
/// unchanged. What is returned and stored is unspecified (but memory-safe) if
/// [`bks_set_test`](crate::sets::bks_set_test) returns false.
///
/// ICU: `uset_indexOf`.
#[unsafe(no_mangle)]
pub extern "C" fn bks_set_index_of(ends: &[u32], c: u32, index: &mut u32) -> bool
    ensures { IsValid ends.now → GivesIndex ends.now c index.old result index.new }
{
    let place = place_of(ends, c);
    if place % 2 == 0 {
        return false;
    }
    let before = members_before(ends, place / 2);
    *index = before.wrapping_add(c.wrapping_sub(ends[place - 1]));
    true
}

/// Finds the code point at index `n` of the set, in ascending order from 0 on. Returns true and
/// stores it in `c`. Returns false if the set has no more than `n` code points; `c` is then
/// unchanged. What is returned and stored is unspecified (but memory-safe) if
/// [`bks_set_test`](crate::sets::bks_set_test) returns false.
///
/// ICU: `uset_charAt`.
#[unsafe(no_mangle)]
pub extern "C" fn bks_set_nth(ends: &[u32], n: u32, c: &mut u32) -> bool
    ensures { IsValid ends.now → GivesNth ends.now n c.old result c.new }
{
    let mut left = n;
    let mut i = 0;
    while i + 1 < ends.len() {
        let (start, end) = (ends[i], ends[i + 1]);
        let size = end.saturating_sub(start);
        if left < size {
            *c = start + left;
            return true;
        }
        left -= size;
        i += 2;
    }
    false
}
