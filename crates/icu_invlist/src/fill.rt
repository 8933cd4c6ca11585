//! Changes of a list of boundaries in place, one range at a time.
//!
//! Boundaries below and above the range stay. Of those in between, at most the two borders of the
//! range remain: its start if membership changes there, and likewise its end.
ghost use Rattle.std.specs.Prelude.{◌≡◌, ℕ, suc, false, true, ◌+◌, ◌*◌, ◌-◌, ◌<◌, ◌≤◌, ◌++◌, List, [], ◌∷◌, length, if◌then◌else◌, not, nat_le, vec_len, ◌⊎◌, OnOk, OnErr, IsTrue, ◌↔◌};
ghost use Rattle.std.specs.List.{splice};
ghost use Rattle.std.specs.Vec.{vec_capacity};
ghost use Rattle.icu_zerovec.specs.CodePoints.{code_point_limit};
ghost use Rattle.icu_invlist.specs.InversionList.{IsValid, Acts, either, without, both, one_of, between, holds, is_odd};
ghost use Rattle.icu_invlist.specs.Inside.Places.{AreStepsBelow, IsFilled, Run, ends_below};

use icu_zerovec::{CODE_POINT_LIMIT, MemoryError};

/// Returns true if the boundary at index `place` is below `c`.
#[tactic(auto, using(crate::proofs::Searches::place_of_end))]
#[inline(always)]
fn is_below(ends: &[u32], place: usize, c: u32) -> bool
    requires rises { Run 0 (suc code_point_limit) ends.now }
    requires within { place < length ends.now }
    ensures { IsTrue result ↔ (place < ends_below ends.now c) }
{
    ends[place] < c
}

/// Returns how many of the next three steps from `low` end at a boundary below `c`. All boundaries
/// before `low` must be below `c`.
#[tactic(auto, using(crate::proofs::Searches::steps_counted))]
#[inline(always)]
fn steps_below(ends: &[u32], low: usize, step: usize, c: u32) -> usize
    requires rises { Run 0 (suc code_point_limit) ends.now }
    requires from { low ≤ ends_below ends.now c }
    requires some { 0 < step }
    requires within { low + 3 * step ≤ length ends.now }
    ensures { AreStepsBelow (ends_below ends.now c) low step result }
{
    let first = is_below(ends, low + step - 1, c);
    let second = is_below(ends, low + 2 * step - 1, c);
    let third = is_below(ends, low + 3 * step - 1, c);
    first as usize + second as usize + third as usize
}

/// Returns a start index and a count of at most three boundaries that are still to be compared with
/// `c`.
///
/// Each round leaves a quarter of the list. It adds up comparisons, so no branch depends on a value
/// read.
#[inline(always)]
fn narrowed(ends: &[u32], c: u32) -> (usize, usize)
    requires { Run 0 (suc code_point_limit) ends.now }
    ensures from { result.0 ≤ ends_below ends.now c }
    ensures to { ends_below ends.now c ≤ result.0 + result.1 }
    ensures within { result.0 + result.1 ≤ length ends.now }
{
    let mut low = 0;
    let mut size = ends.len();
    while size > 3 {
        let step = size / 4;
        low += step * steps_below(ends, low, step, c);
        size -= 3 * step;
    }
    (low, size)
}

/// Returns how many boundaries are below `c`. There is no search if all are, as when ranges are
/// added in ascending order.
#[tactic(auto, using(crate::proofs::PlaceLemmas::all_below, crate::proofs::Searches::one_counted))]
fn count_below(ends: &[u32], c: u32) -> usize
    requires { Run 0 (suc code_point_limit) ends.now }
    ensures count { result ≡ ends_below ends.now c }
    ensures within { result ≤ length ends.now }
{
    let count = ends.len();
    if count > 0 && ends[count - 1] < c {
        return count;
    }
    let (mut low, mut size) = narrowed(ends, c);
    while size > 0 {
        low += is_below(ends, low, c) as usize;
        size -= 1;
    }
    low
}

/// Returns how many boundaries are below `c`, given that at least `from` are. It is fast if there
/// are exactly `from`, as when a range is added after all others.
#[inline(always)]
fn count_below_from(ends: &[u32], from: usize, c: u32) -> usize
    requires rises { Run 0 (suc code_point_limit) ends.now }
    requires from { from ≤ ends_below ends.now c }
    ensures count { result ≡ ends_below ends.now c }
    ensures within { result ≤ length ends.now }
{
    if from < ends.len() && ends[from] < c {
        return count_below(ends, c);
    }
    from
}

/// Replaces the boundaries at indices `lower..upper` by `start` if `first` is true and `end` if
/// `second` is true.
#[inline(always)]
fn overwrite(
    ends: &mut Vec<u32>,
    lower: usize,
    upper: usize,
    first: bool,
    start: u32,
    second: bool,
    end: u32,
)
    requires room { lower + ((if first then 1 else 0) + (if second then 1 else 0)) ≤ upper }
    requires within { upper ≤ length ends.old.items }
    ensures { ends.new.items
        ≡ splice ends.old.items lower upper
        ((if first then start ∷ [] else []) ++ (if second then end ∷ [] else [])) }
{
    let mut place = lower;
    if first {
        ends[place] = start;
        place += 1;
    }
    if second {
        ends[place] = end;
        place += 1;
    }
    drop(ends.drain(place..upper));
}

/// Inserts two boundaries at index `place`. The boundaries after them are moved only once.
#[tactic(auto, using(crate::proofs::Splices::two_put_in))]
fn insert_two(ends: &mut Vec<u32>, place: usize, start: u32, end: u32) -> Result<(), MemoryError>
    requires { place ≤ length ends.old.items }
    ensures ok { OnOk result
        (ends.new.items ≡ splice ends.old.items place place (start ∷ end ∷ [])) }
    ensures err { OnErr result (ends.new.items ≡ ends.old.items) }
{
    let count = ends.len();
    ends.extend_from_slice(&[start, end])?;
    if place < count {
        ends.copy_within(place..count, place + 2);
        ends[place] = start;
        ends[place + 1] = end;
    }
    Ok(())
}

/// Sets the membership of all code points in `start..end` to `value`. The list grows only if the
/// range is between two neighbouring boundaries and both of its borders are inserted.
fn fill(ends: &mut Vec<u32>, start: u32, end: u32, value: bool) -> Result<(), MemoryError>
    requires valid { IsValid ends.old.items }
    requires rises { start < end }
    requires within { end ≤ code_point_limit }
    ensures ok { OnOk result (IsValid ends.new.items) }
    ensures set { OnOk result (IsFilled ends.old.items start end value ends.new.items) }
    ensures err { OnErr result (ends.new.items ≡ ends.old.items) }
{
    let lower = count_below(ends, start);
    let upper = count_below_from(ends, lower, end + 1);
    let first = (lower % 2 == 1) != value;
    let second = (upper % 2 == 1) != value;
    if first && second && lower == upper {
        insert_two(ends, lower, start, end)
    } else {
        overwrite(ends, lower, upper, first, start, second, end);
        Ok(())
    }
}

/// Removes all code points in `start..end`. The range starts or ends at the edge of the code space,
/// so the list does not grow.
fn clear_side(ends: &mut Vec<u32>, start: u32, end: u32)
    requires valid { IsValid ends.old.items }
    requires rises { start < end }
    requires within { end ≤ code_point_limit }
    requires side { (start ≡ 0) ⊎ (end ≡ code_point_limit) }
    ensures valid { IsValid ends.new.items }
    ensures set { IsFilled ends.old.items start end false ends.new.items }
{
    let lower = count_below(ends, start);
    let upper = count_below_from(ends, lower, end + 1);
    overwrite(
        ends,
        lower,
        upper,
        lower % 2 == 1,
        start,
        upper % 2 == 1,
        end,
    );
}

/// Removes all code points outside `start..end`. This does not allocate.
pub(crate) fn retain(ends: &mut Vec<u32>, start: u32, end: u32)
    requires { IsValid ends.old.items }
    ensures valid { IsValid ends.new.items }
    ensures set { Acts both ends.old.items (between start end) ends.new.items }
{
    let last = end.min(CODE_POINT_LIMIT);
    if start >= last {
        ends.clear();
    } else {
        if start > 0 {
            clear_side(ends, 0, start);
        }
        if last < CODE_POINT_LIMIT {
            clear_side(ends, last, CODE_POINT_LIMIT);
        }
    }
}

/// Adds the code points in `start..end`.
pub(crate) fn add(ends: &mut Vec<u32>, start: u32, end: u32) -> Result<(), MemoryError>
    requires { IsValid ends.old.items }
    ensures valid { IsValid ends.new.items }
    ensures ok { OnOk result (Acts either ends.old.items (between start end) ends.new.items) }
    ensures err { OnErr result (ends.new.items ≡ ends.old.items) }
{
    let last = end.min(CODE_POINT_LIMIT);
    if start < last {
        fill(ends, start, last, true)
    } else {
        Ok(())
    }
}

/// Removes the code points in `start..end`.
pub(crate) fn remove(ends: &mut Vec<u32>, start: u32, end: u32) -> Result<(), MemoryError>
    requires { IsValid ends.old.items }
    ensures valid { IsValid ends.new.items }
    ensures ok { OnOk result (Acts without ends.old.items (between start end) ends.new.items) }
    ensures err { OnErr result (ends.new.items ≡ ends.old.items) }
{
    let last = end.min(CODE_POINT_LIMIT);
    if start < last {
        fill(ends, start, last, false)
    } else {
        Ok(())
    }
}

/// Returns true if `x` is not a boundary.
fn is_new(ends: &[u32], x: u32) -> bool
    requires { Run 0 (suc code_point_limit) ends.now }
    ensures { IsTrue result ↔ (ends_below ends.now x ≡ ends_below ends.now (x + 1)) }
{
    ends.binary_search(&x).is_err()
}

/// Removes `x` if it is a boundary, and inserts it otherwise. Inserting needs spare capacity.
fn toggle(ends: &mut Vec<u32>, x: u32)
    requires rises { Run 0 (suc code_point_limit) ends.old.items }
    requires within { x ≤ code_point_limit }
    requires room { ends_below ends.old.items x ≡ ends_below ends.old.items (x + 1)
        → vec_len ends.old < vec_capacity ends.old }
    ensures rises { Run 0 (suc code_point_limit) ends.new.items }
    ensures length { is_odd (length ends.new.items) ≡ not (is_odd (length ends.old.items)) }
    ensures set { (c : ℕ) → holds ends.new.items c ≡ one_of (nat_le x c) (holds ends.old.items c) }
    ensures grows { vec_len ends.new ≤ vec_len ends.old + 1 }
    ensures shrinks { (ends_below ends.old.items x ≡ ends_below ends.old.items (x + 1) → ⊥)
        → vec_len ends.new + 1 ≡ vec_len ends.old }
    ensures capacity { vec_capacity ends.old ≤ vec_capacity ends.new }
{
    match ends.binary_search(&x) {
        Ok(place) => {
            ends.remove(place);
        }
        Err(place) => {
            let _ = ends.insert(place, x);
        }
    }
}

/// Reserves capacity for two more boundaries if `wanted` is true.
fn reserve_two(ends: &mut Vec<u32>, wanted: bool) -> Result<(), MemoryError>
    ensures same { ends.new.items ≡ ends.old.items }
    ensures room { OnOk result (wanted ≡ true → vec_len ends.new + 2 ≤ vec_capacity ends.new) }
{
    if wanted {
        ends.reserve(2)?;
    }
    Ok(())
}

/// Flips the code points in `start..end`. The list grows only if neither border is a boundary;
/// otherwise the one that is a boundary is removed first.
fn toggle_both(ends: &mut Vec<u32>, start: u32, end: u32) -> Result<(), MemoryError>
    requires valid { IsValid ends.old.items }
    requires rises { start < end }
    requires within { end ≤ code_point_limit }
    ensures valid { IsValid ends.new.items }
    ensures ok { OnOk result (Acts one_of ends.old.items (between start end) ends.new.items) }
    ensures err { OnErr result (ends.new.items ≡ ends.old.items) }
{
    let new_start = is_new(ends, start);
    let new_end = is_new(ends, end);
    reserve_two(ends, new_start && new_end)?;
    if new_start {
        toggle(ends, end);
        toggle(ends, start);
    } else {
        toggle(ends, start);
        toggle(ends, end);
    }
    Ok(())
}

/// Flips the code points in `start..end`: removes those in the set and adds the others.
pub(crate) fn flip(ends: &mut Vec<u32>, start: u32, end: u32) -> Result<(), MemoryError>
    requires { IsValid ends.old.items }
    ensures valid { IsValid ends.new.items }
    ensures ok { OnOk result (Acts one_of ends.old.items (between start end) ends.new.items) }
    ensures err { OnErr result (ends.new.items ≡ ends.old.items) }
{
    let last = end.min(CODE_POINT_LIMIT);
    if last <= start {
        return Ok(());
    }
    toggle_both(ends, start, last)
}
