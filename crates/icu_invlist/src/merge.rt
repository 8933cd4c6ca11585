//! Merging of two lists of boundaries, for the four operations on two sets.
//!
//! The merge goes through the boundaries of both lists in ascending order. After each of them, the
//! parity of the number of boundaries passed in a list says whether the next code points are in its
//! set. From both parities follows whether they are in the result. If that changes at a boundary,
//! the boundary is one of the result.
//!
//! Up to the next boundary of the other list, the boundaries of one list are either all written or
//! all skipped. When one list is used up, the rest of the other is either copied or dropped.
ghost use Rattle.std.specs.Prelude.{◌≡◌, ◌≢◌, ℕ, ◌+◌, ◌-◌, ◌^◌, ◌<◌, ◌≤◌, if◌then◌else◌, Bool, true, false, refl, List, [], length, slice_index, set, drop, ◌⊎◌, IfOk, OnOk, OnErr, IsTrue};
ghost use Rattle.icu_invlist.specs.InversionList.{IsValid, holds, Acts, between, either, without, both, one_of};
ghost use Rattle.icu_invlist.specs.Merge.{HasMerged};
ghost use Rattle.icu_invlist.specs.Inside.Merging.{StandBefore};
ghost use Rattle.icu_invlist.specs.Inside.MergeSteps.{MergeSteps, filled_from};

use crate::boundaries::Boundaries;
use crate::codepointinvlist::CodePointInversionList;
use crate::fill;
use icu_zerovec::{MemoryError, PotentialCodePoint, ZeroSlice};
use std::alloc::Global;

/// An operation on two sets, code point by code point.
pub trait SetOperation {
    /// Whether a code point is in the result, from its membership in the two sets.
    ghost gives: { Bool → Bool → Bool };

    /// Returns whether a code point is in the result, from its membership in the two sets.
    fn of(first: bool, second: bool) -> bool
        ensures { result ≡ gives first second };

    /// Applies the operation to a set and the range `start..end`. `ends` are the boundaries of the
    /// set.
    fn of_range(ends: &mut Vec<u32>, start: u32, end: u32) -> Result<(), MemoryError>
        requires { IsValid ends.old.items }
        ensures valid { IsValid ends.new.items }
        ensures ok { OnOk result (Acts gives ends.old.items (between start end) ends.new.items) }
        ensures err { OnErr result (ends.new.items ≡ ends.old.items) };

    /// A code point in neither set is not in the result.
    ghost none: { gives false false ≡ false };

    /// If code points only in the second set are in the result, so are those only in the first.
    ghost first_kept: { gives false true ≡ true → gives true false ≡ true };
}

/// Code points in at least one of the sets.
pub struct Union;

impl SetOperation for Union {
    ghost gives = { either };

    ghost none = { refl };

    ghost first_kept = { λ _. refl };

    fn of(first: bool, second: bool) -> bool {
        first || second
    }

    fn of_range(ends: &mut Vec<u32>, start: u32, end: u32) -> Result<(), MemoryError> {
        fill::add(ends, start, end)
    }
}

/// Code points in the first set but not in the second.
pub struct Difference;

impl SetOperation for Difference {
    ghost gives = { without };

    ghost none = { refl };

    ghost first_kept = { λ _. refl };

    fn of(first: bool, second: bool) -> bool {
        first && !second
    }

    fn of_range(ends: &mut Vec<u32>, start: u32, end: u32) -> Result<(), MemoryError> {
        fill::remove(ends, start, end)
    }
}

/// Code points in both sets.
pub struct Intersection;

impl SetOperation for Intersection {
    ghost gives = { both };

    ghost none = { refl };

    ghost first_kept = { λ h. h };

    fn of(first: bool, second: bool) -> bool {
        first && second
    }

    fn of_range(ends: &mut Vec<u32>, start: u32, end: u32) -> Result<(), MemoryError> {
        fill::retain(ends, start, end);
        Ok(())
    }
}

/// Code points in exactly one of the sets.
pub struct SymmetricDifference;

impl SetOperation for SymmetricDifference {
    ghost gives = { one_of };

    ghost none = { refl };

    ghost first_kept = { λ _. refl };

    fn of(first: bool, second: bool) -> bool {
        first != second
    }

    fn of_range(ends: &mut Vec<u32>, start: u32, end: u32) -> Result<(), MemoryError> {
        fill::flip(ends, start, end)
    }
}

/// The progress of a merge: how many boundaries of each list it has passed, and how many it has
/// written.
#[derive(Clone, Copy)]
struct Walk {
    first: usize,
    second: usize,
    written: usize,
}

/// Puts a boundary at index `written` of the buffer if it is wanted and there is room. Returns the
/// next index.
#[inline(always)]
fn put(out: &mut [u32], written: usize, end: u32, wanted: bool) -> usize
    requires { written + 1 < 2 ^ 64 }
    ensures next { result ≡ (if wanted then written + 1 else written) }
    ensures out { out.new ≡ (if wanted then set out.old written end else out.old) }
{
    if !wanted {
        return written;
    }
    if written < out.len() {
        out[written] = end;
    }
    written + 1
}

/// Passes the boundaries of the first list that are below the next one of the second. The result
/// changes at all of them or at none.
#[inline(always)]
fn pass_first<O: SetOperation, A: Boundaries, B: Boundaries>(
    a: A,
    b: B,
    out: &mut [u32],
    walk: Walk,
) -> Walk
    ghost base: { List ℕ }
    requires left { walk.second < length (B.list b) }
    requires walks { MergeSteps O.gives (A.list a) (B.list b) base out.old
        walk.first walk.second walk.written }
    ensures walks { MergeSteps O.gives (A.list a) (B.list b) base out.new
        result.first result.second result.written }
    ensures kept { result.second ≡ walk.second }
    ensures forward { walk.first ≤ result.first }
    ensures ahead { result.first < length (A.list a)
        → slice_index (B.list b) walk.second ≤ slice_index (A.list a) result.first }
{
    let end = b.at(walk.second);
    let second = walk.second % 2 == 1;
    let changes = O::of(true, second) != O::of(false, second);
    let count = a.count();
    let mut first = walk.first;
    let mut written = walk.written;
    while first < count {
        let next = a.at(first);
        if end <= next {
            break;
        }
        written = put(out, written, next, changes);
        first += 1;
    }
    Walk {
        first,
        second: walk.second,
        written,
    }
}

/// Passes the boundaries of the second list that are below the next one of the first. The result
/// changes at all of them or at none.
#[inline(always)]
fn pass_second<O: SetOperation, A: Boundaries, B: Boundaries>(
    a: A,
    b: B,
    out: &mut [u32],
    walk: Walk,
) -> Walk
    ghost base: { List ℕ }
    requires left { walk.first < length (A.list a) }
    requires walks { MergeSteps O.gives (A.list a) (B.list b) base out.old
        walk.first walk.second walk.written }
    ensures walks { MergeSteps O.gives (A.list a) (B.list b) base out.new
        result.first result.second result.written }
    ensures kept { result.first ≡ walk.first }
    ensures forward { walk.second ≤ result.second }
    ensures ahead { result.second < length (B.list b)
        → slice_index (A.list a) walk.first ≤ slice_index (B.list b) result.second }
{
    let end = a.at(walk.first);
    let first = walk.first % 2 == 1;
    let changes = O::of(first, true) != O::of(first, false);
    let count = b.count();
    let mut second = walk.second;
    let mut written = walk.written;
    while second < count {
        let next = b.at(second);
        if end <= next {
            break;
        }
        written = put(out, written, next, changes);
        second += 1;
    }
    Walk {
        first: walk.first,
        second,
        written,
    }
}

/// Passes the boundaries that are next in both lists. The result changes at all of them or at none.
#[inline(always)]
fn pass_both<O: SetOperation, A: Boundaries, B: Boundaries>(
    a: A,
    b: B,
    out: &mut [u32],
    walk: Walk,
) -> Walk
    ghost base: { List ℕ }
    requires { MergeSteps O.gives (A.list a) (B.list b) base out.old
        walk.first walk.second walk.written }
    ensures walks { MergeSteps O.gives (A.list a) (B.list b) base out.new
        result.first result.second result.written }
    ensures forward { (walk.first ≤ result.first) × (walk.second ≤ result.second) }
    ensures apart { result.first < length (A.list a) → result.second < length (B.list b)
        → slice_index (A.list a) result.first ≢ slice_index (B.list b) result.second }
{
    let first = walk.first % 2 == 1;
    let second = walk.second % 2 == 1;
    let changes = O::of(first, second) != O::of(!first, !second);
    let first_count = a.count();
    let second_count = b.count();
    let mut passed = walk;
    while passed.first < first_count && passed.second < second_count {
        let end = a.at(passed.first);
        if end != b.at(passed.second) {
            break;
        }
        passed = Walk {
            written: put(out, passed.written, end, changes),
            first: passed.first + 1,
            second: passed.second + 1,
        };
    }
    passed
}

/// Passes boundaries of the first list only, then common ones, then boundaries of the second list
/// only: at least one in total.
#[tactic(auto, using(crate::proofs::Merging::some_passed))]
#[inline(always)]
fn pass_some<O: SetOperation, A: Boundaries, B: Boundaries>(
    a: A,
    b: B,
    out: &mut [u32],
    walk: Walk,
) -> Walk
    ghost base: { List ℕ }
    requires first { walk.first < length (A.list a) }
    requires second { walk.second < length (B.list b) }
    requires walks { MergeSteps O.gives (A.list a) (B.list b) base out.old
        walk.first walk.second walk.written }
    ensures walks { MergeSteps O.gives (A.list a) (B.list b) base out.new
        result.first result.second result.written }
    ensures forward { walk.first + walk.second < result.first + result.second }
{
    let before = pass_first::<O, A, B>(a, b, out, walk);
    let passed = pass_both::<O, A, B>(a, b, out, before);
    if passed.first < a.count() {
        pass_second::<O, A, B>(a, b, out, passed)
    } else {
        passed
    }
}

/// Merges until one of the lists is used up.
#[tactic(auto, using(crate::proofs::MergeLemmas::walks_none))]
fn pass_all<O: SetOperation, A: Boundaries, B: Boundaries>(a: A, b: B, out: &mut [u32]) -> Walk
    ghost base: { List ℕ }
    requires first { IsValid (A.list a) }
    requires second { IsValid (B.list b) }
    requires base { out.old ≡ base }
    ensures walks { MergeSteps O.gives (A.list a) (B.list b) base out.new
        result.first result.second result.written }
    ensures passed { (result.first ≡ length (A.list a)) ⊎ (result.second ≡ length (B.list b)) }
{
    let mut walk = Walk {
        first: 0,
        second: 0,
        written: 0,
    };
    let first_count = a.count();
    let second_count = b.count();
    while walk.first < first_count && walk.second < second_count {
        walk = pass_some::<O, A, B>(a, b, out, walk);
    }
    walk
}

/// Returns the index from which the rest of a list is written: `index` if the rest is wanted, and
/// otherwise `len`, so that nothing is written.
fn rest_from(wanted: bool, index: usize, len: usize) -> usize
    ensures { result ≡ (if wanted then index else len) }
{
    if wanted { index } else { len }
}

/// Puts the boundaries from index `from` on into the buffer, and returns the next index.
#[inline(always)]
fn put_rest<A: Boundaries>(a: A, from: usize, out: &mut [u32], written: usize) -> usize
    requires from { from ≤ length (A.list a) }
    requires small { written + length (A.list a) < 2 ^ 64 }
    ensures next { result ≡ written + (length (A.list a) - from) }
    ensures out { out.new ≡ filled_from out.old written (drop from (A.list a)) }
{
    let count = a.count();
    let end = out.len().min(written + (count - from));
    if written < end {
        a.copy_to(from, &mut out[written..end]);
    }
    written + (count - from)
}

/// Writes the boundaries of the result of an operation on two sets into a buffer, as many as fit,
/// and returns how many there are.
pub fn merge<O: SetOperation, A: Boundaries, B: Boundaries>(a: A, b: B, out: &mut [u32]) -> usize
    requires a { IsValid (A.list a) }
    requires b { IsValid (B.list b) }
    ensures merged { HasMerged O.gives (A.list a) (B.list b) out.old out.new result }
    ensures few { result ≤ length (A.list a) + length (B.list b) }
{
    let walk = pass_all::<O, A, B>(a, b, out);
    let first = rest_from(O::of(true, false), walk.first, a.count());
    let written = put_rest(a, first, out, walk.written);
    let second = rest_from(O::of(false, true), walk.second, b.count());
    put_rest(b, second, out, written)
}

/// Returns the boundaries of the result of an operation on the set with the boundaries `a` and another
/// set. It allocates once, before the merge.
fn merged<O: SetOperation>(
    alloc: Global,
    a: &[u32],
    b: &CodePointInversionList<'_>,
) -> Result<Vec<u32>, MemoryError>
    requires { IsValid a.now }
    ensures valid { IfOk result (λ v. IsValid v.items) }
    ensures set { IfOk result (λ v. Acts O.gives a.now (holds b.now) v.items) }
{
    let mut ends = Vec::from_elem(alloc, 0, a.len() + b.count())?;
    let count = merge::<O, &[u32], ZeroSlice<'_, PotentialCodePoint>>(
        a,
        b.packed().as_slice(),
        &mut ends,
    );
    ends.truncate(count);
    Ok(ends)
}

/// Returns true if all boundaries in `ends` are below those of `set`, which includes the case that
/// one of them has none.
#[tactic(auto, using(crate::proofs::Merging::stand_by_ends, crate::proofs::Merging::stand_of_none, crate::proofs::Merging::stand_before_none))]
fn stand_before(ends: &[u32], set: &CodePointInversionList<'_>) -> bool
    requires { IsValid ends.now }
    ensures apart { IsTrue result → StandBefore ends.now set.now }
    ensures valid { IsValid set.now }
{
    let count = ends.len();
    let others = set.count();
    if count == 0 || others == 0 {
        return true;
    }
    ends[count - 1] < set.end_at(0)
}

/// Returns true if all boundaries of `set` are below those in `ends`, which includes the case that
/// one of them has none.
#[tactic(auto, using(crate::proofs::Merging::stand_by_ends, crate::proofs::Merging::stand_of_none, crate::proofs::Merging::stand_before_none))]
fn stand_past(ends: &[u32], set: &CodePointInversionList<'_>) -> bool
    requires { IsValid ends.now }
    ensures { IsTrue result → StandBefore set.now ends.now }
{
    let count = ends.len();
    let others = set.count();
    if count == 0 || others == 0 {
        return true;
    }
    set.end_at(others - 1) < ends[0]
}

/// Leaves what remains of a set that has no code point in common with the other: the set itself or
/// the empty set.
fn leave<O: SetOperation>(ends: &mut Vec<u32>)
    ensures { ends.new.items ≡ (if O.gives true false then ends.old.items else []) }
{
    if !O::of(true, false) {
        ends.clear();
    }
}

/// Applies the operation to the set with the boundaries `ends` and to `set`.
///
/// There is no merge if all of `ends` are below the boundaries of `set`. For difference and
/// intersection there is none either if they are above. Then memory is allocated only if boundaries
/// are appended. A `set` of one range is applied as a range.
#[inline]
pub(crate) fn change<O: SetOperation>(
    alloc: Global,
    ends: &mut Vec<u32>,
    set: &CodePointInversionList<'_>,
) -> Result<(), MemoryError>
    requires { IsValid ends.old.items }
    ensures valid { IsValid ends.new.items }
    ensures ok { OnOk result (Acts O.gives ends.old.items (holds set.now) ends.new.items) }
    ensures err { OnErr result (ends.new.items ≡ ends.old.items) }
{
    if O::of(false, true) {
        if stand_before(ends, set) {
            set.push_ends(ends, 0)?;
            return Ok(());
        }
    } else if stand_before(ends, set) || stand_past(ends, set) {
        leave::<O>(ends);
        return Ok(());
    }
    if set.count() == 2 {
        return O::of_range(ends, set.end_at(0), set.end_at(1));
    }
    *ends = merged::<O>(alloc, ends, set)?;
    Ok(())
}
