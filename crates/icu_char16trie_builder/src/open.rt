//! Turns a node of entries into the steps that write it. The step to be taken first is pushed last.
ghost use Rattle.std.specs.Prelude.{slice_get, ◌≡◌, ℕ, ℤ, ◌+◌, ◌-◌, ◌*◌, ◌^◌, ◌<◌, ◌≤◌, List, [], ◌∷◌, ◌++◌, Some, None, length, drop, reverse, OnOk, IfSome};
ghost use Rattle.icu_char16trie.specs.UnitMap.{UnitMap, IsAscendingKeys};
ghost use Rattle.icu_char16trie_builder.specs.Inside.Cuts.{cut, room, AllLonger, IsBelow, IsGroup, arm_units, arm_map, arm_room, IsPart};
ghost use Rattle.icu_char16trie_builder.specs.Inside.Written.{own_entry};
ghost use Rattle.icu_char16trie_builder.specs.Inside.Steps.{part_of, node_of, room_of, PutsInFront, Leads, cost};
ghost use Rattle.icu_char16trie_builder.specs.declared.known.KnownNode.{KnownNode};
ghost use Rattle.icu_char16trie_builder.specs.declared.step.Step.TheVariants.{Node};

use crate::arms::{arms_of, shared_len};
use crate::entry::{Arm, Entry};
use crate::level::write_tail;
use crate::step::Step;
use icu_char16trie::impl_const::{MAX_BRANCH_LINEAR_SUB_NODE_LENGTH, MAX_LINEAR_MATCH_LENGTH};
use std::alloc::{AllocError, Global};

/// Returns the value of an arm whose only key ends at `depth`.
fn final_value(arm: Arm<'_>, depth: usize) -> Option<i32>
    ensures { IfSome result (λ v. cut depth arm.entry.entries.now ≡ ([], v) ∷ []) }
{
    if let Some((only, rest)) = arm.entries.split_first() {
        if rest.is_empty() && only.key.len() <= depth {
            return Some(only.value);
        }
    }
    None
}

/// Returns the units of a key from `depth` on.
pub(crate) fn units_from(key: &[u16], depth: usize) -> &[u16]
    ensures { result.now ≡ drop depth key.now }
{
    if key.len() < depth {
        return key.split_at(key.len()).1;
    }
    key.split_at(depth).1
}

/// Returns the first arm.
fn first_arm<'a>(arms: &[Arm<'a>]) -> Arm<'a>
    requires { 0 < length arms.now }
    ensures { arms.now ≡ result ∷ drop 1 arms.now }
{
    arms[0]
}

/// Adds the steps of the part of a branch with these arms. The first `depth` units of their keys
/// have been passed.
///
/// More than five arms are split in halves; of at most five, one is taken at a time. There are at
/// most 65,536 arms, so the recursion is at most 18 deep.
fn push_part<'a>(
    steps: &mut Vec<Step<'a>>,
    arms: &[Arm<'a>],
    depth: usize,
) -> Result<(), AllocError>
    requires { IsPart depth arms.now }
    ensures gives { OnOk result
        (PutsInFront steps.old.items steps.new.items (part_of depth arms.now)) }
    ensures cost { OnOk result
        (cost steps.new.items + 5 ≤ cost steps.old.items + arm_room depth arms.now) }
{
    if arms.len() > MAX_BRANCH_LINEAR_SUB_NODE_LENGTH {
        let (lower, upper) = arms.split_at(arms.len() / 2);
        steps.push(Step::Split(first_arm(upper).unit))?;
        push_part(steps, upper, depth)?;
        steps.push(Step::Save)?;
        push_part(steps, lower, depth)?;
        return Ok(());
    }
    let first = first_arm(arms);
    let rest = arms.split_at(1).1;
    if rest.is_empty() {
        steps.push(Step::Last(first.unit))?;
        steps.push(Step::Node(first.entries, depth))?;
        return Ok(());
    }
    if let Some(value) = final_value(first, depth) {
        steps.push(Step::Value(first.unit, value))?;
        push_part(steps, rest, depth)?;
        return Ok(());
    }
    steps.push(Step::Jump(first.unit))?;
    push_part(steps, rest, depth)?;
    steps.push(Step::Place(first.entries, depth))?;
    Ok(())
}

/// Adds the steps of a linear match: the unit that all keys have at `depth`, and up to fifteen more
/// that they share.
fn push_run<'a>(
    steps: &mut Vec<Step<'a>>,
    first: &Entry<'a>,
    entries: &'a [Entry<'a>],
    depth: usize,
    value: Option<i32>,
) -> Result<(), AllocError>
    requires first { slice_get entries.now 0 ≡ Some first.now }
    requires deep { depth < length first.now.key.now }
    requires some { 0 < length entries.now }
    requires many { 1 < length (own_entry value) + length entries.now }
    requires group { (u : ℕ) × IsGroup depth u entries.now }
    requires ascends { IsAscendingKeys (cut depth entries.now) }
    ensures gives { OnOk result
        (PutsInFront steps.old.items steps.new.items (node_of value depth entries.now)) }
    ensures cost { OnOk result
        (cost steps.new.items + 7 ≤ cost steps.old.items + room_of value depth entries.now) }
{
    let units = units_from(first.key, depth);
    let most = MAX_LINEAR_MATCH_LENGTH as usize - 1;
    let shared = 1 + shared_len(units_from(units, 1), entries, depth + 1, most);
    steps.push(Step::Run(units.split_at(shared).0, value))?;
    steps.push(Step::Node(entries, depth + shared))?;
    Ok(())
}

/// Adds the steps of a match node: a linear match if all keys continue with one unit, and otherwise
/// a branch. `value` is that of the key that ends at `depth`.
fn push_match<'a>(
    alloc: Global,
    steps: &mut Vec<Step<'a>>,
    first: &Entry<'a>,
    entries: &'a [Entry<'a>],
    depth: usize,
    value: Option<i32>,
) -> Result<(), AllocError>
    requires first { slice_get entries.now 0 ≡ Some first.now }
    requires deep { depth < length first.now.key.now }
    requires some { 0 < length entries.now }
    requires many { 1 < length (own_entry value) + length entries.now }
    requires longer { AllLonger depth entries.now }
    requires ascends { IsAscendingKeys (cut depth entries.now) }
    ensures gives { OnOk result
        (PutsInFront steps.old.items steps.new.items (node_of value depth entries.now)) }
    ensures cost { OnOk result
        (cost steps.new.items + 7 ≤ cost steps.old.items + room_of value depth entries.now) }
{
    let arms = arms_of(alloc, entries, depth)?;
    if arms.len() > 1 {
        steps.push(Step::Branch(arms.len(), value))?;
        push_part(steps, arms.as_slice(), depth + 1)?;
        return Ok(());
    }
    push_run(steps, first, entries, depth, value)
}

/// Adds the steps of the match node of entries whose keys have more than `depth` units.
fn push_entries<'a>(
    alloc: Global,
    steps: &mut Vec<Step<'a>>,
    entries: &'a [Entry<'a>],
    depth: usize,
    value: Option<i32>,
) -> Result<(), AllocError>
    requires some { 0 < length entries.now }
    requires many { 1 < length (own_entry value) + length entries.now }
    requires longer { AllLonger depth entries.now }
    requires ascends { IsAscendingKeys (cut depth entries.now) }
    ensures gives { OnOk result
        (PutsInFront steps.old.items steps.new.items (node_of value depth entries.now)) }
    ensures cost { OnOk result
        (cost steps.new.items + 7 ≤ cost steps.old.items + room_of value depth entries.now) }
{
    if let Some(first) = entries.first() {
        push_match(alloc, steps, first, entries, depth, value)?;
    }
    Ok(())
}

/// Adds the steps of the node of several entries. The first key may end at `depth`.
fn push_node<'a>(
    alloc: Global,
    steps: &mut Vec<Step<'a>>,
    entries: &'a [Entry<'a>],
    depth: usize,
) -> Result<(), AllocError>
    requires many { 1 < length entries.now }
    requires ascends { IsAscendingKeys (cut depth entries.now) }
    ensures gives { OnOk result
        (PutsInFront steps.old.items steps.new.items (node_of None depth entries.now)) }
    ensures cost { OnOk result
        (cost steps.new.items + 7 ≤ cost steps.old.items + room depth entries.now) }
{
    if let Some((first, rest)) = entries.split_first() {
        if first.key.len() <= depth {
            push_entries(alloc, steps, rest, depth, Some(first.value))?;
            return Ok(());
        }
        push_entries(alloc, steps, entries, depth, None)?;
    }
    Ok(())
}

/// Opens the node of entries whose keys have passed `depth` units. Writes the node if it has one
/// entry, and otherwise adds its steps.
pub(crate) fn open_node<'a>(
    alloc: Global,
    out: &mut Vec<u16>,
    steps: &mut Vec<Step<'a>>,
    entries: &'a [Entry<'a>],
    depth: usize,
) -> Result<(), AllocError>
    requires below { IsBelow depth entries.now }
    ensures leads { OnOk result ((places : List ℕ) (known : List KnownNode) (goal : UnitMap)
        → Leads (reverse out.old.items) places known
        (Node entries.entry depth ∷ reverse steps.old.items) goal
        → Leads (reverse out.new.items) places known (reverse steps.new.items) goal) }
    ensures spent { OnOk result (length out.new.items + cost steps.new.items + 6
        ≤ length out.old.items + cost steps.old.items + room depth entries.now) }
    ensures less { OnOk result
        (cost steps.new.items + 7 ≤ cost steps.old.items + room depth entries.now) }
{
    if let Some((first, rest)) = entries.split_first() {
        if rest.is_empty() {
            write_tail(out, units_from(first.key, depth), first.value)?;
            return Ok(());
        }
        push_node(alloc, steps, entries, depth)?;
    }
    Ok(())
}
