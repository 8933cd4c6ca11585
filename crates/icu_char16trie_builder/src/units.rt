//! The units of a trie of entries.
ghost use Rattle.std.specs.Prelude.{◌≡◌, ℕ, ◌+◌, ◌-◌, ◌*◌, ◌^◌, ◌<◌, ◌≤◌, List, length, reverse, IfOk};
ghost use Rattle.icu_char16trie.specs.Grammar.{Holds};
ghost use Rattle.icu_char16trie_builder.specs.Inside.Cuts.{cut, room, IsBelow};

use crate::entry::Entry;
use crate::known::Known;
use crate::step::{Step, take_step};
use std::alloc::{AllocError, Global};

/// Returns the units of a trie of entries whose keys ascend: at most two for each unit of a key,
/// and sixteen for each entry.
pub(crate) fn units_of(alloc: Global, entries: &[Entry<'_>]) -> Result<Vec<u16>, AllocError>
    requires below { IsBelow 0 entries.now }
    requires few { room 0 entries.now < 2 ^ 32 }
    ensures node { IfOk result (λ units. Holds units.items 0 (cut 0 entries.now)) }
    ensures bound { IfOk result (λ units. length units.items ≤ room 0 entries.now) }
{
    let mut out = Vec::new(alloc);
    let mut places = Vec::new(alloc);
    let mut steps = Vec::new(alloc);
    steps.push(Step::Node(entries, 0))?;
    let mut known = Known::new(alloc);
    while let Some(step) = steps.pop() {
        take_step(alloc, &mut out, &mut places, &mut steps, &mut known, step)?;
    }
    out.reverse();
    Ok(out)
}
