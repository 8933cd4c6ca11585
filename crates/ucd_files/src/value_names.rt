//! Names of values, each of which is found without a comparison with all others.
ghost use Rattle.std.specs.Prelude.{◌≡◌, ℕ, ◌==◌, ◌∷◌, ◌++◌, [], if◌then◌else◌, slice_get, IfErr, IfOk, OnErr, OnOk};
ghost use Rattle.std.specs.List.{filter_map};
ghost use Rattle.ucd_files.specs.Inside.Groups.{group, name_hash};
ghost use Rattle.ucd_files.specs.Names.{number_named, pairs_of};

use crate::names::{Matching, Name, first_significant, is_match};
use std::alloc::{AllocError, Global};
use std::collections::HashMap;
use std::marker::Model;

/// By what a hash is multiplied before a byte is added: the prime of the hash FNV-1a.
const FACTOR: u64 = 0x100_0000_01b3;

/// Names of values with their numbers, in order. Several can be the same name: the first one
/// counts.
#[derive(Debug, Drop)]
pub struct ValueNames<'a> {
    names: Vec<Name<'a>>,
    // For each hash, the indices of the names that have it, in order. The hash is of what counts if
    // names are compared, so names that are the same are in one group, and a look-up allocates
    // nothing.
    groups: HashMap<u64, Vec<usize>>,
}

impl<'a> Model for ValueNames<'a> {
    // Contracts see the list of the names.
    ghost use Rattle.std.specs.Prelude.{List};
    ghost use Rattle.ucd_files.specs.declared.names.Name.{Name};

    ghost Value = { List Name };

    ghost use Rattle.ucd_files.specs.Inside.Groups.{AreGroups};

    ghost view = { λ v. v.names.items };

    ghost invariant = { λ v. AreGroups v.groups v.names.items };
}

/// Returns the hash of a name, which is the same for all names that are the same.
#[tactic(auto, unfolding(crate::specs::Inside::Groups::mixed, crate::specs::Inside::Groups::name_hash))]
fn hash_of(text: &[u8]) -> u64
    ensures { result ≡ name_hash text.now }
{
    let mut hash = 0u64;
    let mut rest = text;
    while let Some((byte, after)) = first_significant(rest) {
        hash = hash.wrapping_mul(FACTOR).wrapping_add(u64::from(byte));
        rest = after;
    }
    hash
}

/// Appends the index of a name to the group of its hash.
fn push_in_group(
    groups: &mut HashMap<u64, Vec<usize>>,
    hash: u64,
    index: usize,
) -> Result<(), AllocError>
    ensures ok { OnOk result ((other : ℕ) → group groups.new other
        ≡ group groups.old other ++ (if hash == other then index ∷ [] else [])) }
    ensures err { OnErr result ((other : ℕ) → group groups.new other ≡ group groups.old other) }
{
    groups.entry(hash)?.or_default().push(index)?;
    Ok(())
}

/// Returns the number of the first of the names at these indices that matches the text.
fn number_among(
    names: &[Name<'_>],
    indices: &[usize],
    matching: Matching,
    text: &[u8],
) -> Option<usize>
    ensures { result
        ≡ number_named matching (filter_map (slice_get names.now) indices.now) text.now }
{
    for index in indices {
        if let Some(name) = names.get(*index) {
            if is_match(matching, name.text, text) {
                return Some(name.number);
            }
        }
    }
    None
}

impl<'a> ValueNames<'a> {
    /// Creates an empty list of names. Allocates nothing.
    pub fn new(alloc: Global) -> Self
        ensures { result ≡ [] }
    {
        ValueNames {
            names: Vec::new(alloc),
            groups: HashMap::new(alloc),
        }
    }

    /// Returns the names in order.
    pub fn as_slice(&self) -> &[Name<'a>]
        ensures { result.now ≡ self.now }
    {
        self.names.as_slice()
    }

    /// Returns the number of the first of the names that matches the text.
    #[tactic(auto, using(crate::proofs::GroupLemmas::number_in_group, crate::proofs::GroupLemmas::none_in_group))]
    pub fn number_named(&self, matching: Matching, text: &[u8]) -> Option<usize>
        ensures { result ≡ number_named matching self.now text.now }
    {
        let group = self.groups.get(&hash_of(text))?;
        number_among(self.names.as_slice(), group, matching, text)
    }

    /// Appends a name with its number.
    ///
    /// # Errors
    /// Returns [`AllocError`] if an allocation fails. The names are unchanged then.
    pub fn push(&mut self, number: usize, text: &'a [u8]) -> Result<(), AllocError>
        ensures ok { IfOk result
            (λ _. pairs_of self.new ≡ pairs_of self.old ++ (text.now, number) ∷ []) }
        ensures err { IfErr result (λ _. pairs_of self.new ≡ pairs_of self.old) }
    {
        self.names.reserve(1)?;
        push_in_group(&mut self.groups, hash_of(text), self.names.len())?;
        self.names.push_reserved(Name { text, number });
        Ok(())
    }
}
