//! The 18-bit form of data offsets in an index-3 block: nine cells for eight offsets.
ghost use Rattle.std.specs.Prelude.{◌≡◌, ℕ, ◌+◌, ◌*◌, ◌/◌, ◌<◌, ◌≤◌, length, slice_index, IfOk, OnOk};
ghost use Rattle.icu_zerovec.specs.CodePoints.{code_point_limit};
ghost use Rattle.icu_trie_builder.specs.Inside.Index.Layout.{AllBelow};
ghost use Rattle.icu_trie_builder.specs.Inside.Index.IndexParts.{IsGrown, high_bits, packed_cell, packed_cells};

use std::alloc::{AllocError, Global};

/// Returns bits 16 and 17 of an offset.
fn upper_bits(offsets: &[u32], i: usize) -> u32
    requires inside { i < length offsets.now }
    requires fit { AllBelow 0x40000 offsets.now }
    ensures value { result ≡ slice_index offsets.now i / 0x10000 }
    ensures below { result < 4 }
{
    offsets[i] / 0x10000
}

/// Returns the cell with bits 16 and 17 of the eight offsets from `at` on. The first offset's bits
/// are at the top.
#[tactic(auto, unfolding(crate::specs::Inside::Index::IndexParts::high_bits))]
fn high_cell(offsets: &[u32], at: usize) -> u32
    requires inside { at + 8 ≤ length offsets.now }
    requires room { length offsets.now < code_point_limit }
    requires fit { AllBelow 0x40000 offsets.now }
    ensures { result ≡ high_bits offsets.now at }
{
    let front = upper_bits(offsets, at) * 0x4000
        + upper_bits(offsets, at + 1) * 0x1000
        + upper_bits(offsets, at + 2) * 0x400
        + upper_bits(offsets, at + 3) * 0x100;
    let back = upper_bits(offsets, at + 4) * 0x40
        + upper_bits(offsets, at + 5) * 0x10
        + upper_bits(offsets, at + 6) * 4
        + upper_bits(offsets, at + 7);
    front + back
}

/// Appends the nine cells of the eight offsets from `8 * group` on to `packed`.
fn push_group(packed: &mut Vec<u32>, offsets: &[u32], group: usize) -> Result<(), AllocError>
    requires inside { 8 * group + 8 ≤ length offsets.now }
    requires room { length offsets.now < code_point_limit }
    requires fit { AllBelow 0x40000 offsets.now }
    ensures { OnOk result (IsGrown 9 (λ x. packed_cell offsets.now (9 * group + x))
        packed.old.items packed.new.items) }
{
    packed.push(high_cell(offsets, 8 * group))?;
    for q in 0..8 {
        packed.push(offsets[8 * group + q] % 0x10000)?;
    }
    Ok(())
}

/// Returns the offsets in the 18-bit form.
pub(crate) fn pack(alloc: Global, offsets: &[u32]) -> Result<Vec<u32>, AllocError>
    requires room { length offsets.now < code_point_limit }
    requires fit { AllBelow 0x40000 offsets.now }
    ensures { IfOk result (λ v. v.items ≡ packed_cells offsets.now) }
{
    let mut packed = Vec::with_capacity(alloc, offsets.len() / 8 * 9)?;
    for group in 0..offsets.len() / 8 {
        push_group(&mut packed, offsets, group)?;
    }
    Ok(packed)
}
