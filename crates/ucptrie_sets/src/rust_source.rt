//! A set as source in Rust.
ghost use Rattle.std.specs.Prelude.{◌≡◌, ◌++◌, IfOk, OnOk, string_bytes};
ghost use Rattle.ucptrie_sets.specs.SetSource.{frozen_rust, frozen_rust_head, frozen_rust_look_up, IsFrozenRust, rust_head, rust_search, rust_text};

use crate::source::{frozen_of, last_block_of, push_boundaries, push_words, title_of};
use icu_invlist::codepointinvlist::CodePointInversionList;
use std::alloc::{AllocError, Global};
use ucptab_table::pattern::Number::Decimal;
use ucptab_table::pattern::push_pattern;

/// The search in the boundaries.
const SEARCH: &str = "
    ];

    /// Returns whether the set contains `c`: whether an odd number of boundaries are at most `c`.
    pub fn contains(c: u32) -> bool {
        BOUNDARIES.partition_point(|&boundary| boundary <= c) % 2 == 1
    }
}
";

/// What precedes the boundaries. `@` is replaced by the name, and `%` by their number.
const BOUNDARIES: &str = "\
#[allow(dead_code, non_snake_case, clippy::module_inception)]
pub mod @ {
    /// The set starts at the first boundary, ends before the second one, and so on.
    #[rustfmt::skip]
    pub static BOUNDARIES: [u32; %] = [
";

/// Appends what precedes so many boundaries.
#[tactic(auto, unfolding(crate::specs::SetSource::rust_head))]
fn push_head(text: &mut String, name: &str, count: usize) -> Result<(), AllocError>
    ensures { OnOk result (string_bytes text.new
        ≡ string_bytes text.old ++ rust_head name.now count) }
{
    push_pattern(text, BOUNDARIES, name, &[Decimal(count)])
}

/// Appends the search in the boundaries.
#[tactic(auto, unfolding(crate::specs::SetSource::rust_search))]
fn push_search(text: &mut String) -> Result<(), AllocError>
    ensures { OnOk result (string_bytes text.new ≡ string_bytes text.old ++ rust_search) }
{
    text.push_str(SEARCH)
}

/// Returns the set in Rust: a module with the boundaries, and a search in them.
pub(crate) fn rust_text(
    alloc: Global,
    set: &CodePointInversionList<'_>,
    name: &str,
) -> Result<String, AllocError>
    ensures { IfOk result (λ text. string_bytes text ≡ rust_text name.now set.now) }
{
    let mut text = title_of(alloc, set)?;
    push_head(&mut text, name, set.as_inversion_list().len())?;
    push_boundaries(&mut text, set)?;
    push_search(&mut text)?;
    Ok(text)
}

/// The look-up in the words.
const LOOK_UP: &str = "
    ];

    /// Returns whether the set contains `c`, by two reads.
    pub fn contains(c: u32) -> bool {
        if c > 0x10FFFF {
            return false;
        }
        let block = (c >> 10).min(LAST_BLOCK);
        let offset = WORDS[block as usize];
        let word = WORDS[offset as usize + (c >> 6 & 15) as usize];
        (word >> (c & 63)) & 1 == 1
    }
}
";

/// What precedes the words. `@` is replaced by the name, and `%` by a number.
const WORDS: &str = "\
#[allow(dead_code, non_snake_case, clippy::module_inception)]
pub mod @ {
    /// The last block with an offset, which is that of all later blocks too.
    const LAST_BLOCK: u32 = %;

    /// The words of the frozen set, for `FrozenView` of `bekstaudi`. First come offsets, one for each
    /// block of 1,024 code points. A block's offset is the index of its sixteen words, which have a
    /// bit for each code point.
    #[rustfmt::skip]
    pub static WORDS: [u64; %] = [
";

/// Appends what precedes so many words of a frozen set, in which `last` is the last block with an
/// offset.
#[tactic(auto, unfolding(crate::specs::SetSource::frozen_rust_head))]
fn push_frozen_head(
    text: &mut String,
    name: &str,
    count: usize,
    last: usize,
) -> Result<(), AllocError>
    ensures { OnOk result (string_bytes text.new
        ≡ string_bytes text.old ++ frozen_rust_head name.now count last) }
{
    push_pattern(text, WORDS, name, &[Decimal(last), Decimal(count)])
}

/// Appends the look-up in the words of a frozen set.
#[tactic(auto, unfolding(crate::specs::SetSource::frozen_rust_look_up))]
fn push_look_up(text: &mut String) -> Result<(), AllocError>
    ensures { OnOk result (string_bytes text.new ≡ string_bytes text.old ++ frozen_rust_look_up) }
{
    text.push_str(LOOK_UP)
}

/// Appends a module with the words of a frozen set, and a look-up in them.
fn push_frozen(text: &mut String, words: &[u64], name: &str) -> Result<(), AllocError>
    ensures { OnOk result (string_bytes text.new
        ≡ string_bytes text.old ++ frozen_rust name.now words.now) }
{
    push_frozen_head(text, name, words.len(), last_block_of(words))?;
    push_words(text, words)?;
    push_look_up(text)
}

/// Returns the frozen set in Rust: a module with its words, and a look-up in them.
pub(crate) fn frozen_rust_text(
    alloc: Global,
    set: &CodePointInversionList<'_>,
    name: &str,
) -> Result<String, AllocError>
    ensures { IfOk result (λ text. IsFrozenRust name.now set.now (string_bytes text)) }
{
    let frozen = frozen_of(alloc, set)?;
    let mut text = title_of(alloc, set)?;
    push_frozen(&mut text, frozen.as_words(), name)?;
    Ok(text)
}
