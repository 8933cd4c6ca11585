//! A set in Rust as a static set of the crate `bekstaudi`.
ghost use Rattle.std.specs.Prelude.{◌≡◌, ◌++◌, map, IfOk, OnOk, string_bytes};
ghost use Rattle.std.specs.Char.{to_ascii_uppercase};
ghost use Rattle.ucptrie_sets.specs.SetSource.{static_end, static_head, static_text};

use crate::source::{push_boundaries, title_of};
use icu_invlist::codepointinvlist::CodePointInversionList;
use std::alloc::{AllocError, Global};
use ucptab_table::pattern::push_named;

/// What precedes the boundaries. `@` is replaced by the name in capitals.
const HEAD: &str = "\
/// The set `@`.
#[allow(dead_code)]
#[rustfmt::skip]
pub static @: bekstaudi::codepointinvlist::CodePointInversionList<'static> =
    bekstaudi::codepointinvlist::CodePointInversionList::from_static(bekstaudi::zeroslice!(
        bekstaudi::zerovec::PotentialCodePoint as u32; [
";

/// What follows the boundaries.
const END: &str = "
    ]));
";

/// Returns a text with its ASCII letters in capitals.
fn capitals(alloc: Global, text: &str) -> Result<String, AllocError>
    ensures { IfOk result (λ capitals. string_bytes capitals ≡ map to_ascii_uppercase text.now) }
{
    let mut capitals = String::new(alloc);
    capitals.push_str(text)?;
    capitals.make_ascii_uppercase();
    Ok(capitals)
}

/// Appends what precedes the boundaries of a set with this name.
#[tactic(auto, unfolding(crate::specs::SetSource::static_head))]
fn push_head(text: &mut String, alloc: Global, name: &str) -> Result<(), AllocError>
    ensures { OnOk result (string_bytes text.new ≡ string_bytes text.old ++ static_head name.now) }
{
    let capitals = capitals(alloc, name)?;
    push_named(text, HEAD, capitals.as_str())
}

/// Appends what follows the boundaries.
#[tactic(auto, unfolding(crate::specs::SetSource::static_end))]
fn push_end(text: &mut String) -> Result<(), AllocError>
    ensures { OnOk result (string_bytes text.new ≡ string_bytes text.old ++ static_end) }
{
    text.push_str(END)
}

/// Returns the set in Rust: a static set, whose name is this one in capitals.
pub(crate) fn static_text(
    alloc: Global,
    set: &CodePointInversionList<'_>,
    name: &str,
) -> Result<String, AllocError>
    ensures { IfOk result (λ text. string_bytes text ≡ static_text name.now set.now) }
{
    let mut text = title_of(alloc, set)?;
    push_head(&mut text, alloc, name)?;
    push_boundaries(&mut text, set)?;
    push_end(&mut text)?;
    Ok(text)
}
