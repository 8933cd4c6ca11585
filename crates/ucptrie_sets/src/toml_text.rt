//! A set in TOML, as ICU's icuexportdata writes it.
ghost use Rattle.std.specs.Prelude.{◌≡◌, ◌++◌, IfOk, OnOk, string_bytes};
ghost use Rattle.ucptrie_sets.specs.SetToml.{toml_head, toml_range, toml_ranges, toml_text};

use icu_invlist::codepointinvlist::CodePointInversionList;
use std::alloc::{AllocError, Global};
use std::ops::RangeInclusive;
use ucptab_table::pattern::Number::Hexadecimal;
use ucptab_table::pattern::{push_named, push_pattern};

/// What precedes the ranges. Each `@` is replaced by the name.
const HEAD: &str = "\
[[binary_property]]
long_name = \"@\"
short_name = \"@\"
# Inclusive ranges of the code points in the set.
ranges = [
";

/// Appends what precedes the ranges.
#[tactic(auto, unfolding(crate::specs::SetToml::toml_head))]
fn push_head(text: &mut String, name: &str) -> Result<(), AllocError>
    ensures { OnOk result (string_bytes text.new ≡ string_bytes text.old ++ toml_head name.now) }
{
    push_named(text, HEAD, name)
}

/// Appends the line of a range.
fn push_range(text: &mut String, range: &RangeInclusive<u32>) -> Result<(), AllocError>
    ensures { OnOk result (string_bytes text.new
        ≡ string_bytes text.old ++ toml_range range.now) }
{
    let bounds = [Hexadecimal(*range.start()), Hexadecimal(*range.end())];
    push_pattern(text, "  [%, %],\n", "", &bounds)
}

/// Appends the lines of the ranges of a set, in ascending order.
fn push_ranges(text: &mut String, set: &CodePointInversionList<'_>) -> Result<(), AllocError>
    ensures { OnOk result (string_bytes text.new
        ≡ string_bytes text.old ++ toml_ranges set.now) }
{
    for range in set.iter_ranges() {
        push_range(text, &range)?;
    }
    Ok(())
}

/// Returns the set in TOML: a property with this long and short name.
pub(crate) fn toml_text(
    alloc: Global,
    set: &CodePointInversionList<'_>,
    name: &str,
) -> Result<String, AllocError>
    ensures { IfOk result (λ text. string_bytes text ≡ toml_text name.now set.now) }
{
    let mut text = String::new(alloc);
    push_head(&mut text, name)?;
    push_ranges(&mut text, set)?;
    text.push_str("]\n")?;
    Ok(text)
}
