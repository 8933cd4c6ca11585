//! A table in Rust as a static trie of the crate `bekstaudi`, to follow the module of the table.
ghost use Rattle.std.specs.Prelude.{◌≡◌, ◌++◌, false, true, List, map, IfOk, OnOk, string_bytes};
ghost use Rattle.std.specs.Char.{to_ascii_uppercase};
ghost use Rattle.ucptrie_names.specs.NamesSource.{has_enum, number_type, static_enum, static_enum_head, static_numbers, static_trie, static_values, AreRustValues};
ghost use Rattle.ucptrie_names.specs.declared.value_names.EnumValue.{EnumValue};

use crate::value_names::{EnumValue, MOST, enum_name, enum_values, highest_of, push_values};
use std::alloc::{AllocError, Global};
use ucd_files::names::Name;
use ucptab_table::pattern::Number::Decimal;
use ucptab_table::pattern::{push_named, push_pattern};

/// What precedes the values of the enum. `@` is replaced by the name of the module.
const ENUM: &str = "
bekstaudi::trie_values! {
    /// The values of `@`, by name.
    #[allow(dead_code, clippy::enum_variant_names, clippy::upper_case_acronyms)]
";

/// The trie. `@` is replaced by the name of the module.
const TRIE: &str = "
/// The trie of `@`.
#[allow(dead_code)]
#[rustfmt::skip]
pub static ";

/// What follows the name of the trie. `@` is replaced by the type of its values.
const TYPE: &str = ": bekstaudi::codepointtrie::CodePointTrie<'static, @> = ";

/// Appends what precedes the values of the enum with this title, whose cells have so many bits.
fn push_enum_head(
    text: &mut String,
    module_name: &str,
    title: &str,
    bits: u32,
) -> Result<(), AllocError>
    ensures { OnOk result (string_bytes text.new
        ≡ string_bytes text.old ++ static_enum_head module_name.now title.now bits) }
{
    push_named(text, ENUM, module_name)?;
    let number = [Decimal(bits as usize)];
    push_pattern(text, "    pub enum @: u% {\n", title, &number)
}

/// Appends the enum of a module with this title, whose cells have so many bits.
pub(crate) fn push_enum(
    text: &mut String,
    module_name: &str,
    title: &str,
    bits: u32,
    values: &[EnumValue],
) -> Result<(), AllocError>
    ensures { OnOk result (string_bytes text.new
        ≡ string_bytes text.old ++ static_enum module_name.now title.now bits values.now) }
{
    push_enum_head(text, module_name, title, bits)?;
    push_values(text, "        ", "", values)?;
    text.push_str("    }\n}\n")
}

/// Returns a text with its ASCII letters in capitals.
fn capitals(alloc: Global, text: &str) -> Result<String, AllocError>
    ensures { IfOk result (λ capitals. string_bytes capitals ≡ map to_ascii_uppercase text.now) }
{
    let mut capitals = String::new(alloc);
    capitals.push_str(text)?;
    capitals.make_ascii_uppercase();
    Ok(capitals)
}

/// Appends the declaration of the trie of a module, with values of a type.
fn push_static(
    text: &mut String,
    alloc: Global,
    module_name: &str,
    value: &str,
) -> Result<(), AllocError>
    ensures { OnOk result (string_bytes text.new
        ≡ string_bytes text.old ++ static_trie module_name.now value.now) }
{
    let name = capitals(alloc, module_name)?;
    push_named(text, TRIE, module_name)?;
    text.push_str(name.as_str())?;
    push_named(text, TYPE, value)?;
    push_named(text, "bekstaudi::trie_of!(@ as ", module_name)?;
    push_named(text, "@);\n", value)
}

/// Returns the type of numbers with so many bits in Rust.
fn number_type(alloc: Global, bits: u32) -> Result<String, AllocError>
    ensures { IfOk result (λ text. string_bytes text ≡ number_type bits) }
{
    let mut text = String::new(alloc);
    push_pattern(&mut text, "u%", "", &[Decimal(bits as usize)])?;
    Ok(text)
}

/// Returns the source of a static trie with the table of a module, whose values are numbers with so
/// many bits.
fn number_source(alloc: Global, module_name: &str, bits: u32) -> Result<String, AllocError>
    ensures { IfOk result (λ text. string_bytes text ≡ static_numbers module_name.now bits) }
{
    let value = number_type(alloc, bits)?;
    let mut text = String::new(alloc);
    push_static(&mut text, alloc, module_name, value.as_str())?;
    Ok(text)
}

/// Returns the source of a static trie with the table of a module, and before it the enum of its
/// values, whose cells have so many bits.
fn enum_source(
    alloc: Global,
    module_name: &str,
    bits: u32,
    values: &[EnumValue],
) -> Result<String, AllocError>
    ensures { IfOk result (λ text.
        string_bytes text ≡ static_values module_name.now bits values.now) }
{
    let title = enum_name(alloc, module_name)?;
    let mut text = String::new(alloc);
    push_enum(&mut text, module_name, title.as_str(), bits, values)?;
    push_static(&mut text, alloc, module_name, title.as_str())?;
    Ok(text)
}

/// Returns the source of a static trie with the table of a module, whose values have so many bits.
/// If they have names, up to 4,096, they are an enum, which is declared before it.
///
/// # Errors
/// Returns [`AllocError`] if an allocation fails.
pub fn static_source(
    alloc: Global,
    module_name: &str,
    bits: u32,
    names: &[Name<'_>],
) -> Result<String, AllocError>
    ensures numbers { has_enum names.now ≡ false
        → IfOk result (λ text. string_bytes text ≡ static_numbers module_name.now bits) }
    ensures values { has_enum names.now ≡ true
        → IfOk result (λ text. (values : List EnumValue) × (AreRustValues bits names.now values
        × (string_bytes text ≡ static_values module_name.now bits values))) }
{
    if names.is_empty() || names.len() > MOST {
        return number_source(alloc, module_name, bits);
    }
    let values = enum_values(alloc, names, true, highest_of(bits))?;
    enum_source(alloc, module_name, bits, &values)
}
