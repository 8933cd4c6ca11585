//! Names of values in source: an enum in C or in Rust.
ghost use Rattle.std.specs.Prelude.{◌≡◌, ℕ, ◌<◌, ◌≤◌, ◌++◌, if◌then◌else◌, List, [], ◌∷◌, false, true, length, map, IfOk, OnOk, string_bytes};
ghost use Rattle.std.specs.Borrow.{Bor};
ghost use Rattle.std.specs.Char.{is_ascii_digit};
ghost use Rattle.std.specs.List.{flat_map, list_all, list_any};
ghost use Rattle.std.specs.Str.{bytes_eq};
ghost use Rattle.ucptab_table.specs.Patterns.{named};
ghost use Rattle.ucptrie_names.specs.NamesSource.{c_enum, c_enum_head, has_enum, highest_of, rust_arm, rust_attributes, rust_conversion, rust_conversion_end, rust_enum, rust_enum_head, rust_of, rust_titled, value_line, value_lines, AreRustValues};
ghost use Rattle.ucptrie_tables.specs.Source.{has_names};
ghost use Rattle.ucptrie_names.specs.declared.value_names.EnumValue.{EnumValue};
ghost use Rattle.ucptrie_names.specs.ValueIdentifiers.{before_word, c_byte, enum_name, has_name, is_longest, is_reserved, is_taken, last_byte, listed, name_length, rust_name, value_name, with_number, with_word, with_words, words, AreIdentifiers, AreValuesOf, IsFirstFree, IsWithValue};

use std::alloc::{AllocError, Global};
use ucd_files::kind::are_digits;
use ucd_files::names::Name;
use ucptab_table::pattern::Number::Decimal;
use ucptab_table::pattern::{push_named, push_number, push_pattern};
use ucptrie_tables::form::Form;

/// How many names an enum is made of at most. More are no enum that a program would use.
pub const MOST: usize = 4096;

/// Returns the bytes of a name, or 0 if it is a number, which has decimal digits alone: a value is
/// named by its number only if it has no other name.
pub(crate) fn name_length(name: &[u8]) -> usize
    ensures length { result ≡ name_length name.now }
    ensures bound { result ≤ length name.now }
{
    if are_digits(name) { 0 } else { name.len() }
}

/// Returns whether one of the names has this number and at least so many bytes.
fn has_name(names: &[Name<'_>], number: usize, least: usize) -> bool
    ensures { result ≡ has_name names.now number least }
{
    names.iter().any(|name| name.number == number && least <= name_length(name.text))
}

/// Returns whether a name is the longest one of its number, and the first such one. `from` starts
/// with the name.
fn is_longest(before: &[Name<'_>], name: &Name<'_>, from: &[Name<'_>]) -> bool
    ensures { result ≡ is_longest before.now name.now from.now }
{
    let length = name_length(name.text);
    !has_name(before, name.number, length) && !has_name(from, name.number, length + 1)
}

/// Returns what precedes the first byte of a word in Rust: `V` before a digit at the start of an
/// identifier, and `_` between two digits. `last` is the byte before the word, or 0 at the start of
/// an identifier.
fn before_word(last: u8, byte: u8) -> &'static str
    ensures { result.now ≡ before_word last byte }
{
    if !byte.is_ascii_digit() {
        return "";
    }
    if last == 0 {
        return "V";
    }
    if last.is_ascii_digit() { "_" } else { "" }
}

/// Returns the last byte of a text, or 0 if it is empty.
fn last_byte(text: &str) -> u8
    ensures { result ≡ last_byte text.now }
{
    text.as_bytes().last().copied().unwrap_or(0)
}

/// Appends an ASCII character.
fn push_ascii(text: &mut String, byte: u8) -> Result<(), AllocError>
    requires { byte < 128 }
    ensures { OnOk result (string_bytes text.new ≡ string_bytes text.old ++ byte ∷ []) }
{
    text.push(char::from(byte))
}

/// Appends a letter or digit of a word. The first one of a word is a capital letter.
fn push_letter(text: &mut String, is_first: bool, byte: u8) -> Result<(), AllocError>
    requires { byte < 128 }
    ensures { OnOk result (string_bytes text.new ≡ (if is_first
        then with_word (string_bytes text.old) (byte ∷ [])
        else string_bytes text.old ++ byte ∷ [])) }
{
    if is_first {
        let last = last_byte(text.as_str());
        text.push_str(before_word(last, byte))?;
        return push_ascii(text, byte.to_ascii_uppercase());
    }
    push_ascii(text, byte)
}

/// Appends the words of a name in upper camel case. A word is a run of ASCII letters and digits.
fn push_words(text: &mut String, name: &[u8]) -> Result<(), AllocError>
    ensures { OnOk result
        (string_bytes text.new ≡ with_words (string_bytes text.old) (words name.now)) }
{
    let mut is_first = true;
    for byte in name {
        if !byte.is_ascii_alphanumeric() {
            is_first = true;
            continue;
        }
        push_letter(text, is_first, *byte)?;
        is_first = false;
    }
    Ok(())
}

/// Returns the name of a value in Rust: its words, after `Minus` if it starts with `-`.
fn rust_name(alloc: Global, name: &[u8]) -> Result<String, AllocError>
    ensures { IfOk result (λ text. string_bytes text ≡ rust_name name.now) }
{
    let mut text = String::new(alloc);
    if let [b'-', ..] = name {
        text.push_str("Minus")?;
    }
    push_words(&mut text, name)?;
    Ok(text)
}

/// Returns a byte of a name in C: `_` for a byte that is no ASCII letter or digit.
fn c_byte(byte: u8) -> u8
    ensures value { result ≡ c_byte byte }
    ensures ascii { result < 128 }
{
    if byte.is_ascii_alphanumeric() {
        byte
    } else {
        b'_'
    }
}

/// Appends the name of a value in C, byte by byte.
fn push_c_name(text: &mut String, name: &[u8]) -> Result<(), AllocError>
    ensures { OnOk result (string_bytes text.new ≡ string_bytes text.old ++ map c_byte name.now) }
{
    for byte in name {
        push_ascii(text, c_byte(*byte))?;
    }
    Ok(())
}

/// Returns the name of a value in source. In C a name that starts with a digit follows `V`. The
/// empty name is that of code points without a line.
fn value_name(alloc: Global, name: &[u8], is_rust: bool) -> Result<String, AllocError>
    ensures { IfOk result (λ text. string_bytes text ≡ value_name is_rust name.now) }
{
    let mut text = String::new(alloc);
    let [first, ..] = name else {
        text.push_str("Unlisted")?;
        return Ok(text);
    };
    if is_rust {
        return rust_name(alloc, name);
    }
    if first.is_ascii_digit() {
        text.push('V')?;
    }
    push_c_name(&mut text, name)?;
    Ok(text)
}

/// A value of an enum in source.
#[derive(Drop)]
pub struct EnumValue {
    /// The name of the value in the enum. In C it follows the table's name and `_`.
    pub identifier: String,
    /// The number of the value.
    pub number: usize,
}

/// What cannot be a variant in Rust.
static RESERVED_IN_RUST: [&str; 2] = ["", "Self"];

/// What the source of a table in C defines, without the table's name and `_`.
static RESERVED_IN_C: [&str; 11] = [
    "dataLength",
    "fastLimit",
    "get",
    "highStart",
    "index1",
    "open",
    "table",
    "trie",
    "trieData",
    "trieIndex",
    "value",
];

/// Returns whether a value cannot have an identifier, whatever the other values are.
fn is_reserved(is_rust: bool, identifier: &str) -> bool
    ensures { result ≡ is_reserved is_rust identifier.now }
{
    if is_rust {
        RESERVED_IN_RUST.contains(&identifier)
    } else {
        RESERVED_IN_C.contains(&identifier)
    }
}

/// Returns whether a text is the identifier of one of the values.
fn is_identifier_of(values: &[EnumValue], text: &str) -> bool
    ensures { result
        ≡ list_any (λ v. bytes_eq text.now (string_bytes v.identifier)) values.now }
{
    values.iter().any(|value| text == value.identifier.as_str())
}

/// Returns whether an identifier is reserved, or that of one of the values.
fn is_taken(values: &[EnumValue], is_rust: bool, identifier: &str) -> bool
    ensures { result ≡ is_taken values.now is_rust identifier.now }
{
    is_reserved(is_rust, identifier) || is_identifier_of(values, identifier)
}

/// Appends a number to an identifier: after `V` if it is empty, and after `_` if it ends in a
/// digit.
fn push_suffix(identifier: &mut String, number: usize) -> Result<(), AllocError>
    ensures { OnOk result
        (string_bytes identifier.new ≡ with_number number (string_bytes identifier.old)) }
{
    let last = last_byte(identifier.as_str());
    identifier.push_str(before_word(last, b'0'))?;
    push_number(identifier, Decimal(number))
}

/// Appends the number of a value to its identifier until the identifier is not taken: to most of
/// them not at all.
fn make_free(
    identifier: &mut String,
    number: usize,
    values: &[EnumValue],
    is_rust: bool,
) -> Result<(), AllocError>
    ensures { OnOk result (IsFirstFree is_rust values.now number
        (string_bytes identifier.old) (string_bytes identifier.new)) }
{
    while is_taken(values, is_rust, identifier.as_str()) {
        push_suffix(identifier, number)?;
    }
    Ok(())
}

/// Returns the identifier of a value: its name in source, and the value's number behind it if the
/// name is reserved or that of one of the values.
fn identifier_of(
    alloc: Global,
    name: &Name<'_>,
    values: &[EnumValue],
    is_rust: bool,
) -> Result<String, AllocError>
    ensures { IfOk result (λ text. IsFirstFree is_rust values.now name.now.number
        (value_name is_rust name.now.text.now) (string_bytes text)) }
{
    let mut identifier = value_name(alloc, name.text, is_rust)?;
    make_free(&mut identifier, name.number, values, is_rust)?;
    Ok(identifier)
}

/// Appends the value of a name.
fn push_value(
    alloc: Global,
    values: &mut Vec<EnumValue>,
    name: &Name<'_>,
    is_rust: bool,
) -> Result<(), AllocError>
    ensures { OnOk result (IsWithValue is_rust values.old.items name.now values.new.items) }
{
    let identifier = identifier_of(alloc, name, values, is_rust)?;
    values.push(EnumValue {
        identifier,
        number: name.number,
    })?;
    Ok(())
}

/// Returns the values of an enum in Rust or in C, in order: of each number up to `highest` the
/// longest name, and of several the first.
///
/// The identifier is what the name gives in Rust or in C. If that is reserved or the identifier of
/// a value before, the number of the value is behind it, as often as needed.
///
/// # Errors
/// Returns [`AllocError`] if an allocation fails.
pub fn enum_values(
    alloc: Global,
    names: &[Name<'_>],
    is_rust: bool,
    highest: usize,
) -> Result<Vec<EnumValue>, AllocError>
    ensures values { IfOk result (λ values.
        AreValuesOf is_rust (listed highest [] names.now) values.items) }
    ensures identifiers { IfOk result (λ values. AreIdentifiers is_rust values.items) }
{
    let mut values = Vec::new(alloc);
    for (i, name) in names.iter().enumerate() {
        let (before, from) = names.split_at(i);
        if name.number <= highest && is_longest(before, name, from) {
            push_value(alloc, &mut values, name, is_rust)?;
        }
    }
    Ok(values)
}

/// Appends the line of a value in an enum. It starts with `start`, in which `@` is replaced by the
/// table's name.
fn push_line(
    text: &mut String,
    start: &str,
    table: &str,
    value: &EnumValue,
) -> Result<(), AllocError>
    ensures { OnOk result (string_bytes text.new
        ≡ string_bytes text.old ++ value_line (named table.now start.now) value.now) }
{
    push_named(text, start, table)?;
    text.push_str(value.identifier.as_str())?;
    text.push_str(" = ")?;
    push_number(text, Decimal(value.number))?;
    text.push_str(",\n")
}

/// Appends the lines of the values in an enum. Each starts with `start`, in which `@` is replaced
/// by the table's name.
pub(crate) fn push_values(
    text: &mut String,
    start: &str,
    table: &str,
    values: &[EnumValue],
) -> Result<(), AllocError>
    ensures { OnOk result (string_bytes text.new
        ≡ string_bytes text.old ++ value_lines (named table.now start.now) values.now) }
{
    for value in values {
        push_line(text, start, table, value)?;
    }
    Ok(())
}

/// Appends an arm of a `match` over the numbers of the values of an enum in Rust.
fn push_arm(text: &mut String, title: &str, value: &EnumValue) -> Result<(), AllocError>
    ensures { OnOk result (string_bytes text.new
        ≡ string_bytes text.old ++ rust_arm title.now value.now) }
{
    text.push_str("            ")?;
    push_number(text, Decimal(value.number))?;
    push_named(text, " => @::", title)?;
    text.push_str(value.identifier.as_str())?;
    text.push_str(",\n")
}

/// Appends the arms of a `match` over the numbers of the values of an enum in Rust.
fn push_arms(text: &mut String, title: &str, values: &[EnumValue]) -> Result<(), AllocError>
    ensures { OnOk result (string_bytes text.new
        ≡ string_bytes text.old ++ flat_map (rust_arm title.now) values.now) }
{
    for value in values {
        push_arm(text, title, value)?;
    }
    Ok(())
}

/// What precedes the enum in Rust. `@` is replaced by the name of the module, and `%` by the number
/// of bits.
const MODULE: &str = "
/// The values of `@`, by name.
#[allow(dead_code, clippy::enum_variant_names, clippy::upper_case_acronyms)]
#[rustfmt::skip]
#[derive(Clone, Copy, Debug, PartialEq, Eq, PartialOrd, Ord, Hash)]
#[repr(u%)]
";

/// What follows the variants in Rust. Each `@` is replaced by the name of the enum, and each `%` by
/// the number of bits.
const TRY_FROM: &str = "\
}

impl core::convert::TryFrom<u%> for @ {
    type Error = u%;

    #[rustfmt::skip]
    fn try_from(value: u%) -> Result<@, u%> {
        Ok(match value {
";

/// The arm of numbers without a name in Rust.
const NO_NAME: &str = "            _ => return Err(value),\n";

/// What follows the arms in Rust.
const END: &str = "        \
})
    }
}
";

/// What follows the conversion in Rust, up to the name of the module. Each `@` is replaced by the
/// name of the enum.
const OF: &str = "
#[allow(dead_code)]
impl @ {
    /// Returns the value of `c`, or `None` if it has no name, as above 0x10FFFF.
    #[rustfmt::skip]
    pub fn of(c: u32) -> Option<@> {
        core::convert::TryFrom::try_from(";

/// Appends a look-up whose results are values of the enum in Rust.
fn push_of(text: &mut String, title: &str, module_name: &str) -> Result<(), AllocError>
    ensures { OnOk result (string_bytes text.new
        ≡ string_bytes text.old ++ rust_of title.now module_name.now) }
{
    push_named(text, OF, title)?;
    push_named(text, "@::get(c)).ok()\n    }\n}\n", module_name)
}

/// Appends the head of an enum in Rust with this title.
fn push_enum_head(text: &mut String, title: &str) -> Result<(), AllocError>
    ensures { OnOk result (string_bytes text.new
        ≡ string_bytes text.old ++ rust_enum_head title.now) }
{
    push_named(text, "pub enum @ {\n", title)
}

/// Appends the end of an enum in Rust, and the conversion of numbers of so many bits to it up to
/// its arms.
fn push_conversion(text: &mut String, title: &str, bits: u32) -> Result<(), AllocError>
    ensures { OnOk result (string_bytes text.new
        ≡ string_bytes text.old ++ rust_conversion title.now bits) }
{
    let number = Decimal(bits as usize);
    push_pattern(text, TRY_FROM, title, &[number, number, number, number])
}

/// Appends the end of the conversion of numbers of so many bits, of which `count` have a value. An
/// arm for numbers without a name precedes it, if there are any.
#[tactic(auto, unfolding(crate::specs::NamesSource::rust_conversion_end))]
fn push_conversion_end(text: &mut String, bits: u32, count: usize) -> Result<(), AllocError>
    ensures { OnOk result (string_bytes text.new
        ≡ string_bytes text.old ++ rust_conversion_end bits count) }
{
    if count <= highest_of(bits) {
        text.push_str(NO_NAME)?;
    }
    text.push_str(END)
}

/// Appends the values as an enum in Rust with this title, and the `match` over their numbers. Its
/// last arm is for numbers of so many bits without a name, if there are any.
pub(crate) fn push_rust_enum(
    text: &mut String,
    title: &str,
    bits: u32,
    values: &[EnumValue],
) -> Result<(), AllocError>
    ensures { OnOk result (string_bytes text.new
        ≡ string_bytes text.old ++ rust_titled title.now bits values.now) }
{
    push_enum_head(text, title)?;
    push_values(text, "    ", "", values)?;
    push_conversion(text, title, bits)?;
    push_arms(text, title, values)?;
    push_conversion_end(text, bits, values.len())
}

/// Returns the name of the enum in Rust: the words of the module's name, and `Value` behind them if
/// the words have a meaning in the source, as `Table` beside a module `Table`.
///
/// # Errors
/// Returns [`AllocError`] if an allocation fails.
pub fn enum_name(alloc: Global, module_name: &str) -> Result<String, AllocError>
    ensures { IfOk result (λ text. string_bytes text ≡ enum_name module_name.now) }
{
    let mut name = String::new(alloc);
    push_words(&mut name, module_name.as_bytes())?;
    if [module_name, "", "Option", "Result", "Self", "TryFrom"].contains(&name.as_str()) {
        name.push_str("Value")?;
    }
    Ok(name)
}

/// Returns the highest number of 8, 16 or 32 bits.
pub(crate) fn highest_of(bits: u32) -> usize
    ensures { result ≡ highest_of bits }
{
    match bits {
        8 => 0xff,
        16 => 0xffff,
        _ => 0xffff_ffff,
    }
}

/// Appends the attributes of an enum in Rust, which is named after the module.
pub(crate) fn push_attributes(
    text: &mut String,
    module_name: &str,
    bits: u32,
) -> Result<(), AllocError>
    ensures { OnOk result (string_bytes text.new
        ≡ string_bytes text.old ++ rust_attributes module_name.now bits) }
{
    push_pattern(text, MODULE, module_name, &[Decimal(bits as usize)])
}

/// Appends the values as an enum in Rust, named after the module.
fn push_rust_names(
    text: &mut String,
    alloc: Global,
    module_name: &str,
    bits: u32,
    values: &[EnumValue],
) -> Result<(), AllocError>
    ensures { OnOk result (string_bytes text.new
        ≡ string_bytes text.old ++ rust_enum module_name.now bits values.now) }
{
    let title = enum_name(alloc, module_name)?;
    push_attributes(text, module_name, bits)?;
    push_rust_enum(text, title.as_str(), bits, values)?;
    push_of(text, title.as_str(), module_name)
}

/// Returns the values as an enum in Rust, named after the module.
fn rust_names(
    alloc: Global,
    module_name: &str,
    bits: u32,
    names: &[Name<'_>],
) -> Result<String, AllocError>
    ensures { IfOk result (λ text. (values : List EnumValue) × (AreRustValues bits names.now values
        × (string_bytes text ≡ rust_enum module_name.now bits values))) }
{
    let values = enum_values(alloc, names, true, highest_of(bits))?;
    let mut text = String::new(alloc);
    push_rust_names(&mut text, alloc, module_name, bits, &values)?;
    Ok(text)
}

/// Appends the head of an enum in C.
fn push_c_head(text: &mut String, table: &str) -> Result<(), AllocError>
    ensures { OnOk result (string_bytes text.new ≡ string_bytes text.old ++ c_enum_head table.now) }
{
    let start = "\n// The values of @, by name.\nenum @_value {\n";
    push_named(text, start, table)
}

/// Appends the values as an enum in C, whose names start with the table's.
fn push_c_names(text: &mut String, table: &str, values: &[EnumValue]) -> Result<(), AllocError>
    ensures { OnOk result (string_bytes text.new
        ≡ string_bytes text.old ++ c_enum table.now values.now) }
{
    push_c_head(text, table)?;
    push_values(text, "    @_", table, values)?;
    text.push_str("};\n")
}

/// Returns the values as an enum in C, whose names start with the table's.
fn c_names(alloc: Global, table: &str, names: &[Name<'_>]) -> Result<String, AllocError>
    ensures { IfOk result (λ text. (values : List EnumValue)
        × (AreValuesOf false (listed usize.MAX [] names.now) values
        × (string_bytes text ≡ c_enum table.now values))) }
{
    let values = enum_values(alloc, names, false, usize::MAX)?;
    let mut text = String::new(alloc);
    push_c_names(&mut text, table, &values)?;
    Ok(text)
}

/// Returns the source that names the values of a table, to follow the table's own: an enum in C or
/// in Rust. It is empty in other forms, without names, and for more than 4,096 names.
///
/// # Errors
/// Returns [`AllocError`] if an allocation fails.
pub fn names_source(
    alloc: Global,
    form: Form<'_>,
    bits: u32,
    names: &[Name<'_>],
) -> Result<String, AllocError>
    ensures none { names.now ≡ [] → IfOk result (λ text. string_bytes text ≡ []) }
    ensures most { 4096 < length names.now → IfOk result (λ text. string_bytes text ≡ []) }
    ensures c { (table : Bor (List ℕ)) → form.entry ≡ Form.C table → has_enum names.now ≡ true
        → IfOk result (λ text. (values : List EnumValue)
        × (AreValuesOf false (listed usize.MAX [] names.now) values
        × (string_bytes text ≡ c_enum table.now values))) }
    ensures bks { (table : Bor (List ℕ)) → form.entry ≡ Form.Bks table → has_enum names.now ≡ true
        → IfOk result (λ text. (values : List EnumValue)
        × (AreValuesOf false (listed usize.MAX [] names.now) values
        × (string_bytes text ≡ c_enum table.now values))) }
    ensures rust { (module_name : Bor (List ℕ)) → form.entry ≡ Form.Rust module_name
        → has_enum names.now ≡ true
        → IfOk result (λ text. (values : List EnumValue) × (AreRustValues bits names.now values
        × (string_bytes text ≡ rust_enum module_name.now bits values))) }
    ensures form { has_names form.entry ≡ false
        → IfOk result (λ text. string_bytes text ≡ []) }
{
    if names.is_empty() || names.len() > MOST {
        return Ok(String::new(alloc));
    }
    match form {
        Form::Rust(module_name) => rust_names(alloc, module_name, bits, names),
        Form::C(table) | Form::Bks(table) => c_names(alloc, table, names),
        _ => Ok(String::new(alloc)),
    }
}
