//! The header of a table in source: its numbers, and the comment about its sizes.
ghost use Rattle.std.specs.Prelude.{◌≡◌, ◌++◌, ◌*◌, ◌^◌, ◌<◌, OnOk, string_bytes};
ghost use Rattle.icu_trie_core.specs.ValueNumbers.{type_number};
ghost use Rattle.ucptrie_forms.specs.TableSource.{header_numbers, sizes_text};
ghost use Rattle.ucptrie_tables.specs.ValueWidth.{bytes_of};

use icu_trie::header::TrieType;
use std::alloc::AllocError;
use ucptab_table::pattern::Number::{self, Decimal, Hexadecimal};
use ucptab_table::pattern::push_pattern;
use ucptrie_tables::source::type_name;
use ucptrie_tables::table::Table;
use ucptrie_tables::width::ValueWidth;

/// Returns ICU's number of a type (UCPTRIE_TYPE_FAST, _SMALL).
pub(crate) fn type_code(trie_type: TrieType) -> u8
    ensures { result ≡ type_number trie_type }
{
    match trie_type {
        TrieType::Fast => 0,
        TrieType::Small => 1,
    }
}

/// Returns the number of bytes in so many values, of which each has at most four.
fn data_size(len: usize, width: ValueWidth) -> usize
    requires { len * 4 < 2 ^ 63 }
    ensures { result ≡ len * bytes_of width }
{
    len * width.bytes()
}

/// The comment about the trie and its sizes.
const SIZES: &str = "\
// Made by ucptrie: a @ code point trie, with values of % bits.
// Index: % cells, % bytes. Data: % cells, % bytes.
";

/// Appends a comment about the trie and its sizes.
pub(crate) fn push_sizes(text: &mut String, table: &Table) -> Result<(), AllocError>
    ensures { OnOk result (string_bytes text.new
        ≡ string_bytes text.old ++ sizes_text table.now) }
{
    let (header, index, values) = table.trie.parts();
    let numbers = [
        Decimal(table.width.bits() as usize),
        Decimal(index.len()),
        Decimal(index.len() * 2),
        Decimal(values.len()),
        Decimal(data_size(values.len(), table.width)),
    ];
    push_pattern(text, SIZES, type_name(header.trie_type), &numbers)
}

/// Returns the numbers of the header in the order of ICU's struct and of TOML: lengths, the high
/// start in two forms, type and width, null blocks and the null value.
pub(crate) fn header_numbers(table: &Table) -> [Number; 9]
    ensures { result ≡ header_numbers table.now }
{
    let (header, index, values) = table.trie.parts();
    [
        Decimal(index.len()),
        Decimal(values.len()),
        Hexadecimal(header.high_start),
        Hexadecimal(header.shifted12_high_start as u32),
        Decimal(type_code(header.trie_type) as usize),
        Decimal(table.width.code() as usize),
        Hexadecimal(header.index3_null_offset as u32),
        Hexadecimal(header.data_null_offset),
        Hexadecimal(header.null_value),
    ]
}
