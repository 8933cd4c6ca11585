//! A table as source in Rust.
ghost use Rattle.std.specs.Prelude.{◌≡◌, ◌++◌, IfOk, OnOk, string_bytes};
ghost use Rattle.ucptrie_forms.specs.TableSource.{rust_data, rust_head, rust_index, rust_text};

use crate::cells::{push_data, push_index};
use crate::header::{push_sizes, type_code};
use std::alloc::{AllocError, Global};
use ucptab_table::pattern::Number::{Decimal, Hexadecimal};
use ucptab_table::pattern::push_pattern;
use ucptrie_tables::source::index1_offset;
use ucptrie_tables::table::Table;

/// The end of the data, and the look-up, by the three stages of the format.
const LOOK_UP: &str = "
    ];

    fn index(place: u32) -> u32 {
        u32::from(INDEX[place as usize])
    }

    /// The value of `c`, and the error value above 0x10FFFF.
    pub fn get(c: u32) -> Value {
        if c < FAST_LIMIT {
            return DATA[(index(c >> 6) + (c & 63)) as usize];
        }
        if c > 0x10ffff {
            return DATA[DATA.len() - 1];
        }
        if c >= HIGH_START {
            return DATA[DATA.len() - 2];
        }
        let part = (c >> 4) & 31;
        let block = index(index((c >> 14) + INDEX1) + ((c >> 9) & 31));
        let start = if block < 0x8000 {
            index(block + part)
        } else {
            // Eight offsets of 18 bits have nine cells, the first one for their upper bits.
            let (cell, part) = ((block & 0x7fff) + part / 8 * 9, part & 7);
            ((index(cell) << (2 + 2 * part)) & 0x30000) | index(cell + 1 + part)
        };
        DATA[(start + (c & 15)) as usize]
    }
}
";

/// The head of the module, with the header field by field.
const HEAD: &str = "\
#[allow(dead_code, non_snake_case, clippy::module_inception)]
pub mod @ {
    pub type Value = u%;

    pub const TRIE_TYPE: u8 = %;
    pub const HIGH_START: u32 = %;
    pub const SHIFTED12_HIGH_START: u16 = %;
    pub const INDEX3_NULL_OFFSET: u16 = %;
    pub const DATA_NULL_OFFSET: u32 = %;
    pub const NULL_VALUE: u32 = %;
    const FAST_LIMIT: u32 = %;
    const INDEX1: u32 = %;

";

/// Appends the head of the module.
fn push_head(text: &mut String, table: &Table, name: &str) -> Result<(), AllocError>
    ensures { OnOk result (string_bytes text.new
        ≡ string_bytes text.old ++ rust_head name.now table.now) }
{
    let (header, _, _) = table.trie.parts();
    let numbers = [
        Decimal(table.width.bits() as usize),
        Decimal(type_code(header.trie_type) as usize),
        Hexadecimal(header.high_start),
        Hexadecimal(header.shifted12_high_start as u32),
        Hexadecimal(header.index3_null_offset as u32),
        Hexadecimal(header.data_null_offset),
        Hexadecimal(header.null_value),
        Hexadecimal(header.trie_type.fast_limit()),
        Decimal(index1_offset(header.trie_type) as usize),
    ];
    push_pattern(text, HEAD, name, &numbers)
}

/// Appends the array of the index, up to the end of its cells.
fn push_index_array(text: &mut String, table: &Table) -> Result<(), AllocError>
    ensures { OnOk result (string_bytes text.new
        ≡ string_bytes text.old ++ rust_index table.now) }
{
    let (_, index, _) = table.trie.parts();
    let front = "    #[rustfmt::skip]\n    pub static INDEX: [u16; %] = [\n";
    push_pattern(text, front, "", &[Decimal(index.len())])?;
    push_index(text, table, "")
}

/// Appends the array of the data, up to the end of its cells.
fn push_data_array(text: &mut String, table: &Table) -> Result<(), AllocError>
    ensures { OnOk result (string_bytes text.new
        ≡ string_bytes text.old ++ rust_data table.now) }
{
    let (_, _, values) = table.trie.parts();
    let front = "\n    ];\n\n    #[rustfmt::skip]\n    pub static DATA: [Value; %] = [\n";
    push_pattern(text, front, "", &[Decimal(values.len())])?;
    push_data(text, table, "")
}

/// The table in Rust: a module with the header, the two arrays and a look-up over them.
pub(crate) fn rust_text(alloc: Global, table: &Table, name: &str) -> Result<String, AllocError>
    ensures { IfOk result (λ text. string_bytes text ≡ rust_text name.now table.now) }
{
    let mut text = String::new(alloc);
    push_sizes(&mut text, table)?;
    push_head(&mut text, table, name)?;
    push_index_array(&mut text, table)?;
    push_data_array(&mut text, table)?;
    text.push_str(LOOK_UP)?;
    Ok(text)
}
