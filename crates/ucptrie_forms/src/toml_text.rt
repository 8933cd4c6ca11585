//! A table in TOML, as ICU's usrc_writeUCPTrie writes it.
ghost use Rattle.std.specs.Prelude.{◌≡◌, ◌++◌, IfOk, OnOk, string_bytes};
ghost use Rattle.ucptrie_forms.specs.TableSource.{toml_data, toml_header, toml_index, toml_text};

use crate::cells::{push_data, push_index};
use crate::header::header_numbers;
use std::alloc::{AllocError, Global};
use ucptab_table::pattern::Number::Decimal;
use ucptab_table::pattern::push_pattern;
use ucptrie_tables::table::Table;

/// What follows the data: the numbers of the header.
const HEADER: &str = "
]
indexLength = %
dataLength = %
highStart = %
shifted12HighStart = %
type = %
valueWidth = %
index3NullOffset = %
dataNullOffset = %
nullValue = %
";

/// Appends the array of the index.
#[tactic(auto, unfolding(crate::specs::TableSource::toml_index))]
fn push_index_array(text: &mut String, table: &Table) -> Result<(), AllocError>
    ensures { OnOk result (string_bytes text.new
        ≡ string_bytes text.old ++ toml_index table.now) }
{
    text.push_str("index = [\n  ")?;
    push_index(text, table, "  ")
}

/// Appends the array of the data, up to the end of its cells.
#[tactic(auto, unfolding(crate::specs::TableSource::toml_data))]
fn push_data_array(text: &mut String, table: &Table) -> Result<(), AllocError>
    ensures { OnOk result (string_bytes text.new ≡ string_bytes text.old ++ toml_data table.now) }
{
    let bits = [Decimal(table.width.bits() as usize)];
    push_pattern(text, "\n]\ndata_% = [\n  ", "", &bits)?;
    push_data(text, table, "  ")
}

/// Appends what follows the data.
fn push_header(text: &mut String, table: &Table) -> Result<(), AllocError>
    ensures { OnOk result (string_bytes text.new
        ≡ string_bytes text.old ++ toml_header table.now) }
{
    push_pattern(text, HEADER, "", &header_numbers(table))
}

/// Returns the table in TOML.
pub(crate) fn toml_text(alloc: Global, table: &Table) -> Result<String, AllocError>
    ensures { IfOk result (λ text. string_bytes text ≡ toml_text table.now) }
{
    let mut text = String::new(alloc);
    push_index_array(&mut text, table)?;
    push_data_array(&mut text, table)?;
    push_header(&mut text, table)?;
    Ok(text)
}
