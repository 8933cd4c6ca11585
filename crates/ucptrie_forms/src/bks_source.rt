//! A table as source in C for `bekstaudi.h`: the bytes of ICU's binary form.
ghost use Rattle.std.specs.Prelude.{◌≡◌, ◌++◌, [], IfOk, OnOk, length, string_bytes};
ghost use Rattle.ucptrie_tables.specs.Source.{cells_from, type_name};
ghost use Rattle.ucptrie_forms.specs.TableSource.{bks_array, bks_head, bks_open, bks_title};
ghost use Rattle.ucptrie_tables.specs.ValueWidth.{bits_of};

use std::alloc::{AllocError, Global};
use ucptab_table::pattern::Number::Decimal;
use ucptab_table::pattern::{push_cell, push_pattern};
use ucptrie_tables::source::type_name;
use ucptrie_tables::table::Table;

/// The first line. `@` is replaced by the type of the trie, and `%` by the bits of a value and by
/// the number of bytes.
const TITLE: &str = "\
// Made by ucptrie: a @ code point trie, with values of % bits, in % bytes.
";

/// Appends the first line of a trie of this type, with values of so many bits and so many bytes.
#[tactic(auto, unfolding(crate::specs::TableSource::bks_title))]
fn push_title(text: &mut String, kind: &str, bits: u32, size: usize) -> Result<(), AllocError>
    ensures { OnOk result (string_bytes text.new
        ≡ string_bytes text.old ++ bks_title kind.now bits size) }
{
    push_pattern(text, TITLE, kind, &[Decimal(bits as usize), Decimal(size)])
}

/// What precedes the bytes. `@` is replaced by the name, and `%` by their number. `bks_open` takes
/// bytes at any address; at a multiple of four ICU's `ucptrie_openFromBinary` takes them too.
const HEAD: &str = "
#include <bekstaudi.h>

// The trie in ICU's binary form.
__attribute__((aligned(4))) static const unsigned char @_table[%]={
";

/// Appends what precedes so many bytes.
#[tactic(auto, unfolding(crate::specs::TableSource::bks_head))]
fn push_head(text: &mut String, name: &str, size: usize) -> Result<(), AllocError>
    ensures { OnOk result (string_bytes text.new
        ≡ string_bytes text.old ++ bks_head name.now size) }
{
    push_pattern(text, HEAD, name, &[Decimal(size)])
}

/// Appends bytes as the cells of an array.
fn push_bytes(text: &mut String, bytes: &[u8]) -> Result<(), AllocError>
    ensures { OnOk result (string_bytes text.new
        ≡ string_bytes text.old ++ cells_from [] 0 bytes.now) }
{
    for (i, byte) in bytes.iter().enumerate() {
        push_cell(text, i, u32::from(*byte), "")?;
    }
    Ok(())
}

/// What follows the bytes. `@` is replaced by the name, and `%` by the bits of a value.
const OPEN: &str = "
};

// Opens the trie, in which bks_get%, bks_trie%_get_utf8 and others find values, and returns BKS_OK.
static inline uint32_t @_open(bks_trie *trie) {
    return bks_open(trie, @_table, sizeof @_table);
}
";

/// Appends the function that opens the trie.
fn push_open(text: &mut String, table: &Table, name: &str) -> Result<(), AllocError>
    ensures { OnOk result (string_bytes text.new
        ≡ string_bytes text.old ++ bks_open name.now table.now) }
{
    let bits = Decimal(table.width.bits() as usize);
    push_pattern(text, OPEN, name, &[bits, bits])
}

/// Appends an array with the bytes, and the function that opens the trie in them.
fn push_array(text: &mut String, table: &Table, bytes: &[u8], name: &str) -> Result<(), AllocError>
    ensures { OnOk result (string_bytes text.new
        ≡ string_bytes text.old ++ bks_array name.now table.now bytes.now) }
{
    push_head(text, name, bytes.len())?;
    push_bytes(text, bytes)?;
    push_open(text, table, name)
}

/// Returns a table in C for `bekstaudi.h`: an array with the bytes of ICU's binary form, which are
/// given, and a function that opens the trie in them.
pub(crate) fn bks_source(
    alloc: Global,
    table: &Table,
    bytes: &[u8],
    name: &str,
) -> Result<String, AllocError>
    ensures { IfOk result (λ text. string_bytes text
        ≡ bks_title (type_name table.now.trie.header.trie_type) (bits_of table.now.width)
        (length bytes.now)
        ++ bks_array name.now table.now bytes.now) }
{
    let (header, _, _) = table.trie.parts();
    let kind = type_name(header.trie_type);
    let mut text = String::new(alloc);
    push_title(&mut text, kind, table.width.bits(), bytes.len())?;
    push_array(&mut text, table, bytes, name)?;
    Ok(text)
}
