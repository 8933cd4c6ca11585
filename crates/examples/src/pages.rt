//! The values of all characters of bytes that may be ill-formed UTF-8, copied page by page.
ghost use Rattle.std.specs.Prelude.{IfSome};
ghost use Rattle.examples.specs.Pages.{AreAllValues};

use icu_collections::codepointtrie::CodePointTrie;
use icu_collections::codepointtrie::text::copy_values;
use std::alloc::Global;

/// Returns the value of each character of the bytes in order, and the error value for each
/// ill-formed part. `None` if an allocation fails.
///
/// ```
/// // values_in_pages(alloc, &categories, b"a\xFFB") has 2 (Ll), the error value and 1 (Lu)
/// ```
pub fn values_in_pages(
    alloc: Global,
    table: &CodePointTrie<'_, u8>,
    bytes: &[u8],
) -> Option<Vec<u8>>
    ensures { IfSome result (λ all. AreAllValues table.now bytes.now all.items) }
{
    let mut all = Vec::new(alloc);
    let mut page = [0; 64];
    let mut rest = bytes;
    while !rest.is_empty() {
        let copied = copy_values(table, rest, &mut page);
        all.extend_from_slice(&page[..copied.values]).ok()?;
        rest = &rest[copied.bytes..];
    }
    Some(all)
}
