//! Which code points have a value in a file.
ghost use Rattle.std.specs.Prelude.{◌≡◌, ◌<◌, ◌↔◌, ℕ, IfErr, IfOk, IsTrue, List, OnOk};
ghost use Rattle.icu_invlist.specs.InversionList.{Acts, either, holds};
ghost use Rattle.icu_trie_builder.specs.Writes.{covers};
ghost use Rattle.icu_zerovec.specs.CodePoints.{code_point_limit};
ghost use Rattle.ucd_files.specs.Coverage.{has_value, CoverAll};
ghost use Rattle.ucd_files.specs.Files.{AreStatements, IsFirstFault, IsUnfinished, writes_of};
ghost use Rattle.ucd_files.specs.declared.error.FileError.TheVariants.{Line, Unfinished};
ghost use Rattle.ucd_files.specs.declared.error.LineError.{LineError};
ghost use Rattle.ucd_files.specs.declared.statement.Statement.{Statement};

use crate::error::FileError;
use crate::names::Numbering;
use crate::read::read_writes;
use crate::statement::Columns;
use icu_invlist::codepointinvlist::{CodePointInversionList, CodePointInversionListBuilder};
use icu_trie_builder::writes::Write;
use icu_zerovec::{CODE_POINT_LIMIT, MemoryError};
use std::alloc::Global;

/// Adds the code points that a write covers.
fn add_covered(
    points: &mut CodePointInversionListBuilder,
    write: &Write<u32>,
) -> Result<(), MemoryError>
    ensures { OnOk result (Acts either points.old (covers write.now) points.new) }
{
    let (first, last) = match write {
        Write::One(code_point, _) => (*code_point, *code_point),
        Write::Range(range, _) => (*range.start(), *range.end()),
    };
    points.add_range32(first..last.min(CODE_POINT_LIMIT - 1) + 1)
}

/// Returns the set of the code points that have a value after writes.
///
/// # Errors
/// Returns [`MemoryError`] if an allocation fails.
fn points_with_value(
    alloc: Global,
    writes: &[Write<u32>],
) -> Result<CodePointInversionList<'static>, MemoryError>
    ensures { IfOk result (λ points. (c : ℕ) → c < code_point_limit
        → holds points c ≡ has_value writes.now c) }
{
    let mut points = CodePointInversionListBuilder::new(alloc);
    let mut rest = writes;
    while let [write, after @ ..] = rest {
        add_covered(&mut points, write)?;
        rest = after;
    }
    points.build()
}

/// Returns whether each code point has a value after writes.
fn cover_all(alloc: Global, writes: &[Write<u32>]) -> Result<bool, MemoryError>
    ensures { IfOk result (λ all. IsTrue all ↔ CoverAll writes.now) }
{
    let points = points_with_value(alloc, writes)?;
    Ok(points.contains_set(&CodePointInversionList::all()))
}

/// Returns whether each code point has a value by a line of a file, which can be an `@missing`
/// line.
///
/// # Errors
/// Returns those of [`read_writes`].
pub(crate) fn lines_cover_all(
    alloc: Global,
    input: &[u8],
    columns: Columns<'_>,
    numbering: Numbering<'_>,
) -> Result<bool, FileError>
    ensures ok { IfOk result (λ all. (said : List Statement)
        × AreStatements columns.entry numbering.entry input.now said
        × (IsTrue all ↔ CoverAll (writes_of said))) }
    ensures line { (k : ℕ) (f : LineError) → IfErr result (λ e. e ≡ Line k f
        → IsFirstFault columns.entry numbering.entry input.now k f) }
    ensures unfinished { IfErr result (λ e. e ≡ Unfinished
        → IsUnfinished columns.entry numbering.entry input.now) }
{
    let writes = read_writes(alloc, input, columns, numbering)?;
    let all = cover_all(alloc, &writes)?;
    Ok(all)
}
