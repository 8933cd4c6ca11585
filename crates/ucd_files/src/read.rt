//! What all lines of a file say.
ghost use Rattle.std.specs.Prelude.{◌≡◌, ◌++◌, ◌∷◌, ℕ, List, [], IfErr, IfOk};
ghost use Rattle.std.specs.List.{filter_map};
ghost use Rattle.std.specs.Option.{option_to_list};
ghost use Rattle.ucd_files.specs.Files.{AreStatements, IsFirstFault, IsUnfinished, explicit_write, is_open, missing_write, writes_of};
ghost use Rattle.ucd_files.specs.declared.error.FileError.TheVariants.{Line, Memory, Unfinished};
ghost use Rattle.ucd_files.specs.declared.error.LineError.{LineError};
ghost use Rattle.ucd_files.specs.declared.statement.Statement.{Statement};

use crate::error::FileError;
use crate::fields::ends_in_first;
use crate::names::Numbering;
use crate::statement::{Columns, Statement, statement_of};
use icu_trie_builder::writes::Write;
use std::alloc::{AllocError, Global};
use ucptab_table::input::first_line;

/// Returns whether a line gives the first code point of a range in `UnicodeData.txt`.
fn is_open(columns: Columns<'_>, line: &[u8]) -> bool
    ensures { result ≡ is_open columns.entry line.now }
{
    match columns {
        Columns::UnicodeData(_) => ends_in_first(line),
        _ => false,
    }
}

/// Returns what the lines of a file say, in order.
///
/// # Errors
/// Returns [`FileError::Line`] for the first line with a fault, counted from 1,
/// [`FileError::Unfinished`] if the file ends in the middle of a range of `UnicodeData.txt`, and
/// [`FileError::Memory`] if an allocation fails.
pub fn read_statements(
    alloc: Global,
    input: &[u8],
    columns: Columns<'_>,
    numbering: Numbering<'_>,
) -> Result<Vec<Statement>, FileError>
    ensures ok { IfOk result (λ said. AreStatements columns.entry numbering.entry input.now
        said.items) }
    ensures line { (k : ℕ) (f : LineError) → IfErr result (λ e. e ≡ Line k f
        → IsFirstFault columns.entry numbering.entry input.now k f) }
    ensures unfinished { IfErr result (λ e. e ≡ Unfinished
        → IsUnfinished columns.entry numbering.entry input.now) }
{
    let mut said = Vec::new(alloc);
    let mut number = 0u64;
    let mut rest = input;
    let mut previous: &[u8] = &[];
    while let Some((line, after)) = first_line(rest) {
        number += 1;
        rest = after;
        match statement_of(columns, numbering, previous, line) {
            Ok(None) => {}
            Ok(Some(statement)) => {
                if said.push(statement).is_err() {
                    return Err(FileError::Memory);
                }
            }
            Err(fault) => return Err(FileError::Line(number, fault)),
        }
        previous = line;
    }
    if is_open(columns, previous) {
        return Err(FileError::Unfinished);
    }
    Ok(said)
}

/// Appends a write.
fn pushed(writes: &mut Vec<Write<u32>>, write: Write<u32>) -> Result<(), AllocError>
    ensures { IfOk result (λ _. writes.new.items ≡ writes.old.items ++ write ∷ []) }
{
    match writes.push(write) {
        Ok(()) => Ok(()),
        Err(_) => Err(AllocError),
    }
}

/// Appends a statement's write to those of its kind.
fn push_write(
    missing: &mut Vec<Write<u32>>,
    explicit: &mut Vec<Write<u32>>,
    statement: Statement,
) -> Result<(), AllocError>
    ensures missing { IfOk result (λ _. missing.new.items
        ≡ missing.old.items ++ option_to_list (missing_write statement)) }
    ensures explicit { IfOk result (λ _. explicit.new.items
        ≡ explicit.old.items ++ option_to_list (explicit_write statement)) }
{
    match statement {
        Statement::Missing(write) => pushed(missing, write),
        Statement::Explicit(write) => pushed(explicit, write),
    }
}

/// Returns the writes of statements: first those of `@missing` lines, then all others, each in
/// order.
///
/// # Errors
/// Returns [`AllocError`] if an allocation fails.
pub fn writes_of(alloc: Global, statements: Vec<Statement>) -> Result<Vec<Write<u32>>, AllocError>
    ensures { IfOk result (λ writes. writes.items ≡ writes_of statements.items) }
{
    let mut missing = Vec::new(alloc);
    let mut explicit = Vec::new(alloc);
    for statement in statements {
        push_write(&mut missing, &mut explicit, statement)?;
    }
    missing.append(&mut explicit)?;
    Ok(missing)
}

/// Returns the writes of a file: those of its `@missing` lines, then those of its other lines, each
/// in order. The last write that covers a code point gives its value.
///
/// # Errors
/// Returns [`FileError::Line`] for the first line with a fault, counted from 1,
/// [`FileError::Unfinished`] if the file ends in the middle of a range of `UnicodeData.txt`, and
/// [`FileError::Memory`] if an allocation fails.
pub fn read_writes(
    alloc: Global,
    input: &[u8],
    columns: Columns<'_>,
    numbering: Numbering<'_>,
) -> Result<Vec<Write<u32>>, FileError>
    ensures ok { IfOk result (λ writes. (said : List Statement)
        × AreStatements columns.entry numbering.entry input.now said
        × (writes.items ≡ writes_of said)) }
    ensures line { (k : ℕ) (f : LineError) → IfErr result (λ e. e ≡ Line k f
        → IsFirstFault columns.entry numbering.entry input.now k f) }
    ensures unfinished { IfErr result (λ e. e ≡ Unfinished
        → IsUnfinished columns.entry numbering.entry input.now) }
{
    let said = read_statements(alloc, input, columns, numbering)?;
    let writes = writes_of(alloc, said)?;
    Ok(writes)
}
