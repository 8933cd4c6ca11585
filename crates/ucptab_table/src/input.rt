//! Reads a table: its bytes, its lines and its rows.
ghost use Rattle.std.specs.Prelude.{◌≡◌, ◌⊎◌, ◌<◌, ◌-◌, ℕ, length, ◌∷◌, [], slice_get, option_map, IfOk, IfErr, IfSome, IfNone};
ghost use Rattle.std.specs.Io.KnownBytes.{IsAtEnd};
ghost use Rattle.std.specs.Iterator.{YieldsFirstRef, item_count};
ghost use Rattle.std.specs.Str.Lines.{lines, strip_carriage_return};
ghost use Rattle.ucptab_table.specs.TableText.{AreRows, IsFirstFault};
ghost use Rattle.ucptab_table.specs.declared.error.RowError.{RowError};
ghost use Rattle.ucptab_table.specs.declared.error.TableError.TheVariants.{Row, Memory, Read};

use crate::error::TableError;
use crate::rows::{position_or_len, row_of};
use crate::streams::{Failed, Source};
use icu_trie_builder::writes::Write;
use std::alloc::Global;
use std::marker::Model;

/// Reads all bytes that are left.
///
/// # Errors
/// Returns [`TableError::Read`] if a read fails, and [`TableError::Memory`] if an allocation fails.
pub fn read_all<S: Source>(alloc: Global, reader: &mut S) -> Result<Vec<u8>, TableError>
    ensures bytes { IfOk result
        (λ all. IfSome (S.remaining reader.old) (λ input. all.items ≡ input)) }
    ensures end { IfOk result (λ _. IsAtEnd (S.remaining reader.new)) }
    ensures counted { IfOk result (λ _. S.failures reader.new ≡ S.failures reader.old) }
    ensures read_fault { IfErr result
        (λ e. e ≡ Read → S.failures reader.old < S.failures reader.new) }
    ensures no_other { IfErr result (λ e. (e ≡ Read) ⊎ (e ≡ Memory)) }
{
    let mut all = Vec::new(alloc);
    let mut buf = [0u8; 4096];
    for turn in 0..u64::MAX {
        let n = match reader.read(&mut buf) {
            Ok(n) => n,
            Err(Failed) => return Err(TableError::Read),
        };
        if n == 0 {
            return Ok(all);
        }
        if all.extend_from_slice(&buf[..n]).is_err() {
            return Err(TableError::Memory);
        }
    }
    // Each turn adds a byte, and a `Vec` has fewer bytes than there are turns.
    unreachable!()
}

/// Returns the line without one carriage return at its end, if it has one.
fn strip_carriage_return(line: &[u8]) -> &[u8]
    ensures { result.now ≡ strip_carriage_return line.now }
{
    match line {
        [front @ .., b'\r'] => front,
        _ => line,
    }
}

/// Returns the first line and what follows its line feed, or `None` if there is no line.
pub fn first_line(input: &[u8]) -> Option<(&[u8], &[u8])>
    ensures none { IfNone result (lines input.now ≡ []) }
    ensures some { IfSome result (λ cut. lines input.now ≡ cut.0.now ∷ lines cut.1.now) }
    ensures shorter { IfSome result (λ cut. length cut.1.now < length input.now) }
{
    let place = position_or_len(b'\n', input);
    if place < input.len() {
        return Some((strip_carriage_return(&input[..place]), &input[place + 1..]));
    }
    if input.is_empty() {
        return None;
    }
    Some((input, &[]))
}

/// An iterator over the lines of an input, without their line ends. [`lines`] returns it.
///
/// # Contract
/// In contracts, it is the list of the lines that are left.
#[derive(Drop)]
pub struct InputLines<'a> {
    rest: &'a [u8],
}

impl<'a> Model for InputLines<'a> {
    ghost use Rattle.std.specs.Prelude.{List, ℕ};
    ghost use Rattle.std.specs.Str.Lines.{lines};

    ghost Value = { List (List ℕ) };

    ghost view = { λ a. lines a.rest.now };
}

impl<'a> Iterator for InputLines<'a> {
    type Item = &'a [u8];

    ghost next_gives = { YieldsFirstRef (λ left. left) };

    ghost remaining = { item_count (λ left. left) };

    fn next(&mut self) -> Option<&'a [u8]> {
        let (line, rest) = first_line(self.rest)?;
        self.rest = rest;
        Some(line)
    }
}

/// Returns an iterator over the lines of an input, without their line ends.
pub fn lines(input: &[u8]) -> InputLines<'_>
    ensures { result ≡ lines input.now }
{
    InputLines { rest: input }
}

/// Returns the line of this number, counted from 1, without its line end, or `None` if there are
/// fewer lines.
pub fn line_at(input: &[u8], number: u64) -> Option<&[u8]>
    ensures { 0 < number
        → option_map (λ line. line.now) result ≡ slice_get (lines input.now) (number - 1) }
{
    let mut left = number;
    let mut others = input;
    while let Some((line, after)) = first_line(others) {
        if left <= 1 {
            return Some(line);
        }
        left -= 1;
        others = after;
    }
    None
}

/// Returns the writes of all rows of the table, in order.
///
/// # Errors
/// Returns [`TableError::Row`] for the first line that has a fault, counted from 1, and
/// [`TableError::Memory`] if an allocation fails.
pub fn read_rows(alloc: Global, input: &[u8]) -> Result<Vec<Write<u32>>, TableError>
    ensures ok { IfOk result (λ writes. AreRows input.now writes.items) }
    ensures row { (k : ℕ) (f : RowError) → IfErr result (λ e. e ≡ Row k f
        → IsFirstFault input.now k f) }
    ensures no_other { IfErr result (λ e. (e ≡ Memory) ⊎ ((k : ℕ) × ((f : RowError)
        × (e ≡ Row k f)))) }
{
    let mut writes = Vec::new(alloc);
    let mut number = 0u64;
    let mut rest = input;
    while let Some((line, after)) = first_line(rest) {
        number += 1;
        rest = after;
        match row_of(line) {
            Ok(None) => {}
            Ok(Some(write)) => {
                if writes.push(write).is_err() {
                    return Err(TableError::Memory);
                }
            }
            Err(fault) => return Err(TableError::Row(number, fault)),
        }
    }
    Ok(writes)
}

/// Returns the writes of all rows of the table, as `read_rows` does, and shows the reader the line
/// that is not one.
///
/// # Errors
/// Returns the errors of [`read_rows`].
pub fn read_shown_rows<S: Source>(
    alloc: Global,
    input: &[u8],
    reader: &mut S,
) -> Result<Vec<Write<u32>>, TableError>
    ensures ok { IfOk result (λ writes. AreRows input.now writes.items) }
    ensures row { (k : ℕ) (f : RowError) → IfErr result (λ e. e ≡ Row k f
        → IsFirstFault input.now k f) }
    ensures no_other { IfErr result (λ e. (e ≡ Memory) ⊎ ((k : ℕ) × ((f : RowError)
        × (e ≡ Row k f)))) }
    ensures remaining { S.remaining reader.new ≡ S.remaining reader.old }
    ensures failures { S.failures reader.new ≡ S.failures reader.old }
{
    let rows = read_rows(alloc, input);
    if let Err(TableError::Row(number, fault)) = rows {
        reader.note_fault(number, line_at(input, number).unwrap_or(&[]), fault);
    }
    rows
}
