//! The engine of `ucptab`: reads rows, and prints the values of a trie that is built of them. For
//! `ucptrie`, `pattern` writes the texts of source.
#![tactic(auto)]

ghost use Rattle.std.specs.Prelude.{◌≡◌, ◌≢◌, ◌⊎◌, ℕ, nat_eq, ◌<◌, ◌≤◌, List, [], ◌∷◌, ◌++◌, None, map, IfOk, IfErr, IfSome, string_bytes};
ghost use Rattle.std.specs.Io.KnownBytes.{Appends, IsAtEnd};
ghost use Rattle.std.specs.List.{filter_map};
ghost use Rattle.icu_trie_builder.specs.Bounds.{IsTooLarge};
ghost use Rattle.icu_trie_builder.specs.Writes.{answer_after, value_after};
ghost use Rattle.ucptab_table.specs.TableText.{fault_text, hexadecimal, HasCause, IsTableText, IsTextOfMap};
ghost use Rattle.ucptab_table.specs.Words.{arguments_of};
ghost use Rattle.ucptab_table.specs.declared.error.TableError.{TableError};
ghost use Rattle.ucptab_table.specs.declared.error.TableError.TheVariants.{Memory, TooLarge, Write as WriteFailed};

pub mod digits;
pub mod error;
pub mod hint;
pub mod input;
pub mod message;
pub mod pattern;
pub mod rows;
pub mod streams;
pub mod text;
pub mod words;

use crate::error::TableError;
use crate::input::{read_all, read_shown_rows};
use crate::streams::{Failed, Sink, Source};
use crate::text::{answers_text, ranges_text, write_fault};
use crate::words::{Request, asked_numbers, request_of};
use icu_trie_builder::build_from_writes;
use icu_trie_builder::writes::Write;
use icu_trie_core::header::TrieType;
use std::alloc::Global;

/// The arguments of the program.
pub const USAGE: &str = "usage: ucptab fast|small DEFAULT ERROR [HEX ..]\n";

/// Returns the lines of the asked numbers in a trie of these writes, or those of its ranges if no
/// number is asked.
#[tactic(auto, using(crate::proofs::RangeRuns::text_of_some))]
fn answer_text(
    alloc: Global,
    trie_type: TrieType,
    default: u32,
    error: u32,
    writes: &[Write<u32>],
    asked: &[u32],
) -> Result<String, TableError>
    ensures text { IfOk result (λ text. IsTextOfMap (value_after writes.now default)
        (answer_after default error writes.now) asked.now (string_bytes text)) }
    ensures too_large { IfErr result
        (λ e. e ≡ TooLarge → IsTooLarge (value_after writes.now default)) }
    ensures no_other { IfErr result (λ e. (e ≡ TooLarge) ⊎ (e ≡ Memory)) }
{
    let trie = build_from_writes(alloc, default, error, trie_type, writes)?;
    if asked.is_empty() {
        Ok(ranges_text(alloc, &trie)?)
    } else {
        Ok(answers_text(alloc, asked, |n| trie.get32(n))?)
    }
}

/// Reads the table to its end. Returns the lines of the asked numbers, or those of all ranges of
/// equal values if no number is asked.
fn table_text<S: Source>(
    alloc: Global,
    trie_type: TrieType,
    default: u32,
    error: u32,
    asked: &[u32],
    reader: &mut S,
) -> Result<String, TableError>
    ensures text { IfOk result (λ text. IfSome (S.remaining reader.old) (λ input.
        IsTableText input default error asked.now (string_bytes text))) }
    ensures end { IfOk result (λ _. IsAtEnd (S.remaining reader.new)) }
    ensures counted { IfOk result (λ _. S.failures reader.new ≡ S.failures reader.old) }
    ensures cause { IfErr result (HasCause default (S.remaining reader.old) (S.remaining reader.new)
        (S.failures reader.old) (S.failures reader.new)) }
    ensures no_write { IfErr result (λ e. e ≢ WriteFailed) }
{
    let input = read_all(alloc, reader)?;
    let writes = read_shown_rows(alloc, &input, reader)?;
    answer_text(alloc, trie_type, default, error, &writes, asked)
}

/// Reads the table to its end, and writes the lines of the asked numbers by one call, or those of
/// all ranges of equal values if no number is asked.
///
/// Every error but that of the write comes before a byte is written.
pub fn run<S: Source, W: Sink>(
    alloc: Global,
    trie_type: TrieType,
    default: u32,
    error: u32,
    asked: &[u32],
    reader: &mut S,
    writer: &mut W,
) -> Result<(), TableError>
    ensures text { IfOk result (λ _. IfSome (S.remaining reader.old) (λ input. (text : List ℕ)
        × (IsTableText input default error asked.now text
        × Appends (W.contents writer.old) (W.contents writer.new) text))) }
    ensures end { IfOk result (λ _. IsAtEnd (S.remaining reader.new)) }
    ensures counted { IfOk result (λ _. S.failures reader.new ≡ S.failures reader.old) }
    ensures written { IfOk result (λ _. W.failures writer.new ≡ W.failures writer.old) }

    ensures cause { IfErr result (HasCause default (S.remaining reader.old) (S.remaining reader.new)
        (S.failures reader.old) (S.failures reader.new)) }
    ensures write_fault { IfErr result
        (λ e. e ≡ WriteFailed → W.failures writer.old < W.failures writer.new) }
    ensures before { IfErr result (λ e. e ≢ WriteFailed → writer.new ≡ writer.old) }
{
    let text = table_text(alloc, trie_type, default, error, asked, reader)?;
    match writer.write(text.as_bytes()) {
        Ok(()) => Ok(()),
        Err(Failed) => Err(TableError::Write),
    }
}

/// Writes the usage line. If that fails, nothing else is done.
pub fn write_usage<W: Sink>(writer: &mut W)
    ensures usage { W.failures writer.new ≡ W.failures writer.old
        → Appends (W.contents writer.old) (W.contents writer.new) USAGE.now }
    ensures counted { W.failures writer.old ≤ W.failures writer.new }
{
    let _ = writer.write(USAGE.as_bytes());
}

/// Does what a request asks for, as `run` does, after the words of its numbers are read.
fn answer<S: Source, W: Sink>(
    alloc: Global,
    request: Request<'_>,
    reader: &mut S,
    writer: &mut W,
) -> Result<(), TableError>
    ensures text { IfOk result (λ _. IfSome (S.remaining reader.old) (λ input. (text : List ℕ)
        × (IsTableText input request.entry.default request.entry.error
        (filter_map (λ word. hexadecimal (string_bytes word)) request.entry.asked.now) text
        × Appends (W.contents writer.old) (W.contents writer.new) text))) }
    ensures counted { IfOk result (λ _. S.failures reader.new ≡ S.failures reader.old) }
    ensures written { IfOk result (λ _. W.failures writer.new ≡ W.failures writer.old) }
    ensures cause { IfErr result (HasCause request.entry.default (S.remaining reader.old)
        (S.remaining reader.new)
        (S.failures reader.old) (S.failures reader.new)) }
    ensures write_fault { IfErr result
        (λ e. e ≡ WriteFailed → W.failures writer.old < W.failures writer.new) }
    ensures before { IfErr result (λ e. e ≢ WriteFailed → writer.new ≡ writer.old) }
{
    let asked = asked_numbers(alloc, request.asked)?;
    run(
        alloc,
        request.trie_type,
        request.default,
        request.error,
        &asked,
        reader,
        writer,
    )
}

/// Runs the program with the words after its name, and returns its status.
///
/// The status is 0 if the values or the ranges are printed, 1 if the line of an error is, and 2 if
/// the usage line is. It is the same if that line can't be written.
pub fn run_words<S: Source, W: Sink>(
    alloc: Global,
    words: &[String],
    reader: &mut S,
    writer: &mut W,
) -> u8
    ensures statuses { result ≤ 2 }
    ensures usage { arguments_of (map string_bytes words.now) ≡ None → result ≡ 2 }
    ensures readable { IfSome (arguments_of (map string_bytes words.now)) (λ _. result ≤ 1) }

    ensures answers { result ≡ 0 → IfSome (arguments_of (map string_bytes words.now)) (λ a.
        IfSome (S.remaining reader.old) (λ input. (text : List ℕ)
        × (IsTableText input a.default a.error a.asked text
        × Appends (W.contents writer.old) (W.contents writer.new) text))) }

    // A failed read or write is never ignored.
    ensures sound_reads { result ≡ 0 → S.failures reader.new ≡ S.failures reader.old }
    ensures sound_writes { result ≡ 0 → W.failures writer.new ≡ W.failures writer.old }

    // If no write failed, nothing but the line of an error, or the usage line, is written. Nothing
    // is read before the usage line.
    ensures fault_line { result ≡ 1 → W.failures writer.new ≡ W.failures writer.old
        → IfSome (arguments_of (map string_bytes words.now)) (λ a. (fault : TableError)
        × (fault ≢ WriteFailed
        × (HasCause a.default (S.remaining reader.old) (S.remaining reader.new)
        (S.failures reader.old) (S.failures reader.new) fault
        × Appends (W.contents writer.old) (W.contents writer.new) (fault_text fault ++ 10 ∷ [])))) }
    ensures usage_line { result ≡ 2 → W.failures writer.new ≡ W.failures writer.old
        → Appends (W.contents writer.old) (W.contents writer.new) USAGE.now }
    ensures unread { result ≡ 2 → reader.new ≡ reader.old }
{
    let Some(request) = request_of(words) else {
        write_usage(writer);
        return 2;
    };
    match answer(alloc, request, reader, writer) {
        Ok(()) => 0,
        Err(fault) => {
            let _ = write_fault(writer, fault);
            1
        }
    }
}
