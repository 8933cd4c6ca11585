//! The lines that are printed.
ghost use Rattle.std.specs.Prelude.{◌≡◌, ℕ, ◌+◌, ◌<◌, ◌^◌, [], ◌∷◌, ◌++◌, List, IfOk, IfErr, decimal, string_bytes};
ghost use Rattle.std.specs.Io.KnownBytes.{Appends};
ghost use Rattle.icu_zerovec.specs.CodePoints.{code_point_limit};
ghost use Rattle.icu_trie_core.specs.ValueNumbers.{fitting};
ghost use Rattle.icu_trie.specs.Ranges.{answers, IsCoherentTrie};
ghost use Rattle.icu_trie_core.specs.Runs.{Run, AreMaximalRuns};
ghost use Rattle.ucptab_table.specs.TableText.{answer_line, answers_text, fault_text, hex_text, run_line, runs_text};
ghost use Rattle.ucptab_table.specs.Inside.Ranges.{run_of_values};

use crate::error::TableError;
use crate::streams::{Failed, Sink};
use icu_trie::cptrie::CodePointTrie;
use icu_trie_core::range::CodePointMapRange;
use std::alloc::{AllocError, Global};

/// Appends the line of an asked number: the number, in at least four hexadecimal digits, and its
/// value.
#[tactic(auto, using(crate::proofs::Printed::hex_written), unfolding(crate::specs::TableText::answer_line))]
fn push_answer(text: &mut String, asked: u32, answer: u32) -> Result<(), AllocError>
    ensures { IfOk result (λ _. string_bytes text.new
        ≡ string_bytes text.old ++ answer_line asked answer) }
{
    writeln!(text, "{asked:04X};{answer}")
}

/// Returns the lines of the asked numbers, in order, each with what `answer` returns for it.
///
/// # Errors
/// Returns [`AllocError`] if an allocation fails.
pub fn answers_text<F: Fn(u32) -> u32>(
    alloc: Global,
    asked: &[u32],
    answer: F,
) -> Result<String, AllocError>
    requires { F.IsAlwaysCallable answer }
    ensures { (given : ℕ → ℕ) → ((n m : ℕ) → n < 2 ^ 32 → F.post answer n m → m ≡ given n)
        → IfOk result (λ text. string_bytes text ≡ answers_text given asked.now) }
{
    let mut text = String::new(alloc);
    for n in asked {
        push_answer(&mut text, *n, answer(*n))?;
    }
    Ok(text)
}

/// Appends a number in at least four hexadecimal digits, and two dots.
///
/// # Errors
/// Returns [`AllocError`] if an allocation fails.
#[tactic(auto, using(crate::proofs::Printed::hex_written))]
pub fn push_dotted(text: &mut String, n: u32) -> Result<(), AllocError>
    ensures { IfOk result (λ _. string_bytes text.new
        ≡ string_bytes text.old ++ (hex_text n ++ (46 ∷ (46 ∷ [])))) }
{
    write!(text, "{n:04X}..")
}

/// Appends the line of a range: its first and its last code point, or one if they are equal, and
/// its value. Code points have at least four hexadecimal digits.
fn push_range(text: &mut String, range: &CodePointMapRange<u32>) -> Result<(), AllocError>
    ensures { IfOk result (λ _. string_bytes text.new
        ≡ string_bytes text.old ++ run_line (run_of_values range.now)) }
{
    let (first, last) = (*range.range.start(), *range.range.end());
    if first < last {
        push_dotted(text, first)?;
        push_answer(text, last, range.value)
    } else {
        push_answer(text, last, range.value)
    }
}

/// Returns the lines of all ranges of the trie, in order. If the trie is coherent, they are the
/// maximal runs of its values.
///
/// # Errors
/// Returns [`AllocError`] if an allocation fails.
pub fn ranges_text(alloc: Global, trie: &CodePointTrie<'_, u32>) -> Result<String, AllocError>
    ensures { IsCoherentTrie (fitting (2 ^ 32)) trie.now → (value : ℕ → ℕ)
        → ((u : ℕ) → u < code_point_limit → answers trie.now u ≡ Some (value u))
        → IfOk result (λ text. (runs : List (Run ℕ)) × (AreMaximalRuns value runs
        × (string_bytes text ≡ runs_text runs))) }
{
    let mut text = String::new(alloc);
    for range in trie.iter_ranges() {
        push_range(&mut text, &range)?;
    }
    Ok(text)
}

/// Writes a number in decimal digits. Allocates nothing.
#[tactic(auto, using(crate::proofs::Printed::printing))]
fn write_decimal<W: Sink>(sink: &mut W, n: u64) -> Result<(), Failed>
    ensures text { IfOk result (λ _. Appends (W.contents sink.old) (W.contents sink.new)
        (decimal n)) }
    ensures counted { IfOk result (λ _. W.failures sink.new ≡ W.failures sink.old) }
    ensures failed { IfErr result (λ _. W.failures sink.new ≡ W.failures sink.old + 1) }
{
    if n < 10 {
        return sink.write(&[b'0' + n as u8]);
    }
    write_decimal(sink, n / 10)?;
    sink.write(&[b'0' + (n % 10) as u8])
}

/// Writes the line of an error. Allocates nothing.
#[tactic(auto, using(crate::proofs::Printed::printing))]
pub fn write_fault<W: Sink>(sink: &mut W, fault: TableError) -> Result<(), Failed>
    ensures text { IfOk result
        (λ _. Appends (W.contents sink.old) (W.contents sink.new) (fault_text fault ++ 10 ∷ [])) }
    ensures counted { IfOk result (λ _. W.failures sink.new ≡ W.failures sink.old) }
    ensures failed { IfErr result (λ _. W.failures sink.new ≡ W.failures sink.old + 1) }
{
    match fault {
        TableError::Row(number, fault) => {
            sink.write(b"line ")?;
            write_decimal(sink, number)?;
            sink.write(b": ")?;
            sink.write(fault.text().as_bytes())?;
        }
        TableError::TooLarge => sink.write(b"too large")?,
        TableError::Memory => sink.write(b"no memory")?,
        TableError::Read => sink.write(b"read fault")?,
        TableError::Write => sink.write(b"write fault")?,
    }
    sink.write(b"\n")
}
