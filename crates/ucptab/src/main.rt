//! Prints the values of a code point trie that is built of the rows on standard input.
#![tactic(auto)]

ghost use Rattle.std.specs.Prelude.{◌≡◌, ◌<◌};

use icu_trie_core::cells::Steps;
use std::env;
use std::io::{self, ErrorKind, Read, Write};
use std::marker::Brand;
use std::process::ExitCode;
use std::sync::ledger::{Blank, Ledger};
use ucptab_table::error::{RowError, TableError};
use ucptab_table::message::row_line_message;
use ucptab_table::streams::{Failed, Sink, Source};
use ucptab_table::text::write_fault;
use ucptab_table::{run_words, write_usage};

/// The name of standard input in messages.
const INPUT: &str = "standard input";

/// A reader with a count of its failures, the last one, and the first line that is not a row.
#[derive(Drop)]
struct Input<R: Read, L: Ledger> {
    reader: R,
    failures: Steps<L>,
    error: Option<io::Error>,
    /// The line's number, counted from 1, and its fault.
    fault: Option<(u64, RowError)>,
    line: Vec<u8>,
}

impl<R: Read, L: Ledger> Source for Input<R, L> {
    ghost remaining = { λ input. R.remaining input.reader };

    ghost failures = { λ input. input.failures };

    fn read(&mut self, buf: &mut [u8]) -> Result<usize, Failed> {
        match self.reader.read(buf) {
            Ok(n) => Ok(n),
            Err(error) => {
                self.failures.tick();
                self.error = Some(error);
                Err(Failed)
            }
        }
    }

    fn note_fault(&mut self, number: u64, line: &[u8], fault: RowError) {
        if self.line.extend_from_slice(line).is_ok() {
            self.fault = Some((number, fault));
        }
    }
}

/// A writer with a count of its failures, and the last one.
#[derive(Drop)]
struct Output<W: Write, L: Ledger> {
    writer: W,
    failures: Steps<L>,
    error: Option<io::Error>,
}

impl<W: Write, L: Ledger> Sink for Output<W, L> {
    ghost contents = { λ output. W.contents output.writer };

    ghost failures = { λ output. output.failures };

    fn write(&mut self, buf: &[u8]) -> Result<(), Failed> {
        match self.writer.write_all(buf) {
            Ok(()) => Ok(()),
            Err(error) => {
                self.failures.tick();
                self.error = Some(error);
                Err(Failed)
            }
        }
    }
}

/// Prints why there are no arguments, and returns the status: the line of a failed allocation, or
/// the usage line if an argument is not valid text.
fn without_words<W: Sink>(writer: &mut W, why: ErrorKind) -> u8 {
    if why != ErrorKind::OutOfMemory {
        write_usage(writer);
        return 2;
    }
    let _ = write_fault(writer, TableError::Memory);
    1
}

/// Says on standard error that a stream failed, unless its reader has closed the pipe.
fn say(rt: &HostRuntime, stream: &str, failure: &Option<io::Error>) {
    match failure {
        Some(error) if error.kind() != ErrorKind::BrokenPipe => {
            let _ = eprintln!(rt; "ucptab: {stream}: {error}");
        }
        _ => {}
    }
}

/// Says on standard error which line is not a row, what was expected of it, and a hint.
fn say_fault(rt: &HostRuntime, number: u64, fault: RowError, line: &[u8]) {
    if let Ok(message) = row_line_message(rt.alloc(), INPUT, number, fault, line) {
        let _ = eprintln!(rt; "ucptab: {message}");
    }
}

/// Runs the program over standard input and output, and returns its status. Each stream has a
/// ledger for its failures.
fn status<L: Ledger, K: Ledger>(rt: &HostRuntime, reads: Blank, writes: Blank) -> u8
    requires name { reads.name ≡ L.name }
    requires parts { reads.parts ≡ L.parts }
    requires some { 0 < reads.parts }
    requires other_name { writes.name ≡ K.name }
    requires other_parts { writes.parts ≡ K.parts }
    requires other_some { 0 < writes.parts }
{
    let mut reader = Input {
        reader: rt.stdin(),
        failures: Steps::<L>::new(reads),
        error: None,
        fault: None,
        line: Vec::new(rt.alloc()),
    };
    let mut writer = Output {
        writer: rt.stdout(),
        failures: Steps::<K>::new(writes),
        error: None,
    };
    let args = match env::args(rt) {
        Ok(args) => args,
        Err(error) => return without_words(&mut writer, error.kind()),
    };
    let Ok(words) = args.skip(1).collect(rt.alloc()) else {
        let _ = write_fault(&mut writer, TableError::Memory);
        return 1;
    };
    let words: Vec<String> = words;
    let status = run_words(rt.alloc(), &words, &mut reader, &mut writer);
    say(rt, INPUT, &reader.error);
    if let Some((number, fault)) = reader.fault {
        say_fault(rt, number, fault, &reader.line);
    }
    say(rt, "standard output", &writer.error);
    status
}

fn main(rt: HostRuntime) -> ExitCode {
    ExitCode::from(status::<Brand, Brand>(&rt, Blank::new(1), Blank::new(1)))
}
