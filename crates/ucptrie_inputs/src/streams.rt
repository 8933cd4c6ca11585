//! Files and streams, and the names by which faults call them.
use crate::compressed::{expect_decompressed, expect_lines};
use crate::error::{Error, about, about_arguments};
use std::alloc::Global;
use std::io::{Read, Write};
use std::{fs, io};

/// The name of standard input in messages.
pub const INPUT: &str = "standard input";

/// The name of standard output in messages.
const OUTPUT: &str = "standard output";

/// Returns the fault of two inputs that are standard input.
pub fn read_twice(alloc: Global) -> Error {
    about_arguments(alloc, INPUT, "can be read once, and two inputs are -")
}

/// Returns the name of an input in messages. `-` is standard input.
pub fn input_name(path: &str) -> &str {
    if path == "-" { INPUT } else { path }
}

/// The byte order mark of UTF-8.
const MARK: &[u8] = b"\xef\xbb\xbf";

/// Returns a text without the byte order mark at its start, if it has one.
pub fn without_mark(text: &[u8]) -> &[u8] {
    text.strip_prefix(MARK).unwrap_or(text)
}

/// Reads all of standard input.
fn input(rt: &HostRuntime) -> Result<Vec<u8>, Error> {
    let mut bytes = Vec::new(rt.alloc());
    match rt.stdin().read_to_end(&mut bytes) {
        Ok(_) => Ok(bytes),
        Err(error) => Err(about(rt.alloc(), INPUT, error)),
    }
}

/// Reads a file, or standard input if its name is `-`.
pub fn bytes_at(rt: &HostRuntime, path: &str) -> Result<Vec<u8>, Error> {
    if path == "-" {
        return input(rt);
    }
    match fs::read(rt, path) {
        Ok(bytes) => Ok(bytes),
        Err(error) => Err(about(rt.alloc(), path, error)),
    }
}

/// Reads a text from a file, or from standard input if its name is `-`. `option` is the option that
/// names it, with a space.
pub fn text_at(rt: &HostRuntime, path: &str, option: &'static str) -> Result<Vec<u8>, Error> {
    let bytes = bytes_at(rt, path)?;
    expect_decompressed(rt.alloc(), input_name(path), option, &bytes)?;
    expect_lines(rt.alloc(), input_name(path), &bytes)?;
    Ok(bytes)
}

/// Returns the fault of a write to standard output. It says nothing if the reader has closed the
/// pipe, as `head` does.
fn unwritten(alloc: Global, error: io::Error) -> Error {
    if matches!(error.kind(), io::ErrorKind::BrokenPipe) {
        return Error::ClosedPipe;
    }
    about(alloc, OUTPUT, error)
}

/// Writes to standard output.
pub fn put(rt: &HostRuntime, bytes: &[u8]) -> Result<(), Error> {
    match rt.stdout().write_all(bytes) {
        Ok(()) => Ok(()),
        Err(error) => Err(unwritten(rt.alloc(), error)),
    }
}

/// Prints a line on standard error.
pub fn say(rt: &HostRuntime, line: &str) {
    let _ = eprintln!(rt; "ucptrie: {line}");
}

/// Prints on standard error that a step is done, and over how many bytes.
pub fn say_step(rt: &HostRuntime, step: &str, bytes: usize) {
    let _ = eprintln!(rt; "ucptrie: {step} {bytes} bytes");
}
