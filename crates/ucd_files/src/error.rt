//! What is wrong with a line, and why a file can't be read.
ghost use Rattle.std.specs.Prelude.{◌≡◌, ◌++◌, Some, codes};
ghost use Rattle.ucd_files.specs.Messages.{expected_text, fault_text};
ghost use Rattle.ucd_files.specs.declared.error.FileError.TheVariants.{Memory};

use icu_zerovec::MemoryError;
use std::alloc::AllocError;
use std::error::Error;
use std::fmt;

/// What is wrong with a line. Lines are tested in this order.
#[derive(Clone, Copy, Debug, PartialEq, Eq)]
pub enum LineError {
    /// In `UnicodeData.txt`, the line before gives the first code point of a range, and this line
    /// does not give the last one of the same range, with the same value. Or this line gives the
    /// last one, and the line before does not give the first one.
    Unpaired,
    /// In another file, the line gives one of the two code points of a range in two lines.
    SplitRange,
    /// Field 0 is neither `HEX` nor `HEX..HEX`.
    NotCodePoints,
    /// A code point is above 10FFFF.
    CodePoint,
    /// The end of the range is below its start.
    Reversed,
    /// The line has no value.
    NoValue,
    /// The value is no number or no known name.
    UnknownValue,
}

impl LineError {
    /// Returns what the test that failed expects of a line, in words.
    pub fn expected(self) -> &'static str
        ensures { result.now ≡ expected_text self }
    {
        match self {
            LineError::Unpaired =>
                "a line `<NAME, First>`, then a line `<NAME, Last>` with the same value",
            LineError::SplitRange =>
                "HEX..HEX for a range: only UnicodeData.txt has it in two lines",
            LineError::NotCodePoints => "HEX or HEX..HEX before the first `;`",
            LineError::CodePoint => "code points up to 10FFFF",
            LineError::Reversed => "a range whose end is not below its start",
            LineError::NoValue => "a value",
            LineError::UnknownValue => "a value that is a known name or number",
        }
    }
}

impl fmt::Display for LineError {
    ghost output = { λ fault. Some (codes "expected " ++ expected_text fault) };

    fn fmt<W: fmt::Write>(&self, f: &mut fmt::Formatter<W>) -> fmt::Result {
        let expected = self.expected();
        write!(f, "expected {expected}")
    }
}

impl Error for LineError {}

/// Why a file can't be read.
#[derive(Clone, Copy, Debug, PartialEq, Eq)]
pub enum FileError {
    /// The first line that has a fault, counted from 1, and its fault.
    Line(u64, LineError),
    /// The last line gives the first code point of a range, so the last code point is missing.
    Unfinished,
    /// An allocation failed.
    Memory,
}

impl fmt::Display for FileError {
    ghost output = { λ fault. Some (fault_text fault) };

    fn fmt<W: fmt::Write>(&self, f: &mut fmt::Formatter<W>) -> fmt::Result {
        match self {
            FileError::Line(number, fault) => write!(f, "line {number}: {fault}"),
            FileError::Unfinished => f.write_str("the file ends after `<.., First>`"),
            FileError::Memory => f.write_str("no memory"),
        }
    }
}

impl Error for FileError {}

impl From<AllocError> for FileError {
    ghost from_gives = { λ _ e. e ≡ Memory };

    fn from(_error: AllocError) -> FileError {
        FileError::Memory
    }
}

impl From<MemoryError> for FileError {
    ghost from_gives = { λ _ e. e ≡ Memory };

    fn from(_error: MemoryError) -> FileError {
        FileError::Memory
    }
}
