//! Why a file has no table.
ghost use Rattle.std.specs.Prelude.{◌≡◌, ◌⊎◌, ◌+◌, take};
ghost use Rattle.ucptrie_tables.specs.Comparison.{line_feeds};

use icu_trie_binary::binary::{BinaryError, SwappedError};
use icu_trie_formats::json::TrieJsonError;
use icu_trie_formats::trie_toml::{TomlError, TrieFromTomlError};
use std::alloc::AllocError;
use std::{error, fmt};
use thiserror::Error;
use ucd_files::error::FileError;
use ucptrie_tables::compare::line_feeds;
use ucptrie_tables::error::TableBuildError;

/// Why a file of the Unicode Character Database makes no table.
#[derive(Debug, Drop, Error)]
pub enum UnicodeFileError {
    /// A line of the file has a fault, or the file is not complete.
    #[error("{0}")]
    File(FileError),
    /// What its lines say makes no table.
    #[error("{0}")]
    Build(TableBuildError),
}

impl From<FileError> for UnicodeFileError {
    ghost use Rattle.ucptrie_readers.specs.declared.error.UnicodeFileError.TheVariants.{File};

    ghost from_gives = { λ x e. e ≡ File x };

    fn from(error: FileError) -> UnicodeFileError {
        UnicodeFileError::File(error)
    }
}

impl From<TableBuildError> for UnicodeFileError {
    ghost use Rattle.ucptrie_readers.specs.declared.error.UnicodeFileError.TheVariants.{Build};

    ghost from_gives = { λ x e. e ≡ Build x };

    fn from(error: TableBuildError) -> UnicodeFileError {
        UnicodeFileError::Build(error)
    }
}

impl From<AllocError> for UnicodeFileError {
    ghost use Rattle.ucd_files.specs.declared.error.FileError.TheVariants.{Memory};
    ghost use Rattle.ucptrie_readers.specs.declared.error.UnicodeFileError.TheVariants.{File};

    ghost from_gives = { λ _ e. e ≡ File Memory };

    fn from(_error: AllocError) -> UnicodeFileError {
        UnicodeFileError::File(FileError::Memory)
    }
}

/// Why a text is not TOML, and in which line, counted from 1.
#[derive(Clone, Copy, Debug, PartialEq, Eq)]
pub struct TomlFileError {
    line: usize,
    error: toml::de::Error,
}

/// Returns the line of a text that has the byte at an index, counted from 1.
fn line_at(text: &str, index: usize) -> usize
    ensures { result ≡ line_feeds (take index text.now) + 1 }
{
    line_feeds(&text.as_bytes()[..index.min(text.len())]) + 1
}

impl TomlFileError {
    ghost use Rattle.std.specs.Prelude.{◌≡◌, ◌+◌, take};
    ghost use Rattle.toml.specs.Errors.{span_start, IsMemory};
    ghost use Rattle.ucptrie_tables.specs.Comparison.{line_feeds};

    /// Returns the fault of a text, with its line.
    pub(crate) fn new(text: &str, error: toml::de::Error) -> TomlFileError
        ensures line { ¬ IsMemory error
            → result.line ≡ line_feeds (take (span_start error) text.now) + 1 }
        ensures error { result.error ≡ error }
    {
        let start = match error.span() {
            Some(span) => span.start,
            None => 0,
        };
        let line = line_at(text, start);
        TomlFileError { line, error }
    }

    /// Returns the line, counted from 1.
    pub fn line(&self) -> usize
        ensures { result ≡ self.now.line }
    {
        self.line
    }

    /// Returns what is wrong with it.
    pub fn message(&self) -> &str {
        self.error.message()
    }
}

/// Writes the line and the message, without a line feed.
impl fmt::Display for TomlFileError {
    fn fmt<W: fmt::Write>(&self, f: &mut fmt::Formatter<W>) -> fmt::Result {
        let (line, message) = (self.line, self.message());
        write!(f, "line {line}: {message}")
    }
}

impl error::Error for TomlFileError {}

/// Why a file has no table.
#[derive(Debug, Drop, Error)]
pub enum ReadError {
    /// It has the signature of ICU's binary form, and is not a trie in it.
    #[error("not a trie in ICU's binary form: {0}")]
    Binary(BinaryError),
    /// It has no signature, and is not a text in UTF-8.
    #[error("neither a trie in ICU's binary form nor a text in UTF-8")]
    Text,
    /// It starts with `{`, and is not JSON.
    #[error("not JSON: {0}")]
    Json(serde_json::Error),
    /// Its JSON is not a trie.
    #[error("the JSON is not a trie: {0}")]
    TrieJson(TrieJsonError),
    /// It is not TOML, nor in any of the other forms.
    #[error("not TOML: {0}")]
    Toml(TomlFileError),
    /// Its TOML is not a trie.
    #[error("the TOML is not a trie: {0}")]
    TrieToml(TrieFromTomlError),
    /// An allocation failed.
    #[error("no memory")]
    Memory,
}

impl From<BinaryError> for ReadError {
    ghost use Rattle.ucptrie_readers.specs.declared.error.ReadError.TheVariants.{Binary};

    ghost from_gives = { λ x e. e ≡ Binary x };

    fn from(error: BinaryError) -> ReadError {
        ReadError::Binary(error)
    }
}

impl From<SwappedError> for ReadError {
    ghost use Rattle.ucptrie_readers.specs.Files.{refusal_of_swapped};

    ghost from_gives = { λ x e. e ≡ refusal_of_swapped x };

    fn from(error: SwappedError) -> ReadError {
        match error {
            SwappedError::Binary(error) => ReadError::Binary(error),
            SwappedError::Memory => ReadError::Memory,
        }
    }
}

impl From<serde_json::Error> for ReadError {
    ghost use Rattle.serde_json.specs.Errors.{IsMemory};
    ghost use Rattle.ucptrie_readers.specs.declared.error.ReadError.TheVariants.{Json, Memory};

    ghost from_gives = { λ x e. (e ≡ Memory) ⊎ ((e ≡ Json x) × ¬ IsMemory x) };

    fn from(error: serde_json::Error) -> ReadError {
        if error.is_memory() {
            return ReadError::Memory;
        }
        ReadError::Json(error)
    }
}

impl From<TrieJsonError> for ReadError {
    ghost use Rattle.ucptrie_readers.specs.Files.{refusal_of_json};

    ghost from_gives = { λ x e. e ≡ refusal_of_json x };

    fn from(error: TrieJsonError) -> ReadError {
        match error {
            TrieJsonError::Memory => ReadError::Memory,
            _ => ReadError::TrieJson(error),
        }
    }
}

impl From<TomlError> for ReadError {
    ghost use Rattle.icu_trie_formats.specs.TrieToml.{table_refusal};
    ghost use Rattle.ucptrie_readers.specs.Files.{refusal_of_toml};

    ghost from_gives = { λ x e. e ≡ refusal_of_toml (table_refusal x) };

    fn from(error: TomlError) -> ReadError {
        ReadError::from(TrieFromTomlError::from(error))
    }
}

impl From<TrieFromTomlError> for ReadError {
    ghost use Rattle.ucptrie_readers.specs.Files.{refusal_of_toml};

    ghost from_gives = { λ x e. e ≡ refusal_of_toml x };

    fn from(error: TrieFromTomlError) -> ReadError {
        match error {
            TrieFromTomlError::Memory => ReadError::Memory,
            _ => ReadError::TrieToml(error),
        }
    }
}
