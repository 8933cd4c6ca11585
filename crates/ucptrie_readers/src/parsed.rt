//! A file with its TOML, which is parsed once for all that is read from it.
ghost use Rattle.std.specs.Prelude.{◌≡◌, ℕ, List, IfErr, IfOk, option_map};
ghost use Rattle.ucptrie_readers.specs.Files.{IsTakenForToml, IsWhyNotToml};
ghost use Rattle.ucptrie_readers.specs.Properties.{IsTomlFileOf};

use crate::error::ReadError;
use crate::read::{file_of_toml, toml_text};
use std::alloc::Global;
use std::marker::Model;

/// A file, and its TOML if it is taken for TOML.
#[derive(Drop)]
pub struct ParsedFile<'f> {
    bytes: &'f [u8],
    toml: Option<toml::Table>,
}

impl<'f> Model for ParsedFile<'f> {
    ghost Value = { List ℕ };

    ghost view = { λ a. a.bytes.now };

    ghost invariant = { λ a. IsTomlFileOf a.bytes.now a.toml };
}

impl<'f> ParsedFile<'f> {
    /// Parses a file if it is taken for TOML.
    ///
    /// # Errors
    /// Returns [`ReadError::Toml`] if the text is not TOML, and [`ReadError::Memory`] if an
    /// allocation fails.
    pub fn new(alloc: Global, bytes: &'f [u8]) -> Result<ParsedFile<'f>, ReadError>
        ensures ok { IfOk result (λ file. file ≡ bytes.now) }
        ensures err { IfErr result (λ e. IsTakenForToml bytes.now × IsWhyNotToml bytes.now e) }
    {
        let toml = match toml_text(bytes) {
            Some(text) => Some(file_of_toml(alloc, text)?),
            None => None,
        };
        Ok(ParsedFile { bytes, toml })
    }

    /// Returns the bytes of the file.
    pub fn bytes(&self) -> &'f [u8]
        ensures { result.now ≡ self.now }
    {
        self.bytes
    }

    /// Returns the TOML of the file, or `None` if it is not taken for TOML.
    pub fn toml(&self) -> Option<&toml::Table>
        ensures { IsTomlFileOf self.now (option_map (λ toml. toml.now) result) }
    {
        self.toml.as_ref()
    }
}
