//! Why bytes are not a trie in the binary form, and why a trie cannot be written in it.
ghost use Rattle.std.specs.Prelude.{◌≡◌};

use icu_trie::error::CodePointTrieError;
use icu_zerovec::MemoryError;
use std::alloc::AllocError;
use thiserror::Error;

/// Why bytes are not a trie in the binary form. If several variants apply, the first one is
/// returned.
#[derive(Clone, Copy, Debug, PartialEq, Error)]
pub enum BinaryError {
    /// There are fewer than the 16 bytes of a header.
    #[error("there are fewer bytes than a header has")]
    Short,
    /// The first four bytes are not the signature of a trie, in either byte order.
    #[error("there is no signature of a trie")]
    Signature,
    /// The signature is in the other byte order, as a big-endian machine writes it.
    #[error("the trie is of a machine with the other byte order")]
    Swapped,
    /// The type is neither 0, fast, nor 1, small.
    #[error("the type of the trie is unknown")]
    UnknownType,
    /// The value width is not 0, 1 or 2, for 16, 32 and 8 bits.
    #[error("the width of the values is unknown")]
    UnknownWidth,
    /// One of the three reserved bits of the options is not 0.
    #[error("a reserved bit is not 0")]
    Reserved,
    /// The values have another width than those of the requested type.
    #[error("the values have another width")]
    OtherWidth,
    /// There are fewer bytes than the index and the data take.
    #[error("the index or the data are cut off")]
    CutOff,
    /// The data cell at this index, counted from 0, is the first that is not a value.
    #[error("cell {0} is no value")]
    Cell(usize),
    /// The parts do not form a trie.
    #[error("{0}")]
    Trie(CodePointTrieError),
}

impl From<CodePointTrieError> for BinaryError {
    ghost use Rattle.icu_trie_binary.specs.declared.error.BinaryError.TheVariants.{Trie};

    ghost from_gives = { λ x e. e ≡ Trie x };

    fn from(error: CodePointTrieError) -> BinaryError {
        BinaryError::Trie(error)
    }
}

/// Why a trie cannot be written. If several variants apply, the first one is returned.
#[derive(Clone, Copy, Debug, PartialEq, Eq, Error)]
pub enum WriteError {
    /// The number of bytes of a value is not 1, 2 or 4.
    #[error("the form has no values of this width")]
    UnknownWidth,
    /// The written index would have more than 65,535 cells.
    #[error("the index is too long")]
    LongIndex,
    /// The data have 1,048,576 cells or more.
    #[error("the data are too long")]
    LongData,
    /// The offset of the data null block is 1,048,576 or more.
    #[error("the offset of the data null block is too large")]
    NullOffset,
    /// The high start is not a multiple of 0x200, or is 0x2000000 or more.
    #[error("the form has no such high start")]
    HighStart,
    /// The null value is not that of the cell at the offset of the data null block.
    #[error("the null value is not that of the data null block")]
    NullValue,
    /// The slice has fewer bytes than the trie takes.
    #[error("the trie takes more bytes")]
    Short,
    /// An allocation failed.
    #[error("no memory")]
    Memory,
}

impl From<MemoryError> for WriteError {
    ghost use Rattle.icu_trie_binary.specs.declared.error.WriteError.TheVariants.{Memory};

    ghost from_gives = { λ _ e. e ≡ Memory };

    fn from(_error: MemoryError) -> WriteError {
        WriteError::Memory
    }
}

impl From<AllocError> for WriteError {
    ghost use Rattle.icu_trie_binary.specs.declared.error.WriteError.TheVariants.{Memory};

    ghost from_gives = { λ _ e. e ≡ Memory };

    fn from(_error: AllocError) -> WriteError {
        WriteError::Memory
    }
}

/// Why bytes from a machine with the other byte order cannot be read.
#[derive(Clone, Copy, Debug, PartialEq, Error)]
pub enum SwappedError {
    /// Converted to this machine's order, the bytes are not a trie.
    #[error("{0}")]
    Binary(BinaryError),
    /// An allocation failed.
    #[error("no memory")]
    Memory,
}

impl From<BinaryError> for SwappedError {
    ghost use Rattle.icu_trie_binary.specs.declared.error.SwappedError.TheVariants.{Binary};

    ghost from_gives = { λ x e. e ≡ Binary x };

    fn from(error: BinaryError) -> SwappedError {
        SwappedError::Binary(error)
    }
}

impl From<MemoryError> for SwappedError {
    ghost use Rattle.icu_trie_binary.specs.declared.error.SwappedError.TheVariants.{Memory};

    ghost from_gives = { λ _ e. e ≡ Memory };

    fn from(_error: MemoryError) -> SwappedError {
        SwappedError::Memory
    }
}

impl From<AllocError> for SwappedError {
    ghost use Rattle.icu_trie_binary.specs.declared.error.SwappedError.TheVariants.{Memory};

    ghost from_gives = { λ _ e. e ≡ Memory };

    fn from(_error: AllocError) -> SwappedError {
        SwappedError::Memory
    }
}
