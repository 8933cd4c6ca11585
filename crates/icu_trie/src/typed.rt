//! Tries with their trie type in the Rust type.
//!
//! The header of a trie has its type. `as_typed_ref` reads the type once, for all the look-ups of a
//! loop:
//!
//! ```
//! let sum = match trie.as_typed_ref() {
//!     Typed::Fast(trie) => sum_of(&trie, "text"),
//!     Typed::Small(trie) => sum_of(&trie, "text"),
//! };
//! // sum_of is generic over V: TypedCodePointTrie<'_, u8>, and adds trie.get(c) for each c
//! ```
ghost use Rattle.std.specs.Prelude.{◌≡◌, ℕ, ◌≤◌, ◌<◌, nat_lt, Some, None, IfOk, IfErr, if◌then◌else◌};
ghost use Rattle.std.specs.Option.{option_map};
ghost use Rattle.icu_trie_core.specs.Format.{fast_limit};
ghost use Rattle.icu_trie.specs.Parts.{Parts, trie_value};
ghost use Rattle.icu_trie_core.specs.declared.header.TrieType.{TrieType};
ghost use Rattle.icu_trie_core.specs.declared.header.TrieType.TheVariants.{Fast, Small};
ghost use Rattle.icu_trie.specs.Typed.{IsTyped, IsOfType};

use crate::cptrie::CodePointTrie;
use icu_trie_core::header::TrieType;
use icu_trie_core::value::TrieValue;
use std::marker::Model;
use thiserror::Error;

/// A value that contains a trie, from which [`TypedCodePointTrie`] takes it.
pub trait Untyped {
    /// The type of the trie: a [`CodePointTrie`].
    type Trie;

    /// The header, the index and the data of the trie.
    ghost parts: { Self → Self.Trie };

    /// Returns a reference to the trie.
    fn untyped_ref(&self) -> &Self::Trie
        ensures { result.now ≡ parts self.now };

    /// Converts the value into the trie.
    fn into_untyped(self) -> Self::Trie
    where
        Self: Sized,
        ensures { result ≡ parts self };
}

/// A trie whose type is known at compile time, so that look-ups do not test it.
///
/// ```
/// if let Typed::Small(trie) = trie.as_typed_ref() {
///     // trie.get32_by_fast_index(0xFFF) is Some(trie.get32(0xFFF)), and of 0x1000 it is None
/// }
/// ```
///
/// The tries of a user-defined type must all have the type [`TRIE_TYPE`](Self::TRIE_TYPE).
///
/// # Contract
/// Contracts name it `trie_type`, since they cannot name a constant of a type that borrows.
pub trait TypedCodePointTrie<'trie, T: TrieValue>: Untyped<Trie = CodePointTrie<'trie, T>> {
    /// The type of the trie.
    const TRIE_TYPE: TrieType;

    /// The value of the constant, for contracts.
    ghost trie_type: { TrieType };

    /// Returns a reference to the trie as a [`CodePointTrie`].
    #[inline(always)]
    final fn as_untyped_ref(&self) -> &CodePointTrie<'trie, T>
        ensures { result.now ≡ Self.parts self.now }
    {
        self.untyped_ref()
    }

    /// Converts the trie into a [`CodePointTrie`].
    #[inline(always)]
    final fn to_untyped(self) -> CodePointTrie<'trie, T>
    where
        Self: Sized,
        ensures { result ≡ Self.parts self }
    {
        self.into_untyped()
    }

    /// Shows a proof that the type of this trie is the constant. It does nothing at run time.
    fn shown(&self)
        ensures { (Self.parts self.now).header.trie_type ≡ trie_type };

    /// Returns the value of the code point `c`, as [`CodePointTrie::get32`] does.
    fn get32(&self, c: u32) -> T
        ensures { Some result ≡ trie_value (Self.parts self.now) c };

    /// Returns the value of the character `c`.
    fn get(&self, c: char) -> T
        ensures { Some result ≡ trie_value (Self.parts self.now) c };

    /// Returns the value of a code point in the Basic Multilingual Plane (0..=0xFFFF), which may be
    /// a surrogate. In a fast trie this takes two reads.
    #[inline(always)]
    final fn get16(&self, bmp: u16) -> T
        ensures { Some result ≡ trie_value (Self.parts self.now) bmp }
    {
        self.get32(u32::from(bmp))
    }

    /// Returns the value of a supplementary code point (0x10000..=0x10FFFF). For any other argument
    /// it returns what [`get32`](Self::get32) returns.
    #[inline(always)]
    final fn get32_supplementary(&self, supplementary: u32) -> T
        ensures { Some result ≡ trie_value (Self.parts self.now) supplementary }
    {
        self.get32(supplementary)
    }

    /// Returns the number of the value of the code point `c`: the `to_u32` of what
    /// [`get32`](Self::get32) returns.
    #[inline(always)]
    final fn get32_u32(&self, c: u32) -> u32
        ensures { Some result ≡ option_map T.number (trie_value (Self.parts self.now) c) }
    {
        self.get32(c).to_u32()
    }

    /// Returns the value of the code point `c` if it is below the fast limit, otherwise `None`. The
    /// fast limit is 0x10000 for a fast trie and 0x1000 for a small one.
    fn get32_by_fast_index(&self, c: u32) -> Option<T>
        ensures { result
            ≡ (if nat_lt c (fast_limit trie_type) then trie_value (Self.parts self.now) c else None) };
}

/// A trie of the type `Fast`: look-ups in the whole Basic Multilingual Plane take two reads.
#[derive(Debug, Drop)]
pub struct FastCodePointTrie<'trie, T: TrieValue> {
    inner: CodePointTrie<'trie, T>,
}

impl<'trie, T: TrieValue> Model for FastCodePointTrie<'trie, T> {
    // Contracts see a typed trie as its trie.
    ghost Value = { Parts T };

    ghost view = { λ t. t.inner };

    ghost invariant = { λ t. t.inner.header.trie_type ≡ Fast };
}

impl<'trie, T: TrieValue> Untyped for FastCodePointTrie<'trie, T> {
    type Trie = CodePointTrie<'trie, T>;

    ghost parts = { λ t. t };

    #[inline(always)]
    fn untyped_ref(&self) -> &CodePointTrie<'trie, T> {
        &self.inner
    }

    #[inline(always)]
    fn into_untyped(self) -> CodePointTrie<'trie, T> {
        self.inner
    }
}

impl<'trie, T: TrieValue> TypedCodePointTrie<'trie, T> for FastCodePointTrie<'trie, T> {
    const TRIE_TYPE: TrieType = TrieType::Fast;

    ghost trie_type = { Fast };

    #[inline(always)]
    fn shown(&self) {
        let _ = &self.inner;
    }

    #[inline(always)]
    fn get32(&self, c: u32) -> T {
        self.inner.as_view().value_by_type(TrieType::Fast, c)
    }

    #[inline(always)]
    fn get(&self, c: char) -> T {
        self.inner.as_view().character_by_type(TrieType::Fast, c)
    }

    #[inline(always)]
    fn get32_by_fast_index(&self, c: u32) -> Option<T> {
        self.inner.as_view().fast_value_by_type(TrieType::Fast, c)
    }
}

/// A trie of the type `Small`: look-ups of code points below 0x1000 take two reads.
#[derive(Debug, Drop)]
pub struct SmallCodePointTrie<'trie, T: TrieValue> {
    inner: CodePointTrie<'trie, T>,
}

impl<'trie, T: TrieValue> Model for SmallCodePointTrie<'trie, T> {
    // Contracts see a typed trie as its trie.
    ghost Value = { Parts T };

    ghost view = { λ t. t.inner };

    ghost invariant = { λ t. t.inner.header.trie_type ≡ Small };
}

impl<'trie, T: TrieValue> Untyped for SmallCodePointTrie<'trie, T> {
    type Trie = CodePointTrie<'trie, T>;

    ghost parts = { λ t. t };

    #[inline(always)]
    fn untyped_ref(&self) -> &CodePointTrie<'trie, T> {
        &self.inner
    }

    #[inline(always)]
    fn into_untyped(self) -> CodePointTrie<'trie, T> {
        self.inner
    }
}

impl<'trie, T: TrieValue> TypedCodePointTrie<'trie, T> for SmallCodePointTrie<'trie, T> {
    const TRIE_TYPE: TrieType = TrieType::Small;

    ghost trie_type = { Small };

    #[inline(always)]
    fn shown(&self) {
        let _ = &self.inner;
    }

    #[inline(always)]
    fn get32(&self, c: u32) -> T {
        self.inner.as_view().value_by_type(TrieType::Small, c)
    }

    #[inline(always)]
    fn get(&self, c: char) -> T {
        self.inner.as_view().character_by_type(TrieType::Small, c)
    }

    #[inline(always)]
    fn get32_by_fast_index(&self, c: u32) -> Option<T> {
        self.inner.as_view().fast_value_by_type(TrieType::Small, c)
    }
}

/// A trie together with its type.
#[derive(Clone, Copy, Debug, PartialEq, Eq)]
pub enum Typed<F, S> {
    /// The trie is of the type `Fast`.
    Fast(F),
    /// The trie is of the type `Small`.
    Small(S),
}

/// The error of a conversion to a typed trie: the trie is of the other type.
#[derive(Clone, Copy, Debug, PartialEq, Eq, Error)]
#[error("the trie is of the other type")]
pub struct TypedCodePointTrieError;

impl<'trie, T: TrieValue> CodePointTrie<'trie, T> {
    /// Converts the trie into the typed trie of its type.
    pub fn to_typed(self) -> Typed<FastCodePointTrie<'trie, T>, SmallCodePointTrie<'trie, T>>
        ensures { IsTyped self.entry result }
    {
        match self.header.trie_type {
            TrieType::Fast => Typed::Fast(FastCodePointTrie { inner: self }),
            TrieType::Small => Typed::Small(SmallCodePointTrie { inner: self }),
        }
    }

    /// Returns the typed trie of this trie's type. It borrows its index and its data from this
    /// trie.
    pub fn as_typed_ref(&self) -> Typed<FastCodePointTrie<'_, T>, SmallCodePointTrie<'_, T>>
        ensures { IsTyped self.now result }
    {
        self.lent().to_typed()
    }

    /// Returns an equal trie that borrows its index and its data from this one.
    pub(crate) fn lent(&self) -> CodePointTrie<'_, T>
        ensures { result ≡ self.now }
    {
        CodePointTrie {
            header: self.header,
            index: self.index.as_slice().as_zerovec(),
            data: self.data.as_slice().as_zerovec(),
        }
    }
}

/// Converts a trie of the type `Fast`. A small trie is an error.
impl<'trie, T: TrieValue> TryFrom<CodePointTrie<'trie, T>> for FastCodePointTrie<'trie, T> {
    type Error = TypedCodePointTrieError;

    ghost try_from_gives = { λ t r. IsOfType Fast t r };

    fn try_from(trie: CodePointTrie<'trie, T>) -> Result<Self, TypedCodePointTrieError> {
        match trie.to_typed() {
            Typed::Fast(trie) => Ok(trie),
            Typed::Small(_) => Err(TypedCodePointTrieError),
        }
    }
}

/// Borrows a trie of the type `Fast`. A small trie is an error.
impl<'a, 'trie, T: TrieValue> TryFrom<&'a CodePointTrie<'trie, T>> for FastCodePointTrie<'a, T> {
    type Error = TypedCodePointTrieError;

    ghost try_from_gives = { λ t r. IsOfType Fast t.now r };

    fn try_from(trie: &'a CodePointTrie<'trie, T>) -> Result<Self, TypedCodePointTrieError> {
        match trie.as_typed_ref() {
            Typed::Fast(trie) => Ok(trie),
            Typed::Small(_) => Err(TypedCodePointTrieError),
        }
    }
}

/// Converts a trie of the type `Small`. A fast trie is an error.
impl<'trie, T: TrieValue> TryFrom<CodePointTrie<'trie, T>> for SmallCodePointTrie<'trie, T> {
    type Error = TypedCodePointTrieError;

    ghost try_from_gives = { λ t r. IsOfType Small t r };

    fn try_from(trie: CodePointTrie<'trie, T>) -> Result<Self, TypedCodePointTrieError> {
        match trie.to_typed() {
            Typed::Fast(_) => Err(TypedCodePointTrieError),
            Typed::Small(trie) => Ok(trie),
        }
    }
}

/// Borrows a trie of the type `Small`. A fast trie is an error.
impl<'a, 'trie, T: TrieValue> TryFrom<&'a CodePointTrie<'trie, T>> for SmallCodePointTrie<'a, T> {
    type Error = TypedCodePointTrieError;

    ghost try_from_gives = { λ t r. IsOfType Small t.now r };

    fn try_from(trie: &'a CodePointTrie<'trie, T>) -> Result<Self, TypedCodePointTrieError> {
        match trie.as_typed_ref() {
            Typed::Fast(_) => Err(TypedCodePointTrieError),
            Typed::Small(trie) => Ok(trie),
        }
    }
}
