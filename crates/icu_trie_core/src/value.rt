//! The values of a trie.
ghost use Rattle.std.specs.Prelude.{◌≡◌, ℕ, ◌^◌, ◌↔◌, IsTrue, IfOk, OnErr, Option, Some, None};
ghost use Rattle.std.specs.Int.{w8, w16, w32, cast_unsigned};
ghost use Rattle.std.proofs.Common.{lit≤};
ghost use Rattle.icu_trie_core.specs.ValueNumbers.{fitting, signed_fitting, character};
ghost use Rattle.icu_trie_core.specs.ValueNumberLaws.{fitting-small, equal_numbers, signed_fitting-number, equal_signed_numbers, character-scalar};

use icu_zerovec::ule::AsULE;
use std::fmt;
use thiserror::Error;

/// A value that a trie can store: a packed value that has a 32-bit number.
///
/// A user-defined type must satisfy two laws: [`try_from_u32`](Self::try_from_u32) gives each value
/// back from its number, and two values are equal exactly if their numbers are.
pub trait TrieValue: AsULE + Eq {
    /// The error for a number that no value has.
    type TryFromU32Error: fmt::Display + Drop;

    /// The number of a value.
    ghost number: { Self → ℕ };

    /// The value with this number, if there is one.
    ghost of_number: { ℕ → Option Self };

    /// Returns the number of the value.
    fn to_u32(self) -> u32
        ensures { result ≡ number self };

    /// Returns the value with the number `i`.
    ///
    /// # Errors
    /// Returns `TryFromU32Error` if no value has this number.
    fn try_from_u32(i: u32) -> Result<Self, Self::TryFromU32Error>
        ensures ok { IfOk result (λ value. of_number i ≡ Some value) }
        ensures err { OnErr result (of_number i ≡ None) };

    /// The number of each value gives the value back.
    ghost number_gives_back: { (x : Self) → Self.is_value x → of_number (number x) ≡ Some x };

    /// Two values are equal exactly if their numbers are.
    ghost equal_by_number: { (x y : Self) → Self.is_value x → Self.is_value y
        → IsTrue (Self.eq x y) ↔ (number x ≡ number y) };
}

/// The error of [`TrieValue::try_from_u32`] for the integer types and `char`: no value of the type
/// has this number.
#[derive(Clone, Copy, Debug, PartialEq, Eq, Error)]
#[error("the number is no value of the type")]
pub struct NotAValue;

impl TrieValue for u8 {
    type TryFromU32Error = NotAValue;

    ghost number = { λ x. x };

    ghost of_number = { fitting (2 ^ 8) };

    fn to_u32(self) -> u32 {
        u32::from(self)
    }

    fn try_from_u32(i: u32) -> Result<Self, NotAValue> {
        u8::try_from(i).map_err(|_| NotAValue)
    }

    ghost number_gives_back = { fitting-small (2 ^ 8) };

    ghost equal_by_number = { λ x y _ _. equal_numbers x y };
}

impl TrieValue for u16 {
    type TryFromU32Error = NotAValue;

    ghost number = { λ x. x };

    ghost of_number = { fitting (2 ^ 16) };

    fn to_u32(self) -> u32 {
        u32::from(self)
    }

    fn try_from_u32(i: u32) -> Result<Self, NotAValue> {
        u16::try_from(i).map_err(|_| NotAValue)
    }

    ghost number_gives_back = { fitting-small (2 ^ 16) };

    ghost equal_by_number = { λ x y _ _. equal_numbers x y };
}

impl TrieValue for u32 {
    type TryFromU32Error = NotAValue;

    ghost number = { λ x. x };

    ghost of_number = { fitting (2 ^ 32) };

    fn to_u32(self) -> u32 {
        self
    }

    fn try_from_u32(i: u32) -> Result<Self, NotAValue> {
        Ok(i)
    }

    ghost number_gives_back = { fitting-small (2 ^ 32) };

    ghost equal_by_number = { λ x y _ _. equal_numbers x y };
}

impl TrieValue for i8 {
    type TryFromU32Error = NotAValue;

    ghost number = { cast_unsigned w32 };

    ghost of_number = { signed_fitting (2 ^ 7) };

    fn to_u32(self) -> u32 {
        i32::from(self).cast_unsigned()
    }

    fn try_from_u32(i: u32) -> Result<Self, NotAValue> {
        i8::try_from(i.cast_signed()).map_err(|_| NotAValue)
    }

    ghost number_gives_back = { signed_fitting-number w8 (lit≤ tt) };

    ghost equal_by_number = { equal_signed_numbers w8 (lit≤ tt) };
}

impl TrieValue for i16 {
    type TryFromU32Error = NotAValue;

    ghost number = { cast_unsigned w32 };

    ghost of_number = { signed_fitting (2 ^ 15) };

    fn to_u32(self) -> u32 {
        i32::from(self).cast_unsigned()
    }

    fn try_from_u32(i: u32) -> Result<Self, NotAValue> {
        i16::try_from(i.cast_signed()).map_err(|_| NotAValue)
    }

    ghost number_gives_back = { signed_fitting-number w16 (lit≤ tt) };

    ghost equal_by_number = { equal_signed_numbers w16 (lit≤ tt) };
}

impl TrieValue for i32 {
    type TryFromU32Error = NotAValue;

    ghost number = { cast_unsigned w32 };

    ghost of_number = { signed_fitting (2 ^ 31) };

    fn to_u32(self) -> u32 {
        self.cast_unsigned()
    }

    fn try_from_u32(i: u32) -> Result<Self, NotAValue> {
        Ok(i.cast_signed())
    }

    ghost number_gives_back = { signed_fitting-number w32 (lit≤ tt) };

    ghost equal_by_number = { equal_signed_numbers w32 (lit≤ tt) };
}

impl TrieValue for char {
    type TryFromU32Error = NotAValue;

    ghost number = { λ c. c };

    ghost of_number = { character };

    fn to_u32(self) -> u32 {
        u32::from(self)
    }

    fn try_from_u32(i: u32) -> Result<Self, NotAValue> {
        char::from_u32(i).ok_or(NotAValue)
    }

    ghost number_gives_back = { character-scalar };

    ghost equal_by_number = { λ x y _ _. equal_numbers x y };
}
