//! Values that are stored as one to four bytes.
ghost use Rattle.std.specs.Prelude.{◌≡◌, ℕ, ◌-◌, ◌<◌, ◌≤◌, List, ◌++◌, length, replicate, Option, Some};
ghost use Rattle.icu_zerovec.specs.PackedBytes.{AreBytes};

use thiserror::Error;

/// A value of one to four bytes that can be read in place, without a copy, at any address.
///
/// It is implemented for `u8`, `u16`, `u32`, `i8`, `i16`, `i32`, `char` and
/// [`PotentialCodePoint`](crate::PotentialCodePoint), each stored lowest byte first and the last
/// two in three bytes. You can implement it for your own type if packing and then unpacking a value
/// returns that value. Several byte sequences may unpack to the same value, such as a flag that any
/// byte except zero turns on.
pub trait AsULE: Copy {
    /// The number of bytes of a value, 1 to 4.
    const WIDTH: usize;

    ghost WIDTH: { ℕ };

    /// The values of the type: for `u8` the numbers up to 255, for `char` the Unicode scalar
    /// values.
    ghost is_value: { Self → Type 0 };

    /// The packed bytes of a value.
    ghost pack: { Self → List ℕ };

    /// The value of `WIDTH` bytes, if they are a value.
    ghost unpack: { List ℕ → Option Self };

    /// Returns the packed bytes of the value, followed by zeros: `0x1234_u16` gives `[0x34, 0x12,
    /// 0, 0]`.
    fn to_unaligned(self) -> [u8; 4]
        ensures { result ≡ pack self ++ replicate (4 - WIDTH) 0 };

    /// Returns the value of these bytes, or `None` if they are not a value. `bytes` must have
    /// length `WIDTH`.
    fn from_unaligned(bytes: &[u8]) -> Option<Self>
        requires { length bytes.now ≡ WIDTH }
        ensures { result ≡ unpack bytes.now };

    /// Does nothing. In a proof, it states that `self` is a value of the type.
    fn shown(self)
        ensures { is_value self };

    /// A value has at least one byte.
    ghost some_width: { 0 < WIDTH };

    /// A value has at most four bytes.
    ghost width_fits: { WIDTH ≤ 4 };

    /// A value has `WIDTH` packed bytes.
    ghost length_of_pack: { (x : Self) → is_value x → length (pack x) ≡ WIDTH };

    /// Unpacking the packed bytes of a value returns the value.
    ghost gives_back: { (x : Self) → is_value x → unpack (pack x) ≡ Some x };

    /// The packed bytes of a value are numbers below 256.
    ghost bytes_of_pack: { (x : Self) → is_value x → AreBytes (pack x) };
}

/// The error for bytes that are not a packed vector.
#[derive(Clone, Copy, Debug, PartialEq, Eq, Error)]
pub enum UleError {
    /// The number of bytes is not a multiple of the width of a value.
    #[error("the number of bytes is no multiple of the width of a value")]
    Length,
    /// The cell at this index, counted from 0, is the first one that is not a value.
    #[error("cell {0} is no value")]
    Cell(usize),
}
