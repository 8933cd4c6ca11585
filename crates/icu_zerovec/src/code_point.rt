//! Code points as packed values of three bytes, lowest byte first.
ghost use Rattle.std.specs.Prelude.{◌≡◌, ℕ, ◌^◌, ◌<◌, Some, Ok, Err, refl, nat_lt, if◌then◌else◌};
ghost use Rattle.std.specs.Char.{IsScalar};
ghost use Rattle.std.proofs.Common.{ap, lit<, lit≤};
ghost use Rattle.icu_zerovec.specs.PackedBytes.{low_bytes, number_of, scalar_of};
ghost use Rattle.icu_zerovec.specs.PackedLaws.{number_of-3, scalar-3, low_bytes-small};

use crate::ule::AsULE;
use std::marker::Model;

/// The exclusive end of the code space, 0x110000: one more than the last code point.
pub const CODE_POINT_LIMIT: u32 = 0x11_0000;

/// A 24-bit number that may be a code point, such as one read from a file. It is stored in three
/// bytes, and compared and hashed by its number.
///
/// ```
/// let last = PotentialCodePoint::from_u24(0x10ffff);
/// // PotentialCodePoint::try_from(0x1000000) is Err(0x1000000)
/// ```
///
/// # Contract
/// In contracts, it is its number.
#[derive(Clone, Copy, Debug, PartialEq, Eq, PartialOrd, Ord, Hash)]
pub struct PotentialCodePoint {
    number: u32,
}

impl Model for PotentialCodePoint {
    ghost Value = { ℕ };

    ghost view = { λ a. a.number };

    ghost invariant = { λ a. a.number < 2 ^ 24 };

    ghost inverse = { λ n. record { number = n } };
}

impl PotentialCodePoint {
    /// Returns `number` as a potential code point. It must be below 0x1000000; if that is not
    /// known, use `try_from`.
    pub fn from_u24(number: u32) -> Self
        requires { number < 2 ^ 24 }
        ensures { result ≡ number }
    {
        PotentialCodePoint { number }
    }
}

/// Fails if the number needs more than 24 bits, and returns the number as the error.
impl TryFrom<u32> for PotentialCodePoint {
    type Error = u32;

    ghost try_from_gives = { λ x r. r ≡ (if nat_lt x (2 ^ 24) then Ok x else Err x) };

    fn try_from(number: u32) -> Result<PotentialCodePoint, u32> {
        if number < 0x100_0000 {
            Ok(PotentialCodePoint { number })
        } else {
            Err(number)
        }
    }
}

/// Returns the number, whether or not it is a code point.
impl From<PotentialCodePoint> for u32 {
    ghost from_gives = { λ x r. r ≡ x };

    fn from(point: PotentialCodePoint) -> u32 {
        point.number
    }
}

/// Any three bytes are a 24-bit number.
impl AsULE for PotentialCodePoint {
    const WIDTH: usize = 3;

    ghost WIDTH = { 3 };

    ghost is_value = { λ x. x < 2 ^ 24 };

    ghost pack = { low_bytes 3 };

    ghost unpack = { λ b. Some (number_of 3 b) };

    ghost some_width = { lit< tt };

    ghost width_fits = { lit≤ tt };

    ghost length_of_pack = { λ x h. refl };

    ghost gives_back = { λ x h. ap Some (number_of-3 x h) };

    ghost bytes_of_pack = { λ x h. low_bytes-small 3 x };

    fn to_unaligned(self) -> [u8; 4] {
        self.number.to_le_bytes()
    }

    fn from_unaligned(bytes: &[u8]) -> Option<PotentialCodePoint> {
        Some(PotentialCodePoint {
            number: u32::from_le_bytes([bytes[0], bytes[1], bytes[2], 0]),
        })
    }

    fn shown(self) {}
}

/// Three bytes are a `char` if their number is a Unicode scalar value: 0..=0xD7FF or
/// 0xE000..=0x10FFFF. A surrogate is not a `char`.
impl AsULE for char {
    const WIDTH: usize = 3;

    ghost WIDTH = { 3 };

    ghost is_value = { IsScalar };

    ghost pack = { low_bytes 3 };

    ghost unpack = { scalar_of };

    ghost some_width = { lit< tt };

    ghost width_fits = { lit≤ tt };

    ghost length_of_pack = { λ x h. refl };

    ghost gives_back = { scalar-3 };

    ghost bytes_of_pack = { λ x h. low_bytes-small 3 x };

    fn to_unaligned(self) -> [u8; 4] {
        (self as u32).to_le_bytes()
    }

    fn from_unaligned(bytes: &[u8]) -> Option<char> {
        char::from_u32(u32::from_le_bytes([bytes[0], bytes[1], bytes[2], 0]))
    }

    fn shown(self) {}
}
